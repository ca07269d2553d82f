//! Verification of contents.

use crate::common::{Line, map_of};
use sfv::{Error, ErrorKind};
use sfv_digests::{Algorithm, DigestField, Verification, verify_digest, verify_digest_in};
use std::alloc::Global;

const CONTENT: &[u8] = b"{\"hello\": \"world\"}";

#[test]
fn contents_are_verified(rt: HostRuntime) {
    let rows = &[
        (
            "sha-256=:X48E9qOokqqrvdts8nOJRJN3OWDUoyWxBf7kbu9DBPE=:",
            Verification::Matches,
        ),
        (
            "sha-512=:WZDPaVn/7XgHaAy8pmojAkGWoRx2UFChF41A2svX+TaPm+AbwAgBWnrIiYllu7BNNyealdVLvRwEmTHWXvJwew==:;x",
            Verification::Matches,
        ),
        (
            "md5=1, sha-512=:WZDPaVn/7XgHaAy8pmojAkGWoRx2UFChF41A2svX+TaPm+AbwAgBWnrIiYllu7BNNyealdVLvRwEmTHWXvJwew==:, sha-256=:X48E9qOokqqrvdts8nOJRJN3OWDUoyWxBf7kbu9DBPE=:",
            Verification::Matches,
        ),
        (
            "sha-256=1, sha-256=:X48E9qOokqqrvdts8nOJRJN3OWDUoyWxBf7kbu9DBPE=:",
            Verification::Matches,
        ),
        (
            "sha-256=:X48E9qOokqqrvdts8nOJRJN3OWDUoyWxBf7kbu9DBPI=:",
            Verification::Differs(Algorithm::Sha256),
        ),
        (
            "sha-256=:Y48E9qOokqqrvdts8nOJRJN3OWDUoyWxBf7kbu9DBPE=:",
            Verification::Differs(Algorithm::Sha256),
        ),
        (
            "sha-256=:X48E9qOokqqrvdts8nOJRJN3OWDUoyWxBf7kbu9DBPE=:, sha-512=:X48E9qOokqqrvdts8nOJRJN3OWDUoyWxBf7kbu9DBPE=:",
            Verification::Differs(Algorithm::Sha512),
        ),
        (
            "sha-512=::, sha-256=::",
            Verification::Differs(Algorithm::Sha256),
        ),
        ("sha-512=(:AA==:)", Verification::Differs(Algorithm::Sha512)),
        ("sha-256", Verification::Differs(Algorithm::Sha256)),
        ("md5=:AA==:", Verification::NoKnownAlgorithm),
        ("", Verification::NoKnownAlgorithm),
    ];
    for &(text, expected) in rows {
        assert!(rt;
            verify_digest(rt.alloc(), text.as_bytes(), CONTENT) == Ok(expected),
            "{text}"
        );
    }
}

#[test]
fn a_text_that_is_no_dictionary_is_rejected(rt: HostRuntime) {
    let expected = Err(Error::at(ErrorKind::TrailingComma, 10));
    assert!(rt; verify_digest(rt.alloc(), b"sha-256=1 ,", CONTENT) == expected);
}

const LINES: &[Line] = &[
    ("Content-Digest", "md5=1"),
    (
        "content-digest",
        "sha-256=:X48E9qOokqqrvdts8nOJRJN3OWDUoyWxBf7kbu9DBPE=:",
    ),
    ("Repr-Digest", "sha-256=:AAAA:"),
];

// Returns `true` if the field of a header map gives this result.
fn gives(alloc: Global, lines: &[Line], field: DigestField, expected: Verification) -> bool {
    let Some(headers) = map_of(alloc, lines) else {
        return false;
    };
    verify_digest_in(alloc, &headers, field, CONTENT) == Ok(expected)
}

/// Returns `true` if the content matches a field of two lines.
pub fn matches(alloc: Global) -> bool {
    gives(
        alloc,
        LINES,
        DigestField::ContentDigest,
        Verification::Matches,
    )
}

#[test]
fn contents_are_verified_by_a_header_map(rt: HostRuntime) {
    let different = Verification::Differs(Algorithm::Sha256);
    let alloc = rt.alloc();
    assert!(rt; matches(alloc));
    assert!(rt; gives(alloc, LINES, DigestField::ReprDigest, different));
    assert!(rt; gives(alloc, &[], DigestField::ReprDigest, Verification::NoField));
}
