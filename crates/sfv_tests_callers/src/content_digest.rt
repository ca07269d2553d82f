//! The Content-Digest field.

use crate::common::{has_text, is_tight, ladder};
use sfv_http_fields::content_digest::{ContentDigest, DigestError, read, reread, write};
use std::alloc::{AllocError, Global};
use std::test::Fail;

// Both digests of a content (RFC 9530, section 2), after an earlier one and another algorithm.
const FIELD: &[u8] = b"sha-256=:AAAA:, md5=1, \
    sha-512=:YMAam51Jz/jOATT6/zvHrLVgOYTGFy1d6GJiOHTohq4yP+pgk4vf2aCsyRZOtw8MjkM7iw7yZ/WkppmM44T3qg==:, \
    sha-256=:d435Qo+nKZ+gLcUHn7GQtQ72hiBVAgqoLsZnZPiTGPk=:;x";

// The text of these digests.
const TEXT: &str = "sha-256=:d435Qo+nKZ+gLcUHn7GQtQ72hiBVAgqoLsZnZPiTGPk=:, \
    sha-512=:YMAam51Jz/jOATT6/zvHrLVgOYTGFy1d6GJiOHTohq4yP+pgk4vf2aCsyRZOtw8MjkM7iw7yZ/WkppmM44T3qg==:";

const NONE: ContentDigest = ContentDigest {
    sha_256: None,
    sha_512: None,
};

/// Returns `true` if the bytes are the SHA-256 digest of the field.
fn is_sha_256(bytes: &[u8]) -> bool {
    bytes.len() == 32 && bytes.first() == Some(&0x77) && bytes.last() == Some(&0xf9)
}

/// Returns `true` if the field has both digests.
fn has_both(alloc: Global) -> bool {
    let Ok(digest) = read(alloc, FIELD) else {
        return false;
    };
    match &digest.sha_256 {
        Some(sha_256) => is_sha_256(sha_256) & digest.sha_512.is_some(),
        None => false,
    }
}

/// Returns `true` if the field has no digest.
fn has_none(alloc: Global, field: &[u8]) -> bool {
    match read(alloc, field) {
        Ok(digest) => digest.sha_256.is_none() & digest.sha_512.is_none(),
        Err(_) => false,
    }
}

#[test]
fn digests_are_read(rt: HostRuntime) {
    assert!(rt; has_both(rt.alloc()));
    assert!(rt; has_none(rt.alloc(), b"md5=1"));
}

/// Returns `true` if the field has a member of another kind.
fn is_of_wrong_type(alloc: Global, field: &str) -> bool {
    matches!(read(alloc, field.as_bytes()), Err(DigestError::WrongType))
}

#[test]
fn other_types_have_their_error(rt: HostRuntime) {
    for &field in &["sha-256=1", "sha-512=(:AA==:)", "sha-256=:AA==:, sha-256"] {
        assert!(rt; is_of_wrong_type(rt.alloc(), field), "{field}");
    }
}

/// Returns the text of the digests of the field.
fn written(alloc: Global) -> Option<String> {
    let digest = read(alloc, FIELD).ok()?;
    write(alloc, &digest).ok()?
}

#[test]
fn digests_are_written(rt: HostRuntime) {
    assert!(rt; has_text(written(rt.alloc()), TEXT));
    assert!(rt; matches!(write(rt.alloc(), &NONE), Ok(None)));
}

/// Returns so many equal bytes, or none.
fn bytes(alloc: Global, length: Option<usize>) -> Result<Option<Vec<u8>>, AllocError> {
    match length {
        Some(length) => Ok(Some(vec![in alloc; (length % 256) as u8; length]?)),
        None => Ok(None),
    }
}

/// Returns `true` if digests are equal, and the second one keeps little unused memory.
fn is_same(digest: &Option<Vec<u8>>, again: &Option<Vec<u8>>) -> bool {
    match again {
        Some(bytes) => digest == again && is_tight(bytes.capacity(), bytes.len()),
        None => digest.is_none(),
    }
}

/// Returns `true` if the digests are written, and parse back.
pub fn is_reread(alloc: Global, digest: &ContentDigest) -> bool {
    let (Ok(Some(text)), Ok(Some(again))) = (write(alloc, digest), reread(alloc, digest)) else {
        return false;
    };
    is_tight(text.capacity(), text.len())
        && is_same(&digest.sha_256, &again.sha_256)
        && is_same(&digest.sha_512, &again.sha_512)
}

/// The same for digests of these lengths.
pub fn come_back(
    alloc: Global,
    sha_256: Option<usize>,
    sha_512: Option<usize>,
) -> Result<bool, AllocError> {
    let digest = ContentDigest {
        sha_256: bytes(alloc, sha_256)?,
        sha_512: bytes(alloc, sha_512)?,
    };
    Ok(is_reread(alloc, &digest))
}

#[test]
fn digests_of_every_length_come_back(rt: HostRuntime) -> Result<(), Fail> {
    let alloc = rt.alloc();
    let mut holds = matches!(reread(alloc, &NONE), Ok(None));
    for &length in ladder(alloc, 2_200, 1 << 21)?.iter() {
        holds &= come_back(alloc, Some(length), None)?
            & come_back(alloc, None, Some(length))?
            & come_back(alloc, Some(length), Some(length))?
            & come_back(alloc, Some(length / 2), Some(length))?;
    }
    assert!(rt; holds);
    Ok(())
}
