//! The Cache-Status field: its last hit.

use sfv::Version;
use sfv_http_fields::cache_status::last_hit;
use std::alloc::Global;

// The nearest to the user is last: one cache that had the response, and two that forwarded the request.
const THREE_CACHES: &str =
    "ReverseProxyCache; hit, ForwardProxyCache; fwd=uri-miss; collapsed; stored, \
    BrowserCache; fwd=uri-miss";

// Returns `true` if the last hit of the field is this one, with its `ttl`, if it has one.
fn has_hit(alloc: Global, input: &str, expected: Option<Option<i64>>) -> bool {
    match last_hit(alloc, input.as_bytes(), Version::Rfc9651) {
        Ok(found) => found.map(|hit| hit.ttl.map(|ttl| ttl.to_i64())) == expected,
        Err(_) => false,
    }
}

// The examples of RFC 9211, section 3, and others.
#[test]
fn last_hits_are_found(rt: HostRuntime) {
    let rows = &[
        ("ExampleCache; hit", Some(None)),
        ("ExampleCache; hit; ttl=376", Some(Some(376))),
        ("ExampleCache; hit; ttl=-412", Some(Some(-412))),
        ("ExampleCache; fwd=uri-miss; collapsed=?0", None),
        (
            "OriginCache; hit; ttl=1100, \"CDN Company Here\"; hit; ttl=545",
            Some(Some(545)),
        ),
        (THREE_CACHES, Some(None)),
        ("", None),
        ("a; ttl=1; hit, b; ttl=2; hit=?0", Some(Some(1))),
        ("a; hit; hit=?0", None),
        ("a; hit=?0; ttl=1; hit; ttl=2", Some(Some(2))),
        ("a; hit=1", None),
        ("a; hit; ttl=1.0", Some(None)),
        ("(a; hit); hit; ttl=1", None),
        ("a; hit, (b; ttl=1); ttl=2", Some(None)),
        ("a; hit; ttl=\"\\\"\"", Some(None)),
        ("a;hit", Some(None)),
        ("\"a\";hit", Some(None)),
        ("\"\\\"\";hit;ttl=1", Some(Some(1))),
        ("(a);hit", None),
        ("1;hit", None),
        ("1.0;hit", None),
        ("?1;hit", None),
        (":aGk=:;hit", None),
        ("@1;hit", None),
        ("%\"a\";hit", None),
        ("a;hit;ttl=1, 1;hit;ttl=2", Some(Some(1))),
    ];
    for &(input, expected) in rows {
        assert!(rt; has_hit(rt.alloc(), input, expected));
    }
}
