//! The Proxy-Status field.

use crate::common::{is_tight, ladder, of_size};
use sfv::{StringFromInput, StringRef, TokenRef, Version, string_ref, token_ref};
use sfv_http_fields::proxy_status::reading::{Name, Proxy, last_proxy};
use sfv_http_fields::proxy_status::writing::write_proxy;
use std::alloc::Global;
use std::test::Fail;

/// Returns `true` if the name is this string or token.
fn is_named(name: &Name<'_>, wanted: &str) -> bool {
    match name {
        Name::String(text) => text.as_string_ref().as_str() == wanted,
        Name::Token(token) => token.as_str() == wanted,
    }
}

/// Returns `true` if the intermediary has this name, error type and status.
fn is_proxy(proxy: &Proxy<'_>, name: &str, error: Option<&str>, status: Option<u16>) -> bool {
    is_named(&proxy.name, name)
        && proxy.error.map(|token| token.as_str()) == error
        && proxy.received_status == status
}

/// A field, and the name, error type and status of its last intermediary.
type Row = (
    &'static str,
    &'static str,
    Option<&'static str>,
    Option<u16>,
);

// Examples of RFC 9209, sections 2 and 2.1, and others.
const READ: &[Row] = &[
    (
        "FooProxy, ExampleCDN; error=connection_timeout",
        "ExampleCDN",
        Some("connection_timeout"),
        None,
    ),
    (
        "r34.example.net; received-status=200",
        "r34.example.net",
        None,
        Some(200),
    ),
    (
        "a;error=b;error=c;received-status=99;received-status=599",
        "a",
        Some("c"),
        Some(599),
    ),
    (
        "\"a b\\\"\";error=\"c\";received-status=600",
        "a b\"",
        None,
        None,
    ),
];

#[test]
fn last_intermediaries_are_read(rt: HostRuntime) {
    for &(input, name, error, status) in READ {
        match last_proxy(rt.alloc(), input.as_bytes(), Version::Rfc9651) {
            Ok(Some(proxy)) => assert!(rt; is_proxy(&proxy, name, error, status), "{input}"),
            _ => panic!(rt; "{input}"),
        }
    }
}

/// Returns `true` if the field has no last intermediary.
fn has_none(alloc: Global, input: &str) -> bool {
    matches!(
        last_proxy(alloc, input.as_bytes(), Version::Rfc8941),
        Ok(None)
    )
}

#[test]
fn other_members_are_no_intermediary(rt: HostRuntime) {
    for &input in &["", "a, 1;error=b", "a, (b);error=c"] {
        assert!(rt; has_none(rt.alloc(), input), "{input}");
    }
    assert!(rt; last_proxy(rt.alloc(), b"a,", Version::Rfc9651).is_err());
}

/// Returns `true` if the member with the error `b` is appended as this text.
fn is_written(alloc: Global, name: &Name<'_>, status: u16, wanted: &str) -> bool {
    let Ok(mut text) = String::from_str(alloc, "a: ") else {
        return false;
    };
    if status < 100 || status > 599 {
        return false;
    }
    let written = write_proxy(&mut text, name, token_ref("b"), status);
    written.is_ok() && text.as_str().strip_prefix("a: ") == Some(wanted)
}

#[test]
fn members_are_written(rt: HostRuntime) {
    let alloc = rt.alloc();
    let token = Name::Token(token_ref("c"));
    assert!(rt; is_written(alloc, &token, 100, "c;error=b;received-status=100"));
    assert!(rt; is_written(alloc, &token, 599, "c;error=b;received-status=599"));
    let string = Name::String(StringFromInput::Borrowed(string_ref("c \"")));
    assert!(rt;
        is_written(
            alloc,
            &string,
            200,
            "\"c \\\"\";error=b;received-status=200"
        )
    );
}

/// Returns `true` if the member of this name is written, and parses back to the same name, which borrows the text unless
/// it has an escape there.
pub fn comes_back(alloc: Global, name: &Name<'_>, wanted: &str, status: u16) -> bool {
    if status < 100 || status > 599 {
        return false;
    }
    let mut text = String::new(alloc);
    if write_proxy(&mut text, name, token_ref("b"), status).is_err() {
        return false;
    }
    let is_borrowed = !text.as_str().contains('\\');
    match last_proxy(alloc, text.as_str().as_bytes(), Version::Rfc8941) {
        Ok(Some(proxy)) => {
            is_proxy(&proxy, wanted, Some("b"), Some(status))
                && is_tight(text.capacity(), text.len())
                && is_borrowed != matches!(proxy.name, Name::String(StringFromInput::Owned(_)))
        }
        _ => false,
    }
}

#[test]
fn members_of_every_name_and_status_come_back(rt: HostRuntime) -> Result<(), Fail> {
    let alloc = rt.alloc();
    let mut holds = true;
    for status in 100..600 {
        holds &= comes_back(alloc, &Name::Token(token_ref("c")), "c", status);
    }
    for &length in ladder(alloc, 2_200, 1 << 21)?.iter() {
        for &front in &["", " ", "\"", "\\a"] {
            let text = of_size(alloc, (front, "a", "", ""), length)?;
            let string = StringRef::from_str(text.as_str())?;
            let name = Name::String(StringFromInput::Borrowed(string));
            holds &= comes_back(alloc, &name, text.as_str(), 200);
        }
        let text = of_size(alloc, ("c", "a", "", ""), length)?;
        let name = Name::Token(TokenRef::from_str(text.as_str())?);
        holds &= comes_back(alloc, &name, text.as_str(), 200);
    }
    assert!(rt; holds);
    Ok(())
}
