//! Heads of requests, and their priorities.

use crate::common::{is_tight, ladder, of_size};
use httparse::Status;
use httparse::spans::{EMPTY_HEADER_SPAN, HeaderSpan};
use sfv::{Error, ErrorKind, Version};
use sfv_http_fields::request::{RequestFault, request_field, request_priority};
use std::alloc::Global;
use std::test::Fail;

const ROOM: [HeaderSpan; 4] = [EMPTY_HEADER_SPAN; 4];

// Returns `true` if the request has this urgency and flag under both versions.
pub fn has_priority(alloc: Global, input: &[u8], wanted: (u8, bool)) -> bool {
    let (mut holds, mut headers) = (true, ROOM);
    for &version in &[Version::Rfc8941, Version::Rfc9651] {
        holds &= match request_priority(alloc, version, input, &mut headers) {
            Ok(Status::Complete(priority)) => (priority.urgency, priority.incremental) == wanted,
            _ => false,
        };
    }
    holds
}

#[test]
fn requests_have_their_priority(rt: HostRuntime) {
    let rows: &[(&[u8], (u8, bool))] = &[
        (b"GET / HTTP/1.1\r\npriority: u=1, i\r\n\r\nbody", (1, true)),
        (
            b"GET / HTTP/1.1\r\nPriority: u=1\r\nHost: a\r\nPRIORITY:i\r\n\r\n",
            (1, true),
        ),
        (
            b"GET / HTTP/1.1\r\npriority: u=1\r\npriority: u=5\r\n\r\n",
            (5, false),
        ),
        (b"GET / HTTP/1.1\r\nHost: a\r\n\r\n", (3, false)),
        (b"GET / HTTP/1.1\r\npriority: \t \r\n\r\n", (3, false)),
        (
            b"GET / HTTP/1.1\r\npriorities: u=1\r\nx-priority: u=1\r\n\r\n",
            (3, false),
        ),
        (b"GET / HTTP/1.1\npriority: u=9, i=?1\n\n", (3, true)),
    ];
    for &(input, wanted) in rows {
        assert!(rt; has_priority(rt.alloc(), input, wanted));
    }
}

// Returns `true` if the field of the request has an error of this kind at this index of the joined text, under both
// versions.
pub fn has_fault(alloc: Global, input: &[u8], kind: ErrorKind, index: usize) -> bool {
    let (mut holds, mut headers) = (true, ROOM);
    let fault = RequestFault::Field(Error::at(kind, index));
    for &version in &[Version::Rfc8941, Version::Rfc9651] {
        holds &= request_priority(alloc, version, input, &mut headers) == Err(fault);
    }
    holds
}

#[test]
fn fields_have_their_fault(rt: HostRuntime) {
    let rows: &[(&[u8], ErrorKind, usize)] = &[
        (
            b"GET / HTTP/1.1\r\npriority: u=1,\r\n\r\n",
            ErrorKind::TrailingComma,
            3,
        ),
        (
            b"GET / HTTP/1.1\r\npriority:\r\npriority: u=1\r\n\r\n",
            ErrorKind::ExpectedStartOfKey,
            0,
        ),
        (
            b"GET / HTTP/1.1\r\npriority: u=1\r\npriority: I\r\n\r\n",
            ErrorKind::ExpectedStartOfKey,
            5,
        ),
    ];
    for &(input, kind, index) in rows {
        assert!(rt; has_fault(rt.alloc(), input, kind, index));
    }
}

/// Returns `true` if the field of this name is complete, and its text keeps little unused memory.
pub fn is_field(alloc: Global, name: &str, head: &str, lines: usize, expected: &str) -> bool {
    let Ok(mut headers) = vec![in alloc; EMPTY_HEADER_SPAN; lines] else {
        return false;
    };
    match request_field(alloc, name, head.as_bytes(), &mut headers[..]) {
        Ok(Status::Complete(text)) => {
            text.as_slice() == expected.as_bytes() && is_tight(text.capacity(), text.len())
        }
        _ => false,
    }
}

#[test]
fn lines_are_joined(rt: HostRuntime) {
    let head = "GET / HTTP/1.1\r\nA: 1 \r\nb: 2\r\na:\r\nA:\t3\r\n\r\n";
    for &(name, expected) in &[("a", "1, , 3"), ("B", "2"), ("c", "")] {
        assert!(rt; is_field(rt.alloc(), name, head, 4, expected));
    }
}

/// Returns `true` if so many lines of this name and value are joined, and those of an absent name are none.
fn are_joined(alloc: Global, name: &str, value: &str, lines: usize) -> Result<bool, Fail> {
    let part = format!(in alloc; "{name}: {value}\r\nb: x\r\n")?;
    let head = of_size(
        alloc,
        ("GET / HTTP/1.1\r\n", part.as_str(), "", "\r\n"),
        lines,
    )?;
    let text = of_size(alloc, ("", value, ", ", ""), lines)?;
    let (head, count) = (head.as_str(), lines.saturating_mul(2));
    Ok(
        is_field(alloc, name, head, count, text.as_str())
            && is_field(alloc, "absent", head, count, ""),
    )
}

#[test]
fn lines_of_every_number_and_length_are_joined(rt: HostRuntime) -> Result<(), Fail> {
    let alloc = rt.alloc();
    let mut holds = true;
    for &lines in ladder(alloc, 300, 1 << 12)?.iter() {
        holds &= are_joined(alloc, "a", "u=1", lines)?;
    }
    for &length in ladder(alloc, 2_200, 1 << 21)?.iter() {
        let text = of_size(alloc, ("", "a", "", ""), length)?;
        holds &= are_joined(alloc, "a", text.as_str(), 1)?
            && are_joined(alloc, "a", text.as_str(), 3)?
            && (length == 0 || are_joined(alloc, text.as_str(), "1", 2)?);
    }
    assert!(rt; holds);
    Ok(())
}

#[test]
fn priorities_of_every_length_are_read(rt: HostRuntime) -> Result<(), Fail> {
    let alloc = rt.alloc();
    let mut holds = true;
    for &length in ladder(alloc, 2_200, 1 << 21)?.iter() {
        let line = of_size(
            alloc,
            ("priority: u=1, a", "a", "", "\r\nPriority: i"),
            length,
        )?;
        let head = format!(in alloc; "GET / HTTP/1.1\r\n{line}\r\n\r\n")?;
        holds &= has_priority(alloc, head.as_str().as_bytes(), (1, true));
        let text = of_size(alloc, ("a", "a", "", ","), length)?;
        let head = format!(in alloc; "GET / HTTP/1.1\r\npriority: {text}\r\n\r\n")?;
        let index = text.len().saturating_sub(1);
        holds &= has_fault(
            alloc,
            head.as_str().as_bytes(),
            ErrorKind::TrailingComma,
            index,
        );
    }
    assert!(rt; holds);
    Ok(())
}

#[test]
fn heads_may_be_incomplete(rt: HostRuntime) {
    let mut headers = ROOM;
    let head = b"GET / HTTP/1.1\r\n";
    let answer = request_priority(rt.alloc(), Version::Rfc9651, head, &mut headers);
    assert!(rt; answer == Ok(Status::Partial));
}

// Returns `true` if the error prints as this text.
fn is_printed(alloc: Global, fault: RequestFault, wanted: &str) -> bool {
    match fault.to_string(alloc) {
        Ok(text) => text.as_str() == wanted,
        Err(_) => false,
    }
}

// Returns `true` if a head that goes on so after the target has this error, whatever the length of the target.
fn is_rejected(alloc: Global, end: &str, wanted: httparse::Error) -> Result<bool, Fail> {
    let (mut holds, fault) = (true, RequestFault::Head(wanted));
    for &length in &[0, 100, 10_000] {
        let head = of_size(alloc, ("GET /", "a", "", end), length)?;
        let (input, mut headers) = (head.as_str().as_bytes(), ROOM);
        for &version in &[Version::Rfc8941, Version::Rfc9651] {
            holds &= request_priority(alloc, version, input, &mut headers) == Err(fault);
        }
        holds &= request_field(alloc, "a", input, &mut headers).err() == Some(fault);
    }
    Ok(holds)
}

// The texts of heads after the target, their errors, and what these print.
#[rattlefmt::skip]
const HEADS: &[(&str, httparse::Error, &str)] = &[
    (" HTTP/1.1\r\na:1\r\nb:2\r\nc:3\r\nd:4\r\ne:5\r\n\r\n", httparse::Error::TooManyHeaders, "too many headers"),
    ("\u{1} HTTP/1.1\r\n\r\n", httparse::Error::Token, "invalid token"),
    ("\r\n", httparse::Error::Token, "invalid token"),
    (" HTTP/2.0\r\n\r\n", httparse::Error::Version, "invalid HTTP version"),
    (" HTTP/1.1\rX", httparse::Error::NewLine, "invalid new line"),
    (" HTTP/1.1\r\na b: c\r\n\r\n", httparse::Error::HeaderName, "invalid header name"),
    (" HTTP/1.1\r\na: \u{1}\r\n\r\n", httparse::Error::HeaderValue, "invalid header value"),
];

#[test]
fn heads_have_their_fault(rt: HostRuntime) -> Result<(), Fail> {
    let alloc = rt.alloc();
    let mut holds = true;
    for &(end, fault, text) in HEADS {
        holds &= is_rejected(alloc, end, fault)?;
        holds &= is_printed(alloc, RequestFault::Head(fault), text);
    }
    let status = RequestFault::Head(httparse::Error::Status);
    let field = RequestFault::Field(Error::at(ErrorKind::TrailingComma, 3));
    holds &= is_printed(alloc, status, "invalid response status");
    holds &= is_printed(alloc, field, "trailing comma at index 3");
    assert!(rt; holds);
    Ok(())
}
