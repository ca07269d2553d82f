//! A message, and lists of identifiers.

use http_header::{HeaderMap, HeaderName, HeaderValue};
use sfv::{FieldKind, InnerList, List, ListEntry, Parser};
use sfv_signatures::{BaseError, HttpMessage, MessagePart, signature_base};
use std::alloc::Global;
use std::test::Fail;

/// Returns the fields of these lines.
pub fn fields(alloc: Global, lines: &[(&str, &str)]) -> Result<HeaderMap, Fail> {
    let mut map = HeaderMap::new(alloc);
    for &(name, value) in lines {
        let name = HeaderName::from_bytes(alloc, name.as_bytes())?;
        map.append(name, HeaderValue::from_bytes(alloc, value.as_bytes())?)?;
    }
    Ok(map)
}

/// Returns the inner list of this text.
pub fn inner_list(alloc: Global, text: &[u8]) -> Result<InnerList, Fail> {
    let mut members = Parser::new(text).parse::<List>(alloc).ok().ok_or("list")?;
    match members.pop() {
        Some(ListEntry::InnerList(list)) => Ok(list),
        _ => Err(Fail::from("inner list")),
    }
}

const LINES: &[(&str, &str)] = &[
    ("Host", "www.example.com"),
    ("X-OWS-Header", "  Leading and trailing whitespace. \t"),
    ("Cache-Control", "max-age=60"),
    ("Cache-Control", "   must-revalidate"),
    ("X-Empty-Header", ""),
    ("Example-Dict", " a=1,    b=2;x=1;y=2,   c=(a   b   c), d"),
    ("Example-Header", "value, with, lots"),
    ("Example-Header", "of, commas"),
    ("Twice", "a=1"),
    ("Twice", "a=2;p"),
    ("Item", "?1"),
    ("List", "a,b"),
    ("Broken", "a=,"),
    ("Content-Length", "18"),
];

const TRAILERS: &[(&str, &str)] = &[("Expires", "Wed, 9 Nov 2022 07:28:00 GMT")];

const REQUEST_LINES: &[(&str, &str)] = &[("Signature", "sig1=:AA==:"), ("Example-Dict", "a=9")];

const DERIVED: &[(&str, &str)] = &[
    ("@method", "POST"),
    ("@authority", "example.com"),
    ("@path", "/foo"),
    ("@query", "?a\nb"),
    ("@scheme", "https"),
    ("@status", "200"),
    ("@request-target", "\u{e9}"),
    ("@target-uri", "a"),
    ("@target-uri", "b"),
];

const QUERY: &[(&str, &str)] = &[
    ("var", "this%20is"),
    ("twice", "1"),
    ("twice", "2"),
    ("", "none"),
];

const TYPES: &[(&str, FieldKind)] = &[
    ("example-dict", FieldKind::Dictionary),
    ("item", FieldKind::Item),
    ("list", FieldKind::List),
    ("broken", FieldKind::List),
    ("x-empty-header", FieldKind::List),
];

const REQUEST: &[(&str, &str)] = &[("@method", "GET")];

/// Returns the part of a message.
pub fn part<'a>(
    fields: &'a HeaderMap,
    trailers: Option<&'a HeaderMap>,
    derived: &'a [(&'a str, &'a str)],
    query_params: &'a [(&'a str, &'a str)],
) -> MessagePart<'a> {
    MessagePart {
        fields,
        trailers,
        derived,
        query_params,
    }
}

/// Returns the base of an inner list and a message.
pub fn base_over<'a>(
    alloc: Global,
    list: &InnerList,
    own: MessagePart<'a>,
    request: MessagePart<'a>,
    types: &'a [(&'a str, FieldKind)],
) -> Result<String, BaseError> {
    let message = HttpMessage {
        own,
        request: Some(request),
        types,
    };
    signature_base(alloc, list, &message)
}

/// Returns the base of this inner list and the message.
pub fn base_of(alloc: Global, list: &str) -> Result<Result<String, BaseError>, Fail> {
    let own = fields(alloc, LINES)?;
    let trailers = fields(alloc, TRAILERS)?;
    let asked = fields(alloc, REQUEST_LINES)?;
    let own = part(&own, Some(&trailers), DERIVED, QUERY);
    let request = part(&asked, None, REQUEST, &[]);
    let list = inner_list(alloc, list.as_bytes())?;
    Ok(base_over(alloc, &list, own, request, TYPES))
}
