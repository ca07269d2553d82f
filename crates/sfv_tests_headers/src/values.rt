//! The values of fields in a header map.

use crate::common::{Line, map_of};
use http_header::{HeaderMap, HeaderName};
use sfv::{Dictionary, Error, ErrorKind, FieldType, HashSeed, Item, List, Parser, Version};
use sfv_headers::{WriteError, field_text, read_field, write_field};
use std::alloc::Global;
use std::test::Fail;

const LINES: &[Line] = &[
    ("d", "a=1, b;x"),
    ("d", "a=2"),
    ("l", "1 ,(2 3);y"),
    ("l", "t"),
    ("i", " ?1;a"),
    ("two", "1"),
    ("two", "2"),
    ("date", "@1"),
    ("empty", ""),
];

// Returns the canonical text of a field of this type, or `None` without such a text.
fn text_of<T: FieldType>(
    alloc: Global,
    headers: &HeaderMap,
    name: &str,
) -> Result<Option<String>, Error> {
    let field = read_field::<T, &str>(alloc, headers, name, Version::Rfc9651, HashSeed::default())?;
    let Some(value) = field else {
        return Ok(None);
    };
    Ok(value.serialize(alloc)?.into())
}

/// A type of field.
#[derive(Clone, Copy)]
pub enum Kind {
    /// An item.
    Item,
    /// A list.
    List,
    /// A dictionary.
    Dictionary,
}

/// Returns `true` if the field has this text.
pub fn has_text(alloc: Global, kind: Kind, name: &str, expected: Option<&str>) -> bool {
    let Some(headers) = map_of(alloc, LINES) else {
        return false;
    };
    let text = match kind {
        Kind::Item => text_of::<Item>(alloc, &headers, name),
        Kind::List => text_of::<List>(alloc, &headers, name),
        Kind::Dictionary => text_of::<Dictionary>(alloc, &headers, name),
    };
    match (text, expected) {
        (Ok(Some(text)), Some(expected)) => text.as_str() == expected,
        (Ok(None), None) => true,
        _ => false,
    }
}

#[test]
fn fields_have_their_value(rt: HostRuntime) {
    let rows = &[
        (Kind::Dictionary, "D", Some("a=2, b;x")),
        (Kind::List, "l", Some("1, (2 3);y, t")),
        (Kind::Item, "i", Some("?1;a")),
        (Kind::Item, "date", Some("@1")),
        (Kind::List, "empty", None),
        (Kind::Item, "absent", None),
    ];
    for &(kind, name, expected) in rows {
        assert!(rt; has_text(rt.alloc(), kind, name, expected), "{name}");
    }
}

// Returns the error of the item of this name under a version.
fn item_error(alloc: Global, name: &str, version: Version) -> Option<Error> {
    let headers = map_of(alloc, LINES)?;
    read_field::<Item, &str>(alloc, &headers, name, version, HashSeed::default()).err()
}

#[test]
fn wrong_fields_are_rejected(rt: HostRuntime) {
    let rows = &[
        (
            "two",
            Version::Rfc9651,
            ErrorKind::TrailingCharactersAfterParsedValue,
            1,
        ),
        ("date", Version::Rfc8941, ErrorKind::Rfc8941Date, 0),
        (
            "empty",
            Version::Rfc9651,
            ErrorKind::ExpectedStartOfBareItem,
            0,
        ),
    ];
    for &(name, version, kind, index) in rows {
        let expected = Some(Error::at(kind, index));
        assert!(rt; item_error(rt.alloc(), name, version) == expected, "{name}");
    }
}

// Returns `true` if the text of the field is `expected`.
fn is_line(alloc: Global, headers: &HeaderMap, expected: Option<&str>) -> bool {
    match (field_text(alloc, headers, "d"), expected) {
        (Ok(Some(text)), Some(expected)) => text.as_slice() == expected.as_bytes(),
        (Ok(None), None) => true,
        _ => false,
    }
}

// Parses a value and writes it as the field `d` of a header map. Returns the error of writing.
fn write<T: FieldType>(
    alloc: Global,
    headers: &mut HeaderMap,
    text: &str,
    version: Version,
) -> Option<Result<(), WriteError>> {
    let value = Parser::new(text.as_bytes()).parse::<T>(alloc).ok()?;
    let name = HeaderName::from_bytes(alloc, b"D").ok()?;
    Some(write_field(alloc, headers, name, version, &value))
}

/// Returns `true` if the value is written, and then the field has this text.
pub fn is_written(alloc: Global, kind: Kind, text: &str, expected: Option<&str>) -> bool {
    let Some(mut headers) = map_of(alloc, LINES) else {
        return false;
    };
    let written = match kind {
        Kind::Item => write::<Item>(alloc, &mut headers, text, Version::Rfc9651),
        Kind::List => write::<List>(alloc, &mut headers, text, Version::Rfc9651),
        Kind::Dictionary => write::<Dictionary>(alloc, &mut headers, text, Version::Rfc9651),
    };
    written == Some(Ok(())) && is_line(alloc, &headers, expected)
}

#[test]
fn fields_are_written(rt: HostRuntime) {
    let rows = &[
        (Kind::Dictionary, "a=1,b,  a=3", Some("a=3, b")),
        (Kind::List, "1,\t(a b);c", Some("1, (a b);c")),
        (Kind::Item, "\"a\\\"\"", Some("\"a\\\"\"")),
        (Kind::List, "", None),
        (Kind::Dictionary, " ", None),
    ];
    for &(kind, text, expected) in rows {
        assert!(rt; is_written(rt.alloc(), kind, text, expected), "{text}");
    }
}

#[test]
fn an_error_changes_nothing(rt: HostRuntime) {
    let alloc = rt.alloc();
    let Some(mut headers) = map_of(alloc, LINES) else {
        assert!(rt; false, "no memory");
        return;
    };
    let written = write::<List>(alloc, &mut headers, "1, @2", Version::Rfc8941);
    assert!(rt; matches!(written, Some(Err(WriteError::Unsupported(_)))));
    assert!(rt; is_line(alloc, &headers, Some("a=1, b;x, a=2")));
}

#[test]
fn fields_of_many_sizes_are_written(rt: HostRuntime) -> Result<(), Fail> {
    let alloc = rt.alloc();
    let mut text = String::from_str(alloc, "(a \"b\");c=:AAAA:")?;
    for doublings in 0..12 {
        assert!(rt;
            is_written(alloc, Kind::List, text.as_str(), Some(text.as_str())),
            "{doublings}"
        );
        text = format!(in alloc; "{text}, {text}")?;
    }
    Ok(())
}
