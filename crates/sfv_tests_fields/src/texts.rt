//! Random keys, texts and byte sequences in fields. With memory to spare, each call that allocates returns its usual
//! result, whatever the letter at each of the first places.

use crate::kept::grows_with;
use crate::owned::is_field_held;
use crate::sizes::holds_for;
use sfv::{BareItem, KeyRef, Parser, RefBareItem, StringFromInput, TokenRef, Version};
use sfv_random::Random;
use sfv_random::rows::row;
use sfv_random::texts::{bytes_of, filled, short_texts, value_of, written};
use std::alloc::{AllocError, Global};
use std::test::Fail;

/// Fields with a value in the place of each `$`.
const VALUES: &[(&str, &str)] = &[
    ("item", "$;k=$;l=$"),
    ("list", "$;k=$, ($;k=$ 1)"),
    ("dict", "a=$;k=$"),
];

/// Fields with a key in the place of each `$`.
const KEYS: &[(&str, &str)] = &[
    ("item", "1;$;other-key=2"),
    ("item", "1;other-key;$=2"),
    ("list", "1;$, (1;$ 2;other-key;$);$"),
    ("dict", "$;$=2, other-key=(1;$);$"),
    ("dict", "other-key, $=()"),
];

/// Returns how many bytes of the field are before each text, or before its bytes within quotes or colons.
fn starts(alloc: Global, place: &str, text: &str) -> Result<Vec<usize>, AllocError> {
    let mut start = match text.as_bytes().first() {
        Some(b'%') => 2usize,
        Some(b'"' | b':') => 1,
        _ => 0,
    };
    let mut starts = Vec::new(alloc);
    for (number, part) in place.split('$').enumerate() {
        if number > 0 {
            starts.push(start)?;
            start = start.saturating_add(text.len());
        }
        start = start.saturating_add(part.len());
    }
    Ok(starts)
}

/// Fails unless the fields with this text in the place of each `$` are read, copied and written by each call. Each text,
/// in its turn, is written without room for it.
fn are_held(
    alloc: Global,
    places: &[(&str, &str)],
    version: Version,
    text: &str,
) -> Result<(), Fail> {
    for &(field, place) in places {
        let (whole, starts) = (filled(alloc, place, text)?, starts(alloc, place, text)?);
        let parser = Parser::new(whole.as_bytes()).with_version(version);
        let rooms = (whole.len(), starts.as_slice());
        holds_for(alloc, field, version, whole.as_str())?;
        grows_with(alloc, field, version, rooms, whole.as_str())?;
        let is_held = is_field_held(alloc, field, parser, false) == Some(true);
        row(
            field,
            version,
            whole.as_str(),
            "little unused memory",
            is_held,
        )?;
    }
    Ok(())
}

/// Returns the version for this turn. The versions take turns, if RFC 8941 has the kind.
fn version_for(turn: usize, kind: &str) -> Version {
    if kind == "display" || turn % 2 == 0 {
        Version::Rfc9651
    } else {
        Version::Rfc8941
    }
}

/// Returns `true` if the input parses to this token.
fn is_token(alloc: Global, parser: Parser<'_>, value: RefBareItem<'_>) -> bool {
    match parser.parse_item::<TokenRef<'_>>(alloc) {
        Ok(token) => RefBareItem::from(token) == value,
        Err(_) => false,
    }
}

/// Returns `true` if the input parses to this string.
fn is_string(alloc: Global, parser: Parser<'_>, value: RefBareItem<'_>) -> bool {
    match parser.parse_item::<StringFromInput<'_>>(alloc) {
        Ok(string) => RefBareItem::from(string.as_string_ref()) == value,
        Err(_) => false,
    }
}

/// Returns `true` if the input parses to these bytes.
fn is_bytes(alloc: Global, parser: Parser<'_>, value: RefBareItem<'_>) -> bool {
    match parser.parse_item::<Vec<u8>>(alloc) {
        Ok(bytes) => RefBareItem::from(bytes.as_slice()) == value,
        Err(_) => false,
    }
}

/// Returns `true` if the input parses to this bare item.
fn is_any(alloc: Global, parser: Parser<'_>, value: RefBareItem<'_>) -> bool {
    match parser.parse_item::<BareItem>(alloc) {
        Ok(any) => any.as_ref_item() == value,
        Err(_) => false,
    }
}

/// Returns `true` if the input parses to this bare item, by the type of its kind and by that of every kind.
fn is_expected(alloc: Global, kind: &str, input: &str, value: RefBareItem<'_>) -> bool {
    let parser = Parser::new(input.as_bytes());
    let is_kind = match kind {
        "token" => is_token(alloc, parser, value),
        "string" => is_string(alloc, parser, value),
        "bytes" => is_bytes(alloc, parser, value),
        _ => true,
    };
    is_kind & is_any(alloc, parser, value)
}

/// Appends the canonical text of a value. Fails unless that parses to the value.
fn push_value(all: &mut String, kind: &str, content: &str) -> Result<(), Fail> {
    let alloc = *all.allocator();
    let bytes = bytes_of(alloc, content)?;
    let value = value_of(kind, content, bytes.as_slice()).ok_or("no value")?;
    let text = written(alloc, value)?;
    all.push_str(text.as_str())?;
    let holds = is_expected(alloc, kind, text.as_str(), value);
    row(kind, Version::Rfc9651, text.as_str(), "the value", holds)
}

/// Fails unless values of this kind, with random texts before `end`, are read, copied and written in each place of a
/// field.
fn values_hold(alloc: Global, kind: &str, end: &str) -> Result<(), Fail> {
    for (turn, content) in Random::new(1).texts(alloc, kind)?.iter().enumerate() {
        let content = format!(in alloc; "{content}{end}")?;
        let mut text = String::new(alloc);
        push_value(&mut text, kind, content.as_str())?;
        are_held(alloc, VALUES, version_for(turn, kind), text.as_str())?;
    }
    Ok(())
}

#[test]
fn random_tokens_are_read_and_written(rt: HostRuntime) -> Result<(), Fail> {
    values_hold(rt.alloc(), "token", "")
}

#[test]
fn random_strings_are_read_and_written(rt: HostRuntime) -> Result<(), Fail> {
    values_hold(rt.alloc(), "string", "")
}

// Each text has an escape after it.
#[test]
fn random_strings_with_escapes_are_read_and_written(rt: HostRuntime) -> Result<(), Fail> {
    values_hold(rt.alloc(), "string", "\"")
}

#[test]
fn random_display_strings_are_read_and_written(rt: HostRuntime) -> Result<(), Fail> {
    values_hold(rt.alloc(), "display", "")
}

#[test]
fn random_display_strings_with_escapes_are_read_and_written(rt: HostRuntime) -> Result<(), Fail> {
    values_hold(rt.alloc(), "display", "\"")
}

#[test]
fn random_byte_sequences_are_read_and_written(rt: HostRuntime) -> Result<(), Fail> {
    values_hold(rt.alloc(), "bytes", "")
}

/// Fails unless lists of all short texts of this kind are read, copied and written. Each text is a member and its
/// parameter.
fn short_texts_hold(alloc: Global, kind: &str) -> Result<(), Fail> {
    for (turn, texts) in short_texts(alloc, kind)?.chunks(64).enumerate() {
        let mut list = String::from_str(alloc, "first-member")?;
        for content in texts.iter() {
            list.push_str(", ")?;
            push_value(&mut list, kind, content.as_str())?;
            list.push_str(";k=")?;
            push_value(&mut list, kind, content.as_str())?;
        }
        are_held(
            alloc,
            &[("list", "$")],
            version_for(turn, kind),
            list.as_str(),
        )?;
    }
    Ok(())
}

#[test]
fn short_texts_are_read_and_written(rt: HostRuntime) -> Result<(), Fail> {
    short_texts_hold(rt.alloc(), "token")?;
    short_texts_hold(rt.alloc(), "string")
}

#[test]
fn random_keys_are_read_and_written(rt: HostRuntime) -> Result<(), Fail> {
    let alloc = rt.alloc();
    for (turn, key) in Random::new(1).texts(alloc, "key")?.iter().enumerate() {
        let _ = KeyRef::from_str(key.as_str())?;
        are_held(alloc, KEYS, version_for(turn, "key"), key.as_str())?;
    }
    Ok(())
}
