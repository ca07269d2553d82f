//! Long runs of bytes of a class, tested block by block: where they end, and the bytes that end them.

use sfv::visitor::Ignored;
use sfv::{BareItemFromInput, GenericBareItem, Item, ParseError, Parser, StringFromInput};
use std::alloc::{AllocError, Global};
use std::borrow::CowStr;
use std::test::Fail;

/// Returns a text of `front`, a run of one letter with another byte at `stop`, and an ending.
fn text_of(
    alloc: Global,
    front: &str,
    length: usize,
    stop: usize,
    byte: u8,
    ending: &str,
) -> Result<Vec<u8>, AllocError> {
    let mut text = Vec::new(alloc);
    text.extend_from_slice(front.as_bytes())?;
    for at in 0..length {
        text.push(if at == stop { byte } else { b'x' })?;
    }
    text.extend_from_slice(ending.as_bytes())?;
    Ok(text)
}

/// Returns the index of the syntax error of an item.
fn fault_of(alloc: Global, input: &[u8]) -> Option<usize> {
    match Parser::new(input).parse_item_with_visitor(alloc, Ignored) {
        Err(ParseError::Syntax(error)) => error.index(),
        _ => None,
    }
}

/// Kinds of runs. Each has the text before the run, a wrong byte that ends it, and the text after it. The number is the
/// distance from that byte to the index of the error.
const RUNS: &[(&str, u8, &str, usize)] = &[
    ("\"", b'\\', "x\"", 1),
    ("%\"", b'%', "x\"", 1),
    ("a", b'"', "", 0),
    ("1;a", b'A', "", 0),
    (":", b'!', ":", 0),
];

/// Returns `true` if runs of this length with a wrong byte at this place have their error there.
fn ends_at(alloc: Global, length: usize, stop: usize) -> Result<bool, AllocError> {
    for &(front, byte, ending, distance) in RUNS {
        let text = text_of(alloc, front, length, stop, byte, ending)?;
        let wanted = front
            .len()
            .checked_add(stop)
            .and_then(|at| at.checked_add(distance));
        if fault_of(alloc, text.as_slice()) != wanted {
            return Ok(false);
        }
    }
    Ok(true)
}

#[test]
fn runs_end_at_their_first_wrong_byte(rt: HostRuntime) -> Result<(), Fail> {
    for &length in &[1, 8, 31, 32, 33, 44, 45, 64, 65, 1_000, 100_000] {
        for &stop in &[0, 1, 11, 12, 13, 31, 32, 43, 44, 45, 63, 64, 999, 99_999] {
            if stop < length {
                assert!(rt; ends_at(rt.alloc(), length, stop)?, "{stop} of {length}");
            }
        }
    }
    Ok(())
}

/// Returns the length of a string or display string without escapes, a token, or a byte sequence.
fn length_of_value(alloc: Global, input: &[u8]) -> Option<usize> {
    let parser = Parser::new(input);
    let value = parser.parse_item::<BareItemFromInput<'_>>(alloc).ok()?;
    match &value {
        GenericBareItem::String(StringFromInput::Borrowed(text)) => Some(text.as_str().len()),
        GenericBareItem::DisplayString(CowStr::Borrowed(text)) => Some(text.len()),
        GenericBareItem::Token(token) => Some(token.as_str().len()),
        GenericBareItem::ByteSequence(bytes) => Some(bytes.len()),
        _ => None,
    }
}

/// Returns the length of the first key of an item's parameters.
fn length_of_key(alloc: Global, input: &[u8]) -> Option<usize> {
    let item = Parser::new(input).parse::<Item>(alloc).ok()?;
    item.params.keys().next().map(|key| key.as_str().len())
}

/// Kinds of runs. Each has the texts before and after the run, and the bytes of the class. The number is the length of
/// the value if all 40 bytes are of its class.
const CLASSES: &[(&str, &str, usize, &str)] = &[
    (
        "\"",
        "\"",
        40,
        "!#$%&'()*+,-./0123456789:;<=>?@ABCDEFGHIJKLMNOPQRSTUVWXYZ[]^_`abcdefghijklmnopqrstuvwxyz{|}~ ",
    ),
    (
        "%\"",
        "\"",
        40,
        "!#$&'()*+,-./0123456789:;<=>?@ABCDEFGHIJKLMNOPQRSTUVWXYZ[\\]^_`abcdefghijklmnopqrstuvwxyz{|}~ ",
    ),
    (
        "a",
        "",
        41,
        "!#$%&'*+-.^_`|~:/0123456789ABCDEFGHIJKLMNOPQRSTUVWXYZabcdefghijklmnopqrstuvwxyz",
    ),
    ("1;a", "", 41, "_-.*0123456789abcdefghijklmnopqrstuvwxyz"),
    (
        ":",
        ":",
        30,
        "ABCDEFGHIJKLMNOPQRSTUVWXYZabcdefghijklmnopqrstuvwxyz0123456789+/",
    ),
];

/// Returns `true` if the byte, at this place of a run, is accepted by exactly the classes that contain it.
fn is_of_its_classes(alloc: Global, stop: usize, byte: u8) -> Result<bool, AllocError> {
    for &(front, ending, length, bytes) in CLASSES {
        let text = text_of(alloc, front, 40, stop, byte, ending)?;
        let is_inside = length_of_value(alloc, text.as_slice()) == Some(length)
            || length_of_key(alloc, text.as_slice()) == Some(length);
        if is_inside != bytes.as_bytes().contains(&byte) {
            return Ok(false);
        }
    }
    Ok(true)
}

// The ABNF of RFC 9651 lists these bytes.
#[test]
fn runs_have_the_bytes_of_their_class(rt: HostRuntime) -> Result<(), Fail> {
    for byte in 0..=255u8 {
        let begins = is_of_its_classes(rt.alloc(), 0, byte)?;
        let follows = is_of_its_classes(rt.alloc(), 20, byte)?;
        assert!(rt; begins && follows, "{byte}");
    }
    Ok(())
}

// Escapes of display strings have digits in lower case.
#[test]
fn escapes_have_sixteen_digits(rt: HostRuntime) -> Result<(), Fail> {
    for byte in 0..=255u8 {
        let text = text_of(rt.alloc(), "%\"%7", 1, 0, byte, "\"")?;
        let is_read = fault_of(rt.alloc(), text.as_slice()).is_none();
        assert!(rt;
            is_read == "0123456789abcdef".as_bytes().contains(&byte),
            "{byte}"
        );
    }
    Ok(())
}
