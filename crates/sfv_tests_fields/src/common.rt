//! Checks of texts and of fields, numbers of parts, repeated texts, and the values that words denote.

use sfv::{
    Date, Dictionary, FieldType, Integer, Item, List, Parser, RefBareItem, Version, token_ref,
};
use std::alloc::{AllocError, Global};
use std::fmt::Write;
use std::test::Fail;

/// Returns `true` if the text is `wanted`.
pub fn is_text(text: &str, wanted: &str) -> bool {
    text == wanted
}

/// Returns `true` if there is a text, and it is `wanted`.
pub fn has_text(text: Option<String>, wanted: &str) -> bool {
    match text {
        Some(text) => text.as_str() == wanted,
        None => false,
    }
}

/// Returns the item, if the input is one.
pub fn item_of(alloc: Global, parser: Parser<'_>) -> Option<Item> {
    parser.parse::<Item>(alloc).ok()
}

/// Returns the list, if the input is one.
pub fn list_of(alloc: Global, parser: Parser<'_>) -> Option<List> {
    parser.parse::<List>(alloc).ok()
}

/// Returns the dictionary, if the input is one.
pub fn dictionary_of(alloc: Global, parser: Parser<'_>) -> Option<Dictionary> {
    parser.parse::<Dictionary>(alloc).ok()
}

/// Returns the canonical text of the field that the input parses to.
fn written<T: FieldType>(alloc: Global, input: &str) -> Option<String> {
    let field = Parser::new(input.as_bytes()).parse::<T>(alloc).ok()?;
    field.serialize(alloc).ok()?.into()
}

/// Returns `true` if `wanted` is the canonical text of the item, list or dictionary that the input parses to.
pub fn gives(alloc: Global, field: &str, input: &str, wanted: &str) -> bool {
    match field {
        "item" => has_text(written::<Item>(alloc, input), wanted),
        "list" => has_text(written::<List>(alloc, input), wanted),
        _ => has_text(written::<Dictionary>(alloc, input), wanted),
    }
}

/// Up to this number, `numbers` has the neighbours of each step.
pub const NEAR: usize = 5_000;

/// Appends a step up to `most`, and up to `NEAR` its neighbours, but no number below `dense`.
fn push_step(
    numbers: &mut Vec<usize>,
    step: usize,
    dense: usize,
    most: usize,
) -> Result<(), AllocError> {
    let near = if step <= NEAR { 1 } else { 0 };
    for number in step.saturating_sub(near)..=step.saturating_add(near) {
        if number >= dense && number <= most {
            numbers.push(number)?;
        }
    }
    Ok(())
}

/// Returns the numbers below `dense`, and the steps up to `most`: the powers of two, nine times these, and one, two and
/// five times the powers of ten. Up to `NEAR`, all multiples of a power of ten are steps, and so are the neighbours of
/// steps. A vector or a text grows at a power of two, and a map at nine times a power of two.
pub fn numbers(alloc: Global, dense: usize, most: usize) -> Result<Vec<usize>, AllocError> {
    let mut numbers = Vec::new(alloc);
    for number in 0..dense {
        numbers.push(number)?;
    }
    let (mut two, mut ten) = (1usize, 1usize);
    for _ in 0..26 {
        push_step(&mut numbers, two, dense, most)?;
        push_step(&mut numbers, two.saturating_mul(9), dense, most)?;
        for digit in 1..10usize {
            let step = ten.saturating_mul(digit);
            if step <= NEAR || digit == 1 || digit == 2 || digit == 5 {
                push_step(&mut numbers, step, dense, most)?;
            }
        }
        two = two.saturating_mul(2);
        ten = ten.saturating_mul(10);
    }
    Ok(numbers)
}

/// Returns `first`, doubled until it is at least `len`.
pub fn doubled(first: usize, len: usize) -> usize {
    let mut capacity = first;
    for _ in 0..64 {
        if capacity < len {
            capacity = capacity.saturating_mul(2);
        }
    }
    capacity
}

/// Returns the capacity of a map after this many entries with different keys, inserted one by one.
pub fn map_capacity(len: usize) -> usize {
    if len == 0 { 0 } else { doubled(9, len) }
}

/// Returns `true` if a text of `full` bytes of capacity has this capacity when it has `len` bytes. A text that is full
/// doubles its capacity. If one part lacks more, the capacity is at most twice the length.
pub fn is_grown(capacity: usize, full: usize, len: usize) -> bool {
    if len <= full {
        return capacity == full;
    }
    let twice = full.saturating_mul(2);
    if full >= 4 && len <= twice {
        return capacity == twice;
    }
    capacity <= len.saturating_mul(2).max(8)
}

/// Values of each kind.
pub const NEWER: &[&str; 16] = &[
    "1",
    "-1",
    "1.5",
    "-0.25",
    "\"\"",
    "\"a b\"",
    "\"a\\\"b\\\\\"",
    "tok",
    ":aA==:",
    ":aGk=:",
    ":aGkh:",
    "?1",
    "?0",
    "@12",
    "%\"f\"",
    "%\"f%c3%bcr\"",
];

/// Values of each kind of RFC 8941.
pub const OLDER: &[&str; 16] = &[
    "1",
    "-1",
    "1.5",
    "-0.25",
    "\"\"",
    "\"a b\"",
    "\"a\\\"b\\\\\"",
    "tok",
    ":aA==:",
    ":aGk=:",
    ":aGkh:",
    "?1",
    "?0",
    "::",
    "12345",
    "*a",
];

/// Returns RFC 9651 or RFC 8941, and values of each of its kinds.
pub fn version_of(is_newer: bool) -> (Version, &'static [&'static str; 16]) {
    if is_newer {
        (Version::Rfc9651, NEWER)
    } else {
        (Version::Rfc8941, OLDER)
    }
}

/// Appends a part: its number in the place of each `#`, a value in the place of each `$`, and in the place of each `~` an
/// equals sign and a value, or nothing for true. `turn` is the place of the first value.
fn push_part(
    text: &mut String,
    part: &str,
    number: usize,
    values: &[&str; 16],
    turn: usize,
) -> Result<(), Fail> {
    let mut turn = turn;
    for letter in part.chars() {
        if letter == '#' {
            write!(text, "{number}")?;
        } else if letter == '$' || letter == '~' {
            let value = values[turn % 16];
            turn = turn.saturating_add(1);
            if letter == '$' {
                text.push_str(value)?;
            } else if value != "?1" {
                text.push('=')?;
                text.push_str(value)?;
            }
        } else {
            text.push(letter)?;
        }
    }
    Ok(())
}

/// Returns the text of a field with so many parts: a text before the parts, a part, the separator, and a text after the
/// parts. `push_part` says what a part is. Each part begins with another value than the one before, and each number of
/// parts with another than the number before.
pub fn field_of(
    alloc: Global,
    (begin, part, separator, end): (&str, &str, &str, &str),
    values: &[&str; 16],
    count: usize,
) -> Result<String, Fail> {
    let mut text = String::from_str(alloc, begin)?;
    for number in 0..count {
        if number > 0 {
            text.push_str(separator)?;
        }
        push_part(
            &mut text,
            part,
            number,
            values,
            count.saturating_add(number),
        )?;
    }
    text.push_str(end)?;
    Ok(text)
}

/// Repeats a text between two others.
pub fn repeated(
    alloc: Global,
    front: &str,
    text: &str,
    times: usize,
    end: &str,
) -> Result<String, AllocError> {
    let mut all = String::from_str(alloc, front)?;
    for _ in 0..times {
        all.push_str(text)?;
    }
    all.push_str(end)?;
    Ok(all)
}

/// Returns this many numbered parts, each after `front`, with a separator between neighbours.
pub fn counted(
    alloc: Global,
    begin: &str,
    front: &str,
    separator: &str,
    end: &str,
    count: usize,
) -> Result<String, Fail> {
    let mut all = String::from_str(alloc, begin)?;
    for number in 0..count {
        if number > 0 {
            all.push_str(separator)?;
        }
        write!(all, "{front}{number}")?;
    }
    all.push_str(end)?;
    Ok(all)
}

fn date<'a>(seconds: u8) -> RefBareItem<'a> {
    RefBareItem::from(Date::from_unix_seconds(Integer::from(seconds)))
}

/// Returns the value of a word. It is a date for `@`, perhaps with its seconds, true for `?`, or false for `!`. It is
/// no bytes for `:`, or the token `x`, and otherwise a number.
pub fn value<'a>(word: &str) -> RefBareItem<'a> {
    match word {
        "@" => date(1),
        "@2" => date(2),
        "@5" => date(5),
        "?" => RefBareItem::from(true),
        "!" => RefBareItem::from(false),
        ":" => RefBareItem::from(b"".as_slice()),
        "x" => RefBareItem::from(token_ref("x")),
        "2" => RefBareItem::from(2u8),
        "3" => RefBareItem::from(3u8),
        "6" => RefBareItem::from(6u8),
        _ => RefBareItem::from(1u8),
    }
}
