//! The calls that parse. Each returns its value, or exactly the error of the input: for inputs of every length and with
//! every number of parts, and for each syntax error at each place.

use crate::common::{is_tight, ladder, of_size};
use sfv::visitor::ItemFault;
use sfv::{
    BareItem, BareItemFromInput, Dictionary, Error, ErrorKind, FieldKind, HashSeed, Integer, Item,
    List, OutOfMemory, ParseError, Parser, Version, key_ref,
};
use sfv_examples::expecting::{dictionary, expect, item, list, string, token};
use sfv_examples::foo::read_foo;
use sfv_examples::reading::{
    dictionary_of_lines, explain, integer_with_default, list_of_lines, param_of_member,
    read_older_list,
};
use sfv_examples::rows::last_row;
use sfv_examples::start::write_again;
use sfv_examples::visiting::{count_members, each_key, with_bare_item};
use sfv_first_field::cdn_cache_control::max_age;
use sfv_first_field::mobile_hint::{HintError, is_mobile};
use sfv_http_fields::cache_status::last_hit;
use sfv_http_fields::content_digest::{DigestError, read};
use sfv_http_fields::proxy_status::reading::last_proxy;
use sfv_random::Random;
use sfv_random::leaks::{Repeated, keeps_memory_of};
use sfv_tool_lib::answer::{ToolFault, answer, answer_priority};
use sfv_tool_lib::priority::read_priority;
use std::alloc::Global;
use std::test::Fail;

/// Returns the syntax error. A visitor's error counts as out of memory.
fn error_of<T: Drop, E: Drop>(answer: Result<T, ParseError<E>>) -> Option<Error> {
    match answer {
        Ok(_) => None,
        Err(ParseError::Syntax(error)) => Some(error),
        Err(ParseError::Visitor(_)) => Some(Error::from(OutOfMemory)),
    }
}

/// The same for the program. A text that keeps much unused memory counts as out of memory.
fn error_of_tool(answer: Result<String, ToolFault>) -> Option<Error> {
    match answer {
        Ok(text) if is_tight(text.capacity(), text.len()) => None,
        Err(ToolFault::Read(error)) => Some(error),
        _ => Some(Error::from(OutOfMemory)),
    }
}

/// The same for a row of integers.
fn error_of_row(answer: Result<Option<Vec<i64>>, Error>) -> Option<Error> {
    match answer {
        Ok(Some(row)) if !is_tight(row.capacity(), row.len()) => Some(Error::from(OutOfMemory)),
        other => other.err(),
    }
}

/// Returns `true` if the result has this error or, unless the bare item is of this kind, that of another kind.
fn is_of_kind<T: Drop>(
    answer: Result<T, ParseError<ItemFault>>,
    is_kind: bool,
    wanted: Option<Error>,
) -> bool {
    match answer {
        Err(ParseError::Visitor(ItemFault::WrongType { .. })) => !is_kind,
        other => error_of(other) == wanted,
    }
}

fn accept(_item: BareItemFromInput<'_>) -> Result<(), OutOfMemory> {
    Ok(())
}

/// Returns `true` if each call that parses an item returns this error, or none.
fn items_have(alloc: Global, version: Version, input: &[u8], wanted: Option<Error>) -> bool {
    let (seed, first) = (HashSeed::new(1), input.first());
    let text = answer(alloc, seed, FieldKind::Item, version, version, input);
    if version == Version::Rfc8941 {
        return error_of_tool(text) == wanted;
    }
    let hint = match is_mobile(alloc, input) {
        Err(HintError::Parse(error)) => Some(error),
        _ => None,
    };
    (error_of_tool(text) == wanted)
        & (hint == wanted)
        & (error_of(item(alloc, input)) == wanted)
        & (integer_with_default(alloc, input, Integer::ZERO).err() == wanted)
        & (error_of(with_bare_item(alloc, input, accept)) == wanted)
        & (error_of(expect::<BareItem>(alloc, input)) == wanted)
        & is_of_kind(string(alloc, input), first == Some(&b'"'), wanted)
        & is_of_kind(
            token(alloc, input),
            matches!(first, Some(b'A'..=b'Z' | b'a'..=b'z' | b'*')),
            wanted,
        )
}

/// The same for a list under RFC 9651 alone.
fn newer_lists_have(alloc: Global, input: &[u8], wanted: Option<Error>) -> bool {
    let seed = HashSeed::new(1);
    let is_explained = match explain(alloc, input) {
        Ok(Some(line)) => wanted.is_some() && is_tight(line.capacity(), line.len()),
        Ok(None) => wanted.is_none(),
        Err(_) => false,
    };
    is_explained
        & (error_of(list(alloc, input)) == wanted)
        & (error_of(list_of_lines(alloc, seed, input, b"")) == wanted)
        & (error_of(list_of_lines(alloc, seed, b"", input)) == wanted)
}

/// The same for a list.
fn lists_have(alloc: Global, version: Version, input: &[u8], wanted: Option<Error>) -> bool {
    let seed = HashSeed::new(1);
    let text = answer(alloc, seed, FieldKind::List, version, version, input);
    let others = match version {
        Version::Rfc8941 => read_older_list(alloc, input).err() == wanted,
        Version::Rfc9651 => newer_lists_have(alloc, input, wanted),
    };
    others
        & (error_of_tool(text) == wanted)
        & (last_hit(alloc, input, version).err() == wanted)
        & (last_proxy(alloc, input, version).err() == wanted)
        & (error_of_row(last_row(alloc, input, version)) == wanted)
}

/// The same for a dictionary under RFC 9651 alone.
fn newer_dictionaries_have(alloc: Global, input: &[u8], wanted: Option<Error>) -> bool {
    let (seed, key) = (HashSeed::new(1), key_ref("k0"));
    let digest = match read(alloc, input) {
        Err(DigestError::Field(error)) => Some(error),
        _ => None,
    };
    let is_written = match write_again(alloc, input) {
        Ok(Some(text)) => wanted.is_none() && is_tight(text.capacity(), text.len()),
        other => other.err() == wanted,
    };
    (digest == wanted)
        & is_written
        & (error_of(each_key(alloc, input, |_key: &str| {})) == wanted)
        & (error_of(count_members(alloc, input, u64::MAX)) == wanted)
        & (error_of(dictionary(alloc, input)) == wanted)
        & (param_of_member(alloc, input, key, key).err() == wanted)
        & (error_of(dictionary_of_lines(alloc, seed, input, b"")) == wanted)
        & (error_of(dictionary_of_lines(alloc, seed, b"", input)) == wanted)
}

/// The same for a dictionary.
fn dictionaries_have(alloc: Global, version: Version, input: &[u8], wanted: Option<Error>) -> bool {
    let seed = HashSeed::new(1);
    let text = answer(alloc, seed, FieldKind::Dictionary, version, version, input);
    let foo = match read_foo(alloc, version, input) {
        Err(ParseError::Syntax(error)) => Some(error),
        _ => None,
    };
    let others = version == Version::Rfc8941 || newer_dictionaries_have(alloc, input, wanted);
    others
        & (error_of_tool(text) == wanted)
        & (foo == wanted)
        & (error_of_tool(answer_priority(alloc, version, input)) == wanted)
        & (read_priority(alloc, input, version).err() == wanted)
        & (max_age(alloc, input, version).err() == wanted)
}

/// The same for an item, a list or a dictionary.
pub fn have(
    alloc: Global,
    field: &str,
    version: Version,
    input: &[u8],
    wanted: Option<Error>,
) -> bool {
    match field {
        "item" => items_have(alloc, version, input, wanted),
        "list" => lists_have(alloc, version, input, wanted),
        _ => dictionaries_have(alloc, version, input, wanted),
    }
}

/// The error of a text: none, or a kind and an index from its start or from its end.
#[derive(Clone, Copy)]
enum Fault {
    None,
    First(ErrorKind, usize),
    Last(ErrorKind, usize),
}

/// Returns the error of a text of this length.
fn error_at(fault: Fault, length: usize) -> Option<Error> {
    match fault {
        Fault::None => None,
        Fault::First(kind, index) => Some(Error::at(kind, index)),
        Fault::Last(kind, back) => Some(Error::at(kind, length.saturating_sub(back))),
    }
}

/// Fields of many sizes: their type, a text before the parts, a part, the separator, a text after them, the greatest power
/// of two of the ladder of sizes, and the error.
#[rattlefmt::skip]
const FIELDS: &[(&str, &str, &str, &str, &str, usize, Fault)] = &[
    ("item", "a", "b", "", "", 1 << 21, Fault::None),
    ("item", "\"", "a", "", "\"", 1 << 19, Fault::None),
    ("item", "\"\\\\", "a", "", "\"", 1 << 19, Fault::None),
    ("item", "%\"%c3%bc", "a", "", "\"", 1 << 19, Fault::None),
    ("item", ":aGk=:;a", "b", "", "", 1 << 19, Fault::None),
    ("item", "?1;a", "b", "", "", 1 << 19, Fault::None),
    ("item", "@1;a=\"\\\"", "a", "", "\"", 1 << 19, Fault::None),
    ("item", "-1.5", " ", "", "", 1 << 19, Fault::None),
    ("item", "1", ";k#=\"a\"", "", "", 1 << 10, Fault::None),
    ("item", "", " ", "", "", 1 << 19, Fault::Last(ErrorKind::ExpectedStartOfBareItem, 0)),
    ("item", "1 a", "a", "", "", 1 << 19, Fault::First(ErrorKind::TrailingCharactersAfterParsedValue, 2)),
    ("item", "\"\\\\\";k b", "b", "", "", 1 << 19, Fault::First(ErrorKind::TrailingCharactersAfterParsedValue, 7)),
    ("item", "\"\\\\", "a", "", "\u{7f}\"", 1 << 19, Fault::Last(ErrorKind::InvalidStringCharacter, 2)),
    ("item", "%\"%c3%bc", "a", "", "%zz\"", 1 << 19, Fault::Last(ErrorKind::InvalidEscapeSequence, 3)),
    ("item", "\"\\\\\"", ";k#=:aGk=:;k=\"\\\\\"", "", " !", 1 << 10, Fault::Last(ErrorKind::TrailingCharactersAfterParsedValue, 1)),
    ("item", ":aGk=:", ";k#=%\"%c3%bc\"", "", " ", 1 << 10, Fault::None),
    ("item", "\"\\\\", "a", "", "", 1 << 19, Fault::Last(ErrorKind::UnterminatedString, 0)),
    ("list", "", "a", "", "", 1 << 21, Fault::None),
    ("list", "(\"", "a", "", "\")", 1 << 19, Fault::None),
    ("list", "\"\\\\", "a", "", "\"", 1 << 19, Fault::None),
    ("list", ":aGk=:;a", "b", "", "", 1 << 19, Fault::None),
    ("list", "?1, %\"", "a", "", "\"", 1 << 19, Fault::None),
    ("list", "a", " ", "", "", 1 << 19, Fault::None),
    ("list", "", "a", ",", "", 1 << 17, Fault::None),
    ("list", "", "(1.5;a :aGk=:)", ", ", "", 1 << 10, Fault::None),
    ("list", "(", "1;a=\"\\\\\"", " ", ")", 1 << 10, Fault::None),
    ("list", "a", ";k#=?0", "", "", 1 << 10, Fault::None),
    ("list", "!", "a", "", "", 1 << 19, Fault::First(ErrorKind::ExpectedStartOfBareItem, 0)),
    ("list", "a b", "a", "", "", 1 << 19, Fault::First(ErrorKind::TrailingCharactersAfterMember, 2)),
    ("list", "a", "a", "", ",", 1 << 19, Fault::Last(ErrorKind::TrailingComma, 1)),
    ("list", "(a", "a", "", "", 1 << 19, Fault::Last(ErrorKind::UnterminatedInnerList, 0)),
    ("list", "(a", "a", "", ",", 1 << 19, Fault::Last(ErrorKind::ExpectedInnerListDelimiter, 1)),
    ("list", "()", ", ()", "", "", 1 << 10, Fault::None),
    ("list", "", "\"\\\\\";k#=:aGk=:;hit=%\"%c3%bc\";fwd=\"\\\\\";ttl=:aGk=:;error=:aGk=:;received-status=\"\\\\\"", ",", "", 1 << 10, Fault::None),
    ("list", "", "(:aGk=:;k#=\"\\\\\" %\"%c3%bc\" \"\\\\\";k=:aGk=: 5);hit=:aGk=:;k=\"\\\\\"", ", ", "", 1 << 10, Fault::None),
    ("list", "b", ", %\"%c3%bc\", :aGk=:;a_key_of_25_bytes_in_all_#=\"\\\\\", ExampleCache;hit;key=\"\\\\\"", "", ",", 1 << 10, Fault::Last(ErrorKind::TrailingComma, 1)),
    ("list", "\"\\\\\", (", "\"\\\\\";k#=:aGk=:", " ", " !", 1 << 10, Fault::Last(ErrorKind::ExpectedStartOfBareItem, 1)),
    ("list", "1", ", (\"\\\\\" :aGk=:);k#=:aGk=:", "", ";k=!", 1 << 10, Fault::Last(ErrorKind::ExpectedStartOfBareItem, 1)),
    ("dict", "", "a", "", "", 1 << 21, Fault::None),
    ("dict", "sha-256=\"", "a", "", "\"", 1 << 19, Fault::None),
    ("dict", "sha-512=:aGk=:, max-age=\"\\\\", "a", "", "\"", 1 << 19, Fault::None),
    ("dict", "color=red, color=(@1);a", "b", "", "", 1 << 19, Fault::None),
    ("dict", "u=1;a=%\"%c3%bc", "a", "", "\"", 1 << 19, Fault::None),
    ("dict", "u=:", "aGkh", "", ":", 1 << 17, Fault::None),
    ("dict", "s=:", "aGkh", "", ":", 1 << 17, Fault::None),
    ("dict", "a", " ", "", "", 1 << 19, Fault::None),
    ("dict", "", "k#=1", ", ", "", 1 << 17, Fault::None),
    ("dict", "", "k#=%\"%c3%bc\"", ",", "", 1 << 10, Fault::None),
    ("dict", "k0=(", "a", " ", ");k0", 1 << 10, Fault::None),
    ("dict", "", "k#=(\"\\\\\" %\"%c3%bc\";a=:aGk=:)", ", ", "", 1 << 10, Fault::None),
    ("dict", "u", ";k#=:aGk=:", "", "", 1 << 10, Fault::None),
    ("dict", "A", "a", "", "", 1 << 19, Fault::First(ErrorKind::ExpectedStartOfKey, 0)),
    ("dict", "a b", "a", "", "", 1 << 19, Fault::First(ErrorKind::TrailingCharactersAfterMember, 2)),
    ("dict", "a", "a", "", ",", 1 << 19, Fault::Last(ErrorKind::TrailingComma, 1)),
    ("dict", "a", "a", "", "=", 1 << 19, Fault::Last(ErrorKind::ExpectedStartOfBareItem, 0)),
    ("dict", "a=(a", "a", "", "", 1 << 19, Fault::Last(ErrorKind::UnterminatedInnerList, 0)),
    ("dict", "", "u=:aGk=:, i=\"\\\\\", color=:aGk=:;strong=\"\\\\\", max-age=\"\\\\\";k#=:aGk=:, sha-256=:aGk=:, sha-512=:aGk=:", ",", "", 1 << 10, Fault::None),
    ("dict", "k0=\"\\\\\";k0=:aGk=:, sha-256=:aGk=:", ", u=%\"%c3%bc\";k#=\"\\\\\", i=(:aGk=:;k=:QUJDREVGR0hJSktMTU5PUFFSU1RVVldYWVphYmNkZWZnaGlqa2xtbm9w:);k=\"\\\\\", max-age=(1;k=\"\\\\\");k=%\"%c3%bc\", color=(1), sha-512=\"\\\\\"", "", "", 1 << 10, Fault::None),
    ("dict", "sha-512=:aGk=:, sha-256=\"\\\\\", a=(", "\"\\\\\";k#=:aGk=:", " ", " !", 1 << 10, Fault::Last(ErrorKind::ExpectedStartOfBareItem, 1)),
    ("dict", "b", ", k#=\"\\\\\";a=:aGk=:, sha-512=:aGk=:, sha-512=1", "", ",", 1 << 10, Fault::Last(ErrorKind::TrailingComma, 1)),
];

/// Returns `true` if the fields of this type are read at each size. These are those with a byte sequence in each part, or
/// the others. The sizes are all lengths below 2,200, or all numbers of parts below 300 (60 for long parts), and larger
/// ones. RFC 8941 has no dates and no display strings.
fn are_read_at_each_size(alloc: Global, wanted: &str, has_bytes: bool) -> Result<bool, Fail> {
    let mut holds = true;
    for &(field, begin, part, separator, end, most, fault) in FIELDS {
        if field != wanted || part.contains(':') != has_bytes {
            continue;
        }
        let dense = match part.len() {
            1 if separator.is_empty() => 2_200,
            0..=40 => 300,
            _ => 60,
        };
        let is_newer = begin.contains('@') || begin.contains('%') || part.contains('%');
        for &size in ladder(alloc, dense, most)?.iter() {
            let text = of_size(alloc, (begin, part, separator, end), size)?;
            let (input, error) = (text.as_str().as_bytes(), error_at(fault, text.len()));
            holds &= have(alloc, field, Version::Rfc9651, input, error);
            holds &= is_newer || have(alloc, field, Version::Rfc8941, input, error);
        }
    }
    Ok(holds)
}

#[test]
fn items_of_each_size_are_read(rt: HostRuntime) -> Result<(), Fail> {
    let alloc = rt.alloc();
    assert!(rt; are_read_at_each_size(alloc, "item", false)?);
    assert!(rt; are_read_at_each_size(alloc, "item", true)?);
    Ok(())
}

#[test]
fn lists_of_each_size_are_read(rt: HostRuntime) -> Result<(), Fail> {
    assert!(rt; are_read_at_each_size(rt.alloc(), "list", false)?);
    Ok(())
}

#[test]
fn lists_of_bytes_of_each_size_are_read(rt: HostRuntime) -> Result<(), Fail> {
    assert!(rt; are_read_at_each_size(rt.alloc(), "list", true)?);
    Ok(())
}

#[test]
fn dictionaries_of_each_size_are_read(rt: HostRuntime) -> Result<(), Fail> {
    assert!(rt; are_read_at_each_size(rt.alloc(), "dict", false)?);
    Ok(())
}

#[test]
fn dictionaries_of_bytes_of_each_size_are_read(rt: HostRuntime) -> Result<(), Fail> {
    assert!(rt; are_read_at_each_size(rt.alloc(), "dict", true)?);
    Ok(())
}

/// An input, which is read by all calls of its type.
#[derive(Clone, Copy)]
struct Reading<'a> {
    field: &'a str,
    version: Version,
    input: &'a [u8],
    error: Option<Error>,
}

impl Repeated for Reading<'_> {
    fn repeat(&self, alloc: Global) -> bool {
        have(alloc, self.field, self.version, self.input, self.error)
    }
}

/// Numbers of parts, or of bytes after the first part, under a version.
const RELEASED: &[(usize, usize, Version)] = &[
    (0, 0, Version::Rfc8941),
    (0, 0, Version::Rfc9651),
    (1, 1, Version::Rfc9651),
    (2, 2, Version::Rfc8941),
    (2, 2, Version::Rfc9651),
    (9, 33, Version::Rfc9651),
    (12, 100, Version::Rfc9651),
    (17, 5_000, Version::Rfc9651),
];

/// Returns `true` if no memory is lost by the fields of this type, with few and with more parts or bytes. These are the
/// fields that have a byte sequence in each part, or the others.
fn are_released(rt: &HostRuntime, wanted: &str, has_bytes: bool) -> Result<bool, Fail> {
    let mut holds = true;
    for &(field, begin, part, separator, end, _, fault) in FIELDS {
        if field != wanted || part.contains(':') != has_bytes {
            continue;
        }
        let fills = part.len() == 1 && separator.is_empty();
        let is_newer = begin.contains('@') || begin.contains('%') || part.contains('%');
        for &(parts, bytes, version) in RELEASED {
            let frame = begin.len().saturating_add(end.len());
            let size = if fills {
                bytes.saturating_add(frame)
            } else {
                parts
            };
            let text = of_size(rt.alloc(), (begin, part, separator, end), size)?;
            let (input, error) = (text.as_str().as_bytes(), error_at(fault, text.len()));
            let reading = Reading {
                field,
                version,
                input,
                error,
            };
            // Long fields are read less often.
            let times = if text.len() <= 400 { 10_000 } else { 200 };
            let is_lacking = is_newer && version == Version::Rfc8941;
            holds &= is_lacking || keeps_memory_of(rt, &reading, times)?;
        }
    }
    Ok(holds)
}

#[test]
fn items_are_released(rt: HostRuntime) -> Result<(), Fail> {
    assert!(rt; are_released(&rt, "item", false)? && are_released(&rt, "item", true)?);
    Ok(())
}

#[test]
fn lists_are_released(rt: HostRuntime) -> Result<(), Fail> {
    assert!(rt; are_released(&rt, "list", false)?);
    Ok(())
}

#[test]
fn lists_of_bytes_are_released(rt: HostRuntime) -> Result<(), Fail> {
    assert!(rt; are_released(&rt, "list", true)?);
    Ok(())
}

#[test]
fn dictionaries_are_released(rt: HostRuntime) -> Result<(), Fail> {
    assert!(rt; are_released(&rt, "dict", false)?);
    Ok(())
}

#[test]
fn dictionaries_of_bytes_are_released(rt: HostRuntime) -> Result<(), Fail> {
    assert!(rt; are_released(&rt, "dict", true)?);
    Ok(())
}

/// Returns the error of the library's call.
fn error_of_parser(alloc: Global, field: &str, version: Version, input: &[u8]) -> Option<Error> {
    let parser = Parser::new(input).with_version(version);
    match field {
        "item" => parser.parse::<Item>(alloc).err(),
        "list" => parser.parse::<List>(alloc).err(),
        _ => parser.parse::<Dictionary>(alloc).err(),
    }
}

// The program ignores a final newline.
#[test]
fn inputs_of_two_bytes_have_the_error_of_the_parser(rt: HostRuntime) {
    let alloc = rt.alloc();
    let mut holds = true;
    for &field in &["item", "list", "dict"] {
        for &version in &[Version::Rfc8941, Version::Rfc9651] {
            for first in 0..=255u8 {
                for last in 0..=255u8 {
                    let wanted = error_of_parser(alloc, field, version, &[first, last]);
                    holds &= last == b'\n' || have(alloc, field, version, &[first, last], wanted);
                }
            }
        }
    }
    assert!(rt; holds);
}

/// How many random fields of each type and version are tried.
const RANDOM: u64 = 4_000;

#[test]
fn random_inputs_have_the_error_of_the_parser(rt: HostRuntime) -> Result<(), Fail> {
    let alloc = rt.alloc();
    let mut holds = true;
    for &field in &["item", "list", "dict"] {
        for &version in &[Version::Rfc8941, Version::Rfc9651] {
            for seed in 0..RANDOM {
                let (mut random, mut text) = (Random::new(seed), String::new(alloc));
                random.push_field(&mut text, field, version == Version::Rfc8941)?;
                let mut bytes = text.into_bytes();
                holds &= have(alloc, field, version, &bytes[..], None);
                for _ in 0..3 {
                    let (place, byte) = (random.below(bytes.len()), random.byte());
                    if let Some(old) = bytes.get_mut(place) {
                        *old = byte;
                    }
                    let wanted = error_of_parser(alloc, field, version, &bytes[..]);
                    holds &= bytes.ends_with(b"\n")
                        || have(alloc, field, version, &bytes[..], wanted);
                }
            }
        }
    }
    assert!(rt; holds);
    Ok(())
}

/// Bare items with a syntax error: its kind and its index. If this is the length, the input ends there. Only this
/// version, if any, has this error.
#[rattlefmt::skip]
const FAULTS: &[(&str, ErrorKind, usize, Option<Version>)] = &[
    ("!", ErrorKind::ExpectedStartOfBareItem, 0, None),
    ("?2", ErrorKind::ExpectedBoolean, 1, None),
    ("\"\u{7f}\"", ErrorKind::InvalidStringCharacter, 1, None),
    ("\"\\a\"", ErrorKind::InvalidEscapeSequence, 2, None),
    (":A?=:", ErrorKind::InvalidByteSequence, 2, None),
    ("-a", ErrorKind::ExpectedDigit, 1, None),
    ("1234567890123456", ErrorKind::TooManyDigits, 15, None),
    ("1234567890123.1", ErrorKind::TooManyDigitsBeforeDecimalPoint, 13, None),
    ("1.2345", ErrorKind::TooManyDigitsAfterDecimalPoint, 5, None),
    ("1.", ErrorKind::TrailingDecimalPoint, 1, None),
    ("a;B", ErrorKind::ExpectedStartOfKey, 2, None),
    ("\"a", ErrorKind::UnterminatedString, 2, None),
    ("\"\\", ErrorKind::UnterminatedEscapeSequence, 2, None),
    (":AA", ErrorKind::UnterminatedByteSequence, 3, None),
    ("@1", ErrorKind::Rfc8941Date, 0, Some(Version::Rfc8941)),
    ("%\"a\"", ErrorKind::Rfc8941DisplayString, 0, Some(Version::Rfc8941)),
    ("@1.5", ErrorKind::NonIntegerDate, 0, Some(Version::Rfc9651)),
    ("%a", ErrorKind::ExpectedQuote, 1, Some(Version::Rfc9651)),
    ("%\"%ff\"", ErrorKind::InvalidUtf8InDisplayString, 2, Some(Version::Rfc9651)),
    ("%\"\u{7f}\"", ErrorKind::InvalidDisplayStringCharacter, 2, Some(Version::Rfc9651)),
    ("%\"%zz\"", ErrorKind::InvalidEscapeSequence, 3, Some(Version::Rfc9651)),
    ("%\"a", ErrorKind::UnterminatedDisplayString, 3, Some(Version::Rfc9651)),
    ("%\"%c", ErrorKind::UnterminatedEscapeSequence, 4, Some(Version::Rfc9651)),
];

/// Places of a bare item: the type of the field, a text before the parts, a part, and the texts around the bare item.
const PLACES: &[(&str, &str, &str, &str, &str)] = &[
    ("item", "", "  ", "", ";a"),
    ("item", "\"a\"", ";a", ";b=", ";c"),
    ("list", "", "a, ", "", ", b"),
    ("list", "(", "\"\\\\\" ", "", " a)"),
    ("list", "(a);b", ", a;c", ";d=", ", a"),
    ("dict", "", "a=1, ", "b=", ", a"),
    ("dict", "a=(", ":aGk=: ", "", "), b"),
    ("dict", "a", ";u", ";u=", ""),
];

#[test]
fn faults_have_their_kind_and_index(rt: HostRuntime) -> Result<(), Fail> {
    let alloc = rt.alloc();
    let mut holds = true;
    for &(field, begin, part, before, after) in PLACES {
        for &count in &[0, 1, 2, 30, 1_000] {
            let front = of_size(alloc, (begin, part, "", before), count)?;
            for &(bare_item, kind, index, only) in FAULTS {
                let after = if index < bare_item.len() { after } else { "" };
                let text = format!(in alloc; "{front}{bare_item}{after}")?;
                let wanted = Some(Error::at(kind, front.len().saturating_add(index)));
                for &version in &[Version::Rfc8941, Version::Rfc9651] {
                    holds &= only.unwrap_or(version) != version
                        || have(alloc, field, version, text.as_str().as_bytes(), wanted);
                }
            }
        }
    }
    assert!(rt; holds);
    Ok(())
}

/// Bare items of each kind, with and without escapes.
const PARTS: &[&str] = &[
    "1",
    "-1.5",
    "\"a\"",
    "\"\\\"\"",
    "*a:b",
    "Tok",
    ":aGk=:",
    "::",
    "?0",
    "?1",
    "@1",
    "%\"a\"",
    "%\"%c3%bc\"",
];

/// Fields of two bare items: their type, and the texts before, between and after them.
const PAIRS: &[(&str, &str, &str, &str)] = &[
    ("item", "", ";a=", ""),
    ("item", "", ";*=", ";b"),
    ("list", "", ", ", ""),
    ("list", "", ";a=", ";b"),
    ("list", "(", " ", ");a"),
    ("list", "(a);a=", ";a=", ""),
    ("dict", "max-age=", ", a=", ""),
    ("dict", "a=", ", max-age=", ""),
    ("dict", "sha-256=", ";a=", ""),
    ("dict", "u=(", " ", "), max-age=1;a"),
];

// Of each pair of parts, and with a fault after it.
#[test]
fn pairs_of_parts_have_the_error_of_the_parser(rt: HostRuntime) -> Result<(), Fail> {
    let alloc = rt.alloc();
    let mut holds = true;
    for &(field, begin, between, end) in PAIRS {
        for &one in PARTS {
            for &other in PARTS {
                for &fault in &["", ",", "!", ";B", " (", ", A", ", (a"] {
                    let text = format!(in alloc; "{begin}{one}{between}{other}{end}{fault}")?;
                    let input = text.as_str().as_bytes();
                    for &version in &[Version::Rfc8941, Version::Rfc9651] {
                        let wanted = error_of_parser(alloc, field, version, input);
                        holds &= have(alloc, field, version, input, wanted);
                    }
                }
            }
        }
    }
    assert!(rt; holds);
    Ok(())
}
