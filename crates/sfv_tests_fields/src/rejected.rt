//! Rejected fields of each length: the kind and the index of the error.

use crate::common::{NEAR, OLDER, counted, field_of, numbers, repeated};
use crate::sizes::FAR;
use sfv::visitor::Ignored;
use sfv::{Dictionary, Error, ErrorKind, Item, List, ParseError, Parser, Version};
use sfv_random::rows::row;
use sfv_random::texts::filled;
use std::alloc::Global;
use std::test::Fail;

/// Returns `true` if the result is this syntax error.
fn is_syntax<T: Drop, E: Drop>(parsed: Result<T, ParseError<E>>, error: Error) -> bool {
    match parsed {
        Err(ParseError::Syntax(found)) => found == error,
        _ => false,
    }
}

/// Returns `true` if the parser rejects the input with this error, as a tree and with a visitor.
pub fn rejects(alloc: Global, parser: Parser<'_>, field: &str, error: Error) -> bool {
    match field {
        "item" => {
            (parser.parse::<Item>(alloc).err() == Some(error))
                & is_syntax(parser.parse_item::<Item>(alloc), error)
                & is_syntax(parser.parse_item_with_visitor(alloc, Ignored), error)
        }
        "list" => {
            (parser.parse::<List>(alloc).err() == Some(error))
                & is_syntax(parser.parse_list::<List>(alloc), error)
                & is_syntax(parser.parse_list_with_visitor(alloc, Ignored), error)
        }
        _ => {
            (parser.parse::<Dictionary>(alloc).err() == Some(error))
                & is_syntax(parser.parse_dictionary::<Dictionary>(alloc), error)
                & is_syntax(parser.parse_dictionary_with_visitor(alloc, Ignored), error)
        }
    }
}

/// Fails unless the input is rejected with this kind, `back` bytes before its end: up to `NEAR` bytes under both
/// versions, and otherwise under one, by turns. RFC 8941 has no display strings.
fn reject(
    alloc: Global,
    field: &str,
    input: &str,
    (kind, back, is_newer): (ErrorKind, usize, bool),
    turn: usize,
) -> Result<(), Fail> {
    let error = Error::with_kind(kind, input.len().checked_sub(back));
    let parser = Parser::new(input.as_bytes());
    let is_both = input.len() <= NEAR;
    if is_newer || is_both || turn % 2 == 0 {
        let holds = rejects(alloc, parser, field, error);
        row(field, Version::Rfc9651, input, error, holds)?;
    }
    if !is_newer && (is_both || turn % 2 == 1) {
        let older = parser.with_version(Version::Rfc8941);
        let holds = rejects(alloc, older, field, error);
        row(field, Version::Rfc8941, input, error, holds)?;
    }
    Ok(())
}

/// Fields of numbered parts: the type, the text before the parts, the text before each number, the separator, and the
/// end. Then the kind of the error, and how many bytes follow its index. Some fields have a backslash, a percent sign or
/// a colon: only these can allocate.
const PARTS: &[(&str, &str, &str, &str, &str, ErrorKind, usize)] = &[
    (
        "item",
        "1;",
        "k",
        ";",
        "!",
        ErrorKind::TrailingCharactersAfterParsedValue,
        1,
    ),
    (
        "item",
        "\"\\\\\";",
        "k",
        ";",
        "!",
        ErrorKind::TrailingCharactersAfterParsedValue,
        1,
    ),
    (
        "item",
        "1;",
        "k",
        ";",
        ";",
        ErrorKind::ExpectedStartOfKey,
        0,
    ),
    (
        "list",
        "1;",
        "k",
        ";",
        ";",
        ErrorKind::ExpectedStartOfKey,
        0,
    ),
    (
        "list",
        "(1;",
        "k",
        ";",
        ";)",
        ErrorKind::ExpectedStartOfKey,
        1,
    ),
    (
        "dict",
        "a;",
        "k",
        ";",
        ";",
        ErrorKind::ExpectedStartOfKey,
        0,
    ),
    (
        "list",
        "",
        "",
        ", ",
        "!",
        ErrorKind::TrailingCharactersAfterMember,
        1,
    ),
    (
        "list",
        "\"\\\\\", ",
        "",
        ", ",
        "!",
        ErrorKind::TrailingCharactersAfterMember,
        1,
    ),
    (
        "list",
        "(",
        "",
        " ",
        "!",
        ErrorKind::ExpectedInnerListDelimiter,
        1,
    ),
    (
        "list",
        "(:aGk=: ",
        "",
        " ",
        "",
        ErrorKind::UnterminatedInnerList,
        0,
    ),
    (
        "dict",
        "",
        "k",
        ", ",
        "!",
        ErrorKind::TrailingCharactersAfterMember,
        1,
    ),
    (
        "dict",
        "a=:aGk=:, ",
        "k",
        ", ",
        ",",
        ErrorKind::TrailingComma,
        1,
    ),
    (
        "item",
        "\"\\\\\";a=b%;c=:aGk=:;",
        "k",
        ";",
        "!",
        ErrorKind::TrailingCharactersAfterParsedValue,
        1,
    ),
    (
        "list",
        "\"\\\\\", a%, :aGk=:, ",
        "",
        ", ",
        "!",
        ErrorKind::TrailingCharactersAfterMember,
        1,
    ),
    (
        "list",
        "",
        "",
        ", ",
        ", %\"a%ff\"",
        ErrorKind::InvalidUtf8InDisplayString,
        4,
    ),
    (
        "dict",
        "a=\"\\\\\", b=a%, c=:aGk=:, ",
        "k",
        ", ",
        "!",
        ErrorKind::TrailingCharactersAfterMember,
        1,
    ),
    (
        "dict",
        "",
        "k",
        ", ",
        ", a=%\"a",
        ErrorKind::UnterminatedDisplayString,
        0,
    ),
];

#[test]
fn fields_of_each_number_of_parts_are_rejected(rt: HostRuntime) -> Result<(), Fail> {
    let alloc = rt.alloc();
    for &(field, begin, front, separator, end, kind, back) in PARTS {
        let fault = (kind, back, end.contains("%\""));
        for (turn, &count) in numbers(alloc, 601, 147_456)?.iter().enumerate() {
            if count > 0 {
                let text = counted(alloc, begin, front, separator, end, count)?;
                reject(alloc, field, text.as_str(), fault, turn)?;
            }
        }
    }
    Ok(())
}

/// Items of repeated pieces: the text before the pieces, a piece, the end, the kind of the error, and how many bytes
/// follow its index.
const PIECES: &[(&str, &str, &str, ErrorKind, usize)] = &[
    (
        "",
        "b",
        "(",
        ErrorKind::TrailingCharactersAfterParsedValue,
        1,
    ),
    (
        "a",
        "b",
        "(",
        ErrorKind::TrailingCharactersAfterParsedValue,
        1,
    ),
    ("\"", "a\\\"", "", ErrorKind::UnterminatedString, 0),
    ("\"", "a", "\n", ErrorKind::InvalidStringCharacter, 1),
    ("\"", "\\\\", "", ErrorKind::UnterminatedString, 0),
    ("\"", "\\\\", "\n", ErrorKind::InvalidStringCharacter, 1),
    ("\"", "\\\\", "\\a", ErrorKind::InvalidEscapeSequence, 1),
    (
        "\"",
        "\\\\",
        "\" :",
        ErrorKind::TrailingCharactersAfterParsedValue,
        1,
    ),
    (":", "aGkh", "", ErrorKind::UnterminatedByteSequence, 0),
    (
        ":",
        "aGkh",
        ": x",
        ErrorKind::TrailingCharactersAfterParsedValue,
        1,
    ),
    (
        "%\"",
        "%c3%bc",
        "%4G\"",
        ErrorKind::InvalidEscapeSequence,
        2,
    ),
    (
        "%\"",
        "a",
        "\" %",
        ErrorKind::TrailingCharactersAfterParsedValue,
        1,
    ),
    (
        "%\"",
        "a",
        "%ff\"",
        ErrorKind::InvalidUtf8InDisplayString,
        4,
    ),
    (
        "%\"",
        "%c3%bc",
        "%c3\"",
        ErrorKind::InvalidUtf8InDisplayString,
        4,
    ),
    (
        "%\"",
        "a",
        "\n\"",
        ErrorKind::InvalidDisplayStringCharacter,
        2,
    ),
    (
        "%\"",
        "%c3%bc",
        "\n\"",
        ErrorKind::InvalidDisplayStringCharacter,
        2,
    ),
    ("%\"", "a", "%", ErrorKind::UnterminatedEscapeSequence, 0),
    ("%\"", "%20", "", ErrorKind::UnterminatedDisplayString, 0),
];

#[test]
fn items_of_each_length_are_rejected(rt: HostRuntime) -> Result<(), Fail> {
    let alloc = rt.alloc();
    for &(front, piece, end, kind, back) in PIECES {
        let fault = (kind, back, front == "%\"");
        for (turn, &count) in numbers(alloc, 1_101, FAR / piece.len().max(1))?
            .iter()
            .enumerate()
        {
            if count > 0 {
                let text = repeated(alloc, front, piece, count, end)?;
                reject(alloc, "item", text.as_str(), fault, turn)?;
            }
        }
    }
    Ok(())
}

/// Returns the error of a byte after an item of `len` bytes, if there is one. `is_key` says whether the item ends with a
/// key.
fn error_after(byte: u8, len: usize, is_key: bool) -> Option<Error> {
    match byte {
        b' ' => None,
        b';' => Some(Error::at(ErrorKind::ExpectedStartOfKey, len.saturating_add(1))),
        b'=' if is_key => Some(Error::at(
            ErrorKind::ExpectedStartOfBareItem,
            len.saturating_add(1),
        )),
        b'a'..=b'z' | b'0'..=b'9' | b'_' | b'-' | b'.' | b'*' if is_key => None,
        _ => Some(Error::at(ErrorKind::TrailingCharactersAfterParsedValue, len)),
    }
}

/// Returns `true` if the item has this error, or none, as a tree and with a visitor.
fn has_fault(alloc: Global, parser: Parser<'_>, wanted: Option<Error>) -> bool {
    match wanted {
        Some(error) => rejects(alloc, parser, "item", error),
        None => {
            parser.parse::<Item>(alloc).is_ok()
                && parser.parse_item_with_visitor(alloc, Ignored).is_ok()
        }
    }
}

#[test]
fn each_byte_after_an_item_has_its_error(rt: HostRuntime) -> Result<(), Fail> {
    let alloc = rt.alloc();
    for &(item, is_key) in &[
        (":aGk=:", false),
        ("\"\\\\\"", false),
        ("1;a", true),
        ("\"\\\\\";a", true),
    ] {
        for byte in 0..=255u8 {
            let mut input = Vec::new(alloc);
            input.extend_from_slice(item.as_bytes())?;
            input.push(byte)?;
            let wanted = error_after(byte, item.len(), is_key);
            for &version in &[Version::Rfc8941, Version::Rfc9651] {
                let parser = Parser::new(&input[..]).with_version(version);
                let holds = has_fault(alloc, parser, wanted);
                row("item, then a byte", version, item, byte, holds)?;
            }
        }
    }
    Ok(())
}

/// Members, or a text after an item, that end a field with an error: the text, the kind of the error, and how many bytes
/// follow its index.
const ENDS: &[(&str, ErrorKind, usize)] = &[
    ("(", ErrorKind::UnterminatedInnerList, 0),
    ("( ", ErrorKind::ExpectedStartOfBareItem, 0),
    ("(a", ErrorKind::UnterminatedInnerList, 0),
    ("(a;b", ErrorKind::UnterminatedInnerList, 0),
    ("(a b ", ErrorKind::ExpectedStartOfBareItem, 0),
    ("(a,", ErrorKind::ExpectedInnerListDelimiter, 1),
    ("(a b\t", ErrorKind::ExpectedInnerListDelimiter, 1),
    ("(()", ErrorKind::ExpectedStartOfBareItem, 2),
    ("(a;", ErrorKind::ExpectedStartOfKey, 0),
    ("(a;b=", ErrorKind::ExpectedStartOfBareItem, 0),
    ("();", ErrorKind::ExpectedStartOfKey, 0),
    ("();a;B", ErrorKind::ExpectedStartOfKey, 1),
    ("();a=", ErrorKind::ExpectedStartOfBareItem, 0),
    ("(a)b", ErrorKind::TrailingCharactersAfterMember, 1),
    ("a;", ErrorKind::ExpectedStartOfKey, 0),
    ("a;b;B", ErrorKind::ExpectedStartOfKey, 1),
    ("a;b=", ErrorKind::ExpectedStartOfBareItem, 0),
    ("a;b=!", ErrorKind::ExpectedStartOfBareItem, 1),
    ("a b", ErrorKind::TrailingCharactersAfterMember, 1),
    ("a\t(", ErrorKind::TrailingCharactersAfterMember, 1),
    ("a,", ErrorKind::TrailingComma, 1),
    ("a\t,\t", ErrorKind::TrailingComma, 2),
    ("()\t, ", ErrorKind::TrailingComma, 2),
    ("!", ErrorKind::ExpectedStartOfBareItem, 1),
    ("-", ErrorKind::ExpectedDigit, 0),
    ("1.", ErrorKind::TrailingDecimalPoint, 1),
    ("?2", ErrorKind::ExpectedBoolean, 1),
    ("\"a", ErrorKind::UnterminatedString, 0),
    ("\"\\a", ErrorKind::InvalidEscapeSequence, 1),
    (":A", ErrorKind::UnterminatedByteSequence, 0),
];

/// Members of a list, with a comma after the last one.
const BEFORE: &[&str] = &[
    "",
    "a, ",
    "1;a;b, (a b;c);d, ",
    ":aGk=:, ",
    "\"\\\\\", a;b, ",
    "a%, ?1;a, ",
    "a;b=:aA==:, ",
    "(a :aA==: b;c=\"\\\\\");d, (), ",
    "1, 2, 3, 4, 5, ();a=:aGk=:, ",
];

/// Returns the members as those of a dictionary, or the same text for a list.
fn named(alloc: Global, field: &str, members: &str, number: usize) -> Result<String, Fail> {
    let mut text = String::new(alloc);
    for (place, member) in members.split(", ").enumerate() {
        if place > 0 {
            text.push_str(", ")?;
        }
        if field == "dict" && !member.is_empty() {
            let key = format!(in alloc; "k{number}-{place}=")?;
            text.push_str(key.as_str())?;
        }
        text.push_str(member)?;
    }
    Ok(text)
}

/// Returns these members so many times, with different keys.
fn front_of(alloc: Global, field: &str, members: &str, times: usize) -> Result<String, Fail> {
    let mut front = String::new(alloc);
    for number in 0..times {
        front.push_str(named(alloc, field, members, number)?.as_str())?;
    }
    Ok(front)
}

/// Rejects the field of these members with each end.
fn reject_ends(alloc: Global, field: &str, front: &str) -> Result<(), Fail> {
    let place = if field == "dict" { "*=$" } else { "$" };
    for &(end, kind, back) in ENDS {
        let last = filled(alloc, place, end)?;
        let text = repeated(alloc, front, last.as_str(), 1, "")?;
        reject(alloc, field, text.as_str(), (kind, back, false), 0)?;
    }
    Ok(())
}

#[test]
fn errors_after_members_of_each_kind_have_their_index(rt: HostRuntime) -> Result<(), Fail> {
    let alloc = rt.alloc();
    for &field in &["list", "dict"] {
        for &before in BEFORE {
            for &times in &[1, 2, 30] {
                let front = front_of(alloc, field, before, times)?;
                reject_ends(alloc, field, front.as_str())?;
            }
        }
    }
    Ok(())
}

// The key of a member is wrong after members of each kind.
#[test]
fn errors_of_keys_have_their_index(rt: HostRuntime) -> Result<(), Fail> {
    let alloc = rt.alloc();
    for &before in BEFORE {
        for &times in &[1, 2, 30] {
            let mut text = front_of(alloc, "dict", before, times)?;
            text.push('B')?;
            let fault = (ErrorKind::ExpectedStartOfKey, 1, false);
            reject(alloc, "dict", text.as_str(), fault, 0)?;
        }
    }
    Ok(())
}

// An item of each kind, with parameters, and an error after it.
#[test]
fn errors_after_items_of_each_kind_have_their_index(rt: HostRuntime) -> Result<(), Fail> {
    let alloc = rt.alloc();
    for &value in OLDER {
        for &count in &[0, 1, 2, 9, 10, 11, 64, 65, 300] {
            let item = field_of(alloc, (value, ";k#~", "", ""), OLDER, count)?;
            for &(end, kind, back) in &[
                (" !", ErrorKind::TrailingCharactersAfterParsedValue, 1),
                ("\t", ErrorKind::TrailingCharactersAfterParsedValue, 1),
                (";", ErrorKind::ExpectedStartOfKey, 0),
                (";a;B", ErrorKind::ExpectedStartOfKey, 1),
                (";a=", ErrorKind::ExpectedStartOfBareItem, 0),
                (";a=\"\n", ErrorKind::InvalidStringCharacter, 1),
            ] {
                let text = format!(in alloc; "{item}{end}")?;
                reject(alloc, "item", text.as_str(), (kind, back, false), 0)?;
            }
        }
    }
    Ok(())
}
