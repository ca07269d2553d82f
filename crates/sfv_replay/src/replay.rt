//! One line of a list, and the library's result for it.

use sfv::{Dictionary, Error, FieldKind, FieldType, Item, List, Parser, Version};
use std::alloc::{AllocError, Global};

/// An input with the expected result.
#[derive(Clone, Copy)]
pub struct Case<'a> {
    /// The field type to parse.
    pub field: FieldKind,
    /// The version to parse under.
    pub version: Version,
    /// The input in hexadecimal, or `-` for no bytes.
    pub input: &'a str,
    /// The number of calls of a visitor that never fails.
    pub calls: u64,
    /// The expected result.
    pub answer: &'a str,
}

/// Parses a line to its case.
pub fn parse_line(line: &str) -> Option<Case<'_>> {
    let (field, rest) = line.split_once(' ')?;
    let field = match field {
        "item" => FieldKind::Item,
        "list" => FieldKind::List,
        "dict" => FieldKind::Dictionary,
        _ => return None,
    };
    let (version, rest) = rest.split_once(' ')?;
    let version = match version {
        "8941" => Version::Rfc8941,
        "9651" => Version::Rfc9651,
        _ => return None,
    };
    let (input, rest) = rest.split_once(' ')?;
    let (calls, answer) = rest.split_once(' ')?;
    Some(Case {
        field,
        version,
        input,
        calls: calls.parse().ok()?,
        answer,
    })
}

/// Returns the input of a case, or `None` if it is not hexadecimal or memory runs out.
pub fn input_of(alloc: Global, case: &Case<'_>) -> Option<Vec<u8>> {
    let digits = if case.input == "-" { "" } else { case.input };
    hex::decode(alloc, digits).ok()
}

/// Parses a field and returns its canonical text, or `None` for an empty list or dictionary.
fn text_as<T: FieldType>(alloc: Global, parser: Parser<'_>) -> Result<Option<String>, Error> {
    let field = parser.parse::<T>(alloc)?;
    Ok(field.serialize(alloc)?.into())
}

/// Returns the canonical text of an input as a field of this type, or `None` for an empty list or dictionary.
pub fn canonical_text(
    alloc: Global,
    field: FieldKind,
    version: Version,
    input: &[u8],
) -> Result<Option<String>, Error> {
    let parser = Parser::new(input).with_version(version);
    match field {
        FieldKind::Item => text_as::<Item>(alloc, parser),
        FieldKind::List => text_as::<List>(alloc, parser),
        FieldKind::Dictionary => text_as::<Dictionary>(alloc, parser),
    }
}

/// Returns the library's result for an input, as a line has it.
pub fn answer_of(
    alloc: Global,
    field: FieldKind,
    version: Version,
    input: &[u8],
) -> Result<String, AllocError> {
    match canonical_text(alloc, field, version, input) {
        Ok(Some(text)) => {
            let text = hex::encode(alloc, text.as_bytes())?;
            format!(in alloc; "ok {text}")
        }
        Ok(None) => String::from_str(alloc, "ok none"),
        Err(error) => format!(in alloc; "err {error}"),
    }
}
