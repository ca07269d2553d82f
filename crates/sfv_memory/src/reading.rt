//! Fields that are parsed and serialized, and further lines of a field.

use crate::refused_if;
use sfv::visitor::{DictionaryBuilder, ListBuilder};
use sfv::{
    Dictionary, Error, ErrorKind, FieldType, List, OutOfMemory, ParseError, Parser, SerializeError,
    Version,
};
use std::alloc::Global;

/// The result of parsing an input: a value with this canonical text, or an error.
#[derive(Clone, Copy)]
pub enum Answer {
    /// A value with this canonical text.
    Text(&'static str),
    /// An error of this kind at this index.
    Fault(ErrorKind, usize),
}

/// Returns `true` if there is a text, and it is `wanted`.
fn has_text(text: Option<String>, wanted: &str) -> bool {
    match text {
        Some(text) => text.as_str() == wanted,
        None => false,
    }
}

/// Returns `true` if the result is `answer`.
pub fn is_answer(read: Result<Option<String>, Error>, answer: Answer) -> Result<bool, Error> {
    match answer {
        Answer::Text(want) => Ok(has_text(read?, want)),
        Answer::Fault(kind, index) => match read {
            Err(error) if error.kind() == kind => Ok(error.index() == Some(index)),
            Err(error) => Err(error),
            Ok(_text) => Ok(false),
        },
    }
}

/// Parses a field, and serializes it.
pub fn read<T: FieldType>(alloc: Global, input: &[u8]) -> Result<Option<String>, Error> {
    let value = Parser::new(input).parse::<T>(alloc)?;
    Ok(value.serialize(alloc)?.into())
}

/// Parses a field from its canonical text, serializes it for RFC 8941, and appends it to a text, which stays empty after
/// an error.
pub fn write_for<T: FieldType>(alloc: Global, input: &str) -> Result<bool, Error> {
    let value = Parser::new(input.as_bytes()).parse::<T>(alloc)?;
    let is_written = match value.serialize_for(alloc, Version::Rfc8941) {
        Ok(text) => has_text(text.into(), input),
        Err(error) => return refused_if(error == SerializeError::OutOfMemory),
    };
    let mut all = String::new(alloc);
    match value.append_to(Version::Rfc8941, &mut all) {
        Ok(_) => Ok(is_written && all.as_str() == input),
        Err(error) => refused_if(error == SerializeError::OutOfMemory && all.is_empty()),
    }
}

/// Serializes a value that was parsed with a visitor. The visitor fails only if memory runs out.
fn written<T: FieldType>(
    alloc: Global,
    read: Result<T, ParseError<OutOfMemory>>,
) -> Result<Option<String>, Error> {
    match read {
        Ok(value) => Ok(value.serialize(alloc)?.into()),
        Err(ParseError::Syntax(error)) => Err(error),
        Err(ParseError::Visitor(error)) => Err(Error::from(error)),
    }
}

/// Parses a further line of a list, and serializes the list.
pub fn read_into_list(alloc: Global, held: &[u8], line: &[u8]) -> Result<Option<String>, Error> {
    let parser = Parser::new(line);
    let held = Parser::new(held).parse::<List>(alloc)?;
    let builder = ListBuilder::new(held, parser.hash_seed());
    written(alloc, parser.parse_list_with_visitor(alloc, builder))
}

/// Parses a further line of a dictionary, and serializes the dictionary.
pub fn read_into_dictionary(
    alloc: Global,
    held: &[u8],
    line: &[u8],
) -> Result<Option<String>, Error> {
    let held = Parser::new(held).parse::<Dictionary>(alloc)?;
    let builder = DictionaryBuilder::new(held);
    written(
        alloc,
        Parser::new(line).parse_dictionary_with_visitor(alloc, builder),
    )
}
