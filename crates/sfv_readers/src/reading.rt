//! Parsing with a reader.

ghost use Rattle.std.specs.Prelude.{◌≡◌, ◌⊎◌, [], IfOk, IfErr};
ghost use Rattle.sfv_spec.specs.declared.field_kind.FieldKind.TheVariants.{List as list_field};
ghost use Rattle.sfv_spec.specs.declared.field_kind.FieldKind.TheVariants.{Dictionary as dictionary_field};
ghost use Rattle.sfv.specs.Parsers.{IsParseError};
ghost use Rattle.sfv_readers.specs.Words.{IsReadBy, NeedsMarkUnless};

use crate::dictionary::{DictionaryReader, DictionaryVisitor};
use crate::list::{ListReader, ListVisitor};
use sfv::{Error, ParseError, Parser, Version};
use std::alloc::Global;

/// Parses a list under `version` and passes its members to `reader` (RFC 9651, section 4.2).
///
/// No list is built. Only texts with escapes, byte sequences and the reader's own memory are allocated.
///
/// # Errors
///
/// Returns the error of `Parser::parse` if the input is not a list, or if memory runs out. Unless the reader runs out of
/// memory, this happens only if the input contains a backslash, a percent sign or a colon.
pub fn read_list<'de, R: ListReader<'de>>(
    alloc: Global,
    input: &'de [u8],
    version: Version,
    reader: R,
) -> Result<R, Error>
    requires { R.reads reader reader [] }
    ensures read { IfOk result (IsReadBy version list_field (R.reads reader) input.now) }
    ensures rejected { IfErr result (IsParseError version list_field input.now) }
    ensures memory { IfErr result (NeedsMarkUnless (R.Items.may_fail ⊎ R.may_fail) input.now) }
{
    let parser = Parser::new(input).with_version(version);
    match parser.parse_list_with_visitor(alloc, ListVisitor::new(alloc, reader)) {
        Ok(found) => Ok(found),
        Err(ParseError::Syntax(error)) => Err(error),
        Err(ParseError::Visitor(error)) => Err(Error::from(error)),
    }
}

/// Parses a dictionary under `version` and passes the members whose keys matter to `reader` (RFC 9651, section 4.2).
///
/// No dictionary is built. Only texts with escapes, byte sequences and the reader's own memory are allocated.
///
/// # Errors
///
/// Returns the error of `Parser::parse` if the input is not a dictionary, or if memory runs out. Unless the reader runs
/// out of memory, this happens only if the input contains a backslash, a percent sign or a colon.
pub fn read_dictionary<'de, R: DictionaryReader<'de>>(
    alloc: Global,
    input: &'de [u8],
    version: Version,
    reader: R,
) -> Result<R, Error>
    requires { R.reads reader reader [] }
    ensures read { IfOk result (IsReadBy version dictionary_field (R.reads reader) input.now) }
    ensures rejected { IfErr result (IsParseError version dictionary_field input.now) }
    ensures memory { IfErr result (NeedsMarkUnless R.Items.may_fail input.now) }
{
    let parser = Parser::new(input).with_version(version);
    match parser.parse_dictionary_with_visitor(alloc, DictionaryVisitor::new(alloc, reader)) {
        Ok(found) => Ok(found),
        Err(ParseError::Syntax(error)) => Err(error),
        Err(ParseError::Visitor(error)) => Err(Error::from(error)),
    }
}
