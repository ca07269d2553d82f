//! Parsing of a field to a value.

ghost use Rattle.std.specs.Prelude.{◌≡◌, IsNone, IfOk, IfErr, IfSome, option_copied, option_map, string_bytes};
ghost use Rattle.sfv.specs.Types.{item_field, list_field, dictionary_field, Rfc9651, Rfc8941};
ghost use Rattle.sfv.specs.Grammar.{IsAccepted};
ghost use Rattle.sfv.specs.Ordered.{last_of};
ghost use Rattle.sfv.specs.Statements.{IsParsedAs};
ghost use Rattle.sfv.specs.Trees.{list_tree, dictionary_tree, member_tree, pairs_tree};
ghost use Rattle.sfv.specs.BareItems.{bare_value};
ghost use Rattle.sfv.specs.CheckedTexts.{text_of};
ghost use Rattle.sfv.specs.Parsers.{IsParseError};
ghost use Rattle.sfv.specs.NumberValues.{integer_of};
ghost use Rattle.sfv.specs.Seeds.{ListHasSeed, DictionaryHasSeed};
ghost use Rattle.sfv_examples.specs.Uses.{IsExplained, HasIntegerOr, parameters_of, param_in, HasParam, IsListOfBoth};
ghost use Rattle.sfv_examples.specs.Uses.{IsDictionaryOfBoth, IsOfOneLine, IsErrorOfLines};

use sfv::visitor::{DictionaryBuilder, ListBuilder};
use sfv::{
    BareItem, Dictionary, Error, HashSeed, Integer, Item, KeyRef, List, ListEntry, OutOfMemory,
    Parameters, ParseError, Parser, Version, find_entry, find_param,
};
use std::alloc::Global;

/// Parses a list under RFC 8941, the older version.
///
/// # Errors
///
/// Returns the errors of `Parser::parse`.
pub fn read_older_list(alloc: Global, input: &[u8]) -> Result<List, Error>
    ensures read { IfOk result (λ list. IsParsedAs Rfc8941 list_field input.now (list_tree list.items)) }
    ensures rejected { IfErr result (IsParseError Rfc8941 list_field input.now) }
{
    Parser::new(input)
        .with_version(Version::Rfc8941)
        .parse::<List>(alloc)
}

/// Checks that a text is a list. Returns `None` if it is. Otherwise returns a line for a person: a caret at the index
/// of the syntax error, and its message.
///
/// # Errors
///
/// Returns `OutOfMemory` if memory runs out.
pub fn explain(alloc: Global, input: &[u8]) -> Result<Option<String>, OutOfMemory>
    ensures accepted { IfOk result (λ line. IsNone line → IsAccepted Rfc9651 list_field input.now) }
    ensures explained { IfOk result (λ line. IfSome line (λ text. IsExplained input.now (string_bytes text))) }
{
    let Err(error) = Parser::new(input).parse::<List>(alloc) else {
        return Ok(None);
    };
    let Some(index) = error.index() else {
        return Err(OutOfMemory);
    };
    let mut line = " ".repeat(alloc, index)?;
    line.push_str("^ ")?;
    line.push_str(error.message())?;
    Ok(Some(line))
}

/// Parses an item and returns its integer, or `default` if its bare item has another kind. Ignores parameters.
///
/// # Errors
///
/// Returns the errors of `Parser::parse`.
pub fn integer_with_default(alloc: Global, input: &[u8], default: Integer) -> Result<Integer, Error>
    ensures integer { IfOk result (λ z. HasIntegerOr (integer_of default) input.now (integer_of z)) }
    ensures rejected { IfErr result (IsParseError Rfc9651 item_field input.now) }
{
    let item = Parser::new(input).parse::<Item>(alloc)?;
    let Some(integer) = item.bare_item.as_integer() else {
        return Ok(default);
    };
    Ok(integer)
}

/// Returns the parameters of a member.
fn params_of(member: &ListEntry) -> &Parameters
    ensures { parameters_of (member_tree member.now) ≡ pairs_tree result.now.entries }
{
    match member {
        ListEntry::Item(item) => &item.params,
        ListEntry::InnerList(list) => &list.params,
    }
}

/// Returns the value of a parameter of a dictionary member.
fn param_of<'a>(
    dictionary: &'a Dictionary,
    member: KeyRef<'_>,
    param: KeyRef<'_>,
) -> Option<&'a BareItem>
    ensures { option_map bare_value (option_copied result)
        ≡ param_in (text_of param.entry) (last_of (text_of member.entry) (dictionary_tree dictionary.now.entries)) }
{
    let entry = find_entry(dictionary, member)?;
    find_param(params_of(entry), param)
}

/// Parses a dictionary and returns the value of a parameter of a member. For repeated keys, it is the last such
/// parameter of the last such member. Returns `None` if there is no such member or parameter.
///
/// # Errors
///
/// Returns the errors of `Parser::parse`.
pub fn param_of_member(
    alloc: Global,
    input: &[u8],
    member: KeyRef<'_>,
    param: KeyRef<'_>,
) -> Result<Option<BareItem>, Error>
    ensures param { IfOk result (HasParam input.now member.entry param.entry) }
    ensures rejected { IfErr result (IsParseError Rfc9651 dictionary_field input.now) }
{
    let dictionary = Parser::new(input).parse::<Dictionary>(alloc)?;
    let Some(value) = param_of(&dictionary, member, param) else {
        return Ok(None);
    };
    let copy = value.as_ref_item().try_to_owned(alloc)?;
    Ok(Some(copy))
}

/// Parses a list that comes in two lines: the second line's members follow the first line's. All parameters have this
/// seed.
///
/// # Errors
///
/// Returns the error of `Parser::parse` for the first line that is not a list.
pub fn list_of_lines(
    alloc: Global,
    seed: HashSeed,
    first: &[u8],
    second: &[u8],
) -> Result<List, ParseError<OutOfMemory>>
    ensures joined { IfOk result (λ list. IsListOfBoth first.now second.now (list_tree list.items)) }
    ensures one_line { IfOk result (λ list. IsOfOneLine list_field first.now second.now (list_tree list.items)) }
    ensures seed { IfOk result (λ list. ListHasSeed seed list.items) }
    ensures rejected { IfErr result (IsErrorOfLines list_field first.now second.now) }
{
    let parser = Parser::new(first).with_hash_seed(seed);
    let held = parser.parse::<List>(alloc)?;
    let builder = ListBuilder::new(held, parser.hash_seed());
    Parser::new(second).parse_list_with_visitor(alloc, builder)
}

/// Parses a dictionary that comes in two lines, as if they were one. Each key keeps its first position and takes its
/// last member. The dictionary and all parameters have this seed.
///
/// # Errors
///
/// Returns the error of `Parser::parse` for the first line that is not a dictionary.
pub fn dictionary_of_lines(
    alloc: Global,
    seed: HashSeed,
    first: &[u8],
    second: &[u8],
) -> Result<Dictionary, ParseError<OutOfMemory>>
    ensures joined { IfOk result (λ d. IsDictionaryOfBoth first.now second.now (dictionary_tree d.entries)) }
    ensures one_line { IfOk result
        (λ d. IsOfOneLine dictionary_field first.now second.now (dictionary_tree d.entries)) }
    ensures seed { IfOk result (DictionaryHasSeed seed) }
    ensures rejected { IfErr result (IsErrorOfLines dictionary_field first.now second.now) }
{
    let parser = Parser::new(first).with_hash_seed(seed);
    let held = parser.parse::<Dictionary>(alloc)?;
    let builder = DictionaryBuilder::new(held);
    Parser::new(second).parse_dictionary_with_visitor(alloc, builder)
}
