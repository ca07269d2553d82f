//! Parsing of a field to the expected type.

ghost use Rattle.std.specs.Prelude.{◌≡◌, ⊤, IfOk, IfErr, MatchResult};
ghost use Rattle.sfv.specs.Values.{BareValue, RawItem};
ghost use Rattle.sfv.specs.Types.{item_field, list_field, dictionary_field, Rfc9651};
ghost use Rattle.sfv.specs.Grammar.{IsFieldText};
ghost use Rattle.sfv.specs.Statements.{IsParsedAs};
ghost use Rattle.sfv.specs.Trees.{item_tree, list_tree, dictionary_tree};
ghost use Rattle.sfv.specs.HashSeeds.{library_seed};
ghost use Rattle.sfv.specs.Seeds.{ItemHasSeed, ListHasSeed, DictionaryHasSeed};
ghost use Rattle.sfv.specs.Types.item_faults as item_faults;
ghost use Rattle.sfv_examples.specs.Uses.{ExpectsItem, RejectsOther, HasBareItem, FailsAtFirst, IsReadError};
ghost use Rattle.sfv_examples.specs.Uses.{BeginsWithComplete, IsExpectError, GivesToken, RefusesOther, IsLentString};
ghost use Rattle.sfv_examples.specs.Uses.{IsStringError};

use sfv::visitor::{ExpectedItem, ItemFault};
use sfv::{Dictionary, Item, List, OutOfMemory, ParseError, Parser, StringFromInput, TokenRef};
use std::alloc::Global;

/// Parses an item to a type of bare items, of one kind or of every kind. Ignores parameters.
///
/// # Errors
///
/// If a complete bare item comes first and `T` rejects it, returns the error of `T`, or out of memory, whatever follows
/// the bare item. Otherwise, if the input is not an item, returns the error of `Parser::parse`.
pub fn expect<'de, T: ExpectedItem<'de>>(
    alloc: Global,
    input: &'de [u8],
) -> Result<T, ParseError<ItemFault>>
    ensures held { IfOk result (λ item. HasBareItem input.now (T.holds item)) }
    ensures of_an_item { ExpectsItem T.holds T.fails input.now result }
    ensures of_another_kind { RejectsOther T.holds T.fails input.now result }
    ensures rejected { IfErr result (IsReadError (FailsAtFirst T.fails input.now) item_field input.now) }
{
    Parser::new(input).parse_item::<T>(alloc)
}

/// Parses an item that is a token. Ignores parameters.
///
/// # Errors
///
/// If a complete bare item of another kind comes first, returns `ItemFault::WrongType` with its kind, or out of memory,
/// whatever follows the bare item. Otherwise, if the input is not an item, returns the error of `Parser::parse`.
pub fn token<'de>(alloc: Global, input: &'de [u8]) -> Result<TokenRef<'de>, ParseError<ItemFault>>
    ensures of_an_item { (raw : RawItem) → IsFieldText Rfc9651 item_field raw input.now → GivesToken raw.bare result }
    ensures of_another_kind { (value : BareValue) → BeginsWithComplete value input.now
        → RefusesOther value result }
{
    expect::<TokenRef>(alloc, input)
}

/// Parses an item that is a string. Ignores parameters. The string is borrowed from the input if and only if it has no
/// escape there.
///
/// # Errors
///
/// Returns the errors of `expect`.
pub fn string<'de>(
    alloc: Global,
    input: &'de [u8],
) -> Result<StringFromInput<'de>, ParseError<ItemFault>>
    ensures read { IfOk result (λ text. IsLentString text input.now) }
    ensures rejected { IfErr result (IsStringError input.now) }
{
    Parser::new(input).parse_item::<StringFromInput>(alloc)
}

/// Parses an item, as `Parser::parse` does.
///
/// # Errors
///
/// Returns the errors of `Parser::parse`, or `ItemFault::OutOfMemory` if memory runs out.
pub fn item(alloc: Global, input: &[u8]) -> Result<Item, ParseError<ItemFault>>
    ensures read { IfOk result (λ item. IsParsedAs Rfc9651 item_field input.now (item_tree item)) }
    ensures seed { IfOk result (ItemHasSeed library_seed) }
    ensures rejected { IfErr result (IsReadError (λ fault. fault ≡ item_faults.OutOfMemory) item_field input.now) }
{
    Parser::new(input).parse_item::<Item>(alloc)
}

/// Parses a list, as `Parser::parse` does.
///
/// # Errors
///
/// Returns the errors of `Parser::parse`.
pub fn list(alloc: Global, input: &[u8]) -> Result<List, ParseError<OutOfMemory>>
    ensures read { IfOk result (λ list. IsParsedAs Rfc9651 list_field input.now (list_tree list.items)) }
    ensures seed { IfOk result (λ list. ListHasSeed library_seed list.items) }
    ensures rejected { IfErr result (IsReadError (λ _. ⊤) list_field input.now) }
{
    Parser::new(input).parse_list::<List>(alloc)
}

/// Parses a dictionary, as `Parser::parse` does.
///
/// # Errors
///
/// Returns the errors of `Parser::parse`.
pub fn dictionary(alloc: Global, input: &[u8]) -> Result<Dictionary, ParseError<OutOfMemory>>
    ensures read { IfOk result (λ value. IsParsedAs Rfc9651 dictionary_field input.now (dictionary_tree value.entries)) }
    ensures seed { IfOk result (DictionaryHasSeed library_seed) }
    ensures rejected { IfErr result (IsReadError (λ _. ⊤) dictionary_field input.now) }
{
    Parser::new(input).parse_dictionary::<Dictionary>(alloc)
}
