//! The check of one field.

ghost use Rattle.std.specs.Prelude.{◌≡◌, IfOk, IfErr, option_map, string_bytes};
ghost use Rattle.sfv.specs.Statements.{IsParsedAs};
ghost use Rattle.sfv.specs.Parsers.{IsParseError};
ghost use Rattle.sfv_lint_report.specs.Checks.{kind_of, tree_of, IsCanonical, IsOutcome};

use sfv::{
    Dictionary, Error, FieldKind, FieldType, HashSeed, Item, List, OutOfMemory, Parser, Version,
};
use std::alloc::Global;

/// A parsed field.
#[derive(Drop)]
pub enum FieldValue {
    /// An item.
    Item(Item),
    /// A list.
    List(List),
    /// A dictionary.
    Dictionary(Dictionary),
}

/// The value of an accepted text, and its canonical text if it has a member.
#[derive(Drop)]
pub struct Accepted {
    /// The value.
    pub value: FieldValue,
    /// The canonical text.
    pub text: Option<String>,
}

impl FieldValue {
    /// Parses a text as a field of this type. Each map of the value hashes under `seed`.
    fn read(
        alloc: Global,
        seed: HashSeed,
        version: Version,
        kind: FieldKind,
        text: &[u8],
    ) -> Result<FieldValue, Error>
        ensures kind { IfOk result (λ value. kind_of value ≡ kind) }
        ensures read { IfOk result (λ value. IsParsedAs version (kind_of value) text.now (tree_of value)) }
        ensures rejected { IfErr result (IsParseError version kind text.now) }
    {
        let parser = Parser::new(text).with_version(version).with_hash_seed(seed);
        match kind {
            FieldKind::Item => Ok(FieldValue::Item(parser.parse::<Item>(alloc)?)),
            FieldKind::List => Ok(FieldValue::List(parser.parse::<List>(alloc)?)),
            FieldKind::Dictionary => Ok(FieldValue::Dictionary(parser.parse::<Dictionary>(alloc)?)),
        }
    }

    /// Returns the canonical text of the value, or `None` if it has no member.
    fn canonical(&self, alloc: Global) -> Result<Option<String>, OutOfMemory>
        ensures { IfOk result (λ text. IsCanonical self.now (option_map string_bytes text)) }
    {
        match self {
            FieldValue::Item(item) => Ok(Some(item.serialize(alloc)?)),
            FieldValue::List(list) => list.serialize(alloc),
            FieldValue::Dictionary(dictionary) => dictionary.serialize(alloc),
        }
    }
}

/// Checks a text as a field of this type under this version. Returns its value and its canonical text. Each map of the
/// value hashes under `seed`.
///
/// # Errors
///
/// Returns the error of `Parser::parse`, or out of memory.
pub fn check(
    alloc: Global,
    seed: HashSeed,
    version: Version,
    kind: FieldKind,
    text: &[u8],
) -> Result<Accepted, Error>
    ensures { IsOutcome version kind text.now result }
{
    let value = FieldValue::read(alloc, seed, version, kind, text)?;
    let text = value.canonical(alloc)?;
    Ok(Accepted { value, text })
}
