//! The integers of the last inner list of a list, as in `(1 2), (3 4;a)`.

ghost use Rattle.std.specs.Prelude.{◌≡◌, IfOk, IfErr, fold, vec_items, None, option_map, OnOk, List, [], ◌∷◌, ◌++◌};
ghost use Rattle.sfv_readers.specs.Field.{list_field, IsParseError, raw_item, input_value};
ghost use Rattle.sfv_examples.specs.Rows.{integers_of, row_of, row_in, IsLastRowOf};

use sfv::{BareItemFromInput, Error, KeyRef, OutOfMemory, Version};
use sfv_readers::{IgnoredItems, InnerListReader, ListReader, read_list};
use std::alloc::Global;

/// A reader that collects the integers of an inner list.
#[derive(Drop)]
struct Row {
    integers: Vec<i64>,
}

impl Row {
    // Appends the integer of a bare item. Ignores other kinds.
    fn push(&mut self, item: &BareItemFromInput<'_>) -> Result<(), OutOfMemory>
        ensures { OnOk result (vec_items self.new.integers
            ≡ vec_items self.old.integers ++ integers_of (raw_item (input_value item.now) [] ∷ [])) }
    {
        let Some(integer) = item.as_integer() else {
            return Ok(());
        };
        self.integers.push(integer.to_i64())?;
        Ok(())
    }
}

#[tactic(auto, using(crate::proofs::RowItems::one_more))]
impl<'de> InnerListReader<'de> for Row {
    ghost reads = { λ row items. vec_items row.integers ≡ integers_of items };

    fn new(alloc: Global) -> Row {
        Row {
            integers: Vec::new(alloc),
        }
    }

    fn item(&mut self, item: BareItemFromInput<'de>) -> Result<(), OutOfMemory> {
        self.push(&item)
    }

    fn parameter(
        &mut self,
        _key: KeyRef<'de>,
        _value: BareItemFromInput<'de>,
    ) -> Result<(), OutOfMemory> {
        Ok(())
    }
}

/// A reader that keeps the last row.
#[derive(Drop)]
struct LastRow {
    row: Option<Row>,
}

#[tactic(auto, using(sfv_readers::proofs::Puts::fold_more))]
impl<'de> ListReader<'de> for LastRow {
    ghost use Rattle.sfv_examples.specs.RowSteps.{row_value};

    type Member = Option<Row>;

    type Items = Row;

    ghost keeps = { λ _ kept head ps. row_value kept ≡ row_in head };

    ghost reads = { λ _ s members. row_value s.row ≡ fold (λ before m. row_of m) None members };

    fn item(&self, _item: BareItemFromInput<'de>) -> Option<Row> {
        None
    }

    fn inner_list(&self, items: Row) -> Option<Row> {
        Some(items)
    }

    fn parameter(
        &self,
        _member: &mut Option<Row>,
        _key: KeyRef<'de>,
        _value: BareItemFromInput<'de>,
    ) {}

    fn member(&mut self, member: Option<Row>) -> Result<(), OutOfMemory> {
        self.row = member;
        Ok(())
    }
}

/// Returns the integers of the last member of a list. Returns `None` if there is no member, or if the last one is not
/// an inner list.
///
/// # Errors
///
/// Returns the error of `Parser::parse` if the input is not a list, or if memory runs out.
pub fn last_row(alloc: Global, input: &[u8], version: Version) -> Result<Option<Vec<i64>>, Error>
    ensures read { IfOk result (λ found. IsLastRowOf version input.now (option_map vec_items found)) }
    ensures rejected { IfErr result (IsParseError version list_field input.now) }
{
    let read = read_list(alloc, input, version, LastRow { row: None })?;
    match read.row {
        Some(row) => Ok(Some(row.integers)),
        None => Ok(None),
    }
}
