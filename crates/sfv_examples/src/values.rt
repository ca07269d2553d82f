//! Values: the ends of their ranges, their conversions, their clones, and their comparisons.

ghost use Rattle.std.specs.Prelude.{◌≡◌, ◌↔◌, [], true, false, pos, neg_ℤ, IfOk, IfErr, IsTrue};
ghost use Rattle.std.specs.Cmp.Lexicographic.{slice_cmp};
ghost use Rattle.std.specs.Ordering.{nat_cmp, int_cmp};
ghost use Rattle.sfv.specs.NumberValues.{integer_of, thousandths_of, seconds_of};
ghost use Rattle.sfv.specs.BareItems.{bare_value, ref_value, input_value, read_text, holds_bytes, is_borrowed_string};
ghost use Rattle.sfv.specs.CheckedTexts.{text_of};
ghost use Rattle.sfv.specs.Maps.{hasher_of};
ghost use Rattle.sfv.specs.Trees.{item_tree, NeedsNoMemory};
ghost use Rattle.sfv.specs.Values as values;
ghost use Rattle.sfv.specs.Values.{integer};
ghost use Rattle.sfv_examples.specs.Uses.{IsOutOfRange, MayNeedMemory};

use sfv::{
    BareItem, BareItemFromInput, Date, Decimal, Error, Integer, Item, KeyRef, RefBareItem,
    StringFromInput, StringRef,
};
use std::alloc::AllocError;
use std::cmp::Ordering;

/// The least and the greatest integer have fifteen digits. `ZERO` is zero.
pub fn integers() -> (Integer, Integer, Integer)
    ensures least { integer_of result.0 ≡ neg_ℤ (pos 999999999999999) }
    ensures greatest { integer_of result.1 ≡ pos 999999999999999 }
    ensures zero { integer_of result.2 ≡ pos 0 }
{
    (Integer::MIN, Integer::MAX, Integer::ZERO)
}

/// The least and the greatest decimal have fifteen digits, three of them after the point. `ZERO` is zero.
pub fn decimals() -> (Decimal, Decimal, Decimal)
    ensures least { thousandths_of result.0 ≡ neg_ℤ (pos 999999999999999) }
    ensures greatest { thousandths_of result.1 ≡ pos 999999999999999 }
    ensures zero { thousandths_of result.2 ≡ pos 0 }
{
    (Decimal::MIN, Decimal::MAX, Decimal::ZERO)
}

/// The first and the last date have fifteen digits. The epoch is second zero.
pub fn dates() -> (Date, Date, Date)
    ensures first { seconds_of result.0 ≡ neg_ℤ (pos 999999999999999) }
    ensures last { seconds_of result.1 ≡ pos 999999999999999 }
    ensures epoch { seconds_of result.2 ≡ pos 0 }
{
    (Date::MIN, Date::MAX, Date::UNIX_EPOCH)
}

/// The empty string has an empty text.
pub fn empty_string() -> StringRef<'static>
    ensures { text_of result ≡ [] }
{
    StringRef::EMPTY
}

/// The bare item of a number is the integer of the same number.
pub fn item_of_byte(v: u8) -> RefBareItem<'static>
    ensures { ref_value result ≡ integer (pos v) }
{
    RefBareItem::from(v)
}

/// The bare item of a number in range is the integer of the same number.
///
/// # Errors
///
/// Returns the kind `OutOfRange`, without index, if the number has more than fifteen digits. There is no other error.
pub fn item_of_number(v: i64) -> Result<RefBareItem<'static>, Error>
    ensures value { IfOk result (λ item. ref_value item ≡ integer v) }
    ensures out_of_range { IfErr result (IsOutOfRange v) }
{
    RefBareItem::try_from(v)
}

/// A clone has the same value.
///
/// # Errors
///
/// Returns `AllocError` if memory runs out. The clone of a number, a date or a boolean requests none.
pub fn copy_of(value: &BareItem) -> Result<BareItem, AllocError>
    ensures value { IfOk result (λ copy. bare_value copy ≡ bare_value value.now) }
    ensures out_of_memory { IfErr result (λ _. holds_bytes (bare_value value.now) ≡ true) }
{
    value.clone()
}

/// A clone of a parsed bare item has the same value.
///
/// # Errors
///
/// Returns `AllocError` if memory runs out. The clone of a number, a date, a boolean, a token or a borrowed string
/// requests none.
pub fn copy_of_read<'a>(read: &BareItemFromInput<'a>) -> Result<BareItemFromInput<'a>, AllocError>
    ensures value { IfOk result (λ copy. input_value copy ≡ input_value read.now) }
    ensures out_of_memory { IfErr result (λ _. MayNeedMemory read.now) }
{
    read.clone()
}

/// A clone of a parsed string is borrowed if the string is.
///
/// # Errors
///
/// Returns `AllocError` if memory runs out. The clone of a borrowed string requests none.
pub fn copy_of_string<'a>(text: &StringFromInput<'a>) -> Result<StringFromInput<'a>, AllocError>
    ensures value { IfOk result (λ copy. copy ≡ text.now) }
    ensures out_of_memory { IfErr result (λ _. is_borrowed_string text.now ≡ false) }
{
    text.clone()
}

/// A clone of an item has the same value and parameters, under the same hash seed.
///
/// # Errors
///
/// Returns `AllocError` if memory runs out. The clone of a number, a date, a boolean or an empty text without parameters
/// requests none.
pub fn copy_of_item(item: &Item) -> Result<Item, AllocError>
    ensures value { IfOk result (λ copy. item_tree copy ≡ item_tree item.now) }
    ensures seed { IfOk result (λ copy. hasher_of copy.params ≡ hasher_of item.now.params) }
    ensures out_of_memory { IfErr result (λ _. ¬ NeedsNoMemory (values.item (item_tree item.now))) }
{
    item.clone()
}

/// Bare items compare by value.
pub fn same(a: &BareItem, b: &BareItem) -> bool
    ensures { IsTrue result ↔ (bare_value a.now ≡ bare_value b.now) }
{
    *a == *b
}

/// Borrowed bare items compare by value.
pub fn same_borrowed(a: RefBareItem<'_>, b: RefBareItem<'_>) -> bool
    ensures { IsTrue result ↔ (ref_value a.entry ≡ ref_value b.entry) }
{
    a == b
}

/// Parsed bare items compare by value, whether their text is borrowed or owned.
pub fn same_read(a: &BareItemFromInput<'_>, b: &BareItemFromInput<'_>) -> bool
    ensures { IsTrue result ↔ (input_value a.now ≡ input_value b.now) }
{
    *a == *b
}

/// Parsed strings compare by their text.
pub fn same_string(a: &StringFromInput<'_>, b: &StringFromInput<'_>) -> bool
    ensures { IsTrue result ↔ (read_text a.now ≡ read_text b.now) }
{
    *a == *b
}

/// Borrowed keys compare by their bytes.
pub fn same_key(a: KeyRef<'_>, b: KeyRef<'_>) -> bool
    ensures { IsTrue result ↔ (text_of a.entry ≡ text_of b.entry) }
{
    a == b
}

/// Borrowed keys are ordered by their bytes.
pub fn order_of_keys(a: KeyRef<'_>, b: KeyRef<'_>) -> Ordering
    ensures { result ≡ slice_cmp nat_cmp (text_of a.entry) (text_of b.entry) }
{
    a.cmp(&b)
}

/// Integers compare by their number.
pub fn same_number(a: Integer, b: Integer) -> bool
    ensures { IsTrue result ↔ (integer_of a ≡ integer_of b) }
{
    a == b
}

/// Decimals compare by their thousandths.
pub fn same_decimal(a: Decimal, b: Decimal) -> bool
    ensures { IsTrue result ↔ (thousandths_of a ≡ thousandths_of b) }
{
    a == b
}

/// Dates compare by their seconds.
pub fn same_date(a: Date, b: Date) -> bool
    ensures { IsTrue result ↔ (seconds_of a ≡ seconds_of b) }
{
    a == b
}

/// Integers are ordered by their number.
pub fn order_of_numbers(a: Integer, b: Integer) -> Ordering
    ensures { result ≡ int_cmp (integer_of a) (integer_of b) }
{
    a.cmp(&b)
}

/// Decimals are ordered by their thousandths.
pub fn order_of_decimals(a: Decimal, b: Decimal) -> Ordering
    ensures { result ≡ int_cmp (thousandths_of a) (thousandths_of b) }
{
    a.cmp(&b)
}

/// Dates are ordered by their seconds.
pub fn order_of_dates(a: Date, b: Date) -> Ordering
    ensures { result ≡ int_cmp (seconds_of a) (seconds_of b) }
{
    a.cmp(&b)
}
