//! The keys, values and parameters of rows.

ghost use Rattle.std.specs.Prelude.{◌≡◌, ◌↔◌, [], pos, Bool, None, MatchOption, IsTrue};
ghost use Rattle.std.specs.List.{list_all};
ghost use Rattle.sfv.specs.Classes.{is_key, is_token, is_string_byte};
ghost use Rattle.sfv.specs.CheckedTexts.{text_of};
ghost use Rattle.sfv.specs.Values.{IsInRange, is_byte};
ghost use Rattle.sfv.specs.Texts.{RunOf};
ghost use Rattle.sfv.specs.NumberValues.{integer_of};
ghost use Rattle.sfv_c.specs.Rows.{value_numbers, row_parts, number_of_bool, IsRowOf};
ghost use Rattle.sfv_c.specs.RowEvents.{plain_numbers, GivesItem, GivesKey, GivesValue, GivesParameter};

use crate::rows::{BARE_ITEM, KEYED_ENTRY, PARAMETER, Row};
use sfv::script::ParamCall;
use sfv::{Date, Decimal, GenericBareItem, Integer, KeyRef, RefBareItem, StringRef, TokenRef};

/// The integer of a row without bytes.
fn integer_in(row: &Row<'_>) -> Option<Integer>
    ensures { MatchOption result (¬ (IsInRange row.now.number × (row.now.bytes.now ≡ [])))
        (λ n. (integer_of n ≡ row.now.number) × IsInRange row.now.number × (row.now.bytes.now ≡ [])) }
{
    if !row.bytes.is_empty() {
        return None;
    }
    Integer::try_from(row.number).ok()
}

/// The boolean of a row without bytes.
fn boolean_in(row: &Row<'_>) -> Option<bool>
    ensures { MatchOption result ((b : Bool) → ¬ ((number_of_bool b ≡ row.now.number) × (row.now.bytes.now ≡ [])))
        (λ b. (number_of_bool b ≡ row.now.number) × (row.now.bytes.now ≡ [])) }
{
    if !row.bytes.is_empty() {
        return None;
    }
    match row.number {
        0 => Some(false),
        1 => Some(true),
        _ => None,
    }
}

/// Returns the same bytes. Its clause says that each element is a byte.
#[tactic(auto, using(crate::proofs::Bytes::run_of_bytes))]
fn with_bytes_invariant(bytes: &[u8]) -> &[u8]
    ensures value { result.now ≡ bytes.now }
    ensures bytes { RunOf is_byte result.now }
{
    bytes
}

/// The bytes of a row without number.
fn text_in<'a>(row: &Row<'a>) -> Option<&'a [u8]>
    ensures { MatchOption result (¬ (row.now.number ≡ pos 0))
        (λ t. (t.now ≡ row.now.bytes.now) × (row.now.number ≡ pos 0) × RunOf is_byte t.now) }
{
    if row.number == 0 {
        Some(with_bytes_invariant(row.bytes))
    } else {
        None
    }
}

/// The key of these bytes.
fn key_in(bytes: &[u8]) -> Option<KeyRef<'_>>
    ensures { MatchOption result (¬ IsTrue (is_key bytes.now))
        (λ key. (text_of key ≡ bytes.now) × IsTrue (is_key bytes.now)) }
{
    KeyRef::from_bytes(bytes).ok()
}

/// The token of these bytes.
// Inlined, since a call copies its result.
#[inline(always)]
fn token_in(bytes: &[u8]) -> Option<TokenRef<'_>>
    ensures { MatchOption result (¬ IsTrue (is_token bytes.now))
        (λ token. (text_of token ≡ bytes.now) × IsTrue (is_token bytes.now)) }
{
    TokenRef::from_bytes(bytes).ok()
}

/// The string of these bytes.
fn string_in(bytes: &[u8]) -> Option<StringRef<'_>>
    ensures { MatchOption result (¬ IsTrue (list_all is_string_byte bytes.now))
        (λ text. (text_of text ≡ bytes.now) × IsTrue (list_all is_string_byte bytes.now)) }
{
    StringRef::from_bytes(bytes).ok()
}

/// The bare item of the row.
// Inlined, as are `value_in` and `parameter_in`, since a call would copy its result.
#[inline(always)]
fn bare_item_in<'a>(row: &Row<'a>) -> Option<RefBareItem<'a>>
    ensures { GivesItem (row_parts row.now).value result }
{
    Some(match row.kind {
        1 => GenericBareItem::Integer(integer_in(row)?),
        2 => GenericBareItem::Decimal(Decimal::from_integer_scaled_1000(integer_in(row)?)),
        3 => GenericBareItem::String(string_in(text_in(row)?)?),
        4 => GenericBareItem::Token(token_in(text_in(row)?)?),
        5 => GenericBareItem::ByteSequence(text_in(row)?),
        6 => GenericBareItem::Boolean(boolean_in(row)?),
        7 => GenericBareItem::Date(Date::from_unix_seconds(integer_in(row)?)),
        8 => GenericBareItem::DisplayString(std::str::from_utf8(text_in(row)?).ok()?),
        _ => return None,
    })
}

/// Returns `true` if the row has no value.
// Here and in `is_plain`, `&` takes fewer branches than `&&`. Only the tag often differs.
#[inline(always)]
fn is_no_value(row: &Row<'_>) -> bool
    ensures { IsTrue result ↔ ((row_parts row.now).value ≡ value_numbers None) }
{
    (row.kind == 0) & (row.number == 0) & row.bytes.is_empty()
}

/// Returns `true` if the row is an event with this tag, without key and value.
#[inline(always)]
pub(crate) fn is_plain(row: &Row<'_>, tag: u32) -> bool
    ensures { IsTrue result ↔ (row_parts row.now ≡ plain_numbers tag) }
{
    row.tag == tag && row.key.is_empty() & is_no_value(row)
}

/// The key of the dictionary member that the row begins.
pub(crate) fn keyed_entry_in<'a>(row: &Row<'a>) -> Option<KeyRef<'a>>
    ensures { GivesKey (IsRowOf row.now) result }
{
    if row.tag != KEYED_ENTRY || !is_no_value(row) {
        return None;
    }
    key_in(row.key)
}

/// The value of the item of the row.
#[inline(always)]
pub(crate) fn value_in<'a>(row: &Row<'a>) -> Option<RefBareItem<'a>>
    ensures { GivesValue (IsRowOf row.now) result }
{
    if row.tag != BARE_ITEM || !row.key.is_empty() {
        return None;
    }
    bare_item_in(row)
}

/// The parameter of the row.
#[inline(always)]
pub(crate) fn parameter_in<'a>(row: &Row<'a>) -> Option<ParamCall<'a>>
    ensures { GivesParameter (IsRowOf row.now) result }
{
    if row.tag != PARAMETER {
        return None;
    }
    let key = key_in(row.key)?;
    let value = bare_item_in(row)?;
    Some(ParamCall { key, value })
}
