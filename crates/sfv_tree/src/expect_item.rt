//! A visitor that returns a bare item of one type.

ghost use Rattle.std.specs.Prelude.{◌≡◌, Some, None, IfOk, IfErr, IsTrue};
ghost use Rattle.sfv_spec.specs.Values as values;
ghost use Rattle.sfv_spec.specs.Values.{BareValue};
ghost use Rattle.sfv_base.specs.Numbers.{integer_of, thousandths_of, seconds_of};
ghost use Rattle.sfv_values.specs.CheckedTexts.{text_of};
ghost use Rattle.sfv_values.specs.BareItems.{read_text, bare_value, input_value, is_borrowed};
ghost use Rattle.sfv_values.specs.declared.bare.GenericBareItem.TheVariants as bare;
ghost use Rattle.sfv_values.specs.declared.bare.BareItemType.TheVariants as kinds;
ghost use Rattle.sfv_tree.specs.declared.visitor.ItemFault.{ItemFault};
ghost use Rattle.sfv_tree.specs.declared.visitor.ItemFault.TheVariants as faults;
ghost use Rattle.sfv_values.specs.Kinds.{kind_of_value};
ghost use Rattle.sfv_tree.specs.ProvidedVisitors.{ReadBareItem, IsWrongType, OnRead, KeepTakes, KeepFails};

use crate::visitor::{BareItemType, Event, ItemFault, Visitor};
use sfv_base::date::Date;
use sfv_base::decimal::Decimal;
use sfv_base::error::OutOfMemory;
use sfv_base::integer::Integer;
use sfv_values::bare::{BareItem, BareItemFromInput, GenericBareItem, StringFromInput};
use sfv_values::token_ref::TokenRef;
use std::alloc::Global;

/// A type of bare items, of one kind or of every kind.
pub trait ExpectedItem<'de>: Drop {
    /// `holds value`: the bare value of `value`.
    ghost holds: { Self → BareValue };

    /// `fails item fault`: the conversion of `item` may fail with `fault`.
    ghost fails: { ReadBareItem → ItemFault → Type 0 };

    /// `is_of value item`: `value` is the conversion of `item`, including whether its text is borrowed.
    ghost is_of: { Self → ReadBareItem → Type 0 };

    /// Converts `item` to this type. Copies are allocated from `alloc`.
    ///
    /// # Errors
    ///
    /// Returns `ItemFault::WrongType` if the item has another kind, and `ItemFault::OutOfMemory` if memory runs out.
    fn from_bare_item(item: BareItemFromInput<'de>, alloc: Global) -> Result<Self, ItemFault>
        ensures held { IfOk result (λ kept. holds kept ≡ input_value item.entry) }
        ensures same { IfOk result (λ kept. is_of kept item.entry) }
        ensures failed { IfErr result (λ fault. fails item.entry fault) };
}

fn type_of(item: &BareItemFromInput<'_>) -> BareItemType
    ensures { result ≡ kind_of_value (input_value item.now) }
{
    match item {
        GenericBareItem::Decimal(_) => BareItemType::Decimal,
        GenericBareItem::Integer(_) => BareItemType::Integer,
        GenericBareItem::String(_) => BareItemType::String,
        GenericBareItem::ByteSequence(_) => BareItemType::ByteSequence,
        GenericBareItem::Boolean(_) => BareItemType::Boolean,
        GenericBareItem::Token(_) => BareItemType::Token,
        GenericBareItem::Date(_) => BareItemType::Date,
        GenericBareItem::DisplayString(_) => BareItemType::DisplayString,
    }
}

// Returns the error for a bare item of another kind.
fn wrong_type(expected: BareItemType, item: &BareItemFromInput<'_>) -> ItemFault
    ensures { result ≡ faults.WrongType expected (kind_of_value (input_value item.now)) }
{
    ItemFault::WrongType {
        expected,
        got: type_of(item),
    }
}

impl<'de> ExpectedItem<'de> for Decimal {
    ghost holds = { λ value. values.decimal (thousandths_of value) };

    ghost fails = { λ item. IsWrongType kinds.Decimal (input_value item) };

    ghost is_of = { λ value item. item ≡ bare.Decimal value };

    fn from_bare_item(item: BareItemFromInput<'de>, _alloc: Global) -> Result<Decimal, ItemFault> {
        match item {
            GenericBareItem::Decimal(value) => Ok(value),
            other => Err(wrong_type(BareItemType::Decimal, &other)),
        }
    }
}

impl<'de> ExpectedItem<'de> for Integer {
    ghost holds = { λ value. values.integer (integer_of value) };

    ghost fails = { λ item. IsWrongType kinds.Integer (input_value item) };

    ghost is_of = { λ value item. item ≡ bare.Integer value };

    fn from_bare_item(item: BareItemFromInput<'de>, _alloc: Global) -> Result<Integer, ItemFault> {
        match item {
            GenericBareItem::Integer(value) => Ok(value),
            other => Err(wrong_type(BareItemType::Integer, &other)),
        }
    }
}

impl<'de> ExpectedItem<'de> for StringFromInput<'de> {
    ghost holds = { λ text. values.string (read_text text) };

    ghost fails = { λ item. IsWrongType kinds.String (input_value item) };

    ghost is_of = { λ text item. item ≡ bare.String text };

    fn from_bare_item(
        item: BareItemFromInput<'de>,
        _alloc: Global,
    ) -> Result<StringFromInput<'de>, ItemFault> {
        match item {
            GenericBareItem::String(text) => Ok(text),
            other => Err(wrong_type(BareItemType::String, &other)),
        }
    }
}

impl<'de> ExpectedItem<'de> for Vec<u8> {
    ghost holds = { λ bytes. values.byte_sequence bytes.items };

    ghost fails = { λ item. IsWrongType kinds.ByteSequence (input_value item) };

    ghost is_of = { λ bytes item. item ≡ bare.ByteSequence bytes };

    fn from_bare_item(item: BareItemFromInput<'de>, _alloc: Global) -> Result<Vec<u8>, ItemFault> {
        match item {
            GenericBareItem::ByteSequence(bytes) => Ok(bytes),
            other => Err(wrong_type(BareItemType::ByteSequence, &other)),
        }
    }
}

impl<'de> ExpectedItem<'de> for bool {
    ghost holds = { λ value. values.boolean value };

    ghost fails = { λ item. IsWrongType kinds.Boolean (input_value item) };

    ghost is_of = { λ value item. item ≡ bare.Boolean value };

    fn from_bare_item(item: BareItemFromInput<'de>, _alloc: Global) -> Result<bool, ItemFault> {
        match item {
            GenericBareItem::Boolean(value) => Ok(value),
            other => Err(wrong_type(BareItemType::Boolean, &other)),
        }
    }
}

impl<'de> ExpectedItem<'de> for TokenRef<'de> {
    ghost holds = { λ token. values.token (text_of token) };

    ghost fails = { λ item. IsWrongType kinds.Token (input_value item) };

    ghost is_of = { λ token item. item ≡ bare.Token token };

    fn from_bare_item(
        item: BareItemFromInput<'de>,
        _alloc: Global,
    ) -> Result<TokenRef<'de>, ItemFault> {
        match item {
            GenericBareItem::Token(token) => Ok(token),
            other => Err(wrong_type(BareItemType::Token, &other)),
        }
    }
}

impl<'de> ExpectedItem<'de> for Date {
    ghost holds = { λ value. values.date (seconds_of value) };

    ghost fails = { λ item. IsWrongType kinds.Date (input_value item) };

    ghost is_of = { λ value item. item ≡ bare.Date value };

    fn from_bare_item(item: BareItemFromInput<'de>, _alloc: Global) -> Result<Date, ItemFault> {
        match item {
            GenericBareItem::Date(value) => Ok(value),
            other => Err(wrong_type(BareItemType::Date, &other)),
        }
    }
}

impl<'de> ExpectedItem<'de> for BareItemFromInput<'de> {
    ghost holds = { λ item. input_value item };

    ghost fails = { λ _ _. ⊥ };

    ghost is_of = { λ kept item. kept ≡ item };

    fn from_bare_item(
        item: BareItemFromInput<'de>,
        _alloc: Global,
    ) -> Result<BareItemFromInput<'de>, ItemFault> {
        Ok(item)
    }
}

impl<'de> ExpectedItem<'de> for BareItem {
    ghost holds = { λ item. bare_value item };

    ghost fails = { λ item fault. IsTrue (is_borrowed item) × (fault ≡ faults.OutOfMemory) };

    ghost is_of = { λ kept item. bare_value kept ≡ input_value item };

    fn from_bare_item(item: BareItemFromInput<'de>, alloc: Global) -> Result<BareItem, ItemFault> {
        match item.try_into_owned(alloc) {
            Ok(owned) => Ok(owned),
            Err(OutOfMemory) => Err(ItemFault::OutOfMemory),
        }
    }
}

/// A visitor that returns the first bare item, if it has the type `T`.
///
/// Fails at the first bare item with `ItemFault::WrongType` if it has another kind, and with `ItemFault::OutOfMemory`
/// if a `BareItem` copies borrowed text and memory runs out. Fails at the end with `ItemFault::NoItem` if there was
/// no bare item. Ignores every other event.
///
/// Use it for items. In a list or a dictionary it keeps the first bare item of the whole field.
#[derive(Drop)]
pub struct ExpectItem<T> {
    alloc: Global,
    kept: Option<T>,
}

impl<T> ExpectItem<T> {
    /// Creates the visitor. Copies are allocated from `alloc`.
    pub fn new(alloc: Global) -> ExpectItem<T>
        ensures { result.kept ≡ None }
    {
        ExpectItem { alloc, kept: None }
    }
}

impl<'de, T: ExpectedItem<'de>> Visitor<'de> for ExpectItem<T> {
    type Out = T;

    type Error = ItemFault;

    ghost takes = { OnRead (KeepTakes T.holds T.is_of) };

    ghost fails = { OnRead (KeepFails T.fails) };

    ghost takes_read = { KeepTakes T.holds T.is_of };

    ghost fails_read = { KeepFails T.fails };

    ghost finishes = { λ s item. s.kept ≡ Some item };

    ghost finish_fails = { λ s fault. (s.kept ≡ None) × (fault ≡ faults.NoItem) };

    #[inline(always)]
    fn event(&mut self, event: Event<'de>) -> Result<(), ItemFault> {
        let Event::BareItem(item) = event else {
            return Ok(());
        };
        if self.kept.is_none() {
            self.kept = Some(T::from_bare_item(item, self.alloc)?);
        }
        Ok(())
    }

    fn finish(self) -> Result<T, ItemFault> {
        self.kept.ok_or(ItemFault::NoItem)
    }
}
