//! Owned, borrowed and parsed bare items: their conversions, accessors and copies.

use crate::common::prints;
use sfv::{
    BareItem, BareItemFromInput, Date, Decimal, Error, ErrorKind, GenericBareItem, RefBareItem,
    StringFromInput, StringRef, Version, integer, string_ref, token_ref,
};
use std::alloc::Global;
use std::borrow::CowStr;

#[test]
fn versions_print_their_names(rt: HostRuntime) {
    assert!(rt; prints(rt.alloc(), &Version::Rfc8941, "RFC 8941"));
    assert!(rt; prints(rt.alloc(), &Version::Rfc9651, "RFC 9651"));
}

/// Returns `true` if the item is the integer of this number.
fn is_number(item: RefBareItem<'_>, number: i64) -> bool {
    match item {
        GenericBareItem::Integer(integer) => i64::from(integer) == number,
        _ => false,
    }
}

#[test]
fn numbers_of_other_types_become_bare_items(rt: HostRuntime) {
    let holds = is_number(RefBareItem::from(integer(7)), 7)
        & is_number(RefBareItem::from(-128i8), -128)
        & is_number(RefBareItem::from(-32_768i16), -32_768)
        & is_number(RefBareItem::from(-2_147_483_648i32), -2_147_483_648)
        & is_number(RefBareItem::from(255u8), 255)
        & is_number(RefBareItem::from(65_535u16), 65_535)
        & is_number(RefBareItem::from(4_294_967_295u32), 4_294_967_295);
    assert!(rt; holds);
}

/// Returns `true` if the item is the integer of this number, or both are absent.
fn is_made(made: Result<RefBareItem<'_>, Error>, number: Option<i64>) -> bool {
    match (made, number) {
        (Ok(item), Some(number)) => is_number(item, number),
        (Err(error), None) => error == Error::with_kind(ErrorKind::OutOfRange, None),
        _ => false,
    }
}

#[test]
fn numbers_in_range_become_bare_items(rt: HostRuntime) {
    let holds = is_made(RefBareItem::try_from(-7i64), Some(-7))
        & is_made(RefBareItem::try_from(1_000_000_000_000_000i64), None)
        & is_made(RefBareItem::try_from(-7i128), Some(-7))
        & is_made(RefBareItem::try_from(-7isize), Some(-7))
        & is_made(RefBareItem::try_from(7u64), Some(7))
        & is_made(RefBareItem::try_from(7u128), Some(7))
        & is_made(RefBareItem::try_from(7usize), Some(7));
    assert!(rt; holds);
}

/// Returns, for each accessor, whether it returns a value.
fn views(item: RefBareItem<'_>) -> [bool; 8] {
    [
        item.as_decimal().is_some(),
        item.as_integer().is_some(),
        item.as_string().is_some(),
        item.as_byte_sequence().is_some(),
        item.as_boolean().is_some(),
        item.as_token().is_some(),
        item.as_date().is_some(),
        item.as_display_string().is_some(),
    ]
}

/// Returns `true` if only the accessor of this number returns a value.
fn is_seen_at(item: RefBareItem<'_>, place: usize) -> bool {
    for (row, is_seen) in views(item).into_iter().enumerate() {
        if is_seen != (row == place) {
            return false;
        }
    }
    true
}

/// Returns `true` if the owned item equals its clone.
fn equals_its_copy(owned: &BareItem) -> bool {
    match owned.clone() {
        Ok(copy) => copy == *owned,
        Err(_) => false,
    }
}

/// Returns `true` if the accessors of the owned item return the same texts.
fn is_owned_as(owned: &BareItem, item: RefBareItem<'_>) -> bool {
    (owned.as_string() == item.as_string())
        & (owned.as_byte_sequence() == item.as_byte_sequence())
        & (owned.as_token() == item.as_token())
}

/// Returns `true` if the item, its owned copy, the copy's clone, and their borrowed forms are equal, and their
/// accessors return the same texts.
fn equals_its_copies(item: RefBareItem<'_>, alloc: Global) -> bool {
    let is_lent = item.as_ref_item() == item;
    match item.try_to_owned(alloc) {
        Ok(owned) => {
            is_lent
                & (owned.as_ref_item() == item)
                & is_owned_as(&owned, item)
                & equals_its_copy(&owned)
        }
        Err(_) => false,
    }
}

#[test]
fn bare_items_equal_their_copies_and_are_seen_as_their_kind_alone(rt: HostRuntime) {
    let rows = [
        RefBareItem::from(Decimal::from(1u8)),
        RefBareItem::from(7u8),
        RefBareItem::from(string_ref("s")),
        RefBareItem::from(b"b".as_slice()),
        RefBareItem::from(true),
        RefBareItem::from(token_ref("t")),
        RefBareItem::from(Date::from_unix_seconds(integer(1))),
        GenericBareItem::DisplayString("d"),
    ];
    for (row, &item) in rows.iter().enumerate() {
        let holds = is_seen_at(item, row) && equals_its_copies(item, rt.alloc());
        assert!(rt; holds, "row {row}");
    }
    assert!(rt; RefBareItem::from(7u8) != RefBareItem::from(true));
    assert!(rt; RefBareItem::from(7u8) != RefBareItem::from(8u8));
}

/// Returns `true` if an owned string is borrowed and moved unchanged.
fn is_string_lent_and_moved(alloc: Global) -> bool {
    let string = string_ref("s");
    let Ok(owned) = string.to_owned(alloc) else {
        return false;
    };
    let is_lent = RefBareItem::from(&owned).as_string() == Some(string);
    is_lent & (BareItem::from(owned).as_string() == Some(string))
}

/// Returns `true` if an owned token is borrowed and moved unchanged.
fn is_token_lent_and_moved(alloc: Global) -> bool {
    let token = token_ref("t");
    let Ok(owned) = token.to_owned(alloc) else {
        return false;
    };
    let read = BareItemFromInput::from(&owned).as_token() == Some(token);
    let is_lent = RefBareItem::from(&owned).as_token() == Some(token);
    read & is_lent & (BareItem::from(owned).as_token() == Some(token))
}

#[test]
fn owned_texts_become_bare_items(rt: HostRuntime) {
    assert!(rt; is_string_lent_and_moved(rt.alloc()));
    assert!(rt; is_token_lent_and_moved(rt.alloc()));
}

/// Returns `true` if the parsed bare item equals this item, and its accessors return the same texts.
fn is_seen_as(read: &BareItemFromInput<'_>, item: RefBareItem<'_>) -> bool {
    (read.as_ref_item() == item)
        & (read.as_string() == item.as_string())
        & (read.as_byte_sequence() == item.as_byte_sequence())
        & (read.as_token() == item.as_token())
}

/// Returns `true` if the parsed bare item converts to this owned item.
fn becomes(alloc: Global, read: BareItemFromInput<'_>, item: RefBareItem<'_>) -> bool {
    match read.try_into_owned(alloc) {
        Ok(owned) => owned.as_ref_item() == item,
        Err(_) => false,
    }
}

/// Returns `true` if the parsed bare item, its clone, and the clone's owned form equal this item, and their accessors
/// return the same texts.
fn is_read_as(alloc: Global, read: BareItemFromInput<'_>, item: RefBareItem<'_>) -> bool {
    match read.clone() {
        Ok(copy) => is_seen_as(&read, item) & (copy == read) & becomes(alloc, copy, item),
        Err(_) => false,
    }
}

/// Returns `true` if a parsed string with owned text equals the borrowed one.
fn is_owned_string_read_as(alloc: Global, string: StringRef<'_>) -> bool {
    match string.to_owned(alloc) {
        Ok(owned) => {
            let read = GenericBareItem::String(StringFromInput::Owned(owned));
            is_read_as(alloc, read, RefBareItem::from(string))
        }
        Err(_) => false,
    }
}

/// Returns `true` if a parsed byte sequence equals the borrowed one.
fn are_bytes_read_as(alloc: Global, bytes: &[u8]) -> bool {
    match Vec::from_slice(alloc, bytes) {
        Ok(owned) => is_read_as(
            alloc,
            BareItemFromInput::from(owned),
            RefBareItem::from(bytes),
        ),
        Err(_) => false,
    }
}

#[test]
fn bare_items_that_were_read_are_copied_and_owned(rt: HostRuntime) {
    let alloc = rt.alloc();
    let (string, token) = (string_ref("s"), token_ref("t"));
    let owned = is_owned_string_read_as(alloc, string) & are_bytes_read_as(alloc, b"b");
    let borrowed = is_read_as(
        alloc,
        GenericBareItem::String(StringFromInput::Borrowed(string)),
        RefBareItem::from(string),
    ) & is_read_as(
        alloc,
        BareItemFromInput::from(token),
        RefBareItem::from(token),
    ) & is_read_as(
        alloc,
        GenericBareItem::DisplayString(CowStr::Borrowed("d")),
        GenericBareItem::DisplayString("d"),
    );
    assert!(rt; owned & borrowed);
}

/// Returns `true` if the text is borrowed.
fn is_borrowed(read: &BareItemFromInput<'_>) -> bool {
    matches!(
        read,
        GenericBareItem::DisplayString(CowStr::Borrowed(_))
            | GenericBareItem::String(StringFromInput::Borrowed(_))
    )
}

/// Returns `true` if the text of the clone is borrowed.
fn is_borrowed_copy(read: BareItemFromInput<'_>) -> bool {
    match read.clone() {
        Ok(copy) => is_borrowed(&copy),
        Err(_) => false,
    }
}

#[test]
fn copies_of_bare_items_that_were_read_stay_borrowed(rt: HostRuntime) {
    let string = StringFromInput::Borrowed(string_ref("s"));
    assert!(rt; is_borrowed_copy(GenericBareItem::String(string)));
    assert!(rt; is_borrowed_copy(GenericBareItem::DisplayString(CowStr::Borrowed("d"))));
}
