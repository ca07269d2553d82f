//! Single calls of the serializers. After a failed call, the text and `has_member` are unchanged.

ghost use Rattle.std.specs.Prelude.{neg_ℤ, pos, ◌≤ℤ◌};

use crate::copies::value_of;
use crate::{is_left, refused_if};
use sfv::{
    DictSerializer, Dictionary, Error, FieldKind, GenericBareItem, InnerListSerializer, Item,
    ItemSerializer, List, ListEntry, ListSerializer, OutOfMemory, Parser, RefBareItem,
    SerializeError, Sink, integer, key_ref,
};
use std::alloc::Global;

fn number<'a>(n: i64) -> RefBareItem<'a>
    requires low { neg_ℤ (pos 1000) ≤ℤ n }
    requires high { n ≤ℤ pos 1000 }
{
    GenericBareItem::Integer(integer(n))
}

/// Returns a text that begins with `X: ` and has capacity for `room`.
fn text_with_room(alloc: Global, room: &str) -> Result<String, Error> {
    let mut text = String::with_capacity(alloc, room.len())?;
    text.push_str("X: ")?;
    Ok(text)
}

/// Writes an item of a list.
fn put<W: Sink>(
    list: &mut ListSerializer<W>,
    value: RefBareItem<'_>,
) -> Result<(), SerializeError> {
    list.bare_item(value)?.finish();
    Ok(())
}

/// Writes an item of an inner list.
fn put_inner<X: Sink>(
    inner: &mut InnerListSerializer<X>,
    value: RefBareItem<'_>,
) -> Result<(), SerializeError> {
    inner.bare_item(value)?.finish();
    Ok(())
}

/// Finishes an inner list. If its parenthesis does not fit, the inner list is removed.
fn end<W: Sink>(inner: InnerListSerializer<&mut ListSerializer<W>>) -> Result<(), OutOfMemory> {
    inner.finish()?.finish();
    Ok(())
}

/// Writes `a` with a parameter.
fn put_parameter<W: Sink>(dict: &mut DictSerializer<W>) -> Result<(), SerializeError> {
    let params = dict.bare_item(key_ref("a"), GenericBareItem::Boolean(true))?;
    params.parameter(key_ref("b"), number(2))?.finish();
    Ok(())
}

/// Writes `c=1`.
fn put_member<W: Sink>(dict: &mut DictSerializer<W>) -> Result<(), SerializeError> {
    dict.bare_item(key_ref("c"), number(1))?.finish();
    Ok(())
}

/// Writes an item of a list after `X: `.
pub fn first_item(alloc: Global) -> Result<bool, Error> {
    let mut text = text_with_room(alloc, "X: ")?;
    let mut list = ListSerializer::with_buffer(&mut text);
    let made = put(&mut list, number(1)).is_ok();
    is_left(!made, list.finish(), None, "X: 1")
}

/// Writes `(5)` completely, or nothing.
fn is_inner_list_made<W: Sink>(list: &mut ListSerializer<W>) -> bool {
    match list.inner_list() {
        Ok(mut inner) => {
            if put_inner(&mut inner, number(5)).is_ok() {
                end(inner).is_ok()
            } else {
                inner.abandon();
                false
            }
        }
        Err(_) => false,
    }
}

/// Writes the first inner list in a text without memory.
pub fn first_inner_list(alloc: Global) -> Result<bool, Error> {
    let mut text = String::new(alloc);
    let mut list = ListSerializer::with_buffer(&mut text);
    let made = is_inner_list_made(&mut list);
    list.finish();
    is_left(!made, Some(text.as_str()), Some(""), "(5)")
}

/// Writes an inner list after 1, and before 2 if `goes_on` is true, in a buffer with this room.
pub fn inner_list(alloc: Global, room: &str, goes_on: bool) -> Result<bool, Error> {
    let mut text = text_with_room(alloc, room)?;
    let mut list = ListSerializer::with_buffer(&mut text);
    if !put(&mut list, number(1)).is_ok() {
        return Ok(false);
    }
    let made = is_inner_list_made(&mut list);
    if !goes_on {
        return is_left(!made, list.finish(), Some("X: 1"), "X: 1, (5)");
    }
    let more = put(&mut list, number(2)).is_ok();
    if made {
        is_left(!more, list.finish(), Some("X: 1, (5)"), "X: 1, (5), 2")
    } else {
        is_left(true, list.finish(), Some("X: 1, 2"), "")
    }
}

/// Writes `(5`, then 6, then 7 if 6 failed and `goes_on` is true, and the end. Returns whether 6 was written, and
/// whether the end was.
fn write_second<W: Sink>(list: &mut ListSerializer<W>, goes_on: bool) -> (bool, bool) {
    match list.inner_list() {
        Ok(mut inner) => {
            let first = put_inner(&mut inner, number(5)).is_ok();
            let second = put_inner(&mut inner, number(6)).is_ok();
            if goes_on && first && !second {
                put_inner(&mut inner, number(7)).is_ok();
            }
            (second, end(inner).is_ok())
        }
        Err(_) => (false, false),
    }
}

/// Writes an item of an inner list. If it fails, the inner list ends, or continues with another item.
pub fn inner_item(alloc: Global, goes_on: bool) -> Result<bool, Error> {
    let mut text = text_with_room(alloc, "X: (5")?;
    let mut list = ListSerializer::with_buffer(&mut text);
    let (second, ended) = write_second(&mut list, goes_on);
    let left = if second {
        None
    } else if goes_on {
        Some("X: (5 7)")
    } else {
        Some("X: (5)")
    };
    is_left(!second || !ended, list.finish(), left, "X: (5 6)")
}

/// Writes the members of a list, and again if they fail.
pub fn members(alloc: Global, goes_on: bool) -> Result<bool, Error> {
    let value = Parser::new(b"1, (2 3)").parse::<List>(alloc)?;
    let mut text = text_with_room(alloc, "X: ")?;
    let mut list = ListSerializer::with_buffer(&mut text);
    let made = list.members(value[..].iter()).is_ok();
    let again = goes_on && !made && list.members(value[..].iter()).is_ok();
    let left = if again { Some("X: 1, (2 3)") } else { None };
    is_left(!made, list.finish(), left, "X: 1, (2 3)")
}

/// Writes a parameter of a dictionary member, and then another member.
pub fn parameter(alloc: Global, goes_on: bool) -> Result<bool, Error> {
    let mut text = text_with_room(alloc, "X: a")?;
    let mut dict = DictSerializer::with_buffer(&mut text);
    let made = put_parameter(&mut dict).is_ok();
    if !goes_on {
        return is_left(!made, dict.finish(), Some("X: a"), "X: a;b=2");
    }
    let more = put_member(&mut dict).is_ok();
    if made {
        is_left(!more, dict.finish(), Some("X: a;b=2"), "X: a;b=2, c=1")
    } else {
        is_left(true, dict.finish(), Some("X: a, c=1"), "")
    }
}

/// Writes the members of a dictionary.
pub fn named_members(alloc: Global) -> Result<bool, Error> {
    let value = Parser::new(b"a=1, b=(2 3);c").parse::<Dictionary>(alloc)?;
    let mut text = text_with_room(alloc, "X: ")?;
    let mut dict = DictSerializer::with_buffer(&mut text);
    let made = dict.members(value.iter()).is_ok();
    is_left(!made, dict.finish(), None, "X: a=1, b=(2 3);c")
}

/// Begins an inner list of a dictionary, and abandons it.
pub fn named_inner_list(alloc: Global) -> Result<bool, Error> {
    let mut text = text_with_room(alloc, "X: ")?;
    let mut dict = DictSerializer::with_buffer(&mut text);
    let made = match dict.inner_list(key_ref("a-key")) {
        Ok(inner) => {
            inner.abandon();
            true
        }
        Err(_) => false,
    };
    let stays = dict.finish().is_none() && text.as_str() == "X: ";
    if made { Ok(stays) } else { refused_if(stays) }
}

/// Writes an inner list with these items. Returns whether the items were written, and whether the end was.
fn write_items<W: Sink>(list: &mut ListSerializer<W>, items: &[Item]) -> (bool, bool) {
    match list.inner_list() {
        Ok(mut inner) => {
            let made = inner.items(items.iter()).is_ok();
            (made, end(inner).is_ok())
        }
        Err(_) => (false, false),
    }
}

/// Writes the items of an inner list.
pub fn items(alloc: Global) -> Result<bool, Error> {
    let value = Parser::new(b"(2;a 3)").parse::<List>(alloc)?;
    let Some(ListEntry::InnerList(inner)) = value[..].first() else {
        return Ok(false);
    };
    let mut text = text_with_room(alloc, "X: (")?;
    let mut list = ListSerializer::with_buffer(&mut text);
    let (made, ended) = write_items(&mut list, inner.items.as_slice());
    let left = if made { None } else { Some("X: ()") };
    is_left(!made || !ended, list.finish(), left, "X: (2;a 3)")
}

/// Writes 1 with the parameters of this item, and records whether 1 was written.
fn write_item(text: &mut String, item: &Item, is_begun: &mut bool) -> Result<(), SerializeError> {
    let params = ItemSerializer::with_buffer(text).bare_item(number(1))?;
    *is_begun = true;
    params.parameters(item.params.iter())?.finish();
    Ok(())
}

/// Writes an item with its parameters.
pub fn item(alloc: Global, room: &str) -> Result<bool, Error> {
    let value = Parser::new(b"1;a=2;b").parse::<Item>(alloc)?;
    let mut text = text_with_room(alloc, room)?;
    let mut is_begun = false;
    let made = write_item(&mut text, &value, &mut is_begun).is_ok();
    let left = if is_begun { "X: 1" } else { "X: " };
    is_left(!made, Some(text.as_str()), Some(left), "X: 1;a=2;b")
}

/// Writes a value as an item, or as a member.
fn put_value(
    text: &mut String,
    field: FieldKind,
    value: RefBareItem<'_>,
) -> Result<(), SerializeError> {
    match field {
        FieldKind::Item => ItemSerializer::with_buffer(text).bare_item(value)?.finish(),
        FieldKind::List => put(&mut ListSerializer::with_buffer(text), value)?,
        FieldKind::Dictionary => {
            let mut dict = DictSerializer::with_buffer(text);
            dict.bare_item(key_ref("k"), value)?.finish();
        }
    }
    Ok(())
}

/// Writes a value after a text that has no more room, and no memory if it is empty.
pub fn value(
    alloc: Global,
    field: FieldKind,
    row: usize,
    before: &str,
    written: &str,
) -> Result<bool, Error> {
    let mut text = String::with_capacity(alloc, before.len())?;
    text.push_str(before)?;
    let made = put_value(&mut text, field, value_of(row)).is_ok();
    is_left(!made, Some(text.as_str()), Some(before), written)
}
