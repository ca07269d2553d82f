//! The ways to write a field: whole, by the calls of a script, and by a serializer.

use sfv::script::{
    ItemCalls, MemberCalls, ParamCall, run_dict, run_dict_for, run_item, run_item_for, run_list,
    run_list_for,
};
use sfv::{
    DictSerializer, Dictionary, FieldType, InnerListSerializer, Item, ItemSerializer, KeyRef, List,
    ListEntry, ListSerializer, Parameters, Sink, Version,
};
use std::alloc::Global;

/// The way by one call for the field.
pub const WHOLE: usize = 0;

/// The way by the calls of a script, for RFC 9651 without a version.
pub const SCRIPT: usize = 1;

/// The way by the calls of a script for a version.
pub const SCRIPT_FOR: usize = 2;

/// The way by single calls of a serializer.
pub const SINGLE: usize = 3;

/// The way by one call for all members, or for all parameters of an item.
pub const ONCE: usize = 4;

/// The way that writes all members of a list or a dictionary twice.
pub const TWICE: usize = 5;

/// Returns the calls that write parameters.
fn param_calls(alloc: Global, params: &Parameters) -> Option<Vec<ParamCall<'_>>> {
    let mut calls = Vec::new(alloc);
    for (key, value) in params.iter() {
        let (key, value) = (key.as_key_ref(), value.as_ref_item());
        calls.push(ParamCall { key, value }).ok()?;
    }
    Some(calls)
}

/// Returns the calls that write an item.
pub fn item_calls(alloc: Global, item: &Item) -> Option<ItemCalls<'_>> {
    Some(ItemCalls {
        value: item.bare_item.as_ref_item(),
        params: param_calls(alloc, &item.params)?,
    })
}

/// Returns the calls that write a member.
fn member_calls(alloc: Global, member: &ListEntry) -> Option<MemberCalls<'_>> {
    match member {
        ListEntry::Item(item) => Some(MemberCalls::Item(item_calls(alloc, item)?)),
        ListEntry::InnerList(list) => {
            let mut items = Vec::new(alloc);
            for item in list.items.iter() {
                items.push(item_calls(alloc, item)?).ok()?;
            }
            Some(MemberCalls::InnerList {
                items,
                params: param_calls(alloc, &list.params)?,
                abandon: false,
            })
        }
    }
}

/// Returns the calls that write a list.
pub fn list_calls(alloc: Global, list: &List) -> Option<Vec<MemberCalls<'_>>> {
    let mut calls = Vec::new(alloc);
    for member in list.iter() {
        calls.push(member_calls(alloc, member)?).ok()?;
    }
    Some(calls)
}

/// The calls that write a member of a dictionary.
pub type EntryCalls<'a> = (KeyRef<'a>, MemberCalls<'a>);

/// Returns the calls that write a dictionary.
pub fn dictionary_calls(alloc: Global, dictionary: &Dictionary) -> Option<Vec<EntryCalls<'_>>> {
    let mut calls: Vec<EntryCalls<'_>> = Vec::new(alloc);
    for (key, member) in dictionary.iter() {
        calls
            .push((key.as_key_ref(), member_calls(alloc, member)?))
            .ok()?;
    }
    Some(calls)
}

/// Writes an item: its first parameter by a single call, and then the others at once.
fn put_item(serializer: ItemSerializer<'_>, item: &Item) -> Option<()> {
    let mut serializer = serializer.bare_item(item.bare_item.as_ref_item()).ok()?;
    let mut params = item.params.iter();
    if let Some((key, value)) = params.next() {
        serializer = serializer
            .parameter(key.as_key_ref(), value.as_ref_item())
            .ok()?;
    }
    serializer.parameters(params).ok()?.finish();
    Some(())
}

/// Writes an item: its bare item, and then all parameters at once.
pub fn put_at_once(version: Version, item: &Item, text: &mut String) -> Option<()> {
    let serializer = ItemSerializer::with_buffer_for(text, version);
    let params = serializer.bare_item(item.bare_item.as_ref_item()).ok()?;
    params.parameters(item.params.iter()).ok()?.finish();
    Some(())
}

/// Writes items: the first one by a single call, and then the others at once.
fn put_items<X: Sink>(inner: &mut InnerListSerializer<X>, items: &Vec<Item>) -> Option<()> {
    let mut items = items.iter();
    if let Some(item) = items.next() {
        let params = inner.bare_item(item.bare_item.as_ref_item()).ok()?;
        params.parameters(item.params.iter()).ok()?.finish();
    }
    inner.items(items).ok()
}

/// Writes an item in this way.
pub fn write_item(
    version: Version,
    way: usize,
    item: &Item,
    calls: &ItemCalls<'_>,
    text: &mut String,
) -> Option<()> {
    match way {
        WHOLE => {
            item.append_to(version, text).ok()?;
        }
        SCRIPT if version == Version::Rfc9651 => run_item(text, calls).ok()?,
        SCRIPT | SCRIPT_FOR => run_item_for(version, text, calls).ok()?,
        SINGLE => put_item(ItemSerializer::with_buffer_for(text, version), item)?,
        _ => put_at_once(version, item, text)?,
    }
    Some(())
}

/// Writes a list member by single calls.
pub fn put_member<W: Sink>(list: &mut ListSerializer<W>, member: &ListEntry) -> Option<()> {
    match member {
        ListEntry::Item(item) => {
            let mut params = list.bare_item(item.bare_item.as_ref_item()).ok()?;
            let mut rest = item.params.iter();
            if let Some((key, value)) = rest.next() {
                params = params
                    .parameter(key.as_key_ref(), value.as_ref_item())
                    .ok()?;
            }
            params.parameters(rest).ok()?.finish();
        }
        ListEntry::InnerList(inner_list) => {
            let mut inner = list.inner_list().ok()?;
            if put_items(&mut inner, &inner_list.items).is_none() {
                inner.abandon();
                return None;
            }
            let params = inner.finish().ok()?;
            params.parameters(inner_list.params.iter()).ok()?.finish();
        }
    }
    Some(())
}

/// Writes a list in this way.
pub fn write_list(
    version: Version,
    way: usize,
    list: &List,
    calls: &[MemberCalls<'_>],
    text: &mut String,
) -> Option<()> {
    match way {
        WHOLE => {
            list.append_to(version, text).ok()?;
        }
        SCRIPT if version == Version::Rfc9651 => {
            run_list(text, calls).ok()?;
        }
        SCRIPT | SCRIPT_FOR => {
            run_list_for(version, text, calls).ok()?;
        }
        SINGLE => {
            let mut serializer = ListSerializer::with_buffer_for(text, version);
            for member in list.iter() {
                put_member(&mut serializer, member)?;
            }
            let _ = serializer.finish();
        }
        _ => {
            let mut serializer = ListSerializer::with_buffer_for(text, version);
            let mut is_put = serializer.members(list.iter()).is_ok();
            if way == TWICE {
                is_put &= serializer.members(list.iter()).is_ok();
            }
            let _ = serializer.finish();
            if !is_put {
                return None;
            }
        }
    }
    Some(())
}

/// Writes a dictionary member by single calls.
pub fn put_entry<W: Sink>(
    dictionary: &mut DictSerializer<W>,
    key: KeyRef<'_>,
    member: &ListEntry,
) -> Option<()> {
    match member {
        ListEntry::Item(item) => {
            let params = dictionary
                .bare_item(key, item.bare_item.as_ref_item())
                .ok()?;
            params.parameters(item.params.iter()).ok()?.finish();
        }
        ListEntry::InnerList(inner_list) => {
            let mut inner = dictionary.inner_list(key).ok()?;
            if put_items(&mut inner, &inner_list.items).is_none() {
                inner.abandon();
                return None;
            }
            let params = inner.finish().ok()?;
            params.parameters(inner_list.params.iter()).ok()?.finish();
        }
    }
    Some(())
}

/// Writes a dictionary in this way.
pub fn write_dictionary(
    version: Version,
    way: usize,
    dictionary: &Dictionary,
    calls: &[EntryCalls<'_>],
    text: &mut String,
) -> Option<()> {
    match way {
        WHOLE => {
            dictionary.append_to(version, text).ok()?;
        }
        SCRIPT if version == Version::Rfc9651 => {
            run_dict(text, calls).ok()?;
        }
        SCRIPT | SCRIPT_FOR => {
            run_dict_for(version, text, calls).ok()?;
        }
        SINGLE => {
            let mut serializer = DictSerializer::with_buffer_for(text, version);
            for (key, member) in dictionary.iter() {
                put_entry(&mut serializer, key.as_key_ref(), member)?;
            }
            let _ = serializer.finish();
        }
        _ => {
            let mut serializer = DictSerializer::with_buffer_for(text, version);
            let mut is_put = serializer.members(dictionary.iter()).is_ok();
            if way == TWICE {
                is_put &= serializer.members(dictionary.iter()).is_ok();
            }
            let _ = serializer.finish();
            if !is_put {
                return None;
            }
        }
    }
    Some(())
}
