//! Scripts of calls, and serialization for a version.

use crate::is_left;
use sfv::script::{
    ItemCalls, MemberCalls, ParamCall, run_dict, run_dict_for, run_item, run_item_for, run_list,
    run_list_for,
};
use sfv::{Error, FieldKind, GenericBareItem, KeyRef, Version, key_ref, string_ref};
use std::alloc::Global;

/// Returns the call that writes the parameter with this key.
fn param_calls<'a>(alloc: Global, key: KeyRef<'a>) -> Result<Vec<ParamCall<'a>>, Error> {
    let value = GenericBareItem::Boolean(false);
    Ok(vec![in alloc; ParamCall { key, value }]?)
}

/// Returns the calls that write `"a \"b\"";a=?0`.
fn item_calls<'a>(alloc: Global) -> Result<ItemCalls<'a>, Error> {
    let value = GenericBareItem::String(string_ref("a \"b\""));
    let params = param_calls(alloc, key_ref("a"))?;
    Ok(ItemCalls { value, params })
}

/// Returns the calls that write an inner list with this item.
fn inner_list_calls<'a>(alloc: Global) -> Result<MemberCalls<'a>, Error> {
    let items = vec![in alloc; item_calls(alloc)?]?;
    let params = param_calls(alloc, key_ref("b"))?;
    Ok(MemberCalls::InnerList {
        items,
        params,
        abandon: false,
    })
}

/// Returns the calls that write the item and the inner list as list members.
fn member_calls<'a>(alloc: Global) -> Result<Vec<MemberCalls<'a>>, Error> {
    let item = MemberCalls::Item(item_calls(alloc)?);
    let inner_list = inner_list_calls(alloc)?;
    Ok(vec![in alloc; item, inner_list]?)
}

/// Returns the calls that write the item and the inner list as dictionary members.
fn named_calls<'a>(alloc: Global) -> Result<Vec<(KeyRef<'a>, MemberCalls<'a>)>, Error> {
    let item = (key_ref("x"), MemberCalls::Item(item_calls(alloc)?));
    let inner_list = (key_ref("y"), inner_list_calls(alloc)?);
    Ok(vec![in alloc; item, inner_list]?)
}

/// Performs the calls of an item, for a version if `bound` is true, and returns `true` if they fail.
fn is_item_refused(text: &mut String, calls: &ItemCalls<'_>, bound: bool) -> bool {
    if bound {
        run_item_for(Version::Rfc8941, text, calls).is_err()
    } else {
        run_item(text, calls).is_err()
    }
}

/// Writes an item by its calls.
fn item(alloc: Global, bound: bool) -> Result<bool, Error> {
    let calls = item_calls(alloc)?;
    let mut text = String::from_str(alloc, "P=")?;
    let refused = is_item_refused(&mut text, &calls, bound);
    is_left(
        refused,
        Some(text.as_str()),
        Some("P="),
        "P=\"a \\\"b\\\"\";a=?0",
    )
}

/// Performs the calls of a list, for a version if `bound` is true, and returns `true` if they fail.
fn is_list_refused(text: &mut String, calls: &[MemberCalls<'_>], bound: bool) -> bool {
    if bound {
        run_list_for(Version::Rfc8941, text, calls).is_err()
    } else {
        run_list(text, calls).is_err()
    }
}

/// Writes a list by its calls.
fn list(alloc: Global, bound: bool) -> Result<bool, Error> {
    let calls = member_calls(alloc)?;
    let mut text = String::from_str(alloc, "P=")?;
    let refused = is_list_refused(&mut text, calls.as_slice(), bound);
    let written = "P=\"a \\\"b\\\"\";a=?0, (\"a \\\"b\\\"\";a=?0);b=?0";
    is_left(refused, Some(text.as_str()), Some("P="), written)
}

/// Performs the calls of a dictionary, for a version if `bound` is true, and returns `true` if they fail.
fn is_dictionary_refused(
    text: &mut String,
    calls: &[(KeyRef<'_>, MemberCalls<'_>)],
    bound: bool,
) -> bool {
    if bound {
        run_dict_for(Version::Rfc8941, text, calls).is_err()
    } else {
        run_dict(text, calls).is_err()
    }
}

/// Writes a dictionary by its calls.
fn dictionary(alloc: Global, bound: bool) -> Result<bool, Error> {
    let calls = named_calls(alloc)?;
    let mut text = String::from_str(alloc, "P=")?;
    let refused = is_dictionary_refused(&mut text, calls.as_slice(), bound);
    let written = "P=x=\"a \\\"b\\\"\";a=?0, y=(\"a \\\"b\\\"\";a=?0);b=?0";
    is_left(refused, Some(text.as_str()), Some("P="), written)
}

/// Performs the calls of a field, for a version if `bound` is true.
pub fn run(alloc: Global, field: FieldKind, bound: bool) -> Result<bool, Error> {
    match field {
        FieldKind::Item => item(alloc, bound),
        FieldKind::List => list(alloc, bound),
        FieldKind::Dictionary => dictionary(alloc, bound),
    }
}
