//! Items, inner lists, lists and dictionaries: their constructors, insertions, removals, clones and
//! comparisons.

use crate::common::has_text;
use sfv::{
    BareItem, Dictionary, FieldType, InnerList, Item, KeyRef, List, ListEntry, Parameters, Parser,
    find_entry, find_param, insert_entry, insert_param, key_ref, remove_entry, remove_param,
};
use std::alloc::Global;

/// Returns `true` if the field equals its clone, and the other field if and only if `equal` is true.
fn are_equal<T: FieldType + PartialEq + Clone>(
    alloc: Global,
    text: &str,
    other: &str,
    equal: bool,
) -> bool {
    let Ok(field) = Parser::new(text.as_bytes()).parse::<T>(alloc) else {
        return false;
    };
    let Ok(other) = Parser::new(other.as_bytes()).parse::<T>(alloc) else {
        return false;
    };
    match field.clone() {
        Ok(copy) => (copy == field) & ((field == other) == equal),
        Err(_) => false,
    }
}

#[test]
fn items_are_equal_by_their_values_and_parameters(rt: HostRuntime) {
    let rows = &[
        ("2;b=1;a", "2;b=1;a", true),
        ("2;b=1;a", "2", false),
        ("2;b=1;a", "2;b=1", false),
        ("2;b=1", "2;b=2", false),
        ("2;b=1", "3;b=1", false),
    ];
    for &(text, other, equal) in rows {
        assert!(rt;
            are_equal::<Item>(rt.alloc(), text, other, equal),
            "{text} {other}"
        );
    }
}

#[test]
fn lists_are_equal_by_their_members(rt: HostRuntime) {
    let rows = &[
        ("1;a=2, ()", "1;a=2, ()", true),
        ("1;a=2, ()", "1;a=2", false),
        ("1", "(1)", false),
        ("(1;a=2)", "(1;a=2);c=5", false),
        ("(1;a=2);c=5", "(1;a=2);c=5", true),
        ("(1 2)", "(1)", false),
    ];
    for &(text, other, equal) in rows {
        assert!(rt;
            are_equal::<List>(rt.alloc(), text, other, equal),
            "{text} {other}"
        );
    }
}

/// Returns `true` if an inner list without items is empty.
fn is_made_empty(alloc: Global) -> bool {
    let list = InnerList::new(alloc, Vec::new(alloc));
    list.items.is_empty() & list.params.is_empty() & (list == InnerList::empty(alloc))
}

#[test]
fn inner_lists_are_made_of_items(rt: HostRuntime) {
    assert!(rt; is_made_empty(rt.alloc()));
}

/// Inserts the item 7. Returns `true` if the old member of the key is found and returned if and only if `had` is true.
fn enters(members: &mut Dictionary, key: KeyRef<'_>, had: bool) -> bool {
    let alloc = *members.allocator();
    if find_entry(members, key).is_some() != had {
        return false;
    }
    let Ok(name) = key.to_owned(alloc) else {
        return false;
    };
    let member = ListEntry::from(Item::new(alloc, BareItem::from(7u8)));
    match insert_entry(members, name, member) {
        Ok(old) => old.is_some() == had,
        Err(_) => false,
    }
}

/// Returns the text of a dictionary after the insertion of the item 7, if `had` says whether the key had a member.
fn text_with_member(alloc: Global, key: KeyRef<'_>, had: bool) -> Option<String> {
    let parser = Parser::new(b"b=5, a=6");
    let mut members = parser.parse::<Dictionary>(alloc).ok()?;
    if enters(&mut members, key, had) {
        members.serialize(alloc).unwrap_or(None)
    } else {
        None
    }
}

#[test]
fn members_are_found_and_entered_where_their_key_stood_or_last(rt: HostRuntime) {
    let alloc = rt.alloc();
    assert!(rt; has_text(text_with_member(alloc, key_ref("b"), true), "b=7, a=6"));
    assert!(rt;
        has_text(
            text_with_member(alloc, key_ref("c"), false),
            "b=5, a=6, c=7"
        )
    );
}

/// Inserts the number 7. Returns `true` if the old value of the key is found and returned if and only if `had` is true.
fn enters_param(params: &mut Parameters, key: KeyRef<'_>, had: bool) -> bool {
    if find_param(params, key).is_some() != had {
        return false;
    }
    let Ok(name) = key.to_owned(*params.allocator()) else {
        return false;
    };
    match insert_param(params, name, BareItem::from(7u8)) {
        Ok(old) => old.is_some() == had,
        Err(_) => false,
    }
}

/// Returns the text of an item after the insertion of the parameter 7, if `had` says whether the key had a value.
fn text_with_param(alloc: Global, key: KeyRef<'_>, had: bool) -> Option<String> {
    let mut item = Parser::new(b"1;b=5;a=2").parse::<Item>(alloc).ok()?;
    if enters_param(&mut item.params, key, had) {
        item.serialize(alloc).ok()
    } else {
        None
    }
}

#[test]
fn parameters_are_found_and_entered_where_their_key_stood_or_last(rt: HostRuntime) {
    let alloc = rt.alloc();
    assert!(rt; has_text(text_with_param(alloc, key_ref("b"), true), "1;b=7;a=2"));
    assert!(rt; has_text(text_with_param(alloc, key_ref("c"), false), "1;b=5;a=2;c=7"));
}

/// Returns the text of a dictionary after the removal of a key, if `had` says whether the key had a member.
fn text_without_member(alloc: Global, key: KeyRef<'_>, had: bool) -> Option<String> {
    let parser = Parser::new(b"b=5, a=6, c=(7)");
    let mut members = parser.parse::<Dictionary>(alloc).ok()?;
    if remove_entry(&mut members, key).is_some() == had {
        members.serialize(alloc).unwrap_or(None)
    } else {
        None
    }
}

/// Returns the text of an item after the removal of a parameter, if `had` says whether the key had a value.
fn text_without_param(alloc: Global, key: KeyRef<'_>, had: bool) -> Option<String> {
    let mut item = Parser::new(b"1;b=5;a=2;c").parse::<Item>(alloc).ok()?;
    if remove_param(&mut item.params, key).is_some() == had {
        item.serialize(alloc).ok()
    } else {
        None
    }
}

#[test]
fn members_and_parameters_are_removed_and_the_others_keep_their_order(rt: HostRuntime) {
    let alloc = rt.alloc();
    assert!(rt; has_text(text_without_member(alloc, key_ref("b"), true), "a=6, c=(7)"));
    assert!(rt;
        has_text(
            text_without_member(alloc, key_ref("d"), false),
            "b=5, a=6, c=(7)"
        )
    );
    assert!(rt; has_text(text_without_param(alloc, key_ref("b"), true), "1;a=2;c"));
    assert!(rt;
        has_text(
            text_without_param(alloc, key_ref("d"), false),
            "1;b=5;a=2;c"
        )
    );
}
