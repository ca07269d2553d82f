//! The builders of trees, with single events: in sequence, and out of it.

use crate::common::has_text;
use sfv::visitor::{DictionaryBuilder, Event, ItemBuilder, ListBuilder, Visitor};
use sfv::{BareItemFromInput, Dictionary, FieldType, HashSeed, KeyRef, List, Parser, key_ref};
use std::alloc::Global;

fn param(key: KeyRef<'static>, value: u8) -> Event<'static> {
    Event::Parameter(key, BareItemFromInput::from(value))
}

/// Returns the event of a letter.
fn event(letter: char) -> Event<'static> {
    match letter {
        ',' => Event::Entry,
        'k' => Event::KeyedEntry(key_ref("a")),
        'l' => Event::KeyedEntry(key_ref("b")),
        'm' => Event::KeyedEntry(key_ref("c")),
        'i' => Event::Item,
        '(' => Event::InnerList,
        'a' => param(key_ref("a"), 1),
        'A' => param(key_ref("a"), 2),
        'b' => param(key_ref("b"), 1),
        ';' => Event::ParametersEnd,
        ')' => Event::InnerListEnd,
        '5' => Event::BareItem(BareItemFromInput::from(5u8)),
        _ => Event::BareItem(BareItemFromInput::from(6u8)),
    }
}

/// Returns the text of a list or a dictionary that was built, if it has a member.
fn written<T: FieldType<SerializeResult = Option<String>>, E: Drop>(
    alloc: Global,
    built: Result<T, E>,
) -> Option<String> {
    match built {
        Ok(field) => field.serialize(alloc).ok()?,
        Err(_) => None,
    }
}

/// Returns the text of the list that is built from the events, beginning with the list `held`.
fn list_of(alloc: Global, held: &str, letters: &str) -> Option<String> {
    let list = Parser::new(held.as_bytes()).parse::<List>(alloc).ok()?;
    let mut builder = ListBuilder::new(list, HashSeed::default());
    for letter in letters.chars() {
        if builder.event(event(letter)).is_err() {
            return None;
        }
    }
    written(alloc, builder.finish())
}

#[test]
fn lists_are_built_of_the_events_in_their_place(rt: HostRuntime) {
    let three = "6, (5;b=1);a=1, 5";
    let rows = &[
        ("", ",i5abA;,(i5a;i6;)aA;", "5;a=2;b=1, (5;a=1 6);a=2"),
        ("6", ",(i5b;)a;,i5;", three),
        // An event out of sequence: between the members,
        ("6", "i5a;()k,(i5b;)a;,i5;", three),
        // before the start of an item or an inner list,
        ("6", ",,k5a;)(i5b;)a;,5;i5;", three),
        // among the items of an inner list,
        ("6", ",(,k(5a;i5b;)a;,i5;", three),
        // before the bare items,
        ("6", ",(i,ki(a;)5b;)a;,i,ki(a;)5;", three),
        // among the parameters,
        ("6", ",(i5,ki(6b);)a,ki(6);,i5,ki(6);", three),
        // and in a member that has not ended.
        ("6", ",(i5b;)a;,i5;,i6a", three),
        ("6", ",(i5b;)a;,i5;,(i6;i5", three),
    ];
    for &(held, letters, text) in rows {
        assert!(rt;
            has_text(list_of(rt.alloc(), held, letters), text),
            "{letters}"
        );
    }
}

/// Returns the text of the dictionary that is built from the events, beginning with the dictionary `held`.
fn dictionary_of(alloc: Global, held: &str, letters: &str) -> Option<String> {
    let dictionary = Parser::new(held.as_bytes())
        .parse::<Dictionary>(alloc)
        .ok()?;
    let mut builder = DictionaryBuilder::new(dictionary);
    for letter in letters.chars() {
        if builder.event(event(letter)).is_err() {
            return None;
        }
    }
    written(alloc, builder.finish())
}

#[test]
fn dictionaries_are_built_of_the_events_in_their_place(rt: HostRuntime) {
    let two = "b=5;a=1;b=1, a=(5;a=1 6);a=2";
    let three = "c=6, a=(5;b=1);a=1, b=5";
    let rows = &[
        ("", "li5ab;k(i5a;i6;)aA;", two),
        // An existing key keeps its place, and takes the new member with its parameters.
        (two, "mi5;li6A;li6;", "b=6, a=(5;a=1 6);a=2, c=5"),
        ("c=6", "k(i5b;)a;li5;", three),
        // An event out of sequence: between the members,
        ("c=6", "i5a;(),k(i5b;)a;li5;", three),
        // before the start of an item or an inner list,
        ("c=6", "k,l5a;)(i5b;)a;l5;i5;", three),
        // among the items of an inner list,
        ("c=6", "k(,l(5a;i5b;)a;li5;", three),
        // before the bare items,
        ("c=6", "k(i,li(a;)5b;)a;li,ki(a;)5;", three),
        // among the parameters,
        ("c=6", "k(i5,li(6b);)a,li(6);li5,ki(6);", three),
        // and in a member that has not ended.
        ("c=6", "k(i5b;)a;li5;mi5a", three),
        ("c=6", "k(i5b;)a;li5;m(i6;i5", three),
    ];
    for &(held, letters, text) in rows {
        assert!(rt;
            has_text(dictionary_of(rt.alloc(), held, letters), text),
            "{letters}"
        );
    }
}

/// Passes the events to an optional builder, and returns `true` if it accepts them.
fn takes(builder: &mut Option<ItemBuilder>, letters: &str) -> bool {
    for letter in letters.chars() {
        if builder.event(event(letter)).is_err() {
            return false;
        }
    }
    true
}

/// Returns the text of the item that an optional builder returns after the events, if it returns one.
fn item_of(alloc: Global, is_there: bool, letters: &str) -> Option<String> {
    let mut builder = if is_there {
        Some(ItemBuilder::new(alloc, HashSeed::default()))
    } else {
        None
    };
    if !takes(&mut builder, letters) {
        return None;
    }
    match builder.finish() {
        Ok(Some(item)) => item.serialize(alloc).ok(),
        _ => None,
    }
}

#[test]
fn items_are_built_of_the_events_in_their_place(rt: HostRuntime) {
    let rows = &[
        ("5aA;", "5;a=2"),
        // An event out of sequence changes nothing.
        (";,i(ka)5b)6A;5a", "5;b=1;a=2"),
    ];
    for &(letters, text) in rows {
        assert!(rt;
            has_text(item_of(rt.alloc(), true, letters), text),
            "{letters}"
        );
    }
}

// Without its end there is no item. Without a builder there is none, either.
#[test]
fn items_that_have_not_ended_are_none(rt: HostRuntime) {
    for &(is_there, letters) in &[(true, "5a"), (true, ""), (false, "5aA;"), (false, "")] {
        assert!(rt;
            item_of(rt.alloc(), is_there, letters).is_none(),
            "{letters}"
        );
    }
}
