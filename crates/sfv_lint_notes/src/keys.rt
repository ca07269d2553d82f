//! Keys that occur twice.

ghost use Rattle.std.specs.Prelude.{⊤};

use sfv::visitor::{Event, Visitor};
use sfv::{InnerList, Item, ListEntry, ParseError, Parser};
use sfv_lint_report::check::FieldValue;
use std::alloc::Global;
use std::convert::Infallible;

/// A visitor that counts keys.
#[derive(Drop)]
struct KeyCounter {
    keys: usize,
}

impl<'de> Visitor<'de> for KeyCounter {
    type Out = usize;

    type Error = Infallible;

    ghost takes = { λ _ _ _. ⊤ };

    ghost fails = { λ _ _ _. ⊥ };

    ghost finishes = { λ _ _. ⊤ };

    ghost finish_fails = { λ _ _. ⊥ };

    fn event(&mut self, event: Event<'de>) -> Result<(), Infallible> {
        match event {
            Event::KeyedEntry(_key) => self.keys = self.keys.saturating_add(1),
            Event::Parameter(_key, _value) => self.keys = self.keys.saturating_add(1),
            Event::BareItem(_value) => {}
            Event::Entry
            | Event::Item
            | Event::InnerList
            | Event::ParametersEnd
            | Event::InnerListEnd => {}
        }
        Ok(())
    }

    fn finish(self) -> Result<usize, Infallible> {
        Ok(self.keys)
    }
}

/// Returns the number of keys in the text of a field of the type of the value, repeated keys included.
fn keys_in_text(
    alloc: Global,
    value: &FieldValue,
    text: &[u8],
) -> Result<usize, ParseError<Infallible>> {
    let parser = Parser::new(text);
    let counter = KeyCounter { keys: 0 };
    match value {
        FieldValue::Item(_) => parser.parse_item_with_visitor(alloc, counter),
        FieldValue::List(_) => parser.parse_list_with_visitor(alloc, counter),
        FieldValue::Dictionary(_) => parser.parse_dictionary_with_visitor(alloc, counter),
    }
}

/// Returns the number of keys of the items.
fn keys_of_items(items: &[Item]) -> usize {
    let mut keys: usize = 0;
    for item in items {
        keys = keys.saturating_add(item.params.len());
    }
    keys
}

/// Returns the number of keys of an inner list.
fn keys_of_inner_list(list: &InnerList) -> usize {
    keys_of_items(list.items.as_slice()).saturating_add(list.params.len())
}

/// Returns the number of keys of a member, without its own.
fn keys_of_member(member: &ListEntry) -> usize {
    match member {
        ListEntry::Item(item) => item.params.len(),
        ListEntry::InnerList(list) => keys_of_inner_list(list),
    }
}

/// Returns the number of keys of a value, which has each key once.
fn keys_of_value(value: &FieldValue) -> usize {
    match value {
        FieldValue::Item(item) => item.params.len(),
        FieldValue::List(list) => {
            let mut keys: usize = 0;
            for member in list {
                keys = keys.saturating_add(keys_of_member(member));
            }
            keys
        }
        FieldValue::Dictionary(dictionary) => {
            let mut keys = dictionary.len();
            for (_key, member) in dictionary {
                keys = keys.saturating_add(keys_of_member(member));
            }
            keys
        }
    }
}

/// Returns `true` if the text of the value has a key twice. RFC 9651 accepts what RFC 8941 accepts. Without memory to
/// count the keys, the result is `false`.
pub fn has_repeated_key(alloc: Global, value: &FieldValue, text: &[u8]) -> bool {
    match keys_in_text(alloc, value, text) {
        Ok(keys) => keys > keys_of_value(value),
        Err(_) => false,
    }
}
