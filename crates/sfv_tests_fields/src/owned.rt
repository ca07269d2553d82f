//! The capacity of the texts and bytes of bare items, and of keys.

use crate::common::{
    dictionary_of, doubled, field_of, item_of, list_of, numbers, repeated, version_of,
};
use crate::kept::versions_of;
use crate::sizes::FAR;
use sfv::visitor::{DictionaryBuilder, ItemBuilder};
use sfv::{
    BareItem, BareItemFromInput, Dictionary, GenericBareItem, InnerList, Item, Key, List,
    ListEntry, Parameters, Parser, StringFromInput, Version,
};
use sfv_random::rows::row;
use sfv_random::texts::filled;
use std::alloc::Global;
use std::test::Fail;

/// Returns the length and the capacity of the text or the bytes of a bare item.
fn room_of(value: BareItem) -> Option<(usize, usize)> {
    let text = match value {
        GenericBareItem::String(text) => text.into_string(),
        GenericBareItem::Token(token) => token.into_string(),
        GenericBareItem::DisplayString(text) => text,
        GenericBareItem::ByteSequence(bytes) => return Some((bytes.len(), bytes.capacity())),
        _ => return None,
    };
    Some((text.len(), text.capacity()))
}

/// Returns `true` if the bare item has this capacity.
fn keeps(value: BareItem, wanted: usize) -> bool {
    match room_of(value) {
        Some((_, capacity)) => capacity == wanted,
        None => false,
    }
}

/// Returns `true` if the bare item has no unused memory.
fn is_exact(value: BareItem) -> bool {
    match room_of(value) {
        Some((len, capacity)) => capacity == len,
        None => false,
    }
}

/// Returns `true` if the string or the bytes that the input parses to have this capacity.
fn holds_text(alloc: Global, parser: Parser<'_>, wanted: usize) -> bool {
    if let Ok(StringFromInput::Owned(text)) = parser.parse_item::<StringFromInput<'_>>(alloc) {
        return text.into_string().capacity() == wanted;
    }
    match parser.parse_item::<Vec<u8>>(alloc) {
        Ok(bytes) => bytes.capacity() == wanted,
        Err(_) => true,
    }
}

/// Returns `true` if there is a bare item, and it has this capacity.
fn has_kept(value: Option<BareItem>, wanted: usize) -> bool {
    match value {
        Some(value) => keeps(value, wanted),
        None => false,
    }
}

/// Returns `true` if there is a bare item without unused memory.
fn has_exact(value: Option<BareItem>) -> bool {
    match value {
        Some(value) => is_exact(value),
        None => false,
    }
}

/// Returns the bare item that `ItemBuilder` builds.
fn built_value(alloc: Global, parser: Parser<'_>) -> Option<BareItem> {
    let builder = ItemBuilder::new(alloc, parser.hash_seed());
    let built = parser.parse_item_with_visitor(alloc, builder).ok()?;
    Some(built.bare_item)
}

/// Returns the owned form of the bare item that the input parses to.
fn read_value(alloc: Global, parser: Parser<'_>) -> Option<BareItem> {
    let read = parser.parse_item::<BareItemFromInput<'_>>(alloc).ok()?;
    read.try_into_owned(alloc).ok()
}

/// Returns `true` if copies of the bare item have no unused memory.
fn are_copies_exact(alloc: Global, value: &BareItem) -> bool {
    has_exact(value.as_ref_item().try_to_owned(alloc).ok()) & has_exact(value.clone().ok())
}

/// Returns `true` if the bare item that the input parses to has this capacity by each call that parses it, and if its
/// copies have no unused memory.
fn holds_bytes(alloc: Global, parser: Parser<'_>, wanted: usize) -> bool {
    let are_kept = has_kept(built_value(alloc, parser), wanted)
        & holds_text(alloc, parser, wanted)
        & has_kept(parser.parse_item::<BareItem>(alloc).ok(), wanted)
        & has_kept(read_value(alloc, parser), wanted);
    match item_of(alloc, parser) {
        Some(item) => {
            let are_exact = are_copies_exact(alloc, &item.bare_item);
            are_kept & are_exact & keeps(item.bare_item, wanted)
        }
        None => false,
    }
}

/// Bare items of repeated pieces: a text before the pieces, a piece, a text after them; how many bytes each piece has and
/// how many come after the pieces; and whether the pieces have escapes.
const OWNED: &[(&str, &str, &str, usize, usize, bool)] = &[
    ("", "b", "", 1, 0, false),
    ("\"", "a", "\"", 1, 0, false),
    ("\"", "\\\\", "\"", 1, 0, true),
    ("\"", "a", "\\\"\"", 1, 1, false),
    (":", "aGkh", ":", 3, 0, false),
    (":", "aGkh", "aA==:", 3, 1, false),
    (":", "aGkh", "aGk=:", 3, 2, false),
    (":", "aGkh", "aA:", 3, 1, false),
    (":", "aGkh", "aGk:", 3, 2, false),
    ("%\"", "a", "\"", 1, 0, false),
    ("%\"", "%c3%bc", "\"", 2, 0, true),
    ("%\"", "a", "%c3%bc\"", 1, 2, false),
];

/// Returns the capacity of an owned text. Byte sequences, and texts without escapes, have no unused memory. A text with
/// escapes begins with the bytes before the first one, and doubles its capacity, to at least eight.
fn owned_capacity(front: &str, pieces: usize, after: usize, is_escaped: bool) -> usize {
    let len = pieces.saturating_add(after);
    let plain = if is_escaped { 0 } else { pieces };
    if front == ":" || plain == len {
        return len;
    }
    doubled(if plain < 4 { 8 } else { plain }, len)
}

#[test]
fn owned_texts_have_little_unused_memory(rt: HostRuntime) -> Result<(), Fail> {
    let alloc = rt.alloc();
    for &(front, piece, end, bytes, after, is_escaped) in OWNED {
        for &times in numbers(alloc, 1_101, FAR / piece.len().max(1))?.iter() {
            let text = repeated(alloc, front, piece, times, end)?;
            let wanted = owned_capacity(front, bytes.saturating_mul(times), after, is_escaped);
            for &version in versions_of(front) {
                let parser = Parser::new(text.as_bytes()).with_version(version);
                // There is no empty token.
                let holds = text.is_empty() || holds_bytes(alloc, parser, wanted);
                row("item", version, text.as_str(), wanted, holds)?;
            }
        }
    }
    Ok(())
}

/// Returns `true` if the key has no unused memory, and if its copies have none.
fn is_exact_key(alloc: Global, key: Key) -> Option<bool> {
    let copied = key.as_key_ref().to_owned(alloc).ok()?.into_string();
    let cloned = key.clone().ok()?.into_string();
    let text = key.into_string();
    Some(
        text.capacity() == text.len()
            && copied.capacity() == text.len()
            && cloned.capacity() == text.len(),
    )
}

/// Returns `true` if the last key of the parameters has no unused memory.
fn is_last_key_exact(alloc: Global, mut params: Parameters) -> bool {
    match params.pop() {
        Some((key, _)) => is_exact_key(alloc, key) == Some(true),
        None => false,
    }
}

/// Returns the parameters of a member.
fn params_of(member: ListEntry) -> Parameters {
    match member {
        ListEntry::Item(item) => item.params,
        ListEntry::InnerList(list) => list.params,
    }
}

/// Returns `true` if the last key of the dictionary, and the last one of the parameters of its last member, have no
/// unused memory.
fn are_keys_exact(alloc: Global, mut dictionary: Dictionary) -> bool {
    match dictionary.pop() {
        Some((key, member)) => {
            let is_exact = is_exact_key(alloc, key) == Some(true);
            is_exact & is_last_key_exact(alloc, params_of(member))
        }
        None => false,
    }
}

/// Returns the dictionary that a builder makes of the input.
fn built_dictionary(alloc: Global, parser: Parser<'_>) -> Option<Dictionary> {
    let builder = DictionaryBuilder::new(sfv::dictionary(alloc));
    parser.parse_dictionary_with_visitor(alloc, builder).ok()
}

/// The same for the dictionaries that `parse` and a builder make of the input.
fn have_exact_keys(alloc: Global, input: &str) -> Option<bool> {
    let parser = Parser::new(input.as_bytes());
    let is_parsed_exact = are_keys_exact(alloc, dictionary_of(alloc, parser)?);
    let is_built_exact = are_keys_exact(alloc, built_dictionary(alloc, parser)?);
    Some(is_parsed_exact && is_built_exact)
}

#[test]
fn keys_have_no_unused_memory(rt: HostRuntime) -> Result<(), Fail> {
    let alloc = rt.alloc();
    for &times in numbers(alloc, 601, FAR)?.iter() {
        let key = repeated(alloc, "a", "b", times, "")?;
        for &place in &["$;$", "$=1;$=2", "$=(a;b);$"] {
            let input = filled(alloc, place, key.as_str())?;
            let holds = have_exact_keys(alloc, input.as_str()) == Some(true);
            row(
                "dict",
                Version::Rfc9651,
                input.as_str(),
                "exact keys",
                holds,
            )?;
        }
    }
    Ok(())
}

/// Returns `true` if the text or the bytes have no unused memory. A text whose escapes are unknown may have less unused
/// memory than its length, or eight bytes in all. Otherwise a text of four bytes has an escape.
fn is_held(value: BareItem, is_known: bool) -> bool {
    let may_grow = matches!(
        value,
        GenericBareItem::String(_) | GenericBareItem::DisplayString(_)
    );
    match room_of(value) {
        Some((len, 8)) if may_grow && (len == 4 || !is_known) => true,
        Some((len, capacity)) => capacity == len || (may_grow && !is_known && capacity / 2 < len),
        None => true,
    }
}

/// Returns `true` if the keys and the values of the parameters have no unused memory.
fn are_params_held(mut params: Parameters, is_known: bool) -> bool {
    let mut holds = true;
    for _ in 0..params.len() {
        let Some((key, value)) = params.pop() else {
            return false;
        };
        let key = key.into_string();
        holds &= key.capacity() == key.len() && is_held(value, is_known);
    }
    holds
}

fn is_item_held(item: Item, is_known: bool) -> bool {
    is_held(item.bare_item, is_known) & are_params_held(item.params, is_known)
}

fn is_inner_list_held(mut list: InnerList, is_known: bool) -> bool {
    let mut holds = are_params_held(list.params, is_known);
    for _ in 0..list.items.len() {
        let Some(item) = list.items.pop() else {
            return false;
        };
        holds &= is_item_held(item, is_known);
    }
    holds
}

fn is_member_held(member: ListEntry, is_known: bool) -> bool {
    match member {
        ListEntry::Item(item) => is_item_held(item, is_known),
        ListEntry::InnerList(list) => is_inner_list_held(list, is_known),
    }
}

fn is_list_held(mut list: List, is_known: bool) -> bool {
    let mut holds = true;
    for _ in 0..list.len() {
        let Some(member) = list.pop() else {
            return false;
        };
        holds &= is_member_held(member, is_known);
    }
    holds
}

fn is_dictionary_held(mut dictionary: Dictionary, is_known: bool) -> bool {
    let mut holds = true;
    for _ in 0..dictionary.len() {
        let Some((key, member)) = dictionary.pop() else {
            return false;
        };
        let key = key.into_string();
        holds &= key.capacity() == key.len() && is_member_held(member, is_known);
    }
    holds
}

/// Returns `true` if the texts of the field have no unused memory, whether it is parsed or built, as `is_held` says.
pub fn is_field_held(
    alloc: Global,
    field: &str,
    parser: Parser<'_>,
    is_known: bool,
) -> Option<bool> {
    Some(match field {
        "item" => {
            is_item_held(item_of(alloc, parser)?, is_known)
                & is_item_held(parser.parse_item::<Item>(alloc).ok()?, is_known)
        }
        "list" => {
            is_list_held(list_of(alloc, parser)?, is_known)
                & is_list_held(parser.parse_list::<List>(alloc).ok()?, is_known)
        }
        _ => {
            is_dictionary_held(dictionary_of(alloc, parser)?, is_known)
                & is_dictionary_held(parser.parse_dictionary::<Dictionary>(alloc).ok()?, is_known)
        }
    })
}

/// Fields of numbered parts: the type, and the arguments of `field_of`.
const PARTS: &[(&str, (&str, &str, &str, &str))] = &[
    ("item", ("tok", ";key#~", "", "")),
    ("item", (":aGk=:", ";key#~", "", "")),
    ("list", ("", "$", ", ", "")),
    ("list", ("", "$;a~;key#~", ", ", "")),
    ("list", ("", "($ $;a;b~);a~;b~", ", ", "")),
    ("dict", ("", "key#=$", ", ", "")),
    ("dict", ("", "k#=$;a~;b~, l#;a~;b~", ", ", "")),
    ("dict", ("", "key#=($ $;a~;b~);c~;d~", ", ", "")),
];

#[test]
fn texts_of_members_have_little_unused_memory(rt: HostRuntime) -> Result<(), Fail> {
    let alloc = rt.alloc();
    for &(field, parts) in PARTS {
        for &count in numbers(alloc, 0, 2_000)?.iter() {
            let (version, values) = version_of(count % 3 > 0);
            let text = field_of(alloc, parts, values, count)?;
            let parser = Parser::new(text.as_bytes()).with_version(version);
            let holds = is_field_held(alloc, field, parser, true) == Some(true);
            row(field, version, text.as_str(), count, holds)?;
        }
    }
    Ok(())
}
