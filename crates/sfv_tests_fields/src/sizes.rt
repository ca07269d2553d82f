//! Fields of many sizes. With memory to spare, each call that allocates returns its usual result, whatever the size, the
//! kind of value and the version.

use crate::common::{
    NEAR, OLDER, dictionary_of, field_of, is_grown, item_of, list_of, map_capacity, numbers,
    repeated, version_of,
};
use crate::ways::{
    ONCE, SCRIPT_FOR, dictionary_calls, item_calls, list_calls, write_dictionary, write_item,
    write_list,
};
use sfv::visitor::{DictionaryBuilder, ItemBuilder, ListBuilder};
use sfv::{
    BareItem, BareItemFromInput, Dictionary, FieldType, GenericBareItem, InnerList, Item, Key,
    List, ListEntry, Parameters, Parser, Version, insert_entry, insert_param,
};
use sfv_random::rows::row;
use sfv_random::texts::filled;
use std::alloc::Global;
use std::test::Fail;

/// The most parts of a field.
const MOST_PARTS: usize = 200_000;

/// Fields of numbered parts: the type, the arguments `dense` and `most` of `numbers`, and the arguments of `field_of`.
const FIELDS: &[(&str, usize, usize, (&str, &str, &str, &str))] = &[
    ("list", 601, MOST_PARTS, ("", "$", ", ", "")),
    ("list", 601, NEAR, ("", "$;a", ", ", "")),
    ("list", 601, 50_000, ("(", "$;a", " ", ")")),
    ("list", 601, MOST_PARTS, ("(", "$", " ", ");b")),
    ("list", 601, MOST_PARTS, ("", "($)", ", ", "")),
    ("list", 0, NEAR, ("", "($);k~", ", ", "")),
    ("list", 0, NEAR, ("1", ";k#~", "", "")),
    ("list", 0, NEAR, ("()", ";k#~", "", "")),
    ("list", 0, NEAR, ("(1", ";k#~", "", ")")),
    ("item", 601, MOST_PARTS, ("1", ";k#~", "", "")),
    ("item", 601, NEAR, ("a", ";k#", "", "")),
    ("dict", 601, MOST_PARTS, ("", "k#~", ", ", "")),
    ("dict", 601, NEAR, ("", "k#;a", ", ", "")),
    ("dict", 0, NEAR, ("", "k#=($;b~ $);c", ", ", "")),
    ("dict", 0, NEAR, ("a=(", "$", " ", ");b")),
    ("dict", 0, NEAR, ("a", ";k#~", "", "")),
    ("list", 0, MOST_PARTS, ("a, b, (", "$", " ", ");b")),
    ("list", 0, NEAR, ("a, (", "$;a", " ", ")")),
    ("list", 0, NEAR, ("(), tok", ";k#~", "", "")),
    ("list", 0, NEAR, ("", "(tok;a~ $);b~", ", ", "")),
    ("item", 0, NEAR, ("tok", ";k#~", "", "")),
    ("item", 0, NEAR, ("\"a\"", ";k#~", "", "")),
    (
        "item",
        0,
        NEAR,
        (
            "12",
            ";a-long-key-of-a-parameter#=a-long-token-as-its-value",
            "",
            "",
        ),
    ),
    ("dict", 0, MOST_PARTS, ("a, b=(", "$", " ", ");b")),
    ("dict", 0, NEAR, ("b, a=1", ";k#~", "", "")),
    ("dict", 0, NEAR, ("b, a=tok", ";k#~", "", "")),
    ("dict", 0, NEAR, ("", "k#=tok;a~", ", ", "")),
    ("list", 0, NEAR, ("", "$, ($;a~)", ", ", "")),
    ("list", 0, NEAR, ("", "($), $", ", ", "")),
    ("dict", 0, NEAR, ("", "k#~, l#=($)", ", ", "")),
    ("dict", 0, NEAR, ("", "k#=($), l#~", ", ", "")),
    ("item", 0, NEAR, (":aA==:", ";k#~", "", "")),
    ("item", 0, NEAR, ("-1.5", ";k#~", "", "")),
    ("dict", 0, NEAR, ("a=?0", ";k#~", "", "")),
];

/// The most bytes of a text.
const MOST_BYTES: usize = 33_554_432;

/// The most bytes of a text that is not a power of two.
pub const FAR: usize = 2_097_152;

/// Texts: a text before the pieces, a piece, and a text after them; and whether RFC 8941 has such a value.
pub const TEXTS: &[(&str, &str, &str, bool)] = &[
    ("", "b", "", true),
    ("\"", "a", "\"", true),
    ("\"", "\\\\", "\"", true),
    ("\"", "a", "\\\\\"", true),
    (":", "aGkh", ":", true),
    ("%\"", "a", "\"", false),
    ("%\"", "%c3%bc", "\"", false),
    ("%\"", "a", "%c3%bc\"", false),
];

/// Fields with a text in the place of `$`, for short texts and for long ones.
const SHORT: &[(&str, &str)] = &[("item", "$;k=$"), ("dict", "a=$;k=$, b=($;k=$);k=$")];

const LONG: &[(&str, &str)] = &[
    ("item", "$"),
    ("item", "1;k=$"),
    ("list", "$"),
    ("dict", "a=$"),
];

/// Fields with a key in the place of `$`.
const KEYS: &[(&str, &str)] = &[("item", "1;$"), ("list", "();$=?0"), ("dict", "$;$=2")];

const LONG_KEYS: &[(&str, &str)] = &[("dict", "$;$")];

/// Returns an empty text of half the capacity that the wanted text needs.
fn half_room(alloc: Global, wanted: &str) -> Option<String> {
    String::with_capacity(alloc, wanted.len().div_ceil(2)).ok()
}

/// Returns `true` if the text of `half_room` is `wanted`, and has doubled its capacity if that is needed.
fn is_written(text: &String, wanted: &str) -> bool {
    text.as_str() == wanted && is_grown(text.capacity(), wanted.len().div_ceil(2), wanted.len())
}

/// Returns `true` if the text is `wanted`, or if there is none and `wanted` is empty.
fn is_wanted(text: Option<String>, wanted: &str) -> bool {
    match text {
        Some(text) => text.as_str() == wanted,
        None => wanted.is_empty(),
    }
}

/// Returns `true` if this text is appended to another one, which has exactly the room for it.
fn is_appended<T: FieldType>(
    alloc: Global,
    version: Version,
    value: &T,
    text: &str,
) -> Option<bool> {
    let mut all = String::with_capacity(alloc, text.len() + 1).ok()?;
    all.push('-').ok()?;
    let any = value.append_to(version, &mut all).ok()?;
    let fits = all.capacity() == text.len() + 1;
    Some(fits && any != text.is_empty() && all.as_str().strip_prefix('-') == Some(text))
}

/// Returns `true` if the value is serialized to this text, for RFC 9651 and for this version.
fn is_serialized<T: FieldType>(alloc: Global, version: Version, value: &T, text: &str) -> bool {
    match (value.serialize(alloc), value.serialize_for(alloc, version)) {
        (Ok(newer), Ok(written)) => {
            is_wanted(newer.into(), text)
                && is_wanted(written.into(), text)
                && is_appended(alloc, version, value, text) == Some(true)
        }
        _ => false,
    }
}

/// Returns a copy of parameters, inserted one by one.
fn inserted_params(alloc: Global, params: &Parameters) -> Option<Parameters> {
    let mut copy = sfv::parameters(alloc);
    for (key, value) in params.iter() {
        insert_param(&mut copy, key.clone().ok()?, value.clone().ok()?).ok()?;
    }
    Some(copy)
}

/// Returns `true` if `ItemBuilder` builds the item.
fn is_built_item(alloc: Global, parser: Parser<'_>, item: &Item) -> Option<bool> {
    let builder = ItemBuilder::new(alloc, parser.hash_seed());
    let built = parser.parse_item_with_visitor(alloc, builder).ok()?;
    Some(built == *item)
}

/// Returns `true` if the text or the byte sequence has no unused memory.
fn is_exact_value(value: &BareItem) -> bool {
    match value {
        GenericBareItem::ByteSequence(bytes) => bytes.capacity() == bytes.len(),
        GenericBareItem::DisplayString(text) => text.capacity() == text.len(),
        _ => true,
    }
}

/// Returns `true` if the parameters and their values have no unused memory.
fn are_exact_params(params: &Parameters) -> bool {
    let mut holds = params.capacity() == params.len();
    for value in params.values() {
        holds &= is_exact_value(value);
    }
    holds
}

/// Returns `true` if the item has no unused memory.
fn is_exact_item(item: &Item) -> bool {
    is_exact_value(&item.bare_item) && are_exact_params(&item.params)
}

/// Returns `true` if the member has no unused memory.
fn is_exact_member(member: &ListEntry) -> bool {
    match member {
        ListEntry::Item(item) => is_exact_item(item),
        ListEntry::InnerList(list) => {
            let mut holds = are_exact_params(&list.params);
            for item in list.items.iter() {
                holds &= is_exact_item(item);
            }
            holds && list.items.capacity() == list.items.len()
        }
    }
}

/// Returns `true` if there is an equal item without unused memory.
fn has_copy(copy: Option<Item>, item: &Item) -> bool {
    match copy {
        Some(copy) => copy == *item && is_exact_item(&copy),
        None => false,
    }
}

/// Returns `true` if there are equal parameters with little unused memory.
fn has_inserted(params: Option<Parameters>, item: &Item) -> bool {
    match params {
        Some(params) => params == item.params && params.capacity() == map_capacity(params.len()),
        None => false,
    }
}

/// Returns `true` if a copy of the item and one of its parameters are equal to them, and have little unused memory.
fn is_copied_item(alloc: Global, item: &Item) -> bool {
    let is_copied = match item.clone() {
        Ok(copy) => has_copy(copy.clone().ok(), item) & has_copy(Some(copy), item),
        Err(_) => false,
    };
    is_copied & has_inserted(inserted_params(alloc, &item.params), item)
}

/// Returns `true` if there is an equal bare item.
fn has_value(bare_item: Option<BareItem>, value: &BareItem) -> bool {
    match bare_item {
        Some(bare_item) => bare_item == *value,
        None => false,
    }
}

/// Returns the owned form of the bare item that the input parses to.
fn read_value(alloc: Global, parser: Parser<'_>) -> Option<BareItem> {
    let read = parser.parse_item::<BareItemFromInput<'_>>(alloc).ok()?;
    read.try_into_owned(alloc).ok()
}

/// Returns `true` if the parser reads this bare item, owned and borrowed, and a copy is equal to it.
fn is_bare_item(alloc: Global, parser: Parser<'_>, value: &BareItem) -> bool {
    has_value(parser.parse_item::<BareItem>(alloc).ok(), value)
        & has_value(value.as_ref_item().try_to_owned(alloc).ok(), value)
        & has_value(read_value(alloc, parser), value)
}

/// The ways of a script and of a serializer.
const WAYS: &[usize] = &[SCRIPT_FOR, ONCE];

/// Returns `true` if a script and a serializer write the item as this text.
fn is_item_written(alloc: Global, version: Version, item: &Item, text: &str) -> Option<bool> {
    let calls = item_calls(alloc, item)?;
    let mut holds = true;
    for &way in WAYS {
        let mut written = half_room(alloc, text)?;
        let is_put = write_item(version, way, item, &calls, &mut written).is_some();
        holds &= is_put && is_written(&written, text);
    }
    Some(holds)
}

/// Reads, copies and writes an item.
fn item_holds(alloc: Global, version: Version, text: &str) -> Option<bool> {
    let parser = Parser::new(text.as_bytes()).with_version(version);
    let item = item_of(alloc, parser)?;
    Some(
        (is_built_item(alloc, parser, &item) == Some(true))
            & is_copied_item(alloc, &item)
            & is_bare_item(alloc, parser, &item.bare_item)
            & (is_item_written(alloc, version, &item, text) == Some(true))
            & is_serialized(alloc, version, &item, text),
    )
}

/// Returns `true` if `ListBuilder` builds the list.
fn is_built_list(alloc: Global, parser: Parser<'_>, list: &List) -> Option<bool> {
    let builder = ListBuilder::new(List::new(alloc), parser.hash_seed());
    let built = parser.parse_list_with_visitor(alloc, builder).ok()?;
    Some(built == *list)
}

/// Returns `true` if a new item or inner list with the contents of the member has no memory for parameters.
fn is_new_bare(alloc: Global, member: ListEntry) -> bool {
    match member {
        ListEntry::Item(item) => Item::new(alloc, item.bare_item).params.capacity() == 0,
        ListEntry::InnerList(list) => InnerList::new(alloc, list.items).params.capacity() == 0,
    }
}

/// Returns `true` if there is an equal member without unused memory, and a new one of its contents has none for parameters.
fn is_copied(alloc: Global, copy: Option<ListEntry>, member: &ListEntry) -> bool {
    match copy {
        Some(copy) => {
            let holds = copy == *member && is_exact_member(&copy);
            holds & is_new_bare(alloc, copy)
        }
        None => false,
    }
}

/// Returns `true` if each member is equal to its copy, which has no unused memory, and to a copy of this.
fn are_copied(alloc: Global, list: &List) -> bool {
    let mut holds = true;
    for member in list.iter() {
        holds &= match member.clone() {
            Ok(copy) => is_copied(alloc, copy.clone().ok(), member)
                & is_copied(alloc, Some(copy), member),
            Err(_) => false,
        };
    }
    holds
}

/// Returns `true` if a script and a serializer write the list as this text.
fn is_list_written(alloc: Global, version: Version, list: &List, text: &str) -> Option<bool> {
    let calls = list_calls(alloc, list)?;
    let mut holds = true;
    for &way in WAYS {
        let mut written = half_room(alloc, text)?;
        let is_put = write_list(version, way, list, &calls[..], &mut written).is_some();
        holds &= is_put && is_written(&written, text);
    }
    Some(holds)
}

/// Reads, copies and writes a list.
fn list_holds(alloc: Global, version: Version, text: &str) -> Option<bool> {
    let parser = Parser::new(text.as_bytes()).with_version(version);
    let list = list_of(alloc, parser)?;
    Some(
        (is_built_list(alloc, parser, &list) == Some(true))
            & are_copied(alloc, &list)
            & (is_list_written(alloc, version, &list, text) == Some(true))
            & is_serialized(alloc, version, &list, text),
    )
}

/// Returns `true` if `DictionaryBuilder` builds the dictionary.
fn is_built_dictionary(alloc: Global, parser: Parser<'_>, dictionary: &Dictionary) -> Option<bool> {
    let builder = DictionaryBuilder::new(sfv::dictionary(alloc));
    let built = parser.parse_dictionary_with_visitor(alloc, builder).ok()?;
    Some(built == *dictionary)
}

/// Inserts a copy of a member without unused memory.
fn insert_copy(copy: &mut Dictionary, key: &Key, member: &ListEntry) -> Option<()> {
    let member = member.clone().ok()?;
    if !is_exact_member(&member) {
        return None;
    }
    match key.clone() {
        Ok(key) => {
            insert_entry(copy, key, member).ok()?;
            Some(())
        }
        Err(_) => None,
    }
}

/// Returns `true` if the dictionary of copies of the members is equal, and has little unused memory.
fn is_copied_dictionary(alloc: Global, dictionary: &Dictionary) -> bool {
    let mut copy = sfv::dictionary(alloc);
    let mut holds = true;
    for (key, member) in dictionary.iter() {
        holds &= insert_copy(&mut copy, key, member).is_some();
    }
    holds && copy == *dictionary && copy.capacity() == map_capacity(copy.len())
}

/// Returns `true` if a script and a serializer write the dictionary as this text.
fn is_dictionary_written(
    alloc: Global,
    version: Version,
    dictionary: &Dictionary,
    text: &str,
) -> Option<bool> {
    let calls = dictionary_calls(alloc, dictionary)?;
    let mut holds = true;
    for &way in WAYS {
        let mut written = half_room(alloc, text)?;
        let is_put = write_dictionary(version, way, dictionary, &calls[..], &mut written).is_some();
        holds &= is_put && is_written(&written, text);
    }
    Some(holds)
}

/// Reads, copies and writes a dictionary.
fn dictionary_holds(alloc: Global, version: Version, text: &str) -> Option<bool> {
    let parser = Parser::new(text.as_bytes()).with_version(version);
    let dictionary = dictionary_of(alloc, parser)?;
    Some(
        (is_built_dictionary(alloc, parser, &dictionary) == Some(true))
            & is_copied_dictionary(alloc, &dictionary)
            & (is_dictionary_written(alloc, version, &dictionary, text) == Some(true))
            & is_serialized(alloc, version, &dictionary, text),
    )
}

/// Fails unless this text of a field is read, copied and written by each call under this version.
pub fn holds_for(alloc: Global, field: &str, version: Version, text: &str) -> Result<(), Fail> {
    let answer = match field {
        "item" => item_holds(alloc, version, text),
        "list" => list_holds(alloc, version, text),
        _ => dictionary_holds(alloc, version, text),
    };
    row(field, version, text, "the same text", answer == Some(true))
}

/// The same under RFC 9651 and, if that has the values, under RFC 8941.
pub fn holds(alloc: Global, field: &str, is_older: bool, text: &str) -> Result<(), Fail> {
    holds_for(alloc, field, Version::Rfc9651, text)?;
    if is_older {
        holds_for(alloc, field, Version::Rfc8941, text)?;
    }
    Ok(())
}

/// Fails unless a field of so many parts is read, copied and written under this version.
fn parts_hold(
    alloc: Global,
    field: &str,
    is_newer: bool,
    parts: (&str, &str, &str, &str),
    count: usize,
) -> Result<(), Fail> {
    let (version, values) = version_of(is_newer);
    let text = field_of(alloc, parts, values, count)?;
    holds_for(alloc, field, version, text.as_str())
}

/// Fails unless fields of this type are read, copied and written: those of up to `NEAR` parts, or those of more.
/// The versions take turns, so both have each number of parts up to 600. No list of more than `NEAR` parts has nine times
/// a power of two.
fn fields_hold(alloc: Global, field: &str, are_many: bool) -> Result<(), Fail> {
    for (row, &(kind, dense, most, parts)) in FIELDS.iter().enumerate() {
        for (place, &count) in numbers(alloc, dense, most)?.iter().enumerate() {
            let is_many = count > NEAR;
            let is_skipped = is_many && field == "list" && count % 9 == 0;
            if kind == field && is_many == are_many && !is_skipped {
                let is_newer = row % 2 == place % 2;
                parts_hold(alloc, field, is_newer, parts, count)?;
            }
        }
    }
    Ok(())
}

#[test]
fn lists_of_each_size_are_read_and_written(rt: HostRuntime) -> Result<(), Fail> {
    fields_hold(rt.alloc(), "list", false)
}

#[test]
fn long_lists_are_read_and_written(rt: HostRuntime) -> Result<(), Fail> {
    fields_hold(rt.alloc(), "list", true)
}

#[test]
fn items_of_each_size_are_read_and_written(rt: HostRuntime) -> Result<(), Fail> {
    fields_hold(rt.alloc(), "item", false)?;
    fields_hold(rt.alloc(), "item", true)
}

#[test]
fn dictionaries_of_each_size_are_read_and_written(rt: HostRuntime) -> Result<(), Fail> {
    fields_hold(rt.alloc(), "dict", false)?;
    fields_hold(rt.alloc(), "dict", true)
}

#[test]
fn many_parameters_are_read_and_written(rt: HostRuntime) -> Result<(), Fail> {
    let alloc = rt.alloc();
    let params = field_of(alloc, ("", ";k#~", "", ""), OLDER, 200_000)?;
    let list = filled(alloc, "1$, (1$)$", params.as_str())?;
    let dictionary = filled(alloc, "a$, b=(1$)$", params.as_str())?;
    holds_for(alloc, "list", Version::Rfc9651, list.as_str())?;
    holds_for(alloc, "dict", Version::Rfc8941, dictionary.as_str())
}

/// Fails unless the fields with this text in the place of each `$` are read, copied and written. More than `FAR` bytes
/// are tried under RFC 9651 only.
fn places_hold(
    alloc: Global,
    places: &[(&str, &str)],
    text: &str,
    is_older: bool,
) -> Result<(), Fail> {
    for &(field, place) in places {
        let whole = filled(alloc, place, text)?;
        holds(alloc, field, is_older && text.len() <= FAR, whole.as_str())?;
    }
    Ok(())
}

/// Returns `true` if a text of so many pieces of this length is tried. Above `FAR` bytes, only powers of two are.
fn is_tried(times: usize, piece: usize) -> bool {
    times.saturating_mul(piece) <= FAR || (piece == 1 && times.count_ones() == 1)
}

#[test]
fn texts_of_each_length_are_read_and_written(rt: HostRuntime) -> Result<(), Fail> {
    let alloc = rt.alloc();
    for &(front, piece, end, is_older) in TEXTS {
        let most = if is_older { MOST_BYTES } else { FAR };
        for &times in numbers(alloc, 1_101, most)?.iter() {
            // There is no empty token.
            if (times > 0 || end.len() > 0) && is_tried(times, piece.len()) {
                let text = repeated(alloc, front, piece, times, end)?;
                let places = if text.len() <= NEAR { SHORT } else { LONG };
                places_hold(alloc, places, text.as_str(), is_older)?;
            }
        }
    }
    Ok(())
}

/// The ends of a byte sequence of this number of bytes after whole groups.
const ENDS: &[&str; 3] = &[":", "aA==:", "aGk=:"];

#[test]
fn byte_sequences_of_each_length_are_read_and_written(rt: HostRuntime) -> Result<(), Fail> {
    let alloc = rt.alloc();
    for &len in numbers(alloc, 1_101, MOST_BYTES)?.iter() {
        if is_tried(len, 1) {
            let text = repeated(alloc, ":", "aGkh", len / 3, ENDS[len % 3])?;
            let places = if text.len() <= NEAR { SHORT } else { LONG };
            places_hold(alloc, places, text.as_str(), true)?;
        }
    }
    Ok(())
}

#[test]
fn keys_of_each_length_are_read_and_written(rt: HostRuntime) -> Result<(), Fail> {
    let alloc = rt.alloc();
    for &len in numbers(alloc, 1_101, MOST_BYTES)?.iter() {
        if len > 0 && is_tried(len, 1) {
            let key = repeated(alloc, "", "a", len, "")?;
            let places = if len <= NEAR { KEYS } else { LONG_KEYS };
            places_hold(alloc, places, key.as_str(), true)?;
        }
    }
    Ok(())
}

#[test]
fn short_keys_are_read_and_written(rt: HostRuntime) -> Result<(), Fail> {
    let alloc = rt.alloc();
    for first in "*abcdefghijklmnopqrstuvwxyz".chars() {
        let mut key = String::new(alloc);
        key.push(first)?;
        places_hold(alloc, KEYS, key.as_str(), true)?;
        for second in "*abcdefghijklmnopqrstuvwxyz0123456789_-.".chars() {
            let key = format!(in alloc; "{first}{second}")?;
            places_hold(alloc, KEYS, key.as_str(), true)?;
        }
    }
    Ok(())
}

// Each number of items with each number of parameters.
#[test]
fn small_inner_lists_are_read_and_written(rt: HostRuntime) -> Result<(), Fail> {
    let alloc = rt.alloc();
    for items in 0..20usize {
        let items = field_of(alloc, ("", "$;b~", " ", ""), OLDER, items)?;
        for count in 0..20usize {
            let params = field_of(alloc, ("", ";k#~", "", ""), OLDER, count)?;
            let list = format!(in alloc; "({items}){params}, 1{params}")?;
            holds(alloc, "list", true, list.as_str())?;
        }
    }
    Ok(())
}
