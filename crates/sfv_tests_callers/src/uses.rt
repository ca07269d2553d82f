//! The proved callers of the library, including the examples of `CALLING.md`.

use crate::common::{has_text, is_text, is_tight, ladder, of_size};
use sfv::script::{ItemCalls, MemberCalls};
use sfv::{
    BareItem, BareItemFromInput, BareItemType, DictSerializer, Dictionary, FieldType,
    GenericBareItem, Integer, Item, KeyRef, List, ListEntry, ListSerializer, ParseError, Parser,
    RefBareItem, SerializeError, TokenRef, Version, find_entry, find_param, integer, key_ref,
    remove_entry, remove_param, token_ref,
};
use sfv_examples::expecting::string;
use sfv_examples::lookups::{has_member, member, param, remove_member, replace_member};
use sfv_examples::reading::{explain, integer_with_default, param_of_member};
use sfv_examples::serializing::{
    abandon_one, performed_and_read, write_bare, write_dictionary, write_empty,
    write_item_of_no_bytes, write_list, write_member, write_named, write_nothing,
};
use sfv_examples::values::{copy_of, copy_of_item, copy_of_read, copy_of_string, item_of_number};
use sfv_examples::versions::{performed_and_read_for, write_both, write_both_for};
use sfv_examples::visiting::{TooMany, count_members, each_key};
use sfv_examples::writing::{write_item, write_parts, write_twice, written_and_read};
use std::alloc::Global;
use std::fmt::Write;
use std::test::Fail;

/// Returns `true` if the list has this line that explains its error, or no line without an error.
fn is_explained(alloc: Global, input: &str, wanted: &str) -> bool {
    match explain(alloc, input.as_bytes()) {
        Ok(Some(line)) => line.as_str() == wanted,
        Ok(None) => wanted.is_empty(),
        Err(_) => false,
    }
}

#[test]
fn lists_are_checked(rt: HostRuntime) {
    let rows = &[
        ("a, (b c);d", ""),
        ("a, (b c;d", "         ^ unterminated inner list"),
        ("a,,b", "  ^ expected start of bare item"),
    ];
    for &(input, line) in rows {
        assert!(rt; is_explained(rt.alloc(), input, line), "{input}");
    }
}

#[test]
fn integers_have_a_default(rt: HostRuntime) {
    let mut holds = true;
    for &default in &[
        Integer::MIN,
        integer(-1),
        Integer::ZERO,
        integer(3),
        Integer::MAX,
    ] {
        for &input in &["5.0", "a;b", "\"\"", "::", "?0", "@5", "%\"\""] {
            let number = integer_with_default(rt.alloc(), input.as_bytes(), default);
            holds &= number.ok() == Some(default);
        }
        holds &= integer_with_default(rt.alloc(), b"5;a", default).ok() == Some(integer(5));
        holds &= integer_with_default(rt.alloc(), b"5,", default).is_err();
    }
    assert!(rt; holds);
}

/// Returns `true` if the last parameter `x` of the last such member, if there is one, has this text.
fn has_param(alloc: Global, input: &[u8], member: &str, wanted: Option<&str>) -> bool {
    let Ok(member) = KeyRef::from_str(member) else {
        return false;
    };
    match param_of_member(alloc, input, member, key_ref("x")) {
        Ok(Some(value)) => {
            let text = Item::new(alloc, value).serialize(alloc);
            text.is_ok_and(|text| Some(text.as_str()) == wanted)
        }
        Ok(None) => wanted.is_none(),
        Err(_) => false,
    }
}

#[test]
fn parameters_are_looked_up(rt: HostRuntime) -> Result<(), Fail> {
    let alloc = rt.alloc();
    let mut holds = true;
    for &value in VALUES {
        let text = format!(in alloc; "a=1;x=1, b=(1 2);x=2;x={value}, a=2;x={value};y, d;z")?;
        let input = text.as_str().as_bytes();
        holds &= has_param(alloc, input, "a", Some(value))
            & has_param(alloc, input, "b", Some(value))
            & has_param(alloc, input, "c", None)
            & has_param(alloc, input, "d", None);
    }
    assert!(rt; holds);
    Ok(())
}

/// Returns a dictionary with the members 0, 1, .. under keys that begin with `name`. Each has a parameter of its key.
fn numbered(alloc: Global, name: &str, count: usize) -> Result<Option<Dictionary>, Fail> {
    let mut text = String::new(alloc);
    for number in 0..count {
        let comma = if number > 0 { ", " } else { "" };
        write!(
            text,
            "{comma}{name}{number}={number};{name}{number}={number}"
        )?;
    }
    Ok(
        Parser::new(text.as_str().as_bytes())
            .parse::<Dictionary>(alloc)
            .ok(),
    )
}

fn has_number(item: &BareItem, number: usize) -> bool {
    item.as_integer() == Integer::try_from(number).ok()
}

/// Returns `true` if a member and its parameter have this number, by the map's methods and by `find_entry`.
fn is_found(members: &Dictionary, key: KeyRef<'_>, number: usize) -> bool {
    let (Some(ListEntry::Item(by_map)), Some(ListEntry::Item(item))) = (
        member(members, key),
        find_entry(members, key),
    ) else {
        return false;
    };
    let (Some(by_map_param), Some(param)) = (
        param(&by_map.params, key),
        find_param(&item.params, key),
    ) else {
        return false;
    };
    has_member(members, key)
        & has_number(&by_map.bare_item, number)
        & has_number(&item.bare_item, number)
        & has_number(by_map_param, number)
        & has_number(param, number)
}

/// Returns `true` if there is no member of a key.
fn is_missed(members: &Dictionary, key: KeyRef<'_>) -> bool {
    !has_member(members, key) & member(members, key).is_none() & find_entry(members, key).is_none()
}

/// Returns `true` if each of `count` members is found, and no other one.
fn are_found(alloc: Global, name: &str, count: usize) -> Result<bool, Fail> {
    let Some(members) = numbered(alloc, name, count)? else {
        return Ok(false);
    };
    let mut found = members.len() == count;
    for number in 0..count {
        let text = format!(in alloc; "{name}{number}")?;
        found &= match KeyRef::from_str(text.as_str()) {
            Ok(key) => is_found(&members, key, number),
            Err(_) => false,
        };
    }
    let text = format!(in alloc; "{name}{count}")?;
    let Ok(key) = KeyRef::from_str(text.as_str()) else {
        return Ok(false);
    };
    Ok(found & is_missed(&members, key) & is_missed(&members, key_ref("k")))
}

// Up to 6 short keys and up to 16 long ones are compared one by one, more are hashed.
#[test]
fn members_are_found_by_borrowed_keys(rt: HostRuntime) -> Result<(), Fail> {
    let alloc = rt.alloc();
    let mut found = true;
    for count in [1usize, 5, 6, 7, 8, 15, 16, 17, 18, 1_000] {
        found &= are_found(alloc, "k", count)?;
        found &= are_found(alloc, "key-of-a-member-", count)?;
    }
    assert!(rt; found);
    Ok(())
}

/// Returns the item 2 as a member.
pub fn two(alloc: Global) -> ListEntry {
    ListEntry::from(Item::new(alloc, GenericBareItem::Integer(integer(2))))
}

/// Returns `true` if a member is replaced in its place, another one removed, and an absent one neither. The dictionary
/// gets no more capacity.
fn is_changed(alloc: Global, count: usize) -> Result<bool, Fail> {
    let text = of_size(alloc, ("a=1, b=1", ", k#", "", ""), count)?;
    let mut members = Parser::new(text.as_str().as_bytes()).parse::<Dictionary>(alloc)?;
    let capacity = members.capacity();
    let is_replaced = replace_member(&mut members, key_ref("b"), two(alloc))
        & !replace_member(&mut members, key_ref("d"), two(alloc));
    let is_removed = remove_member(&mut members, key_ref("a")).is_some()
        & remove_member(&mut members, key_ref("d")).is_none();
    let is_kept = members.capacity() <= capacity;
    let wanted = of_size(alloc, ("b=2", ", k#", "", ""), count)?;
    Ok(is_replaced & is_removed & is_kept & has_text(members.serialize(alloc)?, wanted.as_str()))
}

#[test]
fn members_are_changed_by_borrowed_keys(rt: HostRuntime) -> Result<(), Fail> {
    let mut holds = true;
    for &count in ladder(rt.alloc(), 300, 1 << 14)?.iter() {
        holds &= is_changed(rt.alloc(), count)?;
    }
    assert!(rt; holds);
    Ok(())
}

/// Returns `true` if a member is removed, an absent one is not, and the others keep their order.
fn is_entry_removed(alloc: Global, count: usize) -> Result<bool, Fail> {
    let text = of_size(alloc, ("b=2, a=1", ", k#", "", ""), count)?;
    let mut members = Parser::new(text.as_str().as_bytes()).parse::<Dictionary>(alloc)?;
    let is_removed = remove_entry(&mut members, key_ref("a")).is_some()
        & remove_entry(&mut members, key_ref("d")).is_none();
    let wanted = of_size(alloc, ("b=2", ", k#", "", ""), count)?;
    Ok(is_removed & has_text(members.serialize(alloc)?, wanted.as_str()))
}

/// Returns `true` if a parameter is removed, an absent one is not, and the others keep their order.
fn is_param_removed(alloc: Global, count: usize) -> Result<bool, Fail> {
    let text = of_size(alloc, ("1;b=2;a", ";k#", "", ""), count)?;
    let mut item = Parser::new(text.as_str().as_bytes()).parse::<Item>(alloc)?;
    let is_removed = remove_param(&mut item.params, key_ref("a")).is_some()
        & remove_param(&mut item.params, key_ref("d")).is_none();
    let wanted = of_size(alloc, ("1;b=2", ";k#", "", ""), count)?;
    Ok(is_removed & is_text(item.serialize(alloc)?.as_str(), wanted.as_str()))
}

#[test]
fn members_and_parameters_are_removed_at_many_sizes(rt: HostRuntime) -> Result<(), Fail> {
    for &count in ladder(rt.alloc(), 40, 1 << 14)?.iter() {
        assert!(rt; is_entry_removed(rt.alloc(), count)?, "{count}");
        assert!(rt; is_param_removed(rt.alloc(), count)?, "{count}");
    }
    Ok(())
}

#[test]
fn members_are_visited(rt: HostRuntime) -> Result<(), Fail> {
    let (alloc, mut holds) = (rt.alloc(), true);
    for &length in ladder(alloc, 2_200, 1 << 21)?.iter() {
        let text = of_size(alloc, ("a, a=1, a", "b", "", ""), length)?;
        let mut visited = 0usize;
        let visit = |key: &str| visited = visited.saturating_add(key.len());
        holds &= each_key(alloc, text.as_str().as_bytes(), visit).is_ok();
        holds &= visited.saturating_add(6) == text.len();
    }
    assert!(rt; holds);
    Ok(())
}

/// Returns `true` if `each_key` passes these keys, in their order.
fn are_passed(alloc: Global, input: &str, keys: &[&str]) -> bool {
    let (mut place, mut holds) = (0usize, true);
    let visit = |key: &str| {
        holds &= keys.get(place) == Some(&key);
        place = place.saturating_add(1);
    };
    let is_visited = each_key(alloc, input.as_bytes(), visit).is_ok();
    is_visited & holds & (place == keys.len())
}

#[test]
fn keys_are_passed_in_their_order(rt: HostRuntime) {
    let rows: &[(&str, &[&str])] = &[
        ("", &[]),
        ("*", &["*"]),
        ("b=(1 2;y);z", &["b"]),
        (
            "a;x, *=1;*, a-b=:aGk=:, z_9.*=\"\\\\\", a=?0, *a",
            &["a", "*", "a-b", "z_9.*", "a", "*a"],
        ),
    ];
    for &(input, keys) in rows {
        assert!(rt; are_passed(rt.alloc(), input, keys), "{input}");
    }
}

/// Returns `true` if so many members are counted up to this limit, or if there are too many.
fn is_counted(alloc: Global, text: &str, count: u64, limit: u64) -> bool {
    match count_members(alloc, text.as_bytes(), limit) {
        Ok(found) => found == count && count <= limit,
        Err(ParseError::Visitor(TooMany)) => limit < count,
        Err(ParseError::Syntax(_)) => false,
    }
}

#[test]
fn members_are_counted(rt: HostRuntime) -> Result<(), Fail> {
    let mut holds = true;
    for count in 0..300usize {
        let text = of_size(rt.alloc(), ("", "a", ", ", ""), count)?;
        let count = count as u64;
        let near = [count.saturating_sub(1), count, count.saturating_add(1)];
        for limit in [0, 1, count / 2, u64::MAX].into_iter().chain(near) {
            holds &= is_counted(rt.alloc(), text.as_str(), count, limit);
        }
    }
    assert!(rt; holds);
    Ok(())
}

fn word<'a>() -> RefBareItem<'a> {
    GenericBareItem::Token(token_ref("w"))
}

#[test]
fn lists_that_are_known_are_written(rt: HostRuntime) {
    let mut text = String::new(rt.alloc());
    let list = write_list(&mut text);
    let nothing = write_nothing(&mut text);
    assert!(rt; list.unwrap_or(false) & !nothing.unwrap_or(true));
    assert!(rt; is_text(&text, "1;a;a=2, ();b=?0"));
}

#[test]
fn dictionaries_and_items_that_are_known_are_written(rt: HostRuntime) {
    let mut text = String::new(rt.alloc());
    let dictionary = write_dictionary(&mut text).unwrap_or(false);
    let item = write_item_of_no_bytes(&mut text).is_ok();
    let wanted =
        "member1=11;foo, member2=(abc;abc_param=?0 def);bar=\"val\", member3=12.346?1;x=::";
    let is_kept = is_tight(text.capacity(), text.len());
    assert!(rt; dictionary & item & is_kept & is_text(&text, wanted));
}

/// Returns the calls that write an item without parameters.
fn calls<'a>(alloc: Global, value: RefBareItem<'a>) -> MemberCalls<'a> {
    MemberCalls::Item(ItemCalls {
        value,
        params: Vec::new(alloc),
    })
}

/// Returns `true` if the result is a list with this many members.
fn has_length<E: Drop>(list: Result<List, E>, length: usize) -> bool {
    list.is_ok_and(|list| list.len() == length)
}

/// Values of each kind as canonical texts, with the empty texts and the ends of numbers.
#[rattlefmt::skip]
const VALUES: &[&str] = &[
    "0", "-1", "999999999999999", "-999999999999999", "0.0", "-999999999999.999", "\"\"", "\"a\\\"\"", "q",
    "*", "::", ":AAEC:", "?0", "?1", "@0", "@-999999999999999", "%\"\"", "%\"%c3%bc\"",
];

/// Returns the kind of a value that RFC 8941 lacks.
fn lacking(value: RefBareItem<'_>) -> Option<BareItemType> {
    match value {
        GenericBareItem::Date(_) => Some(BareItemType::Date),
        GenericBareItem::DisplayString(_) => Some(BareItemType::DisplayString),
        _ => None,
    }
}

/// Returns `true` if each call writes both values for RFC 9651.
fn are_written(
    alloc: Global,
    first: RefBareItem<'_>,
    second: RefBareItem<'_>,
    key: KeyRef<'_>,
) -> bool {
    let mut text = String::new(alloc);
    let mut list = ListSerializer::with_buffer(&mut text);
    let in_list = write_member(&mut list, first, key, second, second).is_ok()
        & write_empty(&mut list, key, first).is_ok()
        & abandon_one(&mut list, first).is_ok()
        & write_both(&mut list, first, second).is_ok();
    let mut dictionary = DictSerializer::with_buffer(&mut text);
    let in_dictionary = write_named(&mut dictionary, key, first, key, second).is_ok()
        & write_bare(&mut dictionary, key, first).is_ok();
    in_list
        & in_dictionary
        & write_item(&mut text, first, key, second).is_ok()
        & write_twice(&mut text, first, key).is_ok()
        & is_tight(text.capacity(), text.len())
        & written_and_read(alloc, first, key, second).is_ok()
}

/// Returns `true` if each call that serializes for RFC 8941 writes both values, or fails at the first one that it lacks.
fn are_checked(alloc: Global, first: RefBareItem<'_>, second: RefBareItem<'_>) -> Option<bool> {
    let wanted = lacking(first)
        .or(lacking(second))
        .map(SerializeError::Unsupported);
    let mut text = String::from_str(alloc, "X: ").ok()?;
    let error = write_both_for(&mut text, Version::Rfc8941, first, second).err();
    let both = [calls(alloc, first), calls(alloc, second)];
    let mut other = String::new(alloc);
    let mut list = ListSerializer::with_buffer_for(&mut other, Version::Rfc8941);
    let abandoned = abandon_one(&mut list, second).err();
    Some(
        error == wanted
            && text.as_str().starts_with("X: ")
            && abandoned == lacking(second).map(SerializeError::Unsupported)
            && performed_and_read_for(alloc, Version::Rfc8941, &both).err() == wanted
            && has_length(performed_and_read_for(alloc, Version::Rfc9651, &both), 2)
            && has_length(performed_and_read(alloc, &both), 2),
    )
}

/// Returns `true` if a copy is equal, and has no unused memory for bytes.
fn is_copied(read: &BareItemFromInput<'_>) -> Option<bool> {
    if let GenericBareItem::String(text) = read {
        return Some(copy_of_string(text).ok()? == *text);
    }
    let copy = copy_of_read(read).ok()?;
    let is_exact = match &copy {
        GenericBareItem::ByteSequence(bytes) => bytes.capacity() == bytes.len(),
        _ => true,
    };
    Some(is_exact & (copy == *read))
}

/// Returns `true` if each call writes these values, and copies of the first one are equal to it.
pub fn hold(alloc: Global, first: &str, second: &str, key: KeyRef<'_>) -> Option<bool> {
    let (first, second) = (
        Parser::new(first.as_bytes()),
        Parser::new(second.as_bytes()),
    );
    let item = first.parse::<Item>(alloc).ok()?;
    let read = first.parse_item::<BareItemFromInput<'_>>(alloc).ok()?;
    let other = second.parse_item::<BareItem>(alloc).ok()?;
    let copy = copy_of_item(&item).ok()?;
    let is_exact = copy.params.capacity() == copy.params.len();
    let (value, second) = (item.bare_item.as_ref_item(), other.as_ref_item());
    Some(
        are_written(alloc, value, second, key)
            & are_checked(alloc, value, second)?
            & (copy == item)
            & is_exact
            & (copy_of(&item.bare_item).ok()? == item.bare_item)
            & is_copied(&read)?
            & write_parts(&mut String::new(alloc), &item).is_ok(),
    )
}

#[test]
fn values_of_each_kind_are_written(rt: HostRuntime) -> Result<(), Fail> {
    let mut holds = true;
    for letter in b'a'..=b'z' {
        for &first in VALUES {
            for &second in VALUES {
                let key = [letter];
                let held = hold(rt.alloc(), first, second, KeyRef::from_bytes(&key)?);
                holds &= held == Some(true);
            }
        }
    }
    assert!(rt; holds);
    Ok(())
}

#[test]
fn numbers_are_converted(rt: HostRuntime) {
    let most = Integer::MAX.to_i64();
    let mut holds = true;
    for distance in -300..=300i64 {
        for &number in &[
            distance,
            most.saturating_add(distance),
            distance.saturating_sub(most),
            i64::MIN,
            i64::MAX,
        ] {
            let error = Integer::try_from(number).err();
            holds &= item_of_number(number).err() == error;
        }
    }
    assert!(rt; holds);
}

/// Returns `true` if each call performs the calls, and reads so many members.
fn are_performed(alloc: Global, calls: &[MemberCalls<'_>], count: usize) -> bool {
    has_length(performed_and_read(alloc, calls), count)
        & has_length(
            performed_and_read_for(alloc, Version::Rfc8941, calls),
            count,
        )
        & has_length(
            performed_and_read_for(alloc, Version::Rfc9651, calls),
            count,
        )
}

/// Returns `true` if so many calls that write a word are performed.
pub fn are_repeated(alloc: Global, count: usize) -> bool {
    let (mut all, mut holds) = (Vec::new(alloc), true);
    for _ in 0..count {
        holds &= all.push(calls(alloc, word())).is_ok();
    }
    holds && are_performed(alloc, &all[..], count)
}

#[test]
fn scripts_of_every_number_are_performed(rt: HostRuntime) -> Result<(), Fail> {
    let (alloc, mut holds) = (rt.alloc(), true);
    for &count in ladder(alloc, 300, 1 << 14)?.iter() {
        holds &= are_repeated(alloc, count);
    }
    assert!(rt; holds);
    Ok(())
}

/// Returns `true` if the script of an item with this bare item is performed.
fn is_performed(alloc: Global, bare_item: RefBareItem<'_>) -> bool {
    let mut all = Vec::new(alloc);
    all.push(calls(alloc, bare_item)).is_ok() && are_performed(alloc, &all[..], 1)
}

/// Returns `true` if a string and a token of this text are written, also with a key of this text, and copies of strings
/// are equal to them.
pub fn is_written(alloc: Global, text: &str) -> Option<bool> {
    let quoted = format!(in alloc; "\"\\\"{text}\"").ok()?;
    let escaped = string(alloc, quoted.as_str().as_bytes()).ok()?;
    let quoted = format!(in alloc; "\"{text}\"").ok()?;
    let plain = string(alloc, quoted.as_str().as_bytes()).ok()?;
    let first = GenericBareItem::Token(TokenRef::from_str(text).ok()?);
    let second = GenericBareItem::String(escaped.as_string_ref());
    Some(
        is_performed(alloc, first)
            & is_performed(alloc, second)
            & are_written(alloc, first, second, KeyRef::from_str(text).ok()?)
            & (copy_of_string(&escaped).ok()? == escaped)
            & (copy_of_string(&plain).ok()? == plain),
    )
}

#[test]
fn texts_of_every_length_are_written(rt: HostRuntime) -> Result<(), Fail> {
    let (alloc, mut holds) = (rt.alloc(), true);
    for &length in ladder(alloc, 2_200, 1 << 21)?.iter() {
        let mut text = of_size(alloc, ("a", "b", "", ""), length)?;
        holds &= is_written(alloc, text.as_str()) == Some(true);
        // The calls write after a text of this length.
        holds &= write_list(&mut text).is_ok()
            & write_nothing(&mut text).is_ok()
            & write_dictionary(&mut text).is_ok()
            & write_item_of_no_bytes(&mut text).is_ok()
            & write_twice(&mut text, word(), key_ref("a")).is_ok()
            & is_tight(text.capacity(), text.len());
    }
    assert!(rt; holds);
    Ok(())
}
