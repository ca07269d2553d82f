//! The capacity of parsed and built lists, inner lists, dictionaries and parameters.

use crate::common::{
    NEAR, counted, dictionary_of, doubled, field_of, item_of, list_of, map_capacity, numbers,
    repeated, version_of,
};
use sfv::{Dictionary, Item, List, ListEntry, Parameters, Parser, Version};
use sfv_random::rows::row;
use sfv_random::texts::filled;
use std::alloc::Global;
use std::fmt::Write;
use std::test::Fail;

/// Returns `true` if a vector has the capacity of so many elements that were appended one by one.
fn is_vector_fit(capacity: usize, len: usize) -> bool {
    capacity == if len == 0 { 0 } else { doubled(4, len) }
}

/// Returns `true` if parameters have no unused memory after 4,000 other members and items, and keep it before.
fn is_fit(params: &Parameters, place: usize) -> bool {
    if place >= 4_000 {
        return params.capacity() == params.len();
    }
    params.capacity() == map_capacity(params.len())
}

// `count` members come before the inner list.
fn are_items_fit(items: &Vec<Item>, count: usize) -> bool {
    let mut holds = is_vector_fit(items.capacity(), items.len());
    for (place, item) in items.iter().enumerate() {
        holds &= is_fit(&item.params, count.saturating_add(place));
    }
    holds
}

fn is_member_fit(member: &ListEntry, place: usize) -> bool {
    match member {
        ListEntry::Item(item) => is_fit(&item.params, place),
        ListEntry::InnerList(list) => is_fit(&list.params, place)
            && are_items_fit(&list.items, place),
    }
}

fn is_list_fit(list: &List, count: usize) -> bool {
    let mut holds = list.len() == count && is_vector_fit(list.capacity(), count);
    for (place, member) in list.iter().enumerate() {
        holds &= is_member_fit(member, place);
    }
    holds
}

// If each member is there twice, `before` members come before the last one of each key.
fn is_dictionary_fit(dictionary: &Dictionary, count: usize, before: usize) -> bool {
    let mut holds = dictionary.len() == count && dictionary.capacity() == map_capacity(count);
    for (place, (_, member)) in dictionary.iter().enumerate() {
        holds &= is_member_fit(member, place.max(before));
    }
    holds
}

/// Returns `true` if `parse` and `parse_item` make an item with this many parameters, with the right capacity.
fn is_item_fit(alloc: Global, parser: Parser<'_>, count: usize) -> Option<bool> {
    let built = parser.parse_item::<Item>(alloc).ok()?;
    let parsed = item_of(alloc, parser)?;
    Some(is_fit(&built.params, 0) && is_fit(&parsed.params, 0) && parsed.params.len() == count)
}

/// Returns `true` if `parse` and `parse_list` make a list of this many members, with the right capacities.
fn are_lists_fit(alloc: Global, parser: Parser<'_>, count: usize) -> Option<bool> {
    let built = parser.parse_list::<List>(alloc).ok()?;
    let parsed = list_of(alloc, parser)?;
    Some(is_list_fit(&built, count) && is_list_fit(&parsed, count))
}

/// The same for dictionaries. If each member is there twice, `before` is the number of members.
fn are_dictionaries_fit(
    alloc: Global,
    parser: Parser<'_>,
    count: usize,
    before: usize,
) -> Option<bool> {
    let built = parser.parse_dictionary::<Dictionary>(alloc).ok()?;
    let parsed = dictionary_of(alloc, parser)?;
    Some(is_dictionary_fit(&built, count, before) && is_dictionary_fit(&parsed, count, before))
}

/// Fails unless each call makes a field of this many members or parameters, with the right capacities.
pub fn fits(
    alloc: Global,
    field: &str,
    version: Version,
    input: &str,
    (count, before): (usize, usize),
) -> Result<(), Fail> {
    let parser = Parser::new(input.as_bytes()).with_version(version);
    let answer = match field {
        "item" => is_item_fit(alloc, parser, count),
        "list" => are_lists_fit(alloc, parser, count),
        _ => are_dictionaries_fit(alloc, parser, count, before),
    };
    row(field, version, input, count, answer == Some(true))
}

/// Fields of numbered parts: the type, the arguments `dense` and `most` of `numbers`, and the arguments of `field_of`.
const FIELDS: &[(&str, usize, usize, (&str, &str, &str, &str))] = &[
    ("list", 601, 147_456, ("", "$", ", ", "")),
    ("list", 601, 147_456, ("", "$;b~", ", ", "")),
    ("list", 0, NEAR, ("", "$;b~;c~;b~", ", ", "")),
    ("list", 0, NEAR, ("", "($;b~ $;b;c~ $);b~", ", ", "")),
    ("list", 601, 147_456, ("(", "$", " ", ")")),
    ("list", 601, 147_456, ("(", "$;b~", " ", ");b=1;c;b=2")),
    ("dict", 601, 147_456, ("", "k#~", ", ", "")),
    ("dict", 601, 147_456, ("", "k#~;b~", ", ", "")),
    ("dict", 0, NEAR, ("", "k#=($;b~ $;b;c~ $);c;b~;c", ", ", "")),
    ("dict", 0, NEAR, ("k=(", "$;b~", " ", ");b=1;c")),
    ("item", 601, 147_456, ("a", ";k#~", "", "")),
    ("item", 601, NEAR, ("a", ";k#", "", "")),
    ("item", 0, NEAR, ("1", ";k#~", "", "")),
    ("item", 0, NEAR, ("\"\\\\\"", ";k#~", "", "")),
    ("item", 0, NEAR, ("?1", ";k#~", "", "")),
    ("item", 0, NEAR, (":aGk=:", ";k#~", "", "")),
    ("item", 0, NEAR, ("1.5", ";k#~", "", "")),
    ("list", 0, 50_000, ("a, ?1, (", "$;b~", " ", ")")),
    ("list", 0, 50_000, ("", "(a;b~);b~", ", ", "")),
    ("dict", 0, 50_000, ("a, b=(", "$;b~", " ", ");b")),
    ("dict", 0, 50_000, ("", "k#=$;b~;c;d", ", ", "")),
    ("dict", 0, NEAR, ("", "k#=()", ", ", "")),
    ("dict", 0, 50_000, ("", "k#=(a;b~);b~", ", ", "")),
];

/// Fails unless a field of so many parts has the right capacities under this version.
fn parts_fit(
    alloc: Global,
    field: &str,
    is_newer: bool,
    parts: (&str, &str, &str, &str),
    count: usize,
) -> Result<(), Fail> {
    let (version, values) = version_of(is_newer);
    let text = field_of(alloc, parts, values, count)?;
    let wanted = if parts.0.ends_with("(") {
        parts.0.split(',').count()
    } else {
        count
    };
    fits(alloc, field, version, text.as_str(), (wanted, 0))
}

/// Fails unless fields of this type have the right capacities. The versions take turns, so both have each number of
/// parts up to 600.
fn all_fit(alloc: Global, field: &str) -> Result<(), Fail> {
    for (row, &(kind, dense, most, parts)) in FIELDS.iter().enumerate() {
        for (place, &count) in numbers(alloc, dense, most)?.iter().enumerate() {
            if kind == field {
                let is_newer = row % 2 == place % 2;
                parts_fit(alloc, field, is_newer, parts, count)?;
            }
        }
    }
    Ok(())
}

#[test]
fn lists_have_little_unused_memory(rt: HostRuntime) -> Result<(), Fail> {
    all_fit(rt.alloc(), "list")
}

#[test]
fn dictionaries_have_little_unused_memory(rt: HostRuntime) -> Result<(), Fail> {
    all_fit(rt.alloc(), "dict")
}

#[test]
fn items_have_little_unused_memory(rt: HostRuntime) -> Result<(), Fail> {
    all_fit(rt.alloc(), "item")
}

/// Fields with numbered parts in the place of each `$`: the type, the field, a part, the separator, the most parts, and
/// the number of members if it is not the number of parts.
const TWICE: &[(&str, &str, &str, &str, usize, usize)] = &[
    ("dict", "$, $", "k#~;b~", ", ", 20_000, 0),
    ("dict", "$, $", "k#=($;b~ $);b;c", ", ", NEAR, 0),
    ("item", "a;$;$", "k#~", ";", 20_000, 0),
    ("list", "a;$;$, (a;$;$);$;$", "k#~", ";", NEAR, 2),
];

#[test]
fn repeated_keys_need_no_memory(rt: HostRuntime) -> Result<(), Fail> {
    let alloc = rt.alloc();
    for &(field, place, part, separator, most, members) in TWICE {
        for (turn, &count) in numbers(alloc, 0, most)?.iter().enumerate() {
            if count > 0 {
                let (version, values) = version_of(turn % 2 == 0);
                let parts = field_of(alloc, ("", part, separator, ""), values, count)?;
                let text = filled(alloc, place, parts.as_str())?;
                let wanted = if members > 0 { members } else { count };
                fits(alloc, field, version, text.as_str(), (wanted, count))?;
            }
        }
    }
    Ok(())
}

/// Returns a field of `before` parts and further ones with 0 to 300 parameters: a list, an inner list or a dictionary.
fn with_params(
    alloc: Global,
    kind: &str,
    values: &[&str; 16],
    before: usize,
) -> Result<String, Fail> {
    let mut text = match kind {
        "list" => repeated(alloc, "a", ", a", before, "")?,
        "inner" => repeated(alloc, "(a", " a", before, "")?,
        _ => counted(alloc, "", "k", ", ", "", before)?,
    };
    for number in 0..301usize {
        let params = field_of(alloc, ("", ";p#~", "", ""), values, number)?;
        match kind {
            "list" => write!(text, ", a{params}, (a{params} b){params}, (){params}")?,
            "inner" => write!(text, " a{params}")?,
            _ => write!(
                text,
                ", l{number}{params}, m{number}=(a{params} b c){params}"
            )?,
        }
    }
    if kind == "inner" {
        text.push(')')?;
    }
    Ok(text)
}

// Parameters of each number, before and after the 4,000th member.
#[test]
fn parameters_have_little_unused_memory(rt: HostRuntime) -> Result<(), Fail> {
    let alloc = rt.alloc();
    for &before in &[1, 4_000] {
        for &is_newer in &[true, false] {
            let (version, values) = version_of(is_newer);
            let text = with_params(alloc, "list", values, before - 1)?;
            fits(alloc, "list", version, text.as_str(), (before + 3 * 301, 0))?;
            let text = with_params(alloc, "inner", values, before - 1)?;
            fits(alloc, "list", version, text.as_str(), (1, 0))?;
            let text = with_params(alloc, "dict", values, before)?;
            fits(alloc, "dict", version, text.as_str(), (before + 2 * 301, 0))?;
        }
    }
    Ok(())
}

#[test]
fn empty_fields_have_no_memory(rt: HostRuntime) -> Result<(), Fail> {
    fits(rt.alloc(), "list", Version::Rfc9651, " ", (0, 0))?;
    fits(rt.alloc(), "dict", Version::Rfc9651, " ", (0, 0))
}

/// Returns a field with so many members, and then members and items with many parameters.
fn with_many(alloc: Global, field: &str, before: usize, number: usize) -> Result<String, Fail> {
    let (_, values) = version_of(false);
    let params = field_of(alloc, ("", ";p#~", "", ""), values, number)?;
    if field == "list" {
        let mut text = repeated(alloc, "a", ", a", before.saturating_sub(1), "")?;
        write!(text, ", a{params}, (a{params} b){params}")?;
        return Ok(text);
    }
    let mut text = counted(alloc, "", "k", ", ", "", before)?;
    write!(text, ", l{params}, m=a{params}, n=(a{params} b){params}")?;
    Ok(text)
}

#[test]
fn many_parameters_have_little_unused_memory(rt: HostRuntime) -> Result<(), Fail> {
    let alloc = rt.alloc();
    for &before in &[1, 100, 4_000, 7_000] {
        for &number in numbers(alloc, 0, NEAR)?.iter() {
            let list = with_many(alloc, "list", before, number)?;
            let wanted = (before.saturating_add(2), 0);
            fits(alloc, "list", Version::Rfc8941, list.as_str(), wanted)?;
            let dictionary = with_many(alloc, "dict", before, number)?;
            let wanted = (before.saturating_add(3), 0);
            fits(alloc, "dict", Version::Rfc8941, dictionary.as_str(), wanted)?;
        }
    }
    Ok(())
}
