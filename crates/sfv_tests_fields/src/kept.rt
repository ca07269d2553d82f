//! The capacity of written texts. The module `owned` has the texts of bare items and keys, and the module `capacity` has
//! lists, dictionaries and parameters.

use crate::common::{
    NEAR, counted, dictionary_of, doubled, is_grown, item_of, list_of, numbers, repeated,
};
use crate::sizes::{FAR, TEXTS};
use crate::ways::{
    EntryCalls, ONCE, SCRIPT, SINGLE, TWICE, WHOLE, dictionary_calls, item_calls, list_calls,
    put_at_once, put_entry, put_member, write_dictionary, write_item, write_list,
};
use sfv::script::{ItemCalls, MemberCalls, run_dict_for, run_list_for};
use sfv::{DictSerializer, Dictionary, FieldType, Item, List, ListSerializer, Parser, Version};
use sfv_random::rows::row;
use sfv_random::texts::filled;
use sfv_writer::output::{serialize_separator, truncate_to};
use std::alloc::{AllocError, Global};
use std::test::Fail;

/// Returns the versions that have the values of the input.
pub fn versions_of(input: &str) -> &'static [Version] {
    let bytes = input.as_bytes();
    if bytes.contains(&b'@') || bytes.contains(&b'%') {
        return &[Version::Rfc9651];
    }
    &[Version::Rfc8941, Version::Rfc9651]
}

/// Returns the capacity of the text of the field, if it is the same for `serialize` and for `serialize_for`.
fn capacity_of<T: FieldType>(alloc: Global, version: Version, input: &str) -> Option<usize> {
    let parser = Parser::new(input.as_bytes()).with_version(version);
    let field = parser.parse::<T>(alloc).ok()?;
    let text: Option<String> = field.serialize(alloc).ok()?.into();
    let capacity = text?.capacity();
    let text: Option<String> = field.serialize_for(alloc, version).ok()?.into();
    if text?.capacity() == capacity {
        Some(capacity)
    } else {
        None
    }
}

/// Fails unless the text of the item, list or dictionary of the input has this capacity.
fn has_capacity(alloc: Global, field: &str, input: &str, wanted: usize) -> Result<(), Fail> {
    for &version in versions_of(input) {
        let capacity = match field {
            "item" => capacity_of::<Item>(alloc, version, input),
            "list" => capacity_of::<List>(alloc, version, input),
            _ => capacity_of::<Dictionary>(alloc, version, input),
        };
        row(field, version, input, wanted, capacity == Some(wanted))?;
    }
    Ok(())
}

/// Fields of numbered parts of few bytes: the type, a text before the parts, a text before each number, the separator,
/// and the first capacity without a part.
const PARTS: &[(&str, &str, &str, &str, usize)] = &[
    ("item", "1;", "k", ";", 32),
    ("list", "", "a", ", ", 64),
    ("dict", "", "k", ", ", 64),
];

// A text that is full doubles its capacity.
#[test]
fn a_text_requests_eight_bytes_for_each_of_a_thousand_parts(rt: HostRuntime) -> Result<(), Fail> {
    let alloc = rt.alloc();
    has_capacity(alloc, "item", "1", 32)?;
    for &(field, begin, front, separator, least) in PARTS {
        for &count in numbers(alloc, 601, 100_000)?.iter() {
            if count > 0 {
                let text = counted(alloc, begin, front, separator, "", count)?;
                let first = least.saturating_add(8 * count.min(1_000));
                has_capacity(alloc, field, text.as_str(), doubled(first, text.len()))?;
            }
        }
    }
    Ok(())
}

/// Fields of repeated pieces: the type, the first capacity, a text before the pieces, a piece, a text after them, `tail`: how
/// many bytes are appended after the pieces, and `extra`: how many bytes of an escape the value lacks.
const LENGTHS: &[(&str, usize, &str, &str, &str, usize, usize)] = &[
    ("item", 32, "", "b", "", 0, 0),
    ("item", 32, "\"", "a", "\"", 0, 0),
    ("item", 32, "\"", "\\\\", "\"", 0, 1),
    ("item", 32, ":", "aGkh", ":", 0, 0),
    ("item", 32, ":", "aGkh", "aA==:", 0, 0),
    ("item", 32, ":", "aGkh", "aGk=:", 0, 0),
    ("item", 32, "%\"", "a", "\"", 0, 0),
    ("item", 32, "%\"", "%c3%bc", "\"", 0, 4),
    ("item", 40, "1;", "k", "", 0, 0),
    ("item", 48, "1;a;b=", "c", "", 0, 0),
    ("list", 72, "", "b", "", 0, 0),
    ("list", 80, "", "b", ", a", 3, 0),
    ("list", 80, "a, :", "aGkh", ":", 0, 0),
    ("list", 88, "a, b, ", "c", "", 0, 0),
    ("dict", 72, "", "k", "=b", 2, 0),
    ("dict", 72, "a=", "b", "", 0, 0),
];

// A text that is full doubles its capacity, or takes what it lacks if that is more. A string requests room for its value
// and its quotes at once.
#[test]
fn a_text_keeps_at_most_twice_its_length(rt: HostRuntime) -> Result<(), Fail> {
    let alloc = rt.alloc();
    for &(field, first, begin, piece, end, tail, extra) in LENGTHS {
        let bytes = piece.len().max(1);
        for &times in numbers(alloc, NEAR / bytes, FAR / bytes)?.iter() {
            if times > 0 {
                let text = repeated(alloc, begin, piece, times, end)?;
                let late = tail.saturating_add(extra.saturating_mul(times));
                let rest = text.len().saturating_sub(late);
                let once = if rest <= first {
                    first
                } else {
                    rest.max(2 * first)
                };
                has_capacity(alloc, field, text.as_str(), doubled(once, text.len()))?;
            }
        }
    }
    Ok(())
}

/// Returns `true` if an empty list or dictionary appends nothing, and requests no memory.
fn appends_nothing<T: FieldType>(alloc: Global, version: Version) -> bool {
    let Ok(field) = Parser::new(b"").parse::<T>(alloc) else {
        return false;
    };
    let mut text = String::new(alloc);
    match field.append_to(version, &mut text) {
        Ok(has_member) => !has_member & (text.capacity() == 0),
        Err(_) => false,
    }
}

#[test]
fn an_empty_field_requests_no_memory(rt: HostRuntime) {
    let alloc = rt.alloc();
    for &version in versions_of("") {
        assert!(rt; appends_nothing::<List>(alloc, version), "{version}");
        assert!(rt; appends_nothing::<Dictionary>(alloc, version), "{version}");
    }
}

/// Returns a text of this many bytes.
fn long_text(alloc: Global, len: usize) -> Result<String, AllocError> {
    let mut text = repeated(alloc, "", "a text of thirty-two bytes, or..", len / 32, "")?;
    for _ in 0..len % 32 {
        text.push('a')?;
    }
    Ok(text)
}

/// Leaves all but the last `room` of `full` bytes, and a capacity of `full`.
fn cut(text: &mut String, full: usize, room: usize) -> Option<()> {
    truncate_to(full.saturating_sub(room), text);
    text.shrink_to_fit();
    text.reserve_exact(room).ok()?;
    if text.capacity() == full {
        Some(())
    } else {
        None
    }
}

/// Returns `true` if `wanted` is at the end of the text, and the capacity has grown as needed. If `full` is 0, the
/// serializer requested `first` bytes.
fn is_at_end(text: &String, wanted: &str, (full, room): (usize, usize), first: usize) -> bool {
    let full_or_first = if full == 0 { first } else { full };
    let len = full.saturating_sub(room).saturating_add(wanted.len());
    text.as_str().ends_with(wanted)
        && text.len() == len
        && is_grown(text.capacity(), full_or_first, len)
}

/// The numbers of bytes of a text and of the rooms in it.
type Rooms<'a> = (usize, &'a [usize]);

/// Returns `true` if the item is written in each way into the text, with each room.
fn is_item_put(
    version: Version,
    (full, rooms): Rooms<'_>,
    input: &str,
    (item, calls): (&Item, &ItemCalls<'_>),
    text: &mut String,
) -> Option<bool> {
    let mut holds = true;
    for &room in rooms {
        for &way in &[WHOLE, SCRIPT, SINGLE] {
            cut(text, full, room)?;
            write_item(version, way, item, calls, text)?;
            // `append_to` does not request memory first for an item.
            let first = if way == WHOLE { 0 } else { 128 };
            holds &= is_at_end(text, input, (full, room), first);
        }
    }
    Some(holds)
}

/// Returns `true` if the item is written in each way into texts of this capacity with room for so many bytes.
fn item_grows(alloc: Global, version: Version, rooms: Rooms<'_>, input: &str) -> Option<bool> {
    let parser = Parser::new(input.as_bytes()).with_version(version);
    let item = item_of(alloc, parser)?;
    let calls = item_calls(alloc, &item)?;
    let mut text = long_text(alloc, rooms.0).ok()?;
    is_item_put(version, rooms, input, (&item, &calls), &mut text)
}

/// The ways to write a list or a dictionary.
const WAYS: &[usize] = &[WHOLE, SCRIPT, SINGLE, TWICE];

/// Returns `true` if the list is written in each way into the text, with each room.
fn is_list_put(
    version: Version,
    (full, rooms): Rooms<'_>,
    (input, twice): (&str, &str),
    (list, calls): (&List, &[MemberCalls<'_>]),
    text: &mut String,
) -> Option<bool> {
    let mut holds = true;
    for &room in rooms {
        for &way in WAYS {
            cut(text, full, room)?;
            write_list(version, way, list, calls, text)?;
            let wanted = if way == TWICE { twice } else { input };
            holds &= is_at_end(text, wanted, (full, room), 128);
        }
    }
    Some(holds)
}

/// The same for a list, whose text is also written twice.
fn list_grows(
    alloc: Global,
    version: Version,
    rooms: Rooms<'_>,
    texts: (&str, &str),
) -> Option<bool> {
    let parser = Parser::new(texts.0.as_bytes()).with_version(version);
    let list = list_of(alloc, parser)?;
    let calls = list_calls(alloc, &list)?;
    let mut text = long_text(alloc, rooms.0).ok()?;
    is_list_put(version, rooms, texts, (&list, &calls[..]), &mut text)
}

/// Returns `true` if the dictionary is written in each way into the text, with each room.
fn is_dictionary_put(
    version: Version,
    (full, rooms): Rooms<'_>,
    (input, twice): (&str, &str),
    (dictionary, calls): (&Dictionary, &[EntryCalls<'_>]),
    text: &mut String,
) -> Option<bool> {
    let mut holds = true;
    for &room in rooms {
        for &way in WAYS {
            cut(text, full, room)?;
            write_dictionary(version, way, dictionary, calls, text)?;
            let wanted = if way == TWICE { twice } else { input };
            holds &= is_at_end(text, wanted, (full, room), 128);
        }
    }
    Some(holds)
}

/// The same for a dictionary.
fn dictionary_grows(
    alloc: Global,
    version: Version,
    rooms: Rooms<'_>,
    texts: (&str, &str),
) -> Option<bool> {
    let parser = Parser::new(texts.0.as_bytes()).with_version(version);
    let dictionary = dictionary_of(alloc, parser)?;
    let calls = dictionary_calls(alloc, &dictionary)?;
    let mut text = long_text(alloc, rooms.0).ok()?;
    is_dictionary_put(version, rooms, texts, (&dictionary, &calls[..]), &mut text)
}

/// Returns `true` if this room is tried for a text of this length: each one, or a few for a long text.
fn is_room(room: usize, len: usize) -> bool {
    len <= 150 || room <= 2 || room.abs_diff(len / 2) <= 1 || room.saturating_add(2) >= len
}

/// Fails unless the field of the input is written into texts of this capacity with room for so many bytes.
pub fn grows_with(
    alloc: Global,
    field: &str,
    version: Version,
    (full, rooms): (usize, &[usize]),
    input: &str,
) -> Result<(), Fail> {
    let twice = format!(in alloc; "{input}, {input}")?;
    let answer = match field {
        "item" => item_grows(alloc, version, (full, rooms), input),
        "list" => list_grows(alloc, version, (full, rooms), (input, twice.as_str())),
        _ => dictionary_grows(alloc, version, (full, rooms), (input, twice.as_str())),
    };
    row(field, version, input, full, answer == Some(true))
}

/// Returns each room that is tried for a field of this length, or for two.
fn rooms_for(
    alloc: Global,
    field: &str,
    full: usize,
    len: usize,
) -> Result<Vec<usize>, AllocError> {
    let most = if field == "item" {
        len
    } else {
        len.saturating_mul(2).saturating_add(2)
    };
    let mut rooms = Vec::new(alloc);
    for room in 0..=most.min(full) {
        if is_room(room, len) {
            rooms.push(room)?;
        }
    }
    Ok(rooms)
}

/// Fails unless the field of the input is written into texts of so many bytes that are full, or have room for each
/// number of its bytes.
pub fn grows(alloc: Global, field: &str, full: usize, input: &str) -> Result<(), Fail> {
    let rooms = rooms_for(alloc, field, full, input.len())?;
    for &version in versions_of(input) {
        grows_with(alloc, field, version, (full, rooms.as_slice()), input)?;
    }
    Ok(())
}

/// Values of each kind and of each number of digits.
const VALUES: &[&str] = &[
    "0",
    "-999999999999999",
    "0.5",
    "-12.25",
    "123456789012.125",
    "\"\"",
    "\"a\"",
    "\"\\\\a\\\"\"",
    "\"a long string of more than thirty-two bytes, \\\"as this one\\\"\"",
    "tok",
    "a/long*token-of-more-than-thirty-two-bytes",
    "::",
    ":aA==:",
    ":aGk=:",
    ":aGVsbG8sIGhlbGxvLCBoZWxsbywgaGVsbG8sIGhlbGxvIQ==:",
    "?0",
    "\"!#$&'()*+,-./0123456789:;<=>?[]^_`{|}~ \"",
    "0.001",
    "-0.999",
    "999999999999.999",
    "999999999999999",
    ":AAAAAA==:",
    "://///w==:",
    "@0",
    "@999999999999999",
    "@-1659578233",
    "%\"\"",
    "%\"f%c3%bcr\"",
    "%\"%00%01%1f%22%25%7f\"",
    "%\"%c2%80%df%bf%e0%a0%80%ef%bf%bf%f0%90%80%80%f4%8f%bf%bf\"",
    "%\"a long display string of more than thirty-two bytes, %22as this one%22\"",
];

/// Canonical fields with a value in the place of each `$`.
const PLACES: &[(&str, &str)] = &[
    ("item", "$"),
    ("item", "$;k=$;a-long-key=$"),
    ("list", "$"),
    ("list", "(), $;k=$, ($ $;k=$;l=$);k=$, a"),
    ("dict", "a=$"),
    ("dict", "a=$;k=$, b=($ $;k=$);k=$, c;k=$, d=()"),
];

/// Canonical fields with parts of each kind.
const MIXED: &[(&str, &str)] = &[
    ("item", "\"a\\\"b\";k=12;l=-1.5;m;n=tok;o=:aGk=:;p=?0"),
    ("item", "@12;k=%\"%22\";l=@-1;m=100"),
    (
        "list",
        "?1, (tok \"s\";l=?0 ?1;m);n, -12;o=1.25, :aA==:, ()",
    ),
    ("list", "@1, (@12 %\"%7f\");k=@1, 7"),
    (
        "dict",
        "a, b=(?1 tok;k \"s\");l=7, long-key=-12;m=1.5, d=:aGkh:, e=()",
    ),
    ("dict", "a=@1;k=%\"a\", b=(@-12);l, c=%\"%25\""),
    ("item", "?1;k"),
    ("list", "(a);b, c"),
    ("dict", "a=(1;b);c, d"),
    ("dict", "*a=(1), *b;*c=2"),
];

#[test]
fn a_text_grows_at_each_byte(rt: HostRuntime) -> Result<(), Fail> {
    let alloc = rt.alloc();
    for &full in &[0, 64, 500, 2_048, 5_000] {
        for &(field, place) in PLACES {
            for &value in VALUES {
                let text = filled(alloc, place, value)?;
                grows(alloc, field, full, text.as_str())?;
            }
        }
    }
    Ok(())
}

#[test]
fn a_text_grows_at_each_number(rt: HostRuntime) -> Result<(), Fail> {
    let alloc = rt.alloc();
    for &number in numbers(alloc, 1_101, 999_999_999_999_999)?.iter() {
        if number > 0 {
            let less = number.min(999_999_999_999);
            let text = format!(in alloc; "{number}, -{number}, {less}.5, -{less}.125")?;
            grows(alloc, "list", 200, text.as_str())?;
            let text = format!(in alloc; "k=@{number}, l=@-{number};m={number}")?;
            grows(alloc, "dict", 200, text.as_str())?;
        }
    }
    Ok(())
}

#[test]
fn a_text_grows_at_each_length_of_its_parts(rt: HostRuntime) -> Result<(), Fail> {
    let alloc = rt.alloc();
    for &(front, piece, end, _) in TEXTS {
        for &times in numbers(alloc, 601, NEAR)?.iter() {
            if times > 0 {
                let text = repeated(alloc, front, piece, times, end)?;
                let list = filled(alloc, "($), $", text.as_str())?;
                grows(alloc, "item", 0, text.as_str())?;
                grows(alloc, "item", text.len(), text.as_str())?;
                grows(alloc, "list", list.len(), list.as_str())?;
            }
        }
    }
    for &len in numbers(alloc, 601, NEAR)?.iter() {
        let key = repeated(alloc, "k", "a", len, "")?;
        let text = filled(alloc, "$=(b);$, l$;$", key.as_str())?;
        grows(alloc, "dict", text.len(), text.as_str())?;
    }
    Ok(())
}

#[test]
fn a_text_of_each_length_grows(rt: HostRuntime) -> Result<(), Fail> {
    let alloc = rt.alloc();
    for &(field, text) in MIXED {
        for &full in numbers(alloc, 0, 33_554_432)?.iter() {
            grows(alloc, field, full, text)?;
        }
    }
    Ok(())
}

#[test]
fn a_text_grows_at_each_separator(rt: HostRuntime) -> Result<(), Fail> {
    let alloc = rt.alloc();
    for &full in numbers(alloc, 0, FAR)?.iter() {
        for &separator in &[", ", " ", ",", ";", "; ", "\r\n"] {
            let mut text = long_text(alloc, full)?;
            for room in 0..=2usize.min(full) {
                let holds = cut(&mut text, full, room).is_some()
                    && serialize_separator(false, separator, &mut text).is_ok()
                    && is_at_end(&text, separator, (full, room), 0);
                row("text", Version::Rfc9651, separator, full, holds)?;
            }
        }
    }
    Ok(())
}

/// Returns `true` if no serializer without a member says that there is one.
fn finish_without(
    version: Version,
    list: &List,
    dictionary: &Dictionary,
    text: &mut String,
) -> Option<bool> {
    let mut serializer = ListSerializer::with_buffer_for(text, version);
    serializer.members(list.iter()).ok()?;
    let is_list_none = serializer.finish().is_none();
    let mut serializer = DictSerializer::with_buffer_for(text, version);
    serializer.members(dictionary.iter()).ok()?;
    Some(is_list_none && serializer.finish().is_none())
}

/// Returns `true` if no call that appends no member says that there is one.
fn append_without(
    version: Version,
    list: &List,
    dictionary: &Dictionary,
    text: &mut String,
) -> Option<bool> {
    let has_list = run_list_for(version, text, &[]).ok()?;
    let has_entry = run_dict_for(version, text, &[]).ok()?;
    let is_list_appended = list.append_to(version, text).ok()?;
    let is_appended = dictionary.append_to(version, text).ok()?;
    Some(!has_list && !has_entry && !is_list_appended && !is_appended)
}

/// Returns `true` if serializers without a member leave the text and its capacity.
fn finish_keeps(alloc: Global, version: Version, full: usize, room: usize) -> Option<bool> {
    let mut text = long_text(alloc, full).ok()?;
    cut(&mut text, full, room)?;
    let (list, dictionary) = (List::new(alloc), sfv::dictionary(alloc));
    let is_none = finish_without(version, &list, &dictionary, &mut text) == Some(true);
    let is_nothing = append_without(version, &list, &dictionary, &mut text) == Some(true);
    let is_kept = text.len() == full.saturating_sub(room) && text.capacity() == full;
    Some(is_none && is_nothing && is_kept)
}

#[test]
fn finish_without_a_member_keeps_the_text(rt: HostRuntime) -> Result<(), Fail> {
    let alloc = rt.alloc();
    for &full in numbers(alloc, 2_001, 33_554_432)?.iter() {
        for &version in versions_of("") {
            for &room in &[0, full.min(100), full] {
                let holds = finish_keeps(alloc, version, full, room) == Some(true);
                row("no member", version, "", full, holds)?;
            }
        }
    }
    Ok(())
}

/// The ways that request memory before they write.
const AT_ONCE: &[usize] = &[ONCE, SCRIPT, WHOLE];

/// Returns `true` if no call writes the list into this text, which is full, and none requests memory.
fn is_list_refused(list: &List, calls: &[MemberCalls<'_>], full: usize, text: &mut String) -> bool {
    let mut holds = true;
    for &way in AT_ONCE {
        let is_none = write_list(Version::Rfc8941, way, list, calls, text).is_none();
        holds &= is_none && text.len() == full && text.capacity() == full;
    }
    holds
}

/// Returns `true` if RFC 8941 lacks a value of the list, and no call requests memory for a text of so many bytes.
fn requests_none_for_list(alloc: Global, input: &str, full: usize) -> Option<bool> {
    let mut text = long_text(alloc, full).ok()?;
    cut(&mut text, full, 0)?;
    let list = list_of(alloc, Parser::new(input.as_bytes()))?;
    let calls = list_calls(alloc, &list)?;
    Some(is_list_refused(&list, &calls[..], full, &mut text))
}

/// The same for a dictionary.
fn is_dictionary_refused(
    dictionary: &Dictionary,
    calls: &[EntryCalls<'_>],
    full: usize,
    text: &mut String,
) -> bool {
    let mut holds = true;
    for &way in AT_ONCE {
        let is_none = write_dictionary(Version::Rfc8941, way, dictionary, calls, text).is_none();
        holds &= is_none && text.len() == full && text.capacity() == full;
    }
    holds
}

/// The same for a dictionary.
fn requests_none_for_dictionary(alloc: Global, input: &str, full: usize) -> Option<bool> {
    let mut text = long_text(alloc, full).ok()?;
    cut(&mut text, full, 0)?;
    let dictionary = dictionary_of(alloc, Parser::new(input.as_bytes()))?;
    let calls = dictionary_calls(alloc, &dictionary)?;
    Some(is_dictionary_refused(&dictionary, &calls[..], full, &mut text))
}

/// Writes the first member of a list.
fn put_first(list: &List, text: &mut String) -> Option<()> {
    let mut serializer = ListSerializer::with_buffer_for(text, Version::Rfc8941);
    let put = put_member(&mut serializer, list.first()?);
    let _ = serializer.finish();
    put
}

/// Writes the first member of a dictionary.
fn put_first_entry(dictionary: &Dictionary, text: &mut String) -> Option<()> {
    let mut serializer = DictSerializer::with_buffer_for(text, Version::Rfc8941);
    let (key, member) = dictionary.iter().next()?;
    let put = put_entry(&mut serializer, key.as_key_ref(), member);
    let _ = serializer.finish();
    put
}

/// Returns whether the calls write the first member of the field. Returns `None` if the input is no field.
fn is_first_put(alloc: Global, field: &str, input: &str, text: &mut String) -> Option<bool> {
    let parser = Parser::new(input.as_bytes());
    Some(match field {
        "item" => put_at_once(Version::Rfc8941, &item_of(alloc, parser)?, text).is_some(),
        "list" => put_first(&list_of(alloc, parser)?, text).is_some(),
        _ => put_first_entry(&dictionary_of(alloc, parser)?, text).is_some(),
    })
}

/// Returns `true` if RFC 8941 lacks a value of the first member, and the calls that write it request no memory for a text
/// with room for `room` bytes, which are written before that value, and then leave `kept` bytes.
fn stops_within_room(
    alloc: Global,
    field: &str,
    input: &str,
    full: usize,
    (room, kept): (usize, usize),
) -> Option<bool> {
    let mut text = long_text(alloc, full).ok()?;
    cut(&mut text, full, room)?;
    let is_put = is_first_put(alloc, field, input, &mut text) != Some(false);
    let len = full.saturating_sub(room).saturating_add(kept);
    Some(text.len() == len && text.capacity() == full && !is_put)
}

/// Fields whose first member has a value that RFC 8941 lacks: the type, the field, the number of bytes before that value
/// or its key, and the number of bytes that the calls leave.
const STOPS: &[(&str, &str, usize, usize)] = &[
    ("item", "1;a=@1", 1, 1),
    ("item", "1;a;b=%\"a\"", 3, 1),
    ("list", "1;a=@1", 1, 1),
    ("list", "(1 @1)", 2, 0),
    ("list", "(1 2;a=@1)", 4, 0),
    ("list", "();a=@1", 2, 2),
    ("list", "(a);b;c=@1", 5, 3),
    ("dict", "a;b=@1", 1, 1),
    ("dict", "a=(1 @1)", 4, 0),
    ("dict", "a=(1;b=@1)", 4, 0),
    ("dict", "a=();b=@1", 4, 4),
];

#[test]
fn a_value_that_the_version_lacks_requests_no_memory(rt: HostRuntime) -> Result<(), Fail> {
    let alloc = rt.alloc();
    for &full in numbers(alloc, 0, FAR)?.iter() {
        for &member in &["@1", "%\"a\"", "1;a=@1", "(1 @1)", "();a=@1"] {
            let holds = requests_none_for_list(alloc, member, full) == Some(true);
            row("list", Version::Rfc8941, member, full, holds)?;
        }
        for &member in &["a=@1", "a=%\"a\", b", "a;b=@1", "a=(1 @1)", "a=();b=@1"] {
            let holds = requests_none_for_dictionary(alloc, member, full) == Some(true);
            row("dict", Version::Rfc8941, member, full, holds)?;
        }
        for &(field, input, room, kept) in STOPS {
            let holds = full < room
                || stops_within_room(alloc, field, input, full, (room, kept)) == Some(true);
            row(field, Version::Rfc8941, input, full, holds)?;
        }
    }
    Ok(())
}
