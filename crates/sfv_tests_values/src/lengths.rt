//! Texts and bytes of many lengths, and random ones: their conversions and copies, and the memory that these keep.

use crate::common::{is_shown, prints};
use sfv::{
    BareItem, BareItemFromInput, GenericBareItem, RefBareItem, StringFromInput, StringRef, TokenRef,
};
use sfv_random::Random;
use sfv_random::texts::bytes_of as random_bytes;
use sfv_values::checked_text::CheckedText;
use sfv_values::checked_text_ref::CheckedTextRef;
use sfv_values::key::KeyClass;
use sfv_values::string::StringClass;
use sfv_values::text_class::TextClass;
use sfv_values::token::TokenClass;
use std::alloc::{AllocError, Global};
use std::borrow::CowStr;
use std::string::String as StdString;
use std::test::Fail;

/// The longest text that is printed.
const LONGEST_PRINTED: usize = 2_000_000;

/// Returns the numbers below 300, and the powers of two up to 1,048,576 with their neighbours.
fn lengths(alloc: Global) -> Result<Vec<usize>, AllocError> {
    let mut lengths = Vec::new(alloc);
    for len in 0..300usize {
        lengths.push(len)?;
    }
    let mut power = 512usize;
    for _ in 0..12 {
        for less in 0..3usize {
            lengths.push(power.saturating_add(1).saturating_sub(less))?;
        }
        power = power.saturating_mul(2);
    }
    Ok(lengths)
}

/// Returns a letter so many times, with room for more.
fn letters(alloc: Global, letter: char, len: usize) -> Result<StdString, AllocError> {
    let mut text = StdString::with_capacity(alloc, room_of(len))?;
    for _ in 0..len {
        text.push(letter)?;
    }
    Ok(text)
}

/// Returns the capacity of the letters: five unused bytes, or twice as many bytes as letters and 100 more.
fn room_of(len: usize) -> usize {
    if len % 2 == 0 {
        len.saturating_add(5)
    } else {
        len.saturating_mul(2).saturating_add(100)
    }
}

/// Returns a printable letter of ASCII. Each length has the next one.
fn letter_of(len: usize) -> char {
    char::from((32 + len % 95) as u8)
}

/// Returns so many equal bytes, with room for more. Each length has the next byte.
fn bytes_of(alloc: Global, len: usize) -> Result<Vec<u8>, AllocError> {
    let mut bytes = Vec::with_capacity(alloc, room_of(len))?;
    for _ in 0..len {
        bytes.push((len % 256) as u8)?;
    }
    Ok(bytes)
}

/// Returns `true` if both forms of a text print it, alone and in the name of their type.
fn is_printed<C: TextClass>(alloc: Global, owned: &CheckedText<C>, name: &str) -> Option<bool> {
    let text = owned.as_str();
    let borrowed = CheckedTextRef::<C>::from_str(text).ok()?;
    let shown = format!(in alloc; "{name}({text:?})").ok()?;
    let shown_ref = format!(in alloc; "{name}Ref({text:?})").ok()?;
    Some(
        prints(alloc, owned, text)
            && prints(alloc, &borrowed, text)
            && is_shown(alloc, owned, shown.as_str())
            && is_shown(alloc, &borrowed, shown_ref.as_str()),
    )
}

/// Returns `true` if a copy of a text of the class has no unused memory, and a moved text keeps its memory.
fn is_text_kept<C: TextClass>(alloc: Global, text: StdString, name: &str) -> Option<bool> {
    let (len, capacity) = (text.len(), text.capacity());
    let copy = CheckedTextRef::<C>::from_str(text.as_str())
        .ok()?
        .to_owned(alloc)
        .ok()?;
    let owned = CheckedText::<C>::from_string(text).ok()?;
    let other = owned.clone().ok()?;
    let is_same = copy == owned && other == owned && owned.as_str().len() == len;
    let holds = is_same && (len > LONGEST_PRINTED || is_printed(alloc, &owned, name)?);
    let (copy, other) = (StdString::from(copy), StdString::from(other));
    let are_copies = copy.capacity() == len && other.capacity() == len;
    let again = CheckedText::<C>::try_from(StdString::from(owned)).ok()?;
    Some(holds && are_copies && StdString::from(again).capacity() == capacity)
}

/// Returns the capacity of a text or byte sequence.
fn capacity_of(item: BareItem) -> Option<usize> {
    match item {
        GenericBareItem::String(text) => Some(text.into_string().capacity()),
        GenericBareItem::Token(text) => Some(StdString::from(text).capacity()),
        GenericBareItem::ByteSequence(bytes) => Some(bytes.capacity()),
        GenericBareItem::DisplayString(text) => Some(text.capacity()),
        _ => None,
    }
}

/// Returns `true` if copies of the bare item are equal to it, and have no unused memory.
fn is_copied(alloc: Global, item: RefBareItem<'_>, len: usize) -> Option<bool> {
    let owned = item.try_to_owned(alloc).ok()?;
    let copy = owned.clone().ok()?;
    let is_same = owned.as_ref_item() == item && copy == owned;
    Some(is_same && capacity_of(copy) == Some(len) && capacity_of(owned) == Some(len))
}

/// Returns `true` if the parsed bare item is this one, a copy has no unused memory, and the owned form this capacity.
fn is_read(
    alloc: Global,
    read: BareItemFromInput<'_>,
    item: RefBareItem<'_>,
    len: usize,
    capacity: usize,
) -> Option<bool> {
    let copy = read.clone().ok()?;
    let is_same = read.as_ref_item() == item && copy == read;
    let copy = copy.try_into_owned(alloc).ok()?;
    let owned = read.try_into_owned(alloc).ok()?;
    let is_owned = owned.as_ref_item() == item && copy == owned;
    let is_kept = capacity_of(copy) == Some(len) && capacity_of(owned) == Some(capacity);
    Some(is_same && is_owned && is_kept)
}

/// Returns `true` if byte sequences of so many bytes are copied and moved.
fn are_bytes_kept(alloc: Global, len: usize) -> Option<bool> {
    let all = room_of(len);
    let bytes = bytes_of(alloc, len).ok()?;
    let item = RefBareItem::from(bytes.as_slice());
    let read = BareItemFromInput::from(bytes_of(alloc, len).ok()?);
    let owned = BareItem::from(bytes_of(alloc, len).ok()?);
    Some(
        is_copied(alloc, item, len)?
            && is_read(alloc, read, item, len, all)?
            && owned.as_ref_item() == item
            && capacity_of(owned) == Some(all),
    )
}

/// Returns `true` if strings of this text are copied and moved.
fn are_strings_kept(alloc: Global, text: &str, letter: char) -> Option<bool> {
    let (len, all) = (text.len(), room_of(text.len()));
    let string = StringRef::from_str(text).ok()?;
    let item = RefBareItem::from(string);
    let borrowed = GenericBareItem::String(StringFromInput::Borrowed(string));
    let owned = sfv::String::from_string(letters(alloc, letter, len).ok()?).ok()?;
    let read = GenericBareItem::String(StringFromInput::Owned(owned));
    let owned = sfv::String::from_string(letters(alloc, letter, len).ok()?).ok()?;
    Some(
        is_copied(alloc, item, len)?
            && is_read(alloc, borrowed, item, len, len)?
            && is_read(alloc, read, item, len, all)?
            && capacity_of(BareItem::from(owned)) == Some(all),
    )
}

/// Returns `true` if display strings of this text are copied and moved.
fn are_display_strings_kept(alloc: Global, text: &str, letter: char) -> Option<bool> {
    let (len, all) = (text.len(), room_of(text.len()));
    let item = GenericBareItem::DisplayString(text);
    let borrowed = GenericBareItem::DisplayString(CowStr::Borrowed(text));
    let owned = CowStr::Owned(letters(alloc, letter, len).ok()?);
    Some(
        is_copied(alloc, item, len)?
            && is_read(alloc, borrowed, item, len, len)?
            && is_read(alloc, GenericBareItem::DisplayString(owned), item, len, all)?,
    )
}

/// Returns `true` if keys and tokens of so many letters are copied and moved.
fn are_names_kept(alloc: Global, len: usize) -> Option<bool> {
    let text = letters(alloc, 'a', len).ok()?;
    let token = TokenRef::from_str(text.as_str()).ok()?;
    let item = RefBareItem::from(token);
    Some(
        is_text_kept::<KeyClass>(alloc, letters(alloc, 'b', len).ok()?, "Key")?
            && is_text_kept::<TokenClass>(alloc, letters(alloc, 'C', len).ok()?, "Token")?
            && is_copied(alloc, item, len)?
            && is_read(alloc, BareItemFromInput::from(token), item, len, len)?,
    )
}

#[test]
fn texts_of_each_length_are_copied_and_moved(rt: HostRuntime) -> Result<(), Fail> {
    let alloc = rt.alloc();
    let mut holds = true;
    for &len in lengths(alloc)?.iter() {
        let letter = letter_of(len);
        let text = letters(alloc, letter, len)?;
        holds &= are_strings_kept(alloc, text.as_str(), letter) == Some(true);
        holds &= are_display_strings_kept(alloc, text.as_str(), letter) == Some(true);
        holds &= are_bytes_kept(alloc, len) == Some(true);
        holds &= len == 0 || are_names_kept(alloc, len) == Some(true);
        holds &= is_text_kept::<StringClass>(alloc, text, "String") == Some(true);
    }
    assert!(rt; holds);
    Ok(())
}

/// Returns the text with room for more.
fn roomy(alloc: Global, text: &str) -> Result<StdString, AllocError> {
    let mut copy = StdString::with_capacity(alloc, room_of(text.len()))?;
    copy.push_str(text)?;
    Ok(copy)
}

/// Returns `true` if strings, keys and tokens of this text are copied and moved, as far as it is of the class.
fn are_texts_kept(alloc: Global, text: &str) -> Option<bool> {
    let (len, all) = (text.len(), room_of(text.len()));
    let mut holds = true;
    if let Ok(string) = StringRef::from_str(text) {
        let item = RefBareItem::from(string);
        let borrowed = GenericBareItem::String(StringFromInput::Borrowed(string));
        let owned = sfv::String::from_string(roomy(alloc, text).ok()?).ok()?;
        let read = GenericBareItem::String(StringFromInput::Owned(owned));
        let owned = sfv::String::from_string(roomy(alloc, text).ok()?).ok()?;
        holds &= is_text_kept::<StringClass>(alloc, roomy(alloc, text).ok()?, "String")?
            && is_copied(alloc, item, len)?
            && is_read(alloc, borrowed, item, len, len)?
            && is_read(alloc, read, item, len, all)?
            && capacity_of(BareItem::from(owned)) == Some(all);
    }
    if let Ok(token) = TokenRef::from_str(text) {
        let item = RefBareItem::from(token);
        let owned = sfv::Token::from_string(roomy(alloc, text).ok()?).ok()?;
        holds &= is_text_kept::<TokenClass>(alloc, roomy(alloc, text).ok()?, "Token")?
            && is_copied(alloc, item, len)?
            && is_read(alloc, BareItemFromInput::from(token), item, len, len)?
            && capacity_of(BareItem::from(owned)) == Some(all);
    }
    if CheckedTextRef::<KeyClass>::from_str(text).is_ok() {
        holds &= is_text_kept::<KeyClass>(alloc, roomy(alloc, text).ok()?, "Key")?;
    }
    let item = GenericBareItem::DisplayString(text);
    let borrowed = GenericBareItem::DisplayString(CowStr::Borrowed(text));
    let owned = GenericBareItem::DisplayString(CowStr::Owned(roomy(alloc, text).ok()?));
    holds &= is_copied(alloc, item, len)?
        && is_read(alloc, borrowed, item, len, len)?
        && is_read(alloc, owned, item, len, all)?;
    Some(holds)
}

/// Returns the bytes with room for more.
fn roomy_bytes(alloc: Global, bytes: &[u8]) -> Result<Vec<u8>, AllocError> {
    let mut copy = Vec::with_capacity(alloc, room_of(bytes.len()))?;
    copy.extend_from_slice(bytes)?;
    Ok(copy)
}

/// Returns `true` if a byte sequence of these bytes is copied and moved.
fn are_these_bytes_kept(alloc: Global, bytes: &[u8]) -> Option<bool> {
    let (len, all) = (bytes.len(), room_of(bytes.len()));
    let item = RefBareItem::from(bytes);
    let read = BareItemFromInput::from(roomy_bytes(alloc, bytes).ok()?);
    let owned = BareItem::from(roomy_bytes(alloc, bytes).ok()?);
    let empty = BareItem::from(Vec::new(alloc));
    Some(
        is_copied(alloc, item, len)?
            && is_read(alloc, read, item, len, all)?
            && capacity_of(owned) == Some(all)
            && capacity_of(empty) == Some(0),
    )
}

/// Letters of one to four bytes of UTF-8, with the first and last ones.
const WIDE: &[char] = &[
    '\u{80}',
    '\u{7ff}',
    '\u{800}',
    '\u{feff}',
    '\u{ffff}',
    '\u{10000}',
    '\u{10ffff}',
];

/// Returns the letter of this place: those of ASCII, and then the others.
fn letter_at(place: usize) -> char {
    match place.checked_sub(128) {
        Some(place) => WIDE.get(place).copied().unwrap_or('a'),
        None => char::from(u8::try_from(place).unwrap_or(b'a')),
    }
}

// Each pair of letters, alone and with three letters between them.
#[test]
fn texts_of_each_two_letters_are_copied_and_moved(rt: HostRuntime) -> Result<(), Fail> {
    let alloc = rt.alloc();
    let mut holds = true;
    for first in 0..135usize {
        for last in 0..135usize {
            for &between in &["", "aaa"] {
                let mut text = StdString::new(alloc);
                text.push(letter_at(first))?;
                text.push_str(between)?;
                text.push(letter_at(last))?;
                holds &= are_texts_kept(alloc, text.as_str()) == Some(true);
            }
        }
    }
    assert!(rt; holds);
    Ok(())
}

#[test]
fn bytes_of_each_two_values_are_copied_and_moved(rt: HostRuntime) {
    let mut holds = true;
    for first in 0..=255u8 {
        for last in 0..=255u8 {
            holds &= are_these_bytes_kept(rt.alloc(), &[first, last]) == Some(true);
        }
    }
    assert!(rt; holds);
}

// Each letter of a kind is at each of the first 16 places.
#[test]
fn random_texts_are_copied_and_moved(rt: HostRuntime) -> Result<(), Fail> {
    let alloc = rt.alloc();
    let mut holds = true;
    for &kind in &["key", "token", "string", "display"] {
        for text in Random::new(1).texts(alloc, kind)?.iter() {
            holds &= are_texts_kept(alloc, text.as_str()) == Some(true);
        }
    }
    assert!(rt; holds);
    Ok(())
}

#[test]
fn random_bytes_are_copied_and_moved(rt: HostRuntime) -> Result<(), Fail> {
    let alloc = rt.alloc();
    let mut holds = true;
    for text in Random::new(1).texts(alloc, "bytes")?.iter() {
        let bytes = random_bytes(alloc, text.as_str())?;
        holds &= are_these_bytes_kept(alloc, bytes.as_slice()) == Some(true);
    }
    assert!(rt; holds);
    Ok(())
}
