//! Failed allocations during serialization, and the text after them.

use linked_list_allocator::LocalHeap;
use sfv::{
    Dictionary, Error, FieldType, Item, ItemSerializer, List, OutOfMemory, Parser, RefBareItem,
};
use sfv_writer::output::serialize_separator;
use sfv_writer::serialize_item;
use std::alloc::{AllocFailed, Global};
use std::rc::Rc;
use std::test::Fail;

/// Sizes of a heap, from none to enough for each text below. So each allocation fails at some size.
const SIZES: std::ops::Range<usize> = 16..640;

/// The canonical texts of items with a value of each kind, as the bare item and in a parameter.
const ITEMS: &[&str] = &[
    "-999999999999999;a-key=-999999999999999",
    "-1234.567;a-key=-1234.567",
    "\"a \\\"long\\\" \\\\ one, with escapes\";a-key=\"a \\\"long\\\" \\\\ one, with escapes\"",
    ":aGVsbG8sIGhlbGxvLCBoZWxsbw==:;a-key=:aGVsbG8sIGhlbGxvLCBoZWxsbw==:",
    "?1;a-key",
    "?0;a-key=?0",
    "a/long*token-of-twenty-five;a-key=a/long*token-of-twenty-five",
    "@1659578233;a-key=@1659578233",
    "%\"50%25 %22%c3%bcber%22%7f\\, and more of it\";a-key=%\"50%25 %22%c3%bcber%22%7f\\, and more of it\"",
];

/// Writes the item after another text, on a heap of this size. Returns whether it fits. Returns `None` if the result is
/// neither the whole text nor a text that begins with the other one.
fn holds(alloc: Global, size: usize, item: &Item, wanted: &str) -> Option<bool> {
    let heap = LocalHeap::new(alloc, size).ok()?;
    let Ok(mut text) = String::from_str(&heap, "X: ") else {
        return Some(false);
    };
    let written = serialize_item(item, &mut text);
    let rest = text.as_str().strip_prefix("X: ")?;
    match written {
        Ok(()) if rest == wanted => Some(true),
        Err(OutOfMemory) => Some(false),
        _ => None,
    }
}

/// Returns `true` if the item of this text is written on a large heap, and fails on a small one.
fn is_written_or_refused(alloc: Global, text: &str) -> bool {
    let Ok(item) = Parser::new(text.as_bytes()).parse::<Item>(alloc) else {
        return false;
    };
    let (mut was_written, mut was_refused) = (false, false);
    for size in SIZES {
        match holds(alloc, size, &item, text) {
            Some(true) => was_written = true,
            Some(false) => was_refused = true,
            None => return false,
        }
    }
    was_written && was_refused
}

#[test]
fn items_are_written_or_refused_and_the_old_text_stays(rt: HostRuntime) {
    for &text in ITEMS {
        assert!(rt; is_written_or_refused(rt.alloc(), text), "{text}");
    }
}

/// Requests the first memory of a text on a heap of this size, and appends a short text. Returns whether the
/// request failed. Returns `None` if the heap is too small for the short text, too.
fn is_first_memory_refused(alloc: Global, size: usize) -> Option<bool> {
    let heap = LocalHeap::new(alloc, size).ok()?;
    let mut text = String::new(&heap);
    serialize_separator(true, ", ", &mut text).ok()?;
    let is_refused = text.capacity() == 0;
    text.push_str("u=1").ok()?;
    if text.as_str() == "u=1" {
        Some(is_refused)
    } else {
        None
    }
}

#[test]
fn a_short_text_is_written_without_its_first_memory(rt: HostRuntime) {
    let (mut was_refused, mut was_granted) = (false, false);
    for size in SIZES {
        match is_first_memory_refused(rt.alloc(), size) {
            Some(true) => was_refused = true,
            Some(false) => was_granted = true,
            None => {}
        }
    }
    assert!(rt; was_refused && was_granted);
}

/// Returns the capacity of the text of the field that the input parses to.
fn capacity_of<T: FieldType>(alloc: Global, input: &str) -> Option<usize> {
    let field = Parser::new(input.as_bytes()).parse::<T>(alloc).ok()?;
    let text: Option<String> = field.serialize(alloc).ok()?.into();
    Some(text?.capacity())
}

#[test]
fn short_texts_keep_their_first_capacity(rt: HostRuntime) {
    let alloc = rt.alloc();
    assert!(rt; capacity_of::<Item>(alloc, "1") == Some(32));
    assert!(rt; capacity_of::<Item>(alloc, "1;a;b=c") == Some(32 + 2 * 8));
    assert!(rt; capacity_of::<List>(alloc, "a;b, (c d)") == Some(64 + 2 * 8));
    assert!(rt; capacity_of::<Dictionary>(alloc, "a, b=1, c") == Some(64 + 3 * 8));
}

#[test]
fn a_serializer_requests_memory_for_a_text_without_it(rt: HostRuntime) {
    let mut text = String::new(rt.alloc());
    let is_written = ItemSerializer::with_buffer(&mut text)
        .bare_item(RefBareItem::from(1u8))
        .is_ok();
    assert!(rt; is_written && text.capacity() == 128);
}

// A value that was not stored is dropped.
#[test]
fn errors_of_a_failed_allocation_drop_its_value(rt: HostRuntime) -> Result<(), Fail> {
    let value = Rc::new(rt.alloc(), 1u8)?;
    let copy = value.clone()?;
    let is_memory = OutOfMemory::from(AllocFailed { value: copy }) == OutOfMemory;
    let copy = value.clone()?;
    let is_error = Error::from(AllocFailed { value: copy }).is_out_of_memory();
    assert!(rt; is_memory && is_error && Rc::strong_count(&value) == 1);
    Ok(())
}
