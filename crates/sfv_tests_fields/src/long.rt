//! Long fields, and long texts in the buffer of a serializer.

use crate::common::{gives, has_text, is_text, repeated};
use sfv::{BareItem, FieldType, Item, ListSerializer, Parser, RefBareItem};
use std::alloc::Global;
use std::test::Fail;

/// Returns `true` if the input is the canonical text of its item, list or dictionary.
fn gives_itself(alloc: Global, field: &str, input: &str) -> bool {
    gives(alloc, field, input, input)
}

// 33,333 times `a\"`, and then `a`, between quotes: 100,002 bytes.
#[test]
fn long_strings_with_escapes_give_themselves(rt: HostRuntime) -> Result<(), Fail> {
    let text = repeated(rt.alloc(), "\"", "a\\\"", 33_333, "a\"")?;
    assert!(rt; text.len() == 100_002 && gives_itself(rt.alloc(), "item", text.as_str()));
    Ok(())
}

/// Returns the canonical text of the bare item that the input parses to.
fn bare_text(alloc: Global, input: &str) -> Option<String> {
    let parser = Parser::new(input.as_bytes());
    let bare_item = parser.parse_item::<BareItem>(alloc).ok()?;
    Item::new(alloc, bare_item).serialize(alloc).ok()
}

#[test]
fn every_kind_is_read_as_a_bare_item(rt: HostRuntime) {
    let rows = &[
        "1",
        "1.5",
        "\"a\\\"b\"",
        "tok",
        ":aGk=:",
        "?1",
        "@12",
        "%\"f%c3%bcr\"",
    ];
    for &row in rows {
        assert!(rt; has_text(bare_text(rt.alloc(), row), row), "{row}");
    }
}

/// Returns `true` if `finish` returns a long text, and does not modify it.
fn is_left_by_finish(alloc: Global) -> bool {
    let Ok(mut text) = repeated(alloc, "Example: ", "abc, ", 100, "") else {
        return false;
    };
    let Ok(wanted) = format!(in alloc; "{text}?1") else {
        return false;
    };
    let mut list = ListSerializer::with_buffer(&mut text);
    let is_written = match list.bare_item(RefBareItem::from(true)) {
        Ok(params) => {
            params.finish();
            true
        }
        Err(_) => false,
    };
    let is_answered = list.finish() == Some(wanted.as_str());
    is_written & is_answered & is_text(&text, &wanted)
}

#[test]
fn finish_leaves_a_long_text_as_it_is(rt: HostRuntime) {
    assert!(rt; is_left_by_finish(rt.alloc()));
}
