//! The values of fields, and further lines of a field.

use sfv::{
    FieldType, GenericBareItem, HashSeed, Item, OutOfMemory, ParseError, Parser, RefBareItem,
    string_ref,
};
use sfv_examples::reading::{dictionary_of_lines, list_of_lines};
use std::alloc::Global;

/// Returns `true` if the input is an item with this value.
fn is_value(alloc: Global, input: &[u8], value: RefBareItem<'_>) -> bool {
    match Parser::new(input).parse::<Item>(alloc) {
        Ok(item) => item.bare_item.as_ref_item() == value,
        Err(_) => false,
    }
}

#[test]
fn values_are_those_of_the_text(rt: HostRuntime) {
    let alloc = rt.alloc();
    let bytes = RefBareItem::from(b"hello".as_slice());
    let holds = is_value(alloc, b":aGVsbG9:;a", bytes)
        & is_value(
            alloc,
            b"%\"%c3%a9\"",
            GenericBareItem::DisplayString("\u{e9}"),
        )
        & is_value(
            alloc,
            b"\"a\\\"b\\\\c\"",
            RefBareItem::from(string_ref("a\"b\\c")),
        );
    assert!(rt; holds);
}

/// Returns `true` if the field of both lines has this text, or the second line has this error.
fn is_answer<T: FieldType<SerializeResult = Option<String>>>(
    alloc: Global,
    field: Result<T, ParseError<OutOfMemory>>,
    wanted: &str,
) -> bool {
    let text = match field {
        Ok(field) => field.serialize(alloc).unwrap_or(None),
        Err(error) => error.to_string(alloc).ok(),
    };
    match text {
        Some(text) => text.as_str() == wanted,
        None => false,
    }
}

#[test]
fn further_lines_of_a_list_go_after_the_earlier(rt: HostRuntime) {
    let rows = &[
        (
            "11, (12 13)",
            "\"foo\",        \"bar\"",
            "11, (12 13), \"foo\", \"bar\"",
        ),
        ("1", "  ", "1"),
        ("", "1", "1"),
        ("1", "2,", "trailing comma at index 1"),
    ];
    for &(held, line, text) in rows {
        let (held, line) = (held.as_bytes(), line.as_bytes());
        let list = list_of_lines(rt.alloc(), HashSeed::new(1), held, line);
        assert!(rt; is_answer(rt.alloc(), list, text), "{text}");
    }
}

#[test]
fn further_lines_of_a_dictionary_replace_what_stood_under_a_key(rt: HostRuntime) {
    let rows = &[
        ("a=1, b=2", "a=3", "a=3, b=2"),
        ("a=1;x, b=(1 2)", "b=3;y, c, a=4", "a=4, b=3;y, c"),
        ("a=1", "   ", "a=1"),
        ("a=1", "b=", "expected start of bare item at index 2"),
        ("", "a", "a"),
    ];
    for &(held, line, text) in rows {
        let (held, line) = (held.as_bytes(), line.as_bytes());
        let dictionary = dictionary_of_lines(rt.alloc(), HashSeed::new(1), held, line);
        assert!(rt; is_answer(rt.alloc(), dictionary, text), "{text}");
    }
}
