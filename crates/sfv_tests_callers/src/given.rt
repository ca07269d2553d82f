//! The provided visitors, and parsing of a field to the expected type.

ghost use Rattle.std.specs.Prelude.{⊤};

use crate::common::has_text;
use sfv::visitor::{
    DictionaryBuilder, Event, ExpectItem, Ignored, ItemFault, MakeItemVisitor, Visitor,
    item_visitor_with, parameter_visitor_with,
};
use sfv::{
    BareItemFromInput, BareItemType, Date, Decimal, Dictionary, HashSeed, Integer, ParseError,
    Parser, TokenRef, integer, key_ref, token_ref,
};
use sfv_examples::expecting::{expect, string, token};
use sfv_random::leaks::{Repeated, keeps_memory};
use std::alloc::Global;
use std::convert::Infallible;
use std::fmt::Display;
use std::test::Fail;

#[test]
fn ignored_fields_have_an_answer(rt: HostRuntime) {
    let alloc = rt.alloc();
    let item = Parser::new(b"abc;x").parse_item_with_visitor(alloc, Ignored);
    let list = Parser::new(b"a, (b;x c);y").parse_list_with_visitor(alloc, Ignored);
    let more = Parser::new(b"a, b=(c;x)");
    let dictionary = more.parse_dictionary_with_visitor(alloc, Ignored::default());
    assert!(rt; item.is_ok() & list.is_ok() & dictionary.is_ok());
}

/// A field with decoded texts, which the visitor drops.
#[derive(Drop)]
struct Dropping {
    visitor: &'static str,
    field: &'static str,
    input: &'static str,
}

// A visitor, a type of field, and a field.
const DROPPED: &[(&str, &str, &str)] = &[
    ("ignored", "item", "\"a\\\"b\";k=:aGk=:"),
    ("ignored", "list", "(%\"%c3%bc\";k=:aGk=:), \"a\\\"b\""),
    (
        "ignored",
        "dict",
        "a;a_key_of_some_length=:aGk=:, b=(:aGk=:)",
    ),
    ("none", "item", ":aGk=:;k=\"a\\\"b\""),
    ("none", "list", "(:aGk=:;k=%\"%c3%bc\"), \"a\\\"b\""),
    ("none", "dict", "a;k=:aGk=:, b=(\"a\\\"b\")"),
    ("date", "item", ":aGk=:"),
    ("date", "item", "\"a\\\"b\""),
    ("integer", "item", "%\"%c3%bc\";k=:aGk=:"),
    ("boolean", "item", "\"a\\\"b\";k=:aGk=:"),
    ("token", "item", ":aGk=:;k=:aGk=:"),
    ("misplaced", "dict", ":aGk=:"),
    ("incomplete", "dict", "a=\"a\\\"b\""),
    (
        "incomplete",
        "dict",
        "a,b,c,d,e,f,g,h,i,j,k,l,m,n,o,p,q,r;s=:aGk=:",
    ),
    ("uncalled", "item", "a text that the function owns"),
];

/// Passes the events of the field to the visitor. Returns whether all are accepted.
fn are_taken<'a, V: Visitor<'a>>(alloc: Global, field: &str, input: &'a [u8], visitor: V) -> bool
    requires { V.is_ready visitor }
{
    let parser = Parser::new(input);
    match field {
        "item" => parser.parse_item_with_visitor(alloc, visitor).is_ok(),
        "list" => parser.parse_list_with_visitor(alloc, visitor).is_ok(),
        _ => parser.parse_dictionary_with_visitor(alloc, visitor).is_ok(),
    }
}

/// Passes a parameter to a builder without a member. Returns `true` if the builder ignores it.
fn is_misplaced(alloc: Global, bytes: &[u8]) -> Option<bool> {
    let dictionary = Parser::new(b"").parse::<Dictionary>(alloc).ok()?;
    let value = BareItemFromInput::from(Vec::from_slice(alloc, bytes).ok()?);
    let mut builder = DictionaryBuilder::new(dictionary);
    let is_taken = builder.event(Event::Parameter(key_ref("k"), value)).is_ok();
    let dictionary = builder.finish().ok()?;
    Some(is_taken && dictionary.is_empty())
}

/// Passes a part of a further member to a builder. Returns `true` if the builder leaves this member out.
fn is_incomplete(alloc: Global, input: &[u8]) -> Option<bool> {
    let dictionary = Parser::new(input).parse::<Dictionary>(alloc).ok()?;
    let value = BareItemFromInput::from(Vec::from_slice(alloc, input).ok()?);
    let count = dictionary.len();
    let mut builder = DictionaryBuilder::new(dictionary);
    let is_taken = builder.event(Event::KeyedEntry(key_ref("a-key"))).is_ok()
        & builder.event(Event::Item).is_ok()
        & builder.event(Event::BareItem(value)).is_ok();
    let dictionary = builder.finish().ok()?;
    Some(is_taken && dictionary.len() == count)
}

/// Ends a visitor before it calls its function, which owns two texts.
fn is_uncalled(alloc: Global, text: &str) -> Option<bool> {
    let first = String::from_str(alloc, text).ok()?;
    let second = String::from_str(alloc, text).ok()?;
    let visitor = item_visitor_with(
        move |item: BareItemFromInput<'_>|
            ensures { ⊤ }
        {
            if first.len() == second.len() {
                integer_of(item)
            } else {
                Err(ItemFault::NoItem)
            }
        },
    );
    Some(visitor.finish() == Ok(None))
}

impl Repeated for Dropping {
    fn repeat(&self, alloc: Global) -> bool {
        let input = self.input.as_bytes();
        match self.visitor {
            "ignored" => are_taken(alloc, self.field, input, Ignored),
            "none" => are_taken(alloc, self.field, input, None::<Ignored>),
            "date" => expect::<Date>(alloc, input).is_err(),
            "integer" => expect::<Integer>(alloc, input).is_err(),
            "boolean" => expect::<bool>(alloc, input).is_err(),
            "token" => token(alloc, input).is_err(),
            "incomplete" => is_incomplete(alloc, input).unwrap_or(false),
            "uncalled" => is_uncalled(alloc, self.input).unwrap_or(false),
            _ => is_misplaced(alloc, input).unwrap_or(false),
        }
    }
}

#[test]
fn dropped_texts_are_released(rt: HostRuntime) -> Result<(), Fail> {
    let mut holds = true;
    for &(visitor, field, input) in DROPPED {
        let dropping = Dropping {
            visitor,
            field,
            input,
        };
        holds &= keeps_memory(&rt, &dropping)?;
    }
    assert!(rt; holds);
    Ok(())
}

#[test]
fn items_are_expected_to_be_of_a_kind(rt: HostRuntime) {
    let alloc = rt.alloc();
    let (decimal, date) = (Decimal::from(5u8), Date::from_unix_seconds(integer(5)));
    let numbers = (expect::<Integer>(alloc, b"5;a").ok() == Some(integer(5)))
        & (expect::<Decimal>(alloc, b"5.0").ok() == Some(decimal))
        & (expect::<Date>(alloc, b"@5").ok() == Some(date))
        & (expect::<bool>(alloc, b"?1").ok() == Some(true));
    let name = Parser::new(b"abc;x").parse_item::<TokenRef<'_>>(alloc);
    let tokens = (token(alloc, b"abc;x").ok() == Some(token_ref("abc")))
        & (name.ok() == Some(token_ref("abc")));
    assert!(rt; numbers & tokens);
}

/// Returns `true` if the result is an error that prints this text.
fn has_fault<T: Drop, E: Display + Drop>(alloc: Global, answer: Result<T, E>, text: &str) -> bool {
    match answer {
        Ok(_) => false,
        Err(error) => has_text(error.to_string(alloc).ok(), text),
    }
}

/// Returns `true` if the input has this error where a bare item of this kind is expected.
fn is_rejected(alloc: Global, expected: &str, input: &str, text: &str) -> bool {
    let parser = Parser::new(input.as_bytes());
    match expected {
        "integer" => has_fault(alloc, parser.parse_item::<Integer>(alloc), text),
        "decimal" => has_fault(alloc, parser.parse_item::<Decimal>(alloc), text),
        _ => has_fault(alloc, parser.parse_item_with_visitor(alloc, Ignored), text),
    }
}

// The visitor fails before a later syntax error.
#[test]
fn items_of_another_kind_have_an_error_that_prints_both(rt: HostRuntime) {
    let rows = &[
        (
            "decimal",
            "1",
            "unexpected bare item type: expected decimal, got integer",
        ),
        (
            "integer",
            "abc;0",
            "unexpected bare item type: expected integer, got token",
        ),
        (
            "any",
            "abc;0",
            "expected start of key ('a'-'z' or '*') at index 4",
        ),
    ];
    for &(expected, input, text) in rows {
        assert!(rt; is_rejected(rt.alloc(), expected, input, text));
    }
}

/// Returns `true` if the input is an item with this string.
fn is_string(alloc: Global, input: &[u8], wanted: &str) -> bool {
    match string(alloc, input) {
        Ok(text) => text.as_string_ref().as_str() == wanted,
        Err(_) => false,
    }
}

/// Returns `true` if the input is an item with these bytes.
fn is_bytes(alloc: Global, input: &[u8], wanted: &[u8]) -> bool {
    match expect::<Vec<u8>>(alloc, input) {
        Ok(bytes) => bytes.as_slice() == wanted,
        Err(_) => false,
    }
}

/// Returns `true` if the input is an item with a display string.
fn is_display_string(alloc: Global, input: &[u8]) -> bool {
    matches!(
        expect::<BareItemFromInput<'_>>(alloc, input),
        Ok(BareItemFromInput::DisplayString(_))
    )
}

#[test]
fn items_are_expected_to_be_texts_or_of_any_kind(rt: HostRuntime) {
    let alloc = rt.alloc();
    assert!(rt; is_string(alloc, b"\"a\"", "a"));
    assert!(rt; is_bytes(alloc, b":AQI=:", &[1, 2]));
    assert!(rt; is_display_string(alloc, b"%\"a\""));
}

/// Returns the first integer of a list, or the visitor's error.
fn first_of(alloc: Global, input: &[u8]) -> Result<Integer, ItemFault> {
    let visitor: ExpectItem<Integer> = ExpectItem::new(alloc);
    match Parser::new(input).parse_list_with_visitor(alloc, visitor) {
        Ok(first) => Ok(first),
        Err(ParseError::Visitor(fault)) => Err(fault),
        Err(ParseError::Syntax(_)) => Err(ItemFault::OutOfMemory),
    }
}

#[test]
fn the_first_item_is_kept(rt: HostRuntime) {
    let rows = [
        ("(5;a=6;a=7 8);b=9, x", Ok(integer(5))),
        ("(), 6;a, 5", Ok(integer(6))),
        ("();a", Err(ItemFault::NoItem)),
    ];
    for (input, first) in rows {
        assert!(rt; first_of(rt.alloc(), input.as_bytes()) == first, "{input}");
    }
}

// The visitor fails before a later syntax error.
#[test]
fn an_item_of_another_kind_fails_with_its_kind(rt: HostRuntime) {
    let expected = BareItemType::Integer;
    let rows = &[
        ("5.0", BareItemType::Decimal),
        ("\"a\"", BareItemType::String),
        (":AQI=:", BareItemType::ByteSequence),
        ("?1", BareItemType::Boolean),
        ("a", BareItemType::Token),
        ("a;0", BareItemType::Token),
        ("@5", BareItemType::Date),
        ("%\"a\"", BareItemType::DisplayString),
    ];
    for &(input, got) in rows {
        let fault = Err(ItemFault::WrongType { expected, got });
        assert!(rt; first_of(rt.alloc(), input.as_bytes()) == fault, "{input}");
    }
}

/// Returns the result of an optional visitor.
fn answer_of(alloc: Global, input: &[u8], is_there: bool) -> Option<Option<Integer>> {
    let visitor = if is_there {
        Some(Integer::make_item_visitor(alloc, HashSeed::default()))
    } else {
        None
    };
    Parser::new(input)
        .parse_item_with_visitor(alloc, visitor)
        .ok()
}

#[test]
fn a_visitor_may_be_left_out(rt: HostRuntime) {
    let rows = [
        ("5", true, Some(Some(integer(5)))),
        ("abc", true, None),
        ("abc", false, Some(None)),
    ];
    for (input, is_there, answer) in rows {
        assert!(rt;
            answer_of(rt.alloc(), input.as_bytes(), is_there) == answer,
            "{input}"
        );
    }
}

/// Returns seven for any argument.
fn seven(_answer: ()) -> Result<u64, Infallible> {
    Ok(7)
}

/// Returns an integer, or fails.
fn integer_of(value: BareItemFromInput<'_>) -> Result<Integer, ItemFault> {
    value.as_integer().ok_or(ItemFault::NoItem)
}

/// Returns the result of a function that is called on the first item of a list.
fn called_on_first(alloc: Global, input: &[u8]) -> Option<Option<Integer>> {
    let visitor = item_visitor_with(integer_of);
    Parser::new(input)
        .parse_list_with_visitor(alloc, visitor)
        .ok()
}

#[test]
fn functions_are_called_on_the_first_item(rt: HostRuntime) {
    let rows = [
        ("(1 2), 3, a", Some(Some(integer(1)))),
        ("", Some(None)),
        ("a, 3", None),
    ];
    for (input, answer) in rows {
        assert!(rt;
            called_on_first(rt.alloc(), input.as_bytes()) == answer,
            "{input}"
        );
    }
    let visitor = item_visitor_with(integer_of);
    let answer = Parser::new(b"4").parse_item_with_visitor(rt.alloc(), visitor);
    assert!(rt; answer.ok() == Some(Some(integer(4))));
}

#[test]
fn closures_are_called_on_the_first_item(rt: HostRuntime) {
    let mut seen = false;
    let mut visitor = item_visitor_with(
        |item: BareItemFromInput<'_>|
            ensures { ⊤ }
        {
            seen = item == BareItemFromInput::from(5u8);
            integer_of(item)
        },
    );
    let parameter = Event::Parameter(key_ref("a"), BareItemFromInput::from(4u8));
    let taken = visitor.event(parameter).is_ok()
        & visitor
            .event(Event::BareItem(BareItemFromInput::from(5u8)))
            .is_ok()
        & visitor
            .event(Event::BareItem(BareItemFromInput::from(6u8)))
            .is_ok();
    let answer = visitor.finish().ok();
    assert!(rt; taken & seen & (answer == Some(Some(integer(5)))));
}

/// Returns `true` if a number is below five. Fails for ten and above.
fn is_small(number: Integer) -> Result<bool, ItemFault> {
    if number < integer(10) {
        Ok(number < integer(5))
    } else {
        Err(ItemFault::NoItem)
    }
}

/// Returns the result of `is_small` for the first number of an item.
fn smallness(alloc: Global, input: &[u8]) -> Result<bool, ItemFault> {
    let expected: ExpectItem<Integer> = ExpectItem::new(alloc);
    let visitor = parameter_visitor_with(expected, is_small);
    match Parser::new(input).parse_item_with_visitor(alloc, visitor) {
        Ok(small) => Ok(small),
        Err(ParseError::Visitor(fault)) => Err(fault),
        Err(ParseError::Syntax(_)) => Err(ItemFault::OutOfMemory),
    }
}

/// The error of a token where an integer is expected.
const NO_INTEGER: ItemFault = ItemFault::WrongType {
    expected: BareItemType::Integer,
    got: BareItemType::Token,
};

#[test]
fn functions_are_called_on_the_answer_of_a_visitor(rt: HostRuntime) {
    let alloc = rt.alloc();
    let visitor = parameter_visitor_with(Ignored, seven);
    let answer = Parser::new(b"a;b").parse_item_with_visitor(alloc, visitor);
    assert!(rt; matches!(answer, Ok(7)));
    let rows = &[
        ("4;a=5", Ok(true)),
        ("5;a=4", Ok(false)),
        ("12", Err(ItemFault::NoItem)),
        // The inner visitor fails first.
        ("abc", Err(NO_INTEGER)),
    ];
    for &(input, wanted) in rows {
        assert!(rt; smallness(alloc, input.as_bytes()) == wanted, "{input}");
    }
}

#[test]
fn closures_are_called_on_the_answer_of_a_visitor(rt: HostRuntime) {
    let word = token_ref("abc");
    let visitor = parameter_visitor_with(
        Ignored,
        move |_answer: ()|
            ensures { ⊤ }
        { Ok(word) },
    );
    assert!(rt; visitor.finish() == Ok(token_ref("abc")));
}
