//! Visitors: the events that they receive, and the effects of their errors.

use crate::common::{has_text, repeated};
use linked_list_allocator::LocalHeap;
use sfv::visitor::{Event, Visitor};
use sfv::{BareItemFromInput, GenericBareItem, ParseError, Parser, StringFromInput, Version};
use sfv_random::rows::row;
use std::alloc::{AllocError, Allocator, Global};
use std::borrow::CowStr;
use std::fmt::Write;
use std::rc::Rc;
use std::test::Fail;

/// A visitor that writes each event into a text. Its error is out of memory.
#[derive(Drop)]
struct Teller<A: Allocator> {
    text: String<A>,
}

impl<'de, A: Allocator> Visitor<'de> for Teller<A> {
    ghost use Rattle.std.specs.Prelude.{⊤};

    type Out = String<A>;

    type Error = AllocError;

    ghost takes = { λ _ _ _. ⊤ };

    ghost fails = { λ _ _ _. ⊤ };

    ghost finishes = { λ _ _. ⊤ };

    ghost finish_fails = { λ _ _. ⊤ };

    fn event(&mut self, event: Event<'de>) -> Result<(), AllocError> {
        tell(&mut self.text, &event)
    }

    fn finish(self) -> Result<String<A>, AllocError> {
        Ok(self.text)
    }
}

/// Writes an event.
fn tell<A: Allocator>(text: &mut String<A>, event: &Event<'_>) -> Result<(), AllocError> {
    let (front, key, end) = match event {
        Event::BareItem(_) => ("bare ", "", ""),
        Event::Parameter(key, _) => (", ", key.as_str(), "="),
        Event::ParametersEnd => (", end", "", ""),
        Event::Entry => ("; entry ", "", ""),
        Event::KeyedEntry(key) => ("; entry ", key.as_str(), " "),
        Event::Item => ("item ", "", ""),
        Event::InnerList => ("list ", "", ""),
        Event::InnerListEnd => (" list end", "", ""),
    };
    text.push_str(front)?;
    text.push_str(key)?;
    text.push_str(end)?;
    match event {
        Event::BareItem(value) | Event::Parameter(_, value) => push_value(text, value),
        _ => Ok(()),
    }
}

/// Writes an integer, a boolean or a token.
fn push_value<A: Allocator>(
    text: &mut String<A>,
    value: &BareItemFromInput<'_>,
) -> Result<(), AllocError> {
    match value {
        GenericBareItem::Integer(number) => write!(text, "{number}").map_err(|_| AllocError),
        GenericBareItem::Boolean(true) => text.push_str("true"),
        GenericBareItem::Boolean(false) => text.push_str("false"),
        GenericBareItem::Token(token) => text.push_str(token.as_str()),
        _ => text.push_str("other"),
    }
}

/// A visitor that writes each string and display string, and whether it is a slice of the input. It writes a bare item
/// after `=`, and the value of a parameter after `;`.
#[derive(Drop)]
struct Texts {
    text: String,
}

impl<'de> Visitor<'de> for Texts {
    ghost use Rattle.std.specs.Prelude.{⊤};

    type Out = String;

    type Error = AllocError;

    ghost takes = { λ _ _ _. ⊤ };

    ghost fails = { λ _ _ _. ⊤ };

    ghost finishes = { λ _ _. ⊤ };

    ghost finish_fails = { λ _ _. ⊤ };

    fn event(&mut self, event: Event<'de>) -> Result<(), AllocError> {
        match &event {
            Event::BareItem(value) => push_text(&mut self.text, "=", value),
            Event::Parameter(_, value) => push_text(&mut self.text, ";", value),
            _ => Ok(()),
        }
    }

    fn finish(self) -> Result<String, AllocError> {
        Ok(self.text)
    }
}

/// Writes a string or a display string after `front`, and whether it is borrowed. Writes nothing for another value.
fn push_text(
    text: &mut String,
    front: &str,
    value: &BareItemFromInput<'_>,
) -> Result<(), AllocError> {
    let (word, content) = match value {
        GenericBareItem::String(StringFromInput::Borrowed(string)) => (
            "borrowed ",
            string.as_str(),
        ),
        GenericBareItem::String(StringFromInput::Owned(string)) => ("owned ", string.as_str()),
        GenericBareItem::DisplayString(CowStr::Borrowed(string)) => ("borrowed ", *string),
        GenericBareItem::DisplayString(CowStr::Owned(string)) => ("owned ", string.as_str()),
        _ => return Ok(()),
    };
    text.push_str(front)?;
    text.push_str(word)?;
    text.push_str(content)
}

/// Returns the texts of an item, a list or a dictionary.
fn texts_of(alloc: Global, field: &str, input: &str) -> Option<String> {
    let parser = Parser::new(input.as_bytes());
    let visitor = Texts {
        text: String::new(alloc),
    };
    match field {
        "item" => parser.parse_item_with_visitor(alloc, visitor).ok(),
        "list" => parser.parse_list_with_visitor(alloc, visitor).ok(),
        _ => parser.parse_dictionary_with_visitor(alloc, visitor).ok(),
    }
}

#[test]
fn texts_without_an_escape_are_borrowed(rt: HostRuntime) -> Result<(), Fail> {
    let rows = &[
        ("item", r#""a%b""#, "=borrowed a%b"),
        ("item", r#""""#, "=borrowed "),
        ("item", r#""a\\b""#, r"=owned a\b"),
        ("item", r#"%"a\b""#, r"=borrowed a\b"),
        ("item", r#"%"""#, "=borrowed "),
        ("item", r#"%"a%20b""#, "=owned a b"),
        ("item", r#"1;a="b""#, ";borrowed b"),
        ("item", r#"1;a="b\\""#, r";owned b\"),
        ("item", r#"1;a=%"b""#, ";borrowed b"),
        ("item", r#"1;a=%"%20""#, ";owned  "),
        ("item", r#"a;p="x";q="\\""#, r";borrowed x;owned \"),
        (
            "list",
            r#""abc", "a\"b", %"x", %"%c3%a9", tok"#,
            "=borrowed abc=owned a\"b=borrowed x=owned \u{e9}",
        ),
        (
            "list",
            r#"("abc" "a\"b";p="x";q="\\" tok);p=%"%c3%a9";q=%"z""#,
            "=borrowed abc=owned a\"b;borrowed x;owned \\;owned \u{e9};borrowed z",
        ),
        (
            "dict",
            r#"a="abc";p="x", b="a\"b";q="\\", c=(%"x" %"%c3%a9")"#,
            "=borrowed abc;borrowed x=owned a\"b;owned \\=borrowed x=owned \u{e9}",
        ),
    ];
    for &(field, input, texts) in rows {
        let holds = has_text(texts_of(rt.alloc(), field, input), texts);
        row(field, Version::Rfc9651, input, texts, holds)?;
    }
    Ok(())
}

// 33,333 times `a\"`, and then `a`, between quotes. The string has 66,667 characters, here after `=owned `.
#[test]
fn a_long_string_with_escapes_is_owned(rt: HostRuntime) -> Result<(), Fail> {
    let input = repeated(rt.alloc(), "\"", "a\\\"", 33_333, "a\"")?;
    let texts = repeated(rt.alloc(), "=owned ", "a\"", 33_333, "a")?;
    assert!(rt; input.len() == 100_002 && texts.len() == 66_674);
    assert!(rt; has_text(texts_of(rt.alloc(), "item", input.as_str()), texts.as_str()));
    Ok(())
}

/// Creates a visitor that writes events into a new text.
fn new_teller(alloc: Global) -> Teller<Global> {
    Teller {
        text: String::new(alloc),
    }
}

#[test]
fn events_stand_in_their_order(rt: HostRuntime) {
    let alloc = rt.alloc();
    let item = Parser::new(b"1;a;b=2;a=3").parse_item_with_visitor(alloc, new_teller(alloc));
    let list = Parser::new(b"1;a, ()").parse_list_with_visitor(alloc, new_teller(alloc));
    let dictionary = Parser::new(b"a=(1 x;y), b").parse_dictionary_with_visitor(
        alloc,
        new_teller(alloc),
    );
    assert!(rt; has_text(item.ok(), "bare 1, a=true, b=2, a=3, end"));
    let wanted = "; entry item bare 1, a=true, end; entry list  list end, end";
    assert!(rt; has_text(list.ok(), wanted));
    let wanted =
        "; entry a list item bare 1, enditem bare x, y=true, end list end, end; entry b item bare true, end";
    assert!(rt; has_text(dictionary.ok(), wanted));
}

/// Returns the result of a visitor on a heap of this size: `true` if it wrote all events, `false` if memory ran out.
fn told_on_heap(alloc: Global, size: usize) -> Option<bool> {
    let heap = LocalHeap::new(alloc, size).ok()?;
    let text = String::new(&heap);
    match Parser::new(b"1;a;b=2").parse_item_with_visitor(alloc, Teller { text }) {
        Ok(text) if text.as_str() == "bare 1, a=true, b=2, end" => Some(true),
        Err(ParseError::Visitor(AllocError)) => Some(false),
        _ => None,
    }
}

#[test]
fn want_of_memory_is_the_visitors_answer(rt: HostRuntime) {
    let (mut was_out_of_memory, mut was_answered) = (false, false);
    for size in 16..256usize {
        match told_on_heap(rt.alloc(), size) {
            Some(true) => was_answered = true,
            Some(false) => was_out_of_memory = true,
            None => assert!(rt; false, "{size}"),
        }
    }
    assert!(rt; was_out_of_memory && was_answered);
}

/// A visitor that fails at the event after `left` others, or in `finish`. It holds a value.
#[derive(Drop)]
struct Stopper {
    left: usize,
    held: Rc<u8>,
}

impl<'de> Visitor<'de> for Stopper {
    ghost use Rattle.std.specs.Prelude.{⊤};

    type Out = (usize, Rc<u8>);

    type Error = AllocError;

    ghost takes = { λ _ _ _. ⊤ };

    ghost fails = { λ _ _ _. ⊤ };

    ghost finishes = { λ _ _. ⊤ };

    ghost finish_fails = { λ _ _. ⊤ };

    fn event(&mut self, _event: Event<'de>) -> Result<(), AllocError> {
        if self.left == 0 {
            return Err(AllocError);
        }
        self.left -= 1;
        Ok(())
    }

    fn finish(self) -> Result<(usize, Rc<u8>), AllocError> {
        if self.left == 0 {
            return Err(AllocError);
        }
        Ok((self.left, self.held))
    }
}

/// Returns how many events a visitor could still receive, or `None` if it failed. The visitor fails after so many events.
fn stops(
    alloc: Global,
    field: &str,
    version: Version,
    input: &str,
    (left, held): (usize, &Rc<u8>),
) -> Result<Option<usize>, Fail> {
    let visitor = Stopper {
        left,
        held: held.clone()?,
    };
    let parser = Parser::new(input.as_bytes()).with_version(version);
    let answer = match field {
        "item" => parser.parse_item_with_visitor(alloc, visitor),
        "list" => parser.parse_list_with_visitor(alloc, visitor),
        _ => parser.parse_dictionary_with_visitor(alloc, visitor),
    };
    Ok(match answer {
        Ok((left, _)) => Some(left),
        Err(ParseError::Visitor(AllocError)) => None,
        Err(ParseError::Syntax(_)) => Some(usize::MAX),
    })
}

/// More than the events of a field.
pub const MOST: usize = 1_000_000;

/// Fails unless a visitor of this field may fail at each of its first 60 events, and in `finish`, and is dropped.
pub fn stops_at_each_event(
    alloc: Global,
    field: &str,
    version: Version,
    input: &str,
) -> Result<(), Fail> {
    let held = Rc::new(alloc, 1u8)?;
    let left = stops(alloc, field, version, input, (MOST, &held))?.unwrap_or(0);
    let events = MOST.saturating_sub(left);
    let holds = stops(alloc, field, version, input, (events, &held))?.is_none();
    row(field, version, input, events, holds)?;
    for count in 0..events.min(60) {
        let holds = stops(alloc, field, version, input, (count, &held))?.is_none();
        row(field, version, input, count, holds)?;
    }
    row(
        field,
        version,
        input,
        "no visitor left",
        Rc::strong_count(&held) == 1,
    )
}

/// Fields with escaped texts and byte sequences.
const EVENTS: &[(&str, &str)] = &[
    ("item", ":aGk=:"),
    ("item", ":aGk=:;a;b=:aA==:;c=\"\\\\\""),
    ("item", " a;b=c%;c=1 "),
    ("list", ""),
    ("list", ":aGk=:, (1 \"\\\\\";a;b=:aA==:);c=c%;d, (), a;b"),
    ("list", "(:aGk=:;a b);a, \"\\\\\", 1.5;a=::"),
    (
        "dict",
        "a=:aGk=:, b, c;d, e=(1 \"\\\\\";a;b=:aA==:);c=c%;d, f=(), g=a;b",
    ),
    ("dict", "a, b=:aGk=:"),
];

#[test]
fn a_visitor_may_fail_at_each_event(rt: HostRuntime) -> Result<(), Fail> {
    for &(field, input) in EVENTS {
        for &version in &[Version::Rfc8941, Version::Rfc9651] {
            stops_at_each_event(rt.alloc(), field, version, input)?;
        }
    }
    Ok(())
}

/// Rejected fields with the number of the events before the error.
const REJECTED: &[(&str, &str, usize)] = &[
    ("item", "!", 0),
    ("item", ":aGk=:;a;!", 2),
    ("item", ":aGk=:;a !", 3),
    ("list", ":aGk=:, ", 4),
    ("list", ":aGk=:, (a", 9),
    ("dict", "a=:aGk=:, b=!", 6),
    ("dict", "a=:aGk=:, (", 4),
];

#[test]
fn a_visitor_is_dropped_after_an_error(rt: HostRuntime) -> Result<(), Fail> {
    let alloc = rt.alloc();
    let held = Rc::new(alloc, 1u8)?;
    for &(field, input, count) in REJECTED {
        for left in 0..count.saturating_add(3) {
            let finishes = usize::from(input == ":aGk=:;a !");
            let wanted = if left < count.saturating_add(finishes) {
                None
            } else {
                Some(usize::MAX)
            };
            let stopped = stops(alloc, field, Version::Rfc9651, input, (left, &held))?;
            let holds = stopped == wanted && Rc::strong_count(&held) == 1;
            row(field, Version::Rfc9651, input, left, holds)?;
        }
    }
    Ok(())
}
