//! A check that parsing ends where a visitor fails, and that the visitor is not called again.

use sfv::visitor::{Event, Visitor};
use sfv::{FieldKind, ParseError, Parser, Version};
use std::alloc::Global;

/// A visitor that counts its calls in a borrowed counter, and fails at one of them.
#[derive(Drop)]
struct Watched<'a> {
    calls: &'a mut u64,
    /// The call that fails, from 1; 0 for none.
    failing_call: u64,
}

impl Watched<'_> {
    /// Counts a call, and fails with its number if it is the failing call.
    fn call(&mut self) -> Result<(), u64> {
        *self.calls = self.calls.saturating_add(1);
        if *self.calls == self.failing_call {
            return Err(*self.calls);
        }
        Ok(())
    }
}

impl<'de, 'a> Visitor<'de> for Watched<'a> {
    ghost use Rattle.std.specs.Prelude.{⊤};

    type Out = ();

    type Error = u64;

    ghost takes = { λ _ _ _. ⊤ };

    ghost fails = { λ _ _ _. ⊤ };

    ghost finishes = { λ _ _. ⊤ };

    ghost finish_fails = { λ _ _. ⊤ };

    fn event(&mut self, _event: Event<'de>) -> Result<(), u64> {
        self.call()
    }

    fn finish(mut self) -> Result<(), u64> {
        self.call()
    }
}

/// Parses with a visitor that counts its calls in `calls`.
fn read_with_counter(
    alloc: Global,
    parser: Parser<'_>,
    field: FieldKind,
    calls: &mut u64,
    failing_call: u64,
) -> Result<(), ParseError<u64>> {
    let visitor = Watched {
        calls,
        failing_call,
    };
    match field {
        FieldKind::Item => parser.parse_item_with_visitor(alloc, visitor),
        FieldKind::List => parser.parse_list_with_visitor(alloc, visitor),
        FieldKind::Dictionary => parser.parse_dictionary_with_visitor(alloc, visitor),
    }
}

/// Returns `true` if parsing ends at the failing call: it returns the visitor's error, and does not call the visitor
/// again.
fn ends_at(alloc: Global, parser: Parser<'_>, field: FieldKind, failing_call: u64) -> bool {
    let mut calls = 0;
    let answer = read_with_counter(alloc, parser, field, &mut calls, failing_call);
    calls == failing_call && matches!(answer, Err(ParseError::Visitor(n)) if n == failing_call)
}

/// Returns the number of calls of a visitor that never fails. Returns `None` unless, for each of these calls, a visitor
/// that fails there ends parsing.
pub fn calls_of(alloc: Global, field: FieldKind, version: Version, input: &[u8]) -> Option<u64> {
    let parser = Parser::new(input).with_version(version);
    let mut total = 0;
    let answer = read_with_counter(alloc, parser, field, &mut total, 0);
    let ends = !matches!(answer, Err(ParseError::Visitor(_)))
        && (1..=total).all(|failing_call| ends_at(alloc, parser, field, failing_call));
    if ends { Some(total) } else { None }
}
