//! The events that a visitor has received when memory runs out in the parser.

use crate::refused_if;
use sfv::visitor::{Event, Visitor};
use sfv::{Error, ErrorKind, FieldKind, ParseError, Parser, Version};
use std::alloc::Global;

/// A visitor that appends the digit of each event to a borrowed number.
#[derive(Drop)]
struct Tracing<'a> {
    trace: &'a mut u64,
}

impl<'de, 'a> Visitor<'de> for Tracing<'a> {
    ghost use Rattle.std.specs.Prelude.{⊤};

    type Out = ();

    type Error = Error;

    ghost takes = { λ _ _ _. ⊤ };

    ghost fails = { λ _ _ _. ⊥ };

    ghost finishes = { λ _ _. ⊤ };

    ghost finish_fails = { λ _ _. ⊥ };

    fn event(&mut self, event: Event<'de>) -> Result<(), Error> {
        let digit = match &event {
            Event::Entry => 1,
            Event::KeyedEntry(_) => 2,
            Event::Item => 3,
            Event::InnerList => 4,
            Event::BareItem(_) => 5,
            Event::Parameter(_, _) => 6,
            Event::ParametersEnd => 7,
            Event::InnerListEnd => 8,
        };
        *self.trace = self.trace.saturating_mul(10).saturating_add(digit);
        Ok(())
    }

    fn finish(self) -> Result<(), Error> {
        Ok(())
    }
}

/// Parses a field under the version with a visitor that never fails. Returns `true` if its trace is then `whole`. If
/// memory runs out, the trace is one of `before`: all events before a text that is allocated.
pub fn visit(
    alloc: Global,
    version: Version,
    field: FieldKind,
    input: &[u8],
    whole: u64,
    before: &[u64],
) -> Result<bool, Error> {
    let mut trace = 0;
    let parser = Parser::new(input).with_version(version);
    let visitor = Tracing { trace: &mut trace };
    let visited = match field {
        FieldKind::Item => parser.parse_item_with_visitor(alloc, visitor),
        FieldKind::List => parser.parse_list_with_visitor(alloc, visitor),
        FieldKind::Dictionary => parser.parse_dictionary_with_visitor(alloc, visitor),
    };
    match visited {
        Ok(()) => Ok(trace == whole),
        Err(ParseError::Syntax(error)) if error.is_out_of_memory() => {
            refused_if(before.contains(&trace))
        }
        Err(_) => Err(Error::with_kind(ErrorKind::Empty, None)),
    }
}
