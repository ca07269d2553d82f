//! Parsing a field whose type is a value.

ghost use Rattle.std.specs.Prelude.{◌≡◌, ⊤, IfOk, IfErr};
ghost use Rattle.sfv.specs.Memory.{NeedsMark};
ghost use Rattle.sfv.specs.Parsers.{input_of, version_of, IsAnswerBy, ReceivesAsReadBy, IsSyntaxErrorBy};
ghost use Rattle.sfv.specs.Parsers.{IsVisitorErrorBy};
ghost use Rattle.sfv.specs.Types.parse_errors;
ghost use Rattle.sfv_tree.specs.declared.visitor.Event.{Event};
ghost use Rattle.sfv_c.specs.Answers.{IsReadingError};
ghost use Rattle.sfv_c.specs.Receivers.{IsReceived};

use sfv::visitor::{Event, Visitor};
use sfv::{Error, FieldKind, ParseError, Parser};
use std::alloc::Global;
use std::convert::Infallible;

/// Parses the input as a field of this type with a visitor.
pub(crate) fn read<'de, V: Visitor<'de>>(
    alloc: Global,
    field: FieldKind,
    parser: Parser<'de>,
    visitor: V,
) -> Result<V::Out, ParseError<V::Error>>
    requires { V.is_ready visitor }
    ensures visited { IfOk result (IsAnswerBy V.Visitor parser.entry field visitor) }
    ensures as_read { IfOk result (ReceivesAsReadBy V.Visitor parser.entry field visitor) }
    ensures syntax { IfErr result (IsSyntaxErrorBy V.Visitor parser.entry field visitor) }
    ensures visitor { IfErr result (IsVisitorErrorBy V.Visitor parser.entry field visitor) }
    ensures memory { IfErr result (NeedsMark (input_of parser.entry)) }
{
    match field {
        FieldKind::Item => parser.parse_item_with_visitor(alloc, visitor),
        FieldKind::List => parser.parse_list_with_visitor(alloc, visitor),
        FieldKind::Dictionary => parser.parse_dictionary_with_visitor(alloc, visitor),
    }
}

/// Returns the syntax error of parsing with a visitor that never fails.
pub(crate) fn syntax_of(error: ParseError<Infallible>) -> Error
    ensures { parse_errors.Syntax result ≡ error }
{
    match error {
        ParseError::Syntax(error) => error,
        ParseError::Visitor(never) => match never {},
    }
}

/// A receiver of the events of a field. It never fails.
///
/// It is passed by reference. A visitor is passed by value, and then its caller knows nothing of rows that the visitor
/// borrows mutably, because their type names a lifetime.
pub(crate) trait Receiver<'de>: Drop {
    /// `receives s e t`: in state `s` the receiver may receive `e`, and then is in state `t`.
    ghost receives: { Self → Event → Self → Type 0 };

    /// Receives an event.
    fn receive(&mut self, event: Event<'de>)
        ensures { receives self.old event.entry self.new };
}

/// A visitor that passes every event on to a receiver.
#[derive(Drop)]
struct Passing<'r, R> {
    receiver: &'r mut R,
}

impl<'r, 'de, R: Receiver<'de>> Visitor<'de> for Passing<'r, R> {
    type Out = Passing<'r, R>;

    type Error = Infallible;

    ghost takes = { λ _ _ _. ⊤ };

    ghost takes_read = { λ s e t. (t.receiver.ghost_name ≡ s.receiver.ghost_name)
        × R.receives s.receiver.now e t.receiver.now };

    ghost fails = { λ _ _ _. ⊥ };

    ghost finishes = { λ s out. out ≡ s };

    ghost finish_fails = { λ _ _. ⊥ };

    #[inline(always)]
    fn event(&mut self, event: Event<'de>) -> Result<(), Infallible> {
        self.receiver.receive(event);
        Ok(())
    }

    fn finish(self) -> Result<Passing<'r, R>, Infallible> {
        Ok(self)
    }
}

/// Parses the input as a field of this type, and passes its events to a receiver.
pub(crate) fn read_into<'de, R: Receiver<'de>>(
    alloc: Global,
    field: FieldKind,
    parser: Parser<'de>,
    receiver: &mut R,
) -> Result<(), Error>
    ensures received { IfOk result (λ _. IsReceived R.receives (version_of parser.entry) field
        (input_of parser.entry) receiver.old receiver.new) }
    ensures rejected { IfErr result (IsReadingError (version_of parser.entry) field (input_of parser.entry)) }
{
    match read(alloc, field, parser, Passing { receiver }) {
        Ok(passing) => {
            // This gives the proof the last value of the reference.
            let receiver = passing.receiver;
            let _last = &*receiver;
            Ok(())
        }
        Err(error) => Err(syntax_of(error)),
    }
}
