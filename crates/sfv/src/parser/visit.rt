//! Calls of the visitor, with its errors as errors of parsing.

ghost use Rattle.std.specs.Prelude.{OnOk, IfOk, IfErr};
ghost use Rattle.sfv_tree.specs.Events.{event_of};
ghost use Rattle.sfv.specs.parser.Visits.{IsOfVisitor};

use sfv_base::error::ParseError;
use sfv_tree::visitor::{Event, Visitor};

/// Passes an event to the visitor.
#[inline(always)]
pub(crate) fn visit<'de, V: Visitor<'de>>(
    visitor: &mut V,
    event: Event<'de>,
) -> Result<(), ParseError<V::Error>>
    requires { V.is_ready visitor.old }
    ensures ready { OnOk result (V.is_ready visitor.new) }
    ensures taken { OnOk result (V.takes visitor.old (event_of event.entry) visitor.new) }
    ensures taken_read { OnOk result (V.takes_read visitor.old event.entry visitor.new) }
    ensures failed { IfErr result (IsOfVisitor (V.fails visitor.old (event_of event.entry))) }
    ensures failed_read { IfErr result (IsOfVisitor (V.fails_read visitor.old event.entry)) }
{
    visitor.event(event).map_err(ParseError::Visitor)
}

/// Finishes the visitor, and returns its result.
#[inline(always)]
pub(crate) fn finish<'de, V: Visitor<'de>>(visitor: V) -> Result<V::Out, ParseError<V::Error>>
    requires { V.is_ready visitor }
    ensures answered { IfOk result (V.finishes visitor) }
    ensures failed { IfErr result (IsOfVisitor (V.finish_fails visitor)) }
{
    visitor.finish().map_err(ParseError::Visitor)
}
