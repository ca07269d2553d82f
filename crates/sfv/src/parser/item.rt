//! Parsing of items and parameters (RFC 9651, sections 4.2.3 and 4.2.3.2).

ghost use Rattle.std.specs.Prelude.{◌≡◌, option_map, OnOk, IfOk, IfErr, MatchOption};
ghost use Rattle.sfv_spec.specs.Events.{parameters_events, item_events};
ghost use Rattle.sfv_values.specs.BareItems.{input_value};
ghost use Rattle.sfv_model.specs.Items.{value_at, parameter_at, parameters_at, item_at};
ghost use Rattle.sfv.specs.parser.Cursor.{version, rest, ReadsOrOutOfMemory};
ghost use Rattle.sfv.specs.parser.AsRead.{IsNextValue, IsNextParameter, VisitsAsRead};

use crate::parser::cursor::Cursor;
use crate::parser::visit::visit;
use sfv_base::error::{Error, ParseError};
use sfv_tree::visitor::{Event, Visitor};
use sfv_values::bare::{BareItemFromInput, GenericBareItem};
use sfv_values::key_ref::KeyRef;

/// A parsed parameter, with its key as a slice of the input.
#[derive(Drop)]
pub(crate) struct ReadParameter<'de> {
    pub(crate) key: KeyRef<'de>,
    pub(crate) value: BareItemFromInput<'de>,
}

impl<'de> Cursor<'de> {
    ghost use Rattle.sfv.specs.parser.Values.{read_pair};

    /// Parses the value of a parameter after its key. Without `=`, the value is true.
    #[inline(always)]
    #[tactic(auto, using(crate::proofs::reads::Steps::value_steps, crate::proofs::visits::AsRead::true_next))]
    fn parameter_value(&mut self) -> Result<BareItemFromInput<'de>, Error>
        ensures read { ReadsOrOutOfMemory input_value self.old self.new result (value_at (version self.old)) }
        ensures next { IfOk result (λ item. IsNextValue (version self.old) item (rest self.old) (rest self.new)) }
    {
        if self.take_if(b'=') {
            self.bare_item()
        } else {
            Ok(GenericBareItem::Boolean(true))
        }
    }

    /// Parses a parameter, or returns `None` if the next byte is not a semicolon.
    // Inlined into the loops: the result of a call goes through memory.
    #[inline(always)]
    #[tactic(auto, using(crate::proofs::reads::Steps::parameter_steps))]
    pub(super) fn parameter(&mut self) -> Result<Option<ReadParameter<'de>>, Error>
        ensures read { ReadsOrOutOfMemory (option_map read_pair) self.old self.new result
            (parameter_at (version self.old)) }
        ensures next { IfOk result (λ parameter. MatchOption parameter (rest self.new ≡ rest self.old)
            (λ p. IsNextParameter (version self.old) p.key p.value (rest self.old) (rest self.new))) }
    {
        if !self.take_if(b';') {
            return Ok(None);
        }
        self.skip_sp();
        let key = self.short_key()?;
        let value = self.parameter_value()?;
        Ok(Some(ReadParameter { key, value }))
    }

    /// Parses parameters in a loop, and passes each of them and their end to `visitor`.
    #[inline(never)]
    fn visit_parameters<V: Visitor<'de>>(
        &mut self,
        visitor: &mut V,
    ) -> Result<(), ParseError<V::Error>>
        requires { V.is_ready visitor.old }
        ensures ready { OnOk result (V.is_ready visitor.new) }
        ensures visited { VisitsAsRead V.Visitor parameters_events
            self.old self.new visitor.old visitor.new result parameters_at }
    {
        while let Some(parameter) = self.parameter()? {
            visit(visitor, Event::Parameter(parameter.key, parameter.value))?;
        }
        visit(visitor, Event::ParametersEnd)
    }

    /// Parses parameters, as `visit_parameters` does, by a call.
    // Inlined at the branch of a semicolon: the other branch then clears no room for the result of the call.
    #[inline(always)]
    fn visit_parameters_by_call<V: Visitor<'de>>(
        &mut self,
        visitor: &mut V,
    ) -> Result<(), ParseError<V::Error>>
        requires { V.is_ready visitor.old }
        ensures ready { OnOk result (V.is_ready visitor.new) }
        ensures visited { VisitsAsRead V.Visitor parameters_events
            self.old self.new visitor.old visitor.new result parameters_at }
    {
        self.visit_parameters(visitor)
    }

    /// Parses any number of parameters, and passes each of them and their end to `visitor`.
    #[inline(always)]
    pub(crate) fn parameters<V: Visitor<'de>>(
        &mut self,
        visitor: &mut V,
    ) -> Result<(), ParseError<V::Error>>
        requires { V.is_ready visitor.old }
        ensures ready { OnOk result (V.is_ready visitor.new) }
        ensures visited { VisitsAsRead V.Visitor parameters_events
            self.old self.new visitor.old visitor.new result parameters_at }
    {
        // Most items have no parameters. This path avoids the stack frame of the loop.
        if !self.next_is(b';') {
            return visit(visitor, Event::ParametersEnd);
        }
        self.visit_parameters_by_call(visitor)
    }

    /// Parses an item, and passes its parts to `visitor`.
    #[inline(always)]
    pub(crate) fn item<V: Visitor<'de>>(
        &mut self,
        visitor: &mut V,
    ) -> Result<(), ParseError<V::Error>>
        requires { V.is_ready visitor.old }
        ensures ready { OnOk result (V.is_ready visitor.new) }
        ensures visited { VisitsAsRead V.Visitor item_events self.old self.new visitor.old visitor.new result item_at }
    {
        let bare_item = self.bare_item()?;
        visit(visitor, Event::BareItem(bare_item))?;
        self.parameters(visitor)
    }
}
