//! A visitor that ignores every event.

ghost use Rattle.std.specs.Prelude.{⊤};

use crate::visitor::{Event, Visitor};
use std::convert::Infallible;

/// A visitor that ignores every event, repeated keys included, and returns `()`. Never fails.
#[derive(Clone, Copy, Debug, Default, Drop)]
pub struct Ignored;

impl<'de> Visitor<'de> for Ignored {
    type Out = ();

    type Error = Infallible;

    ghost takes = { λ _ _ _. ⊤ };

    ghost fails = { λ _ _ _. ⊥ };

    ghost finishes = { λ _ _. ⊤ };

    ghost finish_fails = { λ _ _. ⊥ };

    #[inline(always)]
    fn event(&mut self, _event: Event<'de>) -> Result<(), Infallible> {
        Ok(())
    }

    fn finish(self) -> Result<(), Infallible> {
        Ok(())
    }
}
