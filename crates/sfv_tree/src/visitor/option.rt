//! An optional visitor: `None` ignores every event.

ghost use Rattle.std.specs.Prelude.{◌≡◌, ⊤, Some, None, MatchOption};

use crate::visitor::{Event, Visitor};

impl<'de, V: Visitor<'de>> Visitor<'de> for Option<V> {
    type Out = Option<V::Out>;

    type Error = V::Error;

    ghost is_ready = { λ s. MatchOption s ⊤ V.is_ready };

    ghost takes = { λ s event after. MatchOption s (after ≡ None) (λ visitor.
        (next : V) × (after ≡ Some next) × V.takes visitor event next) };

    ghost fails = { λ s event fault. MatchOption s ⊥ (λ visitor. V.fails visitor event fault) };

    ghost takes_read = { λ s event after. MatchOption s ⊤ (λ visitor.
        (next : V) × (after ≡ Some next) × V.takes_read visitor event next) };

    ghost fails_read = { λ s event fault. MatchOption s ⊥ (λ visitor. V.fails_read visitor event fault) };

    ghost finishes = { λ s out. MatchOption s (out ≡ None) (λ visitor.
        (answer : V.Out) × (out ≡ Some answer) × V.finishes visitor answer) };

    ghost finish_fails = { λ s fault. MatchOption s ⊥ (λ visitor. V.finish_fails visitor fault) };

    #[inline(always)]
    fn event(&mut self, event: Event<'de>) -> Result<(), V::Error> {
        match self {
            Some(visitor) => visitor.event(event),
            None => Ok(()),
        }
    }

    fn finish(self) -> Result<Option<V::Out>, V::Error> {
        match self {
            Some(visitor) => Ok(Some(visitor.finish()?)),
            None => Ok(None),
        }
    }
}
