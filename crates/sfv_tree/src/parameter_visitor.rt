//! A visitor that passes the result of another visitor to a function.

ghost use Rattle.std.specs.Prelude.{◌≡◌, ◌⊎◌, Ok, Err};
ghost use Rattle.sfv_tree.specs.ProvidedVisitors.{ForwardTakes, GivesAfter};

use crate::visitor::{Event, Visitor};
use std::marker::PhantomData;

/// A visitor that passes every event to another visitor, and that visitor's result to a function.
///
/// The function is called once, after `finish` of the other visitor. This visitor returns the function's result.
#[derive(Drop)]
pub struct ParameterVisitorWith<V, F, A> {
    visitor: V,
    f: F,
    // The type of the function's argument.
    answer: PhantomData<A>,
}

/// Creates a visitor that returns `f` of the result of `visitor`. It fails if `visitor` or `f` fails. `f` must accept
/// every result of `visitor`.
pub fn parameter_visitor_with<
    'de,
    A,
    T,
    E,
    V: Visitor<'de, Out = A, Error = E>,
    F: FnOnce(A) -> Result<T, E>,
>(visitor: V, f: F) -> ParameterVisitorWith<V, F, A>
    requires { F.IsAlwaysCallable f }
    ensures within { result.visitor ≡ visitor }
    ensures after { result.f ≡ f }
{
    ParameterVisitorWith {
        visitor,
        f,
        answer: PhantomData,
    }
}

impl<
    'de,
    A: Drop,
    T: Drop,
    E: Drop,
    V: Visitor<'de, Out = A, Error = E>,
    F: FnOnce(A) -> Result<T, E> + Drop,
> Visitor<'de> for ParameterVisitorWith<V, F, A> {
    type Out = T;

    type Error = E;

    ghost is_ready = { λ s. V.is_ready s.visitor × F.IsAlwaysCallable s.f };

    ghost takes = { ForwardTakes V.takes };

    ghost fails = { λ s e fault. V.fails s.visitor e fault };

    ghost takes_read = { ForwardTakes V.takes_read };

    ghost fails_read = { λ s e fault. V.fails_read s.visitor e fault };

    ghost finishes = { λ s out. GivesAfter V.finishes F.post s (Ok out) };

    ghost finish_fails = { λ s fault.
        V.finish_fails s.visitor fault ⊎ GivesAfter V.finishes F.post s (Err fault) };

    #[inline(always)]
    fn event(&mut self, event: Event<'de>) -> Result<(), E> {
        self.visitor.event(event)
    }

    fn finish(self) -> Result<T, E> {
        let answer = self.visitor.finish()?;
        (self.f)(answer)
    }
}
