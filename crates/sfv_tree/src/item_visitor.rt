//! A visitor that calls a function on a bare item.

ghost use Rattle.std.specs.Prelude.{◌≡◌, ⊤, Some, None, MatchOption};
ghost use Rattle.sfv_tree.specs.ProvidedVisitors.{OnRead, CallTakes, CallFails};

use crate::visitor::{Event, Visitor};
use sfv_values::bare::BareItemFromInput;

/// A visitor that calls a function once, on the first bare item. Returns `Some` of the function's result, or `None`
/// if there was no bare item.
///
/// Fails if the function fails, at that event. Ignores every other event.
///
/// Use it for items. In a list or a dictionary it calls the function on the first bare item of the whole field.
#[derive(Drop)]
pub struct ItemVisitorWith<F, T> {
    // The function, until it is called.
    f: Option<F>,
    kept: Option<T>,
}

/// Creates a visitor that calls `f` on the first bare item. `f` must accept every bare item.
pub fn item_visitor_with<'de, T, E, F: FnOnce(BareItemFromInput<'de>) -> Result<T, E>>(
    f: F,
) -> ItemVisitorWith<F, T>
    requires { F.IsAlwaysCallable f }
    ensures waiting { result.f ≡ Some f }
    ensures kept { result.kept ≡ None }
{
    ItemVisitorWith {
        f: Some(f),
        kept: None,
    }
}

impl<'de, T: Drop, E: Drop, F: FnOnce(BareItemFromInput<'de>) -> Result<T, E> + Drop> Visitor<'de>
    for ItemVisitorWith<F, T> {
    type Out = Option<T>;

    type Error = E;

    ghost is_ready = { λ s. MatchOption s.f ⊤ F.IsAlwaysCallable };

    ghost takes = { OnRead (CallTakes F.post) };

    ghost fails = { OnRead (CallFails F.post) };

    ghost takes_read = { CallTakes F.post };

    ghost fails_read = { CallFails F.post };

    ghost finishes = { λ s out. out ≡ s.kept };

    ghost finish_fails = { λ _ _. ⊥ };

    #[inline(always)]
    fn event(&mut self, event: Event<'de>) -> Result<(), E> {
        let Event::BareItem(item) = event else {
            return Ok(());
        };
        if let Some(f) = self.f.take() {
            self.kept = Some(f(item)?);
        }
        Ok(())
    }

    fn finish(self) -> Result<Option<T>, E> {
        Ok(self.kept)
    }
}
