//! The outputs of serializers.

ghost use Rattle.std.specs.Prelude.{◌≡◌};
ghost use Rattle.std.specs.Borrow.{sem, Lends};
ghost use Rattle.std.proofs.Common.{◌∙◌, refl};
ghost use Rattle.sfv_serializer.specs.Texts.{Text, text_row};

use std::string::String as StdString;

/// A token that a call of [`Sink::text_mut`] takes.
///
/// The token has no public path, and only this crate makes one. So no other crate calls `Sink::text_mut` or writes an
/// `impl` of `Sink`.
#[derive(Clone, Copy, Drop)]
pub struct Opener {
    opens: (),
}

pub(crate) const OPENER: Opener = Opener { opens: () };

/// An output of a serializer: a `&mut String`, or a serializer that holds one. The trait is sealed.
///
/// Code that writes members with the calls of a serializer takes `W: Sink`.
pub trait Sink: Drop {
    // The text of the output.
    ghost text: { Self → Text };

    // The same output with another text.
    ghost with_text: { Self → Text → Self };

    // Two states are of the same output.
    ghost same: { Self → Self → Type 0 };

    /// Borrows the text. Only this crate can call it.
    fn text_mut(&mut self, opener: Opener) -> &mut StdString
        ensures* lends { sem 𝓛 (Lends Self.row text_row self.entry result (with_text self.old)) }
        ensures text { result.now ≡ text self.old };

    ghost text_of_with: { (s : Self) (t : Text) → text (with_text s t) ≡ t };

    ghost same_itself: { (s : Self) → same s s };

    ghost same_with: { (s : Self) (t : Text) → same s (with_text s t) };

    ghost same_again: { (r s t : Self) → same r s → same s t → same r t };
}

impl<'a> Sink for &'a mut StdString {
    ghost text = { λ s. s.now };

    ghost with_text = { λ s t. record s { now = t } };

    ghost same = { λ s t. t.ghost_name ≡ s.ghost_name };

    #[inline(always)]
    fn text_mut(&mut self, _opener: Opener) -> &mut StdString {
        *self
    }

    ghost text_of_with = { λ s t. refl };

    ghost same_itself = { λ s. refl };

    ghost same_with = { λ s t. refl };

    ghost same_again = { λ r s t p q. q ∙ p };
}
