//! Text of a class that owns its bytes.

ghost use Rattle.std.specs.Prelude.{◌≡◌, Some, refl, nat_eq, string_bytes, IsTrue, IfOk, IfErr};
ghost use Rattle.std.specs.Fmt.{debug_variant, debug_str};
ghost use Rattle.std.specs.Cmp.Lexicographic.{pointwise, slice_cmp, texts_ties, texts_po, nat_list_eq_equiv};
ghost use Rattle.std.specs.Cmp.Lexicographic.{nat_list_cmp_total};
ghost use Rattle.std.specs.Cmp;
ghost use Rattle.std.specs.Ordering.{nat_cmp};
ghost use Rattle.std.specs.Cmp.Rules.{hashing};
ghost use Rattle.std.proofs.Common.{rules};
ghost use Rattle.sfv_values.specs.CheckedTexts.{text_of, GivesText};
ghost use Rattle.sfv_values.specs.Hashes.{hash_input_of};

use crate::checked_text_ref::CheckedTextRef;
use crate::text_class::TextClass;
use sfv_base::error::Error;
use std::alloc::AllocError;
use std::cmp::Ordering;
use std::fmt;
use std::hash::{Hash, Hasher};
use std::marker::{Model, PhantomData};
use std::string::String as StdString;

/// An owned text of the class `C`. `Key`, `Token` and `String` are such types.
///
/// `TryFrom` converts a text as `from_string` does, but drops it after an error. Comparisons, `Hash` and `Display` use
/// the text. `into_string` returns the text; so does `From`, in a crate that depends on this crate directly. `clone`
/// returns `AllocError` if memory runs out.
///
/// Contracts view a value as its bytes.
#[derive(Drop)]
pub struct CheckedText<C: TextClass> {
    text: StdString,
    class: PhantomData<C>,
}

impl<C: TextClass> Model for CheckedText<C> {
    ghost use Rattle.std.specs.Prelude.{List, ℕ, string_bytes, IsTrue};

    ghost Value = { List ℕ };

    ghost view = { λ t. string_bytes t.text };

    ghost invariant = { λ t. IsTrue (C.is_valid (string_bytes t.text)) };
}

impl<C: TextClass> CheckedText<C> {
    /// Wraps a text of the class, without a check.
    pub(crate) fn from_validated_string(text: StdString) -> CheckedText<C>
        requires { IsTrue (C.is_valid (string_bytes text)) }
        ensures { result ≡ string_bytes text }
    {
        CheckedText {
            text,
            class: PhantomData,
        }
    }

    /// Checks and wraps a text, without a copy.
    ///
    /// # Errors
    ///
    /// Returns an error and the text if the text is not of the class. For an empty key or token, the error is
    /// `ErrorKind::Empty` without index. Otherwise it is `ErrorKind::InvalidCharacter` at the first byte that the class
    /// does not allow there.
    pub fn from_string(v: StdString) -> Result<CheckedText<C>, (Error, StdString)>
        ensures text { IfOk result (λ k. (k ≡ string_bytes v) × IsTrue (C.is_valid k)) }
        ensures rejected { IfErr result (λ e. C.IsInvalid (string_bytes v) e.0 × (e.1 ≡ v)) }
    {
        match C::check(v.as_bytes()) {
            Ok(()) => Ok(CheckedText::from_validated_string(v)),
            Err(error) => Err((error, v)),
        }
    }

    /// Returns the text.
    pub fn as_str(&self) -> &str
        ensures text { result.now ≡ self.now }
        ensures valid { IsTrue (C.is_valid self.now) }
    {
        self.text.as_str()
    }

    /// Returns the text, without a copy.
    pub fn into_string(self) -> StdString
        ensures text { string_bytes result ≡ self }
        ensures valid { IsTrue (C.is_valid self) }
    {
        self.text
    }

    /// Borrows the text.
    pub(crate) fn lend(&self) -> CheckedTextRef<'_, C>
        ensures { text_of result ≡ self.now }
    {
        CheckedTextRef::constant(self.as_str())
    }
}

impl<C: TextClass> TryFrom<StdString> for CheckedText<C> {
    type Error = Error;

    ghost try_from_gives = { λ v r. GivesText C.is_valid C.IsInvalid (string_bytes v) r };

    fn try_from(v: StdString) -> Result<CheckedText<C>, Error> {
        C::check(v.as_bytes())?;
        Ok(CheckedText::from_validated_string(v))
    }
}

impl<C: TextClass> From<CheckedText<C>> for StdString {
    ghost from_gives = { λ t s. (string_bytes s ≡ t) × IsTrue (C.is_valid t) };

    fn from(t: CheckedText<C>) -> StdString {
        t.into_string()
    }
}

impl<C: TextClass> PartialEq for CheckedText<C> {
    ghost eq = { pointwise nat_eq };

    ghost laws = { Cmp.partial_equiv_from_equiv nat_list_eq_equiv };

    fn eq(&self, other: &CheckedText<C>) -> bool {
        self.as_str() == other.as_str()
    }
}

impl<C: TextClass> Eq for CheckedText<C> {
    ghost laws = { nat_list_eq_equiv };
}

impl<C: TextClass> PartialOrd for CheckedText<C> {
    ghost partial_cmp = { λ x y. Some (slice_cmp nat_cmp x y) };

    ghost laws = { texts_po };

    fn partial_cmp(&self, other: &CheckedText<C>) -> Option<Ordering> {
        Some(self.cmp(other))
    }
}

impl<C: TextClass> Ord for CheckedText<C> {
    ghost cmp = { slice_cmp nat_cmp };

    ghost total = { nat_list_cmp_total };

    ghost matches_partial_cmp = { λ x y. refl };

    ghost matches_eq = { λ x y. texts_ties x y };

    fn cmp(&self, other: &CheckedText<C>) -> Ordering {
        self.as_str().cmp(other.as_str())
    }
}

impl<C: TextClass> Hash for CheckedText<C> {
    ghost hash_input = { hash_input_of };

    ghost respects_eq = { Prim.search (hashing, rules) };

    fn hash<H: Hasher>(&self, state: &mut H) {
        self.lend().hash(state);
    }
}

impl<C: TextClass> Clone for CheckedText<C> {
    ghost is_clone = { λ x y. y ≡ x };

    fn clone(&self) -> Result<CheckedText<C>, AllocError> {
        let text = self.text.clone()?;
        Ok(CheckedText {
            text,
            class: PhantomData,
        })
    }
}

impl<C: TextClass> fmt::Display for CheckedText<C> {
    ghost output = { λ t. Some t };

    ghost styled_output = { λ t _. Some t };

    fn fmt<W: fmt::Write>(&self, f: &mut fmt::Formatter<W>) -> fmt::Result {
        f.write_str(self.as_str())
    }
}

impl<C: TextClass> fmt::Debug for CheckedText<C> {
    ghost debug_output = { λ t. debug_variant C.name (debug_str t) };

    fn fmt<W: fmt::Write>(&self, f: &mut fmt::Formatter<W>) -> fmt::Result {
        let (name, text) = (C::name(), self.as_str());
        write!(f, "{name}({text:?})")
    }
}
