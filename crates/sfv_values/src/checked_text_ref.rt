//! Borrowed text of a class.

ghost use Rattle.std.specs.Prelude.{IsTrue};

use crate::checked_text::CheckedText;
use crate::text_class::TextClass;
use sfv_base::error::{Error, OutOfMemory};
use std::alloc::{AllocError, Global};
use std::fmt;
use std::hash::{DefaultHasher, Hash, Hasher};
use std::marker::PhantomData;
use std::string::String as StdString;

/// A borrowed text of the class `C`. `KeyRef`, `TokenRef` and `StringRef` are such types.
///
/// `TryFrom` converts a `str` as `from_str` does, and bytes as `from_bytes` does. Comparisons, `Hash` and `Display` use
/// the text.
#[derive_where(PartialEq, Eq, PartialOrd, Ord)]
pub struct CheckedTextRef<'a, C: TextClass> {
    pub(crate) text: &'a str,
    pub(crate) class: PhantomData<C>,
    pub ghost valid: { IsTrue (C.is_valid text.now) },
}

impl<C: TextClass> Copy for CheckedTextRef<'_, C> {}

impl<C: TextClass> Clone for CheckedTextRef<'_, C> {
    ghost use Rattle.std.specs.Prelude.{◌≡◌, ⊤};

    ghost is_clone = { λ x y. y ≡ x };

    ghost is_infallible = { λ _. ⊤ };

    fn clone(&self) -> Result<Self, AllocError> {
        Ok(*self)
    }
}

impl<C: TextClass> Hash for CheckedTextRef<'_, C> {
    ghost use Rattle.std.specs.Cmp.Rules.{hashing};
    ghost use Rattle.std.proofs.Common.{rules};
    ghost use Rattle.sfv_values.specs.CheckedTexts.{text_of};
    ghost use Rattle.sfv_values.specs.Hashes.{hash_input_of};

    ghost hash_input = { λ text. hash_input_of (text_of text) };

    ghost respects_eq = { Prim.search (hashing, rules) };

    // An attacker can choose the keys of a field. Long keys that collide under the maps' own hash are easy to find:
    // 10,000 of them made a dictionary take a hundred times as long. So keys of more than eight bytes are hashed by
    // SipHash first. Among the shorter keys, only some thousands share a 32-bit hash. They skip SipHash, because it
    // takes a tenth of the time of a dictionary.
    fn hash<H: Hasher>(&self, state: &mut H) {
        let text = self.as_str();
        if text.len() > 8 {
            let mut hasher = DefaultHasher::new();
            text.hash(&mut hasher);
            state.write_u64(hasher.finish());
        } else {
            text.hash(state);
        }
    }
}

impl<'a, C: TextClass> CheckedTextRef<'a, C> {
    ghost use Rattle.std.specs.Prelude.{◌≡◌, ◌≢◌, [], IfOk, OnErr};
    ghost use Rattle.sfv_values.specs.CheckedTexts.{text_of, GivesTextRef};

    /// Wraps a text of the class, without a check: the caller proves that it is of the class.
    pub fn constant(v: &'a str) -> CheckedTextRef<'a, C>
        requires { IsTrue (C.is_valid v.now) }
        ensures { text_of result ≡ v.now }
    {
        CheckedTextRef {
            text: v,
            class: PhantomData,
        }
    }

    /// Checks and wraps a text.
    ///
    /// # Errors
    ///
    /// Returns an error if the text is not of the class. For an empty key or token, the error is `ErrorKind::Empty`
    /// without index. Otherwise it is `ErrorKind::InvalidCharacter` at the first byte that the class does not allow
    /// there.
    pub fn from_str(v: &'a str) -> Result<CheckedTextRef<'a, C>, Error>
        ensures { GivesTextRef v.now result }
    {
        C::check(v.as_bytes())?;
        Ok(CheckedTextRef::constant(v))
    }

    /// Checks and wraps bytes.
    ///
    /// # Errors
    ///
    /// Returns the errors of `from_str`. Bytes that are not UTF-8 are of no class.
    pub fn from_bytes(v: &'a [u8]) -> Result<CheckedTextRef<'a, C>, Error>
        ensures { GivesTextRef v.now result }
    {
        C::check(v)?;
        // SAFETY: texts of every class are ASCII.
        let text = unsafe { std::str::from_utf8_unchecked(v) };
        Ok(CheckedTextRef::constant(text))
    }

    /// Returns the text.
    pub fn as_str(&self) -> &'a str
        ensures text { result.now ≡ text_of self.now }
        ensures valid { IsTrue (C.is_valid (text_of self.now)) }
    {
        self.text
    }

    /// Returns an owned copy of the text, allocated from `alloc`. The copy of an empty text needs no memory.
    ///
    /// # Errors
    ///
    /// Returns `OutOfMemory` if memory runs out.
    pub fn to_owned(&self, alloc: Global) -> Result<CheckedText<C>, OutOfMemory>
        ensures text { IfOk result (λ t. t ≡ text_of self.now) }
        ensures out_of_memory { OnErr result (text_of self.now ≢ []) }
    {
        let text = self.as_str();
        let mut copy = StdString::with_capacity(alloc, text.len())?;
        copy.push_str(text)?;
        Ok(CheckedText::from_validated_string(copy))
    }
}

impl<'a, C: TextClass> TryFrom<&'a str> for CheckedTextRef<'a, C> {
    ghost use Rattle.sfv_values.specs.CheckedTexts.{GivesTextRef};

    type Error = Error;

    ghost try_from_gives = { λ v r. GivesTextRef v.now r };

    fn try_from(v: &'a str) -> Result<CheckedTextRef<'a, C>, Error> {
        CheckedTextRef::from_str(v)
    }
}

impl<'a, C: TextClass> TryFrom<&'a [u8]> for CheckedTextRef<'a, C> {
    ghost use Rattle.sfv_values.specs.CheckedTexts.{GivesTextRef};

    type Error = Error;

    ghost try_from_gives = { λ v r. GivesTextRef v.now r };

    fn try_from(v: &'a [u8]) -> Result<CheckedTextRef<'a, C>, Error> {
        CheckedTextRef::from_bytes(v)
    }
}

impl<C: TextClass> fmt::Display for CheckedTextRef<'_, C> {
    ghost use Rattle.std.specs.Prelude.{Some};
    ghost use Rattle.sfv_values.specs.CheckedTexts.{text_of};

    ghost output = { λ t. Some (text_of t) };

    ghost styled_output = { λ t _. Some (text_of t) };

    fn fmt<W: fmt::Write>(&self, f: &mut fmt::Formatter<W>) -> fmt::Result {
        f.write_str(self.as_str())
    }
}

impl<C: TextClass> fmt::Debug for CheckedTextRef<'_, C> {
    ghost use Rattle.std.specs.Prelude.{◌++◌, codes};
    ghost use Rattle.std.specs.Fmt.{debug_variant, debug_str};
    ghost use Rattle.sfv_values.specs.CheckedTexts.{text_of};

    ghost debug_output = { λ t. debug_variant (C.name ++ codes "Ref") (debug_str (text_of t)) };

    fn fmt<W: fmt::Write>(&self, f: &mut fmt::Formatter<W>) -> fmt::Result {
        let (name, text) = (C::name(), self.as_str());
        write!(f, "{name}Ref({text:?})")
    }
}
