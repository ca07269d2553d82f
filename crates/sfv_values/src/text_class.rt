//! Classes of texts: keys, tokens and strings.

ghost use Rattle.std.specs.Prelude.{◌≡◌, IsTrue, List, ℕ, Bool, IfOk, MatchResult};
ghost use Rattle.std.specs.Str.{IsUtf8};
ghost use Rattle.sfv_base.specs.declared.error.Error.{Error as error};

use sfv_base::error::Error;

mod sealed {
    pub trait Sealed {}

    impl Sealed for crate::key::KeyClass {}

    impl Sealed for crate::token::TokenClass {}

    impl Sealed for crate::string::StringClass {}
}

/// A class of texts: keys, tokens or strings.
///
/// In contracts, `is_valid` says which bytes are a text of the class. `IsInvalid` says which error other bytes have.
/// `name` is the name that `Debug` prints.
pub trait TextClass: sealed::Sealed + Drop {
    ghost is_valid: { List ℕ → Bool };

    ghost IsInvalid: { List ℕ → error → Type 0 };

    ghost name: { List ℕ };

    /// Checks that the bytes are a text of the class.
    ///
    /// # Errors
    ///
    /// Returns the error at the first byte that the class does not allow there, or `ErrorKind::Empty`.
    fn check(bytes: &[u8]) -> Result<(), Error>
        ensures checked { MatchResult result (λ _. IsTrue (is_valid bytes.now)) (IsInvalid bytes.now) }
        ensures utf8 { IfOk result (λ _. IsUtf8 bytes.now) };

    /// Returns the name of the type of owned texts of the class.
    fn name() -> &'static str
        ensures { result.now ≡ name };
}
