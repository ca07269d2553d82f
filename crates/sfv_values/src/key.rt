//! Owned keys (RFC 9651, section 3.1.2).

ghost use Rattle.std.specs.Prelude.{codes};
ghost use Rattle.sfv_spec.specs.Classes.{is_key};
ghost use Rattle.sfv_values.specs.InvalidTexts.{IsInvalidKey};

use crate::checked_text::CheckedText;
use crate::key_ref::KeyRef;
use crate::text_class::TextClass;
use crate::validity::check_key;
use sfv_base::error::Error;

/// The class of keys (RFC 9651, section 3.1.2).
#[derive(Drop)]
pub enum KeyClass {}

impl TextClass for KeyClass {
    ghost is_valid = { is_key };

    ghost IsInvalid = { IsInvalidKey };

    ghost name = { codes "Key" };

    #[tactic(auto, using(crate::proofs::Ascii::key_utf8))]
    fn check(bytes: &[u8]) -> Result<(), Error> {
        check_key(bytes)
    }

    fn name() -> &'static str {
        "Key"
    }
}

/// An owned key (RFC 9651, section 3.1.2).
///
/// `from_string` rejects an empty text with `ErrorKind::Empty` without index. It rejects any other text that is not a
/// key with `ErrorKind::InvalidCharacter` at the first byte that a key does not allow there.
pub type Key = CheckedText<KeyClass>;

impl Key {
    ghost use Rattle.std.specs.Prelude.{◌≡◌};
    ghost use Rattle.sfv_values.specs.CheckedTexts.{text_of};

    /// Borrows the key.
    pub fn as_key_ref(&self) -> KeyRef<'_>
        ensures { text_of result ≡ self.now }
    {
        self.lend()
    }
}
