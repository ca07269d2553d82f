//! Owned strings (RFC 9651, section 3.3.3).

ghost use Rattle.std.specs.Prelude.{codes};
ghost use Rattle.std.specs.List.{list_all};
ghost use Rattle.sfv_spec.specs.Classes.{is_string_byte};
ghost use Rattle.sfv_values.specs.InvalidTexts.{IsInvalidString};

use crate::checked_text::CheckedText;
use crate::string_ref::StringRef;
use crate::text_class::TextClass;
use crate::validity::check_string;
use sfv_base::error::Error;
use std::alloc::Global;
use std::string::String as StdString;

/// The class of strings (RFC 9651, section 3.3.3).
#[derive(Drop)]
pub enum StringClass {}

impl TextClass for StringClass {
    ghost is_valid = { list_all is_string_byte };

    ghost IsInvalid = { IsInvalidString };

    ghost name = { codes "String" };

    #[tactic(auto, using(crate::proofs::Ascii::string_utf8))]
    fn check(bytes: &[u8]) -> Result<(), Error> {
        check_string(bytes)
    }

    fn name() -> &'static str {
        "String"
    }
}

/// An owned string (RFC 9651, section 3.3.3).
///
/// `from_string` rejects a text with `ErrorKind::InvalidCharacter` at the first byte that is not printable ASCII.
pub type String = CheckedText<StringClass>;

impl String {
    ghost use Rattle.std.specs.Prelude.{◌≡◌, [], string_bytes, IsTrue};
    ghost use Rattle.std.specs.List.{list_all};
    ghost use Rattle.sfv_spec.specs.Classes.{is_string_byte};
    ghost use Rattle.sfv_values.specs.CheckedTexts.{text_of};

    /// Wraps a text without a check: the caller proves that it is printable ASCII.
    pub fn constant(text: StdString) -> String
        requires { IsTrue (list_all is_string_byte (string_bytes text)) }
        ensures { result ≡ string_bytes text }
    {
        String::from_validated_string(text)
    }

    /// Returns the empty string, without allocation.
    pub fn empty(alloc: Global) -> String
        ensures { result ≡ [] }
    {
        String::from_validated_string(StdString::new(alloc))
    }

    /// Borrows the string.
    pub fn as_string_ref(&self) -> StringRef<'_>
        ensures { text_of result ≡ self.now }
    {
        self.lend()
    }
}
