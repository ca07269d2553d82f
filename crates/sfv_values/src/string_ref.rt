//! Borrowed strings (RFC 9651, section 3.3.3).

use crate::checked_text_ref::CheckedTextRef;
use crate::string::StringClass;
use std::marker::PhantomData;

/// A borrowed string (RFC 9651, section 3.3.3). `Default` is the empty string.
///
/// `from_str` and `from_bytes` reject a text with `ErrorKind::InvalidCharacter` at the first byte that is not printable
/// ASCII.
pub type StringRef<'a> = CheckedTextRef<'a, StringClass>;

impl StringRef<'_> {
    /// The empty string.
    pub const EMPTY: StringRef<'static> = CheckedTextRef {
        text: "",
        class: PhantomData,
    };
}

impl Default for StringRef<'_> {
    ghost use Rattle.std.specs.Prelude.{◌≡◌, []};
    ghost use Rattle.sfv_values.specs.CheckedTexts.{text_of};

    ghost is_default = { λ t. text_of t ≡ [] };

    fn default() -> Self {
        StringRef::EMPTY
    }
}
