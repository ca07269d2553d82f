//! Parsing of strings (RFC 9651, section 4.2.5).

ghost use Rattle.std.specs.Prelude.{◌≡◌, ◌↔◌, false, IfOk, IfErr, IsTrue};
ghost use Rattle.sfv_base.specs.Errors.{out_of_memory};
ghost use Rattle.sfv_values.specs.BareItems.{read_text};
ghost use Rattle.sfv_model.specs.Quoted.{string_at};
ghost use Rattle.sfv.specs.parser.Cursor.{rest, ReadsOrOutOfMemory};
ghost use Rattle.sfv.specs.parser.Quoted.{HasNoMark, HasEscape};
ghost use Rattle.sfv.specs.parser.Values.{is_borrowed_string};

use crate::parser::cursor::Cursor;
use crate::parser::quoted::{InString, QuotedBytes};
use sfv_base::error::Error;
use sfv_values::bare::StringFromInput;
use sfv_values::string::String;
use sfv_values::string_ref::StringRef;
use std::string::String as StdString;

impl<'de> Cursor<'de> {
    /// Parses a string after its opening quote, with the closing quote. Without an escape, the result is a slice of the
    /// input.
    #[inline(always)]
    pub(super) fn string(&mut self) -> Result<StringFromInput<'de>, Error>
        ensures read { ReadsOrOutOfMemory read_text self.old self.new result string_at }
        ensures borrowed { IfOk result (λ text. IsTrue (is_borrowed_string text) ↔ HasNoMark false self.old self.new) }
        ensures out_of_memory { IfErr result (λ e. e ≡ out_of_memory → HasEscape false (rest self.old)) }
    {
        // SAFETY: the bytes of a string are ASCII.
        match self.quoted_text::<InString>()? {
            QuotedBytes::Plain(bytes) => {
                let text = unsafe { std::str::from_utf8_unchecked(bytes) };
                Ok(StringFromInput::Borrowed(StringRef::constant(text)))
            }
            QuotedBytes::Unescaped(bytes) => {
                let text = unsafe { StdString::from_utf8_unchecked(bytes) };
                Ok(StringFromInput::Owned(String::constant(text)))
            }
        }
    }
}
