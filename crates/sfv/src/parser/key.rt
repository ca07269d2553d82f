//! Parsing of keys (RFC 9651, section 4.2.3.3).

ghost use Rattle.std.specs.Prelude.{◌≡◌, ◌++◌, IfOk};
ghost use Rattle.sfv_spec.specs.Classes.{is_key_start};
ghost use Rattle.sfv_values.specs.CheckedTexts.{text_of};
ghost use Rattle.sfv_model.specs.Items.{key_at};
ghost use Rattle.sfv.specs.parser.Cursor.{rest, Reads, NextIs};

use crate::parser::cursor::Cursor;
use sfv_base::error::{Error, ErrorKind};
use sfv_base::runs::InnerKey;
use sfv_base::utils::is_allowed_start_key_char;
use sfv_values::key_ref::KeyRef;

impl<'de> Cursor<'de> {
    /// Returns `true` if the next byte may begin a key.
    #[inline(always)]
    pub(super) fn next_is_key_start(&self) -> bool
        ensures { NextIs is_key_start result (rest self.now) }
    {
        self.peek().is_some_and(is_allowed_start_key_char)
    }

    /// Parses a key.
    #[inline(always)]
    #[tactic(auto, using(crate::proofs::reads::Steps::key_steps))]
    pub(crate) fn key(&mut self) -> Result<KeyRef<'de>, Error>
        ensures read { Reads text_of self.old self.new result key_at }
        ensures taken { IfOk result (λ key. rest self.old ≡ text_of key ++ rest self.new) }
    {
        if !self.next_is_key_start() {
            return Err(self.error(ErrorKind::ExpectedStartOfKey));
        }
        // SAFETY: the bytes of a key are ASCII.
        let bytes = self.byte_and_run::<InnerKey>();
        let text = unsafe { std::str::from_utf8_unchecked(bytes) };
        Ok(KeyRef::constant(text))
    }

    /// Parses a key, as `key` does. This is faster where many keys have one byte.
    #[inline(always)]
    #[tactic(auto, using(crate::proofs::reads::Steps::key_steps))]
    pub(crate) fn short_key(&mut self) -> Result<KeyRef<'de>, Error>
        ensures read { Reads text_of self.old self.new result key_at }
        ensures taken { IfOk result (λ key. rest self.old ≡ text_of key ++ rest self.new) }
    {
        if !self.next_is_key_start() {
            return Err(self.error(ErrorKind::ExpectedStartOfKey));
        }
        // SAFETY: the bytes of a key are ASCII.
        let bytes = self.byte_and_short_run::<InnerKey>();
        let text = unsafe { std::str::from_utf8_unchecked(bytes) };
        Ok(KeyRef::constant(text))
    }
}
