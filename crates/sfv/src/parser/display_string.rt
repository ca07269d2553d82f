//! Parsing of display strings (RFC 9651, section 4.2.10).

ghost use Rattle.std.specs.Prelude.{◌≡◌, ◌≤◌, ◌↔◌, ℕ, List, true, length, drop, IfOk, IfErr, IsTrue, Ok};
ghost use Rattle.sfv_spec.proofs.Marks.{percent_sign};
ghost use Rattle.sfv_spec.specs.declared.version.Version.TheVariants.{Rfc9651};
ghost use Rattle.sfv_base.specs.Errors.{out_of_memory};
ghost use Rattle.sfv_model.specs.Reader.{byte};
ghost use Rattle.sfv_model.specs.Bare.{quoted_at};
ghost use Rattle.sfv_model.specs.Quoted.{outside, pieces_from, after_pieces, display_at};
ghost use Rattle.sfv.specs.parser.Cursor.{rest, ReadsOrOutOfMemory, NextIs};
ghost use Rattle.sfv.specs.parser.Quoted.{HasNoMarkInside, MayAllocate, GivesDisplayText};
ghost use Rattle.sfv.specs.parser.Values.{display_value_of, is_borrowed_text};

use crate::parser::cursor::Cursor;
use crate::parser::quoted::{InDisplayString, QuotedBytes};
use sfv_base::error::{Error, ErrorKind};
use std::borrow::CowStr;

/// Returns the input offset after the first `count` decoded bytes: one input byte for each, or three for an escape.
fn piece_index(input: &[u8], start: usize, count: usize) -> usize
    requires within { start ≤ length input.now }
    requires pieces { (bytes : List ℕ) × (rest : List ℕ)
        × (pieces_from outside (drop start input.now) ≡ Ok (bytes, rest)) × (count ≤ length bytes) }
    ensures within { result ≤ length input.now }
    ensures piece_index { drop result input.now ≡ after_pieces count (drop start input.now) }
{
    let mut index = start;
    for _ in 0..count {
        index += if input[index] == b'%' { 3 } else { 1 };
    }
    index
}

/// Returns the decoded bytes as text if they are UTF-8. Otherwise fails at the input offset of the first invalid byte;
/// `start` is the offset of the first byte.
fn decode_utf8(input: &[u8], start: usize, bytes: Vec<u8>) -> Result<String, Error>
    requires within { start ≤ length input.now }
    requires read { (rest : List ℕ) × (pieces_from outside (drop start input.now) ≡ Ok (bytes.items, rest)) }
    ensures { (rest : List ℕ) → pieces_from outside (drop start input.now) ≡ Ok (bytes.items, rest)
        → GivesDisplayText input.now result rest (display_at (drop start input.now)) }
{
    match String::from_utf8(bytes) {
        Ok(text) => Ok(text),
        Err(error) => {
            let valid = error.utf8_error().valid_up_to();
            let index = piece_index(input, start, valid);
            Err(Error::at(ErrorKind::InvalidUtf8InDisplayString, index))
        }
    }
}

impl<'de> Cursor<'de> {
    /// Parses a display string: the sign `%` and the quoted text. Without an escape, the result is a slice of the
    /// input.
    pub(super) fn display_string(&mut self) -> Result<CowStr<'de>, Error>
        requires { NextIs (byte percent_sign) true (rest self.old) }
        ensures read { ReadsOrOutOfMemory display_value_of self.old self.new result (quoted_at Rfc9651) }
        ensures borrowed { IfOk result (λ text.
            IsTrue (is_borrowed_text text) ↔ HasNoMarkInside true self.old self.new) }
        ensures out_of_memory { IfErr result (λ e. e ≡ out_of_memory → MayAllocate (rest self.old)) }
    {
        self.skip();
        if !self.take_if(b'"') {
            return Err(self.error(ErrorKind::ExpectedQuote));
        }
        let start = self.index;
        match self.quoted_text::<InDisplayString>()? {
            QuotedBytes::Plain(bytes) => {
                // SAFETY: plain bytes of a display string are ASCII.
                let text = unsafe { std::str::from_utf8_unchecked(bytes) };
                Ok(CowStr::Borrowed(text))
            }
            QuotedBytes::Unescaped(bytes) => {
                let text = decode_utf8(self.parser.input, start, bytes)?;
                Ok(CowStr::Owned(text))
            }
        }
    }
}
