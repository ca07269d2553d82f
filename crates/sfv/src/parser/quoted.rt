//! Parsing between two quotes: the inside of a string or a display string.

ghost use Rattle.std.specs.Prelude.{◌≡◌, ◌++◌, ◌↔◌, Bool, true, false, IfOk, IfErr, IfSome, IsTrue};
ghost use Rattle.sfv_spec.proofs.Marks.{double_quote, plain_of};
ghost use Rattle.sfv_spec.specs.Texts.{RunOf};
ghost use Rattle.sfv_base.specs.Errors.{out_of_memory};
ghost use Rattle.sfv_model.specs.Reader.{Apart, byte};
ghost use Rattle.sfv_model.specs.Quoted.{after_bytes};
ghost use Rattle.sfv.specs.parser.Cursor.{input, kept, rest, IsFaultOf, ReadsOrOutOfMemory};
ghost use Rattle.sfv.specs.parser.Quoted.{mark_of, end_error_of, inside, quoted_bytes, is_plain, HasNoMark, HasEscape};
ghost use Rattle.sfv.specs.parser.Quoted.{ReadsEscape, ReadsDigit, IsNextEscape};
ghost use Rattle.sfv.specs.parser.Values.{vec_bytes};
ghost use Rattle.sfv.specs.Memory.{HoldsMark};

use crate::parser::cursor::Cursor;
use sfv_base::error::{Error, ErrorKind};
use sfv_base::runs::{PlainInDisplayString, PlainInString};
use sfv_base::utils::{escape_digit_value, is_escaped_in_string};

/// A kind of quoted text.
pub(super) trait QuotedText {
    ghost display: { Bool };

    /// Returns the byte that opens an escape.
    fn mark() -> u8
        ensures { result ≡ mark_of display };

    /// Returns the kind of the error where the text cannot continue: at a byte, or at the end of the input.
    fn end_error(at_byte: bool) -> ErrorKind
        ensures { result ≡ end_error_of display at_byte };

    /// Consumes the longest run of bytes that denote themselves.
    fn plain<'de>(cursor: &mut Cursor<'de>) -> &'de [u8]
        ensures each { RunOf (plain_of display) result.now }
        ensures taken { rest cursor.old ≡ result.now ++ rest cursor.new }
        ensures ends { Apart (plain_of display) (rest cursor.new) }
        ensures kept { kept cursor.new ≡ kept cursor.old };

    /// Consumes the rest of an escape after its mark, and returns the byte that it denotes.
    fn take_escape(cursor: &mut Cursor<'_>) -> Result<u8, Error>
        ensures { ReadsEscape display cursor.old cursor.new result };
}

/// The inside of a string.
pub(super) struct InString;

impl QuotedText for InString {
    ghost display = { false };

    fn mark() -> u8 {
        b'\\'
    }

    fn end_error(at_byte: bool) -> ErrorKind {
        if at_byte {
            ErrorKind::InvalidStringCharacter
        } else {
            ErrorKind::UnterminatedString
        }
    }

    fn plain<'de>(cursor: &mut Cursor<'de>) -> &'de [u8] {
        cursor.run::<PlainInString>()
    }

    fn take_escape(cursor: &mut Cursor<'_>) -> Result<u8, Error> {
        let Some(byte) = cursor.peek() else {
            return Err(cursor.error(ErrorKind::UnterminatedEscapeSequence));
        };
        if !is_escaped_in_string(byte) {
            return Err(cursor.error(ErrorKind::InvalidEscapeSequence));
        }
        cursor.skip();
        Ok(byte)
    }
}

/// The inside of a display string.
pub(super) struct InDisplayString;

impl QuotedText for InDisplayString {
    ghost display = { true };

    fn mark() -> u8 {
        b'%'
    }

    fn end_error(at_byte: bool) -> ErrorKind {
        if at_byte {
            ErrorKind::InvalidDisplayStringCharacter
        } else {
            ErrorKind::UnterminatedDisplayString
        }
    }

    fn plain<'de>(cursor: &mut Cursor<'de>) -> &'de [u8] {
        cursor.run::<PlainInDisplayString>()
    }

    fn take_escape(cursor: &mut Cursor<'_>) -> Result<u8, Error> {
        // Most escapes are complete. One bounds check then serves both digits.
        if let Some(byte) = cursor.next_escape() {
            cursor.skip();
            cursor.skip();
            return Ok(byte);
        }
        let high = cursor.escape_digit()?;
        let low = cursor.escape_digit()?;
        Ok(16 * high + low)
    }
}

/// The decoded bytes of a quoted text.
#[derive(Drop)]
pub(super) enum QuotedBytes<'de> {
    /// The text has no escape; the bytes are a slice of the input.
    Plain(&'de [u8]),
    Unescaped(Vec<u8>),
}

impl<'de> Cursor<'de> {
    /// Returns the byte that the next two bytes denote, if both are digits of an escape.
    #[inline(always)]
    fn next_escape(&self) -> Option<u8>
        ensures { IfSome result (IsNextEscape (rest self.now)) }
    {
        let input = self.parser.input;
        if input.len() - self.index < 2 {
            return None;
        }
        let high = escape_digit_value(input[self.index])?;
        let low = escape_digit_value(input[self.index + 1])?;
        Some(16 * high + low)
    }

    /// Consumes a digit of an escape, and returns its value.
    fn escape_digit(&mut self) -> Result<u8, Error>
        ensures { ReadsDigit self.old self.new result }
    {
        let Some(byte) = self.peek() else {
            return Err(self.error(ErrorKind::UnterminatedEscapeSequence));
        };
        let Some(value) = escape_digit_value(byte) else {
            return Err(self.error(ErrorKind::InvalidEscapeSequence));
        };
        self.skip();
        Ok(value)
    }

    /// Returns the error at a byte that cannot continue the text, or at the end of the input.
    fn end_error<Q: QuotedText>(&self) -> Error
        requires plain { Apart (plain_of Q.display) (rest self.now) }
        requires quote { Apart (byte double_quote) (rest self.now) }
        requires mark { Apart (byte (mark_of Q.display)) (rest self.now) }
        ensures { IsFaultOf (input self.now) result (inside Q.display (rest self.now)) }
    {
        self.error(Q::end_error(self.peek().is_some()))
    }

    /// Parses the rest of a quoted text that begins with the bytes `plain`, with its closing quote. Returns all its
    /// bytes.
    #[inline(never)]
    fn unescape_rest<Q: QuotedText>(&mut self, plain: &[u8]) -> Result<Vec<u8>, Error>
        requires { HoldsMark (input self.old) }
        ensures { ReadsOrOutOfMemory vec_bytes self.old self.new result
            (λ t. after_bytes plain.now (inside Q.display t)) }
    {
        let mut bytes = Vec::from_slice(self.alloc, plain)?;
        // No call keeps a reference to this copy, so its index stays in a register.
        let mut cursor = *self;
        while !cursor.take_if(b'"') {
            // Escapes often come in sequence, so an escape is tried first, and then a run.
            if cursor.take_if(Q::mark()) {
                let byte = Q::take_escape(&mut cursor)?;
                bytes.push(byte)?;
            } else {
                let run = Q::plain(&mut cursor);
                if run.is_empty() {
                    return Err(cursor.end_error::<Q>());
                }
                bytes.extend_from_slice(run)?;
            }
        }
        *self = cursor;
        Ok(bytes)
    }

    /// Parses the rest of a quoted text, as `unescape_rest` does, by a call.
    // Inlined at the branch of an escape: the other branches then clear no room for the result of the call.
    #[inline(always)]
    fn unescape_rest_by_call<Q: QuotedText>(&mut self, plain: &[u8]) -> Result<Vec<u8>, Error>
        requires { HoldsMark (input self.old) }
        ensures { ReadsOrOutOfMemory vec_bytes self.old self.new result
            (λ t. after_bytes plain.now (inside Q.display t)) }
    {
        self.unescape_rest::<Q>(plain)
    }

    /// Parses a quoted text after its opening quote, with the closing quote.
    #[inline(always)]
    pub(super) fn quoted_text<Q: QuotedText>(&mut self) -> Result<QuotedBytes<'de>, Error>
        ensures read { ReadsOrOutOfMemory quoted_bytes self.old self.new result (inside Q.display) }
        ensures each { IfOk result (λ text. IsTrue (is_plain text) → RunOf (plain_of Q.display) (quoted_bytes text)) }
        ensures plain { IfOk result (λ text. IsTrue (is_plain text) ↔ HasNoMark Q.display self.old self.new) }
        ensures out_of_memory { IfErr result (λ e. e ≡ out_of_memory → HasEscape Q.display (rest self.old)) }
    {
        let plain = Q::plain(self);
        if self.take_if(b'"') {
            return Ok(QuotedBytes::Plain(plain));
        }
        if !self.next_is(Q::mark()) {
            return Err(self.end_error::<Q>());
        }
        let bytes = self.unescape_rest_by_call::<Q>(plain)?;
        Ok(QuotedBytes::Unescaped(bytes))
    }
}
