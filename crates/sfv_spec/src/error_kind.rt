//! The kinds of errors.

ghost use Rattle.std.specs.Prelude.{◌≡◌, Some};
ghost use Rattle.sfv_spec.specs.Messages.{message_of};

use std::fmt;

/// The kind of an error.
///
/// Each kind says at which index its error is: a zero-based offset in bytes into the input. `OutOfMemory`, `OutOfRange`
/// and `Empty` have no index. `Display` prints `message`.
#[derive(Clone, Copy, Debug, PartialEq, Eq)]
pub enum ErrorKind {
    /// Memory ran out.
    OutOfMemory,
    /// A number is out of the range of its type.
    OutOfRange,
    /// An empty text is converted to a key or a token.
    Empty,
    /// A text that is converted to a key, a token or a string has a byte that is not allowed there. The error is at the
    /// first such byte.
    InvalidCharacter,
    /// A member, and spaces and tabs, are followed by a byte other than a comma. The error is at that byte.
    TrailingCharactersAfterMember,
    /// The input ends after a comma, and spaces and tabs. The error is at the comma.
    TrailingComma,
    /// An item and spaces are followed by another byte. The error is at that byte.
    TrailingCharactersAfterParsedValue,
    /// An item of an inner list is followed by a byte other than a space or `)`. The error is at that byte.
    ExpectedInnerListDelimiter,
    /// The input ends directly after the `(` of an inner list or after one of its items. The error is at the end of the
    /// input.
    UnterminatedInnerList,
    /// A bare item is expected, and none begins. The error is at the next byte, or at the end of the input.
    ExpectedStartOfBareItem,
    /// A `?` is followed by neither `0` nor `1`. The error is at the byte after it, or at the end of the input.
    ExpectedBoolean,
    /// A string has a byte that is not printable ASCII. The byte is not directly after the backslash of an escape. The
    /// error is at that byte.
    InvalidStringCharacter,
    /// The input ends in a string, but not directly after the backslash of an escape. The error is at the end of the
    /// input.
    UnterminatedString,
    /// The input ends in an escape of a string or a display string. The error is at the end of the input.
    UnterminatedEscapeSequence,
    /// An escape of a string or a display string is malformed. The error is at its first wrong byte.
    InvalidEscapeSequence,
    /// No colon closes a byte sequence. The error is at the end of the input.
    UnterminatedByteSequence,
    /// The content of a byte sequence is not Base64. The error is at the first byte after the longest prefix that some
    /// Base64 text extends. If that prefix is the whole content, the error is at the last byte of the content.
    InvalidByteSequence,
    /// The digits of a number are expected, and none follows. The error is at the next byte, or at the end of the
    /// input.
    ExpectedDigit,
    /// A number has a sixteenth digit before any point. The error is at the digit.
    TooManyDigits,
    /// A decimal has more than twelve digits before its point. The error is at the point.
    TooManyDigitsBeforeDecimalPoint,
    /// A decimal has more than three digits after its point. The error is at the fourth.
    TooManyDigitsAfterDecimalPoint,
    /// The point of a decimal is followed by no digit. The error is at the point.
    TrailingDecimalPoint,
    /// A field under RFC 8941 has a date. The error is at its `@`.
    Rfc8941Date,
    /// The seconds of a date are a decimal. The error is at the `@`.
    NonIntegerDate,
    /// A field under RFC 8941 has a display string. The error is at its `%`.
    Rfc8941DisplayString,
    /// The `%` of a display string is not followed by a quote. The error is at the byte after it, or at the end of the
    /// input.
    ExpectedQuote,
    /// The bytes of a display string are not UTF-8. The error is where the first byte after their longest valid prefix
    /// is written.
    InvalidUtf8InDisplayString,
    /// A display string has a byte that is not printable ASCII, outside an escape. The error is at that byte.
    InvalidDisplayStringCharacter,
    /// The input ends in a display string, outside an escape. The error is at the end of the input.
    UnterminatedDisplayString,
    /// A key is expected, and none begins. The error is at the next byte, or at the end of the input.
    ExpectedStartOfKey,
}

impl ErrorKind {
    /// Returns the text of the kind, in English.
    pub fn message(self) -> &'static str
        ensures { result.now ≡ message_of self }
    {
        match self {
            ErrorKind::OutOfMemory => "out of memory",
            ErrorKind::OutOfRange => "out of range",
            ErrorKind::Empty => "cannot be empty",
            ErrorKind::InvalidCharacter => "invalid character",
            ErrorKind::TrailingCharactersAfterMember => "trailing characters after member",
            ErrorKind::TrailingComma => "trailing comma",
            ErrorKind::TrailingCharactersAfterParsedValue => {
                "trailing characters after parsed value"
            }
            ErrorKind::ExpectedInnerListDelimiter => "expected inner list delimiter (' ' or ')')",
            ErrorKind::UnterminatedInnerList => "unterminated inner list",
            ErrorKind::ExpectedStartOfBareItem => "expected start of bare item",
            ErrorKind::ExpectedBoolean => "expected boolean ('0' or '1')",
            ErrorKind::InvalidStringCharacter => "invalid string character",
            ErrorKind::UnterminatedString => "unterminated string",
            ErrorKind::UnterminatedEscapeSequence => "unterminated escape sequence",
            ErrorKind::InvalidEscapeSequence => "invalid escape sequence",
            ErrorKind::UnterminatedByteSequence => "unterminated byte sequence",
            ErrorKind::InvalidByteSequence => "invalid byte sequence",
            ErrorKind::ExpectedDigit => "expected digit",
            ErrorKind::TooManyDigits => "too many digits",
            ErrorKind::TooManyDigitsBeforeDecimalPoint => "too many digits before decimal point",
            ErrorKind::TooManyDigitsAfterDecimalPoint => "too many digits after decimal point",
            ErrorKind::TrailingDecimalPoint => "trailing decimal point",
            ErrorKind::Rfc8941Date => "RFC 8941 does not support dates",
            ErrorKind::NonIntegerDate => "date must be an integer number of seconds",
            ErrorKind::Rfc8941DisplayString => "RFC 8941 does not support display strings",
            ErrorKind::ExpectedQuote => "expected '\"'",
            ErrorKind::InvalidUtf8InDisplayString => "invalid UTF-8 in display string",
            ErrorKind::InvalidDisplayStringCharacter => "invalid display string character",
            ErrorKind::UnterminatedDisplayString => "unterminated display string",
            ErrorKind::ExpectedStartOfKey => "expected start of key ('a'-'z' or '*')",
        }
    }
}

impl fmt::Display for ErrorKind {
    ghost output = { λ kind. Some (message_of kind) };

    ghost styled_output = { λ kind _. Some (message_of kind) };

    fn fmt<W: fmt::Write>(&self, f: &mut fmt::Formatter<W>) -> fmt::Result {
        f.write_str(self.message())
    }
}
