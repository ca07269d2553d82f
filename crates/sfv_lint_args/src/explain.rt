//! What each kind of error means.

ghost use Rattle.std.specs.Prelude.{◌≡◌, IfSome};
ghost use Rattle.sfv_lint_args.specs.Kinds.{kind_name};

use sfv_spec::error_kind::ErrorKind;

/// What a kind of error means.
#[derive(Clone, Copy)]
pub struct Explanation {
    /// The kind.
    pub kind: ErrorKind,
    /// What the error means.
    pub meaning: &'static str,
    /// Where the rule is.
    pub rule: &'static str,
    /// A text that is right.
    pub example: &'static str,
}

/// Returns the name of the kind, as `--explain` takes it.
pub fn kind_name(kind: ErrorKind) -> &'static str
    ensures { result.now ≡ kind_name kind }
{
    match kind {
        ErrorKind::OutOfMemory => "OutOfMemory",
        ErrorKind::OutOfRange => "OutOfRange",
        ErrorKind::Empty => "Empty",
        ErrorKind::InvalidCharacter => "InvalidCharacter",
        ErrorKind::TrailingCharactersAfterMember => "TrailingCharactersAfterMember",
        ErrorKind::TrailingComma => "TrailingComma",
        ErrorKind::TrailingCharactersAfterParsedValue => "TrailingCharactersAfterParsedValue",
        ErrorKind::ExpectedInnerListDelimiter => "ExpectedInnerListDelimiter",
        ErrorKind::UnterminatedInnerList => "UnterminatedInnerList",
        ErrorKind::ExpectedStartOfBareItem => "ExpectedStartOfBareItem",
        ErrorKind::ExpectedBoolean => "ExpectedBoolean",
        ErrorKind::InvalidStringCharacter => "InvalidStringCharacter",
        ErrorKind::UnterminatedString => "UnterminatedString",
        ErrorKind::UnterminatedEscapeSequence => "UnterminatedEscapeSequence",
        ErrorKind::InvalidEscapeSequence => "InvalidEscapeSequence",
        ErrorKind::UnterminatedByteSequence => "UnterminatedByteSequence",
        ErrorKind::InvalidByteSequence => "InvalidByteSequence",
        ErrorKind::ExpectedDigit => "ExpectedDigit",
        ErrorKind::TooManyDigits => "TooManyDigits",
        ErrorKind::TooManyDigitsBeforeDecimalPoint => "TooManyDigitsBeforeDecimalPoint",
        ErrorKind::TooManyDigitsAfterDecimalPoint => "TooManyDigitsAfterDecimalPoint",
        ErrorKind::TrailingDecimalPoint => "TrailingDecimalPoint",
        ErrorKind::Rfc8941Date => "Rfc8941Date",
        ErrorKind::NonIntegerDate => "NonIntegerDate",
        ErrorKind::Rfc8941DisplayString => "Rfc8941DisplayString",
        ErrorKind::ExpectedQuote => "ExpectedQuote",
        ErrorKind::InvalidUtf8InDisplayString => "InvalidUtf8InDisplayString",
        ErrorKind::InvalidDisplayStringCharacter => "InvalidDisplayStringCharacter",
        ErrorKind::UnterminatedDisplayString => "UnterminatedDisplayString",
        ErrorKind::ExpectedStartOfKey => "ExpectedStartOfKey",
    }
}

/// The names of the kinds.
pub static KIND_NAMES: [&str; 30] = [
    "OutOfMemory",
    "OutOfRange",
    "Empty",
    "InvalidCharacter",
    "TrailingCharactersAfterMember",
    "TrailingComma",
    "TrailingCharactersAfterParsedValue",
    "ExpectedInnerListDelimiter",
    "UnterminatedInnerList",
    "ExpectedStartOfBareItem",
    "ExpectedBoolean",
    "InvalidStringCharacter",
    "UnterminatedString",
    "UnterminatedEscapeSequence",
    "InvalidEscapeSequence",
    "UnterminatedByteSequence",
    "InvalidByteSequence",
    "ExpectedDigit",
    "TooManyDigits",
    "TooManyDigitsBeforeDecimalPoint",
    "TooManyDigitsAfterDecimalPoint",
    "TrailingDecimalPoint",
    "Rfc8941Date",
    "NonIntegerDate",
    "Rfc8941DisplayString",
    "ExpectedQuote",
    "InvalidUtf8InDisplayString",
    "InvalidDisplayStringCharacter",
    "UnterminatedDisplayString",
    "ExpectedStartOfKey",
];

static EXPLANATIONS: [Explanation; 30] = [
    Explanation {
        kind: ErrorKind::OutOfMemory,
        meaning: "Memory ran out while the field was parsed.",
        rule: "No rule of the RFC",
        example: "a=1",
    },
    Explanation {
        kind: ErrorKind::OutOfRange,
        meaning: "A number is out of the range of its type. No text of a field has this error.",
        rule: "RFC 9651, section 3.3.1",
        example: "999999999999999",
    },
    Explanation {
        kind: ErrorKind::Empty,
        meaning: "A key or a token is empty. No text of a field has this error.",
        rule: "RFC 9651, sections 3.1.2 and 3.3.4",
        example: "a",
    },
    Explanation {
        kind: ErrorKind::InvalidCharacter,
        meaning: "A key, a token or a string has a wrong byte. No text of a field has this error.",
        rule: "RFC 9651, sections 3.1.2, 3.3.3 and 3.3.4",
        example: "a",
    },
    Explanation {
        kind: ErrorKind::TrailingCharactersAfterMember,
        meaning: "After a member, only a comma or the end may follow.",
        rule: "RFC 9651, sections 4.2.1 and 4.2.2",
        example: "a=1, b=2",
    },
    Explanation {
        kind: ErrorKind::TrailingComma,
        meaning: "After a comma, another member must follow.",
        rule: "RFC 9651, sections 4.2.1 and 4.2.2",
        example: "a, b",
    },
    Explanation {
        kind: ErrorKind::TrailingCharactersAfterParsedValue,
        meaning: "An item is one value with its parameters, and only spaces may follow.",
        rule: "RFC 9651, section 4.2",
        example: "5;a=1",
    },
    Explanation {
        kind: ErrorKind::ExpectedInnerListDelimiter,
        meaning: "In an inner list, items are separated by spaces, and a parenthesis ends it.",
        rule: "RFC 9651, section 4.2.1.2",
        example: "(a b)",
    },
    Explanation {
        kind: ErrorKind::UnterminatedInnerList,
        meaning: "An inner list ends with a closing parenthesis.",
        rule: "RFC 9651, section 4.2.1.2",
        example: "(a b)",
    },
    Explanation {
        kind: ErrorKind::ExpectedStartOfBareItem,
        meaning: "A value must begin here: a number, a string, a token, a byte sequence, a boolean, a date or a display string.",
        rule: "RFC 9651, section 4.2.3.1",
        example: "u=1",
    },
    Explanation {
        kind: ErrorKind::ExpectedBoolean,
        meaning: "A question mark begins a boolean, and 0 or 1 must follow.",
        rule: "RFC 9651, section 4.2.8",
        example: "?1",
    },
    Explanation {
        kind: ErrorKind::InvalidStringCharacter,
        meaning: "A string has only printable ASCII characters. Other text is a display string.",
        rule: "RFC 9651, section 4.2.5",
        example: "\"text\"",
    },
    Explanation {
        kind: ErrorKind::UnterminatedString,
        meaning: "A string ends with a double quote.",
        rule: "RFC 9651, section 4.2.5",
        example: "\"text\"",
    },
    Explanation {
        kind: ErrorKind::UnterminatedEscapeSequence,
        meaning: "The field ends within an escape.",
        rule: "RFC 9651, sections 4.2.5 and 4.2.10",
        example: "\"a\\\\b\"",
    },
    Explanation {
        kind: ErrorKind::InvalidEscapeSequence,
        meaning: "In a string, a backslash escapes a double quote or a backslash. In a display string, a percent sign and two lower-case hexadecimal digits are an escape.",
        rule: "RFC 9651, sections 4.2.5 and 4.2.10",
        example: "%\"f%c3%bc\"",
    },
    Explanation {
        kind: ErrorKind::UnterminatedByteSequence,
        meaning: "A byte sequence ends with a colon.",
        rule: "RFC 9651, section 4.2.7",
        example: ":aGVsbG8=:",
    },
    Explanation {
        kind: ErrorKind::InvalidByteSequence,
        meaning: "Between its colons, a byte sequence is Base64.",
        rule: "RFC 9651, section 4.2.7",
        example: ":aGVsbG8=:",
    },
    Explanation {
        kind: ErrorKind::ExpectedDigit,
        meaning: "After a sign, or the at sign of a date, a digit must follow.",
        rule: "RFC 9651, section 4.2.4",
        example: "-5",
    },
    Explanation {
        kind: ErrorKind::TooManyDigits,
        meaning: "An integer has at most 15 digits.",
        rule: "RFC 9651, section 4.2.4",
        example: "999999999999999",
    },
    Explanation {
        kind: ErrorKind::TooManyDigitsBeforeDecimalPoint,
        meaning: "A decimal has at most 12 digits before its point.",
        rule: "RFC 9651, section 4.2.4",
        example: "999999999999.5",
    },
    Explanation {
        kind: ErrorKind::TooManyDigitsAfterDecimalPoint,
        meaning: "A decimal has at most three digits after its point.",
        rule: "RFC 9651, section 4.2.4",
        example: "1.125",
    },
    Explanation {
        kind: ErrorKind::TrailingDecimalPoint,
        meaning: "A digit must follow the point of a decimal.",
        rule: "RFC 9651, section 4.2.4",
        example: "1.0",
    },
    Explanation {
        kind: ErrorKind::Rfc8941Date,
        meaning: "RFC 8941 has no dates. RFC 9651 has them.",
        rule: "RFC 9651, section 3.3.7",
        example: "1659578233",
    },
    Explanation {
        kind: ErrorKind::NonIntegerDate,
        meaning: "A date is a whole number of seconds.",
        rule: "RFC 9651, section 4.2.9",
        example: "@1659578233",
    },
    Explanation {
        kind: ErrorKind::Rfc8941DisplayString,
        meaning: "RFC 8941 has no display strings. RFC 9651 has them.",
        rule: "RFC 9651, section 3.3.8",
        example: "\"text\"",
    },
    Explanation {
        kind: ErrorKind::ExpectedQuote,
        meaning: "A percent sign begins a display string, and a double quote must follow.",
        rule: "RFC 9651, section 4.2.10",
        example: "%\"f%c3%bc\"",
    },
    Explanation {
        kind: ErrorKind::InvalidUtf8InDisplayString,
        meaning: "The bytes of a display string are UTF-8.",
        rule: "RFC 9651, section 4.2.10",
        example: "%\"f%c3%bc\"",
    },
    Explanation {
        kind: ErrorKind::InvalidDisplayStringCharacter,
        meaning: "A display string has only printable ASCII characters. Other bytes are escaped.",
        rule: "RFC 9651, section 4.2.10",
        example: "%\"f%c3%bc\"",
    },
    Explanation {
        kind: ErrorKind::UnterminatedDisplayString,
        meaning: "A display string ends with a double quote.",
        rule: "RFC 9651, section 4.2.10",
        example: "%\"f%c3%bc\"",
    },
    Explanation {
        kind: ErrorKind::ExpectedStartOfKey,
        meaning: "A key must begin here: a lower-case letter or an asterisk.",
        rule: "RFC 9651, section 4.2.3.3",
        example: "a=1;b=2",
    },
];

/// Returns what the kind with this name means, or `None` for another name.
pub fn explain(name: &str) -> Option<Explanation>
    ensures { IfSome result (λ found. kind_name found.kind ≡ name.now) }
{
    for explanation in &EXPLANATIONS {
        if kind_name(explanation.kind) == name {
            return Some(*explanation);
        }
    }
    None
}
