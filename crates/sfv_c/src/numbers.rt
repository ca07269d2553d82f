//! The numbers of types of fields, versions and kinds.

ghost use Rattle.std.specs.Prelude.{◌≡◌};
ghost use Rattle.sfv_c.specs.Numbers.{named_field, named_version, kind_number, IsKindOf, type_number};

use sfv::{BareItemType, ErrorKind, FieldKind, Version};

/// The type of field of this number.
pub(crate) fn field_of(number: u32) -> Option<FieldKind>
    ensures { result ≡ named_field number }
{
    match number {
        1 => Some(FieldKind::Item),
        2 => Some(FieldKind::List),
        3 => Some(FieldKind::Dictionary),
        _ => None,
    }
}

/// The version of this number.
pub(crate) fn version_of(number: u32) -> Option<Version>
    ensures { result ≡ named_version number }
{
    match number {
        8941 => Some(Version::Rfc8941),
        9651 => Some(Version::Rfc9651),
        _ => None,
    }
}

/// The number of a kind of bare item.
pub(crate) fn number_of_type(kind: BareItemType) -> u32
    ensures { result ≡ type_number kind }
{
    match kind {
        BareItemType::Integer => 1,
        BareItemType::Decimal => 2,
        BareItemType::String => 3,
        BareItemType::Token => 4,
        BareItemType::ByteSequence => 5,
        BareItemType::Boolean => 6,
        BareItemType::Date => 7,
        BareItemType::DisplayString => 8,
    }
}

/// The number of a kind of error.
pub(crate) fn number_of_kind(kind: ErrorKind) -> u32
    ensures { result ≡ kind_number kind }
{
    match kind {
        ErrorKind::OutOfMemory => 1,
        ErrorKind::OutOfRange => 2,
        ErrorKind::Empty => 3,
        ErrorKind::InvalidCharacter => 4,
        ErrorKind::TrailingCharactersAfterMember => 5,
        ErrorKind::TrailingComma => 6,
        ErrorKind::TrailingCharactersAfterParsedValue => 7,
        ErrorKind::ExpectedInnerListDelimiter => 8,
        ErrorKind::UnterminatedInnerList => 9,
        ErrorKind::ExpectedStartOfBareItem => 10,
        ErrorKind::ExpectedBoolean => 11,
        ErrorKind::InvalidStringCharacter => 12,
        ErrorKind::UnterminatedString => 13,
        ErrorKind::UnterminatedEscapeSequence => 14,
        ErrorKind::InvalidEscapeSequence => 15,
        ErrorKind::UnterminatedByteSequence => 16,
        ErrorKind::InvalidByteSequence => 17,
        ErrorKind::ExpectedDigit => 18,
        ErrorKind::TooManyDigits => 19,
        ErrorKind::TooManyDigitsBeforeDecimalPoint => 20,
        ErrorKind::TooManyDigitsAfterDecimalPoint => 21,
        ErrorKind::TrailingDecimalPoint => 22,
        ErrorKind::Rfc8941Date => 23,
        ErrorKind::NonIntegerDate => 24,
        ErrorKind::Rfc8941DisplayString => 25,
        ErrorKind::ExpectedQuote => 26,
        ErrorKind::InvalidUtf8InDisplayString => 27,
        ErrorKind::InvalidDisplayStringCharacter => 28,
        ErrorKind::UnterminatedDisplayString => 29,
        ErrorKind::ExpectedStartOfKey => 30,
    }
}

/// The kind of error of this number.
pub(crate) fn kind_of_number(number: u32) -> Option<ErrorKind>
    ensures { IsKindOf number result }
{
    Some(match number {
        1 => ErrorKind::OutOfMemory,
        2 => ErrorKind::OutOfRange,
        3 => ErrorKind::Empty,
        4 => ErrorKind::InvalidCharacter,
        5 => ErrorKind::TrailingCharactersAfterMember,
        6 => ErrorKind::TrailingComma,
        7 => ErrorKind::TrailingCharactersAfterParsedValue,
        8 => ErrorKind::ExpectedInnerListDelimiter,
        9 => ErrorKind::UnterminatedInnerList,
        10 => ErrorKind::ExpectedStartOfBareItem,
        11 => ErrorKind::ExpectedBoolean,
        12 => ErrorKind::InvalidStringCharacter,
        13 => ErrorKind::UnterminatedString,
        14 => ErrorKind::UnterminatedEscapeSequence,
        15 => ErrorKind::InvalidEscapeSequence,
        16 => ErrorKind::UnterminatedByteSequence,
        17 => ErrorKind::InvalidByteSequence,
        18 => ErrorKind::ExpectedDigit,
        19 => ErrorKind::TooManyDigits,
        20 => ErrorKind::TooManyDigitsBeforeDecimalPoint,
        21 => ErrorKind::TooManyDigitsAfterDecimalPoint,
        22 => ErrorKind::TrailingDecimalPoint,
        23 => ErrorKind::Rfc8941Date,
        24 => ErrorKind::NonIntegerDate,
        25 => ErrorKind::Rfc8941DisplayString,
        26 => ErrorKind::ExpectedQuote,
        27 => ErrorKind::InvalidUtf8InDisplayString,
        28 => ErrorKind::InvalidDisplayStringCharacter,
        29 => ErrorKind::UnterminatedDisplayString,
        30 => ErrorKind::ExpectedStartOfKey,
        _ => return None,
    })
}
