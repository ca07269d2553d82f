//! Errors: their kinds, indexes and texts.

use crate::common::{is_shown, is_text, near_power, prints};
use sfv::visitor::ItemFault;
use sfv::{BareItemType, Error, ErrorKind, OutOfMemory, ParseError, SerializeError};
use std::alloc::{AllocError, AllocFailed, Global};
use std::test::Fail;

#[test]
fn errors_print_their_message_and_place(rt: HostRuntime) {
    let alloc = rt.alloc();
    let placed = Error::at(ErrorKind::TooManyDigits, 15);
    let unplaced = Error::with_kind(ErrorKind::Empty, None);
    let printed = prints(alloc, &placed, "too many digits at index 15")
        & prints(alloc, &unplaced, "cannot be empty")
        & is_text(placed.message(), "too many digits");
    let seen = (placed.kind() == ErrorKind::TooManyDigits)
        & (placed.index() == Some(15))
        & unplaced.index().is_none()
        & !placed.is_out_of_memory();
    assert!(rt; printed & seen);
}

#[test]
fn errors_are_shown_with_their_parts(rt: HostRuntime) {
    let alloc = rt.alloc();
    let placed = Error::at(ErrorKind::TooManyDigits, 15);
    let unplaced = Error::with_kind(ErrorKind::Empty, None);
    let syntax: ParseError<OutOfMemory> = ParseError::Syntax(unplaced);
    let visitor: ParseError<OutOfMemory> = ParseError::Visitor(OutOfMemory);
    let holds = is_shown(
        alloc,
        &placed,
        "Error { kind: TooManyDigits, index: Some(15) }",
    ) & is_shown(alloc, &unplaced, "Error { kind: Empty, index: None }")
        & is_shown(alloc, &OutOfMemory, "OutOfMemory")
        & is_shown(alloc, &syntax, "Syntax(Error { kind: Empty, index: None })")
        & is_shown(alloc, &visitor, "Visitor(OutOfMemory)")
        & is_shown(alloc, &SerializeError::OutOfMemory, "OutOfMemory")
        & is_shown(
            alloc,
            &SerializeError::Unsupported(BareItemType::Date),
            "Unsupported(Date)",
        );
    assert!(rt; holds);
}

/// Returns `true` if an error of this kind prints its message and this index, also in an error of a parser with a
/// visitor.
fn is_index_printed(alloc: Global, kind: ErrorKind, index: usize) -> Result<bool, Fail> {
    let message = kind.message();
    let text = format!(in alloc; "{message} at index {index}")?;
    let error = Error::at(kind, index);
    let syntax: ParseError<OutOfMemory> = ParseError::Syntax(error);
    Ok(
        prints(alloc, &error, text.as_str())
            & prints(alloc, &syntax, text.as_str())
            & prints(alloc, &ParseError::Visitor(error), text.as_str()),
    )
}

#[test]
fn errors_print_each_index(rt: HostRuntime) -> Result<(), Fail> {
    let alloc = rt.alloc();
    let mut holds = true;
    let mut index = 0usize;
    for _ in 0..64 {
        for more in 0..3 {
            let index = index.saturating_add(more);
            holds &= is_index_printed(alloc, ErrorKind::TooManyDigits, index)?;
        }
        index = index.saturating_mul(2).saturating_add(1);
    }
    assert!(rt; holds);
    Ok(())
}

/// All kinds.
const KINDS: &[ErrorKind] = &[
    ErrorKind::OutOfMemory,
    ErrorKind::OutOfRange,
    ErrorKind::Empty,
    ErrorKind::InvalidCharacter,
    ErrorKind::TrailingCharactersAfterMember,
    ErrorKind::TrailingComma,
    ErrorKind::TrailingCharactersAfterParsedValue,
    ErrorKind::ExpectedInnerListDelimiter,
    ErrorKind::UnterminatedInnerList,
    ErrorKind::ExpectedStartOfBareItem,
    ErrorKind::ExpectedBoolean,
    ErrorKind::InvalidStringCharacter,
    ErrorKind::UnterminatedString,
    ErrorKind::UnterminatedEscapeSequence,
    ErrorKind::InvalidEscapeSequence,
    ErrorKind::UnterminatedByteSequence,
    ErrorKind::InvalidByteSequence,
    ErrorKind::ExpectedDigit,
    ErrorKind::TooManyDigits,
    ErrorKind::TooManyDigitsBeforeDecimalPoint,
    ErrorKind::TooManyDigitsAfterDecimalPoint,
    ErrorKind::TrailingDecimalPoint,
    ErrorKind::Rfc8941Date,
    ErrorKind::NonIntegerDate,
    ErrorKind::Rfc8941DisplayString,
    ErrorKind::ExpectedQuote,
    ErrorKind::InvalidUtf8InDisplayString,
    ErrorKind::InvalidDisplayStringCharacter,
    ErrorKind::UnterminatedDisplayString,
    ErrorKind::ExpectedStartOfKey,
];

/// Returns `true` if an error of this kind without an index prints its message, also in an error of a parser with a
/// visitor.
fn is_message_printed(alloc: Global, kind: ErrorKind) -> bool {
    let message = kind.message();
    let error = Error::with_kind(kind, None);
    let syntax: ParseError<OutOfMemory> = ParseError::Syntax(error);
    prints(alloc, &kind, message)
        & prints(alloc, &error, message)
        & prints(alloc, &syntax, message)
        & prints(alloc, &ParseError::Visitor(error), message)
}

#[test]
fn errors_of_each_kind_print_each_digit_of_an_index(rt: HostRuntime) -> Result<(), Fail> {
    let alloc = rt.alloc();
    let mut holds = true;
    for &kind in KINDS {
        holds &= is_message_printed(alloc, kind);
        for place in 0..20 * 189 {
            let index = usize::try_from(near_power(place)).unwrap_or(0);
            holds &= is_index_printed(alloc, kind, index)?;
        }
    }
    assert!(rt; holds);
    Ok(())
}

#[test]
fn errors_of_a_reading_have_the_place_of_a_syntax_error_alone(rt: HostRuntime) {
    let alloc = rt.alloc();
    let error = Error::at(ErrorKind::ExpectedStartOfKey, 4);
    let text = "expected start of key ('a'-'z' or '*') at index 4";
    let syntax: ParseError<OutOfMemory> = ParseError::Syntax(error);
    let visitor = ParseError::Visitor(error);
    let printed = prints(alloc, &syntax, text) & prints(alloc, &visitor, text);
    assert!(rt; printed & (syntax.index() == Some(4)) & visitor.index().is_none());
}

#[test]
fn options_do_not_reach_the_error_of_a_visitor(rt: HostRuntime) {
    let alloc = rt.alloc();
    let number: ParseError<u8> = ParseError::Visitor(7);
    assert!(rt; prints(alloc, &ParseError::Visitor("over"), "over") & prints(alloc, &number, "7"));
}

#[test]
fn want_of_memory_becomes_an_error_that_says_so(rt: HostRuntime) {
    let alloc = rt.alloc();
    let text = "out of memory";
    assert!(rt; prints(alloc, &OutOfMemory, text));
    assert!(rt; OutOfMemory::from(AllocError) == OutOfMemory);
    assert!(rt; OutOfMemory::from(AllocFailed { value: 1u8 }) == OutOfMemory);
    assert!(rt; SerializeError::from(AllocError) == SerializeError::OutOfMemory);
    let unwritten = SerializeError::from(AllocFailed { value: 1u8 });
    assert!(rt; unwritten == SerializeError::OutOfMemory);
    let failed = Error::from(AllocFailed { value: 1u8 });
    for error in [Error::from(OutOfMemory), Error::from(AllocError), failed] {
        assert!(rt; error.is_out_of_memory() && prints(alloc, &error, text));
    }
}

/// The kinds of bare items, and their names.
const NAMES: &[(BareItemType, &str)] = &[
    (BareItemType::Decimal, "decimal"),
    (BareItemType::Integer, "integer"),
    (BareItemType::String, "string"),
    (BareItemType::ByteSequence, "byte sequence"),
    (BareItemType::Boolean, "boolean"),
    (BareItemType::Token, "token"),
    (BareItemType::Date, "date"),
    (BareItemType::DisplayString, "display string"),
];

#[test]
fn kinds_of_items_print_their_name_alone_and_in_faults(rt: HostRuntime) -> Result<(), Fail> {
    let alloc = rt.alloc();
    let mut holds = prints(alloc, &ItemFault::NoItem, "no item")
        & prints(alloc, &ItemFault::OutOfMemory, "out of memory")
        & prints(alloc, &SerializeError::OutOfMemory, "out of memory");
    for &(expected, name) in NAMES {
        let text = format!(in alloc; "RFC 8941 does not support {name}s")?;
        holds &= prints(alloc, &expected, name);
        holds &= prints(alloc, &SerializeError::Unsupported(expected), text.as_str());
        for &(got, other) in NAMES {
            let text = format!(in alloc;
                "unexpected bare item type: expected {name}, got {other}"
            )?;
            holds &= prints(
                alloc,
                &ItemFault::WrongType { expected, got },
                text.as_str(),
            );
        }
    }
    assert!(rt; holds);
    Ok(())
}

// The messages of the other kinds are in the lines of `sfv_replay`.
#[test]
fn kinds_that_no_field_has_print_their_message(rt: HostRuntime) {
    let rows = &[
        (ErrorKind::OutOfMemory, "out of memory"),
        (ErrorKind::OutOfRange, "out of range"),
        (ErrorKind::Empty, "cannot be empty"),
        (ErrorKind::InvalidCharacter, "invalid character"),
    ];
    for &(kind, text) in rows {
        assert!(rt; prints(rt.alloc(), &kind, text), "{text}");
    }
}
