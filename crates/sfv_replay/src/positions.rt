//! A check that an error is where its text cannot continue. With one of a few endings, the text before the index is
//! accepted. With one byte more, it is accepted with none of them.

use crate::replay::canonical_text;
use sfv::{ErrorKind, FieldKind, Version};
use std::alloc::{AllocError, Global};

/// Endings: nothing, a digit, the first byte of a key, the end of a string or an escaped byte, and the end of a byte
/// sequence. If the kind of an error has no rule, one of them completes the text before it, perhaps with a closing
/// parenthesis.
const ENDINGS: &[&str] = &["", "1", "a", "\"", "\"\"", ":", "A:", "AA:", "=:", "==:"];

/// Returns `true` if every error of this kind is at the reach of the text.
pub fn stands_at_reach(kind: ErrorKind) -> bool {
    matches!(
        kind,
        ErrorKind::TrailingCharactersAfterMember
            | ErrorKind::TrailingCharactersAfterParsedValue
            | ErrorKind::ExpectedInnerListDelimiter
            | ErrorKind::UnterminatedInnerList
            | ErrorKind::ExpectedStartOfBareItem
            | ErrorKind::ExpectedBoolean
            | ErrorKind::InvalidStringCharacter
            | ErrorKind::UnterminatedString
            | ErrorKind::ExpectedDigit
            | ErrorKind::TooManyDigits
            | ErrorKind::TooManyDigitsBeforeDecimalPoint
            | ErrorKind::Rfc8941Date
            | ErrorKind::Rfc8941DisplayString
            | ErrorKind::ExpectedQuote
            | ErrorKind::ExpectedStartOfKey
    )
}

/// Returns the text with an ending, and with what closes it.
fn text_of(alloc: Global, front: &[u8], ending: &str, close: &str) -> Result<Vec<u8>, AllocError> {
    let mut text = Vec::from_slice(alloc, front)?;
    text.extend_from_slice(ending.as_bytes())?;
    text.extend_from_slice(close.as_bytes())?;
    Ok(text)
}

/// Returns `true` if one of the endings completes the text.
fn goes_on(
    alloc: Global,
    field: FieldKind,
    version: Version,
    front: &[u8],
) -> Result<bool, AllocError> {
    for &ending in ENDINGS {
        for &close in &["", ")"] {
            let text = text_of(alloc, front, ending, close)?;
            if canonical_text(alloc, field, version, text.as_slice()).is_ok() {
                return Ok(true);
            }
        }
    }
    Ok(false)
}

/// Returns `true` if the text up to the index can be completed, and with one byte more it cannot.
pub fn is_reach(
    alloc: Global,
    field: FieldKind,
    version: Version,
    input: &[u8],
    index: usize,
) -> Result<bool, AllocError> {
    let Some(front) = input.get(..index) else {
        return Ok(false);
    };
    if !goes_on(alloc, field, version, front)? {
        return Ok(false);
    }
    match index.checked_add(1).and_then(|end| input.get(..end)) {
        Some(longer) => Ok(!goes_on(alloc, field, version, longer)?),
        None => Ok(true),
    }
}
