//! Checks that bytes are a key, a token or a string.

ghost use Rattle.std.specs.Prelude.{◌≡◌, IsTrue, MatchResult, not, position};
ghost use Rattle.std.specs.List.{list_all};
ghost use Rattle.sfv_spec.specs.Classes.{is_key, is_token, is_string_byte};
ghost use Rattle.sfv_values.specs.InvalidTexts.{IsInvalidKey, IsInvalidToken, IsInvalidString};

use sfv_base::error::{Error, ErrorKind};
use sfv_base::runs::{InnerKey, InnerToken, RunClass, StringByte, run_end, whole_run_end};
use sfv_base::utils::{is_allowed_start_key_char, is_allowed_start_token_char};

/// Returns the index of the first byte outside the class.
#[tactic(auto, using(crate::proofs::Outside::run_is_position))]
fn first_outside<C: RunClass>(bytes: &[u8]) -> Option<usize>
    ensures { result ≡ position (λ b. not (C.class b)) bytes.now }
{
    let end = run_end::<C>(bytes);
    if end < bytes.len() { Some(end) } else { None }
}

/// Checks that the bytes are a key.
#[tactic(auto, using(crate::proofs::Outside::all_from_position))]
pub(crate) fn check_key(bytes: &[u8]) -> Result<(), Error>
    ensures { MatchResult result (λ _. IsTrue (is_key bytes.now)) (IsInvalidKey bytes.now) }
{
    let Some((start, inner)) = bytes.split_first() else {
        return Err(Error::with_kind(ErrorKind::Empty, None));
    };
    if !is_allowed_start_key_char(*start) {
        return Err(Error::at(ErrorKind::InvalidCharacter, 0));
    }
    match first_outside::<InnerKey>(inner) {
        Some(index) => Err(Error::at(ErrorKind::InvalidCharacter, index + 1)),
        None => Ok(()),
    }
}

/// Checks that the bytes are a token.
#[tactic(auto, using(crate::proofs::Outside::all_from_position, crate::proofs::Outside::run_is_position))]
pub(crate) fn check_token(bytes: &[u8]) -> Result<(), Error>
    ensures { MatchResult result (λ _. IsTrue (is_token bytes.now)) (IsInvalidToken bytes.now) }
{
    let Some((start, inner)) = bytes.split_first() else {
        return Err(Error::with_kind(ErrorKind::Empty, None));
    };
    if !is_allowed_start_token_char(*start) {
        return Err(Error::at(ErrorKind::InvalidCharacter, 0));
    }
    // Most tokens are short, and valid to their end.
    let end = whole_run_end::<InnerToken>(inner);
    if end < inner.len() {
        return Err(Error::at(ErrorKind::InvalidCharacter, end + 1));
    }
    Ok(())
}

/// Checks that the bytes are a string.
#[tactic(auto, using(crate::proofs::Outside::all_from_position, crate::proofs::Outside::run_is_position))]
pub(crate) fn check_string(bytes: &[u8]) -> Result<(), Error>
    ensures { MatchResult result
        (λ _. IsTrue (list_all is_string_byte bytes.now))
        (IsInvalidString bytes.now) }
{
    // As for tokens.
    let end = whole_run_end::<StringByte>(bytes);
    if end < bytes.len() {
        return Err(Error::at(ErrorKind::InvalidCharacter, end));
    }
    Ok(())
}
