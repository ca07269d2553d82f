//! The field Sec-CH-UA-Mobile (User-Agent Client Hints): the user agent prefers a page for a mobile device.

ghost use Rattle.std.specs.Prelude.{◌≡◌, IfOk, IfErr};
ghost use Rattle.sfv_first_field.specs.MobileHint.{IsMobileHint, IsHintError};
ghost use Rattle.sfv_first_field.specs.declared.mobile_hint.HintError.TheVariants as errors;

use sfv::{Error, Item, Parser};
use std::alloc::Global;

/// The error of an input that is not such a field.
#[derive(Clone, Copy, Debug, PartialEq, Eq)]
pub enum HintError {
    /// The input is not an item, or memory ran out.
    Parse(Error),
    /// The item is not a Boolean.
    WrongType,
}

impl From<Error> for HintError {
    ghost from_gives = { λ error hint. hint ≡ errors.Parse error };

    fn from(error: Error) -> HintError {
        HintError::Parse(error)
    }
}

/// Parses the field. Returns its Boolean. Ignores parameters.
///
/// # Errors
///
/// Returns `Parse` with the error of `Parser::parse`, or `WrongType` for an item that is not a Boolean. Memory runs out
/// only as in `Parser::parse`.
pub fn is_mobile(alloc: Global, input: &[u8]) -> Result<bool, HintError>
    ensures read { IfOk result (IsMobileHint input.now) }
    ensures failed { IfErr result (IsHintError input.now) }
{
    let item = Parser::new(input).parse::<Item>(alloc)?;
    let Some(mobile) = item.bare_item.as_boolean() else {
        return Err(HintError::WrongType);
    };
    Ok(mobile)
}
