//! A caller of signature bases: two messages with the same base agree on all that is signed.

ghost use Rattle.std.specs.Prelude.{IfOk};
ghost use Rattle.sfv_signatures.specs.HttpMessages.{HttpGives};
ghost use Rattle.sfv_signatures.specs.TwoBases.{IsSameBase, AgreeIf};
ghost use Rattle.sfv_examples.specs.Signed.{WithoutTheCheck};

use sfv::InnerList;
use sfv_signatures::{BaseError, HttpMessage, signature_base};
use std::alloc::Global;

/// Returns `true` if and only if the message that was received has the base of the message that was sent. Then each
/// component of the list has the same value in both messages.
///
/// # Errors
///
/// Returns the error of `signature_base`.
pub fn is_unchanged(
    alloc: Global,
    list: &InnerList,
    sent: &HttpMessage<'_>,
    received: &HttpMessage<'_>,
) -> Result<bool, BaseError>
    ensures same { IfOk result (IsSameBase (HttpGives sent.now) (HttpGives received.now) list.now list.now) }
    ensures agree { IfOk result (AgreeIf (HttpGives sent.now) (HttpGives received.now) list.now list.now) }
{
    let base = signature_base(alloc, list, sent)?;
    let other = signature_base(alloc, list, received)?;
    Ok(base.as_str() == other.as_str())
}

/// Without the check for line feeds, equal bases do not imply equal values.
pub fn line_feeds_are_checked()
    ensures needed { ¬ WithoutTheCheck }
{}
