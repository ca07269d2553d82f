//! Two messages with the same signature base.

ghost use Rattle.std.specs.Prelude.{IfOk, IfErr};
ghost use Rattle.sfv_signatures.specs.TwoBases.{IsSameBase, AgreeIf, IsEitherError};

use crate::base::signature_base;
use crate::base_error::BaseError;
use crate::components::Components;
use sfv::InnerList;
use std::alloc::Global;

/// Returns `true` if two inner lists and messages have the same signature base. Then the lists are equal, in order and
/// with all parameters, and each component has the same value in both messages (law `one_message`).
///
/// # Errors
///
/// Returns the error of `signature_base` for the first list, or else for the second.
pub fn have_same_base<A: Components, B: Components>(
    alloc: Global,
    list: &InnerList,
    message: &A,
    other_list: &InnerList,
    other: &B,
) -> Result<bool, BaseError>
    ensures same { IfOk result (IsSameBase (A.gives message.now) (B.gives other.now) list.now other_list.now) }
    ensures agree { IfOk result (AgreeIf (A.gives message.now) (B.gives other.now) list.now other_list.now) }
    ensures failed { IfErr result (IsEitherError (A.gives message.now) (B.gives other.now) list.now other_list.now) }
{
    let base = signature_base(alloc, list, message)?;
    let other_base = signature_base(alloc, other_list, other)?;
    Ok(base.as_str() == other_base.as_str())
}
