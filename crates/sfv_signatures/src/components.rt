//! The components of a message, as a program supplies them.

ghost use Rattle.std.specs.Prelude.{ℕ, List, Result};
ghost use Rattle.sfv.specs.Trees.{pairs_tree};
ghost use Rattle.sfv.specs.Values.{RawParameters};
ghost use Rattle.sfv_signatures.specs.Components.{AppendsValue};
ghost use Rattle.sfv_signatures.specs.declared.base_error.BaseErrorKind.{BaseErrorKind};

use crate::base_error::BaseErrorKind;
use sfv::Parameters;
use std::alloc::Global;

/// A message, as its components (RFC 9421, section 2).
///
/// `gives message name parameters r`: `r` is the value of the component with this name and these parameters, or the
/// rule that its identifier breaks.
pub trait Components {
    ghost gives: { Self → List ℕ → RawParameters → Result (List ℕ) BaseErrorKind → Type 0 };

    /// Appends the value of a component to `base`.
    ///
    /// # Errors
    ///
    /// Returns the rule that an identifier of this name and these parameters breaks, or `OutOfMemory` if memory runs
    /// out. The text may then have more bytes at its end.
    fn append_value(
        &self,
        alloc: Global,
        name: &str,
        params: &Parameters,
        base: &mut String,
    ) -> Result<(), BaseErrorKind>
        ensures value { AppendsValue (gives self.now name.now (pairs_tree params.now.entries))
            base.old base.new result };
}
