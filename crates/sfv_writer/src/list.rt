//! Serialization of lists (RFC 9651, section 4.1.1).

ghost use Rattle.std.specs.Prelude.{◌≡◌, ◌≤◌, OnOk, IfOk, IfErr, string_capacity};
ghost use Rattle.sfv_spec.specs.Values.{HasMember, bare_values};
ghost use Rattle.sfv_spec.specs.declared.field_kind.FieldKind.TheVariants.{List as list_field};
ghost use Rattle.sfv_spec.specs.Canonical.{canonical};
ghost use Rattle.sfv_spec.specs.Statements.{IsValue};
ghost use Rattle.sfv_tree.specs.Trees.{list_tree};
ghost use Rattle.sfv_writer.specs.Written.{AppendsOrKeeps, LacksRoom, IsSerialized};
ghost use Rattle.sfv_writer.specs.Versions.{ChecksVersionFirst, OnOutOfMemory, OnUnsupported};

use crate::capacity::text_for_members;
use crate::element::serialize_elements;
use crate::output::{Fragment, append};
use crate::serialize_error::SerializeError;
use crate::version_check::check_list;
use sfv_base::error::OutOfMemory;
use sfv_spec::version::Version;
use sfv_tree::parsed::List;
use std::alloc::{Allocator, Global};
use std::string::String as StdString;

impl<'a> Fragment for &'a List {
    ghost text = { λ l. canonical list_field (list_tree l.now.items) };

    ghost is_valid = { λ l. IsValue list_field (list_tree l.now.items) };

    #[inline(always)]
    fn serialize<A: Allocator>(self, output: &mut StdString<A>) -> Result<(), OutOfMemory> {
        serialize_elements(true, ", ", self.iter(), output)
    }
}

/// Returns the text of a list, allocated from `alloc` (RFC 9651, section 4.1). An empty list has no text: returns
/// `None`, and does not allocate.
///
/// # Errors
///
/// Returns `OutOfMemory` if memory runs out.
pub fn list_text(list: &List, alloc: Global) -> Result<Option<StdString>, OutOfMemory>
    ensures text { IfOk result (IsSerialized list_field (list_tree list.now.items)) }
    ensures out_of_memory { IfErr result (λ _. HasMember list_field (list_tree list.now.items)) }
{
    if list.is_empty() {
        return Ok(None);
    }
    let mut text = text_for_members(list.len(), alloc);
    list.serialize(&mut text)?;
    Ok(Some(text))
}

/// Appends a list (RFC 9651, section 4.1.1), if `version` has every value. An empty list appends nothing. After an
/// error, `text` is unchanged.
///
/// # Errors
///
/// Returns `SerializeError::Unsupported` with the kind of the first value that `version` lacks. Returns `OutOfMemory`
/// if memory runs out, which happens only if `text` lacks the capacity for the whole list.
#[tactic(auto, using(crate::proofs::Checks::look_fails, crate::proofs::Checks::memory_fails))]
pub fn append_list<A: Allocator>(
    version: Version,
    list: &List,
    text: &mut StdString<A>,
) -> Result<(), SerializeError>
    ensures text { AppendsOrKeeps text.old text.new (canonical list_field (list_tree list.now.items)) result }
    ensures room { OnOutOfMemory result (LacksRoom text.old (canonical list_field (list_tree list.now.items))) }
    ensures stays { string_capacity text.old ≤ string_capacity text.new }
    ensures unsupported { ChecksVersionFirst version (bare_values list_field (list_tree list.now.items)) result }
    ensures untouched { OnUnsupported result (text.new ≡ text.old) }
    ensures value { OnOk result (IsValue list_field (list_tree list.now.items)) }
{
    check_list(version, list)?;
    append(list, text)?;
    Ok(())
}
