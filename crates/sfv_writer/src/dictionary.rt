//! Serialization of dictionaries (RFC 9651, section 4.1.2).

ghost use Rattle.std.specs.Prelude.{◌≡◌, ◌≤◌, OnOk, IfOk, IfErr, string_capacity};
ghost use Rattle.sfv_spec.specs.Values.{HasMember, bare_values};
ghost use Rattle.sfv_spec.specs.declared.field_kind.FieldKind.TheVariants.{Dictionary as dictionary_field};
ghost use Rattle.sfv_spec.specs.Canonical.{canonical};
ghost use Rattle.sfv_spec.specs.Statements.{IsValue};
ghost use Rattle.sfv_tree.specs.Trees.{dictionary_tree, dictionary_tree as tree};
ghost use Rattle.sfv_writer.specs.Written.{AppendsOrKeeps, LacksRoom, IsSerialized};
ghost use Rattle.sfv_writer.specs.Versions.{ChecksVersionFirst, OnOutOfMemory, OnUnsupported};

use crate::capacity::text_for_members;
use crate::element::serialize_elements;
use crate::output::{Fragment, append};
use crate::serialize_error::SerializeError;
use crate::version_check::check_dictionary;
use sfv_base::error::OutOfMemory;
use sfv_spec::version::Version;
use sfv_tree::parsed::Dictionary;
use std::alloc::{Allocator, Global};
use std::string::String as StdString;

impl<'a> Fragment for &'a Dictionary {
    ghost text = { λ d. canonical dictionary_field (tree d.now.entries) };

    ghost is_valid = { λ d. IsValue dictionary_field (tree d.now.entries) };

    #[inline(always)]
    fn serialize<A: Allocator>(self, output: &mut StdString<A>) -> Result<(), OutOfMemory> {
        serialize_elements(true, ", ", self.iter(), output)
    }
}

/// Returns the text of a dictionary, allocated from `alloc` (RFC 9651, section 4.1). An empty dictionary has no text:
/// returns `None`, and does not allocate.
///
/// # Errors
///
/// Returns `OutOfMemory` if memory runs out.
pub fn dictionary_text(
    dictionary: &Dictionary,
    alloc: Global,
) -> Result<Option<StdString>, OutOfMemory>
    ensures text { IfOk result (IsSerialized dictionary_field (dictionary_tree dictionary.now.entries)) }
    ensures out_of_memory { IfErr result (λ _. HasMember dictionary_field (dictionary_tree dictionary.now.entries)) }
{
    if dictionary.is_empty() {
        return Ok(None);
    }
    let mut text = text_for_members(dictionary.len(), alloc);
    dictionary.serialize(&mut text)?;
    Ok(Some(text))
}

/// Appends a dictionary (RFC 9651, section 4.1.2), if `version` has every value. An empty dictionary appends nothing.
/// After an error, `text` is unchanged.
///
/// # Errors
///
/// Returns `SerializeError::Unsupported` with the kind of the first value that `version` lacks. Returns `OutOfMemory`
/// if memory runs out, which happens only if `text` lacks the capacity for the whole dictionary.
#[tactic(auto, using(crate::proofs::Checks::look_fails, crate::proofs::Checks::memory_fails))]
pub fn append_dictionary<A: Allocator>(
    version: Version,
    dictionary: &Dictionary,
    text: &mut StdString<A>,
) -> Result<(), SerializeError>
    ensures text { AppendsOrKeeps text.old text.new
        (canonical dictionary_field (tree dictionary.now.entries)) result }
    ensures room { OnOutOfMemory result
        (LacksRoom text.old (canonical dictionary_field (tree dictionary.now.entries))) }
    ensures stays { string_capacity text.old ≤ string_capacity text.new }
    ensures unsupported { ChecksVersionFirst version
        (bare_values dictionary_field (tree dictionary.now.entries)) result }
    ensures untouched { OnUnsupported result (text.new ≡ text.old) }
    ensures value { OnOk result (IsValue dictionary_field (tree dictionary.now.entries)) }
{
    check_dictionary(version, dictionary)?;
    append(dictionary, text)?;
    Ok(())
}
