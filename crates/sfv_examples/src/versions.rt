//! Serialization for a version, and parsing under the same version.

ghost use Rattle.std.specs.Prelude.{map, ◌≡◌, ◌∷◌, ◌++◌, [], false, OnOk, IfOk, IfErr, codes, string_bytes};
ghost use Rattle.sfv.specs.Types.{list_field};
ghost use Rattle.sfv.specs.Ordered.{ordered};
ghost use Rattle.sfv.specs.Values.{bare_values, AllFit};
ghost use Rattle.sfv.specs.BareItems.{ref_value};
ghost use Rattle.sfv.specs.Trees.{list_tree};
ghost use Rattle.sfv.specs.Scripts.{member_of_calls, described_list};
ghost use Rattle.sfv.specs.Serializers.{HasAppendedNext, sequence_version};
ghost use Rattle.sfv.specs.Versions.{ChecksVersionFirst};
ghost use Rattle.sfv_examples.specs.Pairs.{both_text, IsBothError};
ghost use Rattle.sfv_examples.specs.Uses.{Adds, AddsMember};

use sfv::script::{MemberCalls, run_list_for};
use sfv::{List, ListSerializer, Parser, RefBareItem, SerializeError, Sink, Version};
use std::alloc::Global;

/// Writes two list members for the version of the serializer. On success, the version has both values.
///
/// # Errors
///
/// Returns the errors of the serializer.
pub fn write_both<W: Sink>(
    list: &mut ListSerializer<W>,
    first: RefBareItem<'_>,
    second: RefBareItem<'_>,
) -> Result<(), SerializeError>
    ensures text { OnOk result (AddsMember W.Sink list.old list.new (both_text first.entry second.entry)) }
    ensures fit { OnOk result
        (AllFit (sequence_version list.old) (ref_value first.entry ∷ ref_value second.entry ∷ [])) }
    ensures failed { IfErr result (IsBothError (sequence_version list.old) first.entry second.entry) }
{
    list.bare_item(first)?.finish();
    list.bare_item(second)?.finish();
    Ok(())
}

/// Appends a list of two members to `text`, for a version. On success, the version has both values.
///
/// # Errors
///
/// Returns the errors of the serializer.
pub fn write_both_for(
    text: &mut String,
    version: Version,
    first: RefBareItem<'_>,
    second: RefBareItem<'_>,
) -> Result<(), SerializeError>
    ensures text { OnOk result (Adds text.old text.new (both_text first.entry second.entry)) }
    ensures fit { OnOk result (AllFit version (ref_value first.entry ∷ ref_value second.entry ∷ [])) }
    ensures failed { IfErr result (IsBothError version first.entry second.entry) }
{
    let mut list = ListSerializer::with_buffer_for(text, version);
    write_both(&mut list, first, second)
}

/// Performs the calls of a list for a version, and parses the text under the same version. The result is the list that
/// the calls describe.
///
/// # Errors
///
/// Returns `Unsupported` with the kind of the first value that `version` lacks, or `OutOfMemory` if memory runs out.
pub fn performed_and_read_for(
    alloc: Global,
    version: Version,
    calls: &[MemberCalls<'_>],
) -> Result<List, SerializeError>
    ensures read { IfOk result (λ list. list_tree list.items ≡ ordered list_field (described_list calls.now)) }
    ensures unsupported { ChecksVersionFirst version (bare_values list_field (map member_of_calls calls.now)) result }
{
    let mut text = String::new(alloc);
    run_list_for(version, &mut text, calls)?;
    let parser = Parser::new(text.as_bytes()).with_version(version);
    match parser.parse::<List>(alloc) {
        Ok(list) => Ok(list),
        Err(error) if error.is_out_of_memory() => Err(SerializeError::OutOfMemory),
        // A text that is written for a version parses under it.
        Err(_) => unreachable!(),
    }
}
