//! Serialization of inner lists, and of members of lists and dictionaries (RFC 9651, sections 4.1.1, 4.1.1.1 and
//! 4.1.2).

ghost use Rattle.std.specs.Prelude.{◌≡◌, ◌≤◌, ◌++◌, OnOk, IsTrue, map, codes, string_capacity};
ghost use Rattle.std.specs.List.{AllByRecursion};
ghost use Rattle.sfv_spec.specs.Classes.{is_key};
ghost use Rattle.sfv_spec.specs.Texts.{joined};
ghost use Rattle.sfv_spec.specs.Values.{IsItem, IsMember, inner_list, member_values};
ghost use Rattle.sfv_spec.specs.declared.field_kind.FieldKind.TheVariants.{Item as item_field};
ghost use Rattle.sfv_spec.specs.Ordered.{ordered_item, ordered_member};
ghost use Rattle.sfv_spec.specs.Canonical.{value_text, parameters_text, item_text, inner_list_text, member_text};
ghost use Rattle.sfv_spec.specs.Canonical.{dictionary_member_text};
ghost use Rattle.sfv_spec.specs.Statements.{IsValue};
ghost use Rattle.sfv_values.specs.BareItems.{bare_value};
ghost use Rattle.sfv_tree.specs.Trees.{pairs_tree, item_tree, inner_list_tree, member_tree};
ghost use Rattle.sfv_writer.specs.Written.{AsksForRoom, Appends, AppendsOrKeeps, LacksRoom};
ghost use Rattle.sfv_writer.specs.SingleMembers.{IsReadBackAlone};
ghost use Rattle.sfv_writer.specs.Versions.{ChecksVersionFirst, OnOutOfMemory, OnUnsupported};

use crate::element::serialize_elements;
use crate::item::{serialize_all_parameters, serialize_item, serialize_key, serialize_value};
use crate::output::{Fragment, append};
use crate::serialize_error::SerializeError;
use crate::version_check::{check_inner_list, check_member};
use sfv_base::error::OutOfMemory;
use sfv_spec::version::Version;
use sfv_tree::parsed::{InnerList, Item, ListEntry};
use sfv_values::key::Key;
use std::alloc::Allocator;
use std::string::String as StdString;

/// Appends the items of an inner list, with a space between neighbours.
fn serialize_items<A: Allocator>(
    items: &[Item],
    output: &mut StdString<A>,
) -> Result<(), OutOfMemory>
    ensures text { Appends output.old output.new (joined (codes " ") (map item_text (map item_tree items.now))) result }
    ensures room { AsksForRoom output.old output.new (joined (codes " ") (map item_text (map item_tree items.now))) result }
    ensures values { OnOk result (AllByRecursion (λ i. IsItem i × (ordered_item i ≡ i)) (map item_tree items.now)) }
{
    serialize_elements(false, " ", items.iter(), output)
}

/// Appends an inner list with its parameters.
#[inline(never)]
fn serialize_inner_list<A: Allocator>(
    list: &InnerList,
    output: &mut StdString<A>,
) -> Result<(), OutOfMemory>
    ensures text { Appends output.old output.new (inner_list_text (inner_list_tree list.now)) result }
    ensures room { AsksForRoom output.old output.new (inner_list_text (inner_list_tree list.now)) result }
    ensures value { OnOk result (IsMember (inner_list (inner_list_tree list.now))
        × (ordered_member (inner_list (inner_list_tree list.now)) ≡ inner_list (inner_list_tree list.now))) }
{
    output.push('(')?;
    serialize_items(&list.items, output)?;
    output.push(')')?;
    serialize_all_parameters(&list.params, output)
}

/// Appends an item or an inner list.
#[inline(always)]
pub(crate) fn serialize_member<A: Allocator>(
    member: &ListEntry,
    output: &mut StdString<A>,
) -> Result<(), OutOfMemory>
    ensures text { Appends output.old output.new (member_text (member_tree member.now)) result }
    ensures room { AsksForRoom output.old output.new (member_text (member_tree member.now)) result }
    ensures value { OnOk result (IsMember (member_tree member.now)
        × (ordered_member (member_tree member.now) ≡ member_tree member.now)) }
{
    match member {
        ListEntry::Item(item) => serialize_item(item, output),
        ListEntry::InnerList(list) => serialize_inner_list(list, output),
    }
}

/// Appends the value and the parameters of an item after its key. A true value is omitted.
#[inline(always)]
fn serialize_item_after_key<A: Allocator>(
    item: &Item,
    output: &mut StdString<A>,
) -> Result<(), OutOfMemory>
    ensures text { Appends output.old output.new
        (value_text (bare_value item.now.bare_item) ++ parameters_text (pairs_tree item.now.params.entries)) result }
    ensures room { AsksForRoom output.old output.new
        (value_text (bare_value item.now.bare_item) ++ parameters_text (pairs_tree item.now.params.entries)) result }
    ensures value { OnOk result (IsValue item_field (item_tree item.now)) }
{
    serialize_value(item.bare_item.as_ref_item(), output)?;
    serialize_all_parameters(&item.params, output)
}

/// Appends a member of a dictionary.
#[inline(always)]
pub(crate) fn serialize_dictionary_member<A: Allocator>(
    key: &Key,
    member: &ListEntry,
    output: &mut StdString<A>,
) -> Result<(), OutOfMemory>
    ensures text { Appends output.old output.new (dictionary_member_text (key.now, member_tree member.now)) result }
    ensures room { AsksForRoom output.old output.new (dictionary_member_text (key.now, member_tree member.now)) result }
    ensures key { OnOk result (IsTrue (is_key key.now)) }
    ensures value { OnOk result (IsMember (member_tree member.now)
        × (ordered_member (member_tree member.now) ≡ member_tree member.now)) }
{
    serialize_key(key.as_key_ref(), output)?;
    match member {
        ListEntry::Item(item) => serialize_item_after_key(item, output),
        ListEntry::InnerList(list) => {
            output.push('=')?;
            serialize_inner_list(list, output)
        }
    }
}

impl<'a> Fragment for &'a ListEntry {
    ghost text = { λ m. member_text (member_tree m.now) };

    ghost is_valid = { λ m. IsMember (member_tree m.now) × (ordered_member (member_tree m.now) ≡ member_tree m.now) };

    #[inline(always)]
    fn serialize<A: Allocator>(self, output: &mut StdString<A>) -> Result<(), OutOfMemory> {
        serialize_member(self, output)
    }
}

impl<'a> Fragment for &'a InnerList {
    ghost text = { λ l. inner_list_text (inner_list_tree l.now) };

    ghost is_valid = { λ l. IsMember (inner_list (inner_list_tree l.now))
        × (ordered_member (inner_list (inner_list_tree l.now)) ≡ inner_list (inner_list_tree l.now)) };

    #[inline(always)]
    fn serialize<A: Allocator>(self, output: &mut StdString<A>) -> Result<(), OutOfMemory> {
        serialize_inner_list(self, output)
    }
}

/// Appends a member of a list (RFC 9651, section 4.1.1), if `version` has every value. The appended text parses back
/// under `version` to the list with this one member. No memory is requested if `text` has the capacity.
///
/// # Errors
///
/// Returns `SerializeError::Unsupported` with the kind of the first value, in the order of the text, that `version`
/// lacks. Returns `OutOfMemory` if memory runs out, which happens only if `text` lacks the capacity. After an error,
/// the text is unchanged.
#[tactic(auto, using(crate::proofs::Checks::look_fails, crate::proofs::Checks::memory_fails))]
pub fn append_member(
    version: Version,
    member: &ListEntry,
    text: &mut StdString,
) -> Result<(), SerializeError>
    ensures text { AppendsOrKeeps text.old text.new (member_text (member_tree member.now)) result }
    ensures room { OnOutOfMemory result (LacksRoom text.old (member_text (member_tree member.now))) }
    ensures stays { string_capacity text.old ≤ string_capacity text.new }
    ensures unsupported { ChecksVersionFirst version (member_values (member_tree member.now)) result }
    ensures untouched { OnUnsupported result (text.new ≡ text.old) }
    ensures read_back { OnOk result (IsReadBackAlone version (member_tree member.now)) }
{
    check_member(version, member)?;
    append(member, text)?;
    Ok(())
}

/// Appends an inner list with its parameters (RFC 9651, section 4.1.1.1), if `version` has every value. The appended
/// text parses back under `version` to the list whose one member is this inner list. No memory is requested if `text`
/// has the capacity.
///
/// # Errors
///
/// Returns `SerializeError::Unsupported` with the kind of the first value, in the order of the text, that `version`
/// lacks. Returns `OutOfMemory` if memory runs out, which happens only if `text` lacks the capacity. After an error,
/// the text is unchanged.
#[tactic(auto, using(crate::proofs::Checks::look_fails, crate::proofs::Checks::memory_fails))]
pub fn append_inner_list(
    version: Version,
    list: &InnerList,
    text: &mut StdString,
) -> Result<(), SerializeError>
    ensures text { AppendsOrKeeps text.old text.new (inner_list_text (inner_list_tree list.now)) result }
    ensures room { OnOutOfMemory result (LacksRoom text.old (inner_list_text (inner_list_tree list.now))) }
    ensures stays { string_capacity text.old ≤ string_capacity text.new }
    ensures unsupported { ChecksVersionFirst version (member_values (inner_list (inner_list_tree list.now))) result }
    ensures untouched { OnUnsupported result (text.new ≡ text.old) }
    ensures read_back { OnOk result (IsReadBackAlone version (inner_list (inner_list_tree list.now))) }
{
    check_inner_list(version, list)?;
    append(list, text)?;
    Ok(())
}
