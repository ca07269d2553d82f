//! Checks, before a value is written, that a version has it.

ghost use Rattle.std.specs.Prelude.{◌∷◌, [], List, map, flat_map};
ghost use Rattle.std.specs.Iterator.{IsFinite};
ghost use Rattle.sfv_spec.specs.Values.{BareValue, inner_list, bare_values, item_values, member_values};
ghost use Rattle.sfv_spec.specs.declared.field_kind.FieldKind.TheVariants.{List as list_field};
ghost use Rattle.sfv_spec.specs.declared.field_kind.FieldKind.TheVariants.{Dictionary as dictionary_field};
ghost use Rattle.sfv_spec.specs.declared.version.Version.TheVariants.{Rfc8941};
ghost use Rattle.sfv_values.specs.BareItems.{bare_value, ref_value};
ghost use Rattle.sfv_tree.specs.Trees.{pairs_tree, item_tree, inner_list_tree, member_tree, list_tree, dictionary_tree};
ghost use Rattle.sfv_writer.specs.Versions.{ChecksVersion, ChecksAll};
ghost use Rattle.sfv_spec.proofs.Marks.{parameter_values};

use crate::serialize_error::SerializeError;
use sfv_spec::version::Version;
use sfv_tree::parsed::{Dictionary, InnerList, Item, List, ListEntry, Parameters};
use sfv_values::bare::{BareItem, BareItemType, GenericBareItem, RefBareItem};

/// Checks that a bare item is neither a date nor a display string. RFC 8941 lacks both.
fn check_rfc8941(value: RefBareItem<'_>) -> Result<(), SerializeError>
    ensures { ChecksVersion Rfc8941 (ref_value value.entry ∷ []) result }
{
    match value {
        GenericBareItem::Date(_) => Err(SerializeError::Unsupported(BareItemType::Date)),
        GenericBareItem::DisplayString(_) => {
            Err(SerializeError::Unsupported(BareItemType::DisplayString))
        }
        _ => Ok(()),
    }
}

/// Checks that `version` has a bare item.
///
/// # Errors
///
/// Returns `SerializeError::Unsupported` with its kind if `version` lacks it.
#[inline(always)]
pub fn check_bare_item(version: Version, value: RefBareItem<'_>) -> Result<(), SerializeError>
    ensures { ChecksVersion version (ref_value value.entry ∷ []) result }
{
    match version {
        Version::Rfc8941 => check_rfc8941(value),
        Version::Rfc9651 => Ok(()),
    }
}

/// A part of a field.
pub(crate) trait HasValues: Copy {
    ghost values: { Self → List BareValue };

    /// Checks that `version` has every value of the part.
    ///
    /// # Errors
    ///
    /// Returns `SerializeError::Unsupported` with the kind of the first value that `version` lacks.
    fn check_values(self, version: Version) -> Result<(), SerializeError>
        ensures { ChecksVersion version (values self) result };
}

impl<'a> HasValues for &'a BareItem {
    ghost values = { λ v. bare_value v.now ∷ [] };

    #[inline(always)]
    fn check_values(self, version: Version) -> Result<(), SerializeError> {
        check_bare_item(version, self.as_ref_item())
    }
}

impl<'a> HasValues for &'a Item {
    ghost values = { λ i. item_values (item_tree i.now) };

    #[inline(always)]
    fn check_values(self, version: Version) -> Result<(), SerializeError> {
        check_item(version, self)
    }
}

impl<'a> HasValues for &'a ListEntry {
    ghost values = { λ m. member_values (member_tree m.now) };

    #[inline(always)]
    fn check_values(self, version: Version) -> Result<(), SerializeError> {
        check_member(version, self)
    }
}

/// Checks that `version` has every value of the parts.
///
/// # Errors
///
/// Returns `SerializeError::Unsupported` with the kind of the first value that `version` lacks.
pub(crate) fn check_all<T: HasValues, I: Iterator<Item = T> + Drop>(
    version: Version,
    parts: I,
) -> Result<(), SerializeError>
    requires can { I.can_next parts }
    requires ends { IsFinite (I.remaining parts) }
    ensures { ChecksAll T.values version I.next_gives parts result }
{
    for part in parts {
        part.check_values(version)?;
    }
    Ok(())
}

/// Checks that `version` has the values of all parameters.
fn check_parameters(version: Version, params: &Parameters) -> Result<(), SerializeError>
    ensures { ChecksVersion version (parameter_values (pairs_tree params.now.entries)) result }
{
    check_all(version, params.values())
}

/// Checks that `version` has every value of an item: first the bare item, then the parameters.
///
/// # Errors
///
/// Returns `SerializeError::Unsupported` with the kind of the first value that `version` lacks.
pub fn check_item(version: Version, item: &Item) -> Result<(), SerializeError>
    ensures { ChecksVersion version (item_values (item_tree item.now)) result }
{
    check_bare_item(version, item.bare_item.as_ref_item())?;
    check_parameters(version, &item.params)
}

/// Checks that `version` has every value of these items.
fn check_items(version: Version, items: &[Item]) -> Result<(), SerializeError>
    ensures { ChecksVersion version (flat_map item_values (map item_tree items.now)) result }
{
    check_all(version, items.iter())
}

/// Checks that `version` has every value of an inner list.
pub(crate) fn check_inner_list(version: Version, list: &InnerList) -> Result<(), SerializeError>
    ensures { ChecksVersion version (member_values (inner_list (inner_list_tree list.now))) result }
{
    check_items(version, &list.items)?;
    check_parameters(version, &list.params)
}

/// Checks that `version` has every value of a member.
pub(crate) fn check_member(version: Version, member: &ListEntry) -> Result<(), SerializeError>
    ensures { ChecksVersion version (member_values (member_tree member.now)) result }
{
    match member {
        ListEntry::Item(item) => check_item(version, item),
        ListEntry::InnerList(list) => check_inner_list(version, list),
    }
}

/// Checks that `version` has every value of a list.
///
/// # Errors
///
/// Returns `SerializeError::Unsupported` with the kind of the first value that `version` lacks.
pub fn check_list(version: Version, list: &List) -> Result<(), SerializeError>
    ensures { ChecksVersion version (bare_values list_field (list_tree list.now.items)) result }
{
    check_all(version, list.iter())
}

/// Checks that `version` has every value of a dictionary.
///
/// # Errors
///
/// Returns `SerializeError::Unsupported` with the kind of the first value that `version` lacks.
pub fn check_dictionary(version: Version, dictionary: &Dictionary) -> Result<(), SerializeError>
    ensures { ChecksVersion version (bare_values dictionary_field (dictionary_tree dictionary.now.entries)) result }
{
    check_all(version, dictionary.values())
}
