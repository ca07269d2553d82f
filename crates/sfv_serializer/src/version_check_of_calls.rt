//! Checks, before the calls of a script are performed, that a version has their values.

ghost use Rattle.std.specs.Prelude.{map, flat_map};
ghost use Rattle.sfv_spec.specs.declared.field_kind.FieldKind.TheVariants.{List as list_field};
ghost use Rattle.sfv_spec.specs.declared.field_kind.FieldKind.TheVariants.{Dictionary as dictionary_field};
ghost use Rattle.sfv_spec.specs.Values.{bare_values};
ghost use Rattle.sfv_serializer.specs.Scripts.{param_of_call, item_of_calls, member_of_calls, entry_of_calls};
ghost use Rattle.sfv_serializer.specs.ScriptSteps.{supplied_member, inner_list_calls, member_calls};
ghost use Rattle.sfv_writer.specs.Versions.{ChecksVersion};
ghost use Rattle.sfv_spec.specs.Values.{item_values, member_values};
ghost use Rattle.sfv_spec.proofs.Marks.{parameter_values};

use crate::script::{ItemCalls, MemberCalls, ParamCall};
use sfv_spec::version::Version;
use sfv_values::key_ref::KeyRef;
use sfv_writer::serialize_error::SerializeError;
use sfv_writer::version_check::check_bare_item;

/// Checks that `version` has the values of all parameters.
fn check_param_calls(version: Version, calls: &[ParamCall<'_>]) -> Result<(), SerializeError>
    ensures { ChecksVersion version (parameter_values (map param_of_call calls.now)) result }
{
    for call in calls {
        check_bare_item(version, call.value)?;
    }
    Ok(())
}

/// Checks that `version` has every value of an item: first the bare item, then the parameters.
pub(crate) fn check_item_calls(
    version: Version,
    calls: &ItemCalls<'_>,
) -> Result<(), SerializeError>
    ensures { ChecksVersion version (item_values (item_of_calls calls.now)) result }
{
    check_bare_item(version, calls.value)?;
    check_param_calls(version, &calls.params)
}

/// Checks that `version` has every value of the items of an inner list.
fn check_items_calls(version: Version, items: &[ItemCalls<'_>]) -> Result<(), SerializeError>
    ensures { ChecksVersion version (flat_map item_values (map item_of_calls items.now)) result }
{
    for calls in items {
        check_item_calls(version, calls)?;
    }
    Ok(())
}

/// Checks that `version` has every value of an inner list. An abandoned inner list has no parameters.
fn check_inner_calls(
    version: Version,
    items: &[ItemCalls<'_>],
    params: &[ParamCall<'_>],
    abandon: bool,
) -> Result<(), SerializeError>
    ensures { ChecksVersion version
        (member_values (supplied_member (inner_list_calls items.now params.now abandon))) result }
{
    check_items_calls(version, items)?;
    if abandon {
        return Ok(());
    }
    check_param_calls(version, params)
}

/// Checks that `version` has every value of a member.
fn check_member_calls(version: Version, member: &MemberCalls<'_>) -> Result<(), SerializeError>
    ensures { ChecksVersion version (member_values (supplied_member (member_calls member.now))) result }
{
    match member {
        MemberCalls::Item(item) => check_item_calls(version, item),
        MemberCalls::InnerList {
            items,
            params,
            abandon,
        } => check_inner_calls(version, items, params, *abandon),
    }
}

/// Checks that `version` has every value of a list.
pub(crate) fn check_list_calls(
    version: Version,
    calls: &[MemberCalls<'_>],
) -> Result<(), SerializeError>
    ensures { ChecksVersion version (bare_values list_field (map member_of_calls calls.now)) result }
{
    for member in calls {
        check_member_calls(version, member)?;
    }
    Ok(())
}

/// Checks that `version` has every value of a dictionary.
pub(crate) fn check_dictionary_calls(
    version: Version,
    calls: &[(KeyRef<'_>, MemberCalls<'_>)],
) -> Result<(), SerializeError>
    ensures { ChecksVersion version (bare_values dictionary_field (map entry_of_calls calls.now)) result }
{
    for (_name, member) in calls {
        check_member_calls(version, member)?;
    }
    Ok(())
}
