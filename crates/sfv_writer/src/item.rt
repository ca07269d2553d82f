//! Serialization of bare items, parameters and items (RFC 9651, sections 4.1.1.2, 4.1.3 and 4.1.3.1).

ghost use Rattle.std.specs.Prelude.{◌≡◌, [], ◌∷◌, ◌++◌, List, true, IfErr, OnOk, OnErr, MatchBool, IsTrue, codes};
ghost use Rattle.std.specs.Prelude.{string_bytes, ◌≤◌, Some, IfOk, string_capacity};
ghost use Rattle.std.specs.Iterator.{IsFinite, Drains};
ghost use Rattle.sfv_spec.specs.Classes.{is_key, is_token};
ghost use Rattle.sfv_spec.specs.Values.{IsBareValue, AreParameters, boolean, item_values, AllFit};
ghost use Rattle.sfv_spec.specs.declared.field_kind.FieldKind.TheVariants.{Item as item_field};
ghost use Rattle.sfv_spec.proofs.Repeats.{no_repeats};
ghost use Rattle.sfv_spec.proofs.Marks.{keys};
ghost use Rattle.sfv_spec.specs.Grammar.{boolean_text};
ghost use Rattle.sfv_spec.specs.Canonical.{bare_text, value_text, parameters_text, item_text};
ghost use Rattle.sfv_spec.specs.declared.version.Version.TheVariants.{Rfc9651};
ghost use Rattle.sfv_spec.specs.Statements.{IsValue, IsSerializedAs};
ghost use Rattle.sfv_values.specs.BareItems.{ref_value, bare_value};
ghost use Rattle.sfv_values.specs.CheckedTexts.{text_of};
ghost use Rattle.sfv_tree.specs.Trees.{pairs_tree, item_tree};
ghost use Rattle.sfv_writer.specs.Written.{AsksForRoom, Appends, AppendsOrKeeps, LacksRoom, Extends, param_text};
ghost use Rattle.sfv_writer.specs.Pairs.{lent_pairs, pair_values};
ghost use Rattle.sfv_writer.specs.Versions.{ChecksVersionFirst, OnOutOfMemory, OnUnsupported, FailsAmong, FailsFrom};
ghost use Rattle.sfv_writer.specs.Versions.{LacksAmong, StopsEarly, AppendsParameters, parameter_pairs};

use crate::byte_sequence::serialize_byte_sequence;
use crate::capacity::text_for_item;
use crate::display_string::serialize_display_string;
use crate::number::{serialize_date, serialize_decimal, serialize_integer};
use crate::output::{Fragment, append, truncate_to};
use crate::serialize_error::SerializeError;
use crate::string::serialize_string;
use crate::version_check::{check_bare_item, check_item};
use sfv_base::error::OutOfMemory;
use sfv_spec::version::Version;
use sfv_tree::parsed::{Item, Parameters};
use sfv_values::bare::{BareItem, GenericBareItem, RefBareItem};
use sfv_values::key::Key;
use sfv_values::key_ref::KeyRef;
use sfv_values::token_ref::TokenRef;
use std::alloc::{Allocator, Global};
use std::string::String as StdString;

/// Appends a key.
///
/// # Errors
///
/// Returns `OutOfMemory` if memory runs out. `output` is then unchanged.
pub fn serialize_key<A: Allocator>(
    key: KeyRef<'_>,
    output: &mut StdString<A>,
) -> Result<(), OutOfMemory>
    ensures text { AppendsOrKeeps output.old output.new (text_of key.entry) result }
    ensures room { AsksForRoom output.old output.new (text_of key.entry) result }
    ensures key { IsTrue (is_key (text_of key.entry)) }
{
    output.push_str(key.as_str())?;
    Ok(())
}

/// Appends a token.
///
/// # Errors
///
/// Returns `OutOfMemory` if memory runs out. `output` is then unchanged.
#[inline(always)]
pub fn serialize_token<A: Allocator>(
    value: TokenRef<'_>,
    output: &mut StdString<A>,
) -> Result<(), OutOfMemory>
    ensures text { AppendsOrKeeps output.old output.new (text_of value.entry) result }
    ensures room { AsksForRoom output.old output.new (text_of value.entry) result }
    ensures token { IsTrue (is_token (text_of value.entry)) }
{
    output.push_str(value.as_str())?;
    Ok(())
}

#[inline(never)]
fn serialize_bool<A: Allocator>(value: bool, output: &mut StdString<A>) -> Result<(), OutOfMemory>
    ensures text { AppendsOrKeeps output.old output.new (boolean_text value) result }
    ensures room { AsksForRoom output.old output.new (boolean_text value) result }
{
    output.push_str(if value { "?1" } else { "?0" })?;
    Ok(())
}

/// Appends a bare item (RFC 9651, section 4.1.3.1).
///
/// # Errors
///
/// Returns `OutOfMemory` if memory runs out. `output` is then unchanged.
// Only a token is written inline: its bytes are copied. The other kinds are calls, so an item does not pay for
// registers and stack that only they need.
#[inline(always)]
pub fn serialize_bare_item<A: Allocator>(
    value: RefBareItem<'_>,
    output: &mut StdString<A>,
) -> Result<(), OutOfMemory>
    ensures text { AppendsOrKeeps output.old output.new (bare_text (ref_value value.entry)) result }
    ensures room { AsksForRoom output.old output.new (bare_text (ref_value value.entry)) result }
    ensures value { IsBareValue (ref_value value.entry) }
{
    match value {
        GenericBareItem::Decimal(value) => serialize_decimal(value, output),
        GenericBareItem::Integer(value) => serialize_integer(value, output),
        GenericBareItem::String(value) => serialize_string(value, output),
        GenericBareItem::ByteSequence(value) => serialize_byte_sequence(value, output),
        GenericBareItem::Boolean(value) => serialize_bool(value, output),
        GenericBareItem::Token(value) => serialize_token(value, output),
        GenericBareItem::Date(value) => serialize_date(value, output),
        GenericBareItem::DisplayString(value) => serialize_display_string(value, output),
    }
}

/// Returns `true` if the value is true. A true value is not written after a key.
fn is_true(value: RefBareItem<'_>) -> bool
    ensures { MatchBool result (ref_value value.entry ≡ boolean true)
        (value_text (ref_value value.entry) ≡ codes "=" ++ bare_text (ref_value value.entry)) }
{
    matches!(value, GenericBareItem::Boolean(true))
}

/// Appends the value of a key: an equals sign and the bare item, or nothing for true.
///
/// # Errors
///
/// Returns `OutOfMemory` if memory runs out. The old text is then still a prefix of `output`.
pub fn serialize_value<A: Allocator>(
    value: RefBareItem<'_>,
    output: &mut StdString<A>,
) -> Result<(), OutOfMemory>
    ensures text { Appends output.old output.new (value_text (ref_value value.entry)) result }
    ensures room { AsksForRoom output.old output.new (value_text (ref_value value.entry)) result }
    ensures value { OnOk result (IsBareValue (ref_value value.entry)) }
{
    if is_true(value) {
        return Ok(());
    }
    output.push('=')?;
    serialize_bare_item(value, output)
}

/// Appends a parameter.
// Not inlined, so the loop over parameters is short enough to be inlined: most items have none.
#[inline(never)]
fn serialize_parameter<A: Allocator>(
    key: &Key,
    value: &BareItem,
    output: &mut StdString<A>,
) -> Result<(), OutOfMemory>
    ensures text { Appends output.old output.new (param_text key.now (bare_value value.now)) result }
    ensures room { AsksForRoom output.old output.new (param_text key.now (bare_value value.now)) result }
    ensures key { OnOk result (IsTrue (is_key key.now)) }
    ensures value { OnOk result (IsBareValue (bare_value value.now)) }
{
    output.push(';')?;
    serialize_key(key.as_key_ref(), output)?;
    serialize_value(value.as_ref_item(), output)
}

/// Appends the parameters of an iterator, and fails at the first that `version` lacks.
#[inline(always)]
fn serialize_parameters<'k, A: Allocator, I: Iterator<Item = (&'k Key, &'k BareItem)> + Drop>(
    version: Version,
    params: I,
    output: &mut StdString<A>,
) -> Result<(), SerializeError>
    requires can { I.can_next params }
    requires ends { IsFinite (I.remaining params) }
    ensures text { OnOk result ((pairs : List _) × Drains I.next_gives params pairs
        × (string_bytes output.new ≡ string_bytes output.old ++ parameters_text (lent_pairs pairs))
        × AreParameters (lent_pairs pairs) × AllFit version (pair_values pairs)) }
    ensures failed { IfErr result (FailsAmong I.next_gives params pair_values version) }
    ensures room { IfErr result (LacksAmong I.next_gives params pair_values version output.old
        (λ taken. parameters_text (lent_pairs taken))) }
    ensures stays { string_capacity output.old ≤ string_capacity output.new }
    ensures grows { OnErr result (Extends (string_bytes output.old) (string_bytes output.new)) }
{
    for (key, value) in params {
        check_bare_item(version, value.as_ref_item())?;
        serialize_parameter(key, value, output)?;
    }
    Ok(())
}

/// Appends a parameter and the rest of an iterator, and fails at the first that `version` lacks.
#[inline(never)]
fn serialize_first_and_rest<'k, A: Allocator, I: Iterator<Item = (&'k Key, &'k BareItem)> + Drop>(
    version: Version,
    first: (&'k Key, &'k BareItem),
    rest: I,
    output: &mut StdString<A>,
) -> Result<(), SerializeError>
    requires can { I.can_next rest }
    requires ends { IsFinite (I.remaining rest) }
    ensures text { OnOk result ((pairs : List _) × Drains I.next_gives rest pairs
        × (string_bytes output.new ≡ string_bytes output.old ++ parameters_text (lent_pairs (first.entry ∷ pairs)))
        × AreParameters (lent_pairs (first.entry ∷ pairs)) × AllFit version (pair_values (first.entry ∷ pairs))) }
    ensures failed { IfErr result
        (FailsFrom I.next_gives rest (λ taken. pair_values (first.entry ∷ taken)) version) }
    ensures room { IfErr result (LacksAmong I.next_gives rest (λ taken. pair_values (first.entry ∷ taken))
        version output.old (λ taken. parameters_text (lent_pairs (first.entry ∷ taken)))) }
    ensures stays { string_capacity output.old ≤ string_capacity output.new }
    ensures grows { OnErr result (Extends (string_bytes output.old) (string_bytes output.new)) }
{
    let (key, value) = first;
    check_bare_item(version, value.as_ref_item())?;
    serialize_parameter(key, value, output)?;
    serialize_parameters(version, rest, output)
}

/// Appends a parameter and the rest of an iterator. After an error, `output` is unchanged.
#[tactic(auto, using(crate::proofs::Written::cut_to))]
#[inline(always)]
fn append_first_and_rest<'k, A: Allocator, I: Iterator<Item = (&'k Key, &'k BareItem)> + Drop>(
    version: Version,
    first: (&'k Key, &'k BareItem),
    rest: I,
    output: &mut StdString<A>,
) -> Result<(), SerializeError>
    requires can { I.can_next rest }
    requires ends { IsFinite (I.remaining rest) }
    ensures text { OnOk result ((pairs : List _) × Drains I.next_gives rest pairs
        × (string_bytes output.new ≡ string_bytes output.old ++ parameters_text (lent_pairs (first.entry ∷ pairs)))
        × AreParameters (lent_pairs (first.entry ∷ pairs)) × AllFit version (pair_values (first.entry ∷ pairs))) }
    ensures failed { IfErr result
        (FailsFrom I.next_gives rest (λ taken. pair_values (first.entry ∷ taken)) version) }
    ensures room { IfErr result (LacksAmong I.next_gives rest (λ taken. pair_values (first.entry ∷ taken))
        version output.old (λ taken. parameters_text (lent_pairs (first.entry ∷ taken)))) }
    ensures stays { string_capacity output.old ≤ string_capacity output.new }
    ensures kept { OnErr result (string_bytes output.new ≡ string_bytes output.old) }
{
    let len = output.len();
    if let Err(error) = serialize_first_and_rest(version, first, rest, output) {
        truncate_to(len, output);
        return Err(error);
    }
    Ok(())
}

/// Appends the parameters of an iterator (RFC 9651, section 4.1.1.2).
///
/// # Errors
///
/// Returns `SerializeError::Unsupported` with the kind of the first value that `version` lacks, or `OutOfMemory` if
/// memory runs out. After an error, `output` is unchanged.
// Most items have no parameters, and then this takes no call.
#[inline(always)]
pub fn append_parameters<'k, A: Allocator, I: Iterator<Item = (&'k Key, &'k BareItem)> + Drop>(
    version: Version,
    mut params: I,
    output: &mut StdString<A>,
) -> Result<(), SerializeError>
    requires can { I.can_next params }
    requires ends { IsFinite (I.remaining params) }
    ensures text { OnOk result (AppendsParameters version I.next_gives params output.old output.new) }
    ensures failed { IfErr result (StopsEarly parameter_pairs version I.next_gives params [] output.old true) }
    ensures stays { string_capacity output.old ≤ string_capacity output.new }
    ensures kept { OnErr result (string_bytes output.new ≡ string_bytes output.old) }
{
    let Some(first) = params.next() else {
        return Ok(());
    };
    append_first_and_rest(version, first, params, output)
}

/// Appends the parameters of an item or an inner list.
#[inline(always)]
pub(crate) fn serialize_all_parameters<A: Allocator>(
    params: &Parameters,
    output: &mut StdString<A>,
) -> Result<(), OutOfMemory>
    ensures text { Appends output.old output.new (parameters_text (pairs_tree params.now.entries)) result }
    ensures room { AsksForRoom output.old output.new (parameters_text (pairs_tree params.now.entries)) result }
    ensures value { OnOk result (AreParameters (pairs_tree params.now.entries)) }
    ensures distinct { OnOk result (IsTrue (no_repeats (keys (pairs_tree params.now.entries)))) }
{
    // Most items have no parameters, and then this takes no call.
    if params.is_empty() {
        return Ok(());
    }
    for (key, value) in params.iter() {
        serialize_parameter(key, value, output)?;
    }
    Ok(())
}

/// Appends an item (RFC 9651, section 4.1.3).
///
/// # Errors
///
/// Returns `OutOfMemory` if memory runs out. The old text is then still a prefix of `output`.
#[inline(always)]
pub fn serialize_item<A: Allocator>(
    item: &Item,
    output: &mut StdString<A>,
) -> Result<(), OutOfMemory>
    ensures text { Appends output.old output.new (item_text (item_tree item.now)) result }
    ensures room { AsksForRoom output.old output.new (item_text (item_tree item.now)) result }
    ensures value { OnOk result (IsValue item_field (item_tree item.now)) }
{
    serialize_bare_item(item.bare_item.as_ref_item(), output)?;
    serialize_all_parameters(&item.params, output)
}

impl<'a> Fragment for &'a Item {
    ghost text = { λ i. item_text (item_tree i.now) };

    ghost is_valid = { λ i. IsValue item_field (item_tree i.now) };

    #[inline(always)]
    fn serialize<A: Allocator>(self, output: &mut StdString<A>) -> Result<(), OutOfMemory> {
        serialize_item(self, output)
    }
}

/// Returns the text of an item, allocated from `alloc` (RFC 9651, section 4.1). The text has at least one byte, so any
/// item needs memory.
///
/// # Errors
///
/// Returns `OutOfMemory` if memory runs out.
pub fn item_text(item: &Item, alloc: Global) -> Result<StdString, OutOfMemory>
    ensures text { IfOk result (λ text.
        IsSerializedAs Rfc9651 item_field (item_tree item.now) (Some (string_bytes text))) }
{
    let mut text = text_for_item(item.params.len(), alloc);
    serialize_item(item, &mut text)?;
    Ok(text)
}

/// Appends an item (RFC 9651, section 4.1.3), if `version` has every value. After an error, `text` is
/// unchanged.
///
/// # Errors
///
/// Returns `SerializeError::Unsupported` with the kind of the first value that `version` lacks. Returns `OutOfMemory`
/// if memory runs out, which happens only if `text` lacks the capacity for the whole item.
#[tactic(auto, using(crate::proofs::Checks::look_fails, crate::proofs::Checks::memory_fails))]
pub fn append_item<A: Allocator>(
    version: Version,
    item: &Item,
    text: &mut StdString<A>,
) -> Result<(), SerializeError>
    ensures text { AppendsOrKeeps text.old text.new (item_text (item_tree item.now)) result }
    ensures room { OnOutOfMemory result (LacksRoom text.old (item_text (item_tree item.now))) }
    ensures stays { string_capacity text.old ≤ string_capacity text.new }
    ensures unsupported { ChecksVersionFirst version (item_values (item_tree item.now)) result }
    ensures untouched { OnUnsupported result (text.new ≡ text.old) }
    ensures value { OnOk result (IsValue item_field (item_tree item.now)) }
{
    check_item(version, item)?;
    append(item, text)?;
    Ok(())
}
