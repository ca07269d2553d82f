//! The Priority field (RFC 9218): the urgency of a response, and whether it is processed incrementally.
//!
//! The field is a dictionary. The urgency is the member `u` if it is an Integer from 0 to 7, and otherwise 3. The flag
//! is the member `i` if it is a Boolean, and otherwise false. Parameters and other members are ignored.
//!
//! `write_priority` reserves room for the whole text and then makes single calls. By the clause `room`, a call runs out
//! of memory only if the text has no room for what it adds. By `text`, the capacity does not shrink. So no call fails
//! after `reserve`, and the tactic proves it. By the lemma `read_back_either`, both versions parse the text back.

ghost use Rattle.std.specs.Prelude.{◌≡◌, ◌≢◌, ◌≤◌, ◌↔◌, ◌++◌, [], false, length, codes, IfOk, OnOk, OnErr, IsTrue};
ghost use Rattle.std.specs.Prelude.{option_copied, option_map};
ghost use Rattle.sfv.specs.Types.{Version, Rfc9651};
ghost use Rattle.sfv.specs.BareItems.{ref_value};
ghost use Rattle.sfv.specs.CheckedTexts.{text_of};
ghost use Rattle.sfv.specs.Trees.{member_tree, dictionary_tree};
ghost use Rattle.sfv.specs.Serializers.{HasAppended, HasAppendedNext, is_empty_so_far, sequence_version, sequence_sink};
ghost use Rattle.sfv.specs.Written.{AppendsOrKeeps, AsksForRoom, LacksRoom, keyed_text, separator_before};
ghost use Rattle.sfv.specs.Written.{with_separators, is_first_after};
ghost use Rattle.sfv_http_fields.specs.Priority.{priority, urgency_in, urgency_of, incremental_in, incremental_of};
ghost use Rattle.sfv_http_fields.specs.Priority.{priority_text, value_of, IsPriorityOf, IsReadBack};
ghost use Rattle.sfv_http_fields.specs.PrioritySteps.{urgency_texts, incremental_texts};

mod value;
mod visiting;

use sfv::{
    DictSerializer, Dictionary, GenericBareItem, KeyRef, ListEntry, OutOfMemory, RefBareItem, Sink,
    find_entry, key_ref,
};
pub use value::Priority;
pub use visiting::{Member, read_priority};

// Returns the urgency of a bare item: an integer from 0 to 7, or 3 for any other value.
pub(crate) fn urgency_of_item(value: RefBareItem<'_>) -> u8
    ensures value { result ≡ urgency_in (ref_value value.entry) }
    ensures range { result ≤ 7 }
{
    let Some(integer) = value.as_integer() else {
        return 3;
    };
    match u8::try_from(integer.to_i64()) {
        Ok(urgency) if urgency <= 7 => urgency,
        _ => 3,
    }
}

// Returns the Boolean of a bare item, or `false` for another kind.
pub(crate) fn incremental_of_item(value: RefBareItem<'_>) -> bool
    ensures { result ≡ incremental_in (ref_value value.entry) }
{
    value.as_boolean().unwrap_or(false)
}

// Returns the urgency of the member `u`, if there is one.
fn urgency_of_member(member: Option<&ListEntry>) -> u8
    ensures value { result ≡ urgency_of (option_map member_tree (option_copied member.entry)) }
    ensures range { result ≤ 7 }
{
    match member {
        Some(ListEntry::Item(item)) => urgency_of_item(item.bare_item.as_ref_item()),
        _ => 3,
    }
}

// Returns the Boolean of the member `i`, if there is one.
fn incremental_of_member(member: Option<&ListEntry>) -> bool
    ensures { result ≡ incremental_of (option_map member_tree (option_copied member.entry)) }
{
    match member {
        Some(ListEntry::Item(item)) => incremental_of_item(item.bare_item.as_ref_item()),
        _ => false,
    }
}

/// Returns the priority of a dictionary.
pub fn priority_from_dictionary(dictionary: &Dictionary) -> Priority
    ensures { value_of result ≡ priority (dictionary_tree dictionary.now.entries) }
{
    let urgency = urgency_of_member(find_entry(dictionary, key_ref("u")));
    let incremental = incremental_of_member(find_entry(dictionary, key_ref("i")));
    Priority::new(urgency, incremental)
}

// Writes a member without parameters.
fn write_member<W: Sink>(
    members: &mut DictSerializer<W>,
    name: KeyRef<'static>,
    value: RefBareItem<'static>,
) -> Result<(), OutOfMemory>
    requires { sequence_version members.old ≡ Rfc9651 }
    ensures text { OnOk result (HasAppendedNext W.Sink (codes ", ") members.old members.new
        (keyed_text (text_of name.entry) (ref_value value.entry)) false) }
    ensures room { OnErr result (LacksRoom (W.text (sequence_sink members.old))
        (separator_before (is_empty_so_far members.old) (codes ", ") ++ keyed_text (text_of name.entry) (ref_value value.entry))) }
{
    match members.bare_item(name, value) {
        Ok(params) => {
            params.finish();
            Ok(())
        }
        Err(_) => Err(OutOfMemory),
    }
}

// Writes the urgency, unless it is the default.
#[tactic(auto, using(std::proofs::lemmas::Fmt::decimal_digit))]
fn write_urgency<W: Sink>(members: &mut DictSerializer<W>, urgency: u8) -> Result<(), OutOfMemory>
    requires version { sequence_version members.old ≡ Rfc9651 }
    requires range { urgency ≤ 7 }
    ensures text { OnOk result (HasAppended W.Sink members.old members.new
        (with_separators (is_empty_so_far members.old) (codes ", ") (urgency_texts urgency))
        (is_first_after (is_empty_so_far members.old) (urgency_texts urgency))) }
    ensures room { OnErr result (LacksRoom (W.text (sequence_sink members.old))
        (with_separators (is_empty_so_far members.old) (codes ", ") (urgency_texts urgency))) }
{
    if urgency == 3 {
        return Ok(());
    }
    write_member(members, key_ref("u"), GenericBareItem::from(urgency))
}

// Writes the member `i`, unless it is the default.
fn write_incremental<W: Sink>(
    members: &mut DictSerializer<W>,
    incremental: bool,
) -> Result<(), OutOfMemory>
    requires { sequence_version members.old ≡ Rfc9651 }
    ensures text { OnOk result (HasAppended W.Sink members.old members.new
        (with_separators (is_empty_so_far members.old) (codes ", ") (incremental_texts incremental))
        (is_first_after (is_empty_so_far members.old) (incremental_texts incremental))) }
    ensures room { OnErr result (LacksRoom (W.text (sequence_sink members.old))
        (with_separators (is_empty_so_far members.old) (codes ", ") (incremental_texts incremental))) }
{
    if !incremental {
        return Ok(());
    }
    write_member(members, key_ref("i"), GenericBareItem::from(true))
}

// Returns the length of a priority's text.
fn text_len(priority: Priority) -> usize
    ensures { result ≡ length (priority_text (value_of priority)) }
{
    if priority.urgency == 3 {
        return usize::from(priority.incremental);
    }
    if priority.incremental { 6 } else { 3 }
}

/// Appends the field to `text`, and returns `true` if anything was written. Members with their default values are
/// omitted. The text parses to the same priority under both versions.
///
/// # Errors
///
/// Returns `OutOfMemory` if memory runs out. This happens only if `text` has no room for the field. `text` is then
/// unchanged.
pub fn write_priority(text: &mut String, priority: Priority) -> Result<bool, OutOfMemory>
    ensures text { AppendsOrKeeps text.old text.new (priority_text (value_of priority)) result }
    ensures room { AsksForRoom text.old text.new (priority_text (value_of priority)) result }
    ensures stands { IfOk result (λ stands. IsTrue stands ↔ (priority_text (value_of priority) ≢ [])) }
    ensures read_back { OnOk result (IsReadBack (value_of priority)) }
{
    // With room for the whole text no call fails, so nothing has to be removed.
    text.reserve(text_len(priority))?;
    let mut members = DictSerializer::with_buffer(text);
    write_urgency(&mut members, priority.urgency)?;
    write_incremental(&mut members, priority.incremental)?;
    Ok(members.has_member())
}
