//! Notes on accepted fields: what is allowed by RFC 9651 and is still worth a look.

ghost use Rattle.std.specs.Prelude.{◌≡◌, ◌++◌, [], true, OnOk, IfOk, string_bytes};
ghost use Rattle.sfv_lint_report.specs.Reports.{has_error};
ghost use Rattle.sfv_lint_notes.specs.Notes.{note_text};

use crate::keys::has_repeated_key;
use crate::rules::{Part, Rule, append_rule, rules};
use sfv::{Dictionary, GenericBareItem, Item, ListEntry, Parameters};
use sfv_lint_head::lines::join;
use sfv_lint_report::check::{Accepted, FieldValue};
use sfv_lint_report::report::Field;
use std::alloc::{AllocError, Global};

/// A note on an accepted field.
#[derive(Clone, Copy)]
pub enum Note {
    /// A key occurs twice, and its last value counts.
    RepeatedKey,
    /// The canonical text is another one, other than in spaces and tabs.
    Changes,
    /// A part has not the type that the definition of the field requires.
    WrongType(Rule),
    /// The urgency of a priority is not an integer from 0 to 7.
    Urgency,
    /// A SHA-256 digest has not 32 bytes.
    Sha256Length,
    /// A SHA-512 digest has not 64 bytes.
    Sha512Length,
}

/// Appends what the note says.
///
/// # Errors
///
/// Returns `AllocError` if memory runs out. A part may then be appended.
pub fn append_note(out: &mut String, note: &Note) -> Result<(), AllocError>
    ensures { OnOk result (string_bytes out.new ≡ string_bytes out.old ++ note_text note.now) }
{
    match note {
        Note::RepeatedKey => out.push_str("a key occurs twice, and its last value counts"),
        Note::Changes => out.push_str("the value changes when it is written"),
        Note::WrongType(rule) => append_rule(out, rule),
        Note::Urgency => out.push_str(
            "u is not an integer from 0 to 7, so it is ignored (RFC 9218, section 4)",
        ),
        Note::Sha256Length => out.push_str("a digest of sha-256 has 32 bytes (RFC 9530)"),
        Note::Sha512Length => out.push_str("a digest of sha-512 has 64 bytes (RFC 9530)"),
    }
}

/// Returns `true` if a parameter with this key has none of the types.
fn has_wrong_parameter(params: &Parameters, rule: &Rule, key: &str) -> bool {
    for (name, value) in params {
        if name.as_str() == key && !rule.types.has(value) {
            return true;
        }
    }
    false
}

/// Returns `true` if an item has none of the types.
fn has_wrong_item(items: &[Item], rule: &Rule) -> bool {
    for item in items {
        if !rule.types.has(&item.bare_item) {
            return true;
        }
    }
    false
}

/// Returns `true` if a member breaks the rule.
fn breaks(rule: &Rule, member: &ListEntry) -> bool {
    match member {
        ListEntry::Item(item) => match rule.part {
            Part::Members => !rule.types.has(&item.bare_item),
            Part::InnerItems => true,
            Part::Parameter(key) => has_wrong_parameter(&item.params, rule, key),
            Part::Member(_) => false,
        },
        ListEntry::InnerList(list) => match rule.part {
            Part::Members => true,
            Part::InnerItems => has_wrong_item(list.items.as_slice(), rule),
            Part::Parameter(key) => has_wrong_parameter(&list.params, rule, key),
            Part::Member(_) => false,
        },
    }
}

/// Returns `true` if the member with the key of the rule is not an item of its types.
fn breaks_at(rule: &Rule, key: &str, member: &ListEntry) -> bool {
    match rule.part {
        Part::Member(wanted) => match member {
            ListEntry::Item(item) => wanted == key && !rule.types.has(&item.bare_item),
            ListEntry::InnerList(_) => wanted == key,
        },
        _ => breaks(rule, member),
    }
}

/// Returns `true` if the field breaks the rule.
fn is_broken(rule: &Rule, value: &FieldValue) -> bool {
    match value {
        FieldValue::Item(_) => false,
        FieldValue::List(list) => {
            for member in list {
                if breaks(rule, member) {
                    return true;
                }
            }
            false
        }
        FieldValue::Dictionary(dictionary) => {
            for (key, member) in dictionary {
                if breaks_at(rule, key.as_str(), member) {
                    return true;
                }
            }
            false
        }
    }
}

/// Returns the length of a digest of the algorithm, if it is known, and the note on another length (RFC 9530).
fn digest_length(algorithm: &str) -> Option<(usize, Note)> {
    match algorithm {
        "sha-256" => Some((32, Note::Sha256Length)),
        "sha-512" => Some((64, Note::Sha512Length)),
        _ => None,
    }
}

/// Returns the note on a digest of another length than its algorithm has.
fn digest_note(algorithm: &str, member: &ListEntry) -> Option<Note> {
    let (length, note) = digest_length(algorithm)?;
    let ListEntry::Item(item) = member else {
        return None;
    };
    let GenericBareItem::ByteSequence(bytes) = &item.bare_item else {
        return None;
    };
    if bytes.len() == length {
        return None;
    }
    Some(note)
}

/// Returns the note on an urgency that is not an integer from 0 to 7.
fn urgency_note(key: &str, member: &ListEntry) -> Option<Note> {
    if key != "u" {
        return None;
    }
    if let ListEntry::Item(item) = member {
        if let GenericBareItem::Integer(urgency) = &item.bare_item {
            if matches!(urgency.to_i64(), 0..=7) {
                return None;
            }
        }
    }
    Some(Note::Urgency)
}

/// Appends the notes on the members of a dictionary with this name.
fn add_member_notes(
    notes: &mut Vec<Note>,
    name: &[u8],
    dictionary: &Dictionary,
) -> Result<(), AllocError> {
    let is_priority = name.eq_ignore_ascii_case(b"priority");
    let is_digest = name.eq_ignore_ascii_case(b"content-digest")
        || name.eq_ignore_ascii_case(b"repr-digest");
    for (key, member) in dictionary {
        if is_priority {
            if let Some(note) = urgency_note(key.as_str(), member) {
                notes.push(note)?;
            }
        }
        if is_digest {
            if let Some(note) = digest_note(key.as_str(), member) {
                notes.push(note)?;
            }
        }
    }
    Ok(())
}

/// Returns the text without spaces and tabs.
fn visible(alloc: Global, text: &[u8]) -> Result<Vec<u8>, AllocError> {
    let mut bytes = Vec::new(alloc);
    for &byte in text {
        if byte != b' ' && byte != b'\t' {
            bytes.push(byte)?;
        }
    }
    Ok(bytes)
}

/// Returns `true` if the canonical text is another one, other than in spaces and tabs.
fn changes(alloc: Global, text: &[u8], canonical: Option<&String>) -> Result<bool, AllocError> {
    let text = visible(alloc, text)?;
    let canonical = match canonical {
        Some(canonical) => visible(alloc, canonical.as_bytes())?,
        None => Vec::new(alloc),
    };
    Ok(text.as_slice() != canonical.as_slice())
}

/// Returns the notes on an accepted value.
fn notes_on(
    alloc: Global,
    name: &[u8],
    lines: &[Vec<u8>],
    accepted: &Accepted,
) -> Result<Vec<Note>, AllocError> {
    let mut notes = Vec::new(alloc);
    let text = join(alloc, lines)?;
    if has_repeated_key(alloc, &accepted.value, text.as_slice()) {
        notes.push(Note::RepeatedKey)?;
    }
    if changes(alloc, text.as_slice(), accepted.text.as_ref())? {
        notes.push(Note::Changes)?;
    }
    for rule in &rules() {
        if name.eq_ignore_ascii_case(rule.field.as_bytes()) && is_broken(rule, &accepted.value) {
            notes.push(Note::WrongType(*rule))?;
        }
    }
    if let FieldValue::Dictionary(dictionary) = &accepted.value {
        add_member_notes(&mut notes, name, dictionary)?;
    }
    Ok(notes)
}

/// Returns the notes on a field. A field with an error has none.
///
/// # Errors
///
/// Returns `AllocError` if memory runs out.
pub fn notes(alloc: Global, field: &Field) -> Result<Vec<Note>, AllocError>
    ensures { IfOk result (λ notes. has_error field.now ≡ true → notes.items ≡ []) }
{
    match &field.outcome {
        Ok(accepted) => notes_on(
            alloc,
            field.name.as_slice(),
            field.lines.as_slice(),
            accepted,
        ),
        Err(_) => Ok(Vec::new(alloc)),
    }
}
