//! A report as one JSON document.

ghost use Rattle.std.specs.Prelude.{◌≡◌, IfOk, map};
ghost use Rattle.std.specs.List.{AllZip};
ghost use Rattle.serde_json.specs.Data as json;
ghost use Rattle.serde_json.specs.View.{view};
ghost use Rattle.sfv_lint_notes.specs.Notes.{note_text};
ghost use Rattle.sfv_lint_output.specs.Documents.{kind_word, value_json, bytes_json, index_json, error_json, notes_json};
ghost use Rattle.sfv_lint_output.specs.Documents.{accepted_json, rejected_json, names_json, IsFieldJson, IsDocument};

use serde_json::{Value, json};
use sfv::{Error, FieldKind};
use sfv_lint_args::explain::kind_name;
use sfv_lint_json::json::{dictionary, item, list};
use sfv_lint_notes::notes::{Note, append_note, notes};
use sfv_lint_report::check::{Accepted, FieldValue};
use sfv_lint_report::report::Field;
use std::alloc::{AllocError, Global};

/// Returns the word for a field type.
fn kind_word(kind: FieldKind) -> &'static str
    ensures { result.now ≡ kind_word kind }
{
    match kind {
        FieldKind::Item => "item",
        FieldKind::List => "list",
        FieldKind::Dictionary => "dict",
    }
}

/// Returns bytes as a JSON string. Bytes that are not UTF-8 are replaced.
fn text(alloc: Global, bytes: &[u8]) -> Result<Value, AllocError>
    ensures { IfOk result (λ value. view value ≡ bytes_json bytes.now) }
{
    Ok(Value::String(String::from_utf8_lossy(alloc, bytes)?))
}

/// Returns a value in the form of the HTTP working group's tests.
fn value(alloc: Global, value: &FieldValue) -> Result<Value, AllocError>
    ensures { IfOk result (λ json. view json ≡ value_json value.now) }
{
    match value {
        FieldValue::Item(value) => item(alloc, value),
        FieldValue::List(value) => list(alloc, value),
        FieldValue::Dictionary(value) => dictionary(alloc, value),
    }
}

/// Returns an index, or null.
fn index(index: Option<usize>) -> Value
    ensures { view result ≡ index_json index }
{
    match index {
        Some(index) => Value::from(index),
        None => Value::Null,
    }
}

/// Returns the kind, the index and the message of an error.
fn error(alloc: Global, error: &Error) -> Result<Value, AllocError>
    ensures { IfOk result (λ value. view value ≡ error_json error.now) }
{
    let index = index(error.index());
    json!(in alloc; {"kind": kind_name(error.kind()), "index": &index, "message": error.message()})
}

/// Returns the text of a note.
fn note_value(alloc: Global, note: &Note) -> Result<Value, AllocError>
    ensures { IfOk result (λ value. view value ≡ json.string (note_text note.now)) }
{
    let mut text = String::new(alloc);
    append_note(&mut text, note)?;
    Ok(Value::String(text))
}

/// Returns notes, as an array of texts.
fn note_values(alloc: Global, notes: &[Note]) -> Result<Value, AllocError>
    ensures { IfOk result (λ value. view value ≡ notes_json notes.now) }
{
    let mut texts = Vec::new(alloc);
    for note in notes {
        texts.push(note_value(alloc, note)?)?;
    }
    Ok(Value::Array(texts))
}

/// Returns an accepted field with its notes.
fn accepted(
    alloc: Global,
    field: &Field,
    accepted: &Accepted,
    notes: &[Note],
) -> Result<Value, AllocError>
    ensures { IfOk result (λ value. view value ≡ accepted_json field.now accepted.now notes.now) }
{
    let name = text(alloc, field.name.as_slice())?;
    let value = value(alloc, &accepted.value)?;
    let canonical = match &accepted.text {
        Some(text) => text.as_str(),
        None => "",
    };
    let notes = note_values(alloc, notes)?;
    json!(in alloc; {
        "name": &name,
        "type": kind_word(field.kind),
        "canonical": canonical,
        "value": &value,
        "notes": &notes
    })
}

/// Returns a rejected field.
fn rejected(alloc: Global, field: &Field, fault: &Error) -> Result<Value, AllocError>
    ensures { IfOk result (λ value. view value ≡ rejected_json field.now fault.now) }
{
    let name = text(alloc, field.name.as_slice())?;
    let error = error(alloc, fault)?;
    json!(in alloc; {"name": &name, "type": kind_word(field.kind), "error": &error})
}

/// Returns a field: its value and its canonical text, or its error.
#[tactic(auto, using(crate::proofs::Documents::accepted_field, crate::proofs::Documents::rejected_field))]
fn field(alloc: Global, field: &Field) -> Result<Value, AllocError>
    ensures { IfOk result (λ value. IsFieldJson field.now (view value)) }
{
    match &field.outcome {
        Ok(value) => {
            let notes = notes(alloc, field)?;
            accepted(alloc, field, value, notes.as_slice())
        }
        Err(fault) => rejected(alloc, field, fault),
    }
}

/// Returns the fields.
#[tactic(auto, using(crate::proofs::Documents::one_more_field, crate::proofs::Documents::all_fields))]
fn fields(alloc: Global, fields: &[Field]) -> Result<Vec<Value>, AllocError>
    ensures { IfOk result (λ values. AllZip IsFieldJson fields.now (map view values.items)) }
{
    let mut values = Vec::new(alloc);
    for this in fields {
        values.push(field(alloc, this)?)?;
    }
    Ok(values)
}

/// Returns the names of field lines.
fn names(alloc: Global, others: &[Vec<u8>]) -> Result<Value, AllocError>
    ensures { IfOk result (λ value. view value ≡ names_json others.now) }
{
    let mut names = Vec::new(alloc);
    for name in others {
        names.push(text(alloc, name.as_slice())?)?;
    }
    Ok(Value::Array(names))
}

/// Returns the document of these fields, and the names of other field lines.
///
/// # Errors
///
/// Returns `AllocError` if memory runs out.
#[tactic(auto, using(crate::proofs::Documents::document))]
pub fn document(alloc: Global, list: &[Field], others: &[Vec<u8>]) -> Result<Value, AllocError>
    ensures { IfOk result (λ document. IsDocument list.now others.now (view document)) }
{
    let values = Value::Array(fields(alloc, list)?);
    let names = names(alloc, others)?;
    json!(in alloc; {"fields": &values, "others": &names})
}
