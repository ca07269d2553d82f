//! A report as lines for reading.

ghost use Rattle.std.specs.Prelude.{◌≡◌, ◌++◌, OnOk, IfOk, string_bytes, flat_map};
ghost use Rattle.sfv_lint_output.specs.Lines.{note_line, value_lines, tree_lines, named_others, AppendsNotes};
ghost use Rattle.sfv_lint_output.specs.Lines.{AppendsBlock, AppendsBlocks, IsPrinted};

use sfv::OutOfMemory;
use sfv_lint_head::paint::{Colors, Tone, append_painted};
use sfv_lint_json::tree::{append_dictionary, append_item, append_list};
use sfv_lint_notes::notes::{Note, append_note, notes};
use sfv_lint_report::check::FieldValue;
use sfv_lint_report::print::{append_field, append_others, append_summary};
use sfv_lint_report::report::{Field, Report};
use std::alloc::{AllocError, Global};

/// Appends the line of a note.
fn append_note_line(out: &mut String, colors: Colors, note: &Note) -> Result<(), AllocError>
    ensures { OnOk result (string_bytes out.new ≡ string_bytes out.old ++ note_line colors note.now) }
{
    out.push_str("    ")?;
    append_painted(out, colors, Tone::Note, "note:")?;
    out.push(' ')?;
    append_note(out, note)?;
    out.push('\n')
}

/// Appends a line for each of the notes.
fn append_note_lines(out: &mut String, colors: Colors, notes: &[Note]) -> Result<(), AllocError>
    ensures { OnOk result (string_bytes out.new ≡ string_bytes out.old ++ flat_map (note_line colors) notes.now) }
{
    for note in notes {
        append_note_line(out, colors, note)?;
    }
    Ok(())
}

/// Appends a line for each note on a field.
#[tactic(auto, using(crate::proofs::Blocks::notes_appended))]
fn append_notes(
    alloc: Global,
    out: &mut String,
    colors: Colors,
    field: &Field,
) -> Result<(), AllocError>
    ensures { OnOk result (AppendsNotes colors field.now (string_bytes out.old) (string_bytes out.new)) }
{
    let notes = notes(alloc, field)?;
    append_note_lines(out, colors, notes.as_slice())?;
    Ok(())
}

/// Returns a value as a tree.
fn tree_of(alloc: Global, value: &FieldValue) -> Result<String, OutOfMemory>
    ensures { IfOk result (λ text. string_bytes text ≡ value_lines value.now) }
{
    let mut text = String::new(alloc);
    match value {
        FieldValue::Item(value) => append_item(&mut text, value)?,
        FieldValue::List(value) => append_list(&mut text, value)?,
        FieldValue::Dictionary(value) => append_dictionary(&mut text, value)?,
    }
    Ok(text)
}

/// Appends the tree of a field if `tree` is true and the field has no error.
fn append_tree(
    alloc: Global,
    out: &mut String,
    field: &Field,
    tree: bool,
) -> Result<(), OutOfMemory>
    ensures { OnOk result (string_bytes out.new ≡ string_bytes out.old ++ tree_lines tree field.now) }
{
    if !tree {
        return Ok(());
    }
    let Ok(accepted) = &field.outcome else {
        return Ok(());
    };
    let text = tree_of(alloc, &accepted.value)?;
    out.push_str(text.as_str())?;
    Ok(())
}

/// Appends the report on one field, its value as a tree if `tree`, and the notes.
///
/// # Errors
///
/// Returns `OutOfMemory` if memory runs out. A part may then be appended.
#[tactic(auto, using(crate::proofs::Blocks::block))]
pub fn append_field_lines(
    alloc: Global,
    out: &mut String,
    colors: Colors,
    field: &Field,
    tree: bool,
) -> Result<(), OutOfMemory>
    ensures { OnOk result (AppendsBlock colors tree field.now (string_bytes out.old) (string_bytes out.new)) }
{
    append_field(out, colors, field)?;
    append_tree(alloc, out, field, tree)?;
    append_notes(alloc, out, colors, field)?;
    Ok(())
}

/// Appends the reports on fields, one after another.
#[tactic(auto, using(crate::proofs::Blocks::no_blocks, crate::proofs::Blocks::one_more_block, crate::proofs::Blocks::all_blocks))]
fn append_blocks(
    alloc: Global,
    out: &mut String,
    colors: Colors,
    fields: &[Field],
    tree: bool,
) -> Result<(), OutOfMemory>
    ensures { OnOk result (AppendsBlocks colors tree fields.now (string_bytes out.old) (string_bytes out.new)) }
{
    for field in fields {
        append_field_lines(alloc, out, colors, field, tree)?;
    }
    Ok(())
}

/// Appends the names of the other field lines if `all` is true.
fn append_named(out: &mut String, report: &Report, all: bool) -> Result<(), AllocError>
    ensures { OnOk result (string_bytes out.new ≡ string_bytes out.old ++ named_others all report.now) }
{
    if all {
        append_others(out, report.others.as_slice())
    } else {
        Ok(())
    }
}

/// Returns the report on a head as lines.
///
/// # Errors
///
/// Returns `OutOfMemory` if memory runs out.
#[tactic(auto, using(crate::proofs::Blocks::printed))]
pub fn report_lines(
    alloc: Global,
    colors: Colors,
    report: &Report,
    tree: bool,
    all: bool,
) -> Result<String, OutOfMemory>
    ensures { IfOk result (λ text. IsPrinted colors tree all report.now (string_bytes text)) }
{
    let mut text = String::new(alloc);
    append_blocks(alloc, &mut text, colors, report.fields.as_slice(), tree)?;
    append_named(&mut text, report, all)?;
    append_summary(&mut text, report)?;
    Ok(text)
}
