//! The printed report.

ghost use Rattle.std.specs.Prelude.{◌≡◌, ◌++◌, [], OnOk, Err, Ok, map, flat_map, length, filter, option_copied, string_bytes};
ghost use Rattle.sfv_lint_report.specs.Reports.{has_error};
ghost use Rattle.sfv_lint_report.specs.Prints.{canonical_text, outcome_text, field_text};
ghost use Rattle.sfv_lint_report.specs.Prints.{count_text, summary_text, other_text, others_text};

use crate::check::Accepted;
use crate::report::{Field, Report};
use sfv::Error;
use sfv_lint_head::excerpt::append_marked;
use sfv_lint_head::paint::{Colors, Tone, append_painted};
use sfv_lint_head::shown::append_shown;
use std::alloc::AllocError;

/// Appends the canonical text after two spaces, if there is one.
fn append_canonical(out: &mut String, text: Option<&String>) -> Result<(), AllocError>
    ensures { OnOk result (string_bytes out.new ≡ string_bytes out.old ++ canonical_text (option_copied text.entry)) }
{
    if let Some(text) = text {
        out.push_str("  ")?;
        out.push_str(text.as_str())?;
    }
    Ok(())
}

/// Appends an error, and its line with a caret under its index.
fn append_error(
    out: &mut String,
    colors: Colors,
    lines: &[Vec<u8>],
    error: Error,
) -> Result<(), AllocError>
    ensures { OnOk result (string_bytes out.new ≡ string_bytes out.old
        ++ outcome_text colors (map (λ line. line.items) lines.now) (Err error)) }
{
    append_painted(out, colors, Tone::Bad, "error:")?;
    out.push(' ')?;
    out.push_str(error.message())?;
    out.push('\n')?;
    match error.index() {
        Some(index) => append_marked(out, lines, index),
        None => Ok(()),
    }
}

/// Appends `ok` and the canonical text.
fn append_accepted(out: &mut String, colors: Colors, accepted: &Accepted) -> Result<(), AllocError>
    ensures { OnOk result (string_bytes out.new ≡ string_bytes out.old ++ outcome_text colors [] (Ok accepted.now)) }
{
    append_painted(out, colors, Tone::Good, "ok")?;
    append_canonical(out, accepted.text.as_ref())?;
    out.push('\n')
}

/// Appends the report on one field: its name, and `ok` with the canonical text, or the error with its line and a caret
/// under its index. A line of more than 72 bytes is printed up to 34 bytes before and after the index.
///
/// # Errors
///
/// Returns `AllocError` if memory runs out. A part may then be appended.
pub fn append_field(out: &mut String, colors: Colors, field: &Field) -> Result<(), AllocError>
    ensures { OnOk result (string_bytes out.new ≡ string_bytes out.old ++ field_text colors field.now) }
{
    append_shown(out, field.name.as_slice())?;
    out.push_str(": ")?;
    match &field.outcome {
        Ok(accepted) => append_accepted(out, colors, accepted),
        Err(error) => append_error(out, colors, field.lines.as_slice(), *error),
    }
}

/// Appends a count, its noun, and what follows.
fn append_count(
    out: &mut String,
    number: usize,
    one: &str,
    more: &str,
    end: &str,
) -> Result<(), AllocError>
    ensures { OnOk result (string_bytes out.new ≡ string_bytes out.old
        ++ count_text number one.now more.now end.now) }
{
    let noun = if number == 1 { one } else { more };
    write!(out, "{number} {noun}{end}")
}

/// Returns the number of fields with an error.
fn errors(fields: &[Field]) -> usize
    ensures { result ≡ length (filter has_error fields.now) }
{
    let mut errors = 0;
    for field in fields {
        if field.outcome.is_err() {
            errors += 1;
        }
    }
    errors
}

impl Report {
    /// Returns the number of fields with an error.
    pub fn errors(&self) -> usize
        ensures { result ≡ length (filter has_error self.now.fields.items) }
    {
        errors(self.fields.as_slice())
    }
}

/// Appends the last line of a report on a head: how many structured fields, errors and other field lines there are.
///
/// # Errors
///
/// Returns `AllocError` if memory runs out. A part may then be appended.
pub fn append_summary(out: &mut String, report: &Report) -> Result<(), AllocError>
    ensures { OnOk result (string_bytes out.new ≡ string_bytes out.old ++ summary_text report.now) }
{
    append_count(
        out,
        report.fields.len(),
        "structured field",
        "structured fields",
        ", ",
    )?;
    append_count(out, report.errors(), "error", "errors", ", ")?;
    append_count(out, report.others.len(), "other", "others", "\n")
}

/// Appends the line of another field line.
fn append_other(out: &mut String, name: &[u8]) -> Result<(), AllocError>
    ensures { OnOk result (string_bytes out.new ≡ string_bytes out.old ++ other_text name.now) }
{
    append_shown(out, name)?;
    out.push_str(": not checked\n")
}

/// Appends the names of the other field lines.
///
/// # Errors
///
/// Returns `AllocError` if memory runs out. A part may then be appended.
pub fn append_others(out: &mut String, names: &[Vec<u8>]) -> Result<(), AllocError>
    ensures { OnOk result (string_bytes out.new ≡ string_bytes out.old ++ others_text names.now) }
{
    for name in names {
        append_other(out, name.as_slice())?;
    }
    Ok(())
}
