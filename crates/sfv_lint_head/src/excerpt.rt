//! The part of a line around an index, and a caret under the index.

ghost use Rattle.std.specs.Prelude.{◌≡◌, ◌++◌, OnOk, Some, take, string_bytes};
ghost use Rattle.sfv_lint_head.specs.Excerpts.{part_start, part_end, part_of, mark_of, part_line, caret_line, marked};
ghost use Rattle.sfv_lint_head.specs.Lines.{line_texts};

use crate::lines::place;
use crate::shown::{append_caret, append_shown};
use std::alloc::AllocError;

/// A longer line is printed in part.
const LONG: usize = 72;

/// The bytes of a long line that are printed on each side of an index. With dots and indentation, they fit 80 columns.
const SIDE: usize = 34;

/// Returns where the printed part of a line begins.
fn part_start(line: &[u8], index: usize) -> usize
    ensures { result ≡ part_start line.now index }
{
    if line.len() > LONG {
        index.saturating_sub(SIDE)
    } else {
        0
    }
}

/// Returns where the printed part of a line ends.
fn part_end(line: &[u8], index: usize) -> usize
    ensures { result ≡ part_end line.now index }
{
    if line.len() > LONG && index < line.len() - SIDE {
        index + SIDE
    } else {
        line.len()
    }
}

/// Returns the printed part of a line.
fn part_of(line: &[u8], index: usize) -> &[u8]
    ensures { result.now ≡ part_of line.now index }
{
    line.get(part_start(line, index)..part_end(line, index))
        .unwrap_or(&[])
}

/// Returns the first bytes of the line.
fn before(line: &[u8], index: usize) -> &[u8]
    ensures { result.now ≡ take index line.now }
{
    line.get(..index).unwrap_or(line)
}

/// Appends this mark if bytes are left out.
fn append_mark(out: &mut String, left_out: bool, mark: &str) -> Result<(), AllocError>
    ensures { OnOk result (string_bytes out.new ≡ string_bytes out.old ++ mark_of left_out mark.now) }
{
    if left_out {
        out.push_str(mark)?;
    }
    Ok(())
}

/// Appends the printed part of a line as it is shown.
fn append_part(out: &mut String, line: &[u8], index: usize) -> Result<(), AllocError>
    ensures { OnOk result (string_bytes out.new ≡ string_bytes out.old ++ part_line line.now index) }
{
    out.push_str("    ")?;
    append_mark(out, part_start(line, index) > 0, "..")?;
    append_shown(out, part_of(line, index))?;
    append_mark(out, part_end(line, index) < line.len(), "..")?;
    out.push('\n')
}

/// Appends a caret under the index in the printed part of a line.
fn append_caret_line(out: &mut String, line: &[u8], index: usize) -> Result<(), AllocError>
    ensures { OnOk result (string_bytes out.new ≡ string_bytes out.old ++ caret_line line.now index) }
{
    let start = part_start(line, index);
    out.push_str("    ")?;
    append_mark(out, start > 0, "  ")?;
    append_caret(out, before(part_of(line, index), index - start))?;
    out.push('\n')
}

/// Appends the line of a field that an index of the joined text is in, as it is shown, and a caret under the index. A
/// line of more than 72 bytes is printed up to 34 bytes before and after the index.
///
/// # Errors
///
/// Returns `AllocError` if memory runs out. A part may then be appended.
pub fn append_marked(out: &mut String, lines: &[Vec<u8>], index: usize) -> Result<(), AllocError>
    ensures { OnOk result (string_bytes out.new ≡ string_bytes out.old ++ marked (line_texts lines.now) (Some index)) }
{
    let Some((line, index)) = place(lines, index) else {
        return Ok(());
    };
    append_part(out, line, index)?;
    append_caret_line(out, line, index)
}
