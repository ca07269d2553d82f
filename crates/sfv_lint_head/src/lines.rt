//! The lines of a field, and the place of an index of their joined text.

ghost use Rattle.std.specs.Prelude.{◌≡◌, IfOk, option_map};
ghost use Rattle.sfv_lint_head.specs.Lines.{line_texts, joined_lines, place_in, without_return, value_lines};
ghost use Rattle.sfv_lint_head.specs.Heads.{first_line, after_line};

use memchr::memchr;
use std::alloc::{AllocError, Global};

/// Returns the text of a field: its lines with a comma and a space between neighbours (RFC 9651, section 4.2).
///
/// # Errors
///
/// Returns `AllocError` if memory runs out.
pub fn join(alloc: Global, lines: &[Vec<u8>]) -> Result<Vec<u8>, AllocError>
    ensures { IfOk result (λ text. text.items ≡ joined_lines (line_texts lines.now)) }
{
    let mut text = Vec::new(alloc);
    let Some((first, others)) = lines.split_first() else {
        return Ok(text);
    };
    text.extend_from_slice(first.as_slice())?;
    for line in others {
        text.extend_from_slice(b", ")?;
        text.extend_from_slice(line.as_slice())?;
    }
    Ok(text)
}

/// Returns the line of a field that an index of the joined text is in, and the index in this line.
///
/// An index in the comma and the space after a line is at the end of this line, or after it. Returns `None` without a
/// line.
pub fn place(lines: &[Vec<u8>], index: usize) -> Option<(&[u8], usize)>
    ensures { option_map (λ place. (place.0.now, place.1)) result ≡ place_in (line_texts lines.now) index }
{
    let (last, others) = lines.split_last()?;
    let mut column = index;
    for line in others {
        let width = line.len() + 2;
        if column < width {
            return Some((line.as_slice(), column));
        }
        column -= width;
    }
    Some((last.as_slice(), column))
}

/// Returns the bytes before the first line feed, and those after it.
pub(crate) fn split_line(text: &[u8]) -> (&[u8], &[u8])
    ensures line { result.0.now ≡ first_line text.now }
    ensures rest { result.1.now ≡ after_line text.now }
{
    match memchr(b'\n', text) {
        Some(end) => (&text[..end], &text[end + 1..]),
        None => (text, &[]),
    }
}

/// Returns the line without a carriage return at its end.
fn without_return(line: &[u8]) -> &[u8]
    ensures { result.now ≡ without_return line.now }
{
    match line {
        [front @ .., b'\r'] => front,
        _ => line,
    }
}

/// Returns the lines of a pasted value, without line ends. Empty lines are left out.
///
/// # Errors
///
/// Returns `AllocError` if memory runs out.
pub fn split(alloc: Global, text: &[u8]) -> Result<Vec<Vec<u8>>, AllocError>
    ensures { IfOk result (λ lines. line_texts lines.items ≡ value_lines text.now) }
{
    let mut lines = Vec::new(alloc);
    let mut rest = text;
    while !rest.is_empty() {
        let (line, after) = split_line(rest);
        let line = without_return(line);
        if !line.is_empty() {
            lines.push(Vec::from_slice(alloc, line)?)?;
        }
        rest = after;
    }
    Ok(lines)
}
