//! The text of a field: its lines, joined by a comma and a space.

ghost use Rattle.std.specs.Prelude.{◌≡◌, ◌≢◌, ◌<◌, None, length, option_map, IfOk, OnErr, IfSome};
ghost use Rattle.std.specs.Cow.{cow_slice_items, IsBorrowedSlice};
ghost use Rattle.sfv_headers.specs.Lines.{with_line, lines_in, text_in};

use http_header::{AsHeaderName, HeaderMap};
use std::alloc::{AllocError, Global};
use std::borrow::CowSlice;

/// Appends a line to the text of the lines before it, after a comma and a space unless it is the first (RFC 9651,
/// section 4.2). The text of the first line is borrowed.
///
/// # Errors
///
/// Returns `AllocError` if memory runs out. Only a second line needs memory.
pub fn add_line<'a>(
    alloc: Global,
    text: Option<CowSlice<'a, u8, Global>>,
    line: &'a [u8],
) -> Result<CowSlice<'a, u8, Global>, AllocError>
    ensures text { IfOk result (λ new. cow_slice_items new ≡ with_line (option_map cow_slice_items text.entry) line.now) }
    ensures borrowed { text.entry ≡ None → IfOk result IsBorrowedSlice }
    ensures memory { OnErr result (text.entry ≢ None) }
{
    let Some(before) = text else {
        return Ok(CowSlice::Borrowed(line));
    };
    let mut joined = before.into_owned(alloc)?;
    joined.extend_from_slice(b", ")?;
    joined.extend_from_slice(line)?;
    Ok(CowSlice::Owned(joined))
}

/// Returns the text of the field `name` in a header map: its lines in order, joined by a comma and a space (RFC 9651,
/// section 4.2). Returns `None` if the map lacks the name. One line is borrowed.
///
/// # Errors
///
/// Returns `AllocError` if memory runs out, which requires two lines.
pub fn field_text<'a, K: AsHeaderName>(
    alloc: Global,
    headers: &'a HeaderMap,
    name: K,
) -> Result<Option<CowSlice<'a, u8, Global>>, AllocError>
    ensures text { IfOk result (λ text. option_map cow_slice_items text ≡ text_in headers.now (K.name name)) }
    ensures borrowed { length (lines_in headers.now (K.name name)) ≡ 1 → IfOk result (λ text. IfSome text IsBorrowedSlice) }
    ensures memory { OnErr result (1 < length (lines_in headers.now (K.name name))) }
{
    let mut text = None;
    for value in headers.get_all(name) {
        text = Some(add_line(alloc, text, value.as_bytes())?);
    }
    Ok(text)
}
