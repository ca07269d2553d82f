//! Rows that are written as a text.

ghost use Rattle.std.specs.Prelude.{◌≡◌, IfSome};
ghost use Rattle.sfv.specs.CheckedTexts.{text_of};
ghost use Rattle.sfv.specs.Types.{item_field};
ghost use Rattle.sfv_c.specs.RowEvents.{IsTokenAlone};
ghost use Rattle.sfv_c.specs.Writing.{IsWrite, IsWriteOutcome};

use crate::answer::{Answer, CallFault, Written, put};
use crate::output::Output;
use crate::row_event::{is_plain, value_in};
use crate::rows::{PARAMETERS_END, Row};
use crate::rows_to_text::field;
use sfv::{FieldKind, GenericBareItem, TokenRef, Version};
use std::alloc::Global;

/// Returns the token, if the rows are the rows of an item that is a token without parameters.
fn token_alone<'a>(kind: FieldKind, rows: &[Row<'a>]) -> Option<TokenRef<'a>>
    ensures { IfSome result (λ t. (kind ≡ item_field) × IsTokenAlone rows.now (text_of t)) }
{
    if !matches!(kind, FieldKind::Item) || rows.len() != 2 {
        return None;
    }
    let [row, end] = rows.first_chunk::<2>()?;
    if row.kind != 4 || !is_plain(end, PARAMETERS_END) {
        return None;
    }
    match value_in(row) {
        Some(GenericBareItem::Token(token)) => Some(token),
        _ => None,
    }
}

/// Writes the text of these rows to the start of the buffer.
fn put_rows(
    alloc: Global,
    kind: FieldKind,
    writing: Version,
    rows: &[Row<'_>],
    out: &mut [u8],
) -> Result<Written, CallFault>
    ensures { IsWriteOutcome writing kind rows.now out.old out.new result }
{
    // At first 8 bytes for each row, but no more than `out` has.
    let capacity = out.len().min(rows.len().saturating_mul(8));
    let mut output = Output::new(alloc, writing, capacity);
    if let Err(wrong) = field(kind, rows, &mut output) {
        return Err(CallFault::Rows(wrong.index));
    }
    if rows.is_empty() {
        return Ok(Written::Nothing);
    }
    if let Some(error) = output.error {
        return Err(CallFault::Write(error));
    }
    Ok(put(output.text.as_str(), out))
}

/// Writes the text of these rows to the start of the buffer, as `put_rows` does.
// The text of a token alone is copied once.
fn put_field(
    alloc: Global,
    kind: FieldKind,
    writing: Version,
    rows: &[Row<'_>],
    out: &mut [u8],
) -> Result<Written, CallFault>
    ensures { IsWriteOutcome writing kind rows.now out.old out.new result }
{
    match token_alone(kind, rows) {
        Some(token) => Ok(put(token.as_str(), out)),
        None => put_rows(alloc, kind, writing, rows, out),
    }
}

/// Writes the field of these rows to the start of the buffer.
pub(crate) fn write(
    alloc: Global,
    kind: FieldKind,
    writing: Version,
    rows: &[Row<'_>],
    out: &mut [u8],
) -> Answer
    ensures { IsWrite writing kind rows.now out.old out.new result }
{
    match put_field(alloc, kind, writing, rows, out) {
        Ok(written) => Answer::of_written(written),
        Err(fault) => Answer::of_fault(fault),
    }
}
