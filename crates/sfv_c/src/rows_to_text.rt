//! The text of rows.

ghost use Rattle.std.specs.Prelude.{◌≡◌, ◌<◌, ◌≤◌, ◌+◌, ◌∷◌, [], length, drop, MatchOption, IfSome, false, true};
ghost use Rattle.sfv.specs.Types.{item_field, list_field, dictionary_field};
ghost use Rattle.sfv_c.specs.RowEvents.{ParseState, member, value, items, parameters};
ghost use Rattle.sfv_c.specs.RowEvents.{WritesOrStops, WritesAllOrStops, IsPlainEntryAt};
ghost use Rattle.sfv.specs.BareItems.{ref_value};

use crate::output::Output;
use crate::row_event::{is_plain, keyed_entry_in, parameter_in, value_in};
use crate::rows::{ENTRY, INNER_LIST, INNER_LIST_END, ITEM, PARAMETERS_END, Row};
use sfv::{FieldKind, RefBareItem};

// Each function reads rows from an index on, appends their text, and returns the index after them. It reads on after an
// error of the output, since a wrong row is reported first.

/// The index of the first wrong row, or the number of rows if more must follow.
#[derive(Clone, Copy, Drop)]
pub(crate) struct WrongRow {
    pub(crate) index: usize,
}

/// Returns the row at this index, if there is one.
fn row_at<'r, 'a>(rows: &'r [Row<'a>], at: usize) -> Option<&'r Row<'a>>
    ensures { MatchOption result (drop at rows.now ≡ [])
        (λ row. (at < length rows.now) × (drop at rows.now ≡ row.now ∷ drop (at + 1) rows.now)) }
{
    rows.get(at)
}

/// Returns the value of the entry at this index, if it is an item without parameters and without key.
// Most entries are one, and its rows are tested together.
#[inline(always)]
fn plain_entry_at<'a>(rows: &[Row<'a>], at: usize) -> Option<RefBareItem<'a>>
    requires { at ≤ length rows.now }
    ensures { IfSome result (λ v. IsPlainEntryAt rows.now at (ref_value v)) }
{
    let [entry, item, value, end] = rows[at..].first_chunk::<4>()?;
    if !is_plain(end, PARAMETERS_END) {
        return None;
    }
    if !is_plain(entry, ENTRY) {
        return None;
    }
    if !is_plain(item, ITEM) {
        return None;
    }
    value_in(value)
}

/// Writes parameters.
fn parameters(rows: &[Row<'_>], from: usize, output: &mut Output) -> Result<usize, WrongRow>
    ensures { (p : ParseState) → WritesOrStops rows.now (parameters p) p from output.old output.new result }
{
    let mut at = from;
    while let Some(row) = row_at(rows, at) {
        if is_plain(row, PARAMETERS_END) {
            return Ok(at + 1);
        }
        let Some(parameter) = parameter_in(row) else {
            return Err(WrongRow { index: at });
        };
        output.append_text(";");
        output.append_key(parameter.key);
        output.append_item(true, parameter.value);
        at += 1;
    }
    Err(WrongRow { index: at })
}

/// Writes parameters, as `parameters` does.
// Most items have none. This path avoids a call.
#[inline(always)]
fn parameters_or_end(rows: &[Row<'_>], from: usize, output: &mut Output) -> Result<usize, WrongRow>
    ensures { (p : ParseState) → WritesOrStops rows.now (parameters p) p from output.old output.new result }
{
    if let Some(row) = row_at(rows, from) {
        if is_plain(row, PARAMETERS_END) {
            return Ok(from + 1);
        }
    }
    parameters(rows, from, output)
}

/// Writes an item, whose bare item may be the value of a key.
#[inline(always)]
fn item(rows: &[Row<'_>], from: usize, keyed: bool, output: &mut Output) -> Result<usize, WrongRow>
    ensures { (p : ParseState) → WritesOrStops rows.now (value keyed p) p from output.old output.new result }
{
    let Some(row) = row_at(rows, from) else {
        return Err(WrongRow { index: from });
    };
    let Some(value) = value_in(row) else {
        return Err(WrongRow { index: from });
    };
    output.append_item(keyed, value);
    parameters_or_end(rows, from + 1, output)
}

/// Writes the items of an inner list, its end, and its parameters.
fn items(rows: &[Row<'_>], from: usize, output: &mut Output) -> Result<usize, WrongRow>
    ensures { (p : ParseState) → WritesOrStops rows.now (items true p) p from output.old output.new result }
{
    let mut at = from;
    let mut is_first = true;
    while let Some(row) = row_at(rows, at) {
        if is_plain(row, INNER_LIST_END) {
            output.append_text(")");
            return parameters(rows, at + 1, output);
        }
        if !is_plain(row, ITEM) {
            return Err(WrongRow { index: at });
        }
        output.append_separator(is_first, " ");
        at = item(rows, at + 1, false, output)?;
        is_first = false;
    }
    Err(WrongRow { index: at })
}

/// Writes a member, which may follow a key.
#[inline(always)]
fn member(
    rows: &[Row<'_>],
    from: usize,
    keyed: bool,
    output: &mut Output,
) -> Result<usize, WrongRow>
    ensures { (p : ParseState) → WritesOrStops rows.now (member keyed p) p from output.old output.new result }
{
    let Some(row) = row_at(rows, from) else {
        return Err(WrongRow { index: from });
    };
    if is_plain(row, ITEM) {
        return item(rows, from + 1, keyed, output);
    }
    if !is_plain(row, INNER_LIST) {
        return Err(WrongRow { index: from });
    }
    let opening = if keyed { "=(" } else { "(" };
    output.append_text(opening);
    items(rows, from + 1, output)
}

/// Writes the members of a list.
fn list(rows: &[Row<'_>], output: &mut Output) -> Result<(), WrongRow>
    ensures { WritesAllOrStops rows.now list_field output.old output.new result }
{
    let mut at = 0;
    let mut is_first = true;
    while let Some(row) = row_at(rows, at) {
        if let Some(value) = plain_entry_at(rows, at) {
            output.append_separator(is_first, ", ");
            output.append_item(false, value);
            at += 4;
        } else {
            if !is_plain(row, ENTRY) {
                return Err(WrongRow { index: at });
            }
            output.append_separator(is_first, ", ");
            at = member(rows, at + 1, false, output)?;
        }
        is_first = false;
    }
    Ok(())
}

/// Writes the members of a dictionary.
fn dictionary(rows: &[Row<'_>], output: &mut Output) -> Result<(), WrongRow>
    ensures { WritesAllOrStops rows.now dictionary_field output.old output.new result }
{
    let mut at = 0;
    let mut is_first = true;
    while let Some(row) = row_at(rows, at) {
        let Some(key) = keyed_entry_in(row) else {
            return Err(WrongRow { index: at });
        };
        output.append_separator(is_first, ", ");
        output.append_key(key);
        at = member(rows, at + 1, true, output)?;
        is_first = false;
    }
    Ok(())
}

/// Writes an item, after which no row may follow.
fn item_alone(rows: &[Row<'_>], output: &mut Output) -> Result<(), WrongRow>
    ensures { WritesAllOrStops rows.now item_field output.old output.new result }
{
    let at = item(rows, 0, false, output)?;
    match row_at(rows, at) {
        Some(_row) => Err(WrongRow { index: at }),
        None => Ok(()),
    }
}

/// Writes a field.
pub(crate) fn field(kind: FieldKind, rows: &[Row<'_>], output: &mut Output) -> Result<(), WrongRow>
    ensures { WritesAllOrStops rows.now kind output.old output.new result }
{
    match kind {
        FieldKind::Item => item_alone(rows, output),
        FieldKind::List => list(rows, output),
        FieldKind::Dictionary => dictionary(rows, output),
    }
}
