//! Rows of a field with one of them removed, doubled or changed.

use crate::answer::Answer;
use crate::rows::Row;
use crate::sfv_c_write_spans;
use crate::tests::common::{FIELDS, GUARD, GUARD_BYTE, are_same, is_error, is_untouched, rows_of};
use std::alloc::{AllocError, Global};
use std::test::Fail;

/// A change of a row.
#[derive(Clone, Copy, Drop)]
enum Change {
    Removed,
    Doubled,
    Tag(u32),
    Kind(u32),
    Number(i64),
    Key(&'static [u8]),
    Bytes(&'static [u8]),
}

/// Changes, and whether no field has such a row in any place.
const CHANGES: &[(Change, bool)] = &[
    (Change::Removed, false),
    (Change::Doubled, false),
    (Change::Tag(0), true),
    (Change::Tag(1), false),
    (Change::Tag(2), false),
    (Change::Tag(3), false),
    (Change::Tag(4), false),
    (Change::Tag(5), false),
    (Change::Tag(6), false),
    (Change::Tag(7), false),
    (Change::Tag(8), false),
    (Change::Tag(9), true),
    (Change::Tag(u32::MAX), true),
    (Change::Kind(0), false),
    (Change::Kind(1), false),
    (Change::Kind(2), false),
    (Change::Kind(3), false),
    (Change::Kind(4), false),
    (Change::Kind(5), false),
    (Change::Kind(6), false),
    (Change::Kind(7), false),
    (Change::Kind(8), false),
    (Change::Kind(9), true),
    (Change::Kind(u32::MAX), true),
    (Change::Number(0), false),
    (Change::Number(1), false),
    (Change::Number(2), false),
    (Change::Number(1_000_000_000_000_000), true),
    (Change::Number(i64::MIN), true),
    (Change::Key(b""), false),
    (Change::Key(b"b"), false),
    (Change::Key(b"A"), true),
    (Change::Key(b"a b"), true),
    (Change::Bytes(b""), false),
    (Change::Bytes(b"t"), false),
    (Change::Bytes(b" \""), false),
    (Change::Bytes(b"\xff"), false),
];

fn changed<'a>(mut row: Row<'a>, change: Change) -> Row<'a> {
    match change {
        Change::Removed | Change::Doubled => {}
        Change::Tag(tag) => row.tag = tag,
        Change::Kind(kind) => row.kind = kind,
        Change::Number(number) => row.number = number,
        Change::Key(key) => row.key = key,
        Change::Bytes(bytes) => row.bytes = bytes,
    }
    row
}

/// Returns the rows with a change of the row at this index.
fn damaged<'a>(
    alloc: Global,
    rows: &[Row<'a>],
    at: usize,
    change: Change,
) -> Result<Vec<Row<'a>>, AllocError> {
    let mut all = Vec::new(alloc);
    for (place, &row) in rows.iter().enumerate() {
        if place != at {
            all.push(row)?;
            continue;
        }
        match change {
            Change::Removed => {}
            Change::Doubled => {
                all.push(row)?;
                all.push(row)?;
            }
            _ => all.push(changed(row, change))?,
        }
    }
    Ok(all)
}

/// Returns `true` if the first wrong row is at this index: the rows before it do not stop earlier, and with it, the
/// answer is the same.
fn is_first_wrong(alloc: Global, field: u32, version: u32, rows: &[Row<'_>], at: usize) -> bool {
    let mut out = [GUARD_BYTE; 96];
    let mut holds = true;
    if let Some(front) = rows.get(..at) {
        let answer = sfv_c_write_spans(alloc, field, version, front, &mut out);
        holds &= answer.status != 7 || is_error(answer, 7, 0, at);
    }
    if let Some(front) = rows.get(..at.saturating_add(1)) {
        let answer = sfv_c_write_spans(alloc, field, version, front, &mut out);
        holds &= is_error(answer, 7, 0, at);
    }
    holds
}

/// Returns `true` if the answer is right for these rows, whose first change is at this index. A text parses to them.
fn is_right(
    alloc: Global,
    (field, version): (u32, u32),
    rows: &[Row<'_>],
    at: usize,
    answer: Answer,
    out: &[u8],
) -> bool {
    match answer.status {
        0 => {
            let text = out.get(..answer.length).unwrap_or(&[]);
            let (mut room, mut again) = ([0; 16], [GUARD; 32]);
            let again = rows_of(alloc, (field, version, text), &mut again, &mut room);
            are_same(again.unwrap_or(&[]), rows)
        }
        1 => rows.is_empty(),
        6 => version == 8_941 && (answer.kind == 7 || answer.kind == 8) && is_untouched(out),
        7 => {
            answer.index >= at
                && answer.index <= rows.len()
                && is_untouched(out)
                && is_first_wrong(alloc, field, version, rows, answer.index)
        }
        _ => false,
    }
}

fn is_change_found(
    alloc: Global,
    (field, version): (u32, u32),
    rows: &[Row<'_>],
    at: usize,
    (change, is_wrong): (Change, bool),
) -> Result<bool, Fail> {
    let rows = damaged(alloc, rows, at, change)?;
    let mut out = [GUARD_BYTE; 96];
    let answer = sfv_c_write_spans(alloc, field, version, &rows, &mut out);
    let found = !is_wrong || is_error(answer, 7, 0, at);
    Ok(found && is_right(alloc, (field, version), &rows, at, answer, &out))
}

#[test]
fn damaged_rows_are_found(rt: HostRuntime) -> Result<(), Fail> {
    let alloc = rt.alloc();
    let mut holds = true;
    for &(field, version, text, _count, _used) in FIELDS {
        let (mut room, mut rows) = ([0; 8], [GUARD; 32]);
        let input = (field, version, text.as_bytes());
        let rows = rows_of(alloc, input, &mut rows, &mut room).unwrap_or(&[]);
        for at in 0..rows.len() {
            for &change in CHANGES {
                holds &= is_change_found(alloc, (field, version), rows, at, change)?;
            }
        }
    }
    assert!(rt; holds);
    Ok(())
}
