//! Fields, and comparisons of rows, answers and buffers.

use crate::answer::Answer;
use crate::rows::Row;
use crate::sfv_c_spans;
use std::alloc::Global;

/// The numbers of the types.
pub const ITEM: u32 = 1;

pub const LIST: u32 = 2;

pub const DICTIONARY: u32 = 3;

/// The numbers of the versions.
pub const OLDER: u32 = 8_941;

pub const NEWER: u32 = 9_651;

/// Numbers that name no type, and numbers that name no version.
pub const NO_TYPES: &[u32] = &[0, 4, 257, u32::MAX];

pub const NO_VERSIONS: &[u32] = &[0, 1, 8_940, 9_650, 9_652, u32::MAX];

/// Canonical texts: the type, the version, the text, its number of rows, and the length of its decoded texts.
pub const FIELDS: &[(u32, u32, &str, usize, usize)] = &[
    (ITEM, OLDER, "-12;a;b=1.5;c=:aGk=:", 5, 2),
    (
        ITEM,
        NEWER,
        "%\"f%c3%bc\";a=\"x\\\"y\";b=:aGk=:;c=@5;d=?0;e=t/k",
        7,
        8,
    ),
    (LIST, OLDER, "a;x, (\"b\" c;y=1.5);z, 1", 21, 0),
    (LIST, NEWER, "@-1, (%\"x\"), (:aGk=: \"\\\\\")", 21, 3),
    (
        DICTIONARY,
        OLDER,
        "a, b=?0;x, c=();y, a=(1 2), d=:aGVsbG8=:",
        28,
        5,
    ),
    (DICTIONARY, NEWER, "*k=%\"%25\";l=%\"%22\", m=(@1;n)", 13, 2),
    (LIST, OLDER, "", 0, 0),
    (DICTIONARY, NEWER, "", 0, 0),
];

/// A row that no call writes.
pub const GUARD: Row<'static> = Row {
    tag: 77,
    kind: 76,
    key: b"guard",
    bytes: b"guarded",
    number: -75,
};

/// A byte that no call writes.
pub const GUARD_BYTE: u8 = 0xee;

fn is_same_row(row: &Row<'_>, other: &Row<'_>) -> bool {
    row.tag == other.tag
        && row.kind == other.kind
        && row.key == other.key
        && row.bytes == other.bytes
        && row.number == other.number
}

/// Returns `true` if both are the same rows.
pub fn are_same(rows: &[Row<'_>], others: &[Row<'_>]) -> bool {
    let mut holds = rows.len() == others.len();
    for (row, other) in rows.iter().zip(others) {
        holds &= is_same_row(row, other);
    }
    holds
}

/// Returns `true` if no call wrote a row here.
pub fn are_untouched(rows: &[Row<'_>]) -> bool {
    let mut holds = true;
    for row in rows {
        holds &= is_same_row(row, &GUARD);
    }
    holds
}

/// Returns `true` if no call wrote a byte here.
pub fn is_untouched(bytes: &[u8]) -> bool {
    let mut holds = true;
    for &byte in bytes {
        holds &= byte == GUARD_BYTE;
    }
    holds
}

/// Returns `true` if the buffer begins with the text, and no other byte of it was written.
pub fn holds_text(out: &[u8], text: &[u8]) -> bool {
    match out.split_at_checked(text.len()) {
        Some((front, rest)) => front == text && is_untouched(rest),
        None => false,
    }
}

/// Returns `true` if the answer has this status, kind and index, and no sizes.
pub fn is_error(answer: Answer, status: u32, kind: u32, index: usize) -> bool {
    answer.status == status
        && answer.kind == kind
        && answer.index == index
        && answer.length == 0
        && answer.events == 0
}

/// Returns `true` if the answer has this status and these sizes, and no kind and index.
pub fn is_size(answer: Answer, status: u32, length: usize, rows: usize) -> bool {
    answer.status == status
        && answer.kind == 0
        && answer.index == 0
        && answer.length == length
        && answer.events == rows
}

/// Parses a field into these buffers, and returns its rows, or `None` if the status is not 0.
pub fn rows_of<'r, 'a>(
    alloc: Global,
    (field, version, input): (u32, u32, &'a [u8]),
    rows: &'r mut [Row<'a>],
    room: &'a mut [u8],
) -> Option<&'r [Row<'a>]> {
    let answer = sfv_c_spans(alloc, field, version, input, rows, room);
    if answer.status != 0 {
        return None;
    }
    rows.get(..answer.events)
}
