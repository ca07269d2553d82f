//! Checks of inputs, and rows of parsed fields.

use crate::rows::Row;
use crate::tests::common::{
    DICTIONARY, FIELDS, GUARD, GUARD_BYTE, ITEM, LIST, NEWER, NO_TYPES, NO_VERSIONS, OLDER,
    are_same, are_untouched, is_error, is_size, is_untouched, rows_of,
};
use crate::{sfv_c_check, sfv_c_spans};
use std::alloc::Global;
use std::test::Fail;

/// Rejected inputs: the type, the version, the input, and the kind and the index of the error.
const REJECTED: &[(u32, u32, &str, u32, usize)] = &[
    (ITEM, NEWER, "", 10, 0),
    (ITEM, OLDER, " (", 10, 1),
    (ITEM, NEWER, "1 x", 7, 2),
    (ITEM, OLDER, "@1", 23, 0),
    (ITEM, OLDER, "1;a=%\"x\"", 25, 4),
    (ITEM, NEWER, "?2", 11, 1),
    (ITEM, NEWER, "\"a", 13, 2),
    (ITEM, NEWER, "\"\\x\"", 15, 2),
    (ITEM, NEWER, "%\"%ff\"", 27, 2),
    (LIST, NEWER, "a,", 6, 1),
    (LIST, OLDER, "a b", 5, 2),
    (LIST, NEWER, "(a", 9, 2),
    (LIST, NEWER, ":a", 16, 2),
    (DICTIONARY, OLDER, "A=1", 30, 0),
    (DICTIONARY, NEWER, "a=1, =", 30, 5),
    (DICTIONARY, OLDER, "a=1;b=1.", 22, 7),
];

/// The parts of a row: tag, key, kind, bytes and number.
type Parts = (u32, &'static str, u32, &'static str, i64);

const DICTIONARY_ROWS: &[Parts] = &[
    (2, "a", 0, "", 0),
    (3, "", 0, "", 0),
    (5, "", 6, "", 1),
    (6, "x", 2, "", -1_500),
    (7, "", 0, "", 0),
    (2, "b", 0, "", 0),
    (4, "", 0, "", 0),
    (3, "", 0, "", 0),
    (5, "", 4, "c", 0),
    (7, "", 0, "", 0),
    (8, "", 0, "", 0),
    (6, "y", 3, "s\"", 0),
    (6, "z", 5, "hi", 0),
    (7, "", 0, "", 0),
];

const LIST_ROWS: &[Parts] = &[
    (1, "", 0, "", 0),
    (3, "", 0, "", 0),
    (5, "", 7, "", 12),
    (6, "a", 8, "\u{fc}", 0),
    (6, "a", 6, "", 0),
    (7, "", 0, "", 0),
];

const ITEM_ROWS: &[Parts] = &[(5, "", 3, "q", 0), (6, "k", 1, "", -9), (7, "", 0, "", 0)];

fn are_parts(rows: &[Row<'_>], parts: &[Parts]) -> bool {
    let mut holds = rows.len() == parts.len();
    for (row, &(tag, key, kind, bytes, number)) in rows.iter().zip(parts) {
        holds &= row.tag == tag && row.kind == kind && row.number == number;
        holds &= row.key == key.as_bytes() && row.bytes == bytes.as_bytes();
    }
    holds
}

/// Returns `true` if the field has these rows.
fn has_rows(alloc: Global, field: u32, input: &str, parts: &[Parts]) -> bool {
    let (mut room, mut rows) = ([0; 16], [GUARD; 16]);
    match rows_of(
        alloc,
        (field, NEWER, input.as_bytes()),
        &mut rows,
        &mut room,
    ) {
        Some(rows) => are_parts(rows, parts),
        None => false,
    }
}

#[test]
fn rows_hold_the_parts(rt: HostRuntime) {
    let alloc = rt.alloc();
    let dictionary = " a;x=-1.5 ,b=( c );y=\"s\\\"\";z=:aGk=: ";
    let mut holds = has_rows(alloc, DICTIONARY, dictionary, DICTIONARY_ROWS);
    holds &= has_rows(alloc, LIST, "@12;a=%\"%c3%bc\"; a=?0", LIST_ROWS);
    holds &= has_rows(alloc, ITEM, " \"q\";k=-9 ", ITEM_ROWS);
    holds &= has_rows(alloc, LIST, " ", &[]);
    assert!(rt; holds);
}

/// Returns `true` if each call rejects the input with this error.
fn is_rejected(
    alloc: Global,
    (field, version, input): (u32, u32, &[u8]),
    kind: u32,
    index: usize,
) -> Result<bool, Fail> {
    let mut holds = is_error(sfv_c_check(alloc, field, version, input), 3, kind, index);
    for size in [0, 1, 8] {
        let mut room = Vec::from_elem(alloc, 0u8, size)?;
        let mut rows = Vec::from_elem(alloc, GUARD, size)?;
        let answer = sfv_c_spans(alloc, field, version, input, &mut rows, &mut room);
        holds &= is_error(answer, 3, kind, index);
    }
    Ok(holds)
}

#[test]
fn errors_have_a_kind_and_an_index(rt: HostRuntime) -> Result<(), Fail> {
    let alloc = rt.alloc();
    let mut holds = true;
    for &(field, version, input, kind, index) in REJECTED {
        holds &= is_rejected(alloc, (field, version, input.as_bytes()), kind, index)?;
    }
    assert!(rt; holds);
    Ok(())
}

#[test]
fn other_numbers_are_bad_arguments(rt: HostRuntime) {
    let alloc = rt.alloc();
    let mut holds = true;
    for &no_type in NO_TYPES {
        for &no_version in NO_VERSIONS {
            for (field, version) in [(no_type, NEWER), (LIST, no_version), (no_type, no_version)] {
                let (mut room, mut rows) = ([GUARD_BYTE; 4], [GUARD; 4]);
                holds &= is_error(sfv_c_check(alloc, field, version, b":YQ==:"), 5, 0, 0);
                let answer = sfv_c_spans(alloc, field, version, b":YQ==:", &mut rows, &mut room);
                holds &= is_error(answer, 5, 0, 0) && are_untouched(&rows);
                holds &= is_untouched(&room);
            }
        }
    }
    assert!(rt; holds);
}

/// Parses the field into a buffer of each size up to the needed one. Returns `true` if only the last suffices.
fn are_sizes_exact(
    alloc: Global,
    (field, version, input): (u32, u32, &[u8]),
    count: usize,
    used: usize,
) -> Result<bool, Fail> {
    let mut holds = is_size(sfv_c_check(alloc, field, version, input), 0, 0, 0);
    for rows_len in 0..=count.saturating_add(1) {
        for room_len in 0..=used.saturating_add(1) {
            let mut room = Vec::from_elem(alloc, 0u8, room_len)?;
            let mut rows = Vec::from_elem(alloc, GUARD, rows_len)?;
            let answer = sfv_c_spans(alloc, field, version, input, &mut rows, &mut room);
            let fits = rows_len >= count && room_len >= used;
            holds &= is_size(answer, if fits { 0 } else { 2 }, used, count);
            holds &= are_untouched(rows.get(count..).unwrap_or(&[]));
        }
    }
    Ok(holds)
}

#[test]
fn buffers_of_the_needed_size_suffice(rt: HostRuntime) -> Result<(), Fail> {
    let alloc = rt.alloc();
    let mut holds = true;
    for &(field, version, input, count, used) in FIELDS {
        holds &= are_sizes_exact(alloc, (field, version, input.as_bytes()), count, used)?;
    }
    assert!(rt; holds);
    Ok(())
}

// The older version has no dates and no display strings, so what it accepts has the same rows under both.
#[test]
fn the_newer_version_parses_to_the_same_rows(rt: HostRuntime) {
    let alloc = rt.alloc();
    let mut holds = true;
    for &(field, _version, input, _count, _used) in FIELDS {
        let input = input.as_bytes();
        let (mut room, mut rows) = ([0; 8], [GUARD; 32]);
        let (mut room_again, mut again) = ([0; 8], [GUARD; 32]);
        let newer = rows_of(alloc, (field, NEWER, input), &mut rows, &mut room);
        let older = rows_of(alloc, (field, OLDER, input), &mut again, &mut room_again);
        holds &= match (newer, older) {
            (Some(newer), Some(older)) => are_same(newer, older),
            (Some(_newer), None) => input.contains(&b'@') || input.contains(&b'%'),
            _ => false,
        };
    }
    assert!(rt; holds);
}
