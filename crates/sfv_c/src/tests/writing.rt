//! Texts of rows.

use crate::rows::Row;
use crate::sfv_c_write_spans;
use crate::tests::common::{
    DICTIONARY, FIELDS, GUARD, GUARD_BYTE, ITEM, LIST, NEWER, NO_TYPES, NO_VERSIONS, OLDER,
    holds_text, is_error, is_size, is_untouched, rows_of,
};
use std::alloc::Global;

/// Writes the rows into a buffer of each size up to the needed one. Returns `true` if only the last suffices.
fn is_written(alloc: Global, field: u32, version: u32, rows: &[Row<'_>], text: &[u8]) -> bool {
    let mut holds = true;
    for size in 0..=text.len() {
        let mut out = [GUARD_BYTE; 64];
        let Some(place) = out.get_mut(..size) else {
            return false;
        };
        let answer = sfv_c_write_spans(alloc, field, version, rows, place);
        if size == text.len() {
            let status = if text.is_empty() { 1 } else { 0 };
            holds &= is_size(answer, status, size, 0) && holds_text(&out, text);
        } else {
            holds &= is_size(answer, 2, text.len(), 0) && is_untouched(&out);
        }
    }
    holds
}

#[test]
fn rows_are_written_as_their_text(rt: HostRuntime) {
    let alloc = rt.alloc();
    let mut holds = true;
    for &(field, version, text, _count, _used) in FIELDS {
        let text = text.as_bytes();
        let (mut room, mut rows) = ([0; 8], [GUARD; 32]);
        let rows = rows_of(alloc, (field, version, text), &mut rows, &mut room).unwrap_or(&[]);
        holds &= is_written(alloc, field, version, rows, text);
        holds &= is_written(alloc, field, NEWER, rows, text);
    }
    assert!(rt; holds);
}

/// Fields with a value that the older version lacks, and the kind of the first one.
const UNSUPPORTED: &[(u32, &str, u32)] = &[
    (ITEM, "@1;a=%\"x\"", 7),
    (ITEM, "1;a=%\"x\"", 8),
    (LIST, "1, (a;b=@1 %\"x\"), %\"x\"", 7),
    (DICTIONARY, "a=%\"x\", a=@1", 8),
];

#[test]
fn the_older_version_lacks_values(rt: HostRuntime) {
    let alloc = rt.alloc();
    let mut holds = true;
    for &(field, text, kind) in UNSUPPORTED {
        let (mut room, mut rows) = ([0; 8], [GUARD; 32]);
        let text = text.as_bytes();
        let rows = rows_of(alloc, (field, NEWER, text), &mut rows, &mut room).unwrap_or(&[]);
        let mut out = [GUARD_BYTE; 64];
        let answer = sfv_c_write_spans(alloc, field, OLDER, rows, &mut out);
        holds &= is_error(answer, 6, kind, 0) && is_untouched(&out);
    }
    assert!(rt; holds);
}

#[test]
fn other_numbers_are_bad_arguments(rt: HostRuntime) {
    let alloc = rt.alloc();
    let mut holds = true;
    for &no_type in NO_TYPES {
        for &no_version in NO_VERSIONS {
            for (field, version) in [(no_type, NEWER), (LIST, no_version), (no_type, no_version)] {
                let mut out = [GUARD_BYTE; 4];
                let answer = sfv_c_write_spans(alloc, field, version, &[GUARD], &mut out);
                holds &= is_error(answer, 5, 0, 0) && is_untouched(&out);
            }
        }
    }
    assert!(rt; holds);
}
