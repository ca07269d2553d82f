//! Canonical texts of parsed fields.

use crate::sfv_c_canonical;
use crate::tests::common::{
    DICTIONARY, GUARD_BYTE, ITEM, LIST, NEWER, NO_TYPES, NO_VERSIONS, OLDER, holds_text, is_error,
    is_size, is_untouched,
};
use std::alloc::Global;

/// Fields: the type, the version to parse, the input, and the canonical text.
const WRITTEN: &[(u32, u32, &str, &str)] = &[
    (ITEM, OLDER, " 1.50;a;  b=?1;a=2 ", "1.5;a=2;b"),
    (ITEM, NEWER, "%\"%7f%41\"", "%\"%7fA\""),
    (LIST, OLDER, " a ,( b  c )\t,\"d\"", "a, (b c), \"d\""),
    (LIST, NEWER, ":YQ:,@-0", ":YQ==:, @0"),
    (DICTIONARY, OLDER, "a=1,b=?1,a=(3)", "a=(3), b"),
    (DICTIONARY, NEWER, "a=\"\\\\\";b=@2", "a=\"\\\\\";b=@2"),
];

/// Calls that fail: the type, the two versions, the input, and the status, the kind and the index of the answer.
const FAILED: &[(u32, u32, u32, &str, u32, u32, usize)] = &[
    (LIST, OLDER, OLDER, "", 1, 0, 0),
    (DICTIONARY, NEWER, OLDER, "  ", 1, 0, 0),
    (ITEM, OLDER, NEWER, "@1", 3, 23, 0),
    (ITEM, NEWER, NEWER, "", 3, 10, 0),
    (LIST, OLDER, OLDER, "a, ", 3, 6, 1),
    (DICTIONARY, NEWER, NEWER, "a, b=", 3, 10, 5),
    (ITEM, NEWER, OLDER, "@1", 6, 7, 0),
    (LIST, NEWER, OLDER, "1;a=%\"x\", @1", 6, 8, 0),
    (DICTIONARY, NEWER, OLDER, "a=%\"x\", b=(@1), a=2", 6, 7, 0),
];

/// Writes the canonical text into a buffer of each size up to the needed one. Returns `true` if only the last suffices.
fn is_written(alloc: Global, field: u32, reading: u32, input: &str, text: &str) -> bool {
    let mut holds = true;
    for size in 0..=text.len() {
        let mut out = [GUARD_BYTE; 64];
        let Some(place) = out.get_mut(..size) else {
            return false;
        };
        let input = input.as_bytes();
        let answer = sfv_c_canonical(alloc, field, reading, NEWER, 7, input, place);
        let fits = size == text.len();
        holds &= is_size(answer, if fits { 0 } else { 2 }, text.len(), 0);
        holds &= if fits {
            holds_text(&out, text.as_bytes())
        } else {
            is_untouched(&out)
        };
    }
    holds
}

#[test]
fn texts_are_canonical(rt: HostRuntime) {
    let alloc = rt.alloc();
    let mut holds = true;
    for &(field, reading, input, text) in WRITTEN {
        holds &= is_written(alloc, field, reading, input, text);
        holds &= is_written(alloc, field, NEWER, text, text);
    }
    assert!(rt; holds);
}

#[test]
fn errors_leave_the_buffer(rt: HostRuntime) {
    let alloc = rt.alloc();
    let mut holds = true;
    for &(field, reading, writing, input, status, kind, index) in FAILED {
        let mut out = [GUARD_BYTE; 32];
        let input = input.as_bytes();
        let answer = sfv_c_canonical(alloc, field, reading, writing, 7, input, &mut out);
        holds &= is_error(answer, status, kind, index) && is_untouched(&out);
    }
    assert!(rt; holds);
}

#[test]
fn other_numbers_are_bad_arguments(rt: HostRuntime) {
    let alloc = rt.alloc();
    let mut holds = true;
    for &no_type in NO_TYPES {
        for &no in NO_VERSIONS {
            for (field, reading, writing) in [
                (no_type, NEWER, NEWER),
                (LIST, no, OLDER),
                (LIST, NEWER, no),
                (no_type, no, no),
            ] {
                let mut out = [GUARD_BYTE; 4];
                let answer = sfv_c_canonical(alloc, field, reading, writing, 7, b"a", &mut out);
                holds &= is_error(answer, 5, 0, 0) && is_untouched(&out);
            }
        }
    }
    assert!(rt; holds);
}
