//! Fields of 70,000 rows.

use crate::tests::common::{
    DICTIONARY, GUARD, GUARD_BYTE, ITEM, LIST, NEWER, is_size, is_untouched,
};
use crate::{sfv_c_check, sfv_c_spans, sfv_c_write_spans};
use std::alloc::{AllocError, Global};
use std::test::Fail;

const ROWS: usize = 70_000;

/// Fields of 70,000 rows: the type, the text before the parts, a part, the number of parts, and the text after them.
const FIELDS: &[(u32, &str, &str, usize, &str)] = &[
    (ITEM, "1", ";a", 69_998, ""),
    (LIST, "a", ", a", 17_499, ""),
    (LIST, "(a", " a", 23_331, ")"),
    (LIST, "()", ";a=1", 69_996, ""),
    (DICTIONARY, "a", ", b", 17_499, ""),
    (DICTIONARY, "a=(1", " 2", 23_331, ")"),
];

fn repeated(
    alloc: Global,
    front: &str,
    part: &str,
    times: usize,
    end: &str,
) -> Result<String, AllocError> {
    let mut all = String::from_str(alloc, front)?;
    for _ in 0..times {
        all.push_str(part)?;
    }
    all.push_str(end)?;
    Ok(all)
}

/// Returns `true` if the text parses to 70,000 rows, and they are written as the text.
fn is_kept(alloc: Global, field: u32, text: &[u8]) -> Result<bool, Fail> {
    let mut rows = Vec::from_elem(alloc, GUARD, ROWS)?;
    let mut holds = is_size(sfv_c_check(alloc, field, NEWER, text), 0, 0, 0);
    if let Some(short) = rows.as_mut_slice().get_mut(1..) {
        let answer = sfv_c_spans(alloc, field, NEWER, text, short, &mut []);
        holds &= is_size(answer, 2, 0, ROWS);
    }
    let answer = sfv_c_spans(alloc, field, NEWER, text, &mut rows, &mut []);
    holds &= is_size(answer, 0, 0, ROWS);
    let mut out = Vec::from_elem(alloc, GUARD_BYTE, text.len())?;
    if let Some(short) = out.as_mut_slice().get_mut(1..) {
        let answer = sfv_c_write_spans(alloc, field, NEWER, &rows, short);
        holds &= is_size(answer, 2, text.len(), 0);
    }
    holds &= is_untouched(&out);
    let answer = sfv_c_write_spans(alloc, field, NEWER, &rows, &mut out);
    Ok(holds && is_size(answer, 0, text.len(), 0) && out.as_slice() == text)
}

#[test]
fn long_fields_are_kept(rt: HostRuntime) -> Result<(), Fail> {
    let alloc = rt.alloc();
    let mut holds = true;
    for &(field, front, part, times, end) in FIELDS {
        let text = repeated(alloc, front, part, times, end)?;
        holds &= is_kept(alloc, field, text.as_bytes())?;
    }
    assert!(rt; holds);
    Ok(())
}
