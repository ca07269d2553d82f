//! Two messages with the same base.

use crate::common::{fields, inner_list, part};
use http_header::HeaderMap;
use sfv::InnerList;
use sfv_signatures::{BaseError, BaseErrorKind, HttpMessage, have_same_base};
use std::alloc::Global;
use std::test::Fail;

const LINES: &[(&str, &str)] = &[("Host", "a"), ("Accept", "x")];

const OTHER_LINES: &[(&str, &str)] = &[("Host", "a"), ("Accept", "y")];

fn message<'a>(fields: &'a HeaderMap) -> HttpMessage<'a> {
    HttpMessage {
        own: part(fields, None, &[], &[]),
        request: None,
        types: &[],
    }
}

fn same_over(
    alloc: Global,
    list: &InnerList,
    fields: &HeaderMap,
    other_list: &InnerList,
    other: &HeaderMap,
) -> Result<bool, BaseError> {
    have_same_base(alloc, list, &message(fields), other_list, &message(other))
}

fn same(
    alloc: Global,
    list: &str,
    other_list: &str,
    other: &[(&str, &str)],
) -> Result<Result<bool, BaseError>, Fail> {
    let fields_of_first = fields(alloc, LINES)?;
    let fields_of_second = fields(alloc, other)?;
    let list = inner_list(alloc, list.as_bytes())?;
    let other_list = inner_list(alloc, other_list.as_bytes())?;
    Ok(same_over(
        alloc,
        &list,
        &fields_of_first,
        &other_list,
        &fields_of_second,
    ))
}

fn is_answer(found: &Result<bool, BaseError>, expected: bool) -> bool {
    match found {
        Ok(same) => *same == expected,
        Err(_) => false,
    }
}

fn is_absent_at(found: &Result<bool, BaseError>, index: usize) -> bool {
    match found {
        Ok(_) => false,
        Err(error) => error.kind == BaseErrorKind::Absent && error.index == index,
    }
}

// Two inner lists, the fields of the second message, and whether the bases are the same.
const ROWS: &[(&str, &str, &[(&str, &str)], bool)] = &[
    ("(\"host\")", "(\"host\")", OTHER_LINES, true),
    ("()", "()", OTHER_LINES, true),
    ("(\"host\")", "(\"host\");tag=\"t\"", LINES, false),
    (
        "(\"host\" \"accept\")",
        "(\"accept\" \"host\")",
        LINES,
        false,
    ),
    (
        "(\"host\" \"accept\")",
        "(\"host\" \"accept\")",
        OTHER_LINES,
        false,
    ),
    (
        "(\"host\" \"accept\")",
        "(\"host\" \"accept\")",
        LINES,
        true,
    ),
];

#[test]
fn bases_are_compared(rt: HostRuntime) -> Result<(), Fail> {
    for &(list, other_list, other, expected) in ROWS {
        let found = same(rt.alloc(), list, other_list, other)?;
        assert!(rt; is_answer(&found, expected), "{list} {other_list}");
    }
    Ok(())
}

#[test]
fn an_error_is_that_of_the_first_or_the_second(rt: HostRuntime) -> Result<(), Fail> {
    let alloc = rt.alloc();
    let first = same(alloc, "(\"host\" \"x\")", "(\"x\")", LINES)?;
    assert!(rt; is_absent_at(&first, 1), "first");
    let second = same(alloc, "(\"host\")", "(\"x\")", LINES)?;
    assert!(rt; is_absent_at(&second, 0), "second");
    Ok(())
}
