//! Random messages: a second implementation gives the same bases, and no two have the same base unless they agree.

use crate::common::{base_over, inner_list, part};
use crate::sample::{
    DERIVED, Identifier, Line, NAMES, QUERY, Sample, line_bytes, random_lines, random_list,
    random_sample,
};
use crate::second::{Outcome, Stop, outcome_of, push_list, push_value};
use http_header::{HeaderMap, HeaderName, HeaderValue};
use sfv::{FieldKind, InnerList};
use sfv_random::Random;
use sfv_signatures::BaseError;
use std::alloc::{AllocError, Global};
use std::test::Fail;

const TYPES: &[(&str, FieldKind)] = &[
    ("dict", FieldKind::Dictionary),
    ("broken", FieldKind::Dictionary),
];

fn append(alloc: Global, map: &mut HeaderMap, line: Line) -> Result<(), Fail> {
    let name = NAMES.get(line.name).copied().unwrap_or("");
    let name = HeaderName::from_bytes(alloc, name.as_bytes())?;
    map.append(name, HeaderValue::from_bytes(alloc, line_bytes(line))?)?;
    Ok(())
}

fn map_of(alloc: Global, lines: &[Line]) -> Result<HeaderMap, Fail> {
    let mut map = HeaderMap::new(alloc);
    for line in lines {
        append(alloc, &mut map, *line)?;
    }
    Ok(map)
}

const NO_ROWS: &[(&str, &str)] = &[];

fn rows_of(row: usize) -> &'static [(&'static str, &'static str)] {
    DERIVED.get(row).copied().unwrap_or(NO_ROWS)
}

fn list_of(alloc: Global, sample: &Sample) -> Result<InnerList, Fail> {
    let mut text = Vec::new(alloc);
    push_list(sample, &mut text)?;
    inner_list(alloc, text.as_slice())
}

// Returns the base that the library gives.
fn base_of(alloc: Global, sample: &Sample) -> Result<Result<String, BaseError>, Fail> {
    let own = map_of(alloc, sample.own.as_slice())?;
    let trailers = map_of(alloc, sample.trailers.as_slice())?;
    let asked = map_of(alloc, sample.request.as_slice())?;
    let list = list_of(alloc, sample)?;
    let own = part(&own, Some(&trailers), rows_of(sample.derived), QUERY);
    let request = part(&asked, None, rows_of(sample.request_derived), &[]);
    Ok(base_over(alloc, &list, own, request, TYPES))
}

fn is_same(base: &Result<String, BaseError>, outcome: &Outcome) -> bool {
    match (base, outcome) {
        (Ok(text), Outcome::Base(bytes)) => text.as_bytes() == bytes.as_slice(),
        (Err(error), Outcome::Broken(kind, index)) => error.kind == *kind && error.index == *index,
        _ => false,
    }
}

// Returns whether there is a base, or `None` if the two implementations differ.
fn compare(alloc: Global, random: &mut Random) -> Result<Option<bool>, Fail> {
    let sample = random_sample(alloc, random)?;
    let outcome = outcome_of(alloc, &sample)?;
    let base = base_of(alloc, &sample)?;
    if is_same(&base, &outcome) {
        Ok(Some(base.is_ok()))
    } else {
        Ok(None)
    }
}

#[test]
fn a_second_implementation_has_the_same_outcome(rt: HostRuntime) -> Result<(), Fail> {
    let mut random = Random::new(9421);
    let mut bases = 0u32;
    for number in 0..10_000u32 {
        let has_base = compare(rt.alloc(), &mut random)?;
        assert!(rt; has_base.is_some(), "{number}");
        if has_base == Some(true) {
            bases = bases.saturating_add(1);
        }
    }
    assert!(rt; bases > 2_000 && bases < 8_000, "{bases}");
    Ok(())
}

// Returns `true` if the identifiers have the same value in both messages, or none in both.
fn have_same_value(
    alloc: Global,
    a: (&Sample, &Identifier),
    b: (&Sample, &Identifier),
) -> Result<bool, AllocError> {
    let mut value = Vec::new(alloc);
    let mut other = Vec::new(alloc);
    let first = push_value(alloc, a.0, a.1, &mut value);
    let second = push_value(alloc, b.0, b.1, &mut other);
    match (first, second) {
        (Ok(()), Ok(())) => Ok(value.as_slice() == other.as_slice()),
        (Err(Stop::Rule(kind)), Err(Stop::Rule(other))) => Ok(kind == other),
        _ => Ok(false),
    }
}

// Returns `true` if the lists are the same, and each component has the same value in both messages.
fn agree(alloc: Global, a: &Sample, b: &Sample) -> Result<bool, AllocError> {
    let mut list = Vec::new(alloc);
    let mut other = Vec::new(alloc);
    push_list(a, &mut list)?;
    push_list(b, &mut other)?;
    if list.as_slice() != other.as_slice() {
        return Ok(false);
    }
    for (x, y) in a.list.iter().zip(b.list.iter()) {
        if !have_same_value(alloc, (a, x), (b, y))? {
            return Ok(false);
        }
    }
    Ok(true)
}

// Changes one part of a sample, or nothing.
fn change(alloc: Global, random: &mut Random, sample: &mut Sample) -> Result<(), AllocError> {
    match random.below(5) {
        0 => sample.own = random_lines(alloc, random, 3)?,
        1 => sample.list = random_list(alloc, random)?,
        2 => sample.derived = random.below(4),
        3 => sample.request = random_lines(alloc, random, 3)?,
        _ => {}
    }
    Ok(())
}

fn are_equal(a: &Result<String, BaseError>, b: &Result<String, BaseError>) -> Option<bool> {
    match (a, b) {
        (Ok(a), Ok(b)) => Some(a.as_str() == b.as_str()),
        _ => None,
    }
}

// Returns whether two messages agree and have the same base. The second is `None` if one of them has none.
fn compare_two(alloc: Global, random: &mut Random) -> Result<(bool, Option<bool>), Fail> {
    let mut again = *random;
    let first = random_sample(alloc, random)?;
    let mut second = random_sample(alloc, &mut again)?;
    change(alloc, random, &mut second)?;
    let base = base_of(alloc, &first)?;
    let other = base_of(alloc, &second)?;
    Ok((agree(alloc, &first, &second)?, are_equal(&base, &other)))
}

#[test]
fn messages_with_the_same_base_agree(rt: HostRuntime) -> Result<(), Fail> {
    let mut random = Random::new(94);
    let mut same = 0u32;
    let mut different = 0u32;
    for number in 0..5_000u32 {
        let (agree, equal) = compare_two(rt.alloc(), &mut random)?;
        assert!(rt; equal.unwrap_or(agree) == agree, "{number}");
        match equal {
            Some(true) => same = same.saturating_add(1),
            Some(false) => different = different.saturating_add(1),
            None => {}
        }
    }
    assert!(rt; same > 500 && different > 100, "{same} {different}");
    Ok(())
}
