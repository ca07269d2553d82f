//! A second implementation of signature bases, over lists of bytes and without the library.

use crate::sample::{
    BROKEN, DERIVED, DICT, DICTS, Identifier, Line, NAMES, PARAMS, QUERY, Sample, TOKEN, line_bytes,
};
use sfv_signatures::BaseErrorKind;
use std::alloc::{AllocError, Global};

/// Why there is no value.
#[derive(Clone, Copy)]
pub enum Stop {
    Rule(BaseErrorKind),
    Memory,
}

impl From<AllocError> for Stop {
    fn from(_error: AllocError) -> Stop {
        Stop::Memory
    }
}

/// The base, or the rule and the index of the identifier.
#[derive(Drop)]
pub enum Outcome {
    Base(Vec<u8>),
    Broken(BaseErrorKind, usize),
}

fn push(out: &mut Vec<u8>, text: &str) -> Result<(), AllocError> {
    out.extend_from_slice(text.as_bytes())
}

/// Appends the text of an identifier.
pub fn push_identifier(identifier: &Identifier, out: &mut Vec<u8>) -> Result<(), AllocError> {
    let name = name_of(identifier);
    if identifier.name == TOKEN {
        push(out, name)?;
    } else {
        push(out, "\"")?;
        push(out, name)?;
        push(out, "\"")?;
    }
    for row in &identifier.params {
        if let Some(param) = PARAMS.get(*row) {
            push(out, param.1)?;
        }
    }
    Ok(())
}

fn name_of(identifier: &Identifier) -> &'static str {
    match NAMES.get(identifier.name) {
        Some(name) => name,
        None => "",
    }
}

fn has(identifier: &Identifier, key: &str) -> bool {
    for row in &identifier.params {
        if let Some(param) = PARAMS.get(*row) {
            if param.0 == key {
                return true;
            }
        }
    }
    false
}

fn contains(rows: &[usize], row: usize) -> bool {
    for other in rows {
        if *other == row {
            return true;
        }
    }
    false
}

fn are_within(rows: &[usize], others: &[usize]) -> bool {
    for row in rows {
        if !contains(others, *row) {
            return false;
        }
    }
    true
}

fn are_same(a: &Identifier, b: &Identifier) -> bool {
    a.name == b.name
        && are_within(a.params.as_slice(), b.params.as_slice())
        && are_within(b.params.as_slice(), a.params.as_slice())
}

fn is_derived(name: usize) -> bool {
    6 <= name && name <= 10
}

fn is_allowed(name: usize, key: &str) -> bool {
    if is_derived(name) {
        return key == "req" || (name == 8 && key == "name");
    }
    key == "sf" || key == "bs" || key == "tr" || key == "req" || key == "key"
}

fn fault_of(identifier: &Identifier) -> Option<BaseErrorKind> {
    if identifier.name == 10 {
        return Some(BaseErrorKind::UnknownComponent);
    }
    for row in &identifier.params {
        if let Some(param) = PARAMS.get(*row) {
            if !is_allowed(identifier.name, param.0) {
                return Some(BaseErrorKind::UnknownParameter);
            }
            if !param.2 {
                return Some(BaseErrorKind::WrongType);
            }
        }
    }
    if has(identifier, "bs") && (has(identifier, "sf") || has(identifier, "key")) {
        return Some(BaseErrorKind::Conflict);
    }
    None
}

fn is_blank(byte: u8) -> bool {
    byte == b' ' || byte == b'\t'
}

// Returns the line without the spaces and tabs at its ends.
fn trimmed(alloc: Global, line: &[u8]) -> Result<Vec<u8>, AllocError> {
    let mut kept = Vec::new(alloc);
    let mut blanks = Vec::new(alloc);
    for byte in line {
        if !is_blank(*byte) {
            kept.extend_from_slice(blanks.as_slice())?;
            blanks.clear();
            kept.push(*byte)?;
        } else if !kept.is_empty() {
            blanks.push(*byte)?;
        }
    }
    Ok(kept)
}

fn symbol(value: u8) -> u8 {
    match value & 63 {
        v @ 0..=25 => v.wrapping_add(b'A'),
        v @ 26..=51 => v.wrapping_add(71),
        v @ 52..=61 => v.wrapping_sub(4),
        62 => b'+',
        _ => b'/',
    }
}

// Appends three bytes at most as four symbols.
fn push_group(out: &mut Vec<u8>, group: &[u8]) -> Result<(), AllocError> {
    let first = group.first().copied().unwrap_or(0);
    let second = group.get(1).copied();
    let third = group.get(2).copied();
    out.push(symbol(first >> 2))?;
    let middle = second.unwrap_or(0);
    out.push(symbol((first & 3) * 16 | middle >> 4))?;
    let last = third.unwrap_or(0);
    out.push(match second {
        Some(_) => symbol((middle & 15) * 4 | last >> 6),
        None => b'=',
    })?;
    out.push(match third {
        Some(_) => symbol(last),
        None => b'=',
    })?;
    Ok(())
}

fn push_bytes(out: &mut Vec<u8>, bytes: &[u8]) -> Result<(), AllocError> {
    out.push(b':')?;
    for group in bytes.chunks(3) {
        push_group(out, group)?;
    }
    out.push(b':')?;
    Ok(())
}

// Appends the lines of a name, as they are or as byte sequences, and returns their number.
fn push_lines(
    alloc: Global,
    lines: &[Line],
    name: usize,
    is_bytes: bool,
    out: &mut Vec<u8>,
) -> Result<usize, AllocError> {
    let mut count = 0usize;
    for line in lines {
        if line.name == name {
            if count > 0 {
                push(out, ", ")?;
            }
            count = count.saturating_add(1);
            let bytes = trimmed(alloc, line_bytes(*line))?;
            if is_bytes {
                push_bytes(out, bytes.as_slice())?;
            } else {
                out.extend_from_slice(bytes.as_slice())?;
            }
        }
    }
    Ok(count)
}

type Member = (&'static str, &'static str, &'static str);

// Replaces the member of this key, or appends it.
fn put_member(members: &mut Vec<Member>, member: Member) -> Result<(), AllocError> {
    for other in members.iter_mut() {
        if other.0 == member.0 {
            *other = member;
            return Ok(());
        }
    }
    members.push(member)?;
    Ok(())
}

// Returns the members of the dictionary.
fn members_of(alloc: Global, lines: &[Line]) -> Result<Vec<Member>, AllocError> {
    let mut members = Vec::new(alloc);
    for line in lines {
        if line.name == DICT {
            if let Some(row) = DICTS.get(line.row % 4) {
                for member in row.1 {
                    put_member(&mut members, *member)?;
                }
            }
        }
    }
    Ok(members)
}

fn push_dictionary(members: &[Member], out: &mut Vec<u8>) -> Result<(), AllocError> {
    let mut is_first = true;
    for member in members {
        if !is_first {
            push(out, ", ")?;
        }
        is_first = false;
        push(out, member.2)?;
    }
    Ok(())
}

// The members have the key `a`, and never `c`.
fn push_member(members: &[Member], key: &str, out: &mut Vec<u8>) -> Result<(), Stop> {
    for member in members {
        if member.0 == key {
            push(out, member.1)?;
            return Ok(());
        }
    }
    Err(Stop::Rule(BaseErrorKind::NoMember))
}

// The value of the field `dict` by `sf` or `key`, and the value of another field, which is no dictionary.
fn push_parsed(
    alloc: Global,
    lines: &[Line],
    identifier: &Identifier,
    count: usize,
    plain: &[u8],
    out: &mut Vec<u8>,
) -> Result<(), Stop> {
    if identifier.name != DICT {
        if !has(identifier, "key") && identifier.name != BROKEN {
            return Err(Stop::Rule(BaseErrorKind::UnknownType));
        }
        if count == 1 && plain.is_empty() {
            return Err(Stop::Rule(BaseErrorKind::NoMember));
        }
        return Err(Stop::Rule(BaseErrorKind::Unparsed));
    }
    let members = members_of(alloc, lines)?;
    if contains(identifier.params.as_slice(), 4) {
        return push_member(members.as_slice(), "a", out);
    }
    if contains(identifier.params.as_slice(), 5) {
        return push_member(members.as_slice(), "c", out);
    }
    push_dictionary(members.as_slice(), out)?;
    Ok(())
}

fn push_field(
    alloc: Global,
    lines: &[Line],
    identifier: &Identifier,
    out: &mut Vec<u8>,
) -> Result<(), Stop> {
    let mut text = Vec::new(alloc);
    let is_bytes = has(identifier, "bs");
    let count = push_lines(alloc, lines, identifier.name, is_bytes, &mut text)?;
    if count == 0 {
        return Err(Stop::Rule(BaseErrorKind::Absent));
    }
    if has(identifier, "sf") || has(identifier, "key") {
        return push_parsed(alloc, lines, identifier, count, text.as_slice(), out);
    }
    out.extend_from_slice(text.as_slice())?;
    Ok(())
}

fn push_row(rows: &[(&str, &str)], name: &str, out: &mut Vec<u8>) -> Result<(), Stop> {
    for row in rows {
        if row.0 == name {
            push(out, row.1)?;
            return Ok(());
        }
    }
    Err(Stop::Rule(BaseErrorKind::Absent))
}

fn push_derived(sample: &Sample, identifier: &Identifier, out: &mut Vec<u8>) -> Result<(), Stop> {
    let is_request = has(identifier, "req");
    if identifier.name == 8 {
        if is_request || !has(identifier, "name") {
            return Err(Stop::Rule(BaseErrorKind::Absent));
        }
        return push_row(QUERY, "q", out);
    }
    let row = if is_request {
        sample.request_derived
    } else {
        sample.derived
    };
    match DERIVED.get(row) {
        Some(rows) => push_row(rows, name_of(identifier), out),
        None => Err(Stop::Rule(BaseErrorKind::Absent)),
    }
}

fn push_component(
    alloc: Global,
    sample: &Sample,
    identifier: &Identifier,
    out: &mut Vec<u8>,
) -> Result<(), Stop> {
    if is_derived(identifier.name) {
        return push_derived(sample, identifier, out);
    }
    let lines = match (has(identifier, "req"), has(identifier, "tr")) {
        (false, false) => &sample.own,
        (false, true) => &sample.trailers,
        (true, false) => &sample.request,
        (true, true) => return Err(Stop::Rule(BaseErrorKind::Absent)),
    };
    push_field(alloc, lines.as_slice(), identifier, out)
}

fn check(value: &[u8]) -> Result<(), Stop> {
    let mut is_broken = false;
    for byte in value {
        if *byte >= 128 {
            return Err(Stop::Rule(BaseErrorKind::NotAscii));
        }
        is_broken = is_broken || *byte == b'\n' || *byte == b'\r';
    }
    if is_broken {
        return Err(Stop::Rule(BaseErrorKind::LineBreak));
    }
    Ok(())
}

/// Appends the value of the component of an identifier, or returns the rule that it breaks.
pub fn push_value(
    alloc: Global,
    sample: &Sample,
    identifier: &Identifier,
    out: &mut Vec<u8>,
) -> Result<(), Stop> {
    if identifier.name == TOKEN {
        return Err(Stop::Rule(BaseErrorKind::NotAString));
    }
    if identifier.name == 9 {
        return Err(Stop::Rule(BaseErrorKind::SignatureParams));
    }
    if let Some(kind) = fault_of(identifier) {
        return Err(Stop::Rule(kind));
    }
    let mut value = Vec::new(alloc);
    push_component(alloc, sample, identifier, &mut value)?;
    check(value.as_slice())?;
    out.extend_from_slice(value.as_slice())?;
    Ok(())
}

fn is_repeated(list: &[Identifier], index: usize, identifier: &Identifier) -> bool {
    for (place, other) in list.iter().enumerate() {
        if place < index && are_same(other, identifier) {
            return true;
        }
    }
    false
}

fn push_line(
    alloc: Global,
    sample: &Sample,
    index: usize,
    identifier: &Identifier,
    out: &mut Vec<u8>,
) -> Result<(), Stop> {
    if is_repeated(sample.list.as_slice(), index, identifier) {
        return Err(Stop::Rule(BaseErrorKind::Repeated));
    }
    push_identifier(identifier, out)?;
    push(out, ": ")?;
    push_value(alloc, sample, identifier, out)?;
    push(out, "\n")?;
    Ok(())
}

/// Appends the text of the inner list.
pub fn push_list(sample: &Sample, out: &mut Vec<u8>) -> Result<(), AllocError> {
    push(out, "(")?;
    let mut is_first = true;
    for identifier in &sample.list {
        if !is_first {
            push(out, " ")?;
        }
        is_first = false;
        push_identifier(identifier, out)?;
    }
    push(out, ");created=1;tag=\"t\"")
}

/// Returns the outcome for a sample.
pub fn outcome_of(alloc: Global, sample: &Sample) -> Result<Outcome, AllocError> {
    let mut out = Vec::new(alloc);
    for (index, identifier) in sample.list.iter().enumerate() {
        match push_line(alloc, sample, index, identifier, &mut out) {
            Ok(()) => {}
            Err(Stop::Rule(kind)) => return Ok(Outcome::Broken(kind, index)),
            Err(Stop::Memory) => return Err(AllocError),
        }
    }
    push(&mut out, "\"@signature-params\": ")?;
    push_list(sample, &mut out)?;
    Ok(Outcome::Base(out))
}
