//! Random fields, which are parsed and written again, and long ones.

use crate::tests::common::{
    DICTIONARY, GUARD, GUARD_BYTE, ITEM, LIST, NEWER, OLDER, holds_text, is_size, is_untouched,
};
use crate::{sfv_c_canonical, sfv_c_check, sfv_c_spans, sfv_c_write_spans};
use sfv::{Dictionary, FieldType, Item, List, Parser, Version};
use sfv_random::Random;
use sfv_random::leaks::{Repeated, keeps_memory};
use std::alloc::{AllocError, Global};
use std::test::Fail;

/// The types of fields, with their names.
const TYPES: &[(u32, &str)] = &[(ITEM, "item"), (LIST, "list"), (DICTIONARY, "dict")];

/// How many fields of each type and version are tried.
const FIELDS: u64 = 2_000;

/// Returns `true` if the field is written again from its rows, and by the canonical call. A buffer that is longer than the
/// text suffices, and one that lacks a byte does not.
fn is_kept(alloc: Global, field: u32, version: u32, text: &[u8]) -> Result<bool, AllocError> {
    let needed = sfv_c_spans(alloc, field, version, text, &mut [], &mut []);
    let mut room = Vec::from_elem(alloc, GUARD_BYTE, needed.length)?;
    let mut rows = Vec::from_elem(alloc, GUARD, needed.events)?;
    let answer = sfv_c_spans(alloc, field, version, text, &mut rows, &mut room);
    let mut holds = is_size(answer, 0, needed.length, needed.events)
        & is_size(sfv_c_check(alloc, field, version, text), 0, 0, 0);
    if let Some(last) = text.len().checked_sub(1) {
        let mut short = Vec::from_elem(alloc, GUARD_BYTE, last)?;
        let answer = sfv_c_write_spans(alloc, field, version, &rows, &mut short);
        holds &= is_size(answer, 2, text.len(), 0);
        let answer = sfv_c_canonical(alloc, field, version, version, 7, text, &mut short);
        holds &= is_size(answer, 2, text.len(), 0) & is_untouched(&short);
    }
    let status = u32::from(text.is_empty());
    let mut out = Vec::from_elem(alloc, GUARD_BYTE, text.len().saturating_add(3))?;
    let answer = sfv_c_write_spans(alloc, field, version, &rows, &mut out);
    holds &= is_size(answer, status, text.len(), 0) & holds_text(&out, text);
    let mut out = Vec::from_elem(alloc, GUARD_BYTE, text.len().saturating_add(3))?;
    let answer = sfv_c_canonical(alloc, field, version, version, 7, text, &mut out);
    Ok(holds & is_size(answer, status, text.len(), 0) & holds_text(&out, text))
}

#[test]
fn random_fields_are_kept(rt: HostRuntime) -> Result<(), Fail> {
    let alloc = rt.alloc();
    let mut holds = true;
    for &(field, name) in TYPES {
        for version in [OLDER, NEWER] {
            for seed in 0..FIELDS {
                let mut text = String::new(alloc);
                Random::new(seed).push_field(&mut text, name, version == OLDER)?;
                holds &= is_kept(alloc, field, version, text.as_bytes())?;
            }
        }
    }
    assert!(rt; holds);
    Ok(())
}

/// Writes a field for the older version into buffers of several sizes. Returns `true` if the text is in each buffer that is
/// long enough. If the older version lacks a value, each call has to say so.
fn is_written_for_older(
    alloc: Global,
    field: u32,
    text: &[u8],
    is_older: bool,
) -> Result<bool, AllocError> {
    let needed = sfv_c_spans(alloc, field, NEWER, text, &mut [], &mut []);
    let mut room = Vec::from_elem(alloc, GUARD_BYTE, needed.length)?;
    let mut rows = Vec::from_elem(alloc, GUARD, needed.events)?;
    sfv_c_spans(alloc, field, NEWER, text, &mut rows, &mut room);
    let mut holds = true;
    for size in [0, 64, text.len()] {
        let mut out = Vec::from_elem(alloc, GUARD_BYTE, size)?;
        let status = if !is_older {
            6
        } else if text.is_empty() {
            1
        } else {
            2 * u32::from(size < text.len())
        };
        let answer = sfv_c_write_spans(alloc, field, OLDER, &rows, &mut out);
        holds &= answer.status == status && (status == 0 || is_untouched(&out));
        let mut out = Vec::from_elem(alloc, GUARD_BYTE, size)?;
        let answer = sfv_c_canonical(alloc, field, NEWER, OLDER, 7, text, &mut out);
        holds &= answer.status == status && (status == 0 || is_untouched(&out));
    }
    Ok(holds)
}

/// Returns `true` if the older version has the values of the field.
fn is_older(alloc: Global, field: u32, text: &[u8]) -> bool {
    let parser = Parser::new(text);
    let written = match field {
        ITEM => parser
            .parse::<Item>(alloc)
            .map(|item| item.serialize_for(alloc, Version::Rfc8941).is_ok()),
        LIST => parser
            .parse::<List>(alloc)
            .map(|list| list.serialize_for(alloc, Version::Rfc8941).is_ok()),
        _ => parser
            .parse::<Dictionary>(alloc)
            .map(|dict| dict.serialize_for(alloc, Version::Rfc8941).is_ok()),
    };
    matches!(written, Ok(true))
}

#[test]
fn random_fields_are_written_for_the_older_version_or_not(rt: HostRuntime) -> Result<(), Fail> {
    let alloc = rt.alloc();
    let mut holds = true;
    for &(field, name) in TYPES {
        for seed in 0..FIELDS {
            let (mut random, mut text) = (Random::new(seed), String::new(alloc));
            random.push_field(&mut text, name, seed % 4 == 0)?;
            let input = text.as_bytes();
            holds &= is_written_for_older(alloc, field, input, is_older(alloc, field, input))?;
        }
        for count in [100, 1_000] {
            let (mut random, mut text) = (Random::new(3), String::new(alloc));
            random.push_members(&mut text, name, true, count)?;
            if field == LIST {
                text.push_str(", @1")?;
            } else if field == DICTIONARY {
                text.push_str(", zz=@1")?;
            } else {
                text.push_str(";zz=@1")?;
            }
            holds &= is_written_for_older(alloc, field, text.as_bytes(), false)?;
        }
    }
    assert!(rt; holds);
    Ok(())
}

#[test]
fn random_fields_of_many_members_are_kept(rt: HostRuntime) -> Result<(), Fail> {
    let alloc = rt.alloc();
    let mut holds = true;
    for &(field, name) in TYPES {
        for version in [OLDER, NEWER] {
            for count in [100, 1_000, 30_000] {
                let mut text = String::new(alloc);
                Random::new(5).push_members(&mut text, name, version == OLDER, count)?;
                holds &= is_kept(alloc, field, version, text.as_bytes())?;
            }
        }
    }
    assert!(rt; holds);
    Ok(())
}

/// Items with one long part, of each kind of value: a text before it, the part, and a text after it.
#[rattlefmt::skip]
const LONG: &[(&str, &str, &str)] = &[
    ("", "a", ""),
    ("\"", "a", "\""),
    ("\"", "\\\"", "\""),
    (":", "aGkh", ":"),
    ("%\"", "%c3%bc", "\""),
    ("1;", "a", ""),
    ("1;a=\"", "b", "\";c=1.5;d=:aGk=:;e=?0;f=@1"),
    ("1;a=:", "aGkh", ":;c=\"\\\\\";d=%\"a\";e;f=a;g=-1"),
];

#[test]
fn long_parts_are_kept(rt: HostRuntime) -> Result<(), Fail> {
    let alloc = rt.alloc();
    let mut holds = true;
    for &(front, part, end) in LONG {
        for count in [100, 1_100, 6_000, 70_000, 300_000] {
            let mut text = String::from_str(alloc, front)?;
            for _ in 0..count {
                text.push_str(part)?;
            }
            text.push_str(end)?;
            holds &= is_kept(alloc, ITEM, NEWER, text.as_bytes())?;
        }
    }
    assert!(rt; holds);
    Ok(())
}

/// A field that is parsed and written again.
#[derive(Clone, Copy)]
struct Kept<'a> {
    field: u32,
    text: &'a [u8],
}

impl Repeated for Kept<'_> {
    fn repeat(&self, alloc: Global) -> bool {
        matches!(is_kept(alloc, self.field, NEWER, self.text), Ok(true))
    }
}

#[test]
fn no_call_loses_memory(rt: HostRuntime) -> Result<(), Fail> {
    let mut holds = true;
    for &(field, name) in TYPES {
        for count in [2, 30] {
            let mut text = String::new(rt.alloc());
            Random::new(9).push_members(&mut text, name, false, count)?;
            holds &= keeps_memory(
                &rt,
                &Kept {
                    field,
                    text: text.as_bytes(),
                },
            )?;
        }
    }
    assert!(rt; holds);
    Ok(())
}
