//! Random fields, which are read, copied and written, and random bytes in them.

use crate::capacity::fits;
use crate::kept::grows;
use crate::owned::is_field_held;
use crate::rejected::rejects;
use crate::sizes::holds_for;
use crate::visitors::stops_at_each_event;
use sfv::{Dictionary, Error, FieldType, Item, List, Parser, Version};
use sfv_random::Random;
use sfv_random::rows::row;
use std::alloc::Global;
use std::test::Fail;

/// How many fields of each type and version are tried.
const FIELDS: u64 = 8_000;

/// The versions.
const VERSIONS: &[Version] = &[Version::Rfc8941, Version::Rfc9651];

/// Returns the text of a random field.
fn text_of(
    alloc: Global,
    field: &str,
    version: Version,
    random: &mut Random,
) -> Result<String, Fail> {
    let mut text = String::new(alloc);
    random.push_field(&mut text, field, version == Version::Rfc8941)?;
    Ok(text)
}

/// Fails unless random fields of this type are read, copied and written by each call.
fn fields_hold(alloc: Global, field: &str) -> Result<(), Fail> {
    for &version in VERSIONS {
        for seed in 0..FIELDS {
            let text = text_of(alloc, field, version, &mut Random::new(seed))?;
            holds_for(alloc, field, version, text.as_str())?;
        }
    }
    Ok(())
}

#[test]
fn random_items_are_read_and_written(rt: HostRuntime) -> Result<(), Fail> {
    fields_hold(rt.alloc(), "item")
}

#[test]
fn random_lists_are_read_and_written(rt: HostRuntime) -> Result<(), Fail> {
    fields_hold(rt.alloc(), "list")
}

#[test]
fn random_dictionaries_are_read_and_written(rt: HostRuntime) -> Result<(), Fail> {
    fields_hold(rt.alloc(), "dict")
}

#[test]
fn random_fields_of_many_members_are_read_and_written(rt: HostRuntime) -> Result<(), Fail> {
    let alloc = rt.alloc();
    for &field in &["list", "dict"] {
        for &version in VERSIONS {
            for &count in &[70, 300, 1_100, 5_000] {
                for seed in 0..8 {
                    let (mut random, mut text) = (Random::new(seed), String::new(alloc));
                    let is_older = version == Version::Rfc8941;
                    random.push_members(&mut text, field, is_older, count)?;
                    holds_for(alloc, field, version, text.as_str())?;
                }
            }
        }
    }
    Ok(())
}

#[test]
fn random_fields_grow_their_texts(rt: HostRuntime) -> Result<(), Fail> {
    let alloc = rt.alloc();
    for &field in &["item", "list", "dict"] {
        for seed in 0..FIELDS / 2 {
            let mut random = Random::new(seed);
            let text = text_of(alloc, field, Version::Rfc9651, &mut random)?;
            let full = random.length(9);
            if !text.is_empty() {
                grows(alloc, field, full, text.as_str())?;
            }
        }
    }
    Ok(())
}

/// Returns the number of members or, of an item, of parameters, or the error.
fn count_of(alloc: Global, parser: Parser<'_>, field: &str) -> Result<usize, Error> {
    match field {
        "item" => Ok(parser.parse::<Item>(alloc)?.params.len()),
        "list" => Ok(parser.parse::<List>(alloc)?.len()),
        _ => Ok(parser.parse::<Dictionary>(alloc)?.len()),
    }
}

#[test]
fn random_fields_have_little_unused_memory(rt: HostRuntime) -> Result<(), Fail> {
    let alloc = rt.alloc();
    for &field in &["item", "list", "dict"] {
        for &version in VERSIONS {
            for seed in 0..FIELDS {
                let text = text_of(alloc, field, version, &mut Random::new(seed))?;
                let parser = Parser::new(text.as_str().as_bytes()).with_version(version);
                let count = count_of(alloc, parser, field).unwrap_or(usize::MAX);
                fits(alloc, field, version, text.as_str(), (count, 0))?;
                let is_held = is_field_held(alloc, field, parser, false) == Some(true);
                row(field, version, text.as_str(), count, is_held)?;
            }
        }
    }
    Ok(())
}

/// Returns `true` if `parse` and a visitor accept the input, or both reject it with one error, a syntax error.
fn agree(alloc: Global, parser: Parser<'_>, field: &str) -> bool {
    match count_of(alloc, parser, field) {
        Err(error) => !error.is_out_of_memory() && rejects(alloc, parser, field, error),
        Ok(_) => true,
    }
}

/// Returns the text of these bytes for a message.
fn shown(bytes: &[u8]) -> &str {
    str::from_utf8(bytes).unwrap_or("(bytes that are no text)")
}

#[test]
fn a_visitor_may_fail_at_each_event_of_a_random_field(rt: HostRuntime) -> Result<(), Fail> {
    let alloc = rt.alloc();
    for &field in &["item", "list", "dict"] {
        for &version in VERSIONS {
            for seed in 0..FIELDS / 8 {
                let text = text_of(alloc, field, version, &mut Random::new(seed))?;
                stops_at_each_event(alloc, field, version, text.as_str())?;
            }
        }
    }
    Ok(())
}

#[test]
fn random_bytes_have_one_error_in_each_call(rt: HostRuntime) -> Result<(), Fail> {
    let alloc = rt.alloc();
    for &field in &["item", "list", "dict"] {
        for seed in 0..FIELDS {
            let mut random = Random::new(seed);
            let text = text_of(alloc, field, Version::Rfc9651, &mut random)?;
            let mut bytes = text.into_bytes();
            for _ in 0..8 {
                let place = random.below(bytes.len());
                if let Some(byte) = bytes.get_mut(place) {
                    *byte = random.byte();
                }
                for &version in VERSIONS {
                    let holds = agree(alloc, Parser::new(&bytes[..]).with_version(version), field);
                    row(field, version, shown(&bytes[..]), "one error", holds)?;
                }
            }
        }
    }
    Ok(())
}
