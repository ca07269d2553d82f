//! Large fields.

use crate::fields::Field;
use crate::keys::{letters, place};
use sfv::{FieldKind, KeyRef};
use sfv_random::Random;
use std::alloc::{AllocError, Global};

/// The number of kinds of large fields.
pub const KINDS: u64 = 15;

/// The length at which a field is large enough.
const LENGTH: usize = 200_000;

// Returns the beginning of the text, the part that is repeated, and the end.
fn list_parts(kind: u64) -> (&'static str, &'static str, &'static str) {
    match kind {
        0 => ("a&", ", t####;q=0.#", ""),
        1 => ("(a &)", ", (^^^^#;x ## \"^^^\");y=#", ""),
        2 => ("&", ", ######", ""),
        3 => ("&.5", ", ####.###", ""),
        _ => ("(t&", " ^^^^##", ")"),
    }
}

// The same, for items.
fn item_parts(kind: u64) -> (&'static str, &'static str, &'static str) {
    match kind {
        5 => ("\"&", "^^^^^^^\\\"", "\""),
        6 => ("\"&", "\\\\", "\""),
        7 => ("%\"&", "^^^^^^^^%c3%bc", "\""),
        8 => ("%\"&", "%c3%bc", "\""),
        9 => (":&", "$$$$", ":"),
        10 => ("1;a=&", ";^^^^^^#=##", ""),
        _ => ("\"&", "^^^^^^^^^^^^^^^^", "\""),
    }
}

// The same, for dictionaries.
fn dictionary_parts(kind: u64) -> (&'static str, &'static str, &'static str) {
    match kind {
        12 => ("a=&", ", ^^^^^^#=##", ""),
        _ => ("a=&", ", a=####", ""),
    }
}

// Appends members whose keys begin their search at one place in a map under the library's seed.
fn push_colliding(random: &mut Random, field: &mut Field) -> Result<(), AllocError> {
    let start = random.next();
    let mut wanted = None;
    for number in 0..400_000u64 {
        let letters = letters(start.wrapping_add(number));
        let Ok(key) = KeyRef::from_bytes(&letters) else {
            continue;
        };
        let place = place(key, 0xff00_0060);
        if *wanted.get_or_insert(place) == place {
            field.text.extend_from_slice(b", ")?;
            field.text.extend_from_slice(&letters)?;
        }
    }
    Ok(())
}

/// Returns the large field of a kind.
pub fn large_field(alloc: Global, random: &mut Random, kind: u64) -> Result<Field, AllocError> {
    let (field_kind, (open, part, close)) = match kind {
        0..=4 => (FieldKind::List, list_parts(kind)),
        5..=11 => (FieldKind::Item, item_parts(kind)),
        _ => (FieldKind::Dictionary, dictionary_parts(kind)),
    };
    let mut field = Field::new(alloc, field_kind);
    field.push(random, open, 1)?;
    if kind == 14 {
        push_colliding(random, &mut field)?;
        return Ok(field);
    }
    for _ in 0..LENGTH {
        if field.text.len() >= LENGTH {
            break;
        }
        field.push(random, part, 1)?;
    }
    field.push(random, close, 1)?;
    Ok(field)
}
