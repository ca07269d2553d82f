//! Checks of values of any type.

use sfv::{BareItem, Parser};
use std::alloc::Global;
use std::fmt::{Debug, Display};
use std::hash::{DefaultHasher, Hash, Hasher};

/// Returns `true` if the text is `wanted`.
pub fn is_text(text: &str, wanted: &str) -> bool {
    text == wanted
}

/// Returns `true` if there is a text, and it is `wanted`.
pub fn has_text(text: Option<String>, wanted: &str) -> bool {
    match text {
        Some(text) => text.as_str() == wanted,
        None => false,
    }
}

/// Returns `true` if `Display` prints this text.
pub fn prints<T: Display>(alloc: Global, value: &T, text: &str) -> bool {
    let Ok(printed) = format!(in alloc;
        "{value}\n{value:>40}\n{value:<40}\n{value:+}\n{value:#}\n{value:.1}\n{value:040}"
    ) else {
        return false;
    };
    let mut holds = true;
    for part in printed.as_str().split('\n') {
        holds &= part == text;
    }
    holds
}

/// Returns `true` if `Debug` prints this text.
pub fn is_shown<T: Debug>(alloc: Global, value: &T, text: &str) -> bool {
    match format!(in alloc; "{value:?}") {
        Ok(printed) => printed.as_str() == text,
        Err(_) => false,
    }
}

/// Returns the hash of a value.
pub fn hash_of<T: Hash>(value: &T) -> u64 {
    let mut hasher = DefaultHasher::new();
    value.hash(&mut hasher);
    hasher.finish()
}

/// A bare item of each kind.
pub const VALUES: &[&str] = &[
    "-1",
    "1.5",
    "\"a\\\"b\"",
    "tok",
    ":aGk=:",
    "?0",
    "@12",
    "%\"f%c3%bcr\"",
];

/// Returns the bare item that the input parses to.
pub fn value(alloc: Global, input: &str) -> Option<BareItem> {
    Parser::new(input.as_bytes())
        .parse_item::<BareItem>(alloc)
        .ok()
}

/// Returns a number that is at most ten less or more than the product of a digit and a power of ten. Each power has the
/// next 189 places.
pub fn near_power(place: usize) -> u64 {
    let mut power = 1u64;
    for _ in 0..place / 189 {
        power = power.saturating_mul(10);
    }
    let digit = (place / 21 % 9 + 1) as u64;
    let more = (place % 21) as u64;
    power
        .saturating_mul(digit)
        .saturating_add(more)
        .saturating_sub(10)
}
