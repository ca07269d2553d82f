//! Keys that collide in a map under one hash seed.

use sfv::{HashSeed, KeyRef};
use std::alloc::Global;
use std::hash::BuildHasher;
use std::test::Fail;

/// The number of keys. Under their seed, a field of them takes several times as long as under another one.
const COUNT: usize = 570;

/// The bits of a hash that determine the start of the search in a map of `COUNT` keys.
const MASK: u64 = 0xff00_0020;

/// Returns `COUNT` keys of at most eight bytes that begin their search at one place in a map under this seed.
pub fn colliding_keys(alloc: Global, seed: HashSeed) -> Result<Vec<String>, Fail> {
    let mut wanted = None;
    let mut keys = Vec::new(alloc);
    for number in 0..10_000_000u32 {
        if keys.len() == COUNT {
            break;
        }
        let name = format!(in alloc; "k{number}")?;
        let Ok(key) = KeyRef::from_str(name.as_str()) else {
            continue;
        };
        let hash = seed.hash_one(key);
        let place = (hash ^ (hash >> 32)) & MASK;
        if *wanted.get_or_insert(place) == place {
            keys.push(name)?;
        }
    }
    Ok(keys)
}

/// Returns the keys with a separator between neighbours, after this text.
pub fn joined(
    alloc: Global,
    begin: &str,
    separator: &str,
    keys: &[String],
) -> Result<String, Fail> {
    let mut text = String::from_str(alloc, begin)?;
    for (number, key) in keys.iter().enumerate() {
        if number > 0 {
            text.push_str(separator)?;
        }
        text.push_str(key.as_str())?;
    }
    Ok(text)
}
