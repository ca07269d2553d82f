//! Keys that collide in a map under the library's seed.

use sfv::{Dictionary, HashSeed, KeyRef, Parser, random_seed};
use std::alloc::{AllocError, Global};
use std::hash::BuildHasher;
use std::io;
use std::random::RandomSource;
use std::rt::Clock;
use std::time::{Duration, Instant};

/// The number of keys of six letters.
const KEYS: u64 = 308_915_776;

/// Returns the key of six letters with this number, in alphabetical order.
pub fn letters(number: u64) -> [u8; 6] {
    let mut left = number;
    let mut letters = [b'a'; 6];
    for letter in letters.iter_mut().rev() {
        *letter = b'a' + (left % 26) as u8;
        left /= 26;
    }
    letters
}

/// Returns where a map under the library's seed begins its search for a key: the bits of `mask`.
pub fn place(key: KeyRef<'_>, mask: u64) -> u64 {
    let hash = HashSeed::default().hash_one(key);
    (hash ^ (hash >> 32)) & mask
}

/// Returns the bits of a hash that determine the start of the search in a map of this many keys.
///
/// They are the tag (the highest byte of 32 bits) and the first group, up to a stretch of 32 groups. The map has a
/// group for nine keys. It searches group by group, past all earlier keys.
fn place_mask(count: u64) -> u64 {
    let groups = (count / 9 + 1).next_power_of_two();
    0xff00_0000 | (groups - 1) & !31
}

/// Appends a member with this key and the value true to the text of a dictionary.
fn push_member(text: &mut String, key: KeyRef<'_>) -> Result<(), AllocError> {
    if !text.is_empty() {
        text.push(',')?;
    }
    text.push_str(key.as_str())?;
    Ok(())
}

/// Returns the text of a dictionary of the first `count` keys, which collide no more than any others.
fn ordinary_field(alloc: Global, count: u64) -> Result<String, AllocError> {
    let mut text = String::new(alloc);
    for number in 0..count.min(KEYS) {
        let letters = letters(number);
        if let Ok(key) = KeyRef::from_bytes(&letters) {
            push_member(&mut text, key)?;
        }
    }
    Ok(text)
}

/// Returns the text of a dictionary of `count` keys that collide in a map under the library's seed.
fn colliding_field(alloc: Global, count: u64) -> Result<String, AllocError> {
    let mask = place_mask(count);
    let mut wanted = None;
    let mut text = String::new(alloc);
    let mut left = count;
    for number in 0..KEYS {
        if left == 0 {
            break;
        }
        let letters = letters(number);
        let Ok(key) = KeyRef::from_bytes(&letters) else {
            continue;
        };
        let place = place(key, mask);
        if *wanted.get_or_insert(place) == place {
            push_member(&mut text, key)?;
            left -= 1;
        }
    }
    Ok(text)
}

/// Returns the number of members of the field, and the time to parse it.
fn parse_timed(
    rt: &impl Clock,
    alloc: Global,
    text: &str,
    seed: HashSeed,
) -> io::Result<(usize, Duration)> {
    let start = Instant::now(rt)?;
    let parsed = Parser::new(text.as_bytes())
        .with_hash_seed(seed)
        .parse::<Dictionary>(alloc);
    let time = start.elapsed(rt)?;
    Ok((parsed.map_or(0, |dictionary| dictionary.len()), time))
}

/// Prints how many members a dictionary of `count` colliding keys has, and the microseconds to parse it, under the
/// library's seed and under a random one. For comparison, prints the same for ordinary keys.
pub fn print_keys(rt: &HostRuntime, count: u64) -> io::Result<()> {
    let alloc = rt.alloc();
    let colliding = colliding_field(alloc, count)?;
    let ordinary = ordinary_field(alloc, count)?;
    let random = random_seed(|bytes| rt.fill_bytes(bytes))?;
    let rows = [
        (
            "colliding keys under the library's seed",
            &colliding,
            HashSeed::default(),
        ),
        ("colliding keys under a random seed", &colliding, random),
        ("ordinary keys under a random seed", &ordinary, random),
    ];
    for (name, text, seed) in rows {
        let (members, time) = parse_timed(rt, alloc, text.as_str(), seed)?;
        println!(rt; "{members} {name}: {} bytes", text.len())?;
        eprintln!(rt; "{} microseconds: {name}", time.as_micros())?;
    }
    Ok(())
}
