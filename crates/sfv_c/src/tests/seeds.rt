//! The seed of a canonical text reaches the maps of each type of field. Keys that collide under one seed are slow under that
//! seed, and fast under others.

use crate::sfv_c_canonical;
use crate::tests::common::{DICTIONARY, ITEM, LIST, NEWER, OLDER};
use sfv::HashSeed;
use sfv_random::keys::{colliding_keys, joined};
use std::io;
use std::rt::Clock;
use std::test::Fail;
use std::time::{Duration, Instant};

/// A seed under which the keys collide.
const SEED: u64 = 0x0123_4567_89ab_cdef;

/// Seeds that differ from it in one bit.
const OTHERS: &[u64] = &[
    SEED ^ 1,
    SEED ^ (1 << 31),
    SEED ^ (1 << 32),
    SEED ^ (1 << 63),
];

/// Returns the least time of three calls with this seed. Fails if a call does.
fn time_of(
    rt: &HostRuntime,
    field: u32,
    version: u32,
    seed: u64,
    text: &str,
) -> io::Result<Duration> {
    let mut least = Duration::MAX;
    for _ in 0..3 {
        let mut out = [0; 8_000];
        let input = text.as_bytes();
        let start = Instant::now(rt)?;
        let answer = sfv_c_canonical(rt.alloc(), field, version, version, seed, input, &mut out);
        let time = start.elapsed(rt)?;
        if answer.status != 0 {
            return Err(io::Error::from(io::ErrorKind::InvalidData));
        }
        least = least.min(time);
    }
    Ok(least)
}

/// Fields of colliding keys: the type, the text before the keys, and the separator.
const FIELDS: &[(u32, &str, &str)] = &[
    (ITEM, "1;", ";"),
    (LIST, "1;", ";"),
    (LIST, "1, (1 1);", ";"),
    (DICTIONARY, "", ","),
    (DICTIONARY, "a;", ";"),
];

/// How often the times are compared, since other programs can disturb them.
const TRIES: u32 = 8;

#[test]
fn the_seed_is_that_of_all_maps(rt: HostRuntime) -> Result<(), Fail> {
    let keys = colliding_keys(rt.alloc(), HashSeed::new(SEED))?;
    for &(field, begin, separator) in FIELDS {
        let text = joined(rt.alloc(), begin, separator, keys.as_slice())?;
        for version in [OLDER, NEWER] {
            for &other in OTHERS {
                let mut is_slower = false;
                for _ in 0..TRIES {
                    is_slower = is_slower
                        || {
                            let slow = time_of(&rt, field, version, SEED, text.as_str())?;
                            let fast = time_of(&rt, field, version, other, text.as_str())?;
                            slow.as_nanos() / 2 > fast.as_nanos()
                        };
                }
                assert!(rt; is_slower);
            }
        }
    }
    Ok(())
}
