//! The random seed of the program reaches the maps of each type of field. Keys that collide under one seed are slow to
//! parse under that seed, and fast under another one.

use crate::common::of_size;
use sfv::random_seed;
use sfv_random::keys::{colliding_keys, joined};
use sfv_tool_lib::run::{run, run_with_random_seed};
use std::io;
use std::random::RandomSource;
use std::rt::Clock;
use std::test::Fail;
use std::time::{Duration, Instant};

/// A source whose random bytes are all this one.
#[derive(Clone, Copy)]
struct Always(u8);

impl RandomSource for Always {
    fn fill_bytes(&self, buf: &mut [u8]) -> io::Result<()> {
        for byte in buf {
            *byte = self.0;
        }
        Ok(())
    }
}

/// Returns the least time of this many runs of the program with random bytes from this source, or under their seed. Fails
/// if a run fails.
fn time_of(
    rt: &HostRuntime,
    random: Always,
    is_seed_given: bool,
    (args, text): (&[String], &str),
    runs: u32,
) -> io::Result<Duration> {
    let alloc = rt.alloc();
    let mut least = Duration::MAX;
    for _ in 0..runs {
        let mut output = Vec::new(alloc);
        let mut input = text.as_bytes();
        let start = Instant::now(rt)?;
        let outcome = if is_seed_given {
            let seed = random_seed(|bytes| random.fill_bytes(bytes))?;
            run(alloc, seed, args, &mut input, &mut output)
        } else {
            run_with_random_seed(alloc, &random, args, &mut input, &mut output)
        };
        let time = start.elapsed(rt)?;
        if outcome.is_err() {
            return Err(io::Error::from(io::ErrorKind::InvalidData));
        }
        least = least.min(time);
    }
    Ok(least)
}

/// Fields of colliding keys: the arguments, the text before the keys, the separator, and whether a long text follows.
const FIELDS: &[(&str, &str, &str, bool)] = &[
    ("item 8941", "1;", ";", false),
    ("item 8941 8941", "1;", ";", true),
    ("item 8941 9651", "1;", ";", false),
    ("item 9651", "1;", ";", false),
    ("item 9651 8941", "1;", ";", false),
    ("item 9651 9651", "1;", ";", true),
    ("list 8941", "1;", ";", false),
    ("list 8941 8941", "(1 1);", ";", true),
    ("list 8941 9651", "1, (1;", ";", false),
    ("list 9651", "1;", ";", false),
    ("list 9651 8941", "(1 1);", ";", true),
    ("list 9651 9651", "1, 1;", ";", false),
    ("dict 8941", "", ",", false),
    ("dict 8941 8941", "a;", ";", true),
    ("dict 8941 9651", "", ",", false),
    ("dict 9651", "a=(1);", ";", false),
    ("dict 9651 8941", "", ",", true),
    ("dict 9651 9651", "a;", ";", false),
];

/// How often the times are compared, since other programs can disturb them.
const TRIES: u32 = 8;

#[test]
fn the_random_seed_is_that_of_all_maps(rt: HostRuntime) -> Result<(), Fail> {
    let alloc = rt.alloc();
    let keys = colliding_keys(alloc, random_seed(|bytes| Always(1).fill_bytes(bytes))?)?;
    let long = of_size(alloc, (";z=\"", "a", "", "\""), 100_000)?;
    for &(words, begin, separator, is_long) in FIELDS {
        let mut args = Vec::new(alloc);
        for word in words.split(' ') {
            args.push(String::from_str(alloc, word)?)?;
        }
        let mut text = joined(alloc, begin, separator, keys.as_slice())?;
        if is_long {
            text.push_str(long.as_str())?;
        }
        if begin.ends_with("(1;") {
            text.push(')')?;
        }
        let field = (args.as_slice(), text.as_str());
        for is_seed_given in [false, true] {
            let mut is_slower = false;
            for _ in 0..TRIES {
                is_slower = is_slower
                    || {
                        let slow = time_of(&rt, Always(1), is_seed_given, field, 3)?;
                        let fast = time_of(&rt, Always(2), is_seed_given, field, 7)?;
                        slow.as_nanos() / 2 > fast.as_nanos()
                    };
            }
            assert!(rt; is_slower);
        }
    }
    Ok(())
}
