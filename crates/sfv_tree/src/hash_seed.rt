//! The seed of the maps' hash.

ghost use Rattle.std.specs.Prelude.{◌≡◌, Some, Ok, Err, IfOk, IfErr, codes, replicate, List, ℕ};
ghost use Rattle.std.specs.Fn.{FnOnceReturnsAtMut};
ghost use Rattle.sfv_tree.specs.HashSeeds.{library_seed, seed_of, IsSeedFrom};

use std::fmt;
use std::hash::{BuildHasher, FoldHasher, Hasher};

/// The seed of the hash maps in dictionaries and parameters.
///
/// Against a known seed, an attacker can choose colliding keys and make a map slow. A program that parses untrusted
/// fields should choose one random seed at start, and keep it secret. `Default` is the library's seed. It is public.
///
/// The seed affects neither the order of the keys nor any text. Maps with different seeds compare as others.
// With the seed, an attacker finds a colliding key in about 2^14 tries, and parsing then takes quadratic time.
#[derive(Clone, Copy)]
pub struct HashSeed {
    // The state of the hasher before a key: after the number, or initial for the library's seed.
    initial: FoldHasher,
}

impl HashSeed {
    /// Creates the seed of this number.
    pub fn new(number: u64) -> HashSeed
        ensures { result ≡ seed_of number }
    {
        let mut initial = FoldHasher::default();
        initial.write_u64(number);
        HashSeed { initial }
    }
}

impl Default for HashSeed {
    ghost is_default = { λ seed. seed ≡ library_seed };

    fn default() -> HashSeed {
        HashSeed {
            initial: FoldHasher::default(),
        }
    }
}

/// Prints the same for every seed.
impl fmt::Debug for HashSeed {
    ghost debug_output = { λ _. Some (codes "HashSeed { .. }") };

    fn fmt<W: fmt::Write>(&self, f: &mut fmt::Formatter<W>) -> fmt::Result {
        f.write_str("HashSeed { .. }")
    }
}

impl BuildHasher for HashSeed {
    type Hasher = FoldHasher;

    ghost build_hasher = { λ seed. seed.initial };

    fn build_hasher(&self) -> FoldHasher {
        self.initial
    }
}

/// Returns the seed of the eight bytes that `fill` writes, as a little-endian number.
///
/// A program that parses untrusted fields creates one seed at start, and passes it to every parser:
/// `random_seed(|bytes| rt.fill_bytes(bytes))`.
///
/// # Errors
///
/// Returns the error of `fill`.
pub fn random_seed<E, F: FnOnce(&mut [u8; 8]) -> Result<(), E>>(fill: F) -> Result<HashSeed, E>
    requires { F.IsAlwaysCallable fill }
    ensures seed { IfOk result (IsSeedFrom (FnOnceReturnsAtMut F.FnOnce fill (replicate 8 0) (Ok tt))) }
    ensures failed { IfErr result (λ e. (bytes : List ℕ) × FnOnceReturnsAtMut F.FnOnce fill (replicate 8 0) (Err e) bytes) }
{
    let mut bytes = [0; 8];
    fill(&mut bytes)?;
    Ok(HashSeed::new(u64::from_le_bytes(bytes)))
}
