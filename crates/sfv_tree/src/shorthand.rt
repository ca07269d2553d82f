//! Short names for constructors.

ghost use Rattle.std.specs.Prelude.{◌≡◌, []};
ghost use Rattle.indexmap.specs.IndexMap.{hasher_of};
ghost use Rattle.sfv_tree.specs.HashSeeds.{library_seed};

use crate::hash_seed::HashSeed;
use crate::parsed::{Dictionary, Parameters};
use std::alloc::Global;

/// Returns an empty dictionary under the library's seed: short for `Dictionary::with_hasher`. Does not allocate.
pub fn dictionary(alloc: Global) -> Dictionary
    ensures empty { result.entries ≡ [] }
    ensures seed { hasher_of result ≡ library_seed }
{
    Dictionary::with_hasher(alloc, HashSeed::default())
}

/// Returns empty parameters under the library's seed: short for `Parameters::with_hasher`. Does not allocate.
pub fn parameters(alloc: Global) -> Parameters
    ensures empty { result.entries ≡ [] }
    ensures seed { hasher_of result ≡ library_seed }
{
    Parameters::with_hasher(alloc, HashSeed::default())
}
