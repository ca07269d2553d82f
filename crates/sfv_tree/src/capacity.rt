//! The memory that trees keep. Private to the library: `sfv` does not export it.

ghost use Rattle.std.specs.Prelude.{◌≡◌};
ghost use Rattle.indexmap.specs.IndexMap.{hasher_of};

use crate::parsed::Parameters;

// The number of members, or of members and items of an inner list, after which unused memory of parameters is released.
// Before, that memory is small, and the release takes longer than it saves.
const MANY: usize = 4000;

// Releases the unused memory of complete parameters. At its first entry, a map allocates room for nine.
#[inline(never)]
fn fit(params: &mut Parameters)
    ensures entries { params.new.entries ≡ params.old.entries }
    ensures seed { hasher_of params.new ≡ hasher_of params.old }
{
    params.shrink_to_fit();
}

/// Releases the unused memory of complete parameters after at least `MANY` other members or items.
#[inline(always)]
pub fn fit_after(count: usize, params: &mut Parameters)
    ensures entries { params.new.entries ≡ params.old.entries }
    ensures seed { hasher_of params.new ≡ hasher_of params.old }
{
    if count >= MANY && !params.is_empty() {
        fit(params);
    }
}
