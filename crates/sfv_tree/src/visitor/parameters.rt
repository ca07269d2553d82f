//! Insertion of a parsed parameter.

ghost use Rattle.std.specs.Prelude.{◌≡◌, OnOk, bytes_eq};
ghost use Rattle.indexmap.specs.IndexMap.{hasher_of, insert_entry};
ghost use Rattle.sfv_values.specs.BareItems.{input_value};
ghost use Rattle.sfv_values.specs.CheckedTexts.{text_of};
ghost use Rattle.sfv_tree.specs.Trees.{pairs_tree};

use crate::parsed::Parameters;
use sfv_base::error::OutOfMemory;
use sfv_values::bare::BareItemFromInput;
use sfv_values::key_ref::KeyRef;
use std::alloc::Global;

// Inserts a parameter. An existing key keeps its place and takes the new value; a new key goes last. The key is copied
// first, so any parameter may run out of memory.
#[inline(never)]
pub(crate) fn insert_parameter(
    alloc: Global,
    params: &mut Parameters,
    key: KeyRef<'_>,
    value: BareItemFromInput<'_>,
) -> Result<(), OutOfMemory>
    ensures seed { hasher_of params.new ≡ hasher_of params.old }
    ensures entries { OnOk result (pairs_tree params.new.entries
        ≡ insert_entry bytes_eq (pairs_tree params.old.entries) (text_of key.entry) (input_value value.entry)) }
{
    let key = key.to_owned(alloc)?;
    let value = value.try_into_owned(alloc)?;
    params.insert(key, value)?;
    Ok(())
}
