//! Readers of the items of an inner list.

ghost use Rattle.std.specs.Prelude.{⊤, List, [], OnOk, OnErr};
ghost use Rattle.sfv_spec.specs.Values.{RawItem};
ghost use Rattle.sfv_values.specs.CheckedTexts.{text_of};
ghost use Rattle.sfv_values.specs.BareItems.{input_value};
ghost use Rattle.sfv_readers.specs.Words.{AddsItem, AddsItemParameter};

use sfv_base::error::OutOfMemory;
use sfv_values::bare::BareItemFromInput;
use sfv_values::key_ref::KeyRef;
use std::alloc::Global;

/// A reader that receives the items of an inner list, one at a time.
pub trait InnerListReader<'de>: Drop {
    /// `reads reader items`: `reader` is the state after these items. Their parameters have no repeated key.
    ghost reads: { Self → List RawItem → Type 0 };

    /// `item` or `parameter` may run out of memory. Default: they may.
    ghost may_fail: { Type 0 } = { ⊤ };

    /// Returns the reader before any item.
    fn new(alloc: Global) -> Self
        ensures { reads result [] };

    /// Receives the bare item of the next item.
    ///
    /// # Errors
    ///
    /// Returns `OutOfMemory` if memory runs out. Parsing then ends.
    fn item(&mut self, item: BareItemFromInput<'de>) -> Result<(), OutOfMemory>
        ensures read { OnOk result (AddsItem reads self.old self.new (input_value item.entry)) }
        ensures memory { OnErr result may_fail };

    /// Receives a parameter of the last item. It replaces an earlier one with the same key.
    ///
    /// # Errors
    ///
    /// Returns `OutOfMemory` if memory runs out. Parsing then ends.
    fn parameter(
        &mut self,
        key: KeyRef<'de>,
        value: BareItemFromInput<'de>,
    ) -> Result<(), OutOfMemory>
        ensures read { OnOk result
            (AddsItemParameter reads self.old self.new (text_of key.entry) (input_value value.entry)) }
        ensures memory { OnErr result may_fail };
}

/// A reader that ignores the items of an inner list.
#[derive(Clone, Copy, Debug)]
pub struct IgnoredItems;

impl<'de> InnerListReader<'de> for IgnoredItems {
    ghost reads = { λ _ _. ⊤ };

    ghost may_fail = { ⊥ };

    fn new(_alloc: Global) -> IgnoredItems {
        IgnoredItems
    }

    fn item(&mut self, _item: BareItemFromInput<'de>) -> Result<(), OutOfMemory> {
        Ok(())
    }

    fn parameter(
        &mut self,
        _key: KeyRef<'de>,
        _value: BareItemFromInput<'de>,
    ) -> Result<(), OutOfMemory> {
        Ok(())
    }
}
