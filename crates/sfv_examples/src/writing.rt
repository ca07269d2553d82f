//! Serialization of an item part by part, and parsing of its text.

ghost use Rattle.std.specs.Prelude.{◌≡◌, ◌++◌, IfOk, IfErr, OnOk, OnErr, string_bytes};
ghost use Rattle.sfv.specs.Canonical.{bare_text, item_text};
ghost use Rattle.sfv.specs.BareItems.{ref_value};
ghost use Rattle.sfv.specs.Errors.{out_of_memory};
ghost use Rattle.sfv.specs.Trees.{item_tree};
ghost use Rattle.sfv.specs.Written.{LacksRoom};
ghost use Rattle.sfv.specs.Types.serialize_errors as errors;
ghost use Rattle.sfv_examples.specs.Uses.{one_item, Adds, AddsAtMost, IsReadAsItself};

use sfv::{Error, Item, ItemSerializer, KeyRef, OutOfMemory, Parser, RefBareItem, SerializeError};
use std::alloc::Global;

/// Appends an item with one parameter to `text`.
///
/// # Errors
///
/// Returns `SerializeError::OutOfMemory` if memory runs out. Then nothing was appended, or only the bare item.
pub fn write_item(
    text: &mut String,
    value: RefBareItem<'_>,
    key: KeyRef<'_>,
    param: RefBareItem<'_>,
) -> Result<(), SerializeError>
    ensures written { OnOk result (Adds text.old text.new (item_text (one_item value.entry key.entry param.entry))) }
    ensures read_back { OnOk result (IsReadAsItself (one_item value.entry key.entry param.entry)) }
    ensures out_of_memory { OnErr result (AddsAtMost text.old text.new (bare_text (ref_value value.entry))) }
    ensures room { OnErr result (LacksRoom text.old (item_text (one_item value.entry key.entry param.entry))) }
    ensures failed { IfErr result (λ error. error ≡ errors.OutOfMemory) }
{
    let params = ItemSerializer::with_buffer(text).bare_item(value)?;
    params.parameter(key, param)?.finish();
    Ok(())
}

/// Appends an item with a parameter of the same value. A `RefBareItem` is `Copy`.
///
/// # Errors
///
/// Returns the errors of `write_item`, and leaves the same text.
pub fn write_twice(
    text: &mut String,
    value: RefBareItem<'_>,
    key: KeyRef<'_>,
) -> Result<(), SerializeError>
    ensures written { OnOk result (Adds text.old text.new (item_text (one_item value.entry key.entry value.entry))) }
    ensures out_of_memory { OnErr result (AddsAtMost text.old text.new (bare_text (ref_value value.entry))) }
    ensures room { OnErr result (LacksRoom text.old (item_text (one_item value.entry key.entry value.entry))) }
    ensures failed { IfErr result (λ error. error ≡ errors.OutOfMemory) }
{
    write_item(text, value, key, value)
}

/// Writes an item with one parameter, and parses the text to the same item.
///
/// # Errors
///
/// Returns the kind `OutOfMemory` if memory runs out. There is no other error.
pub fn written_and_read(
    alloc: Global,
    value: RefBareItem<'_>,
    key: KeyRef<'_>,
    param: RefBareItem<'_>,
) -> Result<Item, Error>
    ensures read { IfOk result (λ item. item_tree item ≡ one_item value.entry key.entry param.entry) }
    ensures out_of_memory { IfErr result (λ error. error ≡ out_of_memory) }
{
    let mut text = String::new(alloc);
    match write_item(&mut text, value, key, param) {
        Ok(()) => Parser::new(text.as_bytes()).parse::<Item>(alloc),
        Err(SerializeError::OutOfMemory) => Err(Error::from(OutOfMemory)),
        // RFC 9651 has every value.
        Err(SerializeError::Unsupported(_)) => unreachable!(),
    }
}

/// Appends an item to `text` part by part: its canonical text.
///
/// # Errors
///
/// Returns `SerializeError::OutOfMemory` if memory runs out.
pub fn write_parts(text: &mut String, item: &Item) -> Result<(), SerializeError>
    ensures text { OnOk result (string_bytes text.new ≡ string_bytes text.old ++ item_text (item_tree item.now)) }
    ensures room { OnErr result (LacksRoom text.old (item_text (item_tree item.now))) }
    ensures failed { IfErr result (λ error. error ≡ errors.OutOfMemory) }
{
    let value = item.bare_item.as_ref_item();
    let params = ItemSerializer::with_buffer(text).bare_item(value)?;
    params.parameters(item.params.iter())?.finish();
    Ok(())
}
