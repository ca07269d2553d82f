//! Type invariants of keys and bare items, for the prover. These functions compile to nothing.

ghost use Rattle.std.specs.Prelude.{IsTrue};
ghost use Rattle.sfv_spec.specs.Classes.{is_key};
ghost use Rattle.sfv_spec.specs.Values.{IsBareValue};
ghost use Rattle.sfv_values.specs.BareItems.{ref_value};
ghost use Rattle.sfv_values.specs.CheckedTexts.{text_of};

use sfv_values::bare::{GenericBareItem, RefBareItem, with_bytes_invariant};
use sfv_values::key_ref::KeyRef;

/// Makes the type invariant of a bare item known to the prover: its content is in its range or class.
#[inline(always)]
pub fn bare_item_invariant(value: RefBareItem<'_>)
    ensures { IsBareValue (ref_value value.entry) }
{
    match value {
        GenericBareItem::Decimal(_decimal) => {}
        GenericBareItem::Integer(_integer) => {}
        GenericBareItem::String(_string) => {}
        GenericBareItem::ByteSequence(bytes) => {
            let _bytes = with_bytes_invariant(bytes);
        }
        GenericBareItem::Boolean(_boolean) => {}
        GenericBareItem::Token(_token) => {}
        GenericBareItem::Date(_date) => {}
        GenericBareItem::DisplayString(_text) => {}
    }
}

/// Makes the type invariant of a key known to the prover.
#[inline(always)]
pub fn key_invariant(key: KeyRef<'_>)
    ensures { IsTrue (is_key (text_of key.entry)) }
{
    let _text = key.as_str();
}
