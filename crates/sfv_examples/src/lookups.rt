//! Look-ups by borrowed keys through the map's own methods.

ghost use Rattle.std.specs.Prelude.{◌≡◌, None, Some, IsTrue, false, is_some, bytes_eq, option_copied};
ghost use Rattle.sfv.specs.Maps.{get, shift_remove_entry};
ghost use Rattle.sfv.specs.CheckedTexts.{text_of};

use sfv::{BareItem, Dictionary, KeyRef, ListEntry, Parameters};

/// Returns the member of a key, or `None`.
pub fn member<'a>(members: &'a Dictionary, key: KeyRef<'_>) -> Option<&'a ListEntry>
    ensures { option_copied result ≡ get bytes_eq members.now (text_of key.entry) }
{
    members.get(key)
}

/// Returns the value of a parameter, or `None`.
pub fn param<'a>(params: &'a Parameters, key: KeyRef<'_>) -> Option<&'a BareItem>
    ensures { option_copied result ≡ get bytes_eq params.now (text_of key.entry) }
{
    params.get(key)
}

/// Returns `true` if there is a member of this key.
pub fn has_member(members: &Dictionary, key: KeyRef<'_>) -> bool
    ensures { result ≡ is_some (get bytes_eq members.now (text_of key.entry)) }
{
    members.contains_key(key)
}

/// Removes the member of a key, and returns it. The other members keep their order.
pub fn remove_member(members: &mut Dictionary, key: KeyRef<'_>) -> Option<ListEntry>
    ensures value { result ≡ get bytes_eq members.old (text_of key.entry) }
    ensures gone { get bytes_eq members.new (text_of key.entry) ≡ None }
    ensures entries { members.new.entries ≡ shift_remove_entry (bytes_eq (text_of key.entry)) members.old.entries }
{
    members.shift_remove(key)
}

/// Replaces the member of a key, if there is one. Returns `true` if there is.
pub fn replace_member(members: &mut Dictionary, key: KeyRef<'_>, member: ListEntry) -> bool
    ensures found { result ≡ is_some (get bytes_eq members.old (text_of key.entry)) }
    ensures value { IsTrue result → get bytes_eq members.new (text_of key.entry) ≡ Some member }
    ensures same { (result ≡ false) → members.new.entries ≡ members.old.entries }
{
    match members.get_mut(key) {
        Some(place) => {
            *place = member;
            true
        }
        None => false,
    }
}
