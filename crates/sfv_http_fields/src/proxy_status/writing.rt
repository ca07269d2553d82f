//! Serialization of one member.

ghost use Rattle.std.specs.Prelude.{◌≡◌, ◌≤◌, OnOk};
ghost use Rattle.sfv.specs.Canonical.{item_text};
ghost use Rattle.sfv.specs.Values.{IsItem};
ghost use Rattle.sfv.specs.Written.{Appends, AppendsOrKeeps, AsksForRoom};
ghost use Rattle.sfv_readers.specs.Field.{ref_value, text_of as token_text};
ghost use Rattle.sfv_http_fields.specs.ProxyStatus.{name_value};
ghost use Rattle.sfv_http_fields.specs.Writing.{written_item, text_of, IsReadAs};

use crate::proxy_status::reading::Name;
use sfv::{
    GenericBareItem, ItemSerializer, OutOfMemory, RefBareItem, SerializeError, TokenRef, key_ref,
};
use sfv_writer::output::truncate_to;

// Returns the bare item of a name.
fn name_item<'a>(name: &'a Name<'_>) -> RefBareItem<'a>
    ensures { ref_value result ≡ name_value name.now }
{
    match name {
        Name::String(text) => GenericBareItem::String(text.as_string_ref()),
        Name::Token(token) => GenericBareItem::Token(*token),
    }
}

// Appends the member, whose text is that of an item. If memory runs out, the text can end with a part of it.
fn append_item(
    text: &mut String,
    name: RefBareItem<'_>,
    error: TokenRef<'_>,
    received_status: u16,
) -> Result<(), SerializeError>
    ensures text { Appends text.old text.new
        (item_text (written_item (ref_value name.entry) (token_text error.entry) received_status)) result }
    ensures room { AsksForRoom text.old text.new
        (item_text (written_item (ref_value name.entry) (token_text error.entry) received_status)) result }
    ensures value { OnOk result
        (IsItem (written_item (ref_value name.entry) (token_text error.entry) received_status)) }
{
    let params = ItemSerializer::with_buffer(text).bare_item(name)?;
    let params = params.parameter(key_ref("error"), GenericBareItem::Token(error))?;
    let status = GenericBareItem::from(received_status);
    params
        .parameter(key_ref("received-status"), status)?
        .finish();
    Ok(())
}

/// Appends a member to `text`. It parses back to the same intermediary under both versions.
///
/// Allocates only for `text`.
///
/// # Errors
///
/// Returns `OutOfMemory` if memory runs out. This happens only if `text` has no room for the member. `text` is then
/// unchanged.
#[tactic(auto, using(sfv_writer::proofs::Written::cut_to))]
pub fn write_proxy(
    text: &mut String,
    name: &Name<'_>,
    error: TokenRef<'_>,
    received_status: u16,
) -> Result<(), OutOfMemory>
    requires least { 100 ≤ received_status }
    requires most { received_status ≤ 599 }
    ensures text { AppendsOrKeeps text.old text.new (text_of name.now error.entry received_status) result }
    ensures room { AsksForRoom text.old text.new (text_of name.now error.entry received_status) result }
    ensures read_back { OnOk result (IsReadAs name.now error.entry received_status) }
{
    let len = text.len();
    match append_item(text, name_item(name), error, received_status) {
        Ok(()) => Ok(()),
        // RFC 9651 has every value, so memory ran out.
        Err(_) => {
            truncate_to(len, text);
            Err(OutOfMemory)
        }
    }
}
