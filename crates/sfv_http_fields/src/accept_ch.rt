//! The Accept-CH field (RFC 8942): the client hints that a server would like to receive.
//!
//! `HasHint` is a `ListReader` with an argument that is known at run time. Its proofs need no file.

ghost use Rattle.std.specs.Prelude.{◌≡◌, IfOk, IfErr, codes};
ghost use Rattle.std.specs.List.{list_any};
ghost use Rattle.sfv_readers.specs.Field.{list_field, IsParseError, ErrorNeedsMark};
ghost use Rattle.sfv_headers.specs.Fields.{IsReadError};
ghost use Rattle.sfv_http_fields.specs.AcceptCh.{is_hint, is_hint_head, IsAcceptance, IsAcceptanceIn};
ghost use Rattle.sfv_http_fields.specs.Needs.{NeedsMarkIn};

use http_header::HeaderMap;
use sfv::{BareItemFromInput, Error, GenericBareItem, KeyRef, OutOfMemory, Version};
use sfv_headers::field_text;
use sfv_readers::{IgnoredItems, ListReader, read_list};
use std::alloc::Global;

/// A reader that looks for a token.
#[derive(Clone, Copy, Debug)]
struct HasHint<'h> {
    hint: &'h str,
    found: bool,
}

impl<'h, 'de> ListReader<'de> for HasHint<'h> {
    type Member = bool;

    type Items = IgnoredItems;

    ghost keeps = { λ s kept head ps. kept ≡ is_hint_head s.hint.now head };

    ghost reads = { λ start s members. (s.hint ≡ start.hint) × (s.found ≡ list_any (is_hint start.hint.now) members) };

    ghost may_fail = { ⊥ };

    fn item(&self, item: BareItemFromInput<'de>) -> bool {
        match item {
            GenericBareItem::Token(token) => self.hint == token.as_str(),
            _ => false,
        }
    }

    fn inner_list(&self, _items: IgnoredItems) -> bool {
        false
    }

    fn parameter(&self, _member: &mut bool, _key: KeyRef<'de>, _value: BareItemFromInput<'de>) {}

    fn member(&mut self, member: bool) -> Result<(), OutOfMemory> {
        self.found = self.found || member;
        Ok(())
    }
}

/// Returns `true` if a member of an Accept-CH field (RFC 8942, section 3.1) is the token `hint`, with any parameters.
/// Compares bytes.
///
/// # Errors
///
/// Returns the error of `Parser::parse` if the input is not a list, or if memory runs out. Memory runs out only if the
/// input contains a backslash, a percent sign or a colon.
#[tactic(auto, using(sfv_readers::proofs::Memory::mark_needed_of_list))]
pub fn accepts(alloc: Global, input: &[u8], version: Version, hint: &str) -> Result<bool, Error>
    ensures read { IfOk result (IsAcceptance version input.now hint.now) }
    ensures rejected { IfErr result (IsParseError version list_field input.now) }
    ensures memory { IfErr result (ErrorNeedsMark input.now) }
{
    let read = read_list(alloc, input, version, HasHint { hint, found: false })?;
    Ok(read.found)
}

/// Returns `true` if the Accept-CH field of a header map has the token `hint`, as `accepts` does. Returns `false` if the
/// map lacks the field.
///
/// # Errors
///
/// Returns the error of `Parser::parse` if the text of `field_text` is not a list, or if memory runs out. Memory runs out
/// only if the field has two lines, or contains a backslash, a percent sign or a colon.
pub fn accepts_in(
    alloc: Global,
    headers: &HeaderMap,
    version: Version,
    hint: &str,
) -> Result<bool, Error>
    ensures read { IfOk result (IsAcceptanceIn version headers.now hint.now) }
    ensures rejected { IfErr result (IsReadError version list_field headers.now (codes "accept-ch")) }
    ensures memory { IfErr result (NeedsMarkIn headers.now (codes "accept-ch")) }
{
    match field_text(alloc, headers, "accept-ch")? {
        Some(text) => accepts(alloc, text.as_slice(), version, hint),
        None => Ok(false),
    }
}
