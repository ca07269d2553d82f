//! Examples for callers: the field Accept-CH in a header map, read and written as a list.
#![tactic(auto)]

ghost use Rattle.std.specs.Prelude.{◌≡◌, IfOk, IfErr, OnOk, OnErr, codes};
ghost use Rattle.sfv.specs.Field.{list_field, Rfc9651, list_tree};
ghost use Rattle.sfv_headers.specs.Fields.{IsReadError, HasValue};
ghost use Rattle.sfv_header_examples.specs.Hints.{AreHints};

use http_header::HeaderMap;
use sfv::{Error, HashSeed, List, Version};
use sfv_headers::{WriteError, read_field, write_field};
use std::alloc::Global;

/// Returns the hints of a message, or `None` if it has no such field.
///
/// # Errors
///
/// Returns the error of `Parser::parse` if the lines of the field are not a list, or if memory runs out.
pub fn hints(alloc: Global, headers: &HeaderMap) -> Result<Option<List>, Error>
    ensures read { IfOk result (AreHints headers.now) }
    ensures rejected { IfErr result (IsReadError Rfc9651 list_field headers.now (codes "accept-ch")) }
{
    read_field(
        alloc,
        headers,
        "accept-ch",
        Version::Rfc9651,
        HashSeed::default(),
    )
}

/// Writes the hints of a message. Without a hint, the message does not have the field.
///
/// # Errors
///
/// Returns `OutOfMemory` if memory runs out, and `MaxSizeReached` if the map is full. Then the map is unchanged.
pub fn set_hints(alloc: Global, headers: &mut HeaderMap, list: &List) -> Result<(), WriteError>
    ensures written { OnOk result (HasValue Rfc9651 list_field headers.new (codes "accept-ch") (list_tree list.now.items)) }
    ensures unchanged { OnErr result (headers.new ≡ headers.old) }
{
    write_field(alloc, headers, "accept-ch", Version::Rfc9651, list)
}
