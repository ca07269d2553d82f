//! Parsing of a field of a header map.

ghost use Rattle.std.specs.Prelude.{IfOk, IfErr, IfSome, option_map};
ghost use Rattle.sfv_headers.specs.Fields.{IsReadIn, IsReadError, NeedsMemoryIn};

use crate::lines::field_text;
use http_header::{AsHeaderName, HeaderMap};
use sfv::{Error, FieldType, HashSeed, Parser, Version};
use std::alloc::Global;

/// Parses the field `name` of a header map as an item, a list or a dictionary (RFC 9651, section 4.2): the text of
/// `field_text`. Returns `None` if the map lacks the name. `seed` is the hash seed of the value's maps.
///
/// # Errors
///
/// Returns the error of `Parser::parse` if the text is not such a field, or if memory runs out.
pub fn read_field<T: FieldType, K: AsHeaderName>(
    alloc: Global,
    headers: &HeaderMap,
    name: K,
    version: Version,
    seed: HashSeed,
) -> Result<Option<T>, Error>
    ensures read { IfOk result (λ found.
        IsReadIn version T.kind headers.now (K.name name) (option_map T.tree found)) }
    ensures seed { IfOk result (λ found. IfSome found (T.has_seed seed)) }
    ensures rejected { IfErr result (IsReadError version T.kind headers.now (K.name name)) }
    ensures memory { IfErr result (NeedsMemoryIn T.kind headers.now (K.name name)) }
{
    let Some(text) = field_text(alloc, headers, name)? else {
        return Ok(None);
    };
    let parser = Parser::new(text.as_slice()).with_version(version);
    let value = parser.with_hash_seed(seed).parse::<T>(alloc)?;
    Ok(Some(value))
}
