//! Writing a field into a header map.

ghost use Rattle.std.specs.Prelude.{◌≡◌, IfErr, OnOk, OnErr, string_bytes};
ghost use Rattle.http_header.specs.HeaderMap.{insert};
ghost use Rattle.http_header.specs.FieldValue.{plain_value};
ghost use Rattle.sfv.specs.Texts.{RunOf};
ghost use Rattle.sfv.specs.Classes.{is_string_byte};
ghost use Rattle.sfv_headers.specs.Fields.{HasValue};
ghost use Rattle.sfv_headers.specs.Writing.{IsMapFault, IsWritten, IsWriteError};

use crate::write_error::WriteError;
use bytes::Bytes;
use http_header::{HeaderMap, HeaderValue, IntoHeaderName};
use sfv::{FieldType, Version};
use std::alloc::Global;

// Replaces all lines of the name by one line with this text.
fn put_line<K: IntoHeaderName>(
    headers: &mut HeaderMap,
    name: K,
    text: String,
) -> Result<(), WriteError>
    requires name { K.is_valid name }
    requires text { RunOf is_string_byte (string_bytes text) }
    ensures line { OnOk result (headers.new ≡ insert headers.old (K.name name) (plain_value (string_bytes text))) }
    ensures failed { IfErr result (IsMapFault headers.old (K.name name)) }
    ensures unchanged { OnErr result (headers.new ≡ headers.old) }
{
    let line = HeaderValue::from_known_valid(Bytes::from_string(text)?);
    headers.insert(name, line)?;
    Ok(())
}

/// Writes a field into a header map: one line with the canonical text replaces all lines of the name (RFC 9651, section
/// 4.1). A list or a dictionary without members removes the name, because such a field is not sent.
///
/// Reading the field gives the value.
///
/// # Errors
///
/// Returns `Unsupported` with the kind of the first value that `version` lacks, `MaxSizeReached` if the map lacks the
/// name and is full, and `OutOfMemory` if memory runs out, which requires a member. After an error, the map is
/// unchanged.
pub fn write_field<T: FieldType, K: IntoHeaderName>(
    alloc: Global,
    headers: &mut HeaderMap,
    name: K,
    version: Version,
    value: &T,
) -> Result<(), WriteError>
    requires { K.is_valid name }
    ensures written { OnOk result (IsWritten T.kind headers.old headers.new (K.name name) (T.tree value.now)) }
    ensures read_back { OnOk result (HasValue version T.kind headers.new (K.name name) (T.tree value.now)) }
    ensures failed { IfErr result (IsWriteError version T.kind headers.old (K.name name) (T.tree value.now)) }
    ensures unchanged { OnErr result (headers.new ≡ headers.old) }
{
    let mut text = String::new(alloc);
    if value.append_to(version, &mut text)? {
        put_line(headers, name, text)
    } else {
        headers.remove(name);
        Ok(())
    }
}
