//! Byte sequences and the crate `base64`. The library writes the text that `base64` encodes. It parses a text to the
//! bytes that `base64` decodes.
#![tactic(auto)]

ghost use Rattle.std.specs.Prelude.{◌≡◌, ◌≢◌, ◌++◌, [], IfErr, IfOk, codes};
ghost use Rattle.std.specs.String.{string_bytes};
ghost use Rattle.sfv_spec.specs.Values.{byte_sequence};
ghost use Rattle.sfv_spec.specs.Base64.{IsBase64Text};
ghost use Rattle.sfv_spec.specs.Canonical.{bare_text};
ghost use Rattle.sfv_base64.specs.Agreement.{HasNoBytes, IsLenient, ParsedAsDecoded, WrittenAsEncoded};

use base64::engine::general_purpose::STANDARD;
use base64::engine::{DecodePaddingMode, GeneralPurpose, GeneralPurposeConfig};
use base64::{DecodeAllocError, alphabet};
use std::alloc::{AllocError, Global};

#[cfg(test)]
mod tests;

/// The canonical text of a byte sequence is the output of `base64` with the standard alphabet and padding, between
/// colons.
pub fn written_as_encoded()
    ensures { WrittenAsEncoded }
{}

/// A content between colons has bytes if and only if `base64` decodes it to them. Its engine has the standard alphabet,
/// and accepts missing padding and spare bits of any value.
pub fn parsed_as_decoded()
    ensures { ParsedAsDecoded }
{}

/// Returns the text that `base64` encodes for these bytes. The library writes this text between colons. The text of no
/// bytes needs no memory.
///
/// # Errors
///
/// Returns `AllocError` if memory runs out.
#[tactic(auto, using(crate::proofs::Encoded::between_colons))]
pub fn encode(alloc: Global, bytes: &[u8]) -> Result<String, AllocError>
    ensures text { IfOk result (λ text. bare_text (byte_sequence bytes.now)
        ≡ codes ":" ++ string_bytes text ++ codes ":") }
    ensures out_of_memory { IfErr result (λ _. bytes.now ≢ []) }
{
    if bytes.is_empty() {
        return Ok(String::new(alloc));
    }
    STANDARD.encode(alloc, bytes)
}

/// Returns an engine that accepts missing padding and spare bits of any value, as the library does.
fn lenient() -> GeneralPurpose
    ensures { IsLenient result }
{
    let config = GeneralPurposeConfig::new()
        .with_decode_allow_trailing_bits(true)
        .with_decode_padding_mode(DecodePaddingMode::Indifferent);
    GeneralPurpose::new(&alphabet::STANDARD, config)
}

/// Returns the bytes that `base64` decodes from this content: the library parses it, between colons, to the same bytes.
///
/// # Errors
///
/// Returns `DecodeAllocError::DecodeError` if no byte sequence has this content, and `DecodeAllocError::OutOfMemory` if
/// memory runs out.
pub fn decode(alloc: Global, content: &[u8]) -> Result<Vec<u8>, DecodeAllocError>
    ensures parsed { IfOk result (λ bytes. IsBase64Text bytes.items content.now) }
    ensures rejected { IfErr result (HasNoBytes content.now) }
{
    lenient().decode(alloc, content)
}
