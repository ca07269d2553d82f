//! Serialization of byte sequences (RFC 9651, section 4.1.8).

ghost use Rattle.std.specs.Prelude.{◌≡◌, ◌<◌, length};
ghost use Rattle.std.specs.Str.{IsAscii};
ghost use Rattle.sfv_spec.specs.Texts.{RunOf};
ghost use Rattle.sfv_spec.specs.Values.{is_byte, byte_sequence};
ghost use Rattle.sfv_spec.specs.Base64.{symbol, base64_text};
ghost use Rattle.sfv_spec.specs.Canonical.{bare_text};
ghost use Rattle.sfv_writer.specs.Written.{AsksForRoom, Appends, AppendsOrKeeps};

use crate::base64_blocks::block_text;
use sfv_base::error::OutOfMemory;
use std::alloc::Allocator;
use std::string::String;

/// The Base64 symbols of the values 0 to 63.
static SYMBOLS: [u8; 64] = *b"ABCDEFGHIJKLMNOPQRSTUVWXYZabcdefghijklmnopqrstuvwxyz0123456789+/";

/// Returns the Base64 symbol of a value.
#[inline(always)]
fn symbol_of(value: u8) -> u8
    requires { value < 64 }
    ensures { result ≡ symbol value }
{
    SYMBOLS[usize::from(value)]
}

/// Returns the Base64 text of a group of three bytes.
#[inline(always)]
#[tactic(auto, using(crate::proofs::Encoded::group_encoded))]
fn group_text(group: &[u8; 3]) -> [u8; 4]
    ensures { result ≡ base64_text group.now }
{
    let [first, second, third] = *group;
    [
        symbol_of(first / 4),
        symbol_of(first % 4 * 16 + second / 16),
        symbol_of(second % 16 * 4 + third / 64),
        symbol_of(third % 64),
    ]
}

/// Returns the Base64 text of the one or two bytes after the whole groups, with padding.
#[inline(always)]
#[tactic(auto, using(crate::proofs::Encoded::one_encoded, crate::proofs::Encoded::two_encoded))]
fn last_text(bytes: &[u8]) -> [u8; 4]
    requires some { 0 < length bytes.now }
    requires few { length bytes.now < 3 }
    ensures { result ≡ base64_text bytes.now }
{
    let first = bytes[0];
    if bytes.len() == 1 {
        return [symbol_of(first / 4), symbol_of(first % 4 * 16), b'=', b'='];
    }
    let second = bytes[1];
    [
        symbol_of(first / 4),
        symbol_of(first % 4 * 16 + second / 16),
        symbol_of(second % 16 * 4),
        b'=',
    ]
}

/// Appends an ASCII text. If memory runs out, `output` is unchanged.
#[inline(always)]
fn push_ascii<A: Allocator>(text: &[u8], output: &mut String<A>) -> Result<(), OutOfMemory>
    requires { IsAscii text.now }
    ensures text { AppendsOrKeeps output.old output.new text.now result }
    ensures room { AsksForRoom output.old output.new text.now result }
{
    // SAFETY: the text is ASCII.
    output.push_str(unsafe { std::str::from_utf8_unchecked(text) })?;
    Ok(())
}

/// Appends the Base64 text of bytes.
fn serialize_base64<A: Allocator>(input: &[u8], output: &mut String<A>) -> Result<(), OutOfMemory>
    ensures text { Appends output.old output.new (base64_text input.now) result }
    ensures room { AsksForRoom output.old output.new (base64_text input.now) result }
{
    let mut rest = input;
    while let Some(block) = rest.first_chunk::<16>() {
        push_ascii(&block_text(block), output)?;
        rest = &rest[12..];
    }
    while let Some((group, after)) = rest.split_first_chunk::<3>() {
        push_ascii(&group_text(group), output)?;
        rest = after;
    }
    if !rest.is_empty() {
        push_ascii(&last_text(rest), output)?;
    }
    Ok(())
}

/// Appends a byte sequence: its Base64 text between colons.
#[inline(never)]
#[tactic(auto, using(sfv_values::proofs::Bytes::run_of_bytes, crate::proofs::Encoded::between_colons))]
pub(crate) fn serialize_byte_sequence<A: Allocator>(
    value: &[u8],
    output: &mut String<A>,
) -> Result<(), OutOfMemory>
    ensures text { AppendsOrKeeps output.old output.new (bare_text (byte_sequence value.now)) result }
    ensures room { AsksForRoom output.old output.new (bare_text (byte_sequence value.now)) result }
    ensures bytes { RunOf is_byte value.now }
{
    // Room for the whole text at once: otherwise, a small buffer would grow several times. No later call fails.
    output.reserve(value.len().div_ceil(3) * 4 + 2)?;
    output.push(':')?;
    serialize_base64(value, output)?;
    output.push(':')?;
    Ok(())
}
