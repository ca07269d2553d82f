//! Encodes twelve bytes to Base64 at once, by vectors. The method is by Wojciech Muła.

ghost use Rattle.std.specs.Prelude.{◌≡◌, map, nat_lt, take};
ghost use Rattle.sfv_spec.specs.Texts.{RunOf};
ghost use Rattle.sfv_spec.specs.Base64.{symbol, base64_text};
ghost use Rattle.sfv_writer.specs.Base64.{AreOffsets, six_bits, byte_pairs, value_pairs};

use std::simd::prelude::*;

// The symbol minus the value, modulo 256. Index 0 is for the values 26 to 51, indices 1 to 12 are for the values 52 to 63,
// and index 13 is for the values below 26.
const OFFSETS: [u8; 16] = [
    71, 252, 252, 252, 252, 252, 252, 252, 252, 252, 252, 237, 240, 65, 0, 0,
];

// For each three of the first twelve bytes, returns two numbers: the first and second byte, and the second and third.
#[inline(always)]
fn pairs_of(bytes: u8x16) -> u16x8
    ensures { result ≡ byte_pairs (take 12 bytes) }
{
    u16x8::from_le_bytes(bytes.swizzle([1, 0, 2, 1, 4, 3, 5, 4, 7, 6, 8, 7, 10, 9, 11, 10]))
}

// Returns the two six-bit values in each of these numbers. The first value is in the low half.
#[inline(always)]
fn values_in(pairs: u16x8) -> u16x8
    ensures { result ≡ value_pairs pairs }
{
    let low = pairs >> u16x8::from_array([10, 6, 10, 6, 10, 6, 10, 6]);
    let high = pairs * u16x8::from_array([16, 256, 16, 256, 16, 256, 16, 256]);
    let high = high >> u16x8::splat(8);
    (low & u16x8::splat(63)) + (high & u16x8::splat(63)) * u16x8::splat(256)
}

// Returns the four six-bit values of each three of the first twelve bytes.
#[inline(always)]
fn values_of(bytes: u8x16) -> u8x16
    ensures { result ≡ six_bits (take 12 bytes) }
{
    values_in(pairs_of(bytes)).to_le_bytes()
}

// Returns the offsets as a vector.
#[inline(always)]
fn offsets() -> u8x16
    ensures { AreOffsets result }
{
    u8x16::from_array(OFFSETS)
}

// Returns the symbols of six-bit values.
#[inline(always)]
fn symbols_of(values: u8x16) -> u8x16
    requires { RunOf (λ v. nat_lt v 64) values }
    ensures { result ≡ map symbol values }
{
    let is_upper = values.simd_lt(u8x16::splat(26));
    let upper = is_upper.select(u8x16::splat(13), u8x16::splat(0));
    let row = values.saturating_sub(u8x16::splat(51)) + upper;
    values + offsets().swizzle_dyn(row)
}

/// Returns the Base64 text of the first twelve bytes of a block.
#[inline(always)]
pub(crate) fn block_text(block: &[u8; 16]) -> [u8; 16]
    ensures { result ≡ base64_text (take 12 block.now) }
{
    symbols_of(values_of(u8x16::from_array(*block))).to_array()
}
