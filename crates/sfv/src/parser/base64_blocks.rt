//! Decodes 16 Base64 symbols at once, by vectors. The method is by Wojciech Muła.

ghost use Rattle.std.specs.Prelude.{◌≡◌, map, nat_lt, take};
ghost use Rattle.sfv_spec.specs.Texts.{RunOf};
ghost use Rattle.sfv_spec.proofs.Marks.{is_symbol};
ghost use Rattle.sfv_model.specs.Content.{symbol_value};
ghost use Rattle.sfv.specs.parser.Base64.{AreOffsets, decoded_symbols, group_numbers, bytes_of_groups};

use std::simd::prelude::*;

// For each high half of a symbol: the value minus the symbol, modulo 256. The plus sign and the slash have the same high
// half, so the slash uses index 1.
const OFFSETS: [u8; 16] = [0, 16, 19, 4, 191, 191, 185, 185, 0, 0, 0, 0, 0, 0, 0, 0];

// Returns the offsets as a vector.
#[inline(always)]
#[tactic(auto, unfolding(sfv_model::specs::Content::symbol_value))]
fn offsets() -> u8x16
    ensures { AreOffsets result }
{
    u8x16::from_array(OFFSETS)
}

// Returns the values of symbols.
#[inline(always)]
fn values_of(symbols: u8x16) -> u8x16
    requires { RunOf is_symbol symbols }
    ensures { result ≡ map symbol_value symbols }
{
    let is_slash = symbols.simd_eq(u8x16::splat(b'/'));
    let row = (symbols >> u8x16::splat(4)) - is_slash.select(u8x16::splat(1), u8x16::splat(0));
    symbols + offsets().swizzle_dyn(row)
}

// Returns the number of each group of four values, with the first value highest.
#[inline(always)]
fn groups_of(values: u8x16) -> u32x4
    requires { RunOf (λ v. nat_lt v 64) values }
    ensures { result ≡ group_numbers values }
{
    let front = values.dot4(u8x16::from_array([
        64, 1, 0, 0, 64, 1, 0, 0, 64, 1, 0, 0, 64, 1, 0, 0,
    ]));
    let back = values.dot4(u8x16::from_array([0, 0, 64, 1, 0, 0, 64, 1, 0, 0, 64, 1, 0, 0, 64, 1]));
    front * u32x4::splat(4096) + back
}

// Returns the three bytes of each number, the highest first. Four bytes of no meaning follow.
#[inline(always)]
fn bytes_of(groups: u32x4) -> u8x16
    ensures { take 12 result ≡ bytes_of_groups groups }
{
    groups
        .to_le_bytes()
        .swizzle([2, 1, 0, 6, 5, 4, 10, 9, 8, 14, 13, 12, 15, 15, 15, 15])
}

/// Returns the twelve bytes of a block of symbols. Four bytes of no meaning follow.
#[inline(always)]
pub(crate) fn block_bytes(block: &[u8; 16]) -> [u8; 16]
    requires { RunOf is_symbol block.now }
    ensures { take 12 result ≡ decoded_symbols block.now }
{
    bytes_of(groups_of(values_of(u8x16::from_array(*block)))).to_array()
}
