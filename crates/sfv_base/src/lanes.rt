//! Classes of bytes by table look-ups, for 32 or 16 bytes at once.
//!
//! For each low half of a byte, the table of a class has the bits of the high halves that complete a byte of the class.
//! So one look-up for each half says whether a byte is of the class.

ghost use Rattle.std.specs.Prelude.{◌≡◌, ◌<◌, map, slice_index};
ghost use Rattle.std.specs.Simd.Lanes.{Each1};
ghost use Rattle.sfv_base.specs.Lanes.{outside_mask, is_marked};

use std::simd::prelude::*;

pub(crate) const LANES: usize = 32;

pub(crate) const HALF: usize = 16;

// For each high half of a byte, its bit. No class contains a byte of 0x80 or more.
const HIGH: [u8; 16] = [1, 2, 4, 8, 16, 32, 64, 128, 0, 0, 0, 0, 0, 0, 0, 0];

// Returns the entries of the table at these indices.
#[inline(always)]
fn looked_up(table: &[u8; 16], places: u8x32) -> u8x32
    requires { Each1 (λ j. j < 16) places }
    ensures { result ≡ map (λ j. slice_index table.now j) places }
{
    let twice: u8x32 = u8x16::from_array(*table).swizzle([
        0, 1, 2, 3, 4, 5, 6, 7, 8, 9, 10, 11, 12, 13, 14, 15, 0, 1, 2, 3, 4, 5, 6, 7, 8, 9, 10, 11,
        12, 13, 14, 15,
    ]);
    twice.swizzle_dyn_within::<16>(places)
}

/// Returns a mask of the bytes outside the class of this table. Bit 0 is for the first byte.
#[inline(always)]
pub(crate) fn unmarked(low: &[u8; 16], lanes: u8x32) -> u64
    ensures { result ≡ outside_mask (is_marked low.now) lanes }
{
    let by_low = looked_up(low, lanes & u8x32::splat(15));
    let by_high = looked_up(&HIGH, lanes >> u8x32::splat(4));
    (by_low & by_high).simd_eq(u8x32::splat(0)).to_bitmask()
}

// Returns the entries of the table at these indices.
#[inline(always)]
fn looked_up_half(table: &[u8; 16], places: u8x16) -> u8x16
    requires { Each1 (λ j. j < 16) places }
    ensures { result ≡ map (λ j. slice_index table.now j) places }
{
    u8x16::from_array(*table).swizzle_dyn_within::<16>(places)
}

/// Returns the same as `unmarked`, for 16 bytes.
#[inline(always)]
pub(crate) fn unmarked_half(low: &[u8; 16], lanes: u8x16) -> u64
    ensures { result ≡ outside_mask (is_marked low.now) lanes }
{
    let by_low = looked_up_half(low, lanes & u8x16::splat(15));
    let by_high = looked_up_half(&HIGH, lanes >> u8x16::splat(4));
    (by_low & by_high).simd_eq(u8x16::splat(0)).to_bitmask()
}
