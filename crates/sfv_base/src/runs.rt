//! Searches for the end of a run of bytes of one class.

ghost use Rattle.std.specs.Prelude.{◌≡◌, ◌++◌, ◌-◌, ◌≤◌, ◌<◌, ℕ, Bool, IsTrue, IsFalse, length, take, drop};
ghost use Rattle.std.specs.Prelude.{slice_index, slice_range};
ghost use Rattle.std.specs.List.{prefix_len};
ghost use Rattle.sfv_spec.specs.Texts.{RunOf};
ghost use Rattle.sfv_spec.specs.Classes.{is_string_byte, is_token_inner, is_key_inner};
ghost use Rattle.sfv_spec.specs.Strings.{is_plain_in_display};
ghost use Rattle.sfv_spec.proofs.Marks.{is_plain_in_string, is_symbol};
ghost use Rattle.sfv_base.specs.Lanes.{outside_mask, is_table_of};
ghost use Rattle.sfv_base.specs.Rows.{run_class_sum};

use crate::lanes::{HALF, LANES, unmarked, unmarked_half};
use crate::utils::{
    is_allowed_inner_key_char, is_allowed_inner_token_char, is_allowed_string_char,
};
use std::simd::prelude::*;

/// A class of bytes for runs. It contains no byte of 0x80 or more.
pub trait RunClass {
    ghost class: { ℕ → Bool };

    /// Returns the table of the class: for each low half of a byte, the bits of the high halves that complete a byte of
    /// the class.
    fn table() -> &'static [u8; 16]
        ensures { IsTrue (is_table_of class result.now) };

    /// Returns `true` if the byte is of the class.
    fn has(byte: u8) -> bool
        ensures { result ≡ class byte };
}

// The classes that only runs have, as bits of a row of `RUN_CLASSES`. `utils` has the other classes.
const PLAIN_IN_STRING: u8 = 1;

const PLAIN_IN_DISPLAY_STRING: u8 = 2;

const SYMBOL: u8 = 4;

/// For each byte, the sum of these classes that contain it.
// Without this table, the search tests three bytes instead of one bit.
#[rattlefmt::skip]
static RUN_CLASSES: [u8; 256] = [
    0, 0, 0, 0, 0, 0, 0, 0, 0, 0, 0, 0, 0, 0, 0, 0,
    0, 0, 0, 0, 0, 0, 0, 0, 0, 0, 0, 0, 0, 0, 0, 0,
    3, 3, 0, 3, 3, 1, 3, 3, 3, 3, 3, 7, 3, 3, 3, 7,
    7, 7, 7, 7, 7, 7, 7, 7, 7, 7, 3, 3, 3, 3, 3, 3,
    3, 7, 7, 7, 7, 7, 7, 7, 7, 7, 7, 7, 7, 7, 7, 7,
    7, 7, 7, 7, 7, 7, 7, 7, 7, 7, 7, 3, 2, 3, 3, 3,
    3, 7, 7, 7, 7, 7, 7, 7, 7, 7, 7, 7, 7, 7, 7, 7,
    7, 7, 7, 7, 7, 7, 7, 7, 7, 7, 7, 3, 3, 3, 3, 0,
    0, 0, 0, 0, 0, 0, 0, 0, 0, 0, 0, 0, 0, 0, 0, 0,
    0, 0, 0, 0, 0, 0, 0, 0, 0, 0, 0, 0, 0, 0, 0, 0,
    0, 0, 0, 0, 0, 0, 0, 0, 0, 0, 0, 0, 0, 0, 0, 0,
    0, 0, 0, 0, 0, 0, 0, 0, 0, 0, 0, 0, 0, 0, 0, 0,
    0, 0, 0, 0, 0, 0, 0, 0, 0, 0, 0, 0, 0, 0, 0, 0,
    0, 0, 0, 0, 0, 0, 0, 0, 0, 0, 0, 0, 0, 0, 0, 0,
    0, 0, 0, 0, 0, 0, 0, 0, 0, 0, 0, 0, 0, 0, 0, 0,
    0, 0, 0, 0, 0, 0, 0, 0, 0, 0, 0, 0, 0, 0, 0, 0,
];

// Returns the sum of these classes that contain the byte.
#[inline(always)]
#[tactic(auto, using(crate::proofs::Rows::run_classes_at), unfolding(sfv_spec::proofs::Marks::is_symbol))]
fn run_classes_of(byte: u8) -> u8
    ensures { result ≡ run_class_sum byte }
{
    RUN_CLASSES[usize::from(byte)]
}

/// The bytes that a string may contain: printable ASCII, from 0x20 to 0x7e.
pub struct StringByte;

impl RunClass for StringByte {
    ghost class = { is_string_byte };

    #[inline(always)]
    fn table() -> &'static [u8; 16] {
        &[
            252, 252, 252, 252, 252, 252, 252, 252, 252, 252, 252, 252, 252, 252, 252, 124,
        ]
    }

    #[inline(always)]
    fn has(byte: u8) -> bool {
        is_allowed_string_char(byte)
    }
}

/// The bytes of a string that are written without an escape: all except the quote and the backslash.
pub struct PlainInString;

impl RunClass for PlainInString {
    ghost class = { is_plain_in_string };

    #[inline(always)]
    fn table() -> &'static [u8; 16] {
        &[
            252, 252, 248, 252, 252, 252, 252, 252, 252, 252, 252, 252, 220, 252, 252, 124,
        ]
    }

    #[inline(always)]
    #[tactic(auto, using(crate::proofs::Rows::run_class_bits))]
    fn has(byte: u8) -> bool {
        run_classes_of(byte) & PLAIN_IN_STRING != 0
    }
}

/// The bytes of a display string that are written without an escape: printable ASCII except the quote and the percent
/// sign.
pub struct PlainInDisplayString;

impl RunClass for PlainInDisplayString {
    ghost class = { is_plain_in_display };

    #[inline(always)]
    fn table() -> &'static [u8; 16] {
        &[
            252, 252, 248, 252, 252, 248, 252, 252, 252, 252, 252, 252, 252, 252, 252, 124,
        ]
    }

    #[inline(always)]
    #[tactic(auto, using(crate::proofs::Rows::run_class_bits))]
    fn has(byte: u8) -> bool {
        run_classes_of(byte) & PLAIN_IN_DISPLAY_STRING != 0
    }
}

/// The bytes that a token may contain after its first.
pub struct InnerToken;

impl RunClass for InnerToken {
    ghost class = { is_token_inner };

    #[inline(always)]
    fn table() -> &'static [u8; 16] {
        &[
            232, 252, 248, 252, 252, 252, 252, 252, 248, 248, 252, 84, 208, 84, 244, 116,
        ]
    }

    #[inline(always)]
    fn has(byte: u8) -> bool {
        is_allowed_inner_token_char(byte)
    }
}

/// The bytes that a key may contain after its first.
pub struct InnerKey;

impl RunClass for InnerKey {
    ghost class = { is_key_inner };

    #[inline(always)]
    fn table() -> &'static [u8; 16] {
        &[
            136, 200, 200, 200, 200, 200, 200, 200, 200, 200, 196, 64, 64, 68, 68, 96,
        ]
    }

    #[inline(always)]
    fn has(byte: u8) -> bool {
        is_allowed_inner_key_char(byte)
    }
}

/// The symbols of Base64, without the padding.
pub struct Symbol;

impl RunClass for Symbol {
    ghost class = { is_symbol };

    #[inline(always)]
    #[tactic(auto, unfolding(sfv_spec::proofs::Marks::is_symbol))]
    fn table() -> &'static [u8; 16] {
        &[
            168, 248, 248, 248, 248, 248, 248, 248, 248, 248, 240, 84, 80, 80, 80, 84,
        ]
    }

    #[inline(always)]
    #[tactic(auto, using(crate::proofs::Rows::run_class_bits))]
    fn has(byte: u8) -> bool {
        run_classes_of(byte) & SYMBOL != 0
    }
}

// Returns a mask of the bytes outside the class. Bit 0 is for the first byte.
#[inline(always)]
fn outside<C: RunClass>(lanes: u8x32) -> u64
    ensures { result ≡ outside_mask C.class lanes }
{
    unmarked(C::table(), lanes)
}

// Returns the same as `outside`, for 16 bytes.
#[inline(always)]
fn outside_half<C: RunClass>(lanes: u8x16) -> u64
    ensures { result ≡ outside_mask C.class lanes }
{
    unmarked_half(C::table(), lanes)
}

// How many bytes of a long text are tested one at a time, before blocks are. Most runs are shorter.
// By an estimate, vectors from the first byte on would save less than a hundredth of a parse.
const NEAR: usize = 12;

// Finds the end of the run, byte by byte.
#[inline(always)]
fn byte_end<C: RunClass>(bytes: &[u8]) -> usize
    ensures { result ≡ prefix_len C.class bytes.now }
{
    let mut end = 0;
    while end < bytes.len() && C::has(bytes[end]) {
        end += 1;
    }
    end
}

// Finds the end of the run, block by block.
#[inline(never)]
fn block_end<C: RunClass>(bytes: &[u8]) -> usize
    ensures { result ≡ prefix_len C.class bytes.now }
{
    let (blocks, rest) = bytes.as_chunks::<LANES>();
    let mut end = 0;
    for block in blocks {
        let outside = outside::<C>(u8x32::from_array(*block));
        if outside != 0 {
            return end + outside.trailing_zeros() as usize;
        }
        end += LANES;
    }
    end + byte_end::<C>(rest)
}

// Returns the first 8 bytes, and then the last 8.
#[inline(always)]
fn ends_of(bytes: &[u8]) -> u8x16
    requires { 8 ≤ length bytes.now }
    ensures { result ≡ take 8 bytes.now ++ drop (length bytes.now - 8) bytes.now }
{
    let Some(first) = bytes.first_chunk::<8>() else {
        unreachable!();
    };
    let Some(last) = bytes.last_chunk::<8>() else {
        unreachable!();
    };
    u8x8::from_array(*first).shuffle(
        u8x8::from_array(*last),
        [0, 1, 2, 3, 4, 5, 6, 7, 8, 9, 10, 11, 12, 13, 14, 15],
    )
}

// Finds the end of the run in 8 to 16 bytes: tests the first 8 and the last 8 at once.
#[inline(always)]
fn pair_end<C: RunClass>(bytes: &[u8]) -> usize
    requires near { 8 ≤ length bytes.now }
    requires far { length bytes.now ≤ 16 }
    ensures { result ≡ prefix_len C.class bytes.now }
{
    let ends = ends_of(bytes);
    let outside = outside_half::<C>(ends);
    if outside == 0 {
        return bytes.len();
    }
    let end = outside.trailing_zeros() as usize;
    if end < 8 {
        return end;
    }
    end + bytes.len() - HALF
}

// Finds the end of the run, 16 bytes at once. The last 16 bytes are tested again where a block is not full.
#[inline(always)]
fn half_block_end<C: RunClass>(bytes: &[u8]) -> usize
    requires { 16 ≤ length bytes.now }
    ensures { result ≡ prefix_len C.class bytes.now }
{
    let (blocks, _rest) = bytes.as_chunks::<HALF>();
    let mut end = 0;
    for block in blocks {
        let outside = outside_half::<C>(u8x16::from_array(*block));
        if outside != 0 {
            return end + outside.trailing_zeros() as usize;
        }
        end += HALF;
    }
    let start = bytes.len() - HALF;
    let Some(last) = bytes.last_chunk::<HALF>() else {
        unreachable!();
    };
    let outside = outside_half::<C>(u8x16::from_array(*last));
    if outside != 0 {
        return start + outside.trailing_zeros() as usize;
    }
    bytes.len()
}

/// Returns the length of the longest run of the class at the start of `bytes`.
#[inline]
#[tactic(auto, using(crate::proofs::RunEnds::end_within, crate::proofs::RunEnds::end_each, crate::proofs::RunEnds::end_stops))]
pub fn run_end<C: RunClass>(bytes: &[u8]) -> usize
    ensures value { result ≡ prefix_len C.class bytes.now }
    ensures within { result ≤ length bytes.now }
    ensures each { RunOf C.class (take result bytes.now) }
    ensures ends { result < length bytes.now → IsFalse (C.class (slice_index bytes.now result)) }
{
    if bytes.len() < LANES {
        return byte_end::<C>(bytes);
    }
    for end in 0..NEAR {
        if !C::has(bytes[end]) {
            return end;
        }
    }
    block_end::<C>(bytes)
}

/// Returns the same as `run_end`. Tests blocks from the first byte on, which is faster for a class with long runs.
#[inline(always)]
#[tactic(auto, using(crate::proofs::RunEnds::end_within, crate::proofs::RunEnds::end_each, crate::proofs::RunEnds::end_stops))]
pub fn long_run_end<C: RunClass>(bytes: &[u8]) -> usize
    ensures value { result ≡ prefix_len C.class bytes.now }
    ensures within { result ≤ length bytes.now }
    ensures each { RunOf C.class (take result bytes.now) }
    ensures ends { result < length bytes.now → IsFalse (C.class (slice_index bytes.now result)) }
{
    block_end::<C>(bytes)
}

// The longest text that is tested 16 bytes at once. In a longer one, `run_end` tests 32.
const SHORT: usize = 64;

/// Returns the same as `run_end`. Tests a short text by vectors of 16 bytes, which is faster where most runs are the
/// whole text.
#[inline]
#[tactic(auto, using(crate::proofs::RunEnds::end_within, crate::proofs::RunEnds::end_each, crate::proofs::RunEnds::end_stops))]
pub fn whole_run_end<C: RunClass>(bytes: &[u8]) -> usize
    ensures value { result ≡ prefix_len C.class bytes.now }
    ensures within { result ≤ length bytes.now }
    ensures each { RunOf C.class (take result bytes.now) }
    ensures ends { result < length bytes.now → IsFalse (C.class (slice_index bytes.now result)) }
{
    if bytes.len() < 8 {
        return byte_end::<C>(bytes);
    }
    if bytes.len() < HALF {
        return pair_end::<C>(bytes);
    }
    if bytes.len() > SHORT {
        return run_end::<C>(bytes);
    }
    half_block_end::<C>(bytes)
}

// Finds the end of the run, 16 bytes at once from the first byte on. This is faster for runs of 4 to 64 bytes in a long
// text.
#[inline(always)]
fn near_run_end<C: RunClass>(bytes: &[u8]) -> usize
    ensures { result ≡ prefix_len C.class bytes.now }
{
    if bytes.len() >= HALF {
        return half_block_end::<C>(bytes);
    }
    byte_end::<C>(bytes)
}

/// Returns the index at which the longest run of the class from `start` on ends.
#[inline]
pub fn run_end_from<C: RunClass>(bytes: &[u8], start: usize) -> usize
    requires { start ≤ length bytes.now }
    ensures from { start ≤ result }
    ensures within { result ≤ length bytes.now }
    ensures each { RunOf C.class (slice_range bytes.now start result) }
    ensures ends { result < length bytes.now → IsFalse (C.class (slice_index bytes.now result)) }
{
    start + run_end::<C>(&bytes[start..])
}

/// Splits `bytes` after the longest run of the class at its start. This is fast for a long text with many runs.
#[inline]
#[tactic(auto, using(crate::proofs::RunEnds::end_within, crate::proofs::RunEnds::end_each, crate::proofs::RunEnds::end_stops))]
pub fn split_run<C: RunClass>(bytes: &[u8]) -> (&[u8], &[u8])
    ensures whole { bytes.now ≡ result.0.now ++ result.1.now }
    ensures each { RunOf C.class result.0.now }
    ensures ends { 0 < length result.1.now → IsFalse (C.class (slice_index result.1.now 0)) }
{
    bytes.split_at(near_run_end::<C>(bytes))
}

/// Returns the same as `split_run`. Searches as `whole_run_end` does.
#[inline]
pub fn split_whole_run<C: RunClass>(bytes: &[u8]) -> (&[u8], &[u8])
    ensures whole { bytes.now ≡ result.0.now ++ result.1.now }
    ensures each { RunOf C.class result.0.now }
    ensures ends { 0 < length result.1.now → IsFalse (C.class (slice_index result.1.now 0)) }
{
    bytes.split_at(whole_run_end::<C>(bytes))
}
