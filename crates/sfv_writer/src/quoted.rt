//! Serialization between two quotes: the inside of a string or a display string.

ghost use Rattle.std.specs.Prelude.{◌≡◌, ◌++◌, ◌<◌, Bool, length, flat_map, IsFalse, IsTrue, slice_index};
ghost use Rattle.sfv_spec.specs.Texts.{RunOf};
ghost use Rattle.sfv_spec.proofs.Marks.{plain_of};
ghost use Rattle.sfv_writer.specs.Quoted.{held_of, piece_of};
ghost use Rattle.sfv_writer.specs.Written.{AsksForRoom, Appends};

use sfv_base::error::OutOfMemory;
use std::alloc::{AllocError, Allocator};

/// A kind of quoted text.
pub(super) trait Escaping {
    ghost display: { Bool };

    /// Returns `true` if the byte is written without an escape.
    fn is_plain(byte: u8) -> bool
        requires { IsTrue (held_of display byte) }
        ensures { result ≡ plain_of display byte };

    /// Splits the bytes before the first one that needs an escape.
    fn split_plain(bytes: &[u8]) -> (&[u8], &[u8])
        ensures whole { bytes.now ≡ result.0.now ++ result.1.now }
        ensures each { RunOf (plain_of display) result.0.now }
        ensures ends { 0 < length result.1.now → IsFalse (plain_of display (slice_index result.1.now 0)) };

    /// Splits as `split_plain` does, for a whole text. Most texts have no escape.
    fn split_whole(bytes: &[u8]) -> (&[u8], &[u8])
        ensures whole { bytes.now ≡ result.0.now ++ result.1.now }
        ensures each { RunOf (plain_of display) result.0.now }
        ensures ends { 0 < length result.1.now → IsFalse (plain_of display (slice_index result.1.now 0)) };

    /// Appends the escape of a byte.
    fn push_escape<A: Allocator>(output: &mut String<A>, byte: u8) -> Result<(), AllocError>
        requires held { IsTrue (held_of display byte) }
        requires escaped { IsFalse (plain_of display byte) }
        ensures text { Appends output.old output.new (piece_of display byte) result }
        ensures room { AsksForRoom output.old output.new (piece_of display byte) result };
}

/// Appends these bytes, each as itself or as its escape.
#[inline(always)]
pub(super) fn serialize_inside<Q: Escaping, A: Allocator>(
    bytes: &[u8],
    output: &mut String<A>,
) -> Result<(), OutOfMemory>
    requires { RunOf (held_of Q.display) bytes.now }
    ensures text { Appends output.old output.new (flat_map (piece_of Q.display) bytes.now) result }
    ensures room { AsksForRoom output.old output.new (flat_map (piece_of Q.display) bytes.now) result }
{
    let (run, rest) = Q::split_whole(bytes);
    // SAFETY: plain bytes are ASCII.
    output.push_str(unsafe { std::str::from_utf8_unchecked(run) })?;
    if rest.is_empty() {
        return Ok(());
    }
    serialize_pieces::<Q, A>(rest, output)
}

/// Appends these bytes, run by run and escape by escape.
// Not inlined: few texts have an escape, and the loop needs the registers.
#[inline(never)]
fn serialize_pieces<Q: Escaping, A: Allocator>(
    bytes: &[u8],
    output: &mut String<A>,
) -> Result<(), OutOfMemory>
    requires { RunOf (held_of Q.display) bytes.now }
    ensures text { Appends output.old output.new (flat_map (piece_of Q.display) bytes.now) result }
    ensures room { AsksForRoom output.old output.new (flat_map (piece_of Q.display) bytes.now) result }
{
    let mut rest = bytes;
    while let Some((byte, after)) = rest.split_first() {
        // Between neighbouring escapes the run is empty. To split off empty runs would be slower.
        if Q::is_plain(*byte) {
            // With `split_whole`, a long string with an escape after each byte would be slower.
            let (run, after) = Q::split_plain(rest);
            // SAFETY: plain bytes are ASCII.
            output.push_str(unsafe { std::str::from_utf8_unchecked(run) })?;
            rest = after;
        } else {
            Q::push_escape(output, *byte)?;
            rest = after;
        }
    }
    Ok(())
}
