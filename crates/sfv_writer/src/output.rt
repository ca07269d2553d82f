//! Fragments of a field that are appended completely or not at all, separators, and truncation of text that was just
//! appended.

ghost use Rattle.std.specs.Prelude.{◌≡◌, ◌≤◌, ℕ, List, OnOk, IsTrue, max, string_bytes, string_capacity};
ghost use Rattle.sfv_writer.specs.Written.{AsksForRoom, Appends, AppendsOrKeeps, IsTruncatedTo, separator_before};

use crate::capacity::prepare;
use sfv_base::error::OutOfMemory;
use std::alloc::Allocator;
use std::string::String as StdString;

/// Truncates `output` to `len` bytes, an earlier length of the same text.
pub fn truncate_to<A: Allocator>(len: usize, output: &mut StdString<A>)
    ensures text { IsTruncatedTo len (string_bytes output.old) (string_bytes output.new) }
    ensures room { string_capacity output.new ≡ string_capacity output.old }
{
    // `len` is always a character boundary. A check here is cheaper than a proof in every caller.
    if output.as_str().is_char_boundary(len) {
        output.truncate(len);
    }
}

/// A fragment that is appended at once.
// Everything that appends a fragment is inlined, from the serializer's call to the text, except the kinds of bare item
// that `serialize_bare_item` calls. The fragment is then never built in memory.
pub trait Fragment: Drop {
    ghost text: { Self → List ℕ };

    ghost is_valid: { Self → Type 0 };

    /// Appends the fragment to `output`.
    ///
    /// # Errors
    ///
    /// Returns `OutOfMemory` if memory runs out. The old text is then still a prefix of `output`.
    fn serialize<A: Allocator>(self, output: &mut StdString<A>) -> Result<(), OutOfMemory>
        ensures text { Appends output.old output.new (text self) result }
        ensures room { AsksForRoom output.old output.new (text self) result }
        ensures valid { OnOk result (is_valid self) };
}

/// Appends a fragment.
///
/// # Errors
///
/// Returns `OutOfMemory` if memory runs out. `output` is then unchanged.
#[inline(always)]
#[tactic(auto, using(crate::proofs::Written::cut_to))]
pub fn append<P: Fragment, A: Allocator>(
    fragment: P,
    output: &mut StdString<A>,
) -> Result<(), OutOfMemory>
    ensures text { AppendsOrKeeps output.old output.new (P.text fragment) result }
    ensures room { AsksForRoom output.old output.new (P.text fragment) result }
    ensures valid { OnOk result (P.is_valid fragment) }
{
    let len = output.len();
    if let Err(error) = fragment.serialize(output) {
        truncate_to(len, output);
        return Err(error);
    }
    Ok(())
}

/// Appends `separator`, unless `is_first` is true. Before the first part, requests memory if `output` has none yet.
///
/// # Errors
///
/// Returns `OutOfMemory` if memory runs out. The old text is then still a prefix of `output`.
#[inline(always)]
pub fn serialize_separator<A: Allocator>(
    is_first: bool,
    separator: &str,
    output: &mut StdString<A>,
) -> Result<(), OutOfMemory>
    ensures text { Appends output.old output.new (separator_before is_first separator.now) result }
    ensures room { AsksForRoom output.old output.new (separator_before is_first separator.now) result }
    ensures first { IsTrue is_first → string_capacity output.new ≤ max 128 (string_capacity output.old) }
{
    if is_first {
        prepare(output);
        return Ok(());
    }
    // Characters that are known at compile time take fewer instructions than the copy of a `str`.
    match separator {
        ", " => {
            output.push(',')?;
            output.push(' ')?;
        }
        " " => output.push(' ')?,
        _ => output.push_str(separator)?,
    }
    Ok(())
}
