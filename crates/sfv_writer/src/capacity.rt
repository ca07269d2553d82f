//! The first capacity of a text: enough for most short texts, so they need one request for memory.
//!
//! A failed request is no error, because the text may need fewer bytes. Its capacity is then 0.

ghost use Rattle.std.specs.Prelude.{◌≡◌, ◌<◌, ◌≤◌, ◌+◌, ◌*◌, ◌⊎◌, min, [], string_bytes, string_capacity};

use std::alloc::{Allocator, Global};
use std::string::String as StdString;

/// Creates an empty text with this capacity, allocated from `alloc`.
fn text_with_capacity(capacity: usize, alloc: Global) -> StdString
    ensures bytes { string_bytes result ≡ [] }
    ensures capacity { (string_capacity result ≡ 0) ⊎ (string_capacity result ≡ capacity) }
{
    match StdString::with_capacity(alloc, capacity) {
        Ok(text) => text,
        // No memory is requested for a capacity of 0.
        Err(_) => StdString::with_capacity(alloc, 0).unwrap(),
    }
}

/// Creates an empty text for an item with this number of parameters. It counts at most 1,000 parameters.
// 32 here and 64 below are the smallest multiples of 32 that suffice for at least 95 of 100 texts. The texts are the
// different canonical texts of the inputs of `sfv_replay`: 160 items, 79 lists and 74 dictionaries. The capacity
// suffices for 158, 76 and 71 of them. With 4 bytes for each part it suffices for 75 lists and 69 dictionaries. With 16
// or 24 it suffices for no more items. An item with n parameters has at least 2n + 1 bytes, and n members have at least
// 3n - 2. So the capacity is at most 4 times the length plus 28 for an item, and 3 times the length plus 70 otherwise.
pub(crate) fn text_for_item(params: usize, alloc: Global) -> StdString
    ensures bytes { string_bytes result ≡ [] }
    ensures capacity { (string_capacity result ≡ 0) ⊎ (string_capacity result ≡ 32 + 8 * min params 1000) }
{
    text_with_capacity(32 + 8 * params.min(1000), alloc)
}

/// Creates an empty text for a list or a dictionary with this number of members. It counts at most 1,000 members.
pub(crate) fn text_for_members(members: usize, alloc: Global) -> StdString
    ensures bytes { string_bytes result ≡ [] }
    ensures capacity { (string_capacity result ≡ 0) ⊎ (string_capacity result ≡ 64 + 8 * min members 1000) }
{
    text_with_capacity(64 + 8 * members.min(1000), alloc)
}

/// Requests memory for 128 bytes.
// A serializer does not know how many parts follow. 128 bytes suffice for all 160 items, all 79 lists, and 73 of the 74
// dictionaries.
#[cold]
#[inline(never)]
fn request_first_memory<A: Allocator>(output: &mut StdString<A>)
    ensures text { string_bytes output.new ≡ string_bytes output.old }
    ensures room { string_capacity output.old ≤ string_capacity output.new }
    ensures first { string_capacity output.old ≡ 0
        → (string_capacity output.new ≡ 0) ⊎ (string_capacity output.new ≡ 128) }
{
    let _ = output.reserve_exact(128);
}

/// Requests memory for 128 bytes if `output` has none yet. Otherwise changes nothing.
#[inline(always)]
pub fn prepare<A: Allocator>(output: &mut StdString<A>)
    ensures text { string_bytes output.new ≡ string_bytes output.old }
    ensures room { string_capacity output.old ≤ string_capacity output.new }
    ensures first { string_capacity output.old ≡ 0
        → (string_capacity output.new ≡ 0) ⊎ (string_capacity output.new ≡ 128) }
    ensures idle { 0 < string_capacity output.old → string_capacity output.new ≡ string_capacity output.old }
{
    if output.capacity() == 0 {
        request_first_memory(output);
    }
}
