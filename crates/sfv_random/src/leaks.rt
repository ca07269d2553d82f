//! Whether a call loses memory.
//!
//! A call is made often, and the memory of the process is compared. Linux has its size in `/proc/self/statm`.

use std::alloc::Global;
use std::{fs, io};

/// How often a call is made. If it leaves a block each time, these take up 320,000 bytes, or 78 pages, at least.
const TIMES: usize = 10_000;

/// How many pages more a process may have after the calls. The C library requests 33 pages at a time.
const SPARE: usize = 40;

/// A call, with its arguments.
pub trait Repeated {
    /// Makes the call, and drops its result. Returns whether it succeeds.
    fn repeat(&self, alloc: Global) -> bool;
}

/// Makes the call so many times. Returns whether it always succeeds.
fn repeat<C: Repeated>(alloc: Global, call: &C, times: usize) -> bool {
    let mut succeeds = true;
    for _ in 0..times {
        succeeds &= call.repeat(alloc);
    }
    succeeds
}

/// Returns the pages of the process, or zero if the system does not say.
fn pages(rt: &HostRuntime) -> io::Result<usize> {
    let sizes = fs::read_to_string(rt, "/proc/self/statm")?;
    let pages = sizes.split(' ').next().and_then(|size| size.parse().ok());
    Ok(pages.unwrap_or(0))
}

/// Returns `true` if the call always succeeds, and loses no memory.
pub fn keeps_memory<C: Repeated>(rt: &HostRuntime, call: &C) -> io::Result<bool> {
    keeps_memory_of(rt, call, TIMES)
}

/// Returns `true` if the call always succeeds, and loses no memory when it is made so many times. A loss of less than 73
/// pages in all may go unnoticed.
pub fn keeps_memory_of<C: Repeated>(rt: &HostRuntime, call: &C, times: usize) -> io::Result<bool> {
    // The first calls leave free blocks for the others.
    let succeeds = repeat(rt.alloc(), call, times / 10);
    let before = pages(rt)?;
    let succeeds = succeeds && repeat(rt.alloc(), call, times);
    let after = pages(rt)?;
    Ok(succeeds && before > 0 && after <= before.saturating_add(SPARE))
}
