//! Calls that allocate, each with its result if there is enough memory.
//!
//! Without standard input, the program makes each call, and prints how many. Then it makes each call often, and prints
//! the number of each that loses memory. Standard input may contain a number from 1 to 999. Then the program's 1000th
//! allocation has to fail (`rt try --fail-alloc 1000`). The program allocates before the calls, so the calls' allocation
//! with this number fails.
//!
//! The call that meets the failure returns that memory ran out, with its arguments as its contract states, or it can do
//! without the allocation and returns its usual result. Each other call returns its usual result. The program prints
//! which of these happened, or that the calls make fewer allocations. The status is 1 if a call returns another result.
//! `checks/check-memory.sh` fails each allocation in turn.
#![tactic(auto)]

mod calls;
mod copies;
mod reading;
mod scripts;
mod visiting;
mod writing;

use crate::calls::{CALLS, perform};
use sfv::{Error, OutOfMemory};
use sfv_random::leaks::keeps_memory;
use std::alloc::Global;
use std::io;
use std::io::Read;
use std::process::ExitCode;

/// Fails with out of memory if the arguments are as they should be after a failed call. Otherwise returns `false`.
fn refused_if(is_left_so: bool) -> Result<bool, Error> {
    if is_left_so {
        Err(Error::from(OutOfMemory))
    } else {
        Ok(false)
    }
}

/// Checks the text: it is `left` after a failed call, and `written` after a successful one.
fn is_left(
    is_refused: bool,
    text: Option<&str>,
    left: Option<&str>,
    written: &str,
) -> Result<bool, Error> {
    if is_refused {
        refused_if(text == left)
    } else {
        Ok(text == Some(written))
    }
}

/// The number of the allocation that fails.
const FAILING: usize = 1000;

/// Parses a decimal number.
fn number_of(bytes: &[u8]) -> Option<usize> {
    str::from_utf8(bytes).ok()?.parse().ok()
}

/// Allocates so many times, or until an allocation fails. Returns `true` if one fails.
fn is_refused(alloc: Global, count: usize) -> bool {
    let mut refused = false;
    for _ in 0..count {
        refused = refused || Vec::<u8>::with_capacity(alloc, 1).is_err();
    }
    refused
}

/// The answers of the calls.
#[derive(Clone, Copy, Drop)]
enum Answers {
    /// This call returned that memory ran out, and each other call its usual result.
    OutOfMemory(usize),
    /// Each call returned its usual result.
    Usual,
    /// This call returned another result, or is the second one that returned that memory ran out.
    Other(usize),
}

/// Makes each call.
fn make_calls(alloc: Global) -> Answers {
    let mut answers = Answers::Usual;
    for (number, &call) in CALLS.iter().enumerate() {
        match perform(alloc, call) {
            Ok(true) => {}
            Err(error) if error.is_out_of_memory() && matches!(answers, Answers::Usual) => {
                answers = Answers::OutOfMemory(number);
            }
            _ => return Answers::Other(number),
        }
    }
    answers
}

/// Makes each call often, and prints the number of each that loses memory.
fn print_losses(rt: &HostRuntime) -> io::Result<()> {
    for (number, call) in CALLS.iter().enumerate() {
        if !keeps_memory(rt, call)? {
            println!(rt; "call {number} loses memory")?;
        }
    }
    Ok(())
}

fn main(rt: HostRuntime) -> io::Result<ExitCode> {
    let alloc = rt.alloc();
    let mut bytes = [0; 3];
    let len = rt.stdin().read(&mut bytes)?;
    let request = number_of(bytes.get(..len).unwrap_or(&[]));
    let early = is_refused(alloc, FAILING.saturating_sub(request.unwrap_or(FAILING)));
    let answers = make_calls(alloc);
    let has_failed = request.is_some() && !is_refused(alloc, FAILING);
    match answers {
        Answers::OutOfMemory(number) if has_failed && !early => {
            println!(rt; "call {number} is out of memory")?;
        }
        Answers::Usual if has_failed && !early => println!(rt; "each call is made nevertheless")?,
        Answers::Usual if !early => {
            println!(rt; "{} made", CALLS.len())?;
            if request.is_none() {
                print_losses(&rt)?;
            }
        }
        Answers::Usual => println!(rt; "an allocation failed before the calls")?,
        Answers::OutOfMemory(number) | Answers::Other(number) => {
            println!(rt; "call {number} answers otherwise")?;
            return Ok(ExitCode::FAILURE);
        }
    }
    Ok(ExitCode::SUCCESS)
}
