//! The program `sfv_tool`: parses a structured field and prints its canonical text. For a Priority field, it prints the
//! members without their default value.
#![tactic(auto)]

use sfv_tool_lib::run::{report, run_with_random_seed};
use std::alloc::AllocGlobal;
use std::env::Env;
use std::io::{ErrorKind, Write};
use std::process::ExitCode;
use std::{env, io};

/// Returns the arguments after the name of the program.
fn arguments<R: Env + AllocGlobal>(rt: &R) -> io::Result<Vec<String>> {
    let mut args = Vec::new(rt.alloc());
    for arg in env::args(rt)?.skip(1) {
        args.push(arg)?;
    }
    Ok(args)
}

fn main(rt: HostRuntime) -> ExitCode {
    let args = match arguments(&rt) {
        Ok(args) => args,
        Err(error) if error.kind() == ErrorKind::OutOfMemory => {
            let _ = rt.stderr().write_all(b"error: out of memory\n");
            return ExitCode::FAILURE;
        }
        // An argument is not UTF-8, so the arguments are wrong. No arguments are wrong too.
        Err(_) => Vec::new(rt.alloc()),
    };
    let outcome = run_with_random_seed(
        rt.alloc(),
        &rt,
        args.as_slice(),
        &mut rt.stdin(),
        &mut rt.stdout(),
    );
    ExitCode::from(report(outcome, &mut rt.stderr()))
}
