//! Replays a list of inputs with known results.
//!
//! Each line of standard input is `TYPE VERSION HEX CALLS ANSWER`: the field type, the version, the input in
//! hexadecimal (`-` for no bytes), the number of calls of a visitor, and the result. The result is `ok HEX` with the
//! canonical text, `ok none` for an empty list or dictionary, or `err MESSAGE`. The program prints each line with
//! another result, and the numbers of lines.
//!
//! For an error without a rule for its index, the program checks that the text before the index can be completed to an
//! accepted text. With one byte more, it cannot (`positions`). For each line, it checks the number of calls of a
//! visitor, and that a visitor that fails at one of these calls is not called again (`failures`).
#![tactic(auto)]

mod failures;
mod positions;
mod replay;

use crate::failures::calls_of;
use crate::positions::{is_reach, stands_at_reach};
use crate::replay::{Case, answer_of, canonical_text, input_of, parse_line};
use sfv::{FieldKind, Version};
use std::alloc::Global;
use std::io;
use std::io::{BufRead, BufReader};
use std::process::ExitCode;

/// Returns the index of the error of an input, if errors of this kind are always at the reach of the text.
fn fault_at_reach(
    alloc: Global,
    field: FieldKind,
    version: Version,
    input: &[u8],
) -> Option<usize> {
    match canonical_text(alloc, field, version, input) {
        Err(error) if stands_at_reach(error.kind()) => error.index(),
        _ => None,
    }
}

/// The number of checks, and of failed checks.
#[derive(Clone, Copy, Default)]
struct Tries {
    all: u64,
    failed: u64,
}

impl Tries {
    /// Counts a check, and returns `true` if it failed.
    fn fails(&mut self, passed: bool) -> bool {
        self.all = self.all.saturating_add(1);
        if !passed {
            self.failed = self.failed.saturating_add(1);
        }
        !passed
    }
}

/// The checks of results, of indexes and of calls.
#[derive(Clone, Copy, Default)]
struct Counts {
    answers: Tries,
    faults: Tries,
    visits: Tries,
}

impl Counts {
    /// Returns `true` if no check failed.
    fn has_passed(&self) -> bool {
        self.answers.failed == 0 && self.faults.failed == 0 && self.visits.failed == 0
    }

    /// Checks the case of a line, and prints the line for each failed check.
    fn try_case(
        &mut self,
        rt: &HostRuntime,
        line: &str,
        case: &Case<'_>,
        input: &[u8],
    ) -> io::Result<()> {
        let (alloc, field, version) = (rt.alloc(), case.field, case.version);
        let got = answer_of(alloc, field, version, input)?;
        if self.answers.fails(got.as_str() == case.answer) {
            println!(rt; "differs: {line}, but got {got}")?;
        }
        if let Some(index) = fault_at_reach(alloc, field, version, input) {
            if self
                .faults
                .fails(is_reach(alloc, field, version, input, index)?)
            {
                println!(rt; "goes on elsewhere: {line}")?;
            }
        }
        if self
            .visits
            .fails(calls_of(alloc, field, version, input) == Some(case.calls))
        {
            println!(rt; "is visited otherwise: {line}")?;
        }
        Ok(())
    }

    /// Checks a line. Returns `false` if it is malformed.
    fn try_line(&mut self, rt: &HostRuntime, line: &str) -> io::Result<bool> {
        let Some(case) = parse_line(line) else {
            println!(rt; "can't be read: {line}")?;
            return Ok(false);
        };
        let Some(input) = input_of(rt.alloc(), &case) else {
            println!(rt; "has no hexadecimal: {line}")?;
            return Ok(false);
        };
        self.try_case(rt, line, &case, &input)?;
        Ok(true)
    }

    /// Prints the numbers of checks.
    fn print(&self, rt: &HostRuntime) -> io::Result<()> {
        let Counts {
            answers,
            faults,
            visits,
        } = self;
        println!(rt; "{} lines, {} differ", answers.all, answers.failed)?;
        println!(rt;
            "{} faults at the reach, {} elsewhere",
            faults.all, faults.failed
        )?;
        println!(rt;
            "{} visited with a failure at each call, {} otherwise",
            visits.all, visits.failed
        )
    }
}

fn main(rt: HostRuntime) -> io::Result<ExitCode> {
    let alloc = rt.alloc();
    let mut counts = Counts::default();
    for line in BufReader::new(alloc, rt.reader())?.lines(alloc) {
        if !counts.try_line(&rt, line?.as_str())? {
            return Ok(ExitCode::FAILURE);
        }
    }
    counts.print(&rt)?;
    Ok(if counts.has_passed() {
        ExitCode::SUCCESS
    } else {
        ExitCode::FAILURE
    })
}
