//! The program `sfv_lint`: checks the structured fields of an HTTP head, or one value, on standard input.
#![tactic(auto)]

ghost use Rattle.std.specs.Prelude.{◌≡◌, ◌⊎◌, if◌then◌else◌};
ghost use Rattle.sfv_lint_args.specs.Options.{has_colors};
ghost use Rattle.sfv_lint_head.specs.declared.paint.Colors.TheVariants as colors;
ghost use Rattle.sfv_lint.specs.Status.{is_set, run_status, IsWritten, IsReported, IsLinted};

use sfv::{HashSeed, random_seed};
use sfv_lint_args::options::{ColorChoice, Options, parse_arguments};
use sfv_lint_head::paint::Colors;
use sfv_lint_output::run::{Failure, explanation, run};
use std::alloc::{AllocGlobal, Global};
use std::env::{Env, VarError};
use std::io::{IsTerminal, Read, Write};
use std::process::ExitCode;
use std::random::RandomSource;
use std::{env, io};

/// The exit status for wrong arguments, for input that is no head, and if the output cannot be made or written.
const WRONG: u8 = 2;

/// Returns the arguments with the name of the program.
fn arguments<R: Env + AllocGlobal>(rt: &R) -> io::Result<Vec<String>> {
    let mut args = Vec::new(rt.alloc());
    for arg in env::args(rt)? {
        args.push(arg)?;
    }
    Ok(args)
}

/// Returns the exit status for arguments without a run: 0 if they ask for help, and `WRONG` for a mistake.
fn usage_status(is_mistake: bool) -> u8
    ensures { result ≡ (if is_mistake then 2 else 0) }
{
    if is_mistake { WRONG } else { 0 }
}

/// Returns `true` if the variable is set and not empty, or cannot be read.
fn is_set(variable: Result<String, VarError>) -> bool
    ensures { result ≡ is_set variable }
{
    match variable {
        Ok(value) => !value.is_empty(),
        Err(VarError::NotPresent) => false,
        Err(_) => true,
    }
}

/// Returns the colors of the output. `no_color` is the variable `NO_COLOR`.
fn colors(choice: ColorChoice, is_terminal: bool, no_color: bool) -> Colors
    ensures { result ≡ (if has_colors choice is_terminal no_color then colors.On else colors.Off) }
{
    if choice.has_colors(is_terminal, no_color) {
        Colors::On
    } else {
        Colors::Off
    }
}

/// Writes a text, and returns the status, or `WRONG` if it cannot be written.
fn write<W: Write>(output: &mut W, text: &str, status: u8) -> u8
    ensures { IsWritten text.now status (W.contents output.old) (W.contents output.new) result }
{
    match output.write_all(text.as_bytes()) {
        Ok(()) => status,
        Err(_) => WRONG,
    }
}

/// Writes the reason why a run has no output.
fn write_failure<W: Write>(errors: &mut W, failure: Failure) -> u8
    ensures { result ≡ 2 }
{
    let _ = writeln!(errors, "sfv_lint: {failure}");
    WRONG
}

/// Returns the exit status of a run with an output.
fn status_of(failed: bool) -> u8
    ensures { result ≡ run_status failed }
{
    if failed { 1 } else { 0 }
}

/// Writes the report on an input. Returns the exit status.
fn report<O: Write, E: Write>(
    alloc: Global,
    seed: HashSeed,
    options: &Options<'_>,
    colors: Colors,
    input: &[u8],
    output: &mut O,
    errors: &mut E,
) -> u8
    ensures { (result ≡ 2) ⊎ IsReported options.now colors input.now (O.contents output.old) (O.contents output.new) result }
{
    match run(alloc, seed, options, colors, input) {
        Ok(report) => write(output, report.text.as_str(), status_of(report.failed)),
        Err(failure) => write_failure(errors, failure),
    }
}

/// Reads all of the input, and writes the report on it. Returns the exit status.
fn lint<I: Read, O: Write, E: Write>(
    alloc: Global,
    seed: HashSeed,
    options: &Options<'_>,
    colors: Colors,
    input: &mut I,
    output: &mut O,
    errors: &mut E,
) -> u8
    ensures { (result ≡ 2) ⊎ IsLinted options.now colors (I.remaining input.old)
        (O.contents output.old) (O.contents output.new) result }
{
    let mut bytes = Vec::new(alloc);
    if input.read_to_end(&mut bytes).is_err() {
        return write(errors, "sfv_lint: cannot read the input\n", WRONG);
    }
    report(
        alloc,
        seed,
        options,
        colors,
        bytes.as_slice(),
        output,
        errors,
    )
}

/// Writes what a kind of error means. Returns the exit status.
fn write_explanation<O: Write, E: Write>(
    alloc: Global,
    name: &str,
    output: &mut O,
    errors: &mut E,
) -> u8
    ensures { (result ≡ 0) ⊎ (result ≡ 2) }
{
    match explanation(alloc, name) {
        Ok(text) => write(output, text.as_str(), 0),
        Err(_) => write_failure(errors, Failure::OutOfMemory),
    }
}

fn main(rt: HostRuntime) -> ExitCode {
    let (mut output, mut errors) = (rt.stdout(), rt.stderr());
    let Ok(args) = arguments(&rt) else {
        let reason = "sfv_lint: the arguments are not UTF-8\n";
        return ExitCode::from(write(&mut errors, reason, WRONG));
    };
    let options = match parse_arguments(rt.alloc(), args.as_slice()) {
        Ok(options) => options,
        Err(error) => {
            let _ = error.print(&rt);
            return ExitCode::from(usage_status(error.use_stderr()));
        }
    };
    if let Some(name) = options.explain {
        let status = write_explanation(rt.alloc(), name, &mut output, &mut errors);
        return ExitCode::from(status);
    }
    let no_color = is_set(env::var(&rt, "NO_COLOR"));
    let colors = colors(options.color, output.is_terminal(), no_color);
    let Ok(seed) = random_seed(|bytes| rt.fill_bytes(bytes)) else {
        return ExitCode::from(write(&mut errors, "sfv_lint: no random seed\n", WRONG));
    };
    ExitCode::from(lint(
        rt.alloc(),
        seed,
        &options,
        colors,
        &mut rt.stdin(),
        &mut output,
        &mut errors,
    ))
}
