//! Structured fields for callers in C. `include/sfv.h` describes each call, and `docs/C.md` shows how to use them.
//!
//! Field types, versions and kinds are numbers here. Any other number is a bad argument, so no call has a precondition.
#![tactic(auto)]

ghost use Rattle.std.specs.Prelude.{◌≡◌, None, length};
ghost use Rattle.sfv_c.specs.Numbers.{named_field, named_version, Names, NamesThree};
ghost use Rattle.sfv.specs.HashSeeds.{seed_of};
ghost use Rattle.sfv_c.specs.Answers.{bad_argument, IsBuiltIfWritten, IsCanonical, IsCheck, IsMessage};
ghost use Rattle.sfv_c.specs.Events.{left_alone, PutsEvents};
ghost use Rattle.sfv_c.specs.Writing.{IsWrite};

mod answer;
mod canonical;
mod check;
mod events;
mod message;
mod numbers;
mod output;
mod reading;
mod row_event;
mod rows;
mod rows_to_text;
mod write;

use crate::answer::{Answer, BAD_ARGUMENT};
use crate::canonical::canonical;
use crate::check::check;
use crate::events::put_events;
use crate::message::message;
use crate::numbers::{field_of, version_of};
use crate::rows::Row;
use crate::write::write;
use sfv::{HashSeed, Parser};
use std::alloc::Global;

/// Parses the input as a field of this type under `reading`, and writes its canonical text for `writing` to the start
/// of `out`. Each map hashes under the seed of this number.
///
/// # Errors
///
/// Returns status 3 with kind and index, or status 4 if memory runs out, as for `Parser::parse`. Returns status 6, with
/// the kind of the first value that `writing` lacks. Returns status 2, with the length of the text, if `out` is too
/// small. Returns status 1 for a list or dictionary without members. Returns status 5 for a number that names no field
/// type or version. `out` is then unchanged.
#[unsafe(no_mangle)]
pub extern "C" fn sfv_c_canonical(
    alloc: Global,
    field: u32,
    reading: u32,
    writing: u32,
    seed: u64,
    input: &[u8],
    out: &mut [u8],
) -> Answer
    ensures named { NamesThree field reading writing
        (λ k r w. IsCanonical r w k input.now out.old out.new result) }
    ensures seed { NamesThree field reading writing (λ k r w. IsBuiltIfWritten (seed_of seed) r k input.now result) }
    ensures no_field { named_field field ≡ None → (result ≡ bad_argument) × (out.new ≡ out.old) }
    ensures no_reading { named_version reading ≡ None → (result ≡ bad_argument) × (out.new ≡ out.old) }
    ensures no_writing { named_version writing ≡ None → (result ≡ bad_argument) × (out.new ≡ out.old) }
{
    let Some(field) = field_of(field) else {
        return BAD_ARGUMENT;
    };
    let Some(reading) = version_of(reading) else {
        return BAD_ARGUMENT;
    };
    let Some(writing) = version_of(writing) else {
        return BAD_ARGUMENT;
    };
    let parser = Parser::new(input)
        .with_version(reading)
        .with_hash_seed(HashSeed::new(seed));
    canonical(alloc, field, parser, writing, out)
}

/// Returns status 0 if the input is a field of this type under the version.
///
/// # Errors
///
/// Returns status 3 with kind and index, as for `Parser::parse`. Returns status 4 if memory runs out. This happens only
/// if the input contains a backslash, a percent sign or a colon. Returns status 5 for a number that names no field type
/// or version.
#[unsafe(no_mangle)]
pub extern "C" fn sfv_c_check(alloc: Global, field: u32, version: u32, input: &[u8]) -> Answer
    ensures named { Names field version (λ k v. IsCheck v k input.now result) }
    ensures no_field { named_field field ≡ None → result ≡ bad_argument }
    ensures no_version { named_version version ≡ None → result ≡ bad_argument }
{
    let Some(field) = field_of(field) else {
        return BAD_ARGUMENT;
    };
    let Some(version) = version_of(version) else {
        return BAD_ARGUMENT;
    };
    check(alloc, field, Parser::new(input).with_version(version))
}

/// Parses the input as a field of this type under the version, and writes a row for each event to `rows`. Builds no map.
///
/// Keys and most texts point into the input. Byte sequences, and strings and display strings with escapes, are decoded
/// into `room`, and their rows point there.
///
/// # Errors
///
/// Returns status 3 with kind and index, as for `Parser::parse`. Returns status 4 if memory runs out. This happens only
/// if the input contains a backslash, a percent sign or a colon. Returns status 2, with the number of events and the
/// length of `room` that they need, if a buffer is too small. After these, `rows` and `room` can contain anything.
/// Returns status 5 for a number that names no field type or version, and then `rows` is unchanged.
#[unsafe(no_mangle)]
pub extern "C" fn sfv_c_spans<'a>(
    alloc: Global,
    field: u32,
    version: u32,
    input: &'a [u8],
    rows: &mut [Row<'a>],
    room: &'a mut [u8],
) -> Answer
    ensures named { Names field version
        (λ k v. PutsEvents v k input.now rows.old (length room.old) (rows.new, result)) }
    ensures no_field { named_field field ≡ None → (rows.new, result) ≡ left_alone rows.old }
    ensures no_version { named_version version ≡ None → (rows.new, result) ≡ left_alone rows.old }
{
    let Some(field) = field_of(field) else {
        return BAD_ARGUMENT;
    };
    let Some(version) = version_of(version) else {
        return BAD_ARGUMENT;
    };
    let parser = Parser::new(input).with_version(version);
    put_events(alloc, field, parser, rows, room)
}

/// Writes the canonical text, for the version, of the field of these rows to the start of `out`. The rows are as
/// `sfv_c_spans` writes them. A repeated key is written each time.
///
/// # Errors
///
/// Returns status 7 if no field of this type has these rows. The index is the first row that no such field has there,
/// or the number of rows if more must follow. Returns status 6, with the kind of the first value that the version
/// lacks. Returns status 4 if memory runs out, only if the first two rows begin a field. Returns status 2, with the
/// length of the text, if `out` is too small. Returns status 1 for a list or dictionary without members. Returns status
/// 5 for a number that names no field type or version. `out` is then unchanged.
#[unsafe(no_mangle)]
pub extern "C" fn sfv_c_write_spans(
    alloc: Global,
    field: u32,
    version: u32,
    rows: &[Row<'_>],
    out: &mut [u8],
) -> Answer
    ensures named { Names field version (λ k w. IsWrite w k rows.now out.old out.new result) }
    ensures no_field { named_field field ≡ None → (result ≡ bad_argument) × (out.new ≡ out.old) }
    ensures no_version { named_version version ≡ None → (result ≡ bad_argument) × (out.new ≡ out.old) }
{
    let Some(field) = field_of(field) else {
        return BAD_ARGUMENT;
    };
    let Some(version) = version_of(version) else {
        return BAD_ARGUMENT;
    };
    write(alloc, field, version, rows, out)
}

/// Returns the number of this interface. A change of a number, a struct or a signature raises it.
#[unsafe(no_mangle)]
pub extern "C" fn sfv_c_abi() -> u32
    ensures { result ≡ 1 }
{
    1
}

/// Writes the message of the error kind with this number to the start of `out`.
///
/// # Errors
///
/// Returns status 5 if no kind has this number. Returns status 2, with the length of the message, if `out` is too
/// small. `out` is then unchanged.
#[unsafe(no_mangle)]
pub extern "C" fn sfv_c_message(kind: u32, out: &mut [u8]) -> Answer
    ensures { IsMessage kind out.old out.new result }
{
    message(kind, out)
}

#[cfg(test)]
mod tests;
