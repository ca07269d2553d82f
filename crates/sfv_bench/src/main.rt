//! The program `sfv_bench`: jobs of the library to be timed. `sfv_bench JOB SEED ROUNDS` prints a digest of all results.
//!
//! The seed determines the fields. Each round changes every field. The jobs are:
//!
//! - `parse`: small fields to trees, with look-ups; some fields come in two lines;
//! - `read`: small fields and heads of requests without trees;
//! - `rewrite`: small fields to trees and to their canonical texts, under both versions;
//! - `write`: small fields call by call, and by lists of calls;
//! - `reject`: small fields with an error;
//! - `large`: fields of 200 KB to trees and to their canonical texts, and a field of keys that collide;
//! - `keys`: 1,000 colliding keys for each round, under the library's seed and a random one, with times;
//! - `all`: each job.
#![tactic(auto)]

mod digest;
mod fields;
mod keys;
mod large;
mod parse;
mod read;
mod reject;
mod rewrite;
mod summary;
mod templates;
mod write;

use crate::digest::Digest;
use crate::fields::Field;
use crate::keys::print_keys;
use crate::large::{KINDS, large_field};
use crate::templates::{Shape, any_field, head};
use sfv::{Error, FieldKind, HashSeed};
use sfv_random::Random;
use std::alloc::Global;
use std::process::ExitCode;
use std::{env, io};

/// The number of small fields.
const FIELDS: u32 = 2_000;

/// Returns the small fields of a seed. With heads, each fourth one is the head of a request.
fn small_fields(
    alloc: Global,
    random: &mut Random,
    with_heads: bool,
) -> Result<Vec<(Shape, Field)>, Error> {
    let mut fields = Vec::new(alloc);
    for number in 0..FIELDS {
        if with_heads && number % 4 == 0 {
            fields.push(head(alloc, random, number)?)?;
        } else {
            fields.push(any_field(alloc, random, number)?)?;
        }
    }
    Ok(fields)
}

/// Parses small fields to trees. Each eighth field comes in two lines.
fn parse_all(alloc: Global, seed: u64, rounds: u64) -> Result<u64, Error> {
    let mut digest = Digest::new();
    let hash_seed = HashSeed::new(seed);
    let mut fields = small_fields(alloc, &mut Random::new(seed), false)?;
    for round in 0..rounds {
        for (number, (_, field)) in fields.iter_mut().enumerate() {
            field.change();
            if number % 8 == 0 && round % 2 == 0 {
                parse::parse_lines(alloc, hash_seed, field, &mut digest)?;
            } else {
                parse::parse(alloc, hash_seed, field, &mut digest)?;
            }
        }
    }
    Ok(digest.finish())
}

/// Reads small fields and heads of requests without trees.
fn read_all(alloc: Global, seed: u64, rounds: u64) -> Result<u64, Error> {
    let mut digest = Digest::new();
    let mut fields = small_fields(alloc, &mut Random::new(seed), true)?;
    for _ in 0..rounds {
        for (shape, field) in fields.iter_mut() {
            field.change();
            read::read(alloc, *shape, field, &mut digest)?;
        }
    }
    Ok(digest.finish())
}

/// Rewrites small fields. Each third one is written for the older version.
fn rewrite_all(alloc: Global, seed: u64, rounds: u64) -> Result<u64, Error> {
    let mut digest = Digest::new();
    let hash_seed = HashSeed::new(seed);
    let mut fields = small_fields(alloc, &mut Random::new(seed), false)?;
    for _ in 0..rounds {
        for (number, (_, field)) in fields.iter_mut().enumerate() {
            field.change();
            if number % 3 == 0 {
                rewrite::rewrite_older(alloc, hash_seed, field, &mut digest)?;
            } else {
                rewrite::rewrite(alloc, hash_seed, field, &mut digest)?;
            }
        }
    }
    Ok(digest.finish())
}

/// Writes small fields.
fn write_all(alloc: Global, seed: u64, rounds: u64) -> Result<u64, Error> {
    let mut digest = Digest::new();
    let mut random = Random::new(seed);
    let mut path = Field::new(alloc, FieldKind::Item);
    path.push(&mut random, "/path/to/^^^^/&", 0)?;
    let mut word = Field::new(alloc, FieldKind::Item);
    word.push(&mut random, "uri-miss-&", 0)?;
    let mut bytes = Field::new(alloc, FieldKind::Item);
    bytes.push(&mut random, "$$$$$$$$$$$$$$$$$$$$$$$$&", 0)?;
    for _ in 0..rounds {
        path.change();
        word.change();
        bytes.change();
        let parts = write::parts_of(&path.text, &word.text, &bytes.text)?;
        for kind in 0..8 {
            write::write(alloc, kind, &parts, &mut random, &mut digest)?;
        }
    }
    Ok(digest.finish())
}

/// Rejects small fields: half of them by a tree, half by a check.
fn reject_all(alloc: Global, seed: u64, rounds: u64) -> Result<u64, Error> {
    let mut digest = Digest::new();
    let hash_seed = HashSeed::new(seed);
    let mut random = Random::new(seed);
    let mut fields = small_fields(alloc, &mut random, false)?;
    for (_, field) in fields.iter_mut() {
        reject::spoil(alloc, &mut random, field)?;
    }
    for round in 0..rounds {
        for (_, field) in fields.iter_mut() {
            field.change();
            if round % 2 == 0 {
                reject::reject(alloc, hash_seed, field, &mut digest);
            } else {
                reject::check(alloc, field, &mut digest);
            }
        }
    }
    Ok(digest.finish())
}

/// Rewrites large fields.
fn large_all(alloc: Global, seed: u64, rounds: u64) -> Result<u64, Error> {
    let mut digest = Digest::new();
    let mut random = Random::new(seed);
    for kind in 0..KINDS {
        let mut field = large_field(alloc, &mut random, kind)?;
        for _ in 0..rounds {
            field.change();
            rewrite::rewrite(alloc, HashSeed::default(), &field, &mut digest)?;
        }
    }
    Ok(digest.finish())
}

/// Prints the digest of a job, or its error. Returns `true` for a digest.
fn report(rt: &HostRuntime, job: &str, digest: Result<u64, Error>) -> io::Result<bool> {
    match digest {
        Ok(digest) => {
            println!(rt; "{job} {digest:016x}")?;
            Ok(true)
        }
        Err(error) => {
            eprintln!(rt; "{job}: {error}")?;
            Ok(false)
        }
    }
}

/// Does a job, and prints its digest or its times. Returns `false` after an error, or if there is no such job.
fn perform(rt: &HostRuntime, job: &str, seed: u64, rounds: u64) -> io::Result<bool> {
    let alloc = rt.alloc();
    match job {
        "parse" => report(rt, job, parse_all(alloc, seed, rounds)),
        "read" => report(rt, job, read_all(alloc, seed, rounds)),
        "rewrite" => report(rt, job, rewrite_all(alloc, seed, rounds)),
        "write" => report(rt, job, write_all(alloc, seed, rounds)),
        "reject" => report(rt, job, reject_all(alloc, seed, rounds)),
        "large" => report(rt, job, large_all(alloc, seed, rounds)),
        "keys" => {
            print_keys(rt, rounds.saturating_mul(1000))?;
            Ok(true)
        }
        _ => Ok(false),
    }
}

fn main(rt: HostRuntime) -> io::Result<ExitCode> {
    let mut args = env::args(&rt)?.skip(1);
    let job = args.next();
    let seed = args.next().and_then(|arg| arg.as_str().parse::<u32>().ok());
    let rounds = args.next().and_then(|arg| arg.as_str().parse::<u32>().ok());
    let (Some(job), Some(seed), Some(rounds)) = (job, seed, rounds) else {
        eprintln!(rt; "usage: sfv_bench JOB SEED ROUNDS")?;
        return Ok(ExitCode::from(2));
    };
    let (seed, rounds) = (u64::from(seed), u64::from(rounds));
    if job.as_str() == "all" {
        for job in [
            "parse", "read", "rewrite", "write", "reject", "large", "keys",
        ] {
            if !perform(&rt, job, seed, rounds)? {
                return Ok(ExitCode::FAILURE);
            }
        }
        return Ok(ExitCode::SUCCESS);
    }
    if perform(&rt, job.as_str(), seed, rounds)? {
        Ok(ExitCode::SUCCESS)
    } else {
        Ok(ExitCode::FAILURE)
    }
}
