//! The program `sfv_signature_bench`: `sfv_signature_bench JOB ROUNDS` writes a signature base so many times, and prints it.
//! The jobs are:
//!
//! - `row`: the example of RFC 9421, section 2.5;
//! - `thirty`: ten components over a head of thirty lines.
#![tactic(auto)]

mod heads;

use crate::heads::{ROW, ROW_LIST, THIRTY, THIRTY_LIST};
use http_header::{HeaderMap, HeaderName, HeaderValue};
use sfv::{InnerList, List, ListEntry, Parser};
use sfv_signatures::{HttpMessage, MessagePart, signature_base};
use std::alloc::Global;
use std::process::ExitCode;
use std::{env, io};

const DERIVED: &[(&str, &str)] = &[
    ("@method", "POST"),
    ("@authority", "example.com"),
    ("@path", "/foo"),
];

// Appends a line.
fn append(alloc: Global, map: &mut HeaderMap, name: &str, value: &str) -> Option<()> {
    let name = HeaderName::from_bytes(alloc, name.as_bytes()).ok()?;
    let value = HeaderValue::from_bytes(alloc, value.as_bytes()).ok()?;
    map.append(name, value).ok()?;
    Some(())
}

// Returns the map of a head.
fn map_of(alloc: Global, head: &[(&str, &str)]) -> Option<HeaderMap> {
    let mut map = HeaderMap::new(alloc);
    for (name, value) in head {
        append(alloc, &mut map, name, value)?;
    }
    Some(map)
}

// Returns the inner list of a text.
fn list_of(alloc: Global, text: &str) -> Option<InnerList> {
    let mut members = Parser::new(text.as_bytes()).parse::<List>(alloc).ok()?;
    match members.pop() {
        Some(ListEntry::InnerList(list)) => Some(list),
        _ => None,
    }
}

fn message<'a>(fields: &'a HeaderMap, derived: &'a [(&'a str, &'a str)]) -> HttpMessage<'a> {
    HttpMessage {
        own: MessagePart {
            fields,
            trailers: None,
            derived,
            query_params: &[],
        },
        request: None,
        types: &[],
    }
}

// Returns the base, which is written so many times.
fn base_of(alloc: Global, list: &InnerList, fields: &HeaderMap, rounds: u32) -> Option<String> {
    let message = message(fields, DERIVED);
    let mut base = String::new(alloc);
    for _ in 0..rounds {
        base = signature_base(alloc, list, &message).ok()?;
    }
    Some(base)
}

// Does a job.
fn perform(alloc: Global, job: &str, rounds: u32) -> Option<String> {
    let (head, list) = match job {
        "row" => (ROW, ROW_LIST),
        "thirty" => (THIRTY, THIRTY_LIST),
        _ => return None,
    };
    let map = map_of(alloc, head)?;
    let list = list_of(alloc, list)?;
    base_of(alloc, &list, &map, rounds)
}

fn main(rt: HostRuntime) -> io::Result<ExitCode> {
    let mut args = env::args(&rt)?.skip(1);
    let job = args.next();
    let rounds = args.next().and_then(|arg| arg.as_str().parse::<u32>().ok());
    let (Some(job), Some(rounds)) = (job, rounds) else {
        eprintln!(rt; "usage: sfv_signature_bench JOB ROUNDS")?;
        return Ok(ExitCode::from(2));
    };
    match perform(rt.alloc(), job.as_str(), rounds) {
        Some(base) => {
            println!(rt; "{base}")?;
            Ok(ExitCode::SUCCESS)
        }
        None => Ok(ExitCode::FAILURE),
    }
}
