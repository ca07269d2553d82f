//! Random messages, as rows of tables.

use sfv_random::Random;
use std::alloc::{AllocError, Global};

/// The names of identifiers. The first four have lines, and the last is a token.
pub const NAMES: &[&str] = &[
    "a",
    "b",
    "dict",
    "broken",
    "missing",
    "A",
    "@method",
    "@path",
    "@query-param",
    "@signature-params",
    "@other",
    "token",
];

/// The name of the dictionary in `NAMES`, of the field that is none, and of the token.
pub const DICT: usize = 2;

pub const BROKEN: usize = 3;

pub const TOKEN: usize = 11;

/// The key of a parameter, its text, and whether its value has the type of the key.
pub const PARAMS: &[(&str, &str, bool)] = &[
    ("sf", ";sf", true),
    ("bs", ";bs", true),
    ("tr", ";tr", true),
    ("req", ";req", true),
    ("key", ";key=\"a\"", true),
    ("key", ";key=\"c\"", true),
    ("name", ";name=\"q\"", true),
    ("sf", ";sf=?0", false),
    ("key", ";key=1", false),
    ("x", ";x", true),
];

/// The lines of fields that are no dictionary, unless one empty line is the field.
pub const PLAIN: &[&[u8]] = &[
    b"",
    b"\t ",
    b"!x",
    b" !y\t",
    b"!v, w",
    b"!\xc3\xa9",
    b"!\xff",
    b"!z",
];

/// The lines of a dictionary, each with its members: the key, the text of the member, and both.
pub const DICTS: &[(&[u8], &[(&str, &str, &str)])] = &[
    (b"a=1", &[("a", "1", "a=1")]),
    (
        b" b=2;x,  a=(1   2);y\t",
        &[("b", "2;x", "b=2;x"), ("a", "(1 2);y", "a=(1 2);y")],
    ),
    (b"d, a", &[("d", "?1", "d"), ("a", "?1", "a")]),
    (
        b"a=:AA==:;p=1.50",
        &[("a", ":AA==:;p=1.5", "a=:AA==:;p=1.5")],
    ),
];

/// The derived components of a message.
pub const DERIVED: &[&[(&str, &str)]] = &[
    &[("@method", "POST"), ("@path", "/")],
    &[("@method", "G\nT"), ("@path", "/p")],
    &[("@path", "/\u{e9}"), ("@path", "/second")],
    &[("@method", "GET"), ("@path", "")],
];

/// The query parameters of each message.
pub const QUERY: &[(&str, &str)] = &[("q", "1"), ("q", "2")];

/// A line: its name in `NAMES`, and its row in `PLAIN`, or in `DICTS` for the dictionary.
#[derive(Clone, Copy)]
pub struct Line {
    pub name: usize,
    pub row: usize,
}

/// Returns the bytes of a line.
pub fn line_bytes(line: Line) -> &'static [u8] {
    if line.name == DICT {
        return match DICTS.get(line.row % 4) {
            Some(row) => row.0,
            None => b"",
        };
    }
    if line.name == BROKEN {
        return b"a=,";
    }
    match PLAIN.get(line.row) {
        Some(bytes) => bytes,
        None => b"",
    }
}

/// An identifier: its name in `NAMES`, and its parameters in `PARAMS`, with different keys.
#[derive(Drop)]
pub struct Identifier {
    pub name: usize,
    pub params: Vec<usize>,
}

/// A message, and the identifiers of an inner list.
#[derive(Drop)]
pub struct Sample {
    pub own: Vec<Line>,
    pub trailers: Vec<Line>,
    pub request: Vec<Line>,
    pub derived: usize,
    pub request_derived: usize,
    pub list: Vec<Identifier>,
}

/// Returns random lines.
pub fn random_lines(
    alloc: Global,
    random: &mut Random,
    least: usize,
) -> Result<Vec<Line>, AllocError> {
    let mut lines = Vec::new(alloc);
    let count = random.below(6).saturating_add(least);
    for _ in 0..count {
        let name = random.below(4);
        let row = random.below(8);
        lines.push(Line { name, row })?;
    }
    Ok(lines)
}

// Returns the key of a row of `PARAMS`.
fn key_of(row: usize) -> &'static str {
    match PARAMS.get(row) {
        Some(param) => param.0,
        None => "",
    }
}

fn has_key(params: &[usize], key: &str) -> bool {
    for row in params {
        if key_of(*row) == key {
            return true;
        }
    }
    false
}

// Three of four identifiers name fields and known components, and most have no parameter.
fn random_identifier(alloc: Global, random: &mut Random) -> Result<Identifier, AllocError> {
    let mut params = Vec::new(alloc);
    let is_odd = random.below(16) == 0;
    let name = if is_odd {
        random.below(12)
    } else {
        match random.below(5) {
            3 => 6,
            4 => 7,
            name => name,
        }
    };
    let count = if random.below(2) == 0 {
        random.below(4)
    } else {
        0
    };
    for _ in 0..count {
        let row = random.below(if is_odd { 10 } else { 5 });
        if !has_key(params.as_slice(), key_of(row)) {
            params.push(row)?;
        }
    }
    Ok(Identifier { name, params })
}

/// Returns random identifiers.
pub fn random_list(alloc: Global, random: &mut Random) -> Result<Vec<Identifier>, AllocError> {
    let mut list = Vec::new(alloc);
    let count = random.below(5);
    for _ in 0..count {
        list.push(random_identifier(alloc, random)?)?;
    }
    Ok(list)
}

/// Returns a random message with random identifiers.
pub fn random_sample(alloc: Global, random: &mut Random) -> Result<Sample, AllocError> {
    let own = random_lines(alloc, random, 3)?;
    let trailers = random_lines(alloc, random, 3)?;
    let request = random_lines(alloc, random, 3)?;
    let derived = random.below(4);
    let request_derived = random.below(4);
    let list = random_list(alloc, random)?;
    Ok(Sample {
        own,
        trailers,
        request,
        derived,
        request_derived,
        list,
    })
}
