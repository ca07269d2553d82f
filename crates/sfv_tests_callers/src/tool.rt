//! Runs of the program `sfv_tool` over memory.

use crate::common::{ladder, of_size};
use sfv::{FieldKind, HashSeed, Version, random_seed};
use sfv_random::Random;
use sfv_tool_lib::answer::{answer, answer_priority};
use sfv_tool_lib::run::{report, run, run_with_random_seed};
use std::alloc::Global;
use std::cell::Cell;
use std::hash::{BuildHasher, Hasher};
use std::io;
use std::io::{ErrorKind, Read, Write};
use std::random::RandomSource;
use std::test::Fail;

/// A reader that fails after its bytes, with an error of this kind.
#[derive(Drop)]
struct Broken<'a> {
    left: &'a [u8],
    kind: ErrorKind,
}

impl Read for Broken<'_> {
    fn read(&mut self, buf: &mut [u8]) -> io::Result<usize> {
        if self.left.is_empty() {
            return Err(io::Error::from(self.kind));
        }
        self.left.read(buf)
    }
}

/// A writer with this room. It takes at most 1,000 bytes at once. Perhaps its `flush` fails.
#[derive(Drop)]
struct Output {
    text: Vec<u8>,
    room: usize,
    can_flush: bool,
    is_flushed: bool,
}

impl Write for Output {
    fn write(&mut self, buf: &[u8]) -> io::Result<usize> {
        let count = buf.len().min(1_000).min(self.room);
        if count == 0 || self.text.extend_from_slice(&buf[..count]).is_err() {
            return Err(io::Error::from(ErrorKind::StorageFull));
        }
        self.room -= count;
        self.is_flushed = false;
        Ok(count)
    }

    fn flush(&mut self) -> io::Result<()> {
        if !self.can_flush {
            return Err(io::Error::from(ErrorKind::StorageFull));
        }
        self.is_flushed = true;
        Ok(())
    }
}

/// Returns an empty output.
fn new_output(alloc: Global, room: usize, can_flush: bool) -> Output {
    Output {
        text: Vec::new(alloc),
        room,
        can_flush,
        is_flushed: false,
    }
}

/// Splits the arguments at spaces.
fn arguments(alloc: Global, args: &str) -> Option<Vec<String>> {
    let mut all = Vec::new(alloc);
    for arg in args.split(' ') {
        if !arg.is_empty() {
            all.push(String::from_str(alloc, arg).ok()?).ok()?;
        }
    }
    Some(all)
}

/// Returns the exit status of a run with these arguments, input and outputs.
fn status_of<R: Read, W: Write, E: Write>(
    alloc: Global,
    args: &str,
    input: &mut R,
    output: &mut W,
    errors: &mut E,
) -> Option<u8> {
    let args = arguments(alloc, args)?;
    let seed = HashSeed::new(1);
    let outcome = run(alloc, seed, args.as_slice(), input, output);
    Some(report(outcome, errors))
}

/// Returns `true` if a run over memory writes exactly these texts, and has this status.
fn ends(alloc: Global, args: &str, input: &str, wanted: (&str, &str, u8)) -> bool {
    let (mut output, mut errors) = (Vec::new(alloc), Vec::new(alloc));
    let mut input = input.as_bytes();
    let status = status_of(alloc, args, &mut input, &mut output, &mut errors);
    output.as_slice() == wanted.0.as_bytes()
        && errors.as_slice() == wanted.1.as_bytes()
        && status == Some(wanted.2)
}

/// Returns `true` if a run over memory writes this output and no error.
pub fn writes(alloc: Global, args: &str, input: &str, output: &str) -> bool {
    ends(alloc, args, input, (output, "", 0))
}

/// Returns `true` if a run over memory writes this error and no output.
pub fn fails(alloc: Global, args: &str, input: &str, error: &str) -> bool {
    ends(alloc, args, input, ("", error, 1))
}

/// Arguments, an input, and the output.
const WRITTEN: &[(&str, &str, &str)] = &[
    ("item 9651", "007.50;a=?1\n", "7.5;a\n"),
    ("item 9651", "007.50;a=?1", "7.5;a\n"),
    ("item 9651", "@5\n", "@5\n"),
    ("list 9651", "1 \t,\t 2\n", "1, 2\n"),
    ("list 9651", "\n", "\n"),
    ("dict 9651", "a=1;x, b=2, a=3\n", "a=3, b=2\n"),
    ("dict 9651", "", "\n"),
    ("dict 8941", "a, b;x=1", "a, b;x=1\n"),
    ("dict 9651 8941", "a=@1, a=2\n", "a=2\n"),
    ("dict 9651 9651", "a=@1\n", "a=@1\n"),
    ("list 9651 8941", "\n", "\n"),
    ("list 8941 8941", "1, (2 4)\n", "1, (2 4)\n"),
    ("item 9651 8941", "5\n", "5\n"),
    ("priority 9651", "u=1, i\n", "u=1, i\n"),
    ("priority 9651", "u=1, u=9\n", "\n"),
    ("priority 9651", "", "\n"),
    ("priority 9651", "u=1, x=@5\n", "u=1\n"),
];

// The third argument is the version to serialize under.
#[test]
fn what_is_read_is_written(rt: HostRuntime) {
    for &(args, input, output) in WRITTEN {
        assert!(rt; writes(rt.alloc(), args, input, output), "{args} {input}");
    }
}

const NO_ITEM: &str = "error: expected start of bare item at index 0\n";

const NO_DATE: &str = "error: RFC 8941 does not support dates\n";

/// Arguments, an input, and the error.
const REFUSED: &[(&str, &str, &str)] = &[
    (
        "item 9651",
        "1\n\n",
        "error: trailing characters after parsed value at index 1\n",
    ),
    ("item 9651", "", NO_ITEM),
    ("item 9651", "\n", NO_ITEM),
    (
        "item 8941",
        "@5\n",
        "error: RFC 8941 does not support dates at index 0\n",
    ),
    (
        "item 8941",
        "%\"x\"\n",
        "error: RFC 8941 does not support display strings at index 0\n",
    ),
    (
        "dict 8941",
        "a=@1",
        "error: RFC 8941 does not support dates at index 2\n",
    ),
    ("list 9651", "a ,b,\n", "error: trailing comma at index 4\n"),
    (
        "list 8941",
        "1;x=@5\n",
        "error: RFC 8941 does not support dates at index 4\n",
    ),
    (
        "dict 9651",
        "a=\n\n",
        "error: expected start of bare item at index 2\n",
    ),
    (
        "dict 9651 8941",
        "a=1;x=%\"q\", b=@2\n",
        "error: RFC 8941 does not support display strings\n",
    ),
    ("list 9651 8941", "1, (2;a=@3 4)\n", NO_DATE),
    ("item 9651 8941", "@5\n", NO_DATE),
    (
        "item 8941 9651",
        "@5\n",
        "error: RFC 8941 does not support dates at index 0\n",
    ),
    (
        "priority 9651",
        "u=1,\n",
        "error: trailing comma at index 3\n",
    ),
    (
        "priority 8941",
        "u=1, x=@5\n",
        "error: RFC 8941 does not support dates at index 7\n",
    ),
];

#[test]
fn faults_are_written_as_errors(rt: HostRuntime) {
    for &(args, input, error) in REFUSED {
        assert!(rt; fails(rt.alloc(), args, input, error), "{args} {input}");
    }
}

// The output is the input, or the error at its end, or that of the date.
#[test]
fn inputs_of_every_length_have_their_output(rt: HostRuntime) -> Result<(), Fail> {
    let alloc = rt.alloc();
    let mut holds = true;
    for &length in ladder(alloc, 2_200, 1 << 22)?.iter() {
        let text = of_size(alloc, ("a", "b", "", "\n"), length)?;
        holds &= writes(alloc, "item 9651", text.as_str(), text.as_str());
        let text = of_size(alloc, ("a", "b", "", ",\n"), length)?;
        let index = text.len().saturating_sub(2);
        let error = format!(in alloc; "error: trailing comma at index {index}\n")?;
        holds &= fails(alloc, "dict 9651", text.as_str(), error.as_str());
        let text = of_size(alloc, ("@1;a", "b", "", "\n"), length)?;
        holds &= fails(alloc, "item 9651 8941", text.as_str(), NO_DATE);
    }
    assert!(rt; holds);
    Ok(())
}

const USAGE: &str = "usage: sfv_tool item|list|dict 8941|9651 [8941|9651] | priority 8941|9651\n";

#[test]
fn other_arguments_have_the_usage(rt: HostRuntime) {
    let rows = &[
        "--help",
        "priority",
        "priority 9651 9651",
        "",
        "item",
        "item 9652",
        "Item 9651",
        "item 9651 9652",
        "item 9651 9651 9651",
        "item 9651 item",
        "lists 9651",
        "dictionary 9651",
        "dict",
        "9651 item",
    ];
    for &args in rows {
        assert!(rt; ends(rt.alloc(), args, "1\n", ("", USAGE, 2)), "{args}");
    }
}

/// Returns `true` if a run over an input that fails with this kind, after so many bytes, ends with this error.
fn is_unreadable(
    alloc: Global,
    args: &str,
    kind: ErrorKind,
    length: usize,
    error: &str,
) -> Result<bool, Fail> {
    let text = of_size(alloc, ("1;a", "b", "", ""), length)?;
    let left = text.as_str().as_bytes();
    let (mut output, mut errors) = (Vec::new(alloc), Vec::new(alloc));
    let status = status_of(
        alloc,
        args,
        &mut Broken { left, kind },
        &mut output,
        &mut errors,
    );
    Ok(status == Some(1) && output.is_empty() && errors.as_slice() == error.as_bytes())
}

/// Returns `true` if a run writes a text of this length, as far as there is room, and flushes it, or has the error.
fn is_written(alloc: Global, length: usize, room: usize, can_flush: bool) -> Result<bool, Fail> {
    let text = of_size(alloc, ("a", "b", "", "\n"), length)?;
    let mut input = text.as_str().as_bytes();
    let (mut output, mut errors) = (new_output(alloc, room, can_flush), Vec::new(alloc));
    let status = status_of(alloc, "item 9651", &mut input, &mut output, &mut errors);
    let is_whole = can_flush && text.len() <= room;
    let (wanted, error) = if is_whole {
        (0, "")
    } else {
        (1, "error: cannot write output\n")
    };
    let written = text.as_str().as_bytes().get(..text.len().min(room));
    Ok(
        status == Some(wanted)
            && errors.as_slice() == error.as_bytes()
            && written == Some(output.text.as_slice())
            && output.is_flushed == is_whole,
    )
}

/// Returns the status of a run whose errors cannot be written.
fn status_with_full_errors(alloc: Global, args: &str) -> Option<u8> {
    let (mut answer, mut errors) = (Vec::new(alloc), new_output(alloc, 0, true));
    let mut input = b"1,\n".as_slice();
    let status = status_of(alloc, args, &mut input, &mut answer, &mut errors)?;
    if answer.is_empty() {
        Some(status)
    } else {
        None
    }
}

// If the errors cannot be written, the status is the same.
#[test]
fn writers_may_fail(rt: HostRuntime) -> Result<(), Fail> {
    let alloc = rt.alloc();
    let mut holds = status_with_full_errors(alloc, "item 9651") == Some(1)
        && status_with_full_errors(alloc, "") == Some(2);
    for &length in ladder(alloc, 2, 1 << 19)?.iter() {
        for &room in &[
            0,
            1,
            length / 2,
            length.saturating_sub(1),
            length,
            usize::MAX,
        ] {
            holds &= is_written(alloc, length, room, true)?;
        }
        holds &= is_written(alloc, length, usize::MAX, false)?;
    }
    for room in 0..300 {
        holds &= is_written(alloc, 290, room, true)?;
    }
    assert!(rt; holds);
    Ok(())
}

// A failed allocation while the input is read is reported as such.
#[test]
fn failed_reads_have_their_error(rt: HostRuntime) -> Result<(), Fail> {
    let unread = "error: cannot read input\n";
    let rows = &[
        (ErrorKind::BrokenPipe, unread),
        (ErrorKind::UnexpectedEof, unread),
        (ErrorKind::Other, unread),
        (ErrorKind::OutOfMemory, "error: out of memory\n"),
    ];
    let mut holds = true;
    for &(kind, error) in rows {
        for &args in &["item 9651", "dict 8941", "priority 9651"] {
            for &length in ladder(rt.alloc(), 1, 1 << 19)?.iter() {
                holds &= is_unreadable(rt.alloc(), args, kind, length, error)?;
            }
        }
    }
    assert!(rt; holds);
    Ok(())
}

/// A source of random bytes that fails with an error of this kind.
#[derive(Drop)]
struct NoRandomBytes(ErrorKind);

impl RandomSource for NoRandomBytes {
    fn fill_bytes(&self, _buf: &mut [u8]) -> io::Result<()> {
        Err(io::Error::from(self.0))
    }
}

/// A source that gives these bytes once, and then fails.
#[derive(Drop)]
struct Bytes {
    bytes: [u8; 8],
    is_taken: Cell<bool>,
}

impl RandomSource for Bytes {
    fn fill_bytes(&self, buf: &mut [u8]) -> io::Result<()> {
        if self.is_taken.replace(true) {
            return Err(io::Error::from(ErrorKind::UnexpectedEof));
        }
        for (byte, &value) in buf.iter_mut().zip(self.bytes.iter()) {
            *byte = value;
        }
        Ok(())
    }
}

/// A source of the bytes 1, 2, 3, .. for each call, which counts its calls.
#[derive(Drop)]
struct Counted {
    calls: Cell<u32>,
}

impl RandomSource for Counted {
    fn fill_bytes(&self, buf: &mut [u8]) -> io::Result<()> {
        self.calls.set(self.calls.get().wrapping_add(1));
        let mut next = 1u8;
        for byte in buf {
            *byte = next;
            next = next.wrapping_add(1);
        }
        Ok(())
    }
}

/// Returns `true` if a run with random bytes from this source writes exactly these texts, and has this status. It reads
/// all of the input, or nothing if it fails.
fn ends_under<S: RandomSource>(
    alloc: Global,
    random: &S,
    args: &str,
    text: &str,
    wanted: (&str, &str, u8),
) -> bool {
    let Some(args) = arguments(alloc, args) else {
        return false;
    };
    let (mut output, mut errors) = (Vec::new(alloc), Vec::new(alloc));
    let mut input = text.as_bytes();
    let outcome = run_with_random_seed(alloc, random, args.as_slice(), &mut input, &mut output);
    let status = report(outcome, &mut errors);
    output.as_slice() == wanted.0.as_bytes()
        && errors.as_slice() == wanted.1.as_bytes()
        && status == wanted.2
        && input.len() == if status == 0 { 0 } else { text.len() }
}

/// Returns the number of calls of the source in a run that writes exactly these texts, and has this status.
fn calls_of(alloc: Global, args: &str, wanted: (&str, &str, u8)) -> Option<u32> {
    let random = Counted {
        calls: Cell::new(0),
    };
    if ends_under(alloc, &random, args, "a\n", wanted) {
        Some(random.calls.get())
    } else {
        None
    }
}

// Wrong arguments have the usage, and `priority` has its result, with and without random bytes.
#[test]
fn only_fields_take_random_bytes(rt: HostRuntime) {
    let alloc = rt.alloc();
    let denied = NoRandomBytes(ErrorKind::PermissionDenied);
    let (usage, no_priority) = (("", USAGE, 2), ("\n", "", 0));
    assert!(rt; ends_under(alloc, &denied, "dict", "a\n", usage));
    assert!(rt; ends_under(alloc, &denied, "priority 9651", "", no_priority));
    assert!(rt; calls_of(alloc, "dict", usage) == Some(0));
    assert!(rt; calls_of(alloc, "priority 9651", no_priority) == Some(0));
    assert!(rt; calls_of(alloc, "priority 8941", no_priority) == Some(0));
}

// Each field takes random bytes once. It fails if there are none, whatever the error.
#[test]
fn each_field_takes_random_bytes(rt: HostRuntime) -> Result<(), Fail> {
    let alloc = rt.alloc();
    let mut holds = true;
    for &field in &["item", "list", "dict"] {
        for &versions in &[
            "8941",
            "9651",
            "8941 8941",
            "8941 9651",
            "9651 8941",
            "9651 9651",
        ] {
            let args = format!(in alloc; "{field} {versions}")?;
            holds &= calls_of(alloc, args.as_str(), ("a\n", "", 0)) == Some(1);
            for &kind in &[
                ErrorKind::PermissionDenied,
                ErrorKind::Interrupted,
                ErrorKind::WouldBlock,
                ErrorKind::UnexpectedEof,
                ErrorKind::OutOfMemory,
                ErrorKind::Unsupported,
                ErrorKind::NotFound,
                ErrorKind::InvalidInput,
                ErrorKind::TimedOut,
                ErrorKind::Other,
            ] {
                let no_seed = ("", "error: no random seed\n", 1);
                let random = NoRandomBytes(kind);
                holds &= ends_under(alloc, &random, args.as_str(), "a\n", no_seed);
                holds &= ends_under(alloc, &random, args.as_str(), "", no_seed);
            }
        }
    }
    assert!(rt; holds);
    Ok(())
}

/// Returns `true` if the seed of these bytes is that of the number.
fn is_seed_of(bytes: [u8; 8], number: u64) -> bool {
    let source = Bytes {
        bytes,
        is_taken: Cell::new(false),
    };
    match random_seed(|bytes| source.fill_bytes(bytes)) {
        Ok(seed) => {
            seed.build_hasher().finish() == HashSeed::new(number).build_hasher().finish()
        }
        Err(_) => false,
    }
}

#[test]
fn the_seed_is_the_number_of_the_bytes(rt: HostRuntime) {
    let (mut random, mut holds) = (Random::new(1), true);
    for _ in 0..10_000 {
        let number = random.next();
        holds &= is_seed_of(number.to_le_bytes(), number);
        holds &= !is_seed_of(number.to_le_bytes(), number ^ (1 << (number % 64)));
    }
    assert!(rt; holds);
}

// Another number has another hash of no key.
#[test]
fn each_bit_of_the_source_is_a_bit_of_the_seed(rt: HostRuntime) {
    let mut holds = true;
    for place in 0..8usize {
        for bit in 0..8usize {
            let (mut bytes, number) = ([0; 8], 1 << (8 * place + bit));
            bytes[place] = 1 << bit;
            holds &= is_seed_of(bytes, number) & !is_seed_of(bytes, number - 1);
        }
    }
    assert!(rt; holds);
}

/// Returns `true` if a run writes exactly this text and flushes it, or writes exactly this error.
fn is_told(alloc: Global, args: &str, input: &[u8], wanted: Result<String, String>) -> bool {
    let Some(args) = arguments(alloc, args) else {
        return false;
    };
    let mut output = Output {
        text: Vec::new(alloc),
        room: usize::MAX,
        can_flush: true,
        is_flushed: false,
    };
    let (mut left, mut errors) = (input, Vec::new(alloc));
    let seed = HashSeed::new(1);
    let outcome = run(alloc, seed, args.as_slice(), &mut left, &mut output);
    let status = report(outcome, &mut errors);
    match wanted {
        Ok(text) => {
            status == 0
                && output.text.as_slice() == text.as_str().as_bytes()
                && output.is_flushed
                && errors.is_empty()
        }
        Err(text) => {
            status == 1 && output.text.is_empty() && errors.as_slice() == text.as_str().as_bytes()
        }
    }
}

/// Returns `true` if the program tells the answer of the library for this input, as a field of this type and as a
/// Priority field.
fn tells(alloc: Global, field: &str, input: &[u8]) -> Result<bool, Fail> {
    let (kind, version) = match field {
        "item" => (FieldKind::Item, Version::Rfc9651),
        "list" => (FieldKind::List, Version::Rfc9651),
        _ => (FieldKind::Dictionary, Version::Rfc9651),
    };
    let wanted = match answer(alloc, HashSeed::new(1), kind, version, version, input) {
        Ok(text) => Ok(text),
        Err(fault) => Err(format!(in alloc; "error: {fault}\n")?),
    };
    let args = format!(in alloc; "{field} 9651")?;
    let is_field = is_told(alloc, args.as_str(), input, wanted);
    let wanted = match answer_priority(alloc, version, input) {
        Ok(text) => Ok(text),
        Err(fault) => Err(format!(in alloc; "error: {fault}\n")?),
    };
    Ok(is_field && is_told(alloc, "priority 9651", input, wanted))
}

#[test]
fn random_inputs_have_the_answer_of_the_library(rt: HostRuntime) -> Result<(), Fail> {
    let alloc = rt.alloc();
    let mut holds = true;
    for &field in &["item", "list", "dict"] {
        for seed in 0..3_000 {
            let (mut random, mut text) = (Random::new(seed), String::new(alloc));
            random.push_field(&mut text, field, false)?;
            let mut bytes = text.into_bytes();
            holds &= tells(alloc, field, &bytes[..])?;
            let (place, byte) = (random.below(bytes.len()), random.byte());
            if let Some(old) = bytes.get_mut(place) {
                *old = byte;
            }
            holds &= tells(alloc, field, &bytes[..])?;
        }
    }
    assert!(rt; holds);
    Ok(())
}
