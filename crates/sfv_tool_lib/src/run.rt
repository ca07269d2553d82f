//! A run of the program `sfv_tool`.

ghost use Rattle.std.specs.Prelude.{◌≡◌, ◌≢◌, ◌↔◌, ◌⊎◌, ◌++◌, Some, Err, IfSome, IfNone, IfOk, IfErr, OnOk, OnErr, IsOk};
ghost use Rattle.std.specs.Prelude.{IsTrue, map, codes, string_bytes};
ghost use Rattle.std.specs.Io.KnownBytes.{Appends};
ghost use Rattle.std.specs.IoError.{error_kind};
ghost use Rattle.std.specs.declared.io.ErrorKind.TheVariants as kinds;
ghost use Rattle.sfv_tool_lib.specs.declared.run.Failure.TheVariants as failures;
ghost use Rattle.sfv_tool_lib.specs.Runs.{Names, NamesNothing, Requests, IsAnswered, IsFailed, IsUnread, IsReadFailure, IsOfCommand};
ghost use Rattle.sfv_tool_lib.specs.Runs.{IsAnswerFor, IsFaultOf, NamesPriority, NamesNoField, NamesNoPriority};
ghost use Rattle.sfv_tool_lib.specs.Runs.{field_word, version_word, priority_word, NamesFieldType};
ghost use Rattle.sfv_tool_lib.specs.Runs.{failure_text, failure_status, IsBuiltFor};

use crate::answer::{ToolFault, answer, answer_priority};
use sfv::{FieldKind, HashSeed, Version, random_seed};
use std::alloc::Global;
use std::io::{ErrorKind, Read, Write};
use std::random::RandomSource;
use std::{fmt, io};

/// The exit status after the result is written.
pub const DONE: u8 = 0;

/// The exit status after an error.
pub const FAILED: u8 = 1;

/// The exit status for wrong arguments.
pub const WRONG_ARGUMENTS: u8 = 2;

/// The reason why a run has no result. It prints the message for standard error.
#[derive(Clone, Copy, Debug, PartialEq, Eq)]
pub enum Failure {
    /// The arguments name no command.
    WrongArguments,
    /// There are no random bytes for the hash seed.
    NoSeed,
    /// Memory ran out while the input was read.
    OutOfMemory,
    /// The input cannot be read.
    UnreadableInput,
    /// The command has this error for the input.
    Fault(ToolFault),
    /// The output cannot be written.
    UnwrittenOutput,
}

impl Failure {
    /// Returns the exit status: `WRONG_ARGUMENTS` for wrong arguments, otherwise `FAILED`.
    pub fn status(self) -> u8
        ensures { result ≡ failure_status self }
    {
        match self {
            Failure::WrongArguments => WRONG_ARGUMENTS,
            _ => FAILED,
        }
    }

    /// Writes the message and a newline.
    ///
    /// # Errors
    ///
    /// Returns the error of the writer. A part of the message may then be written.
    pub fn print<E: Write>(self, errors: &mut E) -> io::Result<()>
        ensures { OnOk result (Appends (E.contents errors.old) (E.contents errors.new)
            (failure_text self ++ codes "\n")) }
    {
        writeln!(errors, "{self}")
    }
}

impl fmt::Display for Failure {
    ghost output = { λ failure. Some (failure_text failure) };

    fn fmt<W: fmt::Write>(&self, f: &mut fmt::Formatter<W>) -> fmt::Result {
        match self {
            Failure::WrongArguments => f.write_str(
                "usage: sfv_tool item|list|dict 8941|9651 [8941|9651] | priority 8941|9651",
            ),
            Failure::NoSeed => f.write_str("error: no random seed"),
            Failure::OutOfMemory => f.write_str("error: out of memory"),
            Failure::UnreadableInput => f.write_str("error: cannot read input"),
            Failure::Fault(fault) => write!(f, "error: {fault}"),
            Failure::UnwrittenOutput => f.write_str("error: cannot write output"),
        }
    }
}

impl std::error::Error for Failure {}

impl From<ToolFault> for Failure {
    ghost from_gives = { λ fault failure. failure ≡ failures.Fault fault };

    fn from(fault: ToolFault) -> Failure {
        Failure::Fault(fault)
    }
}

/// The command that the arguments name.
#[derive(Clone, Copy)]
pub enum Request {
    /// A field of this type, to convert between versions.
    Field {
        /// The field type.
        field: FieldKind,
        /// The version to parse under.
        reading: Version,
        /// The version to serialize under.
        writing: Version,
    },
    /// The Priority field, parsed under this version.
    Priority(Version),
}

/// Returns the field type that the argument names.
fn field_of(arg: &str) -> Option<FieldKind>
    ensures named { IfSome result (λ field. arg.now ≡ field_word field) }
    ensures none { IfNone result ((field : FieldKind) → ¬ (arg.now ≡ field_word field)) }
{
    match arg {
        "item" => Some(FieldKind::Item),
        "list" => Some(FieldKind::List),
        "dict" => Some(FieldKind::Dictionary),
        _ => None,
    }
}

/// Returns the version that the argument names.
fn version_of(arg: &str) -> Option<Version>
    ensures named { IfSome result (λ version. arg.now ≡ version_word version) }
    ensures none { IfNone result ((version : Version) → ¬ (arg.now ≡ version_word version)) }
{
    match arg {
        "8941" => Some(Version::Rfc8941),
        "9651" => Some(Version::Rfc9651),
        _ => None,
    }
}

/// Returns the command of a field, or `None` for other arguments. Without a version to serialize under, it is RFC 9651.
fn field_requested(args: &[String]) -> Option<Request>
    ensures named { IfSome result (Names (map string_bytes args.now)) }
    ensures none { IfNone result (NamesNoField (map string_bytes args.now)) }
{
    let (field, reading, writing) = match args {
        [field, reading] => (field, reading, Version::Rfc9651),
        [field, reading, writing] => (field, reading, version_of(writing.as_str())?),
        _ => return None,
    };
    Some(Request::Field {
        field: field_of(field.as_str())?,
        reading: version_of(reading.as_str())?,
        writing,
    })
}

/// Returns `true` if the argument is `priority`.
fn is_priority(arg: &str) -> bool
    ensures { IsTrue result ↔ (arg.now ≡ priority_word) }
{
    arg == "priority"
}

/// Returns the version of the command `priority`, or `None` for other arguments.
fn priority_requested(args: &[String]) -> Option<Version>
    ensures named { IfSome result (NamesPriority (map string_bytes args.now)) }
    ensures none { IfNone result (NamesNoPriority (map string_bytes args.now)) }
{
    let [word, version] = args else {
        return None;
    };
    if !is_priority(word.as_str()) {
        return None;
    }
    let version = version_of(version.as_str())?;
    Some(version)
}

/// Returns the command that the arguments name, or `None` for wrong arguments.
#[tactic(auto, using(crate::proofs::Requests::names_nothing))]
fn requested(args: &[String]) -> Option<Request>
    ensures named { IfSome result (Names (map string_bytes args.now)) }
    ensures none { IfNone result (NamesNothing (map string_bytes args.now)) }
{
    if let Some(version) = priority_requested(args) {
        return Some(Request::Priority(version));
    }
    field_requested(args)
}

/// Returns the result of a command for the input. The maps of a field are built under `seed`.
fn answer_to(
    alloc: Global,
    seed: HashSeed,
    request: Request,
    input: &[u8],
) -> Result<String, ToolFault>
    ensures accepted { IfOk result (λ text. IsAnswerFor request input.now (string_bytes text)) }
    ensures failed { IfErr result (IsFaultOf request input.now) }
    ensures seed { OnOk result (IsBuiltFor seed request input.now) }
{
    match request {
        Request::Field {
            field,
            reading,
            writing,
        } => answer(alloc, seed, field, reading, writing, input),
        Request::Priority(version) => answer_priority(alloc, version, input),
    }
}

/// Writes the whole text, and flushes it.
///
/// # Errors
///
/// Returns the error of the writer. A part of the text may then be written.
fn print<W: Write>(text: &str, output: &mut W) -> io::Result<()>
    ensures { OnOk result (Appends (W.contents output.old) (W.contents output.new) text.now) }
{
    output.write_all(text.as_bytes())?;
    output.flush()
}

/// Returns the failure of a read of the input.
fn unreadable(error: &io::Error) -> Failure
    ensures memory { error_kind error.now ≡ kinds.OutOfMemory → result ≡ failures.OutOfMemory }
    ensures other { error_kind error.now ≢ kinds.OutOfMemory → result ≡ failures.UnreadableInput }
    ensures of_command { IsOfCommand result }
{
    if error.kind() == ErrorKind::OutOfMemory {
        Failure::OutOfMemory
    } else {
        Failure::UnreadableInput
    }
}

/// Reads all of `input`.
fn read_all<R: Read>(alloc: Global, input: &mut R) -> Result<Vec<u8>, Failure>
    ensures read { IfOk result (λ bytes. IfSome (R.remaining input.old) (λ all. bytes.items ≡ all)) }
    ensures failed { IfErr result IsReadFailure }
    ensures of_command { IfErr result IsOfCommand }
{
    let mut bytes = Vec::new(alloc);
    match input.read_to_end(&mut bytes) {
        Ok(_) => Ok(bytes),
        Err(error) => Err(unreadable(&error)),
    }
}

/// Writes the result of a command for the input. Each map of a field hashes under `seed`.
fn write_answer<W: Write>(
    alloc: Global,
    seed: HashSeed,
    request: Request,
    input: &[u8],
    output: &mut W,
) -> Result<(), Failure>
    ensures done { OnOk result (IsAnswered request input.now (W.contents output.old) (W.contents output.new)) }
    ensures failed { IfErr result (IsFailed request input.now (W.contents output.old) (W.contents output.new)) }
    ensures of_command { IfErr result IsOfCommand }
    ensures seed { OnOk result (IsBuiltFor seed request input.now) }
{
    let text = answer_to(alloc, seed, request, input)?;
    if print(text.as_str(), output).is_err() {
        return Err(Failure::UnwrittenOutput);
    }
    Ok(())
}

/// Reads all of `input`, and writes the result to `output`. Each map of a field hashes under `seed`.
fn convert<R: Read, W: Write>(
    alloc: Global,
    seed: HashSeed,
    request: Request,
    input: &mut R,
    output: &mut W,
) -> Result<(), Failure>
    ensures done { OnOk result (IfSome (R.remaining input.old) (λ bytes.
        IsAnswered request bytes (W.contents output.old) (W.contents output.new))) }
    ensures failed { IfErr result (λ failure. IsUnread failure (W.contents output.old) (W.contents output.new)
        ⊎ IfSome (R.remaining input.old) (λ bytes.
        IsFailed request bytes (W.contents output.old) (W.contents output.new) failure)) }
    ensures of_command { IfErr result IsOfCommand }
    ensures seed { OnOk result (IfSome (R.remaining input.old) (IsBuiltFor seed request)) }
{
    let bytes = read_all(alloc, input)?;
    write_answer(alloc, seed, request, bytes.as_slice(), output)
}

/// Checks the arguments, reads all of `input`, and writes the result to `output`. Each map of a field hashes under
/// `seed`.
///
/// # Errors
///
/// Returns `WrongArguments`, and reads and writes nothing, or another failure except `NoSeed`. The output is then
/// unchanged, except that a part of it may be written before `UnwrittenOutput`.
pub fn run<R: Read, W: Write>(
    alloc: Global,
    seed: HashSeed,
    args: &[String],
    input: &mut R,
    output: &mut W,
) -> Result<(), Failure>
    ensures done { OnOk result (Requests (map string_bytes args.now) (λ request. IfSome (R.remaining input.old) (λ bytes.
        IsAnswered request bytes (W.contents output.old) (W.contents output.new)))) }
    ensures failed { IfErr result (λ failure. Requests (map string_bytes args.now) (λ request.
        IfSome (R.remaining input.old) (λ bytes.
        IsFailed request bytes (W.contents output.old) (W.contents output.new) failure))
        ⊎ IsUnread failure (W.contents output.old) (W.contents output.new)
        ⊎ (failure ≡ failures.WrongArguments)) }
    ensures seed { OnOk result (Requests (map string_bytes args.now)
        (λ request. IfSome (R.remaining input.old) (IsBuiltFor seed request))) }
    ensures usage { (result ≡ Err failures.WrongArguments) ↔ NamesNothing (map string_bytes args.now) }
    ensures unread { result ≡ Err failures.WrongArguments → (input.new ≡ input.old) × (output.new ≡ output.old) }
{
    let Some(request) = requested(args) else {
        return Err(Failure::WrongArguments);
    };
    convert(alloc, seed, request, input, output)
}

/// Returns the hash seed for a command. A field has maps, and takes a random seed. The Priority field has none, and
/// takes no random bytes.
fn seed_for<S: RandomSource>(random: &S, request: Request) -> io::Result<HashSeed>
    ensures failed { OnErr result (NamesFieldType request) }
{
    match request {
        Request::Field { .. } => random_seed(|bytes| random.fill_bytes(bytes)),
        Request::Priority(_) => Ok(HashSeed::default()),
    }
}

/// Does the same as `run`. Each map of a field hashes under a random seed. The Priority field and wrong arguments take
/// no random bytes.
///
/// # Errors
///
/// Returns the failures of `run`, or `NoSeed` if there are no random bytes for a field. `input` and `output` are then
/// unchanged.
pub fn run_with_random_seed<S: RandomSource, R: Read, W: Write>(
    alloc: Global,
    random: &S,
    args: &[String],
    input: &mut R,
    output: &mut W,
) -> Result<(), Failure>
    ensures done { OnOk result (Requests (map string_bytes args.now) (λ request. IfSome (R.remaining input.old) (λ bytes.
        IsAnswered request bytes (W.contents output.old) (W.contents output.new)))) }
    ensures failed { IfErr result (λ failure. Requests (map string_bytes args.now) (λ request.
        IfSome (R.remaining input.old) (λ bytes.
        IsFailed request bytes (W.contents output.old) (W.contents output.new) failure))
        ⊎ IsUnread failure (W.contents output.old) (W.contents output.new)
        ⊎ (failure ≡ failures.WrongArguments)
        ⊎ (failure ≡ failures.NoSeed)) }
    ensures no_seed { result ≡ Err failures.NoSeed → Requests (map string_bytes args.now) NamesFieldType }
    ensures usage { (result ≡ Err failures.WrongArguments) ↔ NamesNothing (map string_bytes args.now) }
    ensures unread { result ≡ Err failures.WrongArguments → (input.new ≡ input.old) × (output.new ≡ output.old) }
    ensures unseeded { result ≡ Err failures.NoSeed → (input.new ≡ input.old) × (output.new ≡ output.old) }
{
    let Some(request) = requested(args) else {
        return Err(Failure::WrongArguments);
    };
    let Ok(seed) = seed_for(random, request) else {
        return Err(Failure::NoSeed);
    };
    convert(alloc, seed, request, input, output)
}

/// Writes the message of a failure to `errors`. Returns the exit status, which a failed write does not change.
pub fn report<E: Write>(outcome: Result<(), Failure>, errors: &mut E) -> u8
    ensures done { IsOk outcome → (result ≡ DONE) × (errors.new ≡ errors.old) }
    ensures failed { IfErr outcome (λ failure. result ≡ failure_status failure) }
{
    match outcome {
        Ok(()) => DONE,
        Err(failure) => {
            let _ = failure.print(errors);
            failure.status()
        }
    }
}
