//! The results of the program `sfv_tool` for an input.

ghost use Rattle.std.specs.Prelude.{◌≡◌, ◌++◌, Some, IfOk, IfErr, OnOk, codes, string_bytes};
ghost use Rattle.sfv_tool_lib.specs.Answers.{without_newline, text_or_empty, tool_fault_text, IsAnswer, IsToolFault};
ghost use Rattle.sfv_tool_lib.specs.Answers.{IsAnswerTo, IsFaultFor, IsPriorityAnswer, IsPriorityFault};
ghost use Rattle.sfv.specs.Parsers.{IsParseError, IsBuiltUnder};
ghost use Rattle.sfv.specs.Statements.{IsParsedAs};
ghost use Rattle.sfv.specs.Types.serialize_errors as serialize_errors;
ghost use Rattle.sfv_tool_lib.specs.declared.answer.ToolFault.TheVariants as faults;

use sfv::{
    Dictionary, Error, FieldKind, FieldType, HashSeed, Item, List, OutOfMemory, Parser,
    SerializeError, Version,
};
use sfv_http_fields::priority::{read_priority, write_priority};
use std::alloc::Global;
use std::fmt;

/// The error of the program for an input.
#[derive(Clone, Copy, Debug, PartialEq, Eq)]
pub enum ToolFault {
    /// The input has a syntax error, or memory ran out while it was parsed.
    Read(Error),
    /// The version lacks a value of the field, or memory ran out while it was serialized.
    Write(SerializeError),
}

impl fmt::Display for ToolFault {
    ghost output = { λ fault. Some (tool_fault_text fault) };

    fn fmt<W: fmt::Write>(&self, f: &mut fmt::Formatter<W>) -> fmt::Result {
        match self {
            ToolFault::Read(error) => write!(f, "{error}"),
            ToolFault::Write(error) => write!(f, "{error}"),
        }
    }
}

impl std::error::Error for ToolFault {}

impl From<Error> for ToolFault {
    ghost from_gives = { λ error fault. fault ≡ faults.Read error };

    fn from(error: Error) -> ToolFault {
        ToolFault::Read(error)
    }
}

impl From<SerializeError> for ToolFault {
    ghost from_gives = { λ error fault. fault ≡ faults.Write error };

    fn from(error: SerializeError) -> ToolFault {
        ToolFault::Write(error)
    }
}

impl From<OutOfMemory> for ToolFault {
    ghost from_gives = { λ _ fault. fault ≡ faults.Write serialize_errors.OutOfMemory };

    fn from(_error: OutOfMemory) -> ToolFault {
        ToolFault::Write(SerializeError::OutOfMemory)
    }
}

/// Returns the input without its final newline, if there is one.
fn without_newline(input: &[u8]) -> &[u8]
    ensures { result.now ≡ without_newline input.now }
{
    match input {
        [front @ .., b'\n'] => front,
        _ => input,
    }
}

/// Returns the text and a newline. The text is empty if nothing was serialized.
fn line(alloc: Global, text: Option<String>) -> Result<String, SerializeError>
    ensures line { IfOk result (λ line. string_bytes line ≡ text_or_empty text ++ codes "\n") }
    ensures out_of_memory { IfErr result (λ error. error ≡ serialize_errors.OutOfMemory) }
{
    let mut line = match text {
        Some(text) => text,
        None => String::new(alloc),
    };
    if line.push('\n').is_err() {
        return Err(SerializeError::OutOfMemory);
    }
    Ok(line)
}

/// Parses the input as a field of type `T` under this version. Each map of the value hashes under `seed`.
fn parse_as<T: FieldType>(
    alloc: Global,
    seed: HashSeed,
    version: Version,
    input: &[u8],
) -> Result<T, Error>
    ensures read { IfOk result (λ value. IsParsedAs version T.kind input.now (T.tree value)) }
    ensures seed { IfOk result (T.has_seed seed) }
    ensures rejected { IfErr result (IsParseError version T.kind input.now) }
{
    Parser::new(input)
        .with_version(version)
        .with_hash_seed(seed)
        .parse::<T>(alloc)
}

/// Parses the input as a field of type `T` under the version `reading`. Returns its canonical text under the version
/// `writing`, and a newline. Each map of the parsed value hashes under `seed`.
fn answer_as<T: FieldType>(
    alloc: Global,
    seed: HashSeed,
    reading: Version,
    writing: Version,
    input: &[u8],
) -> Result<String, ToolFault>
    ensures accepted { IfOk result (λ text.
        IsAnswer reading writing T.kind input.now (string_bytes text)) }
    ensures failed { IfErr result (IsToolFault reading writing T.kind input.now) }
    ensures seed { OnOk result ((value : _) × T.has_seed seed value
        × IsParsedAs reading T.kind input.now (T.tree value)) }
{
    let value = parse_as::<T>(alloc, seed, reading, input)?;
    let text = value.serialize_for(alloc, writing)?;
    Ok(line(alloc, text.into())?)
}

/// Parses the input as a field of this type under the version `reading`. Returns its canonical text under the version
/// `writing`, and a newline.
///
/// One final newline of the input is ignored. An empty list or dictionary returns only the newline. Each map of the
/// parsed value hashes under `seed`.
///
/// # Errors
///
/// Returns `Read` with the error of `Parser::parse`, or `Write` with the error of `FieldType::serialize_for`.
pub fn answer(
    alloc: Global,
    seed: HashSeed,
    field: FieldKind,
    reading: Version,
    writing: Version,
    input: &[u8],
) -> Result<String, ToolFault>
    ensures accepted { IfOk result (λ text. IsAnswerTo field reading writing input.now (string_bytes text)) }
    ensures failed { IfErr result (IsFaultFor field reading writing input.now) }
    ensures seed { OnOk result (IsBuiltUnder seed reading field (without_newline input.now)) }
{
    let input = without_newline(input);
    match field {
        FieldKind::Item => answer_as::<Item>(alloc, seed, reading, writing, input),
        FieldKind::List => answer_as::<List>(alloc, seed, reading, writing, input),
        FieldKind::Dictionary => answer_as::<Dictionary>(alloc, seed, reading, writing, input),
    }
}

/// Parses the input as a Priority field under `version`. Returns the text of its priority, and a newline.
///
/// One final newline of the input is ignored. The default priority returns only the newline.
///
/// # Errors
///
/// Returns `Read` with the error of `Parser::parse`, or `Write` if memory runs out.
pub fn answer_priority(alloc: Global, version: Version, input: &[u8]) -> Result<String, ToolFault>
    ensures accepted { IfOk result (λ text. IsPriorityAnswer version input.now (string_bytes text)) }
    ensures failed { IfErr result (IsPriorityFault version input.now) }
{
    let priority = read_priority(alloc, without_newline(input), version)?;
    let mut text = String::new(alloc);
    write_priority(&mut text, priority)?;
    let text = line(alloc, Some(text))?;
    Ok(text)
}
