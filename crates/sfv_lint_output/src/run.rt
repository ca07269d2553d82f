//! A run of the program `sfv_lint`.

ghost use Rattle.std.specs.Prelude.{◌≡◌, ◌++◌, [], ◌∷◌, IfOk, IfErr, OnOk, Some, None, true, false, string_bytes};
ghost use Rattle.std.specs.Prelude.{codes, ℕ, List};
ghost use Rattle.sfv_http_fields.specs.Registry.{registered_type};
ghost use Rattle.sfv_lint_head.specs.Heads.{HasNoHead};
ghost use Rattle.sfv_lint_head.specs.declared.head.HeadFault.TheVariants as head_faults;
ghost use Rattle.sfv_lint_report.specs.Reports.{IsValueReport};
ghost use Rattle.sfv_lint_output.specs.Documents.{IsDocumentText};
ghost use Rattle.sfv_lint_output.specs.Lines.{IsPrinted};
ghost use Rattle.sfv_lint_output.specs.Runs.{IsFailed, IsHeadOutput, IsValueOutput, IsPrintedValue};
ghost use Rattle.sfv_lint_output.specs.Runs.{HasValueOutput, HasFieldOutput, IsOfHead, AppendsAdvice, hint_text};
ghost use Rattle.sfv_lint_output.specs.declared.run.Failure.TheVariants as failures;

use crate::document::document;
use crate::lines::{append_field_lines, report_lines};
use sfv::{FieldKind, HashSeed, OutOfMemory, Version};
use sfv_http_fields::registry::type_of;
use sfv_lint_args::explain::{Explanation, explain};
use sfv_lint_args::options::Options;
use sfv_lint_head::head::HeadFault;
use sfv_lint_head::paint::Colors;
use sfv_lint_notes::notes::notes;
use sfv_lint_report::report::{Field, Report, report_head, report_value};
use std::alloc::{AllocError, AllocFailed, Global};
use std::fmt::{self, Write};
use std::str;

/// What a run prints, and whether a field has an error, or with `--strict` a note.
#[derive(Drop)]
pub struct Output {
    /// The text for standard output.
    pub text: String,
    /// A field has an error, or with `--strict` a note.
    pub failed: bool,
}

/// The reason why a run has no output.
#[derive(Clone, Copy, Debug, PartialEq, Eq)]
pub enum Failure {
    /// The input is no head.
    NoHead,
    /// The registry has no field of this name.
    UnknownField,
    /// Memory ran out.
    OutOfMemory,
}

impl fmt::Display for Failure {
    fn fmt<W: fmt::Write>(&self, f: &mut fmt::Formatter<W>) -> fmt::Result {
        match self {
            Failure::NoHead => f.write_str(
                "the input is no head of a request or a response; for one value, use --type or --field",
            ),
            Failure::UnknownField => f.write_str("no structured field has this name; use --type"),
            Failure::OutOfMemory => f.write_str("out of memory"),
        }
    }
}

impl std::error::Error for Failure {}

impl From<HeadFault> for Failure {
    ghost from_gives = { λ fault failure. failure ≡ failures.NoHead → fault ≡ head_faults.NoHead };

    fn from(fault: HeadFault) -> Failure {
        match fault {
            HeadFault::NoHead => Failure::NoHead,
            HeadFault::OutOfMemory => Failure::OutOfMemory,
        }
    }
}

impl From<AllocError> for Failure {
    ghost from_gives = { λ _ failure. failure ≡ failures.OutOfMemory };

    fn from(_error: AllocError) -> Failure {
        Failure::OutOfMemory
    }
}

impl<T: Drop> From<AllocFailed<T>> for Failure {
    ghost from_gives = { λ _ failure. failure ≡ failures.OutOfMemory };

    fn from(_error: AllocFailed<T>) -> Failure {
        Failure::OutOfMemory
    }
}

impl From<OutOfMemory> for Failure {
    ghost from_gives = { λ _ failure. failure ≡ failures.OutOfMemory };

    fn from(_error: OutOfMemory) -> Failure {
        Failure::OutOfMemory
    }
}

/// Returns `true` if the field has an error, or if `strict` a note.
#[tactic(auto, using(crate::proofs::Failing::field_failed, crate::proofs::Failing::only_if_strict))]
fn is_failed(alloc: Global, field: &Field, strict: bool) -> Result<bool, AllocError>
    ensures { IfOk result (IsFailed strict (field.now ∷ [])) }
{
    if field.outcome.is_err() {
        return Ok(true);
    }
    if !strict {
        return Ok(false);
    }
    let notes = notes(alloc, field)?;
    Ok(!notes.is_empty())
}

/// Returns `true` if one of the fields has an error, or if `strict` a note.
#[tactic(auto, using(crate::proofs::Failing::failed_here, crate::proofs::Failing::passed_here, crate::proofs::Failing::none_failed))]
fn has_failed(alloc: Global, fields: &[Field], strict: bool) -> Result<bool, AllocError>
    ensures { IfOk result (IsFailed strict fields.now) }
{
    for field in fields {
        if is_failed(alloc, field, strict)? {
            return Ok(true);
        }
    }
    Ok(false)
}

/// Returns the name before the first colon of a line, if the registry has it.
fn pasted_name(line: &[u8]) -> Option<&str> {
    let text = str::from_utf8(line).ok()?;
    let (name, _) = text.split_once(':')?;
    type_of(name)?;
    Some(name)
}

/// Appends advice to leave out the name of the field.
fn append_hint(out: &mut String, name: &str) -> Result<(), AllocError>
    ensures { OnOk result (string_bytes out.new ≡ string_bytes out.old ++ hint_text name.now) }
{
    write!(
        out,
        "    hint: leave out `{name}:`, or leave out --type and --field\n"
    )
}

/// Appends advice for a rejected value that begins with the name of its field.
#[tactic(auto, using(crate::proofs::Outputs::no_advice, crate::proofs::Outputs::advice_given))]
fn append_advice(out: &mut String, field: &Field) -> Result<(), AllocError>
    ensures { OnOk result (AppendsAdvice field.now (string_bytes out.old) (string_bytes out.new)) }
{
    if field.outcome.is_ok() {
        return Ok(());
    }
    let Some(line) = field.lines.first() else {
        return Ok(());
    };
    let Some(name) = pasted_name(line.as_slice()) else {
        return Ok(());
    };
    append_hint(out, name)?;
    Ok(())
}

/// Returns the output for the fields and the names of the other field lines, as JSON.
#[tactic(auto, using(crate::proofs::Documents::document_text))]
fn json_output(alloc: Global, fields: &[Field], others: &[Vec<u8>]) -> Result<String, AllocError>
    ensures { IfOk result (λ text. IsDocumentText fields.now others.now (string_bytes text)) }
{
    let mut text = document(alloc, fields, others)?.to_string(alloc)?;
    text.push('\n')?;
    Ok(text)
}

/// Returns `true` if one of the fields of a report has an error, or if `strict` a note.
fn report_failed(alloc: Global, report: &Report, strict: bool) -> Result<bool, AllocError>
    ensures { IfOk result (IsFailed strict report.now.fields.items) }
{
    has_failed(alloc, report.fields.as_slice(), strict)
}

/// Returns the text for a head.
fn head_text(
    alloc: Global,
    options: &Options<'_>,
    colors: Colors,
    report: &Report,
) -> Result<String, OutOfMemory>
    ensures lines { IfOk result (λ text. options.now.json ≡ false
        → IsPrinted colors options.now.tree options.now.all report.now (string_bytes text)) }
    ensures document { IfOk result (λ text. options.now.json ≡ true
        → IsDocumentText report.now.fields.items report.now.others.items (string_bytes text)) }
{
    if options.json {
        let text = json_output(alloc, report.fields.as_slice(), report.others.as_slice())?;
        return Ok(text);
    }
    report_lines(alloc, colors, report, options.tree, options.all)
}

/// Returns the output for a head.
#[tactic(auto, using(crate::proofs::Outputs::head_output))]
fn run_head(
    alloc: Global,
    seed: HashSeed,
    options: &Options<'_>,
    colors: Colors,
    input: &[u8],
) -> Result<Output, Failure>
    ensures output { IfOk result (IsHeadOutput options.now colors input.now) }
    ensures no_head { IfErr result (λ failure. failure ≡ failures.NoHead → HasNoHead input.now) }
{
    let report = report_head(alloc, seed, options.version, input)?;
    let failed = report_failed(alloc, &report, options.strict)?;
    let text = head_text(alloc, options, colors, &report)?;
    Ok(Output { text, failed })
}

/// Returns the lines on one value.
#[tactic(auto, using(crate::proofs::Outputs::value_printed))]
fn value_lines(
    alloc: Global,
    colors: Colors,
    field: &Field,
    tree: bool,
) -> Result<String, OutOfMemory>
    ensures { IfOk result (λ text. IsPrintedValue colors tree field.now (string_bytes text)) }
{
    let mut text = String::new(alloc);
    append_field_lines(alloc, &mut text, colors, field, tree)?;
    append_advice(&mut text, field)?;
    Ok(text)
}

/// Returns the text for one value.
fn value_text(
    alloc: Global,
    options: &Options<'_>,
    colors: Colors,
    field: &Field,
) -> Result<String, OutOfMemory>
    ensures lines { IfOk result (λ text. options.now.json ≡ false
        → IsPrintedValue colors options.now.tree field.now (string_bytes text)) }
    ensures document { IfOk result (λ text. options.now.json ≡ true
        → IsDocumentText (field.now ∷ []) [] (string_bytes text)) }
{
    if options.json {
        let text = json_output(alloc, std::slice::from_ref(field), &[])?;
        return Ok(text);
    }
    value_lines(alloc, colors, field, options.tree)
}

/// Checks a value of this type, with a name for the report.
fn named_report(
    alloc: Global,
    seed: HashSeed,
    version: Version,
    name: &str,
    kind: FieldKind,
    input: &[u8],
) -> Result<Field, AllocError>
    ensures { IfOk result (IsValueReport version name.now kind input.now) }
{
    report_value(alloc, seed, version, name.as_bytes(), kind, input)
}

/// Returns the output for one value of this type.
#[tactic(auto, using(crate::proofs::Outputs::value_output))]
fn run_value(
    alloc: Global,
    seed: HashSeed,
    options: &Options<'_>,
    colors: Colors,
    name: &str,
    kind: FieldKind,
    input: &[u8],
) -> Result<Output, Failure>
    ensures output { IfOk result (IsValueOutput options.now colors name.now kind input.now) }
    ensures failed { IfErr result (λ failure. failure ≡ failures.OutOfMemory) }
{
    let field = named_report(alloc, seed, options.version, name, kind, input)?;
    let failed = is_failed(alloc, &field, options.strict)?;
    let text = value_text(alloc, options, colors, &field)?;
    Ok(Output { text, failed })
}

/// Returns the output for the options and this input: for one value with `--type` or `--field`, otherwise for a head.
/// Each map of a parsed value hashes under `seed`.
///
/// # Errors
///
/// Returns `NoHead` if the input is no head, `UnknownField` for a name that the registry lacks, and `OutOfMemory` if
/// memory runs out.
pub fn run(
    alloc: Global,
    seed: HashSeed,
    options: &Options<'_>,
    colors: Colors,
    input: &[u8],
) -> Result<Output, Failure>
    ensures head { IsOfHead options.now → IfOk result (IsHeadOutput options.now colors input.now) }
    ensures value { HasValueOutput options.now colors input.now result }
    ensures field { HasFieldOutput options.now colors input.now result }
    ensures no_head { IfErr result (λ failure. failure ≡ failures.NoHead → HasNoHead input.now) }
{
    if let Some(kind) = options.kind {
        return run_value(alloc, seed, options, colors, "value", kind, input);
    }
    if let Some(name) = options.field {
        let Some(kind) = type_of(name) else {
            return Err(Failure::UnknownField);
        };
        return run_value(alloc, seed, options, colors, name, kind, input);
    }
    run_head(alloc, seed, options, colors, input)
}

/// Appends what a kind of error means.
fn append_explanation(out: &mut String, name: &str, found: &Explanation) -> Result<(), AllocError> {
    let (meaning, rule, example) = (found.meaning, found.rule, found.example);
    writeln!(
        out,
        "{name}\n    {meaning}\n    Rule: {rule}\n    Right: {example}"
    )
}

/// Returns what the kind of error with this name means, as lines. The text is empty for another name.
///
/// # Errors
///
/// Returns `AllocError` if memory runs out.
pub fn explanation(alloc: Global, name: &str) -> Result<String, AllocError> {
    let mut text = String::new(alloc);
    if let Some(found) = explain(name) {
        append_explanation(&mut text, name, &found)?;
    }
    Ok(text)
}
