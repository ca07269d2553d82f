//! The report on the fields of a head, or on one value.

ghost use Rattle.std.specs.Prelude.{◌≡◌, IfOk, IfErr, OnOk, IfSome, IfNone, Some, None, map};
ghost use Rattle.std.specs.List.{list_any};
ghost use Rattle.std.specs.Str.{str_eq_ignore_ascii_case};
ghost use Rattle.sfv_http_fields.specs.Registry.{registered_type};
ghost use Rattle.sfv_lint_head.specs.Heads.{line_of};
ghost use Rattle.sfv_lint_head.specs.Heads.{HasNoHead};
ghost use Rattle.sfv_lint_head.specs.declared.head.HeadFault.TheVariants as faults;
ghost use Rattle.sfv_lint_report.specs.Reports.{IsCheckedField, IsReport, IsValueReport, IsWithLine, is_of_name, lines_of};

use crate::check::{Accepted, check};
use sfv::{Error, FieldKind, HashSeed, Version};
use sfv_http_fields::registry::type_of;
use sfv_lint_head::head::{FieldLine, HeadFault, read_head, values};
use sfv_lint_head::lines::{join, split};
use std::alloc::{AllocError, Global};
use std::str;

/// A structured field, with the outcome of its check.
#[derive(Drop)]
pub struct Field {
    /// The name as in its first line, or the name of the arguments.
    pub name: Vec<u8>,
    /// The type.
    pub kind: FieldKind,
    /// The lines.
    pub lines: Vec<Vec<u8>>,
    /// The value and the canonical text of the joined lines, or their error.
    pub outcome: Result<Accepted, Error>,
}

/// A report on a head.
#[derive(Drop)]
pub struct Report {
    /// The structured fields that the registry has, in the order of their first lines.
    pub fields: Vec<Field>,
    /// The names of the other field lines.
    pub others: Vec<Vec<u8>>,
}

/// Returns the type of a name in the registry.
#[tactic(auto, using(crate::proofs::Names::unregistered))]
fn type_of_name(name: &[u8]) -> Option<FieldKind>
    ensures some { IfSome result (λ kind. registered_type name.now ≡ Some kind) }
    ensures none { IfNone result (registered_type name.now ≡ None) }
{
    match str::from_utf8(name) {
        Ok(name) => type_of(name),
        Err(_) => None,
    }
}

/// Checks the joined lines as a field of this type.
fn check_lines(
    alloc: Global,
    seed: HashSeed,
    version: Version,
    name: &[u8],
    kind: FieldKind,
    lines: Vec<Vec<u8>>,
) -> Result<Field, AllocError>
    ensures name { IfOk result (λ field. field.name.items ≡ name.now) }
    ensures kind { IfOk result (λ field. field.kind ≡ kind) }
    ensures lines { IfOk result (λ field. lines_of field ≡ map (λ line. line.items) lines.items) }
    ensures checked { IfOk result (IsCheckedField version) }
{
    let name = Vec::from_slice(alloc, name)?;
    let text = join(alloc, lines.as_slice())?;
    let outcome = check(alloc, seed, version, kind, text.as_slice());
    Ok(Field {
        name,
        kind,
        lines,
        outcome,
    })
}

/// Returns `true` if the names are equal, in any case.
fn is_named(found: &[u8], name: &[u8]) -> bool
    ensures { result ≡ str_eq_ignore_ascii_case found.now name.now }
{
    found.eq_ignore_ascii_case(name)
}

/// Returns `true` if one of the fields has this name, in any case.
fn has_field(fields: &[Field], name: &[u8]) -> bool
    ensures { result ≡ list_any (is_of_name name.now) fields.now }
{
    for field in fields {
        if is_named(field.name.as_slice(), name) {
            return true;
        }
    }
    false
}

impl Report {
    /// Adds a field line to the report. `lines` are all lines of the head.
    fn add(
        &mut self,
        alloc: Global,
        seed: HashSeed,
        version: Version,
        lines: &[FieldLine],
        name: &[u8],
    ) -> Result<(), AllocError>
        ensures { OnOk result (IsWithLine version (map line_of lines.now) name.now self.old self.new) }
    {
        let Some(kind) = type_of_name(name) else {
            self.others.push(Vec::from_slice(alloc, name)?)?;
            return Ok(());
        };
        if has_field(self.fields.as_slice(), name) {
            return Ok(());
        }
        let values = values(alloc, lines, name)?;
        let field = check_lines(alloc, seed, version, name, kind, values)?;
        self.fields.push(field)?;
        Ok(())
    }
}

/// Reports on a head: of a request or a response with its start line, or field lines alone.
///
/// # Errors
///
/// Returns `NoHead` if the input is no head, and `OutOfMemory` if memory runs out.
pub fn report_head(
    alloc: Global,
    seed: HashSeed,
    version: Version,
    input: &[u8],
) -> Result<Report, HeadFault>
    ensures report { IfOk result (IsReport version input.now) }
    ensures failed { IfErr result (λ fault. fault ≡ faults.NoHead → HasNoHead input.now) }
{
    let lines = read_head(alloc, input)?;
    let mut report = Report {
        fields: Vec::new(alloc),
        others: Vec::new(alloc),
    };
    for line in &lines {
        report.add(alloc, seed, version, lines.as_slice(), line.name.as_slice())?;
    }
    Ok(report)
}

/// Checks a pasted value as a field of this type. Several lines are joined.
///
/// # Errors
///
/// Returns `AllocError` if memory runs out.
pub fn report_value(
    alloc: Global,
    seed: HashSeed,
    version: Version,
    name: &[u8],
    kind: FieldKind,
    input: &[u8],
) -> Result<Field, AllocError>
    ensures { IfOk result (IsValueReport version name.now kind input.now) }
{
    let lines = split(alloc, input)?;
    check_lines(alloc, seed, version, name, kind, lines)
}
