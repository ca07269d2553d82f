//! The field lines of a head.

ghost use Rattle.std.specs.Prelude.{◌≡◌, IfOk, IfErr, IfSome, IfNone, map, length, All, codes, ◌++◌, ◌<◌};
ghost use Rattle.std.specs.Str.{str_eq_ignore_ascii_case};
ghost use Rattle.httparse.specs.Grammar.{HasNoSection};
ghost use Rattle.httparse.specs.Spans.{IsHeaderWithin, header_bytes};
ghost use Rattle.sfv_lint_head.specs.Heads.{has_early_space, names_http, is_start_line, first_line, section_of, section_text};
ghost use Rattle.sfv_lint_head.specs.Heads.{IsHead, HasNoHead, line_feeds, HoldsSection, line_of, values_of};
ghost use Rattle.sfv_lint_head.specs.declared.head.HeadFault.TheVariants as faults;

use crate::lines::split_line;
use httparse::Status;
use httparse::spans::{EMPTY_HEADER_SPAN, HeaderSpan, parse_headers};
use std::alloc::{AllocError, AllocFailed, Global};

/// A field line: its name, and its value without white space around it.
#[derive(Debug, Drop)]
pub struct FieldLine {
    /// The name as received.
    pub name: Vec<u8>,
    /// The value.
    pub value: Vec<u8>,
}

/// The error of an input that is no head.
#[derive(Clone, Copy, Debug, PartialEq, Eq)]
pub enum HeadFault {
    /// The input is no head.
    NoHead,
    /// Memory ran out.
    OutOfMemory,
}

impl From<AllocError> for HeadFault {
    ghost from_gives = { λ _ fault. fault ≡ faults.OutOfMemory };

    fn from(_error: AllocError) -> HeadFault {
        HeadFault::OutOfMemory
    }
}

impl<T: Drop> From<AllocFailed<T>> for HeadFault {
    ghost from_gives = { λ _ fault. fault ≡ faults.OutOfMemory };

    fn from(_error: AllocFailed<T>) -> HeadFault {
        HeadFault::OutOfMemory
    }
}

/// Returns `true` if a space comes before any colon.
fn has_early_space(line: &[u8]) -> bool
    ensures { result ≡ has_early_space line.now }
{
    for &byte in line {
        match byte {
            b' ' => return true,
            b':' => return false,
            _ => {}
        }
    }
    false
}

/// Returns `true` if the line contains `HTTP/`.
#[tactic(auto, using(crate::proofs::Steps::names_http_step))]
fn names_http(line: &[u8]) -> bool
    ensures { result ≡ names_http line.now }
{
    for start in 0..line.len() {
        if line[start..].starts_with(b"HTTP/") {
            return true;
        }
    }
    false
}

/// Returns the text without its start line, if there is one.
fn section(text: &[u8]) -> &[u8]
    ensures { result.now ≡ section_of text.now }
{
    let (line, rest) = split_line(text);
    if has_early_space(line) && names_http(line) {
        rest
    } else {
        text
    }
}

/// Returns the number of line feeds. A section has fewer fields.
fn line_feeds(section: &[u8]) -> usize
    ensures { result ≡ line_feeds section.now }
{
    let mut count = 0;
    for &byte in section {
        if byte == b'\n' {
            count += 1;
        }
    }
    count
}

/// Writes the fields of a section to the front of `headers`, and returns their number.
fn parse_section(section: &[u8], headers: &mut [HeaderSpan]) -> Option<usize>
    requires { length headers.old ≡ line_feeds section.now }
    ensures fields { IfSome result (HoldsSection section.now headers.new) }
    ensures none { IfNone result (HasNoSection section.now) }
{
    match parse_headers(section, headers) {
        Ok(Status::Complete((_, count))) => Some(count),
        Ok(Status::Partial) => None,
        Err(_) => None,
    }
}

/// Returns copies of the names and values of the headers.
fn field_lines(
    alloc: Global,
    section: &[u8],
    headers: &[HeaderSpan],
) -> Result<Vec<FieldLine>, AllocError>
    requires { All (IsHeaderWithin (length section.now)) headers.now }
    ensures { IfOk result (λ lines. map line_of lines.items ≡ map (header_bytes section.now) headers.now) }
{
    let mut lines = Vec::with_capacity(alloc, headers.len())?;
    for header in headers {
        let name = Vec::from_slice(alloc, header.name.of(section))?;
        let value = Vec::from_slice(alloc, header.value.of(section))?;
        lines.push(FieldLine { name, value })?;
    }
    Ok(lines)
}

/// Returns the field lines of a head: of a request or a response with its start line, or field lines alone.
///
/// A start line is a first line with a space before any colon and with `HTTP/`, so each version of HTTP has one. The
/// empty line at the end may be missing. What follows it is ignored.
///
/// # Errors
///
/// Returns `NoHead` if a line is no field line, and `OutOfMemory` if memory runs out.
pub fn read_head(alloc: Global, input: &[u8]) -> Result<Vec<FieldLine>, HeadFault>
    ensures lines { IfOk result (λ lines. IsHead input.now (map line_of lines.items)) }
    ensures failed { IfErr result (λ fault. fault ≡ faults.NoHead → HasNoHead input.now) }
{
    let mut text = Vec::from_slice(alloc, input)?;
    text.extend_from_slice(b"\n\n")?;
    let section = section(text.as_slice());
    let room = line_feeds(section);
    let mut headers = vec![in alloc; EMPTY_HEADER_SPAN; room]?;
    let Some(count) = parse_section(section, headers.as_mut_slice()) else {
        return Err(HeadFault::NoHead);
    };
    let lines = field_lines(alloc, section, &headers.as_slice()[..count])?;
    Ok(lines)
}

/// Returns `true` if the names are equal, in any case.
fn is_named(line: &[u8], name: &[u8]) -> bool
    ensures { result ≡ str_eq_ignore_ascii_case line.now name.now }
{
    line.eq_ignore_ascii_case(name)
}

/// Returns the values of the lines with this name, in any case (RFC 9110, section 5.1).
///
/// # Errors
///
/// Returns `AllocError` if memory runs out.
pub fn values(alloc: Global, lines: &[FieldLine], name: &[u8]) -> Result<Vec<Vec<u8>>, AllocError>
    ensures { IfOk result (λ values.
        map (λ value. value.items) values.items ≡ values_of name.now (map line_of lines.now)) }
{
    let mut values = Vec::new(alloc);
    for line in lines {
        if is_named(line.name.as_slice(), name) {
            values.push(Vec::from_slice(alloc, line.value.as_slice())?)?;
        }
    }
    Ok(values)
}
