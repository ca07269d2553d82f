//! The lines of a field (RFC 9421, section 2.1).

ghost use Rattle.std.specs.Prelude.{◌≡◌, ◌++◌, IfOk, OnOk, IfErr, Ok, IsUtf8, codes, string_bytes};
ghost use Rattle.sfv.specs.Canonical.{bare_text};
ghost use Rattle.sfv.specs.Values.{byte_sequence};
ghost use Rattle.sfv.specs.Written.{separator_before};
ghost use Rattle.sfv_headers.specs.Lines.{lines_in};
ghost use Rattle.sfv_signatures.specs.HttpMessages.{is_blank, without_start, without_end, plain_text, byte_text};
ghost use Rattle.sfv_signatures.specs.Components.{UnlessMemory, AppendsValue};
ghost use Rattle.http_header.specs.Token.{lowercase};
ghost use Rattle.sfv_signatures.specs.declared.base_error.BaseErrorKind.TheVariants as kinds;

use crate::base_error::BaseErrorKind;
use http_header::HeaderMap;
use sfv::{GenericBareItem, ItemSerializer};
use std::alloc::{AllocError, Global};

// Returns `true` for a space or a tab.
fn is_blank(c: u8) -> bool
    ensures { result ≡ is_blank c }
{
    c == b' ' || c == b'\t'
}

// Returns the text without the spaces and tabs at its start.
fn without_start(text: &[u8]) -> &[u8]
    ensures { result.now ≡ without_start text.now }
{
    let mut start = 0;
    while start < text.len() && is_blank(text[start]) {
        start += 1;
    }
    &text[start..]
}

// Returns the text without the spaces and tabs at its end.
fn without_end(text: &[u8]) -> &[u8]
    ensures { result.now ≡ without_end text.now }
{
    let mut end = text.len();
    while end > 0 && is_blank(text[end - 1]) {
        end -= 1;
    }
    &text[..end]
}

// Returns the text without the spaces and tabs at its ends.
fn trimmed(line: &[u8]) -> &[u8]
    ensures { result.now ≡ without_end (without_start line.now) }
{
    without_end(without_start(line))
}

// Appends a line to a text, after a comma and a space unless it is the first.
fn join_line(is_first: bool, line: &[u8], text: &mut Vec<u8>) -> Result<(), AllocError>
    ensures { OnOk result (text.new.items
        ≡ text.old.items ++ (separator_before is_first (codes ", ") ++ without_end (without_start line.now))) }
{
    if !is_first {
        text.extend_from_slice(b", ")?;
    }
    text.extend_from_slice(trimmed(line))
}

/// Returns the lines of a field as they are, joined by a comma and a space.
pub(crate) fn plain_text(
    alloc: Global,
    name: &str,
    fields: &HeaderMap,
) -> Result<Vec<u8>, AllocError>
    ensures { IfOk result (λ text. text.items ≡ plain_text (lines_in fields.now (lowercase name.now))) }
{
    let mut text = Vec::new(alloc);
    let mut is_first = true;
    for value in fields.get_all(name) {
        join_line(is_first, value.as_bytes(), &mut text)?;
        is_first = false;
    }
    Ok(text)
}

// Appends a line as it is, after a comma and a space unless it is the first. Its error is out of memory, or that the line
// is no text.
fn append_line(is_first: bool, line: &[u8], base: &mut String) -> Result<(), BaseErrorKind>
    ensures text { OnOk result (string_bytes base.new ≡ string_bytes base.old
        ++ (separator_before is_first (codes ", ") ++ without_end (without_start line.now))) }
    ensures failed { IfErr result
        (UnlessMemory (λ kind. (kind ≡ kinds.NotAscii) × (¬ IsUtf8 (without_end (without_start line.now))))) }
{
    let Ok(text) = str::from_utf8(trimmed(line)) else {
        return Err(BaseErrorKind::NotAscii);
    };
    if !is_first {
        base.push_str(", ")?;
    }
    base.push_str(text)?;
    Ok(())
}

/// Appends the lines of a field as they are.
pub(crate) fn append_plain_text(
    name: &str,
    fields: &HeaderMap,
    base: &mut String,
) -> Result<(), BaseErrorKind>
    ensures { AppendsValue (λ r. r ≡ Ok (plain_text (lines_in fields.now (lowercase name.now))))
        base.old base.new result }
{
    let mut is_first = true;
    for value in fields.get_all(name) {
        append_line(is_first, value.as_bytes(), base)?;
        is_first = false;
    }
    Ok(())
}

// Appends a line as a byte sequence, after a comma and a space unless it is the first.
fn append_bytes(is_first: bool, line: &[u8], base: &mut String) -> Result<(), BaseErrorKind>
    ensures text { OnOk result (string_bytes base.new ≡ string_bytes base.old
        ++ (separator_before is_first (codes ", ") ++ bare_text (byte_sequence (without_end (without_start line.now))))) }
    ensures failed { IfErr result (λ kind. kind ≡ kinds.OutOfMemory) }
{
    if !is_first {
        base.push_str(", ")?;
    }
    let bytes = GenericBareItem::ByteSequence(trimmed(line));
    ItemSerializer::with_buffer(base).bare_item(bytes)?.finish();
    Ok(())
}

/// Appends each line of a field as a byte sequence.
pub(crate) fn append_byte_text(
    name: &str,
    fields: &HeaderMap,
    base: &mut String,
) -> Result<(), BaseErrorKind>
    ensures text { OnOk result (string_bytes base.new
        ≡ string_bytes base.old ++ byte_text (lines_in fields.now (lowercase name.now))) }
    ensures failed { IfErr result (λ kind. kind ≡ kinds.OutOfMemory) }
{
    let mut is_first = true;
    for value in fields.get_all(name) {
        append_bytes(is_first, value.as_bytes(), base)?;
        is_first = false;
    }
    Ok(())
}
