//! The lines of a field.

ghost use Rattle.std.specs.Prelude.{◌≡◌, ◌≢◌, [], length, All, IfOk, OnErr, map};
ghost use Rattle.std.specs.Str.{str_eq_ignore_ascii_case};
ghost use Rattle.httparse.specs.Spans.{IsHeaderWithin, header_bytes};
ghost use Rattle.sfv_http_fields.specs.Lines.{text_of_lines, bytes_of};

use httparse::spans::HeaderSpan;
use sfv_headers::add_line;
use std::alloc::{AllocError, Global};
use std::borrow::CowSlice;

// Returns `true` if the line has this name, in any case.
fn is_named(line: &[u8], name: &str) -> bool
    ensures { result ≡ str_eq_ignore_ascii_case line.now name.now }
{
    line.eq_ignore_ascii_case(name.as_bytes())
}

// Returns the bytes of a text, or none without a text. Only bytes that are borrowed need memory.
fn owned_bytes(alloc: Global, text: Option<CowSlice<'_, u8, Global>>) -> Result<Vec<u8>, AllocError>
    ensures bytes { IfOk result (λ bytes. bytes.items ≡ bytes_of text.entry) }
    ensures memory { OnErr result (bytes_of text.entry ≢ []) }
{
    match text {
        None => Ok(Vec::new(alloc)),
        Some(CowSlice::Owned(bytes)) => Ok(bytes),
        Some(CowSlice::Borrowed(line)) => {
            let mut bytes = Vec::new(alloc);
            bytes.extend_from_slice(line)?;
            Ok(bytes)
        }
    }
}

// Returns the joined values of the lines with this name. Memory can run out only if they are not empty.
pub(crate) fn joined_lines(
    alloc: Global,
    name: &str,
    input: &[u8],
    headers: &[HeaderSpan],
) -> Result<Vec<u8>, AllocError>
    requires { All (IsHeaderWithin (length input.now)) headers.now }
    ensures text { IfOk result (λ text.
        text.items ≡ text_of_lines name.now (map (header_bytes input.now) headers.now)) }
    ensures memory { OnErr result (text_of_lines name.now (map (header_bytes input.now) headers.now) ≢ []) }
{
    let mut text = None;
    for header in headers {
        if is_named(header.name.of(input), name) {
            text = Some(add_line(alloc, text, header.value.of(input))?);
        }
    }
    owned_bytes(alloc, text)
}
