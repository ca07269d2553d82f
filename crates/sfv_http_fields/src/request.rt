//! Structured fields from the bytes of a request's head (HTTP/1.1). `httparse` parses the head. The lines of a field
//! are joined to one text (RFC 9110, sections 5.2 and 5.3).
//!
//! The clause `complete` of `httparse` relates the lines to its grammar (`ReadsRequest`). So the contracts here speak
//! of the bytes of the head.

pub mod fault;
mod lines;

ghost use Rattle.std.specs.Prelude.{length, IfErr, codes};
ghost use Rattle.httparse.specs.Grammar.{HasNoRequest, MayBecomeRequest};
ghost use Rattle.httparse.specs.Outcome.{IfComplete, OnPartial};
ghost use Rattle.sfv_http_fields.specs.Priority.{value_of};
ghost use Rattle.sfv_http_fields.specs.Requests.{IsRequestField, IsFieldFault, IsRequestPriority, IsRequestFault};
ghost use Rattle.sfv_http_fields.specs.Requests.{HoldsHead};

use crate::priority::{Priority, read_priority};
pub use crate::request::fault::RequestFault;
use crate::request::lines::joined_lines;
use httparse::Status;
use httparse::spans::{HeaderSpan, parse_request};
use sfv::Version;
use std::alloc::Global;

/// Returns the text of the field `name` of a request: the values of its lines, joined by a comma and a space.
///
/// The values have no white space around them. The case of the name is ignored. The text is empty if the head has no
/// such line. The front of `headers` receives the fields of the head.
///
/// Returns `Partial` if the head is incomplete: more bytes can complete it, or the input ends in the request target,
/// whose bytes are checked at its end.
///
/// # Errors
///
/// Returns `Head` if the input does not begin with the head of a request, or if the head has more fields than
/// `headers`. Returns `Field` if memory runs out, which requires a text that is not empty.
pub fn request_field(
    alloc: Global,
    name: &str,
    input: &[u8],
    headers: &mut [HeaderSpan],
) -> Result<Status<Vec<u8>>, RequestFault>
    ensures text { IfComplete result (λ text. IsRequestField name.now input.now text.items) }
    ensures partial { OnPartial result (HasNoRequest input.now) }
    ensures unfinished { OnPartial result (MayBecomeRequest input.now) }
    ensures headers { IfComplete result (λ _. HoldsHead input.now headers.new) }
    ensures failed { IfErr result (IsFieldFault name.now (length headers.old) input.now) }
{
    match parse_request(input, headers)? {
        Status::Complete(head) => {
            let text = joined_lines(alloc, name, input, &headers[..head.headers])?;
            Ok(Status::Complete(text))
        }
        Status::Partial => Ok(Status::Partial),
    }
}

/// Parses the field `priority` of a request (RFC 9218) under `version`. Returns the default if the head has no such
/// line, and `Partial` if the head is incomplete, as for `request_field`.
///
/// # Errors
///
/// Returns the errors of `request_field`, and `Field` with the error of `Parser::parse` if the joined lines are not a
/// dictionary. Memory runs out only if they are not empty.
pub fn request_priority(
    alloc: Global,
    version: Version,
    input: &[u8],
    headers: &mut [HeaderSpan],
) -> Result<Status<Priority>, RequestFault>
    ensures read { IfComplete result (λ found. IsRequestPriority version input.now (value_of found)) }
    ensures partial { OnPartial result (HasNoRequest input.now) }
    ensures unfinished { OnPartial result (MayBecomeRequest input.now) }
    ensures headers { IfComplete result (λ _. HoldsHead input.now headers.new) }
    ensures failed { IfErr result (IsRequestFault version (length headers.old) input.now) }
{
    match request_field(alloc, "priority", input, headers)? {
        Status::Complete(text) => {
            let priority = read_priority(alloc, text.as_slice(), version)?;
            Ok(Status::Complete(priority))
        }
        Status::Partial => Ok(Status::Partial),
    }
}
