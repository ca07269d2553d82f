//! The results of the exported calls.

ghost use Rattle.std.specs.Prelude.{◌≡◌, option_map, string_bytes};
ghost use Rattle.sfv_c.specs.Answers.{answer, refusal, fault_answer, written_answer, bad_argument, Puts, PutsText};
ghost use Rattle.sfv_c.specs.declared.answer.CallFault.TheVariants as faults;

use crate::numbers::{number_of_kind, number_of_type};
use sfv::{Error, SerializeError};

/// The result of a call. Each part that the status does not use is 0.
#[repr(C)]
#[derive(Clone, Copy, Drop)]
pub struct Answer {
    /// The status.
    pub status: u32,
    /// The kind of the error, or the kind of the value that the version lacks.
    pub kind: u32,
    /// The index of the syntax error in the input, or of the wrong row.
    pub index: usize,
    /// The length of the text, or of all decoded texts, written or needed.
    pub length: usize,
    /// The number of events, written or needed.
    pub events: usize,
}

/// Done.
pub(crate) const OK: u32 = 0;

/// There is no member, and nothing to write.
const NOTHING: u32 = 1;

/// A buffer is too small.
pub(crate) const TOO_SMALL: u32 = 2;

/// The input is rejected.
const REFUSED: u32 = 3;

/// Memory ran out.
const OUT_OF_MEMORY: u32 = 4;

/// The version to write for lacks a value.
const UNSUPPORTED: u32 = 6;

/// No field has these rows.
const NO_FIELD: u32 = 7;

/// An argument names nothing.
pub(crate) const BAD_ARGUMENT: Answer = Answer {
    status: 5,
    kind: 0,
    index: 0,
    length: 0,
    events: 0,
};

/// The text that a call wrote into a buffer, if any.
#[derive(Clone, Copy, Drop)]
pub(crate) enum Written {
    /// A text of this length.
    Text(usize),
    /// Nothing, since there is no member.
    Nothing,
    /// Nothing, since the text has this length, and the buffer a smaller one.
    TooSmall(usize),
}

/// The reason why a call wrote nothing.
#[derive(Clone, Copy, Drop)]
pub(crate) enum CallFault {
    /// The input is rejected, or memory ran out.
    Read(Error),
    /// The value is not written.
    Write(SerializeError),
    /// The rows denote no field: the index of the first wrong row, or their number if more are needed.
    Rows(usize),
}

impl From<Error> for CallFault {
    ghost from_gives = { λ error fault. fault ≡ faults.Read error };

    fn from(error: Error) -> CallFault {
        CallFault::Read(error)
    }
}

impl From<SerializeError> for CallFault {
    ghost from_gives = { λ error fault. fault ≡ faults.Write error };

    fn from(error: SerializeError) -> CallFault {
        CallFault::Write(error)
    }
}

impl Answer {
    /// Returns the result with this status and kind.
    fn of_kind(status: u32, kind: u32) -> Answer
        ensures { result ≡ answer status kind 0 0 0 }
    {
        Answer {
            status,
            kind,
            index: 0,
            length: 0,
            events: 0,
        }
    }

    /// Returns the result with this status and these sizes.
    pub(crate) fn of_sizes(status: u32, length: usize, events: usize) -> Answer
        ensures { result ≡ answer status 0 0 length events }
    {
        Answer {
            status,
            kind: 0,
            index: 0,
            length,
            events,
        }
    }

    /// Returns the result of a call that wrote this.
    pub(crate) fn of_written(written: Written) -> Answer
        ensures { result ≡ written_answer written }
    {
        match written {
            Written::Text(length) => Answer::of_sizes(OK, length, 0),
            Written::Nothing => Answer::of_sizes(NOTHING, 0, 0),
            Written::TooSmall(length) => Answer::of_sizes(TOO_SMALL, length, 0),
        }
    }

    /// Returns the result for an error of parsing.
    pub(crate) fn of_error(error: Error) -> Answer
        ensures { result ≡ refusal error }
    {
        let kind = number_of_kind(error.kind());
        match error.index() {
            Some(index) => Answer {
                status: REFUSED,
                kind,
                index,
                length: 0,
                events: 0,
            },
            None => Answer::of_kind(OUT_OF_MEMORY, kind),
        }
    }

    /// Returns the result for a call that wrote nothing.
    pub(crate) fn of_fault(fault: CallFault) -> Answer
        ensures { result ≡ fault_answer fault }
    {
        match fault {
            CallFault::Read(error) => Answer::of_error(error),
            CallFault::Write(SerializeError::OutOfMemory) => Answer::of_kind(OUT_OF_MEMORY, 1),
            CallFault::Write(SerializeError::Unsupported(value)) => {
                Answer::of_kind(UNSUPPORTED, number_of_type(value))
            }
            CallFault::Rows(index) => Answer {
                status: NO_FIELD,
                kind: 0,
                index,
                length: 0,
                events: 0,
            },
        }
    }
}

/// Writes a text to the start of the buffer, if it fits.
pub(crate) fn put(text: &str, out: &mut [u8]) -> Written
    ensures { Puts text.now out.old out.new result }
{
    let bytes = text.as_bytes();
    let length = bytes.len();
    if length > out.len() {
        return Written::TooSmall(length);
    }
    out[..length].copy_from_slice(bytes);
    Written::Text(length)
}

/// Writes a text, if there is one, to the start of the buffer, if it fits.
pub(crate) fn put_text(text: Option<String>, out: &mut [u8]) -> Written
    ensures { PutsText (option_map string_bytes text) out.old out.new result }
{
    match text {
        Some(text) => put(text.as_str(), out),
        None => Written::Nothing,
    }
}
