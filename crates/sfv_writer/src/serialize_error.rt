//! The errors of serialization.

ghost use Rattle.std.specs.Prelude.{◌≡◌, Some};
ghost use Rattle.sfv_writer.specs.Versions.{serialize_error_text};
ghost use Rattle.sfv_writer.specs.declared.serialize_error.SerializeError.TheVariants as errors;

use sfv_base::error::OutOfMemory;
use sfv_values::bare::BareItemType;
use std::alloc::{AllocError, AllocFailed};
use std::fmt;

/// An error of serialization: the version lacks a value, or memory ran out.
///
/// `Display` prints the kind that RFC 8941 does not support, or `out of memory`. `OutOfMemory` and the allocator's
/// errors convert to `SerializeError::OutOfMemory`.
#[derive(Clone, Copy, Debug, PartialEq, Eq)]
pub enum SerializeError {
    /// The version lacks bare items of this kind: `Date` or `DisplayString`, under RFC 8941.
    Unsupported(BareItemType),
    /// Memory ran out.
    OutOfMemory,
}

impl fmt::Display for SerializeError {
    ghost output = { λ error. Some (serialize_error_text error) };

    fn fmt<W: fmt::Write>(&self, f: &mut fmt::Formatter<W>) -> fmt::Result {
        match self {
            SerializeError::Unsupported(kind) => { write!(f, "RFC 8941 does not support {kind}s") }
            SerializeError::OutOfMemory => f.write_str("out of memory"),
        }
    }
}

impl std::error::Error for SerializeError {}

impl From<OutOfMemory> for SerializeError {
    ghost from_gives = { λ _ error. error ≡ errors.OutOfMemory };

    fn from(_error: OutOfMemory) -> SerializeError {
        SerializeError::OutOfMemory
    }
}

impl From<AllocError> for SerializeError {
    ghost from_gives = { λ _ error. error ≡ errors.OutOfMemory };

    fn from(_error: AllocError) -> SerializeError {
        SerializeError::OutOfMemory
    }
}

impl<T: Drop> From<AllocFailed<T>> for SerializeError {
    ghost from_gives = { λ _ error. error ≡ errors.OutOfMemory };

    fn from(_error: AllocFailed<T>) -> SerializeError {
        SerializeError::OutOfMemory
    }
}

/// Converts an error of serialization under RFC 9651. That version has every value, so only memory can run out.
pub fn expect_out_of_memory(error: SerializeError) -> OutOfMemory
    requires { error ≡ errors.OutOfMemory }
{
    match error {
        SerializeError::OutOfMemory => OutOfMemory,
        SerializeError::Unsupported(_) => unreachable!(),
    }
}
