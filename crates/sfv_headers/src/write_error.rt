//! The errors of writing into a header map.

ghost use Rattle.std.specs.Prelude.{◌≡◌};
ghost use Rattle.sfv_headers.specs.declared.write_error.WriteError.TheVariants as errors;

use http_header::HeaderMapError;
use sfv::{BareItemType, SerializeError};
use std::alloc::AllocError;
use std::fmt;

/// An error of writing a field into a header map.
#[derive(Clone, Copy, Debug, PartialEq, Eq)]
pub enum WriteError {
    /// The version lacks bare items of this kind: `Date` or `DisplayString`, under RFC 8941.
    Unsupported(BareItemType),
    /// The map lacks the name, and has as many names or values as it can count.
    MaxSizeReached,
    /// Memory ran out.
    OutOfMemory,
}

impl fmt::Display for WriteError {
    fn fmt<W: fmt::Write>(&self, f: &mut fmt::Formatter<W>) -> fmt::Result {
        match self {
            WriteError::Unsupported(kind) => write!(f, "RFC 8941 does not support {kind}s"),
            WriteError::MaxSizeReached => f.write_str("the header map is full"),
            WriteError::OutOfMemory => f.write_str("out of memory"),
        }
    }
}

impl std::error::Error for WriteError {}

impl From<SerializeError> for WriteError {
    ghost use Rattle.sfv_headers.specs.Errors.{of_serializing};

    ghost from_gives = { λ error result. result ≡ of_serializing error };

    fn from(error: SerializeError) -> WriteError {
        match error {
            SerializeError::Unsupported(kind) => WriteError::Unsupported(kind),
            SerializeError::OutOfMemory => WriteError::OutOfMemory,
        }
    }
}

impl From<HeaderMapError> for WriteError {
    ghost use Rattle.sfv_headers.specs.Errors.{of_map};

    ghost from_gives = { λ error result. result ≡ of_map error };

    fn from(error: HeaderMapError) -> WriteError {
        match error {
            HeaderMapError::MaxSizeReached => WriteError::MaxSizeReached,
            HeaderMapError::OutOfMemory => WriteError::OutOfMemory,
        }
    }
}

impl From<AllocError> for WriteError {
    ghost from_gives = { λ _ result. result ≡ errors.OutOfMemory };

    fn from(_error: AllocError) -> WriteError {
        WriteError::OutOfMemory
    }
}
