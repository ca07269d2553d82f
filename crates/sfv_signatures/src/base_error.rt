//! The errors of a signature base.

ghost use Rattle.std.specs.Prelude.{◌≡◌};
ghost use Rattle.sfv_signatures.specs.declared.base_error.BaseErrorKind.TheVariants as kinds;

use sfv::SerializeError;
use std::alloc::AllocError;

/// The rule that a component identifier breaks (RFC 9421, sections 2, 2.5 and 7), or out of memory.
#[derive(Clone, Copy, Debug, PartialEq, Eq)]
pub enum BaseErrorKind {
    /// The identifier is not a string.
    NotAString,
    /// An earlier identifier has the same name and the same parameters, in any order.
    Repeated,
    /// The identifier is `@signature-params`, which is not a component.
    SignatureParams,
    /// The name begins with `@`, and no derived component has this name.
    UnknownComponent,
    /// The message lacks the component.
    Absent,
    /// The component does not allow this parameter.
    UnknownParameter,
    /// A parameter has a value of another type.
    WrongType,
    /// The parameters exclude each other: `bs` with `sf` or `key`.
    Conflict,
    /// The parameter is `sf`, and the program does not know the type of the field.
    UnknownType,
    /// The parameter is `sf` or `key`, and the field does not parse.
    Unparsed,
    /// The parameter is `key`, and the dictionary lacks this key.
    NoMember,
    /// The value contains a line feed or a carriage return.
    LineBreak,
    /// The value contains a byte outside ASCII.
    NotAscii,
    /// Memory ran out.
    OutOfMemory,
}

impl From<AllocError> for BaseErrorKind {
    ghost from_gives = { λ _ kind. kind ≡ kinds.OutOfMemory };

    fn from(_error: AllocError) -> BaseErrorKind {
        BaseErrorKind::OutOfMemory
    }
}

impl From<SerializeError> for BaseErrorKind {
    ghost from_gives = { λ _ kind. kind ≡ kinds.OutOfMemory };

    // RFC 9651 has every value, so the error is out of memory.
    fn from(_error: SerializeError) -> BaseErrorKind {
        BaseErrorKind::OutOfMemory
    }
}

/// The error of `signature_base`.
#[derive(Clone, Copy, Debug, PartialEq, Eq)]
pub struct BaseError {
    /// The rule, or out of memory.
    pub kind: BaseErrorKind,
    /// The index of the identifier in the inner list; of the last line, their number.
    pub index: usize,
}
