//! The errors of the library.

ghost use Rattle.std.specs.Prelude.{◌≡◌, ◌++◌, ◌↔◌, ℕ, List, [], Some, None, IsTrue, codes};
ghost use Rattle.sfv_spec.specs.Messages.{message_of};
ghost use Rattle.sfv_spec.specs.declared.error_kind.ErrorKind.TheVariants as kinds;
ghost use Rattle.sfv_base.specs.Errors.{error_of, kind_of, index_of, out_of_memory, error_text};

pub use sfv_spec::error_kind::ErrorKind;
use std::alloc::{AllocError, AllocFailed};
use std::fmt;

/// An error of the library: a kind, and the index of most kinds.
///
/// `Display` prints the text of the kind, and ` at index N` if there is an index. `OutOfMemory` and the allocator's
/// errors convert to the kind `OutOfMemory`, without index.
#[derive(Clone, Copy, Debug, PartialEq, Eq)]
pub struct Error {
    kind: ErrorKind,
    index: Option<usize>,
}

impl Error {
    ghost use Rattle.sfv_base.specs.Errors.{error_of, kind_of, index_of, out_of_memory};

    // A number that is out of range has no index.
    pub(crate) const OUT_OF_RANGE: Error = Error {
        kind: ErrorKind::OutOfRange,
        index: None,
    };

    /// Creates an error of this kind. The index is a zero-based offset in bytes into the input.
    pub fn with_kind(kind: ErrorKind, index: Option<usize>) -> Error
        ensures { result ≡ error_of kind index }
    {
        Error { kind, index }
    }

    /// Creates an error of this kind at this zero-based offset in bytes into the input.
    pub fn at(kind: ErrorKind, index: usize) -> Error
        ensures { result ≡ error_of kind (Some index) }
    {
        Error::with_kind(kind, Some(index))
    }

    /// Returns the kind of the error.
    pub fn kind(&self) -> ErrorKind
        ensures { result ≡ kind_of self.now }
    {
        self.kind
    }

    /// Returns the index of the error: a zero-based offset in bytes into the input, or `None`.
    pub fn index(&self) -> Option<usize>
        ensures { result ≡ index_of self.now }
    {
        self.index
    }

    /// Returns the text of the error without its index.
    pub fn message(&self) -> &'static str
        ensures { result.now ≡ message_of (kind_of self.now) }
    {
        self.kind.message()
    }

    /// Returns `true` if the kind is `OutOfMemory`.
    pub fn is_out_of_memory(&self) -> bool
        ensures { IsTrue result ↔ (kind_of self.now ≡ kinds.OutOfMemory) }
    {
        self.kind == ErrorKind::OutOfMemory
    }
}

impl fmt::Display for Error {
    ghost output = { λ e. Some (error_text e) };

    fn fmt<W: fmt::Write>(&self, f: &mut fmt::Formatter<W>) -> fmt::Result {
        let message = self.message();
        match self.index {
            Some(index) => write!(f, "{message} at index {index}"),
            None => f.write_str(message),
        }
    }
}

impl std::error::Error for Error {}

/// The error that memory ran out.
#[derive(Clone, Copy, Debug, PartialEq, Eq)]
pub struct OutOfMemory;

impl fmt::Display for OutOfMemory {
    ghost output = { λ _. Some (codes "out of memory") };

    ghost styled_output = { λ _ _. Some (codes "out of memory") };

    fn fmt<W: fmt::Write>(&self, f: &mut fmt::Formatter<W>) -> fmt::Result {
        f.write_str("out of memory")
    }
}

impl std::error::Error for OutOfMemory {}

impl From<AllocError> for OutOfMemory {
    fn from(_error: AllocError) -> OutOfMemory {
        OutOfMemory
    }
}

impl<T: Drop> From<AllocFailed<T>> for OutOfMemory {
    fn from(_error: AllocFailed<T>) -> OutOfMemory {
        OutOfMemory
    }
}

impl From<OutOfMemory> for Error {
    ghost from_gives = { λ _ e. e ≡ out_of_memory };

    fn from(_error: OutOfMemory) -> Error {
        Error::with_kind(ErrorKind::OutOfMemory, None)
    }
}

impl From<AllocError> for Error {
    ghost from_gives = { λ _ e. e ≡ out_of_memory };

    fn from(_error: AllocError) -> Error {
        Error::with_kind(ErrorKind::OutOfMemory, None)
    }
}

impl<T: Drop> From<AllocFailed<T>> for Error {
    ghost from_gives = { λ _ e. e ≡ out_of_memory };

    fn from(_error: AllocFailed<T>) -> Error {
        Error::with_kind(ErrorKind::OutOfMemory, None)
    }
}

/// An error of parsing with a visitor, whose errors have the type `E`. `Display` prints the error that it contains.
#[derive(Debug, Drop)]
pub enum ParseError<E> {
    /// The input is malformed, or memory ran out.
    Syntax(Error),
    /// The visitor failed.
    Visitor(E),
}

impl<E> ParseError<E> {
    ghost use Rattle.sfv_base.specs.ParseErrors.{parse_index};

    /// Returns the index of a syntax error: a zero-based offset in bytes into the input, or `None`. A visitor's error
    /// has no index.
    pub fn index(&self) -> Option<usize>
        ensures { result ≡ parse_index self.now }
    {
        match self {
            ParseError::Syntax(error) => error.index(),
            ParseError::Visitor(_) => None,
        }
    }
}

impl<E> From<Error> for ParseError<E> {
    ghost use Rattle.std.specs.Prelude.{◌≡◌};
    ghost use Rattle.sfv_base.specs.declared.error.ParseError.TheVariants as parse_errors;

    ghost from_gives = { λ e r. r ≡ parse_errors.Syntax e };

    fn from(error: Error) -> ParseError<E> {
        ParseError::Syntax(error)
    }
}

impl<E> From<OutOfMemory> for ParseError<E> {
    ghost use Rattle.std.specs.Prelude.{◌≡◌};
    ghost use Rattle.sfv_base.specs.Errors.{out_of_memory};
    ghost use Rattle.sfv_base.specs.declared.error.ParseError.TheVariants as parse_errors;

    ghost from_gives = { λ _ r. r ≡ parse_errors.Syntax out_of_memory };

    fn from(error: OutOfMemory) -> ParseError<E> {
        ParseError::Syntax(Error::from(error))
    }
}

impl<E: fmt::Display> fmt::Display for ParseError<E> {
    ghost use Rattle.sfv_base.specs.ParseErrors.{parse_output};

    ghost output = { λ e. parse_output E.output e };

    fn fmt<W: fmt::Write>(&self, f: &mut fmt::Formatter<W>) -> fmt::Result {
        match self {
            ParseError::Syntax(error) => write!(f, "{error}"),
            ParseError::Visitor(error) => write!(f, "{error}"),
        }
    }
}

impl<E: std::error::Error> std::error::Error for ParseError<E> {}
