//! The errors of this crate.

ghost use Rattle.std.specs.Prelude.{◌≡◌};
ghost use Rattle.sfv.specs.Errors.{out_of_memory};
ghost use Rattle.sfv_http_fields.specs.Requests.{printed};
ghost use Rattle.sfv_http_fields.specs.declared.request.fault.RequestFault.TheVariants as faults;

use std::alloc::AllocError;
use std::fmt;

/// The error of parsing a field of a request.
#[derive(Clone, Copy, Debug, PartialEq, Eq)]
pub enum RequestFault {
    /// The input does not begin with the head of a request, or the head has more fields than the buffer for headers.
    Head(httparse::Error),
    /// The field has a syntax error, or memory ran out.
    Field(sfv::Error),
}

impl fmt::Display for RequestFault {
    ghost output = { λ fault. printed fault };

    fn fmt<W: fmt::Write>(&self, f: &mut fmt::Formatter<W>) -> fmt::Result {
        match self {
            RequestFault::Head(error) => write!(f, "{error}"),
            RequestFault::Field(error) => write!(f, "{error}"),
        }
    }
}

impl std::error::Error for RequestFault {}

impl From<httparse::Error> for RequestFault {
    ghost from_gives = { λ error fault. fault ≡ faults.Head error };

    fn from(error: httparse::Error) -> RequestFault {
        RequestFault::Head(error)
    }
}

impl From<sfv::Error> for RequestFault {
    ghost from_gives = { λ error fault. fault ≡ faults.Field error };

    fn from(error: sfv::Error) -> RequestFault {
        RequestFault::Field(error)
    }
}

impl From<AllocError> for RequestFault {
    ghost from_gives = { λ _ fault. fault ≡ faults.Field out_of_memory };

    fn from(error: AllocError) -> RequestFault {
        RequestFault::Field(sfv::Error::from(error))
    }
}
