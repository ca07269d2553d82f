//! Dates (RFC 9651, section 3.3.7).

ghost use Rattle.std.specs.Prelude.{◌≡◌, Some, pos};
ghost use Rattle.sfv_spec.specs.Values.{date as date_value};
ghost use Rattle.sfv_spec.specs.Canonical.{bare_text};
ghost use Rattle.sfv_base.specs.Numbers.{integer_of, seconds_of};

use crate::integer::Integer;
use std::fmt;

/// A point in time, in whole seconds from the Unix epoch (RFC 9651, section 3.3.7). RFC 8941 lacks dates.
///
/// `Default` is the epoch. Comparisons and `Hash` use the seconds. `Display` prints the canonical text.
///
/// Contracts name the seconds `seconds_of`.
#[derive(Clone, Copy, Debug, PartialEq, Eq, PartialOrd, Ord, Hash)]
pub struct Date {
    seconds: Integer,
}

impl Date {
    /// The least date, -999999999999999 seconds.
    pub const MIN: Date = Date {
        seconds: Integer::MIN,
    };

    /// The greatest date, 999999999999999 seconds.
    pub const MAX: Date = Date {
        seconds: Integer::MAX,
    };

    /// 1970-01-01T00:00:00Z.
    pub const UNIX_EPOCH: Date = Date {
        seconds: Integer::ZERO,
    };

    /// Returns the seconds from the Unix epoch.
    pub fn unix_seconds(&self) -> Integer
        ensures { integer_of result ≡ seconds_of self.now }
    {
        self.seconds
    }

    /// Returns the date that is `v` seconds from the Unix epoch.
    pub fn from_unix_seconds(v: Integer) -> Date
        ensures { seconds_of result ≡ integer_of v }
    {
        Date { seconds: v }
    }
}

impl Default for Date {
    ghost is_default = { λ d. seconds_of d ≡ pos 0 };

    fn default() -> Date {
        Date::UNIX_EPOCH
    }
}

impl fmt::Display for Date {
    ghost output = { λ d. Some (bare_text (date_value (seconds_of d))) };

    fn fmt<W: fmt::Write>(&self, f: &mut fmt::Formatter<W>) -> fmt::Result {
        let seconds = self.seconds;
        write!(f, "@{seconds}")
    }
}
