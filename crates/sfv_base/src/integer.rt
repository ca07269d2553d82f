//! Integers (RFC 9651, section 3.3.1).

ghost use Rattle.sfv_spec.specs.Values.{IsInRange};

mod conversions;

use crate::error::Error;
use std::fmt;

/// An integer of at most fifteen digits (RFC 9651, section 3.3.1).
///
/// A conversion from or to another type keeps the number. `TryFrom` fails with `ErrorKind::OutOfRange` if and only if
/// the number is out of the range of the target type. The conversions to types of `std` exist in a crate that depends
/// on this crate directly; `to_i64` exists everywhere. `Default` is zero. Comparisons and `Hash` use the number.
/// `Display` prints the canonical text.
///
/// Contracts name the number `integer_of`.
#[derive(Clone, Copy, Debug, PartialEq, Eq, PartialOrd, Ord, Hash)]
pub struct Integer {
    value: i64,
    pub ghost valid: { IsInRange value },
}

impl Integer {
    ghost use Rattle.std.specs.Prelude.{◌≡◌};
    ghost use Rattle.sfv_base.specs.Numbers.{integer_of};
    ghost use Rattle.sfv_base.specs.Conversions.{GivesIf};

    /// The least integer, -999999999999999.
    pub const MIN: Integer = Integer {
        value: -999_999_999_999_999,
    };

    /// The greatest integer, 999999999999999.
    pub const MAX: Integer = Integer {
        value: 999_999_999_999_999,
    };

    /// Zero.
    pub const ZERO: Integer = Integer { value: 0 };

    /// Returns the integer of a number from -999999999999999 to 999999999999999. The caller proves the range.
    pub fn constant(v: i64) -> Integer
        requires { IsInRange v }
        ensures { integer_of result ≡ v }
    {
        Integer { value: v }
    }

    /// Returns the number.
    pub fn to_i64(self) -> i64
        ensures number { result ≡ integer_of self }
        ensures range { IsInRange result }
    {
        self.value
    }

    // Converts a number in range, and fails with `OUT_OF_RANGE` otherwise.
    fn in_range(v: i128) -> Result<Integer, Error>
        ensures { GivesIf (IsInRange v) (λ n. integer_of n ≡ v) result }
    {
        match i64::try_from(v) {
            Ok(value) if Integer::MIN.value <= value && value <= Integer::MAX.value => {
                Ok(Integer::constant(value))
            }
            _ => Err(Error::OUT_OF_RANGE),
        }
    }
}

impl Default for Integer {
    ghost use Rattle.std.specs.Prelude.{◌≡◌, pos};
    ghost use Rattle.sfv_base.specs.Numbers.{integer_of};

    ghost is_default = { λ n. integer_of n ≡ pos 0 };

    fn default() -> Integer {
        Integer::ZERO
    }
}

impl fmt::Display for Integer {
    ghost use Rattle.std.specs.Prelude.{Some};
    ghost use Rattle.sfv_spec.specs.Values.{integer};
    ghost use Rattle.sfv_spec.specs.Canonical.{bare_text};
    ghost use Rattle.sfv_base.specs.Numbers.{integer_of};

    ghost output = { λ n. Some (bare_text (integer (integer_of n))) };

    fn fmt<W: fmt::Write>(&self, f: &mut fmt::Formatter<W>) -> fmt::Result {
        let value = self.value;
        write!(f, "{value}")
    }
}
