//! Decimals (RFC 9651, section 3.3.2).

ghost use Rattle.std.specs.Prelude.{◌≡◌, Some, pos, nat_abs, ◌*ℤ◌};
ghost use Rattle.std.specs.Int.{is_negative};
ghost use Rattle.sfv_spec.proofs.Marks.{minus_text};
ghost use Rattle.sfv_spec.specs.Values.{decimal as decimal_value};
ghost use Rattle.sfv_spec.specs.Canonical.{bare_text};
ghost use Rattle.sfv_base.specs.Numbers.{integer_of, thousandths_of};
ghost use Rattle.sfv_base.specs.Conversions.{IsWhole, GivesIf};

use crate::error::Error;
use crate::integer::Integer;
use std::fmt;

/// A number with at most twelve digits before its point and three after it (RFC 9651, section 3.3.2).
///
/// A conversion from a whole number keeps the number. `TryFrom` fails with `ErrorKind::OutOfRange` if and only if the
/// number has more than twelve digits. `Default` is zero. Comparisons and `Hash` use the number. `Display` prints the
/// canonical text.
///
/// Contracts name the thousandths `thousandths_of`.
#[derive(Clone, Copy, Debug, PartialEq, Eq, PartialOrd, Ord, Hash)]
pub struct Decimal {
    thousandths: Integer,
}

impl Decimal {
    /// The least decimal, -999999999999.999.
    pub const MIN: Decimal = Decimal {
        thousandths: Integer::MIN,
    };

    /// The greatest decimal, 999999999999.999.
    pub const MAX: Decimal = Decimal {
        thousandths: Integer::MAX,
    };

    /// Zero, which is written `0.0`.
    pub const ZERO: Decimal = Decimal {
        thousandths: Integer::ZERO,
    };

    /// Returns the number in thousandths.
    pub fn as_integer_scaled_1000(&self) -> Integer
        ensures { integer_of result ≡ thousandths_of self.now }
    {
        self.thousandths
    }

    /// Returns the decimal of `v` thousandths.
    pub fn from_integer_scaled_1000(v: Integer) -> Decimal
        ensures { thousandths_of result ≡ integer_of v }
    {
        Decimal { thousandths: v }
    }

    // Returns the decimal of a whole number of at most twelve digits.
    fn whole(v: i64) -> Decimal
        requires { IsWhole v }
        ensures { thousandths_of result ≡ v *ℤ pos 1000 }
    {
        Decimal {
            thousandths: Integer::constant(v * 1000),
        }
    }

    // Returns `-` for a negative number, and otherwise nothing.
    fn sign(&self) -> &'static str
        ensures { result.now ≡ minus_text (is_negative (thousandths_of self.now)) }
    {
        if self.thousandths < Integer::ZERO {
            "-"
        } else {
            ""
        }
    }

    // Returns the absolute value in thousandths.
    fn magnitude(&self) -> u64
        ensures { result ≡ nat_abs (thousandths_of self.now) }
    {
        self.thousandths.to_i64().unsigned_abs()
    }
}

impl Default for Decimal {
    ghost is_default = { λ d. thousandths_of d ≡ pos 0 };

    fn default() -> Decimal {
        Decimal::ZERO
    }
}

impl fmt::Display for Decimal {
    ghost output = { λ d. Some (bare_text (decimal_value (thousandths_of d))) };

    fn fmt<W: fmt::Write>(&self, f: &mut fmt::Formatter<W>) -> fmt::Result {
        let sign = self.sign();
        let magnitude = self.magnitude();
        let whole = magnitude / 1000;
        let fraction = magnitude % 1000;
        let tenths = fraction / 100;
        let hundredths = fraction / 10 % 10;
        let thousandths = fraction % 10;
        if fraction % 100 == 0 {
            write!(f, "{sign}{whole}.{tenths}")
        } else if fraction % 10 == 0 {
            write!(f, "{sign}{whole}.{tenths}{hundredths}")
        } else {
            write!(f, "{sign}{whole}.{tenths}{hundredths}{thousandths}")
        }
    }
}

impl From<i8> for Decimal {
    ghost from_gives = { λ v d. thousandths_of d ≡ v *ℤ pos 1000 };

    fn from(v: i8) -> Decimal {
        Decimal::whole(i64::from(v))
    }
}

impl From<i16> for Decimal {
    ghost from_gives = { λ v d. thousandths_of d ≡ v *ℤ pos 1000 };

    fn from(v: i16) -> Decimal {
        Decimal::whole(i64::from(v))
    }
}

impl From<i32> for Decimal {
    ghost from_gives = { λ v d. thousandths_of d ≡ v *ℤ pos 1000 };

    fn from(v: i32) -> Decimal {
        Decimal::whole(i64::from(v))
    }
}

impl TryFrom<i64> for Decimal {
    type Error = Error;

    ghost try_from_gives = { λ v r. GivesIf (IsWhole v) (λ d. thousandths_of d ≡ v *ℤ pos 1000) r };

    fn try_from(v: i64) -> Result<Decimal, Error> {
        Decimal::try_from(Integer::try_from(v)?)
    }
}

impl TryFrom<i128> for Decimal {
    type Error = Error;

    ghost try_from_gives = { λ v r. GivesIf (IsWhole v) (λ d. thousandths_of d ≡ v *ℤ pos 1000) r };

    fn try_from(v: i128) -> Result<Decimal, Error> {
        Decimal::try_from(Integer::try_from(v)?)
    }
}

impl TryFrom<isize> for Decimal {
    type Error = Error;

    ghost try_from_gives = { λ v r. GivesIf (IsWhole v) (λ d. thousandths_of d ≡ v *ℤ pos 1000) r };

    fn try_from(v: isize) -> Result<Decimal, Error> {
        Decimal::try_from(Integer::try_from(v)?)
    }
}

impl TryFrom<u64> for Decimal {
    type Error = Error;

    ghost try_from_gives = { λ v r. GivesIf (IsWhole (pos v)) (λ d. thousandths_of d ≡ pos v *ℤ pos 1000) r };

    fn try_from(v: u64) -> Result<Decimal, Error> {
        Decimal::try_from(Integer::try_from(v)?)
    }
}

impl TryFrom<u128> for Decimal {
    type Error = Error;

    ghost try_from_gives = { λ v r. GivesIf (IsWhole (pos v)) (λ d. thousandths_of d ≡ pos v *ℤ pos 1000) r };

    fn try_from(v: u128) -> Result<Decimal, Error> {
        Decimal::try_from(Integer::try_from(v)?)
    }
}

impl TryFrom<usize> for Decimal {
    type Error = Error;

    ghost try_from_gives = { λ v r. GivesIf (IsWhole (pos v)) (λ d. thousandths_of d ≡ pos v *ℤ pos 1000) r };

    fn try_from(v: usize) -> Result<Decimal, Error> {
        Decimal::try_from(Integer::try_from(v)?)
    }
}

impl From<u8> for Decimal {
    ghost from_gives = { λ v d. thousandths_of d ≡ pos v *ℤ pos 1000 };

    fn from(v: u8) -> Decimal {
        Decimal::whole(i64::from(v))
    }
}

impl From<u16> for Decimal {
    ghost from_gives = { λ v d. thousandths_of d ≡ pos v *ℤ pos 1000 };

    fn from(v: u16) -> Decimal {
        Decimal::whole(i64::from(v))
    }
}

impl From<u32> for Decimal {
    ghost from_gives = { λ v d. thousandths_of d ≡ pos v *ℤ pos 1000 };

    fn from(v: u32) -> Decimal {
        Decimal::whole(i64::from(v))
    }
}

impl TryFrom<Integer> for Decimal {
    type Error = Error;

    ghost try_from_gives = { λ n r. GivesIf (IsWhole (integer_of n)) (λ d.
        thousandths_of d ≡ integer_of n *ℤ pos 1000) r };

    fn try_from(n: Integer) -> Result<Decimal, Error> {
        let v = n.to_i64();
        if v < -999_999_999_999 || v > 999_999_999_999 {
            return Err(Error::OUT_OF_RANGE);
        }
        Ok(Decimal::whole(v))
    }
}
