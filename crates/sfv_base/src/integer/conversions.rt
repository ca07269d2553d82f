//! Conversions between integers and other types of numbers.

ghost use Rattle.std.specs.Prelude.{◌≡◌, pos, nat_abs};
ghost use Rattle.sfv_spec.specs.Values.{IsInRange};
ghost use Rattle.sfv_base.specs.Numbers.{integer_of};
ghost use Rattle.sfv_base.specs.Conversions.{IsSigned, IsUnsigned, GivesIf};

use crate::error::Error;
use crate::integer::Integer;

impl From<i8> for Integer {
    ghost from_gives = { λ v n. integer_of n ≡ v };

    fn from(v: i8) -> Integer {
        Integer::constant(i64::from(v))
    }
}

impl TryFrom<Integer> for i8 {
    type Error = Error;

    ghost try_from_gives = { λ n r. GivesIf (IsSigned 8 (integer_of n)) (λ v. v ≡ integer_of n) r };

    fn try_from(n: Integer) -> Result<i8, Error> {
        i8::try_from(n.value).map_err(|_| Error::OUT_OF_RANGE)
    }
}

impl From<i16> for Integer {
    ghost from_gives = { λ v n. integer_of n ≡ v };

    fn from(v: i16) -> Integer {
        Integer::constant(i64::from(v))
    }
}

impl TryFrom<Integer> for i16 {
    type Error = Error;

    ghost try_from_gives = { λ n r. GivesIf (IsSigned 16 (integer_of n)) (λ v. v ≡ integer_of n) r };

    fn try_from(n: Integer) -> Result<i16, Error> {
        i16::try_from(n.value).map_err(|_| Error::OUT_OF_RANGE)
    }
}

impl From<i32> for Integer {
    ghost from_gives = { λ v n. integer_of n ≡ v };

    fn from(v: i32) -> Integer {
        Integer::constant(i64::from(v))
    }
}

impl TryFrom<Integer> for i32 {
    type Error = Error;

    ghost try_from_gives = { λ n r. GivesIf (IsSigned 32 (integer_of n)) (λ v. v ≡ integer_of n) r };

    fn try_from(n: Integer) -> Result<i32, Error> {
        i32::try_from(n.value).map_err(|_| Error::OUT_OF_RANGE)
    }
}

impl TryFrom<i64> for Integer {
    type Error = Error;

    ghost try_from_gives = { λ v r. GivesIf (IsInRange v) (λ n. integer_of n ≡ v) r };

    fn try_from(v: i64) -> Result<Integer, Error> {
        Integer::in_range(i128::from(v))
    }
}

impl From<Integer> for i64 {
    ghost from_gives = { λ n r. (r ≡ integer_of n) × IsInRange (integer_of n) };

    fn from(n: Integer) -> i64 {
        n.to_i64()
    }
}

impl TryFrom<i128> for Integer {
    type Error = Error;

    ghost try_from_gives = { λ v r. GivesIf (IsInRange v) (λ n. integer_of n ≡ v) r };

    fn try_from(v: i128) -> Result<Integer, Error> {
        Integer::in_range(v)
    }
}

impl From<Integer> for i128 {
    ghost from_gives = { λ n r. (r ≡ integer_of n) × IsInRange (integer_of n) };

    fn from(n: Integer) -> i128 {
        i128::from(n.value)
    }
}

impl TryFrom<isize> for Integer {
    type Error = Error;

    ghost try_from_gives = { λ v r. GivesIf (IsInRange v) (λ n. integer_of n ≡ v) r };

    fn try_from(v: isize) -> Result<Integer, Error> {
        Integer::in_range(v as i128)
    }
}

impl TryFrom<Integer> for isize {
    type Error = Error;

    ghost try_from_gives = { λ n r. GivesIf (IsSigned 64 (integer_of n)) (λ v. v ≡ integer_of n) r };

    fn try_from(n: Integer) -> Result<isize, Error> {
        isize::try_from(n.value).map_err(|_| Error::OUT_OF_RANGE)
    }
}

impl From<u8> for Integer {
    ghost from_gives = { λ v n. integer_of n ≡ pos v };

    fn from(v: u8) -> Integer {
        Integer::constant(i64::from(v))
    }
}

impl TryFrom<Integer> for u8 {
    type Error = Error;

    ghost try_from_gives = { λ n r. GivesIf (IsUnsigned 8 (integer_of n)) (λ v. v ≡ nat_abs (integer_of n)) r };

    fn try_from(n: Integer) -> Result<u8, Error> {
        u8::try_from(n.value).map_err(|_| Error::OUT_OF_RANGE)
    }
}

impl From<u16> for Integer {
    ghost from_gives = { λ v n. integer_of n ≡ pos v };

    fn from(v: u16) -> Integer {
        Integer::constant(i64::from(v))
    }
}

impl TryFrom<Integer> for u16 {
    type Error = Error;

    ghost try_from_gives = { λ n r. GivesIf (IsUnsigned 16 (integer_of n)) (λ v. v ≡ nat_abs (integer_of n)) r };

    fn try_from(n: Integer) -> Result<u16, Error> {
        u16::try_from(n.value).map_err(|_| Error::OUT_OF_RANGE)
    }
}

impl From<u32> for Integer {
    ghost from_gives = { λ v n. integer_of n ≡ pos v };

    fn from(v: u32) -> Integer {
        Integer::constant(i64::from(v))
    }
}

impl TryFrom<Integer> for u32 {
    type Error = Error;

    ghost try_from_gives = { λ n r. GivesIf (IsUnsigned 32 (integer_of n)) (λ v. v ≡ nat_abs (integer_of n)) r };

    fn try_from(n: Integer) -> Result<u32, Error> {
        u32::try_from(n.value).map_err(|_| Error::OUT_OF_RANGE)
    }
}

impl TryFrom<u64> for Integer {
    type Error = Error;

    ghost try_from_gives = { λ v r. GivesIf (IsInRange (pos v)) (λ n. integer_of n ≡ pos v) r };

    fn try_from(v: u64) -> Result<Integer, Error> {
        Integer::in_range(i128::from(v))
    }
}

impl TryFrom<Integer> for u64 {
    type Error = Error;

    ghost try_from_gives = { λ n r. GivesIf (IsUnsigned 64 (integer_of n)) (λ v. v ≡ nat_abs (integer_of n)) r };

    fn try_from(n: Integer) -> Result<u64, Error> {
        u64::try_from(n.value).map_err(|_| Error::OUT_OF_RANGE)
    }
}

impl TryFrom<u128> for Integer {
    type Error = Error;

    ghost try_from_gives = { λ v r. GivesIf (IsInRange (pos v)) (λ n. integer_of n ≡ pos v) r };

    fn try_from(v: u128) -> Result<Integer, Error> {
        Integer::in_range(i128::try_from(v).unwrap_or(i128::MAX))
    }
}

impl TryFrom<Integer> for u128 {
    type Error = Error;

    ghost try_from_gives = { λ n r. GivesIf (IsUnsigned 128 (integer_of n)) (λ v. v ≡ nat_abs (integer_of n)) r };

    fn try_from(n: Integer) -> Result<u128, Error> {
        u128::try_from(n.value).map_err(|_| Error::OUT_OF_RANGE)
    }
}

impl TryFrom<usize> for Integer {
    type Error = Error;

    ghost try_from_gives = { λ v r. GivesIf (IsInRange (pos v)) (λ n. integer_of n ≡ pos v) r };

    fn try_from(v: usize) -> Result<Integer, Error> {
        Integer::in_range(v as i128)
    }
}

impl TryFrom<Integer> for usize {
    type Error = Error;

    ghost try_from_gives = { λ n r. GivesIf (IsUnsigned 64 (integer_of n)) (λ v. v ≡ nat_abs (integer_of n)) r };

    fn try_from(n: Integer) -> Result<usize, Error> {
        usize::try_from(n.value).map_err(|_| Error::OUT_OF_RANGE)
    }
}
