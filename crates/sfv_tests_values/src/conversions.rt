//! Conversions of integers and decimals from and to other types of numbers.

use sfv::{Decimal, Error, ErrorKind, Integer, integer};

fn out_of_range() -> Error {
    Error::with_kind(ErrorKind::OutOfRange, None)
}

/// Returns `true` if signed numbers convert to integers and back.
fn are_signed_given_back() -> bool {
    let least = Integer::try_from(-999_999_999_999_999i128).unwrap_or(Integer::ZERO);
    let seven = Integer::try_from(-7isize).unwrap_or(Integer::ZERO);
    let eight = Integer::try_from(-8i64).unwrap_or(Integer::ZERO);
    (i8::try_from(Integer::from(-128i8)).unwrap_or(0) == -128)
        & (i16::try_from(Integer::from(-32_768i16)).unwrap_or(0) == -32_768)
        & (i32::try_from(Integer::from(i32::MIN)).unwrap_or(0) == i32::MIN)
        & (i128::from(least) == -999_999_999_999_999)
        & (isize::try_from(seven).unwrap_or(0) == -7)
        & (i64::from(eight) == -8)
}

/// Returns `true` if unsigned numbers convert to integers and back.
fn are_unsigned_given_back() -> bool {
    let greatest = Integer::try_from(999_999_999_999_999u64).unwrap_or(Integer::ZERO);
    let seven = Integer::try_from(7u128).unwrap_or(Integer::ZERO);
    let eight = Integer::try_from(8usize).unwrap_or(Integer::ZERO);
    (u8::try_from(Integer::from(255u8)).unwrap_or(0) == 255)
        & (u16::try_from(Integer::from(65_535u16)).unwrap_or(0) == 65_535)
        & (u32::try_from(Integer::from(u32::MAX)).unwrap_or(0) == u32::MAX)
        & (u64::try_from(greatest).unwrap_or(0) == 999_999_999_999_999)
        & (u128::try_from(seven).unwrap_or(0) == 7)
        & (usize::try_from(eight).unwrap_or(0) == 8)
}

#[test]
fn numbers_become_integers_which_become_the_same_numbers(rt: HostRuntime) {
    assert!(rt; are_signed_given_back());
    assert!(rt; are_unsigned_given_back());
}

#[test]
fn numbers_out_of_range_are_refused(rt: HostRuntime) {
    let integers = (Integer::try_from(1_000_000_000_000_000i64) == Err(out_of_range()))
        & (Integer::try_from(-1_000_000_000_000_000i64) == Err(out_of_range()))
        & (Integer::try_from(u128::MAX) == Err(out_of_range()));
    let decimals = (Decimal::try_from(1_000_000_000_000i64) == Err(out_of_range()))
        & (Decimal::try_from(u128::MAX) == Err(out_of_range()));
    assert!(rt; integers & decimals & (u8::try_from(integer(256)) == Err(out_of_range())));
}

/// Returns `true` if a decimal has this many thousandths.
fn has_thousandths(decimal: Decimal, thousandths: i64) -> bool {
    i64::from(decimal.as_integer_scaled_1000()) == thousandths
}

/// Returns `true` if the result is a decimal with this many thousandths.
fn is_decimal(made: Result<Decimal, Error>, thousandths: i64) -> bool {
    match made {
        Ok(decimal) => has_thousandths(decimal, thousandths),
        Err(_) => false,
    }
}

#[test]
fn numbers_become_decimals_of_the_same_value(rt: HostRuntime) {
    let any = has_thousandths(Decimal::from(-128i8), -128_000)
        & has_thousandths(Decimal::from(-32_768i16), -32_768_000)
        & has_thousandths(Decimal::from(i32::MIN), -2_147_483_648_000)
        & has_thousandths(Decimal::from(255u8), 255_000)
        & has_thousandths(Decimal::from(65_535u16), 65_535_000)
        & has_thousandths(Decimal::from(u32::MAX), 4_294_967_295_000);
    let in_range = is_decimal(Decimal::try_from(999_999_999_999i64), 999_999_999_999_000)
        & is_decimal(Decimal::try_from(-7i128), -7_000)
        & is_decimal(Decimal::try_from(-7isize), -7_000)
        & is_decimal(Decimal::try_from(7u64), 7_000)
        & is_decimal(Decimal::try_from(7u128), 7_000)
        & is_decimal(Decimal::try_from(7usize), 7_000)
        & is_decimal(Decimal::try_from(integer(-7)), -7_000);
    assert!(rt; any & in_range);
}
