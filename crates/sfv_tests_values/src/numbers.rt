//! Integers, decimals and dates: their ranges, texts and order.

use crate::common::{hash_of, is_shown, near_power, prints, value};
use sfv::{Date, Decimal, Integer, RefBareItem, integer};
use std::alloc::Global;
use std::cmp::Ordering;
use std::fmt::Display;
use std::hash::Hash;

/// Returns `true` if the integer, the decimal with this many thousandths, and the date with this many seconds print
/// these texts.
fn are_printed(alloc: Global, number: i64, integer: &str, decimal: &str, date: &str) -> bool {
    let Ok(number) = Integer::try_from(number) else {
        return false;
    };
    prints(alloc, &number, integer)
        & prints(alloc, &Decimal::from_integer_scaled_1000(number), decimal)
        & prints(alloc, &Date::from_unix_seconds(number), date)
}

#[test]
fn numbers_print_their_canonical_texts(rt: HostRuntime) {
    let rows = &[
        (-5i64, "-5", "-0.005", "@-5"),
        (-50, "-50", "-0.05", "@-50"),
        (-500, "-500", "-0.5", "@-500"),
        (0, "0", "0.0", "@0"),
        (7_500, "7500", "7.5", "@7500"),
        (12_346, "12346", "12.346", "@12346"),
        (
            999_999_999_999_999,
            "999999999999999",
            "999999999999.999",
            "@999999999999999",
        ),
        (
            -999_999_999_999_999,
            "-999999999999999",
            "-999999999999.999",
            "@-999999999999999",
        ),
    ];
    for &(number, integer, decimal, date) in rows {
        assert!(rt;
            are_printed(rt.alloc(), number, integer, decimal, date),
            "{number}"
        );
    }
}

#[test]
fn decimals_of_whole_numbers_print_one_digit_after_the_point(rt: HostRuntime) {
    let rows = &[
        (Decimal::from(33i8), "33.0"),
        (Decimal::from(-128i8), "-128.0"),
        (Decimal::from(255u8), "255.0"),
        (Decimal::from(i32::MIN), "-2147483648.0"),
        (Decimal::from(u32::MAX), "4294967295.0"),
    ];
    for &(decimal, text) in rows {
        assert!(rt; prints(rt.alloc(), &decimal, text));
    }
}

/// Returns `true` if the value prints a text that parses to the bare item.
fn comes_back<T: Display>(alloc: Global, printed: &T, item: RefBareItem<'_>) -> Option<bool> {
    let text = printed.to_string(alloc).ok()?;
    let parsed = value(alloc, text.as_str())?;
    Some(parsed.as_ref_item() == item)
}

/// Returns `true` if the integer, the decimals with this number and with this many thousandths, and the date print texts
/// that parse back to them.
fn are_given_back(alloc: Global, number: i64) -> Option<bool> {
    let integer = Integer::try_from(number).ok()?;
    let thousandths = Decimal::from_integer_scaled_1000(integer);
    let whole = Decimal::try_from(integer).unwrap_or(thousandths);
    let date = Date::from_unix_seconds(integer);
    Some(
        comes_back(alloc, &integer, RefBareItem::from(integer))?
            && comes_back(alloc, &thousandths, RefBareItem::from(thousandths))?
            && comes_back(alloc, &whole, RefBareItem::from(whole))?
            && comes_back(alloc, &date, RefBareItem::from(date))?,
    )
}

/// Returns `true` if this is so for the number and its opposite.
fn is_given_back(alloc: Global, number: i64) -> bool {
    are_given_back(alloc, number) == Some(true)
        && are_given_back(alloc, number.saturating_neg()) == Some(true)
}

// Up to 20,000, and near each product of a digit and a power of ten.
#[test]
fn numbers_of_each_size_parse_back(rt: HostRuntime) {
    let alloc = rt.alloc();
    let mut holds = true;
    for number in 0..20_000 {
        holds &= is_given_back(alloc, number);
    }
    for place in 0..15 * 189 {
        let number = i64::try_from(near_power(place)).unwrap_or(0);
        holds &= is_given_back(alloc, number);
    }
    assert!(rt; holds);
}

#[test]
fn numbers_are_shown_with_their_parts(rt: HostRuntime) {
    let alloc = rt.alloc();
    let decimal = "Decimal { thousandths: Integer { value: 999999999999999 } }";
    let date = "Date { seconds: Integer { value: -999999999999999 } }";
    let holds = is_shown(alloc, &Integer::ZERO, "Integer { value: 0 }")
        & is_shown(alloc, &Integer::MIN, "Integer { value: -999999999999999 }")
        & is_shown(alloc, &Decimal::MAX, decimal)
        & is_shown(alloc, &Date::MIN, date);
    assert!(rt; holds);
}

#[test]
fn constants_are_the_ends_of_the_ranges_and_zero(rt: HostRuntime) {
    let integers = (i64::from(Integer::MIN) == -999_999_999_999_999)
        & (i64::from(Integer::MAX) == 999_999_999_999_999)
        & (Integer::ZERO == Integer::default())
        & (i64::from(Integer::constant(-42)) == -42);
    let decimals = (Decimal::MIN.as_integer_scaled_1000() == Integer::MIN)
        & (Decimal::MAX.as_integer_scaled_1000() == Integer::MAX)
        & (Decimal::ZERO == Decimal::default());
    let dates = (Date::MIN.unix_seconds() == Integer::MIN)
        & (Date::MAX.unix_seconds() == Integer::MAX)
        & (Date::UNIX_EPOCH == Date::default());
    assert!(rt; integers & decimals & dates);
}

/// Returns `true` if two values have this order. They must be equal and have equal hashes if and only if the order is
/// `Equal`.
fn is_ordered<T: Ord + Hash>(a: &T, b: &T, order: Ordering) -> bool {
    let equal = order == Ordering::Equal;
    a.cmp(b) == order && (a == b) == equal && (hash_of(a) == hash_of(b)) == equal
}

/// Returns `true` if the integers, the decimals with these thousandths, and the dates with these seconds have this
/// order.
fn are_ordered(a: Integer, b: Integer, order: Ordering) -> bool {
    let (c, d) = (
        Decimal::from_integer_scaled_1000(a),
        Decimal::from_integer_scaled_1000(b),
    );
    let (e, f) = (Date::from_unix_seconds(a), Date::from_unix_seconds(b));
    is_ordered(&a, &b, order) && is_ordered(&c, &d, order) && is_ordered(&e, &f, order)
}

#[test]
fn numbers_are_ordered_by_their_value_and_hash_by_it(rt: HostRuntime) {
    let holds = are_ordered(integer(-1), integer(1), Ordering::Less)
        & are_ordered(integer(1), integer(1), Ordering::Equal)
        & are_ordered(integer(10), integer(9), Ordering::Greater);
    assert!(rt; holds);
}
