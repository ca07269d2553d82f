//! Serialization of numbers and dates (RFC 9651, sections 4.1.4, 4.1.5 and 4.1.10).

ghost use Rattle.std.specs.Prelude.{◌≡◌, ◌∷◌, ◌++◌, ◌+◌, ◌/◌, ◌%◌, ◌<◌, [], codes, decimal};
ghost use Rattle.std.specs.Fmt.{signed_decimal};
ghost use Rattle.sfv_spec.specs.Values.{IsInRange};
ghost use Rattle.sfv_spec.specs.Canonical.{fraction_digits, decimal_text};
ghost use Rattle.sfv_base.specs.Numbers.{integer_of, thousandths_of, seconds_of};
ghost use Rattle.sfv_writer.specs.Written.{AsksForRoom, Appends, AppendsOrKeeps};

use crate::output::truncate_to;
use itoa::Buffer;
use sfv_base::date::Date;
use sfv_base::decimal::Decimal;
use sfv_base::error::OutOfMemory;
use sfv_base::integer::Integer;
use std::alloc::Allocator;
use std::string::String as StdString;

/// Returns the digit of a number below ten.
fn digit(value: u64) -> char
    requires { value < 10 }
    ensures digit { result ≡ 0x30 + value }
    ensures ascii { result < 128 }
{
    (b'0' + value as u8) as char
}

/// Appends the digit of a number below ten.
#[inline(always)]
fn serialize_one_digit<A: Allocator>(
    value: u64,
    output: &mut StdString<A>,
) -> Result<(), OutOfMemory>
    requires { value < 10 }
    ensures text { AppendsOrKeeps output.old output.new ((0x30 + value) ∷ []) result }
    ensures room { AsksForRoom output.old output.new ((0x30 + value) ∷ []) result }
{
    output.push(digit(value))?;
    Ok(())
}

/// Appends the two digits of a number below 100, after one request for both.
#[inline(always)]
fn serialize_two_digits<A: Allocator>(
    value: u64,
    output: &mut StdString<A>,
) -> Result<(), OutOfMemory>
    requires { value < 100 }
    ensures text { AppendsOrKeeps output.old output.new ((0x30 + value / 10) ∷ (0x30 + value % 10) ∷ []) result }
    ensures room { AsksForRoom output.old output.new ((0x30 + value / 10) ∷ (0x30 + value % 10) ∷ []) result }
{
    output.reserve(2)?;
    output.push(digit(value / 10))?;
    output.push(digit(value % 10))?;
    Ok(())
}

/// Appends the three digits of a number below 1000, after one request for all.
#[inline(always)]
fn serialize_three_digits<A: Allocator>(
    value: u64,
    output: &mut StdString<A>,
) -> Result<(), OutOfMemory>
    requires { value < 1000 }
    ensures text { AppendsOrKeeps output.old output.new
        ((0x30 + value / 100) ∷ (0x30 + value / 10 % 10) ∷ (0x30 + value % 10) ∷ []) result }
    ensures room { AsksForRoom output.old output.new
        ((0x30 + value / 100) ∷ (0x30 + value / 10 % 10) ∷ (0x30 + value % 10) ∷ []) result }
{
    output.reserve(3)?;
    output.push(digit(value / 100))?;
    output.push(digit(value / 10 % 10))?;
    output.push(digit(value % 10))?;
    Ok(())
}

/// Appends the minus sign and the decimal digits of a negative number.
#[inline(never)]
fn serialize_negative<A: Allocator>(
    value: i64,
    output: &mut StdString<A>,
) -> Result<(), OutOfMemory>
    ensures text { AppendsOrKeeps output.old output.new (signed_decimal value) result }
    ensures room { AsksForRoom output.old output.new (signed_decimal value) result }
{
    let mut buffer = Buffer::new();
    output.push_str(buffer.format(value))?;
    Ok(())
}

/// Appends the decimal digits of a number of any length.
// `itoa` is faster here than digits in groups of three.
#[inline(never)]
fn serialize_long<A: Allocator>(value: u64, output: &mut StdString<A>) -> Result<(), OutOfMemory>
    ensures text { AppendsOrKeeps output.old output.new (decimal value) result }
    ensures room { AsksForRoom output.old output.new (decimal value) result }
{
    let mut buffer = Buffer::new();
    output.push_str(buffer.format(value))?;
    Ok(())
}

/// Appends the decimal digits of a number below 1000.
#[inline(never)]
#[tactic(auto, using(crate::proofs::Decimals::short_steps))]
fn serialize_short<A: Allocator>(value: u64, output: &mut StdString<A>) -> Result<(), OutOfMemory>
    requires { value < 1000 }
    ensures text { AppendsOrKeeps output.old output.new (decimal value) result }
    ensures room { AsksForRoom output.old output.new (decimal value) result }
{
    if value < 10 {
        return serialize_one_digit(value, output);
    }
    if value < 100 {
        return serialize_two_digits(value, output);
    }
    serialize_three_digits(value, output)
}

/// Appends the decimal digits of a number.
// Up to three digits are appended one at a time, which takes fewer instructions than a buffer and its copy.
#[inline(always)]
fn serialize_natural<A: Allocator>(value: u64, output: &mut StdString<A>) -> Result<(), OutOfMemory>
    ensures text { AppendsOrKeeps output.old output.new (decimal value) result }
    ensures room { AsksForRoom output.old output.new (decimal value) result }
{
    if value < 1000 {
        return serialize_short(value, output);
    }
    serialize_long(value, output)
}

#[inline(never)]
pub(crate) fn serialize_integer<A: Allocator>(
    value: Integer,
    output: &mut StdString<A>,
) -> Result<(), OutOfMemory>
    ensures text { AppendsOrKeeps output.old output.new (signed_decimal (integer_of value)) result }
    ensures room { AsksForRoom output.old output.new (signed_decimal (integer_of value)) result }
    ensures range { IsInRange (integer_of value) }
{
    let value = i64::from(value);
    if value < 0 {
        return serialize_negative(value, output);
    }
    serialize_natural(value.unsigned_abs(), output)
}

#[inline(never)]
pub(crate) fn serialize_date<A: Allocator>(
    value: Date,
    output: &mut StdString<A>,
) -> Result<(), OutOfMemory>
    ensures text { AppendsOrKeeps output.old output.new (codes "@" ++ signed_decimal (seconds_of value)) result }
    ensures room { AsksForRoom output.old output.new (codes "@" ++ signed_decimal (seconds_of value)) result }
    ensures range { IsInRange (seconds_of value) }
{
    let len = output.len();
    output.push('@')?;
    if let Err(error) = serialize_integer(value.unix_seconds(), output) {
        truncate_to(len, output);
        return Err(error);
    }
    Ok(())
}

/// Appends one to three digits of a fraction, without trailing zeros except a single `0`.
#[tactic(auto, using(crate::proofs::Decimals::fraction_steps))]
fn serialize_fraction<A: Allocator>(
    thousandths: u64,
    output: &mut StdString<A>,
) -> Result<(), OutOfMemory>
    requires { thousandths < 1000 }
    ensures text { Appends output.old output.new (fraction_digits thousandths) result }
    ensures room { AsksForRoom output.old output.new (fraction_digits thousandths) result }
{
    output.push(digit(thousandths / 100))?;
    if thousandths % 100 == 0 {
        return Ok(());
    }
    output.push(digit(thousandths / 10 % 10))?;
    if thousandths % 10 == 0 {
        return Ok(());
    }
    output.push(digit(thousandths % 10))?;
    Ok(())
}

/// Appends the parts of a decimal.
#[inline(always)]
fn serialize_decimal_parts<A: Allocator>(
    value: Decimal,
    output: &mut StdString<A>,
) -> Result<(), OutOfMemory>
    ensures text { Appends output.old output.new (decimal_text (thousandths_of value)) result }
    ensures room { AsksForRoom output.old output.new (decimal_text (thousandths_of value)) result }
    ensures range { IsInRange (thousandths_of value) }
{
    let value = i64::from(value.as_integer_scaled_1000());
    if value < 0 {
        output.push('-')?;
    }
    let magnitude = value.unsigned_abs();
    serialize_natural(magnitude / 1000, output)?;
    output.push('.')?;
    serialize_fraction(magnitude % 1000, output)
}

#[inline(never)]
#[tactic(auto, using(crate::proofs::Written::cut_to))]
pub(crate) fn serialize_decimal<A: Allocator>(
    value: Decimal,
    output: &mut StdString<A>,
) -> Result<(), OutOfMemory>
    ensures text { AppendsOrKeeps output.old output.new (decimal_text (thousandths_of value)) result }
    ensures room { AsksForRoom output.old output.new (decimal_text (thousandths_of value)) result }
    ensures range { IsInRange (thousandths_of value) }
{
    let len = output.len();
    if let Err(error) = serialize_decimal_parts(value, output) {
        truncate_to(len, output);
        return Err(error);
    }
    Ok(())
}
