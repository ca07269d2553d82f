//! Parsing of numbers (RFC 9651, section 4.2.4).

ghost use Rattle.std.specs.Prelude.{◌≡◌, ◌≤◌, ◌<◌, ◌^◌, ℕ, Bool, true, List, Ok};
ghost use Rattle.sfv_spec.proofs.Marks.{dot};
ghost use Rattle.sfv_spec.specs.Numbers.{signed as with_sign};
ghost use Rattle.sfv_base.specs.Numbers.{integer_of};
ghost use Rattle.sfv_model.specs.Reader.{byte};
ghost use Rattle.sfv_model.specs.Bare.{sign_at, point_at, whole_at, number_at};
ghost use Rattle.sfv.specs.parser.Cursor.{kept, rest, Reads, NextIs};
ghost use Rattle.sfv.specs.parser.Values.{Spells, number_value_of};

use crate::parser::cursor::Cursor;
use crate::parser::digits::{Digits, thousandths};
use sfv_base::decimal::Decimal;
use sfv_base::error::{Error, ErrorKind};
use sfv_base::integer::Integer;

/// An integer or a decimal.
#[derive(Clone, Copy)]
pub(crate) enum Number {
    Integer(Integer),
    Decimal(Decimal),
}

/// Returns the integer with this sign and magnitude. A decimal passes its thousandths.
fn signed(negative: bool, magnitude: u64) -> Integer
    requires { magnitude < 10 ^ 15 }
    ensures { integer_of result ≡ with_sign negative magnitude }
{
    let magnitude = magnitude as i64;
    Integer::constant(if negative { -magnitude } else { magnitude })
}

impl Cursor<'_> {
    /// Consumes a minus sign, if there is one, and returns `true` if there was.
    #[tactic(auto, using(crate::proofs::reads::Steps::sign_takes))]
    fn sign(&mut self) -> bool
        ensures sign { sign_at (rest self.old) ≡ Ok (result, rest self.new) }
        ensures kept { kept self.new ≡ kept self.old }
    {
        self.take_if(b'-')
    }

    /// Parses a number. The number is a bare item, or the seconds of a date.
    #[inline(always)]
    #[tactic(auto, using(crate::proofs::reads::Steps::number_steps))]
    pub(crate) fn number(&mut self) -> Result<Number, Error>
        ensures { (dated : Bool) → Reads number_value_of self.old self.new result (number_at dated) }
    {
        let negative = self.sign();
        let whole = self.digits(15);
        self.after_integer_part(negative, whole)
    }

    /// Parses the rest of a number after its whole part.
    #[inline(always)]
    #[tactic(auto, using(crate::proofs::reads::Steps::whole_steps))]
    fn after_integer_part(&mut self, negative: bool, whole: Digits) -> Result<Number, Error>
        requires most { whole.count ≤ 15 }
        requires spells { (ds : List ℕ) × Spells ds whole }
        ensures { (dated : Bool) (ds : List ℕ) → Spells ds whole →
            Reads number_value_of self.old self.new result (whole_at dated negative ds) }
    {
        if whole.count == 0 {
            return Err(self.error(ErrorKind::ExpectedDigit));
        }
        if self.next_is_digit() {
            return Err(self.error(ErrorKind::TooManyDigits));
        }
        if !self.next_is(b'.') {
            return Ok(Number::Integer(signed(negative, whole.value)));
        }
        if whole.count > 12 {
            return Err(self.error(ErrorKind::TooManyDigitsBeforeDecimalPoint));
        }
        self.fraction(negative, whole)
    }

    /// Parses the point and the fraction of a decimal.
    #[inline(always)]
    #[tactic(auto, using(crate::proofs::reads::Steps::point_steps))]
    fn fraction(&mut self, negative: bool, whole: Digits) -> Result<Number, Error>
        requires most { whole.count ≤ 12 }
        requires spells { (ds : List ℕ) × Spells ds whole }
        requires point { NextIs (byte dot) true (rest self.old) }
        ensures { (dated : Bool) (ds : List ℕ) → Spells ds whole →
            Reads number_value_of self.old self.new result (point_at dated negative ds) }
    {
        let point = self.index;
        self.skip();
        let fraction = self.digits(3);
        if fraction.count == 0 {
            return Err(Error::at(ErrorKind::TrailingDecimalPoint, point));
        }
        if self.next_is_digit() {
            return Err(self.error(ErrorKind::TooManyDigitsAfterDecimalPoint));
        }
        let magnitude = whole.value * 1000 + thousandths(fraction);
        Ok(Number::Decimal(Decimal::from_integer_scaled_1000(signed(negative, magnitude))))
    }
}
