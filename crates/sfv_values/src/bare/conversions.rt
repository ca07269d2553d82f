//! Conversions of values to bare items (RFC 9651, section 3.3).

ghost use Rattle.std.specs.Prelude.{◌≡◌, pos};
ghost use Rattle.sfv_spec.specs.Values.{IsInRange};
ghost use Rattle.sfv_base.specs.Conversions.{GivesIf};
ghost use Rattle.sfv_values.specs.BareItems.{IsInteger};
ghost use Rattle.sfv_values.specs.declared.bare.GenericBareItem.TheVariants as code;

use crate::bare::GenericBareItem;
use sfv_base::date::Date;
use sfv_base::decimal::Decimal;
use sfv_base::error::Error;
use sfv_base::integer::Integer;

impl<S, B, T, D> From<Integer> for GenericBareItem<S, B, T, D> {
    ghost from_gives = { λ v item. item ≡ code.Integer v };

    fn from(v: Integer) -> GenericBareItem<S, B, T, D> {
        GenericBareItem::Integer(v)
    }
}

impl<S, B, T, D> From<bool> for GenericBareItem<S, B, T, D> {
    ghost from_gives = { λ v item. item ≡ code.Boolean v };

    fn from(v: bool) -> GenericBareItem<S, B, T, D> {
        GenericBareItem::Boolean(v)
    }
}

impl<S, B, T, D> From<Decimal> for GenericBareItem<S, B, T, D> {
    ghost from_gives = { λ v item. item ≡ code.Decimal v };

    fn from(v: Decimal) -> GenericBareItem<S, B, T, D> {
        GenericBareItem::Decimal(v)
    }
}

impl<S, B, T, D> From<Date> for GenericBareItem<S, B, T, D> {
    ghost from_gives = { λ v item. item ≡ code.Date v };

    fn from(v: Date) -> GenericBareItem<S, B, T, D> {
        GenericBareItem::Date(v)
    }
}

impl<S, B, T, D> From<i8> for GenericBareItem<S, B, T, D> {
    ghost from_gives = { IsInteger };

    fn from(v: i8) -> GenericBareItem<S, B, T, D> {
        GenericBareItem::from(Integer::from(v))
    }
}

impl<S, B, T, D> From<i16> for GenericBareItem<S, B, T, D> {
    ghost from_gives = { IsInteger };

    fn from(v: i16) -> GenericBareItem<S, B, T, D> {
        GenericBareItem::from(Integer::from(v))
    }
}

impl<S, B, T, D> From<i32> for GenericBareItem<S, B, T, D> {
    ghost from_gives = { IsInteger };

    fn from(v: i32) -> GenericBareItem<S, B, T, D> {
        GenericBareItem::from(Integer::from(v))
    }
}

impl<S, B, T, D> From<u8> for GenericBareItem<S, B, T, D> {
    ghost from_gives = { λ v item. IsInteger (pos v) item };

    fn from(v: u8) -> GenericBareItem<S, B, T, D> {
        GenericBareItem::from(Integer::from(v))
    }
}

impl<S, B, T, D> From<u16> for GenericBareItem<S, B, T, D> {
    ghost from_gives = { λ v item. IsInteger (pos v) item };

    fn from(v: u16) -> GenericBareItem<S, B, T, D> {
        GenericBareItem::from(Integer::from(v))
    }
}

impl<S, B, T, D> From<u32> for GenericBareItem<S, B, T, D> {
    ghost from_gives = { λ v item. IsInteger (pos v) item };

    fn from(v: u32) -> GenericBareItem<S, B, T, D> {
        GenericBareItem::from(Integer::from(v))
    }
}

impl<S, B, T, D> TryFrom<i64> for GenericBareItem<S, B, T, D> {
    type Error = Error;

    ghost try_from_gives = { λ v r. GivesIf (IsInRange v) (IsInteger v) r };

    fn try_from(v: i64) -> Result<GenericBareItem<S, B, T, D>, Error> {
        Ok(GenericBareItem::from(Integer::try_from(v)?))
    }
}

impl<S, B, T, D> TryFrom<i128> for GenericBareItem<S, B, T, D> {
    type Error = Error;

    ghost try_from_gives = { λ v r. GivesIf (IsInRange v) (IsInteger v) r };

    fn try_from(v: i128) -> Result<GenericBareItem<S, B, T, D>, Error> {
        Ok(GenericBareItem::from(Integer::try_from(v)?))
    }
}

impl<S, B, T, D> TryFrom<isize> for GenericBareItem<S, B, T, D> {
    type Error = Error;

    ghost try_from_gives = { λ v r. GivesIf (IsInRange v) (IsInteger v) r };

    fn try_from(v: isize) -> Result<GenericBareItem<S, B, T, D>, Error> {
        Ok(GenericBareItem::from(Integer::try_from(v)?))
    }
}

impl<S, B, T, D> TryFrom<u64> for GenericBareItem<S, B, T, D> {
    type Error = Error;

    ghost try_from_gives = { λ v r. GivesIf (IsInRange (pos v)) (IsInteger (pos v)) r };

    fn try_from(v: u64) -> Result<GenericBareItem<S, B, T, D>, Error> {
        Ok(GenericBareItem::from(Integer::try_from(v)?))
    }
}

impl<S, B, T, D> TryFrom<u128> for GenericBareItem<S, B, T, D> {
    type Error = Error;

    ghost try_from_gives = { λ v r. GivesIf (IsInRange (pos v)) (IsInteger (pos v)) r };

    fn try_from(v: u128) -> Result<GenericBareItem<S, B, T, D>, Error> {
        Ok(GenericBareItem::from(Integer::try_from(v)?))
    }
}

impl<S, B, T, D> TryFrom<usize> for GenericBareItem<S, B, T, D> {
    type Error = Error;

    ghost try_from_gives = { λ v r. GivesIf (IsInRange (pos v)) (IsInteger (pos v)) r };

    fn try_from(v: usize) -> Result<GenericBareItem<S, B, T, D>, Error> {
        Ok(GenericBareItem::from(Integer::try_from(v)?))
    }
}
