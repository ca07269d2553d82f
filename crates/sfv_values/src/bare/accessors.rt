//! The accessors that all types of bare item share.

ghost use Rattle.sfv_values.specs.BareItems.{GivesPart};
ghost use Rattle.sfv_values.specs.declared.bare.GenericBareItem.TheVariants as code;

use crate::bare::GenericBareItem;
use sfv_base::date::Date;
use sfv_base::decimal::Decimal;
use sfv_base::integer::Integer;

impl<S, B, T, D> GenericBareItem<S, B, T, D> {
    /// Returns the decimal (RFC 9651, section 3.3.2), or `None` for another kind.
    pub fn as_decimal(&self) -> Option<Decimal>
        ensures { GivesPart code.Decimal (λ z. z) self.now result }
    {
        match self {
            GenericBareItem::Decimal(value) => Some(*value),
            _ => None,
        }
    }

    /// Returns the integer (RFC 9651, section 3.3.1), or `None` for another kind.
    pub fn as_integer(&self) -> Option<Integer>
        ensures { GivesPart code.Integer (λ z. z) self.now result }
    {
        match self {
            GenericBareItem::Integer(value) => Some(*value),
            _ => None,
        }
    }

    /// Returns the boolean (RFC 9651, section 3.3.6), or `None` for another kind.
    pub fn as_boolean(&self) -> Option<bool>
        ensures { GivesPart code.Boolean (λ b. b) self.now result }
    {
        match self {
            GenericBareItem::Boolean(value) => Some(*value),
            _ => None,
        }
    }

    /// Returns the date (RFC 9651, section 3.3.7), or `None` for another kind.
    pub fn as_date(&self) -> Option<Date>
        ensures { GivesPart code.Date (λ z. z) self.now result }
    {
        match self {
            GenericBareItem::Date(value) => Some(*value),
            _ => None,
        }
    }

    /// Returns the display string (RFC 9651, section 3.3.8), or `None` for another kind.
    pub fn as_display_string(&self) -> Option<&D>
        ensures { GivesPart code.DisplayString (λ text. text.now) self.now result }
    {
        match self {
            GenericBareItem::DisplayString(text) => Some(text),
            _ => None,
        }
    }
}
