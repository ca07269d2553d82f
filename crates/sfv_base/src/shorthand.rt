//! Short names for constructors.

ghost use Rattle.std.specs.Prelude.{◌≡◌};
ghost use Rattle.sfv_spec.specs.Values.{IsInRange};
ghost use Rattle.sfv_base.specs.Numbers.{integer_of};

use crate::integer::Integer;

/// Returns the integer of a number from -999999999999999 to 999999999999999: short for `Integer::constant`.
pub fn integer(v: i64) -> Integer
    requires { IsInRange v }
    ensures { integer_of result ≡ v }
{
    Integer::constant(v)
}
