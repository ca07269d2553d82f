//! Runs of digits, and their values.

ghost use Rattle.std.specs.Prelude.{◌≡◌, ◌≤◌, ◌<◌, ◌^◌, ◌*◌, ◌-◌, ℕ, true, false, List, length, take, drop, Ok};
ghost use Rattle.std.specs.Prelude.{MatchOption};
ghost use Rattle.sfv_spec.proofs.Marks.{digit_zero, is_digit};
ghost use Rattle.sfv_model.specs.Reader.{up_to};
ghost use Rattle.sfv.specs.parser.Values.{Spells};

#[inline(always)]
pub(crate) fn is_digit_byte(byte: u8) -> bool
    ensures { result ≡ is_digit byte }
{
    byte.is_ascii_digit()
}

/// Returns the value of a digit. One subtraction both tests the byte and computes the value.
#[inline(always)]
fn digit_of(byte: u8) -> Option<u64>
    ensures { MatchOption result (is_digit byte ≡ false)
        (λ value. (is_digit byte ≡ true) × (value ≡ byte - digit_zero)) }
{
    let value = u64::from(byte).wrapping_sub(u64::from(b'0'));
    if value < 10 { Some(value) } else { None }
}

/// A run of digits: its length, and its value as a decimal number.
#[derive(Clone, Copy)]
pub(crate) struct Digits {
    pub(crate) count: usize,
    pub(crate) value: u64,
}

/// Counts the digits at the start of `bytes`, at most `most`, and computes their value in the same pass.
#[inline(always)]
pub(crate) fn digit_run(bytes: &[u8], most: usize) -> Digits
    requires { most ≤ 15 }
    ensures within { result.count ≤ length bytes.now }
    ensures most { result.count ≤ most }
    ensures spells { Spells (take result.count bytes.now) result }
    ensures run { up_to is_digit most bytes.now ≡ Ok (take result.count bytes.now, drop result.count bytes.now) }
{
    let mut count = 0;
    let mut value = 0;
    while count < most && count < bytes.len() {
        let Some(digit) = digit_of(bytes[count]) else {
            break;
        };
        value = value * 10 + digit;
        count += 1;
    }
    Digits { count, value }
}

/// Returns the thousandths of a fraction of one to three digits.
pub(crate) fn thousandths(digits: Digits) -> u64
    requires spells { (ds : List ℕ) × Spells ds digits }
    requires some { 1 ≤ digits.count }
    requires most { digits.count ≤ 3 }
    ensures value { result ≡ digits.value * 10 ^ (3 - digits.count) }
    ensures below { result < 1000 }
{
    let unit = match digits.count {
        1 => 100,
        2 => 10,
        _ => 1,
    };
    digits.value * unit
}
