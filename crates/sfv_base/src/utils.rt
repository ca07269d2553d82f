//! Classes of single bytes (RFC 9651, sections 3.1.2, 3.3.3, 3.3.4 and 3.3.8).

ghost use Rattle.std.specs.Prelude.{◌≡◌};
ghost use Rattle.sfv_spec.specs.Classes.{is_string_byte, is_token_start, is_token_inner, is_key_start, is_key_inner};
ghost use Rattle.sfv_spec.specs.Classes.{is_lower_hexadecimal};
ghost use Rattle.sfv_spec.specs.Strings.{is_escaped_in_string};
ghost use Rattle.sfv_base.specs.Rows.{class_sum, class_size};
ghost use Rattle.sfv_base.specs.Digits.{digit_row, digit_value};

// The classes, as bits of a row of `CLASSES`.
const STRING: u8 = 1;

const START_TOKEN: u8 = 2;

const INNER_TOKEN: u8 = 4;

const START_KEY: u8 = 8;

const INNER_KEY: u8 = 16;

const LOWER_HEXADECIMAL: u8 = 32;

/// For each byte, the sum of the classes that contain it.
#[rattlefmt::skip]
static CLASSES: [u8; 256] = [
    0, 0, 0, 0, 0, 0, 0, 0, 0, 0, 0, 0, 0, 0, 0, 0,
    0, 0, 0, 0, 0, 0, 0, 0, 0, 0, 0, 0, 0, 0, 0, 0,
    1, 5, 1, 5, 5, 5, 5, 5, 1, 1, 31, 5, 1, 21, 21, 5,
    53, 53, 53, 53, 53, 53, 53, 53, 53, 53, 5, 1, 1, 1, 1, 1,
    1, 7, 7, 7, 7, 7, 7, 7, 7, 7, 7, 7, 7, 7, 7, 7,
    7, 7, 7, 7, 7, 7, 7, 7, 7, 7, 7, 1, 1, 1, 5, 21,
    5, 63, 63, 63, 63, 63, 63, 31, 31, 31, 31, 31, 31, 31, 31, 31,
    31, 31, 31, 31, 31, 31, 31, 31, 31, 31, 31, 1, 5, 1, 5, 0,
    0, 0, 0, 0, 0, 0, 0, 0, 0, 0, 0, 0, 0, 0, 0, 0,
    0, 0, 0, 0, 0, 0, 0, 0, 0, 0, 0, 0, 0, 0, 0, 0,
    0, 0, 0, 0, 0, 0, 0, 0, 0, 0, 0, 0, 0, 0, 0, 0,
    0, 0, 0, 0, 0, 0, 0, 0, 0, 0, 0, 0, 0, 0, 0, 0,
    0, 0, 0, 0, 0, 0, 0, 0, 0, 0, 0, 0, 0, 0, 0, 0,
    0, 0, 0, 0, 0, 0, 0, 0, 0, 0, 0, 0, 0, 0, 0, 0,
    0, 0, 0, 0, 0, 0, 0, 0, 0, 0, 0, 0, 0, 0, 0, 0,
    0, 0, 0, 0, 0, 0, 0, 0, 0, 0, 0, 0, 0, 0, 0, 0,
];

// Examples of rows.
const _: () = prove!(
    CLASSES[b'\t' as usize] == 0
        && CLASSES[b' ' as usize] == 1
        && CLASSES[b'"' as usize] == 1
        && CLASSES[b'%' as usize] == 5
        && CLASSES[b'*' as usize] == 31
        && CLASSES[b'-' as usize] == 21
        && CLASSES[b'0' as usize] == 53
        && CLASSES[b'A' as usize] == 7
        && CLASSES[b'a' as usize] == 63
        && CLASSES[b'g' as usize] == 31
        && CLASSES[0x7f] == 0
);

// States the number of bytes in each class. No code calls this function.
fn class_sizes()
    ensures string { class_size is_string_byte ≡ 95 }
    ensures token_start { class_size is_token_start ≡ 53 }
    ensures token_inner { class_size is_token_inner ≡ 79 }
    ensures key_start { class_size is_key_start ≡ 27 }
    ensures key_inner { class_size is_key_inner ≡ 40 }
    ensures lower_hexadecimal { class_size is_lower_hexadecimal ≡ 16 }
{}

// Returns the sum of the classes that contain the byte.
#[inline(always)]
#[tactic(auto, using(crate::proofs::Rows::classes_at))]
fn classes_of(byte: u8) -> u8
    ensures { result ≡ class_sum byte }
{
    CLASSES[usize::from(byte)]
}

/// Returns `true` if a string may contain the byte.
#[inline(always)]
#[tactic(auto, using(crate::proofs::Rows::class_bits))]
pub fn is_allowed_string_char(c: u8) -> bool
    ensures { result ≡ is_string_byte c }
{
    classes_of(c) & STRING != 0
}

/// Returns `true` if a string has this byte only after a backslash.
#[inline(always)]
pub fn is_escaped_in_string(c: u8) -> bool
    ensures { result ≡ is_escaped_in_string c }
{
    matches!(c, b'"' | b'\\')
}

/// Returns `true` if the byte may begin a token.
#[inline(always)]
#[tactic(auto, using(crate::proofs::Rows::class_bits))]
pub fn is_allowed_start_token_char(c: u8) -> bool
    ensures { result ≡ is_token_start c }
{
    classes_of(c) & START_TOKEN != 0
}

/// Returns `true` if a token may contain the byte after its first.
#[inline(always)]
#[tactic(auto, using(crate::proofs::Rows::class_bits))]
pub fn is_allowed_inner_token_char(c: u8) -> bool
    ensures { result ≡ is_token_inner c }
{
    classes_of(c) & INNER_TOKEN != 0
}

/// Returns `true` if the byte may begin a key.
#[inline(always)]
#[tactic(auto, using(crate::proofs::Rows::class_bits))]
pub fn is_allowed_start_key_char(c: u8) -> bool
    ensures { result ≡ is_key_start c }
{
    classes_of(c) & START_KEY != 0
}

/// Returns `true` if a key may contain the byte after its first.
#[inline(always)]
#[tactic(auto, using(crate::proofs::Rows::class_bits))]
pub fn is_allowed_inner_key_char(c: u8) -> bool
    ensures { result ≡ is_key_inner c }
{
    classes_of(c) & INNER_KEY != 0
}

/// For each byte, its value as a lower-case hexadecimal digit, or 0.
// A look-up in this table takes fewer instructions than arithmetic.
#[rattlefmt::skip]
static DIGITS: [u8; 256] = [
    0, 0, 0, 0, 0, 0, 0, 0, 0, 0, 0, 0, 0, 0, 0, 0,
    0, 0, 0, 0, 0, 0, 0, 0, 0, 0, 0, 0, 0, 0, 0, 0,
    0, 0, 0, 0, 0, 0, 0, 0, 0, 0, 0, 0, 0, 0, 0, 0,
    0, 1, 2, 3, 4, 5, 6, 7, 8, 9, 0, 0, 0, 0, 0, 0,
    0, 0, 0, 0, 0, 0, 0, 0, 0, 0, 0, 0, 0, 0, 0, 0,
    0, 0, 0, 0, 0, 0, 0, 0, 0, 0, 0, 0, 0, 0, 0, 0,
    0, 10, 11, 12, 13, 14, 15, 0, 0, 0, 0, 0, 0, 0, 0, 0,
    0, 0, 0, 0, 0, 0, 0, 0, 0, 0, 0, 0, 0, 0, 0, 0,
    0, 0, 0, 0, 0, 0, 0, 0, 0, 0, 0, 0, 0, 0, 0, 0,
    0, 0, 0, 0, 0, 0, 0, 0, 0, 0, 0, 0, 0, 0, 0, 0,
    0, 0, 0, 0, 0, 0, 0, 0, 0, 0, 0, 0, 0, 0, 0, 0,
    0, 0, 0, 0, 0, 0, 0, 0, 0, 0, 0, 0, 0, 0, 0, 0,
    0, 0, 0, 0, 0, 0, 0, 0, 0, 0, 0, 0, 0, 0, 0, 0,
    0, 0, 0, 0, 0, 0, 0, 0, 0, 0, 0, 0, 0, 0, 0, 0,
    0, 0, 0, 0, 0, 0, 0, 0, 0, 0, 0, 0, 0, 0, 0, 0,
    0, 0, 0, 0, 0, 0, 0, 0, 0, 0, 0, 0, 0, 0, 0, 0,
];

// Returns the value of a lower-case hexadecimal digit, or 0 for any other byte.
#[inline(always)]
#[tactic(auto, using(crate::proofs::Rows::digits_at))]
fn digit_at(byte: u8) -> u8
    ensures { result ≡ digit_row byte }
{
    DIGITS[usize::from(byte)]
}

/// Returns the value of a lower-case hexadecimal digit, or `None` for any other byte.
#[inline(always)]
#[tactic(auto, using(crate::proofs::Rows::class_bits))]
pub fn escape_digit_value(c: u8) -> Option<u8>
    ensures { result ≡ digit_value c }
{
    if classes_of(c) & LOWER_HEXADECIMAL != 0 {
        Some(digit_at(c))
    } else {
        None
    }
}
