//! Base32 (RFC 4648, section 6), in which the JSON of the HTTP working group's tests writes byte sequences.

ghost use Rattle.std.specs.Prelude.{◌≡◌, ◌++◌, ◌<◌, ◌≤◌, OnOk, IfOk, string_bytes, length};
ghost use Rattle.std.specs.Str.{IsAscii};
ghost use Rattle.sfv_lint_json.specs.Base32.{symbol, group_symbols, padded, base32_text};

use std::alloc::{AllocError, Global};

/// The symbols of the values 0 to 31.
static SYMBOLS: [u8; 32] = *b"ABCDEFGHIJKLMNOPQRSTUVWXYZ234567";

/// Returns the symbol of a value.
fn symbol_of(value: u8) -> u8
    requires { value < 32 }
    ensures { result ≡ symbol value }
{
    SYMBOLS[usize::from(value)]
}

/// Returns the eight symbols of five bytes.
fn group_symbols(a: u8, b: u8, c: u8, d: u8, e: u8) -> [u8; 8]
    ensures { result ≡ group_symbols a b c d e }
{
    [
        symbol_of(a / 8),
        symbol_of(a % 8 * 4 + b / 64),
        symbol_of(b / 2 % 32),
        symbol_of(b % 2 * 16 + c / 16),
        symbol_of(c % 16 * 2 + d / 128),
        symbol_of(d / 4 % 32),
        symbol_of(d % 4 * 8 + e / 32),
        symbol_of(e % 32),
    ]
}

/// Returns the symbols with padding in the place of those after the first `count`.
fn padded(count: usize, mut symbols: [u8; 8]) -> [u8; 8]
    requires { count ≤ 8 }
    ensures { result ≡ padded count symbols }
{
    symbols[count..].fill(b'=');
    symbols
}

/// Returns the text of one to five bytes.
#[tactic(auto, using(crate::proofs::Groups::five_bytes), unfolding(crate::specs::Base32::base32_text))]
fn group_text(group: &[u8]) -> [u8; 8]
    requires some { 0 < length group.now }
    requires few { length group.now ≤ 5 }
    ensures { result ≡ base32_text group.now }
{
    match *group {
        [a] => padded(2, group_symbols(a, 0, 0, 0, 0)),
        [a, b] => padded(4, group_symbols(a, b, 0, 0, 0)),
        [a, b, c] => padded(5, group_symbols(a, b, c, 0, 0)),
        [a, b, c, d] => padded(7, group_symbols(a, b, c, d, 0)),
        [a, b, c, d, e] => group_symbols(a, b, c, d, e),
        _ => unreachable!(),
    }
}

/// Appends an ASCII text.
fn append_ascii(text: &mut String, symbols: &[u8]) -> Result<(), AllocError>
    requires { IsAscii symbols.now }
    ensures { OnOk result (string_bytes text.new ≡ string_bytes text.old ++ symbols.now) }
{
    for &symbol in symbols {
        text.push(char::from(symbol))?;
    }
    Ok(())
}

/// Returns the bytes in Base32, with padding.
///
/// # Errors
///
/// Returns `AllocError` if memory runs out.
#[tactic(auto, using(crate::proofs::Groups::ascii, crate::proofs::Groups::one_more, crate::proofs::Groups::all))]
pub fn base32(alloc: Global, bytes: &[u8]) -> Result<String, AllocError>
    ensures { IfOk result (λ text. string_bytes text ≡ base32_text bytes.now) }
{
    let mut text = String::new(alloc);
    for group in bytes.chunks(5) {
        append_ascii(&mut text, &group_text(group))?;
    }
    Ok(text)
}
