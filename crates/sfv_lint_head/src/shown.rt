//! Bytes as they are shown, and a caret under one of them.

ghost use Rattle.std.specs.Prelude.{◌≡◌, ◌<◌, ◌++◌, OnOk, string_bytes, length, replicate};
ghost use Rattle.sfv_spec.specs.Classes.{is_string_byte};
ghost use Rattle.sfv_lint_head.specs.Shown.{hex_digit, shown_byte, shown, caret_under};

use std::alloc::AllocError;

/// Returns a hexadecimal digit.
fn hex_digit(number: u8) -> char
    requires { number < 16 }
    ensures { result ≡ hex_digit number }
{
    let digit = if number < 10 {
        b'0' + number
    } else {
        b'a' + (number - 10)
    };
    char::from(digit)
}

/// Returns `true` if the byte is a printable ASCII character.
fn is_printable(byte: u8) -> bool
    ensures { result ≡ is_string_byte byte }
{
    matches!(byte, 0x20..=0x7e)
}

/// Appends a byte as it is shown.
fn append_byte(text: &mut String, byte: u8) -> Result<(), AllocError>
    ensures { OnOk result (string_bytes text.new ≡ string_bytes text.old ++ shown_byte byte) }
{
    if is_printable(byte) {
        text.push(char::from(byte))
    } else {
        text.push_str("\\x")?;
        text.push(hex_digit(byte / 16))?;
        text.push(hex_digit(byte % 16))
    }
}

/// Appends the bytes as they are shown: printable ASCII characters unchanged, other bytes as `\xNN`.
///
/// # Errors
///
/// Returns `AllocError` if memory runs out. A part may then be appended.
pub fn append_shown(text: &mut String, bytes: &[u8]) -> Result<(), AllocError>
    ensures { OnOk result (string_bytes text.new ≡ string_bytes text.old ++ shown bytes.now) }
{
    for &byte in bytes {
        append_byte(text, byte)?;
    }
    Ok(())
}

/// Appends the spaces under a byte as it is shown.
fn append_blank(text: &mut String, byte: u8) -> Result<(), AllocError>
    ensures { OnOk result (string_bytes text.new ≡ string_bytes text.old ++ replicate (length (shown_byte byte)) 32) }
{
    if is_printable(byte) {
        text.push(' ')
    } else {
        text.push_str("    ")
    }
}

/// Appends a caret under the byte that follows these bytes when they are shown.
///
/// # Errors
///
/// Returns `AllocError` if memory runs out. A part may then be appended.
pub fn append_caret(text: &mut String, before: &[u8]) -> Result<(), AllocError>
    ensures { OnOk result (string_bytes text.new ≡ string_bytes text.old ++ caret_under before.now) }
{
    for &byte in before {
        append_blank(text, byte)?;
    }
    text.push('^')
}
