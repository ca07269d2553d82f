//! Canonical texts of fields, of any kind and of many shapes.

use crate::Random;
use std::alloc::AllocError;
use std::fmt::Write;
use std::test::Fail;

/// The bytes of a string without its escapes, and of a display string without its own.
const TEXT: &[u8] =
    b" !#$&'()*+,-./0123456789:;<=>?@ABCDEFGHIJKLMNOPQRSTUVWXYZ[]^_`abcdefghijklmnopqrstuvwxyz{|}~";

/// The first bytes of a token.
pub(crate) const FIRST_OF_TOKEN: &[u8] = b"*ABCDEFGHIJKLMNOPQRSTUVWXYZabcdefghijklmnopqrstuvwxyz";

/// The bytes of a token after its first byte.
pub(crate) const TOKEN: &[u8] =
    b"!#$%&'*+-.^_`|~:/0123456789ABCDEFGHIJKLMNOPQRSTUVWXYZabcdefghijklmnopqrstuvwxyz";

/// The first bytes of a key.
pub(crate) const FIRST_OF_KEY: &[u8] = b"*abcdefghijklmnopqrstuvwxyz";

/// The bytes of a key after its first byte.
pub(crate) const KEY: &[u8] = b"abcdefghijklmnopqrstuvwxyz0123456789_-.*";

/// The symbols of Base64, in their order.
const BASE64: &[u8] = b"ABCDEFGHIJKLMNOPQRSTUVWXYZabcdefghijklmnopqrstuvwxyz0123456789+/";

/// Parts of a display string with escapes.
const ESCAPED: &[&str] = &[
    "%25",
    "%22",
    "%00",
    "%0a",
    "%7f",
    "%c3%bc",
    "%e2%82%ac",
    "%f0%9f%92%a9",
];

impl Random {
    // Appends so many of the bytes, which are ASCII.
    fn push_bytes(
        &mut self,
        text: &mut String,
        bytes: &[u8],
        count: usize,
    ) -> Result<(), AllocError> {
        for _ in 0..count {
            let byte = bytes.get(self.below(bytes.len())).copied();
            text.push(char::from(byte.unwrap_or(b'a')))?;
        }
        Ok(())
    }

    // Appends a number of this many digits at most, perhaps with a sign. A number of one digit may be zero.
    fn push_integer(&mut self, text: &mut String, digits: usize) -> Result<(), AllocError> {
        let count = self.below(digits);
        if count == 0 {
            return self.push_bytes(text, b"0123456789", 1);
        }
        if self.below(2) == 0 {
            text.push('-')?;
        }
        self.push_bytes(text, b"123456789", 1)?;
        self.push_bytes(text, b"0123456789", count)
    }

    fn push_decimal(&mut self, text: &mut String) -> Result<(), AllocError> {
        self.push_integer(text, 12)?;
        text.push('.')?;
        let count = self.below(3);
        self.push_bytes(text, b"0123456789", count)?;
        if count == 0 {
            return self.push_bytes(text, b"0123456789", 1);
        }
        self.push_bytes(text, b"123456789", 1)
    }

    fn push_string(&mut self, text: &mut String) -> Result<(), AllocError> {
        text.push('"')?;
        for _ in 0..self.below(4) {
            let count = self.length(6);
            self.push_bytes(text, TEXT, count)?;
            match self.below(5) {
                0 => text.push_str("\\\\")?,
                1 => text.push_str("\\\"")?,
                2 => text.push('%')?,
                _ => {}
            }
        }
        text.push('"')
    }

    fn push_display_string(&mut self, text: &mut String) -> Result<(), AllocError> {
        text.push_str("%\"")?;
        for _ in 0..self.below(4) {
            let count = self.length(6);
            self.push_bytes(text, TEXT, count)?;
            if self.below(3) > 0 {
                let escaped = ESCAPED.get(self.below(ESCAPED.len())).copied();
                text.push_str(escaped.unwrap_or("\\"))?;
            }
        }
        text.push('"')
    }

    fn push_token(&mut self, text: &mut String) -> Result<(), AllocError> {
        self.push_bytes(text, FIRST_OF_TOKEN, 1)?;
        let count = self.length(6);
        self.push_bytes(text, TOKEN, count)
    }

    // The unused bits of the last symbol are zero.
    fn push_byte_sequence(&mut self, text: &mut String) -> Result<(), AllocError> {
        text.push(':')?;
        let count = self.length(5).saturating_mul(4);
        self.push_bytes(text, BASE64, count)?;
        match self.below(3) {
            0 => {
                self.push_bytes(text, BASE64, 1)?;
                self.push_bytes(text, b"AQgw", 1)?;
                text.push_str("==")?;
            }
            1 => {
                self.push_bytes(text, BASE64, 2)?;
                self.push_bytes(text, b"AEIMQUYcgkosw048", 1)?;
                text.push('=')?;
            }
            _ => {}
        }
        text.push(':')
    }

    // Appends a bare item other than true. RFC 8941 lacks two kinds.
    fn push_value(&mut self, text: &mut String, is_older: bool) -> Result<(), AllocError> {
        match self.below(if is_older { 6 } else { 8 }) {
            0 => self.push_integer(text, 15),
            1 => self.push_decimal(text),
            2 => self.push_string(text),
            3 => self.push_token(text),
            4 => self.push_byte_sequence(text),
            5 => text.push_str("?0"),
            6 => {
                text.push('@')?;
                self.push_integer(text, 15)
            }
            _ => self.push_display_string(text),
        }
    }

    fn push_bare_item(&mut self, text: &mut String, is_older: bool) -> Result<(), AllocError> {
        if self.below(12) == 0 {
            return text.push_str("?1");
        }
        self.push_value(text, is_older)
    }

    // Appends a key. Keys with different numbers are different.
    fn push_key(&mut self, text: &mut String, number: usize) -> Result<(), Fail> {
        self.push_bytes(text, FIRST_OF_KEY, 1)?;
        let count = self.length(5);
        self.push_bytes(text, KEY, count)?;
        write!(text, ".{number}")?;
        Ok(())
    }

    fn push_parameters(&mut self, text: &mut String, is_older: bool) -> Result<(), Fail> {
        for number in 0..self.length(4) {
            text.push(';')?;
            self.push_key(text, number)?;
            if self.below(3) > 0 {
                text.push('=')?;
                self.push_value(text, is_older)?;
            }
        }
        Ok(())
    }

    fn push_item(&mut self, text: &mut String, is_older: bool) -> Result<(), Fail> {
        self.push_bare_item(text, is_older)?;
        self.push_parameters(text, is_older)
    }

    fn push_inner_list(&mut self, text: &mut String, is_older: bool) -> Result<(), Fail> {
        text.push('(')?;
        for number in 0..self.length(4) {
            if number > 0 {
                text.push(' ')?;
            }
            self.push_item(text, is_older)?;
        }
        text.push(')')?;
        self.push_parameters(text, is_older)
    }

    fn push_member(&mut self, text: &mut String, is_older: bool) -> Result<(), Fail> {
        if self.below(3) == 0 {
            self.push_inner_list(text, is_older)
        } else {
            self.push_item(text, is_older)
        }
    }

    fn push_entry(&mut self, text: &mut String, is_older: bool, number: usize) -> Result<(), Fail> {
        self.push_key(text, number)?;
        match self.below(4) {
            0 => return self.push_parameters(text, is_older),
            1 => {
                text.push('=')?;
                return self.push_inner_list(text, is_older);
            }
            _ => {}
        }
        text.push('=')?;
        self.push_value(text, is_older)?;
        self.push_parameters(text, is_older)
    }

    /// Appends the canonical text of a field, which RFC 8941 has if `is_older` is true. The type of the field is `item`,
    /// `list` or `dict`.
    pub fn push_field(
        &mut self,
        text: &mut String,
        field: &str,
        is_older: bool,
    ) -> Result<(), Fail> {
        let count = self.length(5);
        self.push_members(text, field, is_older, count)
    }

    /// Appends the canonical text of a field with so many members. The number does not count for an item.
    pub fn push_members(
        &mut self,
        text: &mut String,
        field: &str,
        is_older: bool,
        count: usize,
    ) -> Result<(), Fail> {
        if field == "item" {
            return self.push_item(text, is_older);
        }
        for number in 0..count {
            if number > 0 {
                text.push_str(", ")?;
            }
            if field == "list" {
                self.push_member(text, is_older)?;
            } else {
                self.push_entry(text, is_older, number)?;
            }
        }
        Ok(())
    }
}
