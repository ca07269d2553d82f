//! Fields that are made from templates.

use sfv::FieldKind;
use sfv_random::Random;
use std::alloc::{AllocError, Global};

/// A field whose text changes from call to call.
#[derive(Drop)]
pub struct Field {
    /// The type of the field.
    pub kind: FieldKind,
    /// The text.
    pub text: Vec<u8>,
    // The index of eight digits, the lowest one first.
    stamp: usize,
}

impl Field {
    /// Creates a field without text.
    pub fn new(alloc: Global, kind: FieldKind) -> Field {
        Field {
            kind,
            text: Vec::new(alloc),
            stamp: 0,
        }
    }

    /// Appends text: a random digit for `#`, a letter for `^`, a symbol of Base64 for `$`, and eight digits for `&`.
    /// The eight digits count the changes, and end with the number of the field.
    pub fn push(
        &mut self,
        random: &mut Random,
        template: &str,
        number: u32,
    ) -> Result<(), AllocError> {
        for byte in template.as_bytes() {
            match *byte {
                b'#' => self.text.push(random.digit())?,
                b'^' => self.text.push(random.letter())?,
                b'$' => self.text.push(random.symbol())?,
                b'&' => self.push_stamp(number)?,
                other => self.text.push(other)?,
            }
        }
        Ok(())
    }

    // Appends the eight digits.
    fn push_stamp(&mut self, number: u32) -> Result<(), AllocError> {
        self.stamp = self.text.len();
        self.text.extend_from_slice(b"1000")?;
        let mut left = number;
        for _ in 0..4 {
            self.text.push(b'0' + (left % 10) as u8)?;
            left /= 10;
        }
        Ok(())
    }

    /// Returns the index after the eight digits.
    pub fn after_stamp(&self) -> usize {
        self.stamp.saturating_add(8).min(self.text.len())
    }

    /// Changes the text: adds one to the number of the eight digits.
    pub fn change(&mut self) {
        if self.stamp > self.text.len() {
            return;
        }
        for digit in self.text[self.stamp..].iter_mut() {
            if *digit < b'9' {
                *digit += 1;
                return;
            }
            *digit = b'0';
        }
    }
}
