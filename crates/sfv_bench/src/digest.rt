//! A digest of results.

use sfv::{Error, GenericBareItem, Integer, RefBareItem};
use std::hash::{FoldHasher, Hasher};

/// A digest of results, in their order.
#[derive(Clone, Copy)]
pub struct Digest {
    state: FoldHasher,
}

impl Digest {
    /// Creates a digest of no results.
    pub fn new() -> Digest {
        Digest {
            state: FoldHasher::default(),
        }
    }

    /// Adds a number.
    pub fn number(&mut self, number: u64) {
        self.state.write_u64(number);
    }

    /// Adds bytes.
    pub fn bytes(&mut self, bytes: &[u8]) {
        self.state.write(bytes);
    }

    /// Adds an integer.
    pub fn integer(&mut self, integer: Integer) {
        self.bytes(&integer.to_i64().to_le_bytes());
    }

    /// Adds a bare item.
    pub fn value(&mut self, value: RefBareItem<'_>) {
        match value {
            GenericBareItem::Decimal(decimal) => self.integer(decimal.as_integer_scaled_1000()),
            GenericBareItem::Integer(integer) => self.integer(integer),
            GenericBareItem::String(text) => self.bytes(text.as_str().as_bytes()),
            GenericBareItem::ByteSequence(bytes) => self.bytes(bytes),
            GenericBareItem::Boolean(value) => self.number(u64::from(value)),
            GenericBareItem::Token(token) => self.bytes(token.as_str().as_bytes()),
            GenericBareItem::Date(date) => self.integer(date.unix_seconds()),
            GenericBareItem::DisplayString(text) => self.bytes(text.as_bytes()),
        }
    }

    /// Adds a text, or that there is none.
    pub fn text(&mut self, text: Option<&str>) {
        match text {
            Some(text) => self.bytes(text.as_bytes()),
            None => self.number(0),
        }
    }

    /// Adds an error: its message and its index.
    pub fn error(&mut self, error: &Error) {
        self.bytes(error.message().as_bytes());
        self.number(error.index().map_or(u64::MAX, |index| index as u64));
    }

    /// Returns the digest.
    pub fn finish(&self) -> u64 {
        self.state.finish()
    }
}
