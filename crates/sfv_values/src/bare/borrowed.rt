//! Bare items with borrowed text (RFC 9651, section 3.3).

ghost use Rattle.std.specs.Prelude.{◌≡◌, IfOk, IfErr, IsTrue};
ghost use Rattle.sfv_spec.specs.Values as values;
ghost use Rattle.sfv_spec.specs.Values.{IsBareValue};
ghost use Rattle.sfv_values.specs.BareItems.{GivesPart, bare_value, ref_value, holds_bytes};
ghost use Rattle.sfv_values.specs.CheckedTexts.{text_of};

use crate::bare::{BareItem, GenericBareItem, RefBareItem, with_bytes_invariant};
use crate::string::String;
use crate::string_ref::StringRef;
use crate::token::Token;
use crate::token_ref::TokenRef;
use sfv_base::error::OutOfMemory;
use std::alloc::Global;
use std::string::String as StdString;

impl<'a> RefBareItem<'a> {
    /// Returns the string (RFC 9651, section 3.3.3), or `None` for another kind.
    pub fn as_string(&self) -> Option<StringRef<'a>>
        ensures { GivesPart values.string text_of (ref_value self.now) result }
    {
        match self {
            GenericBareItem::String(text) => Some(*text),
            _ => None,
        }
    }

    /// Returns the bytes (RFC 9651, section 3.3.5), or `None` for another kind.
    pub fn as_byte_sequence(&self) -> Option<&'a [u8]>
        ensures { GivesPart values.byte_sequence (λ bytes. bytes.now) (ref_value self.now) result }
    {
        match self {
            GenericBareItem::ByteSequence(bytes) => Some(*bytes),
            _ => None,
        }
    }

    /// Returns the token (RFC 9651, section 3.3.4), or `None` for another kind.
    pub fn as_token(&self) -> Option<TokenRef<'a>>
        ensures { GivesPart values.token text_of (ref_value self.now) result }
    {
        match self {
            GenericBareItem::Token(token) => Some(*token),
            _ => None,
        }
    }

    /// Returns the same value.
    pub fn as_ref_item(&self) -> RefBareItem<'a>
        ensures value { ref_value result ≡ ref_value self.now }
        ensures is_value { IsBareValue (ref_value result) }
    {
        // The content of each kind is known to be in its range or class only after a match.
        match *self {
            GenericBareItem::Decimal(value) => GenericBareItem::Decimal(value),
            GenericBareItem::Integer(value) => GenericBareItem::Integer(value),
            GenericBareItem::String(text) => GenericBareItem::String(text),
            GenericBareItem::ByteSequence(bytes) => GenericBareItem::ByteSequence(
                with_bytes_invariant(bytes),
            ),
            GenericBareItem::Boolean(value) => GenericBareItem::Boolean(value),
            GenericBareItem::Token(token) => GenericBareItem::Token(token),
            GenericBareItem::Date(value) => GenericBareItem::Date(value),
            GenericBareItem::DisplayString(text) => GenericBareItem::DisplayString(text),
        }
    }

    /// Returns the same value with owned text. Only text and bytes are copied, into memory from `alloc`.
    ///
    /// # Errors
    ///
    /// Returns `OutOfMemory` if memory runs out.
    pub fn try_to_owned(&self, alloc: Global) -> Result<BareItem, OutOfMemory>
        ensures value { IfOk result (λ item. bare_value item ≡ ref_value self.now) }
        ensures out_of_memory { IfErr result (λ _. IsTrue (holds_bytes (ref_value self.now))) }
    {
        Ok(match self {
            GenericBareItem::Decimal(value) => GenericBareItem::Decimal(*value),
            GenericBareItem::Integer(value) => GenericBareItem::Integer(*value),
            GenericBareItem::String(text) => GenericBareItem::String(text.to_owned(alloc)?),
            GenericBareItem::ByteSequence(bytes) => {
                GenericBareItem::ByteSequence(Vec::from_slice(alloc, bytes)?)
            }
            GenericBareItem::Boolean(value) => GenericBareItem::Boolean(*value),
            GenericBareItem::Token(token) => GenericBareItem::Token(token.to_owned(alloc)?),
            GenericBareItem::Date(value) => GenericBareItem::Date(*value),
            GenericBareItem::DisplayString(text) => {
                GenericBareItem::DisplayString(StdString::from_str(alloc, text)?)
            }
        })
    }
}

impl<'a> From<StringRef<'a>> for RefBareItem<'a> {
    ghost from_gives = { λ v item. ref_value item ≡ values.string (text_of v) };

    fn from(v: StringRef<'a>) -> RefBareItem<'a> {
        GenericBareItem::String(v)
    }
}

impl<'a> From<TokenRef<'a>> for RefBareItem<'a> {
    ghost from_gives = { λ v item. ref_value item ≡ values.token (text_of v) };

    fn from(v: TokenRef<'a>) -> RefBareItem<'a> {
        GenericBareItem::Token(v)
    }
}

impl<'a> From<&'a String> for RefBareItem<'a> {
    ghost from_gives = { λ v item. ref_value item ≡ values.string v.now };

    fn from(v: &'a String) -> RefBareItem<'a> {
        GenericBareItem::String(v.as_string_ref())
    }
}

impl<'a> From<&'a Token> for RefBareItem<'a> {
    ghost from_gives = { λ v item. ref_value item ≡ values.token v.now };

    fn from(v: &'a Token) -> RefBareItem<'a> {
        GenericBareItem::Token(v.as_token_ref())
    }
}

impl<'a> From<&'a [u8]> for RefBareItem<'a> {
    ghost from_gives = { λ v item. ref_value item ≡ values.byte_sequence v.now };

    fn from(v: &'a [u8]) -> RefBareItem<'a> {
        GenericBareItem::ByteSequence(v)
    }
}
