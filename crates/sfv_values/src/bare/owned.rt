//! Bare items with owned text (RFC 9651, section 3.3).

ghost use Rattle.std.specs.Prelude.{◌≡◌};
ghost use Rattle.sfv_spec.specs.Values as values;
ghost use Rattle.sfv_spec.specs.Values.{IsBareValue};
ghost use Rattle.sfv_values.specs.BareItems.{GivesPart, bare_value, ref_value};
ghost use Rattle.sfv_values.specs.CheckedTexts.{text_of};

use crate::bare::{BareItem, GenericBareItem, RefBareItem, with_bytes_invariant};
use crate::string::String;
use crate::string_ref::StringRef;
use crate::token::Token;
use crate::token_ref::TokenRef;

impl BareItem {
    /// Returns the string (RFC 9651, section 3.3.3), or `None` for another kind.
    pub fn as_string(&self) -> Option<StringRef<'_>>
        ensures { GivesPart values.string text_of (bare_value self.now) result }
    {
        match self {
            GenericBareItem::String(text) => Some(text.as_string_ref()),
            _ => None,
        }
    }

    /// Returns the bytes (RFC 9651, section 3.3.5), or `None` for another kind.
    pub fn as_byte_sequence(&self) -> Option<&[u8]>
        ensures { GivesPart values.byte_sequence (λ bytes. bytes.now) (bare_value self.now) result }
    {
        match self {
            GenericBareItem::ByteSequence(bytes) => Some(bytes.as_slice()),
            _ => None,
        }
    }

    /// Returns the token (RFC 9651, section 3.3.4), or `None` for another kind.
    pub fn as_token(&self) -> Option<TokenRef<'_>>
        ensures { GivesPart values.token text_of (bare_value self.now) result }
    {
        match self {
            GenericBareItem::Token(token) => Some(token.as_token_ref()),
            _ => None,
        }
    }

    /// Returns the same value with borrowed text.
    pub fn as_ref_item(&self) -> RefBareItem<'_>
        ensures value { ref_value result ≡ bare_value self.now }
        ensures is_value { IsBareValue (ref_value result) }
    {
        match self {
            GenericBareItem::Decimal(value) => GenericBareItem::Decimal(*value),
            GenericBareItem::Integer(value) => GenericBareItem::Integer(*value),
            GenericBareItem::String(text) => GenericBareItem::String(text.as_string_ref()),
            GenericBareItem::ByteSequence(bytes) => GenericBareItem::ByteSequence(
                with_bytes_invariant(bytes),
            ),
            GenericBareItem::Boolean(value) => GenericBareItem::Boolean(*value),
            GenericBareItem::Token(token) => GenericBareItem::Token(token.as_token_ref()),
            GenericBareItem::Date(value) => GenericBareItem::Date(*value),
            GenericBareItem::DisplayString(text) => GenericBareItem::DisplayString(text.as_str()),
        }
    }
}

impl From<String> for BareItem {
    ghost from_gives = { λ v item. bare_value item ≡ values.string v };

    fn from(v: String) -> BareItem {
        GenericBareItem::String(v)
    }
}

impl From<Token> for BareItem {
    ghost from_gives = { λ v item. bare_value item ≡ values.token v };

    fn from(v: Token) -> BareItem {
        GenericBareItem::Token(v)
    }
}

impl From<Vec<u8>> for BareItem {
    ghost from_gives = { λ v item. bare_value item ≡ values.byte_sequence v.items };

    fn from(v: Vec<u8>) -> BareItem {
        GenericBareItem::ByteSequence(v)
    }
}
