//! Parsed bare items (RFC 9651, section 3.3).

ghost use Rattle.std.specs.Prelude.{◌≡◌, IfOk, IfErr, IsTrue, nat_eq};
ghost use Rattle.std.specs.Cmp.Lexicographic.{pointwise, nat_list_eq_equiv};
ghost use Rattle.std.specs.Cmp;
ghost use Rattle.std.specs.Cmp.{on_per, on_equiv};
ghost use Rattle.sfv_spec.specs.Values as values;
ghost use Rattle.sfv_spec.specs.Values.{IsBareValue};
ghost use Rattle.sfv_values.specs.BareItems.{GivesPart, read_text, bare_value, ref_value, input_value, is_borrowed};
ghost use Rattle.sfv_values.specs.BareItems.{is_borrowed_string};
ghost use Rattle.sfv_values.specs.CheckedTexts.{text_of};

use crate::bare::{
    BareItem, BareItemFromInput, GenericBareItem, RefBareItem, StringFromInput,
    with_bytes_invariant,
};
use crate::string::String;
use crate::string_ref::StringRef;
use crate::token::Token;
use crate::token_ref::TokenRef;
use sfv_base::error::OutOfMemory;
use std::alloc::{AllocError, Global};

impl<'a> StringFromInput<'a> {
    /// Borrows the string.
    pub fn as_string_ref(&self) -> StringRef<'_>
        ensures { text_of result ≡ read_text self.now }
    {
        match self {
            StringFromInput::Borrowed(text) => *text,
            StringFromInput::Owned(text) => text.as_string_ref(),
        }
    }

    /// Returns the string with owned text. Owned text is moved, and borrowed text is copied into memory from `alloc`.
    ///
    /// # Errors
    ///
    /// Returns `OutOfMemory` if memory runs out.
    #[inline(never)]
    pub fn try_into_owned(self, alloc: Global) -> Result<String, OutOfMemory>
        ensures text { IfOk result (λ text. text ≡ read_text self.entry) }
        ensures out_of_memory { IfErr result (λ _. IsTrue (is_borrowed_string self.entry)) }
    {
        match self {
            StringFromInput::Borrowed(text) => text.to_owned(alloc),
            StringFromInput::Owned(text) => Ok(text),
        }
    }
}

impl<'a> PartialEq for StringFromInput<'a> {
    ghost eq = { λ x y. pointwise nat_eq (read_text x) (read_text y) };

    ghost laws = { on_per read_text (Cmp.partial_equiv_from_equiv nat_list_eq_equiv) };

    fn eq(&self, other: &StringFromInput<'a>) -> bool {
        self.as_string_ref().as_str() == other.as_string_ref().as_str()
    }
}

impl<'a> Eq for StringFromInput<'a> {
    ghost laws = { on_equiv read_text nat_list_eq_equiv };
}

impl<'a> Clone for StringFromInput<'a> {
    ghost is_clone = { λ text copy. copy ≡ text };

    ghost is_infallible = { λ text. IsTrue (is_borrowed_string text) };

    fn clone(&self) -> Result<StringFromInput<'a>, AllocError> {
        Ok(match self {
            StringFromInput::Borrowed(text) => StringFromInput::Borrowed(*text),
            StringFromInput::Owned(text) => StringFromInput::Owned(text.clone()?),
        })
    }
}

impl<'a> BareItemFromInput<'a> {
    /// Returns the string (RFC 9651, section 3.3.3), or `None` for another kind.
    pub fn as_string(&self) -> Option<StringRef<'_>>
        ensures { GivesPart values.string text_of (input_value self.now) result }
    {
        match self {
            GenericBareItem::String(text) => Some(text.as_string_ref()),
            _ => None,
        }
    }

    /// Returns the bytes (RFC 9651, section 3.3.5), or `None` for another kind.
    pub fn as_byte_sequence(&self) -> Option<&[u8]>
        ensures { GivesPart values.byte_sequence (λ bytes. bytes.now) (input_value self.now) result }
    {
        match self {
            GenericBareItem::ByteSequence(bytes) => Some(bytes.as_slice()),
            _ => None,
        }
    }

    /// Returns the token (RFC 9651, section 3.3.4), or `None` for another kind.
    pub fn as_token(&self) -> Option<TokenRef<'a>>
        ensures { GivesPart values.token text_of (input_value self.now) result }
    {
        match self {
            GenericBareItem::Token(token) => Some(*token),
            _ => None,
        }
    }

    /// Returns the same value with borrowed text.
    pub fn as_ref_item(&self) -> RefBareItem<'_>
        ensures value { ref_value result ≡ input_value self.now }
        ensures is_value { IsBareValue (ref_value result) }
    {
        match self {
            GenericBareItem::Decimal(value) => GenericBareItem::Decimal(*value),
            GenericBareItem::Integer(value) => GenericBareItem::Integer(*value),
            GenericBareItem::String(text) => GenericBareItem::String(text.as_string_ref()),
            GenericBareItem::ByteSequence(bytes) => GenericBareItem::ByteSequence(
                with_bytes_invariant(bytes),
            ),
            GenericBareItem::Boolean(value) => GenericBareItem::Boolean(*value),
            GenericBareItem::Token(token) => GenericBareItem::Token(*token),
            GenericBareItem::Date(value) => GenericBareItem::Date(*value),
            GenericBareItem::DisplayString(text) => GenericBareItem::DisplayString(text.as_str()),
        }
    }

    /// Returns the same value with owned text. Owned text and bytes are moved, and borrowed text is copied into memory
    /// from `alloc`.
    ///
    /// # Errors
    ///
    /// Returns `OutOfMemory` if memory runs out.
    // Inlined, except the copy of a string, because most kinds are moved.
    #[inline(always)]
    pub fn try_into_owned(self, alloc: Global) -> Result<BareItem, OutOfMemory>
        ensures value { IfOk result (λ item. bare_value item ≡ input_value self.entry) }
        ensures out_of_memory { IfErr result (λ _. IsTrue (is_borrowed self.entry)) }
    {
        Ok(match self {
            GenericBareItem::Decimal(value) => GenericBareItem::Decimal(value),
            GenericBareItem::Integer(value) => GenericBareItem::Integer(value),
            GenericBareItem::String(text) => GenericBareItem::String(text.try_into_owned(alloc)?),
            GenericBareItem::ByteSequence(bytes) => GenericBareItem::ByteSequence(bytes),
            GenericBareItem::Boolean(value) => GenericBareItem::Boolean(value),
            GenericBareItem::Token(token) => GenericBareItem::Token(token.to_owned(alloc)?),
            GenericBareItem::Date(value) => GenericBareItem::Date(value),
            GenericBareItem::DisplayString(text) => {
                GenericBareItem::DisplayString(text.into_owned(alloc)?)
            }
        })
    }
}

impl<'a> From<TokenRef<'a>> for BareItemFromInput<'a> {
    ghost from_gives = { λ v item. input_value item ≡ values.token (text_of v) };

    fn from(v: TokenRef<'a>) -> BareItemFromInput<'a> {
        GenericBareItem::Token(v)
    }
}

impl<'a> From<&'a Token> for BareItemFromInput<'a> {
    ghost from_gives = { λ v item. input_value item ≡ values.token v.now };

    fn from(v: &'a Token) -> BareItemFromInput<'a> {
        GenericBareItem::Token(v.as_token_ref())
    }
}

impl<'a> From<Vec<u8>> for BareItemFromInput<'a> {
    ghost from_gives = { λ v item. input_value item ≡ values.byte_sequence v.items };

    fn from(v: Vec<u8>) -> BareItemFromInput<'a> {
        GenericBareItem::ByteSequence(v)
    }
}
