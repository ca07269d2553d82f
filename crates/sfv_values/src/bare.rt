//! Bare items (RFC 9651, section 3.3).

ghost use Rattle.std.specs.Prelude.{◌≡◌, Some};
ghost use Rattle.sfv_spec.specs.Texts.{RunOf};
ghost use Rattle.sfv_spec.specs.Values.{is_byte};
ghost use Rattle.sfv_values.specs.BareItems.{IsCopyBy, TakesNoMemoryBy};
ghost use Rattle.sfv_values.specs.Kinds.{kind_text};

mod accessors;
mod borrowed;
mod conversions;
mod from_input;
mod owned;

use crate::string::String;
use crate::string_ref::StringRef;
use crate::token::Token;
use crate::token_ref::TokenRef;
use sfv_base::date::Date;
use sfv_base::decimal::Decimal;
use sfv_base::integer::Integer;
use std::alloc::AllocError;
use std::borrow::CowStr;
use std::fmt;
use std::string::String as StdString;

/// A bare item, generic in the types of its texts and bytes (RFC 9651, section 3.3).
///
/// `BareItem` owns its text. `RefBareItem` borrows it. `BareItemFromInput` borrows text from the input where it has no
/// escape. `==` compares values. A clone has the same value, and borrowed text stays borrowed.
///
/// To clone a number, a boolean or borrowed text does not allocate. For a borrowed display string of
/// `BareItemFromInput`, no clause states this.
///
/// `From` a value returns the bare item of that kind, and `From` a number the integer. `TryFrom` a number fails with
/// `ErrorKind::OutOfRange`, without index, if and only if the number is out of the range of integers (section 3.3.1).
#[derive(Copy, Debug, PartialEq, Eq, Drop)]
pub enum GenericBareItem<S, B, T, D> {
    /// A decimal (section 3.3.2).
    Decimal(Decimal),
    /// An integer (section 3.3.1).
    Integer(Integer),
    /// A string (section 3.3.3).
    String(S),
    /// A byte sequence (section 3.3.5).
    ByteSequence(B),
    /// A boolean (section 3.3.6).
    Boolean(bool),
    /// A token (section 3.3.4).
    Token(T),
    /// A date (section 3.3.7).
    Date(Date),
    /// A display string (section 3.3.8).
    DisplayString(D),
}

/// A bare item with owned text.
pub type BareItem = GenericBareItem<String, Vec<u8>, Token, StdString>;

/// A bare item with borrowed text.
pub type RefBareItem<'a> = GenericBareItem<StringRef<'a>, &'a [u8], TokenRef<'a>, &'a str>;

/// A parsed bare item: a token, and a string or display string without escapes, borrow from the input.
pub type BareItemFromInput<'a> = GenericBareItem<
    StringFromInput<'a>,
    Vec<u8>,
    TokenRef<'a>,
    CowStr<'a>,
>;

/// A parsed string (RFC 9651, section 3.3.3): borrowed from the input if and only if it has no escape there.
///
/// `==` compares texts. A clone has the same text, and borrowed text stays borrowed.
#[derive(Debug, Drop)]
pub enum StringFromInput<'a> {
    /// A string without escapes: a slice of the input.
    Borrowed(StringRef<'a>),
    /// A string with escapes, decoded.
    Owned(String),
}

/// Returns the same bytes. The prover knows that a slice contains bytes if it is an argument, but not if it is inside a
/// bare item.
#[inline(always)]
#[tactic(auto, using(crate::proofs::Bytes::run_of_bytes))]
pub fn with_bytes_invariant(bytes: &[u8]) -> &[u8]
    ensures value { result.now ≡ bytes.now }
    ensures bytes { RunOf is_byte result.now }
{
    bytes
}

impl<S: Clone, B: Clone, T: Clone, D: Clone> Clone for GenericBareItem<S, B, T, D> {
    ghost is_clone = { IsCopyBy S.is_clone B.is_clone T.is_clone D.is_clone };

    ghost is_infallible = { TakesNoMemoryBy S.is_infallible B.is_infallible T.is_infallible D.is_infallible };

    fn clone(&self) -> Result<GenericBareItem<S, B, T, D>, AllocError> {
        Ok(match self {
            GenericBareItem::Decimal(value) => GenericBareItem::Decimal(*value),
            GenericBareItem::Integer(value) => GenericBareItem::Integer(*value),
            GenericBareItem::String(text) => GenericBareItem::String(text.clone()?),
            GenericBareItem::ByteSequence(bytes) => GenericBareItem::ByteSequence(bytes.clone()?),
            GenericBareItem::Boolean(value) => GenericBareItem::Boolean(*value),
            GenericBareItem::Token(token) => GenericBareItem::Token(token.clone()?),
            GenericBareItem::Date(value) => GenericBareItem::Date(*value),
            GenericBareItem::DisplayString(text) => GenericBareItem::DisplayString(text.clone()?),
        })
    }
}

/// The kind of a bare item (RFC 9651, section 3.3).
#[derive(Clone, Copy, Debug, PartialEq, Eq)]
pub enum BareItemType {
    /// A decimal (section 3.3.2).
    Decimal,
    /// An integer (section 3.3.1).
    Integer,
    /// A string (section 3.3.3).
    String,
    /// A byte sequence (section 3.3.5).
    ByteSequence,
    /// A boolean (section 3.3.6).
    Boolean,
    /// A token (section 3.3.4).
    Token,
    /// A date (section 3.3.7).
    Date,
    /// A display string (section 3.3.8).
    DisplayString,
}

impl BareItemType {
    fn name(self) -> &'static str
        ensures { result.now ≡ kind_text self }
    {
        match self {
            BareItemType::Decimal => "decimal",
            BareItemType::Integer => "integer",
            BareItemType::String => "string",
            BareItemType::ByteSequence => "byte sequence",
            BareItemType::Boolean => "boolean",
            BareItemType::Token => "token",
            BareItemType::Date => "date",
            BareItemType::DisplayString => "display string",
        }
    }
}

impl fmt::Display for BareItemType {
    ghost output = { λ kind. Some (kind_text kind) };

    ghost styled_output = { λ kind _. Some (kind_text kind) };

    fn fmt<W: fmt::Write>(&self, f: &mut fmt::Formatter<W>) -> fmt::Result {
        f.write_str(self.name())
    }
}
