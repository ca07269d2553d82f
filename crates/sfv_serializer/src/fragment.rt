//! The fragments of a field that serializers append.

ghost use Rattle.std.specs.Prelude.{◌++◌, ⊤, IsTrue, codes};
ghost use Rattle.sfv_spec.specs.Classes.{is_key, is_token};
ghost use Rattle.sfv_spec.specs.Values.{IsBareValue};
ghost use Rattle.sfv_spec.specs.Canonical.{bare_text};
ghost use Rattle.sfv_values.specs.BareItems.{ref_value};
ghost use Rattle.sfv_values.specs.CheckedTexts.{text_of};
ghost use Rattle.sfv_writer.specs.Written.{separator_before};
ghost use Rattle.sfv_serializer.specs.Serializers.{keyed, param};

use sfv_base::error::OutOfMemory;
use sfv_values::bare::RefBareItem;
use sfv_values::key_ref::KeyRef;
use sfv_values::token_ref::TokenRef;
use sfv_writer::item::{serialize_bare_item, serialize_key, serialize_token, serialize_value};
use sfv_writer::output::{Fragment, serialize_separator};
use std::alloc::Allocator;
use std::string::String as StdString;

/// A fragment after a separator, except if it is the first.
#[derive(Drop)]
pub(crate) struct Separated<P> {
    pub(crate) is_first: bool,
    pub(crate) separator: &'static str,
    pub(crate) fragment: P,
}

impl<P: Fragment> Fragment for Separated<P> {
    ghost text = { λ s. separator_before s.is_first s.separator.now ++ P.text s.fragment };

    ghost is_valid = { λ s. P.is_valid s.fragment };

    #[inline(always)]
    fn serialize<A: Allocator>(self, output: &mut StdString<A>) -> Result<(), OutOfMemory> {
        serialize_separator(self.is_first, self.separator, output)?;
        self.fragment.serialize(output)
    }
}

/// A bare item.
#[derive(Drop)]
pub(crate) struct BareItemFragment<'a> {
    pub(crate) value: RefBareItem<'a>,
}

impl<'a> Fragment for BareItemFragment<'a> {
    ghost text = { λ p. bare_text (ref_value p.value) };

    ghost is_valid = { λ p. IsBareValue (ref_value p.value) };

    #[inline(always)]
    fn serialize<A: Allocator>(self, output: &mut StdString<A>) -> Result<(), OutOfMemory> {
        serialize_bare_item(self.value, output)
    }
}

/// A bare item that is a token.
#[derive(Drop)]
pub(crate) struct TokenFragment<'a> {
    pub(crate) token: TokenRef<'a>,
}

impl<'a> Fragment for TokenFragment<'a> {
    ghost text = { λ p. text_of p.token };

    ghost is_valid = { λ p. IsTrue (is_token (text_of p.token)) };

    #[inline(always)]
    fn serialize<A: Allocator>(self, output: &mut StdString<A>) -> Result<(), OutOfMemory> {
        serialize_token(self.token, output)
    }
}

/// A member of a dictionary that is an item, without its parameters.
#[derive(Drop)]
pub(crate) struct KeyValue<'a> {
    pub(crate) name: KeyRef<'a>,
    pub(crate) value: RefBareItem<'a>,
}

impl<'a> Fragment for KeyValue<'a> {
    ghost text = { λ p. keyed p.name p.value };

    ghost is_valid = { λ p. IsTrue (is_key (text_of p.name)) × IsBareValue (ref_value p.value) };

    #[inline(always)]
    fn serialize<A: Allocator>(self, output: &mut StdString<A>) -> Result<(), OutOfMemory> {
        serialize_key(self.name, output)?;
        serialize_value(self.value, output)
    }
}

/// A parameter.
#[derive(Drop)]
pub(crate) struct Parameter<'a> {
    pub(crate) named: KeyValue<'a>,
}

impl<'a> Fragment for Parameter<'a> {
    ghost text = { λ p. param p.named.name p.named.value };

    ghost is_valid = { λ p. IsTrue (is_key (text_of p.named.name)) × IsBareValue (ref_value p.named.value) };

    #[inline(always)]
    fn serialize<A: Allocator>(self, output: &mut StdString<A>) -> Result<(), OutOfMemory> {
        output.push(';')?;
        self.named.serialize(output)
    }
}

/// The start of an inner list in a list.
#[derive(Drop)]
pub(crate) struct InnerListStart {}

impl Fragment for InnerListStart {
    ghost text = { λ _. codes "(" };

    ghost is_valid = { λ _. ⊤ };

    #[inline(always)]
    fn serialize<A: Allocator>(self, output: &mut StdString<A>) -> Result<(), OutOfMemory> {
        output.push('(')?;
        Ok(())
    }
}

/// The start of an inner list in a dictionary.
#[derive(Drop)]
pub(crate) struct KeyedInnerListStart<'a> {
    pub(crate) name: KeyRef<'a>,
}

impl<'a> Fragment for KeyedInnerListStart<'a> {
    ghost text = { λ p. text_of p.name ++ codes "=(" };

    ghost is_valid = { λ p. IsTrue (is_key (text_of p.name)) };

    #[inline(always)]
    fn serialize<A: Allocator>(self, output: &mut StdString<A>) -> Result<(), OutOfMemory> {
        serialize_key(self.name, output)?;
        output.push_str("=(")?;
        Ok(())
    }
}
