//! A field that a visitor parses without a map: a color and a flag, as in `color=red;strong`.
//!
//! The field is a dictionary. Its member `color` is the token `red` or `blue`. The parameter `strong` of this member is
//! a Boolean, and false if it is absent. Other members and parameters are ignored.

ghost use Rattle.std.specs.Prelude.{◌≡◌, Some, Ok, Err, IfOk, IfErr};
ghost use Rattle.sfv.specs.BareItems.{ref_value};
ghost use Rattle.sfv.specs.Trees.{dictionary_tree};
ghost use Rattle.sfv_examples.specs.Foo.{fault_text, foo, color_in, strong_in, IsFooOf, IsFooError};
ghost use Rattle.sfv_examples.specs.FooSteps.{unread, begun, foo_step, foo_found};

use sfv::visitor::{Event, Visitor};
use sfv::{
    Dictionary, ListEntry, ParseError, Parser, RefBareItem, Version, find_entry, find_param,
    key_ref,
};
use std::alloc::Global;
use std::fmt;

/// A color.
#[derive(Clone, Copy, Debug, PartialEq, Eq)]
pub enum Color {
    /// The token `red`.
    Red,
    /// The token `blue`.
    Blue,
}

/// The value of the field.
#[derive(Clone, Copy, Debug, PartialEq, Eq)]
pub struct Foo {
    /// The member `color`.
    pub color: Color,
    /// The parameter `strong` of the member `color`.
    pub strong: bool,
}

/// The error of a dictionary that is not such a field.
#[derive(Clone, Copy, Debug, PartialEq, Eq)]
pub enum FooFault {
    /// There is no member `color`.
    ColorMissing,
    /// The member `color` is not an item with a token.
    ColorWrongType,
    /// The token names no color.
    ColorInvalid,
    /// The parameter `strong` is not a Boolean.
    StrongWrongType,
}

impl FooFault {
    // Returns the text of the error.
    fn message(self) -> &'static str
        ensures { result.now ≡ fault_text self }
    {
        match self {
            FooFault::ColorMissing => "color missing",
            FooFault::ColorWrongType => "color wrong type",
            FooFault::ColorInvalid => "color invalid",
            FooFault::StrongWrongType => "strong wrong type",
        }
    }
}

impl fmt::Display for FooFault {
    ghost output = { λ fault. Some (fault_text fault) };

    fn fmt<W: fmt::Write>(&self, f: &mut fmt::Formatter<W>) -> fmt::Result {
        f.write_str(self.message())
    }
}

impl std::error::Error for FooFault {}

// Returns the color that a bare item names.
fn color_of(item: RefBareItem<'_>) -> Result<Color, FooFault>
    ensures { result ≡ color_in (ref_value item.entry) }
{
    let Some(token) = item.as_token() else {
        return Err(FooFault::ColorWrongType);
    };
    match token.as_str() {
        "red" => Ok(Color::Red),
        "blue" => Ok(Color::Blue),
        _ => Err(FooFault::ColorInvalid),
    }
}

// Returns the Boolean of a bare item.
fn strong_of(item: RefBareItem<'_>) -> Result<bool, FooFault>
    ensures { result ≡ strong_in (ref_value item.entry) }
{
    let Some(strong) = item.as_boolean() else {
        return Err(FooFault::StrongWrongType);
    };
    Ok(strong)
}

/// Converts a dictionary to the field.
///
/// # Errors
///
/// Returns the first error, in this order: the member `color` is absent, it is not a token, the token names no color,
/// the parameter `strong` is not a Boolean.
pub fn foo_from_dictionary(dictionary: &Dictionary) -> Result<Foo, FooFault>
    ensures { result ≡ foo (dictionary_tree dictionary.now.entries) }
{
    let Some(member) = find_entry(dictionary, key_ref("color")) else {
        return Err(FooFault::ColorMissing);
    };
    let ListEntry::Item(item) = member else {
        return Err(FooFault::ColorWrongType);
    };
    let color = color_of(item.bare_item.as_ref_item())?;
    let strong = match find_param(&item.params, key_ref("strong")) {
        Some(value) => strong_of(value.as_ref_item())?,
        None => false,
    };
    Ok(Foo { color, strong })
}

/// A visitor that returns the field. Does not allocate.
///
/// The last value of a repeated key counts, so no value is an error while events come. The visitor keeps the errors,
/// and fails in `finish` only.
#[derive(Clone, Copy, Debug)]
pub struct FooVisitor {
    // The current member is `color`, and not an inner list.
    in_color: bool,
    color: Result<Color, FooFault>,
    strong: Result<bool, FooFault>,
}

impl FooVisitor {
    /// Creates a visitor that has received no event.
    pub fn new() -> FooVisitor
        ensures { result ≡ unread }
    {
        FooVisitor {
            in_color: false,
            color: Err(FooFault::ColorMissing),
            strong: Ok(false),
        }
    }

    // Begins a member. A repeated `color` discards the result of the earlier one.
    fn begin(&mut self, in_color: bool)
        ensures { self.new ≡ begun self.old in_color }
    {
        self.in_color = in_color;
        if in_color {
            self.color = Err(FooFault::ColorWrongType);
            self.strong = Ok(false);
        }
    }
}

impl<'de> Visitor<'de> for FooVisitor {
    type Out = Foo;

    type Error = FooFault;

    ghost takes = { λ s e after. after ≡ foo_step s e };

    ghost fails = { λ _ _ _. ⊥ };

    ghost finishes = { λ s found. foo_found s ≡ Ok found };

    ghost finish_fails = { λ s fault. foo_found s ≡ Err fault };

    #[inline(always)]
    fn event(&mut self, event: Event<'de>) -> Result<(), FooFault> {
        match event {
            Event::KeyedEntry(key) => self.begin(key.as_str() == "color"),
            Event::InnerList => self.in_color = false,
            Event::BareItem(item) => {
                if self.in_color {
                    self.color = color_of(item.as_ref_item());
                }
            }
            Event::Parameter(key, value) => {
                if self.in_color && key.as_str() == "strong" {
                    self.strong = strong_of(value.as_ref_item());
                }
            }
            _ => {}
        }
        Ok(())
    }

    fn finish(self) -> Result<Foo, FooFault> {
        Ok(Foo {
            color: self.color?,
            strong: self.strong?,
        })
    }
}

/// Parses the field under `version`, without a map (RFC 9651, section 4.2). Only texts with escapes, and byte
/// sequences, are allocated from `alloc`.
///
/// # Errors
///
/// Returns `ParseError::Syntax` with the error of `Parser::parse` if the input is not a dictionary, or if memory runs
/// out. Returns `ParseError::Visitor` with the error of `foo_from_dictionary` if it is a dictionary, but not this
/// field.
pub fn read_foo(alloc: Global, version: Version, input: &[u8]) -> Result<Foo, ParseError<FooFault>>
    ensures read { IfOk result (λ found. IsFooOf version input.now (Ok found)) }
    ensures failed { IfErr result (IsFooError version input.now) }
{
    let parser = Parser::new(input).with_version(version);
    parser.parse_dictionary_with_visitor(alloc, FooVisitor::new())
}
