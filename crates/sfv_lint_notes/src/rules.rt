//! The types that the definitions of fields want.

ghost use Rattle.std.specs.Prelude.{◌≡◌, ◌++◌, OnOk, string_bytes};
ghost use Rattle.sfv.specs.Field.{bare_value};
ghost use Rattle.sfv_lint_notes.specs.Rules.{types_text, part_text, rule_text, has_type};

use sfv::{BareItem, GenericBareItem};
use std::alloc::AllocError;

/// A set of types of bare items.
#[derive(Clone, Copy)]
pub enum Types {
    /// A boolean.
    Boolean,
    /// An integer.
    Integer,
    /// A string.
    String,
    /// A token.
    Token,
    /// A byte sequence.
    ByteSequence,
    /// A string or a token.
    StringOrToken,
    /// A token or a byte sequence.
    TokenOrByteSequence,
}

impl Types {
    /// Returns `true` if the bare item has one of the types.
    pub fn has(self, item: &BareItem) -> bool
        ensures { result ≡ has_type self (bare_value item.now) }
    {
        match item {
            GenericBareItem::Boolean(_) => matches!(self, Types::Boolean),
            GenericBareItem::Integer(_) => matches!(self, Types::Integer),
            GenericBareItem::String(_) => matches!(self, Types::String | Types::StringOrToken),
            GenericBareItem::Token(_) => matches!(
                self,
                Types::Token | Types::StringOrToken | Types::TokenOrByteSequence
            ),
            GenericBareItem::ByteSequence(_) => {
                matches!(self, Types::ByteSequence | Types::TokenOrByteSequence)
            }
            _ => false,
        }
    }

    /// Returns the types in words.
    pub fn name(self) -> &'static str
        ensures { result.now ≡ types_text self }
    {
        match self {
            Types::Boolean => "a boolean",
            Types::Integer => "an integer",
            Types::String => "a string",
            Types::Token => "a token",
            Types::ByteSequence => "a byte sequence",
            Types::StringOrToken => "a string or a token",
            Types::TokenOrByteSequence => "a token or a byte sequence",
        }
    }
}

/// A part of a field.
#[derive(Clone, Copy)]
pub enum Part {
    /// Each member of a list or a dictionary is such an item.
    Members,
    /// Each member is an inner list of such items.
    InnerItems,
    /// The member with this key is such an item.
    Member(&'static str),
    /// The parameter with this key, of each member.
    Parameter(&'static str),
}

/// The types of a part of a field.
#[derive(Clone, Copy)]
pub struct Rule {
    /// The name of the field, in lower case.
    pub field: &'static str,
    /// The part.
    pub part: Part,
    /// Its types.
    pub types: Types,
    /// The document that defines the field.
    pub source: &'static str,
}

/// Appends what the part of the field is.
fn append_part(out: &mut String, part: Part) -> Result<(), AllocError>
    ensures { OnOk result (string_bytes out.new ≡ string_bytes out.old ++ part_text part) }
{
    match part {
        Part::Members => out.push_str("a member is "),
        Part::InnerItems => out.push_str("a member is an inner list, and each of its items "),
        Part::Member(key) => {
            out.push_str(key)?;
            out.push_str(" is ")
        }
        Part::Parameter(key) => {
            out.push_str("the parameter ")?;
            out.push_str(key)?;
            out.push_str(" is ")
        }
    }
}

/// Appends what the rule says: the part, its types and the document.
///
/// # Errors
///
/// Returns `AllocError` if memory runs out. A part may then be appended.
pub fn append_rule(out: &mut String, rule: &Rule) -> Result<(), AllocError>
    ensures { OnOk result (string_bytes out.new ≡ string_bytes out.old ++ rule_text rule.now) }
{
    append_part(out, rule.part)?;
    out.push_str(rule.types.name())?;
    out.push_str(" (")?;
    out.push_str(rule.source)?;
    out.push(')')
}

fn row(field: &'static str, part: Part, types: Types, source: &'static str) -> Rule {
    Rule {
        field,
        part,
        types,
        source,
    }
}

/// Returns the rules of all fields.
pub fn rules() -> [Rule; 28] {
    [
        row(
            "accept-ch",
            Part::Members,
            Types::Token,
            "RFC 8942, section 3.1",
        ),
        row(
            "priority",
            Part::Member("i"),
            Types::Boolean,
            "RFC 9218, section 4.2",
        ),
        row(
            "content-digest",
            Part::Members,
            Types::ByteSequence,
            "RFC 9530, section 2",
        ),
        row(
            "repr-digest",
            Part::Members,
            Types::ByteSequence,
            "RFC 9530, section 3",
        ),
        row(
            "cache-status",
            Part::Members,
            Types::StringOrToken,
            "RFC 9211, section 2",
        ),
        row(
            "cache-status",
            Part::Parameter("hit"),
            Types::Boolean,
            "RFC 9211, section 2.1",
        ),
        row(
            "cache-status",
            Part::Parameter("fwd"),
            Types::Token,
            "RFC 9211, section 2.2",
        ),
        row(
            "cache-status",
            Part::Parameter("fwd-status"),
            Types::Integer,
            "RFC 9211, section 2.3",
        ),
        row(
            "cache-status",
            Part::Parameter("ttl"),
            Types::Integer,
            "RFC 9211, section 2.4",
        ),
        row(
            "cache-status",
            Part::Parameter("stored"),
            Types::Boolean,
            "RFC 9211, section 2.5",
        ),
        row(
            "cache-status",
            Part::Parameter("collapsed"),
            Types::Boolean,
            "RFC 9211, section 2.6",
        ),
        row(
            "cache-status",
            Part::Parameter("key"),
            Types::String,
            "RFC 9211, section 2.7",
        ),
        row(
            "proxy-status",
            Part::Members,
            Types::StringOrToken,
            "RFC 9209, section 2",
        ),
        row(
            "proxy-status",
            Part::Parameter("error"),
            Types::Token,
            "RFC 9209, section 2.1.1",
        ),
        row(
            "proxy-status",
            Part::Parameter("next-hop"),
            Types::StringOrToken,
            "RFC 9209, section 2.1.2",
        ),
        row(
            "proxy-status",
            Part::Parameter("next-protocol"),
            Types::TokenOrByteSequence,
            "RFC 9209, section 2.1.3",
        ),
        row(
            "proxy-status",
            Part::Parameter("received-status"),
            Types::Integer,
            "RFC 9209, section 2.1.4",
        ),
        row(
            "proxy-status",
            Part::Parameter("details"),
            Types::String,
            "RFC 9209, section 2.1.5",
        ),
        row(
            "signature",
            Part::Members,
            Types::ByteSequence,
            "RFC 9421, section 4.2",
        ),
        row(
            "signature-input",
            Part::InnerItems,
            Types::String,
            "RFC 9421, sections 2 and 4.1",
        ),
        row(
            "signature-input",
            Part::Parameter("created"),
            Types::Integer,
            "RFC 9421, section 2.3",
        ),
        row(
            "signature-input",
            Part::Parameter("expires"),
            Types::Integer,
            "RFC 9421, section 2.3",
        ),
        row(
            "signature-input",
            Part::Parameter("nonce"),
            Types::String,
            "RFC 9421, section 2.3",
        ),
        row(
            "signature-input",
            Part::Parameter("alg"),
            Types::String,
            "RFC 9421, section 2.3",
        ),
        row(
            "signature-input",
            Part::Parameter("keyid"),
            Types::String,
            "RFC 9421, section 2.3",
        ),
        row(
            "signature-input",
            Part::Parameter("tag"),
            Types::String,
            "RFC 9421, section 2.3",
        ),
        row(
            "want-content-digest",
            Part::Members,
            Types::Integer,
            "RFC 9530, section 4",
        ),
        row(
            "want-repr-digest",
            Part::Members,
            Types::Integer,
            "RFC 9530, section 4",
        ),
    ]
}
