//! The values of fields (RFC 9421, section 2.1).

ghost use Rattle.std.specs.Prelude.{◌≡◌, Ok, codes};
ghost use Rattle.std.specs.Char.{is_ascii_uppercase};
ghost use Rattle.std.specs.List.{list_any};
ghost use Rattle.sfv.specs.CheckedTexts.{text_of};
ghost use Rattle.sfv.specs.Trees.{pairs_tree};
ghost use Rattle.sfv.specs.Errors.{index_of};
ghost use Rattle.sfv.specs.Canonical.{canonical};
ghost use Rattle.sfv.specs.Types.{dictionary_field};
ghost use Rattle.http_header.specs.Token.{lowercase};
ghost use Rattle.sfv_headers.specs.Lines.{lines_in};
ghost use Rattle.sfv_signatures.specs.HttpMessages.{ParsedGives, FieldGives, LinesGive, member_of, type_in, has, string_param};
ghost use Rattle.sfv_signatures.specs.ParseFaults.{parse_fault};
ghost use Rattle.sfv_signatures.specs.Components.{AppendsValue, lines_from};
ghost use Rattle.sfv_signatures.specs.declared.base_error.BaseErrorKind.TheVariants as kinds;

use crate::base_error::BaseErrorKind;
use crate::lines::{append_byte_text, append_plain_text, plain_text};
use crate::parameters::{has, string_param};
use crate::rows::type_in;
use http_header::HeaderMap;
use sfv::{
    Dictionary, Error, FieldKind, FieldType, Item, KeyRef, List, Parameters, Parser, StringRef,
    Version, append_member, find_entry, key_ref,
};
use std::alloc::Global;

// Returns the rule that a field does not parse, for a syntax error, and otherwise out of memory.
fn parse_fault(error: Error) -> BaseErrorKind
    ensures { result ≡ parse_fault (index_of error) }
{
    match error.index() {
        Some(_) => BaseErrorKind::Unparsed,
        None => BaseErrorKind::OutOfMemory,
    }
}

// Appends the canonical text of a field.
fn append_canonical<T: FieldType>(
    alloc: Global,
    text: &[u8],
    base: &mut String,
) -> Result<(), BaseErrorKind>
    ensures { AppendsValue (ParsedGives T.kind (λ value. Ok (canonical T.kind value)) text.now)
        base.old base.new result }
{
    let field = match Parser::new(text).parse::<T>(alloc) {
        Ok(field) => field,
        Err(error) => return Err(parse_fault(error)),
    };
    field.append_to(Version::Rfc9651, base)?;
    Ok(())
}

// Appends the canonical text of a field of this type.
fn append_strict(
    alloc: Global,
    kind: FieldKind,
    text: &[u8],
    base: &mut String,
) -> Result<(), BaseErrorKind>
    ensures { AppendsValue (ParsedGives kind (λ value. Ok (canonical kind value)) text.now)
        base.old base.new result }
{
    match kind {
        FieldKind::Item => append_canonical::<Item>(alloc, text, base),
        FieldKind::List => append_canonical::<List>(alloc, text, base),
        FieldKind::Dictionary => append_canonical::<Dictionary>(alloc, text, base),
    }
}

// Appends the canonical text of the member of a dictionary.
fn append_dictionary_member(
    alloc: Global,
    key: StringRef<'_>,
    text: &[u8],
    base: &mut String,
) -> Result<(), BaseErrorKind>
    ensures { AppendsValue (ParsedGives dictionary_field (member_of (text_of key.entry)) text.now)
        base.old base.new result }
{
    let dictionary = match Parser::new(text).parse::<Dictionary>(alloc) {
        Ok(dictionary) => dictionary,
        Err(error) => return Err(parse_fault(error)),
    };
    let Ok(key) = KeyRef::from_str(key.as_str()) else {
        return Err(BaseErrorKind::NoMember);
    };
    let Some(member) = find_entry(&dictionary, key) else {
        return Err(BaseErrorKind::NoMember);
    };
    append_member(Version::Rfc9651, member, base)?;
    Ok(())
}

// Appends the value of a field, which has a line, for these parameters.
fn append_lines(
    alloc: Global,
    types: &[(&str, FieldKind)],
    name: &str,
    params: &Parameters,
    fields: &HeaderMap,
    base: &mut String,
) -> Result<(), BaseErrorKind>
    ensures { AppendsValue (FieldGives (has (codes "bs") (pairs_tree params.now.entries))
        (string_param (codes "key") (pairs_tree params.now.entries)) (has (codes "sf") (pairs_tree params.now.entries))
        (type_in types.now name.now) (lines_in fields.now (lowercase name.now)))
        base.old base.new result }
{
    if has(params, key_ref("bs")) {
        return append_byte_text(name, fields, base);
    }
    if let Some(key) = string_param(params, key_ref("key")) {
        let text = plain_text(alloc, name, fields)?;
        return append_dictionary_member(alloc, key, text.as_slice(), base);
    }
    if !has(params, key_ref("sf")) {
        return append_plain_text(name, fields, base);
    }
    let Some(kind) = type_in(types, name) else {
        return Err(BaseErrorKind::UnknownType);
    };
    let text = plain_text(alloc, name, fields)?;
    append_strict(alloc, kind, text.as_slice(), base)
}

// Returns `true` if the name has an upper-case letter.
fn has_upper_case(name: &str) -> bool
    ensures { result ≡ list_any is_ascii_uppercase name.now }
{
    for byte in name.as_bytes() {
        if byte.is_ascii_uppercase() {
            return true;
        }
    }
    false
}

/// Appends the value of a field of a section, for these parameters.
pub(crate) fn append_field(
    alloc: Global,
    types: &[(&str, FieldKind)],
    name: &str,
    params: &Parameters,
    section: Option<&HeaderMap>,
    base: &mut String,
) -> Result<(), BaseErrorKind>
    ensures { AppendsValue
        (LinesGive (pairs_tree params.now.entries) (type_in types.now name.now) (lines_from name.now section.entry))
        base.old base.new result }
{
    let Some(fields) = section else {
        return Err(BaseErrorKind::Absent);
    };
    if has_upper_case(name) {
        return Err(BaseErrorKind::Absent);
    }
    let Some(_) = fields.get(name) else {
        return Err(BaseErrorKind::Absent);
    };
    append_lines(alloc, types, name, params, fields, base)
}
