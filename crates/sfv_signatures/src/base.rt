//! The signature base (RFC 9421, section 2.5).

ghost use Rattle.std.specs.Prelude.{◌≡◌, ◌<◌, ◌++◌, ◌∷◌, [], IfOk, IfErr, OnOk, MatchResult, Ok, Err, length, map};
ghost use Rattle.std.specs.Prelude.{string_bytes};
ghost use Rattle.std.specs.List.{list_any};
ghost use Rattle.sfv.specs.Canonical.{item_text, inner_list_text};
ghost use Rattle.sfv.specs.Trees.{item_tree, inner_list_tree, pairs_tree};
ghost use Rattle.sfv.specs.Types.{list_field, Rfc9651};
ghost use Rattle.sfv.specs.Values.{inner_list};
ghost use Rattle.sfv.specs.Statements.{IsValue, IsParsedAs};
ghost use Rattle.sfv_signatures.specs.SignatureBase.{params_line, is_line_break, checked, IsBaseOf};
ghost use Rattle.sfv_signatures.specs.Components.{AppendsChecked, AppendsLine, AppendsLineAt, IsBaseError};
ghost use Rattle.sfv_signatures.specs.declared.base_error.BaseErrorKind.TheVariants as kinds;

use crate::base_error::{BaseError, BaseErrorKind};
use crate::components::Components;
use crate::identifier::is_repeated;
use sfv::{FieldType, InnerList, Item, Parameters, Version, append_inner_list};
use std::alloc::Global;

// Returns `true` if there is a line feed or a carriage return.
fn has_line_break(value: &[u8]) -> bool
    ensures { result ≡ list_any is_line_break value.now }
{
    for byte in value {
        if *byte == b'\n' || *byte == b'\r' {
            return true;
        }
    }
    false
}

// Checks that a value may follow in a line.
fn check_value(value: &[u8]) -> Result<(), BaseErrorKind>
    ensures { MatchResult result (λ _. checked (Ok value.now) ≡ Ok value.now)
        (λ kind. checked (Ok value.now) ≡ Err kind) }
{
    if !value.is_ascii() {
        return Err(BaseErrorKind::NotAscii);
    }
    if has_line_break(value) {
        return Err(BaseErrorKind::LineBreak);
    }
    Ok(())
}

// Appends an identifier: its canonical text as an item.
fn append_identifier(identifier: &Item, base: &mut String) -> Result<(), BaseErrorKind>
    ensures text { OnOk result (string_bytes base.new ≡ string_bytes base.old ++ item_text (item_tree identifier.now)) }
    ensures failed { IfErr result (λ kind. kind ≡ kinds.OutOfMemory) }
{
    identifier.append_to(Version::Rfc9651, base)?;
    Ok(())
}

// Appends the value of a component, and checks it.
fn append_checked<M: Components>(
    alloc: Global,
    message: &M,
    name: &str,
    params: &Parameters,
    base: &mut String,
) -> Result<(), BaseErrorKind>
    ensures { AppendsChecked (M.gives message.now name.now (pairs_tree params.now.entries))
        (string_bytes base.old) (string_bytes base.new) result }
{
    let start = base.len();
    message.append_value(alloc, name, params, base)?;
    check_value(&base.as_bytes()[start..])
}

// Appends the line of an identifier with its line feed. `before` are the identifiers before it.
fn append_line<M: Components>(
    alloc: Global,
    message: &M,
    before: &[Item],
    identifier: &Item,
    base: &mut String,
) -> Result<(), BaseErrorKind>
    ensures { AppendsLine (M.gives message.now) (map item_tree before.now) (item_tree identifier.now)
        (string_bytes base.old) (string_bytes base.new) result }
{
    if is_repeated(before, identifier) {
        return Err(BaseErrorKind::Repeated);
    }
    let Some(name) = identifier.bare_item.as_string() else {
        return Err(BaseErrorKind::NotAString);
    };
    let name = name.as_str();
    if name == "@signature-params" {
        return Err(BaseErrorKind::SignatureParams);
    }
    append_identifier(identifier, base)?;
    base.push_str(": ")?;
    append_checked(alloc, message, name, &identifier.params, base)?;
    base.push_str("\n")?;
    Ok(())
}

// Appends the line at an index. An error has this index.
fn append_at<M: Components>(
    alloc: Global,
    list: &InnerList,
    index: usize,
    message: &M,
    base: &mut String,
) -> Result<(), BaseError>
    requires { index < length list.now.items.items }
    ensures line { AppendsLineAt (M.gives message.now) (inner_list_tree list.now) index
        (string_bytes base.old) (string_bytes base.new) result }
    ensures place { IfErr result (λ error. error.index ≡ index) }
{
    let before = &list.items.as_slice()[..index];
    match append_line(alloc, message, before, &list.items[index], base) {
        Ok(()) => Ok(()),
        Err(kind) => Err(BaseError { kind, index }),
    }
}

// Appends the canonical text of an inner list with its parameters. The text parses back to the list.
fn append_list(list: &InnerList, base: &mut String) -> Result<(), BaseErrorKind>
    ensures text { OnOk result (string_bytes base.new
        ≡ string_bytes base.old ++ inner_list_text (inner_list_tree list.now)) }
    ensures read_back { OnOk result (IsParsedAs Rfc9651 list_field (inner_list_text (inner_list_tree list.now))
        (inner_list (inner_list_tree list.now) ∷ [])) }
    ensures failed { IfErr result (λ kind. kind ≡ kinds.OutOfMemory) }
{
    append_inner_list(Version::Rfc9651, list, base)?;
    Ok(())
}

// Appends the last line.
fn append_params(list: &InnerList, base: &mut String) -> Result<(), BaseErrorKind>
    ensures text { OnOk result (string_bytes base.new
        ≡ string_bytes base.old ++ params_line (inner_list_tree list.now)) }
    ensures value { OnOk result (IsValue list_field (inner_list (inner_list_tree list.now) ∷ [])) }
    ensures failed { IfErr result (λ kind. kind ≡ kinds.OutOfMemory) }
{
    base.push_str("\"@signature-params\": ")?;
    append_list(list, base)?;
    Ok(())
}

/// Returns the signature base of an inner list and a message (RFC 9421, section 2.5).
///
/// For each identifier in order, it has a line with the canonical text of the identifier and the value of the
/// component. The last line is `"@signature-params": ` and the canonical text of the inner list. There is no line feed
/// at the end. The text is ASCII.
///
/// It first allocates 128 bytes, and 128 for each identifier. A longer base allocates again.
///
/// # Errors
///
/// Returns the first rule that an identifier breaks, with the index of the identifier: it is not a string, it is
/// `@signature-params`, an earlier identifier has the same name and parameters in any order, the message has no value
/// for it, or the value has a line break or is not ASCII. Returns `OutOfMemory` if memory runs out.
pub fn signature_base<M: Components>(
    alloc: Global,
    list: &InnerList,
    message: &M,
) -> Result<String, BaseError>
    ensures base { IfOk result (λ text. IsBaseOf (M.gives message.now) (inner_list_tree list.now) (string_bytes text)) }
    ensures failed { IfErr result (IsBaseError (M.gives message.now) (inner_list_tree list.now)) }
{
    let len = list.items.len();
    let room = len.saturating_add(1).saturating_mul(128);
    let Ok(mut base) = String::with_capacity(alloc, room) else {
        return Err(BaseError {
            kind: BaseErrorKind::OutOfMemory,
            index: 0,
        });
    };
    for index in 0..len {
        append_at(alloc, list, index, message, &mut base)?;
    }
    match append_params(list, &mut base) {
        Ok(()) => Ok(base),
        Err(kind) => Err(BaseError { kind, index: len }),
    }
}
