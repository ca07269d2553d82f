//! Names and parameters of component identifiers (RFC 9421, sections 2.1 to 2.4).

ghost use Rattle.std.specs.Prelude.{◌≡◌, ◌||◌, option_map, slice_get, bytes_eq};
ghost use Rattle.std.specs.List.{list_any, filter_map};
ghost use Rattle.sfv.specs.BareItems.{bare_value};
ghost use Rattle.sfv.specs.CheckedTexts.{text_of};
ghost use Rattle.sfv.specs.Trees.{pairs_tree};
ghost use Rattle.sfv_signatures.specs.HttpMessages.{has, string_of, string_param, is_derived, derived_names, keys_of};
ghost use Rattle.sfv_signatures.specs.HttpMessages.{has_type, param_fault, fault_of};

use crate::base_error::BaseErrorKind;
use sfv::{BareItem, Key, KeyRef, Parameters, StringRef, find_param, key_ref};

/// Returns `true` if there is a parameter with this key.
pub(crate) fn has(params: &Parameters, key: KeyRef<'_>) -> bool
    ensures { result ≡ has (text_of key.entry) (pairs_tree params.now.entries) }
{
    find_param(params, key).is_some()
}

/// Returns the string of the parameter with this key, or `None`.
pub(crate) fn string_param<'a>(params: &'a Parameters, key: KeyRef<'_>) -> Option<StringRef<'a>>
    ensures { option_map (λ s. text_of s) result ≡ string_param (text_of key.entry) (pairs_tree params.now.entries) }
{
    match find_param(params, key) {
        Some(value) => value.as_string(),
        None => None,
    }
}

/// Returns `true` if the name begins with `@`.
pub(crate) fn is_derived(name: &str) -> bool
    ensures { result ≡ is_derived name.now }
{
    match name.as_bytes().first() {
        Some(byte) => *byte == b'@',
        None => false,
    }
}

// Returns `true` if a derived component has this name.
fn is_known(name: &str) -> bool
    ensures { result ≡ list_any (bytes_eq name.now) derived_names }
{
    name == "@method"
        || name == "@target-uri"
        || name == "@authority"
        || name == "@scheme"
        || name == "@request-target"
        || name == "@path"
        || name == "@query"
        || name == "@query-param"
        || name == "@status"
}

// Returns `true` if a component with this name may have a parameter with this key.
fn is_allowed(name: &str, key: &str) -> bool
    ensures { result ≡ list_any (bytes_eq key.now) (keys_of name.now) }
{
    if key == "req" {
        return true;
    }
    if name == "@query-param" {
        return key == "name";
    }
    !is_derived(name) && (key == "sf" || key == "key" || key == "bs" || key == "tr")
}

// Returns `true` if the value is a string, or, for a flag, the boolean true.
fn has_type(is_string: bool, value: &BareItem) -> bool
    ensures { result ≡ has_type is_string (bare_value value.now) }
{
    if is_string {
        value.as_string().is_some()
    } else {
        value.as_boolean() == Some(true)
    }
}

// Returns the rule that a parameter breaks.
fn param_fault(name: &str, key: &Key, value: &BareItem) -> Option<BaseErrorKind>
    ensures { result ≡ param_fault name.now (key.now, bare_value value.now) }
{
    let key = key.as_str();
    if !is_allowed(name, key) {
        return Some(BaseErrorKind::UnknownParameter);
    }
    if !has_type(key == "key" || key == "name", value) {
        return Some(BaseErrorKind::WrongType);
    }
    None
}

// Returns the first rule that a parameter breaks.
fn first_fault(name: &str, params: &Parameters) -> Option<BaseErrorKind>
    ensures { result ≡ slice_get (filter_map (param_fault name.now) (pairs_tree params.now.entries)) 0 }
{
    for (key, value) in params.iter() {
        if let Some(kind) = param_fault(name, key, value) {
            return Some(kind);
        }
    }
    None
}

/// Returns the rule that the name or the parameters of an identifier break, whatever the message.
pub(crate) fn fault_of(name: &str, params: &Parameters) -> Option<BaseErrorKind>
    ensures { result ≡ fault_of name.now (pairs_tree params.now.entries) }
{
    if is_derived(name) && !is_known(name) {
        return Some(BaseErrorKind::UnknownComponent);
    }
    if let Some(kind) = first_fault(name, params) {
        return Some(kind);
    }
    if has(params, key_ref("bs")) && (has(params, key_ref("sf")) || has(params, key_ref("key"))) {
        return Some(BaseErrorKind::Conflict);
    }
    None
}
