//! The fields Signature-Input and Signature (RFC 9421, sections 4.1 and 4.2): dictionaries with the same labels.

ghost use Rattle.std.specs.Prelude.{◌≡◌, Some, IfOk, IfErr, MatchResult};
ghost use Rattle.sfv.specs.CheckedTexts.{text_of};
ghost use Rattle.sfv.specs.NumberValues.{integer_of};
ghost use Rattle.sfv.specs.Ordered.{last_of};
ghost use Rattle.sfv.specs.Trees.{dictionary_tree, inner_list_tree, pairs_tree};
ghost use Rattle.sfv.specs.Values.{integer, string, inner_list};
ghost use Rattle.sfv_signatures.specs.SignatureFields.{is_integer, is_string, IsInputOf, IsInputError, IsSignature};
ghost use Rattle.sfv_signatures.specs.SignatureFields.{IsSignatureError};
ghost use Rattle.sfv_signatures.specs.Parts.{IsTypedPart, IsWrongType};

use sfv::{
    Dictionary, InnerList, Integer, KeyRef, ListEntry, Parameters, StringRef, find_entry,
    find_param, key_ref,
};

/// A parameter of a signature (RFC 9421, section 2.3).
#[derive(Clone, Copy, Debug, PartialEq, Eq)]
pub enum SignatureParam {
    /// `created`, an integer.
    Created,
    /// `expires`, an integer.
    Expires,
    /// `nonce`, a string.
    Nonce,
    /// `alg`, a string.
    Alg,
    /// `keyid`, a string.
    Keyid,
    /// `tag`, a string.
    Tag,
}

/// The error of a look-up by label.
#[derive(Clone, Copy, Debug, PartialEq, Eq)]
pub enum SignatureError {
    /// The dictionary has no member of this label.
    UnknownLabel,
    /// The member has another type.
    WrongMember,
    /// The parameter has another type.
    WrongType(SignatureParam),
}

/// A member of a Signature-Input field.
#[derive(Clone, Copy)]
pub struct SignatureInput<'a> {
    /// The component identifiers in order, with all parameters: the inner list for `signature_base`.
    pub list: &'a InnerList,
    /// When the signature was created, in seconds from the Unix epoch.
    pub created: Option<Integer>,
    /// When the signature expires, in seconds from the Unix epoch.
    pub expires: Option<Integer>,
    /// A random text.
    pub nonce: Option<StringRef<'a>>,
    /// The algorithm.
    pub alg: Option<StringRef<'a>>,
    /// The identifier of the key.
    pub keyid: Option<StringRef<'a>>,
    /// The application.
    pub tag: Option<StringRef<'a>>,
}

// Returns the integer of a parameter, `None` without the parameter, or the error for another type.
fn integer_param(
    params: &Parameters,
    key: KeyRef<'_>,
    name: SignatureParam,
) -> Result<Option<Integer>, SignatureError>
    ensures { MatchResult result
        (IsTypedPart integer integer_of is_integer (last_of (text_of key.entry) (pairs_tree params.now.entries)))
        (IsWrongType name is_integer (last_of (text_of key.entry) (pairs_tree params.now.entries))) }
{
    let Some(value) = find_param(params, key) else {
        return Ok(None);
    };
    match value.as_integer() {
        Some(integer) => Ok(Some(integer)),
        None => Err(SignatureError::WrongType(name)),
    }
}

// Returns the string of a parameter, `None` without the parameter, or the error for another type.
fn string_param<'a>(
    params: &'a Parameters,
    key: KeyRef<'_>,
    name: SignatureParam,
) -> Result<Option<StringRef<'a>>, SignatureError>
    ensures { MatchResult result
        (IsTypedPart string (λ s. text_of s) is_string (last_of (text_of key.entry) (pairs_tree params.now.entries)))
        (IsWrongType name is_string (last_of (text_of key.entry) (pairs_tree params.now.entries))) }
{
    let Some(value) = find_param(params, key) else {
        return Ok(None);
    };
    match value.as_string() {
        Some(text) => Ok(Some(text)),
        None => Err(SignatureError::WrongType(name)),
    }
}

// Returns the inner list of a label.
fn list_of<'a>(inputs: &'a Dictionary, label: KeyRef<'_>) -> Result<&'a InnerList, SignatureError>
    ensures { MatchResult result
        (λ list. last_of (text_of label.entry) (dictionary_tree inputs.now.entries)
        ≡ Some (inner_list (inner_list_tree list.now)))
        (IsInputError (last_of (text_of label.entry) (dictionary_tree inputs.now.entries))) }
{
    match find_entry(inputs, label) {
        Some(ListEntry::InnerList(list)) => Ok(list),
        Some(ListEntry::Item(_)) => Err(SignatureError::WrongMember),
        None => Err(SignatureError::UnknownLabel),
    }
}

/// Returns the member of a label in a Signature-Input field (RFC 9421, section 4.1), with the six parameters of section
/// 2.3. Other parameters are in `list`.
///
/// # Errors
///
/// Returns `UnknownLabel` if there is no such member, `WrongMember` if it is an item, and `WrongType` with the first of
/// the six parameters that has another type, in the order of the fields of `SignatureInput`.
pub fn signature_input<'a>(
    inputs: &'a Dictionary,
    label: KeyRef<'_>,
) -> Result<SignatureInput<'a>, SignatureError>
    ensures read { IfOk result (IsInputOf (text_of label.entry) (dictionary_tree inputs.now.entries)) }
    ensures failed { IfErr result (IsInputError (last_of (text_of label.entry) (dictionary_tree inputs.now.entries))) }
{
    let list = list_of(inputs, label)?;
    let params = &list.params;
    Ok(SignatureInput {
        list,
        created: integer_param(params, key_ref("created"), SignatureParam::Created)?,
        expires: integer_param(params, key_ref("expires"), SignatureParam::Expires)?,
        nonce: string_param(params, key_ref("nonce"), SignatureParam::Nonce)?,
        alg: string_param(params, key_ref("alg"), SignatureParam::Alg)?,
        keyid: string_param(params, key_ref("keyid"), SignatureParam::Keyid)?,
        tag: string_param(params, key_ref("tag"), SignatureParam::Tag)?,
    })
}

/// Returns the bytes of the signature of a label in a Signature field (RFC 9421, section 4.2).
///
/// # Errors
///
/// Returns `UnknownLabel` if there is no such member, and `WrongMember` if it is not a byte sequence.
pub fn signature_bytes<'a>(
    field: &'a Dictionary,
    label: KeyRef<'_>,
) -> Result<&'a [u8], SignatureError>
    ensures read { IfOk result (IsSignature (last_of (text_of label.entry) (dictionary_tree field.now.entries))) }
    ensures failed { IfErr result (IsSignatureError (last_of (text_of label.entry) (dictionary_tree field.now.entries))) }
{
    match find_entry(field, label) {
        Some(ListEntry::Item(item)) => match item.bare_item.as_byte_sequence() {
            Some(bytes) => Ok(bytes),
            None => Err(SignatureError::WrongMember),
        },
        Some(ListEntry::InnerList(_)) => Err(SignatureError::WrongMember),
        None => Err(SignatureError::UnknownLabel),
    }
}
