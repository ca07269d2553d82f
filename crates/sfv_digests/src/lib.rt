//! Verification of a content by the digests of its fields Content-Digest and Repr-Digest (RFC 9530).
#![tactic(auto)]

mod comparing;

ghost use Rattle.std.specs.Prelude.{◌≡◌, IfOk, IfErr};
ghost use Rattle.sfv_readers.specs.Field.{Rfc9651, dictionary_field, IsParseError, ErrorNeedsMark};
ghost use Rattle.sfv_headers.specs.Fields.{IsReadError};
ghost use Rattle.sfv_http_fields.specs.LastDigests.{held_value};
ghost use Rattle.sfv_http_fields.specs.Needs.{NeedsMarkIn};
ghost use Rattle.sfv_digests.specs.Verifying.{name_of, IsVerification, IsVerified, IsVerifiedIn};

use comparing::{Comparison, compare};
use http_header::HeaderMap;
use sfv::Error;
use sfv_headers::field_text;
pub use sfv_http_fields::content_digest::Algorithm;
use sfv_http_fields::content_digest::{LastMembers, read_members};
use std::alloc::Global;

/// The result of verifying a content.
#[derive(Clone, Copy, Debug, PartialEq, Eq)]
pub enum Verification {
    /// The last member of each known algorithm is the digest of the content, and there is one.
    Matches,
    /// The last member of this algorithm is not the digest of the content. If both differ, this is SHA-256.
    Differs(Algorithm),
    /// The field has no member of a known algorithm.
    NoKnownAlgorithm,
    /// There is no field.
    NoField,
}

/// A field with digests.
#[derive(Clone, Copy, Debug, PartialEq, Eq)]
pub enum DigestField {
    /// Content-Digest: of the content of a message (RFC 9530, section 2).
    ContentDigest,
    /// Repr-Digest: of a representation (RFC 9530, section 3).
    ReprDigest,
}

impl DigestField {
    /// Returns the name of the field, in lower case.
    pub fn name(self) -> &'static str
        ensures { result.now ≡ name_of self }
    {
        match self {
            DigestField::ContentDigest => "content-digest",
            DigestField::ReprDigest => "repr-digest",
        }
    }
}

// Verifies the digests of a content.
fn verify_members(members: &LastMembers, content: &[u8]) -> Verification
    ensures { IsVerification content.now (held_value members.now) result }
{
    let sha_256 = compare(Algorithm::Sha256, &members.sha_256, content);
    let sha_512 = compare(Algorithm::Sha512, &members.sha_512, content);
    match (sha_256, sha_512) {
        (Comparison::Different, _) => Verification::Differs(Algorithm::Sha256),
        (_, Comparison::Different) => Verification::Differs(Algorithm::Sha512),
        (Comparison::Absent, Comparison::Absent) => Verification::NoKnownAlgorithm,
        _ => Verification::Matches,
    }
}

/// Verifies a content by the text of a field with digests (RFC 9530, sections 2 and 3). For a repeated algorithm, the
/// last digest counts. Ignores parameters and other algorithms.
///
/// A member of a known algorithm that is not a byte sequence differs. Never returns `NoField`.
///
/// # Errors
///
/// Returns the error of `Parser::parse` if the text is not a dictionary, or if memory runs out. Memory runs out only if
/// the text contains a backslash, a percent sign or a colon.
pub fn verify_digest(alloc: Global, text: &[u8], content: &[u8]) -> Result<Verification, Error>
    ensures verified { IfOk result (IsVerified content.now text.now) }
    ensures rejected { IfErr result (IsParseError Rfc9651 dictionary_field text.now) }
    ensures memory { IfErr result (ErrorNeedsMark text.now) }
{
    let members = read_members(alloc, text)?;
    Ok(verify_members(&members, content))
}

/// Verifies a content by a field of a header map, as `verify_digest` does. Returns `NoField` if the map lacks the field.
///
/// # Errors
///
/// Returns the error of `Parser::parse` if the lines of the field, joined by a comma and a space, are not a dictionary,
/// or if memory runs out. Memory runs out only if the field has two lines, or contains a backslash, a percent sign or a
/// colon.
#[tactic(auto, using(sfv_headers::proofs::ReadErrors::joining_fails))]
pub fn verify_digest_in(
    alloc: Global,
    headers: &HeaderMap,
    field: DigestField,
    content: &[u8],
) -> Result<Verification, Error>
    ensures verified { IfOk result (IsVerifiedIn content.now headers.now (name_of field)) }
    ensures rejected { IfErr result (IsReadError Rfc9651 dictionary_field headers.now (name_of field)) }
    ensures memory { IfErr result (NeedsMarkIn headers.now (name_of field)) }
{
    match field_text(alloc, headers, field.name())? {
        Some(text) => verify_digest(alloc, text.as_slice(), content),
        None => Ok(Verification::NoField),
    }
}
