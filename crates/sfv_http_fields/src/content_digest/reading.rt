//! Parsing of the Content-Digest field without a tree.

ghost use Rattle.std.specs.Prelude.{◌≡◌, None, Some, IfOk, IfErr, option_map};
ghost use Rattle.sfv_readers.specs.Field.{Rfc9651, dictionary_field, input_value, IsParseError, ErrorNeedsMark};
ghost use Rattle.sfv_http_fields.specs.ContentDigests.{bare_bytes, digest_bytes, HasDigests, IsDigestError};
ghost use Rattle.sfv_http_fields.specs.ContentDigests.{NeedsMarkFor, ReturnsDigests};
ghost use Rattle.sfv_http_fields.specs.LastDigests.{held_in, held_value, HoldsMembers};
ghost use Rattle.sfv_http_fields.specs.DigestSteps.{GivesDigests};
ghost use Rattle.sfv_http_fields.specs.declared.content_digest.DigestError.TheVariants as errors;

use crate::content_digest::{ContentDigest, DigestError};
use sfv::{BareItemFromInput, Error, GenericBareItem, KeyRef, Version};
use sfv_readers::{DictionaryReader, IgnoredItems, read_dictionary};
use std::alloc::Global;

/// A supported algorithm.
#[derive(Clone, Copy, Debug, PartialEq, Eq)]
pub enum Algorithm {
    /// SHA-256.
    Sha256,
    /// SHA-512.
    Sha512,
}

/// The last member of each supported algorithm: its bytes, or `Some(None)` if it is not a byte sequence.
#[derive(Debug, Drop)]
pub struct LastMembers {
    /// The member of SHA-256.
    pub sha_256: Option<Option<Vec<u8>>>,
    /// The member of SHA-512.
    pub sha_512: Option<Option<Vec<u8>>>,
}

// Returns the bytes of a bare item, or `None` if it is not a byte sequence.
fn bytes_of(item: BareItemFromInput<'_>) -> Option<Vec<u8>>
    ensures { digest_bytes result ≡ bare_bytes (input_value item.entry) }
{
    match item {
        GenericBareItem::ByteSequence(bytes) => Some(bytes),
        _ => None,
    }
}

#[tactic(auto, using(sfv_readers::proofs::Puts::last_of_put))]
impl<'de> DictionaryReader<'de> for LastMembers {
    ghost use Rattle.sfv_http_fields.specs.DigestSteps.{key_of};
    ghost use Rattle.sfv_http_fields.specs.LastDigests.{held_of};

    type Key = Algorithm;

    type Items = IgnoredItems;

    ghost text = { λ _. key_of };

    ghost reads = { λ _ found members. held_value found ≡ held_of members };

    fn key(&self, key: KeyRef<'de>) -> Option<Algorithm> {
        if key.as_str() == "sha-256" {
            Some(Algorithm::Sha256)
        } else if key.as_str() == "sha-512" {
            Some(Algorithm::Sha512)
        } else {
            None
        }
    }

    fn item(&mut self, key: Algorithm, item: BareItemFromInput<'de>) {
        let bytes = bytes_of(item);
        match key {
            Algorithm::Sha256 => self.sha_256 = Some(bytes),
            Algorithm::Sha512 => self.sha_512 = Some(bytes),
        }
    }

    fn inner_list(&mut self, key: Algorithm, _items: IgnoredItems) {
        match key {
            Algorithm::Sha256 => self.sha_256 = Some(None),
            Algorithm::Sha512 => self.sha_512 = Some(None),
        }
    }

    fn parameter(&mut self, _key: Algorithm, _name: KeyRef<'de>, _value: BareItemFromInput<'de>) {}
}

// Returns the digest of an algorithm's last member, if there is one.
fn digest_of(member: Option<Option<Vec<u8>>>) -> Result<Option<Vec<u8>>, DigestError>
    ensures digest { IfOk result (λ digest. held_in member ≡ option_map Some (digest_bytes digest)) }
    ensures wrong { IfErr result (λ e. (e ≡ errors.WrongType) × (held_in member ≡ Some None)) }
{
    match member {
        None => Ok(None),
        Some(Some(bytes)) => Ok(Some(bytes)),
        Some(None) => Err(DigestError::WrongType),
    }
}

// Returns the digests of the last members. The only error is a member that is not a byte sequence.
fn digests_of(members: LastMembers) -> Result<ContentDigest, DigestError>
    ensures { GivesDigests (held_value members) result }
{
    let LastMembers { sha_256, sha_512 } = members;
    let sha_256 = digest_of(sha_256)?;
    let sha_512 = digest_of(sha_512)?;
    Ok(ContentDigest { sha_256, sha_512 })
}

/// Parses the last members of a Content-Digest or Repr-Digest field (RFC 9530, sections 2 and 3). Ignores parameters and
/// other algorithms.
///
/// No dictionary is built. Only texts with escapes, and byte sequences, are allocated from `alloc`.
///
/// # Errors
///
/// Returns the error of `Parser::parse` if the input is not a dictionary, or if memory runs out. Memory runs out only if
/// the input contains a backslash, a percent sign or a colon.
#[tactic(auto, using(sfv_readers::proofs::Memory::mark_needed), unfolding(sfv_readers::specs::Field::last_of))]
pub fn read_members(alloc: Global, input: &[u8]) -> Result<LastMembers, Error>
    ensures read { IfOk result (HoldsMembers input.now) }
    ensures rejected { IfErr result (IsParseError Rfc9651 dictionary_field input.now) }
    ensures memory { IfErr result (ErrorNeedsMark input.now) }
{
    let none = LastMembers {
        sha_256: None,
        sha_512: None,
    };
    read_dictionary(alloc, input, Version::Rfc9651, none)
}

/// Parses a Content-Digest field (RFC 9530, section 2). For a repeated algorithm, the last digest counts. Ignores
/// parameters and other algorithms.
///
/// No dictionary is built. Only texts with escapes, and byte sequences, are allocated from `alloc`.
///
/// # Errors
///
/// Returns `Field` with the error of `Parser::parse` if the input is not a dictionary, or if memory runs out. Memory runs
/// out only if the input contains a backslash, a percent sign or a colon. Returns `WrongType` if it is a dictionary, but
/// the last member of an algorithm is not a byte sequence.
#[tactic(auto, using(crate::proofs::Digests::reading))]
pub fn read(alloc: Global, input: &[u8]) -> Result<ContentDigest, DigestError>
    ensures read { IfOk result (HasDigests input.now) }
    ensures failed { IfErr result (IsDigestError input.now) }
    ensures memory { IfErr result (NeedsMarkFor input.now) }
    ensures returned { ReturnsDigests input.now result }
{
    let members = read_members(alloc, input)?;
    digests_of(members)
}
