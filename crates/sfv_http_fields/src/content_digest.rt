//! The Content-Digest field: digests of a content, by hash algorithm (RFC 9530, section 2).
//!
//! The field is a dictionary with a byte sequence for each algorithm. The last member of an algorithm has its digest.
//! The contracts of `read`, `write` and `reread` follow from the library's clauses by `proofs/Digests.antt`. `read`
//! uses a `DictionaryReader`, and moves the bytes into the result.

ghost use Rattle.std.specs.Prelude.{◌≡◌, ◌≢◌, ◌↔◌, [], None, IfOk, IfErr, IfSome, OnOk, OnErr, string_bytes};
ghost use Rattle.sfv.specs.Types.{dictionary_field};
ghost use Rattle.sfv.specs.Written.{IsSerialized};
ghost use Rattle.sfv.specs.Errors.{out_of_memory};
ghost use Rattle.sfv.specs.CheckedTexts.{text_of};
ghost use Rattle.sfv.specs.Trees.{member_tree, dictionary_tree};
ghost use Rattle.sfv_http_fields.specs.ContentDigests.{digest_bytes, digests_in, no_digests, HasDigests};
ghost use Rattle.sfv_http_fields.specs.ContentDigests.{AreSameDigests, bytes_member, digest_members};
ghost use Rattle.sfv_http_fields.specs.DigestSteps.{entered};
ghost use Rattle.sfv_http_fields.specs.declared.content_digest.DigestError.TheVariants as errors;

mod reading;

pub use reading::{Algorithm, LastMembers, read, read_members};
use sfv::{
    BareItem, Dictionary, Error, FieldType, Item, KeyRef, ListEntry, OutOfMemory, insert_entry,
    key_ref,
};
use std::alloc::Global;

/// The digests of a content, for the two supported algorithms.
#[derive(Debug, Drop)]
pub struct ContentDigest {
    /// The SHA-256 digest.
    pub sha_256: Option<Vec<u8>>,
    /// The SHA-512 digest.
    pub sha_512: Option<Vec<u8>>,
}

/// The error of parsing digests.
#[derive(Debug, Drop)]
pub enum DigestError {
    /// The field is not a dictionary, or memory ran out.
    Field(Error),
    /// The field is a dictionary, but the last member of an algorithm is not a byte sequence.
    WrongType,
}

impl From<Error> for DigestError {
    ghost from_gives = { λ error result. result ≡ errors.Field error };

    fn from(error: Error) -> DigestError {
        DigestError::Field(error)
    }
}

impl From<OutOfMemory> for DigestError {
    ghost from_gives = { λ _ result. result ≡ errors.Field out_of_memory };

    fn from(error: OutOfMemory) -> DigestError {
        DigestError::Field(Error::from(error))
    }
}

// Returns the member for a digest, without parameters. An empty digest needs no memory.
fn member_of(alloc: Global, digest: &[u8]) -> Result<ListEntry, OutOfMemory>
    ensures member { IfOk result (λ member. member_tree member ≡ bytes_member digest.now) }
    ensures out_of_memory { IfErr result (λ _. digest.now ≢ []) }
{
    let mut copy = Vec::with_capacity(alloc, digest.len())?;
    copy.extend_from_slice(digest)?;
    Ok(ListEntry::from(Item::new(alloc, BareItem::from(copy))))
}

// Inserts a digest under the key of its algorithm, if there is one.
fn put(
    alloc: Global,
    dictionary: &mut Dictionary,
    algorithm: KeyRef<'_>,
    digest: &Option<Vec<u8>>,
) -> Result<(), OutOfMemory>
    ensures members { OnOk result (dictionary_tree dictionary.new.entries
        ≡ entered (dictionary_tree dictionary.old.entries) (text_of algorithm.entry) (digest_bytes digest.now)) }
    ensures out_of_memory { OnErr result (digest.now ≢ None) }
{
    if let Some(bytes) = digest {
        let member = member_of(alloc, bytes.as_slice())?;
        let key = algorithm.to_owned(alloc)?;
        insert_entry(dictionary, key, member)?;
    }
    Ok(())
}

// Converts digests to a dictionary, with SHA-256 first.
fn dictionary_of(alloc: Global, digest: &ContentDigest) -> Result<Dictionary, OutOfMemory>
    ensures members { IfOk result (λ dictionary.
        dictionary_tree dictionary.entries ≡ digest_members (digests_in digest.now)) }
    ensures out_of_memory { IfErr result (λ _. digests_in digest.now ≢ no_digests) }
{
    let mut dictionary = sfv::dictionary(alloc);
    put(alloc, &mut dictionary, key_ref("sha-256"), &digest.sha_256)?;
    put(alloc, &mut dictionary, key_ref("sha-512"), &digest.sha_512)?;
    Ok(dictionary)
}

/// Serializes a Content-Digest field (RFC 9530, section 2), with SHA-256 first. Returns `None` if there is no digest.
///
/// # Errors
///
/// Returns `OutOfMemory` if memory runs out. Only a digest needs memory.
pub fn write(alloc: Global, digest: &ContentDigest) -> Result<Option<String>, OutOfMemory>
    ensures text { IfOk result (IsSerialized dictionary_field (digest_members (digests_in digest.now))) }
    ensures read_back { IfOk result (λ text. IfSome text (λ text. HasDigests (string_bytes text) digest.now)) }
    ensures none { IfOk result (λ text. (text ≡ None) ↔ (digests_in digest.now ≡ no_digests)) }
    ensures out_of_memory { IfErr result (λ _. digests_in digest.now ≢ no_digests) }
{
    let dictionary = dictionary_of(alloc, digest)?;
    dictionary.serialize(alloc)
}

/// Serializes digests and parses the text: returns the same digests, or `None` if there is no digest.
///
/// # Errors
///
/// Returns `Field` with the kind `OutOfMemory` if memory runs out. Only a digest needs memory. There is no other error.
pub fn reread(alloc: Global, digest: &ContentDigest) -> Result<Option<ContentDigest>, DigestError>
    ensures same { IfOk result (AreSameDigests digest.now) }
    ensures failed { IfErr result (λ error. error ≡ errors.Field out_of_memory) }
    ensures memory { OnErr result (digests_in digest.now ≢ no_digests) }
{
    let Some(text) = write(alloc, digest)? else {
        return Ok(None);
    };
    let again = read(alloc, text.as_bytes())?;
    Ok(Some(again))
}
