//! Comparison of a member with the digest of a content.

ghost use Rattle.std.specs.Prelude.{◌≡◌, bytes_eq};
ghost use Rattle.sfv_http_fields.specs.LastDigests.{held_in};
ghost use Rattle.sfv_digests.specs.Steps.{digest_by, IsComparison};

use sfv_http_fields::content_digest::Algorithm;
use sha2::{Digest, Sha256, Sha512};

// How the last member of an algorithm compares with the digest of the content.
#[derive(Clone, Copy, Debug)]
pub(crate) enum Comparison {
    Absent,
    Same,
    Different,
}

// Returns `true` if the bytes are equal. Compares all bytes of slices of one length, so the time does not depend on the
// first difference. No contract can say this.
fn is_equal(bytes: &[u8], digest: &[u8]) -> bool
    ensures { result ≡ bytes_eq bytes.now digest.now }
{
    if bytes.len() != digest.len() {
        return false;
    }
    let mut equal = true;
    for (byte, expected) in bytes.iter().zip(digest) {
        equal &= byte == expected;
    }
    equal
}

// Returns `true` if the bytes are the digest of the content.
fn is_digest(algorithm: Algorithm, bytes: &[u8], content: &[u8]) -> bool
    ensures { result ≡ bytes_eq bytes.now (digest_by algorithm content.now) }
{
    match algorithm {
        Algorithm::Sha256 => is_equal(bytes, &Sha256::digest(content)),
        Algorithm::Sha512 => is_equal(bytes, &Sha512::digest(content)),
    }
}

// Compares the last member of an algorithm with the digest of the content.
pub(crate) fn compare(
    algorithm: Algorithm,
    member: &Option<Option<Vec<u8>>>,
    content: &[u8],
) -> Comparison
    ensures { IsComparison (digest_by algorithm content.now) (held_in member.now) result }
{
    match member {
        None => Comparison::Absent,
        Some(Some(bytes)) if is_digest(algorithm, bytes.as_slice(), content) => Comparison::Same,
        Some(_) => Comparison::Different,
    }
}
