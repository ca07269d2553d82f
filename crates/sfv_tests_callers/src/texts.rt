//! Random keys, texts and byte sequences in the fields that the callers of the library read and write.

use crate::content_digest::is_reread;
use crate::proxy_status::comes_back;
use crate::reading::have;
use crate::uses::{hold, is_written};
use sfv::{GenericBareItem, RefBareItem, StringFromInput, Version, key_ref};
use sfv_http_fields::content_digest::ContentDigest;
use sfv_http_fields::proxy_status::reading::Name;
use sfv_random::Random;
use sfv_random::texts::{bytes_of, filled, value_of, written};
use std::alloc::Global;
use std::test::Fail;

/// Fields with a value in the place of each `$`.
const VALUES: &[(&str, &str)] = &[
    ("item", "$;k=$"),
    ("list", "$;k=$, ($;k=$);k=$, ExampleCache;hit=$;key=$"),
    (
        "dict",
        "a=$;k=$, b=($;k=$);k=$, u=$, max-age=$, color=$;strong=$, sha-512=$, k0=1;k0=$",
    ),
];

/// Fields with a key in the place of each `$`.
const KEYS: &[(&str, &str)] = &[
    ("item", "1;$"),
    ("list", "1;$, (1;$);$"),
    ("dict", "$;$, a=(1;$);$"),
];

/// Returns `true` if each caller reads the fields with this text in the place of each `$`.
fn are_read(
    alloc: Global,
    places: &[(&str, &str)],
    text: &str,
    is_older: bool,
) -> Result<bool, Fail> {
    let mut all = true;
    for &(field, place) in places {
        let whole = filled(alloc, place, text)?;
        all &= have(alloc, field, Version::Rfc9651, whole.as_bytes(), None);
        all &= !is_older || have(alloc, field, Version::Rfc8941, whole.as_bytes(), None);
    }
    Ok(all)
}

/// Returns `true` if a proxy of this name, or a digest of these bytes, is written and parses back.
fn is_used(alloc: Global, value: RefBareItem<'_>) -> Result<bool, Fail> {
    Ok(match value {
        GenericBareItem::Token(token) => comes_back(
            alloc,
            &Name::Token(token),
            token.as_str(),
            200,
        ),
        GenericBareItem::String(text) => {
            let name = Name::String(StringFromInput::Borrowed(text));
            comes_back(alloc, &name, text.as_str(), 200)
        }
        GenericBareItem::ByteSequence(bytes) => {
            let digest = ContentDigest {
                sha_256: Some(bytes.to_vec(alloc)?),
                sha_512: Some(bytes.to_vec(alloc)?),
            };
            is_reread(alloc, &digest)
        }
        _ => true,
    })
}

/// Returns `true` if each caller reads and writes values of this kind with random texts.
fn values_hold(alloc: Global, kind: &str) -> Result<bool, Fail> {
    let mut all = true;
    for content in Random::new(1).texts(alloc, kind)?.iter() {
        let bytes = bytes_of(alloc, content.as_str())?;
        let Some(value) = value_of(kind, content.as_str(), bytes.as_slice()) else {
            return Ok(false);
        };
        let text = written(alloc, value)?;
        all &= is_used(alloc, value)?;
        all &= are_read(alloc, VALUES, text.as_str(), kind != "display")?;
        all &= hold(alloc, text.as_str(), text.as_str(), key_ref("k")) == Some(true);
    }
    Ok(all)
}

#[test]
fn random_texts_are_read_and_written_by_callers(rt: HostRuntime) -> Result<(), Fail> {
    let alloc = rt.alloc();
    assert!(rt; values_hold(alloc, "token")? & values_hold(alloc, "string")?);
    Ok(())
}

#[test]
fn random_display_strings_are_read_and_written_by_callers(rt: HostRuntime) -> Result<(), Fail> {
    assert!(rt; values_hold(rt.alloc(), "display")?);
    Ok(())
}

#[test]
fn random_bytes_are_read_and_written_by_callers(rt: HostRuntime) -> Result<(), Fail> {
    assert!(rt; values_hold(rt.alloc(), "bytes")?);
    Ok(())
}

#[test]
fn random_keys_are_read_and_written_by_callers(rt: HostRuntime) -> Result<(), Fail> {
    let alloc = rt.alloc();
    let mut all = true;
    for key in Random::new(1).texts(alloc, "key")?.iter() {
        all &= are_read(alloc, KEYS, key.as_str(), true)?;
        all &= is_written(alloc, key.as_str()) == Some(true);
    }
    assert!(rt; all);
    Ok(())
}
