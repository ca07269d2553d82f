//! Parsing, and writing of the canonical text.

use crate::digest::Digest;
use crate::fields::Field;
use sfv::{
    Dictionary, Error, FieldKind, FieldType, HashSeed, Item, List, Parser, SerializeError, Version,
};
use std::alloc::Global;

fn rewrite_as<T: FieldType>(
    alloc: Global,
    parser: Parser<'_>,
    digest: &mut Digest,
) -> Result<(), Error> {
    let text: Option<String> = parser.parse::<T>(alloc)?.serialize(alloc)?.into();
    digest.text(text.as_ref().map(|text| text.as_str()));
    Ok(())
}

// The same, for the older version.
fn rewrite_older_as<T: FieldType>(
    alloc: Global,
    parser: Parser<'_>,
    digest: &mut Digest,
) -> Result<(), Error> {
    match parser
        .parse::<T>(alloc)?
        .serialize_for(alloc, Version::Rfc8941)
    {
        Ok(text) => {
            let text: Option<String> = text.into();
            digest.text(text.as_ref().map(|text| text.as_str()));
        }
        Err(SerializeError::OutOfMemory) => digest.number(1),
        Err(SerializeError::Unsupported(_)) => digest.number(2),
    }
    Ok(())
}

/// Parses a field under RFC 9651, and adds its canonical text.
pub fn rewrite(
    alloc: Global,
    seed: HashSeed,
    field: &Field,
    digest: &mut Digest,
) -> Result<(), Error> {
    let parser = Parser::new(&field.text).with_hash_seed(seed);
    match field.kind {
        FieldKind::Item => rewrite_as::<Item>(alloc, parser, digest),
        FieldKind::List => rewrite_as::<List>(alloc, parser, digest),
        FieldKind::Dictionary => rewrite_as::<Dictionary>(alloc, parser, digest),
    }
}

/// Parses a field under RFC 9651, and adds its canonical text under RFC 8941, or that it has none.
pub fn rewrite_older(
    alloc: Global,
    seed: HashSeed,
    field: &Field,
    digest: &mut Digest,
) -> Result<(), Error> {
    let parser = Parser::new(&field.text).with_hash_seed(seed);
    match field.kind {
        FieldKind::Item => rewrite_older_as::<Item>(alloc, parser, digest),
        FieldKind::List => rewrite_older_as::<List>(alloc, parser, digest),
        FieldKind::Dictionary => rewrite_older_as::<Dictionary>(alloc, parser, digest),
    }
}
