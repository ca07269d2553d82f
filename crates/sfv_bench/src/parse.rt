//! Parsing of fields to trees, with look-ups.

use crate::digest::Digest;
use crate::fields::Field;
use sfv::visitor::{DictionaryBuilder, ListBuilder};
use sfv::{
    BareItem, Dictionary, Error, FieldKind, HashSeed, Item, KeyRef, List, ListEntry, Parameters,
    ParseError, Parser, find_entry, find_param, key_ref,
};
use std::alloc::Global;

// Adds the value of a parameter, if there is one.
fn add_param(digest: &mut Digest, params: &Parameters, key: KeyRef<'_>) {
    if let Some(value) = find_param(params, key) {
        digest.value(value.as_ref_item());
    }
}

// Adds the number of parameters, and the values of some.
fn add_params(digest: &mut Digest, params: &Parameters) {
    digest.number(params.len() as u64);
    if params.is_empty() {
        return;
    }
    add_param(digest, params, key_ref("v"));
    add_param(digest, params, key_ref("ttl"));
    add_param(digest, params, key_ref("created"));
}

// Adds a bare item with its parameters.
fn add_item(digest: &mut Digest, value: &BareItem, params: &Parameters) {
    digest.value(value.as_ref_item());
    add_params(digest, params);
}

/// Adds a member.
pub fn add_member(digest: &mut Digest, member: &ListEntry) {
    match member {
        ListEntry::Item(item) => add_item(digest, &item.bare_item, &item.params),
        ListEntry::InnerList(list) => {
            for item in &list.items {
                add_item(digest, &item.bare_item, &item.params);
            }
            add_params(digest, &list.params);
        }
    }
}

// Adds the member of a key, if there is one.
fn add_entry(digest: &mut Digest, dictionary: &Dictionary, key: KeyRef<'_>) {
    if let Some(member) = find_entry(dictionary, key) {
        add_member(digest, member);
    }
}

// Adds some members of a dictionary.
fn add_dictionary(digest: &mut Digest, dictionary: &Dictionary) {
    digest.number(dictionary.len() as u64);
    add_entry(digest, dictionary, key_ref("u"));
    add_entry(digest, dictionary, key_ref("max-age"));
    add_entry(digest, dictionary, key_ref("sha-256"));
    add_entry(digest, dictionary, key_ref("sig1"));
}

// Adds the members of a list.
fn add_list(digest: &mut Digest, list: &List) {
    for member in list {
        add_member(digest, member);
    }
}

// Parses a list that comes in two lines.
fn two_lists(alloc: Global, seed: HashSeed, field: &mut Field) -> Result<List, Error> {
    let first = Parser::new(&field.text)
        .with_hash_seed(seed)
        .parse::<List>(alloc)?;
    field.change();
    let parser = Parser::new(&field.text).with_hash_seed(seed);
    match parser.parse_list_with_visitor(alloc, ListBuilder::new(first, seed)) {
        Ok(list) => Ok(list),
        Err(ParseError::Syntax(error)) => Err(error),
        Err(ParseError::Visitor(error)) => Err(Error::from(error)),
    }
}

// Parses a dictionary that comes in two lines.
fn two_dictionaries(alloc: Global, seed: HashSeed, field: &mut Field) -> Result<Dictionary, Error> {
    let first = Parser::new(&field.text)
        .with_hash_seed(seed)
        .parse::<Dictionary>(alloc)?;
    field.change();
    let parser = Parser::new(&field.text).with_hash_seed(seed);
    match parser.parse_dictionary_with_visitor(alloc, DictionaryBuilder::new(first)) {
        Ok(dictionary) => Ok(dictionary),
        Err(ParseError::Syntax(error)) => Err(error),
        Err(ParseError::Visitor(error)) => Err(Error::from(error)),
    }
}

/// Parses a field that comes in two lines, and adds its members.
pub fn parse_lines(
    alloc: Global,
    seed: HashSeed,
    field: &mut Field,
    digest: &mut Digest,
) -> Result<(), Error> {
    match field.kind {
        FieldKind::Item => parse(alloc, seed, field, digest)?,
        FieldKind::List => add_list(digest, &two_lists(alloc, seed, field)?),
        FieldKind::Dictionary => add_dictionary(digest, &two_dictionaries(alloc, seed, field)?),
    }
    Ok(())
}

/// Parses a field, and adds its members.
pub fn parse(
    alloc: Global,
    seed: HashSeed,
    field: &Field,
    digest: &mut Digest,
) -> Result<(), Error> {
    let parser = Parser::new(&field.text).with_hash_seed(seed);
    match field.kind {
        FieldKind::Item => {
            let item = parser.parse::<Item>(alloc)?;
            add_item(digest, &item.bare_item, &item.params);
        }
        FieldKind::List => add_list(digest, &parser.parse::<List>(alloc)?),
        FieldKind::Dictionary => add_dictionary(digest, &parser.parse::<Dictionary>(alloc)?),
    }
    Ok(())
}
