//! Fields that are rejected.

use crate::digest::Digest;
use crate::fields::Field;
use sfv::visitor::Ignored;
use sfv::{Dictionary, Error, FieldKind, HashSeed, Item, List, ParseError, Parser};
use sfv_random::Random;
use std::alloc::{AllocError, Global};

// Adds an error, or that there is none.
fn add(error: Option<Error>, digest: &mut Digest) {
    match error {
        Some(error) => digest.error(&error),
        None => digest.number(0),
    }
}

// Puts a byte at an index, or appends it.
fn put(field: &mut Field, index: usize, byte: u8) -> Result<(), AllocError> {
    match field.text.get_mut(index) {
        Some(place) => {
            *place = byte;
            Ok(())
        }
        None => {
            field.text.push(byte)?;
            Ok(())
        }
    }
}

/// Spoils a field after its changing digits: right after them, in the middle of the rest, at its last byte, or after its
/// end. Each such field is rejected, and changes before its error.
pub fn spoil(alloc: Global, random: &mut Random, field: &mut Field) -> Result<(), AllocError> {
    let after = field.after_stamp();
    let length = field.text.len();
    let index = match random.next() % 4 {
        0 => after,
        1 => after / 2 + length / 2,
        2 => length.saturating_sub(1),
        _ => length,
    };
    let index = index.max(after).min(length);
    let byte = match random.next() % 4 {
        0 => b'}',
        1 => 0x7f,
        2 => b'=',
        _ => 0xc3,
    };
    put(field, index, byte)?;
    if error_without_tree(alloc, field).is_none() {
        // A text may contain the byte, and no part of a field contains this one.
        put(field, index, 0x7f)?;
    }
    Ok(())
}

/// Parses a field to a tree, and adds its error.
pub fn reject(alloc: Global, seed: HashSeed, field: &Field, digest: &mut Digest) {
    let parser = Parser::new(&field.text).with_hash_seed(seed);
    let error = match field.kind {
        FieldKind::Item => parser.parse::<Item>(alloc).err(),
        FieldKind::List => parser.parse::<List>(alloc).err(),
        FieldKind::Dictionary => parser.parse::<Dictionary>(alloc).err(),
    };
    add(error, digest);
}

// Returns the error of a field that is parsed without a tree.
fn error_without_tree(alloc: Global, field: &Field) -> Option<Error> {
    let parser = Parser::new(&field.text);
    let checked = match field.kind {
        FieldKind::Item => parser.parse_item_with_visitor(alloc, Ignored),
        FieldKind::List => parser.parse_list_with_visitor(alloc, Ignored),
        FieldKind::Dictionary => parser.parse_dictionary_with_visitor(alloc, Ignored),
    };
    match checked {
        Err(ParseError::Syntax(error)) => Some(error),
        _ => None,
    }
}

/// Checks a field, and adds its error.
pub fn check(alloc: Global, field: &Field, digest: &mut Digest) {
    add(error_without_tree(alloc, field), digest);
}
