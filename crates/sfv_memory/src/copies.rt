//! Owned copies, clones and insertions. If one fails, its argument is unchanged.

use crate::refused_if;
use sfv::visitor::ItemFault;
use sfv::{
    BareItem, BareItemFromInput, Dictionary, Error, ErrorKind, FieldType, GenericBareItem, Item,
    List, ListEntry, OutOfMemory, Parameters, ParseError, Parser, RefBareItem, insert_entry,
    insert_param, key_ref, string_ref, token_ref,
};
use std::alloc::Global;

/// Clones a value, and compares the value and the clone with `same`.
fn is_cloned<T: Clone + PartialEq>(value: &T, same: &T) -> Result<bool, Error> {
    let copy: Result<_, _> = value.clone();
    let stays = *value == *same;
    match copy {
        Ok(copy) => Ok(stays && copy == *same),
        Err(_) => refused_if(stays),
    }
}

/// Copies a key, and clones the copy.
pub fn key(alloc: Global) -> Result<bool, Error> {
    let key = key_ref("a-key");
    is_cloned(&key.to_owned(alloc)?, &key.to_owned(alloc)?)
}

/// Copies a token, and clones the copy.
pub fn token(alloc: Global) -> Result<bool, Error> {
    let token = token_ref("a/b");
    is_cloned(&token.to_owned(alloc)?, &token.to_owned(alloc)?)
}

/// Copies a string, and clones the copy.
pub fn string(alloc: Global) -> Result<bool, Error> {
    let string = string_ref("a b");
    is_cloned(&string.to_owned(alloc)?, &string.to_owned(alloc)?)
}

/// Returns the value of a row.
pub fn value_of<'a>(row: usize) -> RefBareItem<'a> {
    match row {
        0 => GenericBareItem::String(string_ref("a b")),
        1 => GenericBareItem::Token(token_ref("a/b")),
        2 => GenericBareItem::ByteSequence(b"bytes"),
        3 => GenericBareItem::DisplayString("\u{fc}"),
        _ => GenericBareItem::ByteSequence(
            b"abcdefghijklmnopqrstuvwxyzabcdefghijklmnopqrstuvwxyzabcdefghijklmnopqrstuvwxyz",
        ),
    }
}

/// Copies a bare item, and clones the copy.
pub fn bare_item(alloc: Global, row: usize) -> Result<bool, Error> {
    let value = value_of(row);
    is_cloned(&value.try_to_owned(alloc)?, &value.try_to_owned(alloc)?)
}

/// Returns `true` if the value is this string.
fn is_string(value: &BareItem, text: &str) -> Result<bool, Error> {
    Ok(
        value
            .as_string()
            .is_some_and(|string| string.as_str() == text),
    )
}

/// Copies a parsed string.
pub fn read_string(alloc: Global, input: &[u8], text: &str) -> Result<bool, Error> {
    match Parser::new(input).parse_item::<BareItemFromInput<'_>>(alloc) {
        Ok(read) => is_string(&read.try_into_owned(alloc)?, text),
        Err(ParseError::Syntax(error)) => Err(error),
        Err(ParseError::Visitor(fault)) => refused_if(fault == ItemFault::OutOfMemory),
    }
}

/// Parses a bare item.
fn read(alloc: Global, input: &[u8]) -> Result<BareItemFromInput<'_>, Error> {
    match Parser::new(input).parse_item::<BareItemFromInput<'_>>(alloc) {
        Ok(value) => Ok(value),
        Err(ParseError::Syntax(error)) => Err(error),
        Err(ParseError::Visitor(ItemFault::OutOfMemory)) => Err(Error::from(OutOfMemory)),
        Err(ParseError::Visitor(_)) => Err(Error::with_kind(ErrorKind::Empty, None)),
    }
}

/// Clones a parsed bare item, and then its string, if it is one.
pub fn read_item(alloc: Global, input: &[u8]) -> Result<bool, Error> {
    let value = read(alloc, input)?;
    let same = read(alloc, input)?;
    if !is_cloned(&value, &same)? {
        return Ok(false);
    }
    match (&value, &same) {
        (GenericBareItem::String(value), GenericBareItem::String(same)) => is_cloned(value, same),
        _ => Ok(true),
    }
}

/// Clones a parsed field.
pub fn field<T: FieldType + Clone + PartialEq>(alloc: Global, input: &[u8]) -> Result<bool, Error> {
    let parser = Parser::new(input);
    is_cloned(&parser.parse::<T>(alloc)?, &parser.parse::<T>(alloc)?)
}

/// Clones the first member of a list.
pub fn member(alloc: Global, input: &[u8]) -> Result<bool, Error> {
    let list = Parser::new(input).parse::<List>(alloc)?;
    let again = Parser::new(input).parse::<List>(alloc)?;
    match (list[..].first(), again[..].first()) {
        (Some(member), Some(same)) => is_cloned(member, same),
        _ => Ok(false),
    }
}

/// Clones the first member of a list, which is an inner list.
pub fn inner_list(alloc: Global, input: &[u8]) -> Result<bool, Error> {
    let list = Parser::new(input).parse::<List>(alloc)?;
    let again = Parser::new(input).parse::<List>(alloc)?;
    match (list[..].first(), again[..].first()) {
        (Some(ListEntry::InnerList(inner)), Some(ListEntry::InnerList(same))) => {
            is_cloned(inner, same)
        }
        _ => Ok(false),
    }
}

/// Inserts a member.
pub fn entered(alloc: Global) -> Result<bool, Error> {
    let key = key_ref("b").to_owned(alloc)?;
    let mut dictionary: Dictionary = sfv::dictionary(alloc);
    let member = ListEntry::Item(Item::new(alloc, BareItem::from(true)));
    let was_new = match insert_entry(&mut dictionary, key, member) {
        Ok(old) => old.is_none(),
        Err(_) => return refused_if(dictionary.is_empty()),
    };
    Ok(was_new && dictionary.len() == 1)
}

/// Inserts a parameter.
pub fn parameter_entered(alloc: Global) -> Result<bool, Error> {
    let key = key_ref("b").to_owned(alloc)?;
    let mut params: Parameters = sfv::parameters(alloc);
    let was_new = match insert_param(&mut params, key, BareItem::from(true)) {
        Ok(old) => old.is_none(),
        Err(_) => return refused_if(params.is_empty()),
    };
    Ok(was_new && params.len() == 1)
}
