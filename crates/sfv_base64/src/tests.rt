//! Comparison of the library with `base64`.

use crate::{decode, encode};
use sfv::{BareItem, FieldType, Item, Parser};
use sfv_random::Random;
use sfv_random::texts::bytes_of;
use std::alloc::{AllocError, Global};
use std::test::Fail;

/// Returns the text of a byte sequence with this content.
fn item_with(alloc: Global, content: &[u8]) -> Result<Vec<u8>, AllocError> {
    let mut input = Vec::with_capacity(alloc, content.len() + 2)?;
    input.push(b':')?;
    input.extend_from_slice(content)?;
    input.push(b':')?;
    Ok(input)
}

/// Returns the bytes that the library parses from this item.
fn parsed(alloc: Global, input: &[u8]) -> Option<Vec<u8>> {
    let item = Parser::new(input).parse::<Item>(alloc).ok()?;
    let Item { bare_item, .. } = item;
    match bare_item {
        BareItem::ByteSequence(bytes) => Some(bytes),
        _ => None,
    }
}

/// Returns `true` if the library writes these bytes as `base64` encodes them, and both parse them back.
fn is_written_alike(alloc: Global, bytes: &[u8]) -> bool {
    let Ok(text) = encode(alloc, bytes) else {
        return false;
    };
    let Ok(input) = item_with(alloc, text.as_bytes()) else {
        return false;
    };
    let Ok(item) = Parser::new(input.as_slice()).parse::<Item>(alloc) else {
        return false;
    };
    let Ok(written) = item.serialize(alloc) else {
        return false;
    };
    let Ok(decoded) = decode(alloc, text.as_bytes()) else {
        return false;
    };
    let Some(parsed) = parsed(alloc, input.as_slice()) else {
        return false;
    };
    let is_read = parsed.as_slice() == bytes && decoded.as_slice() == bytes;
    is_read && written.as_bytes() == input.as_slice()
}

/// Returns `true` if the library parses an item with this content as `base64` decodes it, or if both reject it.
fn is_parsed_alike(alloc: Global, content: &[u8]) -> bool {
    let Ok(input) = item_with(alloc, content) else {
        return false;
    };
    match (decode(alloc, content), parsed(alloc, input.as_slice())) {
        (Ok(bytes), Some(parsed)) => bytes == parsed,
        (Err(_), None) => true,
        _ => false,
    }
}

// Low and high bytes in turn, at each place of a block.
#[test]
fn bytes_are_written_as_base64_encodes_them(rt: HostRuntime) -> Result<(), Fail> {
    let alloc = rt.alloc();
    let rows = [0u8, 1, 0x7f, 0x80, 0xff, 0x3e, 0xfb, 0x55, 0xaa, 0xc0, 0x0f];
    let mut holds = true;
    for first in 0..rows.len() {
        let mut bytes = Vec::with_capacity(alloc, 769)?;
        for index in 0..770 {
            let len = bytes.len();
            if len <= 100 || len >= 767 {
                holds &= is_written_alike(alloc, bytes.as_slice());
            }
            bytes.push(rows[(first + index) % rows.len()])?;
        }
    }
    assert!(rt; holds);
    Ok(())
}

#[test]
fn long_byte_sequences_are_written_as_base64_encodes_them(rt: HostRuntime) -> Result<(), Fail> {
    let mut holds = true;
    for &len in &[4_097usize, 65_537, 100_001, 1_000_000] {
        let bytes = vec![in rt.alloc(); 0xfb; len]?;
        holds &= is_written_alike(rt.alloc(), bytes.as_slice());
    }
    assert!(rt; holds);
    Ok(())
}

// Each byte is at each of the first 16 places.
#[test]
fn random_bytes_are_written_as_base64_encodes_them(rt: HostRuntime) -> Result<(), Fail> {
    let alloc = rt.alloc();
    let mut holds = true;
    for text in Random::new(1).texts(alloc, "bytes")?.iter() {
        holds &= is_written_alike(alloc, bytes_of(alloc, text.as_str())?.as_slice());
    }
    assert!(rt; holds);
    Ok(())
}

// Each symbol at each place of a block, with no padding, too little, enough and too much.
#[test]
fn symbols_are_parsed_as_base64_decodes_them(rt: HostRuntime) -> Result<(), Fail> {
    let alloc = rt.alloc();
    let symbols = b"ABCDEFGHIJKLMNOPQRSTUVWXYZabcdefghijklmnopqrstuvwxyz0123456789+/";
    let mut holds = true;
    for first in 0..64usize {
        let mut content = Vec::with_capacity(alloc, 104)?;
        for index in 0..101usize {
            for _ in 0..4 {
                holds &= is_parsed_alike(alloc, content.as_slice());
                content.push(b'=')?;
            }
            content.truncate(index);
            content.push(symbols[(first + index) % 64])?;
        }
    }
    assert!(rt; holds);
    Ok(())
}

// One byte that is no symbol, at each place: of the URL alphabet, padding in the middle, a space and high bytes.
#[test]
fn other_bytes_are_rejected_as_base64_rejects_them(rt: HostRuntime) -> Result<(), Fail> {
    let alloc = rt.alloc();
    let mut holds = true;
    for &byte in b"-_= ,.@[`{\x80\xff\x00" {
        for place in 0..36usize {
            let mut content = Vec::from_slice(alloc, b"AQIDBAUGBwgJCgsMDQ4PEBESExQVFhcYGRob")?;
            content[place] = byte;
            holds &= is_parsed_alike(alloc, content.as_slice());
        }
    }
    assert!(rt; holds);
    Ok(())
}
