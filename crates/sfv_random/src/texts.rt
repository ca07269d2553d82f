//! Random texts of a kind, with each letter of the kind at each of the first places, and of each length.
//!
//! The kinds are `key`, `token`, `string`, `display` for display strings, and `bytes`. A text of `bytes` has a letter
//! below 256 for each byte.

use crate::Random;
use crate::fields::{FIRST_OF_KEY, FIRST_OF_TOKEN, KEY, TOKEN};
use sfv::{FieldType, GenericBareItem, Item, OutOfMemory, RefBareItem, StringRef, TokenRef};
use std::alloc::{AllocError, Global};

/// The number of places that have each letter.
const PLACES: usize = 16;

/// All shorter lengths are tried.
const DENSE: usize = 300;

/// Greater lengths that are tried, with their neighbours.
const POWERS: &[usize] = &[512, 1_024, 2_048];

/// Returns `true` if a text of the kind can have this letter, at its start or after it.
fn is_of_kind(kind: &str, code: u8, is_first: bool) -> bool {
    match kind {
        "key" if is_first => FIRST_OF_KEY.contains(&code),
        "key" => KEY.contains(&code),
        "token" if is_first => FIRST_OF_TOKEN.contains(&code),
        "token" => TOKEN.contains(&code),
        "string" => code >= 32 && code < 127,
        _ => true,
    }
}

/// Appends the letter of this code, or of `least` if that is greater.
fn push_wide(letters: &mut Vec<char>, code: u32, least: u32) -> Result<(), AllocError> {
    if let Some(letter) = char::from_u32(code.max(least)) {
        letters.push(letter)?;
    }
    Ok(())
}

/// Returns the letters of the kind, at the start or after it, with those of ASCII first. A display string has a letter
/// for each byte of UTF-8.
fn letters_of(alloc: Global, kind: &str, is_first: bool) -> Result<Vec<char>, AllocError> {
    let mut letters = Vec::new(alloc);
    for code in 0..=255u8 {
        if is_of_kind(kind, code, is_first) {
            letters.push(char::from(code))?;
        }
    }
    if kind == "display" {
        for lead in 4..32u32 {
            push_wide(&mut letters, lead * 0x40, 0)?;
        }
        for lead in 0..16u32 {
            push_wide(&mut letters, lead * 0x1000, 0x800)?;
        }
        for lead in 0..5u32 {
            push_wide(&mut letters, lead * 0x4_0000, 0x1_0000)?;
        }
    }
    Ok(letters)
}

/// The letters of a kind: those at the start, those after it, and how many of these fill a text; and the least length.
#[derive(Drop)]
struct Letters {
    first: Vec<char>,
    rest: Vec<char>,
    fill: usize,
    least: usize,
}

impl Letters {
    // ASCII fills a display string, so the place of a letter is the place of its first byte.
    fn new(alloc: Global, kind: &str) -> Result<Letters, AllocError> {
        Ok(Letters {
            first: letters_of(alloc, kind, true)?,
            rest: letters_of(alloc, kind, false)?,
            fill: if kind == "display" { 128 } else { 256 },
            least: if kind == "key" || kind == "token" {
                1
            } else {
                0
            },
        })
    }

    /// Returns the letters at this place.
    fn at(&self, place: usize) -> &[char] {
        if place == 0 {
            self.first.as_slice()
        } else {
            self.rest.as_slice()
        }
    }
}

impl Random {
    /// Appends a text of this length. It has `letter` at its place, and random letters elsewhere.
    fn push_text(
        &mut self,
        texts: &mut Vec<String>,
        letters: &Letters,
        (place, letter): (usize, char),
        len: usize,
    ) -> Result<(), AllocError> {
        let mut text = String::new(*texts.allocator());
        for number in 0..len {
            let all = letters.at(number);
            let other = all.get(self.below(all.len().min(letters.fill))).copied();
            text.push(if number == place {
                letter
            } else {
                other.unwrap_or('a')
            })?;
        }
        texts.push(text)?;
        Ok(())
    }

    /// Appends a text of each first letter alone, and texts that have each letter at each of the first places.
    fn push_places(
        &mut self,
        texts: &mut Vec<String>,
        letters: &Letters,
    ) -> Result<(), AllocError> {
        for &letter in letters.at(0) {
            self.push_text(texts, letters, (0, letter), 1)?;
        }
        for row in 0..letters.first.len().max(letters.rest.len()) {
            let mut text = String::new(*texts.allocator());
            for place in 0..PLACES {
                let all = letters.at(place);
                let number = row.saturating_add(place) % all.len().max(1);
                text.push(all.get(number).copied().unwrap_or('a'))?;
            }
            texts.push(text)?;
        }
        Ok(())
    }

    /// Appends a text of each length.
    fn push_lengths(
        &mut self,
        texts: &mut Vec<String>,
        letters: &Letters,
    ) -> Result<(), AllocError> {
        for len in letters.least..DENSE {
            self.push_text(texts, letters, (len, 'a'), len)?;
        }
        for &power in POWERS {
            for len in power.saturating_sub(1)..=power.saturating_add(1) {
                self.push_text(texts, letters, (len, 'a'), len)?;
            }
        }
        Ok(())
    }

    /// Returns texts of this kind: each letter at each of the first 16 places, each first letter alone, and each length
    /// below 300 and near 512, 1,024 and 2,048. Display strings have each byte of UTF-8 in the place of each letter.
    pub fn texts(&mut self, alloc: Global, kind: &str) -> Result<Vec<String>, AllocError> {
        let letters = Letters::new(alloc, kind)?;
        let mut texts = Vec::new(alloc);
        self.push_places(&mut texts, &letters)?;
        self.push_lengths(&mut texts, &letters)?;
        Ok(texts)
    }
}

/// Returns the texts of this kind, other than display strings and bytes, that have one or two letters.
pub fn short_texts(alloc: Global, kind: &str) -> Result<Vec<String>, AllocError> {
    let letters = Letters::new(alloc, kind)?;
    let mut texts = Vec::new(alloc);
    for &first in letters.at(0) {
        let mut one = String::new(alloc);
        one.push(first)?;
        for &second in letters.at(1) {
            let mut text = one.clone()?;
            text.push(second)?;
            texts.push(text)?;
        }
        texts.push(one)?;
    }
    Ok(texts)
}

/// Returns the text of a field with this text in the place of each `$`.
pub fn filled(alloc: Global, place: &str, text: &str) -> Result<String, AllocError> {
    let mut all = String::new(alloc);
    for (number, part) in place.split('$').enumerate() {
        if number > 0 {
            all.push_str(text)?;
        }
        all.push_str(part)?;
    }
    Ok(all)
}

/// Returns a byte for each letter of a text of `bytes`.
pub fn bytes_of(alloc: Global, text: &str) -> Result<Vec<u8>, AllocError> {
    let mut bytes = Vec::new(alloc);
    for letter in text.chars() {
        bytes.push(u8::try_from(u32::from(letter)).unwrap_or(0))?;
    }
    Ok(bytes)
}

/// Returns the bare item of this kind with this text, or with these bytes.
pub fn value_of<'a>(kind: &str, text: &'a str, bytes: &'a [u8]) -> Option<RefBareItem<'a>> {
    Some(match kind {
        "token" => RefBareItem::from(TokenRef::from_str(text).ok()?),
        "string" => RefBareItem::from(StringRef::from_str(text).ok()?),
        "display" => GenericBareItem::DisplayString(text),
        _ => RefBareItem::from(bytes),
    })
}

/// Returns the canonical text of a bare item.
pub fn written(alloc: Global, value: RefBareItem<'_>) -> Result<String, OutOfMemory> {
    Item::new(alloc, value.try_to_owned(alloc)?).serialize(alloc)
}
