//! Checks of texts, ladders of numbers, and texts of many sizes.

use std::alloc::Global;
use std::fmt::Write;
use std::test::Fail;

/// Returns `true` if the text is `wanted`.
pub fn is_text(text: &str, wanted: &str) -> bool {
    text == wanted
}

/// Returns `true` if there is a text, and it is `wanted`.
pub fn has_text(text: Option<String>, wanted: &str) -> bool {
    match text {
        Some(text) => text.as_str() == wanted,
        None => false,
    }
}

/// Returns `true` if a capacity is at most four times the length, and 259.
pub fn is_tight(capacity: usize, len: usize) -> bool {
    capacity / 4 <= len.saturating_add(64)
}

/// Returns each number below `dense`, then each power of two from there to 8,192 with its neighbours, and then one more
/// than each fourth power of two up to `most`.
pub fn ladder(alloc: Global, dense: usize, most: usize) -> Result<Vec<usize>, Fail> {
    let mut numbers = Vec::new(alloc);
    for number in 0..dense {
        numbers.push(number)?;
    }
    let mut power = 1usize;
    for _ in 0..32 {
        if dense <= power && power <= 8_192 {
            numbers.push(power.saturating_sub(1))?;
            numbers.push(power)?;
        }
        if dense <= power && power <= most {
            numbers.push(power.saturating_add(1))?;
        }
        power = power.saturating_mul(if power < 8_192 { 2 } else { 4 });
    }
    Ok(numbers)
}

/// Returns `begin`, then so many parts with `separator` between neighbours, then `end`. A part has its number in the
/// place of `#`. Parts of one byte without separator fill the whole text to `size` bytes.
pub fn of_size(
    alloc: Global,
    (begin, part, separator, end): (&str, &str, &str, &str),
    size: usize,
) -> Result<String, Fail> {
    let fills = part.len() == 1 && separator.is_empty();
    let rest = size.saturating_sub(begin.len()).saturating_sub(end.len());
    let mut text = String::from_str(alloc, begin)?;
    for number in 0..if fills { rest } else { size } {
        if number > 0 {
            text.push_str(separator)?;
        }
        match part.split_once('#') {
            Some((front, back)) => write!(text, "{front}{number}{back}")?,
            None => text.push_str(part)?,
        }
    }
    text.push_str(end)?;
    Ok(text)
}
