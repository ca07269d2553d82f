//! Numbers, fields and texts that a seed determines (the generator SplitMix64), keys that collide under a hash seed,
//! whether a call loses memory, and rows of tests that name themselves.
#![tactic(auto)]

pub mod fields;
pub mod keys;
pub mod leaks;
pub mod rows;
pub mod texts;

/// A source of numbers.
#[derive(Clone, Copy)]
pub struct Random {
    state: u64,
}

impl Random {
    /// Creates the source of this seed.
    pub fn new(seed: u64) -> Random {
        Random { state: seed }
    }

    /// Returns the next number.
    pub fn next(&mut self) -> u64 {
        self.state = self.state.wrapping_add(0x9e37_79b9_7f4a_7c15);
        let mixed = (self.state ^ (self.state >> 30)).wrapping_mul(0xbf58_476d_1ce4_e5b9);
        let mixed = (mixed ^ (mixed >> 27)).wrapping_mul(0x94d0_49bb_1331_11eb);
        mixed ^ (mixed >> 31)
    }

    /// Returns a number below a billion.
    pub fn number(&mut self) -> u32 {
        (self.next() % 1_000_000_000) as u32
    }

    /// Returns a decimal digit.
    pub fn digit(&mut self) -> u8 {
        b'0' + (self.next() % 10) as u8
    }

    /// Returns a lower-case letter.
    pub fn letter(&mut self) -> u8 {
        b'a' + (self.next() % 26) as u8
    }

    /// Returns a letter. It is a symbol of Base64.
    pub fn symbol(&mut self) -> u8 {
        let place = (self.next() % 26) as u8;
        if self.next() % 2 == 0 {
            b'a' + place
        } else {
            b'A' + place
        }
    }

    /// Returns a byte.
    pub fn byte(&mut self) -> u8 {
        (self.next() % 256) as u8
    }

    /// Returns a number below this one, or zero.
    pub fn below(&mut self, most: usize) -> usize {
        if most == 0 {
            return 0;
        }
        (self.next() % (most as u64)) as usize
    }

    /// Returns a number below 2^`bits`. Small numbers are as frequent as great ones.
    pub fn length(&mut self, bits: usize) -> usize {
        let mut most = 1usize;
        for _ in 0..self.below(bits.saturating_add(1)) {
            most = most.saturating_mul(2);
        }
        self.below(most)
    }
}
