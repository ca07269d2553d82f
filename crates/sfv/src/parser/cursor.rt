//! A cursor over the input: it inspects and consumes the next byte.

ghost use Rattle.std.specs.Prelude.{◌≡◌, ◌≤◌, ◌+◌, ◌++◌, ℕ, Bool, true, false, List, ◌∷◌, length, Some, Ok};
ghost use Rattle.sfv_spec.specs.Texts.{RunOf};
ghost use Rattle.sfv_spec.proofs.Marks.{is_digit, is_space, is_space_or_tab};
ghost use Rattle.sfv_base.specs.Errors.{error_of};
ghost use Rattle.sfv_model.specs.Reader.{Apart, first, byte, up_to, span};
ghost use Rattle.sfv.specs.parser.Values.{Spells};

use crate::parser::Parser;
use crate::parser::digits::{Digits, digit_run, is_digit_byte};
use sfv_base::error::{Error, ErrorKind};
use sfv_base::runs::{RunClass, run_end_from};
use std::alloc::Global;

/// A position in the input of a parser.
#[derive(Clone, Copy)]
pub(crate) struct Cursor<'de> {
    pub(super) parser: Parser<'de>,
    pub(super) alloc: Global,
    pub(super) index: usize,
    /// The number of members, or of members and items of an inner list, before the next element of a tree.
    pub(super) count: usize,
    ghost within: { index ≤ length parser.input.now },
}

impl<'de> Cursor<'de> {
    ghost use Rattle.sfv.specs.Parsers.{input_of};
    ghost use Rattle.sfv.specs.parser.Cursor.{kept, rest, NextIs, TakesIf, Skips};

    /// Creates a cursor at the start of the parser's input. Parsing allocates from `alloc`.
    pub(super) fn new(parser: Parser<'de>, alloc: Global) -> Cursor<'de>
        ensures rest { rest result ≡ input_of parser.entry }
        ensures kept { kept result ≡ (parser.entry, alloc) }
    {
        Cursor {
            parser,
            alloc,
            index: 0,
            count: 0,
        }
    }

    /// Returns the next byte, or `None` at the end of the input.
    #[inline(always)]
    pub(super) fn peek(&self) -> Option<u8>
        ensures { result ≡ first (rest self.now) }
    {
        self.parser.input.get(self.index).copied()
    }

    /// Consumes the next byte.
    #[inline(always)]
    pub(super) fn skip(&mut self)
        requires { 1 ≤ length (rest self.old) }
        ensures skips { Skips (rest self.old) (rest self.new) }
        ensures index { self.new.index ≡ self.old.index + 1 }
        ensures kept { kept self.new ≡ kept self.old }
    {
        prove!(self.index < self.parser.input.len());
        self.index += 1;
    }

    /// Returns an error of this kind at the index of the next byte.
    pub(super) fn error(&self, kind: ErrorKind) -> Error
        ensures { result ≡ error_of kind (Some self.now.index) }
    {
        Error::at(kind, self.index)
    }

    /// Returns `true` if the next byte is `wanted`.
    #[inline(always)]
    pub(super) fn next_is(&self, wanted: u8) -> bool
        ensures { NextIs (byte wanted) result (rest self.now) }
    {
        self.peek() == Some(wanted)
    }

    /// Returns `true` if the next byte is a digit.
    #[inline(always)]
    pub(super) fn next_is_digit(&self) -> bool
        ensures { NextIs is_digit result (rest self.now) }
    {
        self.peek().is_some_and(is_digit_byte)
    }

    /// Returns `true` if the next byte is of the class.
    #[inline(always)]
    fn next_is_of<C: RunClass>(&self) -> bool
        ensures { NextIs C.class result (rest self.now) }
    {
        self.peek().is_some_and(|byte| C::has(byte))
    }

    /// Consumes the next byte if it is `wanted`, and returns `true` if it was.
    #[inline(always)]
    pub(super) fn take_if(&mut self, wanted: u8) -> bool
        ensures takes { TakesIf (byte wanted) result (rest self.old) (rest self.new) }
        ensures kept { kept self.new ≡ kept self.old }
    {
        let found = self.next_is(wanted);
        if found {
            self.skip();
        }
        found
    }

    /// Consumes the digits that come next, at most `most` of them.
    #[inline(always)]
    pub(super) fn digits(&mut self, most: usize) -> Digits
        requires { most ≤ 15 }
        ensures most { result.count ≤ most }
        ensures digits { (ds : List ℕ) × Spells ds result
            × (up_to is_digit most (rest self.old) ≡ Ok (ds, rest self.new)) }
        ensures kept { kept self.new ≡ kept self.old }
    {
        let digits = digit_run(&self.parser.input[self.index..], most);
        self.index += digits.count;
        digits
    }

    /// Consumes the longest run of bytes of the class.
    #[inline(always)]
    pub(super) fn run<C: RunClass>(&mut self) -> &'de [u8]
        ensures each { RunOf C.class result.now }
        ensures taken { rest self.old ≡ result.now ++ rest self.new }
        ensures ends { Apart C.class (rest self.new) }
        ensures kept { kept self.new ≡ kept self.old }
    {
        let start = self.index;
        self.index = run_end_from::<C>(self.parser.input, start);
        &self.parser.input[start..self.index]
    }

    /// Consumes the next byte and the longest run of bytes of the class after it.
    #[inline(always)]
    pub(super) fn byte_and_run<C: RunClass>(&mut self) -> &'de [u8]
        requires { 1 ≤ length (rest self.old) }
        ensures each { (b : ℕ) × (s : List ℕ) × (result.now ≡ b ∷ s) × RunOf C.class s }
        ensures taken { rest self.old ≡ result.now ++ rest self.new }
        ensures ends { Apart C.class (rest self.new) }
        ensures kept { kept self.new ≡ kept self.old }
    {
        let start = self.index;
        self.skip();
        self.run::<C>();
        &self.parser.input[start..self.index]
    }

    /// Does the same as `run`. Tests the first byte by itself, which is faster where many runs are empty.
    #[inline(always)]
    fn short_run<C: RunClass>(&mut self) -> &'de [u8]
        ensures each { RunOf C.class result.now }
        ensures taken { rest self.old ≡ result.now ++ rest self.new }
        ensures ends { Apart C.class (rest self.new) }
        ensures kept { kept self.new ≡ kept self.old }
    {
        if self.next_is_of::<C>() {
            return self.run::<C>();
        }
        b""
    }

    /// Does the same as `byte_and_run`, by `short_run`.
    #[inline(always)]
    pub(super) fn byte_and_short_run<C: RunClass>(&mut self) -> &'de [u8]
        requires { 1 ≤ length (rest self.old) }
        ensures each { (b : ℕ) × (s : List ℕ) × (result.now ≡ b ∷ s) × RunOf C.class s }
        ensures taken { rest self.old ≡ result.now ++ rest self.new }
        ensures ends { Apart C.class (rest self.new) }
        ensures kept { kept self.new ≡ kept self.old }
    {
        let start = self.index;
        self.skip();
        self.short_run::<C>();
        &self.parser.input[start..self.index]
    }

    /// Consumes spaces.
    #[inline(always)]
    pub(super) fn skip_sp(&mut self)
        ensures skipped { (s : List ℕ) × (span is_space (rest self.old) ≡ Ok (s, rest self.new)) }
        ensures kept { kept self.new ≡ kept self.old }
    {
        while self.take_if(b' ') {}
    }

    /// Consumes spaces and tabs.
    #[inline(always)]
    pub(super) fn skip_ows(&mut self)
        ensures skipped { (s : List ℕ) × (span is_space_or_tab (rest self.old) ≡ Ok (s, rest self.new)) }
        ensures kept { kept self.new ≡ kept self.old }
    {
        while self.take_if(b' ') || self.take_if(b'\t') {}
    }
}
