//! Parsing of bare items (RFC 9651, sections 4.2.3.1 and 4.2.5 to 4.2.10).

ghost use Rattle.std.specs.Prelude.{◌≡◌, true, IfOk, IfErr, IsTrue};
ghost use Rattle.sfv_spec.proofs.Marks.{double_quote, percent_sign, colon, question_mark, at_sign};
ghost use Rattle.sfv_spec.specs.Values.{boolean, date};
ghost use Rattle.sfv_spec.specs.declared.field_kind.FieldKind.TheVariants.{Item as item_field};
ghost use Rattle.sfv_spec.specs.declared.version.Version.TheVariants.{Rfc9651};
ghost use Rattle.sfv_base.specs.Errors.{out_of_memory};
ghost use Rattle.sfv_base.specs.Numbers.{seconds_of};
ghost use Rattle.sfv_values.specs.BareItems.{input_value, is_borrowed};
ghost use Rattle.sfv_model.specs.Reader.{byte};
ghost use Rattle.sfv_model.specs.Bare.{is_number_start, boolean_at, date_at, token_at, bare_at};
ghost use Rattle.sfv.specs.parser.Cursor.{input, version, rest, Reads, ReadsOrOutOfMemory, NextIs, MayNeedMemory};
ghost use Rattle.sfv.specs.parser.Quoted.{IsBorrowedUnlessEscaped, MayAllocate};

use crate::parser::cursor::Cursor;
use crate::parser::digits::is_digit_byte;
use crate::parser::number::Number;
use sfv_base::date::Date;
use sfv_base::error::{Error, ErrorKind};
use sfv_spec::version::Version;
use sfv_values::bare::{BareItemFromInput, GenericBareItem};

impl<'de> Cursor<'de> {
    /// Parses a boolean after its question mark.
    #[tactic(auto, using(crate::proofs::reads::Steps::boolean_steps))]
    fn boolean(&mut self) -> Result<bool, Error>
        ensures { Reads (λ b. boolean b) self.old self.new result boolean_at }
    {
        if self.take_if(b'0') {
            return Ok(false);
        }
        if self.take_if(b'1') {
            return Ok(true);
        }
        Err(self.error(ErrorKind::ExpectedBoolean))
    }

    /// Parses a date: the sign `@` and the seconds.
    fn date(&mut self) -> Result<Date, Error>
        requires { NextIs (byte at_sign) true (rest self.old) }
        ensures { Reads (λ d. date (seconds_of d)) self.old self.new result (date_at Rfc9651) }
    {
        let start = self.index;
        self.skip();
        match self.number()? {
            Number::Integer(seconds) => Ok(Date::from_unix_seconds(seconds)),
            Number::Decimal(_) => Err(Error::at(ErrorKind::NonIntegerDate, start)),
        }
    }

    /// Parses a boolean as a bare item.
    #[inline(always)]
    fn boolean_item(&mut self) -> Result<BareItemFromInput<'de>, Error>
        requires { NextIs (byte question_mark) true (rest self.old) }
        ensures read { Reads input_value self.old self.new result (bare_at (version self.old)) }
        ensures borrowed { IfOk result (λ item. IsBorrowedUnlessEscaped item self.old self.new) }
        ensures memory { IfOk result (λ item. IsTrue (is_borrowed item) → MayNeedMemory item_field (input self.old)) }
    {
        self.skip();
        Ok(GenericBareItem::Boolean(self.boolean()?))
    }

    /// Parses a string as a bare item.
    #[inline(always)]
    #[tactic(auto, using(crate::proofs::trees::Needs::quote_next))]
    fn string_item(&mut self) -> Result<BareItemFromInput<'de>, Error>
        requires { NextIs (byte double_quote) true (rest self.old) }
        ensures read { ReadsOrOutOfMemory input_value self.old self.new result (bare_at (version self.old)) }
        ensures borrowed { IfOk result (λ item. IsBorrowedUnlessEscaped item self.old self.new) }
        ensures memory { IfOk result (λ item. IsTrue (is_borrowed item) → MayNeedMemory item_field (input self.old)) }
        ensures out_of_memory { IfErr result (λ e. e ≡ out_of_memory → MayAllocate (rest self.old)) }
    {
        self.skip();
        Ok(GenericBareItem::String(self.string()?))
    }

    /// Parses a byte sequence as a bare item.
    #[inline(never)]
    fn byte_sequence_item(&mut self) -> Result<BareItemFromInput<'de>, Error>
        requires { NextIs (byte colon) true (rest self.old) }
        ensures read { ReadsOrOutOfMemory input_value self.old self.new result (bare_at (version self.old)) }
        ensures borrowed { IfOk result (λ item. IsBorrowedUnlessEscaped item self.old self.new) }
        ensures memory { IfOk result (λ item. IsTrue (is_borrowed item) → MayNeedMemory item_field (input self.old)) }
        ensures out_of_memory { IfErr result (λ e. e ≡ out_of_memory → MayAllocate (rest self.old)) }
    {
        self.skip();
        Ok(GenericBareItem::ByteSequence(self.byte_sequence()?))
    }

    /// Parses a date as a bare item. RFC 8941 has no dates.
    #[inline(never)]
    #[tactic(auto, using(crate::proofs::reads::Steps::older_steps))]
    fn date_item(&mut self) -> Result<BareItemFromInput<'de>, Error>
        requires { NextIs (byte at_sign) true (rest self.old) }
        ensures read { Reads input_value self.old self.new result (bare_at (version self.old)) }
        ensures borrowed { IfOk result (λ item. IsBorrowedUnlessEscaped item self.old self.new) }
        ensures memory { IfOk result (λ item. IsTrue (is_borrowed item) → MayNeedMemory item_field (input self.old)) }
    {
        match self.parser.version {
            Version::Rfc8941 => Err(self.error(ErrorKind::Rfc8941Date)),
            Version::Rfc9651 => Ok(GenericBareItem::Date(self.date()?)),
        }
    }

    /// Parses a display string as a bare item. RFC 8941 has no display strings.
    #[inline(never)]
    #[tactic(auto, using(crate::proofs::reads::Steps::older_steps, crate::proofs::trees::Needs::percent_next))]
    fn display_string_item(&mut self) -> Result<BareItemFromInput<'de>, Error>
        requires { NextIs (byte percent_sign) true (rest self.old) }
        ensures read { ReadsOrOutOfMemory input_value self.old self.new result (bare_at (version self.old)) }
        ensures borrowed { IfOk result (λ item. IsBorrowedUnlessEscaped item self.old self.new) }
        ensures memory { IfOk result (λ item. IsTrue (is_borrowed item) → MayNeedMemory item_field (input self.old)) }
        ensures out_of_memory { IfErr result (λ e. e ≡ out_of_memory → MayAllocate (rest self.old)) }
    {
        match self.parser.version {
            Version::Rfc8941 => Err(self.error(ErrorKind::Rfc8941DisplayString)),
            Version::Rfc9651 => Ok(GenericBareItem::DisplayString(self.display_string()?)),
        }
    }

    /// Parses a byte sequence as a bare item, by a call.
    #[inline(always)]
    fn byte_sequence_item_by_call(&mut self) -> Result<BareItemFromInput<'de>, Error>
        requires { NextIs (byte colon) true (rest self.old) }
        ensures read { ReadsOrOutOfMemory input_value self.old self.new result (bare_at (version self.old)) }
        ensures borrowed { IfOk result (λ item. IsBorrowedUnlessEscaped item self.old self.new) }
        ensures memory { IfOk result (λ item. IsTrue (is_borrowed item) → MayNeedMemory item_field (input self.old)) }
        ensures out_of_memory { IfErr result (λ e. e ≡ out_of_memory → MayAllocate (rest self.old)) }
    {
        self.byte_sequence_item()
    }

    /// Parses a date as a bare item, by a call.
    #[inline(always)]
    fn date_item_by_call(&mut self) -> Result<BareItemFromInput<'de>, Error>
        requires { NextIs (byte at_sign) true (rest self.old) }
        ensures read { Reads input_value self.old self.new result (bare_at (version self.old)) }
        ensures borrowed { IfOk result (λ item. IsBorrowedUnlessEscaped item self.old self.new) }
        ensures memory { IfOk result (λ item. IsTrue (is_borrowed item) → MayNeedMemory item_field (input self.old)) }
    {
        self.date_item()
    }

    /// Parses a display string as a bare item, by a call.
    #[inline(always)]
    fn display_string_item_by_call(&mut self) -> Result<BareItemFromInput<'de>, Error>
        requires { NextIs (byte percent_sign) true (rest self.old) }
        ensures read { ReadsOrOutOfMemory input_value self.old self.new result (bare_at (version self.old)) }
        ensures borrowed { IfOk result (λ item. IsBorrowedUnlessEscaped item self.old self.new) }
        ensures memory { IfOk result (λ item. IsTrue (is_borrowed item) → MayNeedMemory item_field (input self.old)) }
        ensures out_of_memory { IfErr result (λ e. e ≡ out_of_memory → MayAllocate (rest self.old)) }
    {
        self.display_string_item()
    }

    /// Parses an integer or a decimal as a bare item.
    #[inline(always)]
    fn number_item(&mut self) -> Result<BareItemFromInput<'de>, Error>
        requires { NextIs is_number_start true (rest self.old) }
        ensures read { Reads input_value self.old self.new result (bare_at (version self.old)) }
        ensures borrowed { IfOk result (λ item. IsBorrowedUnlessEscaped item self.old self.new) }
        ensures memory { IfOk result (λ item. IsTrue (is_borrowed item) → MayNeedMemory item_field (input self.old)) }
    {
        Ok(match self.number()? {
            Number::Integer(value) => GenericBareItem::Integer(value),
            Number::Decimal(value) => GenericBareItem::Decimal(value),
        })
    }

    /// Parses a token as a bare item, or fails if no bare item begins here.
    #[inline(always)]
    fn token_item(&mut self) -> Result<BareItemFromInput<'de>, Error>
        requires { bare_at (version self.old) (rest self.old) ≡ token_at (rest self.old) }
        ensures read { Reads input_value self.old self.new result (bare_at (version self.old)) }
        ensures borrowed { IfOk result (λ item. IsBorrowedUnlessEscaped item self.old self.new) }
        ensures memory { IfOk result (λ item. IsTrue (is_borrowed item) → MayNeedMemory item_field (input self.old)) }
    {
        Ok(GenericBareItem::Token(self.token()?))
    }

    /// Returns `true` if the next byte may begin a number.
    #[inline(always)]
    pub(super) fn next_is_number_start(&self) -> bool
        ensures { NextIs is_number_start result (rest self.now) }
    {
        self.peek()
            .is_some_and(|byte| is_digit_byte(byte) || byte == b'-')
    }

    /// Parses a bare item. The first byte decides its kind. A string or display string without an escape is a slice of
    /// the input.
    #[inline(always)]
    pub(crate) fn bare_item(&mut self) -> Result<BareItemFromInput<'de>, Error>
        ensures read { ReadsOrOutOfMemory input_value self.old self.new result (bare_at (version self.old)) }
        ensures borrowed { IfOk result (λ item. IsBorrowedUnlessEscaped item self.old self.new) }
        ensures memory { IfOk result (λ item. IsTrue (is_borrowed item) → MayNeedMemory item_field (input self.old)) }
        ensures out_of_memory { IfErr result (λ e. e ≡ out_of_memory → MayAllocate (rest self.old)) }
    {
        // Rare kinds are parsed by calls. A function clears the room for the result of a call when it begins. So each
        // call is made by a function that is inlined at its branch, and the other branches clear nothing.
        if self.next_is_number_start() {
            return self.number_item();
        }
        if self.next_is(b'"') {
            return self.string_item();
        }
        if self.next_is(b'?') {
            return self.boolean_item();
        }
        if self.next_is(b':') {
            return self.byte_sequence_item_by_call();
        }
        if self.next_is(b'@') {
            return self.date_item_by_call();
        }
        if self.next_is(b'%') {
            return self.display_string_item_by_call();
        }
        self.token_item()
    }
}
