//! Parsing of tokens (RFC 9651, section 4.2.6).

ghost use Rattle.sfv_spec.specs.Classes.{is_token_start};
ghost use Rattle.sfv_spec.specs.Values.{token};
ghost use Rattle.sfv_values.specs.CheckedTexts.{text_of};
ghost use Rattle.sfv_model.specs.Bare.{token_at};
ghost use Rattle.sfv.specs.parser.Cursor.{rest, Reads, NextIs};

use crate::parser::cursor::Cursor;
use sfv_base::error::{Error, ErrorKind};
use sfv_base::runs::InnerToken;
use sfv_base::utils::is_allowed_start_token_char;
use sfv_values::token_ref::TokenRef;

impl<'de> Cursor<'de> {
    /// Returns `true` if the next byte may begin a token.
    #[inline(always)]
    pub(super) fn next_is_token_start(&self) -> bool
        ensures { NextIs is_token_start result (rest self.now) }
    {
        self.peek().is_some_and(is_allowed_start_token_char)
    }

    /// Parses a token. The error is that of a bare item.
    #[inline(always)]
    #[tactic(auto, using(crate::proofs::reads::Steps::token_steps))]
    pub(crate) fn token(&mut self) -> Result<TokenRef<'de>, Error>
        ensures { Reads (λ t. token (text_of t)) self.old self.new result token_at }
    {
        if !self.next_is_token_start() {
            return Err(self.error(ErrorKind::ExpectedStartOfBareItem));
        }
        // SAFETY: the bytes of a token are ASCII.
        let bytes = self.byte_and_run::<InnerToken>();
        let text = unsafe { std::str::from_utf8_unchecked(bytes) };
        Ok(TokenRef::constant(text))
    }
}
