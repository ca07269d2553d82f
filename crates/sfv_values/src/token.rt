//! Owned tokens (RFC 9651, section 3.3.4).

ghost use Rattle.std.specs.Prelude.{codes};
ghost use Rattle.sfv_spec.specs.Classes.{is_token};
ghost use Rattle.sfv_values.specs.InvalidTexts.{IsInvalidToken};

use crate::checked_text::CheckedText;
use crate::text_class::TextClass;
use crate::token_ref::TokenRef;
use crate::validity::check_token;
use sfv_base::error::Error;

/// The class of tokens (RFC 9651, section 3.3.4).
#[derive(Drop)]
pub enum TokenClass {}

impl TextClass for TokenClass {
    ghost is_valid = { is_token };

    ghost IsInvalid = { IsInvalidToken };

    ghost name = { codes "Token" };

    #[tactic(auto, using(crate::proofs::Ascii::token_utf8))]
    fn check(bytes: &[u8]) -> Result<(), Error> {
        check_token(bytes)
    }

    fn name() -> &'static str {
        "Token"
    }
}

/// An owned token (RFC 9651, section 3.3.4).
///
/// `from_string` rejects an empty text with `ErrorKind::Empty` without index. It rejects any other text that is not a
/// token with `ErrorKind::InvalidCharacter` at the first byte that a token does not allow there.
pub type Token = CheckedText<TokenClass>;

impl Token {
    ghost use Rattle.std.specs.Prelude.{◌≡◌};
    ghost use Rattle.sfv_values.specs.CheckedTexts.{text_of};

    /// Borrows the token.
    pub fn as_token_ref(&self) -> TokenRef<'_>
        ensures { text_of result ≡ self.now }
    {
        self.lend()
    }
}
