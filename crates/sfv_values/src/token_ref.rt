//! Borrowed tokens (RFC 9651, section 3.3.4).

use crate::checked_text_ref::CheckedTextRef;
use crate::token::TokenClass;

/// A borrowed token (RFC 9651, section 3.3.4).
///
/// `from_str` and `from_bytes` reject an empty text with `ErrorKind::Empty` without index. They reject any other text
/// that is not a token with `ErrorKind::InvalidCharacter` at the first byte that a token does not allow there.
pub type TokenRef<'a> = CheckedTextRef<'a, TokenClass>;
