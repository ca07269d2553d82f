//! Borrowed keys (RFC 9651, section 3.1.2).

use crate::checked_text_ref::CheckedTextRef;
use crate::key::KeyClass;

/// A borrowed key (RFC 9651, section 3.1.2).
///
/// `from_str` and `from_bytes` reject an empty text with `ErrorKind::Empty` without index. They reject any other text
/// that is not a key with `ErrorKind::InvalidCharacter` at the first byte that a key does not allow there.
pub type KeyRef<'a> = CheckedTextRef<'a, KeyClass>;
