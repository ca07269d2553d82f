//! Short names for constructors.

ghost use Rattle.std.specs.Prelude.{◌≡◌, IsTrue};
ghost use Rattle.std.specs.List.{list_all};
ghost use Rattle.sfv_spec.specs.Classes.{is_key, is_token, is_string_byte};
ghost use Rattle.sfv_values.specs.CheckedTexts.{text_of};

use crate::key_ref::KeyRef;
use crate::string_ref::StringRef;
use crate::token_ref::TokenRef;

/// Returns the key with this text: short for `KeyRef::constant`. The caller proves that the text is a key.
pub fn key_ref(v: &str) -> KeyRef<'_>
    requires { IsTrue (is_key v.now) }
    ensures { text_of result ≡ v.now }
{
    KeyRef::constant(v)
}

/// Returns the token with this text: short for `TokenRef::constant`. The caller proves that the text is a token.
pub fn token_ref(v: &str) -> TokenRef<'_>
    requires { IsTrue (is_token v.now) }
    ensures { text_of result ≡ v.now }
{
    TokenRef::constant(v)
}

/// Returns the string with this text: short for `StringRef::constant`. The caller proves that the text is printable
/// ASCII.
pub fn string_ref(v: &str) -> StringRef<'_>
    requires { IsTrue (list_all is_string_byte v.now) }
    ensures { text_of result ≡ v.now }
{
    StringRef::constant(v)
}
