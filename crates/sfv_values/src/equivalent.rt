//! Look-ups of owned texts by borrowed ones.

ghost use Rattle.std.specs.Prelude.{bytes_eq};
ghost use Rattle.std.specs.Cmp.Lexicographic.{bytes_decides, nat_list_eq_equiv};
ghost use Rattle.std.proofs.Common.{ap};
ghost use Rattle.sfv_values.specs.CheckedTexts.{text_of};
ghost use Rattle.sfv_values.specs.Hashes.{hash_input_of};

use crate::checked_text::CheckedText;
use crate::checked_text_ref::CheckedTextRef;
use crate::text_class::TextClass;
use indexmap::Equivalent;

/// A borrowed text looks up the equal owned text in a map: a `KeyRef` finds its `Key`.
impl<C: TextClass> Equivalent<CheckedText<C>> for CheckedTextRef<'_, C> {
    ghost equivalent = { λ text. bytes_eq (text_of text) };

    ghost respects_hash = { λ text key h. ap hash_input_of ((bytes_decides (text_of text) key).0 h) };

    ghost respects_eq = { λ text x y. nat_list_eq_equiv.congr (text_of text) x y };

    fn equivalent(&self, key: &CheckedText<C>) -> bool {
        self.as_str() == key.as_str()
    }
}
