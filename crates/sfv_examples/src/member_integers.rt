//! The integer of a dictionary member, whose key is known at run time, without a tree.
//!
//! `OneMember` is a `DictionaryReader` that holds the key. Its proofs need no file.

ghost use Rattle.std.specs.Prelude.{◌≡◌, IfOk, IfErr, option_map};
ghost use Rattle.sfv_readers.specs.Field.{dictionary_field, integer_of, last_of, IsParseError, ErrorNeedsMark};
ghost use Rattle.sfv_examples.specs.MemberIntegers.{member_integer, IsIntegerOf};

use sfv::{BareItemFromInput, Error, Integer, KeyRef, Version};
use sfv_readers::{DictionaryReader, IgnoredItems, read_dictionary};
use std::alloc::Global;

/// A reader that keeps the integer of one member.
#[derive(Clone, Copy, Debug)]
struct OneMember<'k> {
    key: &'k str,
    found: Option<Integer>,
}

#[tactic(auto, using(sfv_readers::proofs::Puts::last_of_put))]
impl<'k, 'de> DictionaryReader<'de> for OneMember<'k> {
    type Key = ();

    type Items = IgnoredItems;

    ghost text = { λ start _. start.key.now };

    ghost reads = { λ start s members. (s.key ≡ start.key)
        × (option_map integer_of s.found ≡ member_integer (last_of start.key.now members)) };

    fn key(&self, key: KeyRef<'de>) -> Option<()> {
        if key.as_str() == self.key {
            Some(())
        } else {
            None
        }
    }

    #[tactic(auto, using(sfv_readers::proofs::Puts::last_of_same))]
    fn item(&mut self, _key: (), item: BareItemFromInput<'de>) {
        self.found = item.as_integer();
    }

    #[tactic(auto, using(sfv_readers::proofs::Puts::last_of_same))]
    fn inner_list(&mut self, _key: (), _items: IgnoredItems) {
        self.found = None;
    }

    fn parameter(&mut self, _key: (), _name: KeyRef<'de>, _value: BareItemFromInput<'de>) {}
}

/// Returns the integer of the member with this key, or `None` if there is no such member, or if it is not an Integer.
///
/// # Errors
///
/// Returns the error of `Parser::parse` if the input is not a dictionary, or if memory runs out. Memory runs out only if
/// the input contains a backslash, a percent sign or a colon.
#[tactic(auto, using(sfv_readers::proofs::Memory::mark_needed), unfolding(sfv_readers::specs::Field::last_of))]
pub fn integer_of_member(
    alloc: Global,
    input: &[u8],
    version: Version,
    key: &str,
) -> Result<Option<Integer>, Error>
    ensures read { IfOk result (λ found. IsIntegerOf version input.now key.now (option_map integer_of found)) }
    ensures rejected { IfErr result (IsParseError version dictionary_field input.now) }
    ensures memory { IfErr result (ErrorNeedsMark input.now) }
{
    let read = read_dictionary(alloc, input, version, OneMember { key, found: None })?;
    Ok(read.found)
}
