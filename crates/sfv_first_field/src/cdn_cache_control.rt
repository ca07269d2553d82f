//! The field CDN-Cache-Control (RFC 9213): how many seconds the caches of a network may use a response.

ghost use Rattle.std.specs.Prelude.{◌≡◌, IfOk, IfErr, option_map, codes};
ghost use Rattle.sfv_readers.specs.Field.{integer_of, dictionary_field, last_of, IsParseError, ErrorNeedsMark};
ghost use Rattle.sfv_first_field.specs.MaxAge.{age_of, IsMaxAgeOf};

use sfv::{BareItemFromInput, Error, Integer, KeyRef, Version};
use sfv_readers::{DictionaryReader, IgnoredItems, read_dictionary};
use std::alloc::Global;

/// A reader that keeps the member `max-age`.
#[derive(Clone, Copy, Debug)]
struct MaxAge {
    seconds: Option<Integer>,
}

#[tactic(auto, using(sfv_readers::proofs::Puts::last_of_put))]
impl<'de> DictionaryReader<'de> for MaxAge {
    type Key = ();

    type Items = IgnoredItems;

    ghost text = { λ _ _. codes "max-age" };

    ghost reads = { λ _ found members.
        option_map integer_of found.seconds ≡ age_of (last_of (codes "max-age") members) };

    fn key(&self, key: KeyRef<'de>) -> Option<()> {
        if key.as_str() == "max-age" {
            Some(())
        } else {
            None
        }
    }

    fn item(&mut self, _key: (), item: BareItemFromInput<'de>) {
        self.seconds = item.as_integer();
    }

    fn inner_list(&mut self, _key: (), _items: IgnoredItems) {
        self.seconds = None;
    }

    fn parameter(&mut self, _key: (), _name: KeyRef<'de>, _value: BareItemFromInput<'de>) {}
}

/// Returns the member `max-age`, or `None` if there is no such member, or if it is not an Integer.
///
/// # Errors
///
/// Returns the error of `Parser::parse` if the input is not a dictionary, or if memory runs out. Memory runs out only if
/// the input contains a backslash, a percent sign or a colon.
#[tactic(auto, using(sfv_readers::proofs::Memory::mark_needed), unfolding(sfv_readers::specs::Field::last_of))]
pub fn max_age(alloc: Global, input: &[u8], version: Version) -> Result<Option<Integer>, Error>
    ensures read { IfOk result (λ found.
        IsMaxAgeOf version input.now (option_map integer_of found)) }
    ensures rejected { IfErr result (IsParseError version dictionary_field input.now) }
    ensures memory { IfErr result (ErrorNeedsMark input.now) }
{
    let read = read_dictionary(alloc, input, version, MaxAge { seconds: None })?;
    Ok(read.seconds)
}
