//! Parsing of the Priority field without a map.

ghost use Rattle.std.specs.Prelude.{◌≡◌, IfOk, IfErr};
ghost use Rattle.sfv_readers.specs.Field.{dictionary_field, IsParseError, ErrorNeedsMark};
ghost use Rattle.sfv_http_fields.specs.Priority.{value_of, priority, IsPriorityOf};

use crate::priority::value::Priority;
use crate::priority::{incremental_of_item, urgency_of_item};
use sfv::{BareItemFromInput, Error, KeyRef, Version};
use sfv_readers::{DictionaryReader, IgnoredItems, read_dictionary};
use std::alloc::Global;

/// A member that matters.
#[derive(Clone, Copy, Debug)]
pub enum Member {
    /// The urgency.
    Urgency,
    /// The member `i`: the response is processed incrementally.
    Incremental,
}

#[tactic(auto, using(sfv_readers::proofs::Puts::last_of_put))]
impl<'de> DictionaryReader<'de> for Priority {
    ghost use Rattle.sfv_http_fields.specs.PrioritySteps.{key_of};

    type Key = Member;

    type Items = IgnoredItems;

    ghost text = { λ _. key_of };

    ghost reads = { λ _ found members. value_of found ≡ priority members };

    fn key(&self, key: KeyRef<'de>) -> Option<Member> {
        if key.as_str() == "u" {
            Some(Member::Urgency)
        } else if key.as_str() == "i" {
            Some(Member::Incremental)
        } else {
            None
        }
    }

    fn item(&mut self, key: Member, item: BareItemFromInput<'de>) {
        match key {
            Member::Urgency => self.urgency = urgency_of_item(item.as_ref_item()),
            Member::Incremental => self.incremental = incremental_of_item(item.as_ref_item()),
        }
    }

    fn inner_list(&mut self, key: Member, _items: IgnoredItems) {
        match key {
            Member::Urgency => self.urgency = 3,
            Member::Incremental => self.incremental = false,
        }
    }

    fn parameter(&mut self, _key: Member, _name: KeyRef<'de>, _value: BareItemFromInput<'de>) {}
}

/// Parses the Priority field under `version`, without a map (RFC 9651, section 4.2). Only texts with escapes, and byte
/// sequences, are allocated from `alloc`.
///
/// # Errors
///
/// Returns the error of `Parser::parse` if the input is not a dictionary, or if memory runs out. Memory runs out only if
/// the input contains a backslash, a percent sign or a colon.
#[tactic(auto, using(sfv_readers::proofs::Memory::marks_needed), unfolding(sfv_readers::specs::Field::last_of))]
pub fn read_priority(alloc: Global, input: &[u8], version: Version) -> Result<Priority, Error>
    ensures read { IfOk result (λ found. IsPriorityOf version input.now (value_of found)) }
    ensures rejected { IfErr result (IsParseError version dictionary_field input.now) }
    ensures memory { IfErr result (ErrorNeedsMark input.now) }
{
    read_dictionary(alloc, input, version, Priority::default())
}
