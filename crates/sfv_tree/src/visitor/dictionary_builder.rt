//! The visitor that builds a dictionary.

ghost use Rattle.std.specs.Prelude.{◌≡◌, ⊤, ℕ, List, false, None, Some, option_map, OnOk, OnErr, IsTrue, MatchOption};
ghost use Rattle.std.specs.Prelude.{bytes_eq};
ghost use Rattle.indexmap.specs.IndexMap.{get, hasher_of, insert_entry};
ghost use Rattle.sfv_tree.specs.Trees.{dictionary_tree};
ghost use Rattle.sfv_values.specs.BareItems.{input_value};
ghost use Rattle.sfv_spec.specs.Events as tree;
ghost use Rattle.sfv_values.specs.CheckedTexts.{text_of};
ghost use Rattle.sfv_tree.specs.Events.{event_of, is_moved};
ghost use Rattle.sfv_spec.specs.Values.{RawMember};
ghost use Rattle.sfv_tree.specs.declared.hash_seed.HashSeed.{HashSeed};
ghost use Rattle.sfv_tree.specs.Builders.{dictionary_step, dictionary_state, member_state, HasSeedSoFar};
ghost use Rattle.sfv_tree.specs.Builders.{dictionary_takes_memory, DictionaryAddsUnder, DictionaryAdds};
ghost use Rattle.sfv_tree.specs.declared.parsed.ListEntry.{ListEntry};
ghost use Rattle.sfv_tree.specs.declared.visitor.member.Member.TheVariants as members;

use crate::parsed::Dictionary;
use crate::visitor::member::Member;
use crate::visitor::{Event, Visitor};
use sfv_base::error::OutOfMemory;
use sfv_values::bare::BareItemFromInput;
use sfv_values::key::Key;
use sfv_values::key_ref::KeyRef;
use std::alloc::Global;

/// A visitor that builds a dictionary, beginning with an existing one. A repeated key keeps its first position and
/// takes its last member (RFC 9651, section 4.2.2). A repeated parameter takes its last value.
///
/// Ignores an event that is out of sequence. Fails only if memory runs out: at a key, borrowed text, a parameter, or
/// the end of an item or a member. `finish` never fails. It returns the dictionary of the complete members.
///
/// If memory runs out, parsing ends, and the dictionary is dropped.
#[derive(Drop)]
pub struct DictionaryBuilder {
    dictionary: Dictionary,
    // The key of the current member, and the member.
    member: Option<(Key, Member)>,
}

impl DictionaryBuilder {
    /// Creates a builder that begins with `dictionary`, and uses its allocator and its hash seed. To join several
    /// lines of a field, pass the dictionary of the earlier lines.
    pub fn new(dictionary: Dictionary) -> DictionaryBuilder
        ensures state { dictionary_state result ≡ (dictionary_tree dictionary.entries, None) }
        ensures dictionary { result.dictionary ≡ dictionary }
        ensures seed { DictionaryAddsUnder (hasher_of dictionary) result }
    {
        DictionaryBuilder {
            dictionary,
            member: None,
        }
    }

    // Inserts a parameter into the current member, where it is.
    fn parameter(
        &mut self,
        key: KeyRef<'_>,
        value: BareItemFromInput<'_>,
    ) -> Result<(), OutOfMemory>
        ensures state { OnOk result (dictionary_state self.new
            ≡ dictionary_step (dictionary_state self.old) (tree.parameter (text_of key.entry) (input_value value.entry))) }
        ensures seed { OnOk result (DictionaryAdds self.old self.new) }
        ensures out_of_memory { OnErr result (IsTrue (dictionary_takes_memory (dictionary_state self.old)
            (tree.parameter (text_of key.entry) (input_value value.entry)))) }
    {
        let alloc = *self.dictionary.allocator();
        if let Some((_, member)) = &mut self.member {
            member.parameter(alloc, key, value)?;
        }
        Ok(())
    }

    // Replaces the current member. This is a function, because each place that drops a member is costly to prove.
    #[inline(always)]
    fn set_member(&mut self, member: Option<(Key, Member)>)
        ensures member { self.new.member ≡ member }
        ensures dictionary { self.new.dictionary ≡ self.old.dictionary }
    {
        self.member = member;
    }

    // Inserts the current member, which is complete, under its key.
    #[inline(never)]
    fn insert(&mut self) -> Result<(), OutOfMemory>
        ensures member { self.new.member ≡ None }
        ensures entries { OnOk result ((key : List ℕ) (m : ListEntry) → self.old.member ≡ Some (key, members.Entry m)
            → self.new.dictionary.entries ≡ insert_entry bytes_eq self.old.dictionary.entries key m) }
        ensures hasher { hasher_of self.new.dictionary ≡ hasher_of self.old.dictionary }
        ensures absent { OnErr result (MatchOption self.old.member ⊤ (λ m. get bytes_eq self.old.dictionary m.0 ≡ None)) }
    {
        if let Some((key, member)) = self.member.take() {
            if let Member::Entry(entry) = member {
                self.dictionary.insert(key, entry)?;
            }
        }
        Ok(())
    }

    #[inline(always)]
    fn step(&mut self, event: Event<'_>) -> Result<(), OutOfMemory>
        ensures state { OnOk result
            (dictionary_state self.new ≡ dictionary_step (dictionary_state self.old) (event_of event.entry)) }
        ensures out_of_memory { OnErr result
            (IsTrue (dictionary_takes_memory (dictionary_state self.old) (event_of event.entry))) }
        ensures copied { OnErr result (is_moved event.entry ≡ false) }
        ensures seed { OnOk result (DictionaryAdds self.old self.new) }
    {
        let (alloc, seed) = (*self.dictionary.allocator(), *self.dictionary.hasher());
        let count = self.dictionary.len();
        let Some((_, member)) = &mut self.member else {
            if let Event::KeyedEntry(key) = event {
                let key = key.to_owned(alloc)?;
                self.set_member(Some((key, Member::Begun)));
            }
            return Ok(());
        };
        if member.step(alloc, seed, count, event)? {
            self.insert()?;
        }
        Ok(())
    }
}

impl<'de> Visitor<'de> for DictionaryBuilder {
    type Out = Dictionary;

    type Error = OutOfMemory;

    ghost takes = { λ s event after.
        (dictionary_state after ≡ dictionary_step (dictionary_state s) event) × DictionaryAdds s after };

    ghost fails = { λ s event fault. IsTrue (dictionary_takes_memory (dictionary_state s) event) };

    ghost fails_read = { λ _ event _. is_moved event ≡ false };

    ghost finishes = { λ s dictionary. dictionary ≡ s.dictionary };

    ghost finish_fails = { λ _ _. ⊥ };

    #[inline(always)]
    fn event(&mut self, event: Event<'de>) -> Result<(), OutOfMemory> {
        if let Event::Parameter(key, value) = event {
            return self.parameter(key, value);
        }
        self.step(event)
    }

    fn finish(self) -> Result<Dictionary, OutOfMemory> {
        let DictionaryBuilder { dictionary, member } = self;
        drop(member);
        Ok(dictionary)
    }
}
