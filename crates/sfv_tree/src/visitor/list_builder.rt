//! The visitor that builds a list.

ghost use Rattle.std.specs.Prelude.{◌≡◌, ◌++◌, ◌∷◌, [], ⊤, List, false, None, Some, option_map};
ghost use Rattle.std.specs.Prelude.{OnOk, OnErr, IsTrue, MatchOption};
ghost use Rattle.sfv_tree.specs.Trees.{list_tree};
ghost use Rattle.sfv_values.specs.BareItems.{input_value};
ghost use Rattle.sfv_spec.specs.Events as tree;
ghost use Rattle.sfv_values.specs.CheckedTexts.{text_of};
ghost use Rattle.sfv_tree.specs.Events.{event_of, is_moved};
ghost use Rattle.sfv_spec.specs.Values.{RawMember};
ghost use Rattle.sfv_tree.specs.declared.hash_seed.HashSeed.{HashSeed};
ghost use Rattle.sfv_tree.specs.Builders.{list_step, list_state, list_takes_memory, member_state, HasSeedSoFar};
ghost use Rattle.sfv_tree.specs.Builders.{ListAddsUnder, ListAdds};
ghost use Rattle.sfv_tree.specs.declared.parsed.ListEntry.{ListEntry};
ghost use Rattle.sfv_tree.specs.declared.visitor.member.Member.TheVariants as members;

use crate::hash_seed::HashSeed;
use crate::parsed::List;
use crate::visitor::member::Member;
use crate::visitor::{Event, Visitor};
use sfv_base::error::OutOfMemory;
use sfv_values::bare::BareItemFromInput;
use sfv_values::key_ref::KeyRef;

/// A visitor that builds a list, beginning with an existing one. A repeated key keeps its first position and takes its
/// last value.
///
/// Ignores an event that is out of sequence. Fails only if memory runs out: at borrowed text, a parameter, or the end
/// of an item or a member. `finish` never fails. It returns the list of the complete members.
///
/// If memory runs out, parsing ends, and the list is dropped.
#[derive(Drop)]
pub struct ListBuilder {
    list: List,
    // The seed of the parameters that are built.
    seed: HashSeed,
    // The current member.
    member: Option<Member>,
}

impl ListBuilder {
    /// Creates a builder that begins with `list` and uses its allocator. It builds parameters under `seed`. To join
    /// several lines of a field, pass the list of the earlier lines.
    pub fn new(list: List, seed: HashSeed) -> ListBuilder
        ensures state { list_state result ≡ (list_tree list.items, None) }
        ensures list { result.list ≡ list }
        ensures seed { ListAddsUnder seed result }
    {
        ListBuilder {
            list,
            seed,
            member: None,
        }
    }

    // Inserts a parameter into the current member, where it is.
    fn parameter(
        &mut self,
        key: KeyRef<'_>,
        value: BareItemFromInput<'_>,
    ) -> Result<(), OutOfMemory>
        ensures state { OnOk result (list_state self.new
            ≡ list_step (list_state self.old) (tree.parameter (text_of key.entry) (input_value value.entry))) }
        ensures seed { OnOk result (ListAdds self.old self.new) }
        ensures out_of_memory { OnErr result (IsTrue (list_takes_memory (list_state self.old)
            (tree.parameter (text_of key.entry) (input_value value.entry)))) }
    {
        let alloc = *self.list.allocator();
        if let Some(member) = &mut self.member {
            member.parameter(alloc, key, value)?;
        }
        Ok(())
    }

    // Replaces the current member. This is a function, because each place that drops a member is costly to prove.
    #[inline(always)]
    fn set_member(&mut self, member: Option<Member>)
        ensures member { self.new.member ≡ member }
        ensures list { self.new.list ≡ self.old.list }
        ensures seed { self.new.seed ≡ self.old.seed }
    {
        self.member = member;
    }

    // Appends the current member, which is complete.
    #[inline(never)]
    fn append(&mut self) -> Result<(), OutOfMemory>
        ensures member { self.new.member ≡ None }
        ensures items { OnOk result ((m : ListEntry) → self.old.member ≡ Some (members.Entry m)
            → self.new.list.items ≡ self.old.list.items ++ m ∷ []) }
        ensures seed { self.new.seed ≡ self.old.seed }
    {
        if let Some(Member::Entry(entry)) = self.member.take() {
            self.list.push(entry)?;
        }
        Ok(())
    }

    #[inline(always)]
    fn step(&mut self, event: Event<'_>) -> Result<(), OutOfMemory>
        ensures state { OnOk result (list_state self.new ≡ list_step (list_state self.old) (event_of event.entry)) }
        ensures seed { OnOk result (ListAdds self.old self.new) }
        ensures out_of_memory { OnErr result (IsTrue (list_takes_memory (list_state self.old) (event_of event.entry))) }
        ensures copied { OnErr result (is_moved event.entry ≡ false) }
    {
        let (alloc, seed, count) = (*self.list.allocator(), self.seed, self.list.len());
        let Some(member) = &mut self.member else {
            if let Event::Entry = event {
                self.set_member(Some(Member::Begun));
            }
            return Ok(());
        };
        if member.step(alloc, seed, count, event)? {
            self.append()?;
        }
        Ok(())
    }
}

impl<'de> Visitor<'de> for ListBuilder {
    type Out = List;

    type Error = OutOfMemory;

    ghost takes = { λ s event after.
        (list_state after ≡ list_step (list_state s) event) × ListAdds s after };

    ghost fails = { λ s event fault. IsTrue (list_takes_memory (list_state s) event) };

    ghost fails_read = { λ _ event _. is_moved event ≡ false };

    ghost finishes = { λ s list. list ≡ s.list };

    ghost finish_fails = { λ _ _. ⊥ };

    #[inline(always)]
    fn event(&mut self, event: Event<'de>) -> Result<(), OutOfMemory> {
        if let Event::Parameter(key, value) = event {
            return self.parameter(key, value);
        }
        self.step(event)
    }

    fn finish(self) -> Result<List, OutOfMemory> {
        let ListBuilder { list, member, .. } = self;
        drop(member);
        Ok(list)
    }
}
