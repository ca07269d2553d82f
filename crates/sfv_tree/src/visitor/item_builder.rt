//! The visitor that builds an item.

ghost use Rattle.std.specs.Prelude.{◌≡◌, false, Some, OnOk, OnErr, IsTrue};
ghost use Rattle.sfv_tree.specs.declared.parsed.ListEntry.{ListEntry};
ghost use Rattle.sfv_tree.specs.declared.visitor.member.Member.TheVariants as members;
ghost use Rattle.sfv_spec.specs.Values.{RawItem, item};
ghost use Rattle.sfv_tree.specs.Seeds.{ItemHasSeed};
ghost use Rattle.sfv_tree.specs.Trees.{item_tree};
ghost use Rattle.sfv_tree.specs.declared.hash_seed.HashSeed.{HashSeed};
ghost use Rattle.sfv_tree.specs.Events.{event_of, is_moved};
ghost use Rattle.sfv_tree.specs.Builders.{item_head, ended, member_step, item_state, takes_memory, IsItemUnder};
ghost use Rattle.sfv_tree.specs.declared.visitor.ItemFault.TheVariants as faults;

use crate::hash_seed::HashSeed;
use crate::parsed::{Item, ListEntry};
use crate::visitor::member::Member;
use crate::visitor::{Event, ItemFault, Visitor};
use sfv_base::error::OutOfMemory;
use std::alloc::Global;
use std::mem;

/// A visitor that builds an item. A repeated key keeps its first position and takes its last value (RFC 9651,
/// section 4.2.3.2).
///
/// Ignores an event that is out of sequence. `event` fails only if memory runs out, at borrowed text or a parameter.
/// `finish` fails with `ItemFault::NoItem` if and only if the builder received no complete item.
#[derive(Drop)]
pub struct ItemBuilder {
    alloc: Global,
    seed: HashSeed,
    // The state within the item.
    member: Member,
    // The complete item.
    item: Option<ListEntry>,
}

impl ItemBuilder {
    /// Creates a builder that has received no event. It allocates from `alloc`, and builds parameters under `seed`.
    pub fn new(alloc: Global, seed: HashSeed) -> ItemBuilder
        ensures state { item_state result ≡ item_head }
        ensures seed { IsItemUnder seed result }
    {
        ItemBuilder {
            alloc,
            seed,
            member: Member::ItemHead,
            item: None,
        }
    }

    // Takes the complete item out of the state.
    #[inline(never)]
    fn complete(&mut self)
        ensures seed { self.new.seed ≡ self.old.seed }
        ensures item { (m : ListEntry) → self.old.member ≡ members.Entry m → self.new.item ≡ Some m }
    {
        if let Member::Entry(entry) = mem::replace(&mut self.member, Member::Begun) {
            self.item = Some(entry);
        }
    }

    #[inline(always)]
    fn step(&mut self, event: Event<'_>) -> Result<(), OutOfMemory>
        ensures state { OnOk result (item_state self.new ≡ member_step (item_state self.old) (event_of event.entry)) }
        ensures out_of_memory { OnErr result (IsTrue (takes_memory (item_state self.old) (event_of event.entry))) }
        ensures copied { OnErr result (is_moved event.entry ≡ false) }
        ensures seed { OnOk result ((seed : HashSeed) → IsItemUnder seed self.old → IsItemUnder seed self.new) }
    {
        if self.item.is_none() && self.member.step(self.alloc, self.seed, 0, event)? {
            self.complete();
        }
        Ok(())
    }
}

impl<'de> Visitor<'de> for ItemBuilder {
    type Out = Item;

    type Error = ItemFault;

    ghost takes = { λ s event after. (item_state after ≡ member_step (item_state s) event)
        × ((seed : HashSeed) → IsItemUnder seed s → IsItemUnder seed after) };

    ghost fails = { λ s event fault. (fault ≡ faults.OutOfMemory) × IsTrue (takes_memory (item_state s) event) };

    ghost fails_read = { λ _ event _. is_moved event ≡ false };

    ghost finishes = { λ s out. (item_state s ≡ ended (item (item_tree out)))
        × ((seed : HashSeed) → IsItemUnder seed s → ItemHasSeed seed out) };

    ghost finish_fails = { λ s fault. (fault ≡ faults.NoItem)
        × ((i : RawItem) → ¬ (item_state s ≡ ended (item i))) };

    #[inline(always)]
    fn event(&mut self, event: Event<'de>) -> Result<(), ItemFault> {
        match self.step(event) {
            Ok(()) => Ok(()),
            Err(OutOfMemory) => Err(ItemFault::OutOfMemory),
        }
    }

    fn finish(self) -> Result<Item, ItemFault> {
        let ItemBuilder { member, item, .. } = self;
        drop(member);
        match item {
            Some(ListEntry::Item(item)) => Ok(item),
            _ => Err(ItemFault::NoItem),
        }
    }
}
