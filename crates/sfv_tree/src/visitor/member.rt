//! The state within a member of a list or a dictionary, with its parsed part.

ghost use Rattle.std.specs.Prelude.{◌≡◌, false, IfOk, OnOk, OnErr, IsTrue};
ghost use Rattle.sfv_tree.specs.Trees.{member_tree};
ghost use Rattle.sfv_tree.specs.Seeds.{MemberHasSeed};
ghost use Rattle.sfv_spec.specs.Events as tree;
ghost use Rattle.sfv_values.specs.BareItems.{bare_value, input_value, is_borrowed};
ghost use Rattle.sfv_values.specs.CheckedTexts.{text_of};
ghost use Rattle.sfv_tree.specs.Trees.{item_tree};
ghost use Rattle.sfv_tree.specs.Seeds.{ItemHasSeed};
ghost use Rattle.sfv_tree.specs.declared.hash_seed.HashSeed.{HashSeed};
ghost use Rattle.sfv_tree.specs.Events.{event_of, is_moved};
ghost use Rattle.sfv_tree.specs.Builders.{member_step, member_state, step_state, plain_item, takes_memory};
ghost use Rattle.sfv_tree.specs.Builders.{HasSeedSoFar, IsEntry};

use crate::capacity::fit_after;
use crate::hash_seed::HashSeed;
use crate::parsed::{InnerList, Item, ListEntry, Parameters};
use crate::visitor::Event;
use crate::visitor::parameters::insert_parameter;
use sfv_base::error::OutOfMemory;
use sfv_values::bare::{BareItem, BareItemFromInput};
use sfv_values::key_ref::KeyRef;
use std::alloc::Global;
use std::mem;

/// The state within a member, with its parsed part.
#[derive(Drop)]
pub(crate) enum Member {
    // The next event says whether the member is an item or an inner list.
    Begun,
    // Before the bare item of an item.
    ItemHead,
    // Within the items of an inner list, with its complete items so far.
    Items(InnerList, Place),
    // Within the parameters of an item or an inner list.
    Entry(ListEntry),
}

/// The place within the items of an inner list.
#[derive(Drop)]
pub(crate) enum Place {
    // Before an item, or the end of the items.
    Items,
    // Before the bare item of an item.
    ItemHead,
    ItemParams(Item),
}

// Returns the item of this bare item, without parameters.
#[inline(always)]
fn plain_item(alloc: Global, seed: HashSeed, bare_item: BareItem) -> Item
    ensures tree { item_tree result ≡ plain_item (bare_value bare_item) }
    ensures seed { ItemHasSeed seed result }
{
    Item::with_params(bare_item, Parameters::with_hasher(alloc, seed))
}

// Releases the unused memory of the parameters, which are complete, after many members.
#[inline(always)]
fn fit_member(count: usize, member: &mut ListEntry)
    ensures tree { member_tree member.new ≡ member_tree member.old }
    ensures seed { (seed : HashSeed) → MemberHasSeed seed member.old → MemberHasSeed seed member.new }
{
    match member {
        ListEntry::Item(item) => fit_after(count, &mut item.params),
        ListEntry::InnerList(list) => fit_after(count, &mut list.params),
    }
}

impl Place {
    // Replaces the place. This is a function, because each place that drops an item is costly to prove.
    #[inline(always)]
    fn set(&mut self, place: Place)
        ensures { self.new ≡ place }
    {
        *self = place;
    }
}

impl Member {
    // Replaces the member, as `Place::set` replaces a place.
    #[inline(always)]
    fn set(&mut self, member: Member)
        ensures { self.new ≡ member }
    {
        *self = member;
    }

    // Inserts a parameter of the current item, or of the inner list.
    pub(crate) fn parameter(
        &mut self,
        alloc: Global,
        key: KeyRef<'_>,
        value: BareItemFromInput<'_>,
    ) -> Result<(), OutOfMemory>
        ensures state { OnOk result (member_state self.new
            ≡ member_step (member_state self.old) (tree.parameter (text_of key.entry) (input_value value.entry))) }
        ensures seed { OnOk result ((seed : HashSeed) → HasSeedSoFar seed self.old → HasSeedSoFar seed self.new) }
        ensures out_of_memory { OnErr result (IsTrue (takes_memory (member_state self.old)
            (tree.parameter (text_of key.entry) (input_value value.entry)))) }
    {
        match self {
            Member::Items(_, Place::ItemParams(item)) => {
                insert_parameter(alloc, &mut item.params, key, value)?;
                Ok(())
            }
            Member::Entry(ListEntry::Item(item)) => {
                insert_parameter(alloc, &mut item.params, key, value)?;
                Ok(())
            }
            Member::Entry(ListEntry::InnerList(list)) => {
                insert_parameter(alloc, &mut list.params, key, value)?;
                Ok(())
            }
            _ => Ok(()),
        }
    }

    // Begins an item: the member, or the next item of its inner list.
    #[inline(always)]
    fn begin_item(&mut self)
        ensures state { member_state self.new ≡ member_step (member_state self.old) tree.begins_item }
        ensures seed { (seed : HashSeed) → HasSeedSoFar seed self.old → HasSeedSoFar seed self.new }
    {
        match self {
            Member::Begun => self.set(Member::ItemHead),
            Member::Items(_, place) => {
                if let Place::Items = place {
                    place.set(Place::ItemHead);
                }
            }
            _ => {}
        }
    }

    // Begins the member as an inner list.
    #[inline(never)]
    fn begin_inner_list(&mut self, alloc: Global, seed: HashSeed)
        ensures state { member_state self.new ≡ member_step (member_state self.old) tree.begins_inner_list }
        ensures seed { HasSeedSoFar seed self.old → HasSeedSoFar seed self.new }
    {
        if let Member::Begun = self {
            let params = Parameters::with_hasher(alloc, seed);
            let list = InnerList::with_params(Vec::new(alloc), params);
            self.set(Member::Items(list, Place::Items));
        }
    }

    // Takes the bare item of the item that has begun.
    #[inline(never)]
    fn bare_item(
        &mut self,
        alloc: Global,
        seed: HashSeed,
        bare_item: BareItemFromInput<'_>,
    ) -> Result<(), OutOfMemory>
        ensures state { OnOk result (member_state self.new
            ≡ member_step (member_state self.old) (tree.bare_item (input_value bare_item.entry))) }
        ensures seed { OnOk result (HasSeedSoFar seed self.old → HasSeedSoFar seed self.new) }
        ensures out_of_memory { OnErr result
            (IsTrue (takes_memory (member_state self.old) (tree.bare_item (input_value bare_item.entry)))) }
        ensures copied { OnErr result (IsTrue (is_borrowed bare_item.entry)) }
    {
        match self {
            Member::ItemHead => {
                let bare_item = bare_item.try_into_owned(alloc)?;
                let item = ListEntry::Item(plain_item(alloc, seed, bare_item));
                self.set(Member::Entry(item));
            }
            Member::Items(_, place) => {
                if let Place::ItemHead = place {
                    let bare_item = bare_item.try_into_owned(alloc)?;
                    place.set(Place::ItemParams(plain_item(alloc, seed, bare_item)));
                }
            }
            _ => {}
        }
        Ok(())
    }

    // Ends the parameters of the current item, or of the inner list. Returns `true` if the member ends here. `count`
    // members come before this one.
    #[inline(never)]
    fn end_parameters(&mut self, count: usize) -> Result<bool, OutOfMemory>
        ensures state { IfOk result (λ ends. step_state ends self.new
            ≡ member_step (member_state self.old) tree.parameters_end) }
        ensures entry { IfOk result (λ ends. IsTrue ends → IsEntry self.new) }
        ensures seed { OnOk result ((seed : HashSeed) → HasSeedSoFar seed self.old → HasSeedSoFar seed self.new) }
        ensures out_of_memory { OnErr result (IsTrue (takes_memory (member_state self.old) tree.parameters_end)) }
    {
        match self {
            Member::Items(list, place) => match mem::replace(place, Place::Items) {
                Place::ItemParams(mut item) => {
                    fit_after(count.saturating_add(list.items.len()), &mut item.params);
                    list.items.push(item)?;
                    Ok(false)
                }
                other => {
                    place.set(other);
                    Ok(false)
                }
            },
            Member::Entry(entry) => {
                fit_member(count, entry);
                Ok(true)
            }
            _ => Ok(false),
        }
    }

    // Ends the items of the inner list.
    #[inline(never)]
    fn end_inner_list(&mut self)
        ensures state { member_state self.new ≡ member_step (member_state self.old) tree.inner_list_end }
        ensures seed { (seed : HashSeed) → HasSeedSoFar seed self.old → HasSeedSoFar seed self.new }
    {
        if let Member::Items(_, Place::Items) = self {
            if let Member::Items(list, _) = mem::replace(self, Member::Begun) {
                self.set(Member::Entry(ListEntry::InnerList(list)));
            }
        }
    }

    /// Applies an event, and returns `true` if the member ends here: it is then an entry. An event out of sequence changes
    /// nothing. `count` members come before this one.
    #[inline(always)]
    pub(crate) fn step(
        &mut self,
        alloc: Global,
        seed: HashSeed,
        count: usize,
        event: Event<'_>,
    ) -> Result<bool, OutOfMemory>
        ensures state { IfOk result (λ ends. step_state ends self.new
            ≡ member_step (member_state self.old) (event_of event.entry)) }
        ensures entry { IfOk result (λ ends. IsTrue ends → IsEntry self.new) }
        ensures seed { OnOk result (HasSeedSoFar seed self.old → HasSeedSoFar seed self.new) }
        ensures out_of_memory { OnErr result (IsTrue (takes_memory (member_state self.old) (event_of event.entry))) }
        ensures copied { OnErr result (is_moved event.entry ≡ false) }
    {
        match event {
            Event::Item => self.begin_item(),
            Event::InnerList => self.begin_inner_list(alloc, seed),
            Event::BareItem(bare_item) => self.bare_item(alloc, seed, bare_item)?,
            Event::Parameter(key, value) => self.parameter(alloc, key, value)?,
            Event::ParametersEnd => return self.end_parameters(count),
            Event::InnerListEnd => self.end_inner_list(),
            Event::Entry | Event::KeyedEntry(_) => {}
        }
        Ok(false)
    }
}
