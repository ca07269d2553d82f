//! Readers of lists.

ghost use Rattle.std.specs.Prelude.{◌≡◌, ◌⊎◌, ⊤, None, List, [], OnOk, OnErr};
ghost use Rattle.sfv_spec.specs.Values.{RawItem, RawParameters, RawMember};
ghost use Rattle.sfv_values.specs.CheckedTexts.{text_of};
ghost use Rattle.sfv_values.specs.BareItems.{input_value};
ghost use Rattle.sfv_readers.specs.Words.{Head, of_item, of_inner_list, AddsParameter, AddsMember};

use crate::inner_list::InnerListReader;
use sfv_base::error::OutOfMemory;
use sfv_tree::visitor::{Event, Visitor};
use sfv_values::bare::BareItemFromInput;
use sfv_values::key_ref::KeyRef;
use std::alloc::Global;

/// A reader that receives the members of a list, one at a time.
///
/// `Member` is the state of one member, from its start to its last parameter. `Self` is the state after the members so
/// far.
pub trait ListReader<'de>: Drop {
    /// The state of one member.
    type Member: Drop;

    /// The reader of the items of an inner list: `IgnoredItems` if they do not matter.
    type Items: InnerListReader<'de>;

    /// `keeps reader member head params`: before `reader` receives it, `member` is the state of a member with this head
    /// and these parameters. No key is repeated.
    ghost keeps: { Self → Self.Member → Head → RawParameters → Type 0 };

    /// `reads start reader members`: `reader` is the state after these members, from `start`.
    ghost reads: { Self → Self → List RawMember → Type 0 };

    /// `member` may run out of memory. Default: it may.
    ghost may_fail: { Type 0 } = { ⊤ };

    /// Receives the bare item of a member that is an item.
    fn item(&self, item: BareItemFromInput<'de>) -> Self::Member
        ensures { keeps self.now result (of_item (input_value item.entry)) [] };

    /// Receives the items of a member that is an inner list.
    fn inner_list(&self, items: Self::Items) -> Self::Member
        ensures { (xs : List RawItem) → Self.Items.reads items xs → keeps self.now result (of_inner_list xs) [] };

    /// Receives a parameter of the member. It replaces an earlier one with the same key.
    fn parameter(&self, member: &mut Self::Member, key: KeyRef<'de>, value: BareItemFromInput<'de>)
        ensures { AddsParameter (keeps self.now) member.old member.new (text_of key.entry) (input_value value.entry) };

    /// Receives the member after its last parameter.
    ///
    /// # Errors
    ///
    /// Returns `OutOfMemory` if memory runs out, which ends the parsing.
    fn member(&mut self, member: Self::Member) -> Result<(), OutOfMemory>
        ensures read { OnOk result (AddsMember reads keeps self.old self.new member) }
        ensures memory { OnErr result may_fail };
}

/// A visitor that passes the parts of a list to a reader.
#[derive(Drop)]
pub(crate) struct ListVisitor<R, M, I> {
    alloc: Global,
    reader: R,
    // The member that is being parsed, if one has begun.
    member: Option<M>,
    // The reader of the items, within an inner list.
    items: Option<I>,
}

impl<R, M, I> ListVisitor<R, M, I> {
    /// Creates the visitor.
    pub(crate) fn new(alloc: Global, reader: R) -> ListVisitor<R, M, I>
        ensures reader { result.reader ≡ reader }
        ensures items { result.items ≡ None }
    {
        ListVisitor {
            alloc,
            reader,
            member: None,
            items: None,
        }
    }
}

impl<'de, M: Drop, I: InnerListReader<'de>, R: ListReader<'de, Member = M, Items = I>> Visitor<'de>
    for ListVisitor<R, M, I> {
    ghost use Rattle.sfv_readers.specs.Steps.{ListTakes};

    type Out = R;

    type Error = OutOfMemory;

    ghost takes = { ListTakes I.reads R.keeps R.reads };

    ghost fails = { λ _ _ _. I.may_fail ⊎ R.may_fail };

    ghost finishes = { λ s found. found ≡ s.reader };

    ghost finish_fails = { λ _ _. ⊥ };

    #[inline(always)]
    fn event(&mut self, event: Event<'de>) -> Result<(), OutOfMemory> {
        match event {
            Event::InnerList => self.items = Some(I::new(self.alloc)),
            Event::InnerListEnd => {
                if let Some(items) = self.items.take() {
                    self.member = Some(self.reader.inner_list(items));
                }
            }
            Event::BareItem(item) => match &mut self.items {
                Some(items) => items.item(item)?,
                None => self.member = Some(self.reader.item(item)),
            },
            Event::Parameter(key, value) => match &mut self.items {
                Some(items) => items.parameter(key, value)?,
                None => {
                    if let Some(member) = &mut self.member {
                        self.reader.parameter(member, key, value);
                    }
                }
            },
            Event::ParametersEnd => {
                if self.items.is_none() {
                    if let Some(member) = self.member.take() {
                        self.reader.member(member)?;
                    }
                }
            }
            Event::Entry | Event::Item | Event::KeyedEntry(_) => {}
        }
        Ok(())
    }

    #[inline(always)]
    fn finish(self) -> Result<R, OutOfMemory> {
        Ok(self.reader)
    }
}
