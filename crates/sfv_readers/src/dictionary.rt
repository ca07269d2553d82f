//! Readers of dictionaries.

ghost use Rattle.std.specs.Prelude.{◌≡◌, ⊤, ℕ, List, []};
ghost use Rattle.sfv_spec.specs.Values.{RawItem, RawParameters, RawMember};
ghost use Rattle.sfv_values.specs.CheckedTexts.{text_of};
ghost use Rattle.sfv_values.specs.BareItems.{input_value};
ghost use Rattle.sfv_readers.specs.Words.{Members, IsKeyFor, PutsItem, PutsInnerList, PutsParameter};

use crate::inner_list::InnerListReader;
use sfv_base::error::OutOfMemory;
use sfv_tree::visitor::{Event, Visitor};
use sfv_values::bare::BareItemFromInput;
use sfv_values::key_ref::KeyRef;
use std::alloc::Global;

/// A reader that receives the members of a dictionary whose keys matter to it, one at a time.
///
/// `Key` has a value for each of these keys. `Self` is the state after the members so far. A member replaces an earlier
/// one with the same key.
pub trait DictionaryReader<'de>: Drop {
    /// A key that matters.
    type Key: Copy + Drop;

    /// The reader of the items of an inner list: `IgnoredItems` if they do not matter.
    type Items: InnerListReader<'de>;

    /// `text start key`: the text of a key, for a reader that was `start` before any member.
    ghost text: { Self → Self.Key → List ℕ };

    /// `reads start reader members`: `reader` is the state after these members, from `start`. No key is repeated.
    ghost reads: { Self → Self → Members → Type 0 };

    /// Returns the `Key` of a key, or `None` if its member changes nothing.
    fn key(&self, key: KeyRef<'de>) -> Option<Self::Key>
        ensures { IsKeyFor reads text self.now (text_of key.entry) result };

    /// Receives the bare item of a member that is an item. The member replaces an earlier one with the same key.
    fn item(&mut self, key: Self::Key, item: BareItemFromInput<'de>)
        ensures { PutsItem reads text self.old self.new key (input_value item.entry) };

    /// Receives the items of a member that is an inner list. The member replaces an earlier one with the same key.
    fn inner_list(&mut self, key: Self::Key, items: Self::Items)
        ensures { PutsInnerList reads text Self.Items.reads self.old self.new key items };

    /// Receives a parameter of the member. It replaces an earlier one with the same name.
    fn parameter(&mut self, key: Self::Key, name: KeyRef<'de>, value: BareItemFromInput<'de>)
        ensures { PutsParameter reads text self.old self.new key (text_of name.entry) (input_value value.entry) };
}

/// A visitor that passes the parts of a dictionary to a reader.
#[derive(Drop)]
pub(crate) struct DictionaryVisitor<R, K, I> {
    alloc: Global,
    reader: R,
    // The key of the member that is being parsed, if it matters; `None` within an inner list.
    key: Option<K>,
    // This key, within an inner list.
    outer: Option<K>,
    // The reader of the items, within an inner list whose key matters.
    items: Option<I>,
}

impl<R, K, I> DictionaryVisitor<R, K, I> {
    /// Creates the visitor.
    pub(crate) fn new(alloc: Global, reader: R) -> DictionaryVisitor<R, K, I>
        ensures { result.reader ≡ reader }
    {
        DictionaryVisitor {
            alloc,
            reader,
            key: None,
            outer: None,
            items: None,
        }
    }
}

impl<
    'de,
    K: Copy + Drop,
    I: InnerListReader<'de>,
    R: DictionaryReader<'de, Key = K, Items = I>,
> Visitor<'de> for DictionaryVisitor<R, K, I> {
    ghost use Rattle.sfv_readers.specs.Steps.{DictionaryTakes};

    type Out = R;

    type Error = OutOfMemory;

    ghost takes = { DictionaryTakes I.reads R.text R.reads };

    ghost fails = { λ _ _ _. I.may_fail };

    ghost finishes = { λ s found. found ≡ s.reader };

    ghost finish_fails = { λ _ _. ⊥ };

    #[inline(always)]
    fn event(&mut self, event: Event<'de>) -> Result<(), OutOfMemory> {
        match event {
            Event::KeyedEntry(key) => self.key = self.reader.key(key),
            Event::InnerList => {
                self.outer = self.key;
                if self.key.is_some() {
                    self.items = Some(I::new(self.alloc));
                }
                self.key = None;
            }
            Event::InnerListEnd => {
                self.key = self.outer;
                if let Some(key) = self.key {
                    if let Some(items) = self.items.take() {
                        self.reader.inner_list(key, items);
                    }
                }
            }
            Event::BareItem(item) => match self.key {
                Some(key) => self.reader.item(key, item),
                None => {
                    if let Some(items) = &mut self.items {
                        items.item(item)?;
                    }
                }
            },
            Event::Parameter(name, value) => match self.key {
                Some(key) => self.reader.parameter(key, name, value),
                None => {
                    if let Some(items) = &mut self.items {
                        items.parameter(name, value)?;
                    }
                }
            },
            Event::Entry | Event::Item | Event::ParametersEnd => {}
        }
        Ok(())
    }

    #[inline(always)]
    fn finish(self) -> Result<R, OutOfMemory> {
        Ok(self.reader)
    }
}
