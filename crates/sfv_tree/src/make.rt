//! Types that name the visitor that builds them.

ghost use Rattle.std.specs.Prelude.{◌≡◌, [], None};
ghost use Rattle.sfv_tree.specs.declared.hash_seed.HashSeed.{HashSeed};
ghost use Rattle.sfv_tree.specs.Builders.{item_state, item_head, list_state, dictionary_state, IsItemUnder};
ghost use Rattle.sfv_tree.specs.Builders.{ListAddsUnder, DictionaryAddsUnder};

use crate::expect_item::{ExpectItem, ExpectedItem};
use crate::hash_seed::HashSeed;
use crate::parsed::{Dictionary, Item, List};
use crate::visitor::{DictionaryBuilder, ItemBuilder, ListBuilder, Visitor};
use std::alloc::Global;

/// A type that an item can be parsed to, with its visitor.
pub trait MakeItemVisitor<'de>: Drop {
    /// The visitor that returns a value of this type.
    type Visitor: Visitor<'de, Out = Self>;

    /// `is_made seed visitor`: `visitor` is as the type creates it under `seed`, before any event.
    ghost is_made: { HashSeed → Self.Visitor → Type 0 };

    /// Creates the visitor. It allocates from `alloc`, and builds maps under `seed`.
    fn make_item_visitor(alloc: Global, seed: HashSeed) -> Self::Visitor
        ensures made { is_made seed result }
        ensures ready { Self.Visitor.is_ready result };
}

/// A type that a list can be parsed to, with its visitor.
pub trait MakeListVisitor<'de>: Drop {
    /// The visitor that returns a value of this type.
    type Visitor: Visitor<'de, Out = Self>;

    /// `is_made seed visitor`: `visitor` is as the type creates it under `seed`, before any event.
    ghost is_made: { HashSeed → Self.Visitor → Type 0 };

    /// Creates the visitor. It allocates from `alloc`, and builds maps under `seed`.
    fn make_list_visitor(alloc: Global, seed: HashSeed) -> Self::Visitor
        ensures made { is_made seed result }
        ensures ready { Self.Visitor.is_ready result };
}

/// A type that a dictionary can be parsed to, with its visitor.
pub trait MakeDictionaryVisitor<'de>: Drop {
    /// The visitor that returns a value of this type.
    type Visitor: Visitor<'de, Out = Self>;

    /// `is_made seed visitor`: `visitor` is as the type creates it under `seed`, before any event.
    ghost is_made: { HashSeed → Self.Visitor → Type 0 };

    /// Creates the visitor. It allocates from `alloc`, and builds maps under `seed`.
    fn make_dictionary_visitor(alloc: Global, seed: HashSeed) -> Self::Visitor
        ensures made { is_made seed result }
        ensures ready { Self.Visitor.is_ready result };
}

impl<'de> MakeItemVisitor<'de> for Item {
    type Visitor = ItemBuilder;

    ghost is_made = { λ seed visitor. (item_state visitor ≡ item_head) × IsItemUnder seed visitor };

    fn make_item_visitor(alloc: Global, seed: HashSeed) -> ItemBuilder {
        ItemBuilder::new(alloc, seed)
    }
}

impl<'de, T: ExpectedItem<'de>> MakeItemVisitor<'de> for T {
    type Visitor = ExpectItem<T>;

    ghost is_made = { λ _ visitor. visitor.kept ≡ None };

    fn make_item_visitor(alloc: Global, _seed: HashSeed) -> ExpectItem<T> {
        ExpectItem::new(alloc)
    }
}

impl<'de> MakeListVisitor<'de> for List {
    type Visitor = ListBuilder;

    ghost is_made = { λ seed visitor. (list_state visitor ≡ ([], None)) × ListAddsUnder seed visitor };

    fn make_list_visitor(alloc: Global, seed: HashSeed) -> ListBuilder {
        ListBuilder::new(List::new(alloc), seed)
    }
}

impl<'de> MakeDictionaryVisitor<'de> for Dictionary {
    type Visitor = DictionaryBuilder;

    ghost is_made = { λ seed visitor. (dictionary_state visitor ≡ ([], None)) × DictionaryAddsUnder seed visitor };

    fn make_dictionary_visitor(alloc: Global, seed: HashSeed) -> DictionaryBuilder {
        DictionaryBuilder::new(Dictionary::with_hasher(alloc, seed))
    }
}
