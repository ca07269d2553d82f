//! The seeds of a value's maps, which are the seed of its parser.

use crate::common::{is_shown, near_power};
use sfv::visitor::{DictionaryBuilder, ItemBuilder, ListBuilder};
use sfv::{
    Dictionary, HashSeed, InnerList, Item, KeyRef, List, ListEntry, Parameters, Parser, Version,
    key_ref, parameters,
};
use std::alloc::Global;
use std::hash::BuildHasher;
use std::test::Fail;

const ITEM: &[u8] = b"1;x";

const LIST: &[u8] = b"1;x, (2;y 3);z, 4, ()";

const DICTIONARY: &[u8] = b"a=1;x, b=(2;y 3);z, c;w, d=4, a=(5;x)";

/// Returns a seed other than the library's.
fn seed() -> HashSeed {
    HashSeed::new(1)
}

/// Returns the parser of a text under that seed.
fn parser(text: &[u8]) -> Parser<'_> {
    Parser::new(text)
        .with_hash_seed(seed())
        .with_version(Version::Rfc8941)
}

/// Returns `true` if both seeds give the same hash.
fn is_seed(one: &HashSeed, other: HashSeed) -> bool {
    one.hash_one(7u64) == other.hash_one(7u64)
}

/// Returns `true` if the parameters of an item have that seed.
fn item_has_seed(item: &Item) -> bool {
    is_seed(item.params.hasher(), seed())
}

/// Returns `true` if the parameters of an inner list and of its items have that seed.
fn inner_list_has_seed(list: &InnerList) -> bool {
    for item in &list.items {
        if !item_has_seed(item) {
            return false;
        }
    }
    is_seed(list.params.hasher(), seed())
}

/// Returns `true` if all maps of a member have that seed.
fn member_has_seed(member: &ListEntry) -> bool {
    match member {
        ListEntry::Item(item) => item_has_seed(item),
        ListEntry::InnerList(list) => inner_list_has_seed(list),
    }
}

/// Returns `true` if all maps of a list have that seed.
fn list_has_seed(list: &List) -> bool {
    for member in list {
        if !member_has_seed(member) {
            return false;
        }
    }
    true
}

/// Returns `true` if a dictionary and all maps of its members have that seed.
fn dictionary_has_seed(dictionary: &Dictionary) -> bool {
    for (_, member) in dictionary.iter() {
        if !member_has_seed(member) {
            return false;
        }
    }
    is_seed(dictionary.hasher(), seed())
}

#[test]
fn seeds_are_told_apart(rt: HostRuntime) {
    let other = HashSeed::new(2);
    let apart = !is_seed(&seed(), other) & !is_seed(&seed(), HashSeed::default());
    let given = is_seed(&parser(ITEM).hash_seed(), seed())
        & is_seed(&Parser::new(ITEM).hash_seed(), HashSeed::default());
    assert!(rt; apart & given);
}

#[test]
fn all_seeds_are_shown_alike(rt: HostRuntime) -> Result<(), Fail> {
    let alloc = rt.alloc();
    let mut holds = is_shown(alloc, &HashSeed::default(), "HashSeed { .. }");
    for place in 0..20 * 189 {
        let seed = HashSeed::new(near_power(place));
        holds &= is_shown(alloc, &seed, "HashSeed { .. }");
        let shown = format!(in alloc; "{seed:#?}{seed:40?}{seed:+.1?}")?;
        holds &= shown.as_str() == "HashSeed { .. }HashSeed { .. }HashSeed { .. }";
    }
    assert!(rt; holds);
    Ok(())
}

/// Returns `true` if all maps of a parsed item and of its clone have that seed.
fn is_item_seeded<E: Drop>(read: Result<Item, E>) -> bool {
    let Ok(item) = read else {
        return false;
    };
    match item.clone() {
        Ok(copy) => item_has_seed(&item) & item_has_seed(&copy),
        Err(_) => false,
    }
}

/// Returns `true` if all maps of a parsed list and of its clone have that seed.
fn is_list_seeded<E: Drop>(read: Result<List, E>, length: usize) -> bool {
    let Ok(list) = read else {
        return false;
    };
    match list.clone() {
        Ok(copy) => list_has_seed(&list) & list_has_seed(&copy) & (list.len() == length),
        Err(_) => false,
    }
}

/// Returns `true` if all maps of a parsed dictionary and of its clone have that seed.
fn is_dictionary_seeded<E: Drop>(read: Result<Dictionary, E>, length: usize) -> bool {
    let Ok(dictionary) = read else {
        return false;
    };
    match dictionary.clone() {
        Ok(copy) => {
            dictionary_has_seed(&dictionary)
                & dictionary_has_seed(&copy)
                & (dictionary.len() == length)
        }
        Err(_) => false,
    }
}

#[test]
fn fields_and_their_copies_have_the_seed_of_their_parser(rt: HostRuntime) {
    let alloc = rt.alloc();
    assert!(rt; is_item_seeded(parser(ITEM).parse::<Item>(alloc)));
    assert!(rt; is_list_seeded(parser(LIST).parse::<List>(alloc), 4));
    assert!(rt; is_dictionary_seeded(parser(DICTIONARY).parse::<Dictionary>(alloc), 4));
}

#[test]
fn fields_of_made_visitors_have_the_seed_of_their_parser(rt: HostRuntime) {
    let alloc = rt.alloc();
    assert!(rt; is_item_seeded(parser(ITEM).parse_item::<Item>(alloc)));
    assert!(rt; is_list_seeded(parser(LIST).parse_list::<List>(alloc), 4));
    assert!(rt; is_dictionary_seeded(parser(DICTIONARY).parse_dictionary::<Dictionary>(alloc), 4));
}

// The parsers below have the library's seed, and builders do not use it.

/// Returns `true` if a built item has the seed of its builder.
fn is_built_item_seeded(alloc: Global) -> bool {
    let builder = ItemBuilder::new(alloc, seed());
    is_item_seeded(Parser::new(ITEM).parse_item_with_visitor(alloc, builder))
}

/// Returns `true` if a list that is built after another has the seed of its builder.
fn is_built_list_seeded(alloc: Global) -> bool {
    let Ok(held) = parser(LIST).parse::<List>(alloc) else {
        return false;
    };
    let builder = ListBuilder::new(held, seed());
    is_list_seeded(Parser::new(LIST).parse_list_with_visitor(alloc, builder), 8)
}

/// Returns `true` if a dictionary that is built after another has the seed of the other.
fn is_built_dictionary_seeded(alloc: Global) -> bool {
    let Ok(held) = parser(DICTIONARY).parse::<Dictionary>(alloc) else {
        return false;
    };
    let builder = DictionaryBuilder::new(held);
    let more = Parser::new(b"e=(1;x);y, a;z, f=2;w");
    is_dictionary_seeded(more.parse_dictionary_with_visitor(alloc, builder), 6)
}

#[test]
fn what_is_built_has_the_seed_of_its_builder(rt: HostRuntime) {
    let alloc = rt.alloc();
    assert!(rt; is_built_item_seeded(alloc));
    assert!(rt; is_built_list_seeded(alloc));
    assert!(rt; is_built_dictionary_seeded(alloc));
}

/// Returns `true` if dictionaries of one text are equal under two seeds.
fn are_equal_under_two_seeds(alloc: Global) -> bool {
    let Ok(known) = Parser::new(DICTIONARY).parse::<Dictionary>(alloc) else {
        return false;
    };
    match parser(DICTIONARY).parse::<Dictionary>(alloc) {
        Ok(other) => known == other,
        Err(_) => false,
    }
}

/// Returns `true` if the insertion of a parameter succeeds.
fn is_entered(params: &mut Parameters) -> bool {
    match key_ref("a").to_owned(*params.allocator()) {
        Ok(key) => params.insert(key, true.into()).is_ok(),
        Err(_) => false,
    }
}

/// Returns `true` if parameters under two seeds are equal while both are empty, and different after an insertion.
fn are_compared_under_two_seeds(alloc: Global) -> bool {
    let mut params = Parameters::with_hasher(alloc, seed());
    let none = parameters(alloc);
    (params == none) & is_entered(&mut params) & (params != none)
}

#[test]
fn maps_of_two_seeds_are_compared(rt: HostRuntime) {
    assert!(rt; are_equal_under_two_seeds(rt.alloc()));
    assert!(rt; are_compared_under_two_seeds(rt.alloc()));
}

/// Returns where a map of 1,024 groups begins its search for a key: the tag, and a stretch of 16 groups.
fn place(seed: HashSeed, key: &[u8]) -> Result<u64, Fail> {
    let hash = seed.hash_one(KeyRef::from_bytes(key)?);
    Ok((hash ^ hash >> 32) & 0xff00_03f0)
}

#[test]
fn keys_that_fall_together_are_ordinary_under_another_seed(rt: HostRuntime) -> Result<(), Fail> {
    let known = HashSeed::default();
    let first = place(known, b"aaaaa")?;
    let other = place(seed(), b"aaaaa")?;
    let (mut found, mut together) = (0u64, 0u64);
    for n in 0..400_000u32 {
        let letters = [n / 17_576 % 26, n / 676 % 26, n / 26 % 26, n % 26];
        let mut key = *b"aaaaa";
        for (at, letter) in letters.into_iter().enumerate() {
            key[at + 1] = b'a' + letter as u8;
        }
        if place(known, &key)? == first {
            found = found.saturating_add(1);
            if place(seed(), &key)? == other {
                together = together.saturating_add(1);
            }
        }
    }
    assert!(rt; found > 10);
    // The key itself, and at most one other.
    assert!(rt; together <= 2);
    Ok(())
}
