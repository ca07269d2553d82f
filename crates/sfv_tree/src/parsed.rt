//! Lists, dictionaries, inner lists, parameters and items (RFC 9651, sections 3.1 to 3.3).

ghost use Rattle.std.specs.Prelude.{◌≡◌, ◌≢◌, ◌+◌, ◌<◌, ◌≤◌, [], IsOk, IfOk, IfErr, OnOk, OnErr, None, map, bytes_eq};
ghost use Rattle.std.specs.Prelude.{option_copied, option_map};
ghost use Rattle.indexmap.specs.IndexMap.{get, hasher_of, insert_entry, shift_remove_entry, spare, IsUnique};
ghost use Rattle.sfv_spec.specs.Ordered.{last_of, without};
ghost use Rattle.sfv_values.specs.BareItems.{bare_value};
ghost use Rattle.sfv_values.specs.CheckedTexts.{text_of};
ghost use Rattle.sfv_spec.specs.Values.{item, inner_list};
ghost use Rattle.sfv_tree.specs.HashSeeds.{library_seed};
ghost use Rattle.sfv_tree.specs.Seeds.{member_seeds};
ghost use Rattle.sfv_tree.specs.Trees.{item_tree, pairs_tree, inner_list_tree, member_tree, dictionary_tree};
ghost use Rattle.sfv_tree.specs.Trees.{found, NeedsNoMemory};
ghost use Rattle.sfv_tree.specs.declared.parsed.ListEntry.TheVariants as entries;

use crate::hash_seed::HashSeed;
use crate::shorthand::parameters;
use indexmap::IndexMap;
use sfv_values::bare::BareItem;
use sfv_values::key::Key;
use sfv_values::key_ref::KeyRef;
use std::alloc::{AllocError, Global};

/// The parameters of an item or an inner list (RFC 9651, section 3.1.2): each key once, in order.
pub type Parameters = IndexMap<Key, BareItem, HashSeed>;

/// An item (RFC 9651, section 3.3): a bare item with its parameters.
///
/// Two items are equal if their bare items are equal and each key has equal values in both, in any order. A clone has
/// the same bare item, and the same parameters in the same order and under the same seed. Memory runs out only if there
/// is a text, a byte sequence or a parameter to copy.
#[derive(Debug, PartialEq, Drop)]
pub struct Item {
    /// The bare item.
    pub bare_item: BareItem,
    /// The parameters of the item.
    pub params: Parameters,
}

impl Item {
    /// Creates an item without parameters. Does not allocate; later parameters are allocated from `alloc`.
    pub fn new(alloc: Global, bare_item: BareItem) -> Item
        ensures value { result.bare_item ≡ bare_item }
        ensures params { result.params.entries ≡ [] }
        ensures seed { hasher_of result.params ≡ library_seed }
        ensures tree { item_tree result ≡ record { bare = bare_value bare_item; parameters = [] } }
    {
        Item {
            bare_item,
            params: parameters(alloc),
        }
    }

    /// Creates an item with parameters.
    pub fn with_params(bare_item: BareItem, params: Parameters) -> Item
        ensures value { result.bare_item ≡ bare_item }
        ensures params { result.params ≡ params }
        ensures tree { item_tree result ≡ record { bare = bare_value bare_item; parameters = pairs_tree params.entries } }
    {
        Item { bare_item, params }
    }
}

// Inserts a clone of a parameter. Its key is copied first, so any parameter may run out of memory.
fn insert_clone(params: &mut Parameters, key: &Key, value: &BareItem) -> Result<(), AllocError>
    ensures entries { OnOk result (pairs_tree params.new.entries
        ≡ insert_entry bytes_eq (pairs_tree params.old.entries) key.now (bare_value value.now)) }
    ensures seed { hasher_of params.new ≡ hasher_of params.old }
{
    params.insert(key.clone()?, value.clone()?)?;
    Ok(())
}

// Clones the parameters, in the same order and under the same seed. The contract of the map's own `clone` says nothing
// about the seed.
fn copy_params(params: &Parameters) -> Result<Parameters, AllocError>
    ensures tree { IfOk result (λ copy. pairs_tree copy.entries ≡ pairs_tree params.now.entries) }
    ensures seed { IfOk result (λ copy. hasher_of copy ≡ hasher_of params.now) }
    ensures out_of_memory { IfErr result (λ _. pairs_tree params.now.entries ≢ []) }
{
    let (alloc, seed) = (*params.allocator(), *params.hasher());
    let mut copy = Parameters::with_capacity_and_hasher(alloc, params.len(), seed)?;
    for (key, value) in params.iter() {
        insert_clone(&mut copy, key, value)?;
    }
    // At its first entry, a map allocates room for nine.
    copy.shrink_to_fit();
    Ok(copy)
}

impl Clone for Item {
    ghost is_clone = { λ item copy. (item_tree copy ≡ item_tree item)
        × (hasher_of copy.params ≡ hasher_of item.params) };

    ghost is_infallible = { λ i. NeedsNoMemory (item (item_tree i)) };

    fn clone(&self) -> Result<Item, AllocError> {
        let value = self.bare_item.clone()?;
        let params = copy_params(&self.params)?;
        Ok(Item::with_params(value, params))
    }
}

/// An inner list (RFC 9651, section 3.1.1): items in order, with their parameters, and the parameters of the inner
/// list.
///
/// A clone has the same items and parameters, under the same seed. The clone of an empty one does not allocate.
#[derive(Debug, PartialEq, Drop)]
pub struct InnerList {
    /// The items.
    pub items: Vec<Item>,
    /// The parameters of the inner list.
    pub params: Parameters,
}

impl InnerList {
    /// Creates an inner list without parameters. Does not allocate; later parameters are allocated from `alloc`.
    pub fn new(alloc: Global, items: Vec<Item>) -> InnerList
        ensures items { result.items ≡ items }
        ensures params { result.params.entries ≡ [] }
        ensures seed { hasher_of result.params ≡ library_seed }
        ensures tree { inner_list_tree result ≡ record { items = map item_tree items.items; parameters = [] } }
    {
        InnerList::with_params(items, parameters(alloc))
    }

    /// Creates an inner list with parameters.
    pub fn with_params(items: Vec<Item>, params: Parameters) -> InnerList
        ensures items { result.items ≡ items }
        ensures params { result.params ≡ params }
        ensures tree { inner_list_tree result ≡ inner_list_tree (record { items = items; params = params }) }
    {
        InnerList { items, params }
    }

    /// Creates an inner list without items and parameters. Does not allocate.
    pub fn empty(alloc: Global) -> InnerList
        ensures items { result.items.items ≡ [] }
        ensures params { result.params.entries ≡ [] }
        ensures seed { hasher_of result.params ≡ library_seed }
        ensures tree { inner_list_tree result ≡ record { items = []; parameters = [] } }
    {
        InnerList::new(alloc, Vec::new(alloc))
    }
}

// Clones the items, in the same order and under the same seed.
fn copy_items(items: &Vec<Item>) -> Result<Vec<Item>, AllocError>
    ensures tree { IfOk result (λ copy. map item_tree copy.items ≡ map item_tree items.now.items) }
    ensures seeds { IfOk result (λ copy. map (λ i. hasher_of i.params) copy.items
        ≡ map (λ i. hasher_of i.params) items.now.items) }
    ensures out_of_memory { IfErr result (λ _. map item_tree items.now.items ≢ []) }
{
    if items.is_empty() {
        return Ok(Vec::new(*items.allocator()));
    }
    let copy = items.clone()?;
    Ok(copy)
}

impl Clone for InnerList {
    ghost is_clone = { λ list copy. (inner_list_tree copy ≡ inner_list_tree list)
        × (member_seeds (entries.InnerList copy) ≡ member_seeds (entries.InnerList list)) };

    ghost is_infallible = { λ list. NeedsNoMemory (inner_list (inner_list_tree list)) };

    fn clone(&self) -> Result<InnerList, AllocError> {
        let items = copy_items(&self.items)?;
        Ok(InnerList::with_params(items, copy_params(&self.params)?))
    }
}

/// A member of a list (RFC 9651, section 3.1) or a dictionary (section 3.2): an item or an inner list.
///
/// A clone is a clone of the item or of the inner list.
#[derive(Debug, PartialEq, Drop)]
pub enum ListEntry {
    /// An item.
    Item(Item),
    /// An inner list.
    InnerList(InnerList),
}

/// A list (RFC 9651, section 3.1): its members in order.
pub type List = Vec<ListEntry>;

/// A dictionary (RFC 9651, section 3.2): each key once, in order, with its member.
pub type Dictionary = IndexMap<Key, ListEntry, HashSeed>;

impl From<Item> for ListEntry {
    ghost from_gives = { λ item member. member ≡ entries.Item item };

    fn from(item: Item) -> ListEntry {
        ListEntry::Item(item)
    }
}

impl From<InnerList> for ListEntry {
    ghost from_gives = { λ list member. member ≡ entries.InnerList list };

    fn from(list: InnerList) -> ListEntry {
        ListEntry::InnerList(list)
    }
}

impl Clone for ListEntry {
    ghost is_clone = { λ member copy. (member_tree copy ≡ member_tree member)
        × (member_seeds copy ≡ member_seeds member) };

    ghost is_infallible = { λ member. NeedsNoMemory (member_tree member) };

    fn clone(&self) -> Result<ListEntry, AllocError> {
        match self {
            ListEntry::Item(item) => {
                let copy = item.clone()?;
                Ok(ListEntry::Item(copy))
            }
            ListEntry::InnerList(list) => {
                let copy = list.clone()?;
                Ok(ListEntry::InnerList(copy))
            }
        }
    }
}

// Returns the number of entries up to which comparing them one by one costs no more than a hash of the key. Keys of
// more than eight bytes are hashed by SipHash, which takes longer.
#[inline(always)]
fn few(key: KeyRef<'_>) -> usize
    ensures { result ≤ 16 }
{
    if key.as_str().len() > 8 { 16 } else { 6 }
}

// Returns the value of a key, or `None`, by the hash of the key.
#[inline(never)]
fn find_hashed<'a, V>(map: &'a IndexMap<Key, V, HashSeed>, key: KeyRef<'_>) -> Option<&'a V>
    ensures { option_copied result ≡ get bytes_eq map.now (text_of key.entry) }
{
    map.get(key)
}

// Returns the value of a key, or `None`.
#[inline(always)]
fn find<'a, V>(map: &'a IndexMap<Key, V, HashSeed>, key: KeyRef<'_>) -> Option<&'a V>
    ensures value { option_copied result ≡ get bytes_eq map.now (text_of key.entry) }
    ensures unique { IsUnique bytes_eq map.now }
{
    if map.len() > few(key) {
        return find_hashed(map, key);
    }
    for (name, value) in map.iter() {
        if name.as_str() == key.as_str() {
            return Some(value);
        }
    }
    None
}

/// Returns the member of a key in a dictionary (RFC 9651, section 3.2), or `None`. Does not allocate.
///
/// The same as `dictionary.get(key)`, but compares the keys of a small dictionary one by one, without a hash.
pub fn find_entry<'a>(dictionary: &'a Dictionary, key: KeyRef<'_>) -> Option<&'a ListEntry>
    ensures value { option_copied result ≡ get bytes_eq dictionary.now (text_of key.entry) }
    ensures last { found member_tree result ≡ last_of (text_of key.entry) (dictionary_tree dictionary.now.entries) }
{
    find(dictionary, key)
}

/// Returns the value of a parameter (RFC 9651, section 3.1.2), or `None`. Does not allocate.
///
/// The same as `params.get(key)`, but compares the keys of few parameters one by one, without a hash.
pub fn find_param<'a>(params: &'a Parameters, key: KeyRef<'_>) -> Option<&'a BareItem>
    ensures value { option_copied result ≡ get bytes_eq params.now (text_of key.entry) }
    ensures last { found bare_value result ≡ last_of (text_of key.entry) (pairs_tree params.now.entries) }
{
    find(params, key)
}

/// Inserts a member into a dictionary (RFC 9651, section 3.2), and returns the old member of the key, or `None`.
///
/// An existing key keeps its place, and its member is replaced. A new key goes last.
///
/// # Errors
///
/// Returns `AllocError` if memory runs out. Only a new key allocates. The dictionary is then unchanged.
pub fn insert_entry(
    dictionary: &mut Dictionary,
    key: Key,
    member: ListEntry,
) -> Result<Option<ListEntry>, AllocError>
    ensures old { IfOk result (λ old. old ≡ get bytes_eq dictionary.old key) }
    ensures entries { OnOk result (dictionary.new.entries ≡ insert_entry bytes_eq dictionary.old.entries key member) }
    ensures seed { hasher_of dictionary.new ≡ hasher_of dictionary.old }
    ensures unchanged { OnErr result (dictionary.new.entries ≡ dictionary.old.entries) }
    ensures absent { OnErr result (get bytes_eq dictionary.old key ≡ None) }
    ensures succeeds { 0 < spare dictionary.old → IsOk result }
    ensures spare { spare dictionary.old ≤ spare dictionary.new + 1 }
    ensures distinct { IsUnique bytes_eq dictionary.new }
{
    Ok(dictionary.insert(key, member)?)
}

/// Inserts a parameter (RFC 9651, section 3.1.2), and returns the old value of the key, or `None`.
///
/// An existing key keeps its place, and its value is replaced. A new key goes last.
///
/// # Errors
///
/// Returns `AllocError` if memory runs out. Only a new key allocates. The parameters are then unchanged.
pub fn insert_param(
    params: &mut Parameters,
    key: Key,
    value: BareItem,
) -> Result<Option<BareItem>, AllocError>
    ensures old { IfOk result (λ old. old ≡ get bytes_eq params.old key) }
    ensures entries { OnOk result (params.new.entries ≡ insert_entry bytes_eq params.old.entries key value) }
    ensures seed { hasher_of params.new ≡ hasher_of params.old }
    ensures unchanged { OnErr result (params.new.entries ≡ params.old.entries) }
    ensures absent { OnErr result (get bytes_eq params.old key ≡ None) }
    ensures succeeds { 0 < spare params.old → IsOk result }
    ensures spare { spare params.old ≤ spare params.new + 1 }
    ensures distinct { IsUnique bytes_eq params.new }
{
    Ok(params.insert(key, value)?)
}

/// Removes the member of a key from a dictionary (RFC 9651, section 3.2), and returns it, or `None`. The other members
/// keep their order. Does not allocate.
///
/// The same as `dict.shift_remove(key)`, in linear time.
pub fn remove_entry(dict: &mut Dictionary, key: KeyRef<'_>) -> Option<ListEntry>
    ensures value { result ≡ get bytes_eq dict.old (text_of key.entry) }
    ensures last { option_map member_tree result ≡ last_of (text_of key.entry) (dictionary_tree dict.old.entries) }
    ensures gone { last_of (text_of key.entry) (dictionary_tree dict.new.entries) ≡ None }
    ensures others { dictionary_tree dict.new.entries
        ≡ without (text_of key.entry) (dictionary_tree dict.old.entries) }
    ensures entries { dict.new.entries
        ≡ shift_remove_entry (bytes_eq (text_of key.entry)) dict.old.entries }
    ensures seed { hasher_of dict.new ≡ hasher_of dict.old }
    ensures spare { spare dict.old ≤ spare dict.new }
    ensures distinct { IsUnique bytes_eq dict.new }
{
    // The call of `len` has the clause that the keys are unique.
    dict.len();
    dict.shift_remove(key)
}

/// Removes a parameter (RFC 9651, section 3.1.2), and returns its value, or `None`. The other parameters keep their
/// order. Does not allocate.
///
/// The same as `params.shift_remove(key)`, in linear time.
pub fn remove_param(params: &mut Parameters, key: KeyRef<'_>) -> Option<BareItem>
    ensures value { result ≡ get bytes_eq params.old (text_of key.entry) }
    ensures last { option_map bare_value result ≡ last_of (text_of key.entry) (pairs_tree params.old.entries) }
    ensures gone { last_of (text_of key.entry) (pairs_tree params.new.entries) ≡ None }
    ensures others { pairs_tree params.new.entries ≡ without (text_of key.entry) (pairs_tree params.old.entries) }
    ensures entries { params.new.entries ≡ shift_remove_entry (bytes_eq (text_of key.entry)) params.old.entries }
    ensures seed { hasher_of params.new ≡ hasher_of params.old }
    ensures spare { spare params.old ≤ spare params.new }
    ensures distinct { IsUnique bytes_eq params.new }
{
    // The call of `len` has the clause that the keys are unique.
    params.len();
    params.shift_remove(key)
}
