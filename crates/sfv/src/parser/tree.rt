//! Parsing to trees (RFC 9651, sections 4.2.1 to 4.2.3).
//!
//! These functions build what `ItemBuilder`, `ListBuilder` and `DictionaryBuilder` build from events. A list requests
//! room for an element when the element is complete.

ghost use Rattle.std.specs.Prelude.{◌≡◌, ◌<◌, ◌≤◌, ◌++◌, ◌∷◌, [], Bool, true, false, None, OnOk, OnErr, IfOk, IfErr};
ghost use Rattle.std.specs.Prelude.{All, map, length, is_some, vec_capacity, bytes_eq};
ghost use Rattle.indexmap.specs.IndexMap.{get, hasher_of, insert_entry, spare};
ghost use Rattle.sfv_spec.specs.Values.{RawField, inner_list};
ghost use Rattle.sfv_spec.specs.Statements.{IsParsedAs};
ghost use Rattle.sfv_spec.specs.declared.field_kind.FieldKind.TheVariants.{Item as item_field};
ghost use Rattle.sfv_spec.specs.Ordered.{collapse, ordered_item, ordered_member};
ghost use Rattle.sfv_base.specs.Errors.{out_of_memory};
ghost use Rattle.sfv_values.specs.BareItems.{bare_value, input_value};
ghost use Rattle.sfv_values.specs.CheckedTexts.{text_of};
ghost use Rattle.sfv_tree.specs.Trees.{pairs_tree, item_tree, member_tree, list_tree, dictionary_tree};
ghost use Rattle.sfv_tree.proofs.Words.{item_with, inner_list_with};
ghost use Rattle.sfv_tree.specs.Seeds.{ItemHasSeed, MemberHasSeed, ListHasSeed, DictionaryHasSeed};
ghost use Rattle.sfv_tree.specs.declared.hash_seed.HashSeed.{HashSeed};
ghost use Rattle.sfv_model.specs.Reader.{first};
ghost use Rattle.sfv_model.specs.Bare.{bare_at};
ghost use Rattle.sfv_model.specs.Items.{parameters_at, item_at};
ghost use Rattle.sfv_model.specs.Members.{inner_item_at, inner_items_at, inner_at, member_at, member_value_at};
ghost use Rattle.sfv_model.specs.Members.{keyed_at};
ghost use Rattle.sfv.specs.Memory.{NeedsMemory};
ghost use Rattle.sfv.specs.parser.Cursor.{MayNeedMemory, input, version, rest, IsFaultOf};
ghost use Rattle.sfv.specs.Parsers.{input_of, version_of, IsParseError};
ghost use Rattle.sfv.specs.parser.Members.{one_member_at, all_members_at, field_of};
ghost use Rattle.sfv.specs.parser.Trees.{Builds, EntriesHaveSeed, SpacesEndAt, ordered_members, with_member};

use crate::parser::Parser;
use crate::parser::cursor::Cursor;
use crate::parser::item::ReadParameter;
use sfv_base::error::{Error, ErrorKind, OutOfMemory};
use sfv_tree::capacity::fit_after;
use sfv_tree::hash_seed::HashSeed;
use sfv_tree::parsed::{Dictionary, InnerList, Item, List, ListEntry, Parameters};
use sfv_values::bare::{BareItem, BareItemFromInput, GenericBareItem};
use sfv_values::key::Key;
use sfv_values::key_ref::KeyRef;
use std::alloc::Global;

/// Makes room for one more element.
#[inline(always)]
fn make_room<T>(items: &mut Vec<T>) -> Result<(), OutOfMemory>
    ensures items { items.new.items ≡ items.old.items }
    ensures room { OnOk result (length items.new.items < vec_capacity items.new) }
    ensures full { OnErr result (vec_capacity items.old ≤ length items.old.items) }
{
    items.reserve(1)?;
    Ok(())
}

/// Inserts an owned parameter. An existing key keeps its place and takes the new value; a new key goes last.
// This and `enter_member` are one function for each type of values: with a type parameter, an old value is dropped by a
// call, or moved to the caller.
#[inline(always)]
fn enter_parameter(params: &mut Parameters, key: Key, value: BareItem) -> Result<(), OutOfMemory>
    ensures entries { OnOk result (params.new.entries ≡ insert_entry bytes_eq params.old.entries key value) }
    ensures hasher { hasher_of params.new ≡ hasher_of params.old }
    ensures unchanged { OnErr result (params.new.entries ≡ params.old.entries) }
    ensures absent { OnErr result (get bytes_eq params.old key ≡ None) }
    ensures full { OnErr result (spare params.old ≡ 0) }
{
    match params.insert(key, value) {
        Ok(_) => Ok(()),
        Err(_) => Err(OutOfMemory),
    }
}

/// Inserts a member, as `enter_parameter` inserts a parameter.
#[inline(always)]
fn enter_member(dictionary: &mut Dictionary, key: Key, member: ListEntry) -> Result<(), OutOfMemory>
    ensures entries { OnOk result (dictionary.new.entries ≡ insert_entry bytes_eq dictionary.old.entries key member) }
    ensures hasher { hasher_of dictionary.new ≡ hasher_of dictionary.old }
    ensures unchanged { OnErr result (dictionary.new.entries ≡ dictionary.old.entries) }
    ensures absent { OnErr result (get bytes_eq dictionary.old key ≡ None) }
    ensures full { OnErr result (spare dictionary.old ≡ 0) }
{
    match dictionary.insert(key, member) {
        Ok(_) => Ok(()),
        Err(_) => Err(OutOfMemory),
    }
}

/// Inserts a parsed parameter. Its key is copied first, so any parameter may run out of memory.
#[inline(always)]
fn insert_parameter(
    alloc: Global,
    params: &mut Parameters,
    parameter: ReadParameter<'_>,
) -> Result<(), Error>
    ensures seed { hasher_of params.new ≡ hasher_of params.old }
    ensures entries { OnOk result (pairs_tree params.new.entries ≡ insert_entry bytes_eq
        (pairs_tree params.old.entries) (text_of parameter.entry.key) (input_value parameter.entry.value)) }
    ensures out_of_memory { IfErr result (λ e. e ≡ out_of_memory) }
{
    let ReadParameter { key, value } = parameter;
    let key = key.to_owned(alloc)?;
    let value = value.try_into_owned(alloc)?;
    enter_parameter(params, key, value)?;
    Ok(())
}

impl<'de> Cursor<'de> {
    /// Fails if the next byte begins no bare item.
    // The test costs an accepted field little. Without it, a field that is rejected at its first byte pays for the
    // setup of a parse.
    #[inline(always)]
    fn expect_bare_item_start(&self) -> Result<(), Error>
        ensures { IfErr result (λ e. IsFaultOf (input self.now) e (bare_at (version self.now) (rest self.now))) }
    {
        if self.next_is_number_start()
            || self.next_is_token_start()
            || self.next_is(b'"')
            || self.next_is(b'?')
            || self.next_is(b':')
            || self.next_is(b'@')
            || self.next_is(b'%')
        {
            return Ok(());
        }
        Err(self.error(ErrorKind::ExpectedStartOfBareItem))
    }

    /// Parses parameters into `params`.
    // The parameters are filled in place: a result that contains them is copied at each return.
    #[inline(never)]
    fn collect_parameters(&mut self, params: &mut Parameters) -> Result<(), Error>
        requires { params.old.entries ≡ [] }
        ensures tree { Builds (λ _. pairs_tree params.new.entries) collapse
            self.old self.new result parameters_at }
        ensures seed { hasher_of params.new ≡ hasher_of params.old }
    {
        while let Some(parameter) = self.parameter()? {
            insert_parameter(self.alloc, params, parameter)?;
        }
        fit_after(self.count, params);
        Ok(())
    }

    /// Parses any number of parameters, as `collect_parameters` does.
    // Most items have no parameters, so the choice is inlined.
    #[inline(always)]
    fn tree_parameters(&mut self, params: &mut Parameters) -> Result<(), Error>
        requires { params.old.entries ≡ [] }
        ensures tree { Builds (λ _. pairs_tree params.new.entries) collapse
            self.old self.new result parameters_at }
        ensures memory { OnErr result (MayNeedMemory item_field (input self.old)) }
        ensures seed { hasher_of params.new ≡ hasher_of params.old }
    {
        if self.next_is(b';') {
            return self.collect_parameters(params);
        }
        Ok(())
    }

    /// Parses the bare item of an item, and returns it with owned text.
    #[inline(always)]
    fn owned_bare_item(&mut self) -> Result<BareItem, Error>
        ensures read { Builds bare_value (λ raw. raw) self.old self.new result bare_at }
        ensures memory { IfErr result (NeedsMemory item_field (input self.old)) }
    {
        let bare_item = self.bare_item()?;
        let owned = bare_item.try_into_owned(self.alloc)?;
        Ok(owned)
    }

    /// Parses an item: returns its bare item, and fills `params`.
    #[inline(always)]
    fn tree_item(&mut self, params: &mut Parameters) -> Result<BareItem, Error>
        requires { params.old.entries ≡ [] }
        ensures tree { Builds (λ bare_item. item_with bare_item params.new.entries) ordered_item
            self.old self.new result item_at }
        ensures memory { IfErr result (NeedsMemory item_field (input self.old)) }
        ensures seed { hasher_of params.new ≡ hasher_of params.old }
    {
        let bare_item = self.owned_bare_item()?;
        self.tree_parameters(params)?;
        Ok(bare_item)
    }

    /// Parses an item of an inner list, and appends it to `items`.
    #[inline(always)]
    fn push_inner_item(&mut self, items: &mut Vec<Item>) -> Result<(), Error>
        ensures tree { Builds (λ _. map item_tree items.new.items)
            (λ raw. map item_tree items.old.items ++ ordered_item raw ∷ [])
            self.old self.new result inner_item_at }
        ensures seed { OnOk result (All (ItemHasSeed self.old.parser.seed) items.old.items
            → All (ItemHasSeed self.old.parser.seed) items.new.items) }
    {
        let mut params = Parameters::with_hasher(self.alloc, self.parser.seed);
        let bare_item = self.tree_item(&mut params)?;
        make_room(items)?;
        items.push_reserved(Item::with_params(bare_item, params));
        self.count = self.count.saturating_add(1);
        Ok(())
    }

    /// Parses the items of an inner list after its opening parenthesis, with the closing one.
    fn tree_inner_items(&mut self) -> Result<Vec<Item>, Error>
        ensures tree { Builds (λ items. map item_tree items.items) (map ordered_item)
            self.old self.new result inner_items_at }
        ensures seed { IfOk result (λ items. All (ItemHasSeed self.old.parser.seed) items.items) }
    {
        if self.peek().is_none() {
            return Err(self.error(ErrorKind::UnterminatedInnerList));
        }
        self.skip_sp();
        let mut items = Vec::new(self.alloc);
        if self.take_if(b')') {
            return Ok(items);
        }
        self.push_inner_item(&mut items)?;
        while self.consume_item_delimiter()? {
            self.push_inner_item(&mut items)?;
        }
        Ok(items)
    }

    /// Parses an inner list after its opening parenthesis: returns its items, and fills `params`.
    #[inline(never)]
    fn tree_inner_list(&mut self, params: &mut Parameters) -> Result<Vec<Item>, Error>
        requires { params.old.entries ≡ [] }
        ensures tree { Builds (λ items. inner_list (inner_list_with items.items params.new.entries)) ordered_member
            self.old self.new result inner_at }
        ensures seed { hasher_of params.new ≡ hasher_of params.old }
        ensures item_seeds { IfOk result (λ items. All (ItemHasSeed self.old.parser.seed) items.items) }
    {
        let count = self.count;
        let items = self.tree_inner_items()?;
        self.count = count;
        self.tree_parameters(params)?;
        Ok(items)
    }

    /// Parses an item or an inner list.
    #[inline(always)]
    fn tree_member(&mut self) -> Result<ListEntry, Error>
        ensures tree { Builds member_tree ordered_member self.old self.new result member_at }
        ensures seed { IfOk result (MemberHasSeed self.old.parser.seed) }
    {
        let mut params = Parameters::with_hasher(self.alloc, self.parser.seed);
        if self.take_if(b'(') {
            let items = self.tree_inner_list(&mut params)?;
            return Ok(ListEntry::InnerList(InnerList::with_params(items, params)));
        }
        let bare_item = self.tree_item(&mut params)?;
        Ok(ListEntry::Item(Item::with_params(bare_item, params)))
    }

    /// Parses the rest of a dictionary member after its key. Without `=`, the member is the item true.
    #[inline(always)]
    fn tree_member_value(&mut self) -> Result<ListEntry, Error>
        ensures tree { Builds member_tree ordered_member self.old self.new result member_value_at }
        ensures seed { IfOk result (MemberHasSeed self.old.parser.seed) }
    {
        if self.take_if(b'=') {
            return self.tree_member();
        }
        let mut params = Parameters::with_hasher(self.alloc, self.parser.seed);
        self.tree_parameters(&mut params)?;
        Ok(ListEntry::Item(Item::with_params(GenericBareItem::Boolean(true), params)))
    }

    /// Parses a member of a list, and appends it to `list`.
    #[inline(always)]
    fn push_member(&mut self, list: &mut List) -> Result<(), Error>
        ensures tree { Builds (λ _. list_tree list.new.items)
            (λ raw. list_tree list.old.items ++ ordered_member raw ∷ [])
            self.old self.new result member_at }
        ensures seed { OnOk result (ListHasSeed self.old.parser.seed list.old.items
            → ListHasSeed self.old.parser.seed list.new.items) }
    {
        self.count = list.len();
        let member = self.tree_member()?;
        make_room(list)?;
        list.push_reserved(member);
        Ok(())
    }

    /// Parses a member of a dictionary, and inserts it into `dictionary`.
    // Inlined: a call saves and clears registers and stack for each member.
    #[inline(always)]
    fn insert_member(&mut self, dictionary: &mut Dictionary) -> Result<(), Error>
        ensures tree { Builds (λ _. dictionary_tree dictionary.new.entries)
            (λ raw. insert_entry bytes_eq (dictionary_tree dictionary.old.entries) raw.0 (ordered_member raw.1))
            self.old self.new result keyed_at }
        ensures hasher { hasher_of dictionary.new ≡ hasher_of dictionary.old }
        ensures seed { OnOk result (EntriesHaveSeed self.old.parser.seed dictionary.old.entries
            → EntriesHaveSeed self.old.parser.seed dictionary.new.entries) }
    {
        let key = self.key()?;
        self.count = dictionary.len();
        let member = self.tree_member_value()?;
        // After the value: if that is wrong, there is no copy.
        let key = key.to_owned(self.alloc)?;
        enter_member(dictionary, key, member)?;
        Ok(())
    }

    /// Parses the members of a list or a dictionary up to the end of the input, after leading spaces.
    #[inline(never)]
    fn tree_members<M: Members>(&mut self) -> Result<M, Error>
        ensures tree { Builds M.tree (ordered_members M.keyed)
            self.old self.new result (all_members_at M.keyed) }
        ensures end { OnOk result (rest self.new ≡ []) }
        ensures seed { IfOk result (M.has_seed self.old.parser.seed) }
        ensures some { OnErr result (is_some (first (rest self.old)) ≡ true) }
    {
        let mut members = M::empty(self.alloc, self.parser.seed);
        if self.peek().is_none() {
            return Ok(members);
        }
        M::add_member(self, &mut members)?;
        while self.consume_comma()? {
            M::add_member(self, &mut members)?;
        }
        Ok(members)
    }
}

/// A list or a dictionary that the parser fills.
pub(crate) trait Members: Drop {
    /// Whether the members have keys.
    ghost keyed: { Bool };

    ghost tree: { Self → RawField (field_of keyed) };

    ghost has_seed: { HashSeed → Self → Type 0 };

    /// Creates a value without members.
    fn empty(alloc: Global, seed: HashSeed) -> Self
        ensures tree { tree result ≡ ordered_members keyed [] }
        ensures seed { has_seed seed result };

    /// Fails if neither a member begins nor the input ends.
    fn expect_start(cursor: &Cursor<'_>) -> Result<(), Error>
        ensures { IfErr result (λ e.
            IsFaultOf (input cursor.now) e (all_members_at keyed (version cursor.now) (rest cursor.now))) };

    /// Parses a member, and adds it to `members`.
    fn add_member(cursor: &mut Cursor<'_>, members: &mut Self) -> Result<(), Error>
        ensures tree { Builds (λ _. tree members.new) (with_member keyed (tree members.old))
            cursor.old cursor.new result (one_member_at keyed) }
        ensures seed { OnOk result (has_seed cursor.old.parser.seed members.old
            → has_seed cursor.old.parser.seed members.new) };
}

impl Members for List {
    ghost keyed = { false };

    ghost tree = { λ list. list_tree list.items };

    ghost has_seed = { λ seed list. ListHasSeed seed list.items };

    #[inline(always)]
    fn empty(alloc: Global, _seed: HashSeed) -> List {
        List::new(alloc)
    }

    #[inline(always)]
    fn expect_start(cursor: &Cursor<'_>) -> Result<(), Error> {
        if cursor.peek().is_none() {
            return Ok(());
        }
        if cursor.next_is(b'(') {
            return Ok(());
        }
        cursor.expect_bare_item_start()
    }

    #[inline(always)]
    fn add_member(cursor: &mut Cursor<'_>, members: &mut List) -> Result<(), Error> {
        cursor.push_member(members)
    }
}

impl Members for Dictionary {
    ghost keyed = { true };

    ghost tree = { λ dictionary. dictionary_tree dictionary.entries };

    ghost has_seed = { DictionaryHasSeed };

    #[inline(always)]
    fn empty(alloc: Global, seed: HashSeed) -> Dictionary {
        Dictionary::with_hasher(alloc, seed)
    }

    #[inline(always)]
    fn expect_start(cursor: &Cursor<'_>) -> Result<(), Error> {
        if cursor.peek().is_none() {
            return Ok(());
        }
        if cursor.next_is_key_start() {
            return Ok(());
        }
        Err(cursor.error(ErrorKind::ExpectedStartOfKey))
    }

    #[inline(always)]
    fn add_member(cursor: &mut Cursor<'_>, members: &mut Dictionary) -> Result<(), Error> {
        cursor.insert_member(members)
    }
}

/// Parses the input from `index` on, where its leading spaces end, as an item.
// A separate function: an item that is rejected at its first byte saves no registers.
#[inline(never)]
fn item_from(parser: Parser<'_>, alloc: Global, index: usize) -> Result<Item, Error>
    requires { SpacesEndAt (input_of parser) index }
    ensures read { IfOk result (λ item.
        IsParsedAs (version_of parser.entry) item_field (input_of parser.entry) (item_tree item)) }
    ensures seed { IfOk result (ItemHasSeed parser.entry.seed) }
    ensures rejected { IfErr result (IsParseError (version_of parser.entry) item_field (input_of parser.entry)) }
    ensures memory { IfErr result (NeedsMemory item_field (input_of parser.entry)) }
{
    let mut cursor = Cursor {
        parser,
        alloc,
        index,
        count: 0,
    };
    let mut params = Parameters::with_hasher(alloc, parser.seed);
    let bare_item = cursor.tree_item(&mut params)?;
    cursor.skip_sp();
    if cursor.peek().is_some() {
        return Err(cursor.error(ErrorKind::TrailingCharactersAfterParsedValue));
    }
    Ok(Item::with_params(bare_item, params))
}

/// Parses the input as an item.
///
/// # Errors
///
/// Returns the errors of `Parser::parse`.
#[inline(always)]
pub(crate) fn parse_item(parser: Parser<'_>, alloc: Global) -> Result<Item, Error>
    ensures read { IfOk result (λ item.
        IsParsedAs (version_of parser.entry) item_field (input_of parser.entry) (item_tree item)) }
    ensures seed { IfOk result (ItemHasSeed parser.entry.seed) }
    ensures rejected { IfErr result (IsParseError (version_of parser.entry) item_field (input_of parser.entry)) }
    ensures memory { IfErr result (NeedsMemory item_field (input_of parser.entry)) }
{
    let mut cursor = Cursor::new(parser, alloc);
    cursor.skip_sp();
    cursor.expect_bare_item_start()?;
    item_from(parser, alloc, cursor.index)
}

/// Parses the input as a list or a dictionary.
///
/// # Errors
///
/// Returns the errors of `Parser::parse`.
#[inline(always)]
pub(crate) fn parse_members<M: Members>(parser: Parser<'_>, alloc: Global) -> Result<M, Error>
    ensures read { IfOk result (λ members.
        IsParsedAs (version_of parser.entry) (field_of M.keyed) (input_of parser.entry) (M.tree members)) }
    ensures seed { IfOk result (M.has_seed parser.entry.seed) }
    ensures rejected { IfErr result
        (IsParseError (version_of parser.entry) (field_of M.keyed) (input_of parser.entry)) }
    ensures memory { IfErr result (NeedsMemory (field_of M.keyed) (input_of parser.entry)) }
{
    let mut cursor = Cursor::new(parser, alloc);
    cursor.skip_sp();
    M::expect_start(&cursor)?;
    // Only this copy is kept in memory, so a field that is rejected at its first byte stores no cursor.
    let mut rest = cursor;
    rest.tree_members()
}
