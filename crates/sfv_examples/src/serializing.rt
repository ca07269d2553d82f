//! Serialization of lists and dictionaries, member by member.

ghost use Rattle.std.specs.Prelude.{◌≡◌, ◌++◌, ◌∷◌, [], true, false, OnOk, OnErr, IfOk, IfErr, map, codes};
ghost use Rattle.std.specs.Prelude.{string_bytes};
ghost use Rattle.sfv.specs.Canonical.{bare_text, item_text, inner_list_text, dictionary_member_text};
ghost use Rattle.sfv.specs.Values.{item, inner_list};
ghost use Rattle.sfv.specs.Types.{list_field};
ghost use Rattle.sfv.specs.Ordered.{ordered};
ghost use Rattle.sfv.specs.Trees.{list_tree};
ghost use Rattle.sfv.specs.Scripts.{described_list};
ghost use Rattle.sfv.specs.Errors.{out_of_memory};
ghost use Rattle.sfv.specs.BareItems.{ref_value};
ghost use Rattle.sfv.specs.CheckedTexts.{text_of};
ghost use Rattle.sfv.specs.Written.{keyed_text, with_separators, LacksRoom};
ghost use Rattle.sfv.specs.Versions.{ChecksVersionFirst, OnOutOfMemory};
ghost use Rattle.sfv.specs.Types.serialize_errors as errors;
ghost use Rattle.sfv.specs.Serializers.{lent_sequence, HasAppended, HasAppendedNext, GrowsSequence, KeepsSequence};
ghost use Rattle.sfv.specs.Serializers.{sequence_sink, sequence_version, is_empty_so_far, LacksNext};
ghost use Rattle.sfv_examples.specs.Uses.{item_of_one, item_of_two, pair_of, example_dictionary, Adds, AddsMember};
ghost use Rattle.sfv_examples.specs.Uses.{AddsItem, AddsAtMost, pair_text, empty_text, named_text, ChecksEach};
ghost use Rattle.sfv_examples.specs.Uses.{named_pair_text, MemberLacksRoom, ItemLacksRoom};

use crate::writing::write_item;
use sfv::script::{MemberCalls, run_list};
use sfv::{
    Decimal, DictSerializer, Error, GenericBareItem, InnerListSerializer, KeyRef, List,
    ListSerializer, Parser, RefBareItem, SequenceSerializer, SerializeError, Sink, integer,
    key_ref, string_ref, token_ref,
};
use std::alloc::Global;

/// Writes a member with two parameters of the same key.
///
/// # Errors
///
/// Returns `Unsupported` with the kind of the first value that the version lacks, and `OutOfMemory` if memory runs out,
/// which happens only if the text lacks the capacity.
pub fn write_member<W: Sink>(
    list: &mut ListSerializer<W>,
    value: RefBareItem<'_>,
    key: KeyRef<'_>,
    first: RefBareItem<'_>,
    second: RefBareItem<'_>,
) -> Result<(), SerializeError>
    ensures text { OnOk result (AddsMember W.Sink list.old list.new
        (pair_text value.entry key.entry first.entry second.entry)) }
    ensures unsupported { ChecksEach (sequence_version list.old)
        (value.entry ∷ first.entry ∷ second.entry ∷ []) result }
    ensures room { MemberLacksRoom W.Sink list.old
        (pair_text value.entry key.entry first.entry second.entry) result }
{
    let params = list.bare_item(value)?;
    params
        .parameter(key, first)?
        .parameter(key, second)?
        .finish();
    Ok(())
}

/// Writes an item of any inner list.
fn put<X: Sink>(
    inner: &mut InnerListSerializer<X>,
    value: RefBareItem<'_>,
) -> Result<(), SerializeError>
    ensures text { OnOk result (HasAppendedNext X.Sink (codes " ") inner.old inner.new
        (bare_text (ref_value value.entry)) false) }
    ensures unsupported { ChecksVersionFirst (sequence_version inner.old) (ref_value value.entry ∷ []) result }
    ensures room { ItemLacksRoom X.Sink inner.old (bare_text (ref_value value.entry)) result }
    ensures kept { OnErr result (KeepsSequence X.Sink inner.old inner.new) }
    ensures grows { GrowsSequence X.Sink inner.old inner.new }
{
    inner.bare_item(value)?.finish();
    Ok(())
}

/// Writes an item with a parameter, in any inner list.
fn put_with<X: Sink>(
    inner: &mut InnerListSerializer<X>,
    value: RefBareItem<'_>,
    param: (KeyRef<'_>, RefBareItem<'_>),
) -> Result<(), SerializeError>
    ensures text { OnOk result (HasAppendedNext X.Sink (codes " ") inner.old inner.new
        (item_text (item_of_one (ref_value value.entry)
        (text_of param.entry.0) (ref_value param.entry.1))) false) }
    ensures unsupported { ChecksEach (sequence_version inner.old) (value.entry ∷ param.entry.1 ∷ []) result }
    ensures room { ItemLacksRoom X.Sink inner.old (item_text (item_of_one (ref_value value.entry)
        (text_of param.entry.0) (ref_value param.entry.1))) result }
    ensures grows { GrowsSequence X.Sink inner.old inner.new }
{
    let (key, param) = param;
    let params = inner.bare_item(value)?;
    params.parameter(key, param)?.finish();
    Ok(())
}

/// Writes an item of an inner list that is a member of a list or a dictionary.
///
/// # Errors
///
/// Returns `Unsupported` if the version lacks the value, and `OutOfMemory` if memory runs out, which happens only if
/// the text lacks the capacity. After an error, the text is unchanged.
pub fn write_inner<W: Sink, K>(
    inner: &mut InnerListSerializer<&mut SequenceSerializer<W, K>>,
    value: RefBareItem<'_>,
) -> Result<(), SerializeError>
    ensures lent { (sequence_sink inner.new).ghost_name ≡ (sequence_sink inner.old).ghost_name }
    ensures text { OnOk result (AddsItem (lent_sequence W.Sink) inner.old inner.new
        (bare_text (ref_value value.entry))) }
    ensures unsupported { ChecksVersionFirst (sequence_version inner.old) (ref_value value.entry ∷ []) result }
    ensures room { ItemLacksRoom (lent_sequence W.Sink) inner.old (bare_text (ref_value value.entry)) result }
    ensures kept { OnErr result (KeepsSequence (lent_sequence W.Sink) inner.old inner.new) }
    ensures grows { GrowsSequence (lent_sequence W.Sink) inner.old inner.new }
{
    put(inner, value)
}

/// Begins an inner list, and abandons it: the text and `has_member` are unchanged, after an error, too.
///
/// # Errors
///
/// Returns `Unsupported` if the version lacks the value, and `OutOfMemory` if memory runs out, which happens only if
/// the text lacks the capacity for the beginning of the inner list.
pub fn abandon_one<W: Sink>(
    list: &mut ListSerializer<W>,
    value: RefBareItem<'_>,
) -> Result<(), SerializeError>
    ensures kept { KeepsSequence W.Sink list.old list.new }
    ensures unsupported { ChecksEach (sequence_version list.old) (value.entry ∷ []) result }
    ensures room { MemberLacksRoom W.Sink list.old (codes "(" ++ bare_text (ref_value value.entry)) result }
{
    let mut inner = list.inner_list()?;
    let written = write_inner(&mut inner, value);
    inner.abandon();
    written
}

/// Writes an empty inner list with a parameter.
///
/// # Errors
///
/// Returns `Unsupported` if the version lacks the value, and `OutOfMemory` if memory runs out, which happens only if
/// the text lacks the capacity.
pub fn write_empty<W: Sink>(
    list: &mut ListSerializer<W>,
    key: KeyRef<'_>,
    param: RefBareItem<'_>,
) -> Result<(), SerializeError>
    ensures text { OnOk result (AddsMember W.Sink list.old list.new (empty_text key.entry param.entry)) }
    ensures unsupported { ChecksEach (sequence_version list.old) (param.entry ∷ []) result }
    ensures room { MemberLacksRoom W.Sink list.old (empty_text key.entry param.entry) result }
{
    list.inner_list()?.finish()?.parameter(key, param)?.finish();
    Ok(())
}

/// Writes the member `1;a;a=2`.
fn write_one<W: Sink>(list: &mut ListSerializer<W>) -> Result<(), SerializeError>
    ensures text { OnOk result (AddsMember W.Sink list.old list.new (codes "1;a;a=2")) }
    ensures room { OnErr result (LacksNext W.Sink (codes ", ") list.old (codes "1;a;a=2")) }
    ensures failed { IfErr result (λ error. error ≡ errors.OutOfMemory) }
{
    let one: RefBareItem = GenericBareItem::Integer(integer(1));
    let two: RefBareItem = GenericBareItem::Integer(integer(2));
    let yes: RefBareItem = GenericBareItem::Boolean(true);
    write_member(list, one, key_ref("a"), yes, two)?;
    Ok(())
}

/// Writes the member `();b=?0`.
fn write_none<W: Sink>(list: &mut ListSerializer<W>) -> Result<(), SerializeError>
    ensures text { OnOk result (AddsMember W.Sink list.old list.new (codes "();b=?0")) }
    ensures room { OnErr result (LacksNext W.Sink (codes ", ") list.old (codes "();b=?0")) }
    ensures failed { IfErr result (λ error. error ≡ errors.OutOfMemory) }
{
    let no: RefBareItem = GenericBareItem::Boolean(false);
    write_empty(list, key_ref("b"), no)?;
    Ok(())
}

/// Writes both members, with an abandoned inner list between them.
fn write_members<W: Sink>(list: &mut ListSerializer<W>) -> Result<(), SerializeError>
    ensures text { OnOk result (AddsMember W.Sink list.old list.new (codes "1;a;a=2, ();b=?0")) }
    ensures room { OnErr result (LacksNext W.Sink (codes ", ") list.old (codes "1;a;a=2, ();b=?0")) }
    ensures failed { IfErr result (λ error. error ≡ errors.OutOfMemory) }
{
    let word: RefBareItem = GenericBareItem::Token(token_ref("x"));
    write_one(list)?;
    abandon_one(list, word)?;
    write_none(list)?;
    Ok(())
}

/// Appends a list to `text`, and returns `true` if it has a member.
///
/// # Errors
///
/// Returns `OutOfMemory` if memory runs out, which happens only if `text` lacks the capacity. There is no other error.
pub fn write_list(text: &mut String) -> Result<bool, SerializeError>
    ensures text { OnOk result (Adds text.old text.new (codes "1;a;a=2, ();b=?0")) }
    ensures stands { IfOk result (λ stands. stands ≡ true) }
    ensures room { OnErr result (LacksRoom text.old (codes "1;a;a=2, ();b=?0")) }
    ensures failed { IfErr result (λ error. error ≡ errors.OutOfMemory) }
{
    let mut list = ListSerializer::with_buffer(text);
    write_members(&mut list)?;
    Ok(list.has_member())
}

/// Begins an inner list of a dictionary, and abandons it: the text and `has_member` are unchanged.
fn abandon_named<W: Sink>(
    dictionary: &mut DictSerializer<W>,
    name: KeyRef<'_>,
) -> Result<(), SerializeError>
    ensures kept { KeepsSequence W.Sink dictionary.old dictionary.new }
    ensures room { OnErr result (LacksNext W.Sink (codes ", ") dictionary.old (text_of name.entry ++ codes "=(")) }
    ensures failed { IfErr result (λ error. error ≡ errors.OutOfMemory) }
{
    let inner = dictionary.inner_list(name)?;
    inner.abandon();
    Ok(())
}

/// Begins a dictionary and abandons its only member: the text is unchanged, after an error, too. There is no member.
///
/// # Errors
///
/// Returns `OutOfMemory` if memory runs out, which happens only if `text` lacks the capacity for the beginning of the
/// member. There is no other error.
pub fn write_nothing(text: &mut String) -> Result<bool, SerializeError>
    ensures text { string_bytes text.new ≡ string_bytes text.old }
    ensures stands { IfOk result (λ stands. stands ≡ false) }
    ensures room { OnErr result (LacksRoom text.old (codes "a=(")) }
    ensures failed { IfErr result (λ error. error ≡ errors.OutOfMemory) }
{
    let mut dictionary = DictSerializer::with_buffer(text);
    abandon_named(&mut dictionary, key_ref("a"))?;
    Ok(dictionary.has_member())
}

/// Appends the item true to `text`, with a parameter that is an empty byte sequence.
///
/// # Errors
///
/// Returns the errors of `write_item`, and leaves the same text.
pub fn write_item_of_no_bytes(text: &mut String) -> Result<(), SerializeError>
    ensures text { OnOk result (Adds text.old text.new (codes "?1;x=::")) }
    ensures out_of_memory { OnErr result (AddsAtMost text.old text.new (codes "?1")) }
    ensures room { OnErr result (LacksRoom text.old (codes "?1;x=::")) }
    ensures failed { IfErr result (λ error. error ≡ errors.OutOfMemory) }
{
    let yes: RefBareItem = GenericBareItem::Boolean(true);
    let no_bytes: RefBareItem = GenericBareItem::ByteSequence(b"");
    write_item(text, yes, key_ref("x"), no_bytes)?;
    Ok(())
}

/// Writes a dictionary member with a parameter.
///
/// # Errors
///
/// Returns `Unsupported` with the kind of the first value that the version lacks, and `OutOfMemory` if memory runs out,
/// which happens only if the text lacks the capacity.
pub fn write_named<W: Sink>(
    dict: &mut DictSerializer<W>,
    name: KeyRef<'_>,
    value: RefBareItem<'_>,
    key: KeyRef<'_>,
    param: RefBareItem<'_>,
) -> Result<(), SerializeError>
    ensures text { OnOk result (AddsMember W.Sink dict.old dict.new
        (named_text name.entry value.entry key.entry param.entry)) }
    ensures unsupported { ChecksEach (sequence_version dict.old) (value.entry ∷ param.entry ∷ []) result }
    ensures room { MemberLacksRoom W.Sink dict.old (named_text name.entry value.entry key.entry param.entry) result }
{
    let params = dict.bare_item(name, value)?;
    params.parameter(key, param)?.finish();
    Ok(())
}

/// Writes a dictionary member without parameters.
///
/// # Errors
///
/// Returns `Unsupported` if the version lacks the value, and `OutOfMemory` if memory runs out, which happens only if
/// the text lacks the capacity. After an error, the text and `has_member` are unchanged.
pub fn write_bare<W: Sink>(
    dict: &mut DictSerializer<W>,
    name: KeyRef<'_>,
    value: RefBareItem<'_>,
) -> Result<(), SerializeError>
    ensures text { OnOk result (AddsMember W.Sink dict.old dict.new
        (keyed_text (text_of name.entry) (ref_value value.entry))) }
    ensures unsupported { ChecksVersionFirst (sequence_version dict.old) (ref_value value.entry ∷ []) result }
    ensures room { MemberLacksRoom W.Sink dict.old (keyed_text (text_of name.entry) (ref_value value.entry)) result }
    ensures kept { OnErr result (KeepsSequence W.Sink dict.old dict.new) }
{
    dict.bare_item(name, value)?.finish();
    Ok(())
}

/// Writes two items of an inner list, the first with a parameter.
fn write_pair<W: Sink, K>(
    inner: &mut InnerListSerializer<&mut SequenceSerializer<W, K>>,
    first: RefBareItem<'_>,
    param: (KeyRef<'_>, RefBareItem<'_>),
    second: RefBareItem<'_>,
) -> Result<(), SerializeError>
    ensures lent { (sequence_sink inner.new).ghost_name ≡ (sequence_sink inner.old).ghost_name }
    ensures text { OnOk result (HasAppended (lent_sequence W.Sink) inner.old inner.new
        (with_separators (is_empty_so_far inner.old) (codes " ") (map item_text (pair_of (ref_value first.entry)
        (text_of param.entry.0) (ref_value param.entry.1) (ref_value second.entry)))) false) }
    ensures unsupported { ChecksEach (sequence_version inner.old)
        (first.entry ∷ param.entry.1 ∷ second.entry ∷ []) result }
    ensures room { OnOutOfMemory result (LacksRoom (W.text (sequence_sink (sequence_sink inner.old).now))
        (with_separators (is_empty_so_far inner.old) (codes " ") (map item_text (pair_of (ref_value first.entry)
        (text_of param.entry.0) (ref_value param.entry.1) (ref_value second.entry))))) }
{
    put_with(inner, first, param)?;
    write_inner(inner, second)
}

/// Writes a dictionary member that is an inner list of two items, with a parameter.
fn write_named_pair<W: Sink>(
    dictionary: &mut DictSerializer<W>,
    name: KeyRef<'_>,
    first: RefBareItem<'_>,
    param: (KeyRef<'_>, RefBareItem<'_>),
    second: RefBareItem<'_>,
    ending: (KeyRef<'_>, RefBareItem<'_>),
) -> Result<(), SerializeError>
    ensures text { OnOk result (AddsMember W.Sink dictionary.old dictionary.new
        (named_pair_text name.entry first.entry param.entry second.entry ending.entry)) }
    ensures unsupported { ChecksEach (sequence_version dictionary.old)
        (first.entry ∷ param.entry.1 ∷ second.entry ∷ ending.entry.1 ∷ []) result }
    ensures room { MemberLacksRoom W.Sink dictionary.old
        (named_pair_text name.entry first.entry param.entry second.entry ending.entry) result }
{
    let mut inner = dictionary.inner_list(name)?;
    if let Err(error) = write_pair(&mut inner, first, param, second) {
        inner.abandon();
        return Err(error);
    }
    let (key, value) = ending;
    inner.finish()?.parameter(key, value)?.finish();
    Ok(())
}

/// Writes the member `member1=11;foo`.
fn write_first<W: Sink>(dictionary: &mut DictSerializer<W>) -> Result<(), SerializeError>
    ensures text { OnOk result (AddsMember W.Sink dictionary.old dictionary.new (codes "member1=11;foo")) }
    ensures room { OnErr result (LacksNext W.Sink (codes ", ") dictionary.old (codes "member1=11;foo")) }
    ensures failed { IfErr result (λ error. error ≡ errors.OutOfMemory) }
{
    let eleven: RefBareItem = GenericBareItem::Integer(integer(11));
    let yes: RefBareItem = GenericBareItem::Boolean(true);
    write_named(dictionary, key_ref("member1"), eleven, key_ref("foo"), yes)?;
    Ok(())
}

/// Writes the member `member2=(abc;abc_param=?0 def);bar="val"`.
fn write_second<W: Sink>(dictionary: &mut DictSerializer<W>) -> Result<(), SerializeError>
    ensures text { OnOk result (AddsMember W.Sink dictionary.old dictionary.new
        (codes "member2=(abc;abc_param=?0 def);bar=\"val\"")) }
    ensures room { OnErr result (LacksNext W.Sink (codes ", ") dictionary.old
        (codes "member2=(abc;abc_param=?0 def);bar=\"val\"")) }
    ensures failed { IfErr result (λ error. error ≡ errors.OutOfMemory) }
{
    let no: RefBareItem = GenericBareItem::Boolean(false);
    let abc: RefBareItem = GenericBareItem::Token(token_ref("abc"));
    let def: RefBareItem = GenericBareItem::Token(token_ref("def"));
    let val: RefBareItem = GenericBareItem::String(string_ref("val"));
    let (param, ending) = ((key_ref("abc_param"), no), (key_ref("bar"), val));
    write_named_pair(dictionary, key_ref("member2"), abc, param, def, ending)?;
    Ok(())
}

/// Writes the member `member3=12.346`.
fn write_third<W: Sink>(dictionary: &mut DictSerializer<W>) -> Result<(), SerializeError>
    ensures text { OnOk result (AddsMember W.Sink dictionary.old dictionary.new (codes "member3=12.346")) }
    ensures room { OnErr result (LacksNext W.Sink (codes ", ") dictionary.old (codes "member3=12.346")) }
    ensures failed { IfErr result (λ error. error ≡ errors.OutOfMemory) }
{
    let thousandths = integer(12346);
    let part: RefBareItem = GenericBareItem::Decimal(Decimal::from_integer_scaled_1000(
        thousandths,
    ));
    write_bare(dictionary, key_ref("member3"), part)?;
    Ok(())
}

/// Writes the three members, in this order.
fn write_three<W: Sink>(dictionary: &mut DictSerializer<W>) -> Result<(), SerializeError>
    ensures text { OnOk result (AddsMember W.Sink dictionary.old dictionary.new example_dictionary) }
    ensures room { OnErr result (LacksNext W.Sink (codes ", ") dictionary.old example_dictionary) }
    ensures failed { IfErr result (λ error. error ≡ errors.OutOfMemory) }
{
    write_first(dictionary)?;
    write_second(dictionary)?;
    write_third(dictionary)?;
    Ok(())
}

/// Appends a dictionary to `text`, and returns `true` if it has a member.
///
/// # Errors
///
/// Returns `OutOfMemory` if memory runs out, which happens only if `text` lacks the capacity. There is no other error.
pub fn write_dictionary(text: &mut String) -> Result<bool, SerializeError>
    ensures text { OnOk result (Adds text.old text.new example_dictionary) }
    ensures stands { IfOk result (λ stands. stands ≡ true) }
    ensures room { OnErr result (LacksRoom text.old example_dictionary) }
    ensures failed { IfErr result (λ error. error ≡ errors.OutOfMemory) }
{
    let mut dictionary = DictSerializer::with_buffer(text);
    write_three(&mut dictionary)?;
    Ok(dictionary.has_member())
}

/// Performs the calls of a list, and parses the text. The result is the list that the calls describe, without abandoned
/// inner lists, and with each repeated key of parameters once.
///
/// # Errors
///
/// Returns the kind `OutOfMemory` if memory runs out. There is no other error.
pub fn performed_and_read(alloc: Global, calls: &[MemberCalls<'_>]) -> Result<List, Error>
    ensures read { IfOk result (λ list. list_tree list.items ≡ ordered list_field (described_list calls.now)) }
    ensures out_of_memory { IfErr result (λ error. error ≡ out_of_memory) }
{
    let mut text = String::new(alloc);
    run_list(&mut text, calls)?;
    Parser::new(text.as_bytes()).parse::<List>(alloc)
}
