//! Lists of serializer calls, which are performed in order (RFC 9651, section 4.1).

ghost use Rattle.std.specs.Prelude.{◌≡◌, ◌≤◌, ◌<◌, ◌↔◌, ◌∷◌, ◌++◌, [], ℕ, false, length, ⊤, IfOk, IfErr, OnOk, OnErr};
ghost use Rattle.std.specs.Prelude.{IsTrue, MatchBool, map, codes, if◌then◌else◌, string_capacity};
ghost use Rattle.std.specs.List.{AllByRecursion};
ghost use Rattle.sfv_spec.specs.Classes.{is_key};
ghost use Rattle.sfv_spec.specs.Texts.{joined};
ghost use Rattle.sfv_spec.specs.Values.{item, IsItem, AreParameters, IsFieldValue, HasMember, bare_values};
ghost use Rattle.sfv_spec.specs.declared.field_kind.FieldKind.TheVariants.{Item as item_field, List as list_field};
ghost use Rattle.sfv_spec.specs.declared.field_kind.FieldKind.TheVariants.{Dictionary as dictionary_field};
ghost use Rattle.sfv_spec.specs.declared.version.Version.TheVariants.{Rfc9651};
ghost use Rattle.sfv_serializer.specs.Scripts.{param_of_call, item_of_calls, member_of_calls, entry_of_calls};
ghost use Rattle.sfv_serializer.specs.Scripts.{described_list, described_dictionary, LacksForListCall};
ghost use Rattle.sfv_serializer.specs.Scripts.{LacksForEntryCall, IsReadBackWhereFit};
ghost use Rattle.sfv_serializer.specs.ScriptSteps.{described, member_calls, list_calls, dictionary_calls};
ghost use Rattle.sfv_serializer.specs.ScriptSteps.{list_described, dictionary_described, tried_list, tried_dictionary};
ghost use Rattle.sfv_serializer.specs.ScriptSteps.{LacksForTry, added_text, added_text_of_pair, ended_text};
ghost use Rattle.sfv_serializer.specs.ScriptSteps.{WritesInner, WritesList, WritesDictionary};
ghost use Rattle.sfv_spec.specs.Canonical.{canonical, item_text, dictionary_member_text};
ghost use Rattle.sfv_values.specs.CheckedTexts.{text_of};
ghost use Rattle.sfv_writer.specs.Written.{Appends, AppendsOrKeeps, AsksForRoom, LacksRoom, IsReadBack};
ghost use Rattle.sfv_writer.specs.Written.{separator_before, with_separators, is_first_after};
ghost use Rattle.sfv_writer.specs.Versions.{OnOutOfMemory, OnUnsupported, ChecksVersionFirst};
ghost use Rattle.sfv_writer.specs.declared.serialize_error.SerializeError.TheVariants as errors;
ghost use Rattle.sfv_serializer.specs.Serializers.{lent_sequence, HasAppended, HasAppendedNext, GrowsSequence};
ghost use Rattle.sfv_serializer.specs.Serializers.{is_empty_so_far};

use crate::dict_serializer::DictSerializer;
use crate::fragment::{InnerListStart, KeyedInnerListStart};
use crate::inner_list_serializer::InnerListSerializer;
use crate::item_serializer::ItemSerializer;
use crate::list_serializer::ListSerializer;
use crate::sequence::SequenceSerializer;
use crate::sequence_kind::{Keyless, SequenceKind};
use crate::sink::Sink;
use crate::version_check_of_calls::{check_dictionary_calls, check_item_calls, check_list_calls};
use sfv_base::error::OutOfMemory;
use sfv_spec::version::Version;
use sfv_values::bare::RefBareItem;
use sfv_values::key_ref::KeyRef;
use sfv_writer::output::{Fragment, truncate_to};
use sfv_writer::serialize_error::{SerializeError, expect_out_of_memory};
use std::string::String as StdString;

/// A call of `ParameterSerializer::parameter`.
#[derive(Drop)]
pub struct ParamCall<'a> {
    /// The key.
    pub key: KeyRef<'a>,
    /// The value.
    pub value: RefBareItem<'a>,
}

/// The calls that write an item: its bare item and its parameters.
#[derive(Drop)]
pub struct ItemCalls<'a> {
    /// The value.
    pub value: RefBareItem<'a>,
    /// The parameters, in order.
    pub params: Vec<ParamCall<'a>>,
}

/// The calls that write a member of a list or a dictionary.
#[derive(Drop)]
pub enum MemberCalls<'a> {
    /// A member that is an item.
    Item(ItemCalls<'a>),
    /// A member that is an inner list.
    InnerList {
        /// The items, in order.
        items: Vec<ItemCalls<'a>>,
        /// The parameters of the inner list, which an abandoned inner list does not write.
        params: Vec<ParamCall<'a>>,
        /// If `true`, the inner list is abandoned after its items. Otherwise it is finished.
        abandon: bool,
    },
}

/// Performs the calls of an item.
fn write_item(text: &mut StdString, calls: &ItemCalls<'_>) -> Result<(), OutOfMemory>
    ensures text { Appends text.old text.new (item_text (item_of_calls calls.now)) result }
    ensures room { AsksForRoom text.old text.new (item_text (item_of_calls calls.now)) result }
    ensures value { OnOk result (IsItem (item_of_calls calls.now)) }
{
    let mut params = match ItemSerializer::with_buffer(text).bare_item(calls.value) {
        Ok(params) => params,
        Err(error) => return Err(expect_out_of_memory(error)),
    };
    for call in &calls.params {
        params = match params.parameter(call.key, call.value) {
            Ok(params) => params,
            Err(error) => return Err(expect_out_of_memory(error)),
        };
    }
    params.finish();
    Ok(())
}

/// Performs the calls of an item without a key: a list member, or an item of an inner list.
fn write_keyless_item<W: Sink, K: Keyless>(
    sequence: &mut SequenceSerializer<W, K>,
    calls: &ItemCalls<'_>,
) -> Result<(), OutOfMemory>
    requires { sequence.old.version ≡ Rfc9651 }
    ensures text { OnOk result (HasAppendedNext W.Sink K.separator sequence.old sequence.new
        (item_text (item_of_calls calls.now)) false) }
    ensures room { OnErr result (LacksRoom (W.text sequence.old.sink)
        (separator_before (is_empty_so_far sequence.old) K.separator ++ item_text (item_of_calls calls.now))) }
    ensures value { OnOk result (IsItem (item_of_calls calls.now)) }
    ensures out_of_memory { OnErr result (GrowsSequence W.Sink sequence.old sequence.new) }
{
    let mut params = match sequence.bare_item(calls.value) {
        Ok(params) => params,
        Err(error) => return Err(expect_out_of_memory(error)),
    };
    for call in &calls.params {
        params = match params.parameter(call.key, call.value) {
            Ok(params) => params,
            Err(error) => return Err(expect_out_of_memory(error)),
        };
    }
    params.finish();
    Ok(())
}

/// Performs the calls of a dictionary member that is an item.
fn write_dictionary_item<W: Sink>(
    dictionary: &mut DictSerializer<W>,
    name: KeyRef<'_>,
    calls: &ItemCalls<'_>,
) -> Result<(), OutOfMemory>
    requires { dictionary.old.version ≡ Rfc9651 }
    ensures text { OnOk result (HasAppendedNext W.Sink (codes ", ") dictionary.old dictionary.new
        (dictionary_member_text (text_of name.entry, item (item_of_calls calls.now))) false) }
    ensures room { OnErr result (LacksRoom (W.text dictionary.old.sink) (separator_before (is_empty_so_far dictionary.old) (codes ", ")
        ++ dictionary_member_text (text_of name.entry, item (item_of_calls calls.now)))) }
    ensures key { OnOk result (IsTrue (is_key (text_of name.entry))) }
    ensures value { OnOk result (IsItem (item_of_calls calls.now)) }
    ensures out_of_memory { OnErr result (GrowsSequence W.Sink dictionary.old dictionary.new) }
{
    let mut params = match dictionary.bare_item(name, calls.value) {
        Ok(params) => params,
        Err(error) => return Err(expect_out_of_memory(error)),
    };
    for call in &calls.params {
        params = match params.parameter(call.key, call.value) {
            Ok(params) => params,
            Err(error) => return Err(expect_out_of_memory(error)),
        };
    }
    params.finish();
    Ok(())
}

/// Performs the calls of the items of an inner list.
fn write_inner_items<W: Sink, K>(
    inner: &mut InnerListSerializer<&mut SequenceSerializer<W, K>>,
    items: &[ItemCalls<'_>],
) -> Result<(), OutOfMemory>
    requires { inner.old.version ≡ Rfc9651 }
    ensures lent { inner.new.sink.ghost_name ≡ inner.old.sink.ghost_name }
    ensures text { OnOk result (HasAppended (lent_sequence W.Sink) inner.old inner.new
        (with_separators (is_empty_so_far inner.old) (codes " ") (map item_text (map item_of_calls items.now)))
        (is_first_after (is_empty_so_far inner.old) (map item_of_calls items.now))) }
    ensures room { OnErr result (LacksRoom (W.text inner.old.sink.now.sink)
        (with_separators (is_empty_so_far inner.old) (codes " ") (map item_text (map item_of_calls items.now)))) }
    ensures value { OnOk result (AllByRecursion IsItem (map item_of_calls items.now)) }
    ensures grows { GrowsSequence (lent_sequence W.Sink) inner.old inner.new }
{
    for calls in items {
        write_keyless_item(inner, calls)?;
    }
    Ok(())
}

/// Performs the calls of a member that is an inner list: writes it after its opening, or abandons it.
fn write_inner<W: Sink, K: SequenceKind, P: Fragment>(
    sequence: &mut SequenceSerializer<W, K>,
    opening: P,
    items: &[ItemCalls<'_>],
    params: &[ParamCall<'_>],
    abandon: bool,
) -> Result<(), OutOfMemory>
    requires { sequence.old.version ≡ Rfc9651 }
    ensures text { OnOk result (WritesInner W.Sink sequence.old sequence.new K.separator (P.text opening)
        (map item_of_calls items.now) (map param_of_call params.now) abandon) }
    ensures room { OnErr result (LacksRoom (W.text sequence.old.sink) (separator_before (is_empty_so_far sequence.old) K.separator
        ++ (if abandon then P.text opening ++ joined (codes " ") (map item_text (map item_of_calls items.now))
        else ended_text (P.text opening) (map item_of_calls items.now) (map param_of_call params.now)))) }
    ensures value { OnOk result (MatchBool abandon ⊤ (P.is_valid opening
        × AllByRecursion IsItem (map item_of_calls items.now) × AreParameters (map param_of_call params.now))) }
    ensures out_of_memory { OnErr result (GrowsSequence W.Sink sequence.old sequence.new) }
{
    let mut inner = sequence.begin(opening)?;
    if let Err(error) = write_inner_items(&mut inner, items) {
        inner.abandon();
        return Err(error);
    }
    if abandon {
        inner.abandon();
        return Ok(());
    }
    let mut ending = inner.finish()?;
    for call in params {
        ending = match ending.parameter(call.key, call.value) {
            Ok(ending) => ending,
            Err(error) => return Err(expect_out_of_memory(error)),
        };
    }
    ending.finish();
    Ok(())
}

/// Performs the calls of a list member.
fn write_list_member<W: Sink>(
    list: &mut ListSerializer<W>,
    member: &MemberCalls<'_>,
) -> Result<(), OutOfMemory>
    requires { list.old.version ≡ Rfc9651 }
    ensures text { OnOk result (WritesList W.Sink list.old list.new
        (member_calls member.now ∷ [])) }
    ensures room { OnErr result (LacksRoom (W.text list.old.sink)
        (with_separators (is_empty_so_far list.old) (codes ", ") (added_text (member_calls member.now) ∷ []))) }
    ensures value { OnOk result (IsFieldValue list_field (described list_field (member_calls member.now ∷ []))) }
    ensures out_of_memory { OnErr result (GrowsSequence W.Sink list.old list.new) }
{
    match member {
        MemberCalls::Item(item) => write_keyless_item(list, item),
        MemberCalls::InnerList {
            items,
            params,
            abandon,
        } => write_inner(list, InnerListStart {}, items, params, *abandon),
    }
}

/// Performs the calls of a dictionary member.
fn write_dictionary_member<W: Sink>(
    dictionary: &mut DictSerializer<W>,
    name: KeyRef<'_>,
    member: &MemberCalls<'_>,
) -> Result<(), OutOfMemory>
    requires { dictionary.old.version ≡ Rfc9651 }
    ensures text { OnOk result (WritesDictionary W.Sink dictionary.old dictionary.new
        ((text_of name.entry, member_calls member.now) ∷ [])) }
    ensures room { OnErr result (LacksRoom (W.text dictionary.old.sink)
        (with_separators (is_empty_so_far dictionary.old) (codes ", ")
        (added_text_of_pair (text_of name.entry, member_calls member.now) ∷ []))) }
    ensures value { OnOk result (IsFieldValue dictionary_field
        (described dictionary_field ((text_of name.entry, member_calls member.now) ∷ []))) }
    ensures out_of_memory { OnErr result (GrowsSequence W.Sink dictionary.old dictionary.new) }
{
    match member {
        MemberCalls::Item(item) => write_dictionary_item(dictionary, name, item),
        MemberCalls::InnerList {
            items,
            params,
            abandon,
        } => write_inner(
            dictionary,
            KeyedInnerListStart { name },
            items,
            params,
            *abandon,
        ),
    }
}

/// Performs the calls of all list members.
fn write_list_members<W: Sink>(
    list: &mut ListSerializer<W>,
    calls: &[MemberCalls<'_>],
) -> Result<(), OutOfMemory>
    requires { list.old.version ≡ Rfc9651 }
    ensures text { OnOk result (WritesList W.Sink list.old list.new
        (list_calls calls.now)) }
    ensures room { OnErr result ((n : ℕ) × LacksRoom (W.text list.old.sink)
        (with_separators (is_empty_so_far list.old) (codes ", ") (tried_list calls.now n))) }
    ensures value { OnOk result (IsFieldValue list_field (list_described calls.now)) }
    ensures out_of_memory { OnErr result (GrowsSequence W.Sink list.old list.new) }
    ensures some { OnErr result (0 < length calls.now) }
{
    for member in calls {
        write_list_member(list, member)?;
    }
    Ok(())
}

/// Performs the calls of a list, and returns `true` if it has a member.
#[tactic(auto, using(sfv_writer::proofs::Separated::in_a_row_first))]
fn write_list(text: &mut StdString, calls: &[MemberCalls<'_>]) -> Result<bool, OutOfMemory>
    ensures text { Appends text.old text.new (canonical list_field (list_described calls.now)) result }
    ensures room { OnErr result (LacksForTry text.old (tried_list calls.now)) }
    ensures stays { string_capacity text.old ≤ string_capacity text.new }
    ensures has_member { IfOk result (λ any. IsTrue any ↔ HasMember list_field (list_described calls.now)) }
    ensures value { OnOk result (IsFieldValue list_field (list_described calls.now)) }
    ensures some { OnErr result (0 < length calls.now) }
{
    let mut list = ListSerializer::with_buffer(text);
    write_list_members(&mut list, calls)?;
    Ok(list.has_member())
}

/// Performs the calls of all dictionary members.
fn write_dictionary_members<W: Sink>(
    dictionary: &mut DictSerializer<W>,
    calls: &[(KeyRef<'_>, MemberCalls<'_>)],
) -> Result<(), OutOfMemory>
    requires { dictionary.old.version ≡ Rfc9651 }
    ensures text { OnOk result (WritesDictionary W.Sink dictionary.old dictionary.new
        (dictionary_calls calls.now)) }
    ensures room { OnErr result ((n : ℕ) × LacksRoom (W.text dictionary.old.sink)
        (with_separators (is_empty_so_far dictionary.old) (codes ", ") (tried_dictionary calls.now n))) }
    ensures value { OnOk result (IsFieldValue dictionary_field (dictionary_described calls.now)) }
    ensures out_of_memory { OnErr result (GrowsSequence W.Sink dictionary.old dictionary.new) }
    ensures some { OnErr result (0 < length calls.now) }
{
    for (name, member) in calls {
        write_dictionary_member(dictionary, *name, member)?;
    }
    Ok(())
}

/// Performs the calls of a dictionary, and returns `true` if it has a member.
#[tactic(auto, using(sfv_writer::proofs::Separated::in_a_row_first))]
fn write_dictionary(
    text: &mut StdString,
    calls: &[(KeyRef<'_>, MemberCalls<'_>)],
) -> Result<bool, OutOfMemory>
    ensures text { Appends text.old text.new (canonical dictionary_field (dictionary_described calls.now)) result }
    ensures room { OnErr result (LacksForTry text.old (tried_dictionary calls.now)) }
    ensures stays { string_capacity text.old ≤ string_capacity text.new }
    ensures has_member { IfOk result (λ any. IsTrue any
        ↔ HasMember dictionary_field (dictionary_described calls.now)) }
    ensures value { OnOk result (IsFieldValue dictionary_field (dictionary_described calls.now)) }
    ensures some { OnErr result (0 < length calls.now) }
{
    let mut dictionary = DictSerializer::with_buffer(text);
    write_dictionary_members(&mut dictionary, calls)?;
    Ok(dictionary.has_member())
}

/// Appends an item to `text` by calls of `ItemSerializer` (RFC 9651, section 4.1.3).
///
/// # Errors
///
/// Returns `OutOfMemory` if memory runs out. The text is then unchanged.
#[tactic(auto, using(sfv_writer::proofs::Written::cut_to, crate::proofs::WhereFit::read_back_where_fit))]
pub fn run_item(text: &mut StdString, calls: &ItemCalls<'_>) -> Result<(), OutOfMemory>
    ensures text { AppendsOrKeeps text.old text.new (canonical item_field (item_of_calls calls.now)) result }
    ensures room { AsksForRoom text.old text.new (canonical item_field (item_of_calls calls.now)) result }
    ensures value { OnOk result (IsFieldValue item_field (item_of_calls calls.now)) }
    ensures read_back { OnOk result (IsReadBackWhereFit item_field (item_of_calls calls.now)) }
{
    let len = text.len();
    let written = write_item(text, calls);
    if written.is_err() {
        truncate_to(len, text);
    }
    written
}

/// Appends a list to `text` by calls of `ListSerializer` (RFC 9651, section 4.1.1).
///
/// Returns `true` if the list has a member. Otherwise nothing is written.
///
/// # Errors
///
/// Returns `OutOfMemory` if memory runs out, which requires at least one call. The text is then unchanged.
#[tactic(auto, using(sfv_writer::proofs::Written::cut_to, crate::proofs::WhereFit::read_back_where_fit))]
pub fn run_list(text: &mut StdString, calls: &[MemberCalls<'_>]) -> Result<bool, OutOfMemory>
    ensures text { AppendsOrKeeps text.old text.new (canonical list_field (described_list calls.now)) result }
    ensures room { OnErr result (LacksForListCall text.old calls.now) }
    ensures stays { string_capacity text.old ≤ string_capacity text.new }
    ensures has_member { IfOk result (λ any. IsTrue any ↔ HasMember list_field (described_list calls.now)) }
    ensures value { OnOk result (IsFieldValue list_field (described_list calls.now)) }
    ensures read_back { OnOk result (IsReadBackWhereFit list_field (described_list calls.now)) }
    ensures some { OnErr result (0 < length calls.now) }
{
    let len = text.len();
    let written = write_list(text, calls);
    if written.is_err() {
        truncate_to(len, text);
    }
    written
}

/// Appends a dictionary to `text` by calls of `DictSerializer` (RFC 9651, section 4.1.2). A repeated key is written
/// twice.
///
/// Returns `true` if the dictionary has a member. Otherwise nothing is written.
///
/// # Errors
///
/// Returns `OutOfMemory` if memory runs out, which requires at least one call. The text is then unchanged.
#[tactic(auto, using(sfv_writer::proofs::Written::cut_to, crate::proofs::WhereFit::read_back_where_fit))]
pub fn run_dict(
    text: &mut StdString,
    calls: &[(KeyRef<'_>, MemberCalls<'_>)],
) -> Result<bool, OutOfMemory>
    ensures text { AppendsOrKeeps text.old text.new
        (canonical dictionary_field (described_dictionary calls.now)) result }
    ensures room { OnErr result (LacksForEntryCall text.old calls.now) }
    ensures stays { string_capacity text.old ≤ string_capacity text.new }
    ensures has_member { IfOk result (λ any. IsTrue any
        ↔ HasMember dictionary_field (described_dictionary calls.now)) }
    ensures value { OnOk result (IsFieldValue dictionary_field (described_dictionary calls.now)) }
    ensures read_back { OnOk result (IsReadBackWhereFit dictionary_field (described_dictionary calls.now)) }
    ensures some { OnErr result (0 < length calls.now) }
{
    let len = text.len();
    let written = write_dictionary(text, calls);
    if written.is_err() {
        truncate_to(len, text);
    }
    written
}

/// Appends an item to `text`, as `run_item` does, if `version` has every value of the calls.
///
/// # Errors
///
/// Returns `Unsupported` with the kind of the first value that `version` lacks, and `OutOfMemory` if memory runs out.
/// After an error, the text is unchanged.
pub fn run_item_for(
    version: Version,
    text: &mut StdString,
    calls: &ItemCalls<'_>,
) -> Result<(), SerializeError>
    ensures text { AppendsOrKeeps text.old text.new (canonical item_field (item_of_calls calls.now)) result }
    ensures room { OnOutOfMemory result (LacksRoom text.old (canonical item_field (item_of_calls calls.now))) }
    ensures stays { string_capacity text.old ≤ string_capacity text.new }
    ensures value { OnOk result (IsFieldValue item_field (item_of_calls calls.now)) }
    ensures unsupported { ChecksVersionFirst version (bare_values item_field (item_of_calls calls.now)) result }
    ensures untouched { OnUnsupported result (text.new ≡ text.old) }
    ensures read_back { OnOk result (IsReadBack version item_field (item_of_calls calls.now)) }
{
    check_item_calls(version, calls)?;
    run_item(text, calls)?;
    Ok(())
}

/// Appends a list to `text`, as `run_list` does, if `version` has every value of the calls, abandoned inner lists
/// included.
///
/// Returns `true` if the list has a member.
///
/// # Errors
///
/// Returns `Unsupported` with the kind of the first value that `version` lacks, and `OutOfMemory` if memory runs out.
/// Both require at least one call. After an error, the text is unchanged.
pub fn run_list_for(
    version: Version,
    text: &mut StdString,
    calls: &[MemberCalls<'_>],
) -> Result<bool, SerializeError>
    ensures text { AppendsOrKeeps text.old text.new (canonical list_field (described_list calls.now)) result }
    ensures room { OnOutOfMemory result (LacksForListCall text.old calls.now) }
    ensures stays { string_capacity text.old ≤ string_capacity text.new }
    ensures has_member { IfOk result (λ any. IsTrue any ↔ HasMember list_field (described_list calls.now)) }
    ensures value { OnOk result (IsFieldValue list_field (described_list calls.now)) }
    ensures unsupported { ChecksVersionFirst version (bare_values list_field (map member_of_calls calls.now)) result }
    ensures untouched { OnUnsupported result (text.new ≡ text.old) }
    ensures read_back { OnOk result (IsReadBack version list_field (described_list calls.now)) }
    ensures some { OnErr result (0 < length calls.now) }
{
    check_list_calls(version, calls)?;
    let has_member = run_list(text, calls)?;
    Ok(has_member)
}

/// Appends a dictionary to `text`, as `run_dict` does, if `version` has every value of the calls, abandoned inner
/// lists included.
///
/// Returns `true` if the dictionary has a member.
///
/// # Errors
///
/// Returns `Unsupported` with the kind of the first value that `version` lacks, and `OutOfMemory` if memory runs out.
/// Both require at least one call. After an error, the text is unchanged.
pub fn run_dict_for(
    version: Version,
    text: &mut StdString,
    calls: &[(KeyRef<'_>, MemberCalls<'_>)],
) -> Result<bool, SerializeError>
    ensures text { AppendsOrKeeps text.old text.new
        (canonical dictionary_field (described_dictionary calls.now)) result }
    ensures room { OnOutOfMemory result (LacksForEntryCall text.old calls.now) }
    ensures stays { string_capacity text.old ≤ string_capacity text.new }
    ensures has_member { IfOk result (λ any. IsTrue any
        ↔ HasMember dictionary_field (described_dictionary calls.now)) }
    ensures value { OnOk result (IsFieldValue dictionary_field (described_dictionary calls.now)) }
    ensures unsupported { ChecksVersionFirst version (bare_values dictionary_field (map entry_of_calls calls.now)) result }
    ensures untouched { OnUnsupported result (text.new ≡ text.old) }
    ensures read_back { OnOk result (IsReadBack version dictionary_field (described_dictionary calls.now)) }
    ensures some { OnErr result (0 < length calls.now) }
{
    check_dictionary_calls(version, calls)?;
    let has_member = run_dict(text, calls)?;
    Ok(has_member)
}
