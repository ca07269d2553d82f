//! The serializer of dictionaries (RFC 9651, section 4.1.2).

ghost use Rattle.std.specs.Prelude.{◌≡◌, ◌∷◌, ◌++◌, [], false, IfOk, IfErr, OnOk, OnErr, IsTrue, codes};
ghost use Rattle.std.specs.Borrow.{sem};
ghost use Rattle.std.specs.Iterator.{IsFinite};
ghost use Rattle.sfv_spec.specs.Classes.{is_key};
ghost use Rattle.sfv_spec.specs.Values.{IsBareValue};
ghost use Rattle.sfv_values.specs.BareItems.{ref_value};
ghost use Rattle.sfv_values.specs.CheckedTexts.{text_of};
ghost use Rattle.sfv_writer.specs.Versions.{OnOutOfMemory, ChecksVersionFirst, dictionary_members};
ghost use Rattle.sfv_serializer.specs.Serializers.{KeepsSequence, KeepsAfterOne, params_sink};
ghost use Rattle.sfv_serializer.specs.Serializers.{sequence_sink, WritesAll, FailsToWrite};
ghost use Rattle.sfv_serializer.specs.Serializers.{AfterErr, parts, HasAppendedItem, HasAppendedOpening};
ghost use Rattle.sfv_serializer.specs.Serializers.{BeginsAfter, LacksNext, keyed};
ghost use Rattle.sfv_serializer.specs.contracts.sequence_kind.DictMembers.{the_row as dict_row};

use crate::fragment::{KeyValue, KeyedInnerListStart};
use crate::inner_list_serializer::InnerListSerializer;
use crate::parameter_serializer::ParameterSerializer;
use crate::sequence::SequenceSerializer;
use crate::sequence_kind::DictMembers;
use crate::sink::Sink;
use sfv_base::error::OutOfMemory;
use sfv_tree::parsed::ListEntry;
use sfv_values::bare::RefBareItem;
use sfv_values::key::Key;
use sfv_values::key_ref::KeyRef;
use sfv_writer::invariants::{bare_item_invariant, key_invariant};
use sfv_writer::serialize_error::SerializeError;
use sfv_writer::version_check::check_bare_item;

/// A serializer that appends a dictionary to a `String`, member by member (RFC 9651, section 4.1.2).
///
/// A repeated key is written twice. The serializer borrows the text mutably. Dropping it keeps the written text.
pub type DictSerializer<W> = SequenceSerializer<W, DictMembers>;

impl<W: Sink> SequenceSerializer<W, DictMembers> {
    /// Appends a member that is an item, and returns the serializer of its parameters (RFC 9651, section 4.1.2).
    ///
    /// Writes the key and, unless the value is true, an equals sign and the value. A separator comes first, except
    /// for the first member.
    ///
    /// # Errors
    ///
    /// Returns `Unsupported` if the version lacks the value, and `OutOfMemory` if memory runs out. After an error,
    /// the text and `has_member` are unchanged.
    #[inline(always)]
    pub fn bare_item(
        &mut self,
        name: KeyRef<'_>,
        value: RefBareItem<'_>,
    ) -> Result<ParameterSerializer<'_, DictSerializer<W>>, SerializeError>
        ensures* kept { sem 𝓛 (AfterErr (parts W.row dict_row) params_sink (KeepsAfterOne W.Sink result) self.entry result) }
        ensures lent { IfOk result (λ p. p.sink.ghost_name ≡ self.entry.ghost_name) }
        ensures version { IfOk result (λ p. p.version ≡ self.old.version) }
        ensures unsupported { ChecksVersionFirst self.old.version (ref_value value.entry ∷ []) result }
        ensures text { IfOk result (HasAppendedItem W.Sink (codes ", ") self.old (keyed name.entry value.entry)) }
        ensures room { OnOutOfMemory result (LacksNext W.Sink (codes ", ") self.old (keyed name.entry value.entry)) }
        ensures is_key { IsTrue (is_key (text_of name.entry)) }
        ensures is_value { IsBareValue (ref_value value.entry) }
    {
        key_invariant(name);
        bare_item_invariant(value);
        check_bare_item(self.version, value)?;
        self.append(KeyValue { name, value })?;
        self.is_first = false;
        let version = self.version;
        Ok(ParameterSerializer::new(self, version))
    }

    /// Begins a member that is an inner list, and returns the serializer of its items (RFC 9651, section 4.1.2).
    ///
    /// Writes the key, an equals sign and an opening parenthesis. A separator comes first, except for the first
    /// member. You must call `finish` or `abandon` on the result.
    ///
    /// # Errors
    ///
    /// Returns `OutOfMemory` if memory runs out. The text and `has_member` are then unchanged.
    pub fn inner_list(
        &mut self,
        name: KeyRef<'_>,
    ) -> Result<InnerListSerializer<&mut DictSerializer<W>>, OutOfMemory>
        ensures* kept { sem 𝓛 (AfterErr (parts W.row dict_row) sequence_sink (KeepsSequence W.Sink) self.entry result) }
        ensures lent { IfOk result (λ s. s.sink.ghost_name ≡ self.entry.ghost_name) }
        ensures version { IfOk result (λ s. s.version ≡ self.old.version) }
        ensures text { IfOk result (HasAppendedOpening W.Sink (codes ", ") self.old (text_of name.entry ++ codes "=(")) }
        ensures begins { IfOk result (BeginsAfter W.Sink self.old) }
        ensures room { OnErr result (LacksNext W.Sink (codes ", ") self.old (text_of name.entry ++ codes "=(")) }
        ensures is_key { IsTrue (is_key (text_of name.entry)) }
    {
        key_invariant(name);
        self.begin(KeyedInnerListStart { name })
    }

    /// Appends members in order, as `FieldType::serialize` writes them (RFC 9651, section 4.1.2).
    ///
    /// # Errors
    ///
    /// Returns `Unsupported` at the first value that the version lacks, and `OutOfMemory` if memory runs out. An
    /// empty iterator causes no error. After an error, the text and `has_member` are unchanged.
    pub fn members<'m, I: Iterator<Item = (&'m Key, &'m ListEntry)> + Drop>(
        &mut self,
        members: I,
    ) -> Result<(), SerializeError>
        requires can { I.can_next members }
        requires ends { IsFinite (I.remaining members) }
        ensures text { OnOk result (WritesAll W.Sink (codes ", ") dictionary_members I.next_gives members self.old self.new) }
        ensures failed { IfErr result (FailsToWrite W.Sink (codes ", ") dictionary_members I.next_gives members self.old) }
        ensures kept { OnErr result (KeepsSequence W.Sink self.old self.new) }
    {
        self.append_each(members)
    }
}
