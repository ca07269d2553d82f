//! The serializer of parameters (RFC 9651, section 4.1.1.2).

ghost use Rattle.std.specs.Prelude.{◌≡◌, ◌∷◌, [], IfOk, IfErr, IsTrue};
ghost use Rattle.std.specs.Borrow.{sem};
ghost use Rattle.std.specs.Iterator.{IsFinite};
ghost use Rattle.sfv_spec.specs.Classes.{is_key};
ghost use Rattle.sfv_spec.specs.Values.{IsBareValue};
ghost use Rattle.sfv_values.specs.BareItems.{ref_value};
ghost use Rattle.sfv_values.specs.CheckedTexts.{text_of};
ghost use Rattle.sfv_writer.specs.Written.{LacksRoom};
ghost use Rattle.sfv_writer.specs.Versions.{OnOutOfMemory, ChecksVersionFirst};
ghost use Rattle.sfv_serializer.specs.Serializers.{KeepsText, KeepsTextAfterOne, ContinuesText, params_sink};
ghost use Rattle.sfv_serializer.specs.Serializers.{WritesParameters, FailsToWriteParameters, AfterErr};
ghost use Rattle.sfv_serializer.specs.Serializers.{Continues, params_text, param, KeepsSequence, KeepsAfterOne, parts};
ghost use Rattle.sfv_serializer.specs.Texts.{text_row};

use crate::fragment::{KeyValue, Parameter};
use crate::sequence::SequenceSerializer;
use crate::sink::{OPENER, Sink};
use sfv_spec::version::Version;
use sfv_values::bare::{BareItem, RefBareItem};
use sfv_values::key::Key;
use sfv_values::key_ref::KeyRef;
use sfv_writer::invariants::{bare_item_invariant, key_invariant};
use sfv_writer::item::append_parameters;
use sfv_writer::output::append;
use sfv_writer::serialize_error::SerializeError;
use sfv_writer::version_check::check_bare_item;
use std::string::String as StdString;

/// A serializer that appends parameters to `X` (RFC 9651, section 4.1.1.2).
///
/// `X` is the text of an item, or the serializer that contains the item or the inner list. A repeated key is written
/// twice. You may drop the serializer without `finish`.
#[derive(Drop)]
pub struct ParameterSerializer<'s, X> {
    sink: &'s mut X,
    version: Version,
}

impl<'s, X> ParameterSerializer<'s, X> {
    /// Creates a serializer that appends to `sink`, and accepts only values of `version`.
    #[inline(always)]
    pub(crate) fn new(sink: &'s mut X, version: Version) -> ParameterSerializer<'s, X>
        ensures lent { result.sink.ghost_name ≡ sink.entry.ghost_name }
        ensures text { result.sink.now ≡ sink.old }
        ensures version { result.version ≡ version }
    {
        ParameterSerializer { sink, version }
    }

    /// Finishes the parameters, and ends the borrow of `X`.
    #[inline(always)]
    pub fn finish(self)
        ensures { self.exit.0.now ≡ self.entry.sink.now }
    {
        let ParameterSerializer {
            sink: _,
            version: _,
        } = self;
    }
}

impl<'s> ParameterSerializer<'s, StdString> {
    /// Appends a parameter: a semicolon, the key and, unless the value is true, an equals sign and the value.
    ///
    /// # Errors
    ///
    /// Returns `Unsupported` if the version lacks the value, and `OutOfMemory` if memory runs out. After an error,
    /// the text is unchanged.
    #[inline(always)]
    pub fn parameter(
        self,
        name: KeyRef<'_>,
        value: RefBareItem<'_>,
    ) -> Result<ParameterSerializer<'s, StdString>, SerializeError>
        ensures* kept { sem 𝓛 (AfterErr text_row params_sink (KeepsTextAfterOne result) self.entry.sink result) }
        ensures lent { IfOk result (λ p. p.sink.ghost_name ≡ self.entry.sink.ghost_name) }
        ensures version { IfOk result (λ p. p.version ≡ self.entry.version) }
        ensures text { IfOk result (ContinuesText self.entry.sink (param name.entry value.entry)) }
        ensures unsupported { ChecksVersionFirst self.entry.version (ref_value value.entry ∷ []) result }
        ensures room { OnOutOfMemory result (LacksRoom self.entry.sink.now (param name.entry value.entry)) }
        ensures is_key { IsTrue (is_key (text_of name.entry)) }
        ensures is_value { IsBareValue (ref_value value.entry) }
    {
        let ParameterSerializer { sink, version } = self;
        key_invariant(name);
        bare_item_invariant(value);
        check_bare_item(version, value)?;
        let named = KeyValue { name, value };
        append(Parameter { named }, sink)?;
        Ok(ParameterSerializer { sink, version })
    }

    /// Appends parameters in order.
    ///
    /// # Errors
    ///
    /// Returns `Unsupported` at the first value that the version lacks, and `OutOfMemory` if memory runs out. An
    /// empty iterator causes no error. After an error, the text is unchanged.
    #[inline(always)]
    pub fn parameters<'k, I: Iterator<Item = (&'k Key, &'k BareItem)> + Drop>(
        self,
        params: I,
    ) -> Result<ParameterSerializer<'s, StdString>, SerializeError>
        requires can { I.can_next params }
        requires ends { IsFinite (I.remaining params) }
        ensures* kept { sem 𝓛 (AfterErr text_row params_sink KeepsText self.entry.sink result) }
        ensures lent { IfOk result (λ p. p.sink.ghost_name ≡ self.entry.sink.ghost_name) }
        ensures version { IfOk result (λ p. p.version ≡ self.entry.version) }
        ensures text { IfOk result (WritesParameters I.next_gives params ContinuesText self.entry) }
        ensures failed { IfErr result (FailsToWriteParameters I.next_gives params self.entry self.entry.sink.now) }
    {
        let ParameterSerializer { sink, version } = self;
        append_parameters(version, params, sink)?;
        Ok(ParameterSerializer { sink, version })
    }
}

impl<'s, W: Sink, K> ParameterSerializer<'s, SequenceSerializer<W, K>> {
    /// Appends a parameter: a semicolon, the key and, unless the value is true, an equals sign and the value.
    ///
    /// # Errors
    ///
    /// Returns `Unsupported` if the version lacks the value, and `OutOfMemory` if memory runs out. After an error,
    /// the text is unchanged.
    #[inline(always)]
    pub fn parameter(
        self,
        name: KeyRef<'_>,
        value: RefBareItem<'_>,
    ) -> Result<ParameterSerializer<'s, SequenceSerializer<W, K>>, SerializeError>
        ensures* kept { sem 𝓛 (AfterErr (parts W.row K.row) params_sink (KeepsAfterOne W.Sink result) self.entry.sink result) }
        ensures lent { IfOk result (λ p. p.sink.ghost_name ≡ self.entry.sink.ghost_name) }
        ensures version { IfOk result (λ p. p.version ≡ self.entry.version) }
        ensures text { IfOk result (Continues W.Sink self.entry.sink (param name.entry value.entry)) }
        ensures unsupported { ChecksVersionFirst self.entry.version (ref_value value.entry ∷ []) result }
        ensures room { OnOutOfMemory result (LacksRoom (params_text W.Sink self.entry) (param name.entry value.entry)) }
        ensures is_key { IsTrue (is_key (text_of name.entry)) }
        ensures is_value { IsBareValue (ref_value value.entry) }
    {
        let ParameterSerializer { sink, version } = self;
        key_invariant(name);
        bare_item_invariant(value);
        check_bare_item(version, value)?;
        let named = KeyValue { name, value };
        append(Parameter { named }, sink.sink.text_mut(OPENER))?;
        Ok(ParameterSerializer { sink, version })
    }

    /// Appends parameters in order.
    ///
    /// # Errors
    ///
    /// Returns `Unsupported` at the first value that the version lacks, and `OutOfMemory` if memory runs out. An
    /// empty iterator causes no error. After an error, the text is unchanged.
    #[inline(always)]
    pub fn parameters<'k, I: Iterator<Item = (&'k Key, &'k BareItem)> + Drop>(
        self,
        params: I,
    ) -> Result<ParameterSerializer<'s, SequenceSerializer<W, K>>, SerializeError>
        requires can { I.can_next params }
        requires ends { IsFinite (I.remaining params) }
        ensures* kept { sem 𝓛 (AfterErr (parts W.row K.row) params_sink (KeepsSequence W.Sink) self.entry.sink result) }
        ensures lent { IfOk result (λ p. p.sink.ghost_name ≡ self.entry.sink.ghost_name) }
        ensures version { IfOk result (λ p. p.version ≡ self.entry.version) }
        ensures text { IfOk result (WritesParameters I.next_gives params (Continues W.Sink) self.entry) }
        ensures failed { IfErr result (FailsToWriteParameters I.next_gives params self.entry (params_text W.Sink self.entry)) }
    {
        let ParameterSerializer { sink, version } = self;
        append_parameters(version, params, sink.sink.text_mut(OPENER))?;
        Ok(ParameterSerializer { sink, version })
    }
}
