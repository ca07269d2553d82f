//! The serializer of inner lists (RFC 9651, section 4.1.1.1).

ghost use Rattle.std.specs.Prelude.{◌≡◌, [], false, IfOk, IfErr, OnOk, OnErr, codes, string_capacity};
ghost use Rattle.std.specs.Borrow.{sem};
ghost use Rattle.std.specs.Iterator.{IsFinite};
ghost use Rattle.sfv_writer.specs.Versions.{inner_items};
ghost use Rattle.sfv_serializer.specs.Serializers.{KeepsSequence, HasAppended};
ghost use Rattle.sfv_serializer.specs.Serializers.{WritesAll, FailsToWrite, AfterErr, Removes, LacksNext, parts};
ghost use Rattle.sfv_serializer.specs.Serializers.{params_sink};

use crate::parameter_serializer::ParameterSerializer;
use crate::sequence::SequenceSerializer;
use crate::sequence_kind::InnerListItems;
use crate::sink::{OPENER, Sink};
use sfv_base::error::OutOfMemory;
use sfv_tree::parsed::Item;
use sfv_writer::output::truncate_to;
use sfv_writer::serialize_error::SerializeError;

/// A serializer that appends an inner list, item by item, to its parent serializer `X` (RFC 9651, section 4.1.1.1).
///
/// You must call `finish` or `abandon`: it cannot be dropped.
pub type InnerListSerializer<X> = SequenceSerializer<X, InnerListItems>;

impl<X: Sink> SequenceSerializer<X, InnerListItems> {
    /// Appends items in order, as `FieldType::serialize` writes them (RFC 9651, section 4.1.1.1).
    ///
    /// # Errors
    ///
    /// Returns `Unsupported` at the first value that the version lacks, and `OutOfMemory` if memory runs out. An
    /// empty iterator causes no error. After an error, the text is unchanged.
    pub fn items<'m, I: Iterator<Item = &'m Item> + Drop>(
        &mut self,
        items: I,
    ) -> Result<(), SerializeError>
        requires can { I.can_next items }
        requires ends { IsFinite (I.remaining items) }
        ensures text { OnOk result (WritesAll X.Sink (codes " ") inner_items I.next_gives items self.old self.new) }
        ensures failed { IfErr result (FailsToWrite X.Sink (codes " ") inner_items I.next_gives items self.old) }
        ensures kept { OnErr result (KeepsSequence X.Sink self.old self.new) }
    {
        self.append_each(items)
    }
}

impl<'s, W: Sink, K> SequenceSerializer<&'s mut SequenceSerializer<W, K>, InnerListItems> {
    /// Closes the inner list, and returns the serializer of its parameters (RFC 9651, section 4.1.1.1).
    ///
    /// # Errors
    ///
    /// Returns `OutOfMemory` if memory runs out. The inner list is then removed with its separator or key, as by
    /// `abandon`.
    pub fn finish(self) -> Result<ParameterSerializer<'s, SequenceSerializer<W, K>>, OutOfMemory>
        ensures* removed { sem 𝓛 (AfterErr (parts W.row K.row) params_sink (Removes W.Sink self.entry) self.entry.sink result) }
        ensures lent { IfOk result (λ p. p.sink.ghost_name ≡ self.entry.sink.ghost_name) }
        ensures version { IfOk result (λ p. p.version ≡ self.entry.sink.now.version) }
        ensures text { IfOk result (λ p. HasAppended W.Sink self.entry.sink.now p.sink.now (codes ")") false) }
        ensures room { OnErr result (LacksNext W.Sink [] self.entry.sink.now (codes ")")) }
    {
        let SequenceSerializer {
            sink,
            is_first: _,
            version: _,
            kind,
        } = self;
        let InnerListItems { len_before } = kind;
        let text = sink.sink.text_mut(OPENER);
        if text.push(')').is_err() {
            truncate_to(len_before, text);
            return Err(OutOfMemory);
        }
        sink.is_first = false;
        let version = sink.version;
        Ok(ParameterSerializer::new(sink, version))
    }

    /// Removes the inner list with its separator or key. The text and `has_member` are as before the inner list
    /// began.
    pub fn abandon(self)
        ensures text { Removes W.Sink self.entry self.entry.sink.now self.exit.0.now }
        ensures room { string_capacity (W.text self.exit.0.now.sink) ≡ string_capacity (W.text self.entry.sink.now.sink) }
    {
        let SequenceSerializer {
            sink,
            is_first: _,
            version: _,
            kind,
        } = self;
        let InnerListItems { len_before } = kind;
        truncate_to(len_before, sink.sink.text_mut(OPENER));
    }
}
