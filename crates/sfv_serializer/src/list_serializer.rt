//! The serializer of lists (RFC 9651, section 4.1.1).

ghost use Rattle.std.specs.Prelude.{◌≡◌, IfOk, IfErr, OnOk, OnErr, codes};
ghost use Rattle.std.specs.Borrow.{sem};
ghost use Rattle.std.specs.Iterator.{IsFinite};
ghost use Rattle.sfv_writer.specs.Versions.{list_members};
ghost use Rattle.sfv_serializer.specs.Serializers.{KeepsSequence, sequence_sink, WritesAll};
ghost use Rattle.sfv_serializer.specs.Serializers.{FailsToWrite, AfterErr, parts, HasAppendedOpening, BeginsAfter};
ghost use Rattle.sfv_serializer.specs.Serializers.{LacksNext};
ghost use Rattle.sfv_serializer.specs.contracts.sequence_kind.ListMembers.{the_row as list_row};

use crate::fragment::InnerListStart;
use crate::inner_list_serializer::InnerListSerializer;
use crate::sequence::SequenceSerializer;
use crate::sequence_kind::ListMembers;
use crate::sink::Sink;
use sfv_base::error::OutOfMemory;
use sfv_tree::parsed::ListEntry;
use sfv_writer::serialize_error::SerializeError;

/// A serializer that appends a list to a `String`, member by member (RFC 9651, section 4.1.1).
///
/// The serializer borrows the text mutably. Dropping it keeps the written text.
pub type ListSerializer<W> = SequenceSerializer<W, ListMembers>;

impl<W: Sink> SequenceSerializer<W, ListMembers> {
    /// Begins a member that is an inner list, and returns the serializer of its items (RFC 9651, section 4.1.1.1).
    ///
    /// Writes an opening parenthesis. A separator comes first, except for the first member. You must call `finish` or
    /// `abandon` on the result.
    ///
    /// # Errors
    ///
    /// Returns `OutOfMemory` if memory runs out. The text and `has_member` are then unchanged.
    pub fn inner_list(&mut self) -> Result<InnerListSerializer<&mut ListSerializer<W>>, OutOfMemory>
        ensures* kept { sem 𝓛 (AfterErr (parts W.row list_row) sequence_sink (KeepsSequence W.Sink) self.entry result) }
        ensures lent { IfOk result (λ s. s.sink.ghost_name ≡ self.entry.ghost_name) }
        ensures version { IfOk result (λ s. s.version ≡ self.old.version) }
        ensures text { IfOk result (HasAppendedOpening W.Sink (codes ", ") self.old (codes "(")) }
        ensures begins { IfOk result (BeginsAfter W.Sink self.old) }
        ensures room { OnErr result (LacksNext W.Sink (codes ", ") self.old (codes "(")) }
    {
        self.begin(InnerListStart {})
    }

    /// Appends members in order, as `FieldType::serialize` writes them (RFC 9651, section 4.1.1).
    ///
    /// # Errors
    ///
    /// Returns `Unsupported` at the first value that the version lacks, and `OutOfMemory` if memory runs out. An
    /// empty iterator causes no error. After an error, the text and `has_member` are unchanged.
    pub fn members<'m, I: Iterator<Item = &'m ListEntry> + Drop>(
        &mut self,
        members: I,
    ) -> Result<(), SerializeError>
        requires can { I.can_next members }
        requires ends { IsFinite (I.remaining members) }
        ensures text { OnOk result (WritesAll W.Sink (codes ", ") list_members I.next_gives members self.old self.new) }
        ensures failed { IfErr result (FailsToWrite W.Sink (codes ", ") list_members I.next_gives members self.old) }
        ensures kept { OnErr result (KeepsSequence W.Sink self.old self.new) }
    {
        self.append_each(members)
    }
}
