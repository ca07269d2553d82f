//! The common serializer of list members, dictionary members and items of inner lists (RFC 9651, sections 4.1.1,
//! 4.1.1.1 and 4.1.2).

ghost use Rattle.std.specs.Prelude.{◌≡◌, ◌∷◌, ◌↔◌, [], true, false, not, IsTrue, IsNone, IfSome, IfOk, IfErr, OnOk};
ghost use Rattle.std.specs.Prelude.{OnErr, string_bytes, string_capacity};
ghost use Rattle.std.specs.Borrow.{sem};
ghost use Rattle.std.specs.Io.BufRead.{Rests};
ghost use Rattle.sfv_serializer.specs.Texts.{text_row};
ghost use Rattle.std.specs.Iterator.{IsFinite};
ghost use Rattle.std.proofs.Common.{◌∙◌, refl};
ghost use Rattle.sfv_spec.specs.Values.{IsBareValue};
ghost use Rattle.sfv_spec.specs.declared.version.Version.TheVariants.{Rfc9651};
ghost use Rattle.sfv_spec.specs.Canonical.{bare_text};
ghost use Rattle.sfv_values.specs.BareItems.{ref_value};
ghost use Rattle.sfv_writer.specs.Versions.{OnOutOfMemory, ChecksVersionFirst};
ghost use Rattle.sfv_serializer.specs.Serializers.{IsSameSequence, KeepsSequence, KeepsAfterOne, HasAppendedNext};
ghost use Rattle.sfv_serializer.specs.Serializers.{sequence_sink, is_empty_so_far, params_sink};
ghost use Rattle.sfv_serializer.specs.Serializers.{WritesAll, FailsToWrite, AfterErr, parts};
ghost use Rattle.sfv_serializer.specs.Serializers.{HasAppendedItem, HasAppendedOpening, BeginsAfter, LacksNext};

use crate::fragment::{BareItemFragment, Separated, TokenFragment};
use crate::inner_list_serializer::InnerListSerializer;
use crate::parameter_serializer::ParameterSerializer;
use crate::sequence_kind::{InnerListItems, Keyless, SequenceKind, TopLevel};
use crate::sink::{OPENER, Opener, Sink};
use sfv_base::error::OutOfMemory;
use sfv_spec::version::Version;
use sfv_values::bare::{GenericBareItem, RefBareItem};
use sfv_writer::element::{Element, append_each};
use sfv_writer::invariants::bare_item_invariant;
use sfv_writer::output::{Fragment, append};
use sfv_writer::serialize_error::SerializeError;
use sfv_writer::version_check::check_bare_item;
use std::string::String as StdString;

/// Returns the whole text, or `None` if there is no member. Does not modify the text.
// `finish` is this call. Its own clauses cannot state `kept`, because they cannot name a text that a struct borrows.
fn whole_text(text: &mut StdString, is_empty: bool) -> Option<&str>
    ensures* kept { sem 𝓛 (Rests text_row text.entry (λ last. last ≡ text.old)) }
    ensures none { IsNone result ↔ IsTrue is_empty }
    ensures text { IfSome result (λ whole. whole.now ≡ string_bytes text.old) }
{
    if is_empty {
        return None;
    }
    Some(text.as_str())
}

/// A serializer that appends parts of kind `K` to `W`. Use it by the names `ListSerializer`, `DictSerializer` and
/// `InnerListSerializer`.
///
/// The serializer borrows its text mutably. You can drop the serializer of a list or a dictionary, which keeps the
/// written text. You cannot drop the serializer of an inner list.
#[derive(Drop)]
pub struct SequenceSerializer<W, K> {
    pub(crate) sink: W,
    pub(crate) is_first: bool,
    pub(crate) version: Version,
    pub(crate) kind: K,
}

impl<'a, K: TopLevel> SequenceSerializer<&'a mut StdString, K> {
    /// Creates a serializer that appends to `buffer`, under RFC 9651.
    pub fn with_buffer(buffer: &'a mut StdString) -> SequenceSerializer<&'a mut StdString, K>
        ensures same_buffer { result.sink.ghost_name ≡ buffer.entry.ghost_name }
        ensures text { string_bytes result.sink.now ≡ string_bytes buffer.old }
        ensures room { string_capacity result.sink.now ≡ string_capacity buffer.old }
        ensures none { is_empty_so_far result ≡ true }
        ensures version { result.version ≡ Rfc9651 }
    {
        SequenceSerializer::with_buffer_for(buffer, Version::Rfc9651)
    }

    /// Creates a serializer that appends to `buffer`, and accepts only values of `version`.
    pub fn with_buffer_for(
        buffer: &'a mut StdString,
        version: Version,
    ) -> SequenceSerializer<&'a mut StdString, K>
        ensures same_buffer { result.sink.ghost_name ≡ buffer.entry.ghost_name }
        ensures text { string_bytes result.sink.now ≡ string_bytes buffer.old }
        ensures room { string_capacity result.sink.now ≡ string_capacity buffer.old }
        ensures none { is_empty_so_far result ≡ true }
        ensures version { result.version ≡ version }
    {
        SequenceSerializer {
            sink: buffer,
            is_first: true,
            version,
            kind: K::kind(),
        }
    }

    /// Finishes the field and returns the whole text of the buffer, or `None` if there is no member. Do not send a
    /// field without members (RFC 9651, section 4.1).
    ///
    /// Does not modify the text (`docs/DECISIONS.md`). If a proof needs the text afterwards, call `has_member` and drop
    /// the serializer.
    pub fn finish(self) -> Option<&'a str>
        ensures none { IsNone result ↔ IsTrue (is_empty_so_far self.entry) }
        ensures text { IfSome result (λ text. text.now ≡ string_bytes self.entry.sink.now) }
    {
        let SequenceSerializer {
            sink,
            is_first,
            version: _,
            kind: _,
        } = self;
        whole_text(sink, is_first)
    }
}

impl<W, K: TopLevel> SequenceSerializer<W, K> {
    /// Returns `true` if this serializer has written a member.
    pub fn has_member(&self) -> bool
        ensures { result ≡ not (is_empty_so_far self.now) }
    {
        !self.is_first
    }
}

impl<W: Sink, K: SequenceKind> SequenceSerializer<W, K> {
    /// Appends a fragment, after the separator unless it is the first. If memory runs out, nothing changes.
    #[inline(always)]
    pub(crate) fn append<P: Fragment>(&mut self, fragment: P) -> Result<(), OutOfMemory>
        ensures text { OnOk result
            (HasAppendedNext W.Sink K.separator self.old self.new (P.text fragment) (is_empty_so_far self.old)) }
        ensures room { OnErr result (LacksNext W.Sink K.separator self.old (P.text fragment)) }
        ensures valid { OnOk result (P.is_valid fragment) }
        ensures kept { OnErr result (KeepsSequence W.Sink self.old self.new) }
    {
        let fragment = Separated {
            is_first: self.is_first,
            separator: K::separator(),
            fragment,
        };
        append(fragment, self.sink.text_mut(OPENER))
    }

    /// Appends the elements of an iterator, if the version has them. After an error, nothing changes.
    pub(crate) fn append_each<E: Element, I: Iterator<Item = E> + Drop>(
        &mut self,
        elements: I,
    ) -> Result<(), SerializeError>
        requires can { I.can_next elements }
        requires ends { IsFinite (I.remaining elements) }
        ensures text { OnOk result (WritesAll W.Sink K.separator E.part I.next_gives elements self.old self.new) }
        ensures failed { IfErr result (FailsToWrite W.Sink K.separator E.part I.next_gives elements self.old) }
        ensures kept { OnErr result (KeepsSequence W.Sink self.old self.new) }
    {
        let separator = K::separator();
        let none = append_each(
            self.version,
            self.is_first,
            separator,
            elements,
            self.sink.text_mut(OPENER),
        )?;
        self.is_first = none;
        Ok(())
    }

    /// Begins an inner list with this opening, after a separator if it is not the first part.
    pub(crate) fn begin<P: Fragment>(
        &mut self,
        opening: P,
    ) -> Result<InnerListSerializer<&mut SequenceSerializer<W, K>>, OutOfMemory>
        ensures* kept { sem 𝓛 (AfterErr (parts W.row K.row) sequence_sink (KeepsSequence W.Sink) self.entry result) }
        ensures lent { IfOk result (λ s. s.sink.ghost_name ≡ self.entry.ghost_name) }
        ensures version { IfOk result (λ s. s.version ≡ self.old.version) }
        ensures text { IfOk result (HasAppendedOpening W.Sink K.separator self.old (P.text opening)) }
        ensures room { OnErr result (LacksNext W.Sink K.separator self.old (P.text opening)) }
        ensures begins { IfOk result (BeginsAfter W.Sink self.old) }
        ensures valid { OnOk result (P.is_valid opening) }
    {
        let len_before = self.sink.text_mut(OPENER).len();
        self.append(opening)?;
        let version = self.version;
        Ok(SequenceSerializer {
            sink: self,
            is_first: true,
            version,
            kind: InnerListItems { len_before },
        })
    }
}

impl<W: Sink, K: Keyless> SequenceSerializer<W, K> {
    /// Appends an item as a list member or as an item of an inner list, and returns the serializer of its parameters
    /// (RFC 9651, section 4.1.3).
    ///
    /// A separator comes first, except for the first part.
    ///
    /// # Errors
    ///
    /// Returns `Unsupported` if the version lacks the value, and `OutOfMemory` if memory runs out. After an error,
    /// the text and `has_member` are unchanged.
    #[inline(always)]
    pub fn bare_item(
        &mut self,
        bare_item: RefBareItem<'_>,
    ) -> Result<ParameterSerializer<'_, SequenceSerializer<W, K>>, SerializeError>
        ensures* kept { sem 𝓛 (AfterErr (parts W.row K.row) params_sink (KeepsAfterOne W.Sink result) self.entry result) }
        ensures lent { IfOk result (λ p. p.sink.ghost_name ≡ self.entry.ghost_name) }
        ensures version { IfOk result (λ p. p.version ≡ self.old.version) }
        ensures unsupported { ChecksVersionFirst self.old.version (ref_value bare_item.entry ∷ []) result }
        ensures text { IfOk result (HasAppendedItem W.Sink K.separator self.old (bare_text (ref_value bare_item.entry))) }
        ensures room { OnOutOfMemory result (LacksNext W.Sink K.separator self.old (bare_text (ref_value bare_item.entry))) }
        ensures is_value { IsBareValue (ref_value bare_item.entry) }
    {
        bare_item_invariant(bare_item);
        check_bare_item(self.version, bare_item)?;
        // A token has a separate fragment, so its kind is tested once.
        match bare_item {
            GenericBareItem::Token(token) => self.append(TokenFragment { token })?,
            _ => self.append(BareItemFragment { value: bare_item })?,
        }
        self.is_first = false;
        let version = self.version;
        Ok(ParameterSerializer::new(self, version))
    }
}

impl<'s, W: Sink, K> Sink for &'s mut SequenceSerializer<W, K> {
    ghost text = { λ s. W.text s.now.sink };

    ghost with_text = { λ s t. record s { now = record s.now { sink = W.with_text s.now.sink t } } };

    ghost same = { IsSameSequence W.Sink };

    #[inline(always)]
    fn text_mut(&mut self, opener: Opener) -> &mut StdString {
        self.sink.text_mut(opener)
    }

    ghost text_of_with = { λ s t. W.text_of_with s.now.sink t };

    ghost same_itself = { λ s. (refl, W.same_itself s.now.sink, refl, refl, refl) };

    ghost same_with = { λ s t. (refl, W.same_with s.now.sink t, refl, refl, refl) };

    ghost same_again = { λ r s t p q.
        (q.0 ∙ p.0, W.same_again r.now.sink s.now.sink t.now.sink p.1 q.1, q.2 ∙ p.2, q.3 ∙ p.3, q.4 ∙ p.4) };
}
