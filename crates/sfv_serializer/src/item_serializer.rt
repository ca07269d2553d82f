//! The serializer of items (RFC 9651, section 4.1.3).

ghost use Rattle.std.specs.Prelude.{◌≡◌, ◌∷◌, [], IfOk, string_bytes, string_capacity};
ghost use Rattle.std.specs.Borrow.{sem};
ghost use Rattle.sfv_spec.specs.Values.{IsBareValue};
ghost use Rattle.sfv_spec.specs.declared.version.Version.TheVariants.{Rfc9651};
ghost use Rattle.sfv_spec.specs.Canonical.{bare_text};
ghost use Rattle.sfv_values.specs.BareItems.{ref_value};
ghost use Rattle.sfv_writer.specs.Written.{LacksRoom};
ghost use Rattle.sfv_writer.specs.Versions.{OnOutOfMemory, ChecksVersionFirst};
ghost use Rattle.sfv_serializer.specs.Serializers.{AfterErr, KeepsTextAfterOne, ContinuesText, params_sink};
ghost use Rattle.sfv_serializer.specs.Texts.{text_row};

use crate::fragment::BareItemFragment;
use crate::parameter_serializer::ParameterSerializer;
use sfv_spec::version::Version;
use sfv_values::bare::RefBareItem;
use sfv_writer::capacity::prepare;
use sfv_writer::invariants::bare_item_invariant;
use sfv_writer::output::append;
use sfv_writer::serialize_error::SerializeError;
use sfv_writer::version_check::check_bare_item;
use std::string::String as StdString;

/// A serializer that appends an item to a `String`: first its bare item, then its parameters (RFC 9651, section
/// 4.1.3).
///
/// The serializer borrows the text mutably.
#[derive(Drop)]
pub struct ItemSerializer<'a> {
    buffer: &'a mut StdString,
    version: Version,
}

impl<'a> ItemSerializer<'a> {
    /// Creates a serializer that appends to `buffer`, under RFC 9651.
    #[inline(always)]
    pub fn with_buffer(buffer: &'a mut StdString) -> ItemSerializer<'a>
        ensures same_buffer { result.buffer.ghost_name ≡ buffer.entry.ghost_name }
        ensures text { string_bytes result.buffer.now ≡ string_bytes buffer.old }
        ensures room { string_capacity result.buffer.now ≡ string_capacity buffer.old }
        ensures version { result.version ≡ Rfc9651 }
    {
        ItemSerializer::with_buffer_for(buffer, Version::Rfc9651)
    }

    /// Creates a serializer that appends to `buffer`, and accepts only values of `version`.
    #[inline(always)]
    pub fn with_buffer_for(buffer: &'a mut StdString, version: Version) -> ItemSerializer<'a>
        ensures same_buffer { result.buffer.ghost_name ≡ buffer.entry.ghost_name }
        ensures text { string_bytes result.buffer.now ≡ string_bytes buffer.old }
        ensures room { string_capacity result.buffer.now ≡ string_capacity buffer.old }
        ensures version { result.version ≡ version }
    {
        ItemSerializer { buffer, version }
    }

    /// Appends the bare item, and returns the serializer of its parameters (RFC 9651, section 4.1.3.1).
    ///
    /// # Errors
    ///
    /// Returns `Unsupported` if the version lacks the value, and `OutOfMemory` if memory runs out. After an error,
    /// the text is unchanged.
    #[inline(always)]
    pub fn bare_item(
        self,
        bare_item: RefBareItem<'_>,
    ) -> Result<ParameterSerializer<'a, StdString>, SerializeError>
        ensures* kept { sem 𝓛 (AfterErr text_row params_sink (KeepsTextAfterOne result) self.entry.buffer result) }
        ensures lent { IfOk result (λ p. p.sink.ghost_name ≡ self.entry.buffer.ghost_name) }
        ensures version { IfOk result (λ p. p.version ≡ self.entry.version) }
        ensures unsupported { ChecksVersionFirst self.entry.version (ref_value bare_item.entry ∷ []) result }
        ensures text { IfOk result (ContinuesText self.entry.buffer (bare_text (ref_value bare_item.entry))) }
        ensures room { OnOutOfMemory result (LacksRoom self.entry.buffer.now (bare_text (ref_value bare_item.entry))) }
        ensures is_value { IsBareValue (ref_value bare_item.entry) }
    {
        let ItemSerializer { buffer, version } = self;
        bare_item_invariant(bare_item);
        check_bare_item(version, bare_item)?;
        prepare(buffer);
        append(BareItemFragment { value: bare_item }, buffer)?;
        Ok(ParameterSerializer::new(buffer, version))
    }
}
