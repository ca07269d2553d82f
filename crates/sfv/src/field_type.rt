//! The field types: items, lists and dictionaries.

ghost use Rattle.std.specs.Prelude.{◌≡◌, ◌≤◌, ◌↔◌, ℕ, List, Option, Some, option_map, IfOk, IfErr, OnOk, IsTrue};
ghost use Rattle.std.specs.Prelude.{string_bytes, string_capacity};
ghost use Rattle.std.proofs.Common.{ap};
ghost use Rattle.std.specs.declared.alloc.Global.{Global as Heap};
ghost use Rattle.std.specs.declared.string.String.{String as Text};
ghost use Rattle.sfv_spec.specs.Values.{RawField, HasMember, bare_values};
ghost use Rattle.sfv_spec.specs.declared.field_kind.FieldKind.{FieldKind};
ghost use Rattle.sfv_spec.specs.declared.field_kind.FieldKind.TheVariants.{Item as item_field, List as list_field};
ghost use Rattle.sfv_spec.specs.declared.field_kind.FieldKind.TheVariants.{Dictionary as dictionary_field};
ghost use Rattle.sfv_spec.specs.declared.version.Version.TheVariants.{Rfc9651};
ghost use Rattle.sfv_spec.specs.Statements.{IsParsedAs, IsSerializedAs};
ghost use Rattle.sfv_tree.specs.Trees.{item_tree, list_tree, dictionary_tree};
ghost use Rattle.sfv_tree.specs.Seeds.{ItemHasSeed, ListHasSeed, DictionaryHasSeed};
ghost use Rattle.sfv_tree.specs.declared.hash_seed.HashSeed.{HashSeed};
ghost use Rattle.sfv_spec.specs.Canonical.{canonical};
ghost use Rattle.sfv_writer.specs.Versions.{ChecksVersionFirst, OnOutOfMemory, OnUnsupported};
ghost use Rattle.sfv_writer.specs.Written.{AppendsOrKeeps, LacksRoom};
ghost use Rattle.sfv.specs.Parsers.{input_of, version_of, IsParseError};
ghost use Rattle.sfv.specs.Memory.{NeedsMemory};

use crate::parser::{Parser, parse_item, parse_members};
use sfv_base::error::{Error, OutOfMemory};
use sfv_spec::version::Version;
use sfv_tree::parsed::{Dictionary, Item, List};
use sfv_writer::{
    SerializeError, append_dictionary, append_item, append_list, check_dictionary, check_item,
    check_list, dictionary_text, item_text, list_text,
};
use std::alloc::Global;
use std::string::String as StdString;

mod sealed {
    pub trait Sealed {}

    impl Sealed for sfv_tree::parsed::Item {}

    impl Sealed for sfv_tree::parsed::List {}

    impl Sealed for sfv_tree::parsed::Dictionary {}
}

/// A field type: `Item`, `List` or `Dictionary`. This trait is sealed.
///
/// Contracts view a value as its tree (`tree`), in the type's kind of field (`kind`).
pub trait FieldType: sealed::Sealed + Drop {
    /// The result of `serialize`: a `String` for an item, and an `Option<String>` for a list or a dictionary.
    type SerializeResult: Drop + Into<Option<StdString>>;

    ghost kind: { FieldKind };

    ghost tree: { Self → RawField kind };

    /// Each map of the value hashes under this seed.
    ghost has_seed: { HashSeed → Self → Type 0 };

    ghost written: { Self.SerializeResult → Option (List ℕ) };

    /// Parses a field of this type, as `Parser::parse` does (RFC 9651, section 4.2).
    ///
    /// # Errors
    ///
    /// Returns the errors of `Parser::parse`.
    fn parse(alloc: Global, parser: Parser<'_>) -> Result<Self, Error>
        ensures read { IfOk result (λ value.
            IsParsedAs (version_of parser.entry) kind (input_of parser.entry) (tree value)) }
        ensures seed { IfOk result (has_seed parser.entry.seed) }
        ensures rejected { IfErr result (IsParseError (version_of parser.entry) kind (input_of parser.entry)) }
        ensures memory { IfErr result (NeedsMemory kind (input_of parser.entry)) };

    /// Returns the canonical text (RFC 9651, section 4.1), allocated from `alloc`.
    ///
    /// The text parses back to the same value under RFC 9651. An empty list or dictionary returns `None` and does not
    /// allocate. The text of an item has at least one byte, so any item needs memory.
    ///
    /// # Errors
    ///
    /// Returns `OutOfMemory` if memory runs out.
    fn serialize(&self, alloc: Global) -> Result<Self::SerializeResult, OutOfMemory>
        ensures text { IfOk result (λ text. IsSerializedAs Rfc9651 kind (tree self.now) (written text)) }
        ensures out_of_memory { IfErr result (λ _. HasMember kind (tree self.now)) };

    /// Returns the canonical text, as `serialize` does, if `version` has every value (RFC 9651, section 4.1).
    ///
    /// The text parses back to the same value under `version`. The whole value is checked before memory is allocated.
    ///
    /// # Errors
    ///
    /// Returns `Unsupported` with the kind of the first value, in the order of the text, that `version` lacks.
    /// Returns `OutOfMemory` if memory runs out.
    fn serialize_for(
        &self,
        alloc: Global,
        version: Version,
    ) -> Result<Self::SerializeResult, SerializeError>
        ensures text { IfOk result (λ text.
            IsSerializedAs version kind (tree self.now) (written text)) }
        ensures unsupported { ChecksVersionFirst version (bare_values kind (tree self.now)) result }
        ensures failed { IfErr result (λ _. HasMember kind (tree self.now)) };

    /// Appends the canonical text to `text`, if `version` has every value (RFC 9651, section 4.1).
    ///
    /// Returns `true` if the text is not empty. An empty list or dictionary has no text, and nothing is appended. The
    /// appended text parses back to the same value under `version`. No memory is requested if `text` has the capacity.
    ///
    /// # Errors
    ///
    /// Returns `Unsupported` with the kind of the first value, in the order of the text, that `version` lacks. Returns
    /// `OutOfMemory` if memory runs out, which happens only if `text` lacks the capacity. After an error, the text is
    /// unchanged.
    fn append_to(&self, version: Version, text: &mut StdString) -> Result<bool, SerializeError>
        ensures text { AppendsOrKeeps text.old text.new (canonical kind (tree self.now)) result }
        ensures room { OnOutOfMemory result (LacksRoom text.old (canonical kind (tree self.now))) }
        ensures stays { string_capacity text.old ≤ string_capacity text.new }
        ensures has_member { IfOk result (λ any. IsTrue any ↔ HasMember kind (tree self.now)) }
        ensures unsupported { ChecksVersionFirst version (bare_values kind (tree self.now)) result }
        ensures untouched { OnUnsupported result (text.new ≡ text.old) }
        ensures read_back { OnOk result (IsParsedAs version kind (canonical kind (tree self.now)) (tree self.now)) };

    ghost into_written: { (result : Self.SerializeResult) (text : Option (Text Heap))
        → Self.SerializeResult.converts result text → option_map string_bytes text ≡ written result };
}

impl FieldType for Item {
    type SerializeResult = StdString;

    ghost kind = { item_field };

    ghost tree = { item_tree };

    ghost has_seed = { ItemHasSeed };

    ghost written = { λ text. Some (string_bytes text) };

    ghost into_written = { λ result text same. ap (option_map string_bytes) same };

    fn parse(alloc: Global, parser: Parser<'_>) -> Result<Item, Error> {
        parse_item(parser, alloc)
    }

    fn serialize(&self, alloc: Global) -> Result<StdString, OutOfMemory> {
        item_text(self, alloc)
    }

    fn serialize_for(&self, alloc: Global, version: Version) -> Result<StdString, SerializeError> {
        check_item(version, self)?;
        let text = self.serialize(alloc)?;
        Ok(text)
    }

    fn append_to(&self, version: Version, text: &mut StdString) -> Result<bool, SerializeError> {
        append_item(version, self, text)?;
        Ok(true)
    }
}

impl FieldType for List {
    type SerializeResult = Option<StdString>;

    ghost kind = { list_field };

    ghost tree = { λ list. list_tree list.items };

    ghost has_seed = { λ seed list. ListHasSeed seed list.items };

    ghost written = { option_map string_bytes };

    ghost into_written = { λ result text same. ap (option_map string_bytes) same };

    fn parse(alloc: Global, parser: Parser<'_>) -> Result<List, Error> {
        parse_members::<List>(parser, alloc)
    }

    fn serialize(&self, alloc: Global) -> Result<Option<StdString>, OutOfMemory> {
        list_text(self, alloc)
    }

    fn serialize_for(
        &self,
        alloc: Global,
        version: Version,
    ) -> Result<Option<StdString>, SerializeError> {
        check_list(version, self)?;
        let text = self.serialize(alloc)?;
        Ok(text)
    }

    fn append_to(&self, version: Version, text: &mut StdString) -> Result<bool, SerializeError> {
        append_list(version, self, text)?;
        Ok(!self.is_empty())
    }
}

impl FieldType for Dictionary {
    type SerializeResult = Option<StdString>;

    ghost kind = { dictionary_field };

    ghost tree = { λ dictionary. dictionary_tree dictionary.entries };

    ghost has_seed = { DictionaryHasSeed };

    ghost written = { option_map string_bytes };

    ghost into_written = { λ result text same. ap (option_map string_bytes) same };

    fn parse(alloc: Global, parser: Parser<'_>) -> Result<Dictionary, Error> {
        parse_members::<Dictionary>(parser, alloc)
    }

    fn serialize(&self, alloc: Global) -> Result<Option<StdString>, OutOfMemory> {
        dictionary_text(self, alloc)
    }

    fn serialize_for(
        &self,
        alloc: Global,
        version: Version,
    ) -> Result<Option<StdString>, SerializeError> {
        check_dictionary(version, self)?;
        let text = self.serialize(alloc)?;
        Ok(text)
    }

    fn append_to(&self, version: Version, text: &mut StdString) -> Result<bool, SerializeError> {
        append_dictionary(version, self, text)?;
        Ok(!self.is_empty())
    }
}
