//! The parser of fields (RFC 9651, section 4.2).

ghost use Rattle.std.specs.Prelude.{◌≡◌, IfOk, IfErr};
ghost use Rattle.sfv_spec.specs.declared.field_kind.FieldKind.TheVariants.{Item as item_field, List as list_field};
ghost use Rattle.sfv_spec.specs.declared.field_kind.FieldKind.TheVariants.{Dictionary as dictionary_field};
ghost use Rattle.sfv_spec.specs.Statements.{IsParsedAs};
ghost use Rattle.sfv_spec.specs.declared.version.Version.TheVariants as versions;
ghost use Rattle.sfv_tree.specs.HashSeeds.{library_seed};

use crate::field_type::FieldType;
use sfv_base::error::{Error, ParseError};
use sfv_spec::version::Version;
use sfv_tree::hash_seed::HashSeed;
use sfv_tree::make::{MakeDictionaryVisitor, MakeItemVisitor, MakeListVisitor};
use sfv_tree::visitor::Visitor;
use std::alloc::Global;

mod bare_item;
mod base64_blocks;
mod base64_symbols;
mod byte_sequence;
mod cursor;
mod digits;
mod display_string;
mod field;
mod item;
mod key;
mod member;
mod number;
mod quoted;
mod string;
mod token;
mod tree;
mod visit;

use field::{parse_item_field, parse_members_field};
use member::{Entry, KeyedEntry};
pub(crate) use tree::{parse_item, parse_members};

/// A parser for one input, under one version of the standard.
///
/// A parser has no position: each call parses the whole input.
#[derive(Clone, Copy, Debug)]
pub struct Parser<'de> {
    input: &'de [u8],
    version: Version,
    seed: HashSeed,
}

impl<'de> Parser<'de> {
    ghost use Rattle.sfv.specs.Parsers.{input_of, version_of, IsParseError, IsAnswerBy, IsSyntaxErrorBy};
    ghost use Rattle.sfv.specs.Parsers.{ReceivesBeforeErrorBy, IsVisitorErrorBy, ReceivesFirstBy, ReceivesAsReadBy};
    ghost use Rattle.sfv.specs.Parsers.{ReadsBy, ReadsItemBy};
    ghost use Rattle.sfv.specs.Memory.{NeedsMark, NeedsMemory};

    /// Creates a parser for `input` under RFC 9651, with the library's hash seed.
    pub fn new(input: &'de [u8]) -> Parser<'de>
        ensures { result ≡ record { input = input.entry; version = versions.Rfc9651; seed = library_seed } }
    {
        Parser {
            input,
            version: Version::Rfc9651,
            seed: HashSeed::default(),
        }
    }

    /// Sets the version of the standard.
    pub fn with_version(mut self, version: Version) -> Parser<'de>
        ensures { result ≡ record self.entry { version = version } }
    {
        self.version = version;
        self
    }

    /// Sets the hash seed of the dictionaries and parameters that the parser builds.
    pub fn with_hash_seed(mut self, seed: HashSeed) -> Parser<'de>
        ensures { result ≡ record self.entry { seed = seed } }
    {
        self.seed = seed;
        self
    }

    /// Returns the hash seed of the dictionaries and parameters that the parser builds.
    pub fn hash_seed(&self) -> HashSeed
        ensures { result ≡ self.now.seed }
    {
        self.seed
    }

    /// Parses the input as a field of type `T` (RFC 9651, section 4.2), with memory from `alloc`.
    ///
    /// Succeeds if and only if the input is such a field, unless memory runs out. A repeated key keeps its first
    /// position and takes its last value.
    ///
    /// In measurements, the time is linear in the length of the input under a random seed (`with_hash_seed`). With
    /// the library's seed, an attacker can choose colliding keys: 64 KB of them take a hundred times as long, and the
    /// factor grows with the length. For untrusted input, set a random seed once per run of the program, or use a
    /// visitor, which has no map.
    ///
    /// # Errors
    ///
    /// Returns the kind and the index of the first syntax error. The index is a zero-based byte offset, at most the
    /// length of the input. Returns the kind `OutOfMemory`, without index, if memory runs out.
    pub fn parse<T: FieldType>(self, alloc: Global) -> Result<T, Error>
        ensures read { IfOk result
            (λ value. IsParsedAs (version_of self.entry) T.kind (input_of self.entry) (T.tree value)) }
        ensures seed { IfOk result (T.has_seed self.entry.seed) }
        ensures rejected { IfErr result (IsParseError (version_of self.entry) T.kind (input_of self.entry)) }
        ensures memory { IfErr result (NeedsMemory T.kind (input_of self.entry)) }
    {
        T::parse(alloc, self)
    }

    /// Parses the input as an item (RFC 9651, section 4.2), with the visitor of `T` and memory from `alloc`.
    ///
    /// For `Item` the result is the whole item. For a type of one kind (`Integer`, `TokenRef`, ..) it is the bare
    /// item, which must have that kind. For `BareItem` and `BareItemFromInput` it is the bare item of any kind. All
    /// types except `Item` ignore parameters.
    ///
    /// # Errors
    ///
    /// Returns the errors of `parse_item_with_visitor`.
    pub fn parse_item<T: MakeItemVisitor<'de>>(
        self,
        alloc: Global,
    ) -> Result<T, ParseError<<T::Visitor as Visitor<'de>>::Error>>
        ensures { (v : _) × T.is_made self.entry.seed v × ReadsItemBy T.Visitor.Visitor self.entry v result }
    {
        let visitor = T::make_item_visitor(alloc, self.seed);
        self.parse_item_with_visitor(alloc, visitor)
    }

    /// Parses the input as a list (RFC 9651, section 4.2), with the visitor of `T` and memory from `alloc`.
    ///
    /// For `List`, it returns the same value as `parse`, unless memory runs out.
    ///
    /// # Errors
    ///
    /// Returns the errors of `parse_list_with_visitor`.
    pub fn parse_list<T: MakeListVisitor<'de>>(
        self,
        alloc: Global,
    ) -> Result<T, ParseError<<T::Visitor as Visitor<'de>>::Error>>
        ensures { (v : _) × T.is_made self.entry.seed v × ReadsBy T.Visitor.Visitor self.entry list_field v result }
    {
        let visitor = T::make_list_visitor(alloc, self.seed);
        self.parse_list_with_visitor(alloc, visitor)
    }

    /// Parses the input as a dictionary (RFC 9651, section 4.2), with the visitor of `T` and memory from `alloc`.
    ///
    /// For `Dictionary`, it returns the same value as `parse`, unless memory runs out.
    ///
    /// # Errors
    ///
    /// Returns the errors of `parse_dictionary_with_visitor`.
    pub fn parse_dictionary<T: MakeDictionaryVisitor<'de>>(
        self,
        alloc: Global,
    ) -> Result<T, ParseError<<T::Visitor as Visitor<'de>>::Error>>
        ensures { (v : _) × T.is_made self.entry.seed v × ReadsBy T.Visitor.Visitor self.entry dictionary_field v result }
    {
        let visitor = T::make_dictionary_visitor(alloc, self.seed);
        self.parse_dictionary_with_visitor(alloc, visitor)
    }

    /// Parses the input as an item (RFC 9651, section 4.2), and passes its parts to `visitor` from left to right.
    ///
    /// The events are `BareItem`, a `Parameter` for each parameter, repeated keys included, and `ParametersEnd`.
    /// Returns the result of `Visitor::finish`. Texts with escapes, and byte sequences, are allocated from `alloc`.
    ///
    /// # Errors
    ///
    /// Returns `ParseError::Visitor` if the visitor fails; parsing then ends. Otherwise returns `ParseError::Syntax`
    /// with the errors of `parse`. `finish` runs before the check for characters after the item, so its error takes
    /// precedence.
    pub fn parse_item_with_visitor<V: Visitor<'de>>(
        self,
        alloc: Global,
        visitor: V,
    ) -> Result<V::Out, ParseError<V::Error>>
        requires { V.is_ready visitor }
        ensures visited { IfOk result (IsAnswerBy V.Visitor self.entry item_field visitor) }
        ensures as_read { IfOk result (ReceivesAsReadBy V.Visitor self.entry item_field visitor) }
        ensures syntax { IfErr result (IsSyntaxErrorBy V.Visitor self.entry item_field visitor) }
        ensures before_error { IfErr result (ReceivesBeforeErrorBy V.Visitor self.entry item_field visitor) }
        ensures visitor { IfErr result (IsVisitorErrorBy V.Visitor self.entry item_field visitor) }
        ensures memory { IfErr result (NeedsMark (input_of self.entry)) }
        ensures first { IfErr result (ReceivesFirstBy V.Visitor self.entry visitor) }
    {
        parse_item_field(self, alloc, visitor)
    }

    /// Parses the input as a list (RFC 9651, section 4.2), and passes its parts to `visitor` from left to right.
    ///
    /// Each member begins with `Entry`; then follow the events of an item or an inner list. The visitor receives
    /// `Entry` when input remains for a member, before the member is parsed. Returns the result of `Visitor::finish`.
    /// Texts with escapes, and byte sequences, are allocated from `alloc`.
    ///
    /// # Errors
    ///
    /// Returns `ParseError::Visitor` if the visitor fails; parsing then ends. Otherwise returns `ParseError::Syntax`
    /// with the errors of `parse`. `finish` runs only if the whole input has been parsed without an error.
    pub fn parse_list_with_visitor<V: Visitor<'de>>(
        self,
        alloc: Global,
        visitor: V,
    ) -> Result<V::Out, ParseError<V::Error>>
        requires { V.is_ready visitor }
        ensures visited { IfOk result (IsAnswerBy V.Visitor self.entry list_field visitor) }
        ensures as_read { IfOk result (ReceivesAsReadBy V.Visitor self.entry list_field visitor) }
        ensures syntax { IfErr result (IsSyntaxErrorBy V.Visitor self.entry list_field visitor) }
        ensures before_error { IfErr result (ReceivesBeforeErrorBy V.Visitor self.entry list_field visitor) }
        ensures visitor { IfErr result (IsVisitorErrorBy V.Visitor self.entry list_field visitor) }
        ensures memory { IfErr result (NeedsMark (input_of self.entry)) }
    {
        parse_members_field::<Entry, V>(self, alloc, visitor)
    }

    /// Parses the input as a dictionary (RFC 9651, section 4.2), and passes its parts to `visitor` from left to
    /// right.
    ///
    /// Each member begins with `KeyedEntry`, after its key is parsed; then follow the events of an item or an inner
    /// list. Every occurrence of a repeated key is passed. A member without `=` is the item true. Returns the result
    /// of `Visitor::finish`. Texts with escapes, and byte sequences, are allocated from `alloc`.
    ///
    /// # Errors
    ///
    /// Returns `ParseError::Visitor` if the visitor fails; parsing then ends. Otherwise returns `ParseError::Syntax`
    /// with the errors of `parse`. `finish` runs only if the whole input has been parsed without an error.
    pub fn parse_dictionary_with_visitor<V: Visitor<'de>>(
        self,
        alloc: Global,
        visitor: V,
    ) -> Result<V::Out, ParseError<V::Error>>
        requires { V.is_ready visitor }
        ensures visited { IfOk result (IsAnswerBy V.Visitor self.entry dictionary_field visitor) }
        ensures as_read { IfOk result (ReceivesAsReadBy V.Visitor self.entry dictionary_field visitor) }
        ensures syntax { IfErr result (IsSyntaxErrorBy V.Visitor self.entry dictionary_field visitor) }
        ensures before_error { IfErr result (ReceivesBeforeErrorBy V.Visitor self.entry dictionary_field visitor) }
        ensures visitor { IfErr result (IsVisitorErrorBy V.Visitor self.entry dictionary_field visitor) }
        ensures memory { IfErr result (NeedsMark (input_of self.entry)) }
    {
        parse_members_field::<KeyedEntry, V>(self, alloc, visitor)
    }
}
