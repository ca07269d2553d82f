//! Structured Field Values for HTTP (RFC 9651, and RFC 8941 as an older version).
//!
//! `Parser` parses a field into a value that owns its parts. `FieldType::serialize` returns the canonical text of a
//! value. `visitor` and the serializers work part by part, without a tree.
#![tactic(auto)]

mod field_type;
pub mod laws;
mod parser;
pub mod script;
pub mod visitor;

pub use field_type::FieldType;
pub use parser::Parser;
pub use sfv_base::date::Date;
pub use sfv_base::decimal::Decimal;
pub use sfv_base::error::{Error, ErrorKind, OutOfMemory, ParseError};
pub use sfv_base::integer::Integer;
pub use sfv_base::shorthand::integer;
pub use sfv_serializer::{
    DictMembers, DictSerializer, InnerListItems, InnerListSerializer, ItemSerializer, Keyless,
    ListMembers, ListSerializer, ParameterSerializer, SequenceKind, SequenceSerializer, Sink,
    TopLevel,
};
pub use sfv_spec::field_kind::FieldKind;
pub use sfv_spec::version::Version;
pub use sfv_tree::hash_seed::{HashSeed, random_seed};
pub use sfv_tree::parsed::{
    Dictionary, InnerList, Item, List, ListEntry, Parameters, find_entry, find_param, insert_entry,
    insert_param, remove_entry, remove_param,
};
pub use sfv_tree::shorthand::{dictionary, parameters};
pub use sfv_values::bare::{
    BareItem, BareItemFromInput, BareItemType, GenericBareItem, RefBareItem, StringFromInput,
};
pub use sfv_values::key::Key;
pub use sfv_values::key_ref::KeyRef;
pub use sfv_values::shorthand::{key_ref, string_ref, token_ref};
pub use sfv_values::string::String;
pub use sfv_values::string_ref::StringRef;
pub use sfv_values::token::Token;
pub use sfv_values::token_ref::TokenRef;
pub use sfv_writer::{SerializeError, append_inner_list, append_member};
