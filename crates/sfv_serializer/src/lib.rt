//! Serializers that write structured fields part by part, and lists of their calls (RFC 9651, section 4.1).
#![tactic(auto)]

mod dict_serializer;
mod fragment;
mod inner_list_serializer;
mod item_serializer;
mod list_serializer;
mod parameter_serializer;
pub mod script;
mod sequence;
mod sequence_kind;
mod sink;
mod version_check_of_calls;

pub use dict_serializer::DictSerializer;
pub use inner_list_serializer::InnerListSerializer;
pub use item_serializer::ItemSerializer;
pub use list_serializer::ListSerializer;
pub use parameter_serializer::ParameterSerializer;
pub use sequence::SequenceSerializer;
pub use sequence_kind::{
    DictMembers, InnerListItems, Keyless, ListMembers, SequenceKind, TopLevel,
};
pub use sink::Sink;
