//! Serialization of trees (RFC 9651, section 4.1).
#![tactic(auto)]

mod base64_blocks;
mod byte_sequence;
pub mod capacity;
mod dictionary;
mod display_string;
pub mod element;
pub mod invariants;
pub mod item;
mod list;
mod member;
mod number;
pub mod output;
mod quoted;
pub mod serialize_error;
mod string;
pub mod version_check;

pub use dictionary::{append_dictionary, dictionary_text};
pub use item::{append_item, item_text, serialize_item};
pub use list::{append_list, list_text};
pub use member::{append_inner_list, append_member};
pub use serialize_error::SerializeError;
pub use version_check::{check_dictionary, check_item, check_list};
