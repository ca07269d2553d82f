//! Readers of lists and dictionaries. A reader parses a field without a tree. The author of a field states the meaning
//! of a member, and needs no visitor.
#![tactic(auto)]

mod dictionary;
mod inner_list;
mod list;
mod reading;

pub use dictionary::DictionaryReader;
pub use inner_list::{IgnoredItems, InnerListReader};
pub use list::ListReader;
pub use reading::{read_dictionary, read_list};
