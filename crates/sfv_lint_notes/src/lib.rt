//! Notes on accepted fields: what RFC 9651 allows, and the definition of the field does not, or a writer changes.
#![tactic(auto)]

pub mod keys;
pub mod notes;
pub mod rules;
