//! Structured fields as JSON and as trees for reading.
#![tactic(auto)]

pub mod base32;
pub mod json;
pub mod tree;
