//! The smallest fields, to copy: one by a tree, one by a reader.
#![tactic(auto)]

pub mod cdn_cache_control;
pub mod mobile_hint;
