//! The output of the program `sfv_lint`.
#![tactic(auto)]

pub mod document;
pub mod lines;
pub mod run;
