//! The arguments of the program `sfv_lint`, and what each kind of error means.
#![tactic(auto)]

pub mod explain;
pub mod options;
