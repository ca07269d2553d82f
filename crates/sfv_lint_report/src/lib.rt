//! The report of the program `sfv_lint` on the structured fields of a head, or on one value.
#![tactic(auto)]

pub mod check;
pub mod print;
pub mod report;
