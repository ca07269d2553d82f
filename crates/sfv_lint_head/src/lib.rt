//! The text of the program `sfv_lint`: the field lines of a head, the lines of a field, and bytes as they are shown.
#![tactic(auto)]

pub mod excerpt;
pub mod head;
pub mod lines;
pub mod paint;
pub mod shown;
