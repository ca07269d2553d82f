//! Structured fields in a `HeaderMap`: the text of a field, its value, and writing a value.
#![tactic(auto)]

mod lines;
mod reading;
mod write_error;
mod writing;

pub use lines::{add_line, field_text};
pub use reading::read_field;
pub use write_error::WriteError;
pub use writing::write_field;
