//! The base of structured fields (RFC 9651): errors, numbers, and classes of bytes. It also has the searches for the
//! end of a run of bytes.
#![tactic(auto)]

pub mod date;
pub mod decimal;
pub mod error;
pub mod integer;
mod lanes;
pub mod runs;
pub mod shorthand;
pub mod utils;
