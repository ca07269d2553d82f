//! Examples for callers, each proved from the public contracts of the library.
#![tactic(auto)]

pub mod expecting;
pub mod foo;
pub mod lookups;
pub mod member_integers;
pub mod reading;
pub mod rows;
pub mod serializing;
pub mod signed;
pub mod start;
pub mod values;
pub mod versions;
pub mod visiting;
pub mod writing;
