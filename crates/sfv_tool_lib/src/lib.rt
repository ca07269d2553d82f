//! The results of the program `sfv_tool`: canonical texts of structured fields and Priority fields.
#![tactic(auto)]

pub mod answer;
pub mod run;

pub use sfv_http_fields::priority;
