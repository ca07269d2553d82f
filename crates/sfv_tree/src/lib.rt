//! Trees that own their parts (RFC 9651), and visitors: events, the trait `Visitor`, and the builders of trees. Other
//! visitors ignore events, return one bare item, or call a function.
#![tactic(auto)]

pub mod capacity;
pub mod expect_item;
pub mod hash_seed;
pub mod ignored;
pub mod item_visitor;
pub mod make;
pub mod parameter_visitor;
pub mod parsed;
pub mod shorthand;
pub mod visitor;
