//! The values of structured fields (RFC 9651): keys, tokens, strings and bare items.
#![tactic(auto)]

pub mod bare;
pub mod checked_text;
pub mod checked_text_ref;
mod equivalent;
pub mod key;
pub mod key_ref;
pub mod shorthand;
pub mod string;
pub mod string_ref;
pub mod text_class;
pub mod token;
pub mod token_ref;
mod validity;
