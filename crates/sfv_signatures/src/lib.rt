//! HTTP Message Signatures (RFC 9421): the signature base, and the law that it is unambiguous.
#![tactic(auto)]

mod base;
mod base_error;
mod components;
mod fields;
mod http_message;
mod identifier;
pub mod laws;
mod lines;
mod parameters;
mod rows;
mod same_base;
mod signature_fields;

pub use base::signature_base;
pub use base_error::{BaseError, BaseErrorKind};
pub use components::Components;
pub use http_message::{HttpMessage, MessagePart};
pub use same_base::have_same_base;
pub use signature_fields::{
    SignatureError, SignatureInput, SignatureParam, signature_bytes, signature_input,
};
