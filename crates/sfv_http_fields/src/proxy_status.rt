//! The Proxy-Status field (RFC 9209): a list of the intermediaries that handled a response. The last one is nearest to
//! the user.
//!
//! `reading::last_proxy` uses a `ListReader`, and borrows texts without escapes from the input. `writing::write_proxy`
//! makes single calls, and truncates the text after an error.

pub mod reading;
pub mod writing;
