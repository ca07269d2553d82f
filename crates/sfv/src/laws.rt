//! The laws of the definitions. To use a law in a proof, call its function, which does nothing, and cite its
//! contract.
//!
//! `docs/DEFINITIONS.md` explains each law. Seven concern whole fields:
//!
//! - `equal_texts`: two fields have the same text if and only if they are equal;
//! - `text_again`: the text of a parsed field parses to the same value and serializes to the same text;
//! - `older_reads_back`: a value without dates and display strings parses back under RFC 8941, too;
//! - `newer_accepts`: RFC 9651 accepts every text that RFC 8941 accepts, as the same field;
//! - `printable_texts`: the text of a field consists of printable ASCII characters;
//! - `length_bound`: the canonical text is at most 8/5 as long as the text that it was parsed from;
//! - `joined_lines`: the lines of a field, joined by a comma and a space, have the members of all lines.

pub use sfv_model::{fault_rejects, field_or_fault, joined_lines, one_fault, ruled_or_at_reach};
pub use sfv_spec::{
    accepted_is_value, equal_texts, length_bound, newer_accepts, older_reads_back, one_field,
    one_reach, printable_texts, round_trip, some_reach, text_again,
};
