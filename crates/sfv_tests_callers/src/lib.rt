//! Tests of the library's callers, and of the provided visitors with them. There is no code.
#![tactic(auto)]

#[cfg(test)]
mod accept_ch;
#[cfg(test)]
mod cache_status;
#[cfg(test)]
mod common;
#[cfg(test)]
mod content_digest;
#[cfg(test)]
mod fields;
#[cfg(test)]
mod foo;
#[cfg(test)]
mod given;
#[cfg(test)]
mod priority;
#[cfg(test)]
mod proxy_status;
#[cfg(test)]
mod readers;
#[cfg(test)]
mod reading;
#[cfg(test)]
mod released;
#[cfg(test)]
mod requests;
#[cfg(test)]
mod seeds;
#[cfg(test)]
mod texts;
#[cfg(test)]
mod tool;
#[cfg(test)]
mod uses;
