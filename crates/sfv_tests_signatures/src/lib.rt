//! Tests of HTTP message signatures. There is no code.
#![tactic(auto)]

#[cfg(test)]
mod base;
#[cfg(test)]
mod common;
#[cfg(test)]
mod random;
#[cfg(test)]
mod same_base;
#[cfg(test)]
mod sample;
#[cfg(test)]
mod second;
#[cfg(test)]
mod signature_fields;
