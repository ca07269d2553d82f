//! Tests of the exported calls.

mod canonical;
mod common;
mod damaged;
mod long;
mod numbers;
mod parsing;
mod random;
mod seeds;
mod writing;
