//! Tests of the values of structured fields, and of their trees. There is no code.
#![tactic(auto)]

#[cfg(test)]
mod bare_items;
#[cfg(test)]
mod builders;
#[cfg(test)]
mod common;
#[cfg(test)]
mod conversions;
#[cfg(test)]
mod errors;
#[cfg(test)]
mod lengths;
#[cfg(test)]
mod memory;
#[cfg(test)]
mod numbers;
#[cfg(test)]
mod seeds;
#[cfg(test)]
mod texts;
#[cfg(test)]
mod trees;
