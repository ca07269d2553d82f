//! Tests of fields in a header map, of digests, and of the registry. There is no code.
#![tactic(auto)]

#[cfg(test)]
mod common;
#[cfg(test)]
mod digests;
#[cfg(test)]
mod lines;
#[cfg(test)]
mod registry;
#[cfg(test)]
mod released;
#[cfg(test)]
mod sec_ch_ua;
#[cfg(test)]
mod values;
