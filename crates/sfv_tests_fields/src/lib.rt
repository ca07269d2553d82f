//! Tests of parsing and serialization: long fields, visitors, runs of bytes, random texts, whole fields, single
//! calls, scripts, versions, and failed allocations. There is no code.
#![tactic(auto)]

#[cfg(test)]
mod capacity;
#[cfg(test)]
mod common;
#[cfg(test)]
mod kept;
#[cfg(test)]
mod long;
#[cfg(test)]
mod memory;
#[cfg(test)]
mod owned;
#[cfg(test)]
mod random;
#[cfg(test)]
mod rejected;
#[cfg(test)]
mod runs;
#[cfg(test)]
mod scripts;
#[cfg(test)]
mod serializers;
#[cfg(test)]
mod sizes;
#[cfg(test)]
mod texts;
#[cfg(test)]
mod versions;
#[cfg(test)]
mod visitors;
#[cfg(test)]
mod ways;
