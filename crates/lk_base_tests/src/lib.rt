//! Tests of what the lowest crates offer: names and lists, reading and writing, sets and relations.
#![tactic(auto)]

#[cfg(test)]
mod base;
#[cfg(test)]
mod io;
#[cfg(test)]
mod sets;
