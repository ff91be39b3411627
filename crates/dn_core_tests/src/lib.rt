//! Test functions of the crates from `dn_ring` to `dn_game`, and of lines and turns, in a crate of their own, since a
//! crate that has tests is proved twice.
#![tactic(auto)]

#[cfg(test)]
mod checks;
#[cfg(test)]
mod tests;
