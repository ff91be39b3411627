//! Tests of `dn_netgame` and `dn_program`, in a crate of their own, since a crate that
//! has tests is proved twice.
#![tactic(auto)]

#[cfg(test)]
mod checks;
#[cfg(test)]
mod tests;
