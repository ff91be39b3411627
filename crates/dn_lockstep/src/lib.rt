//! One player's node without a world, for an engine that steps its own. It builds commands from keys or takes
//! them whole, gives and takes datagrams, says when a tic is run and by which moves, checks the marks of the
//! engine's world, and records a demo. Each call is a step of the machine of `dn_machine`.
//!
//! The engine begins its world when `receive` returns `Started`, with `settings()`'s start and the seats of
//! `present()`. It hands each player's mark in that world to `run`, and if a row is returned, it steps the
//! world by the row.
#![tactic(auto)]

mod config;
mod ends;
mod laws;
mod lockstep;
mod marks;
mod near;
mod peers;
mod reading;
mod recording;
mod rings;
mod rows;

pub use config::{Config, NodeFault};
pub use dn_machine::{Cause, Heard, Made, Phase, Ran};
pub use ends::{ends_settle_in_turn, last_commands_settle};
pub use laws::{
    ended_demos_are_read, given_packets_are_heard, locksteps_agree, numbered_packets_are_near,
    one_game_goes_on, one_game_opens, one_game_starts, windows_hold,
};
pub use lockstep::Lockstep;
pub use lockstep::aiming::Aim;
pub use lockstep::opening::{MOST_AHEAD, WIDEST_AHEAD, is_game};
pub use lockstep::settling::Settled;
pub use near::are_tics_near;
