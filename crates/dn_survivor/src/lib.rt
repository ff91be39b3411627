//! A lockstep that can go on without players who vanished: a lockstep, and beside it whom its player has given
//! up, and the newest reports of the others. Where no report is false, each call is one of `dn_remain`'s node.
//! So the survivors of a game agree, whatever worlds their callers step: `remaining_game_opens` and
//! `remaining_game_goes_on` say which are those of one game, and `survivors_agree` what they have in common.
//!
//! The caller decides when a player is given up, sends the reports that `report` returns, each to its receiver
//! alone, and hands in those that come, each with its sender. Where the lockstep gathered before `give_up` and
//! plays after it, the game has started without that player: the caller begins its world.
#![tactic(auto)]

mod agreeing;
mod answers;
mod deciding;
mod game;
mod laws;
mod lending;
pub mod others;
mod playing;
pub mod report;
mod survivor;
mod telling;

pub use agreeing::{
    decisions_are_taken, given_reports_are_heard, survivors_agree, unsettled_ends_lack_a_report,
};
pub use answers::{GivenUp, Reported};
pub use game::{remaining_game_goes_on, remaining_game_opens, remaining_game_starts};
pub use laws::{
    calls_are_wary, decisions_can_be_settled, ends_are_refused_for_reasons, give_ups_may_start,
};
pub use survivor::Survivor;
