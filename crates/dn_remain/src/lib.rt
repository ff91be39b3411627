//! A game in which players may be given up: the game of `dn_machine`, with the rules of `dn_remain::vanish` for those
//! who vanish. No code runs here. `dn_survivor` makes the calls of a node, and `dn_link` runs it. The definitions
//! stand in `specs/`, to be read in the order of `specs/Lib.antt`.
//!
//! Nothing of `dn_machine` is changed. Beside its game stand, for each node, whom it has given up and the
//! newest report of each player, and beside its events three more: a node gives up a player, tells another
//! what it has, and hears what was told. A run compares the marks of those whom its node has not given up, and
//! no others. A game in which nobody is given up is one of the machine's, and every game of the machine is one.
//!
//! What is said of reports in `dn_remain::vanish` holds here too: they are true, no side of a split is the right one,
//! and nobody comes back. So what a node decides can be taken (`decisions_can_be_taken`). Not said yet is, of
//! games in which somebody was given up, that those who remain go on.
#![tactic(auto)]

mod events;
mod laws;
pub mod vanish;

pub use events::{GivenUp, RemainEvent, Reported};
pub use laws::{
    a_game_goes_on, a_game_starts, a_wide_game_goes_on, answers_are_true, decisions_can_be_taken,
    games_are_histories, games_are_quiet_games, marks_are_compared, quiet_games_agree,
    quiet_games_are_games, relayed_games_agree, remaining_games_are_histories,
    those_who_remain_agree,
};
