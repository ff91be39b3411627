//! Players who vanish: how those who remain agree where such a player's commands end. No code runs here.
//! `dn_remain` puts the game of `dn_machine` under these definitions; of a node's tests, and of the end that it
//! decides, `dn_survivor::others` is the code. The definitions stand in `specs/`, to be read in the order of
//! `specs/Lib.antt`.
//!
//! A node gives a player up when it is told to; no clock decides that. From then on it takes nothing of that
//! player, and tells the others, in reports, whom it has given up and the commands that it has of them. As soon
//! as it has, of everyone whom it has not given up, a report for exactly the same players, or the last report
//! of one who left, the end of each is the largest count among them.
//!
//! What is not said here, and not so:
//! - Reports are true here: each tells a state that its sender was in. A player who lies in a report can lead
//!   others to commands that the vanished player never made, up to twice the window of them, or to an end that
//!   suits the liar. A seal does not help, since the liar has a key.
//! - No side of a split is the right one. Two players may give up each other, and both play on; so may two
//!   against two. Each side agrees within itself, and no game is made whole again.
//! - That those who remain come to give up the same players is up to the engines, or to the humans: a node
//!   waits until the sets are equal. Nothing here brings them together.
//! - Whoever was given up, by mistake too, does not come back.
//! - Of one who left, the last report is asked for as long as the game goes on, an hour later too. If it never
//!   came and the leaver answers no more, the leaver has to be given up before anything else is decided.
//! - A window of more than six lets a node have commands of a player whom it gives up that carry marks of tics
//!   which the node then runs by other rows. `marks_agree` says of whom marks may be compared.
//! - It begins with the game. Of players who vanish before it starts nothing is said.

mod calls;
mod commands;
mod counts;

pub use calls::{
    calls_are_steps, refused_reports_tell_no_more, tests_are_exact, undecided_lack_a_report,
};
pub use commands::{
    commands_agree, decisions_on_lists, demos_agree, held_lists_are_prefixes,
    last_commands_suffice, split_games_share_commands,
};
pub use counts::{
    a_game_goes_on, decisions_come, every_command_was_made, marks_agree, remaining_agree,
    the_given_up_are_frozen, what_is_known_lasts, windows_fit,
};
