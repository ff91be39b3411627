//! Demos: rows of moves that are written as bytes, and read back, played and upgraded.
#![tactic(auto)]

mod demo;
mod fed;
mod feed;
mod laws;
mod layout;
mod reading;
mod recorder;
mod rows;
mod upgrading;
mod writing;

pub use demo::{Demo, DemoFault, play};
pub use fed::{Fed, FeedFault};
pub use feed::Feed;
pub use laws::{
    pieces_end_as_their_join, spelt_moves_are_told, told_rows_are_read,
    upgraded_demos_play_the_same, written_rows_are_read,
};
pub use recorder::{Recorder, RecorderFault, append, capacity, is_limit};
pub use upgrading::{UpgradeFault, upgrade};
