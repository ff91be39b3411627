//! Miniature engines, by the laws and the contracts of calls alone. Those of two to four players have sessions,
//! from the lobby until they leave: whatever the network loses, repeats and delays, they agree. And those of
//! two have bare locksteps, with packets that come late, out of order and more than once.
#![tactic(auto)]

mod calls;
mod engine;
mod letters;
#[cfg(test)]
mod links;
mod pairs;
mod playing;
#[cfg(test)]
mod plays;
#[cfg(test)]
mod scripts;
mod steps;
mod table;
#[cfg(test)]
mod table_tests;
#[cfg(test)]
mod tests;

pub use calls::{Parcel, give, hand, quit, run, take};
pub use engine::Engine;
pub use letters::hear_letter;
pub use pairs::{Pair, open, pass, play};
pub use playing::{TableFault, open_table, play_table, tables_agree};
pub use steps::{Call, Done, Event, Refusal, Step};
pub use table::Table;
