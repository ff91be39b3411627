//! How a lockstep receives a packet that was opened. It drops one that is too old, and one that contradicts the
//! exact numbers beside it. So nothing is required of the network, as long as nobody forges a tag.
#![tactic(auto)]

mod alike;
mod hearing;
mod laws;

pub use alike::is_alike;
pub use hearing::{Arrived, hear};
pub use laws::{letters_are_answered, letters_keep_one_game};
