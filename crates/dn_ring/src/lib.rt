//! The last commands of a player.
#![tactic(auto)]

mod laws;
mod ring;

pub use laws::rings_keep_the_last;
pub use ring::{Ring, RingBuffer, WideRing};
