//! A session over a network: its socket, its clock and its screen, and the walk of its player.
#![tactic(auto)]

mod arrivals;
mod counts;
mod ends;
mod game;
mod guest;
mod hearing;
mod host;
mod leaving;
mod others;
mod plan;
mod play;
mod screen;
mod system;
mod turns;
mod walking;
mod wire;

pub use ends::{Ending, HostFault, Outcome};
pub use guest::{Guest, join_game};
pub use host::{Hosting, host_game};
pub use plan::Plan;
pub use screen::Screen;
pub use system::{Os, System};
pub use wire::{ROOM, Udp, Wire, address_of};
