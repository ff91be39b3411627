//! What a game is set up with.
#![tactic(auto)]

mod gather;
mod laws;
mod settings;
mod setup;

pub use gather::Gather;
pub use laws::{every_packet_is_told, settings_found_again};
pub use settings::{Settings, SettingsFault, Start};
pub use setup::{SetupFault, VERSION, from_packet, to_packet};
