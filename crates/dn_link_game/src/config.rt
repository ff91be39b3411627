//! What a game of links is made of.

use dn_seal::Seal;
use dn_setup::Settings;

/// What all players of a game have in common.
#[derive(Clone, Copy)]
pub struct LinkGameConfig {
    /// The choice of game.
    pub settings: Settings,
    /// Whether each packet repeats the last command.
    pub extra: bool,
    /// How many commands a player may be ahead of the tics that it ran: 1 to 12.
    pub ahead: u8,
    /// How many bytes each demo may have: 1,024 to 16,777,216.
    pub limit: u32,
    /// The seal of all links, of a game that nobody else plays.
    pub seal: Seal,
}
