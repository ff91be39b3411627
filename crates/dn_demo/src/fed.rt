//! What a feed ends as.

use dn_setup::Start;
use thiserror::Error;

/// Why the bytes fed are not a demo: the first fault that applies.
#[derive(Clone, Copy, Debug, PartialEq, Eq, Error)]
pub enum FeedFault {
    /// There are fewer than 13 bytes.
    #[error("shorter than a demo's header")]
    Short,
    /// The first byte is neither 109 nor 111.
    #[error("a demo of neither version 109 nor 111")]
    Version,
    /// No in-game byte is set.
    #[error("no player is present in the demo")]
    NoPlayers,
    /// No command begins with 0x80.
    #[error("the demo has no end marker")]
    NoMarker,
}

/// A demo that was fed, and played in its world.
#[derive(Debug, Drop)]
pub struct Fed<W> {
    /// The first byte: 109, as Doom 1.9 records, or 111.
    pub version: u8,
    /// What the game started from.
    pub start: Start,
    /// Whose view the demo shows.
    pub view: u8,
    /// Which players are present: at least one.
    pub present: [bool; 4],
    /// How many whole tics were played.
    pub tics: u64,
    /// How many commands stand between the last whole tic and the marker.
    pub cut: u64,
    /// How many bytes stand after the marker.
    pub after: u64,
    /// The world after the last whole tic.
    pub world: W,
}
