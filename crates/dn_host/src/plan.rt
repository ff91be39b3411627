//! How a session goes.

/// What all sessions are told.
#[derive(Clone, Copy, Debug, PartialEq, Eq)]
pub struct Plan {
    /// The key that the players share, if they do.
    pub secret: Option<[u8; 32]>,
    /// What the key presses are drawn from.
    pub seed: u64,
    /// How many seconds to play from the start of the game; 0 is for ever.
    pub seconds: u32,
}
