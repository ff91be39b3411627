//! What became of bytes that came in.

use crate::bundle::BundleFault;

/// What a link makes of bytes that came in.
#[derive(Clone, Copy, Debug, PartialEq, Eq)]
pub enum Received {
    /// They are no datagram to this player in this game, for this fault. They changed nothing but what
    /// `Link::refused` counts.
    Unopened(BundleFault),
    /// Their sender's number is not a peer's, and they changed nothing.
    Stranger(u8),
    /// Their sender is a peer who is given up, and they changed nothing.
    GivenUp(u8),
    /// Their sender is a peer who tells that it has given up this player, and they changed nothing.
    Excluded(u8),
    /// The datagram of a peer, which was taken in.
    Heard(u8),
}
