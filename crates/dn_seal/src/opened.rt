//! What is in an envelope, and why bytes are not one.

use arrayvec::ArrayVec;
use thiserror::Error;

/// What is in an envelope to this player.
#[derive(Debug, Drop, PartialEq, Eq)]
pub struct Opened {
    /// The number of the sender.
    pub from: u8,
    /// The exact tic of the datagram's first command.
    pub start: u32,
    /// The exact tic from which commands are asked for again.
    pub ask: Option<u32>,
    /// The datagram.
    pub datagram: ArrayVec<u8, 104>,
}

/// Why bytes are no envelope of this game and to this player: the first of these faults that they have.
#[derive(Clone, Copy, Debug, PartialEq, Eq, Error)]
pub enum SealFault {
    /// Fewer than 37 bytes.
    #[error("too short for an envelope")]
    Short,
    /// More than 141 bytes.
    #[error("too long for an envelope")]
    Long,
    /// Another suite.
    #[error("sealed by another suite")]
    Suite,
    /// No datagram is in it, but another kind of thing.
    #[error("sealed, but no datagram")]
    Kind,
    /// Another game's number.
    #[error("sealed in another game")]
    Game,
    /// Another receiver.
    #[error("sealed to another receiver")]
    Receiver,
    /// A tag that is not that of the bytes before it.
    #[error("the tag is wrong")]
    Tag,
    /// A request that is neither there nor not there.
    #[error("the request flag is neither 0 nor 1")]
    Request,
}
