//! What is in one datagram of a link, and why bytes are not one.

use arrayvec::ArrayVec;
use dn_survivor::report::MAX_REPORT;
use thiserror::Error;

/// A packet of 1997 with its exact numbers in front.
#[derive(Debug, Default, Drop, PartialEq, Eq)]
pub struct Carried {
    /// The exact tic of the packet's first command.
    pub start: u32,
    /// The exact tic from which commands are asked for again.
    pub ask: Option<u32>,
    /// The packet.
    pub datagram: ArrayVec<u8, 104>,
}

/// Consecutive packets of one command each, without a request or a flag: the first is of the tic `start`, and
/// each other of the tic after.
#[derive(Debug, Drop, PartialEq, Eq)]
pub struct Run {
    /// The tic of the first command.
    pub start: u32,
    /// The commands, each of eight bytes.
    pub commands: ArrayVec<u8, 192>,
}

/// Commands of a third player, which the sender hands on: packets of that player, of one command each.
#[derive(Debug, Drop, PartialEq, Eq)]
pub struct Relay {
    /// Whose commands these are.
    pub player: u8,
    /// The commands.
    pub run: Run,
}

/// A part of what a datagram carries.
#[derive(Debug, Drop, PartialEq, Eq)]
pub enum Part {
    /// A packet as it is.
    Whole(Carried),
    /// Packets of one command each, written as their commands.
    Run(Run),
    /// The same of a third player.
    Relay(Relay),
}

impl Default for Part {
    ghost use Rattle.std.specs.Prelude.{◌≡◌, None, []};
    ghost use Rattle.dn_link.specs.declared.bundle.Part.TheVariants.{Whole};

    ghost is_default = { λ part. part ≡ Whole (record {
      start = 0;
      ask = None;
      datagram = record { items = [] };
    }) };

    fn default() -> Part {
        Part::Whole(Carried::default())
    }
}

/// How far a player is.
#[derive(Clone, Copy, Debug, PartialEq, Eq)]
pub struct Counts {
    /// How many commands it has made.
    pub made: u32,
    /// The number after that of the receiver's newest datagram that came to it; 0 while none did.
    pub echo: u32,
    /// How many commands it has of each player; a known end counts as one more.
    pub got: [u32; 4],
}

/// What is in one datagram.
#[derive(Debug, Drop, PartialEq, Eq)]
pub struct Bundle {
    /// The number of the sender.
    pub from: u8,
    /// The number of the receiver.
    pub to: u8,
    /// The number of the datagram, among those of the sender to the receiver.
    pub number: u32,
    /// By how many commands the sender was ahead of the receiver at its last tick.
    pub lead: i8,
    /// How many datagrams of the receiver the sender misses.
    pub holes: u8,
    /// Why the sender has ended: that it quit (1), that its demo is full (2), or that it found another's world
    /// to differ (3); 0 while it plays. Or that it has given up the receiver (4): then the rest does not count. Or
    /// that this is a probe (5).
    pub cause: u8,
    /// How far the sender is.
    pub counts: Counts,
    /// The bytes of the sender's report, while it has given up somebody or has left; else none.
    pub report: ArrayVec<u8, MAX_REPORT>,
    /// The packets for the receiver, oldest first, up to where there may be no room for one more.
    pub parts: ArrayVec<Part, 24>,
}

/// Why bytes are no datagram of this game and to this player: the first of these faults that they have.
#[derive(Clone, Copy, Debug, PartialEq, Eq, Error)]
pub enum BundleFault {
    /// Fewer than 62 bytes.
    #[error("too short for a datagram of a link")]
    Short,
    /// More than 1,200 bytes.
    #[error("too long for a datagram of a link")]
    Long,
    /// Another suite.
    #[error("sealed by another suite")]
    Suite,
    /// No link's datagram, but another kind of thing.
    #[error("sealed, but no datagram of a link")]
    Kind,
    /// Another game's number.
    #[error("sealed in another game")]
    Game,
    /// Another receiver.
    #[error("sealed to another receiver")]
    Receiver,
    /// A tag that is not that of the bytes before it.
    #[error("the tag is wrong")]
    Tag,
    /// Under the tag stands what no datagram has.
    #[error("sealed, but malformed")]
    Form,
}
