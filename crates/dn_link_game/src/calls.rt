//! What may happen in a game of links, and what is answered.

use dn_link::Received;
use dn_machine::{Made, Ran};
use dn_survivor::GivenUp;
use dn_tic::{Input, Move};

/// Which of its datagrams a link gives.
#[derive(Clone, Copy, Debug, PartialEq, Eq)]
pub enum Sending {
    /// `Link::datagram`.
    Datagram,
    /// `Link::probe`.
    Probe,
    /// `Link::exclusion_datagram`.
    Exclusion,
}

/// A call on a player.
#[derive(Clone, Copy, Debug, PartialEq, Eq)]
pub enum LinkCall<'a> {
    /// Its link builds the command of this input.
    Build(Input),
    /// It makes the command that it owes.
    CatchUp,
    /// Its tick ends.
    Tick,
    /// It runs a tic, if it can; its world is stepped by the row that its link tells.
    Run,
    /// It gives a peer a datagram.
    Send { to: u8, what: Sending },
    /// Bytes come to it, whatever they are and wherever they are from.
    Receive(&'a [u8]),
    /// It gives up a peer.
    GiveUp(u8),
    /// It quits.
    Quit,
}

/// What may happen next in a game of links.
#[derive(Clone, Copy, Debug, PartialEq, Eq)]
pub enum LinkEvent<'a> {
    /// This call on a player.
    Call { player: u32, call: LinkCall<'a> },
    /// The datagram that was given as this one, counted from 0, comes to a player, whoever gave it to whomever. The
    /// first 2^32 can be named; of a later one the bytes may come.
    Deliver { player: u32, which: u32 },
}

/// What a call answers.
#[derive(Clone, Copy, Debug, PartialEq, Eq)]
pub enum LinkDone {
    /// What `Link::build` or `Link::give` answers.
    Built(Made),
    /// What became of the command that was owed, if one was.
    CaughtUp(Option<Made>),
    /// By how many 32nds of a tick the next tick comes later.
    Ticked(i8),
    /// What `Link::run` answers, and the row that was told.
    Ran(Ran, Option<[Option<Move>; 4]>),
    /// Whether there was a datagram to give.
    Sent(bool),
    /// What became of the bytes.
    Received(Received),
    /// What `Link::give_up` answers.
    GivenUp(GivenUp),
    /// Whether the link had not ended before.
    Quit(bool),
}

/// Why an event is refused; a refused event changes nothing.
#[derive(Clone, Copy, Debug, PartialEq, Eq)]
pub enum LinkRefusal {
    /// The number is not that of a player.
    NoPlayer,
    /// No datagram has this number.
    NoDatagram,
    /// There is no room for one more datagram.
    Memory,
}
