//! What may happen in a game in which players may be given up, and what is answered.

use dn_machine::Event;

/// What may happen next in such a game.
#[derive(Clone, Copy, Debug, PartialEq, Eq)]
pub enum RemainEvent {
    /// An event of a game of `dn_machine`. Nothing is sent to a player whom the node has given up, and
    /// nothing of one is delivered to it: such an event changes nothing. Nor does a run compare the mark of
    /// one.
    Own(Event),
    /// The node is told to give up a player: by its engine, say, or its human.
    GiveUp { node: u32, player: u32 },
    /// The node is asked for a report to another.
    Tell { node: u32, to: u32 },
    /// The report of this number, counted from 0 in order of telling, comes to its receiver. It may come again.
    Hear(u32),
}

/// What a node answers that is told to give up a player.
#[derive(Clone, Copy, Debug, PartialEq, Eq)]
pub enum GivenUp {
    /// The player is given up, and the node waits for reports.
    Waiting,
    /// The player is given up, and the node knows the ends of all whom it has given up.
    Decided,
    /// It had given up the player before.
    Already,
    /// The number is no other player's.
    NotAPlayer,
    /// The node has no settings yet, or has ended.
    NotPlaying,
}

/// What a node answers to a report.
#[derive(Clone, Copy, Debug, PartialEq, Eq)]
pub enum Reported {
    /// The report is kept.
    Kept,
    /// The report is kept, and the node knows the ends of all whom it has given up.
    Decided,
    /// Its sender has given up this node; nothing changed.
    Excluded,
    /// It is older than the newest of its sender; nothing changed.
    Stale,
    /// Nothing changed, for this reason, by the numbers of drops: 13 the node has no settings, or has ended, 15
    /// it has given up the sender.
    Dropped(u8),
}
