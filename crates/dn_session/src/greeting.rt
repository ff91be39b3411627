//! What a host and those who join tell each other, and why bytes are none of it.

use crate::terms::Terms;
use thiserror::Error;

/// Where a datagram came from or goes to: at most 32 bytes, whose meaning the caller alone knows. They are
/// compared and nothing else.
#[derive(Clone, Copy, Debug, PartialEq, Eq)]
pub struct Address {
    /// The bytes, filled up with zeros.
    pub bytes: [u8; 32],
}

/// A call of one who joins. As long as the longest reply.
#[derive(Clone, Copy, Debug, PartialEq, Eq)]
pub struct Call {
    /// The number of the joiner's session.
    pub number: [u8; 16],
    /// Its calls are counted from 1 on.
    pub count: u32,
    /// The newest cookie that the host gave it, and zeros before.
    pub cookie: [u8; 16],
    /// The seat that it wants, if it wants a certain one.
    pub seat: Option<u8>,
    /// How many players the game must have, if it was told.
    pub players: Option<u8>,
    /// The identity of its engine and files: it has to be that of the host.
    pub identity: [u8; 16],
    /// What its player is called: UTF-8, filled up with zeros.
    pub name: [u8; 16],
}

/// Who holds a seat.
#[derive(Clone, Copy, Debug, PartialEq, Eq)]
pub struct Holder {
    /// The number of its session.
    pub number: [u8; 16],
    /// Where it is.
    pub address: Address,
    /// What its player is called.
    pub name: [u8; 16],
}

/// A seat as the host tells the others of it.
#[derive(Clone, Copy, Debug, PartialEq, Eq)]
pub struct Shown {
    /// Who holds it.
    pub holder: Holder,
    /// Whether the host heard it in the last two seconds.
    pub heard: bool,
}

/// The reply to one who has a seat.
#[derive(Clone, Copy, Debug, PartialEq, Eq)]
pub struct Seating {
    /// The number of the caller.
    pub number: [u8; 16],
    /// The count of the call.
    pub count: u32,
    /// A new cookie.
    pub cookie: [u8; 16],
    /// The number of the host's session.
    pub host: [u8; 16],
    /// What the host's player is called.
    pub name: [u8; 16],
    /// The caller's seat, which is its player's number.
    pub seat: u8,
    /// Whether the game has begun. From then on the seats 1 to 3 keep their holders.
    pub begun: bool,
    /// What must be the same at all players.
    pub terms: Terms,
    /// The seats 1 to 3.
    pub seats: [Option<Shown>; 3],
}

/// Why a call gives its caller no seat.
#[derive(Clone, Copy, Debug, PartialEq, Eq)]
pub enum Refusal {
    /// Its cookie is not one that the host gave to this address in the last two seconds: it calls again with
    /// the one that comes with this reply.
    Cookie,
    /// No seat is free that it would take.
    Full,
    /// The game has begun without it.
    Begun,
    /// The game has this number of players.
    Players(u8),
    /// The host has another engine or other files.
    Identity,
    /// The host has turned this session away.
    Kicked,
}

/// The reply to one who has no seat.
#[derive(Clone, Copy, Debug, PartialEq, Eq)]
pub struct Refused {
    /// The number of the caller.
    pub number: [u8; 16],
    /// The count of the call.
    pub count: u32,
    /// A new cookie.
    pub cookie: [u8; 16],
    /// Why it has none.
    pub refusal: Refusal,
}

/// Why a call was not read. Nobody can vouch for a hint.
#[derive(Clone, Copy, Debug, PartialEq, Eq)]
pub enum Hint {
    /// It was sealed under another key, or with a key where the host has none, or the other way round.
    Key,
    /// The host has this version of greetings.
    Version(u8),
}

/// A hint to the session of this number.
#[derive(Clone, Copy, Debug, PartialEq, Eq)]
pub struct Hinted {
    /// The number of the caller.
    pub number: [u8; 16],
    /// Why its call was not read.
    pub hint: Hint,
}

/// Why bytes are no greeting of the sort that is expected: the first of these faults that they have.
#[derive(Clone, Copy, Debug, PartialEq, Eq, Error)]
pub enum GreetingFault {
    /// Fewer than 29 bytes.
    #[error("too short for a greeting")]
    Short,
    /// Not the bytes that every greeting has.
    #[error("no greeting")]
    Kind,
    /// Another sort of greeting.
    #[error("another sort of greeting")]
    What,
    /// Another version.
    #[error("a greeting of another version")]
    Version,
    /// Not as many bytes as it has.
    #[error("not as long as such a greeting")]
    Length,
    /// Another suite.
    #[error("sealed by another suite")]
    Suite,
    /// A tag that is not that of the bytes before it.
    #[error("the tag is wrong")]
    Tag,
    /// Under the tag stands what no such greeting has.
    #[error("sealed, but malformed")]
    Form,
}
