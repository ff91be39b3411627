//! How a session ends.

ghost use Rattle.std.specs.Prelude.{◌≡◌};
ghost use Rattle.dn_host.specs.Leaving.{end_of};

use dn_link::Link;
use dn_measure::{End, Summary};
use dn_session::{Ending as GameEnding, Hint, Refusal};
use thiserror::Error;

/// How a session ended.
#[derive(Clone, Copy, Debug, PartialEq, Eq)]
pub enum Ending {
    /// It had a seat, and this was its end.
    Ended(End),
    /// The host gave no seat.
    Refused(Refusal),
    /// The host could not read the calls.
    Hinted(Hint),
}

/// Why a session broke off.
#[derive(Clone, Copy, Debug, PartialEq, Eq, Error)]
pub enum HostFault {
    /// There was no room for the game.
    #[error("out of memory")]
    Memory,
    /// The clock cannot be read.
    #[error("the clock cannot be read")]
    Clock,
    /// The system gave no random bytes.
    #[error("no random bytes")]
    Random,
    /// What the host offers, or the joiner asks for, is no game: the number of players, the window, the rate, the
    /// demo's limit or the seat is out of range.
    #[error("the terms are those of no game")]
    Terms,
}

/// What is left of a session that ended.
#[derive(Drop)]
pub struct Outcome {
    /// How it ended.
    pub ending: Ending,
    /// The link, with its demo, if the game began.
    pub link: Option<Link>,
    /// What was measured, if it did.
    pub summary: Option<Summary>,
}

/// How the game of a session ended. Where all players run this program nobody is given up.
pub(crate) fn end_of(ending: GameEnding) -> End
    ensures { result ≡ end_of ending }
{
    match ending {
        GameEnding::Left => End::Left,
        GameEnding::Full => End::Full,
        GameEnding::Inconsistent(player) => End::Inconsistent(player),
        GameEnding::Lost(player) => End::Lost(player),
        GameEnding::GivenUp | GameEnding::Alone => End::OthersLeft,
    }
}
