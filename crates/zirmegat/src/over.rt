//! Why a session is over, as plain numbers.

ghost use Rattle.std.specs.Prelude.{◌≡◌};
ghost use Rattle.zirmegat.specs.Over.{ending_told, hint_told, over_at, over_told, refusal_told};

use dn_session::{Ending, Hint, Over, Refusal};

/// Why a session is over, or 0 where it is not. 65 to 70: its game ended. 80 to 85: it was refused. 96 and 97:
/// what it sends cannot be read where it goes.
#[repr(C)]
#[derive(Clone, Copy, Debug, PartialEq, Eq)]
pub struct OverAnswer {
    /// 0 to 97, as above.
    pub reason: u32,
    /// The player, the number of players or the version that belongs to it, and else 0.
    pub number: u32,
}

impl OverAnswer {
    /// A reason, and its number.
    pub(crate) fn at(reason: u32, number: u8) -> OverAnswer
        ensures { result ≡ over_at reason number }
    {
        OverAnswer {
            reason,
            number: u32::from(number),
        }
    }

    /// How a game ended.
    pub(crate) fn of_ending(ending: Ending) -> OverAnswer
        ensures { result ≡ ending_told ending }
    {
        match ending {
            Ending::Left => OverAnswer::at(65, 0),
            Ending::Full => OverAnswer::at(66, 0),
            Ending::Inconsistent(player) => OverAnswer::at(67, player),
            Ending::GivenUp => OverAnswer::at(68, 0),
            Ending::Alone => OverAnswer::at(69, 0),
            Ending::Lost(player) => OverAnswer::at(70, player),
        }
    }

    /// Why there is no seat.
    pub(crate) fn of_refusal(refusal: Refusal) -> OverAnswer
        ensures { result ≡ refusal_told refusal }
    {
        match refusal {
            Refusal::Full => OverAnswer::at(80, 0),
            Refusal::Begun => OverAnswer::at(81, 0),
            Refusal::Players(players) => OverAnswer::at(82, players),
            Refusal::Identity => OverAnswer::at(83, 0),
            Refusal::Kicked => OverAnswer::at(84, 0),
            Refusal::Cookie => OverAnswer::at(85, 0),
        }
    }

    /// Why calls are not read.
    pub(crate) fn of_hint(hint: Hint) -> OverAnswer
        ensures { result ≡ hint_told hint }
    {
        match hint {
            Hint::Key => OverAnswer::at(96, 0),
            Hint::Version(version) => OverAnswer::at(97, version),
        }
    }

    /// Why a session is over.
    pub(crate) fn of(over: Over) -> OverAnswer
        ensures { result ≡ over_told over }
    {
        match over {
            Over::Refused(refusal) => OverAnswer::of_refusal(refusal),
            Over::Hinted(hint) => OverAnswer::of_hint(hint),
            Over::Ended(ending) => OverAnswer::of_ending(ending),
        }
    }

    /// It is not over.
    pub(crate) const NOT: OverAnswer = OverAnswer {
        reason: 0,
        number: 0,
    };
}
