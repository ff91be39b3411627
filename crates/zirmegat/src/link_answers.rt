//! What the calls on a link return, as plain numbers.

ghost use Rattle.std.specs.Prelude.{◌≡◌};
ghost use Rattle.zirmegat.specs.Links.{bundle_code, give_up_at, give_up_told, owed_code, received_at, received_told, settled_code};

use crate::fault::Fault;
use crate::lockstep_answers::made_code;
use dn_link::{BundleFault, Received};
use dn_lockstep::{Made, Settled};
use dn_survivor::GivenUp;

/// What a link makes of bytes that came in: 0 for bytes that are no datagram to this player in this game, for
/// the fault `reason`, 1 for the datagram of a peer, 2 for one of `player` who is none, 3 for one of `player`
/// who is given up, and 4 for one of `player` who tells that it has given up this player.
#[repr(C)]
#[derive(Clone, Copy, Debug, PartialEq, Eq)]
pub struct ReceivedAnswer {
    /// 0 to 4, as above.
    pub code: u32,
    /// The number of the fault, where `code` is 0, and else 0; 0 too where there is no link.
    pub reason: u32,
    /// Who sent it, where `code` is not 0.
    pub player: u32,
}

/// Why bytes are no datagram of the game.
fn bundle_code(fault: BundleFault) -> u32
    ensures { result ≡ bundle_code fault }
{
    match fault {
        BundleFault::Short => 1,
        BundleFault::Long => 2,
        BundleFault::Suite => 3,
        BundleFault::Kind => 4,
        BundleFault::Game => 5,
        BundleFault::Receiver => 6,
        BundleFault::Tag => 7,
        BundleFault::Form => 8,
    }
}

impl ReceivedAnswer {
    /// This of a player, or for a reason.
    pub(crate) fn at(code: u32, reason: u32, player: u8) -> ReceivedAnswer
        ensures { result ≡ received_at code reason player }
    {
        ReceivedAnswer {
            code,
            reason,
            player: u32::from(player),
        }
    }

    /// What a link made of bytes.
    pub(crate) fn of(received: Received) -> ReceivedAnswer
        ensures { result ≡ received_told received }
    {
        match received {
            Received::Unopened(fault) => ReceivedAnswer::at(0, bundle_code(fault), 0),
            Received::Heard(from) => ReceivedAnswer::at(1, 0, from),
            Received::Stranger(from) => ReceivedAnswer::at(2, 0, from),
            Received::GivenUp(from) => ReceivedAnswer::at(3, 0, from),
            Received::Excluded(from) => ReceivedAnswer::at(4, 0, from),
        }
    }
}

/// What came of a command that was owed, if one was.
pub(crate) fn owed_code(made: Option<Made>) -> u32
    ensures { result ≡ owed_code made }
{
    match made {
        Some(made) => made_code(made),
        None => Fault::NotNow.code(),
    }
}

/// What a link returns that is told to give up a player: 0 where it does not play, 1 where the player is given
/// up and reports are missing, 2 where the ends of all who are given up are known, 3 where the end of `player`
/// cannot be taken, for the reason `reason`, 4 where it was given up before, and 5 where the number is no other
/// player's.
#[repr(C)]
#[derive(Clone, Copy, Debug, PartialEq, Eq)]
pub struct GiveUpAnswer {
    /// 0 to 5, as above.
    pub code: u32,
    /// Why an end cannot be taken, where `code` is 3, and else 0.
    pub reason: u32,
    /// Whose end that is, where `code` is 3, and else 0.
    pub player: u32,
}

/// Why an end cannot be taken.
fn settled_code(settled: Settled) -> u32
    ensures { result ≡ settled_code settled }
{
    match settled {
        Settled::Taken(_) => 0,
        Settled::NotAPlayer => 1,
        Settled::NotPlaying => 2,
        Settled::Gap => 3,
        Settled::Behind => 4,
        Settled::Overrun => 5,
        Settled::Stopper => 6,
        Settled::OtherEnd => 7,
    }
}

impl GiveUpAnswer {
    /// This, and what belongs to it.
    fn at(code: u32, reason: u32, player: u8) -> GiveUpAnswer
        ensures { result ≡ give_up_at code reason player }
    {
        GiveUpAnswer {
            code,
            reason,
            player: u32::from(player),
        }
    }

    /// What a link did.
    pub(crate) fn of(given_up: GivenUp) -> GiveUpAnswer
        ensures { result ≡ give_up_told given_up }
    {
        match given_up {
            GivenUp::NotPlaying => GiveUpAnswer::at(0, 0, 0),
            GivenUp::Waiting => GiveUpAnswer::at(1, 0, 0),
            GivenUp::Decided => GiveUpAnswer::at(2, 0, 0),
            GivenUp::Untaken { player, reason } => {
                GiveUpAnswer::at(3, settled_code(reason), player)
            }
            GivenUp::Already => GiveUpAnswer::at(4, 0, 0),
            GivenUp::NotAPlayer => GiveUpAnswer::at(5, 0, 0),
        }
    }
}
