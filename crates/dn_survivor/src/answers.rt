//! What a survivor answers.

ghost use Rattle.std.specs.Prelude.{◌≡◌, ◌≢◌};
ghost use Rattle.dn_survivor.specs.{Calls.given_up_as, Calls.reported_by, Calls.unkept, Calls.ends_with, declared.answers.Ends.TheVariants.Awaited};
ghost use Rattle.dn_survivor.specs.declared.answers.GivenUp.TheVariants as GivenUp;
ghost use Rattle.dn_survivor.specs.declared.answers.Reported.TheVariants as Reported;

use crate::others::Reported as Noted;
use dn_lockstep::Settled;
use dn_machine::Dropped;

/// What has become of the ends of those who are given up.
#[derive(Clone, Copy)]
pub(crate) enum Ends {
    /// Reports are missing.
    Awaited,
    /// All are taken.
    Taken,
    /// That of this player is refused for this reason.
    Untaken { player: u8, reason: Settled },
}

impl Ends {
    /// The same with what has become of one more end.
    pub(crate) fn with(self, player: u8, settled: Settled) -> Ends
        ensures next { result ≡ ends_with self player settled }
        ensures decides { self ≢ Awaited → result ≢ Awaited }
    {
        match (self, settled) {
            (Ends::Taken, Settled::Taken(_)) => Ends::Taken,
            (Ends::Taken, reason) => Ends::Untaken { player, reason },
            (earlier, _) => earlier,
        }
    }
}

/// What a survivor answers that is told to give up a player.
#[derive(Clone, Copy, Debug, PartialEq, Eq)]
pub enum GivenUp {
    /// The player is given up, and reports are missing.
    Waiting,
    /// The player is given up, and the ends of all who are given up are known. Also where no report is needed,
    /// since nobody else is left.
    Decided,
    /// A player is given up, and all reports are there. But the end of `player`, who need not be the one just
    /// given up, cannot be taken, for this reason: `Gap`, `Overrun`, `Stopper` or `OtherEnd`. Some report is
    /// false: among the survivors of one game it never comes (`decisions_are_taken`). The ends of the others
    /// are taken, but for those of higher numbers that cannot be taken either. It is tried again at each
    /// further give-up and report. It is also answered of an end that was taken before, if a later report tells
    /// of more; the end that was taken stays.
    Untaken { player: u8, reason: Settled },
    /// The player was given up before.
    Already,
    /// The number is no other player's.
    NotAPlayer,
    /// The lockstep has no settings yet, or has ended.
    NotPlaying,
}

/// The answer of a give-up.
pub(crate) fn given_up_as(ends: Ends) -> GivenUp
    ensures is { result ≡ given_up_as ends }
    ensures waits { result ≡ GivenUp.Waiting → ends ≡ Awaited }
{
    match ends {
        Ends::Awaited => GivenUp::Waiting,
        Ends::Taken => GivenUp::Decided,
        Ends::Untaken { player, reason } => GivenUp::Untaken { player, reason },
    }
}

/// What a survivor answers to a report.
#[derive(Clone, Copy, Debug, PartialEq, Eq)]
pub enum Reported {
    /// The report is kept. The node cannot decide: `undecided` names whom it lacks.
    Kept,
    /// The report is kept, and the ends of all who are given up are known. Also where nobody is given up: when
    /// the last of the others has left, and its report comes.
    Decided,
    /// The report is kept, and all are there. But the end of `player` cannot be taken, for this reason, as in
    /// [`GivenUp::Untaken`].
    Untaken { player: u8, reason: Settled },
    /// Its sender has given up this player; nothing changed. An honest sender tells such a player nothing.
    Excluded,
    /// It tells of the commands of its sender, or of its receiver's; nothing changed.
    Improper,
    /// It is older than the newest of its sender; nothing changed.
    Stale,
    /// Nothing changed, for this reason, by the numbers of drops: 5 its sender is no other player of the game,
    /// 13 the lockstep has no settings, or has ended, 15 the sender is given up.
    Dropped(u8),
}

/// The answer to a report that is kept.
pub(crate) fn reported_by(ends: Ends) -> Reported
    ensures is { result ≡ reported_by ends }
    ensures waits { result ≡ Reported.Kept → ends ≡ Awaited }
{
    match ends {
        Ends::Awaited => Reported::Kept,
        Ends::Taken => Reported::Decided,
        Ends::Untaken { player, reason } => Reported::Untaken { player, reason },
    }
}

/// Why a report is not kept.
pub(crate) fn unkept(noted: Noted) -> Option<Reported>
    ensures { result ≡ unkept noted }
{
    match noted {
        Noted::Kept => None,
        Noted::GivenUp => Some(Reported::Dropped(Dropped::GivenUp as u8)),
        Noted::Excluded => Some(Reported::Excluded),
        Noted::Improper => Some(Reported::Improper),
        Noted::Stale => Some(Reported::Stale),
    }
}
