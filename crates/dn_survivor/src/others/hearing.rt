//! Hearing a report.

ghost use Rattle.std.specs.{Prelude.◌≡◌, Prelude.◌≤◌, Option.option_map};
ghost use Rattle.dn_remain.specs.Vanished.Calls.{is_newer};
ghost use Rattle.dn_survivor.specs.{OfOthers.node_of, OfOthers.tells_either};

use crate::others::Others;
use crate::others::deciding::is_within;
use crate::report::{Report, Tail};

/// What a node makes of a report.
#[derive(Clone, Copy, Debug, PartialEq, Eq)]
pub enum Reported {
    /// It is kept as the newest of its sender.
    Kept,
    /// Nothing changed: the node has given up the sender.
    GivenUp,
    /// Nothing changed: the sender has given up the node.
    Excluded,
    /// Nothing changed: it tells of the commands of its sender, or of the node's own.
    Improper,
    /// Nothing changed: it is older than the newest of its sender.
    Stale,
}

/// Whether it is told of one of two players.
fn tells_either(told: &[Tail], one: u8, other: u8) -> bool
    ensures { result ≡ tells_either one other told.now }
{
    let mut rest = told;
    while let Some((tail, after)) = rest.split_first() {
        if tail.player == one || tail.player == other {
            return true;
        }
        rest = after;
    }
    false
}

/// Whether a report is not older than the one that is kept.
fn is_newer(players: u8, kept: &Option<Report>, report: &Report) -> bool
    requires { players ≤ 4 }
    ensures { result ≡ is_newer players (option_map node_of kept.now) (node_of report.now) }
{
    match kept {
        None => true,
        Some(old) => { is_within(players, &old.gone, &report.gone) && !(old.left && !report.left) }
    }
}

impl Others {
    ghost use Rattle.std.specs.Prelude.{◌≡◌, ◌<◌, ◌≤◌, ◌≢◌};
    ghost use Rattle.dn_survivor.specs.{declared.others.hearing.Reported.TheVariants.Kept, OfOthers.reported_as, OfOthers.with_newest};

    /// A report of another player comes to a node.
    pub fn hear(&mut self, players: u8, me: u8, from: u8, report: Report) -> Reported
        requires players { players ≤ 4 }
        requires me { me < 4 }
        requires from { from < players }
        requires other { from ≢ me }
        ensures answer { result ≡ reported_as players me self.old from report }
        ensures kept { result ≡ Kept → self.new ≡ with_newest self.old from report }
        ensures stays { result ≢ Kept → self.new ≡ self.old }
    {
        if self.gone[usize::from(from)] {
            return Reported::GivenUp;
        }
        if report.gone[usize::from(me)] {
            return Reported::Excluded;
        }
        if tells_either(report.told.as_slice(), me, from) {
            return Reported::Improper;
        }
        if !is_newer(players, &self.newest[usize::from(from)], &report) {
            return Reported::Stale;
        }
        self.newest[usize::from(from)] = Some(report);
        Reported::Kept
    }
}
