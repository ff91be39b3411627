//! Who is given up for good, and what the others reported of that.

use super::Link;
use crate::hearing::is_gone;
use dn_survivor::GivenUp;

impl Link {
    ghost use Rattle.std.specs.Prelude.{◌≡◌, ◌<◌, ◌≢◌, true};
    ghost use Rattle.dn_machine.specs.declared.answers.Phase.TheVariants.{Gathering};
    ghost use Rattle.dn_survivor.specs.Calls.{awaits_report_of, undecided_in};
    ghost use Rattle.dn_link.specs.{Linked.{has_given_up, remains, surviving_of}, Linking.{linked, seal_of}, Pacing.pace_of, Surviving.{GivesUpPeer, reports_gone}};
    ghost use Rattle.dn_survivor.specs.declared.answers.GivenUp.TheVariants as given_up;

    /// Whether a player is given up.
    pub fn has_given_up(&self, player: u8) -> bool
        ensures { result ≡ has_given_up (linked self.now) player }
    {
        is_gone(&self.survivor.others().gone, player)
    }

    /// Whether a number is that of a peer who is not given up.
    pub(super) fn remains(&self, player: u8) -> bool
        ensures value { result ≡ remains (linked self.now) player }
        ensures few { result ≡ true → player < 4 }
    {
        self.is_peer(player) && !self.has_given_up(player)
    }

    /// Whether the newest report of another player, the teller, names a player as given up. Those who play on
    /// together have to give up the same players. A teller who is given up reports nobody.
    pub fn reports_gone(&self, teller: u8, player: u8) -> bool
        ensures { result ≡ reports_gone (linked self.now) teller player }
    {
        if self.has_given_up(teller) {
            return false;
        }
        match self.survivor.others().newest.get(usize::from(teller)) {
            Some(Some(report)) => is_gone(&report.gone, player),
            _ => false,
        }
    }

    /// As `Survivor::undecided`: of the players whose report is missing the one with the lowest number. None
    /// where the ends of all who are given up can be decided. Ask it while somebody is given up.
    pub fn undecided(&self) -> Option<u8>
        ensures { result ≡ undecided_in (surviving_of (linked self.now)) }
    {
        self.survivor.undecided()
    }

    /// As `Survivor::awaits_report_of`: whose report is awaited, while somebody is given up.
    pub fn awaits_report_of(&self) -> Option<u8>
        ensures { result ≡ awaits_report_of (surviving_of (linked self.now)) }
    {
        self.survivor.awaits_report_of()
    }

    /// Gives up a player who vanished, for good, so that the others play on: as `Survivor::give_up`. From here
    /// on no datagram goes to it, nothing of it is taken, and `may_leave` does not wait for it. A run that
    /// lacks a command of it waits until its end is decided: all who play on must give it up, and hear each
    /// other's reports. Then the game goes on without it from the same tic on at all of them.
    pub fn give_up(&mut self, player: u8) -> GivenUp
        ensures given { GivesUpPeer player (linked self.old) (linked self.new) result }
        ensures waits { result ≡ given_up.Waiting → (linked self.old).node.phase ≢ Gathering
            → (linked self.new).node ≡ (linked self.old).node }
        ensures pace { pace_of self.new ≡ pace_of self.old }
        ensures seal { seal_of self.new ≡ seal_of self.old }
    {
        self.survivor.give_up(player)
    }
}
