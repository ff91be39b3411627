//! Whether a node can decide.

ghost use Rattle.std.specs.Prelude.{◌≡◌, ◌≤◌};
ghost use Rattle.dn_remain.specs.Vanished.Calls.{is_report, every, is_within_at};
ghost use Rattle.dn_survivor.specs.OfOthers.{has, node_of};

use crate::others::Others;
use crate::report::Report;

/// Whether each of so many players that is in the one set is in the other.
#[tactic(auto, using(crate::proofs::Lowest::every_false, crate::proofs::Lowest::every_more, crate::proofs::Lowest::nobody))]
pub(crate) fn is_within(players: u8, one: &[bool; 4], other: &[bool; 4]) -> bool
    requires { players ≤ 4 }
    ensures { result ≡ every players (is_within_at (has one.now) (has other.now)) }
{
    for player in 0..usize::from(players) {
        if one[player] && !other[player] {
            return false;
        }
    }
    true
}

/// Whether a report stands for a set: it has exactly this set, or is the last of one who had given up no
/// others.
fn is_report(players: u8, gone: &[bool; 4], report: &Report) -> bool
    requires { players ≤ 4 }
    ensures { result ≡ is_report players (has gone.now) (node_of report.now) }
{
    is_within(players, &report.gone, gone)
        && (report.left || is_within(players, gone, &report.gone))
}

impl Others {
    ghost use Rattle.std.specs.Prelude.{◌≡◌, ◌<◌, ◌≤◌, ℕ, true, false, None, IfSome};
    ghost use Rattle.dn_remain.specs.Vanished.Calls.{is_heard, can_decide};
    ghost use Rattle.dn_survivor.specs.OfOthers.{nodes_of, own_of};

    /// Whether nothing is wanted of a player, or its report is there.
    fn is_heard(&self, players: u8, me: u8, player: u8) -> bool
        requires players { players ≤ 4 }
        requires player { player < 4 }
        ensures { (got : ℕ → ℕ)
            → result ≡ is_heard players me (own_of self.now got) (nodes_of self.now) player }
    {
        if player == me || self.gone[usize::from(player)] {
            return true;
        }
        match &self.newest[usize::from(player)] {
            None => false,
            Some(report) => is_report(players, &self.gone, report),
        }
    }

    /// Of the players whose report is missing the one with the lowest number.
    pub fn undecided(&self, players: u8, me: u8) -> Option<u8>
        requires { players ≤ 4 }
        ensures lacks { (got : ℕ → ℕ) → IfSome result (λ player. (player < players)
            × (is_heard players me (own_of self.now got) (nodes_of self.now) player ≡ false)
            × ((lower : ℕ) → lower < player
            → is_heard players me (own_of self.now got) (nodes_of self.now) lower ≡ true)) }
        ensures none { (got : ℕ → ℕ) → result ≡ None
            → can_decide players me (own_of self.now got) (nodes_of self.now) ≡ true }
    {
        for player in 0..players {
            if !self.is_heard(players, me, player) {
                return Some(player);
            }
        }
        None
    }

    /// Whether a node can decide by the newest reports: each player whom it has not given up has told it of the
    /// same players, or has left and given up no others.
    pub fn can_decide(&self, players: u8, me: u8) -> bool
        requires { players ≤ 4 }
        ensures { (got : ℕ → ℕ)
            → result ≡ can_decide players me (own_of self.now got) (nodes_of self.now) }
    {
        self.undecided(players, me).is_none()
    }
}
