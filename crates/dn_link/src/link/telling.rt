//! What a link reports for the screen.

use super::Link;
use crate::tally::Figures;

impl Link {
    ghost use Rattle.std.specs.Prelude.{◌<◌, ◌≤◌, if◌then◌else◌, None, Some, ◌≡◌};
    ghost use Rattle.dn_link.specs.{Linked.acknowledged_by, Linked.figures_of, Linked.unacknowledged, Linked.is_peer, Linking.linked, Pacing.pace_of};
    ghost use Rattle.dn_lockstep.specs.Told.{made as made_in};
    ghost use Rattle.dn_machine.specs.declared.answers.Made.TheVariants as made;

    /// What is known of the line to a peer, for the screen. None for a number that is no peer's.
    pub fn figures(&self, player: u8) -> Option<Figures>
        ensures { result ≡ (if is_peer (linked self.now).node player
            then Some (figures_of ((pace_of self.now).lines player)) else None) }
    {
        if self.is_peer(player) {
            Some(Figures::of(self.pace.line(player)))
        } else {
            None
        }
    }

    /// The number of the next datagram to a peer: what the peer echoes once the one before has come. None for a
    /// number that is no peer's.
    pub fn next_number(&self, player: u8) -> Option<u32>
        ensures { result ≡ (if is_peer (linked self.now).node player
            then Some ((linked self.now).peers player).number else None) }
    {
        if self.is_peer(player) {
            Some(self.peer(player).number)
        } else {
            None
        }
    }

    /// How often bytes came that were no datagram: of another game, damaged, forged.
    pub fn refused(&self) -> u32
        ensures { result ≡ (pace_of self.now).refused }
    {
        self.pace.refused
    }

    /// How many of its commands a player has acknowledged; all, of one that needs nothing.
    fn acknowledged_by(&self, player: u8) -> u32
        requires { player < 4 }
        ensures value { result ≡ acknowledged_by (linked self.now) player }
        ensures most { result ≤ made_in (linked self.now).node }
    {
        if self.needs_nothing(player) {
            return self.made();
        }
        self.peer(player).done().min(self.made())
    }

    /// How many of its commands not every remaining player has acknowledged: the oldest has been on its way for
    /// about so many ticks.
    pub fn unacknowledged(&self) -> u32
        ensures { result ≡ unacknowledged (linked self.now) }
    {
        let first = self.acknowledged_by(0).min(self.acknowledged_by(1));
        let second = self.acknowledged_by(2).min(self.acknowledged_by(3));
        self.made() - first.min(second)
    }
}
