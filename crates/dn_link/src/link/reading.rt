//! What a link reads of its lockstep, and of its peers.

use super::Link;
use crate::peer::Peer;

impl Link {
    ghost use Rattle.std.specs.Prelude.{◌<◌, true, ◌≡◌};
    ghost use Rattle.dn_lockstep.specs.Told.{made};
    ghost use Rattle.dn_link.specs.{Linked.certain, Linked.end_known, Linked.is_peer, Linking.linked, Linking.state_of};

    /// The number of its player.
    pub(super) fn me(&self) -> u8
        ensures { result ≡ (linked self.now).node.me }
    {
        self.lockstep().me()
    }

    /// Whether a number is a peer's.
    pub(super) fn is_peer(&self, player: u8) -> bool
        ensures value { result ≡ is_peer (linked self.now).node player }
        ensures few { result ≡ true → player < 4 }
    {
        player < self.lockstep().players() && player != self.me()
    }

    /// What is kept of a peer.
    #[tactic(auto, using(crate::proofs::Places::peer_at))]
    pub(super) fn peer(&self, player: u8) -> &Peer
        requires { player < 4 }
        ensures { state_of result.now ≡ (linked self.now).peers player }
    {
        &self.peers[player as usize]
    }

    /// How many commands it made.
    pub(super) fn made(&self) -> u32
        ensures { result ≡ made (linked self.now).node }
    {
        self.lockstep().made()
    }

    /// The tic after a player's last command, where it is known.
    pub(super) fn end(&self, player: u8) -> Option<u32>
        ensures { result ≡ end_known (linked self.now).node player }
    {
        self.lockstep().end(player)
    }

    /// How many of its commands a peer that reported this count of them has for certain.
    pub(super) fn certain(&self, count: u32) -> u32
        ensures { result ≡ certain (linked self.now).node count }
    {
        let commands = match self.end(self.me()) {
            Some(_) => count.saturating_sub(1),
            None => count,
        };
        commands.min(self.made())
    }
}
