//! Who has left, and who may leave.

use super::Link;

impl Link {
    ghost use Rattle.std.specs.Prelude.{◌<◌, not, if◌then◌else◌, None, ◌≡◌};
    ghost use Rattle.dn_link.specs.{Linked.is_peer, Linked.may_leave, Linked.needs_nothing, Linking.linked};

    /// Why a peer has left, if its datagrams told: that it quit (1), that its demo is full (2), or that it
    /// found another's world to differ (3). None for a number that is no peer's.
    pub fn left(&self, player: u8) -> Option<u8>
        ensures { result ≡ (if is_peer (linked self.now).node player then ((linked self.now).peers player).left else None) }
    {
        if self.is_peer(player) {
            self.peer(player).left
        } else {
            None
        }
    }

    /// Whether a player needs nothing more of this one: it has itself left, or has acknowledged all commands
    /// and the end; or it is given up, or there is no such other player.
    pub(super) fn needs_nothing(&self, player: u8) -> bool
        ensures { result ≡ needs_nothing (linked self.now) player }
    {
        if !self.remains(player) || self.end(player).is_some() {
            return true;
        }
        let peer = self.peer(player);
        peer.left.is_some() || self.made() < peer.reported.of(self.me())
    }

    /// Whether a player still needs commands of this one, or to know that it has left.
    pub fn needs(&self, player: u8) -> bool
        ensures { result ≡ not (needs_nothing (linked self.now) player) }
    {
        !self.needs_nothing(player)
    }

    /// Whether nobody needs commands of this player any more, nor to know that it has left: each other player
    /// has itself left, is given up, or has acknowledged all commands and the end. A peer that has left waits
    /// for the same, by the counts of this one: give it some more datagrams, and limit the wait, since the last
    /// datagram may be lost.
    pub fn may_leave(&self) -> bool
        ensures { result ≡ may_leave (linked self.now) }
    {
        self.needs_nothing(0)
            && self.needs_nothing(1)
            && self.needs_nothing(2)
            && self.needs_nothing(3)
    }
}
