//! By which way a datagram goes to a player: straight there, or through another.

ghost use Rattle.std.specs.Prelude.{◌≡◌};
ghost use Rattle.dn_session.specs.{Playing.playing, Sent.address_to, Sent.can_pass, Sent.is_near, Sent.probe_of, Sent.way_to};

use super::Part;
use crate::greeting::Address;
use crate::players::is_gone_from;

impl Part {
    /// Whether a player is near, by the last look.
    fn is_near(&self, player: u8) -> bool
        ensures { result ≡ is_near (playing self.now) player }
    {
        self.places.place(player).is_near(self.watch.looked)
    }

    /// Whether another can pass a datagram on to a player.
    fn can_pass(&self, other: u8, player: u8) -> bool
        ensures { result ≡ can_pass (playing self.now) other player }
    {
        other != player && !is_gone_from(&self.link, other) && self.is_near(other)
    }

    /// Who gets the datagram to a player.
    fn way_to(&self, player: u8) -> u8
        ensures { result ≡ way_to (playing self.now) player }
    {
        if !self.is_near(player) && self.can_pass(self.turn, player) {
            self.turn
        } else {
            player
        }
    }

    /// Where that is, as far as it is known.
    pub(super) fn address_to(&self, player: u8) -> Option<Address>
        ensures { result ≡ address_to (playing self.now) player }
    {
        self.places.place(self.way_to(player)).address
    }

    /// Where a probe is due to a player.
    pub(super) fn probe_of(&self, player: u8) -> Option<Address>
        ensures { result ≡ probe_of (playing self.now) player }
    {
        let looked = self.watch.looked;
        let silence = self.watch.silence(player, looked);
        self.places.place(player).probe_to(looked, silence)
    }
}
