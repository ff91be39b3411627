//! What a brief datagram has: the newest of the player's own commands.

use super::Link;
use crate::bundle::{Part, Relay};
use arrayvec::ArrayVec;

/// How many of the player's own commands a brief datagram has.
const MOST_BRIEF: u32 = 4;

impl Link {
    ghost use Rattle.std.specs.Prelude.{◌≡◌, ◌<◌, ◌≤◌, [], All, length, true};
    ghost use Rattle.dn_link.specs.{Linked.is_peer, Linking.linked, Surviving.HasTwoBehind, Surviving.IsNewestFor, Text.IsPart, Packing.parts_room};

    /// The newest of its own commands that a peer has not reported, if it may be handed any.
    fn newest(&self, to: u8) -> Option<Relay>
        requires peer { is_peer (linked self.now).node to ≡ true }
        requires few { to < 4 }
        ensures { IsNewestFor (linked self.now) to result }
    {
        let me = self.me();
        if !self.may_hand(to) || self.has_given_up(me) {
            return None;
        }
        let newest = self.made().saturating_sub(MOST_BRIEF);
        let start = self.peer(to).reported_of(me).max(newest);
        self.commands_for(to, me, start, MOST_BRIEF as u8)
    }

    /// These as the only part of a brief datagram.
    #[tactic(auto, using(crate::proofs::Packings::pushed_room))]
    pub(super) fn with_newest(&self, to: u8, own: ArrayVec<Part, 24>) -> ArrayVec<Part, 24>
        requires peer { is_peer (linked self.now).node to ≡ true }
        requires few { to < 4 }
        requires none { own.items ≡ [] }
        ensures fit { All IsPart result.items }
        ensures short { parts_room result.items ≤ 1118 }
        ensures behind { HasTwoBehind (linked self.now) to true own.items result.items }
    {
        let Some(relay) = self.newest(to) else {
            return own;
        };
        let mut all = own;
        all.push(Part::Relay(relay));
        all
    }
}
