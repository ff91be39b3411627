//! What a link keeps of a peer.

ghost use Rattle.std.specs.Prelude.{◌≡◌};
ghost use Rattle.dn_link.specs.Linked.{larger};

use crate::bundle::{Carried, Part};
use crate::kept::{Kept, takes_packet};
use crate::lag::Had;
use arrayvec::ArrayVec;

/// What a link keeps of a peer.
#[derive(Drop)]
pub(crate) struct Peer {
    /// The packets that the peer has not acknowledged.
    kept: Kept,
    /// How many commands it has of each player, by the highest count that its datagrams reported.
    pub(crate) reported: Had,
    /// Why it has left, if it has told its end.
    pub(crate) left: Option<u8>,
    /// The number of the next datagram to it.
    pub(crate) number: u32,
}

/// The larger of two counts, for each of four players.
fn larger(one: &[u32; 4], other: &[u32; 4]) -> [u32; 4]
    ensures { result ≡ larger one.now other.now }
{
    [
        one[0].max(other[0]),
        one[1].max(other[1]),
        one[2].max(other[2]),
        one[3].max(other[3]),
    ]
}

impl Peer {
    ghost use Rattle.std.specs.Prelude.{All, length, ◌≤◌, ◌<◌, ◌+◌, ◌%◌, ◌^◌};
    ghost use Rattle.dn_link.specs.{Kept.{acknowledged, going, kept_after, taken_by}, Linking.{new_peer, state_of}, Packing.ArePacked, Text.{IsPart, parts_bytes}};
    ghost use Rattle.dn_link.specs.Packing.{parts_room};
    ghost use Rattle.std.specs.Prelude.{[], false, true, slice_index};

    /// Of which nothing is known.
    pub(crate) fn new() -> Peer
        ensures { state_of result ≡ new_peer }
    {
        Peer {
            kept: Kept::new(),
            reported: Had { counts: [0; 4] },
            left: None,
            number: 0,
        }
    }

    /// The number of the datagram that goes to it now.
    pub(crate) fn next_number(&mut self) -> u32
        ensures number { result ≡ (state_of self.old).number }
        ensures next { state_of self.new
            ≡ record (state_of self.old) { number = ((state_of self.old).number + 1) % 2 ^ 32 } }
    {
        let number = self.number;
        self.number = number.wrapping_add(1);
        number
    }

    /// The packet of the moment, if the peer takes it.
    fn taken(&self, packet: Option<Carried>) -> Option<Carried>
        ensures { result ≡ taken_by (state_of self.now).left packet }
    {
        let packet = packet?;
        if takes_packet(self.left, &packet) {
            Some(packet)
        } else {
            None
        }
    }

    /// What goes to it now, of this player, and the number of the datagram, which may be a brief one.
    pub(crate) fn parts(
        &mut self,
        from: u8,
        packet: Option<Carried>,
        brief: bool,
    ) -> (u32, ArrayVec<Part, 24>)
        ensures number { result.0 ≡ (state_of self.old).number }
        ensures peer { state_of self.new ≡ record (state_of self.old) {
          kept = kept_after (state_of self.old).kept (taken_by (state_of self.old).left packet);
          number = ((state_of self.old).number + 1) % 2 ^ 32;
        } }
        ensures fit { All IsPart result.1.items }
        ensures short { parts_room result.1.items ≤ 1118 }
        ensures packed { brief ≡ false → ArePacked from
            (going (state_of self.old).kept (taken_by (state_of self.old).left packet)) result.1.items }
        ensures none { brief ≡ true → result.1.items ≡ [] }
    {
        let taken = self.taken(packet);
        let parts = self.kept.parts(from, taken, brief);
        (self.next_number(), parts)
    }

    /// The number of the next datagram to it.
    pub(crate) fn number(&self) -> u32
        ensures { result ≡ (state_of self.now).number }
    {
        self.number
    }

    /// How many commands of a player it has reported to have.
    pub(crate) fn reported_of(&self, player: u8) -> u32
        requires { player < 4 }
        ensures { result ≡ slice_index (state_of self.now).reported player }
    {
        self.reported.of(player)
    }

    /// How many commands of this player it no longer needs.
    pub(crate) fn done(&self) -> u32
        ensures { result ≡ (state_of self.now).kept.done }
    {
        self.kept.done
    }

    /// Drops what is kept for it of the commands below this tic, which it has.
    pub(crate) fn has_reached(&mut self, count: u32)
        ensures { state_of self.new ≡ record (state_of self.old) { kept = acknowledged (state_of self.old).kept count } }
    {
        self.kept.acknowledge(count);
    }

    /// Notes what it has of each player, why it has left, and how many commands of this player it no longer
    /// needs.
    pub(crate) fn tells(&mut self, done: u32, got: &[u32; 4], left: Option<u8>)
        ensures { state_of self.new ≡ record (state_of self.old) {
          kept = acknowledged (state_of self.old).kept done;
          reported = larger (state_of self.old).reported got.now;
          left = left;
        } }
    {
        self.kept.acknowledge(done);
        self.reported.counts = larger(&self.reported.counts, got);
        self.left = left;
    }
}
