//! What comes in.

use super::Link;
use crate::bundle::Bundle;
use crate::counting::reached;
use crate::ends::{excludes, left_by};
use crate::hearing::hear_bundle;
use crate::reading::open_bundle;
use crate::received::Received;

impl Link {
    ghost use Rattle.dn_link.specs.{Ends.excludes, Hearing.{ByTest, HearsAll}, Packets.heard_in, Linked.{HearsPeer, Receives, TakesPackets, done_with, takes, with_reached, met}, Pacing.pace_of};
    ghost use Rattle.dn_link.specs.{Linking.{linked, seal_of}, Pace.{Paces, after_datagram}};
    ghost use Rattle.dn_machine.specs.Node.{put};
    ghost use Rattle.std.specs.Prelude.{◌<◌, ◌≡◌};

    /// How many commands of this player a peer no longer needs, that has left or reported this count.
    fn done_with(&self, left: Option<u8>, count: u32) -> u32
        ensures { result ≡ done_with left (linked self.now).node count }
    {
        match left {
            Some(_) => self.made(),
            None => self.certain(count),
        }
    }

    /// Notes what a peer has, and whether it has left.
    fn meet(&mut self, bundle: &Bundle)
        requires { bundle.now.from < 4 }
        ensures link { linked self.new ≡ met bundle.now (linked self.old) }
        ensures pace { pace_of self.new ≡ pace_of self.old }
        ensures seal { seal_of self.new ≡ seal_of self.old }
    {
        let me = self.me();
        let left = left_by(bundle, self.peer(bundle.from).left);
        let done = self.done_with(left, bundle.counts.got[me as usize]);
        self.peers[bundle.from as usize].tells(done, &bundle.counts.got, left);
    }

    /// Hears the packets of a datagram.
    fn hear_packets(&mut self, bundle: &Bundle)
        ensures heard { HearsAll (heard_in (takes (linked self.old)) bundle.now) (linked self.old).node
            (linked self.new).node }
        ensures others { (linked self.new).others ≡ (linked self.old).others }
        ensures peers { (linked self.new).peers ≡ (linked self.old).peers }
        ensures pace { pace_of self.new ≡ pace_of self.old }
        ensures seal { seal_of self.new ≡ seal_of self.old }
    {
        let gone = self.survivor.others().gone;
        hear_bundle(self.survivor.lockstep_mut(), &gone, bundle);
    }

    /// Notes what a player must have had when it made the last of its commands that are here.
    fn note_reached(&mut self, player: u8)
        requires { player < 4 }
        ensures link { linked self.new ≡ record (linked self.old) {
          peers = put (linked self.old).peers player (with_reached (linked self.old).node (linked self.old).peers player);
        } }
        ensures pace { pace_of self.new ≡ pace_of self.old }
        ensures seal { seal_of self.new ≡ seal_of self.old }
    {
        let count = reached(self.lockstep(), player);
        self.peers[player as usize].has_reached(count);
    }

    /// Notes of each player what it must have had by its commands, whoever gave them.
    fn note_all_reached(&mut self)
        ensures link { linked self.new ≡ record (linked self.old) {
          peers = with_reached (linked self.old).node (linked self.old).peers;
        } }
        ensures pace { pace_of self.new ≡ pace_of self.old }
        ensures seal { seal_of self.new ≡ seal_of self.old }
    {
        self.note_reached(0);
        self.note_reached(1);
        self.note_reached(2);
        self.note_reached(3);
    }

    /// Takes in what a peer's datagram tells of the peer, and its packets.
    fn take_packets(&mut self, bundle: &Bundle)
        requires few { bundle.now.from < 4 }
        ensures heard { TakesPackets bundle.now (linked self.old) (linked self.new) }
        ensures pace { pace_of self.new ≡ after_datagram bundle.now (pace_of self.old) }
        ensures seal { seal_of self.new ≡ seal_of self.old }
    {
        self.meet(bundle);
        self.pace.hear(bundle);
        self.hear_packets(bundle);
        self.note_all_reached();
    }

    /// Takes in the datagram of a peer who is not given up.
    fn take_in(&mut self, bundle: &Bundle) -> Received
        requires few { bundle.now.from < 4 }
        ensures heard { HearsPeer bundle.now (linked self.old) (linked self.new) result }
        ensures pace { ByTest (excludes bundle.now) (pace_of self.new ≡ pace_of self.old)
            (pace_of self.new ≡ after_datagram bundle.now (pace_of self.old)) }
        ensures gone { (linked self.new).others.gone ≡ (linked self.old).others.gone }
        ensures seal { seal_of self.new ≡ seal_of self.old }
    {
        if excludes(bundle) {
            return Received::Excluded(bundle.from);
        }
        self.take_packets(bundle);
        self.take_report(bundle.from, bundle.report.as_slice());
        Received::Heard(bundle.from)
    }

    /// Takes in any bytes, wherever they come from, and answers which peer's datagram they are. Bytes that are no
    /// datagram to this player in this game change nothing but what `refused` counts. A datagram changes nothing
    /// whose sender is no peer, or is given up, or has given up this player.
    pub fn receive(&mut self, bytes: &[u8]) -> Received
        ensures heard { Receives (seal_of self.old) bytes.now (linked self.old) (linked self.new) result }
        ensures pace { Paces (seal_of self.old) bytes.now (linked self.old) (pace_of self.old) (pace_of self.new) }
        ensures gone { (linked self.new).others.gone ≡ (linked self.old).others.gone }
        ensures seal { seal_of self.new ≡ seal_of self.old }
    {
        let bundle = match open_bundle(&self.sealer, bytes) {
            Ok(bundle) => bundle,
            Err(fault) => {
                self.pace.refuse();
                return Received::Unopened(fault);
            }
        };
        if !self.is_peer(bundle.from) {
            return Received::Stranger(bundle.from);
        }
        if self.has_given_up(bundle.from) {
            return Received::GivenUp(bundle.from);
        }
        self.take_in(&bundle)
    }
}
