//! What goes to a peer.

use super::Link;
use crate::bundle::Bundle;
use crate::counting::counts_of;
use crate::ends::told_cause;
use crate::giving::next_packet;
use crate::writing::seal_bundle;
use arrayvec::ArrayVec;

impl Link {
    ghost use Rattle.std.specs.Prelude.{None, IfSome, is_some, ◌≡◌};
    ghost use Rattle.dn_lockstep.specs.{Sent.IsFair, Sent.sent_to, Steps.Tells};
    ghost use Rattle.dn_link.specs.{Linked.Gives, Linked.remains, Linking.linked, Linking.seal_of, Pace.after_giving, Pacing.pace_of};

    /// The datagram to a peer, for each tick: the packets that are kept until it acknowledges their commands
    /// and the one of the moment, oldest first, up to where there may be no room for one more, and how far this
    /// player is. After the end it says why; and then, or while somebody is given up, it has the report to the peer.
    /// A brief one has no packets, but the newest four commands that the peer has not reported: a second one since the
    /// last tick, which is an input or a call of `lean`. None to a number that is no peer's, nor to one who is given up.
    #[tactic(auto, using(crate::proofs::Places::peer_at, crate::proofs::Places::peers_put, crate::proofs::Rooms::parts_fit))]
    pub fn datagram(&mut self, to: u8) -> Option<ArrayVec<u8, 1200>>
        ensures gives { IfSome result (λ bytes. Gives (seal_of self.old) (pace_of self.old) to
            (linked self.old) (linked self.new) bytes.items) }
        ensures fair { IfSome result (λ bytes. Tells (linked self.old).node
            (λ limits me m. IfSome (sent_to to limits me m).1 IsFair)) }
        ensures peer { is_some result ≡ remains (linked self.old) to }
        ensures others { (linked self.new).others ≡ (linked self.old).others }
        ensures idle { result ≡ None → linked self.new ≡ linked self.old }
        ensures pace { pace_of self.new ≡ after_giving (linked self.old) to (pace_of self.old) }
        ensures seal { seal_of self.new ≡ seal_of self.old }
    {
        if !self.remains(to) {
            return None;
        }
        let me = self.me();
        let cause = told_cause(self.lockstep().phase());
        let packet = next_packet(self.survivor.lockstep_mut(), to);
        let brief = self.pace.is_brief(to);
        self.pace.give(to);
        let (number, own) = self.peers[to as usize].parts(me, packet, brief);
        let parts = self.with_handed(to, brief, own);
        self.overdue.hand(to, parts.as_slice());
        let report = self.report_beside(to, parts.as_slice());
        let line = self.pace.line(to);
        let bundle = Bundle {
            from: me,
            to,
            number,
            lead: line.own_lead,
            holes: line.missing(),
            cause,
            counts: counts_of(self.lockstep(), line.own_echo()),
            report,
            parts,
        };
        Some(seal_bundle(&self.sealer, &bundle))
    }
}
