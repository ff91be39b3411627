//! What a lockstep gives to a peer.

ghost use Rattle.std.specs.Prelude.{◌≡◌, None, IfSome};
ghost use Rattle.dn_lockstep.specs.{Contents.contents, Sent.IsFair, Sent.sent_to, Steps.Tells};
ghost use Rattle.dn_link.specs.Hearing.{SendsCarried};

use crate::bundle::Carried;
use arrayvec::ArrayVec;
use dn_lockstep::Lockstep;
use dn_packet::MAX_DATAGRAM;
use dn_seal::append;

/// The next packet to a peer, with its exact numbers; None where there is none.
#[tactic(auto, using(dn_lockstep::proofs::Giving::some_given, dn_open::proofs::Letters::gives_none))]
pub(crate) fn next_packet(lockstep: &mut Lockstep, to: u8) -> Option<Carried>
    ensures step { SendsCarried to (contents lockstep.old) (contents lockstep.new) result }
    ensures idle { result ≡ None → contents lockstep.new ≡ contents lockstep.old }
    ensures fair { Tells (contents lockstep.old) (λ limits me m. IfSome (sent_to to limits me m).1 IsFair) }
{
    let mut room = [0; MAX_DATAGRAM];
    let Some((aim, size)) = lockstep.packet_with_aim(to, &mut room) else {
        return None;
    };
    let mut datagram = ArrayVec::new();
    append(&mut datagram, &room[..size]);
    Some(Carried {
        start: aim.start,
        ask: aim.ask,
        datagram,
    })
}
