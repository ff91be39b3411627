//! How a lockstep receives a packet that was opened.

ghost use Rattle.dn_lockstep.specs.Contents.{contents};
ghost use Rattle.dn_open.specs.Arrivals.{HearsOpened, SparesSealed};

use crate::alike::is_alike;
use dn_lockstep::{Heard, Lockstep, are_tics_near};
use dn_seal::Opened;

/// What came of a packet that was opened.
#[derive(Clone, Copy, Debug, PartialEq, Eq)]
pub enum Arrived {
    /// The packet's first tic, or the tic that it asks for, is more than 64 from the number of commands that
    /// the node has made, and the packet changed nothing.
    Late,
    /// The datagram contradicts the numbers beside it, and changed nothing: it has another sender, another low
    /// byte of the start or of the request, or a request where they have none, or the other way round.
    Unlike,
    /// What `Lockstep::receive` returned for the datagram.
    Heard(Heard),
}

/// Receives a packet that was opened: a datagram, who sent it to this player, and its exact numbers. One with a
/// tic that is more than 64 from the number of commands that the lockstep has made is dropped, and so is a
/// datagram that contradicts the numbers beside it; neither changes anything. Any other is received as its
/// sender's. The caller has made sure that a player of this game sealed all of it to this one.
#[tactic(auto, using(crate::proofs::Receiving::late, crate::proofs::Receiving::unlike, crate::proofs::Receiving::hears))]
pub fn hear(lockstep: &mut Lockstep, opened: &Opened) -> Arrived
    ensures step { HearsOpened opened.now (contents lockstep.old) (contents lockstep.new) result }
    ensures dropped { SparesSealed (contents lockstep.old) (contents lockstep.new) result }
{
    let made = lockstep.made();
    if !are_tics_near(made, opened.start, opened.ask) {
        return Arrived::Late;
    }
    if !is_alike(opened) {
        return Arrived::Unlike;
    }
    Arrived::Heard(lockstep.receive(opened.from, opened.datagram.as_slice()))
}
