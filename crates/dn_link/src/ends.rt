//! What a datagram tells of its sender's end.

ghost use Rattle.std.specs.Prelude.{◌≡◌};
ghost use Rattle.dn_link.specs.Ends.{excludes, left_by, tells_end, told_cause};

use crate::bundle::Bundle;
use dn_machine::{Cause, Phase};

/// The cause of one that has given up the receiver.
pub(crate) const EXCLUDES: u8 = 4;

/// The cause of a probe, which tells no end.
pub const PROBE: u8 = 5;

/// The byte that tells why a player in this phase has ended; 0 of one that has not.
pub(crate) fn told_cause(phase: Phase) -> u8
    ensures { result ≡ told_cause phase }
{
    match phase {
        Phase::Ended(Cause::Quit) => 1,
        Phase::Ended(Cause::Full) => 2,
        Phase::Ended(Cause::Inconsistent { .. }) => 3,
        Phase::Listening | Phase::Gathering | Phase::Playing => 0,
    }
}

/// Whether the sender of a datagram has given up its receiver.
pub(crate) fn excludes(bundle: &Bundle) -> bool
    ensures { result ≡ excludes bundle.now }
{
    bundle.cause == EXCLUDES
}

/// Whether a datagram tells all commands of its sender, and its end.
fn tells_end(bundle: &Bundle) -> bool
    ensures { result ≡ tells_end bundle.now }
{
    match bundle.counts.got.get(bundle.from as usize) {
        Some(own) => bundle.counts.made < *own,
        None => false,
    }
}

/// Why its sender has left, as far as its datagrams told.
pub(crate) fn left_by(bundle: &Bundle, left: Option<u8>) -> Option<u8>
    ensures { result ≡ left_by bundle.now left }
{
    if bundle.cause > 0 && bundle.cause < EXCLUDES && tells_end(bundle) {
        Some(bundle.cause)
    } else {
        left
    }
}
