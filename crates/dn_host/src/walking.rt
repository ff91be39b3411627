//! The walk of a session's player: what its link is told of it, and how it begins.

ghost use Rattle.std.specs.Prelude.{◌≡◌};
ghost use Rattle.dn_link.specs.Linking.{linked};
ghost use Rattle.dn_host.specs.Playing.{begun_by, marks_of, waited_for};

use dn_link::Link;
use dn_machine::Ran;
use dn_world::{Walk, World};

/// The marks of all players, as a walk stands.
pub(crate) fn marks_of(walk: &Walk) -> [i16; 4]
    ensures { result ≡ marks_of walk.now }
{
    [walk.mark(0), walk.mark(1), walk.mark(2), walk.mark(3)]
}

/// For whom a run waits.
pub(crate) fn waits_for(ran: Ran) -> Option<u8>
    ensures { result ≡ waited_for ran }
{
    match ran {
        Ran::Waiting(player) => Some(player),
        _ => None,
    }
}

/// A walk at the beginning of a link's game.
pub(crate) fn begun_by(link: &Link) -> Walk
    ensures { result ≡ begun_by (linked link.now).node.settings (linked link.now).node.players }
{
    let mut walk = Walk::new();
    let lockstep = link.lockstep();
    if let Some(settings) = lockstep.settings() {
        walk.begin(&settings.start(), lockstep.present());
    }
    walk
}
