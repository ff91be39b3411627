//! A session that is played until it ends.

ghost use Rattle.std.specs.Prelude.{◌≡◌, ◌⊎◌, IfErr};
ghost use Rattle.dn_host.specs.{Outcomes.IsPlayed, Turns.new_turns, Turns.stage_of};
ghost use Rattle.dn_host.specs.declared.ends.HostFault.TheVariants as fault;

use crate::ends::{HostFault, Outcome};
use crate::plan::Plan;
use crate::screen::Screen;
use crate::system::{System, rest};
use crate::turns::Turns;
use crate::wire::Wire;
use dn_session::Session;
use std::alloc::Global;

/// Plays a session that begins now, until it ends.
pub(crate) fn play<Y: System, W: Wire, S: Screen>(
    session: Session,
    plan: &Plan,
    system: &mut Y,
    alloc: Global,
    wire: &mut W,
    screen: &mut S,
) -> Result<Outcome, HostFault>
    ensures played { IsPlayed W.sends W.polls S.shows S.waits S.misses Y.reads Y.naps plan.now
        (stage_of (new_turns session plan.now) wire.old screen.old) system.old wire.new screen.new system.new result }
    ensures fault { IfErr result (λ f. (f ≡ fault.Memory) ⊎ (f ≡ fault.Clock)) }
{
    let mut turns = Turns::new(session, plan);
    let Some(start) = system.time() else {
        return Err(HostFault::Clock);
    };
    for taken in 0..u64::MAX {
        let Some(time) = system.time() else {
            return Err(HostFault::Clock);
        };
        let now = time.saturating_sub(start);
        let is_busy = turns.turn(alloc, wire, screen, now)?;
        match turns.ending() {
            Some(ending) => return Ok(turns.outcome(ending, now)),
            None => rest(system, is_busy),
        }
    }
    Err(HostFault::Clock)
}
