//! Joining a game.

ghost use Rattle.std.specs.Prelude.{◌≡◌, ◌⊎◌, false, true, is_some, Err, IfErr, IfOk};
ghost use Rattle.dn_session.specs.Session.{IsJoinSession};
ghost use Rattle.dn_host.specs.{Offers.joining, Offers.IsAsked, Outcomes.is_refusal, Outcomes.IsGame};
ghost use Rattle.dn_host.specs.declared.ends.HostFault.TheVariants as fault;

use crate::ends::{HostFault, Outcome};
use crate::host::PROGRAM;
use crate::plan::Plan;
use crate::play::play;
use crate::screen::Screen;
use crate::system::System;
use crate::wire::Wire;
use dn_session::{Address, JoinConfig, Session};
use std::alloc::Global;

/// Whom a joiner calls, and for what.
#[derive(Clone, Copy, Debug, PartialEq, Eq)]
pub struct Guest {
    /// Where the host is.
    pub host: Address,
    /// The seat that it wants, 1 to 3, if it wants a certain one.
    pub seat: Option<u8>,
    /// How many players there must be, if it was told.
    pub players: Option<u8>,
}

/// What the session is made of, with these random bytes.
fn joining(plan: &Plan, guest: &Guest, random: [u8; 32]) -> JoinConfig
    ensures { result ≡ joining plan.now guest.now random }
{
    JoinConfig {
        secret: plan.secret,
        random,
        host: guest.host,
        seat: guest.seat,
        players: guest.players,
        identity: PROGRAM,
        name: [0; 16],
    }
}

/// Joins a game: calls the host until it has a seat and all are there, plays, and leaves. Where nobody can have what
/// it asks for, it does nothing.
pub fn join_game<Y: System, W: Wire, S: Screen>(
    system: &mut Y,
    alloc: Global,
    wire: &mut W,
    screen: &mut S,
    plan: &Plan,
    guest: &Guest,
) -> Result<Outcome, HostFault>
    ensures played { IsGame W.sends W.polls S.shows S.waits S.misses Y.reads Y.naps Y.draws
        (λ random. IsJoinSession (joining plan.now guest.now random) 0) plan.now
        wire.old screen.old system.old wire.new screen.new system.new result }
    ensures linked { IfOk result (λ o. is_refusal o.ending ≡ false → is_some o.link ≡ true) }
    ensures terms { IfErr result (λ f. f ≡ fault.Terms → ¬ IsAsked plan.now guest.now) }
    ensures no_game { ¬ IsAsked plan.now guest.now → ((result ≡ Err fault.Terms) ⊎ (result ≡ Err fault.Random))
        × (wire.new ≡ wire.old) × (screen.new ≡ screen.old) }
{
    let Some(random) = system.draw() else {
        return Err(HostFault::Random);
    };
    match Session::join(&joining(plan, guest, random), 0) {
        Ok(session) => play(session, plan, system, alloc, wire, screen),
        Err(_) => Err(HostFault::Terms),
    }
}
