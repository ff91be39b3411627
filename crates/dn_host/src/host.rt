//! Hosting a game.

ghost use Rattle.std.specs.Prelude.{◌≡◌, ◌⊎◌, false, true, Err, IfErr, IfOk, is_some};
ghost use Rattle.dn_session.specs.Session.{IsHostSession};
ghost use Rattle.dn_host.specs.{Offers.hosted, Offers.IsOffer, Outcomes.IsGame, Outcomes.is_refusal};
ghost use Rattle.dn_host.specs.declared.ends.HostFault.TheVariants as fault;

use crate::ends::{HostFault, Outcome};
use crate::plan::Plan;
use crate::play::play;
use crate::screen::Screen;
use crate::system::System;
use crate::wire::Wire;
use dn_measure::SILENCE;
use dn_session::{HostConfig, Policy, Session, Terms};
use dn_setup::Settings;
use std::alloc::Global;

/// The identity of every program of this kind.
pub(crate) const PROGRAM: [u8; 16] = *b"zirmegat netgame";

/// What a host offers.
#[derive(Clone, Copy, Debug, PartialEq, Eq)]
pub struct Hosting {
    /// How many players the game has: 2 to 4.
    pub players: u8,
    /// Whether packets repeat commands.
    pub extra: bool,
    /// How many commands a player makes ahead of its runs: 1 to 12.
    pub ahead: u8,
    /// How many tics a second are played: 1 to 35.
    pub rate: u8,
    /// How many bytes the demo may have: 1,024 to 16,777,216.
    pub limit: u32,
    /// The choice of game.
    pub settings: Settings,
}

/// What the session is made of, with these random bytes. A player who vanishes ends the game.
fn hosted(plan: &Plan, hosting: &Hosting, random: [u8; 32]) -> HostConfig
    ensures { result ≡ hosted plan.now hosting.now random }
{
    let terms = Terms {
        players: hosting.players,
        extra: hosting.extra,
        ahead: hosting.ahead,
        rate: hosting.rate,
        limit: hosting.limit,
        settings: hosting.settings,
        policy: Policy::End(SILENCE),
        identity: PROGRAM,
        own: [0; 256],
    };
    HostConfig {
        secret: plan.secret,
        random,
        name: [0; 16],
        terms,
    }
}

/// Hosts a game: waits until all are there, plays as player 0, and leaves. Where what it offers is no game, it does
/// nothing.
pub fn host_game<Y: System, W: Wire, S: Screen>(
    system: &mut Y,
    alloc: Global,
    wire: &mut W,
    screen: &mut S,
    plan: &Plan,
    hosting: &Hosting,
) -> Result<Outcome, HostFault>
    ensures played { IsGame W.sends W.polls S.shows S.waits S.misses Y.reads Y.naps Y.draws
        (λ random. IsHostSession (hosted plan.now hosting.now random)) plan.now
        wire.old screen.old system.old wire.new screen.new system.new result }
    ensures seated { IfOk result (λ o. is_refusal o.ending ≡ false) }
    ensures linked { IfOk result (λ o. is_some o.link ≡ true) }
    ensures terms { IfErr result (λ f. f ≡ fault.Terms → ¬ IsOffer hosting.now) }
    ensures no_game { ¬ IsOffer hosting.now → ((result ≡ Err fault.Terms) ⊎ (result ≡ Err fault.Random))
        × (wire.new ≡ wire.old) × (screen.new ≡ screen.old) }
{
    let Some(random) = system.draw() else {
        return Err(HostFault::Random);
    };
    match Session::host(&hosted(plan, hosting, random)) {
        Ok(session) => play(session, plan, system, alloc, wire, screen),
        Err(_) => Err(HostFault::Terms),
    }
}
