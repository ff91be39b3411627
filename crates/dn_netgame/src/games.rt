//! Walks for a game, and a storm of them.

ghost use Rattle.std.specs.Prelude.{◌≡◌, length, IfOk};
ghost use Rattle.dn_world.specs.Plane.{walking};
ghost use Rattle.dn_demo.specs.Recorded.{IsLimit};
ghost use Rattle.dn_lockstep.specs.Opening.{IsGame};
ghost use Rattle.dn_game.specs.{Observed.ObservesAll, Opening.rules_in, Stormed.IsStormed};

use dn_game::{GameConfig, GameFault, Observer, Played, storm_observed};
use dn_world::Walk;
use std::alloc::{AllocError, Global};

/// A world that nobody is in for each player.
pub(crate) fn new_walks(alloc: Global, players: u8) -> Result<Vec<Walk>, AllocError>
    ensures { IfOk result (λ walks. length walks.items ≡ players) }
{
    let mut walks = Vec::new(alloc);
    while walks.len() < usize::from(players) {
        walks.push(Walk::new())?;
    }
    Ok(walks)
}

/// Plays `count` events of the seed's schedule in a game of `players` new walks, and tells the observer of
/// each.
pub(crate) fn storm_walks<L: Observer>(
    alloc: Global,
    config: GameConfig,
    players: u8,
    seed: u64,
    count: u32,
    observer: &mut L,
) -> Result<Played<Walk>, AllocError>
    requires players { IsGame players }
    requires limit { IsLimit config.limit }
    ensures { IfOk result (λ played. (run : IsStormed (λ spots. spots) (rules_in walking config players)
        config.settings seed count played)
        × ObservesAll L.observes observer.old 0 run.events run.answers observer.new) }
{
    let walks = new_walks(alloc, players)?;
    match storm_observed(alloc, config, walks, seed, count, observer) {
        Ok(played) => Ok(played),
        Err(GameFault::Memory) => Err(AllocError),
        Err(GameFault::Players | GameFault::Limit) => unreachable!(),
    }
}
