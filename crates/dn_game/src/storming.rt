//! A storm: a game under the events of a schedule.

ghost use Rattle.std.specs.Prelude.{◌≡◌, ◌⊎◌, length, Err, IfOk};
ghost use Rattle.dn_game.specs.{Contents.contents, Opening.AreLimited, Opening.IsAdmitted, Opening.rules_in, Headline.HaveAgreed, Observed.IsStormedObserved, Pool.IsWithinTwice, Room.room_of};
ghost use Rattle.dn_game.specs.{Stormed.IsStormedFrom, declared.config.GameFault.TheVariants.Players, declared.config.GameFault.TheVariants.Limit};

use crate::config::{GameConfig, GameFault};
use crate::game::Game;
use crate::observing::{Nobody, Observer};
use crate::played::Played;
use crate::schedule::Schedule;
use dn_world::World;
use std::alloc::Global;

/// Applies the first `count` events that the schedule of the seed gives, each for the game so far.
/// What is promised of `play` holds here too.
pub fn storm<W: World>(
    alloc: Global,
    config: GameConfig,
    worlds: Vec<W>,
    seed: u64,
    count: u32,
) -> Result<Played<W>, GameFault>
    ensures admitted { IsAdmitted config (length worlds.items) result }
    // What is promised of `play` is so after these events.
    ensures agreed { IfOk result (λ played. HaveAgreed W.state W.physics config.settings (length worlds.items)
        (contents played.game)) }
    ensures run { IfOk result (λ played. IsStormedFrom W.state
        (rules_in W.physics config (length worlds.items)) config.settings worlds.items seed count played) }
    // Each demo has the limit of the configuration.
    ensures limits { IfOk result (λ played. AreLimited config.limit (contents played.game).nodes) }
    // There is memory for no more than twice the packets that were sent, and one.
    ensures room { IfOk result (λ played. IsWithinTwice (contents played.game).flights (room_of played.game)) }
{
    storm_observed(alloc, config, worlds, seed, count, &mut Nobody)
}

/// Applies these events, and tells the observer of each once it is applied. Where the observer has no memory,
/// the answer is `Memory`.
pub fn storm_observed<W: World, L: Observer>(
    alloc: Global,
    config: GameConfig,
    worlds: Vec<W>,
    seed: u64,
    count: u32,
    observer: &mut L,
) -> Result<Played<W>, GameFault>
    ensures admitted { IsAdmitted config (length worlds.items) result }
    // What is promised of `storm` is so, by the answers that the observer was told.
    ensures agreed { IfOk result (λ played. HaveAgreed W.state W.physics config.settings (length worlds.items)
        (contents played.game)) }
    ensures run { IfOk result (λ played. IsStormedObserved W.state
        (rules_in W.physics config (length worlds.items)) L.observes config.settings worlds.items seed count
        observer.old observer.new played) }
    // Each demo has the limit of the configuration.
    ensures limits { IfOk result (λ played. AreLimited config.limit (contents played.game).nodes) }
    // There is memory for no more than twice the packets that were sent, and one.
    ensures room { IfOk result (λ played. IsWithinTwice (contents played.game).flights (room_of played.game)) }
    // Where the game is refused, the observer is told of nothing.
    ensures untold { (result ≡ Err Players) ⊎ (result ≡ Err Limit) → observer.new ≡ observer.old }
{
    let game = Game::new(alloc, config, worlds)?;
    let mut played = Played::new(game);
    let mut schedule = Schedule::new(seed);
    for _ in 0..count {
        if let Some(event) = schedule.next(&played.game) {
            played.apply_observed(&event, observer)?;
        }
    }
    Ok(played)
}
