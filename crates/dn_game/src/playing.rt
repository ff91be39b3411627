//! Playing a list of events: what the whole project promises.

ghost use Rattle.std.specs.Prelude.{◌≡◌, ◌⊎◌, length, Err, IfOk};
ghost use Rattle.dn_game.specs.{Contents.contents, Opening.AreLimited, Opening.IsAdmitted, Opening.rules_in, Headline.HaveAgreed, Observed.IsPlayedObserved, Shown.ShowsRun, Pool.IsWithinTwice};
ghost use Rattle.dn_game.specs.{Room.room_of, declared.config.GameFault.TheVariants.Players, declared.config.GameFault.TheVariants.Limit};

use crate::config::{GameConfig, GameFault};
use crate::game::Game;
use crate::observing::{Nobody, Observer};
use crate::played::Played;
use dn_machine::Event;
use dn_world::World;
use std::alloc::Global;

/// Applies all events in order, to a new game. Packets may be lost, repeated and reordered: a loss is a
/// flight that no event delivers. Whatever the list, all nodes agree in the end: two that ran a tic used
/// the same command of every player, or none of one who had left.
pub fn play<W: World>(
    alloc: Global,
    config: GameConfig,
    worlds: Vec<W>,
    events: &[Event],
) -> Result<Played<W>, GameFault>
    ensures admitted { IsAdmitted config (length worlds.items) result }
    // The headline. In the game that is left any two nodes that ran a tic used the same command of every player,
    // no ring overwrote an unread command, no consistency check failed, and of any two demos one's commands are a
    // prefix of the other's.
    ensures agreed { IfOk result (λ played. HaveAgreed W.state W.physics config.settings (length worlds.items)
        (contents played.game)) }
    // The game is a run of the machine: each event is applied as the machine applies it, but for sends that are
    // left out since memory was refused, and each is counted by its answer.
    // Who goes on with the game that is left under the laws of its calls plays it by `play_observed`.
    ensures run { IfOk result (λ played. ShowsRun W.state
        (rules_in W.physics config (length worlds.items)) config.settings config.limit worlds.items events.now
        (contents played.game) played.done played.refused) }
    // There is memory for no more than twice the packets that were sent, and one.
    ensures room { IfOk result (λ played. IsWithinTwice (contents played.game).flights (room_of played.game)) }
{
    play_observed(alloc, config, worlds, events, &mut Nobody)
}

/// Plays the events, and tells the observer of each once it is applied. Where the observer has no memory,
/// the answer is `Memory`.
pub fn play_observed<W: World, L: Observer>(
    alloc: Global,
    config: GameConfig,
    worlds: Vec<W>,
    events: &[Event],
    observer: &mut L,
) -> Result<Played<W>, GameFault>
    ensures admitted { IsAdmitted config (length worlds.items) result }
    // What is promised of `play` is so, by the answers that the observer was told.
    ensures agreed { IfOk result (λ played. HaveAgreed W.state W.physics config.settings (length worlds.items)
        (contents played.game)) }
    ensures run { IfOk result (λ played. IsPlayedObserved W.state
        (rules_in W.physics config (length worlds.items)) L.observes config.settings worlds.items events.now
        observer.old observer.new played) }
    // Each demo has the limit of the configuration.
    ensures limits { IfOk result (λ played. AreLimited config.limit (contents played.game).nodes) }
    // There is memory for no more than twice the packets that were sent, and one.
    ensures room { IfOk result (λ played. IsWithinTwice (contents played.game).flights (room_of played.game)) }
    // Where the game is refused, the observer is told of nothing.
    ensures untold { (result ≡ Err Players) ⊎ (result ≡ Err Limit) → observer.new ≡ observer.old }
{
    let game = Game::new(alloc, config, worlds)?;
    let mut played = Played::new(game);
    for event in events {
        played.apply_observed(event, observer)?;
    }
    Ok(played)
}
