//! Tests of games.

ghost use Rattle.std.specs.Prelude.{ℕ, Bool, List, [], ◌∷◌, ◌++◌, length, IfOk, Result as Outcome};
ghost use Rattle.dn_setup.specs.Settings.{Settings as Choice};
ghost use Rattle.dn_machine.specs.{declared.events.Done.Done as Made, declared.events.Event.Event as AnyEvent, declared.events.Refusal.Refusal as Why, Promise.Agree, Worlds.rules_of};
ghost use Rattle.dn_game.specs.{Contents.contents, Opening.rules_in, Played.IsReachedWith, Promised.IsReached, Shown.ShowsRun};

mod calls;
mod memory;
mod rounds;

use dn_game::{
    Done, Event, Game, GameConfig, GameFault, Played, Refusal, play, runs_have_answers, storm,
};
use dn_machine::every_list_keeps;
use dn_setup::{Settings, SettingsFault};
use dn_shared_tests::must;
use dn_tic::Keys;
use dn_world::{Walk, World};
use std::alloc::{AllocError, Global};
use std::process::Abort;

/// Applies an event. Whatever events led to the game, they and this one lead to the next, and each has an answer.
fn applied<W: World>(game: &mut Game<W>, event: Event) -> Result<Done, Refusal>
    ensures { (players : ℕ) (extra : Bool) (capacity : ℕ) (settings : Choice) (events : List AnyEvent)
        → IsReached W.state (rules_of W.physics players extra capacity) settings events (contents game.old)
        → (answers : List (Outcome Made Why))
        × IsReachedWith W.state (rules_of W.physics players extra capacity) settings (events ++ event ∷ []) answers
        (contents game.new) }
{
    runs_have_answers::<W>();
    game.apply(event)
}

/// Plays the events. `play` says of which game of the machine the game that is left shows, and that the events lead
/// there; so all that is promised of a run holds of it.
fn play_list<W: World>(
    alloc: Global,
    config: GameConfig,
    worlds: Vec<W>,
    events: &[Event],
) -> Result<Played<W>, GameFault>
    ensures { IfOk result (λ played. (run : ShowsRun W.state (rules_in W.physics config (length worlds.items))
        config.settings config.limit worlds.items events.now (contents played.game) played.done played.refused)
        × Agree (rules_in W.physics config (length worlds.items)) config.settings run.last) }
{
    runs_have_answers::<W>();
    every_list_keeps::<W>();
    play(alloc, config, worlds, events)
}

/// Plays a schedule. This call has no contract: a test that calls `storm` itself has all that it promises in its own
/// proof, which takes seconds.
fn play_storm<W: World>(
    alloc: Global,
    config: GameConfig,
    worlds: Vec<W>,
    seed: u64,
    count: u32,
) -> Result<Played<W>, GameFault> {
    storm(alloc, config, worlds, seed, count)
}

/// A game of skill 2 on the first map, with this many bytes for each demo.
fn config(limit: u32) -> Result<GameConfig, SettingsFault> {
    let settings = Settings::new(2, 0, false, false, 1, 1)?;
    Ok(GameConfig {
        settings,
        extra: false,
        limit,
    })
}

fn walks(alloc: Global, count: usize) -> Result<Vec<Walk>, AllocError> {
    let mut worlds = Vec::with_capacity(alloc, count)?;
    for _ in 0..count {
        worlds.push(Walk::new())?;
    }
    Ok(worlds)
}

/// A game of two with little room for demos, if there is memory for it.
fn small_game(rt: &impl Abort, alloc: Global) -> Option<Game<Walk>> {
    let worlds = walks(alloc, 2).ok()?;
    Game::new(alloc, must!(rt; config(1_024)), worlds).ok()
}

fn no_keys() -> [Keys; 4] {
    let none = Keys::from_bits(0);
    [none, none, none, none]
}

fn send(node: u32, to: u32) -> Event {
    Event::Send { node, to }
}
