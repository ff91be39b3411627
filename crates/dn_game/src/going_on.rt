//! A game goes on once its packets arrive.

ghost use Rattle.std.specs.Prelude.{◌≡◌, ◌≤◌, ◌+◌, ℕ, Bool, List, length, Result, Err, IfOk};
ghost use Rattle.dn_tic.specs.{declared.input.Input.Input, Inputs.input_of};
ghost use Rattle.dn_setup.specs.Settings.{Settings};
ghost use Rattle.dn_machine.specs.{declared.events.Done.Done, declared.events.Event.Event, declared.events.Refusal.Refusal, Progress.good_rounds, Worlds.rules_of};
ghost use Rattle.dn_game.specs.{Contents.Contents, Contents.contents, Opening.AreLimited, GoingOn.NoneLost, GoingOn.AllRan, GoingOn.HasRoom, GoingOn.GoesOn, GoingOn.HasGoneOn, GoingOn.HasPlayedOn};
ghost use Rattle.dn_game.specs.{GoingOn.HasBrokenOff, Opening.IsAdmittedOn, Opening.rules_in, Played.IsReachedWith, Pool.IsWithinTwice, Promised.IsReached};
ghost use Rattle.dn_game.specs.{Contents.Represents, Room.room_of, Rounds.pressed_by, declared.going_on.PlayOnFault.TheVariants.Round, declared.rounds.RoundFault.RoundFault};

use crate::config::{GameConfig, GameFault};
use crate::observing::Nobody;
use crate::played::Played;
use crate::playing::play_observed;
use crate::rounds::{RoundFault, pressed};
use dn_machine::Event;
use dn_tic::{Input, Keys};
use dn_world::World;
use std::alloc::Global;
use thiserror::Error;

/// Why a game was not played on.
#[derive(Clone, Copy, Debug, PartialEq, Eq, Error)]
pub enum PlayOnFault {
    /// There is no game.
    #[error("{0}")]
    Game(GameFault),
    /// A round stopped.
    #[error("{0}")]
    Round(RoundFault),
}

/// Whatever events a game has met: if no node was lost, fourteen good rounds raise the least number of tics
/// that any node which has not ended has run, and every thirteen further rounds raise it again, as long as
/// there is room for five tics more than that.
pub fn reached_games_go_on<W: World>()
    ensures fourteen { (players : ℕ) (extra : Bool) (capacity : ℕ) (settings : Settings) (events : List Event)
        (g later : Contents W)
        → (reached : IsReached W.state (rules_of W.physics players extra capacity) settings events g)
        → 2 ≤ players → (inputs : ℕ → ℕ → Input)
        → Represents W.state (rules_of W.physics players extra capacity) later
        (good_rounds (rules_of W.physics players extra capacity) inputs 14 reached.last)
        → NoneLost g → (tics : ℕ) → HasRoom capacity g tics (tics + 6) → AllRan g g tics
        → AllRan g later (tics + 1) }
    ensures goes_on { (players : ℕ) (extra : Bool) (capacity : ℕ) (settings : Settings) (events : List Event)
        (g later : Contents W)
        → (reached : IsReached W.state (rules_of W.physics players extra capacity) settings events g)
        → 2 ≤ players → (inputs : ℕ → ℕ → Input) (rounds : ℕ)
        → Represents W.state (rules_of W.physics players extra capacity) later
        (good_rounds (rules_of W.physics players extra capacity) inputs rounds reached.last)
        → GoesOn capacity rounds g later }
    // Where the answers are known, so are the events of the rounds, and what is promised of the game after
    // them. So a caller of `play` looks at the game that it left, plays good rounds, and has all that is
    // promised of playing on.
    ensures gone_on { (players : ℕ) (extra : Bool) (capacity : ℕ) (settings : Settings) (events : List Event)
        (answers : List (Result Done Refusal)) (g later : Contents W)
        → (reached : IsReachedWith W.state (rules_of W.physics players extra capacity) settings events answers
        g)
        → 2 ≤ players → (inputs : ℕ → ℕ → Input) (rounds : ℕ)
        → Represents W.state (rules_of W.physics players extra capacity) later
        (good_rounds (rules_of W.physics players extra capacity) inputs rounds reached.last)
        → HasGoneOn W.state (rules_of W.physics players extra capacity) settings events answers reached.last
        inputs rounds g later }
{}

/// Plays the events, then `rounds` rounds in which every packet arrives, with the same inputs in each. `done`
/// and `refused` do not count the rounds.
///
/// How far the rounds bring the nodes depends on the game before them, which is not returned. Whoever has to
/// look at that one, for nodes that are lost, tics and room, calls `play_observed` with `Nobody`, and then
/// `Game::good_rounds_with` on the game that it left: `reached_games_go_on` promises the same of that (`gone_on`).
pub fn play_on_with<W: World>(
    alloc: Global,
    config: GameConfig,
    worlds: Vec<W>,
    events: &[Event],
    inputs: &[Input; 4],
    rounds: u32,
) -> Result<Played<W>, PlayOnFault>
    ensures admitted { IsAdmittedOn config (length worlds.items) result }
    // The game before the rounds is a run, as `play_observed` says; no losses among the events can make the nodes
    // wait for good; and what is promised of a run is so after the rounds, since they are events like any other.
    ensures promised { IfOk result (λ played. HasPlayedOn W.state
        (rules_in W.physics config (length worlds.items)) config.settings worlds.items events.now
        (input_of inputs.now) rounds played) }
    // Where a round stops, the events before some send of the rounds were applied. Of `Memory` nothing more is
    // said here, since the game is given up: that there was no room is a clause of the rounds.
    ensures stopped { (fault : RoundFault) → result ≡ Err (Round fault) → HasBrokenOff W.state
        (rules_in W.physics config (length worlds.items)) config.settings events.now (input_of inputs.now) rounds
        fault }
    // Each demo has the limit of the configuration.
    ensures limits { IfOk result (λ played. AreLimited config.limit (contents played.game).nodes) }
    // There is memory for no more than twice the packets that were sent, and one.
    ensures room { IfOk result (λ played. IsWithinTwice (contents played.game).flights (room_of played.game)) }
{
    let mut played = match play_observed(alloc, config, worlds, events, &mut Nobody) {
        Ok(played) => played,
        Err(fault) => return Err(PlayOnFault::Game(fault)),
    };
    match played.game.good_rounds_with(inputs, rounds) {
        Ok(()) => Ok(played),
        Err(fault) => Err(PlayOnFault::Round(fault)),
    }
}

/// Plays the events, then such rounds, with the same keys in each.
pub fn play_on<W: World>(
    alloc: Global,
    config: GameConfig,
    worlds: Vec<W>,
    events: &[Event],
    keys: [Keys; 4],
    rounds: u32,
) -> Result<Played<W>, PlayOnFault>
    ensures admitted { IsAdmittedOn config (length worlds.items) result }
    ensures promised { IfOk result (λ played. HasPlayedOn W.state
        (rules_in W.physics config (length worlds.items)) config.settings worlds.items events.now
        (pressed_by keys) rounds played) }
    ensures stopped { (fault : RoundFault) → result ≡ Err (Round fault) → HasBrokenOff W.state
        (rules_in W.physics config (length worlds.items)) config.settings events.now (pressed_by keys) rounds
        fault }
    // Each demo has the limit of the configuration.
    ensures limits { IfOk result (λ played. AreLimited config.limit (contents played.game).nodes) }
    // There is memory for no more than twice the packets that were sent, and one.
    ensures room { IfOk result (λ played. IsWithinTwice (contents played.game).flights (room_of played.game)) }
{
    play_on_with(alloc, config, worlds, events, &pressed(keys), rounds)
}
