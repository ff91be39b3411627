//! Tests of refused memory in rounds.

use super::{config, no_keys, small_game, walks};
use dn_game::{Event, Game, GameConfig, GameFault, PlayOnFault, Played, RoundFault, play_on};
use dn_shared_tests::{finds_no_memory, holds, must, same};
use dn_tic::Keys;
use dn_world::Walk;
use std::alloc::Global;

fn round_is_good(game: &mut Game<Walk>, keys: [Keys; 4]) -> Result<(), RoundFault> {
    game.good_round(keys)
}

fn play_further(
    alloc: Global,
    config: GameConfig,
    worlds: Vec<Walk>,
    events: &[Event],
    keys: [Keys; 4],
    rounds: u32,
) -> Result<Played<Walk>, PlayOnFault> {
    play_on(alloc, config, worlds, events, keys, rounds)
}

fn ran(game: &Game<Walk>, number: u32) -> Option<u32> {
    Some(game.node(number)?.ran())
}

/// Where a packet finds no room, the round says so, and the next goes on from there.
#[test]
fn refused_memory_ends_a_round(rt: HostRuntime) {
    let rt = &rt;
    let Some(mut game) = small_game(rt, rt.alloc()) else {
        return;
    };
    let mut carried_out = 0_u32;
    for _ in 0..16 {
        match round_is_good(&mut game, no_keys()) {
            Ok(()) => carried_out = carried_out.saturating_add(1),
            Err(fault) => {
                same!(rt; fault, RoundFault::Memory);
                finds_no_memory(rt, "Game::good_round");
            }
        }
    }
    holds!(rt; carried_out < 15 || ran(&game, 0) > Some(0));
}

/// Where a packet of a round finds no room, playing on answers that there is no memory.
#[test]
fn refused_memory_ends_playing_on(rt: HostRuntime) {
    let rt = &rt;
    let Ok(worlds) = walks(rt.alloc(), 2) else {
        return;
    };
    let config = must!(rt; config(1_024));
    match play_further(rt.alloc(), config, worlds, &[], no_keys(), 16) {
        Ok(played) => {
            same!(rt; (played.done, played.refused), (0, 0));
            same!(rt; played.game.flights(), 32);
        }
        Err(fault) => {
            let refused = [
                PlayOnFault::Game(GameFault::Memory),
                PlayOnFault::Round(RoundFault::Memory),
            ];
            holds!(rt; refused.contains(&fault), fault);
            finds_no_memory(rt, "play_on");
        }
    }
}
