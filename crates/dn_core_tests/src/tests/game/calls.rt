//! Calls that nothing else makes of a walk or of a belt.

use super::super::input_of;
use super::{applied, config, no_keys, play_list, play_storm, send, small_game, walks};
use dn_game::{Event, Schedule, play_on_with};
use dn_shared_tests::{holds, must, same};
use dn_world::Belt;
use std::alloc::{AllocError, Global};

/// Player 1 builds from the first round on, and player 0 from the second.
#[test]
fn rounds_are_played(rt: HostRuntime) {
    let rt = &rt;
    let mut game = must!(rt; small_game(rt, rt.alloc()).ok_or("no game"));
    same!(rt; game.good_rounds(no_keys(), 1), Ok(()));
    let inputs = [0, 1, 2, 3].map(input_of);
    same!(rt; game.good_round_with(&inputs), Ok(()));
    same!(rt; game.good_rounds_with(&inputs, 2), Ok(()));
    same!(rt; game.node(1).map(|node| node.ran()), Some(3));
    same!(rt; game.stopped(1), false);
    same!(rt; game.flight(0).map(|flight| flight.to), Some(1));
    let worlds = must!(rt; walks(rt.alloc(), 2));
    let config = must!(rt; config(1_024));
    let on = must!(rt; play_on_with(rt.alloc(), config, worlds, &[], &inputs, 4));
    same!(rt; (on.done, on.refused), (0, 0));
}

#[test]
fn schedules_give_events(rt: HostRuntime) {
    let rt = &rt;
    let mut game = must!(rt; small_game(rt, rt.alloc()).ok_or("no game"));
    let mut schedule = Schedule::new(42);
    same!(rt; schedule.next(&game), Some(send(1, 0)));
    holds!(rt; applied(&mut game, Event::Stop(0)).is_ok());
    holds!(rt; applied(&mut game, Event::Stop(1)).is_ok());
    same!(rt; schedule.next(&game), None);
}

/// Makes two belts.
fn belts(alloc: Global) -> Result<Vec<Belt>, AllocError> {
    let mut worlds = Vec::with_capacity(alloc, 2)?;
    for _ in 0..2 {
        worlds.push(Belt::new(alloc)?)?;
    }
    Ok(worlds)
}

/// Player 1 starts.
fn start() -> [Event; 2] {
    [send(0, 1), Event::Deliver(0)]
}

/// Worlds that own memory are played and stormed.
#[test]
fn belts_are_played(rt: HostRuntime) {
    let rt = &rt;
    let worlds = must!(rt; belts(rt.alloc()));
    let played = must!(rt; play_list(rt.alloc(), must!(rt; config(131_072)), worlds, &start()));
    same!(rt; (played.done, played.refused), (2, 0));
    let worlds = must!(rt; belts(rt.alloc()));
    let played = must!(rt; play_storm(rt.alloc(), must!(rt; config(131_072)), worlds, 1, 5_000));
    same!(rt; (played.done, played.refused), (5_000, 0));
}
