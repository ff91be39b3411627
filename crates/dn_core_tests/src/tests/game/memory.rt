//! Tests of refused memory, in games and while a script is read.

use super::{applied, config, play_list, play_storm, send, small_game, walks};
use dn_game::{Done, Event, Game, GameFault, Refusal, ScriptFault, read_script};
use dn_node::Aim;
use dn_shared_tests::{finds_no_memory, granted, holds, list, must, same};
use dn_tic::Keys;
use dn_world::Walk;
use std::process::Abort;

fn build(node: u32) -> Event {
    let keys = Keys::from_bits(0);
    Event::Build { node, keys }
}

/// Two nodes start, and each runs a tic.
fn events() -> [Event; 15] {
    list! {
        send(0, 1), Event::Deliver(0), build(1), send(1, 0), Event::Deliver(1), build(1),
        send(1, 0), Event::Deliver(2), build(0), send(0, 1), Event::Deliver(3), send(1, 0),
        Event::Deliver(4), Event::Run(0), Event::Run(1)
    }
}

fn aim(game: &Game<Walk>, number: u32, to: u8) -> Option<Aim> {
    game.node(number)?.aim(to)
}

/// How many packets a game of two has, with how many bytes, and what each node would send to the other.
fn told(game: &Game<Walk>) -> (usize, usize, Option<Aim>, Option<Aim>) {
    let (zero, one) = (aim(game, 0, 1), aim(game, 1, 0));
    (game.flights(), game.pool().len(), zero, one)
}

/// Sends a packet: it joins the others, or there is no room in one of the two lists that it grows, and
/// nothing has changed.
fn send_one(rt: &(impl Abort + Print), game: &mut Game<Walk>) {
    let before = told(game);
    match applied(game, send(0, 1)) {
        Ok(done) => same!(rt; done, Done::Sent(before.0)),
        Err(refusal) => {
            same!(rt; refusal, Refusal::Memory);
            same!(rt; told(game), before);
            finds_no_memory(rt, "Game::apply");
        }
    }
}

/// All events of a list were done or refused; where one was refused, the list is told.
fn all_counted(rt: &(impl Abort + Print), list: &str, counts: (usize, usize), wanted: usize) {
    let (done, refused) = counts;
    same!(rt; done.checked_add(refused), Some(wanted), list);
    if refused > 0 {
        finds_no_memory(rt, list);
    }
}

/// Each request for memory may be refused: then the answer says so, and there is no other.
#[test]
fn refused_memory_is_told(rt: HostRuntime) {
    let rt = &rt;
    let memory = GameFault::Memory;
    if let Ok(worlds) = walks(rt.alloc(), 2) {
        let made = Game::new(rt.alloc(), must!(rt; config(1_024)), worlds);
        if let Some(mut game) = granted!(rt; "Game::new", made, memory) {
            for _ in 0..30 {
                send_one(rt, &mut game);
            }
        }
    }
    if let Ok(worlds) = walks(rt.alloc(), 2) {
        let played = play_storm(rt.alloc(), must!(rt; config(1_024)), worlds, 1, 500);
        if let Some(played) = granted!(rt; "storm", played, memory) {
            holds!(rt; played.refused <= 1);
            all_counted(rt, "a send of storm", (played.done, played.refused), 500);
        }
    }
}

/// A send without room is left out of a list of events, with the deliveries of its packet, and counted.
#[test]
fn play_goes_on_without_a_packet(rt: HostRuntime) {
    let rt = &rt;
    let Ok(worlds) = walks(rt.alloc(), 2) else {
        return;
    };
    let played = play_list(rt.alloc(), must!(rt; config(1_024)), worlds, &events());
    if let Some(played) = granted!(rt; "play", played, GameFault::Memory) {
        all_counted(rt, "a send of play", (played.done, played.refused), 15);
        holds!(rt; played.refused > 0 || played.game.flights() == 5);
    }
}

/// A send that is left out changes nothing, takes the deliveries of its packet with it, and nothing else.
#[test]
fn only_sends_are_left_out(rt: HostRuntime) {
    let rt = &rt;
    let Some(mut game) = small_game(rt, rt.alloc()) else {
        return;
    };
    let mut left_out = false;
    for event in events() {
        let before = told(&game);
        match (event, applied(&mut game, event)) {
            (_, Ok(_)) => {}
            (Event::Send { .. }, Err(Refusal::Memory)) => {
                left_out = true;
                same!(rt; told(&game), before, event);
            }
            (Event::Deliver(_), Err(Refusal::NoPacket)) => holds!(rt; left_out, event),
            (_, Err(refusal)) => holds!(rt; false, (event, refusal)),
        }
    }
    holds!(rt; left_out || game.flights() == 5);
}

/// Both lists grow at the first send: where either may not, the answer says so, and the same send may
/// come again.
#[test]
fn the_first_send_needs_room_in_both_lists(rt: HostRuntime) {
    let rt = &rt;
    let Some(mut game) = small_game(rt, rt.alloc()) else {
        return;
    };
    let before = told(&game);
    if applied(&mut game, send(0, 1)) == Err(Refusal::Memory) {
        same!(rt; told(&game), before);
        same!(rt; applied(&mut game, send(0, 1)), Ok(Done::Sent(0)));
    }
    same!(rt; game.flights(), 1);
    same!(rt; game.pool().len(), 8);
}

/// Each request for memory may be refused: then the answer says so, and there is no other.
#[test]
fn refused_memory_is_told_of_a_script(rt: HostRuntime) {
    let rt = &rt;
    let nine = b"run 0\nrun 1\nrun 2\nrun 3\nrun 4\nrun 5\nrun 6\nrun 7\nrun 8";
    let read = read_script(rt.alloc(), nine);
    if let Some(events) = granted!(rt; "read_script", read, ScriptFault::Memory) {
        same!(rt; events.len(), 9);
    }
    match read_script(rt.alloc(), b"run 0\nrun").err() {
        Some(ScriptFault::Memory) => finds_no_memory(rt, "read_script before a bad line"),
        fault => same!(rt; fault, Some(ScriptFault::Line(2))),
    }
    // No event comes before the bad line, so no memory is asked for.
    same!(rt; read_script(rt.alloc(), b"#\nrun").err(), Some(ScriptFault::Line(2)));
}
