//! Games at tables, from the lobby on.

use crate::plays::address;
use crate::scripts::{host, joiner, read};
use crate::{Event, Step, play_table};
use dn_world::Walk;
use std::process::Abort;
use std::test::Fail;

/// What comes last first and twice harms nobody; while all of the first is lost the second runs four tics at
/// most, twice the window; then both go on until one quits.
#[test]
fn two_play_on_bad_lines(rt: HostRuntime) -> Result<(), Fail> {
    read(
        &rt,
        2,
        "lobby
         lobby
         lobby
         begin 0
         begin 1
         ticks 20
         least 0 10
         least 1 10
         late
         mark 0
         ticks 20
         least 0 10
         prompt
         lose 0 1
         mark 1
         ticks 20
         most 1 4
         heal 0 1
         mark 0
         mark 1
         ticks 20
         least 0 10
         least 1 10
         quit 0
         ticks 250
         over 0
         begins 0 1",
    )
}

/// Two who do not hear each other play on by the third: else neither could run more than four tics, twice the
/// window. In the first second it hands on their commands; later it passes on their datagrams too.
#[test]
fn a_third_hands_on(rt: HostRuntime) -> Result<(), Fail> {
    read(
        &rt,
        3,
        "lobby
         lobby
         lobby
         lobby
         begin 0
         begin 1
         begin 2
         ticks 20
         lose 0 1
         lose 1 0
         mark 0
         mark 1
         mark 2
         ticks 30
         least 0 5
         least 1 5
         ticks 200
         least 0 20
         least 1 20
         least 2 20
         with 0 1
         with 1 0",
    )
}

/// One vanishes, the others stand still until the host gives it up, its report comes to the second, and both play on
/// without it; then both quit.
#[test]
fn two_give_up_the_third(rt: HostRuntime) -> Result<(), Fail> {
    read(
        &rt,
        3,
        "lobby
         lobby
         lobby
         lobby
         begin 0
         begin 1
         begin 2
         ticks 30
         with 0 2
         vanish 2
         mark 0
         mark 1
         ticks 120
         most 0 4
         most 1 4
         with 1 2
         late
         giveup 0 2
         ticks 40
         least 0 20
         least 1 20
         without 0 2
         without 1 2
         with 0 1
         with 1 0
         prompt
         quit 0
         ticks 250
         over 0
         quit 1
         ticks 250
         over 1
         begins 0 1
         begins 2 1",
    )
}

/// An event of a player.
fn at(now: u32, player: u8, step: Step) -> Event {
    Event { player, now, step }
}

/// Who joins calls, and is refused for its cookie; with its second call it has the last seat, and both begin.
#[test]
fn events_are_played(rt: HostRuntime) -> Result<(), Fail> {
    let mut worlds = Vec::new(rt.alloc());
    worlds.push(Walk::new())?;
    worlds.push(Walk::new())?;
    let mut events = Vec::new(rt.alloc());
    for (call, reply, now) in [(0, 1, 0), (2, 3, 600)] {
        events.push(at(now, 1, Step::Poll))?;
        events.push(at(now, 1, Step::Send))?;
        let from = address(1);
        events.push(at(now, 0, Step::Hear { which: call, from }))?;
        events.push(at(now, 0, Step::Send))?;
        let from = address(0);
        events.push(at(now, 1, Step::Hear { which: reply, from }))?;
    }
    events.push(at(600, 0, Step::Begin))?;
    events.push(at(600, 1, Step::Begin))?;
    let Ok(table) = play_table(
        rt.alloc(),
        &host(2)?,
        &[joiner(1)],
        worlds,
        events.as_slice(),
    ) else {
        return Err("no table".into());
    };
    assert_eq!(&rt; table.given.len(), 4);
    for engine in &table.engines {
        assert!(&rt; engine.session.part().is_some());
    }
    Ok(())
}
