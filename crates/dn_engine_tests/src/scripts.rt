//! Scripts of tables: rows of text, each a word and at most two numbers, read by one reader.

use crate::plays::{Play, address};
use crate::{Done, Step, open_table};
use dn_session::{HostConfig, JoinConfig, Policy, Terms};
use dn_setup::Settings;
use dn_tic::Move;
use dn_world::Walk;
use std::process::Abort;
use std::test::Fail;

/// The secret of all.
const SECRET: Option<[u8; 32]> = Some([7; 32]);

/// The host of a game of so many, in a window of two commands.
pub fn host(players: u8) -> Result<HostConfig, Fail> {
    Ok(HostConfig {
        secret: SECRET,
        random: [3; 32],
        name: [0; 16],
        terms: Terms {
            players,
            extra: false,
            ahead: 2,
            rate: 35,
            limit: 1024,
            settings: Settings::new(2, 0, false, false, 1, 1)?,
            policy: Policy::Wait,
            identity: [0; 16],
            own: [0; 256],
        },
    })
}

/// Who joins, by the number of the player.
pub fn joiner(player: u8) -> JoinConfig {
    JoinConfig {
        secret: SECRET,
        random: [player.wrapping_add(3); 32],
        host: address(0),
        seat: None,
        players: None,
        identity: [0; 16],
        name: [0; 16],
    }
}

/// Whether a row has a move of a player.
fn has(row: Option<&[Option<Move>; 4]>, player: u8) -> bool {
    match row {
        Some(row) => row
            .get(usize::from(player))
            .is_some_and(|step| step.is_some()),
        None => false,
    }
}

/// What the network does from now on, if the word says so.
fn network(play: &mut Play, word: &str, one: u8, other: u8) -> bool {
    match word {
        "lose" | "heal" => play.lose(one, other, word == "lose"),
        "late" | "prompt" => play.late = word == "late",
        "vanish" => play.vanish(one),
        "mark" => play.mark(one),
        _ => return false,
    }
    true
}

/// Whether an engine did what the word says, if it is something to do.
fn deed(
    rt: &HostRuntime,
    play: &mut Play,
    word: &str,
    one: u8,
    other: u8,
) -> Result<Option<bool>, Fail> {
    Ok(Some(match word {
        "lobby" => {
            play.meet(rt)?;
            true
        }
        "ticks" => {
            for _ in 0..one {
                play.tick(rt)?;
            }
            true
        }
        "begin" => matches!(play.act(rt, one, &Step::Begin)?, Done::Begun(true)),
        "giveup" => matches!(
            play.act(rt, one, &Step::GiveUp(other))?,
            Done::GivenUp(true)
        ),
        "quit" => matches!(play.act(rt, one, &Step::Quit)?, Done::Done),
        _ => return Ok(None),
    }))
}

/// Whether it is so what the word says: of the rows since the mark, at least or at most so many; of all rows of an
/// engine, that these begin the other's; of the last row, that it has a player; or of a session, that it is over.
fn fact(play: &Play, word: &str, one: u8, other: u8) -> Result<bool, Fail> {
    let told = play.told(one);
    let more = play.more(one);
    match word {
        "least" => Ok(more >= usize::from(other)),
        "most" => Ok(more <= usize::from(other)),
        "begins" => Ok(play.told(other).starts_with(told)),
        "with" => Ok(has(told.last(), other)),
        "without" => Ok(!told.is_empty() && !has(told.last(), other)),
        "over" => Ok(play.is_over(one)),
        _ => Err("no such word".into()),
    }
}

/// A world for each of so many players, and the configurations of those who join.
fn seats(rt: &HostRuntime, players: u8) -> Result<(Vec<Walk>, Vec<JoinConfig>), Fail> {
    let mut worlds = Vec::new(rt.alloc());
    let mut joiners = Vec::new(rt.alloc());
    for player in 0..players {
        worlds.push(Walk::new())?;
        if player > 0 {
            joiners.push(joiner(player))?;
        }
    }
    Ok((worlds, joiners))
}

/// A small number.
fn number(word: Option<&str>) -> u8 {
    match word {
        Some(word) => word.parse::<u8>().unwrap_or(0),
        None => 0,
    }
}

/// Whether a row of a script is so.
fn is_so(rt: &HostRuntime, play: &mut Play, line: &str) -> Result<bool, Fail> {
    let mut words = line.split_whitespace();
    let Some(word) = words.next() else {
        return Ok(true);
    };
    let one = number(words.next());
    let other = number(words.next());
    if network(play, word, one, other) {
        return Ok(true);
    }
    match deed(rt, play, word, one, other)? {
        Some(done) => Ok(done),
        None => fact(play, word, one, other),
    }
}

/// Plays a script of so many players.
pub fn read(rt: &HostRuntime, players: u8, script: &str) -> Result<(), Fail> {
    let (worlds, joiners) = seats(rt, players)?;
    let host = host(players)?;
    let Ok(table) = open_table(rt.alloc(), &host, joiners.as_slice(), worlds, 0) else {
        return Err("no table".into());
    };
    let mut play = Play::new(rt, table, players);
    for line in script.lines() {
        if !is_so(rt, &mut play, line)? {
            let _ = println!(rt; "{}", line);
            return Err("a row is not so".into());
        }
    }
    Ok(())
}
