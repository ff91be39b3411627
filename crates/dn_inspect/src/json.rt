//! What is told of a demo or of a lump as JSON: an object on a line.

use crate::tally::{Counts, Tally};
use crate::wad::Lump;
use dn_demo::Demo;
use serde_json::{Value, json};
use std::alloc::{AllocError, Global};

/// What a player did.
fn player_of(alloc: Global, player: u8, counts: Counts) -> Result<Value, AllocError> {
    json!(in alloc; {
        "player": player,
        "tics": counts.tics,
        "turns": counts.turns,
        "fine": counts.fine,
        "attack": counts.attack,
        "use": counts.used,
        "weapons": counts.weapons,
        "sr40": counts.sr40,
        "sr50": counts.sr50
    })
}

/// What the players who are present did.
fn players_of(alloc: Global, demo: &Demo) -> Result<Value, AllocError> {
    let tally = Tally::of(demo);
    let present = demo.present();
    let mut players = Vec::new(alloc);
    for player in 0..4_u8 {
        if present[usize::from(player)] {
            players.push(player_of(alloc, player, tally.counts(player))?)?;
        }
    }
    Ok(Value::Array(players))
}

/// The object of a demo, which has no line end: what its header has, its tics and time, and what its players did.
pub fn json_of_stats(alloc: Global, file: &str, demo: &Demo) -> Result<String, AllocError> {
    let players = players_of(alloc, demo)?;
    let start = demo.start();
    let value = json!(in alloc; {
        "file": file,
        "version": demo.version(),
        "skill": start.skill,
        "episode": start.episode,
        "map": start.map,
        "deathmatch": start.deathmatch,
        "respawn": start.respawn,
        "fast": start.fast,
        "nomonsters": start.no_monsters,
        "view": demo.view(),
        "tics": demo.tics() as u64,
        "cut": demo.cut() as u64,
        "after": demo.after() as u64,
        "players": players
    })?;
    value.to_string(alloc)
}

/// The object of a lump, which has no line end; what it is is null if that is not known.
pub fn json_of_lump(
    alloc: Global,
    file: &str,
    lump: &Lump,
    format: Option<&str>,
) -> Result<String, AllocError> {
    let name = str::from_utf8(lump.name()).unwrap_or("?");
    let format = match format {
        Some(format) => Value::String(String::from_str(alloc, format)?),
        None => Value::Null,
    };
    let value = json!(in alloc; {
        "file": file,
        "lump": name,
        "place": lump.place,
        "size": lump.size,
        "is": format
    })?;
    value.to_string(alloc)
}
