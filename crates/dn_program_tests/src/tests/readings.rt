//! What is made of the options: each value and each flag is that of its own word.

use dn_game::GameConfig;
use dn_program::matches_of;
use dn_program::options::Pace;
use dn_shared_tests::{holds, must, same};
use std::alloc::Global;
use std::process::Abort;
use std::test::Fail;

/// What each reader of the options makes of one line.
#[derive(Clone, Copy, Drop)]
struct Options {
    limit: Option<u32>,
    /// How many players, the numbers, the flags.
    game: Option<(u8, [u32; 5], [bool; 3])>,
    storm: Option<(u64, u32, u32)>,
    rounds: Option<(u64, u32, u16)>,
    me: Option<u8>,
    raw: bool,
}

/// The words of a line.
fn split(alloc: Global, line: &str) -> Result<Vec<String>, Fail> {
    let mut words = Vec::new(alloc);
    for word in line.split(' ') {
        words.push(String::from_str(alloc, word)?)?;
    }
    Ok(words)
}

/// The numbers of a choice of game.
fn numbers(config: &GameConfig) -> [u32; 5] {
    let settings = config.settings;
    [
        u32::from(settings.skill()),
        u32::from(settings.episode()),
        u32::from(settings.map()),
        u32::from(settings.deathmatch()),
        config.limit,
    ]
}

/// The flags of a choice of game.
fn flags(config: &GameConfig) -> [bool; 3] {
    [
        config.settings.respawn(),
        config.settings.no_monsters(),
        config.extra,
    ]
}

/// Reads a line by every reader. None where it has no subcommand.
fn read(alloc: Global, line: &str) -> Result<Option<Options>, Fail> {
    let words = split(alloc, line)?;
    let matches = matches_of(alloc, words.as_slice())?;
    let Some((_, given)) = matches.subcommand() else {
        return Ok(None);
    };
    let game = match dn_program::options::game(given) {
        Some((config, players)) => Some((players, numbers(&config), flags(&config))),
        None => None,
    };
    Ok(Some(Options {
        limit: dn_program::options::limit(given),
        game,
        storm: dn_program::options::storm(given),
        rounds: dn_program::options::rounds(given),
        me: dn_program::options::me(given),
        raw: dn_program::options::raw(given),
    }))
}

/// Which of a limit, a game, a storm, rounds and a player are found.
fn found(options: &Options) -> [bool; 5] {
    [
        options.limit.is_some(),
        options.game.is_some(),
        options.storm.is_some(),
        options.rounds.is_some(),
        options.me.is_some(),
    ]
}

#[test]
fn each_value_and_flag_is_that_of_its_word(rt: HostRuntime) {
    let rt = &rt;
    let defaults = [2, 1, 1, 0, 131_072];
    let none = [false; 3];
    let line = "netgame sim --players 3 --skill 4 --episode 3 --map 32 --deathmatch 1 --limit 1024";
    for (line, players, values, flags) in [
        ("netgame sim", 2, defaults, none),
        (line, 3, [4, 3, 32, 1, 1_024], none),
        ("netgame sim --respawn", 2, defaults, [true, false, false]),
        (
            "netgame storm --nomonsters",
            2,
            defaults,
            [false, true, false],
        ),
        ("netgame loop --extra", 2, defaults, [false, false, true]),
    ] {
        match must!(rt; read(rt.alloc(), line)) {
            Some(options) => same!(rt; options.game, Some((players, values, flags)), line),
            None => holds!(rt; false, line),
        }
    }
}

#[test]
fn seeds_and_counts_are_those_of_their_words(rt: HostRuntime) {
    let rt = &rt;
    let line = "netgame storm --seed 7 --count 8 --calm 9";
    match must!(rt; read(rt.alloc(), line)) {
        Some(options) => same!(rt; options.storm, Some((7, 8, 9))),
        None => holds!(rt; false),
    }
    let line = "netgame play --seed 7 --rounds 8 --base 2000 --me 3 --raw";
    match must!(rt; read(rt.alloc(), line)) {
        Some(options) => {
            same!(rt; options.rounds, Some((7, 8, 2000)));
            same!(rt; options.me, Some(3));
            holds!(rt; options.raw);
        }
        None => holds!(rt; false),
    }
}

/// The pace of a session, its rate, its port, and how many players it has.
type Session = (Option<Pace>, Option<u8>, Option<u16>, Option<u8>);

/// What the readers of a session make of a line.
fn session(alloc: Global, line: &str) -> Result<Option<Session>, Fail> {
    let words = split(alloc, line)?;
    let matches = matches_of(alloc, words.as_slice())?;
    let Some((_, given)) = matches.subcommand() else {
        return Ok(None);
    };
    Ok(Some((
        dn_program::options::pace_of(given),
        dn_program::options::rate(given),
        dn_program::options::port(given),
        dn_program::options::players(given),
    )))
}

#[test]
fn sessions_are_those_of_their_words(rt: HostRuntime) {
    let rt = &rt;
    let pace = Pace {
        seed: 7,
        seconds: 9,
    };
    let usual = Pace {
        seed: 1,
        seconds: 0,
    };
    for (line, wanted) in [
        ("netgame host", (Some(usual), Some(35), Some(5029), Some(2))),
        (
            "netgame join 127.0.0.1:5029",
            (Some(usual), None, None, None),
        ),
        (
            "netgame host --seed 7 --rate 8 --seconds 9 --port 2000 --players 4",
            (Some(pace), Some(8), Some(2000), Some(4)),
        ),
        (
            "netgame join 127.0.0.1:5029 --seed 7 --seconds 9 --port 2000 --players 3",
            (Some(pace), None, Some(2000), Some(3)),
        ),
    ] {
        same!(rt; must!(rt; session(rt.alloc(), line)), Some(wanted), line);
    }
}

#[test]
fn what_a_subcommand_has_no_options_for_is_not_found(rt: HostRuntime) {
    let rt = &rt;
    for (line, wanted) in [
        ("netgame show", [false; 5]),
        ("netgame upgrade", [true, false, false, false, false]),
        ("netgame sim", [true, true, false, false, false]),
        ("netgame storm", [true, true, true, false, false]),
        ("netgame loop", [true, true, false, true, false]),
        ("netgame play", [true, true, false, true, true]),
    ] {
        match must!(rt; read(rt.alloc(), line)) {
            Some(options) => same!(rt; found(&options), wanted, line),
            None => holds!(rt; false, line),
        }
    }
}
