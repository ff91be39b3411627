//! What each subcommand runs, and the exit status.

use crate::command_line::Terminals;
use crate::demos::{run_record, run_stats};
use crate::differing::run_diff;
use crate::ends::MISUSED;
use crate::inputs::run_reader;
use crate::network::{run_host, run_join};
use crate::readers::{Reader, Status};
use crate::secrets::run_key;
use crate::upgrades::run_upgrading;
use crate::wads::run_lumps;
use clap::ArgMatches;
use dn_game::Nobody;
use dn_netgame::{RunFault, Script, Storm, Trace, run_loop, run_play, tell_storm};
use dn_node::Config;
use std::io;
use std::net::Net;
use std::random::RandomSource;
use std::rt::Files;
use std::time::Clock;

/// Runs `storm`, and answers the exit status.
fn run_schedule(rt: &(impl Print + AllocGlobal), matches: &ArgMatches<'_>) -> Status {
    let Some((config, players)) = crate::options::game(matches) else {
        return Ok(MISUSED);
    };
    let Some((seed, count, calm)) = crate::options::storm(matches) else {
        return Ok(MISUSED);
    };
    let mut output = io::writer(rt);
    let as_script = crate::options::script(matches);
    let calm = if as_script { None } else { Some(calm) };
    let storm = Storm { seed, count, calm };
    if as_script {
        tell_storm::<Script, _>(rt.alloc(), config, players, storm, &mut output)
    } else if crate::options::trace(matches) {
        tell_storm::<Trace, _>(rt.alloc(), config, players, storm, &mut output)
    } else {
        tell_storm::<Nobody, _>(rt.alloc(), config, players, storm, &mut output)
    }
}

/// Runs `loop`, and answers the exit status.
fn run_all(rt: &(impl Net + Print + AllocGlobal), matches: &ArgMatches<'_>) -> Status {
    let Some((config, players)) = crate::options::game(matches) else {
        return Ok(MISUSED);
    };
    let Some((seed, count, base)) = crate::options::rounds(matches) else {
        return Ok(MISUSED);
    };
    let mut output = io::writer(rt);
    run_loop(
        rt,
        rt.alloc(),
        config,
        players,
        base,
        seed,
        count,
        &mut output,
    )
}

/// Runs `play`, and answers the exit status. The choice of game is player 0's.
fn run_one(rt: &(impl Net + Print + AllocGlobal), matches: &ArgMatches<'_>) -> Status {
    let (Some((game, players)), Some((seed, count, base)), Some(me)) = (
        crate::options::game(matches),
        crate::options::rounds(matches),
        crate::options::me(matches),
    ) else {
        return Ok(MISUSED);
    };
    if me >= players {
        if rt.println("me out of range").is_err() {
            return Err(RunFault::Write);
        }
        return Ok(MISUSED);
    }
    let config = Config {
        players,
        me,
        extra: game.extra,
        limit: game.limit,
        settings: if me == 0 { Some(game.settings) } else { None },
    };
    let raw = crate::options::raw(matches);
    let mut output = io::writer(rt);
    run_play(rt, rt.alloc(), config, base, seed, count, raw, &mut output)
}

/// Runs the subcommand, and answers the exit status.
pub(crate) fn run<
    R: Input + Print + Eprint + AllocGlobal + Net + Files + RandomSource + Clock + Drop,
>(rt: &R, terminals: Terminals, matches: &ArgMatches<'_>) -> Status {
    let Terminals { input, errors } = terminals;
    match matches.subcommand() {
        Some(("show", given)) => run_reader(rt, input, Reader::Show, given),
        Some(("demo", given)) => run_reader(rt, input, Reader::Demo, given),
        Some(("rows", given)) => run_reader(rt, input, Reader::Rows, given),
        Some(("stats", given)) => run_stats(rt, input, given),
        Some(("diff", given)) => run_diff(rt, given),
        Some(("record", given)) => run_record(rt, input, given),
        Some(("lumps", given)) => run_lumps(rt, given),
        Some(("upgrade", given)) => run_upgrading(rt, input, given),
        Some(("sim", given)) => run_reader(rt, input, Reader::Sim, given),
        Some(("storm", given)) => run_schedule(rt, given),
        Some(("loop", given)) => run_all(rt, given),
        Some(("play", given)) => run_one(rt, given),
        Some(("host", given)) => run_host(rt, errors, given),
        Some(("join", given)) => run_join(rt, errors, given),
        Some(("key", given)) => run_key(rt, given),
        _ => Ok(MISUSED),
    }
}
