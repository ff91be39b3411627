//! The words of the command line: the subcommands, and how a line of words is read by them.

ghost use Rattle.std.specs.Prelude.{◌≡◌, true, false, map, IfOk, IfErr, string_bytes};
ghost use Rattle.clap.specs.{Simple.app_of, Simple.new_app, Takes.takes, Values.kind_of, declared.builder.command.Command.TheViews.out-Command as fields_of, declared.error.kind.ErrorKind.TheVariants.OutOfMemory};
ghost use Rattle.dn_program.specs.Commands.{IsReadAs, bare, demos, games, netgame, readers, sessions, with_subcommands};

use crate::arguments::Added;
use crate::game_options::with_reader;
use crate::{game_options, net_options};
use clap::{ArgMatches, Command, Error};
use std::alloc::Global;

/// What help says of each subcommand.
const SHOW: &str = "Prints the fields of a datagram";

const DEMO: &str = "Plays a demo and prints where its players end";

const ROWS: &str = "Prints each player's move in each tic of a demo, and where its players end";

const STATS: &str = "Tells how long a demo is, and in how many tics each player did what";

const DIFF: &str = "Tells the first tic in which two demos differ";

const RECORD: &str = "Writes the demo of the lines that rows prints";

const LUMPS: &str = "Lists the demos of WADs";

const UPGRADE: &str = "Writes a demo anew, in version 111";

const SIM: &str = "Plays a script of events and prints where its nodes end";

const STORM: &str = "Plays events drawn from a seed and prints where its nodes end";

const LOOP: &str = "Plays all nodes of a game over UDP on this machine";

const PLAY: &str = "Plays one player's node over UDP on this machine";

const HOST: &str = "Waits for others over a network, and plays with them as player 0";

const JOIN: &str = "Joins a host over a network, and plays";

const KEY: &str = "Makes a key for the players of a game";

/// A subcommand, before its options.
fn sub<'a>(alloc: Global, name: &'a str, about: &'a str) -> Command<'a>
    ensures app { app_of result ≡ new_app name.entry.now }
    ensures local { (fields_of result).has_globals ≡ false }
{
    Command::new(alloc, name).about(about)
}

/// What `--version` prints behind the program's name.
const PROGRAM_VERSION: &str = "1.0.0";

/// The program's name, with no subcommand.
fn program<'a>(alloc: Global) -> Command<'a>
    ensures { app_of result ≡ bare }
{
    Command::new(alloc, "netgame")
        .about("Doom's netgame")
        .version(PROGRAM_VERSION)
        .subcommand_required(true)
}

/// Adds what reads a datagram or a demo.
fn with_readers<'a>(alloc: Global, command: Command<'a>) -> Added<'a>
    ensures { IfOk result (λ c. app_of c ≡ with_subcommands (app_of command.entry) readers) }
{
    let show = command.subcommand(with_reader(alloc, sub(alloc, "show", SHOW), "DATAGRAM")?)?;
    let demo = show.subcommand(with_reader(alloc, sub(alloc, "demo", DEMO), "DEMO")?)?;
    let rows = demo.subcommand(with_reader(alloc, sub(alloc, "rows", ROWS), "DEMO")?)?;
    rows.subcommand(game_options::with_upgrade(alloc, sub(alloc, "upgrade", UPGRADE))?)
}

/// Adds what is asked of demos.
fn with_demos<'a>(alloc: Global, command: Command<'a>) -> Added<'a>
    ensures { IfOk result (λ c. app_of c ≡ with_subcommands (app_of command.entry) demos) }
{
    let stats = command.subcommand(with_reader(alloc, sub(alloc, "stats", STATS), "DEMO")?)?;
    let lumps = stats.subcommand(game_options::with_lumps(alloc, sub(alloc, "lumps", LUMPS))?)?;
    let diff = lumps.subcommand(game_options::with_diff(alloc, sub(alloc, "diff", DIFF))?)?;
    diff.subcommand(game_options::with_record(alloc, sub(alloc, "record", RECORD))?)
}

/// Adds what plays games.
fn with_games<'a>(alloc: Global, command: Command<'a>) -> Added<'a>
    ensures { IfOk result (λ c. app_of c ≡ with_subcommands (app_of command.entry) games) }
{
    let sim = command.subcommand(game_options::with_sim(alloc, sub(alloc, "sim", SIM))?)?;
    let storm = sim.subcommand(game_options::with_storm(alloc, sub(alloc, "storm", STORM))?)?;
    let all = storm.subcommand(net_options::with_rounds(alloc, sub(alloc, "loop", LOOP))?)?;
    all.subcommand(net_options::with_player(alloc, sub(alloc, "play", PLAY))?)
}

/// Adds what plays over a network.
fn with_sessions<'a>(alloc: Global, command: Command<'a>) -> Added<'a>
    ensures { IfOk result (λ c. app_of c ≡ with_subcommands (app_of command.entry) sessions) }
{
    let host = command.subcommand(net_options::with_host(alloc, sub(alloc, "host", HOST))?)?;
    let join = host.subcommand(net_options::with_join(alloc, sub(alloc, "join", JOIN))?)?;
    join.subcommand(net_options::with_key(alloc, sub(alloc, "key", KEY))?)
}

/// The program's name, with each subcommand.
fn netgame<'a>(alloc: Global) -> Added<'a>
    ensures { IfOk result (λ c. app_of c ≡ netgame) }
{
    let readers = with_readers(alloc, program(alloc))?;
    let demos = with_demos(alloc, readers)?;
    let games = with_games(alloc, demos)?;
    with_sessions(alloc, games)
}

/// Reads the words of a command line, the program's name first: the subcommand and its options, each number
/// in its range, or clap's `Error`, which also stands for help and for the version.
pub fn matches_of<'a>(alloc: Global, words: &'a [String]) -> Result<ArgMatches<'a>, Error>
    ensures read { IfOk result (IsReadAs (map string_bytes words.entry.now)) }
    ensures passes { IfErr result (λ e. takes netgame (map string_bytes words.entry.now) ≡ true
        → kind_of e ≡ OutOfMemory) }
{
    netgame(alloc)?.try_get_matches_from(words)
}
