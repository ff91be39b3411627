//! The options of a game, and of what is played from a script or a seed.

ghost use Rattle.std.specs.Prelude.{IfOk, [], ◌∷◌};
ghost use Rattle.dn_program.specs.{Arguments.HasMore, Commands.choice_rules, Commands.diff_rules, Commands.flag_rules, Commands.game_rules, Commands.json_rule, Commands.limit_rule, Commands.lumps_rules, Commands.path_rules, Commands.script_rule, Commands.seed_rule};
ghost use Rattle.dn_program.specs.{Commands.short_limit, Commands.sim_rules, Commands.reader_rules, Commands.storm_rules, Commands.trace_rule, Commands.upgrade_rules};

use crate::arguments::{
    Added, switch, with, with_files, with_flag, with_number, with_path, with_wads, with_word,
};
use clap::Command;
use std::alloc::Global;

/// Adds the option that seeds a generator.
pub(crate) fn with_seed<'a>(alloc: Global, command: Command<'a>, about: &'a str) -> Added<'a>
    ensures { IfOk result (HasMore command.entry (seed_rule ∷ [])) }
{
    with_number(alloc, command, "seed", 0, 4_294_967_295, "1", about)
}

/// Adds the option that limits a demo.
fn with_limit<'a>(alloc: Global, command: Command<'a>, default: &'a str) -> Added<'a>
    ensures { IfOk result (HasMore command.entry (limit_rule default.entry.now ∷ [])) }
{
    let about = "Most bytes of a demo, 1024 to 16777216";
    with_number(alloc, command, "limit", 1024, 16_777_216, default, about)
}

/// Adds the file that is read and the file that is made, by what help says of them.
fn with_paths<'a>(alloc: Global, command: Command<'a>, input: &'a str, output: &'a str) -> Added<'a>
    ensures { IfOk result (HasMore command.entry path_rules) }
{
    let from = with_path(alloc, command, "in", "IN", input)?;
    with_path(alloc, from, "out", "OUT", output)
}

/// Adds the files of a recording.
pub(crate) fn with_record<'a>(alloc: Global, command: Command<'a>) -> Added<'a>
    ensures { IfOk result (HasMore command.entry path_rules) }
{
    let input = "The rows; standard input, if not given";
    let output = "The file that is made for the demo; standard output, if not given";
    with_paths(alloc, command, input, output)
}

/// Adds the flag that asks for objects in place of lines.
fn with_json<'a>(alloc: Global, command: Command<'a>) -> Added<'a>
    ensures { IfOk result (HasMore command.entry (json_rule ∷ [])) }
{
    with_flag(alloc, command, "json", "Prints a JSON object a line")
}

/// Adds the files of which lines or objects are told, by what help calls each.
pub(crate) fn with_reader<'a>(alloc: Global, command: Command<'a>, value: &'a str) -> Added<'a>
    ensures { IfOk result (HasMore command.entry reader_rules) }
{
    with_files(alloc, with_json(alloc, command)?, value)
}

/// Adds the WADs whose demos are listed.
pub(crate) fn with_lumps<'a>(alloc: Global, command: Command<'a>) -> Added<'a>
    ensures { IfOk result (HasMore command.entry lumps_rules) }
{
    with_wads(alloc, with_json(alloc, command)?)
}

/// Adds the two demos of a comparison.
pub(crate) fn with_diff<'a>(alloc: Global, command: Command<'a>) -> Added<'a>
    ensures { IfOk result (HasMore command.entry diff_rules) }
{
    let one = with_word(alloc, command, "one", "ONE", "A demo")?;
    with_word(
        alloc,
        one,
        "other",
        "OTHER",
        "The demo that it is compared with",
    )
}

/// Adds the options of an upgrade.
pub(crate) fn with_upgrade<'a>(alloc: Global, command: Command<'a>) -> Added<'a>
    ensures { IfOk result (HasMore command.entry upgrade_rules) }
{
    let limit = with_limit(alloc, command, "16777216")?;
    let input = "The demo; standard input, if not given";
    let output = "The file that is made for the new demo; standard output, if not given";
    with_paths(alloc, limit, input, output)
}

/// Adds the options of a game that are numbers, but for the limit.
fn with_choice<'a>(alloc: Global, command: Command<'a>) -> Added<'a>
    ensures { IfOk result (HasMore command.entry choice_rules) }
{
    let about = "How many players there are, 2 to 4";
    let players = with_number(alloc, command, "players", 2, 4, "2", about)?;
    let about = "How hard it is, 0 to 4, from the easiest";
    let skill = with_number(alloc, players, "skill", 0, 4, "2", about)?;
    let about = "Which episode is played, 1 to 3";
    let episode = with_number(alloc, skill, "episode", 1, 3, "1", about)?;
    let about = "Which map is played, 1 to 32";
    let map = with_number(alloc, episode, "map", 1, 32, "1", about)?;
    let about = "Which deathmatch, 0 to 2; 0 for none";
    with_number(alloc, map, "deathmatch", 0, 2, "0", about)
}

/// Adds the options of a game that are flags.
fn with_flags<'a>(alloc: Global, command: Command<'a>) -> Added<'a>
    ensures { IfOk result (HasMore command.entry flag_rules) }
{
    let respawn = with_flag(alloc, command, "respawn", "Monsters come back")?;
    let about = "There are no monsters";
    let no_monsters = with_flag(alloc, respawn, "nomonsters", about)?;
    let about = "Each packet repeats the last command";
    with_flag(alloc, no_monsters, "extra", about)
}

/// Adds the options of a game whose demo has at most so many bytes by default.
pub(crate) fn with_long_game<'a>(alloc: Global, command: Command<'a>, limit: &'a str) -> Added<'a>
    ensures { IfOk result (HasMore command.entry (game_rules limit.entry.now)) }
{
    let choice = with_choice(alloc, command)?;
    let limited = with_limit(alloc, choice, limit)?;
    with_flags(alloc, limited)
}

/// Adds the options of a game.
pub(crate) fn with_game<'a>(alloc: Global, command: Command<'a>) -> Added<'a>
    ensures { IfOk result (HasMore command.entry (game_rules short_limit)) }
{
    with_long_game(alloc, command, "131072")
}

/// Adds the flag that tells each event.
fn with_trace<'a>(alloc: Global, command: Command<'a>) -> Added<'a>
    ensures { IfOk result (HasMore command.entry (trace_rule ∷ [])) }
{
    let about = "Prints a line for each event first";
    with_flag(alloc, command, "trace", about)
}

/// Adds the flag that asks for the script of a storm. It excludes `--trace` and `--calm`: a script has no place
/// for the lines of a trace, and rounds are no events.
fn with_script<'a>(alloc: Global, command: Command<'a>) -> Added<'a>
    ensures { IfOk result (HasMore command.entry (script_rule ∷ [])) }
{
    let about = "Prints the events as a script and nothing else";
    let script = switch(alloc, "script", about);
    with(
        command,
        script.conflicts_with("trace")?.conflicts_with("calm")?,
    )
}

/// Adds the options of a script's game.
pub(crate) fn with_sim<'a>(alloc: Global, command: Command<'a>) -> Added<'a>
    ensures { IfOk result (HasMore command.entry sim_rules) }
{
    let game = with_game(alloc, command)?;
    let trace = with_trace(alloc, game)?;
    with_files(alloc, trace, "SCRIPT")
}

/// Adds the options of a storm, a game's among them.
pub(crate) fn with_storm<'a>(alloc: Global, command: Command<'a>) -> Added<'a>
    ensures { IfOk result (HasMore command.entry storm_rules) }
{
    let game = with_game(alloc, command)?;
    let seed = with_seed(
        alloc,
        game,
        "What the events are drawn from, 0 to 4294967295",
    )?;
    let about = "How many events there are, 1 to 1000000";
    let count = with_number(alloc, seed, "count", 1, 1_000_000, "1000", about)?;
    let about = "How many rounds without losses come after the events, 0 to 1000";
    let calm = with_number(alloc, count, "calm", 0, 1_000, "0", about)?;
    let trace = with_trace(alloc, calm)?;
    with_script(alloc, trace)
}
