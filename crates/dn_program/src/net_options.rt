//! The options of what is played over sockets.

ghost use Rattle.std.specs.Prelude.{IfOk, codes, [], ◌∷◌};
ghost use Rattle.dn_program.specs.{Arguments.HasMore, Arguments.file_rule, Commands.host_rules, Commands.join_rules, Commands.key_rules, Commands.loop_rules, Commands.play_rules, Commands.raw_rule, Commands.seed_rule};
ghost use Rattle.dn_program.specs.{Commands.session_rules};

use crate::arguments::{Added, with, with_choice, with_flag, with_number, with_word};
use crate::game_options::{with_game, with_long_game, with_seed};
use clap::{Arg, Command};
use std::alloc::Global;

/// Adds the option that seeds the keys.
fn with_key_seed<'a>(alloc: Global, command: Command<'a>) -> Added<'a>
    ensures { IfOk result (HasMore command.entry (seed_rule ∷ [])) }
{
    with_seed(
        alloc,
        command,
        "What the key presses are drawn from, 0 to 4294967295",
    )
}

/// Adds the options of rounds over sockets, a game's among them.
pub(crate) fn with_rounds<'a>(alloc: Global, command: Command<'a>) -> Added<'a>
    ensures { IfOk result (HasMore command.entry loop_rules) }
{
    let game = with_game(alloc, command)?;
    let seed = with_key_seed(alloc, game)?;
    let about = "How many rounds there are, 1 to 1000000";
    let rounds = with_number(alloc, seed, "rounds", 1, 1_000_000, "100", about)?;
    let about = "The port of player 0, before those of the others, 1024 to 65532";
    with_number(alloc, rounds, "base", 1024, 65_532, "5029", about)
}

/// Adds the flag that prints the demo.
fn with_raw<'a>(alloc: Global, command: Command<'a>, about: &'a str) -> Added<'a>
    ensures { IfOk result (HasMore command.entry (raw_rule ∷ [])) }
{
    with_flag(alloc, command, "raw", about)
}

/// Adds the options of one player's rounds.
pub(crate) fn with_player<'a>(alloc: Global, command: Command<'a>) -> Added<'a>
    ensures { IfOk result (HasMore command.entry play_rules) }
{
    let rounds = with_rounds(alloc, command)?;
    let about = "Which player this is, 0 to 3";
    let me = with_number(alloc, rounds, "me", 0, 3, "0", about)?;
    with_raw(alloc, me, "Prints the bytes of the demo and no line")
}

/// Adds the option that names the file of the key.
fn with_key_file<'a>(alloc: Global, command: Command<'a>) -> Added<'a>
    ensures { IfOk result (HasMore command.entry (file_rule (codes "key") ∷ [])) }
{
    let key = Arg::new(alloc, "key").long("key").value_name("FILE");
    let about = "The file of the key that the players share";
    with(command, key.help(about))
}

/// Adds the options that a session over a network has at the host and at those who join.
fn with_session<'a>(alloc: Global, command: Command<'a>) -> Added<'a>
    ensures { IfOk result (HasMore command.entry session_rules) }
{
    let seed = with_key_seed(alloc, with_key_file(alloc, command)?)?;
    let about = "How many seconds are played, 0 to 86400; 0 until the program is interrupted";
    let seconds = with_number(alloc, seed, "seconds", 0, 86_400, "0", about)?;
    let about = "Prints the bytes of the demo, and its lines on standard error";
    with_raw(alloc, seconds, about)
}

/// Adds the options of a host, a game's among them.
pub(crate) fn with_host<'a>(alloc: Global, command: Command<'a>) -> Added<'a>
    ensures { IfOk result (HasMore command.entry host_rules) }
{
    let game = with_long_game(alloc, command, "16777216")?;
    let about = "The UDP port of the host, 1024 to 65535";
    let port = with_number(alloc, game, "port", 1024, 65_535, "5029", about)?;
    let about = "How many tics a second are played, 1 to 35";
    let rate = with_number(alloc, port, "rate", 1, 35, "35", about)?;
    with_session(alloc, rate)
}

/// Adds the address and the options of one who joins.
pub(crate) fn with_join<'a>(alloc: Global, command: Command<'a>) -> Added<'a>
    ensures { IfOk result (HasMore command.entry join_rules) }
{
    let about = "The address of the host, and its port, 5029 if not given";
    let address = with_word(alloc, command, "address", "HOST[:PORT]", about)?;
    let about = "Which player this is to be, 1 to 3; any, if not given";
    let me = with_choice(alloc, address, "me", 1, 3, about)?;
    let about = "How many players there have to be, 2 to 4; any number, if not given";
    let players = with_choice(alloc, me, "players", 2, 4, about)?;
    let about = "The UDP port of this player, 1024 to 65535; any that is free, if not given";
    let port = with_choice(alloc, players, "port", 1024, 65_535, about)?;
    with_session(alloc, port)
}

/// Adds the file of a key.
pub(crate) fn with_key<'a>(alloc: Global, command: Command<'a>) -> Added<'a>
    ensures { IfOk result (HasMore command.entry key_rules) }
{
    with_word(alloc, command, "file", "FILE", "The file that is made")
}
