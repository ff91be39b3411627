//! Playing a script: the lines of its game, or why it is none.

ghost use Rattle.std.specs.{Prelude.◌≡◌, Prelude.◌+◌, Prelude.Err, Prelude.IfOk, Prelude.IfErr, String.string_bytes};
ghost use Rattle.dn_demo.specs.Recorded.{IsLimit};
ghost use Rattle.dn_lockstep.specs.Opening.{IsGame};
ghost use Rattle.dn_game.specs.Scripts.{size_limit};
ghost use Rattle.dn_netgame.specs.{Shown.ShowsOrFails, SimShown.ArePlayed, SimShown.IsFaultShown, SimShown.IsSim, Told.IsQuiet, declared.transfer.RunFault.RunFault};

use crate::games::new_walks;
use crate::telling::Teller;
use crate::text::text_of_bad_line;
use crate::transfer::{RunFault, gather, print};
use dn_game::script::{MAX_SCRIPT, ScriptFault, read_script};
use dn_game::{Event, GameConfig, GameFault, Nobody, play_observed};
use std::alloc::{AllocError, Global};
use std::io::{Read, Write};

/// What is told of a game of walks that has played these events.
fn text_of_events<T: Teller>(
    alloc: Global,
    config: GameConfig,
    players: u8,
    events: &[Event],
) -> Result<String, AllocError>
    requires players { IsGame players }
    requires limit { IsLimit config.limit }
    ensures { IfOk result (λ text. ArePlayed T.account config players events.now (string_bytes text) 0) }
{
    let mut teller = T::new(alloc);
    let walks = new_walks(alloc, players)?;
    match play_observed(alloc, config, walks, events, &mut teller) {
        Ok(played) => teller.finish(alloc, &played),
        Err(GameFault::Memory) => Err(AllocError),
        Err(GameFault::Players | GameFault::Limit) => unreachable!(),
    }
}

/// The line of bytes that are no script, and the exit status.
fn text_of_fault(alloc: Global, fault: ScriptFault) -> Result<(String, u8), RunFault>
    ensures shown { IfOk result (λ shown. IsFaultShown fault (string_bytes shown.0) shown.1) }
    ensures fault { IfErr result (λ fault. fault ≡ RunFault.Memory) }
{
    match fault {
        ScriptFault::TooLong => Ok((String::from_str(alloc, "script: too long\n")?, 1)),
        ScriptFault::Line(number) => Ok((text_of_bad_line(alloc, number)?, 1)),
        ScriptFault::Memory => Err(RunFault::Memory),
    }
}

/// The lines of what a script's bytes are read as, and the exit status.
fn text_of<T: Teller>(
    alloc: Global,
    config: GameConfig,
    players: u8,
    bytes: &[u8],
) -> Result<(String, u8), RunFault>
    requires players { IsGame players }
    requires limit { IsLimit config.limit }
    ensures shown { IfOk result
        (λ shown. IsSim T.account config players bytes.now (string_bytes shown.0) shown.1) }
    ensures fault { IfErr result (λ fault. fault ≡ RunFault.Memory) }
{
    match read_script(alloc, bytes) {
        Ok(events) => {
            let text = text_of_events::<T>(alloc, config, players, events.as_slice())?;
            Ok((text, 0))
        }
        Err(fault) => text_of_fault(alloc, fault),
    }
}

/// Reads a script of at most 1,048,576 bytes, plays its events in a game of `players` new walks, and writes what
/// `T` tells of it: [`Nobody`] the lines of the game, [`crate::Trace`] a line for each event before them, and
/// [`crate::Script`] the events alone, as a script. The answer is the exit status: 0 for a script, 1 for bytes
/// that are none.
///
/// A read that fails is the fault `Read`, a write that fails or takes no bytes is `Write`, and
/// `Memory` is answered where memory for the script, the game or the text was refused. Each ends
/// the run there. A packet that finds no room is the fault `Memory` for a `Script`, and else none: its event
/// counts as refused.
pub fn tell_sim<T: Teller, R: Read, W: Write>(
    alloc: Global,
    config: GameConfig,
    players: u8,
    input: &mut R,
    output: &mut W,
) -> Result<u8, RunFault>
    requires players { IsGame players }
    requires limit { IsLimit config.limit }
    // A byte more than a script can have is taken, so that no prefix of a longer input is read as a script.
    ensures { ShowsOrFails W.contents (size_limit + 1) (IsSim T.account config players) (R.remaining input.old)
        (R.remaining input.new) output.old output.new result }
{
    let bytes = gather(alloc, input, MAX_SCRIPT + 1)?;
    let (text, status) = text_of::<T>(alloc, config, players, bytes.as_slice())?;
    print(output, text.as_bytes(), status)
}

/// Writes the lines of the game that a script is, as `tell_sim` does.
pub fn run_sim<R: Read, W: Write>(
    alloc: Global,
    config: GameConfig,
    players: u8,
    input: &mut R,
    output: &mut W,
) -> Result<u8, RunFault>
    requires players { IsGame players }
    requires limit { IsLimit config.limit }
    ensures { ShowsOrFails W.contents (size_limit + 1) (IsSim IsQuiet config players) (R.remaining input.old)
        (R.remaining input.new) output.old output.new result }
{
    tell_sim::<Nobody, _, _>(alloc, config, players, input, output)
}
