//! A storm: a game under events drawn from a seed, and the calm after it: rounds in which every packet arrives.

ghost use Rattle.std.specs.Prelude.{◌≡◌, IfOk, None};
ghost use Rattle.dn_netgame.specs.StormShown.{no_keys, Calms, CalmsAfter, IsStorm};
ghost use Rattle.dn_demo.specs.Recorded.{IsLimit};
ghost use Rattle.dn_lockstep.specs.Opening.{IsGame};
ghost use Rattle.dn_netgame.specs.Shown.{PrintsOrFails};
ghost use Rattle.dn_netgame.specs.Told.{IsQuiet};

use crate::games::storm_walks;
use crate::telling::Teller;
use crate::transfer::{RunFault, print};
use dn_game::{GameConfig, Nobody, Played, RoundFault};
use dn_tic::Keys;
use dn_world::Walk;
use std::alloc::{AllocError, Global};
use std::io::Write;

/// Keys of a round in which nobody presses any.
fn no_keys() -> [Keys; 4]
    ensures { result ≡ no_keys }
{
    let none = Keys::from_bits(0);
    [none, none, none, none]
}

/// Plays `calm` rounds in which every packet arrives and nobody presses a key. Answers false where 2^32 packets
/// were sent, so that no event can name the next: there the rounds end.
fn calm_down(played: &mut Played<Walk>, calm: u32) -> Result<bool, AllocError>
    ensures { IfOk result (λ calmed. Calms calm played.old played.new calmed) }
{
    match played.game.good_rounds(no_keys(), calm) {
        Ok(()) => Ok(true),
        Err(RoundFault::Memory) => Err(AllocError),
        Err(RoundFault::Packets) => Ok(false),
    }
}

/// Plays the calm that follows a storm, if one does, as `calm_down` does.
fn calm_after(played: &mut Played<Walk>, calm: Option<u32>) -> Result<bool, AllocError>
    ensures { IfOk result (λ calmed. CalmsAfter calm played.old played.new calmed) }
{
    match calm {
        Some(calm) => calm_down(played, calm),
        None => Ok(true),
    }
}

/// Events of a schedule, and the calm after them: rounds in which every packet arrives and nobody presses a key.
#[derive(Clone, Copy)]
pub struct Storm {
    /// The schedule's seed.
    pub seed: u64,
    /// How many events.
    pub count: u32,
    /// How many rounds, if a calm follows. No calm and one of no rounds are told alike.
    pub calm: Option<u32>,
}

/// The line of a calm that was cut short.
const TOO_MANY: &str = "too many packets\n";

/// The exit status of a calm that was cut short.
const CUT_SHORT: u8 = 3;

/// Plays the storm, and the calm if there is one, in a game of `players` new walks, and writes what `T` tells of
/// it: [`Nobody`] the lines of the game, [`crate::Trace`] a line for each event of the schedule before them, and
/// [`crate::Script`] the events alone, as a script, which `run_sim` reads if it has at most 1,048,576 bytes. The
/// rounds of a calm have no lines, and no line counts them. The answer is the exit status: 0, and 3 where a round would send a packet after 2^32, which
/// no event can name; then one line says so.
///
/// A write that fails or takes no bytes is the fault `Write`, and `Memory` is answered where memory
/// for the game, a packet of the rounds or the text was refused. Each ends the run there. A packet of the storm
/// that finds no room is the fault `Memory` for a `Script`, and else none: its event counts as refused.
pub fn tell_storm<T: Teller, W: Write>(
    alloc: Global,
    config: GameConfig,
    players: u8,
    storm: Storm,
    output: &mut W,
) -> Result<u8, RunFault>
    requires players { IsGame players }
    requires limit { IsLimit config.limit }
    ensures { PrintsOrFails W.contents (IsStorm T.account config players storm.seed storm.count storm.calm)
        output.old output.new result }
{
    let mut teller = T::new(alloc);
    let mut played = storm_walks(alloc, config, players, storm.seed, storm.count, &mut teller)?;
    if !calm_after(&mut played, storm.calm)? {
        return print(output, TOO_MANY.as_bytes(), CUT_SHORT);
    }
    let text = teller.finish(alloc, &played)?;
    print(output, text.as_bytes(), 0)
}

/// Writes the lines of a storm that no calm follows, as `tell_storm` does. The exit status is always 0.
pub fn run_storm<W: Write>(
    alloc: Global,
    config: GameConfig,
    players: u8,
    seed: u64,
    count: u32,
    output: &mut W,
) -> Result<u8, RunFault>
    requires players { IsGame players }
    requires limit { IsLimit config.limit }
    ensures { PrintsOrFails W.contents (IsStorm IsQuiet config players seed count None) output.old output.new
        result }
{
    let calm = None;
    let storm = Storm { seed, count, calm };
    tell_storm::<Nobody, _>(alloc, config, players, storm, output)
}
