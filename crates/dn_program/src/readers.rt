//! The subcommands that read an input and print lines of it.

use crate::ends::MISUSED;
use clap::ArgMatches;
use dn_game::Nobody;
use dn_netgame::{RunFault, Trace, run_demo, run_rows, run_show, tell_sim};
use std::alloc::Global;
use std::io::{Read, Write};

/// The exit status of a run, or why it ended early.
pub(crate) type Status = Result<u8, RunFault>;

/// What is done with an input.
#[derive(Clone, Copy, Debug, PartialEq, Eq)]
pub(crate) enum Reader {
    Show,
    Demo,
    Rows,
    Sim,
}

/// Runs `sim` on a script, and answers the exit status.
fn run_script<I: Read, O: Write>(
    alloc: Global,
    matches: &ArgMatches<'_>,
    input: &mut I,
    output: &mut O,
) -> Status {
    let Some((config, players)) = crate::options::game(matches) else {
        return Ok(MISUSED);
    };
    if crate::options::trace(matches) {
        tell_sim::<Trace, _, _>(alloc, config, players, input, output)
    } else {
        tell_sim::<Nobody, _, _>(alloc, config, players, input, output)
    }
}

/// Runs on an input, and answers the exit status.
pub(crate) fn run_on<I: Read, O: Write>(
    alloc: Global,
    reader: Reader,
    matches: &ArgMatches<'_>,
    input: &mut I,
    output: &mut O,
) -> Status {
    match reader {
        Reader::Show => run_show(alloc, input, output),
        Reader::Demo => run_demo(alloc, input, output),
        Reader::Rows => run_rows(alloc, input, output),
        Reader::Sim => run_script(alloc, matches, input, output),
    }
}
