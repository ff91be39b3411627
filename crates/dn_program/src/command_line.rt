//! The command line, read and run.

ghost use Rattle.clap.specs.Values.{kind_of};
ghost use Rattle.dn_program.specs.Printed.{IsExplained};

use crate::ends::{BROKEN_OFF, MISUSED};
use crate::runs::run;
use crate::words::matches_of;
use clap::Error;
use clap::error::ErrorKind;
use dn_netgame::RunFault;
use std::net::Net;
use std::random::RandomSource;
use std::rt::{Env, Files};
use std::time::Clock;
use std::{env, io};

/// Which of the standard streams are terminals.
#[derive(Clone, Copy, Debug, PartialEq, Eq)]
pub struct Terminals {
    /// Standard input: a subcommand that reads it says so.
    pub input: bool,
    /// Standard error: a session over a network tells there each second how it goes.
    pub errors: bool,
}

/// Prints a fault of the command line on standard error, and help on standard output.
fn explain(rt: &(impl Print + Eprint), error: &Error) -> Result<u8, RunFault>
    ensures { IsExplained (kind_of error.now) result }
{
    if error.kind() == ErrorKind::OutOfMemory {
        return Err(RunFault::Memory);
    }
    let printed = error.print(rt);
    if printed.is_err() && !error.use_stderr() {
        return Err(RunFault::Write);
    }
    if error.use_stderr() {
        Ok(MISUSED)
    } else {
        Ok(0)
    }
}

/// Reads the command line and runs it, and answers the exit status.
fn answer<
    R: Env + Input + Print + Eprint + AllocGlobal + Net + Files + RandomSource + Clock + Drop,
>(rt: &R, terminals: Terminals) -> Result<u8, RunFault> {
    let alloc = rt.alloc();
    let words: Vec<String> = match env::args(rt) {
        Ok(words) => words.collect(alloc)?,
        Err(error) if error.kind() == io::ErrorKind::OutOfMemory => return Err(RunFault::Memory),
        Err(_) => {
            let _ = rt.eprintln("error: invalid UTF-8 was detected in one or more arguments");
            return Ok(MISUSED);
        }
    };
    match matches_of(alloc, words.as_slice()) {
        Ok(matches) => run(rt, terminals, &matches),
        Err(error) => explain(rt, &error),
    }
}

/// Reads the command line and runs it, prints the line of a run that ended early, and answers the exit
/// status: 0 where all went well, 1 where what was given was refused, 2 where the command line was wrong, 3 where
/// the run broke off.
/// No clause says so: the contracts of the system's handles do not tell what is read and printed. What the
/// other subcommands print, and the lines of a session that played, are clauses of `dn_netgame` and `dn_measure`; the
/// rest, and that this hands them on, is tested.
pub fn finish<
    R: Env + Input + Print + Eprint + AllocGlobal + Net + Files + RandomSource + Clock + Drop,
>(rt: &R, terminals: Terminals) -> u8 {
    match answer(rt, terminals) {
        Ok(status) => status,
        Err(fault) => {
            if rt.println(fault).is_err() {
                let _ = rt.eprintln(fault);
            }
            BROKEN_OFF
        }
    }
}
