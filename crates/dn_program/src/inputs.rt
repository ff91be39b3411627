//! What the subcommands that read run on: standard input, or the files that they are given.

use crate::ends::{BROKEN_OFF, REFUSED};
use crate::lines::{Form, Lines};
use crate::readers::{Reader, Status, run_on};
use crate::scripts::{hint_of, script_in};
use crate::source::{INPUT, complain, format_in, open, read_ahead, refuse};
use clap::ArgMatches;
use dn_inspect::front_of_objects;
use dn_netgame::RunFault;
use std::alloc::{AllocError, Global};
use std::io;
use std::io::BufRead;
use std::rt::Files;

/// Says on standard error why an input is refused, and what it is or where it went wrong; and answers the exit status.
fn refuse_input(
    rt: &impl Eprint,
    path: &str,
    why: &str,
    format: Option<&'static str>,
    hint: Option<&str>,
) -> u8 {
    match hint {
        Some(hint) => complain(rt, path, format_args!("{why}: {hint}"), REFUSED),
        None => refuse(rt, path, why, format),
    }
}

/// What is run on an input, and how its lines are printed.
#[derive(Clone, Copy)]
struct Run<'a, 'm, 'f> {
    reader: Reader,
    matches: &'a ArgMatches<'m>,
    path: &'a str,
    form: Form<'a, 'f>,
}

/// Runs on an input, and answers the exit status. Only a run that can print nothing more ends early.
fn run_named<R: Print + Eprint + AllocGlobal, I: BufRead>(
    rt: &R,
    run: Run<'_, '_, '_>,
    input: &mut I,
    hint: Option<&str>,
) -> Status {
    let Run {
        reader,
        matches,
        path,
        form,
    } = run;
    let format = format_in(input);
    let mut output = Lines::new(rt, form);
    match run_on(rt.alloc(), reader, matches, input, &mut output) {
        Ok(REFUSED) => Ok(refuse_input(rt, path, output.last(), format, hint)),
        Ok(status) => output.finish().map(|()| status),
        Err(RunFault::Write) if output.is_closed() => Err(RunFault::Write),
        Err(fault) => Ok(complain(rt, path, fault, BROKEN_OFF)),
    }
}

/// Runs on a file, and answers the exit status. A script is read whole, so that its bad line can be told.
fn run_file<R: Files + Print + Eprint + AllocGlobal>(rt: &R, run: Run<'_, '_, '_>) -> Status {
    let mut input = match open(rt, run.path) {
        Ok(input) => input,
        Err(status) => return Ok(status),
    };
    if run.reader != Reader::Sim {
        return run_named(rt, run, &mut input, None);
    }
    let script = match script_in(rt, run.path, input) {
        Ok(script) => script,
        Err(status) => return Ok(status),
    };
    let hint = hint_of(rt.alloc(), &script);
    run_named(rt, run, &mut script.as_slice(), hint.as_deref())
}

/// What the lines of a file begin with: where there are several files, its name.
pub(crate) fn label_of<'a>(files: &[&'a str], path: &'a str) -> Option<&'a str> {
    if files.len() > 1 { Some(path) } else { None }
}

/// The worse of two exit statuses.
pub(crate) fn worst(one: u8, other: u8) -> u8 {
    one.max(other)
}

/// What the objects of a file begin with, if objects are printed.
fn front_of(alloc: Global, json: bool, path: &str) -> Result<Option<Vec<u8>>, AllocError> {
    if json {
        Ok(Some(front_of_objects(alloc, path)?))
    } else {
        Ok(None)
    }
}

/// How lines are printed: as objects with this front, or behind a label or without.
fn form_of<'a, 'f>(front: &'f Option<Vec<u8>>, label: Option<&'a str>) -> Form<'a, 'f> {
    match (front, label) {
        (Some(front), _) => Form::Objects(front),
        (None, Some(label)) => Form::Named(label),
        (None, None) => Form::Plain,
    }
}

/// Runs on files, one after the other, and answers the exit status of the worst. Of several each line begins with
/// its file.
fn run_files<R: Files + Print + Eprint + AllocGlobal>(
    rt: &R,
    reader: Reader,
    matches: &ArgMatches<'_>,
    files: &[&str],
) -> u8 {
    let json = crate::options::json(matches);
    let mut status = 0;
    for path in files {
        let Ok(front) = front_of(rt.alloc(), json, path) else {
            return complain(rt, path, RunFault::Memory, BROKEN_OFF);
        };
        let run = Run {
            reader,
            matches,
            path,
            form: form_of(&front, label_of(files, path)),
        };
        match run_file(rt, run) {
            Ok(more) => status = worst(status, more),
            Err(_) => return BROKEN_OFF,
        }
    }
    status
}

/// Says on standard error where the input comes from, if it comes from a terminal.
pub(crate) fn hint(rt: &impl Eprint, from_terminal: bool) {
    if from_terminal {
        let _ = rt.eprintln("reading standard input, up to Ctrl-D; --help says how to name a file");
    }
}

/// Runs on standard input, prints objects, and answers the exit status.
fn run_objects<R: Input + Print + Eprint + AllocGlobal>(
    rt: &R,
    reader: Reader,
    matches: &ArgMatches<'_>,
) -> Status {
    let Some(mut input) = read_ahead(rt.alloc(), rt.reader()) else {
        return Err(RunFault::Memory);
    };
    let front = front_of_objects(rt.alloc(), INPUT)?;
    let run = Run {
        reader,
        matches,
        path: INPUT,
        form: Form::Objects(&front),
    };
    run_named(rt, run, &mut input, None)
}

/// Runs on the files that are given, or else on standard input, and answers the exit status.
pub(crate) fn run_reader<R: Files + Input + Print + Eprint + AllocGlobal>(
    rt: &R,
    from_terminal: bool,
    reader: Reader,
    matches: &ArgMatches<'_>,
) -> Status {
    if let Some(files) = crate::named::files(matches) {
        return Ok(run_files(rt, reader, matches, files));
    }
    hint(rt, from_terminal);
    if crate::options::json(matches) {
        return run_objects(rt, reader, matches);
    }
    let mut output = io::writer(rt);
    if reader == Reader::Demo {
        let Some(mut input) = read_ahead(rt.alloc(), rt.reader()) else {
            return Err(RunFault::Memory);
        };
        return run_on(rt.alloc(), reader, matches, &mut input, &mut output);
    }
    run_on(rt.alloc(), reader, matches, &mut rt.reader(), &mut output)
}
