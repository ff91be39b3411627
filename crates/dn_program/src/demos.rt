//! What `stats` and `record` run.

use crate::ends::{BROKEN_OFF, MISUSED, REFUSED};
use crate::inputs::{hint, label_of, worst};
use crate::lines::labelled;
use crate::readers::Status;
use crate::source::{INPUT, complain, format_in, open, read_ahead, refuse};
use crate::upgrades::put;
use clap::ArgMatches;
use dn_demo::{Demo, DemoFault};
use dn_inspect::{RowsFault, demo_of_rows, json_of_stats, text_of_stats};
use std::alloc::{AllocError, Global};
use std::io::{BufRead, Read};
use std::rt::Files;

/// The most bytes of a demo that is read.
const MOST: u64 = 33_554_432;

/// Reads the bytes of a demo, which are no more than one may have, and what they are by their front; or says on
/// standard error why not, and answers the exit status.
pub(crate) fn bytes_in<I: BufRead + Drop>(
    rt: &(impl Eprint + AllocGlobal),
    path: &str,
    mut input: I,
) -> Result<(Vec<u8>, Option<&'static str>), u8> {
    let format = format_in(&mut input);
    let mut bytes = Vec::new(rt.alloc());
    if let Err(error) = input.take(MOST + 1).read_to_end(&mut bytes) {
        return Err(complain(rt, path, error, BROKEN_OFF));
    }
    if bytes.len() as u64 > MOST {
        return Err(refuse(rt, path, "longer than a demo may be", format));
    }
    Ok((bytes, format))
}

/// The demo that was read, or the exit status once standard error says why there is none.
pub(crate) fn accepted(
    rt: &impl Eprint,
    path: &str,
    demo: Result<Demo, DemoFault>,
    format: Option<&'static str>,
) -> Result<Demo, u8> {
    match demo {
        Ok(demo) => Ok(demo),
        Err(DemoFault::Memory) => Err(complain(rt, path, DemoFault::Memory, BROKEN_OFF)),
        Err(fault) => Err(refuse(rt, path, fault, format)),
    }
}

/// Reads a demo, or says on standard error why there is none and answers the exit status.
fn demo_in<I: BufRead + Drop>(
    rt: &(impl Eprint + AllocGlobal),
    path: &str,
    input: I,
) -> Result<Demo, u8> {
    let (bytes, format) = bytes_in(rt, path, input)?;
    accepted(rt, path, Demo::from_vec(bytes), format)
}

/// Prints a text whose lines may have a label, and answers the exit status.
fn print(rt: &(impl Print + Eprint + AllocGlobal), label: Option<&str>, text: &str) -> u8 {
    let printed = match label {
        Some(label) => match labelled(rt.alloc(), label, ": ", text.as_bytes()) {
            Ok(lines) => rt.write_all(&lines),
            Err(fault) => return complain(rt, label, fault, BROKEN_OFF),
        },
        None => rt.print(text),
    };
    match printed {
        Ok(()) => 0,
        Err(error) => complain(rt, "standard output", error, BROKEN_OFF),
    }
}

/// What is told of a demo: an object, or lines.
fn text_of(alloc: Global, json: bool, path: &str, demo: &Demo) -> Result<String, AllocError> {
    if !json {
        return text_of_stats(alloc, demo);
    }
    let mut line = json_of_stats(alloc, path, demo)?;
    line.push_str("\n")?;
    Ok(line)
}

/// Prints what is told of a demo, and answers the exit status. An object names its file itself.
fn tell(
    rt: &(impl Print + Eprint + AllocGlobal),
    json: bool,
    path: &str,
    label: Option<&str>,
    demo: Result<Demo, u8>,
) -> u8 {
    let demo = match demo {
        Ok(demo) => demo,
        Err(status) => return status,
    };
    match text_of(rt.alloc(), json, path, &demo) {
        Ok(text) => print(rt, if json { None } else { label }, &text),
        Err(fault) => complain(rt, path, fault, BROKEN_OFF),
    }
}

/// Reads the demo of a file, or answers the exit status.
pub(crate) fn demo_of<R: Files + Eprint + AllocGlobal>(rt: &R, path: &str) -> Result<Demo, u8> {
    demo_in(rt, path, open(rt, path)?)
}

/// Runs `stats`, and answers the exit status.
pub(crate) fn run_stats<R: Files + Input + Print + Eprint + AllocGlobal>(
    rt: &R,
    from_terminal: bool,
    matches: &ArgMatches<'_>,
) -> Status {
    let json = crate::options::json(matches);
    let Some(files) = crate::named::files(matches) else {
        hint(rt, from_terminal);
        let demo = demo_in(rt, INPUT, rt.reader());
        return Ok(tell(rt, json, INPUT, None, demo));
    };
    let mut status = 0;
    for path in files {
        let told = tell(rt, json, path, label_of(files, path), demo_of(rt, path));
        status = worst(status, told);
    }
    Ok(status)
}

/// Writes a demo of rows, and answers the exit status.
fn record(
    rt: &(impl Files + Print + Eprint),
    matches: &ArgMatches<'_>,
    path: &str,
    demo: Result<Vec<u8>, RowsFault>,
) -> u8 {
    match demo {
        Ok(bytes) => put(rt, crate::named::to(matches), &bytes),
        Err(fault @ (RowsFault::Read | RowsFault::Memory)) => complain(rt, path, fault, BROKEN_OFF),
        Err(fault) => complain(rt, path, fault, REFUSED),
    }
}

/// Runs `record`, and answers the exit status.
pub(crate) fn run_record<R: Files + Input + Print + Eprint + AllocGlobal>(
    rt: &R,
    from_terminal: bool,
    matches: &ArgMatches<'_>,
) -> Status {
    if let Some(path) = crate::named::from(matches) {
        return match open(rt, path) {
            Ok(input) => Ok(record(rt, matches, path, demo_of_rows(rt.alloc(), input))),
            Err(status) => Ok(status),
        };
    }
    hint(rt, from_terminal);
    match read_ahead(rt.alloc(), rt.reader()) {
        Some(input) => Ok(record(rt, matches, INPUT, demo_of_rows(rt.alloc(), input))),
        None => Ok(complain(rt, INPUT, "out of memory", BROKEN_OFF)),
    }
}
