//! What `upgrade` runs: on standard input, or from one file to another.

use crate::demos::{accepted, bytes_in};
use crate::ends::{BROKEN_OFF, MISUSED, REFUSED};
use crate::inputs::hint;
use crate::readers::Status;
use crate::source::{complain, open};
use clap::ArgMatches;
use dn_demo::{Demo, UpgradeFault, upgrade};
use dn_netgame::run_upgrade;
use std::fs::OpenOptions;
use std::io::Write;
use std::rt::Files;
use std::{fs, io};

/// Makes a file of these bytes, where none is, and answers the exit status. One that could not be written whole is
/// removed, if it can be.
fn make_file(rt: &(impl Files + Eprint), path: &str, bytes: &[u8]) -> u8 {
    let mut options = OpenOptions::new();
    options.write(true).create_new(true);
    let mut file = match options.open(rt, path) {
        Ok(file) => file,
        Err(error) if error.kind() == io::ErrorKind::AlreadyExists => {
            return complain(rt, path, "the file exists, and is left as it is", REFUSED);
        }
        Err(error) => return complain(rt, path, error, BROKEN_OFF),
    };
    if let Err(error) = file.write_all(bytes) {
        let _ = fs::remove_file(rt, path);
        return complain(rt, path, error, BROKEN_OFF);
    }
    0
}

/// Puts bytes into a file, or on standard output, and answers the exit status.
pub(crate) fn put(rt: &(impl Files + Print + Eprint), path: Option<&str>, bytes: &[u8]) -> u8 {
    match path {
        Some(path) => make_file(rt, path, bytes),
        None => match rt.write_all(bytes) {
            Ok(()) => 0,
            Err(error) => complain(rt, "standard output", error, BROKEN_OFF),
        },
    }
}

/// Says on standard error what an upgrade does with what stands behind the last whole tic.
fn tell_rest(rt: &impl Eprint, path: &str, demo: &Demo) {
    let (cut, after) = (demo.cut(), demo.after());
    if cut > 0 {
        complain(
            rt,
            path,
            format_args!("commands of a cut tic, left out: {cut}"),
            0,
        );
    }
    if after > 0 {
        complain(
            rt,
            path,
            format_args!("bytes behind the end marker, kept: {after}"),
            0,
        );
    }
}

/// The bytes of an upgraded demo, with what stood behind the marker of the old one; or the exit status.
fn upgraded(
    rt: &(impl Eprint + AllocGlobal),
    limit: u32,
    path: &str,
    bytes: &[u8],
    demo: &Demo,
) -> Result<Vec<u8>, u8> {
    let recorder = match upgrade(rt.alloc(), demo, limit) {
        Ok(recorder) => recorder,
        Err(UpgradeFault::Memory) => {
            return Err(complain(rt, path, UpgradeFault::Memory, BROKEN_OFF));
        }
        Err(fault) => return Err(complain(rt, path, fault, REFUSED)),
    };
    let behind = &bytes[bytes.len().saturating_sub(demo.after())..];
    let Ok(mut text) = Vec::from_slice(rt.alloc(), recorder.bytes()) else {
        return Err(complain(rt, path, UpgradeFault::Memory, BROKEN_OFF));
    };
    match text.extend_from_slice(behind) {
        Ok(()) => Ok(text),
        Err(fault) => Err(complain(rt, path, fault, BROKEN_OFF)),
    }
}

/// The bytes of the upgraded demo of a file, or the exit status.
fn upgraded_file<R: Files + Eprint + AllocGlobal>(
    rt: &R,
    limit: u32,
    path: &str,
) -> Result<Vec<u8>, u8> {
    let (bytes, format) = bytes_in(rt, path, open(rt, path)?)?;
    let demo = accepted(rt, path, Demo::read(rt.alloc(), &bytes), format)?;
    let text = upgraded(rt, limit, path, &bytes, &demo)?;
    tell_rest(rt, path, &demo);
    Ok(text)
}

/// Runs `upgrade`, and answers the exit status.
pub(crate) fn run_upgrading<R: Files + Input + Print + Eprint + AllocGlobal>(
    rt: &R,
    from_terminal: bool,
    matches: &ArgMatches<'_>,
) -> Status {
    let Some(limit) = crate::options::limit(matches) else {
        return Ok(MISUSED);
    };
    if let Some(path) = crate::named::from(matches) {
        return match upgraded_file(rt, limit, path) {
            Ok(bytes) => Ok(put(rt, crate::named::to(matches), &bytes)),
            Err(status) => Ok(status),
        };
    }
    hint(rt, from_terminal);
    run_upgrade(rt.alloc(), limit, &mut rt.reader(), &mut io::writer(rt))
}
