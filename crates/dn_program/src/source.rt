//! Opening what a command line names: a file, or a lump of a WAD as `doom.wad:DEMO1`.

ghost use Rattle.std.specs.Prelude.{◌≤◌, length, take, ◌≡◌};

use crate::ends::{BROKEN_OFF, MISUSED, REFUSED};
use dn_inspect::{WadFault, format_of, lumps, open as open_lump};
use std::alloc::Global;
use std::fmt::Display;
use std::fs;
use std::io::{BufRead, BufReader, ErrorKind, Read, Take};
use std::rt::Files;

/// A file, or a lump of one, that is read ahead.
pub(crate) type Source<R> = BufReader<Take<<R as Files>::File>>;

/// What standard input is called.
pub(crate) const INPUT: &str = "standard input";

/// How many bytes one read of the system asks for where an input is read as it comes.
const BUFFER: usize = 65_536;

/// Says on standard error what is wrong with a file, and answers the exit status.
pub(crate) fn complain<D: Display + Drop>(rt: &impl Eprint, path: &str, why: D, status: u8) -> u8 {
    let _ = eprintln!(rt; "{path}: {why}");
    status
}

/// An input that is read ahead. None if there is no memory.
pub(crate) fn read_ahead<I: Read + Drop>(alloc: Global, input: I) -> Option<BufReader<I>> {
    BufReader::with_capacity(alloc, BUFFER, input).ok()
}

/// The exit status of a WAD whose lumps are not found.
fn status_of(fault: WadFault) -> u8 {
    match fault {
        WadFault::Header | WadFault::Cut => REFUSED,
        WadFault::Read | WadFault::Memory => BROKEN_OFF,
    }
}

/// Says on standard error why the lumps of a WAD are not found, and answers the exit status.
pub(crate) fn complain_of_wad(rt: &impl Eprint, path: &str, fault: WadFault) -> u8 {
    complain(rt, path, fault, status_of(fault))
}

/// The bytes of the last lump with a name, as in Doom (`w_wad.c`, W_CheckNumForName), or the exit status.
fn lump_of<R: Files + Eprint + AllocGlobal>(
    rt: &R,
    path: &str,
    name: &str,
    mut file: R::File,
) -> Result<Take<R::File>, u8> {
    let found = match lumps(rt.alloc(), &mut file, name.as_bytes()) {
        Ok(found) => found,
        Err(fault) => return Err(complain_of_wad(rt, path, fault)),
    };
    let named = found
        .as_slice()
        .iter()
        .rfind(|lump| lump.name().len() == name.len());
    match named {
        Some(lump) => open_lump(file, lump).map_err(|fault| complain_of_wad(rt, path, fault)),
        None => Err(complain(rt, path, "the WAD has no lump of this name", REFUSED)),
    }
}

/// The bytes of a file, or of a lump of one, or the exit status.
fn bytes_of<R: Files + Eprint + AllocGlobal>(rt: &R, path: &str) -> Result<Take<R::File>, u8> {
    let error = match fs::open(rt, path) {
        Ok(file) => return Ok(file.take(u64::MAX)),
        Err(error) => error,
    };
    if error.kind() == ErrorKind::NotFound {
        if let Some((wad, name)) = path.rsplit_once(':') {
            if let Ok(file) = fs::open(rt, wad) {
                return lump_of(rt, path, name, file);
            }
        }
    }
    Err(complain(rt, path, error, MISUSED))
}

/// Opens what a path names, or answers the exit status. A file that cannot be opened is a mistake of the command
/// line.
pub(crate) fn open<R: Files + Eprint + AllocGlobal>(rt: &R, path: &str) -> Result<Source<R>, u8> {
    match read_ahead(rt.alloc(), bytes_of(rt, path)?) {
        Some(input) => Ok(input),
        None => Err(complain(rt, path, "out of memory", BROKEN_OFF)),
    }
}

/// How many bytes show what a file is.
const HEAD: usize = 16;

/// What an input is, by the bytes in front that come with its first read.
pub(crate) fn format_in(input: &mut impl BufRead) -> Option<&'static str> {
    match input.fill_buf() {
        Ok(bytes) => format_of(&bytes[..HEAD.min(bytes.len())]),
        Err(_) => None,
    }
}

/// Says on standard error why a file was refused and what it is, and answers the exit status.
pub(crate) fn refuse<D: Display + Drop>(
    rt: &impl Eprint,
    path: &str,
    why: D,
    format: Option<&'static str>,
) -> u8 {
    match format {
        Some(format) => complain(rt, path, format_args!("{why}; it is {format}"), REFUSED),
        None => complain(rt, path, why, REFUSED),
    }
}
