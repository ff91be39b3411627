//! What `lumps` runs: the demos of WADs are listed.

use crate::ends::{BROKEN_OFF, MISUSED, REFUSED};
use crate::inputs::{label_of, worst};
use crate::readers::Status;
use crate::source::{complain, complain_of_wad, format_in, read_ahead};
use clap::ArgMatches;
use dn_inspect::{Lump, json_of_lump, lumps, open};
use dn_netgame::RunFault;
use std::alloc::{AllocError, Global};
use std::fs;
use std::rt::Files;

/// A WAD, and how its demos are listed.
#[derive(Clone, Copy)]
struct Listing<'a> {
    path: &'a str,
    label: Option<&'a str>,
    json: bool,
}

/// The line of a lump.
fn line_of(
    alloc: Global,
    label: Option<&str>,
    lump: &Lump,
    format: Option<&str>,
) -> Result<String, AllocError> {
    let (file, colon) = match label {
        Some(label) => (label, ": "),
        None => ("", ""),
    };
    let name = str::from_utf8(lump.name()).unwrap_or("?");
    let Lump { place, size, .. } = *lump;
    let format = format.unwrap_or("no demo");
    format!(in alloc; "{file}{colon}lump {name} place {place} size {size}: {format}")
}

/// Prints what is told of a lump, whose file is opened anew.
fn list_lump<R: Files + Print + Eprint + AllocGlobal>(
    rt: &R,
    listing: Listing<'_>,
    lump: &Lump,
) -> Status {
    let Listing { path, label, json } = listing;
    let bytes = match fs::open(rt, path) {
        Ok(file) => open(file, lump),
        Err(error) => return Ok(complain(rt, path, error, MISUSED)),
    };
    let input = match bytes {
        Ok(bytes) => read_ahead(rt.alloc(), bytes),
        Err(fault) => return Ok(complain_of_wad(rt, path, fault)),
    };
    let Some(mut input) = input else {
        return Err(RunFault::Memory);
    };
    let format = format_in(&mut input);
    let line = if json {
        json_of_lump(rt.alloc(), path, lump, format)?
    } else {
        line_of(rt.alloc(), label, lump, format)?
    };
    rt.println(line.as_str())
        .map(|()| 0)
        .map_err(|_| RunFault::Write)
}

/// Lists the demos of a WAD: its lumps whose names begin with `DEMO`.
fn list_file<R: Files + Print + Eprint + AllocGlobal>(rt: &R, listing: Listing<'_>) -> Status {
    let path = listing.path;
    let found = match fs::open(rt, path) {
        Ok(mut file) => lumps(rt.alloc(), &mut file, b"DEMO"),
        Err(error) => return Ok(complain(rt, path, error, MISUSED)),
    };
    let found = match found {
        Ok(found) => found,
        Err(fault) => return Ok(complain_of_wad(rt, path, fault)),
    };
    if found.is_empty() {
        return Ok(complain(
            rt,
            path,
            "no lump has a name that begins with DEMO",
            REFUSED,
        ));
    }
    let mut status = 0;
    for lump in found.as_slice() {
        status = worst(status, list_lump(rt, listing, lump)?);
    }
    Ok(status)
}

/// Runs `lumps`, and answers the exit status.
pub(crate) fn run_lumps<R: Files + Print + Eprint + AllocGlobal>(
    rt: &R,
    matches: &ArgMatches<'_>,
) -> Status {
    let Some(files) = crate::named::files(matches) else {
        return Ok(MISUSED);
    };
    let json = crate::options::json(matches);
    let mut status = 0;
    for path in files {
        let label = label_of(files, path);
        let listing = Listing { path, label, json };
        status = match list_file(rt, listing) {
            Ok(more) => worst(status, more),
            Err(fault) => return Ok(complain(rt, path, fault, BROKEN_OFF)),
        };
    }
    Ok(status)
}
