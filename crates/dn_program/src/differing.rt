//! What `diff` runs.

use crate::demos::demo_of;
use crate::ends::{BROKEN_OFF, MISUSED, REFUSED};
use crate::inputs::worst;
use crate::lines::labelled;
use crate::readers::Status;
use crate::source::complain;
use clap::ArgMatches;
use dn_demo::Demo;
use dn_inspect::{Difference, Row, first_difference};
use dn_measure::{push_fields, push_line};
use dn_netgame::text::push_row;
use dn_setup::Start;
use std::alloc::{AllocError, Global};
use std::rt::Files;

/// A player's move, where it is not the other's.
fn unlike<T: PartialEq + Copy>(one: Option<T>, other: Option<T>) -> Option<T> {
    if one == other { None } else { one }
}

/// The moves of a row that are not the other's.
fn unlike_moves(one: Row, other: Row) -> Row {
    let [a, b, c, d] = one;
    let [p, q, r, s] = other;
    [unlike(a, p), unlike(b, q), unlike(c, r), unlike(d, s)]
}

/// What one of two demos has in a tic that the other has not.
fn text_of_tic(alloc: Global, demo: &Demo, other: &Demo, tic: usize) -> Result<String, AllocError> {
    let mut text = String::new(alloc);
    match (demo.row(tic), other.row(tic)) {
        (Some(row), Some(like)) => push_row(&mut text, tic as u64, unlike_moves(row, like))?,
        (Some(row), None) => push_row(&mut text, tic as u64, row)?,
        (None, _) => {
            let tics = demo.tics();
            write!(text, "ends after {tics} tics\n")?;
        }
    }
    Ok(text)
}

/// What a game starts from.
fn text_of_start(alloc: Global, start: &Start) -> Result<String, AllocError> {
    let fields = [
        ("skill ", i128::from(start.skill)),
        (" episode ", i128::from(start.episode)),
        (" map ", i128::from(start.map)),
        (" deathmatch ", i128::from(start.deathmatch)),
        (" respawn ", i128::from(start.respawn)),
        (" fast ", i128::from(start.fast)),
        (" nomonsters ", i128::from(start.no_monsters)),
    ];
    let mut text = String::new(alloc);
    push_line(&mut text, &fields)?;
    Ok(text)
}

/// Who is present.
fn text_of_players(alloc: Global, present: [bool; 4]) -> Result<String, AllocError> {
    let mut text = String::from_str(alloc, "players")?;
    for (player, is_there) in present.iter().enumerate() {
        if *is_there {
            push_fields(&mut text, &[(" ", player as i128)])?;
        }
    }
    text.push_str("\n")?;
    Ok(text)
}

/// What one of two demos has that the other has not.
fn text_of_side(
    alloc: Global,
    demo: &Demo,
    other: &Demo,
    difference: Difference,
) -> Result<String, AllocError> {
    match difference {
        Difference::Start => text_of_start(alloc, &demo.start()),
        Difference::Players => text_of_players(alloc, demo.present()),
        Difference::Tic(tic) => text_of_tic(alloc, demo, other, tic),
    }
}

/// The first difference of two demos, as `diff` would tell it.
fn text_of_difference(
    alloc: Global,
    one: &Demo,
    other: &Demo,
    difference: Difference,
) -> Result<Vec<u8>, AllocError> {
    let front = text_of_side(alloc, one, other, difference)?;
    let mut text = labelled(alloc, "<", " ", front.as_bytes())?;
    let behind = text_of_side(alloc, other, one, difference)?;
    text.extend_from_slice(&labelled(alloc, ">", " ", behind.as_bytes())?)?;
    Ok(text)
}

/// Runs `diff`, and answers the exit status: 0 where two demos are of one game, and 1 where they differ.
pub(crate) fn run_diff<R: Files + Print + Eprint + AllocGlobal>(
    rt: &R,
    matches: &ArgMatches<'_>,
) -> Status {
    let (Some(one), Some(other)) = (crate::named::one(matches), crate::named::other(matches)) else {
        return Ok(MISUSED);
    };
    let (one, other) = match (demo_of(rt, one), demo_of(rt, other)) {
        (Ok(one), Ok(other)) => (one, other),
        (Err(status), Ok(_)) | (Ok(_), Err(status)) => return Ok(trouble(status)),
        (Err(status), Err(more)) => return Ok(trouble(worst(status, more))),
    };
    let Some(difference) = first_difference(&one, &other) else {
        return Ok(0);
    };
    let text = text_of_difference(rt.alloc(), &one, &other, difference)?;
    match rt.write_all(&text) {
        Ok(()) => Ok(REFUSED),
        Err(error) => Ok(complain(rt, "standard output", error, BROKEN_OFF)),
    }
}

/// The exit status of two demos of which one was not read: never that of two that differ.
fn trouble(status: u8) -> u8 {
    worst(status, MISUSED)
}
