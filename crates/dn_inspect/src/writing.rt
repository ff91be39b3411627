//! Writing a demo from its rows.

ghost use Rattle.std.specs.Prelude.{◌≡◌, ◌++◌, IfOk, OnOk};
ghost use Rattle.dn_demo.specs.{Layout.layout_by, Layout.spell, Text.move_bytes, Text.row_bytes, Text.commands_of};
ghost use Rattle.dn_inspect.specs.Writing.{header_of, written};

use dn_setup::{Start, VERSION};
use dn_tic::Move;
use std::alloc::{AllocError, Global};

/// A tic's moves: a seat for each of four players.
pub type Row = [Option<Move>; 4];

/// What a demo's header tells.
#[derive(Clone, Copy, Debug, PartialEq, Eq)]
pub struct Head {
    /// Whether the demo is of version 111, and not of 109.
    pub long: bool,
    /// What the game starts from.
    pub start: Start,
    /// Whose view the demo shows.
    pub view: u8,
    /// Which players are present.
    pub present: [bool; 4],
}

/// The version of Doom 1.9.
const VANILLA: u8 = 109;

/// The byte that ends a demo (`g_game.c`, DEMOMARKER).
const MARKER: u8 = 0x80;

/// The bytes that a demo begins with.
fn header_of(head: &Head) -> [u8; 13]
    ensures { result ≡ header_of head.now }
{
    let Start {
        skill,
        episode,
        map,
        deathmatch,
        respawn,
        fast,
        no_monsters,
    } = head.start;
    let [a, b, c, d] = head.present;
    [
        if head.long { VERSION } else { VANILLA },
        skill,
        episode,
        map,
        deathmatch,
        respawn,
        fast,
        no_monsters,
        head.view,
        u8::from(a),
        u8::from(b),
        u8::from(c),
        u8::from(d),
    ]
}

/// Appends a move: its turn has two bytes, or the high one alone.
fn push_move(bytes: &mut Vec<u8>, long: bool, step: Move) -> Result<(), AllocError>
    ensures { OnOk result (bytes.new.items ≡ bytes.old.items ++ spell (layout_by long) step) }
{
    let [low, high] = step.turn.cast_unsigned().to_le_bytes();
    let (forward, side) = (step.forward.cast_unsigned(), step.side.cast_unsigned());
    if long {
        bytes.extend_from_slice(&[forward, side, low, high, step.buttons])
    } else {
        bytes.extend_from_slice(&[forward, side, high, step.buttons])
    }
}

/// Appends the move of who has one.
fn push_step(bytes: &mut Vec<u8>, long: bool, step: Option<Move>) -> Result<(), AllocError>
    ensures { OnOk result (bytes.new.items ≡ bytes.old.items ++ move_bytes (layout_by long) step) }
{
    match step {
        Some(step) => push_move(bytes, long, step),
        None => Ok(()),
    }
}

/// Appends the moves of a tic.
fn push_row(bytes: &mut Vec<u8>, long: bool, row: Row) -> Result<(), AllocError>
    ensures { OnOk result (bytes.new.items ≡ bytes.old.items ++ row_bytes (layout_by long) row) }
{
    let [a, b, c, d] = row;
    push_step(bytes, long, a)?;
    push_step(bytes, long, b)?;
    push_step(bytes, long, c)?;
    push_step(bytes, long, d)
}

/// Appends the moves of tics.
fn push_rows(bytes: &mut Vec<u8>, long: bool, rows: &[Row]) -> Result<(), AllocError>
    ensures { OnOk result (bytes.new.items ≡ bytes.old.items ++ commands_of (layout_by long) rows.now) }
{
    let mut rest = rows;
    while let Some((row, behind)) = rest.split_first() {
        push_row(bytes, long, *row)?;
        rest = behind;
    }
    Ok(())
}

/// The bytes of a demo with these rows, closed. Err where memory is refused. A turn that version 109 cannot tell is
/// cut to its high byte, and -128 forward reads as the end: the caller is to refuse them.
pub fn bytes_of(alloc: Global, head: &Head, rows: &[Row]) -> Result<Vec<u8>, AllocError>
    ensures { IfOk result (λ bytes. bytes.items ≡ written head.now rows.now) }
{
    let mut bytes = Vec::from_slice(alloc, &header_of(head))?;
    push_rows(&mut bytes, head.long, rows)?;
    bytes.push(MARKER)?;
    Ok(bytes)
}
