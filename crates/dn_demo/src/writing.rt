//! The bytes of a header and of a row.

ghost use Rattle.std.specs.Prelude.{◌≡◌, ◌≤◌, length};
ghost use Rattle.dn_demo.specs.{Layout.long_tics, Layout.spell, Text.header, Text.move_bytes, Text.row_bytes};

use crate::layout::{COMMAND, HEADER};
use dn_setup::{Start, VERSION};
use dn_tic::Move;

/// The bytes that a demo begins with.
pub(crate) fn header_bytes(start: &Start, view: u8, present: [bool; 4]) -> [u8; HEADER]
    ensures { result ≡ header long_tics start.now view present }
{
    let [a, b, c, d] = present;
    [
        VERSION,
        start.skill,
        start.episode,
        start.map,
        start.deathmatch,
        start.respawn,
        start.fast,
        start.no_monsters,
        view,
        u8::from(a),
        u8::from(b),
        u8::from(c),
        u8::from(d),
    ]
}

/// The bytes of a move.
pub(crate) fn command_bytes(step: Move) -> [u8; COMMAND]
    ensures { result ≡ spell long_tics step }
{
    let [low, high] = step.turn.cast_unsigned().to_le_bytes();
    [
        step.forward.cast_unsigned(),
        step.side.cast_unsigned(),
        low,
        high,
        step.buttons,
    ]
}

/// How many bytes a move has.
fn size(step: Option<Move>) -> usize
    ensures value { result ≡ length (move_bytes long_tics step) }
    ensures most { result ≤ 5 }
{
    match step {
        Some(_) => COMMAND,
        None => 0,
    }
}

/// How many bytes the commands of a tic have.
pub(crate) fn row_size(moves: &[Option<Move>; 4]) -> usize
    ensures value { result ≡ length (row_bytes long_tics moves.now) }
    ensures most { result ≤ 20 }
{
    let [a, b, c, d] = *moves;
    size(a) + size(b) + size(c) + size(d)
}
