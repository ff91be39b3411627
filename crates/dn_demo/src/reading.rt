//! Where things stand in the bytes of a demo.

ghost use Rattle.std.specs.Prelude.{◌≡◌, ◌≤◌, ℕ, ◌+◌, ◌*◌, Bool, List, length, Some, [], ◌∷◌, ◌++◌, IfSome, IfNone};
ghost use Rattle.dn_demo.specs.{Layout.layout_of, Layout.command_size, Text.player_count, Text.header_size, Places.start_in, Places.seats_in, Places.place, Places.commands_in, Places.move_at};
ghost use Rattle.dn_demo.specs.{Places.moves_from, Places.EndsBehind, Places.IsUnmarked};

use crate::layout::{HEADER, Layout, MARKER};
use dn_setup::Start;
use dn_tic::Move;

/// What the game starts from.
pub(crate) fn start(bytes: &[u8]) -> Start
    requires { header_size ≤ length bytes.now }
    ensures { result ≡ start_in bytes.now }
{
    Start {
        skill: bytes[1],
        episode: bytes[2],
        map: bytes[3],
        deathmatch: bytes[4],
        respawn: bytes[5],
        fast: bytes[6],
        no_monsters: bytes[7],
    }
}

/// Which players are present.
pub(crate) fn seats(bytes: &[u8]) -> [bool; 4]
    requires { header_size ≤ length bytes.now }
    ensures { result ≡ seats_in bytes.now }
{
    [
        bytes[9] != 0,
        bytes[10] != 0,
        bytes[11] != 0,
        bytes[12] != 0,
    ]
}

/// How many players are present.
#[inline(always)]
pub(crate) fn players(present: [bool; 4]) -> usize
    ensures value { result ≡ player_count present }
    ensures few { result ≤ 4 }
{
    let [a, b, c, d] = present;
    usize::from(a) + usize::from(b) + usize::from(c) + usize::from(d)
}

/// How many whole commands the bytes have.
pub(crate) fn commands(bytes: &[u8], layout: Layout) -> usize
    requires { header_size ≤ length bytes.now }
    ensures { result ≡ commands_in (layout_of layout) bytes.now }
{
    (bytes.len() - HEADER) / layout.size()
}

/// How many commands stand before the marker.
pub(crate) fn commands_before_marker(bytes: &[u8], layout: Layout) -> Option<usize>
    requires { header_size ≤ length bytes.now }
    ensures found { IfSome result (EndsBehind (layout_of layout) bytes.now) }
    ensures none { IfNone result (IsUnmarked (layout_of layout) bytes.now) }
{
    let size = layout.size();
    let mut rest = &bytes[HEADER..];
    let mut commands = 0;
    while !rest.is_empty() {
        if rest[0] == MARKER {
            return Some(commands);
        }
        rest = &rest[size.min(rest.len())..];
        commands += 1;
    }
    None
}

/// The move of the command at this index of the bytes, whatever stands in front of it.
#[inline(always)]
fn told_at(bytes: &[u8], layout: Layout, at: usize) -> Move
    requires { at + command_size (layout_of layout) ≤ length bytes.now }
    ensures { (front : List ℕ) (command : ℕ) → length front + at ≡ place (layout_of layout) command
        → result ≡ move_at (layout_of layout) (front ++ bytes.now) command }
{
    layout.tell(&bytes[at..at + layout.size()])
}

/// The move of a player, and the index of the command that follows.
#[inline(always)]
fn seated(bytes: &[u8], layout: Layout, present: bool, at: usize) -> (Option<Move>, usize)
    requires { at + command_size (layout_of layout) * player_count (present ∷ []) ≤ length bytes.now }
    ensures step { (front : List ℕ) (command : ℕ) (others : List Bool)
        → length front + at ≡ place (layout_of layout) command
        → moves_from (layout_of layout) (front ++ bytes.now) (present ∷ others) command
        ≡ result.0 ∷ moves_from (layout_of layout) (front ++ bytes.now) others
        (command + player_count (present ∷ [])) }
    ensures next { result.1 ≡ at + command_size (layout_of layout) * player_count (present ∷ []) }
{
    if present {
        (Some(told_at(bytes, layout, at)), at + layout.size())
    } else {
        (None, at)
    }
}

/// The moves of the players who are present, whose commands stand at this index of the bytes, whatever
/// stands in front of them.
#[inline(always)]
pub(crate) fn row_at(
    bytes: &[u8],
    layout: Layout,
    present: [bool; 4],
    at: usize,
) -> [Option<Move>; 4]
    requires { at + command_size (layout_of layout) * player_count present ≤ length bytes.now }
    ensures { (front : List ℕ) (command : ℕ) → length front + at ≡ place (layout_of layout) command
        → result ≡ moves_from (layout_of layout) (front ++ bytes.now) present command }
{
    let [a, b, c, d] = present;
    let (a, at) = seated(bytes, layout, a, at);
    let (b, at) = seated(bytes, layout, b, at);
    let (c, at) = seated(bytes, layout, c, at);
    let (d, _) = seated(bytes, layout, d, at);
    [a, b, c, d]
}

/// The moves of the players who are present, the first by this command.
pub(crate) fn row(
    bytes: &[u8],
    layout: Layout,
    present: [bool; 4],
    command: usize,
) -> [Option<Move>; 4]
    requires { place (layout_of layout) (command + player_count present) ≤ length bytes.now }
    ensures { result ≡ moves_from (layout_of layout) bytes.now present command }
{
    row_at(bytes, layout, present, layout.place(command))
}
