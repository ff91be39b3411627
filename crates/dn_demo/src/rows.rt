//! Stepping a world straight from the bytes of rows.

ghost use Rattle.std.specs.Prelude.{◌≡◌, ◌≢◌, ◌<◌, ◌≤◌, ℕ, ◌*◌, true, false, [], ◌∷◌, length, slice_get, Some};
ghost use Rattle.dn_demo.specs.{Layout.layout_of, Layout.layout_by, Layout.command_size, Text.player_count, Text.marker, Feeding.StepsRows};

use crate::layout::{Layout, MARKER};
use crate::reading;
use core::mem::replace_with;
use dn_world::World;

/// Whether a row has the marker at a command's place.
#[inline(always)]
fn is_marked(row: &[u8], layout: Layout, players: usize) -> bool
    requires long { command_size (layout_of layout) * players ≤ length row.now }
    requires few { players ≤ 4 }
    ensures yes { result ≡ true → (command : ℕ) × (command < players)
        × (slice_get row.now (command_size (layout_of layout) * command) ≡ Some marker) }
    ensures no { result ≡ false → (command : ℕ) → command < players
        → slice_get row.now (command_size (layout_of layout) * command) ≢ Some marker }
{
    let size = layout.size();
    (players > 0 && row[0] == MARKER)
        || (players > 1 && row[size] == MARKER)
        || (players > 2 && row[size * 2] == MARKER)
        || (players > 3 && row[size * 3] == MARKER)
}

/// Steps a world by the whole rows at the front of a piece that have no marker, and answers it and the rest.
#[inline(always)]
fn step_rows<'a, W: World>(
    world: W,
    piece: &'a [u8],
    layout: Layout,
    present: [bool; 4],
) -> (W, &'a [u8])
    requires { 0 < player_count present }
    ensures { StepsRows W.state W.physics (layout_of layout) present world piece.now result.1.now result.0 }
{
    let players = reading::players(present);
    let size = layout.size() * players;
    let mut world = world;
    let mut rest = piece;
    while rest.len() >= size && !is_marked(rest, layout, players) {
        world.step(&reading::row_at(rest, layout, present, 0));
        rest = &rest[size..];
    }
    (world, rest)
}

// The loops for the seats of a netgame have constants for the layout and the seats, so that they test
// neither. Each stands in a function of its own and has the world by value, so that the compiler keeps what
// it uses, and where the players are, in registers: behind a reference the world would be read and written
// for each row.

/// Steps a world by rows of the first two players, and of the third and the fourth where they play.
#[inline(never)]
fn step_seated<'a, W: World, const LONG: bool, const THIRD: bool, const FOURTH: bool>(
    world: W,
    piece: &'a [u8],
) -> (W, &'a [u8])
    ensures { StepsRows W.state W.physics (layout_by LONG) (true ∷ true ∷ THIRD ∷ FOURTH ∷ []) world piece.now
        result.1.now result.0 }
{
    step_rows(world, piece, Layout::by(LONG), [true, true, THIRD, FOURTH])
}

/// Steps a world by rows of any players.
fn step_any<'a, W: World, const LONG: bool>(world: W, given: (&'a [u8], [bool; 4])) -> (W, &'a [u8])
    requires { 0 < player_count given.1 }
    ensures { StepsRows W.state W.physics (layout_by LONG) given.entry.1 world given.entry.0.now result.1.now
        result.0 }
{
    let (piece, present) = given;
    step_rows(world, piece, Layout::by(LONG), present)
}

/// Steps the world by rows of one layout.
fn step_in<'a, W: World, const LONG: bool>(
    world: &mut W,
    piece: &'a [u8],
    present: [bool; 4],
) -> &'a [u8]
    requires { 0 < player_count present }
    ensures { StepsRows W.state W.physics (layout_by LONG) present world.old piece.now result.now world.new }
{
    match present {
        [true, true, false, false] => replace_with(
            world,
            piece,
            step_seated::<W, LONG, false, false>,
        ),
        [true, true, true, false] => replace_with(
            world,
            piece,
            step_seated::<W, LONG, true, false>,
        ),
        [true, true, true, true] => replace_with(world, piece, step_seated::<W, LONG, true, true>),
        _ => replace_with(world, (piece, present), step_any::<W, LONG>),
    }
}

/// Steps the world by the whole rows at the front of a piece that have no marker, and answers the rest.
pub(crate) fn step_all<'a, W: World>(
    world: &mut W,
    piece: &'a [u8],
    layout: Layout,
    present: [bool; 4],
) -> &'a [u8]
    requires { 0 < player_count present }
    ensures { StepsRows W.state W.physics (layout_of layout) present world.old piece.now result.now world.new }
{
    match layout {
        Layout::Vanilla => step_in::<W, false>(world, piece, present),
        Layout::LongTics => step_in::<W, true>(world, piece, present),
    }
}
