//! Any world played through, at both supplied types, and a world that is refused memory.

ghost use Rattle.std.specs.Prelude.{◌≡◌, fold};

use super::moved;
use dn_setup::Start;
use dn_shared_tests::{finds_no_memory, must, same};
use dn_tic::Move;
use dn_world::{Belt, Walk, World};

const TWO: [bool; 4] = [true, true, false, false];

#[test]
fn worlds_are_played(rt: HostRuntime) {
    let rt = &rt;
    let rows = [[moved(0, 0, 0, 1), None, None, None]];
    let mut walk = Walk::new();
    play(&mut walk, &Start::default(), TWO, &rows);
    same!(rt; walk.mark(0), 1);
    let mut belt = must!(rt; Belt::new(rt.alloc()));
    play(&mut belt, &Start::default(), TWO, &rows);
    same!(rt; belt.mark(0), 1);
}

/// Its only request for memory may be refused: then it answers so.
#[test]
fn refused_memory_is_told(rt: HostRuntime) {
    match Belt::new(rt.alloc()) {
        Ok(belt) => same!(&rt; belt.places(), [0; 4].as_slice()),
        Err(_) => finds_no_memory(&rt, "Belt::new"),
    }
}

/// Begins a world and steps it by each row.
fn play<W: World>(world: &mut W, start: &Start, present: [bool; 4], rows: &[[Option<Move>; 4]])
    ensures { W.state world.new ≡ fold W.physics.step (W.physics.begin start.now present) rows.now }
{
    world.begin(start, present);
    for row in rows {
        world.step(row);
    }
}
