//! The second supplied world: one that owns memory.

ghost use Rattle.std.specs.Prelude.{◌≡◌, IfOk, length, replicate};

use crate::world::World;
use dn_setup::Start;
use dn_tic::Move;
use std::alloc::{AllocError, Global};
use std::marker::Model;

/// Four places that change ends each tic, with the first player's buttons put onto the first.
///
/// It is an example of a world that keeps a vector. `begin` and `step` cannot fail, so all the room that they
/// need is made before.
#[derive(Debug, Drop)]
pub struct Belt {
    places: Vec<u8>,
}

impl Model for Belt {
    ghost use Rattle.std.specs.Prelude.{◌≡◌, ℕ, List, length};

    ghost Value = { List ℕ };

    ghost view = { λ b. b.places.items };

    ghost invariant = { λ b. length b.places.items ≡ 4 };
}

impl World for Belt {
    ghost use Rattle.std.specs.Prelude.{ℕ, List};
    ghost use Rattle.dn_world.specs.Places.{carrying};
    ghost use Rattle.std.proofs.{Common.arith, lemmas.Int.ints};

    ghost State = { List ℕ };

    ghost state = { λ b. b };

    ghost physics = { carrying };

    fn begin(&mut self, start: &Start, _present: [bool; 4]) {
        let places = &mut self.places;
        places.fill(start.map);
    }

    fn step(&mut self, moves: &[Option<Move>; 4]) {
        let places = &mut self.places;
        places.reverse();
        places[0] = match moves[0] {
            Some(step) => step.buttons,
            None => 0,
        };
    }

    fn mark(&self, player: u8) -> i16 {
        i16::from(self.places[usize::from(player % 4)])
    }

    ghost marks_fit = { λ places player. Prim.omega (arith, ints) };
}

impl Belt {
    /// A belt with 0 on each place.
    pub fn new(alloc: Global) -> Result<Belt, AllocError>
        ensures { IfOk result (λ belt. belt ≡ replicate 4 0) }
    {
        let places = vec![in alloc; 0; 4]?;
        Ok(Belt { places })
    }

    /// What is on the four places.
    pub fn places(&self) -> &[u8]
        ensures value { result.now ≡ self.now }
        ensures four { length result.now ≡ 4 }
    {
        &self.places
    }
}
