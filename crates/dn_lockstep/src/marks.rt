//! The consistency table: each player's marks of the last twelve tics.

ghost use Rattle.std.specs.Prelude.{◌≡◌, ◌≢◌, ◌<◌, ◌%◌, ℕ, pos, slice_index_or, get_or, true, false};
ghost use Rattle.dn_machine.specs.Node.{lacks};
ghost use Rattle.dn_lockstep.specs.Tables.{slot};

use dn_tic::Move;
use std::marker::Model;

/// How many marks of a player are kept: a command carries that of twelve tics before (`d_net.h`, BACKUPTICS).
const PLACES: usize = 12;

/// A player's marks, by the remainders of tics.
#[derive(Clone, Copy, Debug)]
struct Slots {
    slots: [i16; PLACES],
}

impl Slots {
    /// Keeps another mark.
    fn put(&mut self, place: usize, mark: i16)
        requires { place < 12 }
        ensures put { slice_index_or self.new.slots place (pos 0) ≡ mark }
        ensures others { (j : ℕ) → j ≢ place → slice_index_or self.new.slots j (pos 0)
            ≡ slice_index_or self.old.slots j (pos 0) }
    {
        self.slots[place] = mark;
    }
}

/// Four players' marks. A contract sees them by the player and the remainder of the tic.
#[derive(Debug, Drop)]
pub(crate) struct Marks {
    players: [Slots; 4],
}

impl Model for Marks {
    ghost use Rattle.std.specs.Prelude.{List};
    ghost use Rattle.dn_lockstep.specs.declared.marks.Slots.{Slots};

    ghost Value = { List Slots };

    ghost view = { λ m. m.players };
}

impl Marks {
    /// Every mark is 0.
    pub(crate) fn new() -> Marks
        ensures { (p j : ℕ) → slot result p j ≡ pos 0 }
    {
        let slots = Slots { slots: [0; PLACES] };
        Marks {
            players: [slots, slots, slots, slots],
        }
    }

    /// The player's mark for a tic.
    pub(crate) fn get(&self, player: u8, tic: u32) -> i16
        requires { player < 4 }
        ensures { result ≡ slot self.now player (tic % 12) }
    {
        let slots = &self.players[usize::from(player)];
        slots.slots[tic as usize % PLACES]
    }

    /// Keeps another mark.
    fn put(&mut self, player: u8, tic: u32, mark: i16)
        requires { player < 4 }
        ensures put { slot self.new player (tic % 12) ≡ mark }
        ensures others { (p j : ℕ) → (p ≡ player → j ≢ tic % 12) → slot self.new p j ≡ slot self.old p j }
    {
        self.players[usize::from(player)].put(tic as usize % PLACES, mark);
    }

    /// Keeps, for the tic twelve on, the mark of each player who has a move in the row.
    pub(crate) fn stamp(&mut self, marks: &[i16; 4], row: &[Option<Move>; 4], tic: u32)
        ensures marks { (p : ℕ) → p < 4 → lacks row.now p ≡ false
            → slot self.new p (tic % 12) ≡ get_or marks.now p (pos 0) }
        ensures absent { (p j : ℕ) → p < 4 → lacks row.now p ≡ true → slot self.new p j ≡ slot self.old p j }
        ensures others { (p j : ℕ) → j ≢ tic % 12 → slot self.new p j ≡ slot self.old p j }
    {
        for player in 0..4 {
            if row[usize::from(player)].is_some() {
                self.put(player, tic, marks[usize::from(player)]);
            }
        }
    }
}
