//! What players did in a demo, counted in tics: a world that counts.

ghost use Rattle.std.specs.Prelude.{◌≡◌, ◌≢◌, slice_index_or};
ghost use Rattle.dn_inspect.specs.Counting as spec;
ghost use Rattle.dn_demo.specs.Reading.{state_after};

use dn_demo::{Demo, play};
use dn_setup::Start;
use dn_tic::Move;
use dn_world::World;
use std::marker::Model;

/// In how many tics a player did what.
#[derive(Clone, Copy, Debug, PartialEq, Eq)]
pub struct Counts {
    /// Was there.
    pub tics: u64,
    /// Turned.
    pub turns: u64,
    /// Turned by what version 109 rounds, as a mouse does.
    pub fine: u64,
    /// Had the attack button down.
    pub attack: u64,
    /// Had the use button down.
    pub used: u64,
    /// Changed the weapon.
    pub weapons: u64,
    /// Ran forward or back, and strafed at 40 (SR40).
    pub sr40: u64,
    /// Ran forward or back, and strafed at 50 (SR50).
    pub sr50: u64,
}

/// No tics.
const NONE: Counts = Counts {
    tics: 0,
    turns: 0,
    fine: 0,
    attack: 0,
    used: 0,
    weapons: 0,
    sr40: 0,
    sr50: 0,
};

/// One more, if something is so.
fn more(count: u64, is_so: bool) -> u64
    ensures { result ≡ spec.more count is_so }
{
    count.wrapping_add(u64::from(is_so))
}

/// Whether a button is down.
fn is_down(button: u8, step: Move) -> bool
    requires { button ≢ 0 }
    ensures { result ≡ spec.is_down button step }
{
    step.buttons < 128 && step.buttons / button % 2 == 1
}

/// Whether the player runs, and strafes at this speed.
fn strafes(speed: u8, step: Move) -> bool
    ensures { result ≡ spec.strafes speed step }
{
    step.forward.unsigned_abs() == 50 && step.side.unsigned_abs() == speed
}

/// What a player did, with one move more.
fn counted(counts: Counts, step: Move) -> Counts
    ensures { result ≡ spec.counted counts step }
{
    let turned = step.turn.cast_unsigned();
    Counts {
        tics: more(counts.tics, true),
        turns: more(counts.turns, turned != 0),
        fine: more(counts.fine, turned % 256 != 0),
        attack: more(counts.attack, is_down(1, step)),
        used: more(counts.used, is_down(2, step)),
        weapons: more(counts.weapons, is_down(4, step)),
        sr40: more(counts.sr40, strafes(40, step)),
        sr50: more(counts.sr50, strafes(50, step)),
    }
}

/// The same, where there is a move.
fn after(counts: Counts, step: Option<Move>) -> Counts
    ensures { result ≡ spec.after counts step }
{
    match step {
        Some(step) => counted(counts, step),
        None => counts,
    }
}

/// What players did, with one tic more.
fn all_after(players: [Counts; 4], moves: [Option<Move>; 4]) -> [Counts; 4]
    ensures { result ≡ spec.all_after players moves }
{
    let [a, b, c, d] = players;
    let [p, q, r, s] = moves;
    [after(a, p), after(b, q), after(c, r), after(d, s)]
}

/// A world that counts what players do.
#[derive(Debug, Drop)]
pub struct Tally {
    players: [Counts; 4],
}

impl Model for Tally {
    ghost use Rattle.std.specs.Prelude.{List};
    ghost use Rattle.dn_inspect.specs.declared.tally.Counts.{Counts};

    ghost Value = { List Counts };

    ghost view = { λ tally. tally.players };
}

impl World for Tally {
    ghost use Rattle.std.specs.Prelude.{List};
    ghost use Rattle.dn_inspect.specs.declared.tally.Counts.{Counts};
    ghost use Rattle.dn_inspect.specs.Counting.{counting};
    ghost use Rattle.std.proofs.{Common.arith, lemmas.Int.ints};

    ghost State = { List Counts };

    ghost state = { λ tally. tally };

    ghost physics = { counting };

    fn begin(&mut self, _start: &Start, _present: [bool; 4]) {
        self.players = [NONE, NONE, NONE, NONE];
    }

    fn step(&mut self, moves: &[Option<Move>; 4]) {
        self.players = all_after(self.players, *moves);
    }

    fn mark(&self, _player: u8) -> i16 {
        0
    }

    ghost marks_fit = { λ counts player. Prim.omega (arith, ints) };
}

impl Tally {
    /// What the players of a demo did.
    pub fn of(demo: &Demo) -> Tally
        ensures { result ≡ state_after spec.counting demo.now }
    {
        let mut tally = Tally {
            players: [NONE, NONE, NONE, NONE],
        };
        play(demo, &mut tally);
        tally
    }

    /// What a player did.
    pub fn counts(&self, player: u8) -> Counts
        ensures { result ≡ slice_index_or self.now player spec.none }
    {
        match self.players.get(usize::from(player)) {
            Some(counts) => *counts,
            None => NONE,
        }
    }
}
