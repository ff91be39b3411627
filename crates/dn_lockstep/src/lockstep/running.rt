//! How a lockstep runs a tic.

ghost use Rattle.std.specs.Prelude.{◌≡◌, ◌≢◌, ℕ, ℤ, None};
ghost use Rattle.dn_machine.specs.{declared.answers.Phase.TheVariants.Playing, declared.answers.Ran.TheVariants.Waiting, declared.answers.Ran.TheVariants.NotPlaying, Node.lowest};
ghost use Rattle.dn_machine.specs.declared.answers.Ran.TheVariants as Ran;
ghost use Rattle.dn_lockstep.specs.{Rows.has, Rows.is_missing, Steps.told_by};

use super::Lockstep;
use crate::recording::write;
use crate::rows::{awaited, fill_row, first_off, full_at, mark_of};
use dn_machine::{Cause, Phase, Ran};
use dn_tic::Move;

/// The row, if a tic was run; else none.
fn told_by(ran: Ran, row: [Option<Move>; 4]) -> Option<[Option<Move>; 4]>
    ensures { result ≡ told_by ran row }
{
    match ran {
        Ran::Ran(_) => Some(row),
        Ran::Waiting(_) | Ran::DemoFull | Ran::Inconsistent { .. } | Ran::NotPlaying => None,
    }
}

impl Lockstep {
    ghost use Rattle.dn_machine.specs.Running.{on_run, on_run_playing};
    ghost use Rattle.dn_machine.specs.Sparing.{on_run_but};
    ghost use Rattle.dn_lockstep.specs.{Contents.contents, Steps.FillsIn, Steps.RunsBy, Steps.RunsOne, Steps.TellsNoRow, Steps.WaitsAsItWas};

    /// Runs the next tic, as `run_into` does. Returns the row of moves too, if the tic was run.
    #[tactic(auto, using(crate::proofs::After::steps, crate::proofs::Running::no_row))]
    pub fn run(&mut self, marks: &[i16; 4]) -> (Ran, Option<[Option<Move>; 4]>)
        ensures step { RunsBy marks.now (contents self.old) (contents self.new)
            (λ limits m marks. on_run limits m marks) (λ ran row. (result.0 ≡ ran) × (result.1 ≡ row)) }
        ensures further { RunsOne (contents self.old) (contents self.new) result.0 }
        ensures waits { (player : ℕ) → result.0 ≡ Waiting player
            → (contents self.new ≡ contents self.old) × (result.1 ≡ None) }
        ensures idle { result.0 ≡ NotPlaying → (contents self.new ≡ contents self.old) × (result.1 ≡ None) }
        ensures untold { ((tic : ℕ) → result.0 ≢ Ran.Ran tic) → result.1 ≡ None }
    {
        let mut row = [None; 4];
        let ran = self.run_into(marks, &mut row);
        (ran, told_by(ran, row))
    }

    /// Runs the next tic (`d_net.c`, TryRunTics; `g_game.c`, G_Ticker), if no mark is off and the command of
    /// every player who has not left by then is there. It takes each player's mark in the caller's world as it
    /// stands. If it returns `Ran`, it has filled in the row of moves by which that world goes on. At `DemoFull`
    /// it has filled in the row that the demo has no room for. Otherwise the row stays as it is; and if it waits
    /// or does not play, so does the lockstep.
    #[inline(always)]
    pub fn run_into(&mut self, marks: &[i16; 4], row: &mut [Option<Move>; 4]) -> Ran
        ensures step { RunsBy marks.now (contents self.old) (contents self.new)
            (λ limits m marks. on_run limits m marks) (λ ran told. (result ≡ ran) × (told_by result row.new ≡ told)) }
        ensures further { RunsOne (contents self.old) (contents self.new) result }
        ensures waits { WaitsAsItWas (contents self.old) (contents self.new) result row.old row.new }
        ensures idle { result ≡ NotPlaying → (contents self.new ≡ contents self.old) × (row.new ≡ row.old) }
        ensures off { TellsNoRow result row.old row.new }
        ensures full { FillsIn (contents self.old) result row.new }
    {
        self.run_without(&[false; 4], marks, row)
    }

    /// Runs the next tic as `run_into` does, for a caller who has given up these players: it compares no mark of
    /// theirs. They went another way, so their marks may tell of another world. It waits for their commands as
    /// for any, up to the ends that `settle` took, and they are in the row.
    #[inline(always)]
    pub fn run_without(
        &mut self,
        given_up: &[bool; 4],
        marks: &[i16; 4],
        row: &mut [Option<Move>; 4],
    ) -> Ran
        ensures step { RunsBy marks.now (contents self.old) (contents self.new)
            (λ limits m marks. on_run_but limits (has given_up.now) m marks)
            (λ ran told. (result ≡ ran) × (told_by result row.new ≡ told)) }
        ensures further { RunsOne (contents self.old) (contents self.new) result }
        ensures waits { WaitsAsItWas (contents self.old) (contents self.new) result row.old row.new }
        ensures idle { result ≡ NotPlaying → (contents self.new ≡ contents self.old) × (row.new ≡ row.old) }
        ensures off { TellsNoRow result row.old row.new }
        ensures full { FillsIn (contents self.old) result row.new }
    {
        let Phase::Playing = self.phase else {
            return Ran::NotPlaying;
        };
        let tic = self.ran;
        if let Some(player) = awaited(&self.rings, &self.peers, self.players, tic) {
            return Ran::Waiting(player);
        }
        if let Some(player) = first_off(
            &self.rings,
            &self.peers,
            given_up,
            &self.marks,
            self.players,
            tic,
        ) {
            let was = mark_of(&self.rings, player, tic);
            let should = self.marks.get(player, tic);
            self.finish(Cause::Inconsistent {
                player,
                was,
                should,
            });
            return Ran::Inconsistent {
                player,
                was,
                should,
            };
        }
        self.run_row(marks, row)
    }

    /// Runs the row of the next tic, whose commands are there. A row that lacks a player closes the demo, and
    /// only a row that lacks nobody needs room in it.
    #[inline(always)]
    fn run_row(&mut self, marks: &[i16; 4], row: &mut [Option<Move>; 4]) -> Ran
        requires plays { (contents self.old).phase ≡ Playing }
        requires there { lowest (contents self.old).players
            (is_missing (contents self.old).rings (contents self.old).peers (contents self.old).ran) ≡ None }
        ensures step { RunsBy marks.now (contents self.old) (contents self.new)
            (λ limits m marks. on_run_playing limits m marks None None) (λ ran told. (result ≡ ran)
            × (told_by result row.new ≡ told)) }
        ensures further { RunsOne (contents self.old) (contents self.new) result }
        ensures waits { (player : ℕ) → result ≢ Waiting player }
        ensures idle { result ≢ NotPlaying }
        ensures off { (player : ℕ) (was should : ℤ) → result ≢ Ran.Inconsistent player was should }
        ensures full { FillsIn (contents self.old) result row.new }
    {
        let tic = self.ran;
        *row = [None; 4];
        let whole = fill_row(&self.rings, &self.peers, self.players, tic, row);
        if tic == full_at(whole, self.capacity) {
            self.finish(Cause::Full);
            return Ran::DemoFull;
        }
        self.marks.stamp(marks, row, tic);
        self.ran += 1;
        write(&mut self.demo, row, whole);
        Ran::Ran(tic)
    }
}
