//! How a link runs a tic.

ghost use Rattle.std.specs.Prelude.{◌≡◌, ◌≢◌, ℕ, None};
ghost use Rattle.dn_machine.specs.declared.answers.Ran.TheVariants as ran;
ghost use Rattle.dn_lockstep.specs.Steps.{told_by};

use super::Link;
use dn_machine::Ran;
use dn_tic::Move;

/// The row, if a tic was run; else none.
fn told_by(answer: Ran, row: [Option<Move>; 4]) -> Option<[Option<Move>; 4]>
    ensures row { result ≡ told_by answer row }
    ensures none { ((tic : ℕ) → answer ≢ ran.Ran tic) → result ≡ None }
{
    match answer {
        Ran::Ran(_) => Some(row),
        Ran::Waiting(_) | Ran::DemoFull | Ran::Inconsistent { .. } | Ran::NotPlaying => None,
    }
}

impl Link {
    ghost use Rattle.std.specs.Prelude.{ℤ, ◌+◌};
    ghost use Rattle.dn_machine.specs.Running.{on_run, row_held};
    ghost use Rattle.dn_lockstep.specs.Steps.{RunsBy, Tells};
    ghost use Rattle.dn_link.specs.{Linked.IsWhole, Linking.linked, Linking.seal_of, Pacing.pace_of, Surviving.RunsBut};

    /// As `Lockstep::run`, but no mark is compared of players who are given up.
    #[tactic(auto, using(dn_lockstep::proofs::After::steps))]
    pub fn run(&mut self, marks: &[i16; 4]) -> (Ran, Option<[Option<Move>; 4]>)
        ensures step { IsWhole (linked self.old) → RunsBy marks.now (linked self.old).node (linked self.new).node
            (λ limits m marks. on_run limits m marks) (λ ran row. (result.0 ≡ ran) × (result.1 ≡ row)) }
        ensures but { RunsBut marks.now (linked self.old) (linked self.new)
            (λ ran row. (result.0 ≡ ran) × (result.1 ≡ row)) }
        ensures further { (tic : ℕ) → result.0 ≡ ran.Ran tic
            → (linked self.new).node.ran ≡ (linked self.old).node.ran + 1 }
        ensures waits { (player : ℕ) → result.0 ≡ ran.Waiting player
            → ((linked self.new).node ≡ (linked self.old).node) × (result.1 ≡ None) }
        ensures idle { result.0 ≡ ran.NotPlaying
            → ((linked self.new).node ≡ (linked self.old).node) × (result.1 ≡ None) }
        ensures untold { ((tic : ℕ) → result.0 ≢ ran.Ran tic) → result.1 ≡ None }
        ensures others { (linked self.new).others ≡ (linked self.old).others }
        ensures peers { (linked self.new).peers ≡ (linked self.old).peers }
        ensures pace { pace_of self.new ≡ pace_of self.old }
        ensures seal { seal_of self.new ≡ seal_of self.old }
    {
        let mut row = [None; 4];
        let ran = self.run_into(marks, &mut row);
        (ran, told_by(ran, row))
    }

    /// As `Lockstep::run_into`, but no mark is compared of players who are given up.
    pub fn run_into(&mut self, marks: &[i16; 4], row: &mut [Option<Move>; 4]) -> Ran
        ensures step { IsWhole (linked self.old) → RunsBy marks.now (linked self.old).node (linked self.new).node
            (λ limits m marks. on_run limits m marks) (λ ran told. (result ≡ ran) × (told_by result row.new ≡ told)) }
        ensures but { RunsBut marks.now (linked self.old) (linked self.new)
            (λ ran told. (result ≡ ran) × (told_by result row.new ≡ told)) }
        ensures further { (tic : ℕ) → result ≡ ran.Ran tic
            → (linked self.new).node.ran ≡ (linked self.old).node.ran + 1 }
        ensures waits { (player : ℕ) → result ≡ ran.Waiting player
            → ((linked self.new).node ≡ (linked self.old).node) × (row.new ≡ row.old) }
        ensures idle { result ≡ ran.NotPlaying
            → ((linked self.new).node ≡ (linked self.old).node) × (row.new ≡ row.old) }
        ensures off { (player : ℕ) (was should : ℤ) → result ≡ ran.Inconsistent player was should
            → row.new ≡ row.old }
        ensures full { result ≡ ran.DemoFull → Tells (linked self.old).node (λ limits me m.
            row.new ≡ row_held limits m) }
        ensures others { (linked self.new).others ≡ (linked self.old).others }
        ensures peers { (linked self.new).peers ≡ (linked self.old).peers }
        ensures pace { pace_of self.new ≡ pace_of self.old }
        ensures seal { seal_of self.new ≡ seal_of self.old }
    {
        self.survivor.run_into(marks, row)
    }
}
