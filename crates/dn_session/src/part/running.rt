//! How tics are run.

ghost use Rattle.std.specs.Prelude.{◌≡◌, ℕ, ℤ, Option};
ghost use Rattle.dn_lockstep.specs.Steps.{told_by};
ghost use Rattle.dn_session.specs.Playing.{after_answer, after_catching_up, holds_back, is_made, playing, CatchesUp, RunsNext, WritesRow};
ghost use Rattle.dn_machine.specs.declared.answers.Made.{Made as AnyMade};
ghost use Rattle.dn_machine.specs.declared.answers.Ran.TheVariants as ran;

use super::Part;
use super::giving::{is_giving, owed_now};
use crate::players::has_row_behind;
use crate::steady::Steady;
use dn_machine::{Made, Ran};
use dn_tic::Move;

/// Whether a command was built.
fn is_made(made: Option<Made>) -> bool
    ensures { result ≡ is_made made }
{
    matches!(made, Some(Made::Made(_)))
}

/// How evenly tics come after this answer.
fn after_answer(ran: Ran, steady: Steady) -> Steady
    ensures { result ≡ after_answer ran steady }
{
    let mut steady = steady;
    if let Ran::Ran(_) = ran {
        steady.run();
    }
    steady
}

impl Part {
    /// Whether its player plays, and the next tic should wait for the next tick.
    pub(crate) fn holds_back(&self) -> bool
        ensures { result ≡ holds_back (playing self.now) }
    {
        is_giving(self.progress) && self.steady.holds(has_row_behind(&self.link))
    }

    /// Builds the command that was owed, if there is room for it now: then datagrams are owed.
    fn catch_up(&mut self)
        ensures { (made : Option AnyMade) × CatchesUp (playing self.old).link (playing self.new).link made
            × (playing self.new ≡ after_catching_up made (record (playing self.old) { link = (playing self.new).link })) }
    {
        if is_made(self.link.catch_up()) {
            self.owed = owed_now(&self.link);
        }
    }

    /// Runs the next tic, if it can be run, with the marks of the world; and builds the command that was owed,
    /// if there is room for it now. Call it again while it runs.
    pub(crate) fn run(&mut self, marks: &[i16; 4], row: &mut [Option<Move>; 4]) -> Ran
        ensures runs { RunsNext marks.now (playing self.old) (playing self.new) result (told_by result row.new) }
        ensures waits { (player : ℕ) → result ≡ ran.Waiting player → row.new ≡ row.old }
        ensures idle { result ≡ ran.NotPlaying → row.new ≡ row.old }
        ensures off { (player : ℕ) (was should : ℤ) → result ≡ ran.Inconsistent player was should
            → row.new ≡ row.old }
        ensures full { result ≡ ran.DemoFull → WritesRow row.new (playing self.old) }
    {
        let ran = self.link.run_into(marks, row);
        self.steady = after_answer(ran, self.steady);
        self.catch_up();
        ran
    }
}
