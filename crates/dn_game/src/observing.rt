//! Who is told of each event of a game as it is played.

ghost use Rattle.std.specs.Prelude.{◌≡◌, ℕ, OnOk, IsOk, Result};
ghost use Rattle.dn_machine.specs.{declared.events.Done.Done, declared.events.Event.Event, declared.events.Refusal.Refusal};

use dn_machine::{Done, Event, Refusal};
use std::alloc::AllocError;

/// What an event did, or why it was refused.
type Answer = Result<Done, Refusal>;

/// Is told of each event, in order, with its number, counted from 0, and its answer.
pub trait Observer {
    /// What it promises of one call: before, the number, the event, the answer, after.
    ghost observes: { Self → ℕ → Event → Result Done Refusal → Self → Type 0 };

    /// Takes note of an event, or fails for lack of memory.
    fn observe(&mut self, number: usize, event: Event, answer: Answer) -> Result<(), AllocError>
        ensures { OnOk result (observes self.old number event answer self.new) };
}

/// Takes note of nothing.
#[derive(Clone, Copy, Debug, Drop)]
pub struct Nobody;

impl Observer for Nobody {
    ghost observes = { λ old number event answer new. new ≡ old };

    // It takes no memory, so it never fails.
    #[inline(always)]
    fn observe(&mut self, _number: usize, _event: Event, _answer: Answer) -> Result<(), AllocError>
        ensures seen { self.new ≡ self.old }
        ensures never { IsOk result }
    {
        Ok(())
    }
}
