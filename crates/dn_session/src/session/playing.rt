//! What the player of a session does.

use super::Session;
use dn_machine::Ran;
use dn_tic::{Input, Move};

impl Session {
    ghost use Rattle.std.specs.Prelude.{◌≡◌, ℕ, ℤ};
    ghost use Rattle.dn_lockstep.specs.Steps.{told_by};
    ghost use Rattle.dn_session.specs.{Roster.IsSide, Session.can_give, Session.holds_back_in, Session.meeting, Session.GivesPart, Session.GivesUpPart, Session.Kicks, Session.QuitsPart, Session.RunsPart, Session.HasRow};
    ghost use Rattle.dn_machine.specs.declared.answers.Ran.TheVariants as ran;

    /// Its player gives the input of the tick that is due: whether one was. Else nothing changes.
    pub fn give(&mut self, input: Input, now: u32) -> bool
        ensures { GivesPart now input (meeting self.old).part (meeting self.new).part result
            × (meeting self.new ≡ record (meeting self.old) { part = (meeting self.new).part }) }
    {
        match &mut self.part {
            Some(part) => part.give(input, now),
            None => false,
        }
    }

    /// Whether a tick is due, for which its player is to give an input.
    pub fn wants_input(&self, now: u32) -> bool
        ensures { result ≡ can_give now (meeting self.now).part }
    {
        match &self.part {
            Some(part) => part.wants_input(now),
            None => false,
        }
    }

    /// Whether the next tic should wait for the next tick, so that tics that come together are run one by one. That
    /// begins with the third gap of three to eight ticks within 320 ticks or so, and ends 960 ticks after the last at
    /// the latest.
    pub fn holds_back(&self) -> bool
        ensures { result ≡ holds_back_in (meeting self.now).part }
    {
        match &self.part {
            Some(part) => part.holds_back(),
            None => false,
        }
    }

    /// Runs the next tic, if it can be run, with the marks of the world.
    pub fn run(&mut self, marks: &[i16; 4], row: &mut [Option<Move>; 4]) -> Ran
        ensures runs { RunsPart marks.now (meeting self.old).part (meeting self.new).part result (told_by result row.new)
            × (meeting self.new ≡ record (meeting self.old) { part = (meeting self.new).part }) }
        ensures waits { (player : ℕ) → result ≡ ran.Waiting player → row.new ≡ row.old }
        ensures idle { result ≡ ran.NotPlaying → row.new ≡ row.old }
        ensures off { (player : ℕ) (was should : ℤ) → result ≡ ran.Inconsistent player was should
            → row.new ≡ row.old }
        ensures full { result ≡ ran.DemoFull → HasRow row.new (meeting self.old).part }
    {
        match &mut self.part {
            Some(part) => part.run(marks, row),
            None => Ran::NotPlaying,
        }
    }

    /// Its player leaves the game, if it plays. Poll it and send on until it is over. In the lobby it does
    /// nothing: there drop the session.
    pub fn quit(&mut self, now: u32)
        ensures { QuitsPart now (meeting self.old).part (meeting self.new).part
            × (meeting self.new ≡ record (meeting self.old) { part = (meeting self.new).part }) }
    {
        if let Some(part) = &mut self.part {
            part.quit(now);
        }
    }

    /// Its player gives up another, once the game has stood still for three seconds: any other, if it leads,
    /// and else the one that leads. Whether it did.
    pub fn give_up(&mut self, player: u8, now: u32) -> bool
        ensures { GivesUpPart player now (meeting self.old).part (meeting self.new).part result
            × (meeting self.new ≡ record (meeting self.old) { part = (meeting self.new).part }) }
    {
        match &mut self.part {
            Some(part) => part.give_up(player, now),
            None => false,
        }
    }

    /// Turns away who holds this seat, 1 to 3, if it is the host and the game has not begun.
    pub fn kick(&mut self, seat: u8)
        ensures kicks { Kicks seat (meeting self.old) (meeting self.new) }
        ensures fits { IsSide (meeting self.old).lobby → IsSide (meeting self.new).lobby }
    {
        self.side.kick(seat);
    }
}
