//! Ticks: the commands that its player gives.

ghost use Rattle.std.specs.Prelude.{◌≡◌, true};
ghost use Rattle.dn_session.specs.Playing.{from_turn, is_giving, owed_at, owed_now, playing, may_give, Builds, GivesWhen, PassesTick};

use super::Part;
use crate::ending::Progress;
use dn_link::Link;
use dn_machine::Made;
use dn_tic::Input;

/// Whether it plays.
pub(super) fn is_giving(progress: Progress) -> bool
    ensures { result ≡ is_giving progress }
{
    matches!(progress, Progress::Playing)
}

/// The input of a tick is built.
fn build(link: &mut Link, input: Input) -> Made
    ensures { Builds input link.old link.new result }
{
    match input {
        Input::Pressed(keys) => link.build(keys),
        Input::Given(command) => link.give(command),
    }
}

/// The player so many places behind one, around.
pub(super) fn from_turn(turn: u8, place: u8) -> u8
    ensures { result ≡ from_turn turn place }
{
    ((u16::from(turn) + u16::from(place)) % 4) as u8
}

/// To whom a datagram is owed for whom the line is not too full at this tick.
pub(super) fn owed_now(link: &Link) -> [bool; 4]
    ensures { result ≡ owed_now link.now }
{
    [
        !link.is_resting(0),
        !link.is_resting(1),
        !link.is_resting(2),
        !link.is_resting(3),
    ]
}

/// To whom one is owed at a tick. Where the window was full, all wait for the command of its input.
fn owed_at(link: &Link) -> [bool; 4]
    ensures { result ≡ owed_at link.now }
{
    if link.owes_command() {
        [false; 4]
    } else {
        owed_now(link)
    }
}

impl Part {
    /// The tick that is due goes by.
    pub(super) fn pass_tick(&mut self)
        ensures { PassesTick (playing self.old) (playing self.new) }
    {
        let lean = self.link.lean();
        self.ticks.pass(lean);
        self.owed = owed_at(&self.link);
        self.turn = from_turn(self.turn, 1);
        self.steady.tick();
    }

    /// Whether its player is to give a command now.
    pub fn wants_input(&self, now: u32) -> bool
        ensures { result ≡ may_give now (playing self.now) }
    {
        is_giving(self.progress) && self.ticks.is_due(now)
    }

    /// The input of the tick that is due is built.
    fn give_due(&mut self, input: Input, now: u32)
        ensures { GivesWhen true now input (playing self.old) (playing self.new) }
    {
        self.ticks.resume(now);
        let _ = build(&mut self.link, input);
        self.pass_tick();
    }

    /// The same where it is wanted.
    fn give_when(&mut self, is_wanted: bool, input: Input, now: u32)
        ensures { GivesWhen is_wanted now input (playing self.old) (playing self.new) }
    {
        if is_wanted {
            self.give_due(input, now);
        }
    }

    /// Its player gives the input of the tick that is due. Whether one was: else nothing changes.
    pub(crate) fn give(&mut self, input: Input, now: u32) -> bool
        ensures gives { GivesWhen (may_give now (playing self.old)) now input (playing self.old) (playing self.new) }
        ensures is { result ≡ may_give now (playing self.old) }
    {
        let wanted = self.wants_input(now);
        self.give_when(wanted, input, now);
        wanted
    }
}
