//! What came over a line, and what is known of it, in numbers for the screen.

ghost use Rattle.std.specs.Prelude.{◌≡◌, ◌<◌, ◌≤◌};
ghost use Rattle.dn_link.specs.{Tally.{falls_back, goes_on, seen_later, tallied}, Linked.figures_of};

use crate::line::Line;

/// How many of the last numbers are known one by one.
const KNOWN: u32 = 64;

/// What came over a line.
#[derive(Clone, Copy, Default)]
pub(crate) struct Tally {
    /// How many datagrams came.
    pub(crate) came: u32,
    /// How many numbers before the newest did not.
    pub(crate) lost: u32,
    /// How many came twice.
    pub(crate) repeated: u32,
    /// How many came too late to tell whether they had come before.
    pub(crate) too_old: u32,
    /// Which of the last numbers came, the newest in the lowest bit.
    seen: u64,
}

/// Which came, so many numbers later.
fn seen_later(step: u32, seen: u64) -> u64
    ensures { result ≡ seen_later step seen }
{
    if step < KNOWN { seen << step | 1 } else { 1 }
}

impl Tally {
    /// A newer one came.
    fn go_on(&mut self, step: u32)
        requires { 1 ≤ step }
        ensures { self.new ≡ goes_on step self.old }
    {
        self.came = self.came.saturating_add(1);
        self.lost = self.lost.saturating_add(step - 1);
        self.seen = seen_later(step, self.seen);
    }

    /// One that is no newer than the newest came: too late to tell, again, or late.
    fn fall_back(&mut self, back: u32)
        ensures { self.new ≡ falls_back back self.old }
    {
        if back >= KNOWN {
            self.too_old = self.too_old.saturating_add(1);
        } else if (self.seen >> back) & 1 == 1 {
            self.repeated = self.repeated.saturating_add(1);
        } else {
            self.came = self.came.saturating_add(1);
            self.lost = self.lost.saturating_sub(1);
            self.seen |= 1 << back;
        }
    }

    /// A datagram of this number came, after the newest.
    pub(crate) fn count(&mut self, newest: Option<u32>, number: u32)
        ensures { self.new ≡ tallied newest number self.old }
    {
        match newest {
            None => {
                self.came = self.came.saturating_add(1);
                self.seen = 1;
            }
            Some(newest) => {
                if number > newest {
                    self.go_on(number - newest);
                } else {
                    self.fall_back(newest - number);
                }
            }
        }
    }
}

/// What is known of the line to a peer. Counts stop at the largest number of 32 bits.
#[derive(Clone, Copy, Debug, PartialEq, Eq)]
pub struct Figures {
    /// How many of its datagrams came.
    pub came: u32,
    /// How many of them did not, of those numbered before the newest.
    pub lost: u32,
    /// How many came again, less than 64 behind the newest.
    pub repeated: u32,
    /// How many came too late to tell whether they had come before.
    pub too_old: u32,
    /// How many of the last ones to it did not come there, or came after newer ones, as its newest datagram
    /// reported.
    pub missing_there: u8,
    /// By how many commands this player led it, at this player's last tick.
    pub lead: i8,
    /// By how many commands it led this player, as its newest datagram reported.
    pub lead_there: i8,
    /// The number after that of the newest datagram to it that had come there, as its newest datagram reported; 0 while
    /// none had.
    pub echo: u32,
}

impl Figures {
    /// Those of a line.
    pub(crate) fn of(line: &Line) -> Figures
        ensures { result ≡ figures_of line.now }
    {
        Figures {
            came: line.tally.came,
            lost: line.tally.lost,
            repeated: line.tally.repeated,
            too_old: line.tally.too_old,
            missing_there: line.reported_holes,
            lead: line.own_lead,
            lead_there: line.lead,
            echo: line.echo,
        }
    }
}
