//! What is known of the line from a peer.

ghost use Rattle.std.specs.Prelude.{◌≡◌, ◌<◌, ◌≤◌, ◌+ℤ◌, ◌-ℤ◌, ◌||◌, None, min, nat_abs, nat_le};
ghost use Rattle.dn_lockstep.specs.Contents.{contents};
ghost use Rattle.dn_link.specs.{Line.counted, Line.heard_on, Line.lead_over, Line.missing, Line.own_echo, Line.after_newest, Line.new_line};
ghost use Rattle.dn_link.specs.Line.{is_fresh, older};

use crate::bundle::Bundle;
use crate::tally::Tally;
use dn_lockstep::Lockstep;

/// How many numbers a block has.
const BLOCK: u32 = 64;

/// How many missing datagrams make a line a lossy one.
const LOSSY: u8 = 2;

/// Within how many ticks a datagram must have come for its lead to count.
const FRESH: u8 = 4;

/// By how many commands a player leads another.
pub(crate) fn lead_over(lockstep: &Lockstep, player: u8) -> i8
    ensures { result ≡ lead_over (contents lockstep.now) player }
{
    match lockstep.got(player) {
        Some(got) => (i64::from(lockstep.made()) - i64::from(got)).clamp(-128, 127) as i8,
        None => 0,
    }
}

/// By how much one lead is more than another.
pub(crate) fn apart(one: i8, other: i8) -> i32
    ensures value { result ≡ one -ℤ other }
    ensures small { nat_abs result ≤ 255 }
{
    i32::from(one) - i32::from(other)
}

/// Four of them together.
pub(crate) fn total(first: i32, second: i32, third: i32, fourth: i32) -> i32
    requires first { nat_abs first ≤ 255 }
    requires second { nat_abs second ≤ 255 }
    requires third { nat_abs third ≤ 255 }
    requires fourth { nat_abs fourth ≤ 255 }
    ensures value { result ≡ first +ℤ second +ℤ third +ℤ fourth }
    ensures small { nat_abs result ≤ 1024 }
{
    first + second + third + fourth
}

/// What is known of the line from a peer.
#[derive(Clone, Copy)]
pub(crate) struct Line {
    /// The number of the newest datagram that came.
    pub(crate) newest: Option<u32>,
    /// How many numbers before it are missing, in its block.
    holes: u8,
    /// How many were in the block before.
    before: u8,
    /// How many its sender misses.
    pub(crate) reported_holes: u8,
    /// By how many commands its sender led.
    pub(crate) lead: i8,
    /// By how many commands this player led at its last tick.
    pub(crate) own_lead: i8,
    /// What its sender echoed.
    pub(crate) echo: u32,
    /// How many ticks ago the newest came.
    age: u8,
    /// What came.
    pub(crate) tally: Tally,
}

impl Line {
    /// From which nothing came.
    pub(crate) fn new() -> Line
        ensures { result ≡ new_line }
    {
        Line {
            newest: None,
            holes: 0,
            before: 0,
            reported_holes: 0,
            lead: 0,
            own_lead: 0,
            echo: 0,
            age: 0,
            tally: Tally::default(),
        }
    }

    /// The same line at a tick, with this player's lead over its peer by the counts of the lockstep.
    pub(crate) fn at_tick(&self, lockstep: &Lockstep, player: u8) -> Line
        ensures { result ≡ record self.now { own_lead = lead_over (contents lockstep.now) player; age = older self.now } }
    {
        Line {
            own_lead: lead_over(lockstep, player),
            age: self.older(),
            ..*self
        }
    }

    /// What is echoed: the number after that of the newest datagram that came; 0 before.
    pub(crate) fn own_echo(&self) -> u32
        ensures { result ≡ own_echo self.now }
    {
        self.newest.map_or(0, |newest| newest.wrapping_add(1))
    }

    /// How many ticks ago the newest datagram came, at the next tick.
    fn older(&self) -> u8
        ensures { result ≡ older self.now }
    {
        match self.newest {
            Some(_) => self.age.saturating_add(1),
            None => self.age,
        }
    }

    /// Whether that was at one of the last four.
    pub(crate) fn is_fresh(&self) -> bool
        ensures { result ≡ is_fresh self.now }
    {
        self.age < FRESH
    }

    /// How many of the peer's datagrams are missing.
    pub(crate) fn missing(&self) -> u8
        ensures { result ≡ missing self.now }
    {
        self.holes.max(self.before)
    }

    /// Whether the peer reports that datagrams to it are missing.
    pub(crate) fn misses(&self) -> bool
        ensures { result ≡ nat_le 2 self.now.reported_holes }
    {
        self.reported_holes >= LOSSY
    }

    /// Whether datagrams are missing, there or here.
    pub(crate) fn is_lossy(&self) -> bool
        ensures { result ≡ (nat_le 2 self.now.reported_holes || nat_le 2 (missing self.now)) }
    {
        self.misses() || self.missing() >= LOSSY
    }

    /// Counts what is missing between two datagrams.
    fn count(&mut self, newest: u32, number: u32)
        requires { newest < number }
        ensures { self.new ≡ counted newest number self.old }
    {
        let holes = (u64::from(self.holes) + u64::from(number - newest - 1)).min(255) as u8;
        if number / BLOCK == newest / BLOCK {
            self.holes = holes;
        } else {
            self.holes = 0;
            self.before = holes;
        }
    }

    /// What a datagram reported is the newest.
    fn tell(&mut self, bundle: &Bundle)
        ensures { self.new ≡ after_newest bundle.now self.old }
    {
        self.newest = Some(bundle.number);
        self.reported_holes = bundle.holes;
        self.lead = bundle.lead;
        self.echo = bundle.counts.echo;
        self.age = 0;
    }

    /// A datagram came. An old one tells nothing.
    pub(crate) fn hear(&mut self, bundle: &Bundle)
        ensures { self.new ≡ heard_on bundle.now self.old }
    {
        self.tally.count(self.newest, bundle.number);
        match self.newest {
            None => self.tell(bundle),
            Some(newest) => {
                if bundle.number > newest {
                    self.count(newest, bundle.number);
                    self.tell(bundle);
                }
            }
        }
    }
}
