//! The round trips of a peer, in ticks.

ghost use Rattle.std.specs.Prelude.{◌≡◌, ◌≤◌, ◌∷◌, length, take};
ghost use Rattle.dn_link.specs.Congestion.{acknowledged, base_after, is_above, is_known, is_short, least, moved_base, new_trip, round_trip, second_least, ticks_since, timed};

use arrayvec::ArrayVec;

/// How many round trips are known.
const KNOWN: usize = 8;

/// The longest, in ticks, and any that is longer.
const LONGEST: u8 = 32;

/// In how many parts of a tick that of an empty line is counted.
const PARTS: u16 = 72;

/// By how many of these it goes down.
const DOWN: u16 = 9;

/// The longest, in these.
const LONGEST_BASE: u16 = 2304;

/// On a short line it is less than so many ticks.
const SHORT: u16 = 10;

/// At how many of the last ticks this many commands had been made.
fn ticks_since(count: u32, made: &[u32]) -> u8
    requires { length made.now ≤ 32 }
    ensures value { result ≡ ticks_since count made.now }
    ensures small { result ≤ 32 }
{
    let mut ticks = 0;
    let mut rest = made;
    'ticks: while let Some((made, earlier)) = rest.split_first() {
        if count > *made {
            break;
        }
        ticks += 1;
        rest = earlier;
    }
    ticks
}

/// The shortest of these round trips.
fn least(trips: &[u8]) -> u8
    ensures value { result ≡ least trips.now }
    ensures small { result ≤ 32 }
{
    let mut least = LONGEST;
    let mut rest = trips;
    'trips: while let Some((ticks, after)) = rest.split_first() {
        least = least.min(*ticks);
        rest = after;
    }
    least
}

/// The shortest but one of these round trips.
fn second_least(trips: &[u8]) -> u8
    ensures value { result ≡ second_least trips.now }
    ensures small { result ≤ 32 }
{
    let mut least = LONGEST;
    let mut second = LONGEST;
    let mut rest = trips;
    'trips: while let Some((ticks, after)) = rest.split_first() {
        second = second.min(least.max(*ticks));
        least = least.min(*ticks);
        rest = after;
    }
    second
}

/// The round trip of an empty line, after one of so many ticks.
fn moved_base(ticks: u8, base: u16) -> u16
    ensures { result ≡ moved_base ticks base }
{
    let whole = base / PARTS;
    if u16::from(ticks) > whole {
        base.saturating_add(1).min(LONGEST_BASE)
    } else if u16::from(ticks) < whole {
        base.saturating_sub(DOWN)
    } else {
        base
    }
}

/// What is known of the round trips of a peer.
#[derive(Drop)]
pub(crate) struct Trip {
    /// How many commands of the player it had reported at the last tick.
    pub(crate) told: u32,
    /// The last eight round trips, the newest first.
    pub(crate) last: ArrayVec<u8, 8>,
    /// That of an empty line, in 72nds of a tick.
    pub(crate) base: u16,
}

impl Trip {
    /// Of which nothing is known.
    pub(crate) fn new() -> Trip
        ensures { result ≡ new_trip }
    {
        Trip {
            told: 0,
            last: ArrayVec::new(),
            base: 0,
        }
    }

    /// The round trip of an empty line, after one of so many ticks.
    fn base_after(&self, ticks: u8) -> u16
        ensures { result ≡ base_after ticks self.now }
    {
        if self.last.len() < KNOWN {
            let last = self.last.as_slice();
            PARTS * u16::from(least(last).max(ticks.min(second_least(last))))
        } else {
            moved_base(ticks, self.base)
        }
    }

    /// A round trip.
    fn time(&mut self, ticks: u8)
        ensures { self.new ≡ timed ticks self.old }
    {
        self.base = self.base_after(ticks);
        self.last.truncate(KNOWN - 1);
        self.last.insert(0, ticks);
    }

    /// It has reported so many commands, by how many had been made at each of the last ticks.
    pub(crate) fn acknowledge(&mut self, count: u32, made: &[u32])
        requires { length made.now ≤ 32 }
        ensures { self.new ≡ acknowledged count made.now self.old }
    {
        if count > self.told {
            self.time(ticks_since(count, made).max(1));
            self.told = count;
        }
    }

    /// Whether eight are known.
    pub(crate) fn is_known(&self) -> bool
        ensures { result ≡ is_known self.now }
    {
        self.last.len() == KNOWN
    }

    /// Whether that of an empty line is short.
    pub(crate) fn is_short(&self) -> bool
        ensures { result ≡ is_short self.now }
    {
        self.base / PARTS < SHORT
    }

    /// Whether each of these is so many ticks longer than on an empty line, or more.
    pub(crate) fn is_above(&self, ticks: u8) -> bool
        ensures { result ≡ is_above ticks self.now }
    {
        self.base / PARTS + u16::from(ticks) <= u16::from(least(self.last.as_slice()))
    }
}
