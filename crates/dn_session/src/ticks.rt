//! When a player's ticks are due.

ghost use Rattle.std.specs.Prelude.{◌≡◌, ◌<◌, ◌≤◌, ◌^◌, nat_abs};
ghost use Rattle.dn_session.specs.Ticks.{half_taken, is_due, is_late, later, new_ticks, next, parts_of_tick, parts_to_next, passed, resumed};
ghost use Rattle.dn_session.specs.Joining.{has_come};

/// When a player's ticks are due. Times are milliseconds of its own clock.
///
/// A tick is no whole number of milliseconds, so it is counted in parts, of which a millisecond has 32 for each
/// tick of a second: then a tick has 32,000, whatever the rate, and each 32nd of a tick 1,000.
#[derive(Clone, Copy, Debug, PartialEq, Eq)]
pub struct Ticks {
    /// How many come in a second; one at least.
    pub rate: u8,
    /// When the next is due.
    pub due: u32,
    /// How many parts of a millisecond later.
    pub rest: u32,
    /// When the datagrams half a tick after the last one are due, until they are taken.
    pub half: Option<u32>,
}

impl Ticks {
    ghost use Rattle.dn_link.specs.Leaning.{IsLean};
    /// So many in a second, from this time on.
    pub fn new(rate: u8, now: u32) -> Ticks
        ensures { result ≡ new_ticks rate now }
    {
        Ticks {
            rate,
            due: now,
            rest: 0,
            half: None,
        }
    }

    /// Whether a tick is due.
    pub fn is_due(&self, now: u32) -> bool
        ensures { result ≡ is_due now self.now }
    {
        self.due <= now
    }

    /// Whether it is more than eight ticks late.
    fn is_late(&self, now: u32) -> bool
        ensures { result ≡ is_late now self.now }
    {
        u64::from(self.due) + u64::from(8000 / u32::from(self.rate.max(1))) < u64::from(now)
    }

    /// Where a tick is more than eight ticks late, they go on from now: those that were missed are left out.
    pub fn resume(&mut self, now: u32)
        ensures { self.new ≡ resumed now self.old }
    {
        if self.is_late(now) {
            self.due = now;
            self.rest = 0;
        }
    }

    /// How many parts a tick has that is by so many 32nds longer than usual.
    fn parts_of_tick(lean: i8) -> u64
        requires { IsLean lean }
        ensures value { result ≡ parts_of_tick lean }
        ensures range { result ≤ 73000 }
    {
        1000 * u64::from((32 + lean).max(1).unsigned_abs())
    }

    /// How many parts after the millisecond in which this tick was due the next one is.
    fn parts_to_next(&self, lean: i8) -> u64
        requires { IsLean lean }
        ensures value { result ≡ parts_to_next lean self.now }
        ensures range { result < 2 ^ 33 }
    {
        u64::from(self.rest) + Ticks::parts_of_tick(lean)
    }

    /// The time that comes so much later, or the last that there is.
    fn later(time: u32, by: u64) -> u32
        requires { by < 2 ^ 33 }
        ensures { result ≡ later time by }
    {
        (u64::from(time) + by).min(u64::from(u32::MAX)) as u32
    }

    /// The tick that was due has passed, and the next comes by so many 32nds of a tick later than usual.
    pub fn pass(&mut self, lean: i8)
        requires { IsLean lean }
        ensures { self.new ≡ passed lean self.old }
    {
        let parts = self.parts_to_next(lean);
        let whole = 32 * u64::from(self.rate.max(1));
        let due = self.due;
        self.due = Ticks::later(due, parts / whole);
        self.rest = (parts % whole) as u32;
        self.half = Some(Ticks::later(due, parts / (2 * whole)));
    }

    /// Takes the datagrams half a tick after the last one, if they are due.
    pub fn takes_half(&mut self, now: u32) -> bool
        ensures taken { result ≡ has_come now self.old.half }
        ensures after { self.new ≡ half_taken now self.old }
    {
        match self.half {
            Some(half) if half <= now => {
                self.half = None;
                true
            }
            _ => false,
        }
    }

    /// When something is due next.
    pub fn next(&self) -> u32
        ensures { result ≡ next self.now }
    {
        match self.half {
            Some(half) => self.due.min(half),
            None => self.due,
        }
    }
}
