//! When a tic that could be run waits for the next tick, so that tics that come together are run one by one.

ghost use Rattle.std.specs.Prelude.{◌≡◌, ◌&&◌, not};
ghost use Rattle.dn_session.specs.Steady.{has_waited, holds, is_rough, new_steady, after_tic, ticked};

/// How many ticks without a tic are felt as a gap: more are a game that stands still.
const SHORTEST: u8 = 3;

const LONGEST: u8 = 8;

/// For how many ticks a gap counts.
const GAP: u16 = 320;

/// Tics are held back while gaps count for more than this, so from the third on,
const ROUGH: u16 = 640;

/// and for so many at most.
const MOST: u16 = 1600;

/// What is known of how evenly tics come.
#[derive(Clone, Copy, Debug, PartialEq, Eq)]
pub struct Steady {
    /// Whether no tic was run since the last tick.
    pub is_free: bool,
    /// How many ticks came since a tic was run.
    pub idle: u8,
    /// For how many ticks the gaps count.
    pub gaps: u16,
}

impl Steady {
    /// Before the first tic.
    pub fn new() -> Steady
        ensures { result ≡ new_steady }
    {
        Steady {
            is_free: true,
            idle: 0,
            gaps: 0,
        }
    }

    /// A tick.
    pub fn tick(&mut self)
        ensures { self.new ≡ ticked self.old }
    {
        self.is_free = true;
        self.idle = self.idle.saturating_add(1);
        self.gaps = self.gaps.saturating_sub(1);
    }

    /// Whether the next tic ends a gap.
    fn has_waited(&self) -> bool
        ensures { result ≡ has_waited self.now }
    {
        SHORTEST <= self.idle && self.idle <= LONGEST
    }

    /// A tic is run.
    pub fn run(&mut self)
        ensures { self.new ≡ after_tic self.old }
    {
        if self.has_waited() {
            self.gaps = self.gaps.saturating_add(GAP).min(MOST);
        }
        self.is_free = false;
        self.idle = 0;
    }

    /// Whether tics come unevenly.
    fn is_rough(&self) -> bool
        ensures { result ≡ is_rough self.now }
    {
        self.gaps > ROUGH
    }

    /// Whether the next tic waits for the next tick, where no other could be run behind it.
    pub fn holds(&self, has_more: bool) -> bool
        ensures { result ≡ holds has_more self.now }
    {
        self.is_rough() && !self.is_free && !has_more
    }
}
