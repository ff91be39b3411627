//! The level of what goes to the peers.

ghost use Rattle.std.specs.Prelude.{◌≡◌, ◌≤◌};
ghost use Rattle.dn_link.specs.Congestion.{aged, eased, emptied, filled, is_soon, levelled, may_step_up, new_level, patience, stepped_up};

/// The level at first: the line may be a narrow one.
const FIRST: u8 = 4;

/// The last level, at which least goes.
const LAST: u8 = 5;

/// After how many ticks in a row at which the line was full the level goes up.
const FULL_TICKS: u8 = 12;

/// After how many ticks in a row at which the line was not nearly full the level goes down.
const CLEAR_TICKS: u8 = 32;

/// The same while the level has not gone up, or not since it was 0.
const FIRST_CLEAR_TICKS: u8 = 20;

/// A step up within so many ticks of a step down comes soon.
const SOON: u16 = 256;

/// For how many ticks a level that was left too soon is not tried again.
const WAITS: u16 = 4096;

/// The level of what goes to the peers.
#[derive(Clone, Copy)]
pub(crate) struct Level {
    pub(crate) level: u8,
    /// The level does not go below this.
    pub(crate) floor: u8,
    /// For how many ticks more the floor stands.
    pub(crate) wait: u16,
    /// How many ticks ago the level went down.
    pub(crate) since: u16,
    /// At how many ticks in a row the line was full.
    pub(crate) full_ticks: u8,
    /// At how many ticks in a row the line was not nearly full.
    pub(crate) clear_ticks: u8,
    /// Whether the level went up since it was 0.
    pub(crate) tight: bool,
}

impl Level {
    /// The level before the first tick.
    pub(crate) fn new() -> Level
        ensures { result ≡ new_level }
    {
        Level {
            level: FIRST,
            floor: 0,
            wait: 0,
            since: SOON,
            full_ticks: 0,
            clear_ticks: 0,
            tight: false,
        }
    }

    /// A tick goes by at the level, at which the line was full or not.
    fn age(&mut self, full: bool)
        ensures { self.new ≡ aged full self.old }
    {
        if self.since < SOON {
            self.since += 1;
        }
        if self.wait == 1 {
            self.floor = 0;
        }
        self.wait = self.wait.saturating_sub(1);
        self.full_ticks = if full {
            self.full_ticks.saturating_add(1).min(FULL_TICKS)
        } else {
            0
        };
    }

    /// Whether a level up comes soon after a step down.
    fn is_soon(&self) -> bool
        ensures { result ≡ is_soon self.now }
    {
        self.since < SOON
    }

    /// The level goes up by one.
    fn step_up(&mut self)
        requires { self.old.level ≤ 4 }
        ensures { self.new ≡ stepped_up self.old }
    {
        let is_soon = self.is_soon();
        self.level += 1;
        if is_soon {
            self.floor = self.level;
            self.wait = WAITS;
        }
        self.since = SOON;
        self.full_ticks = 0;
        self.clear_ticks = 0;
        self.tight = true;
    }

    /// Whether the level goes up on a full line.
    fn may_step_up(&self) -> bool
        ensures { result ≡ may_step_up self.now }
    {
        self.level < LAST && self.full_ticks >= FULL_TICKS
    }

    /// Takes a tick at which the line was full.
    fn fill(&mut self)
        ensures { self.new ≡ filled self.old }
    {
        if self.may_step_up() {
            self.step_up();
        } else {
            self.clear_ticks = 0;
        }
    }

    /// Counts a tick at which the line was not full, and nearly full or not.
    fn ease(&mut self, nearly: bool)
        ensures { self.new ≡ eased nearly self.old }
    {
        self.clear_ticks = if nearly {
            0
        } else {
            self.clear_ticks.saturating_add(1).min(CLEAR_TICKS)
        };
    }

    /// After how many ticks in a row at which the line was not nearly full the level goes down.
    fn patience(&self) -> u8
        ensures { result ≡ patience self.now }
    {
        if self.tight {
            CLEAR_TICKS
        } else {
            FIRST_CLEAR_TICKS
        }
    }

    /// The level goes down by one, if the line was not nearly full for long enough.
    fn empty(&mut self)
        ensures { self.new ≡ emptied self.old }
    {
        if self.clear_ticks >= self.patience() && self.level > self.floor {
            self.tight = self.tight && self.level != 1;
            self.level -= 1;
            self.since = 0;
            self.clear_ticks = 0;
        }
    }

    /// A tick, at which the line was full or nearly full.
    pub(crate) fn tick(&mut self, full: bool, nearly: bool)
        ensures { self.new ≡ levelled full nearly self.old }
    {
        self.age(full);
        if full {
            self.fill();
        } else {
            self.ease(nearly);
            self.empty();
        }
    }
}
