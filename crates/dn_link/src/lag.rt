//! How many commands of each player this one had at its last ticks, and how far a peer lags behind.

ghost use Rattle.std.specs.Prelude.{◌≡◌, ◌<◌, ◌≤◌, ◌*◌, [], ◌∷◌, slice_index, take};
ghost use Rattle.dn_link.specs.Relays.{counted_down, handed, handed_from, is_overdue, is_slow, learned, moved, had};

use crate::bundle::Run;
use arrayvec::ArrayVec;

/// How many ticks before the newest are known.
const BEFORE: usize = 31;

/// How many commands of each player one has.
#[derive(Clone, Copy, Default)]
pub(crate) struct Had {
    pub(crate) counts: [u32; 4],
}

impl Had {
    /// How many of a player.
    pub(crate) fn of(&self, player: u8) -> u32
        requires { player < 4 }
        ensures { result ≡ slice_index self.now.counts player }
    {
        self.counts[player as usize]
    }
}

/// How many commands of each player this one had at its last ticks, the newest first.
#[derive(Drop)]
pub(crate) struct History {
    ticks: ArrayVec<Had, 32>,
}

impl History {
    /// Before the first tick.
    pub(crate) fn new() -> History
        ensures { result.ticks.items ≡ [] }
    {
        History {
            ticks: ArrayVec::new(),
        }
    }

    /// How many commands of a player it had so many ticks before the last one: 0 before its first tick, and where
    /// that is not known any more.
    pub(crate) fn had(&self, age: u8, player: u8) -> u32
        requires { player < 4 }
        ensures { result ≡ had self.now.ticks.items age player }
    {
        match self.ticks.as_slice().get(age as usize) {
            Some(had) => had.of(player),
            None => 0,
        }
    }

    /// A tick, at which it has so many.
    pub(crate) fn tick(&mut self, had: Had)
        ensures { self.new.ticks.items ≡ had ∷ take 31 self.old.ticks.items }
    {
        self.ticks.truncate(BEFORE);
        self.ticks.insert(0, had);
    }
}

/// In how many parts of a tick lags are counted.
const PARTS: u8 = 8;

/// The longest lag that is told from longer ones: with a few ticks more it is still within the history.
const LONGEST: u8 = 28 * PARTS;

/// A lag that is shorter than this is no reason to hand on commands.
const SHORT: u8 = 2 * PARTS;

/// A command is overdue if it is this many ticks older than usual.
const LATE: u8 = 3;

/// For how many ticks commands are handed on.
const STAYS_ON: u16 = 2048;

/// How many of the newest commands are handed on where none is overdue.
const NEWEST: u32 = 2;

/// The lag with the next command, which took longer than usual or less long.
fn moved(usual: u8, longer: bool, shorter: bool) -> u8
    ensures { result ≡ moved longer shorter usual }
{
    if longer {
        usual.saturating_add(1).min(LONGEST)
    } else if shorter {
        usual.saturating_sub(1)
    } else {
        usual
    }
}

/// How late a peer reports the commands of a player.
#[derive(Clone, Copy)]
pub(crate) struct Lag {
    /// How many eighths of a tick after this player had a command the peer usually reported it.
    usual: u8,
    /// How many commands the peer had reported at the last tick.
    told: u32,
    /// For how many more ticks commands are handed on.
    left: u16,
    /// The tic after the last command that was handed on.
    end: u32,
}

impl Lag {
    /// Before the first report, this many ticks long.
    pub(crate) fn new(ticks: u8) -> Lag
        requires { ticks ≤ 28 }
        ensures { result ≡ record { usual = ticks * 8; told = 0; left = 0; end = 0 } }
    {
        Lag {
            usual: ticks * PARTS,
            told: 0,
            left: 0,
            end: 0,
        }
    }

    /// What is known of the lag by the next report. The newest command of the report counts: a lag goes up by an
    /// eighth of a tick where that one took longer, and down by as much where it took less long. So half of the
    /// lags are shorter.
    pub(crate) fn learned(&self, history: &History, player: u8, reported: u32) -> Lag
        requires { player < 4 }
        ensures { result ≡ learned history.now.ticks.items player reported self.now }
    {
        if reported <= self.told {
            return *self;
        }
        let ticks = self.usual / PARTS;
        let longer = history.had(ticks + 1, player) >= reported;
        let shorter = history.had(ticks, player) < reported;
        Lag {
            usual: moved(self.usual, longer, shorter),
            told: reported,
            ..*self
        }
    }

    /// Whether the oldest command that the peer has not reported is older than usual here.
    pub(crate) fn is_overdue(&self, history: &History, player: u8, reported: u32) -> bool
        requires { player < 4 }
        ensures { result ≡ is_overdue history.now.ticks.items player reported self.now }
    {
        history.had(self.usual / PARTS + LATE, player) > reported
    }

    /// Whether commands come to the peer so late that they come earlier from this player, to whom and from whom
    /// this is the round trip.
    pub(crate) fn is_slow(&self, round_trip: &Lag) -> bool
        ensures { result ≡ is_slow round_trip.now self.now }
    {
        self.usual >= round_trip.usual && self.usual >= SHORT
    }

    /// A tick, from which on commands are handed on for a while or not.
    pub(crate) fn tick(&self, is_on: bool) -> Lag
        ensures { result ≡ counted_down is_on self.now }
    {
        let left = if is_on {
            STAYS_ON
        } else {
            self.left.saturating_sub(1)
        };
        Lag { left, ..*self }
    }

    /// The first command that is handed on of those that the peer has not reported: the oldest if it is overdue; else,
    /// for a while, the first that was not handed on before, or one of the newest, if more than what is overdue is.
    /// None if none is.
    pub(crate) fn handed_from(
        &self,
        history: &History,
        player: u8,
        reported: u32,
        got: u32,
        more: bool,
    ) -> Option<u32>
        requires { player < 4 }
        ensures { result ≡ handed_from history.now.ticks.items player reported got more self.now }
    {
        if self.is_overdue(history, player, reported) {
            Some(reported)
        } else if more && self.left > 0 {
            Some(reported.max(got.saturating_sub(NEWEST).min(self.end)))
        } else {
            None
        }
    }

    /// A run of commands is handed on.
    pub(crate) fn hand(&mut self, run: &Run)
        ensures { self.new ≡ handed run.now self.old }
    {
        let commands = (run.commands.len() / 8).min(24) as u32;
        self.end = run.start.saturating_add(commands);
    }
}
