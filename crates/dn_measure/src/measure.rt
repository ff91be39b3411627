//! What a session tells of its own commands, what it counts as it goes, and what it measured.

use crate::arrivals::Arrivals;
use crate::felt::{BINS, Felt, bin_of, felt_of};
use crate::histogram::Histogram;
use crate::runs::Runs;
use arrayvec::ArrayVec;

/// What a session tells as it happens, with the time in microseconds.
#[derive(Clone, Copy, Debug, PartialEq, Eq)]
pub enum Told {
    /// A command was built.
    Built(u64),
    /// A tic was run.
    Ran(u64),
}

/// What a session measured over the time of play. Times are in microseconds.
#[derive(Clone, Copy, Debug, PartialEq, Eq)]
pub struct Summary {
    /// How many tics a second the clock gave.
    pub rate: u8,
    /// How many tics were run. Counts stop at the largest number of 64 bits.
    pub tics: u64,
    /// How long the game was played.
    pub micros: u64,
    /// How many times between two tics were longer than 100 ms. The time from the last tic on is one of them,
    /// the time before the first is none.
    pub gaps: u64,
    /// The longest of these times.
    pub longest: u64,
    /// Within which time half of the commands were run, after each was built.
    pub half: Felt,
    /// Within which time 95 of a hundred were.
    pub most: Felt,
    /// What came from each player, and None for this player and for a number that is no player's.
    pub peers: [Option<Arrivals>; 4],
}

/// How many commands can wait to be run: as many as the widest window has.
const WAITING: usize = 12;

/// What is counted of a game from its beginning on. Times are in microseconds, by a clock that never goes back.
#[derive(Debug, Drop)]
pub struct Measure {
    start: u64,
    runs: Runs,
    waiting: ArrayVec<u64, WAITING>,
    keys: Histogram<BINS>,
}

impl Measure {
    ghost use Rattle.std.specs.Prelude.{◌≡◌, ◌≤◌, ℕ, List, [], ◌∷◌, ◌++◌};
    ghost use Rattle.dn_measure.specs.{declared.measure.Told.Told, declared.measure.Told.TheVariants.Built, declared.measure.Told.TheVariants.Ran, Measure.IsMeasureOf, Measure.IsSummaryOf};

    /// Nothing, of a game that begins now.
    pub fn new(start: u64) -> Measure
        ensures { IsMeasureOf result start [] }
    {
        Measure {
            start,
            runs: Runs::new(),
            waiting: ArrayVec::new(),
            keys: Histogram::new(),
        }
    }

    /// A command was built.
    fn build(&mut self, now: u64)
        ensures { (start : ℕ) (told : List Told) → IsMeasureOf self.old start told
            → IsMeasureOf self.new start (told ++ Built now ∷ []) }
    {
        if !self.waiting.is_full() {
            self.waiting.push(now);
        }
    }

    /// A tic was run.
    fn run(&mut self, now: u64)
        ensures { (start : ℕ) (told : List Told) → IsMeasureOf self.old start told
            → IsMeasureOf self.new start (told ++ Ran now ∷ []) }
    {
        self.runs.add(now);
        if !self.waiting.is_empty() {
            let built = self.waiting.remove(0);
            self.keys.add(bin_of(now.saturating_sub(built)));
        }
    }

    /// Counts what is told.
    pub fn tell(&mut self, told: Told)
        ensures { (start : ℕ) (before : List Told) → IsMeasureOf self.old start before
            → IsMeasureOf self.new start (before ++ told ∷ []) }
    {
        match told {
            Told::Built(now) => self.build(now),
            Told::Ran(now) => self.run(now),
        }
    }

    /// What was measured up to now, of a game whose clock gives so many tics a second, with what came from each
    /// player since it began.
    pub fn summary(&self, now: u64, rate: u8, peers: [Option<Arrivals>; 4]) -> Summary
        ensures { (start : ℕ) (told : List Told) → IsMeasureOf self.now start told
            → IsSummaryOf start told now rate peers result }
    {
        let mut runs = self.runs;
        runs.wait_until(now);
        Summary {
            rate,
            tics: runs.count,
            micros: now.saturating_sub(self.start),
            gaps: runs.gaps,
            longest: runs.longest,
            half: felt_of(self.keys.percentile(50)),
            most: felt_of(self.keys.percentile(95)),
            peers,
        }
    }
}
