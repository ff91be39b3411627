//! What is counted of a game from its beginning on, and how it stands.

ghost use Rattle.std.specs.Prelude.{◌≡◌, ◌++◌, ℕ, List, replicate, nat_lt, if◌then◌else◌};
ghost use Rattle.dn_link.specs.{Linking.linked, Pacing.pace_of};
ghost use Rattle.dn_measure.specs.{Measure.IsMeasureOf, Measure.IsSummaryOf, declared.measure.Told.Told};
ghost use Rattle.dn_session.specs.Coming.{lines_in};
ghost use Rattle.dn_host.specs.Arrived.{came_of_each, late_in, IsSomeMeasure};

use crate::arrivals::{Lines, came_of_each, late_in, lines_of, standings_in};
use dn_link::Link;
use dn_lockstep::Lockstep;
use dn_measure::{Measure, Status, Summary, Told};

/// After how long without a tic it is told for whom the game waits, in microseconds.
const GAP: u64 = 100_000;

/// What is counted of a game, from its beginning on.
#[derive(Drop)]
pub(crate) struct Counts {
    measure: Measure,
    /// How many datagrams of each player came late.
    late: [u32; 4],
    /// How many commands were built, and how many tics run.
    made: u32,
    ran: u32,
    /// When the last tic was run, or the game began.
    moved: u64,
    /// How many tics were run up to the last line, and when that was.
    shown: u32,
    since: u64,
    ghost measured: { IsSomeMeasure measure },
}

/// Tells so often the same.
fn tell(measure: &mut Measure, told: Told, times: u32)
    ensures { (start : ℕ) (before : List Told) → IsMeasureOf measure.old start before
        → IsMeasureOf measure.new start (before ++ replicate times told) }
{
    for _ in 0..times {
        measure.tell(told);
    }
}

/// When the last tic was run, if so many are run now, and so many were before.
fn moved_at(ran: u32, before: u32, now: u64, moved: u64) -> u64
    ensures { result ≡ (if nat_lt before ran then now else moved) }
{
    if ran > before { now } else { moved }
}

impl Counts {
    ghost use Rattle.dn_lockstep.specs.Contents.{contents};
    ghost use Rattle.dn_host.specs.Playing.{AreTold, IsFresh, NotesMore, status_at};

    /// Nothing, of a game that begins now.
    pub(crate) fn new(now: u64) -> Counts
        ensures { IsFresh now result }
    {
        Counts {
            measure: Measure::new(now),
            late: [0; 4],
            made: 0,
            ran: 0,
            moved: now,
            shown: 0,
            since: now,
        }
    }

    /// Counts the tics that were run since the last time, and the commands that were built after them.
    pub(crate) fn note(&mut self, lockstep: &Lockstep, now: u64)
        ensures { NotesMore now (contents lockstep.now) self.old self.new }
    {
        let (made, ran) = (lockstep.made(), lockstep.ran());
        let (built, went) = (made.saturating_sub(self.made), ran.saturating_sub(self.ran));
        tell(&mut self.measure, Told::Ran(now), went);
        tell(&mut self.measure, Told::Built(now), built);
        self.moved = moved_at(ran, self.ran, now, self.moved);
        self.made = made;
        self.ran = ran;
    }

    /// Counts the datagram that came between these figures of the lines, if it came late.
    pub(crate) fn come(&mut self, before: &Option<Lines>, after: &Option<Lines>)
        ensures { self.new ≡ record self.old { late = late_in before.now after.now self.old.late } }
    {
        self.late = late_in(before, after, self.late);
    }

    /// How the game stands, if its next tic waits for this player; from now on the tics are counted anew for the
    /// next time.
    pub(crate) fn status(&mut self, link: &Link, waiting: Option<u8>, now: u64) -> Status
        ensures status { result ≡ status_at self.old (linked link.now) (pace_of link.now) waiting now }
        ensures told { AreTold now self.old self.new }
    {
        let is_held_up = now.saturating_sub(self.moved) > GAP;
        let status = Status {
            tics: u64::from(self.ran.saturating_sub(self.shown)),
            micros: now.saturating_sub(self.since),
            waiting: if is_held_up { waiting } else { None },
            refused: link.refused(),
            peers: standings_in(&lines_of(link), self.late),
        };
        self.shown = self.ran;
        self.since = now;
        status
    }

    /// What was measured up to now, and what came of each player.
    pub(crate) fn summary(&self, link: &Link, now: u64, rate: u8) -> Summary
        ensures { (start : ℕ) (told : List Told) → IsMeasureOf self.now.measure start told → IsSummaryOf start told now
            rate (came_of_each (lines_in (linked link.now) (pace_of link.now)) self.now.late) result }
    {
        let peers = came_of_each(&lines_of(link), self.late);
        self.measure.summary(now, rate, peers)
    }
}
