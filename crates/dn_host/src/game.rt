//! What a session's player does in the game, and what is counted of it.

ghost use Rattle.std.specs.Prelude.{◌≡◌, Bool};
ghost use Rattle.dn_session.specs.Session.{can_give, holds_back_in, meeting};
ghost use Rattle.dn_host.specs.{Playing.GivesInput, Playing.IsBegun, Playing.NotesIn, Playing.RunsWalk, Playing.RunsWhen, Playing.millis, Turns.Gives, Turns.Plays, Turns.Repeats, Turns.Runs};

use crate::counts::Counts;
use crate::plan::Plan;
use crate::system::millis;
use crate::walking::{begun_by, marks_of, waits_for};
use dn_link::Link;
use dn_machine::Ran;
use dn_measure::End;
use dn_session::Session;
use dn_tic::{Input, Keys};
use dn_world::{Walk, World};
use rand_core::utils::NextWord;
use rand_pcg::Lcg64Xsh32;

/// How many inputs are given at once at most, and how many tics run: more than a session ever has.
const MOST: u32 = 32;

/// What a session's player does in the game. Times are microseconds since the session began.
#[derive(Drop)]
pub(crate) struct Game {
    walk: Walk,
    keys: Lcg64Xsh32,
    /// For whose command the next tic waited when it was last tried.
    pub(crate) waiting: Option<u8>,
    pub(crate) counts: Counts,
    /// When its seconds are over; for 0 of them never.
    pub(crate) until: u64,
    /// When it began to leave,
    pub(crate) left: Option<u64>,
    /// and why, if its session does not know that.
    pub(crate) end: Option<End>,
}

impl Game {
    /// The game of this link begins now: with keys that are drawn from the plan's seed, and for its seconds.
    pub(crate) fn new(link: &Link, plan: Plan, now: u64) -> Game
        ensures { IsBegun link.now plan now result }
    {
        Game {
            walk: begun_by(link),
            keys: Lcg64Xsh32::new(plan.seed, u64::from(link.lockstep().me())),
            waiting: None,
            counts: Counts::new(now),
            until: match plan.seconds {
                0 => u64::MAX,
                seconds => now.saturating_add(u64::from(seconds) * 1_000_000),
            },
            left: None,
            end: None,
        }
    }

    /// Counts what its session did.
    fn note(&mut self, session: &Session, now: u64)
        ensures { NotesIn now (meeting session.now) self.old self.new }
    {
        if let Some(link) = session.link() {
            self.counts.note(link.lockstep(), now);
        }
    }

    /// Gives the next keys, if a tick is due. Whether one was.
    fn give(&mut self, session: &mut Session, now: u64) -> bool
        ensures gives { GivesInput (millis now) result self.old.keys (meeting session.old) self.new.keys
            (meeting session.new) }
        ensures due { result ≡ can_give (millis now) (meeting session.old).part }
        ensures rest { self.new ≡ record self.old { keys = self.new.keys } }
    {
        if !session.wants_input(millis(now)) {
            return false;
        }
        let keys = Keys::from_bits(self.keys.next_word());
        session.give(Input::Pressed(keys), millis(now))
    }

    /// Runs the next tic, if it can be run, with the marks of the walk, which goes on by the row of that tic and by
    /// nothing else. Whether it was run.
    fn run_now(&mut self, session: &mut Session) -> bool
        ensures runs { RunsWalk self.old.walk (meeting session.old) (meeting session.new) self.new.walk result
            self.new.waiting }
        ensures rest { self.new ≡ record self.old { walk = self.new.walk; waiting = self.new.waiting } }
    {
        let mut row = [None; 4];
        let ran = session.run(&marks_of(&self.walk), &mut row);
        self.waiting = waits_for(ran);
        if !matches!(ran, Ran::Ran(_)) {
            return false;
        }
        self.walk.step(&row);
        true
    }

    /// The same, unless the tic should wait for the next tick.
    fn run(&mut self, session: &mut Session) -> bool
        ensures runs { RunsWhen (holds_back_in (meeting session.old).part) self.old.walk (meeting session.old)
            (meeting session.new) self.new.walk result self.new.waiting }
        ensures rest { self.new ≡ record self.old { walk = self.new.walk; waiting = self.new.waiting } }
    {
        if session.holds_back() {
            self.waiting = None;
            return false;
        }
        self.run_now(session)
    }

    /// Gives the inputs that are due, and counts what came of each.
    fn give_all(&mut self, session: &mut Session, now: u64)
        ensures { (all : Bool) × Repeats (Gives now) 32 self.old (meeting session.old) self.new (meeting session.new) all }
    {
        for given in 0..MOST {
            let was_due = self.give(session, now);
            self.note(session, now);
            if !was_due {
                return;
            }
        }
    }

    /// Runs all tics that can be run, and counts each.
    fn run_all(&mut self, session: &mut Session, now: u64)
        ensures { (all : Bool) × Repeats (Runs now) 32 self.old (meeting session.old) self.new (meeting session.new) all }
    {
        for ran in 0..MOST {
            let has_run = self.run(session);
            self.note(session, now);
            if !has_run {
                return;
            }
        }
    }

    /// Plays on, and leaves if it is time.
    pub(crate) fn play(&mut self, session: &mut Session, now: u64)
        ensures { Plays now self.old (meeting session.old) self.new (meeting session.new) }
    {
        self.give_all(session, now);
        self.run_all(session, now);
        self.leave(session, now);
    }
}
