//! The turns of a session, one after another.

ghost use Rattle.std.specs.Prelude.{◌≡◌, IfErr, IfOk, Some, Err};
ghost use Rattle.dn_host.specs.declared.ends.HostFault.TheVariants as fault;
ghost use Rattle.dn_lockstep.specs.declared.config.NodeFault.{NodeFault};
ghost use Rattle.dn_session.specs.Session.{begun_in, link_in, meeting, Begins};
ghost use Rattle.dn_host.specs.{Outcomes.ended_at, Outcomes.IsLeftOf, Outcomes.SumsUp, Playing.InGame, Playing.millis, Telling.Shows, Telling.ShowsEach, Telling.Tells, Turns.IsTurn, Turns.Plays, Turns.Starts, Turns.new_turns, Turns.stage_of};

use crate::ends::{Ending, HostFault, Outcome, end_of};
use crate::game::Game;
use crate::hearing::{hear_all, send_all};
use crate::plan::Plan;
use crate::screen::{Screen, Told};
use crate::system::millis;
use crate::wire::Wire;
use dn_measure::Summary;
use dn_session::{Over, Session};
use std::alloc::Global;

/// A second, in microseconds.
const SECOND: u64 = 1_000_000;

/// A session, what its player does in the game once that has begun, and what the screen was told. Times are
/// microseconds since the session began.
#[derive(Drop)]
pub(crate) struct Turns {
    session: Session,
    plan: Plan,
    game: Option<Game>,
    told: Told,
    second: u64,
}

impl Turns {
    /// Of a session that begins now.
    pub(crate) fn new(session: Session, plan: &Plan) -> Turns
        ensures { result ≡ new_turns session plan.now }
    {
        Turns {
            session,
            plan: *plan,
            game: None,
            told: Told::default(),
            second: 0,
        }
    }

    /// Its player's part in the game begins, if the game has.
    fn begin(&mut self, alloc: Global, now: u64) -> Result<(), HostFault>
        ensures starts { IfOk result (λ done. Starts self.old.plan now (meeting self.old.session) self.old.game
            (meeting self.new.session) self.new.game) }
        ensures rest { self.new ≡ record self.old { session = self.new.session; game = self.new.game } }
        ensures fault { IfErr result (λ f. (f ≡ fault.Memory) × (self.new.game ≡ self.old.game)
            × ((lacks : NodeFault) × Begins (millis now) (meeting self.old.session) (meeting self.new.session)
            (Err lacks))) }
    {
        match self.session.begin(alloc, millis(now)) {
            Ok(true) => {
                if let Some(link) = self.session.link() {
                    self.game = Some(Game::new(link, self.plan, now));
                }
                Ok(())
            }
            Ok(false) => Ok(()),
            Err(_) => Err(HostFault::Memory),
        }
    }

    /// Plays on, if its game has begun.
    fn play_on(&mut self, now: u64)
        ensures plays { InGame (Plays now) self.old.game (meeting self.old.session) self.new.game (meeting self.new.session) }
        ensures rest { self.new ≡ record self.old { session = self.new.session; game = self.new.game } }
    {
        if let Some(game) = &mut self.game {
            game.play(&mut self.session, now);
        }
    }

    /// Tells the screen how the game stands, if it has begun.
    fn show<S: Screen>(&mut self, screen: &mut S, now: u64)
        ensures shows { InGame (Shows S.shows now (link_in (meeting self.old.session).part)) self.old.game screen.old
            self.new.game screen.new }
        ensures rest { self.new ≡ record self.old { game = self.new.game } }
    {
        if let Some(game) = &mut self.game {
            if let Some(link) = self.session.link() {
                screen.show(&game.counts.status(link, game.waiting, now));
            }
        }
    }

    /// Tells it each second.
    fn show_each<S: Screen>(&mut self, screen: &mut S, now: u64)
        ensures shows { ShowsEach S.shows now (meeting self.old.session) self.old.game screen.old self.old.second
            self.new.game screen.new self.new.second }
        ensures rest { self.new ≡ record self.old { game = self.new.game; second = self.new.second } }
    {
        if now >= self.second {
            self.second = now.saturating_add(SECOND);
            self.show(screen, now);
        }
    }

    /// Tells the screen how it waits, and each second how the game stands.
    fn tell<S: Screen>(&mut self, screen: &mut S, now: u64)
        ensures tells { Tells S.shows S.waits S.misses now (meeting self.old.session) self.old.game
            (record { screen = screen.old; told = self.old.told; second = self.old.second }) self.new.game
            (record { screen = screen.new; told = self.new.told; second = self.new.second }) }
        ensures session { self.new.session ≡ self.old.session }
        ensures plan { self.new.plan ≡ self.old.plan }
    {
        self.told.tell(self.session.lobby(), screen, millis(now));
        self.show_each(screen, now);
    }

    /// How it ends, if it does.
    pub(crate) fn ending(&self) -> Option<Ending>
        ensures { result ≡ ended_at (meeting self.now.session) self.now.game }
    {
        match (self.session.over()?, &self.game) {
            (Over::Refused(refusal), _) => Some(Ending::Refused(refusal)),
            (Over::Hinted(hint), _) => Some(Ending::Hinted(hint)),
            (Over::Ended(end), Some(game)) => Some(Ending::Ended(game.end.unwrap_or(end_of(end)))),
            (Over::Ended(_), None) => None,
        }
    }

    /// One turn at this time. Whether there may be more datagrams to read.
    pub(crate) fn turn<W: Wire, S: Screen>(
        &mut self,
        alloc: Global,
        wire: &mut W,
        screen: &mut S,
        now: u64,
    ) -> Result<bool, HostFault>
        ensures turn { IsTurn W.sends W.polls S.shows S.waits S.misses self.old.plan now
            (stage_of self.old wire.old screen.old) (stage_of self.new wire.new screen.new) result }
        ensures plan { self.new.plan ≡ self.old.plan }
        ensures fault { IfErr result (λ f. f ≡ fault.Memory) }
    {
        let is_busy = hear_all(&mut self.session, &mut self.game, wire, now);
        self.session.poll(millis(now));
        self.begin(alloc, now)?;
        self.play_on(now);
        send_all(&mut self.session, wire);
        self.tell(screen, now);
        Ok(is_busy)
    }

    /// What was measured. The time in which its player was leaving is no part of it; what came from each player then
    /// is.
    fn summary(&self, now: u64) -> Option<Summary>
        ensures { SumsUp now (begun_in (meeting self.now.session).lobby) self.now.game
            (link_in (meeting self.now.session).part) result }
    {
        let begun = self.session.begun()?;
        let game = self.game.as_ref()?;
        let link = self.session.link()?;
        let end = game.left.unwrap_or(now);
        Some(game.counts.summary(link, end, begun.terms.rate))
    }

    /// What is left of it once it has ended so.
    pub(crate) fn outcome(self, ending: Ending, now: u64) -> Outcome
        ensures { ended_at (meeting self.session) self.game ≡ Some ending
            → IsLeftOf now (meeting self.session) self.game result }
    {
        let summary = self.summary(now);
        Outcome {
            ending,
            link: self.session.into_link(),
            summary,
        }
    }
}
