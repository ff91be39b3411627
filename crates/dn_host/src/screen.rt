//! What a session tells while it goes on, and what of a joiner that waits.

ghost use Rattle.std.specs.Prelude.{⊤};
ghost use Rattle.dn_measure.specs.declared.status.Status.{Status as Standing};
ghost use Rattle.dn_session.specs.declared.greeting.Refusal.{Refusal as Reason};
ghost use Rattle.dn_host.specs.Telling.{TellsLobby, TellsMiss, TellsWait};

use dn_measure::Status;
use dn_session::{Joiner, Refusal, Side, Stage};

/// Is told how a session goes on. What it makes of that its own relations say.
pub trait Screen {
    /// Its relation of how a game stands: before, how it stands, after.
    ghost shows: { Self → Standing → Self → Type 0 } = { λ before status after. ⊤ };

    /// Its relation of a wait: before, why, after.
    ghost waits: { Self → Reason → Self → Type 0 } = { λ before refusal after. ⊤ };

    /// Its relation of a silence: before and after.
    ghost misses: { Self → Self → Type 0 } = { λ before after. ⊤ };

    /// A second of play is over, and the game stands so.
    fn show(&mut self, status: &Status)
        ensures { shows self.old status.now self.new };

    /// The host has no seat now, for this reason, and is asked again.
    fn wait(&mut self, refusal: Refusal)
        ensures { waits self.old refusal self.new };

    /// The host has not answered for ten seconds more.
    fn miss(&mut self)
        ensures { misses self.old self.new };
}

/// Between two silences of the host that are told lie so many milliseconds at least.
const QUIET: u32 = 10_000;

/// What the screen was told of a joiner that waits.
#[derive(Clone, Copy, Debug, Default, PartialEq, Eq)]
pub(crate) struct Told {
    /// That it has no seat.
    waits: bool,
    /// When it was told last that the host is silent.
    missed: u32,
}

impl Told {
    /// Tells that it has no seat, if that is new.
    fn wait<S: Screen>(&mut self, joiner: &Joiner, screen: &mut S)
        ensures { TellsWait S.waits joiner.now self.old screen.old self.new screen.new }
    {
        let waits = matches!(joiner.stage(), Stage::Waiting);
        if waits && !self.waits {
            screen.wait(Refusal::Full);
        }
        self.waits = waits;
    }

    /// Tells that the host is silent, each ten seconds.
    fn miss<S: Screen>(&mut self, joiner: &Joiner, screen: &mut S, now: u32)
        ensures { TellsMiss S.misses now joiner.now self.old screen.old self.new screen.new }
    {
        if joiner.is_unanswered(now) && now.saturating_sub(self.missed) >= QUIET {
            screen.miss();
            self.missed = now;
        }
    }

    /// Tells how a session waits in its lobby.
    pub(crate) fn tell<S: Screen>(&mut self, lobby: &Side, screen: &mut S, now: u32)
        ensures { TellsLobby S.waits S.misses now lobby.now self.old screen.old self.new screen.new }
    {
        if let Side::Joiner(joiner) = lobby {
            self.wait(joiner, screen);
            self.miss(joiner, screen, now);
        }
    }
}
