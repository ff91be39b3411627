//! How a node starts to play, and how it ends.

ghost use Rattle.std.specs.Prelude.{◌≡◌, true, false};
ghost use Rattle.dn_lockstep.specs.Phases.{is_waiting};
ghost use Rattle.dn_machine.specs.declared.answers.Phase.TheVariants.{Playing, Ended};

use super::Lockstep;
use crate::recording::close;
use crate::rows::seats;
use dn_machine::{Cause, Phase};
use dn_setup::Settings;

impl Lockstep {
    ghost use Rattle.std.specs.Prelude.{◌≤◌, ◌-◌, ℕ};
    ghost use Rattle.dn_setup.specs.Settings.{Settings as Choice};
    ghost use Rattle.dn_machine.specs.{Game.fresh, Limits.Limits, Started.key_node, Started.started_node};
    ghost use Rattle.dn_lockstep.specs.{Contents.whose, Opening.IsGame, Represents.Represents};
    ghost use Rattle.dn_machine.specs.{Hearing.started, Running.on_quit};
    ghost use Rattle.dn_lockstep.specs.{Contents.contents, Steps.Steps, Steps.Becomes};

    /// Begins to play a game of these settings.
    pub(super) fn start(&mut self, settings: Settings)
        requires { is_waiting (contents self.old).phase ≡ true }
        ensures { Becomes (contents self.old) (contents self.new) (λ limits me m. started m settings) }
    {
        let start = settings.start();
        let present = seats(self.players);
        self.phase = Phase::Playing;
        self.played = true;
        self.settings = Some(settings);
        self.demo.head(&start, self.me, present);
    }

    /// Player 0 notes this player, if the game has it and has not started.
    fn note(&mut self, player: u8)
        requires { (1 ≤ player) × (player ≤ 3) }
        ensures same { whose (contents self.new) ≡ whose (contents self.old) }
        ensures noted { (limits : Limits) (choice : Choice)
            → Represents limits 0 (contents self.old) (key_node limits.players choice (player - 1))
            → Represents limits 0 (contents self.new) (key_node limits.players choice player) }
    {
        if player >= self.players {
            return;
        }
        if let Phase::Gathering = self.phase {
            self.hear_gathering(player);
        }
    }

    /// Starts, where each player was given these settings.
    pub(super) fn begin(&mut self, settings: Settings)
        requires { is_waiting (contents self.old).phase ≡ true }
        ensures same { whose (contents self.new) ≡ whose (contents self.old) }
        ensures begun { (limits : Limits) (me : ℕ) → IsGame limits.players
            → Represents limits me (contents self.old) (fresh settings me)
            → Represents limits me (contents self.new) (started_node limits.players settings me) }
    {
        if self.me > 0 {
            self.start(settings);
            return;
        }
        self.note(1);
        self.note(2);
        self.note(3);
    }

    /// Ends a node that plays, and closes its demo where it is open.
    pub(super) fn finish(&mut self, cause: Cause)
        requires { (contents self.old).phase ≡ Playing }
        ensures { Becomes (contents self.old) (contents self.new)
            (λ limits me m. record m { phase = Ended cause }) }
    {
        self.phase = Phase::Ended(cause);
        close(&mut self.demo);
    }

    /// Ends the node, and answers whether it had not ended.
    pub fn quit(&mut self) -> bool
        ensures step { Steps (contents self.old) (contents self.new)
            (λ limits me m. on_quit m) (λ quit. result ≡ quit) }
        ensures idle { result ≡ false → contents self.new ≡ contents self.old }
    {
        match self.phase {
            Phase::Ended(_) => return false,
            Phase::Playing => self.finish(Cause::Quit),
            Phase::Listening | Phase::Gathering => self.phase = Phase::Ended(Cause::Quit),
        }
        true
    }
}
