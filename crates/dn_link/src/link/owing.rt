//! The command that is owed.

use super::Link;
use dn_machine::Made;
use dn_tic::Input;

impl Link {
    ghost use Rattle.std.specs.Prelude.{◌≡◌, is_some, None, Some};
    ghost use Rattle.dn_tic.specs.declared.input.Input.{Input as AnyInput};
    ghost use Rattle.dn_machine.specs.{Sending.on_build, declared.answers.Made.Made as AnyMade};
    ghost use Rattle.dn_lockstep.specs.Steps.{Steps};
    ghost use Rattle.dn_link.specs.{Linking.{linked, seal_of}, Pace.still_owed, Pacing.pace_of};
    ghost use Rattle.dn_machine.specs.declared.answers.Made.TheVariants as made;

    /// Makes the command of this input.
    #[tactic(auto, using(dn_survivor::proofs::Steps::lent_steps))]
    fn make(&mut self, input: Input) -> Made
        ensures step { Steps (linked self.old).node (linked self.new).node
            (λ limits me m. on_build limits me m input) (λ made. result ≡ made) }
        ensures full { result ≡ made.Full → (linked self.new).node ≡ (linked self.old).node }
        ensures idle { result ≡ made.NotPlaying → (linked self.new).node ≡ (linked self.old).node }
        ensures others { (linked self.new).others ≡ (linked self.old).others }
        ensures peers { (linked self.new).peers ≡ (linked self.old).peers }
        ensures pace { pace_of self.new ≡ pace_of self.old }
        ensures seal { seal_of self.new ≡ seal_of self.old }
    {
        match input {
            Input::Pressed(keys) => self.survivor.lockstep_mut().build(keys),
            Input::Given(command) => self.survivor.lockstep_mut().give(command),
        }
    }

    /// Whether a command is owed: the window was full when its input was given.
    pub fn owes_command(&self) -> bool
        ensures { result ≡ is_some (pace_of self.now).owed }
    {
        self.pace.owed.is_some()
    }

    /// Makes the command that is owed, where a run has made room for it. None where none is owed.
    pub fn catch_up(&mut self) -> Option<Made>
        ensures none { (pace_of self.old).owed ≡ None
            → (result ≡ None) × (linked self.new ≡ linked self.old) × (pace_of self.new ≡ pace_of self.old) }
        ensures owed { (input : AnyInput) → (pace_of self.old).owed ≡ Some input → (answer : AnyMade) × (result ≡ Some answer)
            × Steps (linked self.old).node (linked self.new).node
            (λ limits me m. on_build limits me m input) (λ made. answer ≡ made)
            × (pace_of self.new ≡ record (pace_of self.old) { owed = still_owed answer (pace_of self.old).owed }) }
        ensures full { result ≡ Some made.Full → (linked self.new).node ≡ (linked self.old).node }
        ensures idle { result ≡ Some made.NotPlaying → (linked self.new).node ≡ (linked self.old).node }
        ensures others { (linked self.new).others ≡ (linked self.old).others }
        ensures peers { (linked self.new).peers ≡ (linked self.old).peers }
        ensures seal { seal_of self.new ≡ seal_of self.old }
    {
        let input = self.pace.owed?;
        let made = self.make(input);
        self.pace.settle(made);
        Some(made)
    }
}
