//! How a node builds a command, of keys or of one that is given.

ghost use Rattle.std.specs.Prelude.{◌≡◌};
ghost use Rattle.dn_machine.specs.declared.answers.Made.TheVariants.{Full, NotPlaying};
ghost use Rattle.dn_tic.specs.{declared.input.Input.Input as AnyInput, declared.input.Input.TheVariants.Pressed, declared.input.Input.TheVariants.Given};

use super::Lockstep;
use dn_machine::{Made, Phase};
use dn_tic::{Command, Input, Keys};

impl Lockstep {
    ghost use Rattle.dn_lockstep.specs.{Contents.contents, Told.Builds, Told.makes, Told.can_make, Steps.Tells};

    /// Whether [`Lockstep::build`] and [`Lockstep::give`] would make a command now: it plays, and fewer of its
    /// commands wait to be run than its window allows.
    #[tactic(auto, using(crate::proofs::Changing::makes_not, crate::proofs::Changing::makes_near, crate::proofs::Changing::not_playing, crate::proofs::Shown::made_is))]
    pub fn can_build(&self) -> bool
        ensures value { result ≡ can_make (contents self.now) }
        ensures told { Tells (contents self.now)
            (λ limits me m. (input : AnyInput) → result ≡ makes limits me m input) }
    {
        match self.phase {
            Phase::Playing => self.made() - self.ran < self.ahead,
            _ => false,
        }
    }

    /// Builds the command of these keys for the next tic. A node that builds none stays as it is.
    #[inline(always)]
    pub fn build(&mut self, keys: Keys) -> Made
        ensures step { Builds (contents self.old) (contents self.new) (Pressed keys) result }
        ensures full { result ≡ Full → contents self.new ≡ contents self.old }
        ensures idle { result ≡ NotPlaying → contents self.new ≡ contents self.old }
    {
        self.make(Input::Pressed(keys))
    }

    /// Takes the given command for the next tic, where [`Lockstep::build`] would build one. A forward of -128
    /// counts as -127. A node that takes none stays as it is.
    pub fn give(&mut self, command: Command) -> Made
        ensures step { Builds (contents self.old) (contents self.new) (Given command) result }
        ensures full { result ≡ Full → contents self.new ≡ contents self.old }
        ensures idle { result ≡ NotPlaying → contents self.new ≡ contents self.old }
    {
        self.make(Input::Given(command))
    }

    /// Makes the command of this input for the next tic. In each of the two calls the compiler knows which
    /// input it is.
    #[inline(always)]
    fn make(&mut self, input: Input) -> Made
        ensures step { Builds (contents self.old) (contents self.new) input result }
        ensures full { result ≡ Full → contents self.new ≡ contents self.old }
        ensures idle { result ≡ NotPlaying → contents self.new ≡ contents self.old }
    {
        let Phase::Playing = self.phase else {
            return Made::NotPlaying;
        };
        let tic = self.made();
        if tic - self.ran >= self.ahead {
            return Made::Full;
        }
        let mark = self.marks.get(self.me, tic);
        let command = self.builder.make(input, mark);
        self.rings.put(self.me, command);
        Made::Made(tic)
    }
}
