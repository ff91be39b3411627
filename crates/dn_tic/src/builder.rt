//! The command that a list of inputs makes.

ghost use Rattle.std.specs.Prelude.{◌≡◌, ◌≤◌, ◌≤ℤ◌, pos, negsuc, List, ℕ, [], ◌∷◌, ◌++◌};
ghost use Rattle.dn_tic.specs.{declared.input.Input.Input, declared.input.Input.TheVariants.Pressed, declared.input.Input.TheVariants.Given, Pressed.turn_hold, Inputs.hold_of, Inputs.made_by};

use crate::command::TicCmd;
use crate::input::{Command, Input, marked};
use crate::keys::{Key, Keys};
use crate::moves::{FAST_TURNS, buttons, forward_move, side_move, turn};
use std::marker::Model;

/// The turn hold after one more key state.
fn next_hold(hold: u8, keys: Keys) -> u8
    requires { hold ≤ 6 }
    ensures value { (states : List ℕ) → hold ≡ turn_hold states → result ≡ turn_hold (states ++ keys ∷ []) }
    ensures most { result ≤ 6 }
{
    if keys.is_down(Key::Left) || keys.is_down(Key::Right) {
        FAST_TURNS.min(hold + 1)
    } else {
        0
    }
}

/// Makes a player's commands, and counts for how many builds in succession a turn key was down.
/// A contract sees the count.
#[derive(Clone, Copy, Debug, PartialEq, Eq, Default)]
pub struct Builder {
    hold: u8,
}

impl Model for Builder {
    ghost use Rattle.std.specs.Prelude.{ℕ, ◌≤◌};

    ghost Value = { ℕ };

    ghost view = { λ b. b.hold };

    ghost invariant = { λ b. b.hold ≤ 6 };

    ghost inverse = { λ n. record { hold = n } };
}

impl Builder {
    /// A builder that has built nothing.
    pub fn new() -> Builder
        ensures { result ≡ hold_of [] }
    {
        Builder { hold: 0 }
    }

    /// For how many builds in succession a turn key was down, six at the most.
    pub fn held(&self) -> u8
        ensures value { result ≡ self.now }
        ensures most { result ≤ 6 }
    {
        let Builder { hold } = *self;
        hold
    }

    /// The command of these keys, with this consistency mark.
    #[tactic(auto, using(crate::proofs::Making::pressed_made))]
    pub fn build(&mut self, keys: Keys, mark: i16) -> TicCmd
        ensures command { (inputs : List Input) → self.old ≡ hold_of inputs
            → result ≡ made_by (inputs ++ Pressed keys ∷ []) mark }
        ensures least { negsuc 49 ≤ℤ result.forward }
        ensures most { result.forward ≤ℤ pos 50 }
        ensures hold { (inputs : List Input) → self.old ≡ hold_of inputs
            → self.new ≡ hold_of (inputs ++ Pressed keys ∷ []) }
    {
        self.hold = next_hold(self.hold, keys);
        TicCmd {
            forward: forward_move(keys),
            side: side_move(keys),
            turn: turn(keys, self.hold),
            mark,
            chat: 0,
            buttons: buttons(keys),
        }
    }

    /// The given command, with this consistency mark. It counts as a build in which no key was down.
    #[tactic(auto, using(crate::proofs::Making::given_made))]
    pub fn give(&mut self, command: Command, mark: i16) -> TicCmd
        ensures command { (inputs : List Input) → result ≡ made_by (inputs ++ Given command ∷ []) mark }
        ensures least { negsuc 126 ≤ℤ result.forward }
        ensures hold { (inputs : List Input) → self.old ≡ hold_of inputs
            → self.new ≡ hold_of (inputs ++ Given command ∷ []) }
    {
        self.hold = next_hold(self.hold, Keys::default());
        marked(command, mark)
    }

    /// The command of this input, with this consistency mark.
    #[inline(always)]
    pub fn make(&mut self, input: Input, mark: i16) -> TicCmd
        ensures command { (inputs : List Input) → self.old ≡ hold_of inputs
            → result ≡ made_by (inputs ++ input ∷ []) mark }
        ensures least { negsuc 126 ≤ℤ result.forward }
        ensures hold { (inputs : List Input) → self.old ≡ hold_of inputs
            → self.new ≡ hold_of (inputs ++ input ∷ []) }
    {
        match input {
            Input::Pressed(keys) => self.build(keys, mark),
            Input::Given(command) => self.give(command, mark),
        }
    }
}
