//! What holds of all commands and tics.

ghost use Rattle.std.specs.Prelude.{◌≡◌, ◌≤◌, ◌+◌, ◌%◌, ◌≤ℤ◌, ℕ, ℤ, pos, negsuc, List, map, Some};
ghost use Rattle.dn_tic.specs.{declared.command.TicCmd.TicCmd, Command.command_bytes, Command.IsCommand, declared.input.Input.Input, declared.input.Input.TheVariants.Pressed, Pressed.turn_hold};
ghost use Rattle.dn_tic.specs.{Pressed.pressed, Inputs.hold_of, Inputs.made_by, Tics.exact_tic};

/// Eight bytes are those of one command.
#[tactic(auto, using(crate::proofs::Bytes::one_command))]
pub fn one_command()
    ensures { (c d : TicCmd) → IsCommand c → IsCommand d → command_bytes c ≡ command_bytes d → c ≡ d }
{}

/// A tic at most 64 from `made` is found again by its low byte.
#[tactic(auto, using(crate::proofs::Bytes::exact_near))]
pub fn near_tics()
    ensures { (made tic : ℕ) → tic ≤ made + 64 → made ≤ tic + 64 → exact_tic made (tic % 256) ≡ Some tic }
{}

/// A pressed command goes forward by -50 to 50.
#[tactic(auto, using(crate::proofs::Making::forward_low, crate::proofs::Making::forward_high))]
pub fn pressed_forward()
    ensures low { (states : List ℕ) (mark : ℤ) → negsuc 49 ≤ℤ (pressed states mark).forward }
    ensures high { (states : List ℕ) (mark : ℤ) → (pressed states mark).forward ≤ℤ pos 50 }
{}

/// A command of any inputs goes forward by -127 at least, so none reads as the end of a demo.
#[tactic(auto, using(crate::proofs::Making::pressed_laws))]
pub fn made_forward()
    ensures { (inputs : List Input) (mark : ℤ) → negsuc 126 ≤ℤ (made_by inputs mark).forward }
{}

/// Where no command is given, inputs make what their key states press, and hold the turn keys as these do.
#[tactic(auto, using(crate::proofs::Making::pressed_laws))]
pub fn pressed_alone()
    ensures command { (states : List ℕ) (mark : ℤ) → made_by (map Pressed states) mark ≡ pressed states mark }
    ensures hold { (states : List ℕ) → hold_of (map Pressed states) ≡ turn_hold states }
{}
