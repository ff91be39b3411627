//! What a command is made of: keys, or a command that is given whole.

ghost use Rattle.std.specs.Prelude.{◌≡◌, ◌≤ℤ◌, negsuc};
ghost use Rattle.dn_tic.specs.Inputs.{given, input_of};

use crate::command::TicCmd;
use crate::keys::Keys;

/// The farthest that a given command goes back: -128 would read as the end of a demo.
const FARTHEST_BACK: i8 = -127;

/// A tic command without its consistency mark, which an engine makes itself: of a mouse, a joystick, chat,
/// pause or save, say.
#[derive(Clone, Copy, Debug, PartialEq, Eq, Default)]
pub struct Command {
    /// How far the player goes forward; -128 counts as -127.
    pub forward: i8,
    /// How far the player goes to the right.
    pub side: i8,
    /// How far the player turns to the left, in 65536ths of a full turn.
    pub turn: i16,
    /// A letter of chat, carried unread.
    pub chat: u8,
    /// Attack, use and a change of weapon; or, with the highest bit, pause and save.
    pub buttons: u8,
}

/// What a player's next command is made of.
#[derive(Clone, Copy, Debug, PartialEq, Eq)]
pub enum Input {
    /// These keys are down.
    Pressed(Keys),
    /// The command is given.
    Given(Command),
}

/// The given command, with this consistency mark.
pub(crate) fn marked(command: Command, mark: i16) -> TicCmd
    ensures value { result ≡ given command mark }
    ensures least { negsuc 126 ≤ℤ result.forward }
{
    TicCmd {
        forward: command.forward.max(FARTHEST_BACK),
        side: command.side,
        turn: command.turn,
        mark,
        chat: command.chat,
        buttons: command.buttons,
    }
}

/// A player's own of these inputs, by the player's number; no key for a number past the fourth.
pub fn input_of(inputs: &[Input; 4], player: u32) -> Input
    ensures { result ≡ input_of inputs.now player }
{
    match inputs.get(player as usize) {
        Some(input) => *input,
        None => Input::Pressed(Keys::from_bits(0)),
    }
}
