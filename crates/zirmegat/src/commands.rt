//! Whole commands as plain numbers.

ghost use Rattle.std.specs.Prelude.{◌≡◌, ◌≤◌, ◌++◌, ◌%◌, ◌^◌, [], ◌∷◌, List, pos};
ghost use Rattle.dn_tic.specs.{declared.input.Input.Input, declared.input.Input.TheVariants.Pressed, Inputs.hold_of, Inputs.made_by};
ghost use Rattle.zirmegat.specs.Commands.{command_told, given_in, most_held, whole_told};

use dn_tic::{Builder, Command, Keys, TicCmd};

/// A tic command, but for its mark, which is the node's own.
#[repr(C)]
#[derive(Clone, Copy, Debug, PartialEq, Eq)]
pub struct CommandFields {
    /// To the left, in 65536ths of a full turn.
    pub turn: i16,
    /// Forward, or back where negative.
    pub forward: i8,
    /// To the right, or to the left where negative.
    pub side: i8,
    /// A letter of chat.
    pub chat: u8,
    /// Attack, use and a change of weapon.
    pub buttons: u8,
}

impl CommandFields {
    /// No command.
    pub(crate) const NONE: CommandFields = CommandFields {
        turn: 0,
        forward: 0,
        side: 0,
        chat: 0,
        buttons: 0,
    };

    /// A command.
    fn of(command: TicCmd) -> CommandFields
        ensures { result ≡ whole_told command }
    {
        CommandFields {
            turn: command.turn,
            forward: command.forward,
            side: command.side,
            chat: command.chat,
            buttons: command.buttons,
        }
    }

    /// A command, and all 0 for none.
    pub(crate) fn if_there(command: Option<TicCmd>) -> CommandFields
        ensures { result ≡ command_told command }
    {
        match command {
            Some(command) => CommandFields::of(command),
            None => CommandFields::NONE,
        }
    }
}

/// What a caller chooses of a command.
pub(crate) fn given(command: &CommandFields) -> Command
    ensures { result ≡ given_in command.now }
{
    Command {
        forward: command.forward,
        side: command.side,
        turn: command.turn,
        chat: command.chat,
        buttons: command.buttons,
    }
}

/// So many, of which six count.
fn most_held(hold: u8) -> u8
    ensures value { result ≡ most_held hold }
    ensures most { result ≤ 6 }
{
    if hold < 6 { hold } else { 6 }
}

/// A builder for which a turn key was down so often in succession, as far as it counts.
fn turning(hold: u8) -> Builder
    ensures { result ≡ most_held hold }
{
    let left = Keys::from_bits(4);
    let most = most_held(hold);
    let mut builder = Builder::new();
    let mut count = 0;
    while count < most {
        let _ = builder.build(left, 0);
        count += 1;
    }
    builder
}

/// Writes the command of these keys, and counts on for how many commands a turn key was down.
#[unsafe(no_mangle)]
pub extern "C" fn zmg_command_from_keys(hold: &mut u8, keys: u32, command: &mut CommandFields)
    ensures { (inputs : List Input) → hold_of inputs ≡ most_held hold.old
        → (command.new ≡ whole_told (made_by (inputs ++ Pressed (keys % 2 ^ 18) ∷ []) (pos 0)))
        × (hold.new ≡ hold_of (inputs ++ Pressed (keys % 2 ^ 18) ∷ [])) }
{
    let mut builder = turning(*hold);
    let made = builder.build(Keys::from_bits(keys), 0);
    *command = CommandFields::of(made);
    *hold = builder.held();
}
