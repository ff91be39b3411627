//! Writing events as the lines of a script, and that these are read.

ghost use Rattle.std.specs.{Prelude.◌≡◌, Prelude.◌++◌, Prelude.OnOk, String.string_bytes};
ghost use Rattle.dn_game.specs.Scripts.{letters, letters_down, keys_word, give_words, event_words, event_line, IsReadAs, size_limit, HasScriptLine, script_text};
ghost use Rattle.std.specs.{Prelude.◌≤◌, Prelude.List, Prelude.length, Prelude.Ok, List.All};
ghost use Rattle.dn_machine.specs.declared.events.Event.{Event};

use crate::script::words::LETTERS;
use dn_machine::Event;
use dn_tic::{Command, Keys};
use std::alloc::AllocError;

/// The letters of the keys whose bits are set.
fn push_letters(text: &mut String, bits: u32) -> Result<(), AllocError>
    ensures { OnOk result (string_bytes text.new ≡ string_bytes text.old ++ letters_down bits letters) }
{
    for (place, letter) in LETTERS.iter().enumerate() {
        if (bits >> place) % 2 == 1 {
            text.push(char::from(*letter))?;
        }
    }
    Ok(())
}

/// The word for keys.
fn push_keys(text: &mut String, keys: Keys) -> Result<(), AllocError>
    ensures { OnOk result (string_bytes text.new ≡ string_bytes text.old ++ keys_word keys) }
{
    let bits = keys.bits();
    if bits == 0 {
        return text.push_str("-");
    }
    push_letters(text, bits)
}

/// A given command: its node and its fields.
#[tactic(auto, unfolding(crate::specs::Scripts::give_words))]
fn push_give(text: &mut String, node: u32, command: Command) -> Result<(), AllocError>
    ensures { OnOk result (string_bytes text.new ≡ string_bytes text.old ++ give_words node command) }
{
    write!(text, "give {node} forward {}", command.forward)?;
    write!(text, " side {} turn {}", command.side, command.turn)?;
    write!(text, " chat {} buttons {}", command.chat, command.buttons)
}

/// Appends an event in the words of a script, or in those of a given command, which a script cannot have. Err
/// where memory is refused: what the text then holds is not said, and the caller is to throw it away.
pub fn push_event(text: &mut String, event: Event) -> Result<(), AllocError>
    ensures { OnOk result (string_bytes text.new ≡ string_bytes text.old ++ event_words event) }
{
    match event {
        Event::Build { node, keys } => {
            write!(text, "build {node} ")?;
            push_keys(text, keys)
        }
        Event::Give { node, command } => push_give(text, node, command),
        Event::Send { node, to } => write!(text, "send {node} {to}"),
        Event::Deliver(which) => write!(text, "deliver {which}"),
        Event::Run(node) => write!(text, "run {node}"),
        Event::Quit(node) => write!(text, "quit {node}"),
        Event::Stop(node) => write!(text, "stop {node}"),
    }
}

/// Appends an event as a line of a script. Err where memory is refused: what the text then holds is not said,
/// and the caller is to throw it away.
pub fn push_event_line(text: &mut String, event: Event) -> Result<(), AllocError>
    ensures { OnOk result (string_bytes text.new ≡ string_bytes text.old ++ event_line event) }
{
    push_event(text, event)?;
    text.push_str("\n")
}

/// What is written for a list of events is read as these events, if none of them gives a command, their
/// numbers have at most nine digits, and the text is not too long.
pub fn written_scripts_are_read()
    ensures { (events : List Event) → All HasScriptLine events → length (script_text events) ≤ size_limit
        → IsReadAs (script_text events) (Ok events) }
{}
