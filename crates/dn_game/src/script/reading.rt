//! Reading a script: the text of a list of events.

ghost use Rattle.std.specs.Prelude.{List, Result};
ghost use Rattle.dn_machine.specs.declared.events.Event.{Event};
ghost use Rattle.dn_game.specs.{declared.script.reading.ScriptFault.ScriptFault, Scripts.IsReadAs, Scripts.IsSameButMemory, Scripts.answered};

use crate::script::line;
use dn_machine::Event;
use std::alloc::Global;
use thiserror::Error;

/// Why a text is no script.
#[derive(Clone, Copy, Debug, PartialEq, Eq, Error)]
pub enum ScriptFault {
    /// The text has more than 1,048,576 bytes.
    #[error("the script is too long")]
    TooLong,
    /// This line, counted from 1, is the first bad one.
    #[error("line {0} of the script is not an event")]
    Line(usize),
    /// Memory was refused for the event of a line before the first bad one.
    #[error("out of memory")]
    Memory,
}

/// The most bytes of a script.
pub const MAX_SCRIPT: usize = 1 << 20;

/// The events of a script, in order. Each stands on a line of its own, as `build 0 fs`, `send 0 1`,
/// `deliver 0`, `run 0`, `quit 0` or `stop 0`. Empty lines and lines that begin with `#` are skipped.
pub fn read_script(alloc: Global, text: &[u8]) -> Result<Vec<Event>, ScriptFault>
    ensures reads { IsReadAs text.now (answered result) }
    ensures only { (r : Result (List Event) ScriptFault) → IsReadAs text.now r
        → IsSameButMemory (answered result) r }
{
    if text.len() > MAX_SCRIPT {
        return Err(ScriptFault::TooLong);
    }
    let mut events = Vec::new(alloc);
    let mut number = 0;
    for line in text.split(|byte| *byte == b'\n') {
        number += 1;
        if line::is_skipped(line) {
            continue;
        }
        let Some(event) = line::event(line) else {
            return Err(ScriptFault::Line(number));
        };
        if events.push(event).is_err() {
            return Err(ScriptFault::Memory);
        }
    }
    Ok(events)
}
