//! Scripts in files: the bytes of one, and what is wrong with its first bad line.

use crate::ends::BROKEN_OFF;
use crate::source::complain;
use dn_game::script::{MAX_SCRIPT, ScriptFault, read_script};
use dn_inspect::text_of_bad_event;
use dn_netgame::RunFault;
use std::alloc::{AllocError, Global};
use std::io::Read;

/// Reads the bytes of a script, of which no more are taken than show whether it is too long; or says on standard error
/// that they cannot be read, and answers the exit status.
pub(crate) fn script_in<I: Read + Drop>(
    rt: &(impl Eprint + AllocGlobal),
    path: &str,
    input: I,
) -> Result<Vec<u8>, u8> {
    let mut bytes = Vec::new(rt.alloc());
    match input.take(MAX_SCRIPT as u64 + 1).read_to_end(&mut bytes) {
        Ok(_) => Ok(bytes),
        Err(_) => Err(complain(rt, path, RunFault::Read, BROKEN_OFF)),
    }
}

/// What is wrong with a line that is no event.
fn text_of_bad_line(alloc: Global, line: &str) -> Result<String, AllocError> {
    if line.ends_with('\r') {
        return String::from_str(
            alloc,
            "it ends in CR LF, as in DOS; here LF alone ends a line",
        );
    }
    text_of_bad_event(alloc, line.split(' ').next().unwrap_or(line))
}

/// What is wrong with the first bad line of a script, if that can be said.
pub(crate) fn hint_of(alloc: Global, bytes: &[u8]) -> Option<String> {
    let Err(ScriptFault::Line(number)) = read_script(alloc, bytes) else {
        return None;
    };
    let line = bytes
        .split(|byte| *byte == b'\n')
        .nth(number.checked_sub(1)?)?;
    text_of_bad_line(alloc, str::from_utf8(line).ok()?).ok()
}
