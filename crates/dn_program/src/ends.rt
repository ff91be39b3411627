//! How a session over a network ended: what is printed of it, and the exit status.

ghost use Rattle.std.specs.{Prelude.◌≡◌, Prelude.IfOk, Prelude.is_some, String.string_bytes};
ghost use Rattle.dn_program.specs.{Endings.ending_lines, Endings.ending_status, Endings.hint_line, Endings.refusal_line, Printed.IsEnded, Printed.IsSessionPrinted, Printed.prints_demo};

use crate::say::{say, say_line};
use dn_host::{Ending, HostFault, Outcome};
use dn_measure::text_of_session;
use dn_netgame::RunFault;
use dn_session::{Hint, Refusal};
use std::alloc::{AllocError, Global};

/// The exit status of a command line that cannot be read.
pub(crate) const MISUSED: u8 = 2;

/// The exit status where what was given was refused.
pub(crate) const REFUSED: u8 = 1;

/// The exit status of a run that ended early.
pub(crate) const BROKEN_OFF: u8 = 3;

/// The line of a joiner that the host gave no seat, and of what comes of it.
pub(crate) fn text_of_refusal(
    alloc: Global,
    outcome: &str,
    refusal: Refusal,
) -> Result<String, AllocError>
    ensures { IfOk result (λ text. string_bytes text ≡ refusal_line outcome.now refusal) }
{
    match refusal {
        Refusal::Cookie => format!(in alloc; "{outcome}: the call came too late\n"),
        Refusal::Full => format!(in alloc; "{outcome}: no seat is free\n"),
        Refusal::Players(players) => {
            format!(in alloc; "{outcome}: the game has {players} players\n")
        }
        Refusal::Begun => format!(in alloc; "{outcome}: the game has begun\n"),
        Refusal::Identity => format!(in alloc; "{outcome}: the host has another engine\n"),
        Refusal::Kicked => format!(in alloc; "{outcome}: the host has turned this player away\n"),
    }
}

/// The line of a joiner whose calls the host could not read.
fn text_of_hint(alloc: Global, hint: Hint) -> Result<String, AllocError>
    ensures { IfOk result (λ text. string_bytes text ≡ hint_line hint) }
{
    match hint {
        Hint::Key => String::from_str(alloc, "refused: another key\n"),
        Hint::Version(_) => String::from_str(alloc, "refused: another version\n"),
    }
}

/// What is printed of a session, and the exit status.
fn told(alloc: Global, outcome: &Outcome) -> Result<(String, u8), AllocError>
    ensures lines { IfOk result (λ told. string_bytes told.0
        ≡ ending_lines outcome.now.ending outcome.now.summary) }
    ensures status { IfOk result (λ told. told.1 ≡ ending_status outcome.now.ending) }
{
    match outcome.ending {
        Ending::Ended(end) => Ok((text_of_session(alloc, end, &outcome.summary)?, end.status())),
        Ending::Refused(refusal) => Ok((text_of_refusal(alloc, "refused", refusal)?, REFUSED)),
        Ending::Hinted(hint) => Ok((text_of_hint(alloc, hint)?, REFUSED)),
    }
}

/// The demo that is printed: with `raw` that of a session that had a seat.
fn demo_of(outcome: &Outcome, raw: bool) -> Option<&[u8]>
    ensures { is_some result ≡ prints_demo raw outcome.now }
{
    match (raw, outcome.ending) {
        (true, Ending::Ended(_)) => Some(outcome.link.as_ref()?.lockstep().demo()),
        _ => None,
    }
}

/// Prints how a session ended, and with `raw` its demo, and answers the exit status.
fn print_outcome(
    rt: &(impl Print + Eprint + AllocGlobal),
    outcome: &Outcome,
    raw: bool,
) -> Result<u8, RunFault>
    ensures { IsEnded raw outcome.now result }
{
    let (text, status) = told(rt.alloc(), outcome)?;
    say(rt, raw, text.as_str())?;
    if let Some(demo) = demo_of(outcome, raw) {
        if rt.write_all(demo).is_err() {
            return Err(RunFault::Write);
        }
    }
    Ok(status)
}

/// Prints how a session ended, with `raw` its demo, or why it broke off, and answers the exit status.
pub(crate) fn print_session(
    rt: &(impl Print + Eprint + AllocGlobal),
    session: Result<Outcome, HostFault>,
    raw: bool,
) -> Result<u8, RunFault>
    ensures { IsSessionPrinted raw session result }
{
    match session {
        Ok(outcome) => print_outcome(rt, &outcome, raw),
        Err(HostFault::Memory) => Err(RunFault::Memory),
        Err(fault) => {
            say_line(rt, raw, fault)?;
            Ok(BROKEN_OFF)
        }
    }
}
