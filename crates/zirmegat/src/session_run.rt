//! Running the tics of a session.

ghost use Rattle.std.specs.Prelude.{◌≡◌, false};
ghost use Rattle.dn_session.specs.Session.{meeting};
ghost use Rattle.zirmegat.specs.Calls.{Calls, session_of};
ghost use Rattle.zirmegat.specs.Rows.{no_row};
ghost use Rattle.zirmegat.specs.Sessions.{next_commands, next_of, RunsSession, RunsWhen};

use crate::handle::Handle;
use crate::rows::{RowFields, next_of_four, run_code};
use dn_session::{Part, Session};
use dn_tic::TicCmd;

/// No tic is run before the next tick.
const HELD: u32 = 5;

/// Nobody plays.
const NOT_PLAYING: u32 = 0;

/// The commands that a part has for the next tic.
fn next_of(part: &Part) -> [Option<TicCmd>; 4]
    ensures { result ≡ next_of part.now }
{
    next_of_four(part.link().lockstep())
}

/// Those of a part in the game.
fn next_commands(part: &Option<Part>) -> [Option<TicCmd>; 4]
    ensures { result ≡ next_commands part.now }
{
    match part {
        Some(part) => next_of(part),
        None => [None; 4],
    }
}

/// Runs the next tic of a session.
fn run_next(held: &mut Session, marks: &[i16; 4], row: &mut RowFields) -> u32
    ensures { RunsWhen false marks.now row.new result (meeting held.old) (meeting held.new) }
{
    let commands = next_commands(held.part());
    let mut moves = [None; 4];
    let ran = held.run(marks, &mut moves);
    *row = RowFields::of(ran, &moves, &commands);
    run_code(ran)
}

/// The same, unless it should wait for the next tick.
fn run_when_due(held: &mut Session, marks: &[i16; 4], row: &mut RowFields) -> u32
    ensures { RunsSession marks.now row.new result (meeting held.old) (meeting held.new) }
{
    if held.holds_back() {
        *row = RowFields::NONE;
        return HELD;
    }
    run_next(held, marks, row)
}

/// Runs the next tic by the four players' marks in the caller's world as it stands, unless it should wait for
/// the next tick. Where it was run, `row` has the whole commands by which the world goes on.
#[unsafe(no_mangle)]
pub extern "C" fn zmg_session_run(
    session: &mut Handle,
    marks: &[i16; 4],
    row: &mut RowFields,
) -> u32
    ensures { Calls session_of session.old session.new
        (RunsSession marks.now row.new result) ((result ≡ 0) × (row.new ≡ no_row)) }
{
    match session.session() {
        Some(held) => run_when_due(held, marks, row),
        None => {
            *row = RowFields::NONE;
            NOT_PLAYING
        }
    }
}
