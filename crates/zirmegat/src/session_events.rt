//! What has happened in a session, and when it wants to be polled.

ghost use Rattle.std.specs.Prelude.{◌≡◌, ◌<◌, ◌^◌, ℕ, Option, None};
ghost use Rattle.dn_session.specs.{declared.event.Event.Event as Happened, Joining.has_come, Session.meeting};
ghost use Rattle.zirmegat.specs.Calls.{Calls, session_of};
ghost use Rattle.zirmegat.specs.Over.{not_over};
ghost use Rattle.zirmegat.specs.SessionEvents.{acts_at, event_at, event_told, wait_of, IsDue, Tells};

use crate::handle::Handle;
use crate::over::OverAnswer;
use dn_session::{Event, Session};

/// What has happened in a session: 0 for nothing that was not told, 1 where `player` is the number of its own
/// player's seat, 2 where that one has no seat any more, 3 where the game has begun, 4 where `player` has left,
/// 5 where `player` is given up, 6 where the session is over.
#[repr(C)]
#[derive(Clone, Copy, Debug, PartialEq, Eq)]
pub struct EventAnswer {
    /// 0 to 6, as above.
    pub kind: u32,
    /// A player, as above, or 0.
    pub player: u32,
    /// Why it is over, where it is.
    pub over: OverAnswer,
}

impl EventAnswer {
    /// What has happened to a player.
    fn at(kind: u32, player: u8) -> EventAnswer
        ensures { result ≡ event_at kind player not_over }
    {
        EventAnswer {
            kind,
            player: u32::from(player),
            over: OverAnswer::NOT,
        }
    }

    /// What has happened, if anything has.
    pub(crate) fn of(event: Option<Event>) -> EventAnswer
        ensures { result ≡ event_told event }
    {
        match event {
            None => EventAnswer::at(0, 0),
            Some(Event::Seated(seat)) => EventAnswer::at(1, seat),
            Some(Event::Unseated) => EventAnswer::at(2, 0),
            Some(Event::Began) => EventAnswer::at(3, 0),
            Some(Event::Left(player)) => EventAnswer::at(4, player),
            Some(Event::GivenUp(player)) => EventAnswer::at(5, player),
            Some(Event::Over(over)) => EventAnswer {
                kind: 6,
                player: 0,
                over: OverAnswer::of(over),
            },
        }
    }
}

/// Writes the first of what is so and was not told before, and returns its kind. Call it until there is
/// nothing. What came and went again between two calls is not told.
#[unsafe(no_mangle)]
pub extern "C" fn zmg_session_event(session: &mut Handle, out: &mut EventAnswer) -> u32
    ensures told { Calls session_of session.old session.new
        (λ n k. (event : Option Happened) × (out.new ≡ event_told event) × Tells n k event)
        (out.new ≡ event_told None) }
    ensures kind { result ≡ out.new.kind }
{
    let told = match session.session() {
        Some(held) => EventAnswer::of(held.event()),
        None => EventAnswer::of(None),
    };
    *out = told;
    told.kind
}

/// When a session wants to be polled: at once where the game has begun and its player's part in it is not made.
fn due_of(session: &Session) -> Option<u32>
    ensures { (now : ℕ) → now < 2 ^ 32 → has_come now result ≡ acts_at now (meeting session.now) }
{
    if session.part().is_none() && session.begun().is_some() {
        return Some(0);
    }
    session.due()
}

/// How long it is until then; the largest number where it only waits for what comes.
fn wait_of(due: Option<u32>, now: u32) -> u32
    ensures { result ≡ wait_of now due }
{
    match due {
        Some(due) => due.saturating_sub(now),
        None => u32::MAX,
    }
}

/// Returns after how many milliseconds the session wants to be polled, or a tick is due.
#[unsafe(no_mangle)]
pub extern "C" fn zmg_session_wait(session: &mut Handle, now: u32) -> u32
    ensures { Calls session_of session.old session.new
        (λ n k. (due : Option ℕ) × (result ≡ wait_of now due) × IsDue n k due) (result ≡ 4294967295) }
{
    match session.session() {
        Some(held) => wait_of(due_of(held), now),
        None => u32::MAX,
    }
}
