//! What is known of a session, and its demo.

ghost use Rattle.std.specs.Prelude.{◌≡◌, ◌<◌, ◌≤◌, length, take, drop};
ghost use Rattle.dn_packet.specs.Written.{IsWritten};
ghost use Rattle.dn_link.specs.Linking.{linked};
ghost use Rattle.dn_lockstep.specs.Tables.{count_of};
ghost use Rattle.dn_session.specs.Playing.{playing};
ghost use Rattle.zirmegat.specs.Calls.{Reads, session_of};
ghost use Rattle.zirmegat.specs.SessionStates.{demo_of, game_in, game_of, me_of, progress_code, progress_over, side_code, side_over, stage_code, stage_over, state_told, terms_of, where_of, why_of};

use crate::bytes;
use crate::fault::{DONE, Fault};
use crate::handle::Handle;
use crate::over::OverAnswer;
use crate::phases::PhaseAnswer;
use crate::terms::TermsFields;
use dn_link::Link;
use dn_session::{Part, Progress, Session, Side, Stage, Terms};

/// How far its player is in the game; all 0 before it.
#[repr(C)]
#[derive(Clone, Copy, Debug, PartialEq, Eq)]
pub struct GameAnswer {
    /// How many commands it built.
    pub made: u32,
    /// How many tics it ran.
    pub ran: u32,
    /// How many of its commands not every remaining player has acknowledged.
    pub unacknowledged: u32,
    /// 1 where nobody needs anything of it any more.
    pub may_leave: u32,
    /// The mark that a command had where the worlds differ.
    pub was: i16,
    /// The mark of its own world there.
    pub should: i16,
}

/// What is known of a session.
#[repr(C)]
#[derive(Clone, Copy, Debug, PartialEq, Eq)]
pub struct SessionAnswer {
    /// 1 for a host's lobby, 2 for one who calls, 3 for one who waits for a seat, 4 for one who has it, 5 in
    /// the game, 6 while it leaves that, 7 for over.
    pub stage: u32,
    /// Why it is over, or will be.
    pub why: OverAnswer,
    /// How far its player is in the game.
    pub game: GameAnswer,
    /// The number of its player, as far as it was told.
    pub me: u32,
    /// The terms, all 0 as long as they are not known.
    pub terms: TermsFields,
}

/// The terms, as far as they are known.
fn terms_of(side: &Side) -> Option<Terms>
    ensures { result ≡ terms_of side.now }
{
    match side {
        Side::Host(host) => Some(*host.terms()),
        Side::Joiner(joiner) => match joiner.seating() {
            Some(seating) => Some(seating.terms),
            None => None,
        },
    }
}

/// The number of its player, as far as it was told.
fn me_of(side: &Side) -> u32
    ensures { result ≡ me_of side.now }
{
    match side {
        Side::Host(_) => 0,
        Side::Joiner(joiner) => match joiner.seating() {
            Some(seating) => u32::from(seating.seat),
            None => 0,
        },
    }
}

/// Where one who joins stands.
fn stage_code(stage: Stage) -> u32
    ensures { result ≡ stage_code stage }
{
    match stage {
        Stage::Calling => 2,
        Stage::Waiting => 3,
        Stage::Seated | Stage::Playing => 4,
        Stage::Refused(_) | Stage::Hinted(_) => 7,
    }
}

/// Where a lobby stands.
fn side_code(side: &Side) -> u32
    ensures { result ≡ side_code side.now }
{
    match side {
        Side::Host(_) => 1,
        Side::Joiner(joiner) => stage_code(joiner.stage()),
    }
}

/// Where a part in the game stands.
fn progress_code(progress: Progress) -> u32
    ensures { result ≡ progress_code progress }
{
    match progress {
        Progress::Playing => 5,
        Progress::Leaving { .. } => 6,
        Progress::Over(_) => 7,
    }
}

/// Where a session stands.
fn where_of(side: &Side, part: &Option<Part>) -> u32
    ensures { result ≡ where_of side.now part.now }
{
    match part {
        Some(part) => progress_code(part.progress()),
        None => side_code(side),
    }
}

/// Why it is over for one who joins.
fn stage_over(stage: Stage) -> OverAnswer
    ensures { result ≡ stage_over stage }
{
    match stage {
        Stage::Refused(refusal) => OverAnswer::of_refusal(refusal),
        Stage::Hinted(hint) => OverAnswer::of_hint(hint),
        _ => OverAnswer::NOT,
    }
}

/// Why it is over in the lobby.
fn side_over(side: &Side) -> OverAnswer
    ensures { result ≡ side_over side.now }
{
    match side {
        Side::Host(_) => OverAnswer::NOT,
        Side::Joiner(joiner) => stage_over(joiner.stage()),
    }
}

/// Why it is over in the game, or will be.
fn progress_over(progress: Progress) -> OverAnswer
    ensures { result ≡ progress_over progress }
{
    match progress {
        Progress::Playing => OverAnswer::NOT,
        Progress::Leaving { ending, .. } => OverAnswer::of_ending(ending),
        Progress::Over(ending) => OverAnswer::of_ending(ending),
    }
}

/// Why it is over, or will be.
fn why_of(side: &Side, part: &Option<Part>) -> OverAnswer
    ensures { result ≡ why_of side.now part.now }
{
    match part {
        Some(part) => progress_over(part.progress()),
        None => side_over(side),
    }
}

/// How many commands its player built.
fn made(link: &Link) -> u32
    ensures { result ≡ count_of (linked link.now).node.rings (linked link.now).node.me }
{
    link.lockstep().made()
}

/// How far a link is.
fn game_in(link: &Link) -> GameAnswer
    ensures { result ≡ game_in (linked link.now) }
{
    let phase = PhaseAnswer::of(link.lockstep().phase());
    GameAnswer {
        made: made(link),
        ran: link.lockstep().ran(),
        unacknowledged: link.unacknowledged(),
        may_leave: u32::from(link.may_leave()),
        was: phase.was,
        should: phase.should,
    }
}

/// How far a part in the game is.
fn game_of(part: &Option<Part>) -> GameAnswer
    ensures { result ≡ game_of part.now }
{
    match part {
        Some(part) => game_in(part.link()),
        None => GameAnswer {
            made: 0,
            ran: 0,
            unacknowledged: 0,
            may_leave: 0,
            was: 0,
            should: 0,
        },
    }
}

impl SessionAnswer {
    ghost use Rattle.dn_session.specs.Session.{meeting};

    /// What is known of a session.
    fn of(session: &Session) -> SessionAnswer
        ensures { result ≡ state_told (meeting session.now) }
    {
        let (side, part) = (session.lobby(), session.part());
        SessionAnswer {
            stage: where_of(side, part),
            why: why_of(side, part),
            game: game_of(part),
            me: me_of(side),
            terms: TermsFields::of(terms_of(side)),
        }
    }
}

/// How many bytes `SessionAnswer` has.
const STATE_SIZE: usize = 328;

/// Writes what is known of the session, where the caller's struct has so many bytes.
#[unsafe(no_mangle)]
pub extern "C" fn zmg_session_state(
    session: &mut Handle,
    out: &mut SessionAnswer,
    size: usize,
) -> u32
    ensures tells { 328 ≤ size → Reads session_of session.old session.new
        (λ m. (result ≡ 0) × (out.new ≡ state_told m)) ((result ≡ 1) × (out.new ≡ out.old)) }
    ensures small { size < 328 → (result ≡ 2) × (session.new ≡ session.old) × (out.new ≡ out.old) }
{
    if size < STATE_SIZE {
        return Fault::Size.code();
    }
    match session.session() {
        Some(held) => {
            *out = SessionAnswer::of(held);
            DONE
        }
        None => Fault::Handle.code(),
    }
}

/// The demo of a part in the game.
fn demo_of(part: &Option<Part>) -> &[u8]
    ensures { result.now ≡ demo_of part.now }
{
    match part {
        Some(part) => part.link().lockstep().demo(),
        None => &[],
    }
}

/// Copies its demo so far from this byte on, as many bytes as there is room for, and returns how many.
#[unsafe(no_mangle)]
pub extern "C" fn zmg_session_demo(session: &mut Handle, from: usize, out: &mut [u8]) -> usize
    ensures { Reads session_of session.old session.new
        (λ m. IsWritten (take (length out.old) (drop from (demo_of m.part))) out.old out.new result)
        ((result ≡ 0) × (out.new ≡ out.old)) }
{
    match session.session() {
        Some(held) => bytes::write_from(demo_of(held.part()), from, out),
        None => 0,
    }
}
