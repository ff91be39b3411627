//! Who joins.

ghost use Rattle.std.specs.Prelude.{◌≡◌, None, IfOk};
ghost use Rattle.dn_session.specs.{Text.is_count_or_none, Text.is_wish, Text.join_fault};

use crate::cookies::session_number;
use crate::greeting::{Address, Hint, Refusal, Seating};
use crate::polling::{calls_on, has_passed};
use crate::terms::{LobbyFault, is_within};
use crate::writing::greeter;
use dn_seal::Sealer;

/// Where a joiner stands.
#[derive(Clone, Copy, Debug, PartialEq, Eq)]
pub enum Stage {
    /// It calls.
    Calling,
    /// It calls, and waits for a seat.
    Waiting,
    /// It has a seat, and calls on.
    Seated,
    /// Its game has begun.
    Playing,
    /// It was refused.
    Refused(Refusal),
    /// Its calls were not read, as a hint says for which nobody vouches.
    Hinted(Hint),
}

/// Whom a session calls, and as whom.
#[derive(Clone, Copy)]
pub struct JoinConfig {
    /// The secret of those who may join, or None.
    pub secret: Option<[u8; 32]>,
    /// Random bytes that were drawn for this session and are told to nobody. Its number follows from them.
    pub random: [u8; 32],
    /// Where the host is.
    pub host: Address,
    /// The seat that it wants, 1 to 3, if it wants a certain one.
    pub seat: Option<u8>,
    /// How many players the game must have, if it was told.
    pub players: Option<u8>,
    /// The identity of its engine and files.
    pub identity: [u8; 16],
    /// What its player is called: UTF-8, filled up with zeros.
    pub name: [u8; 16],
}

/// Whether a seat may be wanted.
pub(crate) fn is_wish(seat: Option<u8>) -> bool
    ensures { result ≡ is_wish seat }
{
    seat.is_none_or(|seat| 1 <= seat && seat <= 3)
}

/// Whether a number of players may be asked for.
pub(crate) fn is_count_or_none(players: Option<u8>) -> bool
    ensures { result ≡ is_count_or_none players }
{
    players.is_none_or(|players| is_within(2, 4, u32::from(players)))
}

/// The first field that no joiner may have.
fn join_fault(config: &JoinConfig) -> Option<LobbyFault>
    ensures { result ≡ join_fault config.now }
{
    if !is_count_or_none(config.players) {
        return Some(LobbyFault::Players);
    }
    if !is_wish(config.seat) {
        return Some(LobbyFault::Seat);
    }
    None
}

/// Who joins: whom it calls, and what it knows. Times are milliseconds of its own clock.
#[derive(Drop)]
pub struct Joiner {
    pub(crate) sealer: Sealer,
    pub(crate) number: [u8; 16],
    pub(crate) config: JoinConfig,
    pub(crate) calls: u32,
    pub(crate) answered: u32,
    pub(crate) cookie: [u8; 16],
    pub(crate) seating: Option<Seating>,
    pub(crate) stage: Stage,
    pub(crate) called: u32,
    pub(crate) heard: u32,
    pub(crate) retried: Option<u32>,
    pub(crate) retry_now: bool,
    pub(crate) hinted: Option<(Hint, u32)>,
    // what it asks for can be read
    ghost asks: { join_fault config ≡ None },
}

impl Joiner {
    ghost use Rattle.dn_session.specs.{Roster.IsJoining, Joining.is_unanswered, Joining.joining, Joining.IsJoinerOf};

    /// One who calls from this time on, or the first fault of the configuration.
    pub fn new(config: &JoinConfig, now: u32) -> Result<Joiner, LobbyFault>
        ensures made { IsJoinerOf config.now now result }
        ensures fits { IfOk result (λ joiner. IsJoining (joining joiner)) }
    {
        if let Some(fault) = join_fault(config) {
            return Err(fault);
        }
        Ok(Joiner {
            sealer: greeter(config.secret),
            number: session_number(&config.random),
            config: *config,
            calls: 0,
            answered: 0,
            cookie: [0; 16],
            seating: None,
            stage: Stage::Calling,
            called: now,
            heard: now,
            retried: None,
            retry_now: false,
            hinted: None,
        })
    }

    /// Where it stands.
    pub fn stage(&self) -> Stage
        ensures { result ≡ (joining self.now).stage }
    {
        self.stage
    }

    /// The last seating that it was told. It stays when the seat is lost: [`Joiner::stage`] says where it
    /// stands now.
    pub fn seating(&self) -> &Option<Seating>
        ensures { result.now ≡ (joining self.now).seating }
    {
        &self.seating
    }

    /// Whether it calls, and nothing was answered for ten seconds.
    pub fn is_unanswered(&self, now: u32) -> bool
        ensures { result ≡ is_unanswered now (joining self.now) }
    {
        calls_on(self.stage) && has_passed(now, self.heard, 10_000)
    }
}
