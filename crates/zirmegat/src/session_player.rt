//! What is known of a player of a session.

ghost use Rattle.std.specs.Prelude.{◌≡◌, ◌<◌, ◌≤◌, nat_lt, slice_get};
ghost use Rattle.dn_session.specs.Playing.{playing};
ghost use Rattle.dn_link.specs.Linking.{linked};
ghost use Rattle.zirmegat.specs.Calls.{Reads, session_of};
ghost use Rattle.zirmegat.specs.SessionStates.{holder_told, in_game, no_seat, not_seen, player_told, seat_here, seat_in, seat_there, seat_told, seen_in, seen_told, shown_told, standing_code};

use crate::fault::{DONE, Fault};
use crate::handle::Handle;
use crate::lines::{LineAnswer, end_of, got_of};
use dn_link::Link;
use dn_session::{Holder, Part, Seat, Seating, Seen, Session, Shown, Side, Standing, View};

/// A seat of the lobby.
#[repr(C)]
#[derive(Clone, Copy, Debug, PartialEq, Eq)]
pub struct SeatAnswer {
    /// 0 for no seat of the game, 1 for a free one, 2 for one whose holder is there, and 3 for one whose holder
    /// is silent.
    pub state: u32,
    /// 1 where it is known where the holder is.
    pub known: u32,
    /// Where that is.
    pub address: [u8; 32],
    /// What the holder is called.
    pub name: [u8; 16],
}

/// A player in the game.
#[repr(C)]
#[derive(Clone, Copy, Debug, PartialEq, Eq)]
pub struct PlayerInGame {
    /// 0 for no player of the game, or before it; 1 for one who plays, 2 for one who left, 3 for one who is
    /// given up.
    pub standing: u32,
    /// For how many milliseconds it is awaited, or 0.
    pub awaited: u32,
    /// For how many milliseconds nothing new of it came; of the own player it means nothing.
    pub silent: u32,
    /// How many of its commands are here.
    pub got: u32,
    /// The tic after its last command, or the largest number where it is not known.
    pub end: u32,
    /// The line to it.
    pub line: LineAnswer,
}

/// What is known of a player.
#[repr(C)]
#[derive(Clone, Copy, Debug, PartialEq, Eq)]
pub struct PlayerAnswer {
    /// Its seat.
    pub seat: SeatAnswer,
    /// What it is in the game.
    pub game: PlayerInGame,
}

impl SeatAnswer {
    /// A seat of whose holder nothing is told.
    const fn none(state: u32) -> SeatAnswer
        ensures { result ≡ no_seat state }
    {
        SeatAnswer {
            state,
            known: 0,
            address: [0; 32],
            name: [0; 16],
        }
    }

    /// A seat that is held.
    fn held(state: u32, holder: &Holder) -> SeatAnswer
        ensures { result ≡ holder_told state holder.now }
    {
        let address = holder.address.bytes;
        let name = holder.name;
        SeatAnswer {
            state,
            known: 1,
            address,
            name,
        }
    }
}

/// A seat at the host.
fn seat_told(now: u32, seat: &Seat) -> SeatAnswer
    ensures { result ≡ seat_told now seat.now }
{
    match seat {
        Seat::Absent => SeatAnswer::none(0),
        Seat::Free => SeatAnswer::none(1),
        Seat::Taken(held) => {
            let state = if now.saturating_sub(held.heard) > 2000 {
                3
            } else {
                2
            };
            SeatAnswer::held(state, &held.holder)
        }
    }
}

/// A seat as the host told of it.
fn shown_told(players: u8, seat: u8, shown: &Option<Shown>) -> SeatAnswer
    ensures { result ≡ shown_told players seat shown.now }
{
    match shown {
        None => SeatAnswer::none(if seat < players { 1 } else { 0 }),
        Some(shown) => SeatAnswer::held(if shown.heard { 2 } else { 3 }, &shown.holder),
    }
}

/// The seat of a player at the host.
fn seat_here(now: u32, seats: &[Seat; 3], player: u8) -> SeatAnswer
    ensures { result ≡ seat_here now seats.now player }
{
    if player == 0 {
        return SeatAnswer::none(2);
    }
    match seats.get(usize::from(player - 1)) {
        Some(seat) => seat_told(now, seat),
        None => SeatAnswer::none(0),
    }
}

/// The same at one who joins.
fn seat_there(seating: &Seating, player: u8) -> SeatAnswer
    ensures { result ≡ seat_there seating.now player }
{
    if player == 0 {
        let name = seating.name;
        return SeatAnswer {
            name,
            ..SeatAnswer::none(2)
        };
    }
    match seating.seats.get(usize::from(player - 1)) {
        Some(shown) => shown_told(seating.terms.players, player, shown),
        None => shown_told(seating.terms.players, player, &None),
    }
}

/// The seat of a player.
fn seat_in(now: u32, side: &Side, player: u8) -> SeatAnswer
    ensures { result ≡ seat_in now side.now player }
{
    match side {
        Side::Host(host) => seat_here(now, host.seats(), player),
        Side::Joiner(joiner) => match joiner.seating() {
            Some(seating) => seat_there(seating, player),
            None => SeatAnswer::none(0),
        },
    }
}

/// What a player is in the game, as a number.
fn standing_code(standing: Standing) -> u32
    ensures { result ≡ standing_code standing }
{
    match standing {
        Standing::Open => 1,
        Standing::Closed => 2,
        Standing::Gone => 3,
    }
}

/// Whether the game has a player.
fn has_player(part: &Part, player: u8) -> bool
    ensures { result ≡ nat_lt player (linked (playing part.now).link).node.players }
{
    player < part.link().lockstep().players()
}

/// What is seen of a player.
fn seen_at(view: &View, player: u8) -> Option<Seen>
    ensures { result ≡ slice_get view.now.players player }
{
    view.players.get(usize::from(player)).copied()
}

/// The same where the game has it.
fn seen_in(now: u32, part: &Part, player: u8) -> Option<Seen>
    ensures { result ≡ seen_in now part.now player }
{
    if has_player(part, player) {
        seen_at(&part.view(now), player)
    } else {
        None
    }
}

impl PlayerInGame {
    /// No player of a game.
    const NONE: PlayerInGame = PlayerInGame {
        standing: 0,
        awaited: 0,
        silent: 0,
        got: 0,
        end: u32::MAX,
        line: LineAnswer::NONE,
    };

    /// One of whom this is seen.
    fn of(link: &Link, player: u8, seen: Option<Seen>) -> PlayerInGame
        ensures { result ≡ seen_told link.now player seen }
    {
        let lockstep = link.lockstep();
        match seen {
            Some(seen) => PlayerInGame {
                standing: standing_code(seen.standing),
                awaited: seen.awaited,
                silent: seen.silent,
                got: got_of(lockstep, player),
                end: end_of(lockstep, player),
                line: LineAnswer::of(link.figures(player)),
            },
            None => PlayerInGame::NONE,
        }
    }
}

/// What a player is in the game.
fn in_game(now: u32, part: &Option<Part>, player: u8) -> PlayerInGame
    ensures { result ≡ in_game now part.now player }
{
    match part {
        Some(part) => PlayerInGame::of(part.link(), player, seen_in(now, part, player)),
        None => PlayerInGame::NONE,
    }
}

impl PlayerAnswer {
    ghost use Rattle.dn_session.specs.Session.{meeting};

    /// What is known of a player of a session.
    fn of(session: &Session, player: u8, now: u32) -> PlayerAnswer
        ensures { result ≡ player_told player now (meeting session.now) }
    {
        PlayerAnswer {
            seat: seat_in(now, session.lobby(), player),
            game: in_game(now, session.part(), player),
        }
    }
}

/// How many bytes `PlayerAnswer` has.
const PLAYER_SIZE: usize = 96;

/// Writes what is known of a player at this time, where the caller's struct has so many bytes.
#[unsafe(no_mangle)]
pub extern "C" fn zmg_session_player(
    session: &mut Handle,
    player: u8,
    now: u32,
    out: &mut PlayerAnswer,
    size: usize,
) -> u32
    ensures tells { 96 ≤ size → Reads session_of session.old session.new
        (λ m. (result ≡ 0) × (out.new ≡ player_told player now m)) ((result ≡ 1) × (out.new ≡ out.old)) }
    ensures small { size < 96 → (result ≡ 2) × (session.new ≡ session.old) × (out.new ≡ out.old) }
{
    if size < PLAYER_SIZE {
        return Fault::Size.code();
    }
    match session.session() {
        Some(held) => {
            *out = PlayerAnswer::of(held, player, now);
            DONE
        }
        None => Fault::Handle.code(),
    }
}
