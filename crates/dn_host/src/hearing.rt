//! Taking the datagrams that are there, and sending what is owed.

ghost use Rattle.std.specs.Prelude.{◌≡◌, ◌==◌, ◌&&◌, ℕ, not, option_map};
ghost use Rattle.dn_session.specs.{Reading.is_greeting, Session.meeting, Session.HearsAny};
ghost use Rattle.dn_host.specs.{Playing.come_in, Playing.lines_of, Playing.millis, Turns.HearsNext, Turns.Repeats, Turns.SendsAll, Turns.SendsNext, Turns.left_after};

use crate::arrivals::{Lines, lines_of};
use crate::game::Game;
use crate::system::millis;
use crate::wire::{ROOM, Wire};
use dn_session::{Address, Session, is_greeting};

/// The most datagrams that are read between two looks at the clock.
const POLLS: u32 = 64;

/// The most greetings that are opened between two looks at the clock: each may cost the time of three tags.
const GREETINGS: u32 = 2;

/// More datagrams than a session owes at once: one to each other player, a reply, a call, and one that is passed on.
const OWED: u32 = 10;

/// Whether bytes are taken, if so many greetings still are.
fn is_taken(left: &mut u32, bytes: &[u8]) -> bool
    ensures taken { result ≡ not (is_greeting bytes.now && left.old == 0) }
    ensures left { left.new ≡ left_after left.old bytes.now }
{
    if !is_greeting(bytes) {
        return true;
    }
    let is_taken = *left != 0;
    *left = left.saturating_sub(1);
    is_taken
}

/// Sends what a session owes next: whether it owed anything.
fn send_next<W: Wire>(session: &mut Session, wire: &mut W) -> bool
    ensures { SendsNext W.sends (meeting session.old) wire.old result (meeting session.new) wire.new }
{
    match session.transmit() {
        Some(out) => {
            wire.send(&out.to, out.bytes.as_slice());
            true
        }
        None => false,
    }
}

/// Sends what a session owes.
pub(crate) fn send_all<W: Wire>(session: &mut Session, wire: &mut W)
    ensures { SendsAll W.sends (meeting session.old) wire.old (meeting session.new) wire.new }
{
    for sent in 0..OWED {
        if !send_next(session, wire) {
            return;
        }
    }
}

/// What a session's link reports of the lines, if it has one.
fn lines_in(session: &Session) -> Option<Lines>
    ensures { result ≡ lines_of (meeting session.now) }
{
    Some(lines_of(session.link()?))
}

/// A session takes any bytes that came from an address; it is counted if they came late.
fn hear(session: &mut Session, game: &mut Option<Game>, from: &Address, bytes: &[u8], now: u64)
    ensures hears { HearsAny from.now bytes.now (millis now) (meeting session.old) (meeting session.new) }
    ensures comes { game.new ≡ option_map (come_in (meeting session.old) (meeting session.new)) game.old }
{
    let before = lines_in(session);
    session.receive(from, bytes, millis(now));
    if let Some(game) = game {
        game.counts.come(&before, &lines_in(session));
    }
}

/// Takes the next datagram, if one is there: whether one was. A greeting is dropped if no more of them are taken. What
/// a session owes is sent before it takes another datagram, so each greeting is answered.
fn hear_next<W: Wire>(
    session: &mut Session,
    game: &mut Option<Game>,
    wire: &mut W,
    left: &mut u32,
    now: u64,
) -> bool
    ensures { HearsNext W.sends W.polls now (record { session = meeting session.old; game = game.old; wire = wire.old })
        left.old result (record { session = meeting session.new; game = game.new; wire = wire.new }) left.new }
{
    let mut room = [0; ROOM];
    let Some((from, count)) = wire.poll(&mut room) else {
        return false;
    };
    let bytes = &room[..count];
    if is_taken(left, bytes) {
        hear(session, game, &from, bytes, now);
        send_all(session, wire);
    }
    true
}

/// Takes the datagrams that are there, up to some number: whether there may be more.
pub(crate) fn hear_all<W: Wire>(
    session: &mut Session,
    game: &mut Option<Game>,
    wire: &mut W,
    now: u64,
) -> bool
    ensures { (left : ℕ) × Repeats (HearsNext W.sends W.polls now) 64
        (record { session = meeting session.old; game = game.old; wire = wire.old }) 2
        (record { session = meeting session.new; game = game.new; wire = wire.new }) left result }
{
    let mut left = GREETINGS;
    for heard in 0..POLLS {
        if !hear_next(session, game, wire, &mut left, now) {
            return false;
        }
    }
    true
}
