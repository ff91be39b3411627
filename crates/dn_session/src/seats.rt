//! A seat, who holds it, and what it is to a caller.

ghost use Rattle.std.specs.{Prelude.◌≡◌, Prelude.◌<◌, Prelude.IfSome, Prelude.map, Prelude.position, Prelude.true, List.list_all};
ghost use Rattle.dn_session.specs.Seats.{held_again, is_free, is_of, is_ready, is_silent, number_in, seat_for, seat_of, shown_at, taken_again, taken_by};
ghost use Rattle.dn_session.specs.Text.{is_wish};

use crate::cookies::is_recent;
use crate::greeting::{Address, Call, Holder, Shown};

/// Who holds a seat, and when it was heard. Times are milliseconds of the host's own clock: those of the
/// cookies that came with calls.
#[derive(Clone, Copy, Debug, PartialEq, Eq)]
pub struct Held {
    /// Who holds it.
    pub holder: Holder,
    /// Until when it was heard, from anywhere.
    pub heard: u32,
    /// Until when it was heard from its address.
    pub heard_here: u32,
}

/// A seat other than the host's.
#[derive(Clone, Copy, Debug, PartialEq, Eq)]
pub enum Seat {
    /// The game has no such seat.
    Absent,
    /// Nobody holds it.
    Free,
    /// It is held.
    Taken(Held),
}

/// The seat of a game of so many players before anybody holds it.
pub(crate) fn seat_for(players: u8, n: u8) -> Seat
    ensures { result ≡ seat_for players n }
{
    if n < players {
        Seat::Free
    } else {
        Seat::Absent
    }
}

/// Whether nobody holds it.
fn is_free(seat: &Seat) -> bool
    ensures { result ≡ is_free seat.now }
{
    matches!(seat, Seat::Free)
}

/// Whether its holder's session has this number.
fn is_of(number: &[u8; 16], seat: &Seat) -> bool
    ensures { result ≡ is_of number.now seat.now }
{
    match seat {
        Seat::Taken(held) => held.holder.number == *number,
        _ => false,
    }
}

/// Whether it is held, and its holder was not heard recently.
fn is_silent(now: u32, seat: &Seat) -> bool
    ensures { result ≡ is_silent now seat.now }
{
    match seat {
        Seat::Taken(held) => !is_recent(now, held.heard),
        _ => false,
    }
}

/// Whether the game can begin as far as this seat goes.
fn is_ready(now: u32, filled: u32, seat: &Seat) -> bool
    ensures { result ≡ is_ready now filled seat.now }
{
    match seat {
        Seat::Absent => true,
        Seat::Free => false,
        Seat::Taken(held) => is_recent(now, held.heard) && filled <= held.heard,
    }
}

/// Whether it can begin as far as all seats go, the last of which was filled at this time.
pub(crate) fn all_ready(now: u32, filled: u32, seats: &[Seat; 3]) -> bool
    ensures { result ≡ list_all (is_ready now filled) seats.now }
{
    let [one, two, three] = seats;
    is_ready(now, filled, one) && is_ready(now, filled, two) && is_ready(now, filled, three)
}

/// The seat of the session of this number, if it holds one.
pub(crate) fn held_by(number: &[u8; 16], seats: &[Seat; 3]) -> Option<usize>
    ensures value { result ≡ position (is_of number.now) seats.now }
    ensures within { IfSome result (λ n. n < 3) }
{
    seats.iter().position(|seat| is_of(number, seat))
}

/// The lowest seat that nobody holds.
fn free_in(seats: &[Seat; 3]) -> Option<usize>
    ensures value { result ≡ position is_free seats.now }
    ensures within { IfSome result (λ n. n < 3) }
{
    seats.iter().position(|seat| is_free(seat))
}

/// The lowest seat whose holder is silent.
fn silent_in(now: u32, seats: &[Seat; 3]) -> Option<usize>
    ensures value { result ≡ position (is_silent now) seats.now }
    ensures within { IfSome result (λ n. n < 3) }
{
    seats.iter().position(|seat| is_silent(now, seat))
}

/// The seat that a newcomer gets.
pub(crate) fn seat_of(wish: Option<u8>, now: u32, seats: &[Seat; 3]) -> Option<usize>
    requires { is_wish wish ≡ true }
    ensures value { result ≡ seat_of wish now seats.now }
    ensures within { IfSome result (λ n. n < 3) }
{
    let Some(wish) = wish else {
        return free_in(seats).or(silent_in(now, seats));
    };
    let n = usize::from(wish.saturating_sub(1));
    if is_free(&seats[n]) || is_silent(now, &seats[n]) {
        Some(n)
    } else {
        None
    }
}

/// The seat of who makes this call from this address, with a cookie of this time.
pub(crate) fn taken_by(from: &Address, call: &Call, time: u32) -> Seat
    ensures { result ≡ taken_by from.now call.now time }
{
    Seat::Taken(Held {
        holder: Holder {
            number: call.number,
            address: *from,
            name: call.name,
        },
        heard: time,
        heard_here: time,
    })
}

/// Who holds a seat and calls again.
fn held_again(from: &Address, now: u32, time: u32, held: &Held) -> Held
    ensures { result ≡ held_again from.now now time held.now }
{
    let mut again = *held;
    again.heard = held.heard.max(time);
    if held.holder.address.bytes == from.bytes {
        again.heard_here = held.heard_here.max(time);
    } else if !is_recent(now, held.heard_here) {
        again.holder.address = *from;
        again.heard_here = time;
    }
    again
}

/// The seat of one who calls again.
pub(crate) fn taken_again(from: &Address, now: u32, time: u32, seat: &Seat) -> Seat
    ensures { result ≡ taken_again from.now now time seat.now }
{
    match seat {
        Seat::Taken(held) => Seat::Taken(held_again(from, now, time, held)),
        seat => *seat,
    }
}

/// What others are told of it.
fn shown_at(now: u32, seat: &Seat) -> Option<Shown>
    ensures { result ≡ shown_at now seat.now }
{
    match seat {
        Seat::Taken(held) => Some(Shown {
            holder: held.holder,
            heard: is_recent(now, held.heard),
        }),
        _ => None,
    }
}

/// What they are told of all seats.
pub(crate) fn all_shown(now: u32, seats: &[Seat; 3]) -> [Option<Shown>; 3]
    ensures { result ≡ map (shown_at now) seats.now }
{
    let [one, two, three] = seats;
    [shown_at(now, one), shown_at(now, two), shown_at(now, three)]
}

/// The number of who holds it, and zeros.
pub(crate) fn number_in(seat: &Seat) -> [u8; 16]
    ensures { result ≡ number_in seat.now }
{
    match seat {
        Seat::Taken(held) => held.holder.number,
        _ => [0; 16],
    }
}
