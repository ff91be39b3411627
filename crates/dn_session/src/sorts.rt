//! The sorts of greetings that have a tag.

ghost use Rattle.std.specs.Prelude.{◌≡◌, ◌≤◌, ◌+◌, length, All, IfSome, Some};
ghost use Rattle.dn_session.specs.{Sorts.calls, Sorts.refusals, Sorts.seatings, Sorts.Sort, Terms.IsTerms, Text.is_joiners_seat, Text.call_rest, Text.refused_rest, Text.seating_rest};
ghost use Rattle.dn_session.specs.Text.{IsCall, IsHolder, IsRefused, IsSeating};

use crate::fields::{
    bit, name_in, padding, reason_bytes, reason_in, seats_bytes, shown_in, sixteen_at, terms_bytes,
    terms_in,
};
use crate::greeting::{Call, Refused, Seating};
use crate::joiner::{is_count_or_none, is_wish};
use crate::terms::Terms;
use arrayvec::ArrayVec;
use dn_seal::{append, tic_at};

/// A greeting that has a tag.
pub trait Greeting: Copy {
    // its sort
    ghost sort: { Sort Self };

    /// What stands behind its head.
    fn rest(&self) -> ArrayVec<u8, 553>
        ensures { result.items ≡ sort.rest self.now };

    /// The sort that byte 11 of its head tells, and how many bytes it has, head and tag among them.
    fn what_and_size() -> (u8, usize)
        ensures value { result ≡ (sort.what, sort.size) }
        ensures enough { 29 ≤ sort.size }
        ensures long { (greeting : Self) → sort.Is greeting → length (sort.rest greeting) + 28 ≡ sort.size };

    /// The greeting whose rest these bytes are: those between the twelve of the head and the 16 of the tag. None
    /// where they are that of none whose fields are in range.
    fn told(bytes: &[u8]) -> Option<Self>
        requires { length bytes.now + 28 ≡ sort.size }
        ensures is { IfSome result (λ greeting. sort.Is greeting × (bytes.now ≡ sort.rest greeting)) }
        ensures only { (greeting : Self) → sort.Is greeting → bytes.now ≡ sort.rest greeting → result ≡ Some greeting };
}

/// The call that these bytes tell.
fn call_in(bytes: &[u8]) -> Call
    requires { length bytes.now ≡ 553 }
    ensures { (call : Call) → IsCall call → bytes.now ≡ call_rest call → result ≡ call }
{
    Call {
        number: sixteen_at(bytes, 0),
        count: tic_at(bytes, 16),
        cookie: sixteen_at(bytes, 20),
        seat: name_in(bytes[36]),
        players: name_in(bytes[37]),
        identity: sixteen_at(bytes, 38),
        name: sixteen_at(bytes, 54),
    }
}

impl Greeting for Call {
    ghost sort = { calls };

    fn rest(&self) -> ArrayVec<u8, 553> {
        let mut bytes = ArrayVec::new();
        append(&mut bytes, &self.number);
        append(&mut bytes, &self.count.to_le_bytes());
        append(&mut bytes, &self.cookie);
        append(
            &mut bytes,
            &[self.seat.unwrap_or(0), self.players.unwrap_or(0)],
        );
        append(&mut bytes, &self.identity);
        append(&mut bytes, &self.name);
        append(&mut bytes, &padding());
        bytes
    }

    fn what_and_size() -> (u8, usize) {
        (1, 581)
    }

    fn told(bytes: &[u8]) -> Option<Call> {
        let call = call_in(bytes);
        let fits = is_wish(call.seat) && is_count_or_none(call.players);
        if fits && *bytes == *call.rest().as_slice() {
            return Some(call);
        }
        None
    }
}

/// Whether a game of so many players has this seat, and it is not the host's.
fn is_joiners_seat(players: u8, seat: u8) -> bool
    ensures { result ≡ is_joiners_seat players seat }
{
    1 <= seat && seat < players
}

/// The seating that these bytes tell, if a game may have its terms.
fn seating_in(bytes: &[u8]) -> Option<Seating>
    requires { length bytes.now ≡ 553 }
    ensures fits { IfSome result (λ s. IsTerms s.terms × All (λ seat. IfSome seat (λ shown. IsHolder shown.holder)) s.seats) }
    ensures only { (s : Seating) → IsSeating s → bytes.now ≡ seating_rest s → result ≡ Some s }
{
    let terms = terms_in(&bytes[70..358])?;
    let one = shown_in(&bytes[358..423]);
    let two = shown_in(&bytes[423..488]);
    let three = shown_in(&bytes[488..553]);
    Some(Seating {
        number: sixteen_at(bytes, 0),
        count: tic_at(bytes, 16),
        cookie: sixteen_at(bytes, 20),
        host: sixteen_at(bytes, 36),
        name: sixteen_at(bytes, 52),
        seat: bytes[68],
        begun: bytes[69] == 1,
        terms,
        seats: [one, two, three],
    })
}

impl Greeting for Seating {
    ghost sort = { seatings };

    fn rest(&self) -> ArrayVec<u8, 553> {
        let mut bytes = ArrayVec::new();
        append(&mut bytes, &self.number);
        append(&mut bytes, &self.count.to_le_bytes());
        append(&mut bytes, &self.cookie);
        append(&mut bytes, &self.host);
        append(&mut bytes, &self.name);
        append(&mut bytes, &[self.seat, bit(self.begun)]);
        append(&mut bytes, terms_bytes(&self.terms).as_slice());
        append(&mut bytes, seats_bytes(&self.seats).as_slice());
        bytes
    }

    fn what_and_size() -> (u8, usize) {
        (2, 581)
    }

    fn told(bytes: &[u8]) -> Option<Seating> {
        let seating = seating_in(bytes)?;
        let fits = is_joiners_seat(seating.terms.players, seating.seat);
        if fits && *bytes == *seating.rest().as_slice() {
            return Some(seating);
        }
        None
    }
}

/// The refusal that these bytes tell.
fn refused_in(bytes: &[u8]) -> Refused
    requires { length bytes.now ≡ 38 }
    ensures { (refused : Refused) → IsRefused refused → bytes.now ≡ refused_rest refused → result ≡ refused }
{
    Refused {
        number: sixteen_at(bytes, 0),
        count: tic_at(bytes, 16),
        cookie: sixteen_at(bytes, 20),
        refusal: reason_in(bytes[36], bytes[37]),
    }
}

impl Greeting for Refused {
    ghost sort = { refusals };

    fn rest(&self) -> ArrayVec<u8, 553> {
        let mut bytes = ArrayVec::new();
        append(&mut bytes, &self.number);
        append(&mut bytes, &self.count.to_le_bytes());
        append(&mut bytes, &self.cookie);
        append(&mut bytes, &reason_bytes(self.refusal));
        bytes
    }

    fn what_and_size() -> (u8, usize) {
        (3, 66)
    }

    fn told(bytes: &[u8]) -> Option<Refused> {
        let refused = refused_in(bytes);
        if *bytes == *refused.rest().as_slice() {
            return Some(refused);
        }
        None
    }
}
