//! What a host makes of calls.

ghost use Rattle.std.specs.{Prelude.◌≡◌, Prelude.◌<◌, Prelude.◌≤◌, Prelude.true, Prelude.length, Prelude.position, Prelude.IfSome, Prelude.option_map, List.list_any, Str.bytes_eq};
ghost use Rattle.dn_session.specs.Hosting.{hint_for, hint_to, bar, filled_by, in_lobby, lobby, on_newcomer, on_opened, on_player, refused, seating, seating_to, with_seat, HearsCall, IsLobby};
ghost use Rattle.dn_session.specs.{Seats.is_of, Seats.taken_by, Text.is_wish, Cookies.is_one, Cookies.time_of};

use crate::cookies::{cookie_of, is_good, time_of};
use crate::fields::sixteen_at;
use crate::greeting::{Address, Call, GreetingFault, Hint, Hinted, Refusal, Refused, Seating};
use crate::hinting::hinted_bytes;
use crate::host::Host;
use crate::reading::open;
use crate::seats::{Seat, all_ready, all_shown, held_by, seat_of, taken_again, taken_by};
use crate::writing::{VERSION, seal};
use arrayvec::ArrayVec;

/// A reply.
type Reply = ArrayVec<u8, 581>;

/// Whether the session that was turned away from a seat has this number.
fn is_number(number: &[u8; 16], kicked: &Option<[u8; 16]>) -> bool
    ensures { result ≡ is_one (bytes_eq number.now) kicked.now }
{
    match kicked {
        Some(kicked) => *number == *kicked,
        None => false,
    }
}

/// Whether the session of this number was turned away.
fn is_kicked(number: &[u8; 16], kicked: &[Option<[u8; 16]>; 3]) -> bool
    ensures { result ≡ list_any (is_one (bytes_eq number.now)) kicked.now }
{
    let [one, two, three] = kicked;
    is_number(number, one) || is_number(number, two) || is_number(number, three)
}

/// The hint to who sent bytes with this fault, if it gets one.
fn hint_for(fault: GreetingFault) -> Option<Hint>
    ensures { result ≡ hint_for fault }
{
    match fault {
        GreetingFault::Version => Some(Hint::Version(VERSION)),
        GreetingFault::Suite | GreetingFault::Tag => Some(Hint::Key),
        _ => None,
    }
}

/// A hint to who sent these bytes.
fn hint_to(bytes: &[u8], hint: Hint) -> Reply
    requires { 29 ≤ length bytes.now }
    ensures value { result.items ≡ hint_to bytes.now hint }
    ensures short { length result.items ≡ 29 }
{
    hinted_bytes(&Hinted {
        number: sixteen_at(bytes, 12),
        hint,
    })
}

impl Host {
    /// What one who has a seat is told.
    fn seating_to(&self, from: &Address, call: &Call, now: u32, n: usize) -> Seating
        requires { n < 3 }
        ensures { result ≡ seating_to from.now call.now now n (lobby self.now) }
    {
        Seating {
            number: call.number,
            count: call.count,
            cookie: cookie_of(&self.random, from, now),
            host: self.number,
            name: self.name,
            seat: n as u8 + 1,
            begun: self.begun,
            terms: self.terms,
            seats: all_shown(now, &self.seats),
        }
    }

    /// The reply to one who has a seat.
    fn seating(&self, from: &Address, call: &Call, now: u32, n: usize) -> Reply
        requires { n < 3 }
        ensures value { result.items ≡ seating from.now call.now now n (lobby self.now) }
        ensures short { length result.items ≤ 581 }
    {
        let seating = self.seating_to(from, call, now, n);
        seal(&self.sealer, &seating)
    }

    /// The reply to one who has none.
    fn refused(&self, from: &Address, call: &Call, now: u32, refusal: Refusal) -> Reply
        ensures value { result.items ≡ refused from.now call.now now refusal (lobby self.now) }
        ensures short { length result.items ≤ 581 }
    {
        let refused = Refused {
            number: call.number,
            count: call.count,
            cookie: cookie_of(&self.random, from, now),
            refusal,
        };
        seal(&self.sealer, &refused)
    }

    /// Changes a seat; the game begins if each player was heard recently, and since the last newcomer came.
    fn put(&mut self, now: u32, n: usize, seat: Seat)
        requires { n < 3 }
        ensures { lobby self.new ≡ with_seat now n seat (lobby self.old) }
    {
        let mut seats = self.seats;
        seats[n] = seat;
        self.seats = seats;
        self.begun = all_ready(now, self.filled, &seats);
    }

    /// A newcomer gets a seat.
    fn fill(&mut self, from: &Address, call: &Call, now: u32, n: usize)
        requires { n < 3 }
        ensures { lobby self.new ≡ with_seat now n (taken_by from.now call.now (time_of call.now.cookie))
            (filled_by call.now (lobby self.old)) }
    {
        let time = time_of(&call.cookie);
        self.filled = self.filled.max(time);
        self.put(now, n, taken_by(from, call, time));
    }

    /// What the call of a newcomer makes of it.
    fn take_new(&mut self, from: &Address, call: &Call, now: u32, seat: Option<usize>) -> Reply
        requires { IfSome seat (λ n. n < 3) }
        ensures lobby { lobby self.new ≡ (on_newcomer from.now call.now now seat (lobby self.old)).0 }
        ensures reply { result.items ≡ (on_newcomer from.now call.now now seat (lobby self.old)).1 }
        ensures short { length result.items ≤ 581 }
    {
        match seat {
            Some(n) => {
                self.fill(from, call, now, n);
                self.seating(from, call, now, n)
            }
            None => self.refused(from, call, now, Refusal::Full),
        }
    }

    /// What a call makes of it that nothing bars.
    fn take(&mut self, from: &Address, call: &Call, now: u32) -> Reply
        requires { is_wish call.now.seat ≡ true }
        ensures lobby { lobby self.new ≡ (on_player from.now call.now now
            (position (is_of call.now.number) (lobby self.old).seats) (lobby self.old)).0 }
        ensures reply { result.items ≡ (on_player from.now call.now now
            (position (is_of call.now.number) (lobby self.old).seats) (lobby self.old)).1 }
        ensures short { length result.items ≤ 581 }
    {
        match held_by(&call.number, &self.seats) {
            Some(n) => {
                let seat = taken_again(from, now, time_of(&call.cookie), &self.seats[n]);
                self.put(now, n, seat);
                self.seating(from, call, now, n)
            }
            None => {
                let seat = seat_of(call.seat, now, &self.seats);
                self.take_new(from, call, now, seat)
            }
        }
    }

    /// Why nobody who makes this call may play, if there is a reason.
    fn bar(&self, call: &Call) -> Option<Refusal>
        ensures { result ≡ bar call.now (lobby self.now) }
    {
        let players = self.terms.players;
        let asks_for_other = call.players.is_some_and(|asked| asked != players);
        if asks_for_other || call.seat.is_some_and(|wish| wish >= players) {
            return Some(Refusal::Players(players));
        }
        if call.identity != self.terms.identity {
            return Some(Refusal::Identity);
        }
        if is_kicked(&call.number, &self.kicked) {
            return Some(Refusal::Kicked);
        }
        None
    }

    /// What a call makes of it in the lobby.
    fn take_in_lobby(&mut self, from: &Address, call: &Call, now: u32) -> Reply
        requires { is_wish call.now.seat ≡ true }
        ensures lobby { lobby self.new ≡ (in_lobby from.now call.now now (lobby self.old)).0 }
        ensures reply { result.items ≡ (in_lobby from.now call.now now (lobby self.old)).1 }
        ensures short { length result.items ≤ 581 }
    {
        if !is_good(&self.random, from, now, &call.cookie) {
            return self.refused(from, call, now, Refusal::Cookie);
        }
        match self.bar(call) {
            Some(refusal) => self.refused(from, call, now, refusal),
            None => self.take(from, call, now),
        }
    }

    /// What a call makes of it.
    fn take_opened(&mut self, from: &Address, call: &Call, now: u32) -> Reply
        requires { is_wish call.now.seat ≡ true }
        ensures lobby { lobby self.new ≡ (on_opened from.now call.now now (lobby self.old)).0 }
        ensures reply { result.items ≡ (on_opened from.now call.now now (lobby self.old)).1 }
        ensures short { length result.items ≤ 581 }
    {
        if !self.begun {
            return self.take_in_lobby(from, call, now);
        }
        match held_by(&call.number, &self.seats) {
            Some(n) => self.seating(from, call, now, n),
            None => {
                let good = is_good(&self.random, from, now, &call.cookie);
                let refusal = if good {
                    Refusal::Begun
                } else {
                    Refusal::Cookie
                };
                self.refused(from, call, now, refusal)
            }
        }
    }

    /// Takes any bytes that came from an address at this time, in milliseconds of its own clock, and returns
    /// what is sent back to it, if anything is. It is no longer than what came.
    pub fn hear(&mut self, from: &Address, bytes: &[u8], now: u32) -> Option<Reply>
        ensures hears { HearsCall from.now bytes.now now (lobby self.old) (lobby self.new)
            (option_map (λ reply. reply.items) result) }
        ensures fits { IsLobby (lobby self.old) → IsLobby (lobby self.new) }
        ensures no_longer { IfSome result (λ reply. length reply.items ≤ length bytes.now) }
    {
        match open::<Call>(&self.sealer, bytes) {
            Ok(call) => Some(self.take_opened(from, &call, now)),
            Err(fault) => match hint_for(fault) {
                Some(hint) => Some(hint_to(bytes, hint)),
                None => None,
            },
        }
    }
}
