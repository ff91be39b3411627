//! The lobby of a session: that of its host, or of one who joins; and the game that it begins.

ghost use Rattle.std.specs.{Prelude.◌≡◌, Prelude.ℕ, Prelude.List, Prelude.Option, Prelude.map, Prelude.◌<◌, Prelude.◌^◌, Option.option_map};
ghost use Rattle.dn_session.specs.Session.{address_in, address_shown, begun_in, config_of, kicked_as, reply_to, Calls, HearsGreeting, KicksFrom};
ghost use Rattle.dn_session.specs.Hosting.{holder_of, lobby, HearsCall, IsLobby};
ghost use Rattle.dn_session.specs.{Joining.joining, Joining.on_time, Joining.has_come, Roster.IsJoining, Roster.IsSide, Passing.sent_of, Places.places_of, Events.acts_in};
ghost use Rattle.dn_session.specs.declared.side.Side.TheVariants as side;

use crate::greeting::{Address, Shown};
use crate::host::Host;
use crate::joiner::Joiner;
use crate::part::{Transmit, copied};
use crate::places::Places;
use crate::seats::Seat;
use crate::terms::Terms;
use arrayvec::ArrayVec;
use dn_lockstep::Config;

/// The lobby of a session.
#[derive(Drop)]
pub enum Side {
    /// It is the host.
    Host(Host),
    /// It joins.
    Joiner(Joiner),
}

/// A game that has begun: what each of its players was told.
#[derive(Clone, Copy, Debug, PartialEq, Eq)]
pub struct Begun {
    /// Its number.
    pub game: [u8; 16],
    /// What must be the same at all players.
    pub terms: Terms,
    /// The number of the session's own player.
    pub me: u8,
    /// Where the host is. None at the host itself.
    pub host: Option<Address>,
    /// Where the holders of the seats 1 to 3 are.
    pub seats: [Option<Address>; 3],
}

/// Where the holder of a seat is.
fn address_in(seat: &Seat) -> Option<Address>
    ensures { result ≡ address_in seat.now }
{
    match seat {
        Seat::Taken(held) => Some(held.holder.address),
        _ => None,
    }
}

/// Where the holders of all are.
fn addresses_in(seats: &[Seat; 3]) -> [Option<Address>; 3]
    ensures { result ≡ map address_in seats.now }
{
    let [one, two, three] = seats;
    [address_in(one), address_in(two), address_in(three)]
}

/// Where the holder of a seat is, as the host told.
fn address_shown(shown: &Option<Shown>) -> Option<Address>
    ensures { result ≡ address_shown shown.now }
{
    match shown {
        Some(shown) => Some(shown.holder.address),
        None => None,
    }
}

/// Where the holders of all are.
fn addresses_shown(seats: &[Option<Shown>; 3]) -> [Option<Address>; 3]
    ensures { result ≡ map address_shown seats.now }
{
    let [one, two, three] = seats;
    [address_shown(one), address_shown(two), address_shown(three)]
}

impl Begun {
    /// How its player's link is made.
    pub(crate) fn config(&self) -> Config
        ensures { result ≡ config_of self.now }
    {
        Config {
            players: self.terms.players,
            me: self.me,
            extra: self.terms.extra,
            limit: self.terms.limit,
            settings: None,
        }
    }

    /// Where the others are.
    pub(crate) fn places(&self, now: u32) -> Places
        ensures { result ≡ places_of self.now.host self.now.seats now }
    {
        Places::of(self.host, self.seats, now)
    }
}

/// The game of a host, once it has begun.
fn begun_here(host: &Host) -> Option<Begun>
    ensures { result ≡ begun_in (side.Host host.now) }
{
    Some(Begun {
        game: host.game()?,
        terms: *host.terms(),
        me: 0,
        host: None,
        seats: addresses_in(host.seats()),
    })
}

/// The game of one who joins, once it has begun.
fn begun_there(joiner: &Joiner) -> Option<Begun>
    ensures { result ≡ begun_in (side.Joiner joiner.now) }
{
    let game = joiner.game()?;
    match joiner.seating() {
        Some(seating) => Some(Begun {
            game,
            terms: seating.terms,
            me: seating.seat,
            host: Some(joiner.config.host),
            seats: addresses_shown(&seating.seats),
        }),
        None => None,
    }
}

/// Bytes that go to an address, if there are any.
fn addressed(to: &Address, bytes: Option<ArrayVec<u8, 581>>) -> Option<Transmit>
    ensures { option_map sent_of result ≡ reply_to to.now (option_map (λ bytes. bytes.items) bytes) }
{
    Some(Transmit {
        to: *to,
        bytes: copied(bytes?.as_slice()),
    })
}

/// A host takes bytes that came from an address, and returns what is sent back.
fn host_hears(host: &mut Host, from: &Address, bytes: &[u8], now: u32) -> Option<Transmit>
    ensures hears { (reply : Option (List ℕ)) × HearsCall from.now bytes.now now (lobby host.old) (lobby host.new) reply
        × (option_map sent_of result ≡ reply_to from.now reply) }
    ensures fits { IsLobby (lobby host.old) → IsLobby (lobby host.new) }
{
    let reply = host.hear(from, bytes, now);
    addressed(from, reply)
}

/// One who joins calls, if a call is due.
fn joiner_polls(joiner: &mut Joiner, now: u32) -> Option<Transmit>
    ensures joiner { joining joiner.new ≡ (on_time now (joining joiner.old)).0 }
    ensures call { option_map sent_of result
        ≡ reply_to (joining joiner.old).config.host (on_time now (joining joiner.old)).1 }
    ensures fits { IsJoining (joining joiner.old) → IsJoining (joining joiner.new) }
{
    let to = joiner.config.host;
    let call = joiner.poll(now);
    addressed(&to, call)
}

/// A host turns away who holds this seat.
fn host_kicks(host: &mut Host, seat: u8)
    ensures kicks { lobby host.new ≡ kicked_as (holder_of (lobby host.old) seat) (lobby host.old) }
    ensures fits { IsLobby (lobby host.old) → IsLobby (lobby host.new) }
{
    if let Some(number) = host.holder(seat) {
        host.kick(&number);
    }
}

impl Side {
    /// The game, once it has begun.
    pub(crate) fn begun(&self) -> Option<Begun>
        ensures { result ≡ begun_in self.now }
    {
        match self {
            Side::Host(host) => begun_here(host),
            Side::Joiner(joiner) => begun_there(joiner),
        }
    }

    /// Takes bytes that came from an address, and returns what is sent back.
    pub(crate) fn hear(&mut self, from: &Address, bytes: &[u8], now: u32) -> Option<Transmit>
        ensures hears { (reply : Option (List ℕ)) × HearsGreeting from.now bytes.now now self.old self.new reply
            × (option_map sent_of result ≡ reply_to from.now reply) }
        ensures fits { IsSide self.old → IsSide self.new }
    {
        match self {
            Side::Host(host) => host_hears(host, from, bytes, now),
            Side::Joiner(joiner) => {
                joiner.hear(from, bytes, now);
                None
            }
        }
    }

    /// As time goes: a call, if one is due.
    pub(crate) fn poll(&mut self, now: u32) -> Option<Transmit>
        ensures calls { Calls now self.old self.new (option_map sent_of result) }
        ensures fits { IsSide self.old → IsSide self.new }
    {
        match self {
            Side::Host(_) => None,
            Side::Joiner(joiner) => joiner_polls(joiner, now),
        }
    }

    /// When it wants to be called.
    pub(crate) fn due(&self) -> Option<u32>
        ensures { (now : ℕ) → now < 2 ^ 32 → has_come now result ≡ acts_in now self.now }
    {
        match self {
            Side::Host(_) => None,
            Side::Joiner(joiner) => joiner.due(),
        }
    }

    /// Turns away who holds this seat, 1 to 3, if it is the host and the game has not begun.
    pub(crate) fn kick(&mut self, seat: u8)
        ensures kicks { KicksFrom seat self.old self.new }
        ensures fits { IsSide self.old → IsSide self.new }
    {
        match self {
            Side::Host(host) => host_kicks(host, seat),
            Side::Joiner(_) => {}
        }
    }
}
