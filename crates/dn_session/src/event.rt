//! What has happened in a session, told in order.

ghost use Rattle.std.specs.Prelude.{◌≡◌, ◌<◌, slice_set};
ghost use Rattle.dn_link.specs.Linking.{linked};
ghost use Rattle.dn_session.specs.Events.{began_event, first_news, none_announced, news_in, news_of, next_event, over_event, over_in, over_part, over_side, player_event, seat_event, seat_in, announced_after};

use crate::ending::Over;
use crate::joiner::Stage;
use crate::lead::Standing;
use crate::part::Part;
use crate::players::{is_peer, standing_beside};
use crate::side::Side;
use dn_link::Link;

/// What has happened in a session. Each is told once.
#[derive(Clone, Copy, Debug, PartialEq, Eq)]
pub enum Event {
    /// The host has given this seat to its player.
    Seated(u8),
    /// It does not count on its seat any more: it is over, or calls the host again.
    Unseated,
    /// The game has begun, and its player plays.
    Began,
    /// This player has left the game. All of its commands are here. It may still be given up.
    Left(u8),
    /// This player is given up.
    GivenUp(u8),
    /// The session is over. This is the last event.
    Over(Over),
}

/// What was announced of it.
#[derive(Clone, Copy, Debug, PartialEq, Eq)]
pub(crate) struct Announced {
    seat: Option<u8>,
    began: bool,
    standings: [Standing; 4],
    over: bool,
}

/// How a session is over in its lobby.
fn over_side(side: &Side) -> Option<Over>
    ensures { result ≡ over_side side.now }
{
    let Side::Joiner(joiner) = side else {
        return None;
    };
    match joiner.stage() {
        Stage::Refused(refusal) => Some(Over::Refused(refusal)),
        Stage::Hinted(hint) => Some(Over::Hinted(hint)),
        _ => None,
    }
}

/// How it is over in its game.
fn over_part(part: &Option<Part>) -> Option<Over>
    ensures { result ≡ over_part part.now }
{
    match part {
        Some(part) => Some(Over::Ended(part.ending()?)),
        None => None,
    }
}

/// How it is over.
pub(crate) fn over_in(side: &Side, part: &Option<Part>) -> Option<Over>
    ensures { result ≡ over_in side.now part.now }
{
    over_side(side).or(over_part(part))
}

/// The seat of a joiner by where it stands, and what it was told last.
fn seat_in(side: &Side) -> Option<u8>
    ensures { result ≡ seat_in side.now }
{
    let Side::Joiner(joiner) = side else {
        return None;
    };
    match (joiner.stage(), joiner.seating()) {
        (Stage::Seated | Stage::Playing, Some(seating)) => Some(seating.seat),
        _ => None,
    }
}

/// That it got a seat or another, or lost the one that it had.
fn seat_event(told: Option<u8>, seat: Option<u8>) -> Option<Event>
    ensures { result ≡ seat_event told seat }
{
    match (told, seat) {
        (None, None) => None,
        (Some(_), None) => Some(Event::Unseated),
        (None, Some(seat)) => Some(Event::Seated(seat)),
        (Some(told), Some(seat)) if told == seat => None,
        (Some(_), Some(seat)) => Some(Event::Seated(seat)),
    }
}

/// That the game has begun.
fn began_event(began: bool, part: &Option<Part>) -> Option<Event>
    ensures { result ≡ began_event began part.now }
{
    if part.is_some() && !began {
        Some(Event::Began)
    } else {
        None
    }
}

/// What became of a player.
fn news_of(told: Standing, standing: Standing, player: u8) -> Option<Event>
    ensures { result ≡ news_of told standing player }
{
    match (told, standing) {
        (Standing::Open, Standing::Closed) => Some(Event::Left(player)),
        (Standing::Open | Standing::Closed, Standing::Gone) => Some(Event::GivenUp(player)),
        _ => None,
    }
}

/// What became of another.
fn news_in(told: &[Standing; 4], link: &Link, player: u8) -> Option<Event>
    requires { player < 4 }
    ensures { result ≡ news_in told.now (linked link.now) player }
{
    if is_peer(link, player) {
        news_of(told[player as usize], standing_beside(link, player), player)
    } else {
        None
    }
}

/// What became of the lowest of whom it was not told.
fn first_news(told: &[Standing; 4], link: &Link) -> Option<Event>
    ensures { result ≡ first_news told.now (linked link.now) }
{
    news_in(told, link, 0)
        .or(news_in(told, link, 1))
        .or(news_in(told, link, 2))
        .or(news_in(told, link, 3))
}

/// The same in a part, if there is one.
fn player_event(told: &[Standing; 4], part: &Option<Part>) -> Option<Event>
    ensures { result ≡ player_event told.now part.now }
{
    match part {
        Some(part) => first_news(told, part.link()),
        None => None,
    }
}

/// That it is over.
fn over_event(told: bool, over: Option<Over>) -> Option<Event>
    ensures { result ≡ over_event told over }
{
    match over {
        Some(over) if !told => Some(Event::Over(over)),
        _ => None,
    }
}

impl Announced {
    /// Nothing was told.
    pub(crate) fn nothing() -> Announced
        ensures { result ≡ none_announced }
    {
        Announced {
            seat: None,
            began: false,
            standings: [Standing::Open; 4],
            over: false,
        }
    }

    /// What has happened first, and was not told.
    pub(crate) fn next(&self, side: &Side, part: &Option<Part>) -> Option<Event>
        ensures { result ≡ next_event self.now side.now part.now }
    {
        seat_event(self.seat, seat_in(side))
            .or(began_event(self.began, part))
            .or(player_event(&self.standings, part))
            .or(over_event(self.over, over_in(side, part)))
    }

    /// This is told.
    pub(crate) fn note(&mut self, event: Option<Event>)
        ensures { self.new ≡ announced_after event self.old }
    {
        match event {
            Some(Event::Seated(seat)) => self.seat = Some(seat),
            Some(Event::Unseated) => self.seat = None,
            Some(Event::Began) => self.began = true,
            Some(Event::Left(player)) => self.stand(player, Standing::Closed),
            Some(Event::GivenUp(player)) => self.stand(player, Standing::Gone),
            Some(Event::Over(_)) => self.over = true,
            None => {}
        }
    }

    /// A player is told of as this.
    fn stand(&mut self, player: u8, standing: Standing)
        ensures { self.new ≡ record self.old { standings = slice_set self.old.standings player standing } }
    {
        if player < 4 {
            self.standings[usize::from(player)] = standing;
        }
    }
}
