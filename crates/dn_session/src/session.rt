//! A session of one player: its lobby, and then its part in the game.

ghost use Rattle.std.specs.{Prelude.◌≡◌, Prelude.IfOk, Option.option_map};
ghost use Rattle.dn_session.specs.Session.{IsMadeAs, meeting, new_meeting, Begins, HearsAny, IsHostSession, IsJoinSession, PassesTo, Sends, SendsPart};
ghost use Rattle.dn_session.specs.{Passing.sent_of, Roster.IsSide};

mod playing;
mod reading;

use crate::event::Announced;
use crate::greeting::Address;
use crate::host::{Host, HostConfig};
use crate::joiner::{JoinConfig, Joiner};
use crate::part::{Part, Transmit, keep};
use crate::reading::is_greeting;
use crate::side::{Begun, Side};
use crate::terms::LobbyFault;
use crate::writing::game_seal;
use dn_link::Link;
use dn_lockstep::NodeFault;
use std::alloc::Global;

/// The part of a player in a game that begins now.
fn part_of(
    alloc: Global,
    secret: Option<[u8; 32]>,
    begun: &Begun,
    now: u32,
) -> Result<Part, NodeFault>
    ensures { IsMadeAs secret begun.now now result }
{
    let terms = begun.terms;
    let seal = game_seal(secret, begun.game);
    let places = begun.places(now);
    let link = Link::new(alloc, begun.config(), terms.settings, terms.ahead, seal)?;
    Ok(Part::new(link, terms.rate, terms.policy, places, now))
}

/// A session of one player: of a host, or of one who joins. It has no socket and no clock: what comes is given
/// to it with the address that it came from, and what goes is taken from it with the address that it goes to.
/// Times are milliseconds of the player's own clock, and never go back. They are counted from the making of the
/// session: at 2^32 - 1, after 49 days, they stop, and the game with them.
#[derive(Drop)]
pub struct Session {
    side: Side,
    secret: Option<[u8; 32]>,
    part: Option<Part>,
    reply: Option<Transmit>,
    call: Option<Transmit>,
    announced: Announced,
}

/// What a part sends next, if there is one.
fn transmit_of(part: &mut Option<Part>) -> Option<Transmit>
    ensures { SendsPart part.old part.new (option_map sent_of result) }
{
    match part {
        Some(part) => part.transmit(),
        None => None,
    }
}

impl Session {
    /// The session of a host, or the first fault of its terms.
    pub fn host(config: &HostConfig) -> Result<Session, LobbyFault>
        ensures made { IsHostSession config.now result }
        ensures fits { IfOk result (λ session. IsSide (meeting session).lobby) }
    {
        let host = Host::new(config)?;
        Ok(Session::of(Side::Host(host), config.secret))
    }

    /// The session of one who joins and calls from this time on, or the first fault of its configuration.
    pub fn join(config: &JoinConfig, now: u32) -> Result<Session, LobbyFault>
        ensures made { IsJoinSession config.now now result }
        ensures fits { IfOk result (λ session. IsSide (meeting session).lobby) }
    {
        let joiner = Joiner::new(config, now)?;
        Ok(Session::of(Side::Joiner(joiner), config.secret))
    }

    /// A session in its lobby.
    fn of(side: Side, secret: Option<[u8; 32]>) -> Session
        ensures { meeting result ≡ new_meeting side secret }
    {
        Session {
            side,
            secret,
            part: None,
            reply: None,
            call: None,
            announced: Announced::nothing(),
        }
    }

    /// Takes any bytes that came from an address. Take what is to be sent before the next ones: a new reply
    /// takes the place of one that was not sent.
    pub fn receive(&mut self, from: &Address, bytes: &[u8], now: u32)
        ensures hears { HearsAny from.now bytes.now now (meeting self.old) (meeting self.new) }
        ensures fits { IsSide (meeting self.old).lobby → IsSide (meeting self.new).lobby }
    {
        if is_greeting(bytes) {
            let reply = self.side.hear(from, bytes, now);
            keep(&mut self.reply, reply);
        } else if let Some(part) = &mut self.part {
            part.hear(from, bytes, now);
        }
    }

    /// Makes its part in the game, once that has begun: whether it did. All memory of a session is taken here.
    pub fn begin(&mut self, alloc: Global, now: u32) -> Result<bool, NodeFault>
        ensures { Begins now (meeting self.old) (meeting self.new) result }
    {
        if self.part.is_some() {
            return Ok(false);
        }
        let Some(begun) = self.begun() else {
            return Ok(false);
        };
        match part_of(alloc, self.secret, &begun, now) {
            Ok(part) => {
                self.part = Some(part);
                Ok(true)
            }
            Err(fault) => Err(fault),
        }
    }

    /// Does what is due at this time.
    pub fn poll(&mut self, now: u32)
        ensures passes { PassesTo now (meeting self.old) (meeting self.new) }
        ensures fits { IsSide (meeting self.old).lobby → IsSide (meeting self.new).lobby }
    {
        let call = self.side.poll(now);
        keep(&mut self.call, call);
        if let Some(part) = &mut self.part {
            part.poll(now);
        }
    }

    /// What is to be sent next. Call it until there is nothing, after each other call.
    pub fn transmit(&mut self) -> Option<Transmit>
        ensures { Sends (meeting self.old) (meeting self.new) (option_map sent_of result) }
    {
        if self.reply.is_some() {
            return self.reply.take();
        }
        if self.call.is_some() {
            return self.call.take();
        }
        transmit_of(&mut self.part)
    }
}
