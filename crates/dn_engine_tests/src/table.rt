//! A table: the engines of one game in one process, and every datagram that they gave.

ghost use Rattle.std.specs.Prelude.{◌≡◌, None, length, nat_lt};
ghost use Rattle.dn_engine_tests.specs.{Engines.came_of, Tables.StayTable};

use crate::engine::Engine;
use crate::steps::{Call, Done, Event, Refusal, Step};
use arrayvec::ArrayVec;
use dn_link::remaining_bytes_are_genuine;
use dn_session::{Address, sessions_keep, sessions_play, sessions_stay};
use dn_world::World;
use std::alloc::Global;

/// Engines by the numbers of their players, the host's first, and what they gave, in order.
#[derive(Drop)]
pub struct Table<W> {
    /// The engines.
    pub engines: Vec<Engine<W>>,
    /// What was given.
    pub given: Vec<ArrayVec<u8, 1200>>,
}

impl<W: World> Table<W> {
    /// Whether an engine has this place.
    fn has(&self, player: u8) -> bool
        ensures { result ≡ nat_lt player (length self.now.engines.items) }
    {
        usize::from(player) < self.engines.len()
    }

    /// An engine begins the host's game.
    fn begin(&mut self, alloc: Global, player: u8, now: u32) -> Result<Done, Refusal>
        ensures { StayTable W.state W.physics self.old self.new }
    {
        sessions_keep();
        sessions_play();
        sessions_stay();
        remaining_bytes_are_genuine();
        if !self.has(player) {
            return Err(Refusal::NoEngine);
        }
        let Some(game) = self.engines[0].session.begun() else {
            return Err(Refusal::NoGame);
        };
        if self.engines.len() != usize::from(game.terms.players) {
            return Err(Refusal::NoGame);
        }
        match self.engines[usize::from(player)].begin(alloc, &game, player, now) {
            Ok(begun) => Ok(Done::Begun(begun)),
            Err(_) => Err(Refusal::Memory),
        }
    }

    /// A call of an engine. What it gives joins what was given; where there is no room it is lost.
    fn call(&mut self, player: u8, call: &Call, now: u32) -> Result<Done, Refusal>
        requires { came_of call.now ≡ None }
        ensures { StayTable W.state W.physics self.old self.new }
    {
        if !self.has(player) {
            return Err(Refusal::NoEngine);
        }
        remaining_bytes_are_genuine();
        let (done, sent) = self.engines[usize::from(player)].call(call, now);
        if let Some(bytes) = sent {
            let _ = self.given.push(bytes);
        }
        Ok(done)
    }

    /// What was given as this one comes to an engine.
    fn hear(&mut self, player: u8, which: u32, from: Address, now: u32) -> Result<Done, Refusal>
        ensures { StayTable W.state W.physics self.old self.new }
    {
        if !self.has(player) {
            return Err(Refusal::NoEngine);
        }
        remaining_bytes_are_genuine();
        let Some(bytes) = self.given.get(which as usize) else {
            return Err(Refusal::NoDatagram);
        };
        let bytes = bytes.as_slice();
        let (done, _) = self.engines[usize::from(player)].call(&Call::Hear { from, bytes }, now);
        Ok(done)
    }

    /// What happens, or why nothing does.
    pub fn apply(&mut self, alloc: Global, event: &Event) -> Result<Done, Refusal>
        ensures { StayTable W.state W.physics self.old self.new }
    {
        let Event { player, now, step } = *event;
        match step {
            Step::Begin => self.begin(alloc, player, now),
            Step::Poll => self.call(player, &Call::Poll, now),
            Step::Give(input) => self.call(player, &Call::Give(input), now),
            Step::Run => self.call(player, &Call::Run, now),
            Step::Send => self.call(player, &Call::Send, now),
            Step::GiveUp(other) => self.call(player, &Call::GiveUp(other), now),
            Step::Quit => self.call(player, &Call::Quit, now),
            Step::Hear { which, from } => self.hear(player, which, from, now),
        }
    }
}
