//! A miniature engine: a session, and a world that is stepped by the rows that its runs tell.

ghost use Rattle.std.specs.Prelude.{◌≡◌, ◌≢◌, ◌<◌, ℕ, pos, get_or, true, None, Some, Ok, IfSome};
ghost use Rattle.dn_engine_tests.specs.Engines.{BeginsIn, GoesOn, Rests, RunsIn, came_of};

use crate::steps::{Call, Done};
use arrayvec::ArrayVec;
use dn_link::remaining_bytes_are_genuine;
use dn_lockstep::NodeFault;
use dn_machine::Ran;
use dn_session::{Begun, Session, sessions_keep, sessions_stay};
use dn_tic::Move;
use dn_world::World;
use std::alloc::Global;

/// An engine.
#[derive(Drop)]
pub struct Engine<W> {
    /// Its session.
    pub session: Session,
    /// Its world.
    pub world: W,
    /// The rows that its runs told.
    pub told: Vec<[Option<Move>; 4]>,
}

impl<W: World> Engine<W> {
    /// Begins its game, if that is this one, and it has this place there: whether it did. Then its world begins.
    pub(crate) fn begin(
        &mut self,
        alloc: Global,
        game: &Begun,
        place: u8,
        now: u32,
    ) -> Result<bool, NodeFault>
        ensures begins { result ≡ Ok true → BeginsIn W.state W.physics game.now place now self.old self.new }
        ensures idle { result ≢ Ok true → Rests W.state self.old self.new }
    {
        let Some(here) = self.session.begun() else {
            return Ok(false);
        };
        if here.game != game.game || here.me != place {
            return Ok(false);
        }
        if !self.session.begin(alloc, now)? {
            return Ok(false);
        }
        if let Some(link) = self.session.link() {
            let present = link.lockstep().present();
            self.world.begin(&game.terms.settings.start(), present);
        }
        Ok(true)
    }

    /// Each player's mark in its world.
    fn marks(&self) -> [i16; 4]
        ensures { (player : ℕ) → player < 4
            → get_or result player (pos 0) ≡ W.physics.mark (W.state self.now.world) player }
    {
        let world = &self.world;
        [world.mark(0), world.mark(1), world.mark(2), world.mark(3)]
    }

    /// Runs the next tic, if it can, by the marks of its world, and steps the world by the row.
    fn run(&mut self) -> Option<Ran>
        ensures runs { IfSome result (λ ran. RunsIn W.state W.physics ran self.old self.new) }
        ensures idle { result ≡ None → Rests W.state self.old self.new }
    {
        if self.told.try_reserve(1).is_err() {
            return None;
        }
        let marks = self.marks();
        let mut row = [None; 4];
        let ran = self.session.run(&marks, &mut row);
        if let Ran::Ran(_) = ran {
            self.world.step(&row);
            self.told.push_reserved(row);
        }
        Some(ran)
    }

    /// Makes a call, and answers what it did, and the bytes that it gave, if it gave any.
    pub(crate) fn call(&mut self, call: &Call, now: u32) -> (Done, Option<ArrayVec<u8, 1200>>)
        ensures { GoesOn W.state W.physics (came_of call.now) result.1 self.old self.new }
    {
        sessions_keep();
        sessions_stay();
        remaining_bytes_are_genuine();
        match call {
            Call::Poll => {
                self.session.poll(now);
                (Done::Done, None)
            }
            Call::Give(input) => (Done::Given(self.session.give(*input, now)), None),
            Call::Run => (Done::Ran(self.run()), None),
            Call::Send => match self.session.transmit() {
                Some(sent) => (Done::Sent(Some(sent.to)), Some(sent.bytes)),
                None => (Done::Sent(None), None),
            },
            Call::Hear { from, bytes } => {
                self.session.receive(from, bytes, now);
                (Done::Done, None)
            }
            Call::GiveUp(player) => (Done::GivenUp(self.session.give_up(*player, now)), None),
            Call::Quit => {
                self.session.quit(now);
                (Done::Done, None)
            }
        }
    }
}
