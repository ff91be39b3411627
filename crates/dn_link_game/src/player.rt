//! One player of a game: a link, and a world that is stepped by the rows that the link tells.

ghost use Rattle.std.specs.Prelude.{◌≡◌, ◌<◌, ℕ, None, pos, get_or, is_some, true, IfOk};
ghost use Rattle.dn_link.specs.Linking.{seal_of};
ghost use Rattle.dn_link_game.specs.{Applied.is_answer, Does.{Does, Runs}};
ghost use Rattle.dn_link_game.specs.declared.calls.{LinkCall.TheVariants.{Build, Send}, LinkDone.TheVariants.{Built, Sent}, Sending.TheVariants.Datagram};
ghost use Rattle.dn_link_game.specs.{Games.IsNew, Opening.IsAdmittedAs, Opening.limits_of, Playing.{Asked, GoesOn, GoesOnIf, gives, is_send, sees, taking, telling}};

use crate::calls::{LinkCall, LinkDone, Sending};
use crate::config::LinkGameConfig;
use arrayvec::ArrayVec;
use dn_link::{Link, remaining_bytes_are_genuine, remaining_links_go_on};
use dn_lockstep::{Config, NodeFault};
use dn_machine::{Made, Ran};
use dn_tic::{Input, Move};
use dn_world::World;
use std::alloc::Global;

/// One player: its link, and its world, which has begun.
#[derive(Drop)]
pub struct Player<W> {
    /// Its link.
    pub link: Link,
    /// Its world.
    pub world: W,
}

impl<W: World> Player<W> {
    /// A player with a new link, whose world begins. All memory that it needs is taken here; where there is no
    /// player the world is dropped.
    pub(crate) fn new(
        alloc: Global,
        config: &LinkGameConfig,
        players: u8,
        me: u8,
        world: W,
    ) -> Result<Player<W>, NodeFault>
        ensures admitted { IsAdmittedAs config.now players me result }
        ensures opened { IfOk result (λ player. IsNew W.state W.physics (limits_of config.now players) config.now.settings
            config.now.seal me player) }
    {
        let own = Config {
            players,
            me,
            extra: config.extra,
            limit: config.limit,
            settings: None,
        };
        let link = Link::new(alloc, own, config.settings, config.ahead, config.seal)?;
        let mut world = world;
        world.begin(&config.settings.start(), link.lockstep().present());
        Ok(Player { link, world })
    }

    /// Builds the command of an input.
    fn build(&mut self, input: Input) -> Made
        ensures goes_on { GoesOn W.state W.physics self.old self.new None (taking input result) }
        ensures does { Does W.state W.physics (Build input) (Built result) None self.old self.new }
        ensures seal { seal_of self.new.link ≡ seal_of self.old.link }
    {
        remaining_links_go_on();
        match input {
            Input::Pressed(keys) => self.link.build(keys),
            Input::Given(command) => self.link.give(command),
        }
    }

    /// Runs a tic, if it can, by the marks of its world, and steps the world by the row.
    fn run(&mut self) -> (Ran, Option<[Option<Move>; 4]>)
        ensures goes_on { GoesOn W.state W.physics self.old self.new None (telling result.1) }
        ensures does { Runs W.state W.physics result.0 result.1 self.old self.new }
        ensures seal { seal_of self.new.link ≡ seal_of self.old.link }
    {
        remaining_links_go_on();
        let marks = self.marks();
        let (ran, row) = self.link.run(&marks);
        if let Some(row) = row {
            self.world.step(&row);
        }
        (ran, row)
    }

    /// Each player's mark in its world.
    fn marks(&self) -> [i16; 4]
        ensures { (player : ℕ) → player < 4
            → get_or result player (pos 0) ≡ W.physics.mark (W.state self.now.world) player }
    {
        let world = &self.world;
        [world.mark(0), world.mark(1), world.mark(2), world.mark(3)]
    }

    /// The datagram to a peer.
    fn datagram(&mut self, to: u8) -> Option<ArrayVec<u8, 1200>>
        ensures goes_on { GoesOn W.state W.physics self.old self.new result (λ seen. seen) }
        ensures does { Does W.state W.physics (Send to Datagram) (Sent (is_some result)) result self.old self.new }
        ensures seal { seal_of self.new.link ≡ seal_of self.old.link }
    {
        remaining_links_go_on();
        let Some(bytes) = self.link.datagram(to) else {
            return None;
        };
        Some(bytes)
    }

    /// Gives a peer a datagram.
    fn send(&mut self, to: u8, what: Sending) -> Option<ArrayVec<u8, 1200>>
        ensures goes_on { GoesOn W.state W.physics self.old self.new result (λ seen. seen) }
        ensures does { Does W.state W.physics (Send to what) (Sent (is_some result)) result self.old self.new }
        ensures seal { seal_of self.new.link ≡ seal_of self.old.link }
    {
        remaining_links_go_on();
        remaining_bytes_are_genuine();
        match what {
            Sending::Datagram => self.datagram(to),
            Sending::Probe => self.link.probe(to),
            Sending::Exclusion => self.link.exclusion_datagram(to),
        }
    }

    /// Makes a call, and answers what it did, and the datagram that it gave, if it gave one.
    pub fn call(&mut self, call: &LinkCall) -> (LinkDone, Option<ArrayVec<u8, 1200>>)
        ensures goes_on { GoesOnIf W.state W.physics self.old self.new (Asked call.now self.old) result.1 (sees call.now result.0) }
        ensures does { Does W.state W.physics call.now result.0 result.1 self.old self.new }
        ensures answers { is_answer call.now result.0 ≡ true }
        ensures gives { is_some result.1 ≡ gives result.0 }
        ensures asked { is_some result.1 ≡ true → is_send call.now ≡ true }
        ensures seal { seal_of self.new.link ≡ seal_of self.old.link }
    {
        remaining_links_go_on();
        match call {
            LinkCall::Build(input) => (LinkDone::Built(self.build(*input)), None),
            LinkCall::CatchUp => (LinkDone::CaughtUp(self.link.catch_up()), None),
            LinkCall::Tick => (LinkDone::Ticked(self.link.lean()), None),
            LinkCall::Run => {
                let (ran, row) = self.run();
                (LinkDone::Ran(ran, row), None)
            }
            LinkCall::Send { to, what } => {
                let given = self.send(*to, *what);
                (LinkDone::Sent(given.is_some()), given)
            }
            LinkCall::Receive(bytes) => (LinkDone::Received(self.link.receive(bytes)), None),
            LinkCall::GiveUp(peer) => (LinkDone::GivenUp(self.link.give_up(*peer)), None),
            LinkCall::Quit => (LinkDone::Quit(self.link.quit()), None),
        }
    }
}
