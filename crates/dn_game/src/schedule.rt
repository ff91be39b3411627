//! A network that loses, repeats and reorders: events drawn from a seed.

ghost use Rattle.std.specs.Prelude.{◌≡◌, ◌↔◌, ◌<◌, None, IfSome, length, false, slice_index_or};
ghost use Rattle.dn_machine.specs.Game.{refused};
ghost use Rattle.dn_game.specs.{Applied.Tells, Contents.contents, Schedule.IsMoving, Schedule.AllStopped, Schedule.generator_of, Schedule.behind_three, Schedule.scheduled, Schedule.first_moving};
ghost use Rattle.dn_game.specs.{Schedule.delivery_or_run, Schedule.event_of};

use crate::game::Game;
use dn_machine::Event;
use dn_tic::Keys;
use dn_world::World;
use rand_core::utils::NextWord;
use rand_pcg::Lcg64Xsh32;
use std::marker::Model;

/// The stream of the generator's words.
const STREAM: u64 = 54;

/// A delivery is one of this many last packets.
const RECENT: usize = 32;

/// Gives one event after another, by a seed. A contract sees its generator.
#[derive(Debug, Drop)]
pub struct Schedule {
    words: Lcg64Xsh32,
}

impl Model for Schedule {
    ghost use Rattle.rand_pcg.specs.Lcg.{Lcg};

    ghost Value = { Lcg };

    ghost view = { λ s. s.words };
}

/// The first node from this number on, going round, that has not stopped.
#[inline(always)]
fn first_moving<W: World>(game: &Game<W>, from: u32) -> Option<u32>
    requires { from < length (contents game.now).nodes }
    ensures value { result ≡ first_moving (length (contents game.now).nodes)
        (λ p. slice_index_or (contents game.now).stopped p false) from }
    ensures moving { IfSome result (IsMoving (contents game.now)) }
    ensures none { result ≡ None → AllStopped (contents game.now) }
{
    let players = game.players();
    for step in 0..players {
        let node = (from + step) % players;
        if !game.stopped(node) {
            return Some(node);
        }
    }
    None
}

/// The delivery of a recent packet, where it can be delivered, and else a run.
#[inline(always)]
fn delivery_or_run<W: World>(game: &Game<W>, node: u32, word: u32) -> Event
    requires { IsMoving (contents game.now) node }
    ensures told { Tells W.state W.physics (contents game.now)
        (λ rules m. result ≡ delivery_or_run m node word) }
    ensures allowed { Tells W.state W.physics (contents game.now)
        (λ rules m. refused rules.players m result ≡ None) }
{
    let count = game.flights();
    if count == 0 {
        return Event::Run(node);
    }
    let place = count - 1 - word as usize % count.min(RECENT);
    let Ok(which) = u32::try_from(place) else {
        return Event::Run(node);
    };
    if game.refused_flight(which).is_some() {
        return Event::Run(node);
    }
    Event::Deliver(which)
}

/// The event of a node that has not stopped, by two words.
#[inline(always)]
fn event_of<W: World>(game: &Game<W>, node: u32, a: u32, c: u32) -> Event
    requires { IsMoving (contents game.now) node }
    ensures told { Tells W.state W.physics (contents game.now)
        (λ rules m. result ≡ event_of rules.players m a c node) }
    ensures allowed { Tells W.state W.physics (contents game.now)
        (λ rules m. refused rules.players m result ≡ None) }
{
    let players = game.players();
    let kind = a % 16;
    if kind < 5 {
        let keys = Keys::from_bits(c);
        Event::Build { node, keys }
    } else if kind < 9 {
        let to = (node + 1 + c % (players - 1)) % players;
        Event::Send { node, to }
    } else if kind < 14 {
        delivery_or_run(game, node, c)
    } else {
        Event::Run(node)
    }
}

impl Schedule {
    /// The schedule of a seed.
    pub fn new(seed: u64) -> Schedule
        ensures { result ≡ generator_of seed }
    {
        Schedule {
            words: Lcg64Xsh32::new(seed, STREAM),
        }
    }

    /// The next event for this game, and None where every node has stopped. It draws three words
    /// whatever it gives, and gives neither a quit nor a stop.
    // Inlined, so that a caller that applies the event does not ask for its kind again.
    #[inline(always)]
    pub fn next<W: World>(&mut self, game: &Game<W>) -> Option<Event>
        ensures given { Tells W.state W.physics (contents game.now)
            (λ rules m. result ≡ scheduled rules.players m self.old) }
        ensures drawn { self.new ≡ behind_three self.old }
        ensures allowed { Tells W.state W.physics (contents game.now)
            (λ rules m. IfSome result (λ event. refused rules.players m event ≡ None)) }
        ensures stopped { (result ≡ None) ↔ AllStopped (contents game.now) }
    {
        let a = self.words.next_word();
        let b = self.words.next_word();
        let c = self.words.next_word();
        let node = first_moving(game, b % game.players())?;
        Some(event_of(game, node, a, c))
    }
}
