//! A game with the counts of its events.

ghost use Rattle.std.specs.Prelude.{◌≡◌, ◌<◌, ◌+◌, ◌^◌, OnOk};

use crate::game::Game;
use crate::observing::Observer;
use dn_machine::{Done, Event, Refusal};
use dn_world::World;
use std::alloc::AllocError;

/// A game that was played, how many of its events were applied, and how many were refused.
#[derive(Drop)]
pub struct Played<W> {
    /// The game that the events left.
    pub game: Game<W>,
    /// How many events were not refused, whether or not they changed anything.
    pub done: usize,
    /// How many events were refused.
    pub refused: usize,
}

impl<W: World> Played<W> {
    ghost use Rattle.dn_game.specs.{Contents.contents, Observed.ObservesOne, Played.AppliesOne, Pool.HasGrown, Room.room_of, Room.KeepsWhose};

    /// A game of which no event was applied yet.
    pub(crate) fn new(game: Game<W>) -> Played<W>
        ensures { result ≡ record { game = game; done = 0; refused = 0 } }
    {
        Played {
            game,
            done: 0,
            refused: 0,
        }
    }

    /// Applies one more event, and answers what it did.
    #[inline(always)]
    pub(crate) fn apply(&mut self, event: Event) -> Result<Done, Refusal>
        requires { self.old.done + self.old.refused + 1 < 2 ^ 64 }
        ensures applied { AppliesOne W.state W.physics self.old self.new event result }
        ensures grown { HasGrown (contents self.old.game).flights (room_of self.old.game)
            (room_of self.new.game) }
        ensures whose { KeepsWhose (contents self.old.game) (contents self.new.game) }
        ensures counted { self.new.done + self.new.refused ≡ self.old.done + self.old.refused + 1 }
    {
        let answer = self.game.apply(event);
        match answer {
            Ok(_) => self.done += 1,
            Err(_) => self.refused += 1,
        }
        answer
    }

    /// Applies one more event, and tells an observer of it.
    #[inline(always)]
    pub(crate) fn apply_observed<L: Observer>(
        &mut self,
        event: &Event,
        observer: &mut L,
    ) -> Result<(), AllocError>
        requires { self.old.done + self.old.refused + 1 < 2 ^ 64 }
        ensures told { OnOk result
            (ObservesOne W.state W.physics L.observes observer.old observer.new self.old self.new event.now) }
        ensures grown { HasGrown (contents self.old.game).flights (room_of self.old.game)
            (room_of self.new.game) }
        ensures whose { KeepsWhose (contents self.old.game) (contents self.new.game) }
        ensures counted { OnOk result
            (self.new.done + self.new.refused ≡ self.old.done + self.old.refused + 1) }
    {
        let number = self.done + self.refused;
        let answer = self.apply(*event);
        observer.observe(number, *event, answer)
    }
}
