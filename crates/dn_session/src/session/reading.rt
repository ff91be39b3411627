//! What a session says of itself.

ghost use Rattle.std.specs.{Prelude.◌≡◌, Prelude.◌<◌, Prelude.◌^◌, Prelude.◌||◌, Prelude.ℕ, Option.option_map};
ghost use Rattle.dn_session.specs.{Events.acts_in, Events.announced_after, Events.next_event, Events.over_in, Events.wants_in, Joining.has_come, Session.begun_in, Session.link_in, Session.meeting};

use super::Session;
use crate::ending::Over;
use crate::event::{Event, over_in};
use crate::part::Part;
use crate::polling::earlier;
use crate::side::{Begun, Side};
use dn_link::Link;

impl Session {
    /// Its lobby.
    pub fn lobby(&self) -> &Side
        ensures { result.now ≡ (meeting self.now).lobby }
    {
        &self.side
    }

    /// The game, once it has begun.
    pub fn begun(&self) -> Option<Begun>
        ensures { result ≡ begun_in (meeting self.now).lobby }
    {
        self.side.begun()
    }

    /// Its part in the game, once it has one.
    pub fn part(&self) -> &Option<Part>
        ensures { result.now ≡ (meeting self.now).part }
    {
        &self.part
    }

    /// Its link, once it has one.
    pub fn link(&self) -> Option<&Link>
        ensures { option_map (λ link. link.now) result ≡ link_in (meeting self.now).part }
    {
        match &self.part {
            Some(part) => Some(part.link()),
            None => None,
        }
    }

    /// Its link, which is all that is left of it.
    pub fn into_link(self) -> Option<Link>
        ensures { result ≡ link_in (meeting self).part }
    {
        Some(self.part?.into_link())
    }

    /// How it is over, once it is.
    pub fn over(&self) -> Option<Over>
        ensures { result ≡ over_in (meeting self.now).lobby (meeting self.now).part }
    {
        over_in(&self.side, &self.part)
    }

    /// The first of what is so and was not told before. Call it until there is nothing. What came and went
    /// again between two calls is not told.
    pub fn event(&mut self) -> Option<Event>
        ensures event { result ≡ next_event (meeting self.old).announced (meeting self.old).lobby (meeting self.old).part }
        ensures rest { meeting self.new ≡ record (meeting self.old) {
          announced = announced_after result (meeting self.old).announced;
        } }
    {
        let event = self.announced.next(&self.side, &self.part);
        self.announced.note(event);
        event
    }

    /// When it wants to be called next: from then on a tick is due, or [`Session::poll`] has something to do.
    /// None if it only waits for what comes, or for [`Session::begin`].
    pub fn due(&self) -> Option<u32>
        ensures { (now : ℕ) → now < 2 ^ 32 → has_come now result
            ≡ (acts_in now (meeting self.now).lobby || wants_in now (meeting self.now).part) }
    {
        match &self.part {
            Some(part) => earlier(self.side.due(), part.due()),
            None => self.side.due(),
        }
    }
}
