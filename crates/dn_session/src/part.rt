//! A player's part in its game.

ghost use Rattle.std.specs.Prelude.{◌≡◌, map, false, replicate, None, ◌<◌, ◌^◌, ℕ};
ghost use Rattle.dn_link.specs.{Linked.has_given_up, Linking.linked};
ghost use Rattle.dn_session.specs.{Players.four, Events.part_due, Joining.has_come, Playing.ended_as, Playing.owes_nobody, Playing.playing, Steady.new_steady, Ticks.new_ticks, Watch.new_watch};
ghost use Rattle.dn_session.specs.declared.ending.Progress.TheVariants as progress;

mod ending;
mod giving;
mod hearing;
mod polling;
mod running;
mod sending;
mod ways;

use crate::ending::{Ending, Progress};
use crate::greeting::Address;
use crate::places::Places;
use crate::polling::earlier;
use crate::steady::Steady;
use crate::terms::Policy;
use crate::ticks::Ticks;
use crate::watch::Watch;
use dn_link::Link;
pub use sending::Transmit;
pub(crate) use sending::{copied, keep};

/// Whom a link has given up.
fn gone_from(link: &Link) -> [bool; 4]
    ensures { result ≡ map (has_given_up (linked link.now)) four }
{
    [
        link.has_given_up(0),
        link.has_given_up(1),
        link.has_given_up(2),
        link.has_given_up(3),
    ]
}

/// Where one who is given up is to be told so, if it is, and when it was told last.
#[derive(Clone, Copy, Debug, PartialEq, Eq)]
pub(crate) struct Exclusion {
    to: Option<Address>,
    told: Option<u32>,
}

/// Nobody is to be told.
const NO_EXCLUSION: Exclusion = Exclusion {
    to: None,
    told: None,
};

/// A player's part in its game: its link, when its ticks are due, where the others are, whom it waits for, to whom
/// a datagram is owed, whose turn it is, how evenly tics come, what it passes on between others, and how far it is.
#[derive(Drop)]
pub struct Part {
    link: Link,
    ticks: Ticks,
    watch: Watch,
    places: Places,
    excluders: [bool; 4],
    exclusions: [Exclusion; 4],
    owed: [bool; 4],
    turn: u8,
    steady: Steady,
    passing: Option<Transmit>,
    progress: Progress,
    policy: Policy,
}

impl Part {
    /// The part that plays by this link from now on, in a game of this rate and policy, with the others at
    /// these places.
    pub(crate) fn new(link: Link, rate: u8, policy: Policy, places: Places, now: u32) -> Part
        ensures { playing result ≡ record {
          link = link;
          ticks = new_ticks rate now;
          watch = new_watch now;
          places = places;
          excluders = replicate 4 false;
          exclusions = replicate 4 (record { to = None; told = None });
          owed = owes_nobody;
          turn = 0;
          steady = new_steady;
          passing = None;
          progress = progress.Playing;
          policy = policy;
        } }
    {
        Part {
            link,
            ticks: Ticks::new(rate, now),
            watch: Watch::new(now),
            places,
            excluders: [false; 4],
            exclusions: [NO_EXCLUSION; 4],
            owed: [false; 4],
            turn: 0,
            steady: Steady::new(),
            passing: None,
            progress: Progress::Playing,
            policy,
        }
    }

    /// Its link, for its readers.
    pub fn link(&self) -> &Link
        ensures { result.now ≡ (playing self.now).link }
    {
        &self.link
    }

    /// Its link, which is all that is left of it.
    pub fn into_link(self) -> Link
        ensures { result ≡ (playing self).link }
    {
        self.link
    }

    /// How far it is.
    pub fn progress(&self) -> Progress
        ensures { result ≡ (playing self.now).progress }
    {
        self.progress
    }

    /// When it wants to be called: at its next tick or at the datagrams half a tick later, and once a second
    /// while it plays.
    pub(crate) fn due(&self) -> Option<u32>
        ensures { (now : ℕ) → now < 2 ^ 32 → has_come now result ≡ has_come now (part_due (playing self.now)) }
    {
        match self.progress {
            Progress::Playing => earlier(
                Some(self.ticks.next()),
                self.watch.looked.checked_add(1000),
            ),
            Progress::Leaving { .. } => Some(self.ticks.next()),
            Progress::Over(_) => None,
        }
    }

    /// How it ended, once it is over.
    pub fn ending(&self) -> Option<Ending>
        ensures { result ≡ ended_as (playing self.now).progress }
    {
        match self.progress {
            Progress::Over(ending) => Some(ending),
            _ => None,
        }
    }
}
