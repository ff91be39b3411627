//! How many datagrams go to the peers, by the round trips.

ghost use Rattle.std.specs.Prelude.{◌≡◌, ◌<◌, ◌≤◌, ◌&&◌, ◌||◌, ◌∷◌, false, slice_index, slice_index_or, take};
ghost use Rattle.dn_link.specs.Congestion.{agrees, allows_second, are_above, between, counts, how_many, is_near, knows, new_congestion, rests, some_are_near, ticked, timed_to, trip_at, trips_after, turn};

use crate::level::Level;
use crate::trip::Trip;
use arrayvec::ArrayVec;

/// How many ticks before the newest are known.
const BEFORE: usize = 31;

/// The line is full where round trips are so many ticks longer than on an empty one.
const FULL: u8 = 3;

/// And so many longer where it is nearly full.
const NEARLY: u8 = 2;

/// How many datagrams go to the peers.
#[derive(Drop)]
pub(crate) struct Congestion {
    /// How many commands the player had made at its last ticks, the newest first.
    pub(crate) made: ArrayVec<u32, 32>,
    /// The round trips of each peer.
    pub(crate) trips: [Trip; 4],
    pub(crate) level: Level,
    /// The number of the tick, from 1 to 6.
    pub(crate) tick: u8,
}

impl Congestion {
    /// Before the first tick.
    pub(crate) fn new() -> Congestion
        ensures { result ≡ new_congestion }
    {
        Congestion {
            made: ArrayVec::new(),
            trips: [Trip::new(), Trip::new(), Trip::new(), Trip::new()],
            level: Level::new(),
            tick: 0,
        }
    }

    /// The round trips of a peer.
    #[tactic(auto, using(std::proofs::lemmas::List::get_or_default))]
    fn trip(&self, player: u8) -> &Trip
        requires { player < 4 }
        ensures { result.now ≡ trip_at self.now.trips player }
    {
        &self.trips[player as usize]
    }

    /// Whether a player plays, and its round trips are known.
    fn knows(&self, plays: &[bool; 4], player: u8) -> bool
        requires { player < 4 }
        ensures { result ≡ knows (λ p. slice_index_or plays.now p false) self.now.trips player }
    {
        plays[player as usize] && self.trip(player).is_known()
    }

    /// Whether they are, and its line is a short one.
    fn is_near(&self, plays: &[bool; 4], player: u8) -> bool
        requires { player < 4 }
        ensures { result ≡ is_near (λ p. slice_index_or plays.now p false) self.now.trips player }
    {
        self.knows(plays, player) && self.trip(player).is_short()
    }

    /// Whether some player is near.
    fn some_are_near(&self, plays: &[bool; 4]) -> bool
        ensures { result ≡ some_are_near (λ p. slice_index_or plays.now p false) self.now.trips }
    {
        self.is_near(plays, 0)
            || self.is_near(plays, 1)
            || self.is_near(plays, 2)
            || self.is_near(plays, 3)
    }

    /// Whether a player counts.
    fn counts(&self, plays: &[bool; 4], player: u8) -> bool
        requires { player < 4 }
        ensures { result ≡ counts (λ p. slice_index_or plays.now p false) self.now.trips player }
    {
        if self.some_are_near(plays) {
            self.is_near(plays, player)
        } else {
            self.knows(plays, player)
        }
    }

    /// Whether it does, and its round trips are so many ticks longer.
    fn agrees(&self, ticks: u8, plays: &[bool; 4], player: u8) -> bool
        requires { player < 4 }
        ensures { result ≡ agrees ticks (λ p. slice_index_or plays.now p false) self.now.trips player }
    {
        self.counts(plays, player) && self.trip(player).is_above(ticks)
    }

    /// How many players count.
    fn all(&self, plays: &[bool; 4]) -> u8
        ensures value { result ≡ how_many (counts (λ p. slice_index_or plays.now p false) self.now.trips) }
        ensures small { result ≤ 4 }
    {
        u8::from(self.counts(plays, 0))
            + u8::from(self.counts(plays, 1))
            + u8::from(self.counts(plays, 2))
            + u8::from(self.counts(plays, 3))
    }

    /// The round trips of how many of these are so many ticks longer.
    fn agreeing(&self, ticks: u8, plays: &[bool; 4]) -> u8
        ensures value { result ≡ how_many (agrees ticks (λ p. slice_index_or plays.now p false) self.now.trips) }
        ensures small { result ≤ 4 }
    {
        u8::from(self.agrees(ticks, plays, 0))
            + u8::from(self.agrees(ticks, plays, 1))
            + u8::from(self.agrees(ticks, plays, 2))
            + u8::from(self.agrees(ticks, plays, 3))
    }

    /// Whether they are for more than half of those that count.
    fn are_above(&self, ticks: u8, plays: &[bool; 4]) -> bool
        ensures { result ≡ are_above ticks (λ p. slice_index_or plays.now p false) self.now.trips }
    {
        self.all(plays) < 2 * self.agreeing(ticks, plays)
    }

    /// A player has reported so many commands.
    #[tactic(auto, using(std::proofs::lemmas::List::get_or_default))]
    fn time(&mut self, player: u8, count: u32)
        requires { player < 4 }
        ensures { self.new ≡ record self.old { trips = timed_to player count self.old.made.items self.old.trips } }
    {
        self.trips[player as usize].acknowledge(count, self.made.as_slice());
    }

    /// Each has reported so many.
    fn time_all(&mut self, reported: &[u32; 4])
        ensures { self.new ≡ record self.old {
          trips = trips_after (slice_index reported.now) self.old.made.items self.old.trips;
        } }
    {
        self.time(0, reported[0]);
        self.time(1, reported[1]);
        self.time(2, reported[2]);
        self.time(3, reported[3]);
    }

    /// A tick, at which the player has made so many commands, these players play, and each has reported so many.
    pub(crate) fn tick(&mut self, made: u32, plays: &[bool; 4], reported: &[u32; 4])
        ensures { self.new ≡ ticked made (λ p. slice_index_or plays.now p false) (slice_index reported.now) self.old }
    {
        self.time_all(reported);
        let full = self.are_above(FULL, plays);
        let nearly = self.are_above(NEARLY, plays);
        self.level.tick(full, nearly);
        self.made.truncate(BEFORE);
        self.made.insert(0, made);
        self.tick = self.tick % 6 + 1;
    }

    /// The number of the tick for a peer.
    fn turn(&self, me: u8, player: u8) -> u16
        ensures { result ≡ turn self.now me player }
    {
        u16::from(self.tick) + u16::from(player) + u16::from(me)
    }

    /// Whether no datagram goes to a peer at this tick.
    pub(crate) fn rests(&self, me: u8, player: u8) -> bool
        ensures { result ≡ rests self.now me player }
    {
        let turn = self.turn(me, player);
        match self.level.level {
            3 => turn % 3 == 2,
            4 => turn % 2 == 1,
            5 => turn % 3 != 0,
            _ => false,
        }
    }

    /// Whether a second one may go.
    pub(crate) fn allows_second(&self, me: u8, player: u8) -> bool
        ensures { result ≡ allows_second self.now me player }
    {
        self.level.level == 0 || self.level.level == 1 && self.turn(me, player) % 2 == 0
    }

    /// How many brief datagrams go between two that are not.
    pub(crate) fn between(&self) -> u8
        ensures { result ≡ between self.now }
    {
        match self.level.level {
            0..=2 => 0,
            5 => 2,
            _ => 1,
        }
    }

    /// Whether it went up since the line was an empty one.
    pub(crate) fn is_tight(&self) -> bool
        ensures { result ≡ self.now.level.tight }
    {
        self.level.tight
    }
}
