//! What a link keeps to decide which commands of third players it hands on.

ghost use Rattle.std.specs.Prelude.{◌≡◌, ◌<◌, ◌≤◌, IfSome, slice_index, ◌∷◌, [], get_or, take};
ghost use Rattle.dn_link.specs.Relays.{counted_by, four_of, handed_from, hands_more, is_on, lag_of, learned_from, new_lag};

use crate::bundle::Part;
use crate::lag::{Had, History, Lag};

/// How long lags are taken to be at first, in ticks: that of a third player's commands, and the round trip.
const LAG_AT_FIRST: u8 = 8;

const ROUND_TRIP_AT_FIRST: u8 = 28;

/// What is known of a peer.
#[derive(Clone, Copy)]
struct Towards {
    /// How late it reports the commands of each player; of this player itself that is the round trip.
    lags: [Lag; 4],
}

/// How long the lag of a player's commands is taken to be at first.
fn first_lag(me: u8, player: u8) -> Lag
    ensures { result ≡ new_lag me player }
{
    if player == me {
        Lag::new(ROUND_TRIP_AT_FIRST)
    } else {
        Lag::new(LAG_AT_FIRST)
    }
}

impl Towards {
    /// Of which nothing is known, by this player.
    fn new(me: u8) -> Towards
        ensures { result.lags ≡ four_of (new_lag me) }
    {
        Towards {
            lags: [
                first_lag(me, 0),
                first_lag(me, 1),
                first_lag(me, 2),
                first_lag(me, 3),
            ],
        }
    }

    /// How late it reports the commands of a player.
    #[tactic(auto, using(std::proofs::lemmas::List::get_or_default))]
    fn lag(&self, player: u8) -> Lag
        requires { player < 4 }
        ensures { result ≡ lag_of self.now.lags player }
    {
        self.lags[player as usize]
    }

    /// It has reported to have so many commands of each player.
    fn learn(&self, history: &History, reported: &Had) -> Towards
        ensures { result.lags ≡ learned_from history.now.ticks.items reported.now self.now.lags }
    {
        Towards {
            lags: [
                self.lag(0).learned(history, 0, reported.of(0)),
                self.lag(1).learned(history, 1, reported.of(1)),
                self.lag(2).learned(history, 2, reported.of(2)),
                self.lag(3).learned(history, 3, reported.of(3)),
            ],
        }
    }

    /// Whether commands of a player are handed on to it from here on.
    fn is_on(&self, history: &History, me: u8, player: u8, reported: &Had) -> bool
        requires few { me < 4 }
        requires one { player < 4 }
        ensures { result ≡ is_on history.now.ticks.items me reported.now self.now.lags player }
    {
        let lag = self.lag(player);
        let round_trip = self.lag(me);
        lag.is_overdue(history, player, reported.of(player)) || lag.is_slow(&round_trip)
    }

    /// A tick, before which it had reported so many.
    fn tick(&self, history: &History, me: u8, reported: &Had) -> Towards
        requires { me < 4 }
        ensures { result.lags ≡ counted_by history.now.ticks.items me reported.now self.now.lags }
    {
        Towards {
            lags: [
                self.lag(0).tick(self.is_on(history, me, 0, reported)),
                self.lag(1).tick(self.is_on(history, me, 1, reported)),
                self.lag(2).tick(self.is_on(history, me, 2, reported)),
                self.lag(3).tick(self.is_on(history, me, 3, reported)),
            ],
        }
    }
}

/// What a link keeps to decide which commands of third players it hands on.
#[derive(Drop)]
pub(crate) struct Overdue {
    history: History,
    peers: [Towards; 4],
}

impl Overdue {
    /// Before the first tick of this player.
    pub(crate) fn new(me: u8) -> Overdue {
        Overdue {
            history: History::new(),
            peers: [
                Towards::new(me),
                Towards::new(me),
                Towards::new(me),
                Towards::new(me),
            ],
        }
    }

    /// A tick of this player, at which it has so many commands, and each peer has reported to have so many.
    pub(crate) fn tick(&mut self, me: u8, had: Had, reported: &[Had; 4])
        requires { me < 4 }
        ensures { self.new.history.ticks.items ≡ had ∷ take 31 self.old.history.ticks.items }
    {
        let learned = [
            self.peers[0].learn(&self.history, &reported[0]),
            self.peers[1].learn(&self.history, &reported[1]),
            self.peers[2].learn(&self.history, &reported[2]),
            self.peers[3].learn(&self.history, &reported[3]),
        ];
        self.history.tick(had);
        self.peers = [
            learned[0].tick(&self.history, me, &reported[0]),
            learned[1].tick(&self.history, me, &reported[1]),
            learned[2].tick(&self.history, me, &reported[2]),
            learned[3].tick(&self.history, me, &reported[3]),
        ];
    }

    /// A datagram to a peer hands on what it has of third players among these parts.
    pub(crate) fn hand(&mut self, to: u8, parts: &[Part])
        requires { to < 4 }
    {
        let mut rest = parts;
        'parts: while let Some((part, after)) = rest.split_first() {
            if let Part::Relay(relay) = part {
                if relay.player < 4 {
                    self.peers[to as usize].lags[relay.player as usize].hand(&relay.run);
                }
            }
            rest = after;
        }
    }

    /// Whether commands of a third player are handed on to a peer though not overdue: where this player's line is
    /// tight, only if they come earlier from this player.
    #[tactic(auto, using(std::proofs::lemmas::List::get_or_default))]
    pub(crate) fn hands_more(&self, me: u8, to: u8, player: u8, is_tight: bool) -> bool
        requires few { me < 4 }
        requires peer { to < 4 }
        requires third { player < 4 }
        ensures { result ≡ hands_more me player is_tight (get_or self.now.peers to (record { lags = [] })).lags }
    {
        let towards = &self.peers[to as usize];
        !is_tight || towards.lag(player).is_slow(&towards.lag(me))
    }

    /// From which on commands of a third player are handed on to a peer, of those that it has not reported, if any
    /// are, and if more than what is overdue is.
    pub(crate) fn handed_from(
        &self,
        to: u8,
        player: u8,
        reported: u32,
        got: u32,
        more: bool,
    ) -> Option<u32>
        requires peer { to < 4 }
        requires third { player < 4 }
        ensures value { result ≡ handed_from self.now.history.ticks.items player reported got more
            (lag_of (get_or self.now.peers to (record { lags = [] })).lags player) }
        ensures lacked { IfSome result (λ start. reported ≤ start) }
    {
        self.peers[to as usize]
            .lag(player)
            .handed_from(&self.history, player, reported, got, more)
    }
}
