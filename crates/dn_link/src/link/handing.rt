//! What a player hands on to a peer of third players' commands, or of its own.

use super::Link;
use crate::bundle::{Part, Relay};
use crate::counting::held_of;
use crate::lag::Had;
use crate::relaying::{relay_of, with_relay};
use arrayvec::ArrayVec;

/// How many commands of a third player a datagram hands on at most.
const MOST_HANDED: u8 = 24;

impl Link {
    ghost use Rattle.std.specs.Prelude.{◌≡◌, ◌<◌, ◌≤◌, ◌||◌, ◌∷◌, take, All, length, slice_index, true, false, IfSome};
    ghost use Rattle.dn_link.specs.{Counting.held_of, Linking.overdue_of, Linked.HasBehind, Linked.has_given_up, Linked.is_peer, Linked.remains, Linking.linked, Linking.seal_of, Surviving.{HasTwoBehind, IsHandedFor, IsNewestFor, IsRunFor, may_hand, shares_gone}};
    ghost use Rattle.std.specs.Prelude.{[], is_some, ◌==◌, ◌≢◌};
    ghost use Rattle.dn_link.specs.{Pacing.pace_of, Text.IsPart, Text.parts_bytes};
    ghost use Rattle.dn_link.specs.Packing.{parts_room};

    /// Whether a player is not given up, or a peer has reported to have given it up too.
    fn shares_gone(&self, to: u8, player: u8) -> bool
        ensures { result ≡ shares_gone (linked self.now) to player }
    {
        !self.has_given_up(player) || self.reports_gone(to, player)
    }

    /// Whether it may hand on commands to a peer: one who is not given up, and has given up all whom this
    /// player has.
    pub(super) fn may_hand(&self, to: u8) -> bool
        ensures { result ≡ may_hand (linked self.now) to }
    {
        !self.has_given_up(to)
            && self.shares_gone(to, 0)
            && self.shares_gone(to, 1)
            && self.shares_gone(to, 2)
            && self.shares_gone(to, 3)
    }

    /// A tick, for what is handed on from here on.
    pub(super) fn look_back(&mut self)
        ensures history { (overdue_of self.new).history.ticks.items
            ≡ record { counts = held_of (linked self.old).node } ∷ take 31 (overdue_of self.old).history.ticks.items }
        ensures link { linked self.new ≡ linked self.old }
        ensures pace { pace_of self.new ≡ pace_of self.old }
        ensures seal { seal_of self.new ≡ seal_of self.old }
    {
        let me = self.me();
        let counts = held_of(self.lockstep());
        let reported = [
            self.peer(0).reported,
            self.peer(1).reported,
            self.peer(2).reported,
            self.peer(3).reported,
        ];
        self.overdue.tick(me, Had { counts }, &reported);
    }

    /// Whether its own commands come to a peer in time: fewer than a window are not reported. Where they are
    /// not, what it handed on would come as late, and hold its own up.
    fn is_in_time(&self, to: u8) -> bool
        requires { to < 4 }
    {
        let reported = self.peer(to).reported.of(self.me());
        self.made().saturating_sub(reported) < self.lockstep().ahead()
    }

    /// Whether commands are handed on to a peer at all: one that has not left, and may be handed on any, and
    /// has this player's own in time.
    fn hands_on(&self, to: u8) -> bool
        requires { to < 4 }
        ensures peer { result ≡ true → is_peer (linked self.now).node to ≡ true }
        ensures may { result ≡ true → may_hand (linked self.now) to ≡ true }
    {
        if !self.is_peer(to) {
            return false;
        }
        self.may_hand(to) && self.peer(to).left.is_none() && self.is_in_time(to)
    }

    /// From which on commands of a third player are handed on to a peer, if any are.
    fn first_handed(&self, to: u8, player: u8) -> Option<u32>
        requires few { to < 4 }
        requires third { player < 4 }
        ensures { IfSome result (λ start. slice_index ((linked self.now).peers to).reported player ≤ start) }
    {
        let got = self.lockstep().got(player).unwrap_or(0);
        let reported = self.peer(to).reported.of(player);
        let tight = self.pace.congestion().is_tight();
        let more = self.overdue.hands_more(self.me(), to, player, tight);
        self.overdue.handed_from(to, player, reported, got, more)
    }

    /// Commands of a player from a tic on, none of which a peer has reported, as many as this at most, if there are
    /// any.
    pub(super) fn commands_for(&self, to: u8, player: u8, start: u32, most: u8) -> Option<Relay>
        requires peer { to < (linked self.now).node.players }
        requires maker { player < (linked self.now).node.players }
        requires small { player < 4 }
        requires apart { player ≢ to }
        requires stays { has_given_up (linked self.now) player ≡ false }
        requires lacked { slice_index ((linked self.now).peers to).reported player ≤ start }
        requires few { most ≤ 24 }
        ensures { IsRunFor (linked self.now) to player start most result }
    {
        let relay = relay_of(self.lockstep(), player, start, most);
        if relay.run.commands.is_empty() {
            return None;
        }
        Some(relay)
    }

    /// What is handed on of a third player to a peer, if anything is.
    fn hand(&self, to: u8, player: u8) -> Option<Relay>
        requires peer { to < (linked self.now).node.players }
        requires few { to < 4 }
        ensures handed { IfSome result (IsHandedFor (linked self.now) to player) }
        ensures third { is_some result ≡ true → (player == (linked self.now).node.me) ≡ false }
    {
        if player == to || !self.remains(player) {
            return None;
        }
        let Some(start) = self.first_handed(to, player) else {
            return None;
        };
        self.commands_for(to, player, start, MOST_HANDED)
    }

    /// The parts of a datagram to a peer that is no brief one, and behind them what is handed on of each third player,
    /// as far as there is room.
    fn with_thirds(&self, to: u8, own: ArrayVec<Part, 24>) -> ArrayVec<Part, 24>
        requires peer { to < (linked self.now).node.players }
        requires few { to < 4 }
        requires fit { All IsPart own.items }
        requires short { parts_room own.items ≤ 1118 }
        ensures fit { All IsPart result.items }
        ensures short { parts_room result.items ≤ 1118 }
        ensures behind { HasTwoBehind (linked self.now) to false own.items result.items }
    {
        if !self.hands_on(to) {
            return own;
        }
        let first = with_relay(own, self.hand(to, 0));
        let second = with_relay(first, self.hand(to, 1));
        let third = with_relay(second, self.hand(to, 2));
        with_relay(third, self.hand(to, 3))
    }

    /// The parts of a datagram to a peer, and behind them what is handed on.
    pub(super) fn with_handed(
        &self,
        to: u8,
        brief: bool,
        own: ArrayVec<Part, 24>,
    ) -> ArrayVec<Part, 24>
        requires peer { is_peer (linked self.now).node to ≡ true }
        requires few { to < 4 }
        requires none { brief ≡ true → own.items ≡ [] }
        requires fit { All IsPart own.items }
        requires short { parts_room own.items ≤ 1118 }
        ensures fit { All IsPart result.items }
        ensures short { parts_room result.items ≤ 1118 }
        ensures behind { HasTwoBehind (linked self.now) to brief own.items result.items }
    {
        if brief {
            self.with_newest(to, own)
        } else {
            self.with_thirds(to, own)
        }
    }
}
