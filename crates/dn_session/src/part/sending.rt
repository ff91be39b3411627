//! What goes out.

ghost use Rattle.std.specs.{Prelude.◌≡◌, Prelude.◌<◌, Prelude.◌≤◌, Prelude.IfSome, Prelude.length, Prelude.true, Prelude.Some, Prelude.position, Option.option_map, Option.option_or};
ghost use Rattle.dn_session.specs.Sent.{first_owed, first_owed_exclusion, first_owed_probe, is_owed, is_owed_exclusion, is_owed_probe, Excludes, Probes, ProbesFirst, SendsFirst, SendsNext, SendsTo};
ghost use Rattle.dn_session.specs.{Passing.sent_of, Players.four, Playing.from_turn, Playing.playing};

use super::Part;
use super::giving::from_turn;
use crate::greeting::Address;
use crate::players::is_gone_from;
use arrayvec::ArrayVec;
use dn_seal::append;

/// Bytes, and where they go to.
#[derive(Clone, Debug, PartialEq, Eq, Drop)]
pub struct Transmit {
    /// Where they go to.
    pub to: Address,
    /// The bytes.
    pub bytes: ArrayVec<u8, 1200>,
}

/// Bytes, in room for any.
pub(crate) fn copied(bytes: &[u8]) -> ArrayVec<u8, 1200>
    requires { length bytes.now ≤ 1200 }
    ensures { result.items ≡ bytes.now }
{
    let mut wide = ArrayVec::new();
    append(&mut wide, bytes);
    wide
}

/// What is new is to be sent in place of what was, if there is any.
pub(crate) fn keep(waiting: &mut Option<Transmit>, new: Option<Transmit>)
    ensures { option_map sent_of waiting.new ≡ option_or (option_map sent_of new) (option_map sent_of waiting.old) }
{
    if new.is_some() {
        *waiting = new;
    }
}

impl Part {
    /// Whether a datagram is owed to a player. One whose game is over owes none.
    fn is_owed(&self, player: u8) -> bool
        requires { player < 4 }
        ensures { result ≡ is_owed (playing self.now) player }
    {
        self.owed[player as usize]
            && self.ending().is_none()
            && !is_gone_from(&self.link, player)
            && self.address_to(player).is_some()
    }

    /// How many places behind the one whose turn it is the first stands to whom a datagram is owed.
    fn first_place(&self) -> Option<usize>
        ensures value { result ≡ position (λ place. is_owed (playing self.now) (from_turn (playing self.now).turn place)) four }
        ensures within { IfSome result (λ n. n < 4) }
    {
        [0, 1, 2, 3]
            .iter()
            .position(|place| self.is_owed(from_turn(self.turn, *place)))
    }

    /// The first player to whom a datagram is owed, from the one whose turn it is.
    fn first_owed(&self) -> Option<u8>
        ensures value { result ≡ first_owed (playing self.now) }
        ensures within { IfSome result (λ n. n < 4) }
    {
        Some(from_turn(self.turn, self.first_place()? as u8))
    }

    /// The datagram that is owed to a player.
    fn send(&mut self, player: u8) -> Option<Transmit>
        requires few { player < 4 }
        requires owed { is_owed (playing self.old) player ≡ true }
        ensures { SendsTo player (playing self.old) (playing self.new) (option_map sent_of result) }
    {
        let to = self.address_to(player)?;
        self.owed[player as usize] = false;
        let bytes = self.link.datagram(player)?;
        Some(Transmit { to, bytes })
    }

    /// Whether a probe is owed to where a player may be.
    fn is_owed_probe(&self, player: u8) -> bool
        requires { player < 4 }
        ensures { result ≡ is_owed_probe (playing self.now) player }
    {
        self.ending().is_none()
            && !is_gone_from(&self.link, player)
            && self.probe_of(player).is_some()
    }

    /// The lowest player to whom a probe is owed.
    fn first_owed_probe(&self) -> Option<usize>
        ensures value { result ≡ first_owed_probe (playing self.now) }
        ensures within { IfSome result (λ n. n < 4) }
    {
        [0, 1, 2, 3]
            .iter()
            .position(|player| self.is_owed_probe(*player))
    }

    /// The probe that is owed to a player.
    fn probe(&mut self, player: u8) -> Option<Transmit>
        requires few { player < 4 }
        requires owed { is_owed_probe (playing self.old) player ≡ true }
        ensures { Probes player (playing self.old) (playing self.new) (option_map sent_of result) }
    {
        let to = self.probe_of(player)?;
        let bytes = self.link.probe(player)?;
        let echo = self.link.next_number(player)?;
        self.places.note_probe(player, &to, self.watch.looked, echo);
        Some(Transmit { to, bytes })
    }

    /// Whether a player is to be told that it is given up.
    fn is_owed_exclusion(&self, player: u8) -> bool
        requires { player < 4 }
        ensures { result ≡ is_owed_exclusion (playing self.now) player }
    {
        self.exclusions[player as usize].to.is_some()
            && self.link.exclusion_datagram(player).is_some()
    }

    /// The lowest player who is to be told that it is given up.
    fn first_owed_exclusion(&self) -> Option<usize>
        ensures value { result ≡ first_owed_exclusion (playing self.now) }
        ensures within { IfSome result (λ n. n < 4) }
    {
        [0, 1, 2, 3]
            .iter()
            .position(|player| self.is_owed_exclusion(*player))
    }

    /// What a player is told who is given up.
    fn exclude_one(&mut self, player: u8) -> Option<Transmit>
        requires few { player < 4 }
        requires owed { is_owed_exclusion (playing self.old) player ≡ true }
        ensures { Excludes (Some player) (playing self.old) (playing self.new) (option_map sent_of result) }
    {
        let to = self.exclusions[player as usize].to?;
        self.exclusions[player as usize].to = None;
        let bytes = self.link.exclusion_datagram(player)?;
        Some(Transmit { to, bytes })
    }

    /// What the lowest of them is told, if there is one.
    fn exclude(&mut self) -> Option<Transmit>
        ensures { Excludes (first_owed_exclusion (playing self.old)) (playing self.old) (playing self.new)
            (option_map sent_of result) }
    {
        match self.first_owed_exclusion() {
            Some(player) => self.exclude_one(player as u8),
            None => None,
        }
    }

    /// A probe if one is owed, or what a player is told who is given up.
    fn probe_first(&mut self) -> Option<Transmit>
        ensures { ProbesFirst (first_owed_probe (playing self.old)) (playing self.old) (playing self.new)
            (option_map sent_of result) }
    {
        match self.first_owed_probe() {
            Some(player) => self.probe(player as u8),
            None => self.exclude(),
        }
    }

    /// The datagram that is owed, or else a probe, or what a player is told who is given up.
    fn send_first(&mut self) -> Option<Transmit>
        ensures { SendsFirst (first_owed (playing self.old)) (playing self.old) (playing self.new)
            (option_map sent_of result) }
    {
        match self.first_owed() {
            Some(player) => self.send(player),
            None => self.probe_first(),
        }
    }

    /// What is to be sent next, if anything is.
    pub(crate) fn transmit(&mut self) -> Option<Transmit>
        ensures { SendsNext (playing self.old) (playing self.new) (option_map sent_of result) }
    {
        if self.passing.is_some() {
            return self.passing.take();
        }
        self.send_first()
    }
}
