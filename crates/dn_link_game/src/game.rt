//! All players of a game of links, and every datagram that they gave.

ghost use Rattle.std.specs.{Prelude.{◌≡◌, ◌≢◌, ◌+◌, ◌*◌, ◌≤◌, length, Err, OnOk, OnErr, nat_lt, true}, Vec.{vec_capacity, vec_len}};
ghost use Rattle.dn_link_game.specs.{Applied.{IsAnswered, AddsToGiven, IsWithinTwice}, Does.DoesEvent, Games.GoesOn, Playing.is_send, Promised.seen_by};
ghost use Rattle.dn_link_game.specs.declared.calls.{LinkEvent.TheVariants.{Call, Deliver}, LinkRefusal.TheVariants.Memory};

use crate::calls::{LinkCall, LinkDone, LinkEvent, LinkRefusal};
use crate::player::Player;
use arrayvec::ArrayVec;
use dn_link::remaining_bytes_are_genuine;
use dn_world::World;
use std::alloc::AllocError;

/// All players of a game, and every datagram that any of them ever gave to anybody, in order.
#[derive(Drop)]
pub struct LinkGame<W> {
    /// The players by their numbers.
    pub players: Vec<Player<W>>,
    /// What was given.
    pub given: Vec<ArrayVec<u8, 1200>>,
}

impl<W: World> LinkGame<W> {
    /// Whether this is the number of a player.
    fn is_player(&self, player: u32) -> bool
        ensures { result ≡ nat_lt player (length self.now.players.items) }
    {
        (player as usize) < self.players.len()
    }

    /// Makes room for the datagram that a call asks for, if it does.
    fn make_room(&mut self, call: &LinkCall) -> Result<(), AllocError>
        ensures players { self.new.players ≡ self.old.players }
        ensures given { self.new.given.items ≡ self.old.given.items }
        ensures room { OnOk result (is_send call.now ≡ true
            → vec_len self.new.given + 1 ≤ vec_capacity self.new.given) }
        ensures twice { IsWithinTwice self.old → IsWithinTwice self.new }
        ensures asked { OnErr result (is_send call.now ≡ true) }
        ensures full { OnErr result (vec_capacity self.old.given ≤ vec_len self.old.given) }
    {
        match call {
            LinkCall::Send { .. } => grow(&mut self.given),
            _ => Ok(()),
        }
    }

    /// A call on a player; what it gives joins what was given. Room for that is made first.
    fn call(&mut self, player: u32, call: &LinkCall) -> Result<LinkDone, LinkRefusal>
        ensures goes_on { GoesOn W.state W.physics self.old self.new (Call player call.now) (seen_by (Call player call.now) result) }
        ensures does { DoesEvent W.state W.physics (Call player call.now) result self.old self.new }
        ensures answered { IsAnswered (length self.old.players.items) (length self.old.given.items) (Call player call.now) result }
        ensures memory { result ≡ Err Memory → vec_capacity self.old.given ≤ vec_len self.old.given }
        ensures given { AddsToGiven self.old self.new result }
        ensures twice { IsWithinTwice self.old → IsWithinTwice self.new }
        ensures unchanged { OnErr result ((self.new.players ≡ self.old.players) × (self.new.given.items ≡ self.old.given.items)) }
    {
        remaining_bytes_are_genuine();
        if !self.is_player(player) {
            return Err(LinkRefusal::NoPlayer);
        }
        let Ok(()) = self.make_room(call) else {
            return Err(LinkRefusal::Memory);
        };
        let (done, given) = self.players[player as usize].call(call);
        if let Some(bytes) = given {
            self.given.push_reserved(bytes);
        }
        Ok(done)
    }

    /// What was given as this one comes to a player.
    fn deliver(&mut self, player: u32, which: u32) -> Result<LinkDone, LinkRefusal>
        ensures goes_on { GoesOn W.state W.physics self.old self.new (Deliver player which) (seen_by (Deliver player which) result) }
        ensures does { DoesEvent W.state W.physics (Deliver player which) result self.old self.new }
        ensures room { result ≢ Err Memory }
        ensures answered { IsAnswered (length self.old.players.items) (length self.old.given.items) (Deliver player which) result }
        ensures given { AddsToGiven self.old self.new result }
        ensures twice { IsWithinTwice self.old → IsWithinTwice self.new }
        ensures unchanged { OnErr result ((self.new.players ≡ self.old.players) × (self.new.given.items ≡ self.old.given.items)) }
    {
        remaining_bytes_are_genuine();
        if !self.is_player(player) {
            return Err(LinkRefusal::NoPlayer);
        }
        let Some(bytes) = self.given.get(which as usize) else {
            return Err(LinkRefusal::NoDatagram);
        };
        let (done, _) = self.players[player as usize].call(&LinkCall::Receive(bytes.as_slice()));
        Ok(done)
    }

    /// What an event does, or why it is refused; a refused event changes nothing.
    pub fn apply(&mut self, event: &LinkEvent) -> Result<LinkDone, LinkRefusal>
        // Where the game is one of links, in which this was seen, it is one after the event too.
        ensures goes_on { GoesOn W.state W.physics self.old self.new event.now (seen_by event.now result) }
        ensures does { DoesEvent W.state W.physics event.now result self.old self.new }
        ensures answered { IsAnswered (length self.old.players.items) (length self.old.given.items) event.now result }
        ensures memory { result ≡ Err Memory → vec_capacity self.old.given ≤ vec_len self.old.given }
        ensures given { AddsToGiven self.old self.new result }
        ensures twice { IsWithinTwice self.old → IsWithinTwice self.new }
        ensures unchanged { OnErr result ((self.new.players ≡ self.old.players) × (self.new.given.items ≡ self.old.given.items)) }
    {
        match event {
            LinkEvent::Call { player, call } => self.call(*player, call),
            LinkEvent::Deliver { player, which } => self.deliver(*player, *which),
        }
    }
}

/// Makes room for one more: where there is none, for as many again as there are, or for the first.
fn grow<T>(list: &mut Vec<T>) -> Result<(), AllocError>
    ensures items { list.new.items ≡ list.old.items }
    ensures len { vec_len list.new ≡ vec_len list.old }
    ensures ok { OnOk result (vec_len list.new + 1 ≤ vec_capacity list.new) }
    ensures twice { vec_capacity list.old ≤ 2 * vec_len list.old + 1 → vec_capacity list.new ≤ 2 * vec_len list.new + 1 }
    ensures full { OnErr result (vec_capacity list.old ≤ vec_len list.old) }
{
    let count = list.len();
    if count < list.capacity() {
        return Ok(());
    }
    list.reserve_exact(count.max(1))
}
