//! A line in memory.

ghost use Rattle.std.specs.Prelude.{◌≡◌, ◌⊎◌, ◌<◌, ◌≤◌, ◌↔◌, true, length, Err, IfOk};
ghost use Rattle.dn_netgame.specs.{Lines.Hub.empty_hub, Lines.Hub.is_taken, Lines.Hub.queue, Lines.Hub.hub_taken, Lines.Hub.hub_given, Lines.Hub.HubSends, Lines.Hub.HubPolls, Lines.Hub.front, declared.line.hub.HubFault.TheVariants.Players};

use crate::line::{Datagram, KEPT, Line, LineFault, count_after};
use arrayvec::ArrayVec;
use std::alloc::Global;
use std::marker::Model;
use thiserror::Error;

/// How many datagrams a queue holds.
const QUEUE: usize = 64;

/// Why there is no hub.
#[derive(Clone, Copy, Debug, PartialEq, Eq, Error)]
pub enum HubFault {
    /// There are not 2 to 4 players.
    #[error("there are not two to four players")]
    Players,
    /// There was no room for the queues.
    #[error("out of memory")]
    Memory,
}

/// A line in memory: a queue of 64 datagrams for each player. It loses nothing that it took.
#[derive(Debug, Drop)]
pub struct MemoryHub {
    queues: Vec<ArrayVec<Datagram, QUEUE>>,
    failed: u64,
}

impl Model for MemoryHub {
    ghost use Rattle.std.specs.{Prelude.◌≡◌, Prelude.◌≤◌, Prelude.map, Prelude.length, Vec.vec_capacity};
    ghost use Rattle.dn_netgame.specs.Lines.Hub.{Hub};

    ghost Value = { Hub };

    ghost view = { λ h. record { queues = map (λ q. q.items) h.queues.items; failed = h.failed } };

    // Its memory is that of its queues, which `new` takes: no call takes more, and none gives any back.
    ghost invariant = { λ h. (length h.queues.items ≤ 4)
        × (vec_capacity h.queues ≡ length h.queues.items) };
}

/// A datagram of these bytes, or of the first 105 of them.
fn datagram(from: u8, bytes: &[u8]) -> Datagram
    ensures { result ≡ front from bytes.now }
{
    let mut kept = ArrayVec::new();
    let count = KEPT.min(bytes.len());
    let _ = kept.try_extend_from_slice(&bytes[..count]);
    Datagram { from, bytes: kept }
}

impl MemoryHub {
    /// A hub for 2 to 4 players, with empty queues. It takes all the memory that it ever needs.
    pub fn new(alloc: Global, players: u8) -> Result<MemoryHub, HubFault>
        ensures hub { IfOk result (λ hub. (2 ≤ players) × (players ≤ 4) × (hub ≡ empty_hub players)) }
        ensures players { (result ≡ Err Players) ↔ ((players < 2) ⊎ (4 < players)) }
    {
        if !(2..=4).contains(&players) {
            return Err(HubFault::Players);
        }
        let Ok(mut queues) = Vec::with_capacity(alloc, usize::from(players)) else {
            return Err(HubFault::Memory);
        };
        for _ in 0..players {
            queues.push_reserved(ArrayVec::new());
        }
        Ok(MemoryHub { queues, failed: 0 })
    }

    /// How many calls failed, as a number that wraps.
    pub fn failed(&self) -> u64
        ensures { result ≡ self.now.failed }
    {
        self.failed
    }

    /// Whether these are two players, and the receiver's queue has room.
    fn has_room(&self, me: u8, to: u8) -> bool
        ensures value { result ≡ is_taken self.now me to }
        ensures place { result ≡ true → to < length self.now.queues }
        ensures room { result ≡ true → length (queue self.now to) < 64 }
    {
        let players = self.queues.len();
        let (own, other) = (usize::from(me), usize::from(to));
        own < players && other < players && own != other && !self.queues[other].is_full()
    }

    /// Puts a datagram into a queue, or returns that it cannot be taken.
    fn take(&mut self, me: u8, to: u8, bytes: &[u8]) -> Result<(), LineFault>
        ensures answer { result ≡ (hub_taken self.old me to bytes.now).1 }
        ensures hub { self.new ≡ (hub_taken self.old me to bytes.now).0 }
    {
        if !self.has_room(me, to) {
            return Err(LineFault::Send);
        }
        let queues = &mut self.queues;
        queues[usize::from(to)].push(datagram(me, bytes));
        Ok(())
    }

    /// Takes the first datagram out of a queue.
    fn give(&mut self, me: u8) -> Result<Option<Datagram>, LineFault>
        ensures answer { result ≡ (hub_given self.old me).1 }
        ensures hub { self.new ≡ (hub_given self.old me).0 }
    {
        if usize::from(me) >= self.queues.len() {
            return Err(LineFault::Poll);
        }
        let queues = &mut self.queues;
        Ok(queues[usize::from(me)].pop_at(0))
    }
}

impl Line for MemoryHub {
    ghost sends = { HubSends };

    ghost polls = { HubPolls };

    ghost failed = { λ hub. hub.failed };

    fn send(&mut self, me: u8, to: u8, bytes: &[u8]) -> Result<(), LineFault> {
        let answer = self.take(me, to, bytes);
        self.failed = count_after(&answer, self.failed);
        answer
    }

    fn poll(&mut self, me: u8) -> Result<Option<Datagram>, LineFault> {
        let answer = self.give(me);
        self.failed = count_after(&answer, self.failed);
        answer
    }
}
