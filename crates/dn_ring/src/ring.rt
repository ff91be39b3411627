//! A count of commands, and the last of them.

ghost use Rattle.std.specs.Prelude.{◌≡◌, ◌+◌, ◌++◌, ◌^◌, ◌%◌, ◌<◌, ◌≤◌, ℕ, List, length, take, All, Some, true, is_some};
ghost use Rattle.dn_tic.specs.{Command.IsCommand, declared.command.TicCmd.TicCmd};
ghost use Rattle.dn_ring.specs.Ring.{empty, put, get, since, no_command, ring_of, AreSlotsOf};

use dn_tic::TicCmd;
use std::marker::Model;

/// The last commands of a player, as many as there are places. A contract sees how many commands were put, and
/// the last of them, the oldest first.
#[derive(Debug, Drop)]
pub struct RingBuffer<const PLACES: usize> {
    count: u32,
    slots: [TicCmd; PLACES],
}

/// The last twelve commands of a player (`d_net.h`, BACKUPTICS).
pub type Ring = RingBuffer<12>;

/// The last thirty-two: more than the widest window keeps.
pub type WideRing = RingBuffer<32>;

impl<const PLACES: usize> Model for RingBuffer<PLACES> {
    ghost use Rattle.dn_ring.specs.Ring.{Ring as Tail, IsTable, last_in};

    ghost Value = { Tail };

    ghost view = { λ r. record { count = r.count; last = last_in PLACES r.count r.slots } };

    ghost invariant = { λ r. IsTable PLACES r.count r.slots };
}

impl<const PLACES: usize> RingBuffer<PLACES> {
    /// A ring into which nothing was put.
    pub fn new() -> RingBuffer<PLACES>
        requires some { 0 < PLACES }
        requires small { PLACES < 2 ^ 31 }
        ensures { result ≡ empty }
    {
        RingBuffer {
            count: 0,
            slots: [TicCmd::default(); PLACES],
        }
    }

    /// How many commands were put.
    pub fn count(&self) -> u32
        ensures { result ≡ self.now.count }
    {
        let RingBuffer { count, slots: _ } = self;
        *count
    }

    /// Puts the command of the next tic; where every place is taken, the oldest goes.
    pub fn put(&mut self, command: TicCmd)
        requires { self.old.count + 1 < 2 ^ 32 }
        ensures { self.new ≡ put PLACES self.old command }
    {
        let RingBuffer { count, slots } = self;
        slots[*count as usize % PLACES] = command;
        *count += 1;
    }

    /// The command of a tic, counted from the first that was put; None where it was not put yet, or longer ago
    /// than there are places.
    pub fn get(&self, tic: u32) -> Option<TicCmd>
        ensures value { result ≡ get PLACES self.now tic }
        ensures there { tic < self.now.count → self.now.count ≤ tic + PLACES → is_some result ≡ true }
    {
        if tic < self.count && (self.count - tic) as usize <= PLACES {
            Some(self.at(tic))
        } else {
            None
        }
    }

    /// The command of a tic that is there.
    pub fn at(&self, tic: u32) -> TicCmd
        requires there { tic < self.now.count }
        requires kept { self.now.count ≤ tic + PLACES }
        ensures { get PLACES self.now tic ≡ Some result }
    {
        self.slot(tic as usize % PLACES)
    }

    /// The commands from a tic on, of those that are there, in two pieces of which the second goes on where the
    /// first ends. Where they part is not promised.
    #[tactic(auto, using(crate::proofs::Slots::all_since))]
    pub fn since(&self, tic: u32) -> (&[TicCmd], &[TicCmd])
        requires low { tic ≤ self.now.count }
        requires high { self.now.count ≤ tic + PLACES }
        ensures commands { result.0.now ++ result.1.now ≡ since self.now tic }
        ensures count { tic + (length result.0.now + length result.1.now) ≡ self.now.count }
        ensures valid { All IsCommand (result.0.now ++ result.1.now) }
    {
        self.range(tic, (self.count - tic) as usize)
    }

    /// So many commands from a tic on, in two pieces as those of `since`.
    pub fn range(&self, tic: u32, many: usize) -> (&[TicCmd], &[TicCmd])
        requires low { tic + many ≤ self.now.count }
        requires high { self.now.count ≤ tic + PLACES }
        ensures commands { result.0.now ++ result.1.now ≡ take many (since self.now tic) }
        ensures count { length result.0.now + length result.1.now ≡ many }
        ensures valid { All IsCommand (result.0.now ++ result.1.now) }
    {
        let slots = &self.slots[..];
        let first = tic as usize % PLACES;
        let end = first + many;
        if end <= PLACES {
            (&slots[first..end], &[])
        } else {
            (&slots[first..], &slots[..end - PLACES])
        }
    }

    /// The command in a slot. That of tic t, which is there, stands in slot `t % PLACES`; a slot that was never
    /// taken has the command of eight zero bytes.
    #[tactic(auto, using(crate::proofs::Slots::get_slot))]
    pub fn slot(&self, place: usize) -> TicCmd
        requires { place < PLACES }
        ensures taken { (tic : ℕ) → tic < self.now.count → self.now.count ≤ tic + PLACES → place ≡ tic % PLACES
            → get PLACES self.now tic ≡ Some result }
        ensures free { self.now.count ≤ place → result ≡ no_command }
    {
        self.slots[place]
    }

    /// The slots: each command that is there stands in slot `tic % PLACES`, and a slot that was never taken has
    /// the command of eight zero bytes.
    pub fn slots(&self) -> &[TicCmd; PLACES]
        ensures { (commands : List TicCmd) → self.now ≡ ring_of PLACES commands
            → AreSlotsOf PLACES commands result.now }
    {
        &self.slots
    }
}
