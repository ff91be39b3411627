//! Writing packets compactly, as parts of a datagram.

ghost use Rattle.std.specs.Prelude.{◌≡◌, ◌≤◌, ◌<◌, ◌+◌, ◌/◌, ◌%◌, ◌^◌, ◌++◌, ◌∷◌, [], ℕ, All, length, false, true};
ghost use Rattle.dn_link.specs.{Packets.{opened_from, short_packet}, declared.bundle.Part.TheVariants.Whole, Text.{IsPart, parts_bytes}};
ghost use Rattle.dn_link.specs.Packing.{HasRoom, IsOpen, IsPacking, IsTight, MayFollow, packed, part_of, ArePacked, IsNeeded};
ghost use Rattle.dn_link.specs.Packing.{parts_room};

use crate::bundle::{Carried, Part, Run};
use crate::short::short_command;
use arrayvec::ArrayVec;
use dn_seal::append;
use std::mem;

/// How many bytes of a datagram are left for its parts.
const PARTS_BYTES: usize = 1118;

/// How many bytes a part takes at most: a whole packet with its numbers.
const MOST_BYTES: usize = 115;

/// How many parts a datagram has at most.
const MOST_PARTS: usize = 24;

/// How many bytes a run takes beside its commands.
const RUN_BYTES: usize = 5;

/// How many bytes a whole packet takes beside its datagram.
const WHOLE_BYTES: usize = 11;

/// Packets that are written as parts: those that are done, how many bytes they take, and a run that may go on.
#[derive(Drop)]
struct Packing {
    parts: ArrayVec<Part, 24>,
    bytes: usize,
    run: Run,
}

/// A run without commands, from a tic on.
fn empty_run(start: u32) -> Run
    ensures start { result.start ≡ start }
    ensures none { result.commands.items ≡ [] }
{
    Run {
        start,
        commands: ArrayVec::new(),
    }
}

/// A copy of a packet.
fn copy_of(packet: &Carried) -> Carried
    ensures { result ≡ packet.now }
{
    let mut datagram = ArrayVec::new();
    append(&mut datagram, packet.datagram.as_slice());
    Carried {
        start: packet.start,
        ask: packet.ask,
        datagram,
    }
}

impl Packing {
    /// Of no packets.
    fn new() -> Packing
        ensures fits { IsPacking result }
        ensures none { (from : ℕ) → packed from result ≡ [] }
        ensures tight { (from : ℕ) → IsTight from result }
        ensures last { IsOpen result }
    {
        Packing {
            parts: ArrayVec::new(),
            bytes: 1,
            run: empty_run(0),
        }
    }

    /// How many parts these are with the run, if it has commands.
    fn count(&self) -> usize
        requires { IsPacking self.now }
        ensures least { length self.now.parts.items ≤ result }
        ensures most { result ≤ 24 }
        ensures run { 1 ≤ length self.now.run.commands.items → result ≡ length self.now.parts.items + 1 }
        ensures none { length self.now.run.commands.items ≡ 0 → result ≡ length self.now.parts.items }
    {
        if self.run.commands.is_empty() {
            self.parts.len()
        } else {
            self.parts.len() + 1
        }
    }

    /// Whether there may be no room for another packet.
    fn is_full(&self) -> bool
        requires { IsPacking self.now }
        ensures room { result ≡ false → HasRoom self.now }
        ensures full { result ≡ true → length self.now.parts.items < 24
            → (1 ≤ length self.now.run.commands.items → length self.now.parts.items < 23)
            → 1118 < self.now.bytes + 5 + length self.now.run.commands.items + 115 }
    {
        self.count() >= MOST_PARTS
            || self.bytes + RUN_BYTES + self.run.commands.len() + MOST_BYTES > PARTS_BYTES
    }

    /// Ends the run, and begins another.
    #[tactic(auto, using(crate::proofs::Packings::ended))]
    fn end_run(&mut self, start: u32)
        requires fits { IsPacking self.old }
        ensures fits { IsPacking self.new }
        ensures few { length self.old.run.commands.items ≡ 0 → length self.new.parts.items ≡ length self.old.parts.items }
        ensures more { length self.new.parts.items ≤ length self.old.parts.items + 1 }
        ensures room { self.new.bytes ≤ self.old.bytes + 5 + length self.old.run.commands.items }
        ensures none { self.new.run.commands.items ≡ [] }
        ensures start { self.new.run.start ≡ start }
        ensures parts { self.new.parts.items ≡ self.old.parts.items ++ part_of self.old.run }
        ensures same { (from : ℕ) → packed from self.new ≡ packed from self.old }
    {
        let run = mem::replace(&mut self.run, empty_run(start));
        if !run.commands.is_empty() {
            self.bytes += RUN_BYTES + run.commands.len();
            self.parts.push(Part::Run(run));
        }
    }

    /// Makes way for the command of a tic, which the run goes on with.
    fn make_way(&mut self, start: u32)
        requires fits { IsPacking self.old }
        requires room { HasRoom self.old }
        ensures fits { IsPacking self.new }
        ensures room { self.new.bytes + 5 + length self.new.run.commands.items + 8 ≤ 1118 }
        ensures few { length self.new.run.commands.items ≤ 184 }
        ensures parts { length self.new.parts.items ≤ 23 }
        ensures follows { (self.new.run.start + length self.new.run.commands.items / 8) % 2 ^ 32 ≡ start }
        ensures tight { (from : ℕ) → IsTight from self.old → MayFollow from self.new.parts.items self.new.run.start }
        ensures same { (from : ℕ) → packed from self.new ≡ packed from self.old }
    {
        let count = self.run.commands.len() / 8;
        if count == 24 || self.run.start.wrapping_add(count as u32) != start {
            self.end_run(start);
        }
    }

    /// Adds a packet that is written as its command.
    #[tactic(auto, using(crate::proofs::Packings::run_goes_on, crate::proofs::Packings::run_tight))]
    fn add_short(&mut self, start: u32, command: &[u8; 8])
        requires fits { IsPacking self.old }
        requires room { HasRoom self.old }
        ensures fits { IsPacking self.new }
        ensures more { (from : ℕ) → packed from self.new
            ≡ packed from self.old ++ opened_from from (short_packet from start command.now) ∷ [] }
        ensures tight { (from : ℕ) → IsTight from self.old → IsTight from self.new }
        ensures last { IsOpen self.new }
    {
        self.make_way(start);
        append(&mut self.run.commands, command);
    }

    /// Adds any packet as it is.
    #[tactic(auto, using(crate::proofs::Packings::last_of, crate::proofs::Packings::whole_tight))]
    fn add_whole(&mut self, packet: &Carried)
        requires fits { IsPacking self.old }
        requires room { HasRoom self.old }
        ensures fits { IsPacking self.new }
        ensures more { (from : ℕ) → packed from self.new
            ≡ packed from self.old ++ opened_from from packet.now ∷ [] }
        ensures tight { (from : ℕ) → IsTight from self.old → IsNeeded from (Whole packet.now) → IsTight from self.new }
        ensures last { IsOpen self.new }
    {
        self.end_run(packet.start);
        self.bytes += WHOLE_BYTES + packet.datagram.len();
        self.parts.push(Part::Whole(copy_of(packet)));
    }

    /// Adds a packet of a player.
    fn add(&mut self, from: u8, packet: &Carried)
        requires fits { IsPacking self.old }
        requires room { HasRoom self.old }
        ensures fits { IsPacking self.new }
        ensures more { packed from self.new ≡ packed from self.old ++ opened_from from packet.now ∷ [] }
        ensures tight { IsTight from self.old → IsTight from self.new }
        ensures last { IsOpen self.new }
    {
        match short_command(from, packet) {
            Some(command) => self.add_short(packet.start, &command),
            None => self.add_whole(packet),
        }
    }
}

/// The parts that stand for a player's packets, oldest first, up to where there may be no room for one more:
/// there are twenty-four parts, or fewer bytes are left than a run and a whole packet may take.
pub(crate) fn pack(from: u8, packets: &[Carried]) -> ArrayVec<Part, 24>
    ensures fit { All IsPart result.items }
    ensures short { parts_room result.items ≤ 1118 }
    ensures packed { ArePacked from packets.now result.items }
{
    let mut packing = Packing::new();
    let mut rest = packets;
    'packets: while let Some((packet, after)) = rest.split_first() {
        if packing.is_full() {
            break;
        }
        packing.add(from, packet);
        rest = after;
    }
    packing.end_run(0);
    packing.parts
}
