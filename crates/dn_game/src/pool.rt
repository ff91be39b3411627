//! Every packet that was sent, packed: all datagrams in one list of bytes, and a record of each.

ghost use Rattle.std.specs.{Prelude.◌≡◌, Prelude.◌<◌, Prelude.◌≤◌, Prelude.◌+◌, Prelude.◌++◌, Prelude.◌∷◌, Prelude.[], Prelude.length, Prelude.Some, Prelude.OnOk, Prelude.OnErr, Prelude.slice_get};
ghost use Rattle.std.specs.{Prelude.vec_len, Vec.vec_capacity};
ghost use Rattle.dn_game.specs.{declared.flight.Flight.Flight, Pool.HasGrown, Pool.HasRoom, Pool.IsRecordOf, Pool.LacksRoom, Pool.grown, Pool.joined};

use crate::flight::Flight;
use arrayvec::ArrayVec;
use dn_demo::append;
use dn_node::Aim;
use dn_packet::MAX_DATAGRAM;
use std::alloc::{AllocError, Global};
use std::marker::Model;

/// What is known of a packet, and where in the pool its datagram stands.
#[derive(Clone, Copy, Debug)]
pub(crate) struct Record {
    /// The number of the sender.
    pub(crate) from: u8,
    /// The number of the receiver.
    pub(crate) to: u8,
    /// How many bytes the datagram has.
    length: u8,
    /// Its exact numbers.
    pub(crate) aim: Aim,
    /// The place of its first byte.
    place: usize,
}

/// Every packet that was sent, in order. A contract sees the flights, and how much more there is room
/// for.
#[derive(Drop)]
pub(crate) struct Pool {
    bytes: Vec<u8>,
    records: Vec<Record>,
}

/// Makes room for `more` things: where they do not fit, for twice as many as there are, or just for
/// these.
fn grow<T>(list: &mut Vec<T>, more: usize) -> Result<(), AllocError>
    ensures items { list.new.items ≡ list.old.items }
    ensures len { vec_len list.new ≡ vec_len list.old }
    ensures room { OnOk result (vec_len list.new + more ≤ vec_capacity list.new) }
    ensures grown { OnOk result
        (vec_capacity list.new ≡ grown (vec_len list.old) more (vec_capacity list.old)) }
    ensures kept { OnErr result (vec_capacity list.new ≡ vec_capacity list.old) }
    ensures full { OnErr result (vec_capacity list.new < vec_len list.new + more) }
{
    let count = list.len();
    if more <= list.capacity() - count {
        return Ok(());
    }
    list.reserve_exact(count.max(more))
}

impl Model for Pool {
    ghost use Rattle.std.specs.{Prelude.◌-◌, Prelude.vec_len, Vec.vec_capacity};
    ghost use Rattle.dn_game.specs.Pool.{Pool as Packets, ArePacked, flights_in};

    ghost Value = { Packets };

    ghost view = { λ p. record {
      flights = flights_in p.bytes.items p.records.items;
      free_bytes = vec_capacity p.bytes - vec_len p.bytes;
      free_records = vec_capacity p.records - vec_len p.records;
      room = record { bytes = vec_capacity p.bytes; records = vec_capacity p.records };
    } };

    ghost invariant = { λ p. ArePacked p.bytes.items p.records.items };
}

impl Pool {
    /// Nothing was sent.
    pub(crate) fn new(alloc: Global) -> Pool
        ensures flights { result.flights ≡ [] }
        ensures room { result.room ≡ record { bytes = 0; records = 0 } }
    {
        Pool {
            bytes: Vec::new(alloc),
            records: Vec::new(alloc),
        }
    }

    /// How many packets were sent.
    pub(crate) fn len(&self) -> usize
        ensures { result ≡ length self.now.flights }
    {
        self.records.len()
    }

    /// All datagrams, in order of sending.
    pub(crate) fn bytes(&self) -> &[u8]
        ensures { result.now ≡ joined self.now.flights }
    {
        self.bytes.as_slice()
    }

    /// The record of a packet.
    pub(crate) fn record(&self, which: usize) -> &Record
        requires { which < length self.now.flights }
        ensures { (flight : Flight) → slice_get self.now.flights which ≡ Some flight
            → IsRecordOf flight result.now }
    {
        &self.records[which]
    }

    /// The datagram of a packet.
    pub(crate) fn datagram(&self, which: usize) -> &[u8]
        requires { which < length self.now.flights }
        ensures bytes { (flight : Flight) → slice_get self.now.flights which ≡ Some flight
            → result.now ≡ flight.bytes.items }
        ensures short { length result.now ≤ 104 }
    {
        let record = &self.records[which];
        &self.bytes[record.place..record.place + usize::from(record.length)]
    }

    /// The packet of this number, counted from 0 in order of sending; None where no packet has it.
    pub(crate) fn flight(&self, which: usize) -> Option<Flight>
        ensures { result ≡ slice_get self.now.flights which }
    {
        if which >= self.len() {
            return None;
        }
        let record = self.record(which);
        let mut bytes = ArrayVec::new();
        let _ = bytes.try_extend_from_slice(self.datagram(which));
        Some(Flight {
            from: record.from,
            to: record.to,
            aim: record.aim,
            bytes,
        })
    }

    /// Makes room for one more packet, however long it is.
    pub(crate) fn reserve(&mut self) -> Result<(), AllocError>
        ensures kept { self.new.flights ≡ self.old.flights }
        ensures room { OnOk result (HasRoom self.new) }
        ensures full { OnErr result (LacksRoom self.new.room self.new.flights) }
        ensures grown { HasGrown self.old.flights self.old.room self.new.room }
    {
        grow(&mut self.bytes, MAX_DATAGRAM)?;
        grow(&mut self.records, 1)
    }

    /// A packet joins the others.
    pub(crate) fn push(&mut self, from: u8, to: u8, aim: Aim, bytes: &[u8])
        requires room { HasRoom self.old }
        requires short { length bytes.now ≤ 104 }
        ensures flights { self.new.flights ≡ self.old.flights ++ record {
          from = from;
          to = to;
          aim = aim;
          bytes = record { items = bytes.now };
        } ∷ [] }
        ensures kept { self.new.room ≡ self.old.room }
    {
        let place = self.bytes.len();
        append(&mut self.bytes, bytes);
        self.records.push_reserved(Record {
            from,
            to,
            length: bytes.len() as u8,
            aim,
            place,
        });
    }
}
