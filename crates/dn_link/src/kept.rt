//! The packets that a peer has not acknowledged.

ghost use Rattle.std.specs.Prelude.{◌≡◌, ◌≤◌, ◌<◌, ◌+◌, [], All, length, Option};
ghost use Rattle.dn_link.specs.{Kept.{IsCovering, IsRising, IsRising-prop, acknowledged, commands_in, end_of, going, is_idle, is_news, kept_after, takes_packet, without}, Packing.ArePacked};
ghost use Rattle.dn_link.specs.Text.{IsPart, parts_bytes};
ghost use Rattle.dn_link.specs.Packing.{parts_room};
ghost use Rattle.std.specs.Prelude.{false, true};

use crate::bundle::{Carried, Part};
use crate::packing::pack;
use arrayvec::ArrayVec;

/// How many packets are kept for a peer: as many as commands are kept in the widest window.
const MOST_KEPT: usize = 24;

/// How many bytes stand in front of a packet's commands.
const HEAD_BYTES: usize = 8;

/// How many bytes a command has.
const COMMAND_BYTES: usize = 8;

/// Where in a packet the byte stands whose high bits are its flags, and the lowest of them.
const FLAG_BYTE: usize = 3;

const FIRST_FLAG: u8 = 16;

/// How many commands a packet has.
fn commands_in(packet: &Carried) -> u64
    ensures value { result ≡ commands_in packet.now }
    ensures few { result ≤ 12 }
{
    (packet.datagram.len().saturating_sub(HEAD_BYTES) / COMMAND_BYTES) as u64
}

/// The tic after a packet's last command.
fn end_of(packet: &Carried) -> u64
    ensures { result ≡ end_of packet.now }
{
    u64::from(packet.start) + commands_in(packet)
}

/// Whether a packet says nothing: it has no command, no request and no flag.
fn is_idle(packet: &Carried) -> bool
    ensures { result ≡ is_idle packet.now }
{
    let bytes = packet.datagram.as_slice();
    let flags = bytes.get(FLAG_BYTE).copied().unwrap_or(0);
    commands_in(packet) == 0 && packet.ask.is_none() && flags < FIRST_FLAG
}

/// Whether a peer that has left for this cause, or has not, takes a packet: none that says nothing.
pub(crate) fn takes_packet(left: Option<u8>, packet: &Carried) -> bool
    ensures { result ≡ takes_packet left packet.now }
{
    match left {
        Some(_) => false,
        None => !is_idle(packet),
    }
}

/// Drops those at the front of which a peer with so many commands has every command.
fn drop_front(packets: &mut ArrayVec<Carried, 25>, count: u32)
    ensures { packets.new.items ≡ without count packets.old.items }
{
    'packets: while let Some(packet) = packets.first() {
        if end_of(packet) > u64::from(count) {
            break;
        }
        packets.remove(0);
    }
}

/// The packets that were given to a peer, and of whose commands it has not acknowledged all, oldest first.
#[derive(Drop)]
pub(crate) struct Kept {
    packets: ArrayVec<Carried, 25>,
    /// How many commands these packets and those before them cover.
    covered: u64,
    /// How many commands the peer needs no more.
    pub(crate) done: u32,
    ghost few: { length packets.items ≤ 24 },
    ghost covers: { IsCovering (record { packets = packets.items; covered = covered; done = done }) },
    ghost rising: { IsRising done packets.items covered } by { IsRising-prop done packets.items covered },
}

impl Kept {
    ghost use Rattle.dn_link.specs.Linking.{kept};

    /// None.
    pub(crate) fn new() -> Kept
        ensures packets { (kept result).packets ≡ [] }
        ensures covered { (kept result).covered ≡ 0 }
        ensures done { (kept result).done ≡ 0 }
    {
        Kept {
            packets: ArrayVec::new(),
            covered: 0,
            done: 0,
        }
    }

    /// Whether a packet goes on where these end, with a command that none of them has, and there is room to
    /// keep it.
    fn is_news(&self, packet: &Carried) -> bool
        ensures { result ≡ is_news (kept self.now) packet.now }
    {
        u64::from(packet.start) <= self.covered
            && end_of(packet) > self.covered
            && self.packets.len() < MOST_KEPT
    }

    /// The packet of the moment is kept if it has news.
    fn keep(&mut self, packet: Option<Carried>)
        ensures { kept self.new ≡ kept_after (kept self.old) packet }
    {
        let Some(packet) = packet else {
            return;
        };
        let news = self.is_news(&packet);
        let end = end_of(&packet);
        if news {
            self.packets.push(packet);
            self.covered = end;
        }
    }

    /// What goes to the peer now, of this player: these packets, and the one of the moment.
    fn going(&mut self, from: u8, packet: Option<Carried>) -> (ArrayVec<Part, 24>, Option<Carried>)
        ensures kept { kept self.new ≡ kept self.old }
        ensures packet { result.1 ≡ packet }
        ensures fit { All IsPart result.0.items }
        ensures short { parts_room result.0.items ≤ 1118 }
        ensures packed { ArePacked from (going (kept self.old) packet) result.0.items }
    {
        let Some(packet) = packet else {
            return (pack(from, self.packets.as_slice()), None);
        };
        self.packets.push(packet);
        let parts = pack(from, self.packets.as_slice());
        (parts, self.packets.pop())
    }

    /// The same, and the packet of the moment is kept if it has news; but in a brief datagram nothing of that goes.
    pub(crate) fn parts(
        &mut self,
        from: u8,
        packet: Option<Carried>,
        brief: bool,
    ) -> ArrayVec<Part, 24>
        ensures kept { kept self.new ≡ kept_after (kept self.old) packet }
        ensures fit { All IsPart result.items }
        ensures short { parts_room result.items ≤ 1118 }
        ensures packed { brief ≡ false → ArePacked from (going (kept self.old) packet) result.items }
        ensures none { brief ≡ true → result.items ≡ [] }
    {
        if brief {
            self.keep(packet);
            return ArrayVec::new();
        }
        let (parts, packet) = self.going(from, packet);
        self.keep(packet);
        parts
    }

    /// The peer has so many commands.
    pub(crate) fn acknowledge(&mut self, count: u32)
        ensures { kept self.new ≡ acknowledged (kept self.old) count }
    {
        drop_front(&mut self.packets, count);
        self.covered = self.covered.max(u64::from(count));
        self.done = self.done.max(count);
    }
}
