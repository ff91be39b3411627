//! The packet of one command, without a request or a flag, by its command alone.

ghost use Rattle.std.specs.Prelude.{◌≡◌, IfSome, None};
ghost use Rattle.dn_link.specs.{declared.bundle.Part.TheVariants.Whole, Packets.short_packet, Packing.IsNeeded};

use crate::bundle::Carried;
use arrayvec::ArrayVec;
use dn_packet::{Head, encode_parts};
use dn_seal::append;
use dn_tic::TicCmd;

/// How many bytes such a packet has.
const SHORT_BYTES: usize = 16;

/// The packet of one command, which a player sends for a tic.
pub(crate) fn short_packet(from: u8, start: u32, command: &[u8; 8]) -> Carried
    ensures { result ≡ short_packet from start command.now }
{
    let head = Head {
        flags: 0,
        ask: 0,
        start: (start % 256) as u8,
        player: from,
    };
    let mut room = [0; SHORT_BYTES];
    let size = encode_parts(&head, &[TicCmd::from_bytes(command)], &[], &mut room);
    let mut datagram = ArrayVec::new();
    append(&mut datagram, &room);
    Carried {
        start,
        ask: None,
        datagram,
    }
}

/// The command of a packet that follows from its command, its sender and its tic.
pub(crate) fn short_command(from: u8, packet: &Carried) -> Option<[u8; 8]>
    ensures some { IfSome result (λ command. packet.now ≡ short_packet from packet.now.start command) }
    ensures none { result ≡ None → IsNeeded from (Whole packet.now) }
{
    if packet.datagram.len() != SHORT_BYTES {
        return None;
    }
    let mut command = [0; 8];
    command.copy_from_slice(&packet.datagram.as_slice()[8..16]);
    if *packet == short_packet(from, packet.start, &command) {
        Some(command)
    } else {
        None
    }
}
