//! Whether a datagram agrees with the exact numbers beside it.

ghost use Rattle.std.specs.Prelude.{◌≡◌, slice_index};
ghost use Rattle.dn_machine.specs.Flight.{request_byte};
ghost use Rattle.dn_open.specs.Arrivals.{asks_alike, flag_in, is_alike};

use dn_packet::{RETRANSMIT, SETUP};
use dn_seal::Opened;

/// A byte of a datagram, and 0 past its end.
fn byte_at(bytes: &[u8], place: usize) -> u8
    ensures { result ≡ slice_index bytes.now place }
{
    match bytes.get(place) {
        Some(byte) => *byte,
        None => 0,
    }
}

/// Whether a datagram has a flag.
fn has_flag(bytes: &[u8], flag: u8) -> bool
    ensures { result ≡ flag_in bytes.now flag }
{
    byte_at(bytes, 3) / 16 & flag != 0
}

/// The low byte of a request, and 0 for none.
fn request_byte(ask: Option<u32>) -> u32
    ensures { result ≡ request_byte ask }
{
    match ask {
        Some(tic) => tic % 256,
        None => 0,
    }
}

/// Whether a datagram asks for commands again from this tic, by the low byte, or not at all.
fn asks_alike(bytes: &[u8], ask: Option<u32>) -> bool
    ensures { result ≡ asks_alike bytes.now ask }
{
    u32::from(byte_at(bytes, 4)) == request_byte(ask)
        && has_flag(bytes, RETRANSMIT) == ask.is_some()
}

/// Whether a datagram, unless it is set-up, has the sender beside it, the low byte of the start, and the low byte
/// of the request, or none. That of an honest sender does; this finds one who seals what no lockstep made.
pub fn is_alike(opened: &Opened) -> bool
    ensures { result ≡ is_alike opened.now }
{
    let bytes = opened.datagram.as_slice();
    if has_flag(bytes, SETUP) {
        return true;
    }
    byte_at(bytes, 6) == opened.from
        && u32::from(byte_at(bytes, 5)) == opened.start % 256
        && asks_alike(bytes, opened.ask)
}
