//! The sum over the words of a datagram (`NetbufferChecksum` of d_net.c).

ghost use Rattle.std.specs.Prelude.{◌≡◌, ◌+◌, ◌%◌, ◌^◌};
ghost use Rattle.dn_packet.specs.Text.{words, weighted};

use byteorder::{ByteOrder, LittleEndian};

/// Sums are below this, and the first word of a datagram counts the flags in it.
pub(crate) const FLAG_UNIT: u32 = 0x1000_0000;

/// The sum over no words.
pub(crate) const NO_WORDS: u32 = 0x123_4567;

/// A sum that goes on over the two words of eight bytes, the first of which counts this many times.
#[tactic(auto, using(crate::proofs::Pairs::pair_step, crate::proofs::Pairs::pair_of))]
pub(crate) fn add_words(sum: u32, factor: u32, bytes: &[u8; 8]) -> u32
    ensures { result ≡ (sum + weighted factor (words bytes.now)) % 2 ^ 32 }
{
    let first = LittleEndian::read_u32(bytes);
    let second = LittleEndian::read_u32(&bytes[4..]);
    // first * factor + second * (factor + 1)
    let both = first.wrapping_add(second).wrapping_mul(factor);
    sum.wrapping_add(both).wrapping_add(second)
}
