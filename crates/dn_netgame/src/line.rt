//! Lines between nodes: what a line owes, a line in memory, and one over UDP.

mod hub;
mod udp;

ghost use Rattle.std.specs.Prelude.{◌≡◌, ℕ, List, Option, Result};
ghost use Rattle.dn_netgame.specs.{declared.line.Datagram.Datagram, declared.line.LineFault.LineFault, Lines.Done, Lines.count_after};

use arrayvec::ArrayVec;
pub use hub::{HubFault, MemoryHub};
use thiserror::Error;
pub use udp::{UdpLine, is_base};

/// How many bytes of a datagram are kept, at most: one more than a packet has.
pub(crate) const KEPT: usize = 105;

/// Why a call of a line failed.
#[derive(Clone, Copy, Debug, PartialEq, Eq, Error)]
pub enum LineFault {
    /// A socket could not be bound.
    #[error("a socket could not be bound")]
    Bind,
    /// A datagram was not sent.
    #[error("a datagram was not sent")]
    Send,
    /// A poll failed.
    #[error("a poll failed")]
    Poll,
}

/// What came in: whose it is, and at most its first 105 bytes. That is one more than a packet has, so
/// a longer datagram is no packet either.
#[derive(Debug, Default, Drop, PartialEq, Eq)]
pub struct Datagram {
    /// The number of the sender, and 255 for a stranger.
    pub from: u8,
    /// Its bytes, or the first 105 of them.
    pub bytes: ArrayVec<u8, KEPT>,
}

/// How many calls failed, once there is this answer too.
pub(crate) fn count_after<T>(answer: &Result<T, LineFault>, failed: u64) -> u64
    ensures { result ≡ count_after answer.now failed }
{
    match answer {
        Ok(_) => failed,
        Err(_) => failed.wrapping_add(1),
    }
}

/// Carries datagrams between players. It may lose, repeat and reorder them, as its own relations say.
pub trait Line {
    /// Its relation of a send: before, from, to, the bytes, the answer, after.
    ghost sends: { Self → ℕ → ℕ → List ℕ → Result Done LineFault → Self → Type 0 };

    /// Its relation of a poll: before, for whom, the answer, after.
    ghost polls: { Self → ℕ → Result (Option Datagram) LineFault → Self → Type 0 };

    /// How many calls failed, as a number that wraps.
    ghost failed: { Self → ℕ };

    /// Sends a datagram of `me` to another player.
    fn send(&mut self, me: u8, to: u8, bytes: &[u8]) -> Result<(), LineFault>
        ensures sent { sends self.old me to bytes.now result self.new }
        ensures sends_counted { failed self.new ≡ count_after result (failed self.old) };

    /// The next datagram for `me`, if one is there. It does not wait.
    fn poll(&mut self, me: u8) -> Result<Option<Datagram>, LineFault>
        ensures polled { polls self.old me result self.new }
        ensures polls_counted { failed self.new ≡ count_after result (failed self.old) };
}
