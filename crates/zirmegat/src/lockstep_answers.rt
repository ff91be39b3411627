//! What the calls on a lockstep return, as plain numbers.

ghost use Rattle.std.specs.Prelude.{◌≡◌};
ghost use Rattle.zirmegat.specs.Locksteps.{aim_by, heard_at, heard_told, made_code};

use crate::fault::{DONE, Fault};
use dn_lockstep::{Aim, Heard, Made};

/// Whether a command was made.
pub(crate) fn made_code(made: Made) -> u32
    ensures { result ≡ made_code made }
{
    match made {
        Made::Made(_) => DONE,
        Made::Full => Fault::Full.code(),
        Made::NotPlaying => Fault::NotNow.code(),
    }
}

/// What a lockstep returns for a datagram: 0 if it dropped it, for the reason `number`; 1 if it has started, 2
/// if it took `number` new commands, 3 if no command was new, 4 if earlier commands are missing, 5 if the
/// sender has left and all its commands are here, 6 if a gathering node noted the sender, or if the node has
/// ended.
#[repr(C)]
#[derive(Clone, Copy, Debug, PartialEq, Eq)]
pub struct HeardAnswer {
    /// 0 to 6, as above.
    pub code: u32,
    /// How many commands were new, or the number of the drop.
    pub number: u32,
}

impl HeardAnswer {
    /// This, and its number.
    pub(crate) fn at(code: u32, number: u32) -> HeardAnswer
        ensures { result ≡ heard_at code number }
    {
        HeardAnswer { code, number }
    }

    /// What a lockstep made of a datagram.
    pub(crate) fn of(heard: Heard) -> HeardAnswer
        ensures { result ≡ heard_told heard }
    {
        match heard {
            Heard::Dropped(number) => HeardAnswer::at(0, u32::from(number)),
            Heard::Started => HeardAnswer::at(1, 0),
            Heard::Taken(number) => HeardAnswer::at(2, number),
            Heard::Stale => HeardAnswer::at(3, 0),
            Heard::Gap => HeardAnswer::at(4, 0),
            Heard::Left => HeardAnswer::at(5, 0),
            Heard::Noted => HeardAnswer::at(6, 0),
        }
    }
}

/// The exact numbers of a packet, of which it carries the low bytes.
#[repr(C)]
#[derive(Clone, Copy, Debug, PartialEq, Eq)]
pub struct AimFields {
    /// 1 where commands are asked for again.
    pub asks: u32,
    /// From which tic on.
    pub ask: u32,
    /// The tic of the first command.
    pub start: u32,
    /// Bits of EXIT, RETRANSMIT and SETUP, as the packet has them.
    pub flags: u8,
    /// How many commands there are.
    pub count: u8,
}

impl AimFields {
    /// The numbers of a packet.
    pub(crate) fn of(aim: Aim) -> AimFields
        ensures { result ≡ aim_by aim.ask aim }
    {
        let (asks, ask) = match aim.ask {
            Some(ask) => (1, ask),
            None => (0, 0),
        };
        AimFields {
            asks,
            ask,
            start: aim.start,
            flags: aim.flags,
            count: aim.count,
        }
    }
}
