//! Writing the bytes of a report.

ghost use Rattle.std.specs.{Prelude.◌≡◌, Prelude.◌≤◌, Prelude.◌+◌, Prelude.◌++◌, Prelude.◌*◌, Prelude.length, Prelude.All, List.flat_map};
ghost use Rattle.dn_tic.specs.Command.{command_bytes};
ghost use Rattle.dn_packet.specs.Written.{IsWritten};
ghost use Rattle.dn_survivor.specs.ReportBytes.{bit, first_byte, number_of, report_bytes, tail_bytes};

use crate::report::{MAX_REPORT, Report, Tail};
use arrayvec::ArrayVec;
use dn_tic::TicCmd;

/// Appends bytes for which there is room.
fn append(bytes: &mut ArrayVec<u8, MAX_REPORT>, more: &[u8])
    requires { length bytes.old.items + length more.now ≤ 397 }
    ensures { bytes.new.items ≡ bytes.old.items ++ more.now }
{
    let _ = bytes.try_extend_from_slice(more);
}

/// Appends commands.
fn append_commands(bytes: &mut ArrayVec<u8, MAX_REPORT>, commands: &[TicCmd])
    requires { length bytes.old.items + 8 * length commands.now ≤ 397 }
    ensures { bytes.new.items ≡ bytes.old.items ++ flat_map command_bytes commands.now }
{
    for command in commands {
        append(bytes, &command.to_bytes());
    }
}

/// Appends what is told of a player.
fn append_tail(bytes: &mut ArrayVec<u8, MAX_REPORT>, tail: &Tail)
    requires { length bytes.old.items + 198 ≤ 397 }
    ensures more { bytes.new.items ≡ bytes.old.items ++ tail_bytes tail.now }
    ensures long { length bytes.new.items ≤ length bytes.old.items + 198 }
{
    append(bytes, &[tail.player]);
    append(bytes, &tail.count.to_le_bytes());
    append(bytes, &[tail.commands.len() as u8]);
    append_commands(bytes, tail.commands.as_slice());
}

/// A bit as a number.
fn bit_of(is_set: bool) -> u8
    ensures is { result ≡ bit is_set }
    ensures small { result ≤ 1 }
{
    u8::from(is_set)
}

impl Report {
    ghost use Rattle.std.specs.Prelude.{◌≡◌, ◌≤◌, length};
    ghost use Rattle.dn_packet.specs.Written.{IsWritten};
    ghost use Rattle.dn_survivor.specs.ReportBytes.{first_byte, report_bytes};

    /// The byte of whom the sender has given up, and of whether it has left.
    fn first_byte(&self) -> u8
        ensures { result ≡ first_byte self.now }
    {
        let [a, b, c, d] = self.gone;
        bit_of(a) + 2 * bit_of(b) + 4 * bit_of(c) + 8 * bit_of(d) + 128 * bit_of(self.left)
    }

    /// Its bytes.
    fn bytes(&self) -> ArrayVec<u8, MAX_REPORT>
        ensures { result.items ≡ report_bytes self.now }
    {
        let mut bytes = ArrayVec::new();
        append(&mut bytes, &[self.first_byte()]);
        for tail in self.told.as_slice() {
            append_tail(&mut bytes, tail);
        }
        bytes
    }

    /// Writes the report to the front of a room, and answers how many bytes it has.
    pub fn encode(&self, room: &mut [u8]) -> usize
        requires { MAX_REPORT ≤ length room.old }
        ensures { IsWritten (report_bytes self.now) room.old room.new result }
    {
        let bytes = self.bytes();
        let size = bytes.len();
        room[..size].copy_from_slice(bytes.as_slice());
        size
    }
}
