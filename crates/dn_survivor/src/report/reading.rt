//! Reading any bytes as a report.

ghost use Rattle.std.specs.{Prelude.◌≡◌, Prelude.◌<◌, Prelude.◌≤◌, Prelude.◌+◌, Prelude.◌++◌, Prelude.◌*◌, Prelude.◌%◌, Prelude.◌/◌, Prelude.length, Prelude.drop, Prelude.All, Prelude.Result};
ghost use Rattle.std.specs.{Prelude.None, Prelude.Some, Prelude.IfOk, Prelude.IfErr, Prelude.slice_index, List.flat_map};
ghost use Rattle.dn_tic.specs.Command.{command_bytes, IsCommand};
ghost use Rattle.dn_survivor.specs.{declared.report.Report.Report, declared.report.ReportFault.ReportFault, ReportBytes.bit, ReportBytes.number_of, ReportBytes.tail_bytes, ReportBytes.AreTold, ReportBytes.IsTail, ReportBytes.fault_at};
ghost use Rattle.dn_survivor.specs.{ReportBytes.told_count, ReportBytes.told_number, ReportBytes.HasFault, ReportBytes.IsFirst, ReportBytes.IsReadAs, ReportBytes.next_after};

use crate::report::{MAX_TOLD, Report, ReportFault, TAIL_COMMANDS, Tail};
use arrayvec::ArrayVec;
use dn_tic::TicCmd;

/// The commands whose bytes these are.
fn commands_in(bytes: &[u8]) -> ArrayVec<TicCmd, TAIL_COMMANDS>
    requires whole { length bytes.now % 8 ≡ 0 }
    requires few { length bytes.now ≤ 192 }
    ensures valid { All IsCommand result.items }
    ensures spelled { bytes.now ≡ flat_map command_bytes result.items }
{
    let mut found = ArrayVec::new();
    let mut rest = bytes;
    while let Some((command, after)) = rest.split_first_chunk::<8>() {
        found.push(TicCmd::from_bytes(command));
        rest = after;
    }
    found
}

/// How many commands of a player the sender has.
fn count_in(bytes: &[u8]) -> u32
    requires { 6 ≤ length bytes.now }
    ensures { result ≡ told_count bytes.now }
{
    u32::from_le_bytes([bytes[1], bytes[2], bytes[3], bytes[4]])
}

/// The first fault of bytes behind those of so many players, where the next may have this number or a higher
/// one.
#[tactic(auto, unfolding(crate::specs::ReportBytes::fault_at))]
fn fault_in(before: usize, least: u8, bytes: &[u8]) -> Option<ReportFault>
    ensures first { result ≡ fault_at before least bytes.now }
    ensures none { result ≡ None → 1 ≤ length bytes.now → IsFirst before least bytes.now }
{
    if bytes.is_empty() {
        return None;
    }
    if before == MAX_TOLD {
        return Some(ReportFault::Third);
    }
    if bytes.len() < 6 {
        return Some(ReportFault::Short);
    }
    if bytes[0] > 3 {
        return Some(ReportFault::Player);
    }
    if bytes[0] < least {
        return Some(ReportFault::Order);
    }
    if bytes[5] > 24 {
        return Some(ReportFault::Many);
    }
    if count_in(bytes) < u32::from(bytes[5]) {
        return Some(ReportFault::Surplus);
    }
    if bytes.len() < 6 + 8 * usize::from(bytes[5]) {
        return Some(ReportFault::Cut);
    }
    None
}

/// The player whose bytes stand in front, or the first fault of the bytes.
fn tail_in(before: usize, least: u8, bytes: &[u8]) -> Result<Tail, ReportFault>
    requires { 1 ≤ length bytes.now }
    ensures told { IfOk result (λ tail. IsTail tail × IsFirst before least bytes.now
        × (tail.player ≡ slice_index bytes.now 0)
        × (length tail.commands.items ≡ told_number bytes.now)
        × (bytes.now ≡ tail_bytes tail ++ drop (6 + 8 * told_number bytes.now) bytes.now)) }
    ensures fault { IfErr result (λ fault. fault_at before least bytes.now ≡ Some fault) }
{
    if let Some(fault) = fault_in(before, least, bytes) {
        return Err(fault);
    }
    let end = 6 + 8 * usize::from(bytes[5]);
    Ok(Tail {
        player: bytes[0],
        count: count_in(bytes),
        commands: commands_in(&bytes[6..end]),
    })
}

/// The players whose bytes these are, or the first fault of the bytes.
fn tails_in(bytes: &[u8]) -> Result<ArrayVec<Tail, MAX_TOLD>, ReportFault>
    ensures told { IfOk result (λ told. AreTold told.items × (bytes.now ≡ flat_map tail_bytes told.items)) }
    ensures fault { IfErr result (λ fault. HasFault bytes.now fault) }
{
    let mut found = ArrayVec::new();
    let mut least = 0;
    let mut rest = bytes;
    while !rest.is_empty() {
        match tail_in(found.len(), least, rest) {
            Ok(tail) => {
                least = tail.player + 1;
                rest = &rest[6 + 8 * tail.commands.len()..];
                found.push(tail);
            }
            Err(fault) => return Err(fault),
        }
    }
    Ok(found)
}

/// The lowest four bits of a byte.
fn bits_of(byte: u8) -> [bool; 4]
    ensures four { length result ≡ 4 }
    ensures is { number_of result ≡ byte % 16 }
{
    [
        byte % 2 == 1,
        byte / 2 % 2 == 1,
        byte / 4 % 2 == 1,
        byte / 8 % 2 == 1,
    ]
}

/// Reads the bytes as a report, or answers the first fault that they have.
pub fn decode(bytes: &[u8]) -> Result<Report, ReportFault>
    ensures reads { IsReadAs bytes.now result }
    ensures only { (read : Result Report ReportFault) → IsReadAs bytes.now read → result ≡ read }
{
    if bytes.is_empty() {
        return Err(ReportFault::Empty);
    }
    let first = bytes[0];
    if first / 16 % 8 != 0 {
        return Err(ReportFault::Bits);
    }
    match tails_in(&bytes[1..]) {
        Ok(told) => Ok(Report {
            gone: bits_of(first),
            left: first / 128 == 1,
            told,
        }),
        Err(fault) => Err(fault),
    }
}
