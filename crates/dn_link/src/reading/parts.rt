//! Reading the parts of a datagram.

ghost use Rattle.std.specs.{Prelude.◌≤◌, Prelude.◌≡◌, Prelude.◌+◌, Prelude.◌%◌, Prelude.IfSome, Prelude.length, Option.option_map};
ghost use Rattle.dn_link.specs.{Text.part_bytes, Told.told_all, Told.told_as, Told.told_commands, Told.told_part, Told.told_parts, Told.told_relay, Told.told_run, Told.told_whole};

use crate::bundle::{Carried, Part, Relay, Run};
use crate::differences::differences_in;
use crate::writing::{DIFFERENCES, part_bytes};
use arrayvec::ArrayVec;
use dn_seal::{append, ask_in, tic_at};

/// The packet at the front of bytes.
fn whole_in(bytes: &[u8]) -> Option<Carried>
    ensures { result ≡ told_whole bytes.now }
{
    if bytes.len() < 10 {
        return None;
    }
    let size = usize::from(bytes[9]);
    if size > 104 || bytes.len() < 10 + size {
        return None;
    }
    let ask = ask_in(bytes[4], tic_at(bytes, 5))?;
    let mut datagram = ArrayVec::new();
    let _ = datagram.try_extend_from_slice(&bytes[10..10 + size]);
    Some(Carried {
        start: tic_at(bytes, 0),
        ask,
        datagram,
    })
}

/// The commands of a run behind its first byte, as differences or whole.
fn commands_in(head: u8, bytes: &[u8]) -> ArrayVec<u8, 192>
    requires { head % 32 ≤ 24 }
    ensures { result.items ≡ told_commands head (head % 32) bytes.now }
{
    let count = head % 32;
    if head >= DIFFERENCES {
        return differences_in(count, bytes);
    }
    let size = bytes.len().min(8 * usize::from(count));
    let mut commands = ArrayVec::new();
    append(&mut commands, &bytes[..size]);
    commands
}

/// The run behind its first byte, whatever follows.
fn run_in(head: u8, bytes: &[u8]) -> Option<Run>
    ensures { result ≡ told_run head bytes.now }
{
    let count = head % 32;
    if count == 0 || count > 24 || bytes.len() < 4 {
        return None;
    }
    Some(Run {
        start: tic_at(bytes, 0),
        commands: commands_in(head, &bytes[4..]),
    })
}

/// The run of a third player behind its first byte, whatever follows.
fn relay_in(head: u8, bytes: &[u8]) -> Option<Relay>
    ensures { result ≡ told_relay head bytes.now }
{
    let (player, rest) = bytes.split_first()?;
    if *player > 3 {
        return None;
    }
    let run = run_in(head, rest)?;
    Some(Relay {
        player: *player,
        run,
    })
}

/// The part that the first byte tells, whatever follows.
fn part_as(bytes: &[u8]) -> Option<Part>
    ensures { result ≡ told_as bytes.now }
{
    let (head, rest) = bytes.split_first()?;
    if *head == 0 {
        return whole_in(rest).map(Part::Whole);
    }
    if head / 32 % 2 == 0 {
        return run_in(*head, rest).map(Part::Run);
    }
    relay_in(*head, rest).map(Part::Relay)
}

/// The part whose bytes these begin with.
fn part_in(bytes: &[u8]) -> Option<Part>
    ensures told { result ≡ told_part bytes.now }
    ensures room { IfSome result (λ part. length (part_bytes part) ≤ length bytes.now) }
{
    let part = part_as(bytes)?;
    if !bytes.starts_with(part_bytes(&part).as_slice()) {
        return None;
    }
    Some(part)
}

/// So many parts, and nothing after them.
fn all_in(bytes: &[u8], count: u8) -> Option<ArrayVec<Part, 24>>
    requires { count ≤ 24 }
    ensures { option_map (λ found. found.items) result ≡ told_all count bytes.now }
{
    let mut found = ArrayVec::new();
    let mut rest = bytes;
    'parts: for done in 0..count {
        let Some(part) = part_in(rest) else {
            return None;
        };
        rest = &rest[part_bytes(&part).len()..];
        found.push(part);
    }
    if !rest.is_empty() {
        return None;
    }
    Some(found)
}

/// The parts whose number stands in front.
pub(super) fn parts_in(bytes: &[u8]) -> Option<ArrayVec<Part, 24>>
    ensures { option_map (λ found. found.items) result ≡ told_parts bytes.now }
{
    let (count, rest) = bytes.split_first()?;
    if *count > 24 {
        return None;
    }
    all_in(rest, *count)
}
