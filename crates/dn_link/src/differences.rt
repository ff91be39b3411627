//! Commands of a run as differences: writing them and reading them.

ghost use Rattle.std.specs.Prelude.{◌≡◌, ◌≤◌, length, slice_index, drop, take};
ghost use Rattle.dn_link.specs.{Differences.change_bits, Differences.difference, Differences.run_differences, Differences.zeros, Told.told_command, Told.told_differences};

use arrayvec::ArrayVec;
use dn_seal::append;

/// The number whose bits tell which bytes of a command differ from those of the one before it.
fn change_bits(before: &[u8; 8], command: &[u8; 8]) -> u8
    ensures { result ≡ change_bits before.now command.now }
{
    let mut bits = 0;
    'bytes: for done in 0..8 {
        let place = 7 - done;
        bits *= 2;
        if before[place] != command[place] {
            bits += 1;
        }
    }
    bits
}

/// A command by the one before it.
fn difference(before: &[u8; 8], command: &[u8; 8]) -> ArrayVec<u8, 9>
    ensures { result.items ≡ difference before.now command.now }
{
    let mut bytes = ArrayVec::new();
    bytes.push(change_bits(before, command));
    'bytes: for place in 0..8 {
        if command[place] != before[place] {
            bytes.push(command[place]);
        }
    }
    bytes
}

/// The commands of a run, each by the one before it.
pub(crate) fn differences(commands: &[u8]) -> ArrayVec<u8, 216>
    requires { length commands.now ≤ 192 }
    ensures { result.items ≡ run_differences commands.now }
{
    let mut bytes = ArrayVec::new();
    let mut before = [0; 8];
    let mut rest = commands;
    'commands: while let Some((command, after)) = rest.split_first_chunk::<8>() {
        append(&mut bytes, difference(&before, command).as_slice());
        before = *command;
        rest = after;
    }
    bytes
}

/// The first of bytes; 0 where there is none.
fn first_of(bytes: &[u8]) -> u8
    ensures { result ≡ slice_index bytes.now 0 }
{
    match bytes.first() {
        Some(byte) => *byte,
        None => 0,
    }
}

/// What stands behind so many bytes.
fn behind(bytes: &[u8], count: usize) -> &[u8]
    ensures { result.now ≡ drop count bytes.now }
{
    &bytes[count.min(bytes.len())..]
}

/// The command that a difference tells at the front of bytes.
fn command_in(before: &[u8; 8], bytes: &[u8]) -> [u8; 8]
    ensures { result ≡ told_command before.now bytes.now }
{
    let mut command = *before;
    let mut bits = first_of(bytes);
    let mut rest = behind(bytes, 1);
    'bytes: for place in 0..8 {
        if bits % 2 != 0 {
            command[place] = first_of(rest);
            rest = behind(rest, 1);
        }
        bits /= 2;
    }
    command
}

/// So many commands that differences tell at the front of bytes.
pub(crate) fn differences_in(count: u8, bytes: &[u8]) -> ArrayVec<u8, 192>
    requires { count ≤ 24 }
    ensures { result.items ≡ told_differences count zeros bytes.now }
{
    let mut commands = ArrayVec::new();
    let mut before = [0; 8];
    let mut rest = bytes;
    'commands: for done in 0..count {
        let command = command_in(&before, rest);
        rest = behind(rest, difference(&before, &command).len());
        append(&mut commands, &command);
        before = command;
    }
    commands
}
