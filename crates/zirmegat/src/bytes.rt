//! Bytes for the caller's room.

ghost use Rattle.std.specs.Prelude.{◌≤◌, length, take, drop};
ghost use Rattle.dn_packet.specs.Written.{IsWritten};
ghost use Rattle.zirmegat.specs.Calls.{IsPut};

use arrayvec::ArrayVec;

/// Writes these bytes to the front of the room, and answers how many there are.
pub(crate) fn write(bytes: &[u8], out: &mut [u8]) -> usize
    requires { length bytes.now ≤ length out.old }
    ensures { IsWritten bytes.now out.old out.new result }
{
    let count = bytes.len();
    out[..count].copy_from_slice(bytes);
    count
}

/// Writes the bytes from this one on, as many as there is room for, and answers how many.
pub(crate) fn write_from(bytes: &[u8], from: usize, out: &mut [u8]) -> usize
    ensures { IsWritten (take (length out.old) (drop from bytes.now)) out.old out.new result }
{
    let rest = &bytes[from.min(bytes.len())..];
    write(&rest[..rest.len().min(out.len())], out)
}

/// Writes these bytes to the front of the room, and answers how many there are, and 0 where there are none.
pub(crate) fn put<const N: usize>(bytes: Option<ArrayVec<u8, N>>, out: &mut [u8]) -> usize
    requires { N ≤ length out.old }
    ensures { IsPut bytes.entry out.old out.new result }
{
    match bytes {
        Some(bytes) => write(bytes.as_slice(), out),
        None => 0,
    }
}
