//! Hints to those whose calls cannot be read.

ghost use Rattle.std.specs.Prelude.{◌≡◌, ◌≢◌, ◌≤◌, length, MatchOption};
ghost use Rattle.dn_session.specs.{declared.greeting.Hinted.Hinted, Text.hint_byte, Text.hinted_bytes, Text.version_of, Text.IsHinted};

use crate::fields::sixteen_at;
use crate::greeting::{Hint, Hinted};
use crate::writing::{NAME, VERSION};
use arrayvec::ArrayVec;
use dn_seal::append;

/// A hint.
pub(crate) const HINTED: u8 = 4;

/// A hint as a byte, and the version of its host.
fn byte_and_version(hint: Hint) -> (u8, u8)
    ensures { result ≡ (hint_byte hint, version_of hint) }
{
    match hint {
        Hint::Key => (1, VERSION),
        Hint::Version(version) => (2, version),
    }
}

/// The bytes of a hint.
pub fn hinted_bytes(hinted: &Hinted) -> ArrayVec<u8, 581>
    ensures { result.items ≡ hinted_bytes hinted.now }
{
    let (byte, version) = byte_and_version(hinted.hint);
    let mut bytes = ArrayVec::new();
    append(&mut bytes, &[0]);
    append(&mut bytes, &NAME);
    append(&mut bytes, &[version, HINTED]);
    append(&mut bytes, &hinted.number);
    append(&mut bytes, &[byte]);
    bytes
}

/// The hint that these bytes may be.
fn told_hinted(bytes: &[u8]) -> Hinted
    requires { 29 ≤ length bytes.now }
    ensures { (hinted : Hinted) → IsHinted hinted → bytes.now ≡ hinted_bytes hinted → result ≡ hinted }
{
    let number = sixteen_at(bytes, 12);
    let hint = match bytes[28] {
        1 => Hint::Key,
        _ => Hint::Version(bytes[10]),
    };
    Hinted { number, hint }
}

/// The hint that these bytes are, if they are one.
pub(crate) fn hinted_in(bytes: &[u8]) -> Option<Hinted>
    requires { 29 ≤ length bytes.now }
    ensures { MatchOption result ((hinted : Hinted) → IsHinted hinted → bytes.now ≢ hinted_bytes hinted)
        (λ hinted. IsHinted hinted × (bytes.now ≡ hinted_bytes hinted)) }
{
    let told = told_hinted(bytes);
    if *bytes == *hinted_bytes(&told).as_slice() {
        return Some(told);
    }
    None
}
