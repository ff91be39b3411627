//! HMAC-SHA-256 (RFC 2104), and comparing tags.

ghost use Rattle.std.specs.Prelude.{◌≡◌, ℕ, List, ◌↔◌, IsTrue};
ghost use Rattle.dn_seal.specs.Hmac.{HasTaken, hmac, key_block, turned};

use sha2::{Digest, Sha256};

/// How many bytes SHA-256 takes at a time.
const BLOCK: usize = 64;

/// The pad of the hasher that takes the message.
pub(crate) const INNER: u8 = 0x36;

/// The pad of the hasher that takes the other's digest.
pub(crate) const OUTER: u8 = 0x5c;

/// A key as a block.
fn key_block(key: &[u8]) -> [u8; 64]
    ensures { result ≡ key_block key.now }
{
    let mut block = [0; BLOCK];
    if key.len() > BLOCK {
        let digest = Sha256::digest(key);
        block[..32].copy_from_slice(&digest);
    } else {
        block[..key.len()].copy_from_slice(key);
    }
    block
}

/// A block with the bits of a pad turned in each byte.
fn turned(block: &[u8; 64], pad: u8) -> [u8; 64]
    ensures { result ≡ turned pad block.now }
{
    let mut out = [0; BLOCK];
    'bytes: for i in 0..BLOCK {
        out[i] = block[i] ^ pad;
    }
    out
}

/// A hasher that has taken the block of a key, with a pad.
pub(crate) fn begun(key: &[u8], pad: u8) -> Sha256
    ensures { HasTaken pad key.now result }
{
    let mut hasher = Sha256::new();
    hasher.update(turned(&key_block(key), pad));
    hasher
}

/// The code of a message under the key that two hashers were begun with.
#[tactic(auto, unfolding(crate::specs::Hmac::hmac))]
pub(crate) fn finished(mut inner: Sha256, mut outer: Sha256, message: &[u8]) -> [u8; 32]
    ensures { (key : List ℕ) → HasTaken 0x36 key inner → HasTaken 0x5c key outer
        → result ≡ hmac key message.now }
{
    inner.update(message);
    outer.update(inner.finalize());
    outer.finalize()
}

/// The code of a message under a key.
pub fn hmac(key: &[u8], message: &[u8]) -> [u8; 32]
    ensures { result ≡ hmac key.now message.now }
{
    finished(begun(key, INNER), begun(key, OUTER), message)
}

/// Whether two tags are equal. It looks at all bytes, whichever differ, so that no early exit tells where they
/// do. No proof speaks of the time that the compiled code takes.
pub(crate) fn is_same(one: &[u8; 16], other: &[u8; 16]) -> bool
    ensures { IsTrue result ↔ (one.now ≡ other.now) }
{
    let mut differing = 0;
    'bytes: for i in 0..16 {
        differing |= one[i] ^ other[i];
    }
    differing == 0
}
