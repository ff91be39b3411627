//! What the players of a game have in common: a secret or none, a key and a number.

ghost use Rattle.std.specs.Prelude.{◌≡◌, replicate};
ghost use Rattle.dn_seal.specs.Hmac.{suite_byte, label};
ghost use Rattle.dn_seal.specs.{Hmac.game_key, Hmac.no_secret, declared.seal.Suite.TheVariants.Secret, declared.seal.Suite.TheVariants.Open};

use crate::appending::append;
use crate::mac::hmac;
use arrayvec::ArrayVec;

/// Whether the players of a game share a secret. The first byte of an envelope says so.
#[derive(Clone, Copy, Debug, PartialEq, Eq)]
pub enum Suite {
    /// They do, and nobody else can make a tag of the game.
    Secret,
    /// They do not. Anybody can make a tag: it finds accidents and strays, and no forger.
    Open,
}

/// The first byte of an envelope.
pub(crate) fn suite_byte(suite: Suite) -> u8
    ensures { result ≡ suite_byte suite }
{
    match suite {
        Suite::Secret => 1,
        Suite::Open => 2,
    }
}

/// The text that a key is derived of.
#[tactic(auto, unfolding(crate::specs::Hmac::label))]
pub(crate) fn label(suite: Suite) -> [u8; 19]
    ensures { result ≡ label suite }
{
    match suite {
        Suite::Secret => *b"zirmegat game key 1",
        Suite::Open => *b"zirmegat game key 2",
    }
}

/// What an open game's players share.
const NO_SECRET: [u8; 32] = [0; 32];

/// What all players of a game seal and open by: whether they share a secret, the key, which is derived of the
/// secret and of the game's number, and that number. The host picks the number for each game, sixteen bytes at
/// random, and tells it to the others as it tells them where to connect; it need not be secret. A number that
/// is used twice under one secret lets the packets of the old game into the new one.
#[derive(Clone, Copy)]
pub struct Seal {
    pub(crate) suite: Suite,
    pub(crate) key: [u8; 32],
    pub(crate) game: [u8; 16],
}

/// The key of a game.
fn game_key(suite: Suite, secret: &[u8; 32], number: &[u8; 16]) -> [u8; 32]
    ensures { result ≡ game_key suite secret.now number.now }
{
    let mut message = ArrayVec::<u8, 35>::new();
    append(&mut message, &label(suite));
    append(&mut message, number);
    hmac(secret, message.as_slice())
}

impl Seal {
    ghost use Rattle.dn_seal.specs.Sealing.{sealed_with};

    /// Of a game whose players share a secret. None of them tells it to anybody else.
    pub fn new(secret: [u8; 32], number: [u8; 16]) -> Seal
        ensures { result ≡ sealed_with Secret secret number }
    {
        Seal {
            suite: Suite::Secret,
            key: game_key(Suite::Secret, &secret, &number),
            game: number,
        }
    }

    /// Of an open game: its players share no secret, and its envelopes say so.
    pub fn without_secret(number: [u8; 16]) -> Seal
        ensures { result ≡ sealed_with Open no_secret number }
    {
        Seal {
            suite: Suite::Open,
            key: game_key(Suite::Open, &NO_SECRET, &number),
            game: number,
        }
    }

    /// Whether the players share a secret.
    pub fn suite(&self) -> Suite
        ensures { result ≡ self.now.suite }
    {
        self.suite
    }
}
