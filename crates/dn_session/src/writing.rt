//! Writing greetings, and by what they are sealed.

ghost use Rattle.std.specs.Prelude.{◌≡◌, ◌≤◌, length};
ghost use Rattle.dn_seal.specs.Sealing.{sealing};
ghost use Rattle.dn_session.specs.Text.{game_seal, greeting_bytes, greeting_number, greeting_seal};

use crate::sorts::Greeting;
use arrayvec::ArrayVec;
use dn_seal::{Seal, Sealer, append};

/// The kind of what follows, which is no envelope's and no link's datagram's.
pub(crate) const KIND: u8 = 4;

/// The version of greetings.
pub(crate) const VERSION: u8 = 2;

/// What stands behind the first byte of every greeting.
pub(crate) const NAME: [u8; 9] = [KIND, 122, 105, 114, 109, 101, 103, 97, 116];

/// The bytes of a greeting, with its tag.
pub fn seal<G: Greeting>(sealer: &Sealer, greeting: &G) -> ArrayVec<u8, 581>
    ensures value { result.items ≡ greeting_bytes (sealing sealer.now).seal G.sort.what (G.sort.rest greeting.now) }
    ensures short { length result.items ≤ 581 }
{
    let (what, _) = G::what_and_size();
    let front = sealer.front(KIND);
    let mut bytes = ArrayVec::new();
    append(&mut bytes, &front[..1]);
    append(&mut bytes, &NAME);
    append(&mut bytes, &[VERSION, what]);
    append(&mut bytes, greeting.rest().as_slice());
    let tag = sealer.tag(bytes.as_slice());
    append(&mut bytes, &tag);
    bytes
}

/// The number from which the key of greetings is derived, and no game's.
#[tactic(auto, unfolding(crate::specs::Text::greeting_number))]
fn greeting_number() -> [u8; 16]
    ensures { result ≡ greeting_number }
{
    *b"zirmegat greeter"
}

/// By what a game of this number is sealed, under a secret or without one.
pub(crate) fn game_seal(secret: Option<[u8; 32]>, game: [u8; 16]) -> Seal
    ensures { result ≡ game_seal secret game }
{
    match secret {
        Some(secret) => Seal::new(secret, game),
        None => Seal::without_secret(game),
    }
}

/// What greetings are sealed by, under a secret or without one.
pub fn greeter(secret: Option<[u8; 32]>) -> Sealer
    ensures { sealing result ≡ record { seal = greeting_seal secret; me = 0 } }
{
    Sealer::of(game_seal(secret, greeting_number()), 0)
}
