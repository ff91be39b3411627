//! Numbers of sessions and games, and cookies, which show that a caller is reached where it calls from, and how
//! old what it says is.

ghost use Rattle.std.specs.{Prelude.◌≡◌, List.concat};
ghost use Rattle.dn_seal.specs.Sealing.{sealing};
ghost use Rattle.dn_session.specs.Cookies.{cookie_of, game_label, game_of, is_good, is_recent, number_label, session_number, time_of};

use crate::fields::terms_bytes;
use crate::greeting::Address;
use crate::terms::Terms;
use arrayvec::ArrayVec;
use dn_seal::{Sealer, append, hmac};

/// For how many milliseconds a sign of life counts.
pub const FRESH_FOR: u32 = 2000;

/// What the number of a session is the code of.
#[tactic(auto, unfolding(crate::specs::Cookies::number_label))]
fn number_label() -> [u8; 15]
    ensures { result ≡ number_label }
{
    *b"zirmegat number"
}

/// The number of the session that drew these bytes.
pub(crate) fn session_number(random: &[u8; 32]) -> [u8; 16]
    ensures { result ≡ session_number random.now }
{
    let code = hmac(random, &number_label());
    let mut number = [0; 16];
    number.copy_from_slice(&code[..16]);
    number
}

/// The cookie of an address at a time, under a host's random bytes.
pub(crate) fn cookie_of(random: &[u8; 32], address: &Address, time: u32) -> [u8; 16]
    ensures { result ≡ cookie_of random.now address.now time }
{
    let time = time.to_le_bytes();
    let mut text = ArrayVec::<u8, 36>::new();
    append(&mut text, &address.bytes);
    append(&mut text, &time);
    let code = hmac(random, text.as_slice());
    let mut cookie = [0; 16];
    cookie[..4].copy_from_slice(&time);
    cookie[4..].copy_from_slice(&code[..12]);
    cookie
}

/// The time that a cookie tells.
pub(crate) fn time_of(cookie: &[u8; 16]) -> u32
    ensures { result ≡ time_of cookie.now }
{
    let mut time = [0; 4];
    time.copy_from_slice(&cookie[..4]);
    u32::from_le_bytes(time)
}

/// Whether what was said at a time is of the last two seconds.
pub(crate) fn is_recent(now: u32, time: u32) -> bool
    ensures { result ≡ is_recent now time }
{
    time <= now && now - time <= FRESH_FOR
}

/// Whether the host gave this cookie to this address, in the last two seconds.
pub(crate) fn is_good(random: &[u8; 32], from: &Address, now: u32, cookie: &[u8; 16]) -> bool
    ensures { result ≡ is_good random.now from.now now cookie.now }
{
    let time = time_of(cookie);
    *cookie == cookie_of(random, from, time) && is_recent(now, time)
}

/// What stands before all that a game's number is made of.
#[tactic(auto, unfolding(crate::specs::Cookies::game_label))]
fn game_label() -> [u8; 13]
    ensures { result ≡ game_label }
{
    *b"zirmegat game"
}

/// The bytes of a roster.
fn roster_bytes(roster: &[[u8; 16]; 3]) -> ArrayVec<u8, 48>
    ensures { result.items ≡ concat roster.now }
{
    let [one, two, three] = roster;
    let mut bytes = ArrayVec::new();
    append(&mut bytes, one);
    append(&mut bytes, two);
    append(&mut bytes, three);
    bytes
}

/// The number of the game of a host's session, of these terms, whose seats 1 to 3 are held by the sessions of
/// these numbers, under the key of greetings.
pub(crate) fn game_of(
    sealer: &Sealer,
    host: &[u8; 16],
    terms: &Terms,
    roster: &[[u8; 16]; 3],
) -> [u8; 16]
    ensures { result ≡ game_of (sealing sealer.now).seal.key host.now terms.now roster.now }
{
    let mut text = ArrayVec::<u8, 365>::new();
    append(&mut text, &game_label());
    append(&mut text, host);
    append(&mut text, terms_bytes(terms).as_slice());
    append(&mut text, roster_bytes(roster).as_slice());
    sealer.tag(text.as_slice())
}
