//! The fields of greetings: writing and reading them.

ghost use Rattle.std.specs.Prelude.{◌≡◌, ◌≤◌, ◌+◌, ◌==◌, if◌then◌else◌, [], ◌∷◌, drop, length, take, IfSome, Option, None, Some};
ghost use Rattle.std.specs.List.{flat_map};
ghost use Rattle.dn_session.specs.{Terms.bit, Terms.policy_bytes, Terms.settings_bytes, Terms.terms_bytes, Terms.IsTerms, Text.padding, Text.reason_bytes, Text.shown_bytes, Text.IsHolder};

use crate::greeting::{Address, Holder, Refusal, Shown};
use crate::terms::{Policy, Terms, terms_fault};
use arrayvec::ArrayVec;
use dn_seal::{append, tic_at};
use dn_setup::Settings;

/// What makes a call as long as a seating.
#[tactic(auto, unfolding(crate::specs::Text::padding))]
pub(crate) fn padding() -> [u8; 483]
    ensures { result ≡ padding }
{
    [0; 483]
}

/// A flag as a byte.
pub(crate) fn bit(flag: bool) -> u8
    ensures { result ≡ bit flag }
{
    u8::from(flag)
}

/// The bytes of the settings.
fn settings_bytes(settings: &Settings) -> [u8; 6]
    ensures { result ≡ settings_bytes settings.now }
{
    [
        settings.skill(),
        settings.deathmatch(),
        bit(settings.no_monsters()),
        bit(settings.respawn()),
        settings.episode(),
        settings.map(),
    ]
}

/// The bytes of a policy.
fn policy_bytes(policy: Policy) -> [u8; 2]
    ensures { result ≡ policy_bytes policy }
{
    match policy {
        Policy::Wait => [1, 0],
        Policy::GiveUp(seconds) => [2, seconds],
        Policy::End(seconds) => [3, seconds],
    }
}

/// The bytes of the terms.
pub(crate) fn terms_bytes(terms: &Terms) -> ArrayVec<u8, 288>
    ensures { result.items ≡ terms_bytes terms.now }
{
    let mut bytes = ArrayVec::new();
    append(
        &mut bytes,
        &[terms.players, bit(terms.extra), terms.ahead, terms.rate],
    );
    append(&mut bytes, &terms.limit.to_le_bytes());
    append(&mut bytes, &settings_bytes(&terms.settings));
    append(&mut bytes, &policy_bytes(terms.policy));
    append(&mut bytes, &terms.identity);
    append(&mut bytes, &terms.own);
    bytes
}

/// The bytes of a seat.
fn shown_bytes(seat: &Option<Shown>) -> ArrayVec<u8, 65>
    ensures { result.items ≡ shown_bytes seat.now }
{
    let mut bytes = ArrayVec::new();
    match seat {
        None => append(&mut bytes, &[0; 65]),
        Some(shown) => {
            append(&mut bytes, &[1 + bit(shown.heard)]);
            append(&mut bytes, &shown.holder.number);
            append(&mut bytes, &shown.holder.address.bytes);
            append(&mut bytes, &shown.holder.name);
        }
    }
    bytes
}

/// The bytes of three seats.
pub(crate) fn seats_bytes(seats: &[Option<Shown>; 3]) -> ArrayVec<u8, 195>
    ensures { result.items ≡ flat_map shown_bytes seats.now }
{
    let [one, two, three] = seats;
    let mut bytes = ArrayVec::new();
    append(&mut bytes, shown_bytes(one).as_slice());
    append(&mut bytes, shown_bytes(two).as_slice());
    append(&mut bytes, shown_bytes(three).as_slice());
    bytes
}

/// The bytes of a reason.
pub(crate) fn reason_bytes(refusal: Refusal) -> [u8; 2]
    ensures { result ≡ reason_bytes refusal }
{
    match refusal {
        Refusal::Cookie => [1, 0],
        Refusal::Full => [2, 0],
        Refusal::Begun => [3, 0],
        Refusal::Players(players) => [4, players],
        Refusal::Identity => [5, 0],
        Refusal::Kicked => [6, 0],
    }
}

/// The sixteen bytes from a place on.
pub(crate) fn sixteen_at(bytes: &[u8], place: usize) -> [u8; 16]
    requires { place + 16 ≤ length bytes.now }
    ensures { result ≡ take 16 (drop place bytes.now) }
{
    let mut sixteen = [0; 16];
    sixteen.copy_from_slice(&bytes[place..place + 16]);
    sixteen
}

/// The number that is named, if one is.
pub(crate) fn name_in(byte: u8) -> Option<u8>
    ensures { result ≡ (if byte == 0 then None else Some byte) }
{
    if byte == 0 { None } else { Some(byte) }
}

/// The policy that two bytes tell.
fn policy_in(kind: u8, seconds: u8) -> Policy
    ensures { (policy : Policy) → policy_bytes policy ≡ kind ∷ seconds ∷ [] → result ≡ policy }
{
    match kind {
        1 => Policy::Wait,
        2 => Policy::GiveUp(seconds),
        _ => Policy::End(seconds),
    }
}

/// The seat that these bytes are.
pub(crate) fn shown_in(bytes: &[u8]) -> Option<Shown>
    requires { 65 ≤ length bytes.now }
    ensures fits { IfSome result (λ shown. IsHolder shown.holder) }
    ensures only { (seat : Option Shown) → IfSome seat (λ shown. IsHolder shown.holder) → bytes.now ≡ shown_bytes seat
        → result ≡ seat }
{
    if bytes[0] == 0 {
        return None;
    }
    let mut address = [0; 32];
    address.copy_from_slice(&bytes[17..49]);
    Some(Shown {
        holder: Holder {
            number: sixteen_at(bytes, 1),
            address: Address { bytes: address },
            name: sixteen_at(bytes, 49),
        },
        heard: bytes[0] == 2,
    })
}

/// The reason that two bytes tell.
pub(crate) fn reason_in(reason: u8, players: u8) -> Refusal
    ensures { (why : Refusal) → reason_bytes why ≡ reason ∷ players ∷ [] → result ≡ why }
{
    match reason {
        1 => Refusal::Cookie,
        2 => Refusal::Full,
        3 => Refusal::Begun,
        4 => Refusal::Players(players),
        5 => Refusal::Identity,
        _ => Refusal::Kicked,
    }
}

/// The terms that these bytes are, if a game may have them.
pub(crate) fn terms_in(bytes: &[u8]) -> Option<Terms>
    requires { length bytes.now ≡ 288 }
    ensures fits { IfSome result IsTerms }
    ensures only { (terms : Terms) → IsTerms terms → bytes.now ≡ terms_bytes terms → result ≡ Some terms }
{
    let settings = Settings::new(
        bytes[8],
        bytes[9],
        bytes[10] == 1,
        bytes[11] == 1,
        bytes[12],
        bytes[13],
    );
    let Ok(settings) = settings else {
        return None;
    };
    let mut own = [0; 256];
    own.copy_from_slice(&bytes[32..288]);
    let terms = Terms {
        players: bytes[0],
        extra: bytes[1] == 1,
        ahead: bytes[2],
        rate: bytes[3],
        limit: tic_at(bytes, 4),
        settings,
        policy: policy_in(bytes[14], bytes[15]),
        identity: sixteen_at(bytes, 16),
        own,
    };
    match terms_fault(&terms) {
        None => Some(terms),
        Some(_) => None,
    }
}
