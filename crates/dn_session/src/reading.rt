//! Reading any bytes as a greeting.

ghost use Rattle.std.specs.{Prelude.◌≡◌, Prelude.◌≤◌, Prelude.length, Prelude.None, Prelude.Result};
ghost use Rattle.dn_seal.specs.Sealing.{sealing};
ghost use Rattle.dn_session.specs.{declared.greeting.GreetingFault.GreetingFault, declared.greeting.Hinted.Hinted, Reading.first_fault, Reading.hint_fault, Reading.is_greeting, Reading.IsGreetingIn, Reading.IsHintedIn};

use crate::greeting::{GreetingFault, Hinted};
use crate::hinting::{HINTED, hinted_in};
use crate::sorts::Greeting;
use crate::writing::{KIND, NAME, VERSION};
use dn_seal::Sealer;

/// Whether these bytes have the kind and the name of greetings: no datagram of a link has.
pub fn is_greeting(bytes: &[u8]) -> bool
    ensures { result ≡ is_greeting bytes.now }
{
    if bytes.len() < 10 {
        return false;
    }
    bytes[1..10] == NAME[..]
}

/// The first fault that bytes have where a greeting of this kind and size is expected. None, where only what
/// stands under the tag may be one.
#[tactic(auto, unfolding(crate::specs::Reading::first_fault))]
fn fault_in(sealer: &Sealer, what: u8, size: usize, bytes: &[u8]) -> Option<GreetingFault>
    ensures first { result ≡ first_fault (sealing sealer.now).seal what size bytes.now }
    ensures sized { result ≡ None → length bytes.now ≡ size }
{
    if bytes.len() < 29 {
        return Some(GreetingFault::Short);
    }
    if !is_greeting(bytes) {
        return Some(GreetingFault::Kind);
    }
    if bytes[11] != what {
        return Some(GreetingFault::What);
    }
    if bytes[10] != VERSION {
        return Some(GreetingFault::Version);
    }
    if bytes.len() != size {
        return Some(GreetingFault::Length);
    }
    if bytes[0] != sealer.front(KIND)[0] {
        return Some(GreetingFault::Suite);
    }
    if !sealer.is_tagged(bytes) {
        return Some(GreetingFault::Tag);
    }
    None
}

/// Reads bytes as a greeting of this sort, or returns the first fault that they have.
pub fn open<G: Greeting>(sealer: &Sealer, bytes: &[u8]) -> Result<G, GreetingFault>
    ensures opens { IsGreetingIn G.sort (sealing sealer.now).seal bytes.now result }
    ensures only { (read : Result G GreetingFault) → IsGreetingIn G.sort (sealing sealer.now).seal bytes.now read
        → result ≡ read }
{
    let (what, size) = G::what_and_size();
    match fault_in(sealer, what, size, bytes) {
        Some(fault) => Err(fault),
        None => G::told(&bytes[12..bytes.len() - 16]).ok_or(GreetingFault::Form),
    }
}

/// The first fault that bytes have where a hint is expected.
#[tactic(auto, unfolding(crate::specs::Reading::hint_fault))]
fn hint_fault(bytes: &[u8]) -> Option<GreetingFault>
    ensures first { result ≡ hint_fault bytes.now }
    ensures sized { result ≡ None → length bytes.now ≡ 29 }
{
    if bytes.len() < 29 {
        return Some(GreetingFault::Short);
    }
    if !is_greeting(bytes) {
        return Some(GreetingFault::Kind);
    }
    if bytes[11] != HINTED {
        return Some(GreetingFault::What);
    }
    if bytes.len() != 29 {
        return Some(GreetingFault::Length);
    }
    None
}

/// Reads bytes as a hint, or returns the first fault that they have.
pub fn read_hinted(bytes: &[u8]) -> Result<Hinted, GreetingFault>
    ensures reads { IsHintedIn bytes.now result }
    ensures only { (read : Result Hinted GreetingFault) → IsHintedIn bytes.now read → result ≡ read }
{
    match hint_fault(bytes) {
        Some(fault) => Err(fault),
        None => hinted_in(bytes).ok_or(GreetingFault::Form),
    }
}
