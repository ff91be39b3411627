//! What must be the same at all players of a game, and why a game may not have it.

ghost use Rattle.std.specs.Prelude.{◌≡◌, ◌&&◌, nat_le};
ghost use Rattle.dn_setup.specs.Settings.{IsSettings};
ghost use Rattle.dn_session.specs.Terms.{is_policy, terms_fault};

use dn_setup::Settings;
use thiserror::Error;

/// What becomes of a player who vanishes.
#[derive(Clone, Copy, Debug, PartialEq, Eq)]
pub enum Policy {
    /// The others wait until the one that leads gives it up; if that one vanishes, until each of them has done
    /// so.
    Wait,
    /// After so many seconds, three at least, it is given up, and the others play on.
    GiveUp(u8),
    /// After so many seconds, three at least, the game ends.
    End(u8),
}

/// What must be the same at all players of a game.
#[derive(Clone, Copy, Debug, PartialEq, Eq)]
pub struct Terms {
    /// How many players the game has: 2 to 4.
    pub players: u8,
    /// Whether packets repeat commands.
    pub extra: bool,
    /// How many commands a player makes ahead of its runs: 1 to 12.
    pub ahead: u8,
    /// How many tics a second are played: 1 to 35.
    pub rate: u8,
    /// How many bytes the demo may have: 1,024 to 16,777,216.
    pub limit: u32,
    /// What is played.
    pub settings: Settings,
    /// What becomes of a player who vanishes.
    pub policy: Policy,
    /// A digest of the engine's version, files and options, say.
    pub identity: [u8; 16],
    /// The host's own: what its engine has to tell the others, filled up with zeros.
    pub own: [u8; 256],
}

/// Why there is no host or no joiner: the first of these that is so.
#[derive(Clone, Copy, Debug, PartialEq, Eq, Error)]
pub enum LobbyFault {
    /// A game has two to four players.
    #[error("the number of players is out of range")]
    Players,
    /// A player makes one to twelve commands ahead.
    #[error("the window is out of range")]
    Ahead,
    /// One to 35 tics are played a second.
    #[error("the rate is out of range")]
    Rate,
    /// A demo has 1,024 to 16,777,216 bytes.
    #[error("the demo's limit is out of range")]
    Limit,
    /// Nobody is given up, and no game ends, for a silence of less than three seconds.
    #[error("the policy has too few seconds")]
    Policy,
    /// A joiner wants a seat from 1 to 3.
    #[error("there is no such seat")]
    Seat,
}

/// Whether a number is in a range.
pub(crate) fn is_within(least: u32, most: u32, number: u32) -> bool
    ensures { result ≡ (nat_le least number && nat_le number most) }
{
    least <= number && number <= most
}

/// Whether a game may have this policy.
fn is_policy(policy: Policy) -> bool
    ensures { result ≡ is_policy policy }
{
    match policy {
        Policy::Wait => true,
        Policy::GiveUp(seconds) | Policy::End(seconds) => 3 <= seconds,
    }
}

/// Settings are always in range.
pub(crate) fn settings_fit(settings: &Settings)
    ensures { IsSettings settings.now }
{
    let _ = settings.start();
}

/// The first of the terms that no game may have.
pub(crate) fn terms_fault(terms: &Terms) -> Option<LobbyFault>
    ensures { result ≡ terms_fault terms.now }
{
    if !is_within(2, 4, u32::from(terms.players)) {
        return Some(LobbyFault::Players);
    }
    if !is_within(1, 12, u32::from(terms.ahead)) {
        return Some(LobbyFault::Ahead);
    }
    if !is_within(1, 35, u32::from(terms.rate)) {
        return Some(LobbyFault::Rate);
    }
    if !is_within(1024, 16_777_216, terms.limit) {
        return Some(LobbyFault::Limit);
    }
    if !is_policy(terms.policy) {
        return Some(LobbyFault::Policy);
    }
    None
}
