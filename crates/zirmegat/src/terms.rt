//! The terms of a session as plain numbers.

ghost use Rattle.std.specs.Prelude.{◌≡◌};
ghost use Rattle.zirmegat.specs.Terms.{policy_code, policy_in, policy_seconds, terms_in, terms_told};

use crate::settings::GameSettings;
use dn_session::{Policy, Terms};
use dn_setup::Settings;

/// What must be the same at all players of a game.
#[repr(C)]
#[derive(Clone, Copy, Debug, PartialEq, Eq)]
pub struct TermsFields {
    /// How many bytes the demo may have: 1,024 to 16,777,216.
    pub limit: u32,
    /// What becomes of a player who vanishes: 1 to wait, 2 to give it up, 3 to end the game.
    pub policy: u32,
    /// After how many seconds, three at least.
    pub seconds: u8,
    /// How many players the game has: 2 to 4.
    pub players: u8,
    /// How many commands a player makes ahead of its runs: 1 to 12.
    pub window: u8,
    /// How many tics a second are played: 1 to 35.
    pub rate: u8,
    /// What is played.
    pub settings: GameSettings,
    /// A digest of the engine's version and files.
    pub identity: [u8; 16],
    /// What the host's engine tells the others.
    pub own: [u8; 256],
}

/// What becomes of a player who vanishes.
fn policy_in(code: u32, seconds: u8) -> Policy
    ensures { result ≡ policy_in code seconds }
{
    match code {
        1 => Policy::Wait,
        2 => Policy::GiveUp(seconds),
        3 => Policy::End(seconds),
        _ => Policy::GiveUp(0),
    }
}

/// The number of a policy.
fn policy_code(policy: Policy) -> u32
    ensures { result ≡ policy_code policy }
{
    match policy {
        Policy::Wait => 1,
        Policy::GiveUp(_) => 2,
        Policy::End(_) => 3,
    }
}

/// Its seconds.
fn policy_seconds(policy: Policy) -> u8
    ensures { result ≡ policy_seconds policy }
{
    match policy {
        Policy::Wait => 0,
        Policy::GiveUp(seconds) | Policy::End(seconds) => seconds,
    }
}

impl TermsFields {
    /// Terms that are not known.
    pub(crate) const NONE: TermsFields = TermsFields {
        limit: 0,
        policy: 0,
        seconds: 0,
        players: 0,
        window: 0,
        rate: 0,
        settings: GameSettings::NONE,
        identity: [0; 16],
        own: [0; 256],
    };

    /// The terms with these settings.
    pub(crate) fn with(&self, settings: Settings) -> Terms
        ensures { result ≡ terms_in self.now settings }
    {
        let identity = self.identity;
        let own = self.own;
        Terms {
            players: self.players,
            extra: false,
            ahead: self.window,
            rate: self.rate,
            limit: self.limit,
            settings,
            policy: policy_in(self.policy, self.seconds),
            identity,
            own,
        }
    }

    /// The numbers of terms.
    pub(crate) fn of(terms: Option<Terms>) -> TermsFields
        ensures { result ≡ terms_told terms }
    {
        match terms {
            Some(terms) => {
                let identity = terms.identity;
                let own = terms.own;
                TermsFields {
                    limit: terms.limit,
                    policy: policy_code(terms.policy),
                    seconds: policy_seconds(terms.policy),
                    players: terms.players,
                    window: terms.ahead,
                    rate: terms.rate,
                    settings: GameSettings::of(terms.settings),
                    identity,
                    own,
                }
            }
            None => TermsFields::NONE,
        }
    }
}
