//! What a session is made of, as plain numbers.

ghost use Rattle.std.specs.Prelude.{◌≡◌, ◌↔◌, IsTrue};
ghost use Rattle.dn_setup.specs.Settings.{IsCheckedAs};
ghost use Rattle.dn_seal.specs.Hmac.{no_secret};
ghost use Rattle.zirmegat.specs.Choice.{choice_in};
ghost use Rattle.zirmegat.specs.Configs.{host_in, join_in, number_in, secret_in};

use crate::terms::TermsFields;
use dn_session::{Address, HostConfig, JoinConfig};
use dn_setup::{Settings, SettingsFault};

/// Of what the session of a host is made.
#[repr(C)]
#[derive(Clone, Copy, Debug, PartialEq, Eq)]
pub struct HostFields {
    /// How many bytes this has, as the caller knows it.
    pub size: usize,
    /// The terms of its game.
    pub terms: TermsFields,
    /// What those share who may join.
    pub key: [u8; 32],
    /// Random bytes, drawn for this session.
    pub random: [u8; 32],
    /// What its player is called.
    pub name: [u8; 16],
    /// Whether anybody may join: then the key is not read.
    pub keyless: u8,
}

/// How many bytes `HostFields` has.
pub(crate) const HOST_SIZE: usize = 384;

/// Of what the session of one who joins is made.
#[repr(C)]
#[derive(Clone, Copy, Debug, PartialEq, Eq)]
pub struct JoinFields {
    /// How many bytes this has, as the caller knows it.
    pub size: usize,
    /// What those share who may join.
    pub key: [u8; 32],
    /// Random bytes, drawn for this session.
    pub random: [u8; 32],
    /// Where the host is.
    pub host: [u8; 32],
    /// A digest of the engine's version and files.
    pub identity: [u8; 16],
    /// What its player is called.
    pub name: [u8; 16],
    /// Whether the host's game is one that anybody may join: then the key is not read.
    pub keyless: u8,
    /// The seat that it wants, 1 to 3, or 0 for any.
    pub seat: u8,
    /// How many players the game must have, or 0 for any number.
    pub players: u8,
}

/// How many bytes `JoinFields` has.
pub(crate) const JOIN_SIZE: usize = 144;

/// Whether these bytes were never set.
pub(crate) fn is_zero(bytes: &[u8; 32]) -> bool
    ensures { IsTrue result ↔ (bytes.now ≡ no_secret) }
{
    *bytes == [0; 32]
}

/// The key, where one is needed.
fn secret_in(keyless: u8, key: &[u8; 32]) -> Option<[u8; 32]>
    ensures { result ≡ secret_in keyless key.now }
{
    if keyless == 0 { Some(*key) } else { None }
}

/// A number, where 0 is for none.
fn number_in(number: u8) -> Option<u8>
    ensures { result ≡ number_in number }
{
    if number == 0 { None } else { Some(number) }
}

impl HostFields {
    /// The settings of its game, or the first that is out of range.
    pub(crate) fn settings(&self) -> Result<Settings, SettingsFault>
        ensures { IsCheckedAs (choice_in self.now.terms.settings) result }
    {
        self.terms.settings.checked()
    }

    /// Of what a host of these settings is made.
    pub(crate) fn with(&self, settings: Settings) -> HostConfig
        ensures { result ≡ host_in self.now settings }
    {
        let random = self.random;
        let name = self.name;
        HostConfig {
            secret: secret_in(self.keyless, &self.key),
            random,
            name,
            terms: self.terms.with(settings),
        }
    }
}

impl JoinFields {
    /// Of what one who joins is made.
    pub(crate) fn config(&self) -> JoinConfig
        ensures { result ≡ join_in self.now }
    {
        let random = self.random;
        let bytes = self.host;
        let identity = self.identity;
        let name = self.name;
        JoinConfig {
            secret: secret_in(self.keyless, &self.key),
            random,
            host: Address { bytes },
            seat: number_in(self.seat),
            players: number_in(self.players),
            identity,
            name,
        }
    }
}
