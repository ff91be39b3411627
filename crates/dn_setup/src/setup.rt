//! Settings as a packet.

ghost use Rattle.std.specs.Prelude.{◌≡◌, Result};
ghost use Rattle.dn_packet.specs.Text.{IsPacket};
ghost use Rattle.dn_setup.specs.{Settings.Settings, Settings.IsSettings, Setup.setup_packet, Setup.IsSetupReadAs, declared.setup.SetupFault.SetupFault};

use crate::settings::Settings;
use arrayvec::ArrayVec;
use dn_packet::{Packet, SETUP};
use thiserror::Error;

/// The version of the game, which set-up packets and recorded demos carry. Doom 1.9 has 109.
pub const VERSION: u8 = 111;

/// Why a packet has no settings.
#[derive(Clone, Copy, Debug, PartialEq, Eq, Error)]
pub enum SetupFault {
    /// SETUP is absent.
    #[error("not a set-up packet")]
    NotSetup,
    /// The version is not 111.
    #[error("set-up of another version")]
    Version,
    /// The ask or start byte is that of no choice.
    #[error("set-up of a game out of range")]
    Range,
}

/// The set-up packet of the settings.
pub fn to_packet(settings: &Settings) -> Packet
    ensures packet { result ≡ setup_packet settings.now }
    ensures valid { IsPacket result }
    ensures in_range { IsSettings settings.now }
{
    Packet {
        flags: SETUP,
        ask: settings.skill()
            + 16 * u8::from(settings.respawn())
            + 32 * u8::from(settings.no_monsters())
            + 64 * settings.deathmatch(),
        start: 64 * settings.episode() + settings.map(),
        player: VERSION,
        cmds: ArrayVec::new(),
    }
}

/// The settings of a set-up packet. It is refused if SETUP is absent, then for another version than 111, then
/// if its ask and start bytes are out of range (`d_net.c`, D_ArbitrateNetStart).
pub fn from_packet(packet: &Packet) -> Result<Settings, SetupFault>
    ensures reads { IsSetupReadAs packet.now result }
    ensures only { (r : Result Settings SetupFault) → IsSetupReadAs packet.now r → result ≡ r }
{
    if packet.flags & SETUP == 0 {
        return Err(SetupFault::NotSetup);
    }
    if packet.player != VERSION {
        return Err(SetupFault::Version);
    }
    let (ask, start) = (packet.ask, packet.start);
    let skill = ask % 16;
    let respawn = ask / 16 % 2 == 1;
    let no_monsters = ask / 32 % 2 == 1;
    let deathmatch = ask / 64;
    let episode = start / 64;
    let map = start % 64;
    let settings = Settings::new(skill, deathmatch, no_monsters, respawn, episode, map);
    settings.map_err(|_| SetupFault::Range)
}
