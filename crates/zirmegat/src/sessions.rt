//! Making sessions.

ghost use Rattle.std.specs.Prelude.{◌≡◌, ◌≢◌, None};
ghost use Rattle.dn_session.specs.Session.{IsHostSession, IsJoinSession};
ghost use Rattle.zirmegat.specs.Calls.{held_at, IsKept};
ghost use Rattle.zirmegat.specs.Configs.{host_in, join_in, IsHost, IsHostWith, IsJoin, IsJoinWith, IsSetAs, OpensHost, OpensJoin};
ghost use Rattle.zirmegat.specs.declared.held.Held.TheVariants as kind;

use crate::configs::{HOST_SIZE, HostFields, JOIN_SIZE, JoinFields, is_zero};
use crate::fault::Fault;
use crate::held::Held;
use crate::keep::{keep, refuse};
use crate::slot::Slot;
use dn_session::{LobbyFault, Session};
use dn_setup::{Settings, SettingsFault};
use std::alloc::Global;

/// Whether the key, where one is needed, or the random bytes were never set.
fn unset(keyless: u8, key: &[u8; 32], random: &[u8; 32]) -> Option<Fault>
    ensures { IsSetAs keyless key.now random.now result }
{
    if keyless == 0 && is_zero(key) {
        return Some(Fault::Key);
    }
    if is_zero(random) {
        return Some(Fault::Random);
    }
    None
}

/// The session of a host of these settings.
fn host_of(config: &HostFields, settings: Settings) -> Result<Session, LobbyFault>
    ensures { IsHostSession (host_in config.now settings) result }
{
    Session::host(&config.with(settings))
}

/// The same, where key and random bytes are set, and the settings are checked.
fn host_with(
    config: &HostFields,
    settings: Result<Settings, SettingsFault>,
) -> Result<Session, Fault>
    ensures { IsHostWith config.now settings result }
{
    match settings {
        Ok(settings) => match host_of(config, settings) {
            Ok(session) => Ok(session),
            Err(fault) => Err(Fault::Lobby(fault)),
        },
        Err(fault) => Err(Fault::Settings(fault)),
    }
}

/// The session of a host.
fn host(config: &HostFields) -> Result<Session, Fault>
    ensures { IsHost config.now result }
{
    if let Some(fault) = unset(config.keyless, &config.key, &config.random) {
        return Err(fault);
    }
    host_with(config, config.settings())
}

/// The session of one who joins, by the configuration alone.
fn join_of(config: &JoinFields, now: u32) -> Result<Session, LobbyFault>
    ensures { IsJoinSession (join_in config.now) now result }
{
    Session::join(&config.config(), now)
}

/// The same, where key and random bytes are set.
fn join_with(config: &JoinFields, now: u32) -> Result<Session, Fault>
    ensures { IsJoinWith config.now now result }
{
    match join_of(config, now) {
        Ok(session) => Ok(session),
        Err(fault) => Err(Fault::Lobby(fault)),
    }
}

/// The session of one who joins.
fn join(config: &JoinFields, now: u32) -> Result<Session, Fault>
    ensures { IsJoin config.now now result }
{
    if let Some(fault) = unset(config.keyless, &config.key, &config.random) {
        return Err(fault);
    }
    join_with(config, now)
}

/// Hands a session to C, or writes null.
fn keep_session(alloc: Global, out: &mut Slot, made: Result<Session, Fault>) -> u32
    ensures { IsKept kind.Session made result (held_at out.new) }
{
    match made {
        Ok(session) => keep(alloc, out, Held::Session(session)),
        Err(fault) => refuse(out, fault),
    }
}

/// Makes the session of a host. Returns 0, or the first fault.
#[unsafe(no_mangle)]
pub extern "C" fn zmg_session_host(alloc: Global, out: &mut Slot, config: &HostFields) -> u32
    ensures opens { config.now.size ≡ 384 → OpensHost config.now result (held_at out.new) }
    ensures size { config.now.size ≢ 384 → (result ≡ 2) × (held_at out.new ≡ None) }
{
    if config.size != HOST_SIZE {
        return refuse(out, Fault::Size);
    }
    keep_session(alloc, out, host(config))
}

/// Makes the session of one who joins and calls from this time on. Returns 0, or the first fault.
#[unsafe(no_mangle)]
pub extern "C" fn zmg_session_join(
    alloc: Global,
    out: &mut Slot,
    config: &JoinFields,
    now: u32,
) -> u32
    ensures opens { config.now.size ≡ 144 → OpensJoin config.now now result (held_at out.new) }
    ensures size { config.now.size ≢ 144 → (result ≡ 2) × (held_at out.new ≡ None) }
{
    if config.size != JOIN_SIZE {
        return refuse(out, Fault::Size);
    }
    keep_session(alloc, out, join(config, now))
}
