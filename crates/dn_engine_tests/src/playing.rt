//! Playing a list of events at a table, from the lobby on: what is promised where sessions are used.

ghost use Rattle.std.specs.Prelude.{ℕ, List, Option, IfOk};
ghost use Rattle.dn_session.specs.declared.side.Begun.{Begun};
ghost use Rattle.dn_session.specs.Session.{meeting};
ghost use Rattle.dn_engine_tests.specs.Engines.{IsFresh};
ghost use Rattle.dn_engine_tests.specs.Tables.{AreApart, HaveAgreed, HaveBegun, IsTable};
ghost use Rattle.dn_engine_tests.specs.declared.table.Table.{Table};

use crate::engine::Engine;
use crate::steps::Event;
use crate::table::Table;
use dn_link::{leaving_is_safe, remaining_links_agree};
use dn_session::{HostConfig, JoinConfig, LobbyFault, Session};
use dn_world::World;
use std::alloc::Global;

/// Why there is no table.
#[derive(Clone, Copy, Debug, PartialEq, Eq)]
pub enum TableFault {
    /// A session is refused.
    Lobby(LobbyFault),
    /// There are not as many who join as worlds behind the first.
    Joiners,
    /// There is no memory for the engines.
    Memory,
}

/// The session of a place: the host's, or that of the next who joins, under the host's secret.
fn session_of(
    host: &HostConfig,
    joiners: &[JoinConfig],
    place: usize,
    now: u32,
) -> Result<Session, TableFault>
    ensures { IfOk result (λ session. IsFresh host.now.secret (meeting session)) }
{
    if place == 0 {
        return match Session::host(host) {
            Ok(session) => Ok(session),
            Err(fault) => Err(TableFault::Lobby(fault)),
        };
    }
    let Some(joiner) = joiners.get(place - 1) else {
        return Err(TableFault::Joiners);
    };
    let config = JoinConfig {
        secret: host.secret,
        ..*joiner
    };
    match Session::join(&config, now) {
        Ok(session) => Ok(session),
        Err(fault) => Err(TableFault::Lobby(fault)),
    }
}

/// A table at which all are in their lobbies: an engine for each world, the host's first.
pub fn open_table<W: World>(
    alloc: Global,
    host: &HostConfig,
    joiners: &[JoinConfig],
    worlds: Vec<W>,
    now: u32,
) -> Result<Table<W>, TableFault>
    ensures { IfOk result (λ table. IsTable W.state W.physics host.now.secret table) }
{
    let Ok(mut engines) = Vec::with_capacity(alloc, worlds.len()) else {
        return Err(TableFault::Memory);
    };
    for world in worlds {
        let session = session_of(host, joiners, engines.len(), now)?;
        engines.push_reserved(Engine {
            session,
            world,
            told: Vec::new(alloc),
        });
    }
    Ok(Table {
        engines,
        given: Vec::new(alloc),
    })
}

/// Once all engines of a table have begun their game, they agree.
pub fn tables_agree<W: World>()
    ensures { (secret : Option (List ℕ)) (t : Table W) → IsTable W.state W.physics secret t → AreApart t → HaveBegun t
        → (b : Begun) × HaveAgreed W.state W.physics b t }
{
    remaining_links_agree();
    leaving_is_safe();
}

/// Opens a table and applies all events in order. Whatever the network does - lose, repeat, reorder, delay,
/// misattribute - and whoever is given up or quits, the engines agree once all have begun their game.
pub fn play_table<W: World>(
    alloc: Global,
    host: &HostConfig,
    joiners: &[JoinConfig],
    worlds: Vec<W>,
    events: &[Event],
) -> Result<Table<W>, TableFault>
    ensures table { IfOk result (λ table. IsTable W.state W.physics host.now.secret table) }
    ensures agreed { IfOk result (λ table. AreApart table → HaveBegun table
        → (b : Begun) × HaveAgreed W.state W.physics b table) }
{
    tables_agree::<W>();
    let mut table = open_table(alloc, host, joiners, worlds, 0)?;
    for event in events {
        let _ = table.apply(alloc, event);
    }
    Ok(table)
}
