//! How a game is made.

ghost use Rattle.std.specs.{Prelude.◌≡◌, Prelude.length, Prelude.map, Prelude.All, Prelude.IfOk, Vec.vec_capacity};
ghost use Rattle.dn_game.specs.Opening.{IsAdmitted, config_of, rules_in, AreLimited, EachIs, worlds_of};

use super::Game;
use crate::config::{GameConfig, GameFault};
use crate::game_node::GameNode;
use crate::pool::Pool;
use dn_demo::is_limit;
use dn_lockstep::is_game;
use dn_node::{Config, NodeFault};
use dn_world::World;
use std::alloc::Global;

impl<W: World> Game<W> {
    ghost use Rattle.dn_machine.specs.Game.{opening_game};
    ghost use Rattle.dn_game.specs.{Contents.contents, Contents.Represents, Room.room_of};

    /// A game with a node for each world, in the players' order. The worlds are given up where there is
    /// no game.
    pub fn new(alloc: Global, config: GameConfig, worlds: Vec<W>) -> Result<Game<W>, GameFault>
        ensures admitted { IsAdmitted config (length worlds.items) result }
        ensures opened { IfOk result (λ game. Represents W.state
            (rules_in W.physics config (length worlds.items)) (contents game)
            (opening_game config.settings)) }
        ensures given { IfOk result (λ game. worlds_of (contents game).nodes ≡ worlds.items) }
        ensures limits { IfOk result (λ game. AreLimited config.limit (contents game).nodes) }
        // No memory is taken for packets yet.
        ensures room { IfOk result (λ game. room_of game ≡ record { bytes = 0; records = 0 }) }
    {
        Ok(Game {
            nodes: nodes_of(alloc, config, worlds)?,
            stopped: [false; 4],
            pool: Pool::new(alloc),
        })
    }
}

/// The configuration of a player's node: player 0 has the settings.
fn config_of(config: &GameConfig, players: u8, me: u8) -> Config
    ensures { result ≡ config_of config.now players me }
{
    Config {
        players,
        me,
        extra: config.extra,
        limit: config.limit,
        settings: if me == 0 { Some(config.settings) } else { None },
    }
}

/// A node for each world, in the players' order, with no history, in a list that has room for these and no
/// more. Where there are none the worlds are dropped, and the fault is `Players` unless there are two to four
/// worlds, then `Limit` where it is out of range, and `Memory` only where nothing else is wrong.
pub fn nodes_of<W: World, N: GameNode<W>>(
    alloc: Global,
    config: GameConfig,
    worlds: Vec<W>,
) -> Result<Vec<N>, GameFault>
    ensures admitted { IsAdmitted config (length worlds.items) result }
    ensures opened { IfOk result (λ nodes. EachIs
        (N.is_fresh (rules_in W.physics config (length worlds.items)).limits config.settings) nodes.items) }
    ensures given { IfOk result (λ nodes. map N.world_of nodes.items ≡ worlds.items) }
    ensures limits { IfOk result (λ nodes. All (λ node. (N.whose node).limit ≡ config.limit) nodes.items) }
    ensures one_each { IfOk result (λ nodes. length nodes.items ≡ length worlds.items) }
    ensures room { IfOk result (λ nodes. vec_capacity nodes ≡ length worlds.items) }
{
    if !is_game(worlds.len()) {
        return Err(GameFault::Players);
    }
    if !is_limit(config.limit) {
        return Err(GameFault::Limit);
    }
    let players = worlds.len() as u8;
    let mut nodes = Vec::with_capacity(alloc, worlds.len())?;
    for world in worlds {
        let own = config_of(&config, players, nodes.len() as u8);
        match N::new(alloc, own, world) {
            Ok(node) => nodes.push_reserved(node),
            Err(fault) => {
                prove!(fault == NodeFault::Memory);
                return Err(GameFault::Memory);
            }
        }
    }
    Ok(nodes)
}
