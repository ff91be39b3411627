//! How a game of links is made.

ghost use Rattle.std.specs.Prelude.{◌≡◌, length, IfOk, []};
ghost use Rattle.dn_link_game.specs.{Applied.IsWithinTwice, Opening.{AreNew, IsAdmitted}};

use crate::config::LinkGameConfig;
use crate::game::LinkGame;
use crate::player::Player;
use dn_demo::is_limit;
use dn_lockstep::{NodeFault, WIDEST_AHEAD, is_game};
use dn_world::World;
use std::alloc::Global;

/// A player for each world, in the players' order, each with a new link. Where there are none the worlds are
/// dropped.
fn new_players<W: World>(
    alloc: Global,
    config: &LinkGameConfig,
    worlds: Vec<W>,
) -> Result<Vec<Player<W>>, NodeFault>
    ensures admitted { IsAdmitted config.now (length worlds.items) result }
    ensures opened { IfOk result (λ players. AreNew W.state W.physics config.now (length worlds.items) players.items) }
{
    if !(1..=WIDEST_AHEAD).contains(&config.ahead) {
        return Err(NodeFault::Ahead);
    }
    if !is_game(worlds.len()) {
        return Err(NodeFault::Players);
    }
    if !is_limit(config.limit) {
        return Err(NodeFault::Limit);
    }
    let count = worlds.len() as u8;
    let Ok(mut players) = Vec::with_capacity(alloc, worlds.len()) else {
        return Err(NodeFault::Memory);
    };
    for world in worlds {
        let me = players.len() as u8;
        match Player::new(alloc, config, count, me, world) {
            Ok(player) => players.push_reserved(player),
            Err(fault) => {
                prove!(fault == NodeFault::Memory);
                return Err(NodeFault::Memory);
            }
        }
    }
    Ok(players)
}

impl<W: World> LinkGame<W> {
    /// A game with a player for each world, in the players' order, in which nothing was given yet.
    pub fn new(
        alloc: Global,
        config: &LinkGameConfig,
        worlds: Vec<W>,
    ) -> Result<LinkGame<W>, NodeFault>
        ensures admitted { IsAdmitted config.now (length worlds.items) result }
        ensures opened { IfOk result (λ game. AreNew W.state W.physics config.now (length worlds.items) game.players.items) }
        ensures given { IfOk result (λ game. game.given.items ≡ []) }
        ensures twice { IfOk result IsWithinTwice }
    {
        let players = new_players(alloc, config, worlds)?;
        Ok(LinkGame {
            players,
            given: Vec::new(alloc),
        })
    }
}
