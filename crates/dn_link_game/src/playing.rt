//! Playing a list of events over links: what is promised where links are used.

ghost use Rattle.std.specs.Prelude.{length, IfOk};
ghost use Rattle.dn_link_game.specs.{Applied.IsWithinTwice, Opening.{IsAdmitted, limits_of}, Promised.HavePlayed};

use crate::calls::{LinkDone, LinkEvent, LinkRefusal};
use crate::config::LinkGameConfig;
use crate::game::LinkGame;
use crate::laws::{linked_answers_are_steady, linked_game_starts, linked_games_agree};
use dn_lockstep::{NodeFault, windows_hold};
use dn_world::World;
use std::alloc::Global;

/// A game that was played, and what each event did.
#[derive(Drop)]
pub struct PlayedLinks<W> {
    /// The game that the events left.
    pub game: LinkGame<W>,
    /// The answer to each event, in order.
    pub answers: Vec<Result<LinkDone, LinkRefusal>>,
}

/// Applies all events in order, to a new game. Whatever the network does - lose, repeat, reorder, delay for a week,
/// alter, forge, misattribute - and whoever is given up, the players' games agree, as long as what a link opens was
/// sealed in this game before.
pub fn play_links<W: World>(
    alloc: Global,
    config: &LinkGameConfig,
    worlds: Vec<W>,
    events: &[LinkEvent],
) -> Result<PlayedLinks<W>, NodeFault>
    ensures admitted { IsAdmitted config.now (length worlds.items) result }
    ensures played { IfOk result (λ played. HavePlayed W.state W.physics (limits_of config.now (length worlds.items))
        config.now.settings config.now.seal events.now played.answers.items played.game) }
    ensures room { IfOk result (λ played. IsWithinTwice played.game) }
{
    windows_hold();
    linked_game_starts::<W>();
    linked_games_agree::<W>();
    linked_answers_are_steady::<W>();
    let mut game = LinkGame::new(alloc, config, worlds)?;
    let Ok(mut answers) = Vec::with_capacity(alloc, events.len()) else {
        return Err(NodeFault::Memory);
    };
    for event in events {
        answers.push_reserved(game.apply(event));
    }
    Ok(PlayedLinks { game, answers })
}
