//! Games of links: each player has a link, and a world that is stepped by the rows that the link tells. Any
//! bytes may come to any player.
#![tactic(auto)]

mod calls;
mod config;
mod game;
mod laws;
mod opening;
mod player;
mod playing;

pub use calls::{LinkCall, LinkDone, LinkEvent, LinkRefusal, Sending};
pub use config::LinkGameConfig;
pub use game::LinkGame;
pub use laws::{linked_answers_are_steady, linked_game_starts, linked_games_agree};
pub use player::Player;
pub use playing::{PlayedLinks, play_links};
