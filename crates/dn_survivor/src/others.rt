//! What a node keeps of the others, once players may be given up: whom it has given up, and the newest report
//! of each player. By these it decides where a player's commands end. `dn_survivor` makes these calls.
//!
//! A caller tests first, in the order of `dn_remain`'s `on_give_up` and `on_report`:
//! - before `give_up`: that the player is another of the game; that the node has settings, and has not ended;
//!   that the player is not given up yet;
//! - before `hear`: that the report is another player's of the game, and for this node; and again that the node
//!   has settings, and has not ended;
//! - before `end`, `commands` and `first`: that the player is given up, and that all reports are there
//!   (`can_decide`).

mod deciding;
mod ending;
mod hearing;
mod laws;

use crate::report::Report;
pub use hearing::Reported;
pub use laws::{calls_represent, commands_suffice, ends_agree, lies_are_undone, tests_agree};

/// What a node keeps of the others.
#[derive(Debug, Drop, PartialEq, Eq)]
pub struct Others {
    /// Whom the node has given up.
    pub gone: [bool; 4],
    /// The newest report of each player, if one came.
    pub newest: [Option<Report>; 4],
}

impl Others {
    ghost use Rattle.std.specs.Prelude.{◌≡◌, ◌<◌, true, slice_set};
    ghost use Rattle.dn_survivor.specs.OfOthers.{nothing_kept};

    /// Nobody is given up, and nothing was told.
    pub fn new() -> Others
        ensures { result ≡ nothing_kept }
    {
        Others {
            gone: [false; 4],
            newest: [None, None, None, None],
        }
    }

    /// A player is given up, for good.
    pub fn give_up(&mut self, player: u8)
        requires { player < 4 }
        ensures { self.new ≡ record self.old { gone = slice_set self.old.gone player true } }
    {
        self.gone[usize::from(player)] = true;
    }
}
