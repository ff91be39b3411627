//! How its game ends.

ghost use Rattle.std.specs.Prelude.{◌≡◌, ◌&&◌, if◌then◌else◌, None, Some, is_some};
ghost use Rattle.dn_session.specs.Playing.{LeavesGame, given_up_at, is_giving, playing, view, EndsNow, GivesUpBy, GivesUpNow, QuitsBy};
ghost use Rattle.dn_session.specs.Ending.{may_give_up};

use super::Part;
use super::giving::is_giving;
use crate::ending::{Ending, ended_by, may_give_up};
use dn_link::Link;

/// Its player leaves the game, as far as it has not ended.
fn leave(link: &mut Link)
    ensures { LeavesGame link.old link.new }
{
    let _ = link.quit();
}

impl Part {
    /// The game ends for it.
    pub(super) fn end(&mut self, ending: Ending, now: u32)
        ensures { EndsNow (Some ending) now (playing self.old) (playing self.new) }
    {
        leave(&mut self.link);
        self.progress = ended_by(ending, now);
    }

    /// Its player leaves, if it plays.
    pub(crate) fn quit(&mut self, now: u32)
        ensures { QuitsBy now (playing self.old) (playing self.new) }
    {
        if is_giving(self.progress) {
            self.end(Ending::Left, now);
        }
    }

    /// Whether its player may give up another, as it last looked.
    fn may_give_up(&self, player: u8, now: u32) -> bool
        ensures { result ≡ (is_giving (playing self.now).progress && may_give_up (view now (playing self.now)) player) }
    {
        is_giving(self.progress) && may_give_up(&self.view(now), player)
    }

    /// Its player gives up another, if it may.
    fn give_up_if(&mut self, may: bool, player: u8)
        ensures { GivesUpNow (if may then Some player else None) (playing self.old) (playing self.new) }
    {
        if may {
            self.give_up_now(Some(player));
        }
    }

    /// It looks, and its player gives up another, if it may. Whether it may.
    pub(crate) fn give_up(&mut self, player: u8, now: u32) -> bool
        ensures gives { GivesUpBy now player (playing self.old) (playing self.new) }
        ensures is { result ≡ is_some (given_up_at now player (playing self.old)) }
    {
        self.look(now);
        let may = self.may_give_up(player, now);
        self.give_up_if(may, player);
        may
    }
}
