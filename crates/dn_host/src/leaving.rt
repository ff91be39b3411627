//! When a session's player leaves.

ghost use Rattle.std.specs.Prelude.{◌≡◌, option_map};
ghost use Rattle.dn_link.specs.Linking.{linked};
ghost use Rattle.dn_session.specs.Session.{meeting};
ghost use Rattle.dn_host.specs.Leaving.{end_by, is_playing, Leaves};

use crate::game::Game;
use crate::others::{have_all_left, others_end};
use crate::system::millis;
use dn_link::Link;
use dn_measure::End;
use dn_session::{Part, Progress, Session};

/// Whether its player still plays.
fn is_playing(part: &Option<Part>) -> bool
    ensures { result ≡ is_playing part.now }
{
    match part {
        Some(part) => matches!(part.progress(), Progress::Playing),
        None => false,
    }
}

/// How a game ends that is played until some time, if its player is to leave now.
fn end_by(link: Option<&Link>, until: u64, now: u64) -> Option<End>
    ensures { result ≡ end_by (option_map (λ link. linked link.now) link.entry) until now }
{
    match link {
        Some(_) if until <= now => Some(End::Left),
        Some(link) if have_all_left(link) => Some(others_end(link)),
        _ => None,
    }
}

impl Game {
    /// Its player leaves, if its seconds are over or all others have left. It is noted since when it leaves, and why,
    /// since its session does not know that.
    pub(crate) fn leave(&mut self, session: &mut Session, now: u64)
        ensures { Leaves now self.old (meeting session.old) self.new (meeting session.new) }
    {
        if self.left.is_some() {
            return;
        }
        if !is_playing(session.part()) {
            self.left = Some(now);
            return;
        }
        let Some(why) = end_by(session.link(), self.until, now) else {
            return;
        };
        session.quit(millis(now));
        self.end = Some(why);
        self.left = Some(now);
    }
}
