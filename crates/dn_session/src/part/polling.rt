//! What it does as time goes.

ghost use Rattle.std.specs.Prelude.{◌≡◌, ◌<◌, IfSome};
ghost use Rattle.dn_session.specs.Playing.{after_half, looks, owes_second, playing, view, GivesUpNow, PassesTime, PlaysOn, Polls, TicksWhen};
ghost use Rattle.dn_session.specs.{Ending.patience, Lead.due, Ticks.is_due};
ghost use Rattle.dn_session.specs.declared.ending.Progress.TheVariants as progress;

use super::{Part, gone_from};
use crate::ending::{Ending, Progress, ending_of, is_unneeded, patience, waits};
use crate::lead::{View, due};
use crate::players::{is_any_awaited, view_of};
use dn_link::Link;

/// The number of a player.
fn number_of(player: Option<usize>) -> Option<u8>
    requires { IfSome player (λ n. n < 4) }
    ensures { result ≡ player }
{
    Some(player? as u8)
}

/// Whether half a tick later a datagram is owed to a player: the tick's, where that was held, or a second one.
fn owes_second(link: &Link, player: u8) -> bool
    ensures { result ≡ owes_second link.now player }
{
    if link.owes_command() {
        !link.is_resting(player)
    } else {
        link.wants_second(player)
    }
}

impl Part {
    /// What it sees of all players.
    pub fn view(&self, now: u32) -> View
        ensures { result ≡ view now (playing self.now) }
    {
        view_of(&self.link, &self.excluders, &self.watch, now)
    }

    /// Looks who is awaited.
    pub(super) fn look(&mut self, now: u32)
        ensures { playing self.new ≡ looks now (playing self.old) }
    {
        let ran = self.link.lockstep().ran();
        let gone = gone_from(&self.link);
        let is_awaited = is_any_awaited(&self.link);
        self.watch.look(now, ran, gone, is_awaited);
    }

    /// Gives up a player, if any is to be given up.
    pub(super) fn give_up_now(&mut self, player: Option<u8>)
        ensures { GivesUpNow player (playing self.old) (playing self.new) }
    {
        if let Some(player) = player {
            let _ = self.link.give_up(player);
        }
    }

    /// Gives up whom it must.
    fn give_up_due(&mut self, now: u32)
        ensures { GivesUpNow (due (patience (playing self.old).policy) (view now (playing self.old)))
            (playing self.old) (playing self.new) }
    {
        let player = due(patience(self.policy), &self.view(now));
        self.give_up_now(number_of(player));
    }

    /// Its game ends so, or it plays on.
    fn play_on(&mut self, ending: Option<Ending>, now: u32)
        ensures { PlaysOn ending now (playing self.old) (playing self.new) }
    {
        match ending {
            Some(ending) => self.end(ending, now),
            None => self.give_up_due(now),
        }
    }

    /// As time goes while it plays.
    fn play(&mut self, now: u32)
        ensures { PassesTime progress.Playing now (playing self.old) (playing self.new) }
    {
        self.look(now);
        let ending = ending_of(self.policy, &self.view(now), &self.link);
        self.play_on(ending, now);
    }

    /// A tick of one who leaves, if one is due.
    fn tick_if_due(&mut self, now: u32)
        ensures { TicksWhen (is_due now (playing self.old).ticks) now (playing self.old) (playing self.new) }
    {
        if self.ticks.is_due(now) {
            self.ticks.resume(now);
            self.pass_tick();
        }
    }

    /// As time goes while it leaves.
    fn wait(&mut self, ending: Ending, since: u32, free: Option<u32>, now: u32)
        ensures { PassesTime (progress.Leaving ending since free) now (playing self.old) (playing self.new) }
    {
        self.look(now);
        self.tick_if_due(now);
        self.progress = waits(is_unneeded(ending, &self.link), ending, since, free, now);
    }

    /// Half a tick later the datagrams that were held are owed, or a second one to those who miss some.
    fn owe_second(&mut self, now: u32)
        ensures { playing self.new ≡ after_half now (playing self.old) }
    {
        if self.ticks.takes_half(now) {
            let [zero, one, two, three] = self.owed;
            self.owed = [
                zero || owes_second(&self.link, 0),
                one || owes_second(&self.link, 1),
                two || owes_second(&self.link, 2),
                three || owes_second(&self.link, 3),
            ];
        }
    }

    /// As time goes, by how far it is.
    fn pass(&mut self, now: u32)
        ensures { PassesTime (playing self.old).progress now (playing self.old) (playing self.new) }
    {
        match self.progress {
            Progress::Playing => self.play(now),
            Progress::Leaving {
                ending,
                since,
                free,
            } => self.wait(ending, since, free, now),
            Progress::Over(_) => {}
        }
    }

    /// What is due at this time.
    pub(crate) fn poll(&mut self, now: u32)
        ensures { Polls now (playing self.old) (playing self.new) }
    {
        self.pass(now);
        self.owe_second(now);
    }
}
