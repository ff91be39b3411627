//! How a survivor gives up a player, hears a report, and takes the ends of those who are given up.

use crate::answers::{Ends, GivenUp, Reported, given_up_as, reported_by, unkept};
use crate::report::Report;
use crate::survivor::Survivor;
use dn_lockstep::Settled;
use dn_machine::{Dropped, Heard};

impl Survivor {
    ghost use Rattle.std.specs.Prelude.{◌≡◌, ◌≢◌, ◌<◌, ℕ, false, true};
    ghost use Rattle.dn_machine.specs.declared.answers.Phase.TheVariants.{Gathering};
    ghost use Rattle.dn_lockstep.specs.Steps.{Steps};
    ghost use Rattle.dn_lockstep.specs.Hearing.{HearsAny, HearsNear, Spares};
    ghost use Rattle.dn_survivor.specs.{Calls.decided_by, Calls.settled_below, Calls.settled_by, Calls.settled_with, Surviving.has_given_up, Surviving.surviving, Calls.GivesUp, Calls.refused_give_up};
    ghost use Rattle.dn_survivor.specs.{declared.answers.Ends.TheVariants.Awaited, Calls.HearsReport};
    ghost use Rattle.dn_survivor.specs.declared.answers.GivenUp.TheVariants as GivenUp;
    ghost use Rattle.dn_machine.specs.Drops as drops;
    ghost use Rattle.dn_survivor.specs.declared.answers.Reported.TheVariants as Reported;

    /// Why a player is not given up.
    fn refused_give_up(&self, player: u8) -> Option<GivenUp>
        ensures { result ≡ refused_give_up (surviving self.now) player }
    {
        if self.is_no_peer(player) {
            Some(GivenUp::NotAPlayer)
        } else if !self.is_in_game() {
            Some(GivenUp::NotPlaying)
        } else if self.has_given_up(player) {
            Some(GivenUp::Already)
        } else {
            None
        }
    }

    /// Gives up a player, for good. From here on no packet of that player is taken, nothing is sent to it, and
    /// no mark of it is compared; a lockstep that gathers waits no longer to hear it. So it may start: then its
    /// phase, which was `Gathering`, is `Playing`, and the caller begins its world, as where `receive` returns
    /// `Started`. If all reports are there, the lockstep is told the ends of all who are given up, and may
    /// refuse some. While it waits for reports, a lockstep that does not gather stays as it is.
    pub fn give_up(&mut self, player: u8) -> GivenUp
        ensures gives { GivesUp player (surviving self.old) (surviving self.new) result }
        ensures waits { result ≡ GivenUp.Waiting → (surviving self.old).lockstep.phase ≢ Gathering
            → (surviving self.new).lockstep ≡ (surviving self.old).lockstep }
    {
        if let Some(reason) = self.refused_give_up(player) {
            return reason;
        }
        self.others.give_up(player);
        let _ = self.lockstep.excuse(player);
        given_up_as(self.decide())
    }

    /// Tells the lockstep the end of a player, by what is kept of the others.
    fn settle(&mut self, player: u8) -> Settled
        requires { player < (surviving self.old).lockstep.players }
        ensures step { Steps (surviving self.old).lockstep (surviving self.new).lockstep
            (λ limits me m. settled_by limits me (surviving self.old).others player m)
            (λ settled. result ≡ settled) }
        ensures others { (surviving self.new).others ≡ (surviving self.old).others }
    {
        let (players, me) = (self.lockstep.players(), self.lockstep.me());
        let own = self.lockstep.got(player).unwrap_or(0);
        let end = self.others.end(players, me, player, own);
        let first = self.others.first(players, me, player);
        let commands = self.others.commands(players, me, player);
        self.lockstep.settle(player, end, first, commands)
    }

    /// Settles one player more, if that one is given up.
    fn settle_next(&mut self, player: u8, ends: Ends) -> Ends
        requires { player < (surviving self.old).lockstep.players }
        ensures step { Steps (surviving self.old).lockstep (surviving self.new).lockstep
            (λ limits me m. settled_with limits me (surviving self.old).others player (m, ends))
            (λ ends. result ≡ ends) }
        ensures others { (surviving self.new).others ≡ (surviving self.old).others }
        ensures decides { ends ≢ Awaited → result ≢ Awaited }
        ensures quiet { has_given_up (surviving self.old) player ≡ false → surviving self.new ≡ surviving self.old }
    {
        if !self.has_given_up(player) {
            return ends;
        }
        let settled = self.settle(player);
        ends.with(player, settled)
    }

    /// Settles all who are given up, in order of their numbers.
    fn settle_all(&mut self) -> Ends
        ensures step { Steps (surviving self.old).lockstep (surviving self.new).lockstep
            (λ limits me m. settled_below limits me (surviving self.old).others limits.players m)
            (λ ends. result ≡ ends) }
        ensures others { (surviving self.new).others ≡ (surviving self.old).others }
        ensures decides { result ≢ Awaited }
        ensures quiet { ((player : ℕ) → has_given_up (surviving self.old) player ≡ false)
            → surviving self.new ≡ surviving self.old }
    {
        let mut ends = Ends::Taken;
        for player in 0..self.lockstep.players() {
            ends = self.settle_next(player, ends);
        }
        ends
    }

    /// Settles all who are given up, if all reports are there.
    pub(crate) fn decide(&mut self) -> Ends
        ensures step { Steps (surviving self.old).lockstep (surviving self.new).lockstep
            (λ limits me m. decided_by limits me (surviving self.old).others m) (λ ends. result ≡ ends) }
        ensures others { (surviving self.new).others ≡ (surviving self.old).others }
        ensures waits { result ≡ Awaited → surviving self.new ≡ surviving self.old }
        ensures quiet { ((player : ℕ) → has_given_up (surviving self.old) player ≡ false)
            → surviving self.new ≡ surviving self.old }
    {
        let can_decide = self
            .others
            .can_decide(self.lockstep.players(), self.lockstep.me());
        if can_decide {
            self.settle_all()
        } else {
            Ends::Awaited
        }
    }

    /// Hears a datagram that came from player `from`, as `Lockstep::receive` does. Of one who is given up
    /// nothing is heard, and [`Dropped::GivenUp`] is answered.
    pub fn receive(&mut self, from: u8, bytes: &[u8]) -> Heard
        ensures any { has_given_up (surviving self.old) from ≡ false → HearsAny from bytes.now
            (surviving self.old).lockstep (surviving self.new).lockstep result }
        ensures near { has_given_up (surviving self.old) from ≡ false → HearsNear from bytes.now
            (surviving self.old).lockstep (surviving self.new).lockstep result }
        ensures barred { has_given_up (surviving self.old) from ≡ true → result ≡ Heard.Dropped drops.given_up }
        ensures dropped { Spares (surviving self.old) (surviving self.new) result }
        ensures others { (surviving self.new).others ≡ (surviving self.old).others }
    {
        if self.has_given_up(from) {
            return Heard::Dropped(Dropped::GivenUp as u8);
        }
        self.lockstep.receive(from, bytes)
    }

    /// Hears a report that came from player `from` for this one, and keeps it as the newest of that player. If
    /// all reports are there with it, the ends of all who are given up are settled; else the lockstep stays as
    /// it is. Of several reasons not to keep it the first counts: it does not play, a stranger, one who is
    /// given up, `Excluded`, `Improper`, `Stale`. While nobody is given up the lockstep stays as it is.
    #[tactic(auto, using(dn_lockstep::proofs::After::steps))]
    pub fn hear(&mut self, from: u8, report: Report) -> Reported
        ensures hears { HearsReport from report (surviving self.old) (surviving self.new) result }
        ensures waits { result ≡ Reported.Kept
            → (surviving self.new).lockstep ≡ (surviving self.old).lockstep }
        ensures quiet { ((player : ℕ) → has_given_up (surviving self.old) player ≡ false)
            → (surviving self.new).lockstep ≡ (surviving self.old).lockstep }
    {
        if !self.is_in_game() {
            return Reported::Dropped(Dropped::NotPlaying as u8);
        }
        if self.is_no_peer(from) {
            return Reported::Dropped(Dropped::Stranger as u8);
        }
        let (players, me) = (self.lockstep.players(), self.lockstep.me());
        if let Some(reason) = unkept(self.others.hear(players, me, from, report)) {
            return reason;
        }
        reported_by(self.decide())
    }
}
