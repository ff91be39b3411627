//! How ticks are paced.

use super::Link;
use crate::line::{apart, lead_over, total};

impl Link {
    ghost use Rattle.std.specs.Prelude.{◌<◌, ◌≤◌, ◌+◌, ◌&&◌, nat_abs, ◌≡◌};
    ghost use Rattle.dn_link.specs.{Linking.{linked, seal_of}, Pace.{after_tick, difference, is_paced, lean, playing, differences, is_lossy, is_lossy_to, wants_second}, Pacing.pace_of};
    ghost use Rattle.dn_link.specs.Leaning.{IsLean};
    ghost use Rattle.dn_link.specs.Linking.{overdue_of};
    ghost use Rattle.dn_link.specs.Pace.{congested, is_resting, reported_by, tells_lead};
    ghost use Rattle.std.specs.Prelude.{[], ◌∷◌};

    /// Whether a player is a peer in play: it is not given up, it was heard, and neither its datagrams nor an EXIT packet
    /// told its end.
    fn is_paced(&self, player: u8) -> bool
        ensures { result ≡ is_paced (linked self.now) (pace_of self.now) player }
    {
        self.remains(player)
            && self.pace.line(player).newest.is_some()
            && self.end(player).is_none()
            && self.peer(player).left.is_none()
    }

    /// Whether it is such a one of which a datagram came lately.
    fn tells_lead(&self, player: u8) -> bool
        requires { player < 4 }
        ensures { result ≡ tells_lead (linked self.now) (pace_of self.now) player }
    {
        self.is_paced(player) && self.pace.line(player).is_fresh()
    }

    /// The difference between this player's lead and a peer's, as each saw its own at its last tick.
    fn difference(&self, player: u8) -> i32
        requires { player < 4 }
        ensures value { result ≡ difference (linked self.now) (pace_of self.now) player }
        ensures small { nat_abs result ≤ 255 }
    {
        if !self.tells_lead(player) {
            return 0;
        }
        apart(
            lead_over(self.lockstep(), player),
            self.pace.line(player).lead,
        )
    }

    /// Of all peers together.
    fn differences(&self) -> i32
        ensures value { result ≡ differences (linked self.now) (pace_of self.now) }
        ensures small { nat_abs result ≤ 1024 }
    {
        total(
            self.difference(0),
            self.difference(1),
            self.difference(2),
            self.difference(3),
        )
    }

    /// How many play: this player and its peers.
    fn playing(&self) -> u8
        ensures value { result ≡ playing (linked self.now) (pace_of self.now) }
        ensures some { 1 ≤ result }
    {
        1 + u8::from(self.is_paced(0))
            + u8::from(self.is_paced(1))
            + u8::from(self.is_paced(2))
            + u8::from(self.is_paced(3))
    }

    /// Whether datagrams are missing on the line of a peer that plays.
    fn is_lossy_to(&self, player: u8) -> bool
        requires { player < 4 }
        ensures { result ≡ is_lossy_to (linked self.now) (pace_of self.now) player }
    {
        self.is_paced(player) && self.pace.line(player).is_lossy()
    }

    /// Whether they are on some line.
    fn is_lossy(&self) -> bool
        ensures { result ≡ is_lossy (linked self.now) (pace_of self.now) }
    {
        self.is_lossy_to(0) || self.is_lossy_to(1) || self.is_lossy_to(2) || self.is_lossy_to(3)
    }

    /// Which players are peers that play.
    fn plays(&self) -> [bool; 4]
        ensures { result ≡ is_paced (linked self.now) (pace_of self.now) 0
            ∷ is_paced (linked self.now) (pace_of self.now) 1 ∷ is_paced (linked self.now) (pace_of self.now) 2
            ∷ is_paced (linked self.now) (pace_of self.now) 3 ∷ [] }
    {
        [
            self.is_paced(0),
            self.is_paced(1),
            self.is_paced(2),
            self.is_paced(3),
        ]
    }

    /// How many of this player's commands a player has for certain, by what it reported.
    fn reports(&self, player: u8) -> u32
        requires { player < 4 }
        ensures { result ≡ reported_by (linked self.now) player }
    {
        self.certain(self.peer(player).reported_of(self.me()))
    }

    /// Of each.
    fn reports_of_each(&self) -> [u32; 4]
        ensures { result ≡ reported_by (linked self.now) 0 ∷ reported_by (linked self.now) 1
            ∷ reported_by (linked self.now) 2 ∷ reported_by (linked self.now) 3 ∷ [] }
    {
        [
            self.reports(0),
            self.reports(1),
            self.reports(2),
            self.reports(3),
        ]
    }

    /// A tick, for how full the line is.
    fn time(&mut self)
        ensures pace { pace_of self.new
            ≡ record (pace_of self.old) { congestion = congested (linked self.old) (pace_of self.old) } }
        ensures link { linked self.new ≡ linked self.old }
        ensures overdue { overdue_of self.new ≡ overdue_of self.old }
        ensures seal { seal_of self.new ≡ seal_of self.old }
    {
        let made = self.made();
        let plays = self.plays();
        let reported = self.reports_of_each();
        self.pace.time(made, &plays, &reported);
    }

    /// For each tick, after the build: by how many 32nds of a tick the next tick comes later than usual;
    /// earlier where it is below 0. So players whose clocks differ come to lead each other by the same, and on
    /// a line that is longer than the window, and loses little, ticks are stretched once input was dropped for
    /// a while.
    pub fn lean(&mut self) -> i8
        ensures leans { result ≡ lean (linked self.old) (pace_of self.old) }
        ensures range { IsLean result }
        ensures pace { pace_of self.new ≡ after_tick (linked self.old) (pace_of self.old) }
        ensures link { linked self.new ≡ linked self.old }
        ensures seal { seal_of self.new ≡ seal_of self.old }
    {
        let differences = self.differences();
        let playing = self.playing();
        let lossy = self.is_lossy();
        self.look_back();
        self.time();
        self.pace
            .tick(self.survivor.lockstep(), differences, playing, lossy)
    }

    /// Whether a peer that plays reports that two or more of the last datagrams to it did not come, or came
    /// after newer ones, and the level of what goes to the peers allows one more: not in the first seconds, nor while
    /// round trips are much longer than on an empty line. Then one goes half a tick after the tick's own, in case that
    /// one is lost too.
    pub fn wants_second(&self, player: u8) -> bool
        ensures { result ≡ wants_second (linked self.now) (pace_of self.now) player }
    {
        self.is_paced(player)
            && self.pace.line(player).misses()
            && self.pace.congestion().allows_second(self.me(), player)
    }

    /// Whether no datagram goes to a player at this tick, since this player's line is full. Of four ticks in a row one is
    /// no such one.
    pub fn is_resting(&self, player: u8) -> bool
        ensures { result ≡ is_resting (linked self.now) (pace_of self.now) player }
    {
        self.pace.congestion().rests(self.me(), player)
    }
}
