//! What came over the line from a peer.

ghost use Rattle.std.specs.Prelude.{◌≡◌, ◌≤◌, ◌-◌};
ghost use Rattle.dn_measure.specs.Arrivals.{loss_of};

/// How many datagrams of a peer came, and how.
#[derive(Clone, Copy, Debug, PartialEq, Eq)]
pub struct Arrivals {
    /// How many came.
    pub came: u32,
    /// How many did not, of those numbered before the newest.
    pub lost: u32,
    /// How many came after newer ones.
    pub late: u32,
    /// How many came twice.
    pub twice: u32,
    /// How many came too late to tell whether they had come before.
    pub old: u32,
}

impl Arrivals {
    /// What came since there was that much.
    pub fn since(&self, before: &Arrivals) -> Arrivals
        ensures { result ≡ record {
          came = self.now.came - before.now.came;
          lost = self.now.lost - before.now.lost;
          late = self.now.late - before.now.late;
          twice = self.now.twice - before.now.twice;
          old = self.now.old - before.now.old;
        } }
    {
        Arrivals {
            came: self.came.saturating_sub(before.came),
            lost: self.lost.saturating_sub(before.lost),
            late: self.late.saturating_sub(before.late),
            twice: self.twice.saturating_sub(before.twice),
            old: self.old.saturating_sub(before.old),
        }
    }

    /// How many of a thousand were lost, where a part of one counts as a whole one. Of none that were sent,
    /// all were.
    pub fn loss(&self) -> u64
        ensures { result ≡ loss_of self.now }
    {
        let sent = u64::from(self.came) + u64::from(self.lost);
        if sent == 0 {
            return 1_000;
        }
        (1_000 * u64::from(self.lost) + (sent - 1)) / sent
    }
}
