//! The tics that were run, the times between them, and how many there were a second.

ghost use Rattle.std.specs.Prelude.{◌≡◌};
ghost use Rattle.dn_measure.specs.Runs.{tenths_a_second};

/// How many tics were run, when the last, and what is kept of the times between one and the next.
#[derive(Clone, Copy, Debug)]
pub(crate) struct Runs {
    /// How many tics.
    pub(crate) count: u64,
    /// When the last was run.
    last: Option<u64>,
    /// How many of the times between were longer than a gap may be.
    pub(crate) gaps: u64,
    /// The longest of the times between.
    pub(crate) longest: u64,
}

impl Runs {
    ghost use Rattle.std.specs.Prelude.{◌≡◌, ℕ, List, [], ◌∷◌, ◌++◌};
    ghost use Rattle.dn_measure.specs.Runs.{AreRunsOf, AreWaitsOf, as_count, gaps_in, last_after, longest_of, running, times_between};

    /// None.
    pub(crate) fn new() -> Runs
        ensures { AreRunsOf [] (running result) }
    {
        Runs {
            count: 0,
            last: None,
            gaps: 0,
            longest: 0,
        }
    }

    /// There was this time from the last to now.
    fn wait(&mut self, last: u64, now: u64)
        ensures gaps { (first : ℕ) (ends : List ℕ) → last ≡ last_after first ends
            → self.old.gaps ≡ as_count (gaps_in (times_between first ends))
            → self.new.gaps ≡ as_count (gaps_in (times_between first (ends ++ now ∷ []))) }
        ensures longest { (first : ℕ) (ends : List ℕ) → last ≡ last_after first ends
            → self.old.longest ≡ longest_of (times_between first ends)
            → self.new.longest ≡ longest_of (times_between first (ends ++ now ∷ [])) }
        ensures last { self.new.last ≡ self.old.last }
        ensures count { self.new.count ≡ self.old.count }
    {
        let time = now.saturating_sub(last);
        if time > crate::verdict::GAP {
            self.gaps = self.gaps.saturating_add(1);
        }
        self.longest = self.longest.max(time);
    }

    /// The time up to now passes: from the last on, if there was one.
    #[tactic(auto, using(crate::proofs::Counting::has_first, crate::proofs::Counting::last_more, crate::proofs::Counting::has_none))]
    pub(crate) fn wait_until(&mut self, now: u64)
        ensures waits { (ends : List ℕ) → AreWaitsOf ends (running self.old)
            → AreWaitsOf (ends ++ now ∷ []) (running self.new) }
        ensures count { self.new.count ≡ self.old.count }
    {
        let last = self.last;
        self.last = Some(now);
        if let Some(last) = last {
            self.wait(last, now);
        }
    }

    /// One more tic is run now.
    pub(crate) fn add(&mut self, now: u64)
        ensures { (runs : List ℕ) → AreRunsOf runs (running self.old)
            → AreRunsOf (runs ++ now ∷ []) (running self.new) }
    {
        self.wait_until(now);
        self.count = self.count.saturating_add(1);
    }
}

/// How many tenths of a tic were run in each second, on average. A part of a tenth does not count, and of no
/// time there are none.
pub(crate) fn tenths_a_second(tics: u64, micros: u64) -> u128
    ensures { result ≡ tenths_a_second tics micros }
{
    if micros == 0 {
        return 0;
    }
    10_000_000 * u128::from(tics) / u128::from(micros)
}
