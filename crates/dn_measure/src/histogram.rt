//! How many samples fell into each of a number of bins.

ghost use Rattle.std.specs.Prelude.{◌≡◌, ◌+◌, ◌-◌, ◌*◌, ◌^◌, ◌<◌, ◌≤◌, ℕ, List, [], ◌∷◌, ◌++◌, length, min, sum, take, MatchOption};
ghost use Rattle.dn_measure.specs.Histogram.{AreCountsOf, at_most, IsPercentile};

use std::marker::Model;

/// How many samples fell into each bin. A contract sees the counts, in the order of the bins. A count stops at
/// the largest number of 32 bits.
#[derive(Debug, Drop)]
pub(crate) struct Histogram<const BINS: usize> {
    counts: [u32; BINS],
}

impl<const BINS: usize> Model for Histogram<BINS> {
    ghost Value = { List ℕ };

    ghost view = { λ h. h.counts };

    ghost invariant = { λ h. (0 < BINS) × (BINS < 2 ^ 16) × (length h.counts ≡ BINS) };
}

impl<const BINS: usize> Histogram<BINS> {
    /// That of no sample.
    pub(crate) fn new() -> Histogram<BINS>
        requires some { 0 < BINS }
        requires small { BINS < 2 ^ 16 }
        ensures { AreCountsOf BINS [] result }
    {
        Histogram { counts: [0; BINS] }
    }

    /// One more sample, which the last bin takes if it has no bin of its own.
    pub(crate) fn add(&mut self, bin: usize)
        ensures { (samples : List ℕ) → AreCountsOf BINS samples self.old
            → AreCountsOf BINS (samples ++ min bin (BINS - 1) ∷ []) self.new }
    {
        let Histogram { counts } = self;
        let place = bin.min(BINS - 1);
        counts[place] = counts[place].saturating_add(1);
    }

    /// How many samples there are.
    fn total(&self) -> u64
        ensures total { result ≡ sum self.now }
        ensures bound { result < 2 ^ 48 }
    {
        let mut total = 0;
        for count in &self.counts {
            total += u64::from(*count);
        }
        total
    }

    /// The least bin in or below which at least a hundredth of so many samples lie.
    fn least(&self, wanted: u64) -> usize
        requires { wanted ≤ 100 * sum self.now }
        ensures bin { result < length self.now }
        ensures reached { wanted ≤ 100 * at_most self.now result }
        ensures least { (below : ℕ) → below < result → 100 * at_most self.now below < wanted }
    {
        let mut found = 0;
        for (bin, count) in self.counts.iter().enumerate() {
            found += u64::from(*count);
            if wanted <= 100 * found {
                return bin;
            }
        }
        BINS - 1
    }

    /// The least bin in or below which at least this many of a hundred of all samples lie; None if there are
    /// no samples.
    pub(crate) fn percentile(&self, share: u8) -> Option<usize>
        requires { share ≤ 100 }
        ensures { MatchOption result (sum self.now ≡ 0)
            (λ bin. (0 < sum self.now) × IsPercentile share self.now bin) }
    {
        let total = self.total();
        if total == 0 {
            return None;
        }
        Some(self.least(u64::from(share) * total))
    }
}
