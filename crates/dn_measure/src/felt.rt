//! How soon keys are felt.

ghost use Rattle.std.specs.Prelude.{◌≡◌};
ghost use Rattle.dn_measure.specs.Histogram.{felt_of, bin_of};

/// The last bin that stands for a time, in milliseconds; the one above holds all that took longer.
const LONGEST_BIN: usize = 1_000;

/// How many bins there are.
pub(crate) const BINS: usize = 1_002;

/// Within how many milliseconds some share of the commands was run, after each was built.
#[derive(Clone, Copy, Debug, PartialEq, Eq)]
pub enum Felt {
    /// None was run.
    Never,
    /// Within so many milliseconds, at most 1,000.
    Within(u16),
    /// In more than 1,000.
    Longer,
}

/// The bin of a time: its milliseconds, where a part of one counts as a whole one, and all above 1,000 in one.
pub(crate) fn bin_of(micros: u64) -> usize
    ensures { result ≡ bin_of micros }
{
    if micros > 1_000_000 {
        LONGEST_BIN + 1
    } else {
        ((micros + 999) / 1_000) as usize
    }
}

/// What a bin stands for.
pub(crate) fn felt_of(bin: Option<usize>) -> Felt
    ensures { result ≡ felt_of bin }
{
    match bin {
        None => Felt::Never,
        Some(bin) if bin <= LONGEST_BIN => Felt::Within(bin as u16),
        Some(_) => Felt::Longer,
    }
}
