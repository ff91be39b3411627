//! How each tick is trimmed for clocks that differ.

ghost use Rattle.std.specs.Prelude.{◌≡◌, ◌≤◌, ◌≤ℤ◌, ◌+ℤ◌, nat_abs, pos, negsuc};
ghost use Rattle.dn_link.specs.Leaning.{carried_on, fed, leaked, trim_of, trims};

/// How far a player may be from the mean, in 32nds of a tick, so that the offset counts.
const CLOSE: u32 = 32;

/// What part of an offset is added to the trim.
const PART: i32 = 6;

/// What part of the trim leaks.
const LEAK: i32 = 32;

/// The longest trim, in 1,024ths of a tick.
const MOST: i32 = 96;

/// How many of these are a 32nd.
const WHOLE: i32 = 32;

/// A trim with a part of an offset.
fn fed(offset: i32, by: i32) -> i32
    requires { nat_abs by ≤ 96 }
    ensures value { result ≡ fed offset by }
    ensures small { nat_abs result ≤ 102 }
{
    if offset.unsigned_abs() <= CLOSE {
        by + offset / PART
    } else {
        by
    }
}

/// A trim of which a part has leaked.
fn leaked(by: i32) -> i32
    requires { nat_abs by ≤ 102 }
    ensures value { result ≡ leaked by }
    ensures small { nat_abs result ≤ 96 }
{
    (by - by / LEAK).clamp(-MOST, MOST)
}

/// How each tick is trimmed.
#[derive(Drop)]
pub(crate) struct Trim {
    /// By how much it is longer, in 1,024ths of a tick.
    by: i32,
    /// How many of these are carried on.
    carried: i32,
    ghost short: { nat_abs by ≤ 96 },
    ghost none: { pos 0 ≤ℤ carried },
    ghost less: { carried ≤ℤ pos 31 },
}

impl Trim {
    ghost use Rattle.dn_link.specs.Pacing.{trim_state};

    /// Of the usual length.
    pub(crate) fn new() -> Trim
        ensures { trim_state result ≡ record { by = pos 0; carried = pos 0 } }
    {
        Trim { by: 0, carried: 0 }
    }

    /// The player was found to be so far from the mean.
    pub(crate) fn decide(&mut self, offset: i32)
        ensures { trim_state self.new ≡ trims offset (trim_state self.old) }
    {
        self.by = leaked(fed(offset, self.by));
    }

    /// What is trimmed of this tick, with what was carried.
    fn whole(&self) -> i32
        ensures value { result ≡ self.now.carried +ℤ self.now.by }
        ensures least { negsuc 95 ≤ℤ result }
        ensures most { result ≤ℤ pos 127 }
    {
        self.carried + self.by
    }

    /// A tick, and by how many 32nds of a tick it is longer.
    pub(crate) fn tick(&mut self) -> i8
        ensures value { result ≡ trim_of (trim_state self.old) }
        ensures small { nat_abs result ≤ 3 }
        ensures next { trim_state self.new ≡ carried_on (trim_state self.old) }
    {
        let whole = self.whole();
        self.carried = whole.rem_euclid(WHOLE);
        whole.div_euclid(WHOLE) as i8
    }
}
