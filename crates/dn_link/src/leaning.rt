//! How a player leans towards the mean of all.

ghost use Rattle.std.specs.Prelude.{◌≡◌, ◌≤◌, ◌<◌, ◌+◌, ◌*◌, ◌+ℤ◌, ℤ, pos, nat_abs};
ghost use Rattle.dn_link.specs.Leaning.{decided, looks, step_of, worked_off, worth};
ghost use Rattle.dn_link.specs.Leaning.{offset_of, rest_for, work_of};

use crate::trimming::Trim;

/// At how many ticks a player looks before it leans, and for how many it then looks away.
const LOOKS: u8 = 16;

/// How far a player may be from the mean, in 32nds of a tick, without leaning.
const IDLE: u32 = 4;

/// How much is worked off at most, in 32nds of a tick.
const MOST: i32 = 64;

/// How much is worked off at a tick, and of what is more than a tick this part besides.
const STEP: u32 = 2;

const TICK: u32 = 32;

const PART: u32 = 8;

/// How far this player is from the mean of so many, with this sum of differences.
fn offset_of(sum: i32, players: u8) -> i32
    requires { 1 ≤ players }
    ensures { result ≡ offset_of sum players }
{
    sum / i32::from(players)
}

/// What is worth to be worked off.
fn worth(offset: i32) -> i32
    ensures value { result ≡ worth offset }
    ensures small { nat_abs result ≤ 64 }
{
    if offset.unsigned_abs() <= IDLE {
        0
    } else {
        offset.clamp(-MOST, MOST)
    }
}

/// For how many ticks a player looks away that has so much to work off.
fn rest_for(left: i32) -> u8
    ensures { result ≡ rest_for left }
{
    if left == 0 { 0 } else { LOOKS }
}

/// What a tick works off of so much.
fn work(left: i32) -> i32
    requires { nat_abs left ≤ 64 }
    ensures value { result ≡ work_of left }
    ensures small { nat_abs result ≤ 6 }
{
    let most = (STEP + left.unsigned_abs().saturating_sub(TICK) / PART) as i32;
    left.clamp(-most, most)
}

/// Two parts of a step.
fn together(work: i32, trim: i8) -> i8
    requires work { nat_abs work ≤ 6 }
    requires trim { nat_abs trim ≤ 3 }
    ensures value { result ≡ work +ℤ trim }
    ensures small { nat_abs result ≤ 9 }
{
    work as i8 + trim
}

/// How a player leans.
#[derive(Drop)]
pub(crate) struct Leaning {
    /// For how many ticks it looks away.
    rest: u8,
    /// At how many it has looked.
    looked: u8,
    /// The sum of what it saw there.
    sum: i32,
    /// How much is left to work off.
    left: i32,
    trim: Trim,
    ghost looking: { looked < 16 },
    ghost summed: { nat_abs sum ≤ looked * 1024 },
    ghost leaning: { nat_abs left ≤ 64 },
}

impl Leaning {
    ghost use Rattle.dn_link.specs.Pacing.{leaning_of};

    /// Upright.
    pub(crate) fn new() -> Leaning
        ensures { leaning_of result ≡ record {
          rest = 0;
          looked = 0;
          sum = pos 0;
          left = pos 0;
          trim = record { by = pos 0; carried = pos 0 };
        } }
    {
        Leaning {
            rest: 0,
            looked: 0,
            sum: 0,
            left: 0,
            trim: Trim::new(),
        }
    }

    /// Sixteen ticks were looked at, and this is how far the player is from the mean.
    fn decide(&mut self, offset: i32)
        ensures { leaning_of self.new ≡ decided offset (leaning_of self.old) }
    {
        self.trim.decide(offset);
        self.left = worth(offset);
        self.rest = rest_for(self.left);
        self.looked = 0;
        self.sum = 0;
    }

    /// The sum with one tick more.
    fn sum_with(&self, difference: i32) -> i32
        requires { nat_abs difference ≤ 1024 }
        ensures value { result ≡ self.now.sum +ℤ difference }
        ensures small { nat_abs result ≤ self.now.looked * 1024 + 1024 }
    {
        self.sum + difference
    }

    /// A tick, at which the leads differ by so much in all.
    fn look(&mut self, difference: i32, players: u8)
        requires few { 1 ≤ players }
        requires small { nat_abs difference ≤ 1024 }
        ensures { leaning_of self.new ≡ looks difference players (leaning_of self.old) }
    {
        if self.rest > 0 {
            self.rest -= 1;
            return;
        }
        let sum = self.sum_with(difference);
        if self.looked == LOOKS - 1 {
            self.decide(offset_of(sum, players));
            return;
        }
        self.looked += 1;
        self.sum = sum;
    }

    /// Works off a step, and answers how long it is.
    fn step(&mut self) -> i8
        ensures value { result ≡ step_of (leaning_of self.old) }
        ensures small { nat_abs result ≤ 9 }
        ensures next { leaning_of self.new ≡ worked_off (leaning_of self.old) }
    {
        let work = work(self.left);
        self.left -= work;
        together(work, self.trim.tick())
    }

    /// A tick, and by how many 32nds of a tick the next comes later.
    pub(crate) fn tick(&mut self, difference: i32, players: u8) -> i8
        requires few { 1 ≤ players }
        requires small { nat_abs difference ≤ 1024 }
        ensures leans { result ≡ step_of (looks difference players (leaning_of self.old)) }
        ensures small { nat_abs result ≤ 9 }
        ensures next { leaning_of self.new ≡ worked_off (looks difference players (leaning_of self.old)) }
    {
        self.look(difference, players);
        self.step()
    }
}
