//! How ticks are stretched on a line that is longer than the window.

ghost use Rattle.std.specs.Prelude.{◌≡◌, ◌≤◌, pos, nat_abs};
ghost use Rattle.dn_link.specs.Leaning.{drops, ends_block, stretches};

/// How many ticks a block has.
const BLOCK: u8 = 16;

/// With more drops in a block than these the game is taken to have stood still.
const STANDSTILL: u8 = 12;

/// How many blocks in a row stretch the ticks.
const BLOCKS: u8 = 4;

/// By how many 32nds a tick is longer at most.
const SLOWEST: u8 = 32;

/// How ticks are stretched.
#[derive(Drop)]
pub(crate) struct Stretching {
    /// The ticks of this block so far.
    ticks: u8,
    /// How many inputs were dropped in it.
    dropped: u8,
    /// How many blocks in a row had a dropped one.
    blocks: u8,
    /// By how many 32nds each tick is longer.
    slow: u8,
    ghost early: { ticks ≤ 15 },
    ghost row: { blocks ≤ 4 },
    ghost slower: { slow ≤ 32 },
}

impl Stretching {
    ghost use Rattle.dn_link.specs.Pacing.{stretching_of};

    /// Of the usual length.
    pub(crate) fn new() -> Stretching
        ensures { stretching_of result ≡ record { ticks = 0; dropped = 0; blocks = 0; slow = 0 } }
    {
        Stretching {
            ticks: 0,
            dropped: 0,
            blocks: 0,
            slow: 0,
        }
    }

    /// An input was dropped.
    pub(crate) fn drop_input(&mut self)
        ensures { stretching_of self.new ≡ drops (stretching_of self.old) }
    {
        self.dropped = self.dropped.saturating_add(1);
    }

    /// Ends a block, in which so many drops count.
    fn end_block(&mut self, dropped: u8)
        requires { dropped ≤ 12 }
        ensures { stretching_of self.new ≡ ends_block dropped (stretching_of self.old) }
    {
        self.ticks = 0;
        self.dropped = 0;
        self.blocks = if dropped == 0 {
            0
        } else {
            (self.blocks + 1).min(BLOCKS)
        };
        if self.blocks == BLOCKS {
            self.slow = (self.slow + 2 * dropped).min(SLOWEST);
        } else if dropped == 0 {
            self.slow = self.slow.saturating_sub(1);
        }
    }

    /// A tick, and by how many 32nds of a tick the next comes later.
    pub(crate) fn tick(&mut self, missing: bool) -> i8
        ensures next { stretching_of self.new ≡ stretches missing (stretching_of self.old) }
        ensures slow { result ≡ pos (stretching_of self.new).slow }
        ensures small { nat_abs result ≤ 32 }
    {
        if self.ticks < BLOCK - 1 {
            self.ticks += 1;
            return self.slow as i8;
        }
        let dropped = if missing || self.dropped > STANDSTILL {
            0
        } else {
            self.dropped
        };
        self.end_block(dropped);
        self.slow as i8
    }
}
