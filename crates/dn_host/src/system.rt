//! The system that a session runs on: its clock, and its random bytes.

ghost use Rattle.std.specs.Prelude.{◌≡◌, ⊤, ℕ, List, Option};
ghost use Rattle.dn_link.specs.Hearing.{ByTest};
ghost use Rattle.dn_host.specs.Playing.{millis};

use std::random::RandomSource;
use std::thread;
use std::time::{Clock, Duration};

/// How long a nap is, in microseconds: then the socket is looked at again.
const NAP: u64 = 500;

/// A clock, random bytes and naps, as their own relations say; where it has none, nothing is said of them.
pub trait System {
    /// Its relation of a look at the clock: before, the time, if the clock can be read, after.
    ghost reads: { Self → Option ℕ → Self → Type 0 } = { λ before time after. ⊤ };

    /// Its relation of random bytes: before, the bytes, if there are any, after.
    ghost draws: { Self → Option (List ℕ) → Self → Type 0 } = { λ before bytes after. ⊤ };

    /// Its relation of a nap: before and after.
    ghost naps: { Self → Self → Type 0 } = { λ before after. ⊤ };

    /// What the clock shows, in microseconds, if it can be read.
    fn time(&mut self) -> Option<u64>
        ensures { reads self.old result self.new };

    /// Random bytes, if the system has any.
    fn draw(&mut self) -> Option<[u8; 32]>
        ensures { draws self.old result self.new };

    /// Sleeps for a nap.
    fn nap(&mut self)
        ensures { naps self.old self.new };
}

/// The system that runs the program.
#[derive(Drop)]
pub struct Os<'a, R> {
    rt: &'a R,
}

impl<'a, R> Os<'a, R> {
    /// The system of a runtime.
    pub fn new(rt: &'a R) -> Self {
        Os { rt }
    }
}

/// Nothing is said of it, since `std` promises nothing of a clock and of random bytes.
impl<R: Clock + RandomSource> System for Os<'_, R> {
    fn time(&mut self) -> Option<u64> {
        let time = self.rt.monotonic().ok()?;
        Some(u64::try_from(time.as_micros()).unwrap_or(u64::MAX))
    }

    fn draw(&mut self) -> Option<[u8; 32]> {
        let mut bytes = [0; 32];
        self.rt.fill_bytes(&mut bytes).ok()?;
        Some(bytes)
    }

    fn nap(&mut self) {
        thread::sleep(self.rt, Duration::from_micros(NAP));
    }
}

/// A nap, unless there may be more to hear.
pub(crate) fn rest<Y: System>(system: &mut Y, is_busy: bool)
    ensures { ByTest is_busy (system.new ≡ system.old) (Y.naps system.old system.new) }
{
    if !is_busy {
        system.nap();
    }
}

/// The milliseconds of a time. After 49 days it is the same time for ever.
pub(crate) fn millis(time: u64) -> u32
    ensures { result ≡ millis time }
{
    u32::try_from(time / 1000).unwrap_or(u32::MAX)
}
