//! Demos that come as input: read whole, or played as they come.

ghost use Rattle.std.specs.Prelude.{IfOk, IfErr, ◌≡◌, ℕ, ◌+◌, List, Ok, Err};
ghost use Rattle.dn_demo.specs.Feeding.{fault_of, Summarizes};
ghost use Rattle.dn_netgame.specs.DemoShown.{IsFaultLine, IsDemoInput, IsDemoRefused, demo_limit};
ghost use Rattle.dn_world.specs.Plane.{walking};
ghost use Rattle.dn_demo.specs.Reading.{Recording};
ghost use Rattle.dn_demo.specs.Feeding.{Shows};
ghost use Rattle.dn_netgame.specs.Transfer.{TakesUpTo, TakesFewer};
ghost use Rattle.dn_netgame.specs.declared.transfer.RunFault.{RunFault};

use crate::transfer::{RunFault, fill};
use dn_demo::{Demo, DemoFault, Fed, Feed, FeedFault};
use dn_world::Walk;
use std::io::Read;

/// The most bytes of a demo that is read.
pub(crate) const INPUT_LIMIT: usize = 33_554_432;

/// The line of an input that has more.
const TOO_LONG: &str = "demo: too long\n";

/// The line of bytes that are no demo.
fn line_of(fault: FeedFault) -> &'static str
    ensures { IsFaultLine (fault_of fault) result.now }
{
    match fault {
        FeedFault::Short => "demo: short\n",
        FeedFault::Version => "demo: version\n",
        FeedFault::NoPlayers => "demo: no players\n",
        FeedFault::NoMarker => "demo: no marker\n",
    }
}

/// The demo that the bytes are read as, or the line that tells why there is none.
pub(crate) fn read_demo(bytes: Vec<u8>) -> Result<Demo, &'static str>
    ensures demo { IfOk result (IsDemoInput bytes.items) }
    ensures refused { IfErr result (λ line. IsDemoRefused bytes.items line.now) }
{
    if bytes.len() > INPUT_LIMIT {
        return Err(TOO_LONG);
    }
    match Demo::from_vec(bytes) {
        Ok(demo) => Ok(demo),
        Err(DemoFault::Short) => Err(line_of(FeedFault::Short)),
        Err(DemoFault::Version) => Err(line_of(FeedFault::Version)),
        Err(DemoFault::NoPlayers) => Err(line_of(FeedFault::NoPlayers)),
        Err(DemoFault::NoMarker) => Err(line_of(FeedFault::NoMarker)),
        // the bytes are kept as they are
        Err(DemoFault::Memory) => unreachable!(),
    }
}

/// How many bytes are read before they are fed.
pub(crate) const PIECE: usize = 4096;

/// The most bytes that are read of an input: one more than a demo may have.
pub(crate) const ENOUGH: u64 = INPUT_LIMIT as u64 + 1;

/// Reads until more bytes came than a demo may have or the input ends, and plays what comes.
pub(crate) fn feed_demo<R: Read>(input: &mut R) -> Result<Feed<Walk>, RunFault>
    ensures shown { IfOk result (λ feed. (bytes : List ℕ)
        × TakesUpTo (demo_limit + 1) (R.remaining input.old) (R.remaining input.new) bytes
        × Shows (λ w. w) walking bytes feed) }
    ensures fault { IfErr result (λ fault. fault ≡ RunFault.Read) }
    ensures fewer { result ≡ Err RunFault.Read
        → TakesFewer (demo_limit + 1) (R.remaining input.old) (R.remaining input.new) }
{
    let mut piece = [0; PIECE];
    let mut feed = Feed::new(Walk::new());
    while feed.taken() < ENOUGH {
        let room = PIECE.min((ENOUGH - feed.taken()) as usize);
        let count = fill(input, &mut piece[..room])?;
        feed.push(&piece[..count]);
        if count < room {
            return Ok(feed);
        }
    }
    Ok(feed)
}

/// The demo that was fed, or the line that tells why there is none.
pub(crate) fn fed_demo(feed: Feed<Walk>) -> Result<Fed<Walk>, &'static str>
    ensures demo { IfOk result (λ fed. (bytes : List ℕ) → Shows (λ w. w) walking bytes feed
        → (demo : Recording) × IsDemoInput bytes demo × Summarizes (λ w. w) walking demo fed) }
    ensures refused { IfErr result (λ line. (bytes : List ℕ) → Shows (λ w. w) walking bytes feed
        → IsDemoRefused bytes line.now) }
{
    if feed.taken() >= ENOUGH {
        return Err(TOO_LONG);
    }
    match feed.end() {
        Ok(fed) => Ok(fed),
        Err(fault) => Err(line_of(fault)),
    }
}
