//! Showing a demo: what it has and where its players end, or why it is none.

ghost use Rattle.std.specs.{Prelude.◌≡◌, Prelude.ℕ, Prelude.◌+◌, Prelude.List, Prelude.Err, Prelude.IfOk, Prelude.IfErr, String.string_bytes};
ghost use Rattle.dn_world.specs.Plane.{walking};
ghost use Rattle.dn_demo.specs.Feeding.{Shows};
ghost use Rattle.dn_netgame.specs.{DemoShown.demo_limit, DemoShown.IsDemo, Shown.ShowsOrFails, Transfer.TakesUpTo, declared.transfer.RunFault.RunFault};

use crate::input::{fed_demo, feed_demo};
use crate::text::text_of_demo;
use crate::transfer::{RunFault, print};
use dn_demo::Feed;
use dn_world::Walk;
use std::alloc::Global;
use std::io::{Read, Write};

/// The lines of what the bytes of a feed are read as, and the exit status.
pub(crate) fn text_of(alloc: Global, feed: Feed<Walk>) -> Result<(String, u8), RunFault>
    ensures shown { IfOk result (λ shown. (bytes : List ℕ) → Shows (λ w. w) walking bytes feed
        → IsDemo bytes (string_bytes shown.0) shown.1) }
    ensures fault { IfErr result (λ fault. fault ≡ RunFault.Memory) }
{
    match fed_demo(feed) {
        Ok(fed) => Ok((text_of_demo(alloc, &fed)?, 0)),
        Err(refusal) => Ok((String::from_str(alloc, refusal)?, 1)),
    }
}

/// Reads a demo of at most 33,554,432 bytes, plays it as it comes, and writes its lines. The answer is the
/// exit status: 0 for a demo, 1 for bytes that are none.
///
/// A read that fails is the fault `Read`, a write that fails or takes no bytes is `Write`, and `Memory` is
/// answered where memory for the lines was refused. Each ends the run there.
pub fn run_demo<R: Read, W: Write>(
    alloc: Global,
    input: &mut R,
    output: &mut W,
) -> Result<u8, RunFault>
    // A byte more than a demo can have is taken, so that no prefix of a longer input is read as a demo.
    ensures shown { ShowsOrFails W.contents (demo_limit + 1) IsDemo (R.remaining input.old)
        (R.remaining input.new) output.old output.new result }
    // Memory runs out once all of the input that is read is there.
    ensures memory { result ≡ Err RunFault.Memory → (bytes : List ℕ)
        × TakesUpTo (demo_limit + 1) (R.remaining input.old) (R.remaining input.new) bytes }
{
    let feed = feed_demo(input)?;
    let (text, status) = text_of(alloc, feed)?;
    print(output, text.as_bytes(), status)
}
