//! Upgrading a demo to version 111, or telling why there is none.

ghost use Rattle.std.specs.Prelude.{◌≡◌, ◌+◌, Err};
ghost use Rattle.dn_demo.specs.Recorded.{IsLimit};
ghost use Rattle.dn_netgame.specs.{DemoShown.demo_limit, UpgradeShown.IsUpgradedTo, UpgradeShown.IsUpgrade, Shown.PrintsOrFails, Shown.ShowsOrFails, Transfer.TakesSome};
ghost use Rattle.dn_netgame.specs.{declared.transfer.RunFault.RunFault};

use crate::input::{INPUT_LIMIT, read_demo};
use crate::transfer::{RunFault, gather, print};
use dn_demo::{Demo, UpgradeFault, upgrade};
use std::alloc::Global;
use std::io::{Read, Write};

/// Writes the upgraded demo, or the line that tells that it has more bytes than the limit. The answer is the
/// exit status.
fn print_upgraded<W: Write>(
    alloc: Global,
    demo: &Demo,
    limit: u32,
    output: &mut W,
) -> Result<u8, RunFault>
    requires { IsLimit limit }
    ensures { PrintsOrFails W.contents (IsUpgradedTo limit demo.now) output.old output.new result }
{
    match upgrade(alloc, demo, limit) {
        Ok(recorder) => print(output, recorder.bytes(), 0),
        Err(UpgradeFault::Full) => print(output, b"upgrade: full\n", 1),
        Err(UpgradeFault::Memory) => Err(RunFault::Memory),
        // the limit is in range
        Err(UpgradeFault::Limit) => unreachable!(),
    }
}

/// Reads a demo of version 109 or 111, of at most 33,554,432 bytes, and writes it as a demo of version
/// 111, of at most `limit` bytes. The answer is the exit status: 0 for a demo, 1 for bytes that are none or
/// that do not fit.
///
/// A read that fails is the fault `Read`, a write that fails or takes no bytes is `Write`, and `Memory`
/// is answered where memory for the bytes or the upgraded demo was refused. Each ends the run there.
pub fn run_upgrade<R: Read, W: Write>(
    alloc: Global,
    limit: u32,
    input: &mut R,
    output: &mut W,
) -> Result<u8, RunFault>
    requires limit { IsLimit limit }
    ensures shown { ShowsOrFails W.contents (demo_limit + 1) (IsUpgrade limit) (R.remaining input.old)
        (R.remaining input.new) output.old output.new result }
    // An input that ends at once needs no memory.
    ensures memory { result ≡ Err RunFault.Memory
        → TakesSome (demo_limit + 1) (R.remaining input.old) (R.remaining input.new) }
{
    let bytes = gather(alloc, input, INPUT_LIMIT + 1)?;
    match read_demo(bytes) {
        Ok(demo) => print_upgraded(alloc, &demo, limit, output),
        Err(refusal) => print(output, refusal.as_bytes(), 1),
    }
}
