//! Reading demos, and upgrading them.

ghost use Rattle.std.specs.Prelude.{◌≡◌, ◌≢◌, ◌⊎◌, ◌<◌, ◌≤◌, length, IfSome, IfNone, Some, None, is_some};
ghost use Rattle.dn_demo.specs.Recorded.{IsLimit};
ghost use Rattle.zirmegat.specs.Calls.{demo_of, held_at, Reads};
ghost use Rattle.zirmegat.specs.Demos.{demo_told, row_of, tells_row, upgrade_code, OpensDemo, Upgrades};

use crate::bytes;
use crate::demo_facts::DemoAnswer;
use crate::fault::{DONE, Fault};
use crate::handle::Handle;
use crate::held::Held;
use crate::keep::{keep, refuse};
use crate::rows::RowFields;
use crate::slot::Slot;
use dn_demo::{Demo, UpgradeFault, is_limit, upgrade};
use std::alloc::Global;

/// Reads a demo, of which a copy is kept. Returns 0, or why the bytes are no demo.
#[unsafe(no_mangle)]
pub extern "C" fn zmg_demo_read(alloc: Global, out: &mut Slot, bytes: &[u8]) -> u32
    ensures { OpensDemo bytes.now result (held_at out.new) }
{
    match Demo::read(alloc, bytes) {
        Ok(demo) => keep(alloc, out, Held::Demo(demo)),
        Err(fault) => refuse(out, Fault::Demo(fault)),
    }
}

/// How many bytes `DemoAnswer` has.
const FACTS_SIZE: usize = 40;

/// Writes what a demo has beside its rows, where the caller's struct has so many bytes.
#[unsafe(no_mangle)]
pub extern "C" fn zmg_demo_tell(demo: &mut Handle, out: &mut DemoAnswer, size: usize) -> u32
    ensures tells { 40 ≤ size → Reads demo_of demo.old demo.new
        (λ d. (result ≡ 0) × (out.new ≡ demo_told d)) ((result ≡ 1) × (out.new ≡ out.old)) }
    ensures small { size < 40 → (result ≡ 2) × (demo.new ≡ demo.old) × (out.new ≡ out.old) }
{
    if size < FACTS_SIZE {
        return Fault::Size.code();
    }
    match demo.demo() {
        Some(held) => {
            *out = DemoAnswer::of(held);
            DONE
        }
        None => Fault::Handle.code(),
    }
}

/// Writes the row of a tic, counted from 0, if there is one.
#[unsafe(no_mangle)]
pub extern "C" fn zmg_demo_row(demo: &mut Handle, tic: usize, row: &mut RowFields) -> u32
    ensures { Reads demo_of demo.old demo.new (λ d. tells_row tic (row_of tic d) result row.old row.new)
        ((result ≡ 1) × (row.new ≡ row.old)) }
{
    match demo.demo() {
        Some(held) => match held.row(tic) {
            Some(moves) => {
                *row = RowFields::of_moves(tic, &moves);
                DONE
            }
            None => Fault::Tic.code(),
        },
        None => Fault::Handle.code(),
    }
}

/// Why a demo is not upgraded.
fn upgrade_code(fault: UpgradeFault) -> u32
    ensures { result ≡ upgrade_code fault }
{
    match fault {
        UpgradeFault::Limit => 11,
        UpgradeFault::Full => 4,
        UpgradeFault::Memory => 3,
    }
}

/// The limit of a demo that is to fit into this room.
fn limit_of(room: usize) -> Option<u32>
    ensures some { IfSome result (λ limit. limit ≡ room) }
    ensures none { IfNone result (¬ IsLimit room) }
{
    let limit = u32::try_from(room).ok()?;
    if is_limit(limit) { Some(limit) } else { None }
}

/// Writes the demo that these bytes are anew as version 111, and how many bytes it has: its start, view,
/// players and whole tics. Nothing is written where that is refused.
#[unsafe(no_mangle)]
pub extern "C" fn zmg_demo_upgrade(
    alloc: Global,
    bytes: &[u8],
    out: &mut [u8],
    written: &mut usize,
) -> u32
    ensures { Upgrades bytes.now (length out.old) out.old out.new written.new result }
{
    *written = 0;
    let demo = match Demo::read(alloc, bytes) {
        Ok(demo) => demo,
        Err(fault) => return Fault::Demo(fault).code(),
    };
    let limit = match limit_of(out.len()) {
        Some(limit) => limit,
        None => return upgrade_code(UpgradeFault::Limit),
    };
    match upgrade(alloc, &demo, limit) {
        Ok(made) => {
            *written = bytes::write(made.bytes(), out);
            DONE
        }
        Err(fault) => upgrade_code(fault),
    }
}
