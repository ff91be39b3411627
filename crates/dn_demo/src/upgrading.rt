//! Upgrading a demo: recording its tics anew as version 111.

ghost use Rattle.dn_demo.specs.Recorded.{IsUpgraded};

use crate::demo::Demo;
use crate::reading;
use crate::recorder::{Recorder, capacity, is_limit};
use std::alloc::Global;
use thiserror::Error;

/// Why a demo is not upgraded: the first of these that is so.
#[derive(Clone, Copy, Debug, PartialEq, Eq, Error)]
pub enum UpgradeFault {
    /// The limit is not 1,024 to 16,777,216 bytes.
    #[error("the demo's limit is out of range")]
    Limit,
    /// The upgraded demo has more bytes than the limit.
    #[error("the upgraded demo is longer than its limit")]
    Full,
    /// There was no room for `limit` bytes.
    #[error("out of memory")]
    Memory,
}

/// Records the whole tics of a demo anew as version 111, within `limit` bytes, and closes it. The start, the
/// view and the players stay; commands of a cut tic, and what follows the marker, are left out.
pub fn upgrade(alloc: Global, demo: &Demo, limit: u32) -> Result<Recorder, UpgradeFault>
    ensures { IsUpgraded demo.now limit result }
{
    if !is_limit(limit) {
        return Err(UpgradeFault::Limit);
    }
    let present = demo.present();
    let players = reading::players(present);
    let tics = demo.tics();
    if tics > capacity(limit, players as u8) as usize {
        return Err(UpgradeFault::Full);
    }
    let Ok(mut recorder) = Recorder::new(alloc, limit) else {
        return Err(UpgradeFault::Memory);
    };
    recorder.head(&demo.start(), demo.view(), present);
    let bytes = demo.bytes.as_slice();
    for tic in 0..tics {
        recorder.add_row(&reading::row(bytes, demo.layout, present, players * tic));
    }
    recorder.close();
    Ok(recorder)
}
