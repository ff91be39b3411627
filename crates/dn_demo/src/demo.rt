//! A demo that was read, and playing it in a world.

ghost use Rattle.std.specs.Prelude.{◌≡◌, ◌≢◌, ◌<◌, length, slice_get, Result, Err, IfOk, IfErr};
ghost use Rattle.dn_demo.specs.{Layout.layout_of, Text.player_count, Places.EndsBehind, Reading.Recording, Reading.HasHeader, Reading.IsReadAs, Reading.IsSameButMemory};
ghost use Rattle.dn_demo.specs.{declared.demo.DemoFault.DemoFault, declared.demo.DemoFault.TheVariants.NoMarker, declared.demo.DemoFault.TheVariants.Memory};
ghost use Rattle.dn_demo.specs.Reading.{state_after};

use crate::layout::{HEADER, Layout};
use crate::reading;
use dn_setup::Start;
use dn_tic::Move;
use dn_world::World;
use std::alloc::Global;
use std::marker::Model;
use thiserror::Error;

/// Why bytes are no demo: the first of these that is so.
#[derive(Clone, Copy, Debug, PartialEq, Eq, Error)]
pub enum DemoFault {
    /// There are fewer than 13 bytes.
    #[error("shorter than a demo's header")]
    Short,
    /// The first byte is neither 109 nor 111.
    #[error("a demo of neither version 109 nor 111")]
    Version,
    /// No in-game byte is set.
    #[error("no player is present in the demo")]
    NoPlayers,
    /// No command begins with 0x80.
    #[error("the demo has no end marker")]
    NoMarker,
    /// There was no room for a copy of the bytes.
    #[error("out of memory")]
    Memory,
}

/// A demo that was read: the bytes before its marker, how they are laid out, and how many bytes follow
/// the marker.
#[derive(Debug, Drop)]
pub struct Demo {
    pub(crate) layout: Layout,
    pub(crate) bytes: Vec<u8>,
    after: usize,
}

impl Model for Demo {
    ghost use Rattle.dn_demo.specs.{Layout.layout_of, Places.commands_in, Places.HasNoMarker, Reading.Recording, Reading.recording, Reading.HasHeader};

    ghost Value = { Recording };

    ghost view = { λ d. recording (layout_of d.layout) d.bytes.items
        (commands_in (layout_of d.layout) d.bytes.items) d.after };

    ghost invariant = { λ d. HasHeader (layout_of d.layout) d.bytes.items
        × HasNoMarker (layout_of d.layout) d.bytes.items (commands_in (layout_of d.layout) d.bytes.items) };
}

/// How the bytes are laid out by their header, or the first fault that it has.
pub(crate) fn open(bytes: &[u8]) -> Result<Layout, DemoFault>
    ensures found { IfOk result (λ layout. HasHeader (layout_of layout) bytes.now) }
    ensures refused { IfErr result (λ fault. IsReadAs bytes.now (Err fault)) }
    ensures only { IfErr result (λ fault. (r : Result Recording DemoFault)
        → IsReadAs bytes.now r → IsSameButMemory (Err fault) r) }
    ensures header { IfErr result (λ fault. (fault ≢ NoMarker) × (fault ≢ Memory)) }
{
    if bytes.len() < HEADER {
        return Err(DemoFault::Short);
    }
    let layout = Layout::of(bytes[0]).ok_or(DemoFault::Version)?;
    if reading::players(reading::seats(bytes)) == 0 {
        return Err(DemoFault::NoPlayers);
    }
    Ok(layout)
}

/// How the bytes are laid out and where the marker stands, or the first fault that they have.
fn measure(bytes: &[u8]) -> Result<(Layout, usize), DemoFault>
    ensures found { IfOk result (λ (layout, commands). HasHeader (layout_of layout) bytes.now
        × EndsBehind (layout_of layout) bytes.now commands) }
    ensures refused { IfErr result (λ fault. IsReadAs bytes.now (Err fault)) }
    ensures only { IfErr result (λ fault. (r : Result Recording DemoFault)
        → IsReadAs bytes.now r → IsSameButMemory (Err fault) r) }
    ensures no_memory { result ≢ Err Memory }
{
    let layout = open(bytes)?;
    let commands = reading::commands_before_marker(bytes, layout).ok_or(DemoFault::NoMarker)?;
    Ok((layout, commands))
}

impl Demo {
    /// Reads a demo of version 109 or 111, up to its marker (`g_game.c`, G_DoPlayDemo), and copies it.
    pub fn read(alloc: Global, bytes: &[u8]) -> Result<Demo, DemoFault>
        ensures reads { IsReadAs bytes.now result }
        ensures only { (r : Result Recording DemoFault) → IsReadAs bytes.now r → IsSameButMemory result r }
    {
        let (layout, commands) = measure(bytes)?;
        let front = layout.place(commands);
        let after = bytes.len() - front - 1;
        let Ok(bytes) = Vec::from_slice(alloc, &bytes[..front]) else {
            return Err(DemoFault::Memory);
        };
        Ok(Demo {
            layout,
            bytes,
            after,
        })
    }

    /// Reads a demo like `read`, but keeps the vector instead of a copy, so it never answers `Memory`.
    pub fn from_vec(mut bytes: Vec<u8>) -> Result<Demo, DemoFault>
        ensures reads { IsReadAs bytes.items result }
        ensures only { (r : Result Recording DemoFault) → IsReadAs bytes.items r → IsSameButMemory result r }
        ensures no_memory { result ≢ Err Memory }
    {
        let (layout, commands) = measure(&bytes)?;
        let front = layout.place(commands);
        let after = bytes.len() - front - 1;
        bytes.truncate(front);
        Ok(Demo {
            layout,
            bytes,
            after,
        })
    }

    /// The version, which is the demo's first byte: 109, as Doom 1.9 records, or 111.
    pub fn version(&self) -> u8
        ensures { result ≡ self.now.version }
    {
        self.bytes[0]
    }

    /// What the game starts from, as the header has it.
    pub fn start(&self) -> Start
        ensures { result ≡ self.now.start }
    {
        reading::start(&self.bytes)
    }

    /// Whose view the demo shows.
    pub fn view(&self) -> u8
        ensures { result ≡ self.now.view }
    {
        self.bytes[8]
    }

    /// Which players are present: at least one.
    pub fn present(&self) -> [bool; 4]
        ensures value { result ≡ self.now.present }
        ensures somebody { 0 < player_count result }
    {
        reading::seats(&self.bytes)
    }

    /// How many whole tics the demo has.
    pub fn tics(&self) -> usize
        ensures { result ≡ length self.now.rows }
    {
        let players = reading::players(self.present());
        reading::commands(&self.bytes, self.layout) / players
    }

    /// The moves of a tic, counted from 0; None from `tics` on.
    pub fn row(&self, tic: usize) -> Option<[Option<Move>; 4]>
        ensures { result ≡ slice_get self.now.rows tic }
    {
        if tic < self.tics() {
            let present = self.present();
            Some(reading::row(
                &self.bytes,
                self.layout,
                present,
                reading::players(present) * tic,
            ))
        } else {
            None
        }
    }

    /// How many commands stand between the last whole tic and the marker.
    pub fn cut(&self) -> usize
        ensures { result ≡ self.now.cut }
    {
        let players = reading::players(self.present());
        reading::commands(&self.bytes, self.layout) % players
    }

    /// How many bytes stand after the marker.
    pub fn after(&self) -> usize
        ensures { result ≡ self.now.after }
    {
        self.after
    }
}

/// Begins the world as the demo does, and steps it by each row. The answer is how many tics that is.
pub fn play<W: World>(demo: &Demo, world: &mut W) -> usize
    ensures tics { result ≡ length demo.now.rows }
    ensures played { W.state world.new ≡ state_after W.physics demo.now }
{
    let present = demo.present();
    world.begin(&demo.start(), present);
    let layout = demo.layout;
    let bytes = demo.bytes.as_slice();
    let players = reading::players(present);
    let tics = demo.tics();
    for tic in 0..tics {
        world.step(&reading::row(bytes, layout, present, players * tic));
    }
    tics
}
