//! A demo that is written tic by tic, how many bytes it may have, and how many tics these hold.

ghost use Rattle.std.specs.Prelude.{◌≡◌, ◌<◌, ◌≤◌, ℕ, true, nat_le, ◌+◌, ◌*◌, false, [], ◌∷◌, ◌++◌, length};
ghost use Rattle.dn_demo.specs.Recorded.{IsLimit, recorded_size, capacity, most_tics};
ghost use Rattle.std.specs.{Prelude.vec_len, Vec.vec_capacity};
ghost use Rattle.dn_demo.specs.{Text.IsRow, Text.player_count, Text.move_bytes, Text.row_bytes, Text.demo_text, Text.marker, Layout.long_tics, Layout.command_size};
ghost use Rattle.dn_demo.specs.{declared.recorder.Stage.TheVariants.Blank, declared.recorder.Stage.TheVariants.Open, declared.recorder.Stage.TheVariants.Closed};

use crate::layout::{COMMAND, HEADER, MARKER};
use crate::writing::{command_bytes, header_bytes, row_size};
use dn_setup::Start;
use dn_tic::Move;
use std::alloc::Global;
use std::marker::Model;
use thiserror::Error;

/// Whether this number of bytes may limit a demo: 1,024 to 16,777,216.
pub fn is_limit(bytes: u32) -> bool
    ensures yes { result ≡ true → IsLimit bytes }
    ensures no { IsLimit bytes → result ≡ true }
{
    (1024..=16_777_216).contains(&bytes)
}

/// How many tics of `players` players fit into a demo of `limit` bytes, beside its header and marker.
pub fn capacity(limit: u32, players: u8) -> u32
    requires limit { IsLimit limit }
    requires somebody { 0 < players }
    ensures value { result ≡ capacity limit players }
    ensures fits { (tics : ℕ) → nat_le (recorded_size players tics) limit ≡ nat_le tics result }
    ensures most { 2 ≤ players → result ≤ most_tics }
{
    (limit - HEADER as u32 - 1) / (COMMAND as u32 * u32::from(players))
}

/// Why there is no recorder: the first of these that is so.
#[derive(Clone, Copy, Debug, PartialEq, Eq, Error)]
pub enum RecorderFault {
    /// The limit is not 1,024 to 16,777,216 bytes.
    #[error("the demo's limit is out of range")]
    Limit,
    /// There was no room for `limit` bytes.
    #[error("out of memory")]
    Memory,
}

/// How far a demo has come.
#[derive(Clone, Copy, Debug, PartialEq, Eq)]
pub enum Stage {
    /// Nothing is written.
    Blank,
    /// The header is written, and rows may follow.
    Open,
    /// The marker is written.
    Closed,
}

/// A demo that is being written: a header, a row for each tic, and the marker that ends it.
#[derive(Debug, Drop)]
pub struct Recorder {
    limit: u32,
    stage: Stage,
    bytes: Vec<u8>,
}

/// Appends bytes for which there is room, and takes no memory.
pub fn append(bytes: &mut Vec<u8>, more: &[u8])
    requires { vec_len bytes.old + length more.now ≤ vec_capacity bytes.old }
    ensures items { bytes.new.items ≡ bytes.old.items ++ more.now }
    ensures room { vec_capacity bytes.new ≡ vec_capacity bytes.old }
{
    for byte in more {
        bytes.push_reserved(*byte);
    }
}

impl Model for Recorder {
    ghost use Rattle.std.specs.{Prelude.◌≡◌, Prelude.◌≤◌, Prelude.◌+◌, Prelude.[], Prelude.vec_len, Vec.vec_capacity};
    ghost use Rattle.dn_demo.specs.{Text.header_size, Recorded.Recorded, Recorded.IsLimit, declared.recorder.Stage.TheVariants.Blank, declared.recorder.Stage.TheVariants.Open};

    ghost Value = { Recorded };

    ghost view = { λ r. record { limit = r.limit; stage = r.stage; bytes = r.bytes.items } };

    ghost invariant = { λ r.
        IsLimit r.limit
        × (vec_capacity r.bytes ≡ r.limit)
        × (r.stage ≡ Blank → r.bytes.items ≡ [])
        × (r.stage ≡ Open → (header_size ≤ vec_len r.bytes) × (vec_len r.bytes + 1 ≤ r.limit)) };
}

impl Recorder {
    ghost use Rattle.dn_demo.specs.{Places.seats_in, Recorded.IsMadeAs, Recorded.AddsRow, Recorded.Closes, Recorded.is_closed};

    /// A recorder with nothing written. Its room is `limit` bytes, and all of it is taken here.
    pub fn new(alloc: Global, limit: u32) -> Result<Recorder, RecorderFault>
        ensures { IsMadeAs limit result }
    {
        if !is_limit(limit) {
            return Err(RecorderFault::Limit);
        }
        let Ok(bytes) = Vec::with_capacity(alloc, limit as usize) else {
            return Err(RecorderFault::Memory);
        };
        Ok(Recorder {
            limit,
            stage: Stage::Blank,
            bytes,
        })
    }

    /// Writes the header: what the game starts from, whose view the demo shows, and which players
    /// are present.
    pub fn head(&mut self, start: &Start, view: u8, present: [bool; 4])
        requires blank { self.old.stage ≡ Blank }
        requires somebody { 0 < player_count present }
        ensures written { self.new
            ≡ record {
              limit = self.old.limit;
              stage = Open;
              bytes = demo_text long_tics start.now view present [] false;
            } }
        ensures seats { seats_in self.new.bytes ≡ present }
    {
        self.stage = Stage::Open;
        append(&mut self.bytes, &header_bytes(start, view, present));
    }

    /// Writes the move of a player who is present.
    fn add(&mut self, step: Option<Move>)
        requires open { self.old.stage ≡ Open }
        requires room { length self.old.bytes + length (move_bytes long_tics step) + 1 ≤ self.old.limit }
        ensures { self.new ≡ record self.old { bytes = self.old.bytes ++ move_bytes long_tics step } }
    {
        if let Some(step) = step {
            append(&mut self.bytes, &command_bytes(step));
        }
    }

    /// Writes the moves of a tic.
    #[inline(always)]
    fn add_all(&mut self, moves: &[Option<Move>; 4])
        requires open { self.old.stage ≡ Open }
        requires room { length self.old.bytes + length (row_bytes long_tics moves.now) + 1 ≤ self.old.limit }
        ensures { self.new ≡ record self.old { bytes = self.old.bytes ++ row_bytes long_tics moves.now } }
    {
        let [a, b, c, d] = *moves;
        self.add(a);
        self.add(b);
        self.add(c);
        self.add(d);
    }

    /// Writes the moves of a tic, for which and for the marker there is room. There is a move for each player
    /// who is present.
    #[inline(always)]
    pub fn add_row(&mut self, moves: &[Option<Move>; 4])
        requires open { self.old.stage ≡ Open }
        requires row { IsRow (seats_in self.old.bytes) moves.now }
        requires room { length self.old.bytes + command_size long_tics
            * player_count (seats_in self.old.bytes) + 1
            ≤ self.old.limit }
        ensures size { length (row_bytes long_tics moves.now)
            ≡ command_size long_tics * player_count (seats_in self.old.bytes) }
        ensures written { self.new
            ≡ record self.old { bytes = self.old.bytes ++ row_bytes long_tics moves.now } }
        ensures text { AddsRow self.old.bytes self.new.bytes moves.now }
        ensures seats { seats_in self.new.bytes ≡ seats_in self.old.bytes }
    {
        // costs nothing, and tells the checker the range of the limit
        let _ = &self.limit;
        self.add_all(moves);
    }

    /// Writes the moves of a tic (`g_game.c`, G_WriteDemoTiccmd), and answers whether they and the marker fit
    /// into the limit. Where they do not, nothing changes. There is a move for each player who is present.
    pub fn row(&mut self, moves: &[Option<Move>; 4]) -> bool
        requires open { self.old.stage ≡ Open }
        requires row { IsRow (seats_in self.old.bytes) moves.now }
        ensures fits { result ≡ nat_le (length self.old.bytes + length (row_bytes long_tics moves.now) + 1)
            self.old.limit }
        ensures size { length (row_bytes long_tics moves.now)
            ≡ command_size long_tics * player_count (seats_in self.old.bytes) }
        ensures written { result ≡ true
            → self.new ≡ record self.old { bytes = self.old.bytes ++ row_bytes long_tics moves.now } }
        ensures text { result ≡ true → AddsRow self.old.bytes self.new.bytes moves.now }
        ensures seats { seats_in self.new.bytes ≡ seats_in self.old.bytes }
        ensures kept { result ≡ false → self.new ≡ self.old }
    {
        if self.bytes.len() + row_size(moves) + 1 > self.limit as usize {
            return false;
        }
        self.add_row(moves);
        true
    }

    /// Writes the marker.
    pub fn close(&mut self)
        requires { self.old.stage ≡ Open }
        ensures written { self.new ≡ record self.old {
          stage = Closed;
          bytes = self.old.bytes ++ marker ∷ [];
        } }
        ensures text { Closes self.old.bytes self.new.bytes }
    {
        self.stage = Stage::Closed;
        self.bytes.push_reserved(MARKER);
    }

    /// Whether the marker is written.
    pub fn closed(&self) -> bool
        ensures { result ≡ is_closed self.now.stage }
    {
        self.stage == Stage::Closed
    }

    /// How many bytes it has memory for: its limit, which no call changes.
    pub fn room(&self) -> usize
        ensures { result ≡ self.now.limit }
    {
        self.bytes.capacity()
    }

    /// The text so far.
    pub fn bytes(&self) -> &[u8]
        ensures { result.now ≡ self.now.bytes }
    {
        &self.bytes
    }
}
