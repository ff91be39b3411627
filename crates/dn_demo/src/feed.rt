//! A demo that is fed in pieces.

ghost use Rattle.std.specs.Prelude.{◌≡◌, ◌≢◌, ◌<◌, ◌≤◌, ℕ, ◌+◌, ◌%◌, true, false, List, [], ◌∷◌, ◌++◌, length, Some, None, IfSome, IfNone};
ghost use Rattle.dn_demo.specs.Layout as specs;
ghost use Rattle.dn_demo.specs.{Layout.layout_of, Layout.command_size, Text.header_size, Text.marker, Reading.HasHeader, Feeding.Feeding, Feeding.Shows, Feeding.Takes, Feeding.TakesFront, Feeding.EndsAs};
ghost use Rattle.dn_demo.specs.Feeding.{told, EndsRow, Lists, IsBehindTic, TellsFront};

use crate::demo::{self, DemoFault};
use crate::fed::{Fed, FeedFault};
use crate::layout::{HEADER, Layout, MARKER};
use crate::{reading, rows};
use dn_tic::Move;
use dn_world::World;
use std::marker::Model;

/// The most bytes that a row has.
const ROW: usize = 20;

/// A demo that is fed in pieces, and played as they come. It takes no memory: it keeps the header, one
/// unfinished row, counts and the world.
#[derive(Drop)]
pub struct Feed<W> {
    world: W,
    taken: u64,
    header: [u8; HEADER],
    tics: u64,
    row: [u8; ROW],
    /// How many bytes of the row came.
    kept: usize,
    marked: bool,
    after: u64,
}

impl<W> Model for Feed<W> {
    ghost use Rattle.std.specs.Prelude.{◌≤◌};
    ghost use Rattle.dn_demo.specs.Feeding.{Feeding, feeding_of, IsKept};

    ghost Value = { Feeding W };

    ghost view = { λ f. feeding_of f.taken f.header f.tics f.kept f.row f.marked f.after f.world };

    ghost invariant = { λ f. (f.kept ≤ 20)
        × IsKept (feeding_of f.taken f.header f.tics f.kept f.row f.marked f.after f.world) };
}

/// Whether a byte is the marker, behind `kept` bytes of a row: it is at a command's place.
fn is_marker(byte: u8, kept: usize, layout: Layout) -> bool
    ensures yes { result ≡ true → (byte ≡ marker) × (kept % command_size (layout_of layout) ≡ 0) }
    ensures no { result ≡ false → byte ≡ marker → kept % command_size (layout_of layout) ≢ 0 }
{
    byte == MARKER && kept % layout.size() == 0
}

impl<W: World> Feed<W> {
    /// A feed that no bytes came to.
    pub fn new(world: W) -> Feed<W>
        ensures count { result.taken ≡ 0 }
        ensures tics { result.tics ≡ 0 }
        ensures shown { Shows W.state W.physics [] result }
    {
        Feed {
            world,
            taken: 0,
            header: [0; HEADER],
            tics: 0,
            row: [0; ROW],
            kept: 0,
            marked: false,
            after: 0,
        }
    }

    /// How many bytes came.
    pub fn taken(&self) -> u64
        ensures { result ≡ self.now.taken }
    {
        self.taken
    }

    /// How many whole tics came.
    pub fn tics(&self) -> u64
        ensures { result ≡ self.now.tics }
    {
        self.tics
    }

    /// How the commands are laid out, from a whole header in which somebody plays up to the marker.
    fn layout(&self) -> Option<Layout>
        ensures some { IfSome result (λ layout. HasHeader (layout_of layout) self.now.header) }
        ensures whole { IfSome result (λ layout. header_size ≤ self.now.taken) }
        ensures unmarked { IfSome result (λ layout. self.now.marked ≡ false) }
        ensures none { IfNone result (self.now.marked ≡ false → (layout : specs.Layout)
            → ¬ HasHeader layout self.now.header) }
    {
        if (self.taken as usize) < HEADER || self.marked {
            return None;
        }
        demo::open(&self.header).ok()
    }

    /// Takes a byte of the header. With the last one the world begins, if somebody plays.
    fn take_header(&mut self, byte: u8)
        requires { self.old.taken < header_size }
        ensures count { self.new.taken ≡ self.old.taken + 1 }
        ensures before { self.old.tics ≡ 0 }
        ensures after { self.new.tics ≡ 0 }
        ensures shown { Takes W.state W.physics self.old (byte ∷ []) self.new }
    {
        self.header[self.taken as usize] = byte;
        self.taken += 1;
        if self.layout().is_some() {
            let present = reading::seats(&self.header);
            self.world.begin(&reading::start(&self.header), present);
        }
    }

    /// Takes a byte of a command, or the marker. With the last byte of a row the world is stepped.
    /// Answers the row that it ended.
    fn take_command(&mut self, byte: u8, layout: Layout) -> Option<[Option<Move>; 4]>
        requires header { HasHeader (layout_of layout) self.old.header }
        requires unmarked { self.old.marked ≡ false }
        requires few { self.old.taken < 4294967295 }
        ensures count { self.new.taken ≡ self.old.taken + 1 }
        ensures shown { Takes W.state W.physics self.old (byte ∷ []) self.new }
        ensures row { (bytes : List ℕ) → Shows W.state W.physics bytes self.old
            → EndsRow (layout_of layout) (bytes ++ byte ∷ []) self.old.tics self.new.tics result }
        ensures tics { self.new.tics ≡ self.old.tics + length (told result) }
        ensures ends { IfSome result (λ _. IsBehindTic self.new) }
        ensures header { self.new.header ≡ self.old.header }
    {
        self.taken += 1;
        if is_marker(byte, self.kept, layout) {
            self.marked = true;
            return None;
        }
        self.row[self.kept] = byte;
        self.kept += 1;
        let present = reading::seats(&self.header);
        if self.kept == layout.size() * reading::players(present) {
            let row = reading::row_at(&self.row[..self.kept], layout, present, 0);
            self.world.step(&row);
            self.tics += 1;
            self.kept = 0;
            return Some(row);
        }
        None
    }

    /// Takes whole rows with no marker, unless a row is unfinished, and answers what is left.
    fn take_rows<'a>(&mut self, piece: &'a [u8], layout: Layout) -> &'a [u8]
        requires header { HasHeader (layout_of layout) self.old.header }
        requires unmarked { self.old.marked ≡ false }
        requires few { self.old.taken + length piece.now ≤ 4294967295 }
        ensures front { TakesFront W.state W.physics self.old piece.now result.now self.new }
        ensures header { self.new.header ≡ self.old.header }
        ensures unmarked { self.new.marked ≡ false }
    {
        if self.kept > 0 {
            return piece;
        }
        let present = reading::seats(&self.header);
        let rest = rows::step_all(&mut self.world, piece, layout, present);
        let came = piece.len() - rest.len();
        self.taken += came as u64;
        self.tics += (came / (layout.size() * reading::players(present))) as u64;
        rest
    }

    /// Takes bytes that nothing is read from: they stand behind the marker, or behind a header that is
    /// refused.
    fn pass(&mut self, piece: &[u8])
        requires whole { header_size ≤ self.old.taken }
        requires unread { self.old.marked ≡ false → (layout : specs.Layout)
            → ¬ HasHeader layout self.old.header }
        requires few { self.old.taken + length piece.now ≤ 4294967295 }
        ensures count { self.new.taken ≡ self.old.taken + length piece.now }
        ensures tics { self.new.tics ≡ self.old.tics }
        ensures marked { self.new.marked ≡ self.old.marked }
        ensures shown { Takes W.state W.physics self.old piece.now self.new }
    {
        self.taken += piece.len() as u64;
        if self.marked {
            self.after += piece.len() as u64;
        }
    }

    /// Takes one byte at least, up to the end of a row or to the marker, and answers what is left.
    fn take_row<'a>(&mut self, piece: &'a [u8], layout: Layout) -> &'a [u8]
        requires some { 0 < length piece.now }
        requires header { HasHeader (layout_of layout) self.old.header }
        requires unmarked { self.old.marked ≡ false }
        requires few { self.old.taken + length piece.now ≤ 4294967295 }
        ensures front { TakesFront W.state W.physics self.old piece.now result.now self.new }
        ensures less { length result.now < length piece.now }
    {
        let mut rest = piece;
        while let Some((byte, behind)) = rest.split_first() {
            self.take_command(*byte, layout);
            rest = behind;
            if self.kept == 0 || self.marked {
                return rest;
            }
        }
        rest
    }

    /// Takes one byte at least, and answers what is left.
    fn advance<'a>(&mut self, piece: &'a [u8]) -> &'a [u8]
        requires some { 0 < length piece.now }
        requires few { self.old.taken + length piece.now ≤ 4294967295 }
        ensures front { TakesFront W.state W.physics self.old piece.now result.now self.new }
        ensures less { length result.now < length piece.now }
    {
        if self.taken < HEADER as u64 {
            self.take_header(piece[0]);
            return &piece[1..];
        }
        let Some(layout) = self.layout() else {
            self.pass(piece);
            return &piece[piece.len()..];
        };
        let rest = self.take_rows(piece, layout);
        if rest.is_empty() {
            return rest;
        }
        self.take_row(rest, layout)
    }

    /// Takes a byte, and answers the row that it ends.
    fn take_byte(&mut self, byte: u8) -> Option<[Option<Move>; 4]>
        requires few { self.old.taken < 4294967295 }
        ensures count { self.new.taken ≡ self.old.taken + 1 }
        ensures shown { Takes W.state W.physics self.old (byte ∷ []) self.new }
        ensures listed { Lists W.state W.physics self.old (byte ∷ []) self.new (told result) }
        ensures ends { IfSome result (λ _. IsBehindTic self.new) }
        ensures over { self.old.marked ≡ true → (result ≡ None) × (self.new.marked ≡ true) }
    {
        if self.taken < HEADER as u64 {
            self.take_header(byte);
            return None;
        }
        let Some(layout) = self.layout() else {
            self.pass(&[byte]);
            return None;
        };
        self.take_command(byte, layout)
    }

    /// Takes the next piece up to the end of a tic, and answers the row of this tic and the bytes that are
    /// left; or takes all of the piece, where no tic ends in it. Behind the marker no tic ends. All pieces
    /// together have at most 4,294,967,295 bytes.
    pub fn next_row<'a>(&mut self, piece: &'a [u8]) -> (Option<[Option<Move>; 4]>, &'a [u8])
        requires { self.old.taken + length piece.now ≤ 4294967295 }
        ensures rows { TellsFront W.state W.physics self.old piece.now result.1.now self.new (told result.0) }
        ensures ends { IfSome result.0 (λ _. IsBehindTic self.new) }
        ensures whole { IfNone result.0 (result.1.now ≡ []) }
        ensures empty { piece.now ≡ [] → (result.0 ≡ None) × (self.new ≡ self.old) }
        ensures over { self.old.marked ≡ true → result.0 ≡ None }
        ensures less { 0 < length piece.now → length result.1.now < length piece.now }
    {
        let mut rest = piece;
        while let Some((byte, behind)) = rest.split_first() {
            rest = behind;
            if let Some(row) = self.take_byte(*byte) {
                return (Some(row), rest);
            }
        }
        (None, rest)
    }

    /// Takes the next piece. All pieces together have at most 4,294,967,295 bytes.
    pub fn push(&mut self, piece: &[u8])
        requires { self.old.taken + length piece.now ≤ 4294967295 }
        ensures count { self.new.taken ≡ self.old.taken + length piece.now }
        ensures shown { Takes W.state W.physics self.old piece.now self.new }
        ensures empty { piece.now ≡ [] → self.new ≡ self.old }
    {
        let mut rest = piece;
        while !rest.is_empty() {
            rest = self.advance(rest);
        }
    }

    /// Ends the demo: what it has, with the world after its last whole tic, or the first fault that its
    /// bytes have.
    pub fn end(self) -> Result<Fed<W>, FeedFault>
        ensures { EndsAs W.state W.physics self result }
    {
        let taken = HEADER.min(self.taken as usize);
        let layout = match demo::open(&self.header[..taken]) {
            Ok(layout) => layout,
            Err(DemoFault::Short) => return Err(FeedFault::Short),
            Err(DemoFault::Version) => return Err(FeedFault::Version),
            // a header has no other fault
            Err(_) => return Err(FeedFault::NoPlayers),
        };
        if !self.marked {
            return Err(FeedFault::NoMarker);
        }
        Ok(Fed {
            version: self.header[0],
            start: reading::start(&self.header),
            view: self.header[8],
            present: reading::seats(&self.header),
            tics: self.tics,
            cut: (self.kept / layout.size()) as u64,
            after: self.after,
            world: self.world,
        })
    }
}
