//! Listing the rows of a demo as it is read.

ghost use Rattle.std.specs.{Prelude.◌≡◌, Prelude.◌≤◌, Prelude.ℕ, Prelude.◌+◌, Prelude.List, Prelude.[], Prelude.◌++◌, Prelude.length, Prelude.Option, Prelude.IfOk, Prelude.IfErr, Prelude.OnOk};
ghost use Rattle.std.specs.{String.string_bytes, Io.KnownBytes.Appends};
ghost use Rattle.dn_tic.specs.declared.command.Move.{Move};
ghost use Rattle.dn_world.specs.Plane.{walking};
ghost use Rattle.dn_demo.specs.Feeding.{Shows, told, AreListed, TellsFront};
ghost use Rattle.dn_netgame.specs.Texts.{lines_of_rows};
ghost use Rattle.dn_netgame.specs.{DemoShown.demo_limit, RowsShown.IsRowsShown, RowsShown.ListsUpTo, Shown.ShowsInput, Transfer.TakesUpTo};

use crate::demo::text_of;
use crate::input::{ENOUGH, PIECE};
use crate::text::push_row;
use crate::transfer::{RunFault, fill, put};
use dn_demo::Feed;
use dn_tic::Move;
use dn_world::Walk;
use std::alloc::{AllocError, Global};
use std::io::{Read, Write};

/// Appends the lines of the row that a feed returned; none if it returned none.
fn push_told(text: &mut String, tic: u64, row: Option<[Option<Move>; 4]>) -> Result<(), AllocError>
    ensures { OnOk result (string_bytes text.new ≡ string_bytes text.old ++ lines_of_rows tic (told row)) }
{
    match row {
        Some(row) => push_row(text, tic, row),
        None => Ok(()),
    }
}

/// Feeds a piece, and answers the lines of the rows that end in it.
fn text_of_piece(alloc: Global, feed: &mut Feed<Walk>, piece: &[u8]) -> Result<String, AllocError>
    requires { feed.old.taken + length piece.now ≤ 4294967295 }
    ensures { IfOk result (λ text. (rows : List (List (Option Move)))
        × TellsFront (λ w. w) walking feed.old piece.now [] feed.new rows
        × (string_bytes text ≡ lines_of_rows feed.old.tics rows)) }
{
    let mut text = String::new(alloc);
    let mut rest = piece;
    while !rest.is_empty() {
        let tic = feed.tics();
        let (row, behind) = feed.next_row(rest);
        push_told(&mut text, tic, row)?;
        rest = behind;
    }
    Ok(text)
}

/// Reads until more bytes came than a demo may have or the input ends, and writes the lines of the rows as
/// they come.
fn list_rows<R: Read, W: Write>(
    alloc: Global,
    input: &mut R,
    output: &mut W,
) -> Result<Feed<Walk>, RunFault>
    ensures shown { IfOk result (λ feed. (bytes : List ℕ)
        × TakesUpTo (demo_limit + 1) (R.remaining input.old) (R.remaining input.new) bytes
        × Shows (λ w. w) walking bytes feed
        × ((rows : List (List (Option Move))) × AreListed bytes feed.tics rows
        × Appends (W.contents output.old) (W.contents output.new) (lines_of_rows 0 rows))) }
    ensures fails { IfErr result (ListsUpTo (demo_limit + 1)
        (R.remaining input.old) (R.remaining input.new) (W.contents output.old) (W.contents output.new)) }
{
    let mut piece = [0; PIECE];
    let mut feed = Feed::new(Walk::new());
    while feed.taken() < ENOUGH {
        let room = PIECE.min((ENOUGH - feed.taken()) as usize);
        let count = fill(input, &mut piece[..room])?;
        let text = text_of_piece(alloc, &mut feed, &piece[..count])?;
        put(output, text.as_bytes())?;
        if count < room {
            return Ok(feed);
        }
    }
    Ok(feed)
}

/// Reads a demo of at most 33,554,432 bytes, and writes a line for each player and tic as they come: the tic,
/// the player, and the move. Then it writes what `run_demo` would, and answers its exit status.
///
/// It reads pieces of 4,096 bytes, and writes the lines of the tics that end in each before it reads the
/// next. A read that fails is the fault `Read`, a write that fails or takes no bytes is `Write`, and `Memory`
/// is answered where memory for the lines of a piece or the last lines was refused. Each ends the run there,
/// and what was written stays.
pub fn run_rows<R: Read, W: Write>(
    alloc: Global,
    input: &mut R,
    output: &mut W,
) -> Result<u8, RunFault>
    // All lines were written, and the status is theirs.
    ensures shown { IfOk result (λ status. ShowsInput (demo_limit + 1) IsRowsShown
        (R.remaining input.old) (R.remaining input.new)
        (W.contents output.old) (W.contents output.new) status) }
    // After a read fault, or where memory was refused, the output has the lines of the rows so far, but for
    // those of the last piece. A write fault comes before the last byte of the lines so far is written.
    ensures fails { IfErr result (ListsUpTo (demo_limit + 1)
        (R.remaining input.old) (R.remaining input.new) (W.contents output.old) (W.contents output.new)) }
{
    let feed = list_rows(alloc, input, output)?;
    let (text, status) = text_of(alloc, feed)?;
    put(output, text.as_bytes())?;
    Ok(status)
}
