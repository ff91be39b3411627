//! Reading back the lines of a demo's rows, as `netgame rows` prints them and a text editor may have cut them.

use crate::writing::{Head, Row, bytes_of};
use dn_setup::{Start, VERSION};
use dn_tic::Move;
use std::alloc::{AllocError, AllocFailed, Global};
use std::io::{BufRead, ErrorKind};
use thiserror::Error;

/// Why lines are not those of a demo's rows.
#[derive(Clone, Copy, Debug, PartialEq, Eq, Error)]
pub enum RowsFault {
    /// This line, counted from 1, is none of theirs.
    #[error("line {0}: not a line of `netgame rows`")]
    Line(u64),
    /// A move that reads as the end of a demo.
    #[error("line {0}: a demo cannot tell -128 forward")]
    Marker(u64),
    /// There is no header.
    #[error("no line begins with `version`, as the header of a demo does")]
    Head,
    /// A tic has other moves than one of each player who is present.
    #[error("tic {0}, counted from 0: not a move of each player of the header, and no other")]
    Seats(usize),
    /// A turn that is no multiple of 256.
    #[error("tic {0}, counted from 0: a turn that version 109 cannot tell")]
    Turn(usize),
    /// More tics than a demo may have.
    #[error("too many tics")]
    TooLong,
    /// The lines could not be read.
    #[error("read fault")]
    Read,
    /// Memory was refused.
    #[error("out of memory")]
    Memory,
}

impl From<AllocError> for RowsFault {
    fn from(_e: AllocError) -> RowsFault {
        RowsFault::Memory
    }
}

impl From<AllocFailed<Row>> for RowsFault {
    fn from(_e: AllocFailed<Row>) -> RowsFault {
        RowsFault::Memory
    }
}

/// The most tics that are read: a demo has at most 33,554,432 bytes, four of them for a command.
const MOST_TICS: usize = 8_388_608;

/// A row in which nobody has a move.
const EMPTY: Row = [None, None, None, None];

/// The number behind a label at the front of a line, and what follows it.
fn field<'a>(line: &'a [u8], label: &str) -> Option<(i64, &'a [u8])> {
    let rest = line.strip_prefix(label.as_bytes())?;
    let end = rest.iter().position(|byte| *byte == b' ');
    let (word, rest) = rest.split_at(end.unwrap_or(rest.len()));
    let number = str::from_utf8(word).ok()?.parse().ok()?;
    Some((number, rest))
}

/// The same of a number that is a byte.
fn byte<'a>(line: &'a [u8], label: &str) -> Option<(u8, &'a [u8])> {
    let (number, rest) = field(line, label)?;
    Some((u8::try_from(number).ok()?, rest))
}

/// The tic, the player and the move of a line.
fn step_of(line: &[u8]) -> Option<(i64, u8, Move)> {
    let (tic, rest) = field(line, "tic ")?;
    let (player, rest) = byte(rest, " player ")?;
    let (forward, rest) = field(rest, " forward ")?;
    let (side, rest) = field(rest, " side ")?;
    let (turn, rest) = field(rest, " turn ")?;
    let (buttons, rest) = byte(rest, " buttons ")?;
    let step = Move {
        forward: i8::try_from(forward).ok()?,
        side: i8::try_from(side).ok()?,
        turn: i16::try_from(turn).ok()?,
        buttons,
    };
    if rest.is_empty() && player < 4 {
        Some((tic, player, step))
    } else {
        None
    }
}

/// What a game starts from, and what follows it.
fn start_of(line: &[u8]) -> Option<(Start, &[u8])> {
    let (skill, rest) = byte(line, " skill ")?;
    let (episode, rest) = byte(rest, " episode ")?;
    let (map, rest) = byte(rest, " map ")?;
    let (deathmatch, rest) = byte(rest, " deathmatch ")?;
    let (respawn, rest) = byte(rest, " respawn ")?;
    let (fast, rest) = byte(rest, " fast ")?;
    let (no_monsters, rest) = byte(rest, " nomonsters ")?;
    let start = Start {
        skill,
        episode,
        map,
        deathmatch,
        respawn,
        fast,
        no_monsters,
    };
    Some((start, rest))
}

/// The players that the rest of a header's line names.
fn players_of(rest: &[u8]) -> Option<[bool; 4]> {
    let mut rest = rest.strip_prefix(b" players")?;
    let mut present = [false; 4];
    for _ in 0..4 {
        if rest.is_empty() {
            return Some(present);
        }
        let (player, behind) = byte(rest, " ")?;
        *present.get_mut(usize::from(player))? = true;
        rest = behind;
    }
    if rest.is_empty() { Some(present) } else { None }
}

/// The header of a line.
fn head_of(line: &[u8]) -> Option<Head> {
    let (version, rest) = byte(line, "version ")?;
    let long = match version {
        VERSION => true,
        109 => false,
        _ => return None,
    };
    let (start, rest) = start_of(rest)?;
    let (view, rest) = byte(rest, " view ")?;
    let present = players_of(rest)?;
    Some(Head {
        long,
        start,
        view,
        present,
    })
}

/// The rows so far.
#[derive(Drop)]
struct Rows {
    rows: Vec<Row>,
    tic: Option<i64>,
    open: Row,
    head: Option<Head>,
}

impl Rows {
    /// Ends the row that is open.
    fn close(&mut self) -> Result<(), RowsFault> {
        if self.tic.is_none() {
            return Ok(());
        }
        if self.rows.len() >= MOST_TICS {
            return Err(RowsFault::TooLong);
        }
        self.rows.push(self.open)?;
        self.open = EMPTY;
        self.tic = None;
        Ok(())
    }

    /// Takes a player's move. A new tic begins where the tic's number changes, or a player moves again.
    fn step(&mut self, tic: i64, player: u8, step: Move) -> Result<(), RowsFault> {
        let player = usize::from(player);
        let seat = self.open.get(player).copied().flatten();
        if self.tic != Some(tic) || seat.is_some() {
            self.close()?;
        }
        self.tic = Some(tic);
        if let Some(seat) = self.open.get_mut(player) {
            *seat = Some(step);
        }
        Ok(())
    }

    /// Takes a line.
    fn line(&mut self, number: u64, line: &[u8]) -> Result<(), RowsFault> {
        if let Some((tic, player, step)) = step_of(line) {
            if step.forward == -128 {
                return Err(RowsFault::Marker(number));
            }
            return self.step(tic, player, step);
        }
        if line.starts_with(b"version ") {
            self.head = head_of(line);
            return if self.head.is_some() {
                Ok(())
            } else {
                Err(RowsFault::Line(number))
            };
        }
        // what `netgame rows` prints last tells of the rows, and is not read
        let is_end = line.starts_with(b"tics ") || line.starts_with(b"player ");
        if line.is_empty() || is_end {
            Ok(())
        } else {
            Err(RowsFault::Line(number))
        }
    }
}

/// Whether a row has a move for each of these players, and no other.
fn has_seats(row: &Row, present: [bool; 4]) -> bool {
    let [a, b, c, d] = *row;
    [a.is_some(), b.is_some(), c.is_some(), d.is_some()] == present
}

/// Whether version 109 can tell a move's turn.
fn is_whole(step: Option<Move>) -> bool {
    match step {
        Some(step) => step.turn.cast_unsigned() % 256 == 0,
        None => true,
    }
}

/// Whether version 109 can tell the turns of a row.
fn are_whole(row: &Row) -> bool {
    let [a, b, c, d] = *row;
    is_whole(a) && is_whole(b) && is_whole(c) && is_whole(d)
}

/// Why a demo with this header cannot have these rows.
fn fault_of(head: &Head, rows: &[Row]) -> Result<(), RowsFault> {
    for (tic, row) in rows.iter().enumerate() {
        if !has_seats(row, head.present) {
            return Err(RowsFault::Seats(tic));
        }
        if !head.long && !are_whole(row) {
            return Err(RowsFault::Turn(tic));
        }
    }
    Ok(())
}

/// The demo of lines as `netgame rows` prints them: the lines of moves in their order, and the header, which may
/// stand anywhere. Lines of moves may be left out, doubled or taken from another demo: the numbers of tics only tell
/// which lines belong together.
pub fn demo_of_rows<R: BufRead + Drop>(alloc: Global, input: R) -> Result<Vec<u8>, RowsFault> {
    let mut rows = Rows {
        rows: Vec::new(alloc),
        tic: None,
        open: EMPTY,
        head: None,
    };
    let mut number: u64 = 0;
    for line in input.lines(alloc) {
        number = u64::saturating_add(number, 1);
        match line {
            Ok(line) => rows.line(number, line.as_bytes())?,
            Err(error) if error.kind() == ErrorKind::InvalidData => {
                return Err(RowsFault::Line(number));
            }
            Err(_) => return Err(RowsFault::Read),
        }
    }
    rows.close()?;
    let head = rows.head.ok_or(RowsFault::Head)?;
    fault_of(&head, &rows.rows)?;
    Ok(bytes_of(alloc, &head, &rows.rows)?)
}
