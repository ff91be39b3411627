//! The row of a tic, and what came of a run, as plain numbers.

ghost use Rattle.std.specs.Prelude.{◌≡◌};
ghost use Rattle.dn_lockstep.specs.Contents.{contents};
ghost use Rattle.zirmegat.specs.Rows.{move_told, moves_told, next_in, next_of_four, row_told, run_code, seat_told, seats_told, whole_of, whole_row};

use crate::commands::CommandFields;
use dn_lockstep::Lockstep;
use dn_machine::Ran;
use dn_tic::{Move, TicCmd};

/// What came of a run, and the commands of the tic, if one was run.
#[repr(C)]
#[derive(Clone, Copy, Debug, PartialEq, Eq)]
pub struct RowFields {
    /// The tic that was run.
    pub tic: u32,
    /// The mark of a command, where worlds differ.
    pub was: i16,
    /// The mark of the own world there.
    pub should: i16,
    /// Who is waited for, or whose mark is off.
    pub player: u8,
    /// 1 for each seat that has a command in the tic.
    pub present: [u8; 4],
    /// The commands, and all 0 where a seat has none.
    pub commands: [CommandFields; 4],
}

/// Nothing of four seats.
const NOBODY: [u8; 4] = [0; 4];

impl RowFields {
    /// No tic.
    pub(crate) const NONE: RowFields = RowFields {
        tic: 0,
        was: 0,
        should: 0,
        player: 0,
        present: NOBODY,
        commands: [CommandFields::NONE; 4],
    };

    /// What came of a run by these moves, whose whole commands these are.
    pub(crate) fn of(
        ran: Ran,
        moves: &[Option<Move>; 4],
        commands: &[Option<TicCmd>; 4],
    ) -> RowFields
        ensures { result ≡ row_told ran moves.now commands.now }
    {
        match ran {
            Ran::Ran(tic) => RowFields {
                tic,
                present: seats(moves),
                commands: whole(moves, commands),
                ..RowFields::NONE
            },
            Ran::Waiting(player) => RowFields {
                player,
                ..RowFields::NONE
            },
            Ran::Inconsistent {
                player,
                was,
                should,
            } => RowFields {
                was,
                should,
                player,
                ..RowFields::NONE
            },
            Ran::DemoFull | Ran::NotPlaying => RowFields::NONE,
        }
    }

    /// The moves of a tic of a demo.
    pub(crate) fn of_moves(tic: usize, moves: &[Option<Move>; 4]) -> RowFields
        ensures { result ≡ moves_told tic moves.now }
    {
        let [zero, one, two, three] = moves;
        RowFields {
            tic: (tic % 0x1_0000_0000) as u32,
            present: seats(moves),
            commands: [
                move_of(*zero),
                move_of(*one),
                move_of(*two),
                move_of(*three),
            ],
            ..RowFields::NONE
        }
    }
}

/// 1 for a seat with a move.
fn seat(step: Option<Move>) -> u8
    ensures { result ≡ seat_told step }
{
    u8::from(step.is_some())
}

/// The same of four seats.
fn seats(moves: &[Option<Move>; 4]) -> [u8; 4]
    ensures { result ≡ seats_told moves.now }
{
    let [zero, one, two, three] = moves;
    [seat(*zero), seat(*one), seat(*two), seat(*three)]
}

/// A move as a command without chat.
fn move_of(step: Option<Move>) -> CommandFields
    ensures { result ≡ move_told step }
{
    match step {
        Some(step) => CommandFields {
            turn: step.turn,
            forward: step.forward,
            side: step.side,
            chat: 0,
            buttons: step.buttons,
        },
        None => CommandFields::NONE,
    }
}

/// A whole command in place of a move.
fn whole_of(step: Option<Move>, command: Option<TicCmd>) -> CommandFields
    ensures { result ≡ whole_of step command }
{
    match step {
        Some(_) => CommandFields::if_there(command),
        None => CommandFields::NONE,
    }
}

/// Whole commands in place of the moves of a tic.
fn whole(moves: &[Option<Move>; 4], commands: &[Option<TicCmd>; 4]) -> [CommandFields; 4]
    ensures { result ≡ whole_row moves.now commands.now }
{
    let [zero, one, two, three] = moves;
    let [first, second, third, fourth] = commands;
    [
        whole_of(*zero, *first),
        whole_of(*one, *second),
        whole_of(*two, *third),
        whole_of(*three, *fourth),
    ]
}

/// The command that a lockstep has of a player for the next tic.
fn next_in(lockstep: &Lockstep, player: u8) -> Option<TicCmd>
    ensures { result ≡ next_in (contents lockstep.now) player }
{
    lockstep.command(player, lockstep.ran())
}

/// Those of all four.
pub(crate) fn next_of_four(lockstep: &Lockstep) -> [Option<TicCmd>; 4]
    ensures { result ≡ next_of_four (contents lockstep.now) }
{
    [
        next_in(lockstep, 0),
        next_in(lockstep, 1),
        next_in(lockstep, 2),
        next_in(lockstep, 3),
    ]
}

/// What came of a run, as a number.
pub(crate) fn run_code(ran: Ran) -> u32
    ensures { result ≡ run_code ran }
{
    match ran {
        Ran::NotPlaying => 0,
        Ran::Ran(_) => 1,
        Ran::Waiting(_) => 2,
        Ran::DemoFull => 3,
        Ran::Inconsistent { .. } => 4,
    }
}
