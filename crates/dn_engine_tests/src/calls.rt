//! One call on a lockstep of a game, and a packet as the engine that was given it has it.

ghost use Rattle.std.specs.Prelude.{◌≡◌, ◌<◌, Option};
ghost use Rattle.dn_setup.specs.Settings.{Settings};
ghost use Rattle.dn_tic.specs.declared.input.Input.TheVariants.{Given};
ghost use Rattle.dn_machine.specs.{Flight.Flight, Limits.Limits};
ghost use Rattle.dn_lockstep.specs.Contents.{contents};
ghost use Rattle.dn_lockstep.specs.OneGame.{AreOneGame, Session, given_on, after_build, after_packet, after_run, with_lockstep};
ghost use Rattle.dn_engine_tests.specs.Calls.{counting, marks_at, LeadsTo, AreFor, Takes, RunsOn, Leaves, Sends, Hands};

use arrayvec::ArrayVec;
use dn_lockstep::{Aim, Lockstep, locksteps_agree, one_game_goes_on};
use dn_machine::{Made, Ran};
use dn_packet::MAX_DATAGRAM;
use dn_tic::{Command, Move};

/// A packet, with its exact numbers. It may be handed in at any time, and more than once.
#[derive(Debug, Drop)]
pub struct Parcel {
    /// The number of the sender.
    pub from: u8,
    /// Its exact numbers.
    pub aim: Aim,
    /// Its datagram.
    pub bytes: ArrayVec<u8, 104>,
}

/// Takes a player's command.
pub fn give(lockstep: &mut Lockstep, command: Command) -> Made
    ensures one_game { LeadsTo (contents lockstep.old) (λ session player.
        after_build session player (Given command) result (contents lockstep.new)) }
    ensures step { Takes command (contents lockstep.old) (contents lockstep.new) result }
{
    one_game_goes_on();
    lockstep.give(command)
}

/// Each player's mark in a world that has counted this many rows.
pub(crate) fn marks_at(rows: u32) -> [i16; 4]
    ensures { result ≡ marks_at rows }
{
    let mark = (rows % 128) as i16;
    [mark, mark, mark, mark]
}

/// Runs a tic, by the marks of a world that counts the rows that it was told, and tells the row.
pub fn run(lockstep: &mut Lockstep) -> (Ran, Option<[Option<Move>; 4]>)
    ensures one_game { LeadsTo (contents lockstep.old) (λ session player.
        after_run session player result.1 (contents lockstep.new)) }
    ensures step { RunsOn (contents lockstep.old) (contents lockstep.new) result.0 result.1 }
{
    one_game_goes_on();
    locksteps_agree();
    let marks = marks_at(lockstep.ran());
    lockstep.run(&marks)
}

/// Leaves the game, and answers whether the lockstep had not ended.
pub fn quit(lockstep: &mut Lockstep) -> bool
    ensures one_game { LeadsTo (contents lockstep.old) (λ session player.
        with_lockstep session player (contents lockstep.new)) }
    ensures step { Leaves (contents lockstep.old) (contents lockstep.new) result }
{
    one_game_goes_on();
    lockstep.quit()
}

/// The next packet to a peer.
pub fn take(lockstep: &mut Lockstep, from: u8, to: u8) -> Option<Parcel>
    ensures one_game { (limits : Limits) (settings : Settings) (session : Session)
        → AreOneGame counting limits settings session → from < limits.players
        → session.locksteps from ≡ contents lockstep.old
        → (flight : Option Flight)
        × AreOneGame counting limits settings (after_packet session from flight (contents lockstep.new))
        × AreFor (given_on session.given flight) to result }
    ensures step { Sends from to (contents lockstep.old) (contents lockstep.new) result }
{
    one_game_goes_on();
    let mut room = [0; MAX_DATAGRAM];
    let Some((aim, size)) = lockstep.packet_with_aim(to, &mut room) else {
        return None;
    };
    let mut bytes = ArrayVec::new();
    let _ = bytes.try_extend_from_slice(&room[..size]);
    Some(Parcel { from, aim, bytes })
}

/// Hands in a packet, if there is one that is near.
pub fn hand(lockstep: &mut Lockstep, to: u8, parcel: &Option<Parcel>)
    ensures one_game { (limits : Limits) (settings : Settings) (session : Session)
        → AreOneGame counting limits settings session → to < limits.players
        → session.locksteps to ≡ contents lockstep.old → AreFor session.given to parcel.now
        → AreOneGame counting limits settings (with_lockstep session to (contents lockstep.new)) }
    ensures step { Hands parcel.now (contents lockstep.old) (contents lockstep.new) }
{
    one_game_goes_on();
    if let Some(parcel) = parcel {
        if parcel.aim.is_near(lockstep.made()) {
            lockstep.receive(parcel.from, parcel.bytes.as_slice());
        }
    }
}
