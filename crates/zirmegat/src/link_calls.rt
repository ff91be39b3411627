//! The calls on links alone.

ghost use Rattle.std.specs.Prelude.{◌≡◌, ◌<◌, ◌≤◌, length, Option};
ghost use Rattle.dn_machine.specs.declared.answers.Made.{Made as Making};
ghost use Rattle.dn_link.specs.declared.received.Received.{Received as Receiving};
ghost use Rattle.dn_survivor.specs.declared.answers.GivenUp.{GivenUp as GivingUp};
ghost use Rattle.dn_survivor.specs.declared.answers.GivenUp.TheVariants.{NotPlaying};
ghost use Rattle.zirmegat.specs.Calls.{link_of, Calls};
ghost use Rattle.zirmegat.specs.Links.{give_up_told, owed_code, received_at, received_told, CatchesUp, GivesOut, GivesUpIn, Leans, TakesBytes};

use crate::bytes;
use crate::fault::{DONE, Fault};
use crate::handle::Handle;
use crate::link_answers::{GiveUpAnswer, ReceivedAnswer, owed_code};
use dn_survivor::GivenUp;

/// The room that a link's datagram needs at most.
const MAX_LINK_DATAGRAM: usize = 1200;

/// Writes the datagram of the moment to a peer, and returns how many bytes it has, and 0 where the number is no
/// peer's, or that of one who is given up. Where the room is below 1,200 bytes, it returns 0, and the link
/// stays as it is.
#[unsafe(no_mangle)]
pub extern "C" fn zmg_link_datagram(node: &mut Handle, to: u8, out: &mut [u8]) -> usize
    ensures given { 1200 ≤ length out.old → Calls link_of node.old node.new
        (GivesOut to out.old out.new result) ((result ≡ 0) × (out.new ≡ out.old)) }
    ensures no_room { length out.old < 1200 → (result ≡ 0) × (node.new ≡ node.old) × (out.new ≡ out.old) }
{
    if out.len() < MAX_LINK_DATAGRAM {
        return 0;
    }
    match node.link() {
        Some(held) => bytes::put(held.datagram(to), out),
        None => 0,
    }
}

/// Takes in any bytes, wherever they come from.
#[unsafe(no_mangle)]
pub extern "C" fn zmg_link_receive(node: &mut Handle, bytes: &[u8], out: &mut ReceivedAnswer) -> u32
    ensures received { Calls link_of node.old node.new
        (λ n k. (received : Receiving) × (out.new ≡ received_told received) × TakesBytes bytes.now n k received)
        (out.new ≡ received_at 0 0 0) }
    ensures code { result ≡ out.new.code }
{
    let told = match node.link() {
        Some(held) => ReceivedAnswer::of(held.receive(bytes)),
        None => ReceivedAnswer::at(0, 0, 0),
    };
    *out = told;
    told.code
}

/// For each tick, after the command: writes by how many 32nds of a tick the next comes later, or sooner where
/// it is below 0.
#[unsafe(no_mangle)]
pub extern "C" fn zmg_link_tick(node: &mut Handle, later: &mut i32) -> u32
    ensures { Calls link_of node.old node.new (λ n k. (result ≡ 0) × Leans n k later.new)
        ((result ≡ 1) × (later.new ≡ later.old)) }
{
    match node.link() {
        Some(held) => {
            *later = i32::from(held.lean());
            DONE
        }
        None => Fault::Handle.code(),
    }
}

/// Makes the command that is owed, where a run has made room for it.
#[unsafe(no_mangle)]
pub extern "C" fn zmg_link_catch_up(node: &mut Handle) -> u32
    ensures { Calls link_of node.old node.new
        (λ n k. (made : Option Making) × (result ≡ owed_code made) × CatchesUp n k made) (result ≡ 1) }
{
    match node.link() {
        Some(held) => owed_code(held.catch_up()),
        None => Fault::Handle.code(),
    }
}

/// Gives up a player who vanished, for good: no datagram goes to it, and nothing of it is taken. The others
/// play on once all of them have given it up and have told each other what they have of it; until then a run
/// that lacks a command of it waits.
#[unsafe(no_mangle)]
pub extern "C" fn zmg_link_give_up(node: &mut Handle, player: u8, out: &mut GiveUpAnswer) -> u32
    ensures given { Calls link_of node.old node.new
        (λ n k. (given : GivingUp) × (out.new ≡ give_up_told given) × GivesUpIn player n k given)
        (out.new ≡ give_up_told NotPlaying) }
    ensures code { result ≡ out.new.code }
{
    let told = match node.link() {
        Some(held) => GiveUpAnswer::of(held.give_up(player)),
        None => GiveUpAnswer::of(GivenUp::NotPlaying),
    };
    *out = told;
    told.code
}
