//! The calls that move a session on.

ghost use Rattle.std.specs.Prelude.{◌≡◌, ◌<◌, ◌≤◌, false, Bool, length, option_map};
ghost use Rattle.dn_session.specs.Passing.{sent_of};
ghost use Rattle.dn_session.specs.Session.{can_give, GivesPart, GivesUpPart, HearsAny, Kicks, QuitsPart};
ghost use Rattle.dn_tic.specs.declared.input.Input.TheVariants.{Given};
ghost use Rattle.zirmegat.specs.Calls.{Calls, Reads, session_of};
ghost use Rattle.zirmegat.specs.Commands.{given_in};
ghost use Rattle.zirmegat.specs.Faults.{done_code};
ghost use Rattle.zirmegat.specs.Sessions.{polled_code, IsSent, Plays, PollsTo, SendsInto};

use crate::bytes;
use crate::commands::{CommandFields, given};
use crate::fault::{DONE, Fault, done_code};
use crate::handle::Handle;
use dn_lockstep::NodeFault;
use dn_session::{Address, Transmit};
use dn_tic::Input;
use std::alloc::Global;

/// The room that what a session sends needs at most.
const MAX_SENT: usize = 1200;

/// Where a datagram comes from or goes to.
type Bytes = [u8; 32];

/// Takes any bytes that came from an address at this time. Send what is to be sent before the next ones.
#[unsafe(no_mangle)]
pub extern "C" fn zmg_session_receive(
    session: &mut Handle,
    from: &Bytes,
    bytes: &[u8],
    now: u32,
) -> u32
    ensures { Calls session_of session.old session.new
        (λ n k. (result ≡ 0) × HearsAny (record { bytes = from.now }) bytes.now now n k) (result ≡ 1) }
{
    match session.session() {
        Some(held) => {
            held.receive(&Address { bytes: *from }, bytes, now);
            DONE
        }
        None => Fault::Handle.code(),
    }
}

/// Whether its part in the game could be made.
fn polled_code(began: Result<bool, NodeFault>) -> u32
    ensures { result ≡ polled_code began }
{
    match began {
        Ok(_) => DONE,
        Err(_) => Fault::Memory.code(),
    }
}

/// Does what is due at this time; and once the game has begun, makes its player's part in it, which takes
/// memory. Where there is none for it a later call tries again.
#[unsafe(no_mangle)]
pub extern "C" fn zmg_session_poll(alloc: Global, session: &mut Handle, now: u32) -> u32
    ensures { Calls session_of session.old session.new (λ n k. PollsTo now n k result) (result ≡ 1) }
{
    match session.session() {
        Some(held) => {
            held.poll(now);
            polled_code(held.begin(alloc, now))
        }
        None => Fault::Handle.code(),
    }
}

/// Bytes into a room, and where they go to into another.
fn put_sent(sent: Option<Transmit>, to: &mut Bytes, out: &mut [u8]) -> usize
    requires { 1200 ≤ length out.old }
    ensures { IsSent (option_map sent_of sent) to.old to.new out.old out.new result }
{
    match sent {
        Some(sent) => {
            let address = sent.to.bytes;
            *to = address;
            bytes::write(sent.bytes.as_slice(), out)
        }
        None => 0,
    }
}

/// Writes what is to be sent next to the front of a room, and where it goes to into another, and returns how
/// many bytes it has; 0 where there is nothing. Where the room is below 1,200 bytes, it returns 0, and all
/// stays.
#[unsafe(no_mangle)]
pub extern "C" fn zmg_session_transmit(
    session: &mut Handle,
    to: &mut Bytes,
    out: &mut [u8],
) -> usize
    ensures sends { 1200 ≤ length out.old → Calls session_of session.old session.new
        (SendsInto to.old to.new out.old out.new result)
        ((result ≡ 0) × (to.new ≡ to.old) × (out.new ≡ out.old)) }
    ensures no_room { length out.old < 1200
        → (result ≡ 0) × (session.new ≡ session.old) × (to.new ≡ to.old) × (out.new ≡ out.old) }
{
    if out.len() < MAX_SENT {
        return 0;
    }
    match session.session() {
        Some(held) => put_sent(held.transmit(), to, out),
        None => 0,
    }
}

/// Whether a tick is due, for which its player is to give a command.
#[unsafe(no_mangle)]
pub extern "C" fn zmg_session_wants_input(session: &mut Handle, now: u32) -> bool
    ensures { Reads session_of session.old session.new (λ m. result ≡ can_give now m.part) (result ≡ false) }
{
    match session.session() {
        Some(held) => held.wants_input(now),
        None => false,
    }
}

/// Its player gives the command of the tick that is due. Where none is, nothing changes.
#[unsafe(no_mangle)]
pub extern "C" fn zmg_session_give(session: &mut Handle, command: &CommandFields, now: u32) -> u32
    ensures { Calls session_of session.old session.new (λ n k. (gave : Bool) × (result ≡ done_code gave)
        × Plays (λ old new. GivesPart now (Given (given_in command.now)) old new gave) n k) (result ≡ 1) }
{
    match session.session() {
        Some(held) => done_code(held.give(Input::Given(given(command)), now)),
        None => Fault::Handle.code(),
    }
}

/// Its player leaves the game, if it plays. Poll it and send on until it is over. In the lobby it does nothing.
#[unsafe(no_mangle)]
pub extern "C" fn zmg_session_quit(session: &mut Handle, now: u32) -> u32
    ensures { Calls session_of session.old session.new
        (λ n k. (result ≡ 0) × Plays (QuitsPart now) n k) (result ≡ 1) }
{
    match session.session() {
        Some(held) => {
            held.quit(now);
            DONE
        }
        None => Fault::Handle.code(),
    }
}

/// Its player gives up another, once the game has stood still for three seconds: any other, if it leads, and
/// else the one that leads. Else nothing changes.
#[unsafe(no_mangle)]
pub extern "C" fn zmg_session_give_up(session: &mut Handle, player: u8, now: u32) -> u32
    ensures { Calls session_of session.old session.new (λ n k. (gave : Bool) × (result ≡ done_code gave)
        × Plays (λ old new. GivesUpPart player now old new gave) n k) (result ≡ 1) }
{
    match session.session() {
        Some(held) => done_code(held.give_up(player, now)),
        None => Fault::Handle.code(),
    }
}

/// Turns away who holds this seat, 1 to 3, if it is the host and the game has not begun.
#[unsafe(no_mangle)]
pub extern "C" fn zmg_session_kick(session: &mut Handle, seat: u8) -> u32
    ensures { Calls session_of session.old session.new (λ n k. (result ≡ 0) × Kicks seat n k) (result ≡ 1) }
{
    match session.session() {
        Some(held) => {
            held.kick(seat);
            DONE
        }
        None => Fault::Handle.code(),
    }
}
