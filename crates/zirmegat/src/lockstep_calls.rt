//! The calls on locksteps alone.

ghost use Rattle.std.specs.Prelude.{◌≡◌, ◌<◌, ◌≤◌, length, Option, is_some};
ghost use Rattle.std.specs.Option.{option_map};
ghost use Rattle.dn_machine.specs.declared.answers.Heard.{Heard as Hearing};
ghost use Rattle.dn_lockstep.specs.declared.lockstep.aiming.Aim.{Aim as Aimed};
ghost use Rattle.dn_lockstep.specs.Sent.{aim_of, sent_to};
ghost use Rattle.dn_lockstep.specs.Giving.{gives};
ghost use Rattle.dn_lockstep.specs.Steps.{Tells};
ghost use Rattle.zirmegat.specs.Calls.{lockstep_of, Calls, Reads};
ghost use Rattle.zirmegat.specs.Going.{Hears, Sends};
ghost use Rattle.zirmegat.specs.Locksteps.{heard_at, heard_told, IsAimed};

use crate::fault::{DONE, Fault};
use crate::handle::Handle;
use crate::lockstep_answers::{AimFields, HeardAnswer};
use dn_packet::MAX_DATAGRAM;

/// Writes the next packet to a player, and returns how many bytes it has, and 0 where there is none. Where the
/// room is below 104 bytes, it returns 0, and the lockstep stays as it is.
#[unsafe(no_mangle)]
pub extern "C" fn zmg_lockstep_packet(node: &mut Handle, to: u8, out: &mut [u8]) -> usize
    ensures given { 104 ≤ length out.old → Calls lockstep_of node.old node.new
        (λ n k. Sends to out.old out.new result n k) ((result ≡ 0) × (out.new ≡ out.old)) }
    ensures no_room { length out.old < 104 → (result ≡ 0) × (node.new ≡ node.old) × (out.new ≡ out.old) }
{
    if out.len() < MAX_DATAGRAM {
        return 0;
    }
    match node.lockstep() {
        Some(held) => held.packet_to(to, out),
        None => 0,
    }
}

/// Writes the exact numbers of the packet that `zmg_lockstep_packet` would give now, if there is one.
#[unsafe(no_mangle)]
pub extern "C" fn zmg_lockstep_aim(node: &mut Handle, to: u8, out: &mut AimFields) -> u32
    ensures { Reads lockstep_of node.old node.new
        (λ n. (aim : Option Aimed) × IsAimed aim result out.old out.new
        × Tells n (λ limits me m. aim ≡ option_map aim_of (sent_to to limits me m).1)
        × (is_some aim ≡ gives n to))
        ((result ≡ 1) × (out.new ≡ out.old)) }
{
    match node.lockstep() {
        Some(held) => match held.aim(to) {
            Some(aim) => {
                *out = AimFields::of(aim);
                DONE
            }
            None => Fault::NotNow.code(),
        },
        None => Fault::Handle.code(),
    }
}

/// Receives a datagram that came from player `from`. Where the code is 1, the caller begins its world.
#[unsafe(no_mangle)]
pub extern "C" fn zmg_lockstep_receive(
    node: &mut Handle,
    from: u8,
    bytes: &[u8],
    out: &mut HeardAnswer,
) -> u32
    ensures heard { Calls lockstep_of node.old node.new
        (λ n k. (heard : Hearing) × (out.new ≡ heard_told heard) × Hears from bytes.now n k heard)
        (out.new ≡ heard_at 0 0) }
    ensures code { result ≡ out.new.code }
{
    let told = match node.lockstep() {
        Some(held) => HeardAnswer::of(held.receive(from, bytes)),
        None => HeardAnswer::at(0, 0),
    };
    *out = told;
    told.code
}
