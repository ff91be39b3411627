//! What a node looks for in a packet of commands, and why what cannot be read is dropped.

ghost use Rattle.std.specs.{Prelude.◌≡◌, Prelude.◌≤◌, Prelude.◌+◌, Prelude.false, Prelude.IfOk, List.list_any};
ghost use Rattle.dn_lockstep.specs.{Tables.is_stop, Received.request_in, Received.start_in, Received.has_flag};
ghost use Rattle.dn_lockstep.specs.Received.{packet_drop, setup_drop};

use dn_machine::Dropped;
use dn_packet::{Packet, PacketFault, RETRANSMIT};
use dn_setup::SetupFault;
use dn_tic::{TicCmd, expand};

/// Whether a flag of the packet is set.
pub(crate) fn has_flag(packet: &Packet, flag: u8) -> bool
    ensures { result ≡ has_flag packet.now flag }
{
    packet.flags & flag != 0
}

/// Whether some command would read as the end of a demo.
pub(crate) fn has_stop(commands: &[TicCmd]) -> bool
    ensures { result ≡ list_any is_stop commands.now }
{
    commands.iter().any(|command| command.forward == -128)
}

/// The tic of the packet's first command, or the number of its drop.
pub(crate) fn start(made: u32, packet: &Packet) -> Result<u32, u8>
    requires { made ≤ 1000000000 }
    ensures value { result ≡ start_in made packet.now }
    ensures close { IfOk result (λ tic. tic ≤ made + 191) }
    ensures no_stop { IfOk result (λ tic. list_any is_stop packet.now.cmds.items ≡ false) }
{
    let Some(start) = expand(made, packet.start) else {
        return Err(Dropped::Tic as u8);
    };
    if has_stop(packet.cmds.as_slice()) {
        return Err(Dropped::Command as u8);
    }
    Ok(start)
}

/// The tic from which the packet asks for commands again.
pub(crate) fn request(made: u32, packet: &Packet) -> Option<u32>
    requires { made ≤ 1000000000 }
    ensures { result ≡ request_in made packet.now }
{
    if has_flag(packet, RETRANSMIT) {
        expand(made, packet.ask)
    } else {
        None
    }
}

/// The number of the drop of bytes that are no packet.
pub(crate) fn packet_drop(fault: PacketFault) -> u8
    ensures { result ≡ packet_drop fault }
{
    match fault {
        PacketFault::Short => Dropped::Short as u8,
        PacketFault::Many => Dropped::Many as u8,
        PacketFault::Length => Dropped::Length as u8,
        PacketFault::Sum => Dropped::Sum as u8,
    }
}

/// The number of the drop of a set-up packet whose settings a listener cannot take.
pub(crate) fn setup_drop(fault: SetupFault) -> u8
    ensures { result ≡ setup_drop fault }
{
    match fault {
        SetupFault::NotSetup => Dropped::OutOfPlace as u8,
        SetupFault::Version => Dropped::Version as u8,
        SetupFault::Range => Dropped::Range as u8,
    }
}
