//! The lines of a datagram: its fields, or why it is none.

ghost use Rattle.std.specs.{Prelude.◌≡◌, Prelude.◌++◌, Prelude.IfOk, Prelude.OnOk, String.string_bytes};
ghost use Rattle.dn_netgame.specs.Texts.{fault_line, packet_line, command_line, lines_of};

use dn_measure::push_line;
use dn_packet::{Packet, PacketFault};
use dn_tic::TicCmd;
use std::alloc::{AllocError, Global};

fn push_fault(text: &mut String, fault: PacketFault) -> Result<(), AllocError>
    ensures { OnOk result (string_bytes text.new ≡ string_bytes text.old ++ fault_line fault) }
{
    let words = match fault {
        PacketFault::Short => "1 short\n",
        PacketFault::Many => "2 many\n",
        PacketFault::Length => "3 length\n",
        PacketFault::Sum => "4 sum\n",
    };
    text.push_str("dropped ")?;
    text.push_str(words)
}

#[tactic(auto, unfolding(crate::specs::Texts::packet_line))]
fn push_packet(text: &mut String, packet: &Packet) -> Result<(), AllocError>
    ensures { OnOk result (string_bytes text.new
        ≡ string_bytes text.old ++ packet_line packet.now) }
{
    let fields = [
        ("flags ", packet.flags as i128),
        (" ask ", packet.ask as i128),
        (" start ", packet.start as i128),
        (" player ", packet.player as i128),
        (" count ", packet.cmds.len() as i128),
    ];
    push_line(text, &fields)
}

#[tactic(auto, unfolding(crate::specs::Texts::command_line))]
fn push_command(text: &mut String, index: usize, command: TicCmd) -> Result<(), AllocError>
    ensures { OnOk result (string_bytes text.new
        ≡ string_bytes text.old ++ command_line index command) }
{
    let fields = [
        ("cmd ", index as i128),
        (" forward ", command.forward as i128),
        (" side ", command.side as i128),
        (" turn ", command.turn as i128),
        (" mark ", command.mark as i128),
        (" chat ", command.chat as i128),
        (" buttons ", command.buttons as i128),
    ];
    push_line(text, &fields)
}

/// The lines of what a datagram is read as: those of a packet and its commands, or the line that tells why it
/// is none. Err where memory is refused.
pub fn text_of_packet(
    alloc: Global,
    read: &Result<Packet, PacketFault>,
) -> Result<String, AllocError>
    ensures { IfOk result (λ text. string_bytes text ≡ lines_of read.now) }
{
    let mut text = String::new(alloc);
    match read {
        Ok(packet) => {
            push_packet(&mut text, packet)?;
            for (index, command) in packet.cmds.as_slice().iter().enumerate() {
                push_command(&mut text, index, *command)?;
            }
        }
        Err(fault) => push_fault(&mut text, *fault)?,
    }
    Ok(text)
}
