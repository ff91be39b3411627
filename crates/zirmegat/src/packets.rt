//! Datagrams as fields, with no node.

ghost use Rattle.std.specs.Prelude.{◌≡◌, ◌<◌, ◌≤◌, length, map, slice_get, Result};
ghost use Rattle.dn_packet.specs.{declared.packet.Packet.Packet as Sent, declared.packet.PacketFault.PacketFault as Fault, Read.IsReadAs, Text.text, Written.IsWritten};
ghost use Rattle.zirmegat.specs.Fields.{sent_told, sent_in, fields_of, packet_in, IsDecodedAs};

use crate::bytes;
use arrayvec::ArrayVec;
use dn_packet::{MAX_COMMANDS, Packet, PacketFault, decode, encode};
use dn_tic::TicCmd;

/// A tic command as a packet has it.
#[repr(C)]
#[derive(Clone, Copy, Debug, PartialEq, Eq)]
pub struct SentCommand {
    /// To the left, in 65536ths of a full turn.
    pub turn: i16,
    /// The consistency mark of the player's own world twelve tics before, 0 below tic 12.
    pub mark: i16,
    /// Forward, or back where negative.
    pub forward: i8,
    /// To the right, or to the left where negative.
    pub side: i8,
    /// A letter of chat.
    pub chat: u8,
    /// Attack, use and a change of weapon.
    pub buttons: u8,
}

impl SentCommand {
    /// No command.
    const NONE: SentCommand = SentCommand {
        turn: 0,
        mark: 0,
        forward: 0,
        side: 0,
        chat: 0,
        buttons: 0,
    };

    /// The command at this place, and all 0 where there is none.
    fn at(commands: &[TicCmd], place: usize) -> SentCommand
        ensures { result ≡ sent_told (slice_get commands.now place) }
    {
        SentCommand::of(commands.get(place).copied())
    }

    /// A command, and all 0 for none.
    fn of(command: Option<TicCmd>) -> SentCommand
        ensures { result ≡ sent_told command }
    {
        match command {
            Some(command) => SentCommand {
                turn: command.turn,
                mark: command.mark,
                forward: command.forward,
                side: command.side,
                chat: command.chat,
                buttons: command.buttons,
            },
            None => SentCommand::NONE,
        }
    }

    fn command(&self) -> TicCmd
        ensures { result ≡ sent_in self.now }
    {
        TicCmd {
            forward: self.forward,
            side: self.side,
            turn: self.turn,
            mark: self.mark,
            chat: self.chat,
            buttons: self.buttons,
        }
    }
}

/// A packet: what one node sends another in a datagram.
#[repr(C)]
#[derive(Clone, Copy, Debug, PartialEq, Eq)]
pub struct PacketFields {
    /// 8 EXIT, 4 RETRANSMIT, 2 SETUP, 1 KILL: a number below 16.
    pub flags: u8,
    /// The low byte of the tic from which commands are asked for again.
    pub ask: u8,
    /// The low byte of the tic of the first command.
    pub start: u8,
    /// The sender's number.
    pub player: u8,
    /// How many commands there are, 0 to 12.
    pub count: u8,
    /// The commands, and all 0 behind the last.
    pub commands: [SentCommand; MAX_COMMANDS],
}

/// The commands at these places.
macro_rules! at_places {
    ($commands:ident; $($place:literal)*) => {
        [$(SentCommand::at($commands, $place)),*]
    };
}

impl PacketFields {
    fn of(packet: &Packet) -> PacketFields
        ensures { result ≡ fields_of packet.now }
    {
        let commands = packet.cmds.as_slice();
        PacketFields {
            flags: packet.flags,
            ask: packet.ask,
            start: packet.start,
            player: packet.player,
            count: commands.len() as u8,
            commands: at_places!(commands; 0 1 2 3 4 5 6 7 8 9 10 11),
        }
    }

    /// The packet of these fields.
    fn packet(&self) -> Packet
        requires { self.now.count ≤ 12 }
        ensures { result ≡ packet_in self.now }
    {
        Packet {
            flags: self.flags,
            ask: self.ask,
            start: self.start,
            player: self.player,
            cmds: commands(&self.commands[..usize::from(self.count)]),
        }
    }
}

fn commands(fields: &[SentCommand]) -> ArrayVec<TicCmd, MAX_COMMANDS>
    requires { length fields.now ≤ 12 }
    ensures { result.items ≡ map sent_in fields.now }
{
    let mut found = ArrayVec::new();
    for command in fields {
        found.push(command.command());
    }
    found
}

/// Reads a datagram into fields: 0, or why the bytes are no packet, which leaves the fields as they were: 1
/// fewer than 8 bytes, 2 more than 12 commands, 3 a wrong length, 4 a wrong sum.
#[unsafe(no_mangle)]
pub extern "C" fn zmg_packet_decode(bytes: &[u8], packet: &mut PacketFields) -> u32
    ensures { (read : Result Sent Fault) → IsReadAs bytes.now read
        → IsDecodedAs read result packet.old packet.new }
{
    match decode(bytes) {
        Ok(read) => {
            *packet = PacketFields::of(&read);
            0
        }
        Err(PacketFault::Short) => 1,
        Err(PacketFault::Many) => 2,
        Err(PacketFault::Length) => 3,
        Err(PacketFault::Sum) => 4,
    }
}

/// Writes the datagram of these fields, with the first `count` commands, and answers how many bytes it has.
/// Where the flags are not below 16, there are more than 12 commands, or there is too little room, it writes
/// nothing and answers 0.
#[unsafe(no_mangle)]
pub extern "C" fn zmg_packet_encode(packet: &PacketFields, out: &mut [u8]) -> usize
    ensures written { packet.now.flags < 16 → packet.now.count ≤ 12
        → length (text (packet_in packet.now)) ≤ length out.old
        → IsWritten (text (packet_in packet.now)) out.old out.new result }
    ensures flags { 16 ≤ packet.now.flags → (result ≡ 0) × (out.new ≡ out.old) }
    ensures many { 12 < packet.now.count → (result ≡ 0) × (out.new ≡ out.old) }
    ensures no_room { length out.old < length (text (packet_in packet.now))
        → (result ≡ 0) × (out.new ≡ out.old) }
{
    if packet.flags >= 16 || usize::from(packet.count) > MAX_COMMANDS {
        return 0;
    }
    let text = encode(&packet.packet());
    if text.len() > out.len() {
        return 0;
    }
    bytes::write(text.as_slice(), out)
}
