//! The packets that go out.

ghost use Rattle.std.specs.{Prelude.◌≡◌, Prelude.◌≤◌, Prelude.length, Prelude.false, Prelude.Some, Prelude.None, Prelude.IfSome, Prelude.is_some, List.list_any, Option.option_map};
ghost use Rattle.dn_packet.specs.{Text.IsPacket, Text.text, Written.IsWritten};
ghost use Rattle.dn_lockstep.specs.{Tables.is_stop, Sent.IsFair, Sent.sent_to, Sent.after_giving, Sent.aim_of, Sent.bytes_of};

use super::Lockstep;
use super::aiming::{Aim, request_byte};
use arrayvec::ArrayVec;
use dn_machine::Phase;
use dn_packet::{Head, MAX_DATAGRAM, encode_parts, encode_to};
use dn_setup::to_packet;

impl Lockstep {
    ghost use Rattle.dn_lockstep.specs.{Contents.contents, Steps.Steps, Steps.Becomes, Steps.Tells, Giving.Reaches, Giving.Gives, Giving.gives, Giving.packet_of_aim, Giving.IsSentTo, Giving.IsSilent};
    ghost use Rattle.dn_lockstep.specs.{Giving.aim_in, Giving.size_in};

    /// Writes the packet of these numbers, with as many of the own commands from its start on, to the front
    /// of a room.
    fn write_own(&self, aim: &Aim, room: &mut [u8]) -> usize
        requires reach { Reaches (contents self.now) aim.now }
        requires fits { 104 ≤ length room.old }
        ensures written { IsWritten (text (packet_of_aim (contents self.now) aim.now)) room.old room.new
            result }
        ensures valid { IsPacket (packet_of_aim (contents self.now) aim.now) }
        ensures no_stop { list_any is_stop (packet_of_aim (contents self.now) aim.now).cmds.items ≡ false }
    {
        let (first, second) = self.rings.range(self.me, aim.start, aim.count);
        let head = Head {
            flags: aim.flags,
            ask: request_byte(aim.ask),
            start: (aim.start % 256) as u8,
            player: self.me,
        };
        encode_parts(&head, first, second, room)
    }

    /// Notes that a packet of these numbers was given: the next one goes on where it ends. Set-up packets are
    /// the same each time, and nothing is noted of them.
    fn note_sent(&mut self, to: u8, aim: &Aim)
        requires peer { Gives (contents self.old) to }
        requires reach { Reaches (contents self.old) aim.now }
        requires aimed { Tells (contents self.old)
            (λ limits me m. Some aim.now ≡ option_map aim_of (sent_to to limits me m).1) }
        ensures step { Becomes (contents self.old) (contents self.new)
            (λ limits me m. after_giving limits me m to m.phase) }
        ensures kept { contents self.new ≡ record (contents self.old) { peers = (contents self.new).peers } }
    {
        match self.phase {
            Phase::Listening | Phase::Gathering => (),
            Phase::Playing | Phase::Ended(_) => {
                let resend = (aim.start + u32::from(aim.count)).saturating_sub(self.lag());
                self.peers.resend_from(to, resend);
            }
        }
    }

    /// Writes the next packet to a peer to the front of a room, and answers its exact numbers and how many
    /// bytes it has; None where there is none.
    // Inlined, so that a caller who drops the numbers does not pay for them.
    #[inline(always)]
    pub fn packet_with_aim(&mut self, to: u8, room: &mut [u8]) -> Option<(Aim, usize)>
        requires { 104 ≤ length room.old }
        ensures sent { IsSentTo to (contents self.old) (contents self.new) room.old room.new (size_in result) }
        ensures aimed { Tells (contents self.old)
            (λ limits me m. aim_in result ≡ option_map aim_of (sent_to to limits me m).1) }
        ensures known { is_some result ≡ gives (contents self.old) to }
        ensures peer { IfSome result (λ given. Gives (contents self.old) to) }
        ensures fair { Tells (contents self.old) (λ limits me m. IfSome (sent_to to limits me m).1 IsFair) }
        ensures silent { IsSilent to (contents self.old) (contents self.new) room.old room.new (size_in result) }
    {
        let Some(aim) = self.aim(to) else {
            return None;
        };
        let Phase::Gathering = self.phase else {
            self.note_sent(to, &aim);
            return Some((aim, self.write_own(&aim, room)));
        };
        let Some(settings) = self.settings else {
            return None;
        };
        Some((aim, encode_to(&to_packet(&settings), room)))
    }

    /// Writes the next packet to a peer to the front of a room, and answers how many bytes it has, and 0
    /// where there is none.
    pub fn packet_to(&mut self, to: u8, room: &mut [u8]) -> usize
        requires { 104 ≤ length room.old }
        ensures sent { IsSentTo to (contents self.old) (contents self.new) room.old room.new result }
        ensures fair { Tells (contents self.old) (λ limits me m. IfSome (sent_to to limits me m).1 IsFair) }
        ensures silent { IsSilent to (contents self.old) (contents self.new) room.old room.new result }
    {
        match self.packet_with_aim(to, room) {
            Some((_, size)) => size,
            None => 0,
        }
    }

    /// The next packet to a peer; None for the node itself, for a number that is no player's, and where
    /// the node has nothing to give. A node that has played and ended gives one whenever it is asked.
    pub fn packet(&mut self, to: u8) -> Option<ArrayVec<u8, MAX_DATAGRAM>>
        ensures step { Steps (contents self.old) (contents self.new)
            (λ limits me m. sent_to to limits me m)
            (λ flight. option_map (λ bytes. bytes.items) result ≡ option_map bytes_of flight) }
        ensures fair { Tells (contents self.old) (λ limits me m. IfSome (sent_to to limits me m).1 IsFair) }
        ensures idle { result ≡ None → contents self.new ≡ contents self.old }
    {
        let mut room = [0; MAX_DATAGRAM];
        let Some((_, size)) = self.packet_with_aim(to, &mut room) else {
            return None;
        };
        let mut bytes = ArrayVec::new();
        let _ = bytes.try_extend_from_slice(&room[..size]);
        Some(bytes)
    }
}
