//! What a node does with a player's packet of commands: it takes them while it plays, and hears
//! requests alone once it has played and ended.

ghost use Rattle.std.specs.Prelude.{◌≡◌, ◌≢◌, ◌<◌, true};
ghost use Rattle.dn_machine.specs.{declared.answers.Cause.Cause, declared.answers.Phase.TheVariants.Playing, declared.answers.Phase.TheVariants.Ended, Hearing.left_or};
ghost use Rattle.dn_lockstep.specs.Received.{on_player};

use super::Lockstep;
use crate::peers::is_strange_end;
use crate::reading::{has_flag, request, start};
use dn_machine::{Dropped, Heard};
use dn_packet::{EXIT, Packet};

/// The answer to a packet up to whose end nothing is missing.
fn left_or(exit: bool, heard: Heard) -> Heard
    ensures { result ≡ left_or exit heard }
{
    if exit { Heard::Left } else { heard }
}

impl Lockstep {
    ghost use Rattle.dn_lockstep.specs.{Contents.contents, Hearing.Spares, Steps.Steps};

    /// Takes the commands of a player's packet while it plays (`d_net.c`, GetPackets), and the end that
    /// an EXIT packet tells.
    pub(super) fn take(&mut self, from: u8, packet: &Packet) -> Heard
        requires peer { from < (contents self.old).players }
        requires other { from ≢ (contents self.old).me }
        ensures step { Steps (contents self.old) (contents self.new)
            (λ limits me m. on_player limits me m from packet.now Playing) (λ heard. result ≡ heard) }
        ensures dropped { Spares (contents self.old) (contents self.new) result }
    {
        let made = self.made();
        let start = match start(made, packet) {
            Ok(start) => start,
            Err(number) => return Heard::Dropped(number),
        };
        let commands = packet.cmds.as_slice();
        let end = start + commands.len() as u32;
        if end > self.ran + self.places {
            return Heard::Dropped(Dropped::Overrun as u8);
        }
        let exit = has_flag(packet, EXIT);
        let got = self.rings.count(from);
        if is_strange_end(exit, got, self.peers.get(from).end, end) {
            return Heard::Dropped(Dropped::End as u8);
        }
        self.peers
            .ask(from, self.places, made, request(made, packet));
        self.peers.tell(from, exit, end);
        if end <= got {
            return left_or(exit, Heard::Stale);
        }
        if start > got {
            self.peers.want(from, true);
            return Heard::Gap;
        }
        self.peers.want(from, false);
        self.rings
            .put_all(from, &commands[(got - start) as usize..]);
        left_or(exit, Heard::Taken(end - got))
    }

    /// Hears the request of a player who plays on, once it has played and ended.
    pub(super) fn answer(&mut self, from: u8, packet: &Packet) -> Heard
        requires peer { from < (contents self.old).players }
        requires other { from ≢ (contents self.old).me }
        requires played { (contents self.old).played ≡ true }
        ensures step { (cause : Cause) → Steps (contents self.old) (contents self.new)
            (λ limits me m. on_player limits me m from packet.now (Ended cause)) (λ heard. result ≡ heard) }
        ensures dropped { Spares (contents self.old) (contents self.new) result }
    {
        if has_flag(packet, EXIT) {
            return Heard::Dropped(Dropped::NotPlaying as u8);
        }
        let made = self.made();
        if let Err(number) = start(made, packet) {
            return Heard::Dropped(number);
        }
        self.peers
            .ask(from, self.places, made, request(made, packet));
        Heard::Noted
    }
}
