//! What a node does with a datagram.

ghost use Rattle.std.specs.Prelude.{◌≡◌, ◌≢◌, ◌<◌, false, Result, Ok};
ghost use Rattle.dn_setup.specs.{Settings.Settings, Setup.IsSetupReadAs, declared.setup.SetupFault.SetupFault};
ghost use Rattle.dn_machine.specs.{declared.answers.Phase.TheVariants.Gathering, Hearing.on_gathering};
ghost use Rattle.dn_lockstep.specs.{Phases.hears_none, Received.on_read, Received.on_set_up, Received.on_player};

use super::Lockstep;
use crate::reading::{has_flag, packet_drop, setup_drop};
use dn_machine::{Dropped, Heard, Phase};
use dn_packet::{KILL, Packet, SETUP, decode_into};
use dn_setup::from_packet;

/// The number of the key player.
const KEY: u8 = 0;

impl Lockstep {
    ghost use Rattle.dn_lockstep.specs.{Contents.contents, Contents.whose, Hearing.HearsAny, Hearing.HearsNear, Hearing.Spares, Steps.Simulates, Steps.Steps};

    /// Whether it has ended without having played.
    fn hears_none(&self) -> bool
        ensures { result ≡ hears_none (contents self.now).phase (contents self.now).played }
    {
        match self.phase {
            Phase::Ended(_) => !self.played,
            Phase::Listening | Phase::Gathering | Phase::Playing => false,
        }
    }

    /// Hears a datagram that came from player `from`. A datagram that is dropped changes nothing. At `Started`
    /// the caller begins its world with the start of `settings` and the seats of `present`.
    #[inline(always)]
    pub fn receive(&mut self, from: u8, bytes: &[u8]) -> Heard
        ensures any { HearsAny from bytes.now (contents self.old) (contents self.new) result }
        ensures near { HearsNear from bytes.now (contents self.old) (contents self.new) result }
        ensures dropped { Spares (contents self.old) (contents self.new) result }
    {
        if self.hears_none() {
            return Heard::Dropped(Dropped::NotPlaying as u8);
        }
        if from >= self.players || from == self.me {
            return Heard::Dropped(Dropped::Stranger as u8);
        }
        let mut packet = Packet::empty();
        match decode_into(bytes, &mut packet) {
            Ok(()) => self.hear(from, &packet),
            Err(fault) => Heard::Dropped(packet_drop(fault)),
        }
    }

    /// Hears a peer's packet.
    fn hear(&mut self, from: u8, packet: &Packet) -> Heard
        requires peer { from < (contents self.old).players }
        requires other { from ≢ (contents self.old).me }
        requires hears { hears_none (contents self.old).phase (contents self.old).played ≡ false }
        ensures same { whose (contents self.new) ≡ whose (contents self.old) }
        ensures step { (told : Result Settings SetupFault) → IsSetupReadAs packet.now told
            → Simulates (contents self.old) (contents self.new)
            (λ limits me m. on_read limits me m from told (Ok packet.now)) (λ heard. result ≡ heard) }
        ensures dropped { Spares (contents self.old) (contents self.new) result }
    {
        if has_flag(packet, SETUP) {
            return self.hear_set_up(from, packet);
        }
        if let Phase::Listening = self.phase {
            return Heard::Dropped(Dropped::NotPlaying as u8);
        }
        if packet.player != from {
            return Heard::Dropped(Dropped::Stranger as u8);
        }
        if has_flag(packet, KILL) {
            return Heard::Dropped(Dropped::Kill as u8);
        }
        self.hear_player(from, packet)
    }

    /// Hears a player's packet of commands, by where the node stands.
    fn hear_player(&mut self, from: u8, packet: &Packet) -> Heard
        requires peer { from < (contents self.old).players }
        requires other { from ≢ (contents self.old).me }
        requires hears { hears_none (contents self.old).phase (contents self.old).played ≡ false }
        ensures step { Steps (contents self.old) (contents self.new)
            (λ limits me m. on_player limits me m from packet.now m.phase) (λ heard. result ≡ heard) }
        ensures dropped { Spares (contents self.old) (contents self.new) result }
    {
        match self.phase {
            Phase::Listening => Heard::Dropped(Dropped::NotPlaying as u8),
            Phase::Gathering => self.hear_gathering(from),
            Phase::Playing => self.take(from, packet),
            Phase::Ended(_) => self.answer(from, packet),
        }
    }

    /// Hears a set-up packet, which only a listener takes, and only from the key player.
    #[tactic(auto, using(crate::proofs::After::after))]
    fn hear_set_up(&mut self, from: u8, packet: &Packet) -> Heard
        ensures same { whose (contents self.new) ≡ whose (contents self.old) }
        ensures step { (told : Result Settings SetupFault) → IsSetupReadAs packet.now told
            → Simulates (contents self.old) (contents self.new)
            (λ limits me m. on_set_up limits me m from told m.phase) (λ heard. result ≡ heard) }
        ensures dropped { Spares (contents self.old) (contents self.new) result }
    {
        let Phase::Listening = self.phase else {
            return Heard::Dropped(Dropped::OutOfPlace as u8);
        };
        if from != KEY {
            return Heard::Dropped(Dropped::OutOfPlace as u8);
        }
        match from_packet(packet) {
            Ok(settings) => {
                self.start(settings);
                Heard::Started
            }
            Err(fault) => Heard::Dropped(setup_drop(fault)),
        }
    }

    /// Hears a peer while gathering, and starts once every peer was heard. What the packet carries is
    /// not kept.
    pub(super) fn hear_gathering(&mut self, from: u8) -> Heard
        requires gathers { (contents self.old).phase ≡ Gathering }
        requires peer { from < (contents self.old).players }
        ensures step { Steps (contents self.old) (contents self.new)
            (λ limits me m. on_gathering limits m from) (λ heard. result ≡ heard) }
        ensures dropped { Spares (contents self.old) (contents self.new) result }
    {
        if !self.gather.hear(from) {
            return Heard::Noted;
        }
        // a node that gathers has settings
        if let Some(settings) = self.settings {
            self.start(settings);
        }
        Heard::Started
    }
}
