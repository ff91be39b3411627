//! Laws of set-up packets.

ghost use Rattle.std.specs.Prelude.{◌≡◌, Result, Ok};
ghost use Rattle.dn_packet.specs.{Text.IsPacket, declared.packet.Packet.Packet};
ghost use Rattle.dn_setup.specs.{Settings.Settings, Settings.IsSettings, Setup.setup_packet, Setup.IsSetupReadAs, Setup.Told, declared.setup.SetupFault.SetupFault};

/// Settings are found again in their packet, and nothing else is.
pub fn settings_found_again()
    ensures packet { (s : Settings) → IsSettings s → IsPacket (setup_packet s) }
    ensures found { (s : Settings) → IsSettings s → IsSetupReadAs (setup_packet s) (Ok s) }
    ensures only { (s : Settings) (r : Result Settings SetupFault)
        → IsSettings s → IsSetupReadAs (setup_packet s) r → r ≡ Ok s }
{}

/// Every packet is read as settings or as a fault.
#[tactic(auto, using(crate::proofs::Tellings::is_told))]
pub fn every_packet_is_told()
    ensures { (packet : Packet) → Told packet }
{}
