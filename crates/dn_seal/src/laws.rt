//! What holds of any bytes.

ghost use Rattle.std.specs.Prelude.{◌<◌, ◌^◌, ℕ, List, All, Result};
ghost use Rattle.dn_seal.specs.{declared.opened.Opened.Opened, declared.opened.SealFault.SealFault, Opening.Sealing, Opening.IsOpenedAs};

/// Every list of bytes is opened as a letter or as a fault.
#[tactic(auto, using(crate::proofs::Openings::is_something))]
pub fn every_list_is_opened()
    ensures { (sealing : Sealing) (bytes : List ℕ) → All (λ byte. byte < 2 ^ 8) bytes
        → (opened : Result Opened SealFault) × IsOpenedAs sealing bytes opened }
{}
