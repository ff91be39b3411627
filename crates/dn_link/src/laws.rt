//! What holds of datagrams.

ghost use Rattle.std.specs.Prelude.{◌≡◌, ◌≤◌, length, Result, Ok};
ghost use Rattle.dn_seal.specs.{Opening.Sealing};
ghost use Rattle.dn_link.specs.{declared.{bundle.{Bundle.Bundle, BundleFault.BundleFault}}};
ghost use Rattle.dn_link.specs.{Reading.IsBundledAs, Text.{IsBundle, sealed_bytes}};

/// What was written is read back: the datagram of a bundle is read by its receiver as that bundle, and as
/// nothing else.
pub fn bundles_are_read_back()
    ensures { (sealing : Sealing) (bundle : Bundle) → 8 ≤ length sealing.seal.game → IsBundle bundle
        → bundle.to ≡ sealing.me → length (sealed_bytes sealing.seal bundle) ≤ 1200
        → (read : Result Bundle BundleFault) → IsBundledAs sealing (sealed_bytes sealing.seal bundle) read
        → read ≡ Ok bundle }
{}
