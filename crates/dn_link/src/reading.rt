//! Reading any bytes as the datagram of a bundle.

ghost use Rattle.std.specs.Prelude.{◌≤◌, ◌≡◌, length, Result};
ghost use Rattle.dn_seal.specs.Sealing.{sealing};
ghost use Rattle.dn_link.specs.{declared.bundle.Bundle.Bundle, declared.bundle.BundleFault.BundleFault, Told.{report_size, told_bundle, told_counts}, Reading.IsBundledAs};

mod parts;

use crate::bundle::{Bundle, BundleFault, Counts};
use crate::ends::PROBE;
use crate::writing::KIND;
use arrayvec::ArrayVec;
use dn_seal::{Sealer, append, tic_at};
use dn_survivor::report::MAX_REPORT;
use parts::parts_in;

/// The highest byte of a cause.
const MOST_CAUSE: u8 = PROBE;

/// How many bytes of a report stand behind the counts.
fn report_size(body: &[u8]) -> usize
    requires { 45 ≤ length body.now }
    ensures { result ≡ report_size body.now }
{
    usize::from(u16::from_le_bytes([body[43], body[44]]))
}

/// The counts in twenty-four bytes.
fn counts_in(bytes: &[u8]) -> Counts
    requires { 24 ≤ length bytes.now }
    ensures { result ≡ told_counts bytes.now }
{
    Counts {
        made: tic_at(bytes, 0),
        echo: tic_at(bytes, 4),
        got: [
            tic_at(bytes, 8),
            tic_at(bytes, 12),
            tic_at(bytes, 16),
            tic_at(bytes, 20),
        ],
    }
}

/// The bundle in these bytes, the first twelve of which were tested.
fn bundle_in(body: &[u8]) -> Option<Bundle>
    requires { 46 ≤ length body.now }
    ensures { result ≡ told_bundle body.now }
{
    if body[18] > MOST_CAUSE {
        return None;
    }
    let size = report_size(body);
    if size > MAX_REPORT || body.len() < 45 + size {
        return None;
    }
    let parts = parts_in(&body[45 + size..])?;
    let mut report = ArrayVec::new();
    append(&mut report, &body[45..45 + size]);
    Some(Bundle {
        from: body[10],
        to: body[11],
        number: tic_at(body, 12),
        lead: body[16].cast_signed(),
        holes: body[17],
        cause: body[18],
        counts: counts_in(&body[19..]),
        report,
        parts,
    })
}

/// Opens a datagram to this player, or returns the first fault that the bytes have.
#[tactic(auto, using(crate::proofs::Wholes::only_short, crate::proofs::Wholes::only_long, crate::proofs::Wholes::only_game, crate::proofs::Wholes::only_receiver, crate::proofs::Wholes::only_tag, crate::proofs::Wholes::only_form, crate::proofs::Wholes::only_bundle, crate::proofs::Wholes::formless, crate::proofs::Wholes::datagram_is, crate::proofs::Wholes::eight_long))]
pub fn open_bundle(sealer: &Sealer, bytes: &[u8]) -> Result<Bundle, BundleFault>
    ensures opens { IsBundledAs (sealing sealer.now) bytes.now result }
    ensures only { (read : Result Bundle BundleFault)
        → IsBundledAs (sealing sealer.now) bytes.now read → result ≡ read }
{
    if bytes.len() < 62 {
        return Err(BundleFault::Short);
    }
    if bytes.len() > 1200 {
        return Err(BundleFault::Long);
    }
    if bytes[0] != sealer.front(KIND)[0] {
        return Err(BundleFault::Suite);
    }
    if bytes[1] != KIND {
        return Err(BundleFault::Kind);
    }
    if !sealer.is_of_game(bytes) {
        return Err(BundleFault::Game);
    }
    if bytes[11] != sealer.me() {
        return Err(BundleFault::Receiver);
    }
    if !sealer.is_tagged(bytes) {
        return Err(BundleFault::Tag);
    }
    match bundle_in(&bytes[..bytes.len() - 16]) {
        Some(bundle) => Ok(bundle),
        None => Err(BundleFault::Form),
    }
}
