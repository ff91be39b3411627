//! Writing the datagram of a bundle.

ghost use Rattle.std.specs.Prelude.{◌≤◌, ◌≡◌, ◌+◌, ◌++◌, ◌∷◌, All, length};
ghost use Rattle.dn_seal.specs.Sealing.{sealing};
ghost use Rattle.dn_link.specs.Text.{AreCounts, IsBundle, IsPart, carried_bytes, counts_bytes, part_bytes, parts_bytes, report_field, run_bytes, run_head, sealed_bytes};

use crate::bundle::{Bundle, Carried, Counts, Part, Run};
use crate::differences::differences;
use arrayvec::ArrayVec;
use dn_seal::{Sealer, append, ask_bytes};

/// The kind of an envelope that holds a link's datagram.
pub(crate) const KIND: u8 = 5;

/// What the first byte of a run has added if the run is of a third player.
const THIRD: u8 = 32;

/// What it has added if its commands stand as differences.
pub(crate) const DIFFERENCES: u8 = 64;

/// How many bytes a part has at most: a third player's run of twenty-four commands that stand whole.
pub(crate) const PART_BYTES: usize = 198;

/// Appends how far the sender is.
fn append_counts(bytes: &mut ArrayVec<u8, 1200>, counts: &Counts)
    requires { length bytes.old.items + 24 ≤ 1200 }
    ensures more { bytes.new.items ≡ bytes.old.items ++ counts_bytes counts.now }
    ensures fits { AreCounts counts.now }
    ensures long { length bytes.new.items ≡ length bytes.old.items + 24 }
{
    let [a, b, c, d] = counts.got;
    append(bytes, &counts.made.to_le_bytes());
    append(bytes, &counts.echo.to_le_bytes());
    append(bytes, &a.to_le_bytes());
    append(bytes, &b.to_le_bytes());
    append(bytes, &c.to_le_bytes());
    append(bytes, &d.to_le_bytes());
}

/// Appends the bytes of a report, or none, behind their number.
fn append_report(bytes: &mut ArrayVec<u8, 1200>, report: &[u8])
    requires short { length report.now ≤ 397 }
    requires room { length bytes.old.items + 2 + length report.now ≤ 1200 }
    ensures { bytes.new.items ≡ bytes.old.items ++ report_field report.now }
{
    append(bytes, &(report.len() as u16).to_le_bytes());
    append(bytes, report);
}

/// Appends a packet as it is.
fn append_carried(bytes: &mut ArrayVec<u8, PART_BYTES>, packet: &Carried)
    requires { length bytes.old.items ≤ 1 }
    ensures { bytes.new.items ≡ bytes.old.items ++ carried_bytes packet.now }
{
    append(bytes, &packet.start.to_le_bytes());
    append(bytes, &ask_bytes(packet.ask));
    append(bytes, &[packet.datagram.len() as u8]);
    append(bytes, packet.datagram.as_slice());
}

/// Appends a run, and before its commands the number of its player if it is of a third.
fn append_run(bytes: &mut ArrayVec<u8, PART_BYTES>, third: u8, player: &[u8], run: &Run)
    requires third { third ≤ 32 }
    requires room { length bytes.old.items + length player.now ≤ 1 }
    ensures { bytes.new.items
        ≡ bytes.old.items ++ run_head third run.now.commands.items ∷ player.now ++ run_bytes run.now }
{
    let told = differences(run.commands.as_slice());
    let is_shorter = told.len() < run.commands.len();
    let form = if is_shorter { DIFFERENCES } else { 0 };
    let count = (run.commands.len() / 8) as u8;
    append(bytes, &[third + form + count]);
    append(bytes, player);
    append(bytes, &run.start.to_le_bytes());
    if is_shorter {
        append(bytes, told.as_slice());
    } else {
        append(bytes, run.commands.as_slice());
    }
}

/// The bytes of a part.
pub(crate) fn part_bytes(part: &Part) -> ArrayVec<u8, PART_BYTES>
    ensures { result.items ≡ part_bytes part.now }
{
    let mut bytes = ArrayVec::new();
    match part {
        Part::Whole(packet) => {
            append(&mut bytes, &[0]);
            append_carried(&mut bytes, packet);
        }
        Part::Run(run) => append_run(&mut bytes, 0, &[], run),
        Part::Relay(relay) => append_run(&mut bytes, THIRD, &[relay.player], &relay.run),
    }
    bytes
}

/// Appends parts.
fn append_parts(bytes: &mut ArrayVec<u8, 1200>, parts: &[Part])
    requires few { length parts.now ≤ 24 }
    requires room { length bytes.old.items + length (parts_bytes parts.now) ≤ 1200 }
    ensures more { bytes.new.items ≡ bytes.old.items ++ parts_bytes parts.now }
    ensures long { length bytes.new.items ≡ length bytes.old.items + length (parts_bytes parts.now) }
{
    append(bytes, &[parts.len() as u8]);
    let mut rest = parts;
    'parts: while let Some((part, after)) = rest.split_first() {
        append(bytes, part_bytes(part).as_slice());
        rest = after;
    }
}

/// The datagram of a bundle. What a datagram has beside its report and its parts is 45 bytes, and the tag.
pub fn seal_bundle(sealer: &Sealer, bundle: &Bundle) -> ArrayVec<u8, 1200>
    requires from { bundle.now.from ≡ (sealing sealer.now).me }
    requires fit { All IsPart bundle.now.parts.items }
    requires cause { bundle.now.cause ≤ 5 }
    requires room { length bundle.now.report.items + length (parts_bytes bundle.now.parts.items) ≤ 1139 }
    ensures text { result.items ≡ sealed_bytes (sealing sealer.now).seal bundle.now }
    ensures fits { IsBundle bundle.now }
{
    let mut bytes = ArrayVec::new();
    append(&mut bytes, &sealer.front(KIND));
    append(&mut bytes, &[sealer.me(), bundle.to]);
    append(&mut bytes, &bundle.number.to_le_bytes());
    append(
        &mut bytes,
        &[bundle.lead.cast_unsigned(), bundle.holes, bundle.cause],
    );
    append_counts(&mut bytes, &bundle.counts);
    append_report(&mut bytes, bundle.report.as_slice());
    append_parts(&mut bytes, bundle.parts.as_slice());
    let tag = sealer.tag(bytes.as_slice());
    append(&mut bytes, &tag);
    bytes
}
