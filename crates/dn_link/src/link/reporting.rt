//! What a link tells of those who are given up: reports, beside the parts of its datagrams; and to one who is
//! given up that it is. And datagrams without packets.

use super::Link;
use crate::bundle::{Bundle, Part};
use crate::counting::counts_of;
use crate::ends::{EXCLUDES, PROBE};
use crate::room::parts_room;
use crate::writing::seal_bundle;
use arrayvec::ArrayVec;
use dn_survivor::report::{MAX_REPORT, decode};

/// How many bytes a datagram has for its report and its parts.
const ROOM: usize = 1139;

impl Link {
    ghost use Rattle.std.specs.{Prelude.{◌≡◌, ◌+◌, ◌<◌, ◌≤◌, IfSome, if◌then◌else◌, Result, length}, Option.option_map};
    ghost use Rattle.dn_survivor.specs.{ReportBytes.{IsReadAs, IsReport}, declared.report.{Report.Report, ReportFault.ReportFault}};
    ghost use Rattle.dn_link.specs.{Linked.{TakesRead, exclusion, exclusion_for, probe, probe_for, probed, remains, report_beside, surviving_of, written}, Linking.{linked, overdue_of, seal_of}};
    ghost use Rattle.dn_link.specs.{Pacing.pace_of, Text.{IsBundle, parts_bytes}};
    ghost use Rattle.dn_link.specs.Packing.{parts_room};

    /// The bytes of the report to a peer, if there is one, and room for it beside these parts.
    pub(super) fn report_beside(&self, to: u8, parts: &[Part]) -> ArrayVec<u8, MAX_REPORT>
        requires { parts_room parts.now ≤ 1118 }
        ensures bytes { result.items ≡ written (report_beside (surviving_of (linked self.now)) to parts.now) }
        ensures proper { IfSome (report_beside (surviving_of (linked self.now)) to parts.now) IsReport }
        ensures room { length result.items + parts_room parts.now ≤ 1139 }
    {
        let mut bytes = ArrayVec::new();
        let Some(report) = self.survivor.report(to) else {
            return bytes;
        };
        let mut room = [0; MAX_REPORT];
        let size = report.encode(&mut room);
        if size <= ROOM - parts_room(parts) {
            dn_seal::append(&mut bytes, &room[..size]);
        }
        bytes
    }

    /// Takes in what a peer's datagram has as its report, if it is one.
    pub(super) fn take_report(&mut self, from: u8, bytes: &[u8])
        ensures told { (read : Result Report ReportFault) × IsReadAs bytes.now read
            × TakesRead from read (linked self.old) (linked self.new) }
        ensures gone { (linked self.new).others.gone ≡ (linked self.old).others.gone }
        ensures pace { pace_of self.new ≡ pace_of self.old }
        ensures seal { seal_of self.new ≡ seal_of self.old }
    {
        if let Ok(report) = decode(bytes) {
            let _ = self.survivor.hear(from, report);
        }
    }

    /// That a player is given up, for it.
    fn exclusion(&self, to: u8) -> Bundle
        ensures is { result ≡ exclusion (linked self.now) to }
        ensures from { result.from ≡ (linked self.now).node.me }
    {
        Bundle {
            from: self.me(),
            to,
            number: 0,
            lead: 0,
            holes: 0,
            cause: EXCLUDES,
            counts: counts_of(self.lockstep(), 0),
            report: ArrayVec::new(),
            parts: ArrayVec::new(),
        }
    }

    /// What a player is told who is given up: that it is, and no more. None to any other. It changes nothing
    /// there: the link answers `Excluded`.
    pub fn exclusion_datagram(&self, to: u8) -> Option<ArrayVec<u8, 1200>>
        ensures sealed { option_map (λ bytes. bytes.items) result ≡ exclusion_for (seal_of self.now) (linked self.now) to }
        ensures fits { IfSome result (λ bytes. IsBundle (exclusion (linked self.now) to)) }
    {
        if !self.is_peer(to) || !self.has_given_up(to) {
            return None;
        }
        Some(seal_bundle(&self.sealer, &self.exclusion(to)))
    }

    /// The bundle that tells a peer how far this player is, and no more.
    fn empty(&self, to: u8) -> Bundle
        requires few { to < 4 }
        ensures is { result ≡ probe (pace_of self.now) (linked self.now) to }
        ensures from { result.from ≡ (linked self.now).node.me }
        ensures cause { result.cause ≤ 5 }
    {
        let line = self.pace.line(to);
        Bundle {
            number: self.peer(to).number,
            lead: line.own_lead,
            holes: line.missing(),
            cause: PROBE,
            counts: counts_of(self.lockstep(), line.own_echo()),
            ..self.exclusion(to)
        }
    }

    /// A datagram to a peer has taken its number.
    fn count_datagram(&mut self, to: u8)
        requires { to < 4 }
        ensures link { linked self.new ≡ probed (linked self.old) to }
        ensures overdue { overdue_of self.new ≡ overdue_of self.old }
        ensures pace { pace_of self.new ≡ pace_of self.old }
        ensures seal { seal_of self.new ≡ seal_of self.old }
    {
        let _ = self.peers[to as usize].next_number();
    }

    /// What goes to where a peer may be, before it has shown that it receives there: how far this player is, and no
    /// packets. It has 62 bytes, and its cause is [`PROBE`]. None to a number that is no peer's, nor to one who is given up.
    pub fn probe(&mut self, to: u8) -> Option<ArrayVec<u8, 1200>>
        ensures sealed { option_map (λ bytes. bytes.items) result
            ≡ probe_for (seal_of self.old) (pace_of self.old) (linked self.old) to }
        ensures fits { IfSome result (λ bytes. IsBundle (probe (pace_of self.old) (linked self.old) to)) }
        ensures link { linked self.new
            ≡ (if remains (linked self.old) to then probed (linked self.old) to else linked self.old) }
        ensures overdue { overdue_of self.new ≡ overdue_of self.old }
        ensures pace { pace_of self.new ≡ pace_of self.old }
        ensures seal { seal_of self.new ≡ seal_of self.old }
    {
        if !self.is_peer(to) || self.has_given_up(to) {
            return None;
        }
        let bundle = self.empty(to);
        self.count_datagram(to);
        Some(seal_bundle(&self.sealer, &bundle))
    }
}
