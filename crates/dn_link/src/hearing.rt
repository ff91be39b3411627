//! Hearing what a datagram carries.

ghost use Rattle.std.specs.{Prelude.◌≡◌, List.flat_map};
ghost use Rattle.dn_lockstep.specs.Contents.{contents};
ghost use Rattle.dn_survivor.specs.OfOthers.{has};
ghost use Rattle.dn_open.specs.{Arrivals.HearsOpened, Arrivals.SparesSealed, declared.hearing.Arrived.Arrived};
ghost use Rattle.dn_link.specs.{Counting.held_of, Hearing.HearsAll, Packets.opened_from, Packets.packets_of, Packets.heard_of, Packets.heard_in, Packets.takes_relay, declared.bundle.Part.TheVariants.Run as of_run};

use crate::bundle::{Bundle, Carried, Part, Relay, Run};
use crate::counting::held_of;
use crate::short::short_packet;
use arrayvec::ArrayVec;
use dn_lockstep::Lockstep;
use dn_open::hear;
use dn_seal::{Opened, append};

/// A packet as it would be opened, had it come alone.
fn opened_from(from: u8, packet: &Carried) -> Opened
    ensures { result ≡ opened_from from packet.now }
{
    let mut datagram = ArrayVec::new();
    append(&mut datagram, packet.datagram.as_slice());
    Opened {
        from,
        start: packet.start,
        ask: packet.ask,
        datagram,
    }
}

/// Hears a packet.
fn hear_packet(lockstep: &mut Lockstep, from: u8, packet: &Carried)
    ensures { (answer : Arrived)
        × HearsOpened (opened_from from packet.now) (contents lockstep.old) (contents lockstep.new) answer
        × SparesSealed (contents lockstep.old) (contents lockstep.new) answer }
{
    let _ = hear(lockstep, &opened_from(from, packet));
}

/// Hears the packets of a run.
#[tactic(auto, using(crate::proofs::Hearings::run_begins, crate::proofs::Hearings::run_ends))]
fn hear_run(lockstep: &mut Lockstep, from: u8, run: &Run)
    ensures { HearsAll (packets_of from (of_run run.now)) (contents lockstep.old) (contents lockstep.new) }
{
    let mut start = run.start;
    let mut rest = run.commands.as_slice();
    'commands: for done in 0..rest.len() / 8 {
        let mut command = [0; 8];
        command.copy_from_slice(&rest[..8]);
        hear_packet(lockstep, from, &short_packet(from, start, &command));
        start = start.wrapping_add(1);
        rest = &rest[8..];
    }
}

/// Whether a player is one of those who are given up.
pub(crate) fn is_gone(gone: &[bool; 4], player: u8) -> bool
    ensures { result ≡ has gone.now player }
{
    gone.get(usize::from(player)).copied().unwrap_or(false)
}

/// Whether commands of a third player are taken: it is not given up, and no command is missing before them.
/// Those past a gap would be asked for again of their maker, which may be out of reach.
fn takes_relay(gone: &[bool; 4], counts: &[u32; 4], relay: &Relay) -> bool
    ensures { result ≡ takes_relay (has gone.now) counts.now relay.now }
{
    let count = counts.get(usize::from(relay.player)).copied().unwrap_or(0);
    !is_gone(gone, relay.player) && relay.run.start <= count
}

/// Hears the packets of a part, and of what is handed on those that are taken.
fn hear_part(lockstep: &mut Lockstep, from: u8, gone: &[bool; 4], counts: &[u32; 4], part: &Part)
    ensures { HearsAll (heard_of (takes_relay (has gone.now) counts.now) from part.now) (contents lockstep.old)
        (contents lockstep.new) }
{
    match part {
        Part::Whole(packet) => hear_packet(lockstep, from, packet),
        Part::Run(run) => hear_run(lockstep, from, run),
        Part::Relay(relay) => {
            if takes_relay(gone, counts, relay) {
                hear_run(lockstep, relay.player, &relay.run);
            }
        }
    }
}

/// Hears the packets of parts.
fn hear_parts(
    lockstep: &mut Lockstep,
    from: u8,
    gone: &[bool; 4],
    counts: &[u32; 4],
    parts: &[Part],
)
    ensures { HearsAll (flat_map (heard_of (takes_relay (has gone.now) counts.now) from) parts.now)
        (contents lockstep.old) (contents lockstep.new) }
{
    let mut rest = parts;
    'parts: while let Some((part, after)) = rest.split_first() {
        hear_part(lockstep, from, gone, counts, part);
        rest = after;
    }
}

/// Hears what a datagram carries, oldest first, but of what is handed on no commands of a player who is given
/// up, and none past a gap.
pub(crate) fn hear_bundle(lockstep: &mut Lockstep, gone: &[bool; 4], bundle: &Bundle)
    ensures { HearsAll (heard_in (takes_relay (has gone.now) (held_of (contents lockstep.old))) bundle.now)
        (contents lockstep.old) (contents lockstep.new) }
{
    let counts = held_of(lockstep);
    hear_parts(
        lockstep,
        bundle.from,
        gone,
        &counts,
        bundle.parts.as_slice(),
    );
}
