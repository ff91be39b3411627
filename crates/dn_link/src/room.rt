//! How many bytes parts are given room for: as many as they take with their commands whole.

ghost use Rattle.std.specs.Prelude.{◌≡◌, ◌≤◌};
ghost use Rattle.dn_link.specs.Packing.{part_room, parts_room};

use crate::bundle::Part;

/// The room for a part.
fn part_room(part: &Part) -> usize
    ensures { result ≡ part_room part.now }
{
    match part {
        Part::Whole(packet) => 11 + packet.datagram.len(),
        Part::Run(run) => 5 + run.commands.len(),
        Part::Relay(relay) => 6 + relay.run.commands.len(),
    }
}

/// The room for parts and their number.
pub(crate) fn parts_room(parts: &[Part]) -> usize
    requires { parts_room parts.now ≤ 1118 }
    ensures { result ≡ parts_room parts.now }
{
    let mut size = 1;
    let mut rest = parts;
    'parts: while let Some((part, after)) = rest.split_first() {
        size += part_room(part);
        rest = after;
    }
    size
}
