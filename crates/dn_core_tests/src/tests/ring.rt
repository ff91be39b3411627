//! Every call on a ring of twelve places: no other crate has one. What the calls give, at other numbers of
//! places too, a script tells (`checks/scripts/bytes/rings.script`).

use super::STILL;
use dn_ring::Ring;
use dn_shared_tests::same;
use dn_tic::TicCmd;

#[test]
fn a_ring_has_the_command_that_was_put(ref rt: HostRuntime) {
    let mut ring = Ring::new();
    assert_eq!(rt; ring.count(), 0);
    let command = TicCmd { chat: 7, ..STILL };
    ring.put(command);
    assert_eq!(rt; ring.count(), 1);
    same!(rt; (ring.get(0), ring.get(1)), (Some(command), None));
    same!(rt; (ring.at(0), ring.slot(0)), (command, command));
    same!(rt; ring.slots()[0], command);
    let (first, second) = ring.since(0);
    same!(rt; (first.len(), second.len()), (1, 0));
    let (first, second) = ring.range(0, 1);
    same!(rt; (first.len(), second.len()), (1, 0));
}
