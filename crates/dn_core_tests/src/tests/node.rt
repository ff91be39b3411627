//! Tests of locksteps where memory is refused, and of nodes that step a world: where memory is refused, and each call
//! once over a Walk, since a generic call is proved for all worlds at once. What the calls do is said by the scripts of
//! `checks/scripts/node`.

use super::{LIMIT, STILL, config_of, datagram};
use dn_lockstep::Lockstep;
use dn_node::{Heard, Made, Node, NodeFault, Phase, Ran};
use dn_shared_tests::{granted, holds, must, same};
use dn_tic::{Command, Keys, TicCmd};
use dn_world::Walk;
use std::process::Abort;

/// Each request for memory may be refused: then the answer says so, and there is no other.
#[test]
fn refused_memory_makes_no_lockstep(ref rt: HostRuntime) {
    let made = Lockstep::new(rt.alloc(), must!(rt; config_of((2, 0), false, LIMIT)));
    if let Some(node) = granted!(rt; "Lockstep::new", made, NodeFault::Memory) {
        same!(rt; node.phase(), Phase::Gathering);
    }
}

/// The same in a window.
#[test]
fn refused_memory_makes_no_lockstep_in_a_window(ref rt: HostRuntime) {
    let made = Lockstep::within(rt.alloc(), must!(rt; config_of((2, 0), false, LIMIT)), 12);
    if let Some(node) = granted!(rt; "Lockstep::within", made, NodeFault::Memory) {
        same!(rt; node.phase(), Phase::Gathering);
    }
}

/// Each request for memory may be refused: then the answer says so, and there is no other.
#[test]
fn refused_memory_is_told(rt: HostRuntime) {
    let rt = &rt;
    let config = must!(rt; config_of((2, 0), false, LIMIT));
    let made = Node::new(rt.alloc(), config, Walk::new());
    if let Some(node) = granted!(rt; "Node::new", made, NodeFault::Memory) {
        same!(rt; node.phase(), Phase::Gathering);
    }
}

/// What player 0 of two tells at first.
fn tells(rt: &impl Abort, node: &Node<Walk>) {
    same!(rt; (node.me(), node.players()), (0, 2));
    same!(rt; node.phase(), Phase::Gathering);
    same!(rt; (node.made(), node.ran()), (0, 0));
    same!(rt; (node.got(1), node.end(1)), (Some(0), None));
    same!(rt; node.command(1, 0), None);
    holds!(rt; node.settings().is_some());
    holds!(rt; node.aim(1).is_some());
}

/// Builds, and takes a command. This call has no contract, nor have those below: a test that calls a node
/// itself has all that the node promises in its own proof, which takes seconds.
fn builds(node: &mut Node<Walk>) -> (Made, Made) {
    let built = node.build(Keys::from_bits(0));
    (built, node.give(Command::default()))
}

/// Whether there is a packet, and another.
fn gives(node: &mut Node<Walk>) -> (bool, bool) {
    let mut room = [0; 104];
    let first = node.packet(1).is_some();
    (first, node.packet_with_aim(1, &mut room).is_some())
}

/// Hears these commands of player 1.
fn hears(node: &mut Node<Walk>, commands: &[TicCmd]) -> Heard {
    node.receive(1, datagram(0, (0, 0, 1), commands).as_slice())
}

/// Runs, and quits.
fn runs(node: &mut Node<Walk>) -> (Ran, bool) {
    let ran = node.run();
    (ran, node.quit())
}

#[test]
fn a_node_over_a_walk_is_called(rt: HostRuntime) {
    let rt = &rt;
    let config = must!(rt; config_of((2, 0), false, LIMIT));
    let mut node = must!(rt; Node::new(rt.alloc(), config, Walk::new()));
    tells(rt, &node);
    same!(rt; hears(&mut node, &[]), Heard::Started);
    holds!(rt; node.can_build());
    same!(rt; builds(&mut node), (Made::Made(0), Made::Made(1)));
    same!(rt; gives(&mut node), (true, true));
    same!(rt; hears(&mut node, &[STILL]), Heard::Taken(1));
    same!(rt; runs(&mut node), (Ran::Ran(0), true));
    same!(rt; node.world().x(0), Some(0));
    same!(rt; node.demo().len(), 24);
}
