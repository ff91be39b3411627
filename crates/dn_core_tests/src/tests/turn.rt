//! Turns and rounds over a line of one's own, and refused memory where lines are made.

use super::input_of;
use dn_netgame::line::{Datagram, HubFault, Line, LineFault, MemoryHub, UdpLine};
use dn_netgame::turns::{round_with, rounds, turn, turn_with};
use dn_node::{Config, Node};
use dn_setup::Settings;
use dn_shared_tests::{granted, holds, must, same};
use dn_tic::Keys;
use dn_world::Walk;
use std::alloc::Global;
use std::test::Fail;

/// A line in memory that loses one of every `lost_of` datagrams, and answers that it was sent.
#[derive(Drop)]
struct Losing {
    hub: MemoryHub,
    /// One of every this many is lost.
    lost_of: u32,
    /// How many came since the last that was lost.
    kept: u32,
}

impl Line for Losing {
    ghost sends = { λ old me to bytes answer new. Unit {0} };

    ghost polls = { λ old me answer new. Unit {0} };

    ghost failed = { λ line. line.hub.failed };

    fn send(&mut self, me: u8, to: u8, bytes: &[u8]) -> Result<(), LineFault> {
        self.kept = self.kept.saturating_add(1);
        if self.kept >= self.lost_of {
            self.kept = 0;
            return Ok(());
        }
        self.hub.send(me, to, bytes)
    }

    fn poll(&mut self, me: u8) -> Result<Option<Datagram>, LineFault> {
        self.hub.poll(me)
    }
}

/// Two new nodes: skill 2, episode 1, map 1, and no repeats.
fn pair(alloc: Global) -> Result<[Node<Walk>; 2], Fail> {
    let key = Config {
        players: 2,
        me: 0,
        extra: false,
        limit: 131_072,
        settings: Some(Settings::new(2, 0, false, false, 1, 1)?),
    };
    let other = Config {
        me: 1,
        settings: None,
        ..key
    };
    Ok([
        Node::new(alloc, key, Walk::new())?,
        Node::new(alloc, other, Walk::new())?,
    ])
}

/// What is lost silently is asked for again: no call fails, and the nodes play.
#[test]
fn turns_are_taken_over_a_line_of_ones_own(rt: HostRuntime) {
    let rt = &rt;
    let mut nodes = must!(rt; pair(rt.alloc()));
    let hub = must!(rt; MemoryHub::new(rt.alloc(), 2));
    let mut line = Losing {
        hub,
        lost_of: 3,
        kept: 0,
    };
    let inputs = [0, 1, 2, 3].map(input_of);
    same!(rt; turn(&mut nodes[0], &mut line, Keys::from_bits(0)).sent, 1);
    same!(rt; turn_with(&mut nodes[1], &mut line, input_of(0)).heard, 1);
    round_with(&mut nodes, &mut line, &inputs);
    rounds(&mut nodes, &mut line, 1, 400);
    holds!(rt; nodes[0].ran() >= 20);
    holds!(rt; nodes[1].ran() >= 20);
    same!(rt; line.hub.failed(), 0);
}

/// Each request for memory may be refused: then the answer says so, and there is no other.
#[test]
fn refused_memory_makes_no_hub(rt: HostRuntime) {
    let rt = &rt;
    let made = MemoryHub::new(rt.alloc(), 4);
    if let Some(hub) = granted!(rt; "MemoryHub::new", made, HubFault::Memory) {
        same!(rt; hub.failed(), 0);
    }
}

/// Each request for memory may be refused: then there is no line, and the next is bound.
#[test]
fn refused_memory_binds_no_line(rt: HostRuntime) {
    let rt = &rt;
    for step in 0..200u16 {
        let bound = UdpLine::bind(rt, rt.alloc(), 32_000 + 8 * step, 0, 3, 4);
        if let Some(line) = granted!(rt; "UdpLine::bind", bound, LineFault::Bind) {
            same!(rt; line.failed(), 0);
            return;
        }
    }
    holds!(rt; false, "no port is free");
}
