//! One player's node over UDP.

ghost use Rattle.std.specs.Prelude.{◌≡◌, ◌<◌, length, Err, IfOk, IfErr, IfSome};
ghost use Rattle.dn_demo.specs.Recorded.{IsLimit};
ghost use Rattle.dn_node.specs.Contents.{contents};
ghost use Rattle.dn_lockstep.specs.Opening.{IsGame, IsKeyed};
ghost use Rattle.dn_netgame.specs.Lines.Udp.{IsBase};
ghost use Rattle.dn_netgame.specs.Turning.{LeadAll};
ghost use Rattle.dn_netgame.specs.{PlayShown.PlaysOut, PlayShown.HasEverPlayed, PlayShown.IsPlay, Shown.PrintsOrFails, declared.transfer.RunFault.RunFault};

use crate::line::{Line, UdpLine};
use crate::text::push_node;
use crate::transfer::{RunFault, print};
use crate::turns::rounds;
use dn_node::{Config, Node, NodeFault};
use dn_world::{Walk, World};
use std::alloc::Global;
use std::io::Write;
use std::net::Net;
use std::slice;

/// Rounds over UDP: the port of player 0, the seed of the keys, and how many rounds.
#[derive(Clone, Copy)]
pub(crate) struct NetRounds {
    pub(crate) base: u16,
    pub(crate) seed: u64,
    pub(crate) count: u32,
}

/// What is printed where a socket cannot be bound.
pub(crate) const NO_SOCKET: &str = "socket fault\n";

/// The exit status where a socket cannot be bound.
pub(crate) const UNBOUND: u8 = 3;

/// How many rounds a node takes once it has quit, to tell the others.
const FAREWELLS: u32 = 4;

/// Plays `count` rounds of a node, which then quits and tells the others.
fn play_out<W: World, L: Line>(nodes: &mut [Node<W>], line: &mut L, seed: u64, count: u32)
    requires { length nodes.old ≡ 1 }
    ensures played { LeadAll W.state W.physics nodes.old nodes.new (λ seats after.
        PlaysOut L.sends L.polls L.failed W.physics seed count (seats, line.old) (after, line.new)) }
{
    rounds(nodes, line, seed, count);
    nodes[0].quit();
    rounds(nodes, line, seed, FAREWELLS);
}

/// A new node that has played the rounds as one player over UDP, and told the others of its end; None where its
/// socket cannot be bound.
fn play<R: Net>(
    rt: &R,
    alloc: Global,
    config: Config,
    net: NetRounds,
) -> Result<Option<Node<Walk>>, RunFault>
    requires base { IsBase net.base }
    requires players { IsGame config.players }
    requires me { config.me < config.players }
    requires keyed { IsKeyed config }
    requires limit { IsLimit config.limit }
    ensures played { IfOk result
        (λ found. IfSome found (λ node. HasEverPlayed config net.base net.seed net.count
        (contents node))) }
    ensures fault { IfErr result (λ fault. fault ≡ RunFault.Memory) }
{
    let (me, players) = (config.me, config.players);
    let mut node = match Node::new(alloc, config, Walk::new()) {
        Ok(node) => node,
        Err(NodeFault::Memory) => return Err(RunFault::Memory),
        Err(
            NodeFault::Players
            | NodeFault::Me
            | NodeFault::Key
            | NodeFault::Limit
            | NodeFault::Ahead,
        ) => unreachable!(),
    };
    let Ok(mut line) = UdpLine::bind(rt, alloc, net.base, me, me, players) else {
        return Ok(None);
    };
    play_out(slice::from_mut(&mut node), &mut line, net.seed, net.count);
    Ok(Some(node))
}

/// Plays `count` rounds as one player over UDP, quits, tells the others in four rounds more, and writes
/// the node's line, or its demo if `raw` is set. The answer is the exit status: 0, and 3 where the socket
/// cannot be bound. A send or a poll that fails ends nothing.
///
/// A write that fails or takes no bytes is the fault `Write`, and `Memory` is answered where memory for the
/// node or for its printed line was refused. Each ends the run there.
pub fn run_play<R: Net, W: Write>(
    rt: &R,
    alloc: Global,
    config: Config,
    base: u16,
    seed: u64,
    count: u32,
    raw: bool,
    output: &mut W,
) -> Result<u8, RunFault>
    requires base { IsBase base }
    requires players { IsGame config.players }
    requires me { config.me < config.players }
    requires keyed { IsKeyed config }
    requires limit { IsLimit config.limit }
    ensures { PrintsOrFails W.contents (IsPlay config base seed count raw) output.old output.new result }
{
    let net = NetRounds { base, seed, count };
    let Some(node) = play(rt, alloc, config, net)? else {
        return print(output, NO_SOCKET.as_bytes(), UNBOUND);
    };
    if raw {
        return print(output, node.demo(), 0);
    }
    let mut text = String::new(alloc);
    push_node(&mut text, &node, false)?;
    print(output, text.as_bytes(), 0)
}
