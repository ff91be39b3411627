//! All nodes of a game over UDP.

ghost use Rattle.std.specs.{Prelude.◌≡◌, Prelude.◌++◌, Prelude.[], Prelude.length, Prelude.IfOk, Prelude.IfErr, Prelude.IfSome, Prelude.OnOk, String.string_bytes};
ghost use Rattle.dn_demo.specs.Recorded.{IsLimit};
ghost use Rattle.dn_lockstep.specs.Opening.{IsGame};
ghost use Rattle.dn_netgame.specs.Lines.Udp.{IsBase};
ghost use Rattle.dn_netgame.specs.Turning.{LeadAll, TakeRounds};
ghost use Rattle.dn_netgame.specs.Texts.{node_lines};
ghost use Rattle.dn_netgame.specs.{PlayShown.IsLoop, Shown.PrintsOrFails, declared.transfer.RunFault.RunFault};

use crate::games::new_walks;
use crate::line::{Line, UdpLine};
use crate::netplay::{NO_SOCKET, NetRounds, UNBOUND};
use crate::text::push_node;
use crate::transfer::{RunFault, print};
use crate::turns::rounds;
use dn_game::{GameConfig, GameFault, nodes_of};
use dn_node::Node;
use dn_world::World;
use std::alloc::{AllocError, Global};
use std::io::Write;
use std::net::Net;

/// The lines of nodes, in their order.
fn push_all<W: World>(text: &mut String, nodes: &[Node<W>]) -> Result<(), AllocError>
    ensures { OnOk result (string_bytes text.new ≡ string_bytes text.old ++ node_lines [] 0 nodes.now) }
{
    for node in nodes {
        push_node(text, node, false)?;
    }
    Ok(())
}

/// Plays `count` rounds of the nodes, and answers their lines.
fn play_rounds<W: World, L: Line>(
    alloc: Global,
    nodes: &mut [Node<W>],
    line: &mut L,
    seed: u64,
    count: u32,
) -> Result<String, AllocError>
    ensures rounds { LeadAll W.state W.physics nodes.old nodes.new (λ seats after.
        TakeRounds L.sends L.polls L.failed W.physics seed (length nodes.old) count (seats, line.old) (
          after,
          line.new,
        )) }
    ensures each { length nodes.new ≡ length nodes.old }
    ensures text { IfOk result (λ text. string_bytes text ≡ node_lines [] 0 nodes.new) }
{
    rounds(nodes, line, seed, count);
    let mut text = String::new(alloc);
    push_all(&mut text, nodes)?;
    Ok(text)
}

/// The lines of new nodes that have played the rounds with each other over UDP; None where a socket cannot be
/// bound.
fn play_all<R: Net>(
    rt: &R,
    alloc: Global,
    config: GameConfig,
    players: u8,
    net: NetRounds,
) -> Result<Option<String>, RunFault>
    requires base { IsBase net.base }
    requires players { IsGame players }
    requires limit { IsLimit config.limit }
    ensures played { IfOk result
        (λ found. IfSome found (λ text. IsLoop config players net.base net.seed net.count
        (string_bytes text) 0)) }
    ensures fault { IfErr result (λ fault. fault ≡ RunFault.Memory) }
{
    let walks = new_walks(alloc, players)?;
    let mut nodes = match nodes_of(alloc, config, walks) {
        Ok(nodes) => nodes,
        Err(GameFault::Memory) => return Err(RunFault::Memory),
        Err(GameFault::Players | GameFault::Limit) => unreachable!(),
    };
    let Ok(mut line) = UdpLine::bind(rt, alloc, net.base, 0, players - 1, players) else {
        return Ok(None);
    };
    let text = play_rounds(alloc, nodes.as_mut_slice(), &mut line, net.seed, net.count)?;
    Ok(Some(text))
}

/// Plays `count` rounds of a game of `players` new walks, each over a socket of its own, and writes the lines
/// of its nodes. The answer is the exit status: 0, and 3 where a socket cannot be bound. A send or a poll
/// that fails ends nothing.
///
/// A write that fails or takes no bytes is the fault `Write`, and `Memory` is answered where memory for the
/// nodes or for their printed lines was refused. Each ends the run there.
pub fn run_loop<R: Net, W: Write>(
    rt: &R,
    alloc: Global,
    config: GameConfig,
    players: u8,
    base: u16,
    seed: u64,
    count: u32,
    output: &mut W,
) -> Result<u8, RunFault>
    requires base { IsBase base }
    requires players { IsGame players }
    requires limit { IsLimit config.limit }
    ensures { PrintsOrFails W.contents (IsLoop config players base seed count) output.old output.new result }
{
    let net = NetRounds { base, seed, count };
    let Some(text) = play_all(rt, alloc, config, players, net)? else {
        return print(output, NO_SOCKET.as_bytes(), UNBOUND);
    };
    print(output, text.as_bytes(), 0)
}
