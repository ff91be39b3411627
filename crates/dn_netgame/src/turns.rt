//! A turn of a node over a line, and rounds of turns.

ghost use Rattle.std.specs.Prelude.{◌≡◌, ◌≤◌, ◌+◌, ℕ, ◌%◌, ◌^◌, length};
ghost use Rattle.dn_node.specs.Contents.{contents, whose, whose_of};
ghost use Rattle.dn_netgame.specs.{Turning.Leads, Turning.risen, Turning.IsGiven, Turning.Reading, Turning.Receives, Turning.IsHeard, Turning.IsRunOn, Turning.IsTurn, Turning.AreOf, Turning.drawn_in, Turning.LeadAll, Turning.TakeTurns, Turning.TakeRounds};
ghost use Rattle.dn_tic.specs.declared.input.Input.TheVariants.{Pressed};
ghost use Rattle.dn_machine.specs.Sending.{on_build};
ghost use Rattle.dn_node.specs.Steps.{Steps};
ghost use Rattle.rand_pcg.specs.Pcg.{pcg32};
ghost use Rattle.dn_tic.specs.{declared.input.Input.Input, Inputs.input_of};

use crate::line::{Datagram, Line};
use dn_machine::{Made, Ran};
use dn_node::Node;
use dn_packet::every_datagram_is_read;
use dn_setup::every_packet_is_told;
use dn_tic::{Input, Keys, input_of};
use dn_world::World;
use rand_core::utils::NextWord;
use rand_pcg::Lcg64Xsh32;

/// How many packets were sent, and how many sends failed.
#[derive(Clone, Copy)]
struct Given {
    /// How many packets were sent.
    pub sent: u32,
    /// How many sends failed.
    pub failed: u32,
}

/// Gives a packet to each peer in rising order, and sends it.
fn give_all<W: World, L: Line>(node: &mut Node<W>, line: &mut L) -> Given
    ensures given { Leads W.state W.physics (contents node.old) (contents node.new) (λ rules me m after.
        IsGiven L.sends rules me (m, line.old) (after, line.new) result.sent result.failed) }
    ensures counted { L.failed line.new ≡ risen result.failed (L.failed line.old) }
    ensures whose { whose (contents node.new) ≡ whose (contents node.old) }
    ensures few { result.sent + result.failed ≤ 255 }
{
    let mut given = Given { sent: 0, failed: 0 };
    let me = node.me();
    for to in 0..node.players() {
        let Some(bytes) = node.packet(to) else {
            continue;
        };
        match line.send(me, to, &bytes) {
            Ok(()) => given.sent += 1,
            Err(_) => given.failed += 1,
        }
    }
    given
}

/// How many polls a turn makes for each peer, at most.
const POLLS: u32 = 10;

/// How many datagrams were received, and how many polls failed.
#[derive(Clone, Copy)]
struct Polled {
    /// How many datagrams were received.
    pub heard: u32,
    /// How many polls failed.
    pub failed: u32,
}

/// Whatever the bytes are, they are read as something.
fn are_read(bytes: &[u8])
    ensures { Reading bytes.now }
{
    every_datagram_is_read();
    every_packet_is_told();
}

/// Receives a datagram.
fn hear<W: World>(node: &mut Node<W>, datagram: &Datagram)
    ensures heard { Leads W.state W.physics (contents node.old) (contents node.new) (λ rules me m after.
        Receives rules me m datagram.now after) }
    ensures whose { whose (contents node.new) ≡ whose (contents node.old) }
{
    let bytes = datagram.bytes.as_slice();
    are_read(bytes);
    node.receive(datagram.from, bytes);
}

/// Receives what the line gives, up to the first poll that finds nothing or fails.
fn hear_all<W: World, L: Line>(node: &mut Node<W>, line: &mut L) -> Polled
    ensures heard { Leads W.state W.physics (contents node.old) (contents node.new) (λ rules me m after.
        IsHeard L.polls rules me (m, line.old) (after, line.new) result.heard result.failed) }
    ensures counted { L.failed line.new ≡ risen result.failed (L.failed line.old) }
    ensures whose { whose (contents node.new) ≡ whose (contents node.old) }
    ensures few { result.failed ≤ 1 }
{
    let me = node.me();
    let most = POLLS * u32::from(node.players()).saturating_sub(1);
    for heard in 0..most {
        match line.poll(me) {
            Ok(Some(datagram)) => hear(node, &datagram),
            Ok(None) => return Polled { heard, failed: 0 },
            Err(_) => return Polled { heard, failed: 1 },
        }
    }
    Polled {
        heard: most,
        failed: 0,
    }
}

/// Runs tics as long as there are any to run, and answers how many.
fn run_all<W: World>(node: &mut Node<W>) -> u32
    ensures run { Leads W.state W.physics (contents node.old) (contents node.new) (λ rules me m after.
        IsRunOn rules m after result) }
    ensures whose { whose (contents node.new) ≡ whose (contents node.old) }
{
    let mut ran = 0;
    while let Ran::Ran(_) = node.run() {
        ran += 1;
    }
    ran
}

/// What a turn did.
#[derive(Clone, Copy, Debug, PartialEq, Eq)]
pub struct Turned {
    /// What the build answered.
    pub made: Made,
    /// How many packets were sent.
    pub sent: u32,
    /// How many sends and polls failed.
    pub failed: u32,
    /// How many datagrams were received.
    pub heard: u32,
    /// How many tics were run.
    pub ran: u32,
}

/// Builds the command of the keys, or takes the command that is given.
fn make<W: World>(node: &mut Node<W>, input: Input) -> Made
    ensures { Steps W.state W.physics (contents node.old) (contents node.new)
        (λ rules me m. on_build rules.limits me m input) (λ made. result ≡ made) }
{
    match input {
        Input::Pressed(keys) => node.build(keys),
        Input::Given(command) => node.give(command),
    }
}

/// One turn with an input: a command is built of the keys, or taken as it is given; then a packet for each
/// peer, at most ten polls for each peer up to the first that finds nothing or fails, and runs up to the first
/// that runs no tic. A packet whose send fails is lost.
pub fn turn_with<W: World, L: Line>(node: &mut Node<W>, line: &mut L, input: Input) -> Turned
    ensures turned { Leads W.state W.physics (contents node.old) (contents node.new) (λ rules me m after.
        IsTurn L.sends L.polls rules me input (m, line.old) (after, line.new) result) }
    ensures counted { L.failed line.new ≡ risen result.failed (L.failed line.old) }
    ensures whose { whose (contents node.new) ≡ whose (contents node.old) }
{
    let made = make(node, input);
    let given = give_all(node, line);
    let polled = hear_all(node, line);
    let ran = run_all(node);
    Turned {
        made,
        sent: given.sent,
        failed: given.failed + polled.failed,
        heard: polled.heard,
        ran,
    }
}

/// One turn with keys that are down.
pub fn turn<W: World, L: Line>(node: &mut Node<W>, line: &mut L, keys: Keys) -> Turned
    ensures turned { Leads W.state W.physics (contents node.old) (contents node.new) (λ rules me m after.
        IsTurn L.sends L.polls rules me (Pressed keys) (m, line.old) (after, line.new) result) }
    ensures counted { L.failed line.new ≡ risen result.failed (L.failed line.old) }
    ensures whose { whose (contents node.new) ≡ whose (contents node.old) }
{
    turn_with(node, line, Input::Pressed(keys))
}

/// The players' generators, which all go on by one word in each round.
#[derive(Drop)]
struct Streams {
    zero: Lcg64Xsh32,
    one: Lcg64Xsh32,
    two: Lcg64Xsh32,
    three: Lcg64Xsh32,
}

/// The keys of the next word.
fn drawn(stream: &mut Lcg64Xsh32) -> Keys
    ensures keys { result ≡ (pcg32 stream.old).0 % 2 ^ 18 }
    ensures stream { stream.new ≡ (pcg32 stream.old).1 }
{
    Keys::from_bits(stream.next_word())
}

impl Streams {
    ghost use Rattle.dn_netgame.specs.Turning.{AreAt};

    /// The generators before the first round.
    #[tactic(auto, using(crate::proofs::Turning::no_more))]
    pub(crate) fn new(seed: u64) -> Streams
        ensures { AreAt seed 0 result }
    {
        Streams {
            zero: Lcg64Xsh32::new(seed, 0),
            one: Lcg64Xsh32::new(seed, 1),
            two: Lcg64Xsh32::new(seed, 2),
            three: Lcg64Xsh32::new(seed, 3),
        }
    }

    /// What the players press in the next round.
    fn draw(&mut self) -> [Input; 4]
        ensures keys { (seed round : ℕ) → AreAt seed round self.old → AreOf (drawn_in seed round) result }
        ensures next { (seed round : ℕ) → AreAt seed round self.old → AreAt seed (round + 1) self.new }
    {
        [
            Input::Pressed(drawn(&mut self.zero)),
            Input::Pressed(drawn(&mut self.one)),
            Input::Pressed(drawn(&mut self.two)),
            Input::Pressed(drawn(&mut self.three)),
        ]
    }
}

/// One turn of each node, in the slice's order.
fn take_turns<W: World, L: Line>(nodes: &mut [Node<W>], line: &mut L, inputs: &[Input; 4])
    ensures turns { (by : ℕ → Input) → AreOf by inputs.now
        → LeadAll W.state W.physics nodes.old nodes.new (λ seats after.
        TakeTurns L.sends L.polls L.failed W.physics by (length nodes.old) (seats, line.old) (
          after,
          line.new,
        )) }
    ensures nodes { length nodes.new ≡ length nodes.old }
    ensures whose { whose_of nodes.new ≡ whose_of nodes.old }
{
    for place in 0..nodes.len() {
        let node = &mut nodes[place];
        let input = input_of(inputs, u32::from(node.me()));
        turn_with(node, line, input);
    }
}

/// Plays a round: one turn of each node, in the slice's order, with its player's own one of these inputs.
pub fn round_with<W: World, L: Line>(nodes: &mut [Node<W>], line: &mut L, inputs: &[Input; 4])
    ensures round { LeadAll W.state W.physics nodes.old nodes.new (λ seats after.
        TakeTurns L.sends L.polls L.failed W.physics (input_of inputs.now) (length nodes.old)
        (seats, line.old) (after, line.new)) }
    ensures nodes { length nodes.new ≡ length nodes.old }
    ensures whose { whose_of nodes.new ≡ whose_of nodes.old }
{
    take_turns(nodes, line, inputs);
}

/// Plays `count` rounds: in each, one turn of each node, in the slice's order, with keys drawn from the seed.
pub fn rounds<W: World, L: Line>(nodes: &mut [Node<W>], line: &mut L, seed: u64, count: u32)
    ensures rounds { LeadAll W.state W.physics nodes.old nodes.new (λ seats after.
        TakeRounds L.sends L.polls L.failed W.physics seed (length nodes.old) count (seats, line.old) (
          after,
          line.new,
        )) }
    ensures nodes { length nodes.new ≡ length nodes.old }
    ensures whose { whose_of nodes.new ≡ whose_of nodes.old }
{
    let mut streams = Streams::new(seed);
    for _ in 0..count {
        let inputs = streams.draw();
        take_turns(nodes, line, &inputs);
    }
}
