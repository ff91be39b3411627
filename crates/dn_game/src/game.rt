//! All nodes of a game, and the packets that they sent.

ghost use Rattle.std.specs.{Prelude.◌≡◌, Prelude.◌<◌, Prelude.◌≤◌, Prelude.All, Prelude.length, Prelude.false, Prelude.slice_get, Prelude.slice_index_or, Prelude.Option, Option.option_copied};
ghost use Rattle.std.specs.{Vec.vec_capacity};
ghost use Rattle.dn_game.specs.Pool.{joined};

mod applying;
mod opening;

use crate::flight::Flight;
use crate::pool::Pool;
use dn_node::Node;
use dn_world::World;
pub use opening::nodes_of;

/// All nodes of a game, who of them has stopped, and every packet that was ever sent, in order.
#[derive(Drop)]
pub struct Game<W> {
    nodes: Vec<Node<W>>,
    stopped: [bool; 4],
    pool: Pool,
    ghost two: { 2 ≤ length nodes.items },
    ghost few: { length nodes.items ≤ 4 },
    // the list of nodes has memory for these, neither more nor fewer
    ghost exact: { vec_capacity nodes ≡ length nodes.items },
    ghost receivers: { All (λ flight. flight.to < length nodes.items) pool.flights },
}

impl<W: World> Game<W> {
    ghost use Rattle.dn_game.specs.Contents.{contents};

    /// How many nodes there are.
    pub(crate) fn players(&self) -> u32
        ensures value { result ≡ length (contents self.now).nodes }
        ensures two { 2 ≤ result }
        ensures few { result ≤ 4 }
    {
        self.nodes.len() as u32
    }

    /// The node of this number.
    pub fn node(&self, node: u32) -> Option<&Node<W>>
        ensures { option_copied result ≡ slice_get (contents self.now).nodes node }
    {
        self.nodes.get(node as usize)
    }

    /// Whether the node of this number has stopped.
    pub fn stopped(&self, node: u32) -> bool
        ensures { result ≡ slice_index_or (contents self.now).stopped node false }
    {
        self.stopped.get(node as usize).copied().unwrap_or(false)
    }

    /// How many packets were sent.
    pub fn flights(&self) -> usize
        ensures { result ≡ length (contents self.now).flights }
    {
        self.pool.len()
    }

    /// The packet of this number, counted from 0 in order of sending; None where no packet has it.
    pub fn flight(&self, which: usize) -> Option<Flight>
        ensures { result ≡ slice_get (contents self.now).flights which }
    {
        self.pool.flight(which)
    }

    /// The datagrams of all packets, in order of sending.
    pub fn pool(&self) -> &[u8]
        ensures { result.now ≡ joined (contents self.now).flights }
    {
        self.pool.bytes()
    }
}
