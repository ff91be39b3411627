//! What a game has for each player.

ghost use Rattle.std.specs.Prelude.{◌≡◌, ℕ, Some, IfOk};
ghost use Rattle.dn_setup.specs.Settings.{Settings as Choice};
ghost use Rattle.dn_machine.specs.Limits.{Limits};
ghost use Rattle.dn_lockstep.specs.{Contents.Whose, Opening.IsAdmitted, Opening.limits_in, Opening.whose_in};

use dn_node::{Config, Node, NodeFault};
use dn_world::World;
use std::alloc::Global;

/// One player's node, which has a world.
pub trait GameNode<W: World>: Drop {
    // it has no history, as the node of this number in a game of these limits and this choice
    ghost is_fresh: { Limits → Choice → ℕ → Self → Type 0 };

    // its world
    ghost world_of: { Self → W };

    // whose it is, and of what game
    ghost whose: { Self → Whose };

    /// A node with no history: player 0 gathers, the others listen. All memory that it needs is taken here. Where
    /// there is no node the world is dropped, and the fault is the first thing that is wrong with the configuration,
    /// or `Memory` where nothing is.
    fn new(alloc: Global, config: Config, world: W) -> Result<Self, NodeFault>
        ensures admitted { IsAdmitted config result }
        ensures opened { IfOk result (λ node. (settings : Choice)
            → (config.me ≡ 0 → config.settings ≡ Some settings)
            → is_fresh (limits_in config) settings config.me node) }
        ensures given { IfOk result (λ node. world_of node ≡ world) }
        ensures whose { IfOk result (λ node. whose node ≡ whose_in config) };
}

impl<W: World> GameNode<W> for Node<W> {
    ghost use Rattle.dn_machine.specs.{Game.fresh, Worlds.rules_within};
    ghost use Rattle.dn_node.specs.Contents.{contents, whose as whose_node, Represents};

    ghost is_fresh = { λ limits settings i node. Represents W.state (rules_within W.physics limits) i
        (contents node) (fresh settings i) };

    ghost world_of = { λ node. (contents node).world };

    ghost whose = { λ node. whose_node (contents node) };

    fn new(alloc: Global, config: Config, world: W) -> Result<Node<W>, NodeFault> {
        Node::new(alloc, config, world)
    }
}
