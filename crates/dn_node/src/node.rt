//! One player's node, and what it tells of itself.

ghost use Rattle.std.specs.Prelude.{◌≡◌, ◌<◌, true, is_some, nat_lt, if◌then◌else◌, Some, None, IfOk, IfSome};
ghost use Rattle.dn_lockstep.specs.{Opening.IsAdmitted, Opening.whose_in, Tables.count_of};

mod stepping;

use dn_lockstep::{Config, Lockstep, NodeFault};
use dn_machine::Phase;
use dn_setup::Settings;
use dn_tic::TicCmd;
use dn_world::World;
use std::alloc::Global;
use std::marker::Model;

/// One player's node. A contract sees what it keeps, and the node of the machine that this represents.
#[derive(Drop)]
pub struct Node<W> {
    lockstep: Lockstep,
    world: W,
}

impl<W> Model for Node<W> {
    ghost use Rattle.dn_node.specs.Kept.{Kept};

    ghost Value = { Kept W };

    ghost view = { λ n. record {
      players = n.lockstep.players;
      me = n.lockstep.me;
      extra = n.lockstep.extra;
      capacity = n.lockstep.capacity;
      ahead = n.lockstep.ahead;
      places = n.lockstep.places;
      phase = n.lockstep.phase;
      played = n.lockstep.played;
      settings = n.lockstep.settings;
      gather = n.lockstep.gather;
      hold = n.lockstep.builder;
      ran = n.lockstep.ran;
      rings = n.lockstep.rings;
      peers = n.lockstep.peers.peers;
      marks = n.lockstep.marks;
      demo = n.lockstep.demo;
      world = n.world;
    } };
}

impl<W: World> Node<W> {
    ghost use Rattle.dn_setup.specs.Settings.{Settings as Choice};
    ghost use Rattle.dn_demo.specs.Recorded.{capacity};
    ghost use Rattle.dn_machine.specs.{Game.fresh, Node.known_end, Worlds.rules_of};
    ghost use Rattle.dn_lockstep.specs.Told.{last_held, command_told};
    ghost use Rattle.dn_node.specs.{Contents.contents, Contents.locked, Contents.whose, Contents.end_in, Contents.Represents, Steps.Tells};

    /// A node with no history: player 0 gathers, the others listen. All memory that it needs is taken
    /// here; the world is given up where there is no node.
    pub fn new(alloc: Global, config: Config, world: W) -> Result<Node<W>, NodeFault>
        ensures admitted { IsAdmitted config result }
        ensures opened { IfOk result (λ node. (settings : Choice)
            → (config.me ≡ 0 → config.settings ≡ Some settings)
            → Represents W.state (rules_of W.physics config.players config.extra
            (capacity config.limit config.players)) config.me
            (contents node) (fresh settings config.me)) }
        ensures given { IfOk result (λ node. (contents node).world ≡ world) }
        ensures whose { IfOk result (λ node. whose (contents node) ≡ whose_in config) }
    {
        let lockstep = Lockstep::new(alloc, config)?;
        Ok(Node { lockstep, world })
    }

    /// The number of its player.
    pub fn me(&self) -> u8
        ensures number { result ≡ (contents self.now).me }
        ensures four { result < 4 }
    {
        self.lockstep.me()
    }

    /// How many players the game has.
    pub fn players(&self) -> u8
        ensures { result ≡ (contents self.now).players }
    {
        self.lockstep.players()
    }

    /// Where it stands.
    pub fn phase(&self) -> Phase
        ensures { result ≡ (contents self.now).phase }
    {
        self.lockstep.phase()
    }

    /// How many commands it built.
    pub fn made(&self) -> u32
        ensures { result ≡ count_of (contents self.now).rings (contents self.now).me }
    {
        self.lockstep.made()
    }

    /// How many tics it ran.
    pub fn ran(&self) -> u32
        ensures { result ≡ (contents self.now).ran }
    {
        self.lockstep.ran()
    }

    /// How many commands it has of a player, and None for a number that is no player's.
    pub fn got(&self, player: u8) -> Option<u32>
        ensures value { result ≡ (if nat_lt player (contents self.now).players
            then Some (count_of (contents self.now).rings player) else None) }
        ensures four { IfSome result (λ count. player < 4) }
    {
        self.lockstep.got(player)
    }

    /// A player's command for a tic, with its letter of chat, which a move lacks: one of the last twelve that
    /// it has of the player, so that of the next tic to be run is told as soon as it is there. None for another
    /// tic, and for a number that is no player's.
    #[tactic(auto, using(crate::proofs::Stepping::tells))]
    pub fn command(&self, player: u8, tic: u32) -> Option<TicCmd>
        ensures value { result ≡ command_told (locked (contents self.now)) player tic }
        ensures told { Tells W.state W.physics (contents self.now)
            (λ rules me m. result ≡ last_held rules.limits m player tic) }
        ensures next { player < (contents self.now).players → tic ≡ (contents self.now).ran
            → tic < count_of (contents self.now).rings player → is_some result ≡ true }
    {
        self.lockstep.command(player, tic)
    }

    /// The choice of game: the key player's own from the beginning, another's from the start on.
    pub fn settings(&self) -> Option<Settings>
        ensures { result ≡ (contents self.now).settings }
    {
        self.lockstep.settings()
    }

    /// Its world.
    pub fn world(&self) -> &W
        ensures { result.now ≡ (contents self.now).world }
    {
        &self.world
    }

    /// The tic after a player's last command: of another player once an EXIT packet has told it, and its own
    /// once it has played and ended. From that tic on no tic has a move of the player.
    #[tactic(auto, using(crate::proofs::Stepping::tells))]
    pub fn end(&self, player: u8) -> Option<u32>
        ensures value { result
            ≡ (if nat_lt player (contents self.now).players then end_in (contents self.now) player
            else None) }
        ensures told { Tells W.state W.physics (contents self.now)
            (λ rules me m. result ≡ (if nat_lt player rules.players then known_end me m player else None)) }
    {
        self.lockstep.end(player)
    }

    /// Its demo so far: empty before the start, and closed once a tic without some player was run, or it has
    /// played and ended. No tic from then on is in it.
    pub fn demo(&self) -> &[u8]
        ensures { result.now ≡ (contents self.now).demo.bytes }
    {
        self.lockstep.demo()
    }
}
