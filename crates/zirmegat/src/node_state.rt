//! What is known of a node.

ghost use Rattle.std.specs.Prelude.{◌≡◌, ◌<◌, ◌≤◌, None};
ghost use Rattle.dn_link.specs.Linking.{linked};
ghost use Rattle.dn_lockstep.specs.Contents.{contents};
ghost use Rattle.dn_lockstep.specs.Told.{can_make};
ghost use Rattle.zirmegat.specs.Calls.{link_of, lockstep_of, When};
ghost use Rattle.zirmegat.specs.Commands.{CanBuild};
ghost use Rattle.zirmegat.specs.Joined.{joined_of};
ghost use Rattle.zirmegat.specs.NodeStates.{link_told, lockstep_told, undecided_told};

use crate::fault::{DONE, Fault};
use crate::handle::Handle;
use crate::phases::PhaseAnswer;
use crate::settings::GameSettings;
use dn_link::Link;
use dn_lockstep::Lockstep;

/// Of those who are not given up the lowest player whose report is missing.
#[repr(C)]
#[derive(Clone, Copy, Debug, PartialEq, Eq)]
pub struct Undecided {
    /// 1 where a report is missing.
    pub known: u32,
    /// Whose.
    pub player: u32,
}

/// What is known of a node.
#[repr(C)]
#[derive(Clone, Copy, Debug, PartialEq, Eq)]
pub struct NodeAnswer {
    /// How many bytes its demo has so far.
    pub demo_length: usize,
    /// Where it stands.
    pub phase: PhaseAnswer,
    /// The number of its player.
    pub me: u32,
    /// How many players the game has.
    pub players: u32,
    /// How many commands it made.
    pub made: u32,
    /// How many tics it ran.
    pub ran: u32,
    /// 1 where it would make a command now.
    pub can_give: u32,
    /// 1 where the settings are known.
    pub knows_settings: u32,
    /// How many of a link's commands not every remaining player has acknowledged.
    pub unacknowledged: u32,
    /// How often bytes came that were no datagram to the player of a link in this game.
    pub refused: u32,
    /// 1 where nobody needs anything of a link's player any more.
    pub may_leave: u32,
    /// Whose report a link lacks.
    pub undecided: Undecided,
    /// The settings, and all 0 where they are not known.
    pub settings: GameSettings,
}

/// Whose report is missing.
fn undecided_of(player: Option<u8>) -> Undecided
    ensures { result ≡ undecided_told player }
{
    match player {
        Some(player) => Undecided {
            known: 1,
            player: u32::from(player),
        },
        None => Undecided {
            known: 0,
            player: 0,
        },
    }
}

impl NodeAnswer {
    /// What is known of a lockstep.
    fn of_lockstep(lockstep: &Lockstep) -> NodeAnswer
        ensures told { result ≡ lockstep_told (contents lockstep.now) }
        ensures can { CanBuild (contents lockstep.now) (can_make (contents lockstep.now)) }
    {
        let settings = lockstep.settings();
        NodeAnswer {
            demo_length: lockstep.demo().len(),
            phase: PhaseAnswer::of(lockstep.phase()),
            me: u32::from(lockstep.me()),
            players: u32::from(lockstep.players()),
            made: lockstep.made(),
            ran: lockstep.ran(),
            can_give: u32::from(lockstep.can_build()),
            knows_settings: u32::from(settings.is_some()),
            unacknowledged: 0,
            refused: 0,
            may_leave: 0,
            undecided: undecided_of(None),
            settings: GameSettings::if_known(settings),
        }
    }

    /// What is known of a link.
    fn of_link(link: &Link) -> NodeAnswer
        ensures told { result ≡ link_told (joined_of link.now) }
        ensures can { CanBuild (linked link.now).node (can_make (linked link.now).node) }
    {
        NodeAnswer {
            unacknowledged: link.unacknowledged(),
            refused: link.refused(),
            may_leave: u32::from(link.may_leave()),
            undecided: undecided_of(link.undecided()),
            ..NodeAnswer::of_lockstep(link.lockstep())
        }
    }
}

/// How many bytes `NodeAnswer` has.
const NODE_STATE_SIZE: usize = 80;

/// Writes what is known of a node, where the caller's struct has so many bytes.
#[unsafe(no_mangle)]
pub extern "C" fn zmg_node_state_get(node: &mut Handle, out: &mut NodeAnswer, size: usize) -> u32
    ensures lockstep { 80 ≤ size → When lockstep_of node.old node.new
        (λ n k. (k ≡ n) × (result ≡ 0) × (out.new ≡ lockstep_told n) × CanBuild n (can_make n)) }
    ensures link { 80 ≤ size → When link_of node.old node.new (λ n k. (k ≡ n) × (result ≡ 0)
        × (out.new ≡ link_told n) × CanBuild n.link.node (can_make n.link.node)) }
    ensures other { 80 ≤ size → lockstep_of node.old ≡ None → link_of node.old ≡ None
        → (result ≡ 1) × (out.new ≡ out.old) × (node.new ≡ node.old) }
    ensures small { size < 80 → (result ≡ 2) × (out.new ≡ out.old) × (node.new ≡ node.old) }
{
    if size < NODE_STATE_SIZE {
        return Fault::Size.code();
    }
    if let Some(held) = node.lockstep() {
        *out = NodeAnswer::of_lockstep(held);
        return DONE;
    }
    match node.link() {
        Some(held) => {
            *out = NodeAnswer::of_link(held);
            DONE
        }
        None => Fault::Handle.code(),
    }
}
