//! What is known of a player of a node.

ghost use Rattle.std.specs.Prelude.{◌≡◌, ◌<◌, ◌≤◌, None};
ghost use Rattle.dn_link.specs.Linking.{linked};
ghost use Rattle.dn_lockstep.specs.Contents.{contents};
ghost use Rattle.zirmegat.specs.Calls.{link_of, lockstep_of, When};
ghost use Rattle.zirmegat.specs.Joined.{joined_of};
ghost use Rattle.zirmegat.specs.NodeStates.{left_told, lockstep_player, player_of, reports_told};

use crate::fault::{DONE, Fault};
use crate::handle::Handle;
use crate::lines::{LineAnswer, end_of, got_of};
use dn_link::Link;
use dn_lockstep::Lockstep;

/// What is known of a player of a node; of a lockstep's `got` and `end` alone.
#[repr(C)]
#[derive(Clone, Copy, Debug, PartialEq, Eq)]
pub struct NodePlayer {
    /// How many of its commands are here.
    pub got: u32,
    /// The tic after its last command, or the largest number where it is not known.
    pub end: u32,
    /// Why it has left, if its datagrams told: 1 where it quit, 2 where its demo was full, 3 where another's
    /// world differed.
    pub left: u32,
    /// 1 where it is given up.
    pub given_up: u8,
    /// 1 where no datagram should go to it at this tick.
    pub is_resting: u8,
    /// 1 where it should get one more, half a tick later.
    pub wants_second: u8,
    /// 1 for each player whom its newest report names as given up.
    pub reports: [u8; 4],
    /// The line to it.
    pub line: LineAnswer,
}

/// Why a player has left, if its datagrams told.
fn left_of(cause: Option<u8>) -> u32
    ensures { result ≡ left_told cause }
{
    match cause {
        Some(cause) => u32::from(cause),
        None => 0,
    }
}

/// 1 for each player whom the newest report of another names.
fn reports_of(link: &Link, teller: u8) -> [u8; 4]
    ensures { result ≡ reports_told (linked link.now) teller }
{
    [
        u8::from(link.reports_gone(teller, 0)),
        u8::from(link.reports_gone(teller, 1)),
        u8::from(link.reports_gone(teller, 2)),
        u8::from(link.reports_gone(teller, 3)),
    ]
}

impl NodePlayer {
    /// What a lockstep knows of a player.
    fn of_lockstep(lockstep: &Lockstep, player: u8) -> NodePlayer
        ensures { result ≡ lockstep_player player (contents lockstep.now) }
    {
        NodePlayer {
            got: got_of(lockstep, player),
            end: end_of(lockstep, player),
            left: 0,
            given_up: 0,
            is_resting: 0,
            wants_second: 0,
            reports: [0; 4],
            line: LineAnswer::NONE,
        }
    }

    /// What a link knows.
    fn of_link(link: &Link, player: u8) -> NodePlayer
        ensures { result ≡ player_of player (joined_of link.now) }
    {
        NodePlayer {
            left: left_of(link.left(player)),
            given_up: u8::from(link.has_given_up(player)),
            is_resting: u8::from(link.is_resting(player)),
            wants_second: u8::from(link.wants_second(player)),
            reports: reports_of(link, player),
            line: LineAnswer::of(link.figures(player)),
            ..NodePlayer::of_lockstep(link.lockstep(), player)
        }
    }
}

/// How many bytes `NodePlayer` has.
const NODE_PLAYER_SIZE: usize = 40;

/// Writes what is known of a player, where the caller's struct has so many bytes.
#[unsafe(no_mangle)]
pub extern "C" fn zmg_node_player_get(
    node: &mut Handle,
    player: u8,
    out: &mut NodePlayer,
    size: usize,
) -> u32
    ensures lockstep { 40 ≤ size → When lockstep_of node.old node.new
        (λ n k. (k ≡ n) × (result ≡ 0) × (out.new ≡ lockstep_player player n)) }
    ensures link { 40 ≤ size → When link_of node.old node.new
        (λ n k. (k ≡ n) × (result ≡ 0) × (out.new ≡ player_of player n)) }
    ensures other { 40 ≤ size → lockstep_of node.old ≡ None → link_of node.old ≡ None
        → (result ≡ 1) × (out.new ≡ out.old) × (node.new ≡ node.old) }
    ensures small { size < 40 → (result ≡ 2) × (out.new ≡ out.old) × (node.new ≡ node.old) }
{
    if size < NODE_PLAYER_SIZE {
        return Fault::Size.code();
    }
    if let Some(held) = node.lockstep() {
        *out = NodePlayer::of_lockstep(held, player);
        return DONE;
    }
    match node.link() {
        Some(held) => {
            *out = NodePlayer::of_link(held, player);
            DONE
        }
        None => Fault::Handle.code(),
    }
}
