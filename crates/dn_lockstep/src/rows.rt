//! The commands of one tic, of all players.

ghost use Rattle.std.specs.Prelude.{◌≡◌, ◌<◌, ◌≤◌, ◌+◌, ℕ, nat_lt, not, All, None, [], ◌∷◌, true, false, IfSome, if◌then◌else◌};
ghost use Rattle.dn_demo.specs.Text.{IsMove, IsRow};
ghost use Rattle.dn_machine.specs.{Node.lowest, Node.is_whole, Running.tic_limit, Limits.four};
ghost use Rattle.dn_lockstep.specs.{Tables.ring_at, Tables.peer_at, Tables.slot, Rows.seats_of, Rows.mark_at, Rows.move_held, Rows.differs, Rows.differs_but, Rows.has, Rows.is_missing, Rows.is_gone};
ghost use Rattle.dn_lockstep.specs.{Rows.has_gone};

use crate::marks::Marks;
use crate::peers::Peers;
use crate::rings::Rings;
use dn_tic::{Move, round};

/// The last tic whose marks are not compared (`g_game.c`, G_Ticker).
const LAST_UNCHECKED: u32 = 12;

/// The most tics that a node runs once a player has left. A demo with every player is full before that.
const TIC_LIMIT: u32 = 2_097_150;

/// Which seats are taken.
pub(crate) fn seats(players: u8) -> [bool; 4]
    ensures { result ≡ seats_of players }
{
    [0 < players, 1 < players, 2 < players, 3 < players]
}

/// Whether the tic is not before the player's known end.
fn gone(peers: &Peers, player: u8, tic: u32) -> bool
    requires { player < 4 }
    ensures { result ≡ is_gone (peer_at peers.now) tic player }
{
    match peers.get(player).end {
        Some(end) => end <= tic,
        None => false,
    }
}

/// The lowest player who is not gone and whose command for the tic is missing.
#[tactic(auto, using(std::proofs::lemmas::Bool::and_from, crate::proofs::Lowest::lowest_zero, crate::proofs::Lowest::lowest_past, crate::proofs::Lowest::lowest_found))]
pub(crate) fn awaited(rings: &Rings, peers: &Peers, players: u8, tic: u32) -> Option<u8>
    requires { players ≤ 4 }
    ensures { result ≡ lowest players (is_missing (ring_at rings.now) (peer_at peers.now) tic) }
{
    for player in 0..players {
        if !gone(peers, player, tic) && rings.count(player) <= tic {
            return Some(player);
        }
    }
    None
}

/// The mark of the player's command for the tic.
pub(crate) fn mark_of(rings: &Rings, player: u8, tic: u32) -> i16
    requires place { player < 4 }
    requires there { tic < (ring_at rings.now player).count }
    requires kept { (ring_at rings.now player).count ≤ tic + 32 }
    ensures { result ≡ mark_at (ring_at rings.now) tic player }
{
    rings.at(player, tic).mark
}

/// Whether the player is not gone, and the command carries another mark than the table has.
fn is_differing(rings: &Rings, peers: &Peers, marks: &Marks, player: u8, tic: u32) -> bool
    requires place { player < 4 }
    requires there { is_missing (ring_at rings.now) (peer_at peers.now) tic player ≡ false }
    requires kept { (ring_at rings.now player).count ≤ tic + 32 }
    ensures differs { result ≡ differs (ring_at rings.now) (peer_at peers.now) (slot marks.now) tic player }
    ensures there { result ≡ true → tic < (ring_at rings.now player).count }
{
    !gone(peers, player, tic) && mark_of(rings, player, tic) != marks.get(player, tic)
}

/// The lowest player, of those who are not given up, whose command is off: it carries another mark than the
/// table has, for a tic whose marks are compared.
pub(crate) fn first_off(
    rings: &Rings,
    peers: &Peers,
    given_up: &[bool; 4],
    marks: &Marks,
    players: u8,
    tic: u32,
) -> Option<u8>
    requires few { players ≤ 4 }
    requires there { lowest players (is_missing (ring_at rings.now) (peer_at peers.now) tic) ≡ None }
    requires kept { (p : ℕ) → p < players → (ring_at rings.now p).count ≤ tic + 32 }
    ensures below { IfSome result (λ p. p < players) }
    ensures there { IfSome result (λ p. tic < (ring_at rings.now p).count) }
    ensures lowest { result ≡ (if nat_lt 12 tic
        then lowest players (differs_but (has given_up.now)
        (ring_at rings.now) (peer_at peers.now) (slot marks.now) tic)
        else None) }
{
    for player in 0..players {
        if !given_up[usize::from(player)] && is_differing(rings, peers, marks, player, tic) {
            return if tic > LAST_UNCHECKED {
                Some(player)
            } else {
                None
            };
        }
    }
    None
}

/// Fills in the used moves for the tic of all players who are not gone, whose commands are there, and answers
/// whether each player has one.
pub(crate) fn fill_row(
    rings: &Rings,
    peers: &Peers,
    players: u8,
    tic: u32,
    row: &mut [Option<Move>; 4],
) -> bool
    requires few { players ≤ 4 }
    requires there { lowest players (is_missing (ring_at rings.now) (peer_at peers.now) tic) ≡ None }
    requires kept { (p : ℕ) → p < players → (ring_at rings.now p).count ≤ tic + 32 }
    requires empty { row.old ≡ None ∷ None ∷ None ∷ None ∷ [] }
    ensures row { row.new ≡ four (move_held (ring_at rings.now) (peer_at peers.now) players tic) }
    ensures whole { result ≡ is_whole players row.new }
    ensures nobody { result ≡ not (has_gone (peer_at peers.now) players tic) }
    ensures recordable { is_whole players row.new ≡ true → IsRow (seats_of players) row.new }
    ensures ranged { All (λ step. IfSome step IsMove) row.new }
{
    let mut whole = true;
    for player in 0..players {
        if gone(peers, player, tic) {
            whole = false;
        } else {
            row[usize::from(player)] = Some(round(&rings.at(player, tic)));
        }
    }
    whole
}

/// The tic at which a node ends instead of running its row; `whole` tells whether the row has every player.
pub(crate) fn full_at(whole: bool, capacity: u32) -> u32
    ensures { result ≡ (if whole then capacity else tic_limit) }
{
    if whole { capacity } else { TIC_LIMIT }
}
