//! How a game ends that all others left.

ghost use Rattle.std.specs.Prelude.{◌≡◌, ◌<◌, is_some, IfSome};
ghost use Rattle.dn_link.specs.{Linked.end_known, Linked.is_peer, Linking.linked};
ghost use Rattle.dn_host.specs.Leaving.{have_all_left, is_gone, left_for, others_end};

use dn_link::Link;
use dn_measure::End;

/// The byte of the cause of a player whose demo was full.
const FULL: u8 = 2;

/// That of one who found a world to be another.
const INCONSISTENT: u8 = 3;

/// Whether this is another player's number.
fn is_peer(link: &Link, player: u8) -> bool
    ensures { result ≡ is_peer (linked link.now).node player }
{
    let lockstep = link.lockstep();
    player < lockstep.players() && player != lockstep.me()
}

/// Whether a player's last command is known.
fn has_ended(link: &Link, player: u8) -> bool
    ensures { result ≡ is_some (end_known (linked link.now).node player) }
{
    link.lockstep().end(player).is_some()
}

/// Whether no other player has a number, or that player has left.
fn is_gone(link: &Link, player: u8) -> bool
    ensures { result ≡ is_gone (linked link.now) player }
{
    !is_peer(link, player) || has_ended(link, player) || link.left(player).is_some()
}

/// Whether all other players have left.
pub(crate) fn have_all_left(link: &Link) -> bool
    ensures { result ≡ have_all_left (linked link.now) }
{
    is_gone(link, 0) && is_gone(link, 1) && is_gone(link, 2) && is_gone(link, 3)
}

/// The lowest player who left for this cause.
fn left_for(cause: u8, link: &Link) -> Option<usize>
    ensures player { result ≡ left_for cause (linked link.now) }
    ensures within { IfSome result (λ player. player < 4) }
{
    [0, 1, 2, 3]
        .iter()
        .position(|player| link.left(*player) == Some(cause))
}

/// How it ends: first counts who found a world to be another, then whose demo was full.
pub(crate) fn others_end(link: &Link) -> End
    ensures { result ≡ others_end (linked link.now) }
{
    match left_for(INCONSISTENT, link) {
        Some(player) => End::InconsistentAt(player as u8),
        None => match left_for(FULL, link) {
            Some(player) => End::FullAt(player as u8),
            None => End::OthersLeft,
        },
    }
}
