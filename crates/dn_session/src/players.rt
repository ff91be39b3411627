//! What a player sees of the others in its game.

ghost use Rattle.std.specs.{Prelude.{◌≡◌, ◌&&◌, ◌==◌, not, ◌<◌, ◌||◌}, List.list_all};
ghost use Rattle.dn_lockstep.specs.Contents.{contents};
ghost use Rattle.dn_link.specs.{Linked.is_peer, Linking.linked};
ghost use Rattle.dn_session.specs.Cookies.{is_one};
ghost use Rattle.dn_session.specs.Players.{count_in, ends_by, has_gone, four, has_row_behind, has_second, is_abandoned, is_any_awaited, is_awaited, is_gone_from, is_whole, lacks, names_by, owes_report, own_standing, seen_of, standing_beside, standing_of, view_of};

use crate::lead::{Seen, Standing, View};
use crate::watch::Watch;
use dn_link::Link;
use dn_lockstep::Lockstep;
use dn_machine::Phase;

/// What its own player is in the game.
fn own_standing(phase: Phase) -> Standing
    ensures { result ≡ own_standing phase }
{
    match phase {
        Phase::Playing => Standing::Open,
        _ => Standing::Closed,
    }
}

/// Whether a number is another player's.
pub(crate) fn is_peer(link: &Link, player: u8) -> bool
    ensures { result ≡ is_peer (linked link.now).node player }
{
    let lockstep = link.lockstep();
    player < lockstep.players() && player != lockstep.me()
}

/// Whether a number is given up, or no other player's.
pub(crate) fn is_gone_from(link: &Link, player: u8) -> bool
    ensures { result ≡ is_gone_from (linked link.now) player }
{
    !is_peer(link, player) || link.has_given_up(player)
}

/// How many commands of a player are here.
pub(crate) fn count_in(lockstep: &Lockstep, player: u8) -> u32
    ensures { result ≡ count_in (contents lockstep.now) player }
{
    lockstep.got(player).unwrap_or(0)
}

/// Whether all commands before an end are here, if it is known.
fn ends_by(end: Option<u32>, count: u32) -> bool
    ensures { result ≡ ends_by end count }
{
    match end {
        Some(end) => end <= count,
        None => false,
    }
}

/// Whether a player's last command is known, and all before it are here.
fn is_whole(link: &Link, player: u8) -> bool
    ensures { result ≡ is_whole (linked link.now) player }
{
    let lockstep = link.lockstep();
    ends_by(lockstep.end(player), count_in(lockstep, player))
}

/// What another is.
pub(crate) fn standing_beside(link: &Link, player: u8) -> Standing
    ensures { result ≡ standing_beside (linked link.now) player }
{
    if is_gone_from(link, player) {
        Standing::Gone
    } else if is_whole(link, player) {
        Standing::Closed
    } else {
        Standing::Open
    }
}

/// What a player is in the game.
fn standing_of(link: &Link, player: u8) -> Standing
    ensures { result ≡ standing_of (linked link.now) player }
{
    if player == link.lockstep().me() {
        own_standing(link.lockstep().phase())
    } else {
        standing_beside(link, player)
    }
}

/// Whether the own command of the next tic is there, and this player's is not.
fn lacks(lockstep: &Lockstep, player: u8) -> bool
    ensures { result ≡ lacks (contents lockstep.now) player }
{
    let ran = lockstep.ran();
    ran < lockstep.made() && count_in(lockstep, player) <= ran
}

/// Whether a player's command of the tic after the next is here.
fn has_second(lockstep: &Lockstep, player: u8) -> bool
    ensures { result ≡ has_second (contents lockstep.now) player }
{
    u64::from(count_in(lockstep, player)) > u64::from(lockstep.ran()) + 1
}

/// The same of a link's.
fn has_second_in(link: &Link, player: u8) -> bool
    ensures { result ≡ has_second (linked link.now).node player }
{
    has_second(link.lockstep(), player)
}

/// Whether it is here, or another player gives no more.
fn is_behind(link: &Link, player: u8) -> bool
    ensures { result ≡ (is_gone_from (linked link.now) player || (is_whole (linked link.now) player
        || has_second (linked link.now).node player)) }
{
    is_gone_from(link, player) || is_whole(link, player) || has_second_in(link, player)
}

/// Whether that is so of all.
fn are_behind(link: &Link) -> bool
    ensures { result ≡ list_all (λ player. is_gone_from (linked link.now) player || (is_whole (linked link.now) player
        || has_second (linked link.now).node player)) four }
{
    is_behind(link, 0) && is_behind(link, 1) && is_behind(link, 2) && is_behind(link, 3)
}

/// Whether the row of the tic after the next is here.
pub(crate) fn has_row_behind(link: &Link) -> bool
    ensures { result ≡ has_row_behind (linked link.now) }
{
    has_second_in(link, link.lockstep().me()) && are_behind(link)
}

/// Whether somebody is given up.
pub(crate) fn has_gone(link: &Link) -> bool
    ensures { result ≡ has_gone (linked link.now) }
{
    link.has_given_up(0) || link.has_given_up(1) || link.has_given_up(2) || link.has_given_up(3)
}

/// Whether it is this player.
fn is_it(player: u8, other: Option<u8>) -> bool
    ensures { result ≡ is_one (λ other. player == other) other }
{
    match other {
        Some(other) => player == other,
        None => false,
    }
}

/// Whether the report of a player is awaited.
fn owes_report(link: &Link, player: u8) -> bool
    ensures { result ≡ owes_report (linked link.now) player }
{
    is_it(player, link.awaits_report_of())
}

/// The same of a link's.
fn lacks_in(link: &Link, player: u8) -> bool
    ensures { result ≡ lacks (linked link.now).node player }
{
    lacks(link.lockstep(), player)
}

/// Whether a command of a player is awaited.
fn wants_command(link: &Link, player: u8) -> bool
    ensures { result ≡ (not (is_whole (linked link.now) player) && lacks (linked link.now).node player) }
{
    !is_whole(link, player) && lacks_in(link, player)
}

/// Whether a command or a report of a player is awaited.
fn is_awaited(link: &Link, player: u8) -> bool
    ensures { result ≡ is_awaited (linked link.now) player }
{
    !is_gone_from(link, player) && (wants_command(link, player) || owes_report(link, player))
}

/// Whether anybody's is.
pub(crate) fn is_any_awaited(link: &Link) -> bool
    ensures { result ≡ is_any_awaited (linked link.now) }
{
    is_awaited(link, 0) || is_awaited(link, 1) || is_awaited(link, 2) || is_awaited(link, 3)
}

/// Whether a player has told that it has given up another, or this one.
fn names_by(link: &Link, excluders: &[bool; 4], player: u8, other: u8) -> bool
    requires { player < 4 }
    ensures { result ≡ names_by (linked link.now) excluders.now player other }
{
    if other == link.lockstep().me() {
        excluders[player as usize]
    } else {
        link.reports_gone(player, other)
    }
}

/// What is seen of a player.
fn seen_of(link: &Link, excluders: &[bool; 4], watch: &Watch, now: u32, player: u8) -> Seen
    requires { player < 4 }
    ensures { result ≡ seen_of (linked link.now) excluders.now watch.now now player }
{
    Seen {
        standing: standing_of(link, player),
        awaited: if is_awaited(link, player) {
            watch.stalled(now)
        } else {
            0
        },
        owes_report: owes_report(link, player),
        silent: watch.silence(player, now),
        names: [
            names_by(link, excluders, player, 0),
            names_by(link, excluders, player, 1),
            names_by(link, excluders, player, 2),
            names_by(link, excluders, player, 3),
        ],
    }
}

/// What is seen of all, and who has told that it has given up this player.
pub(crate) fn view_of(link: &Link, excluders: &[bool; 4], watch: &Watch, now: u32) -> View
    ensures { result ≡ view_of (linked link.now) excluders.now watch.now now }
{
    View {
        me: link.lockstep().me(),
        players: [
            seen_of(link, excluders, watch, now, 0),
            seen_of(link, excluders, watch, now, 1),
            seen_of(link, excluders, watch, now, 2),
            seen_of(link, excluders, watch, now, 3),
        ],
        stalled: watch.stalled(now),
    }
}

/// Whether all others are given up.
pub(crate) fn is_abandoned(link: &Link) -> bool
    ensures { result ≡ is_abandoned (linked link.now) }
{
    is_gone_from(link, 0) && is_gone_from(link, 1) && is_gone_from(link, 2) && is_gone_from(link, 3)
}
