//! How a game ends for a player, and whom it gives up under a policy.

ghost use Rattle.std.specs.Prelude.{◌≡◌, ◌||◌};
ghost use Rattle.dn_link.specs.{Linked.needs_nothing, Linking.linked};
ghost use Rattle.dn_session.specs.Ending.{ended_by, ending_of, free_since, is_unneeded, is_leading, has_lost, lost_under, may_give_up, own_ending, patience, waits};

use crate::greeting::{Hint, Refusal};
use crate::lead::{View, is_given_up, is_open, is_there, late, lead};
use crate::players::{has_gone, is_abandoned};
use crate::terms::Policy;
use dn_link::Link;
use dn_machine::{Cause, Phase};

/// How a game ends for a player.
#[derive(Clone, Copy, Debug, PartialEq, Eq)]
pub enum Ending {
    /// It has left.
    Left,
    /// Its demo is full.
    Full,
    /// It found that this player's world differs from its own.
    Inconsistent(u8),
    /// The one that leads has told that it has given it up.
    GivenUp,
    /// All others are given up.
    Alone,
    /// This player was awaited for as long as the policy says, which ends the game.
    Lost(u8),
}

/// How a session is over.
#[derive(Clone, Copy, Debug, PartialEq, Eq)]
pub enum Over {
    /// The host has refused it.
    Refused(Refusal),
    /// Its calls were not read, as a hint says for which nobody vouches.
    Hinted(Hint),
    /// Its game has ended.
    Ended(Ending),
}

/// How far a player's part in a game is. Times are milliseconds of its own clock.
#[derive(Clone, Copy, Debug, PartialEq, Eq)]
pub enum Progress {
    /// It plays.
    Playing,
    /// It is leaving since this time, and nobody needs it since that one.
    Leaving {
        ending: Ending,
        since: u32,
        free: Option<u32>,
    },
    /// It is over.
    Over(Ending),
}

/// For how long somebody is awaited before a player is given up without being asked, in milliseconds.
pub(crate) fn patience(policy: Policy) -> u32
    ensures { result ≡ patience policy }
{
    match policy {
        Policy::GiveUp(seconds) => u32::from(seconds) * 1000,
        Policy::Wait | Policy::End(_) => u32::MAX,
    }
}

/// Whether the one that leads is the player itself, or this one.
fn is_leading(view: &View, player: u8) -> bool
    ensures { result ≡ is_leading view.now player }
{
    lead(view).is_some_and(|leader| leader == usize::from(view.me) || leader == usize::from(player))
}

/// Whether a player may give up another when it is told to.
pub(crate) fn may_give_up(view: &View, player: u8) -> bool
    ensures { result ≡ may_give_up view.now player }
{
    if player >= 4 || view.me >= 4 {
        return false;
    }
    is_open(view, view.me)
        && is_there(view, player)
        && view.stalled >= 3000
        && is_leading(view, player)
}

/// How the game ends, if it waits for somebody too long.
fn lost_under(policy: Policy, view: &View) -> Option<Ending>
    ensures { result ≡ lost_under policy view.now }
{
    match policy {
        Policy::End(seconds) => {
            let lost = late(u32::from(seconds) * 1000, view)?;
            Some(Ending::Lost(lost as u8))
        }
        Policy::Wait | Policy::GiveUp(_) => None,
    }
}

/// How its own machine ended the game.
fn own_ending(phase: Phase) -> Option<Ending>
    ensures { result ≡ own_ending phase }
{
    match phase {
        Phase::Ended(Cause::Full) => Some(Ending::Full),
        Phase::Ended(Cause::Inconsistent { player, .. }) => Some(Ending::Inconsistent(player)),
        _ => None,
    }
}

/// How the game of a player ends, if it does.
pub(crate) fn ending_of(policy: Policy, view: &View, link: &Link) -> Option<Ending>
    ensures { result ≡ ending_of policy view.now (linked link.now) }
{
    if let Some(ending) = own_ending(link.lockstep().phase()) {
        return Some(ending);
    }
    if is_given_up(view) {
        return Some(Ending::GivenUp);
    }
    if has_gone(link) && is_abandoned(link) {
        return Some(Ending::Alone);
    }
    lost_under(policy, view)
}

/// How far it is once it ends so.
pub(crate) fn ended_by(ending: Ending, now: u32) -> Progress
    ensures { result ≡ ended_by ending now }
{
    match ending {
        Ending::GivenUp | Ending::Alone => Progress::Over(ending),
        _ => Progress::Leaving {
            ending,
            since: now,
            free: None,
        },
    }
}

/// Whether a game ends since this player is lost.
fn has_lost(ending: Ending, player: u8) -> bool
    ensures { result ≡ has_lost ending player }
{
    match ending {
        Ending::Lost(lost) => player == lost,
        _ => false,
    }
}

/// Whether a player is not waited for by one that ends so: it is lost, or needs nothing more.
fn is_done(ending: Ending, link: &Link, player: u8) -> bool
    ensures { result ≡ (has_lost ending player || needs_nothing (linked link.now) player) }
{
    has_lost(ending, player) || !link.needs(player)
}

/// Whether nobody needs it any more; who is lost is not waited for.
pub(crate) fn is_unneeded(ending: Ending, link: &Link) -> bool
    ensures { result ≡ is_unneeded ending (linked link.now) }
{
    is_done(ending, link, 0)
        && is_done(ending, link, 1)
        && is_done(ending, link, 2)
        && is_done(ending, link, 3)
}

/// Since when that is so, if it is.
fn free_since(is_unneeded: bool, free: Option<u32>, now: u32) -> Option<u32>
    ensures { result ≡ free_since is_unneeded free now }
{
    match free {
        Some(free) => Some(free),
        None if is_unneeded => Some(now),
        None => None,
    }
}

/// How far one is who leaves.
pub(crate) fn waits(
    is_unneeded: bool,
    ending: Ending,
    since: u32,
    free: Option<u32>,
    now: u32,
) -> Progress
    ensures { result ≡ waits is_unneeded ending since free now }
{
    let free = free_since(is_unneeded, free, now);
    let has_waited = free.is_some_and(|free| now.saturating_sub(free) >= 2000);
    if has_waited || now.saturating_sub(since) >= 10_000 {
        Progress::Over(ending)
    } else {
        Progress::Leaving {
            ending,
            since,
            free,
        }
    }
}
