//! Whom a player gives up.

ghost use Rattle.std.specs.Prelude.{◌≡◌, ◌<◌, ◌-◌, ◌&&◌, IfSome, option_map, position, [], ◌∷◌};
ghost use Rattle.dn_session.specs.Lead.{due, follows_due, has_left, highest, is_given_up, is_late, is_lost, is_mute, is_named, is_open, is_there, late_due, lead, leads_due, lowest, names, seen};

use crate::cookies::FRESH_FOR;

/// What a player is in the game of another.
#[derive(Clone, Copy, Debug, PartialEq, Eq)]
pub enum Standing {
    /// It plays.
    Open,
    /// It has left, and all its commands are known.
    Closed,
    /// It is given up, or there is no such player.
    Gone,
}

/// What a player sees of another, or of itself. Times are milliseconds of its own clock.
#[derive(Clone, Copy, Debug, PartialEq, Eq)]
pub struct Seen {
    /// What it is in the game.
    pub standing: Standing,
    /// For how long its next command is awaited, or its report of who is gone; 0 if neither is.
    pub awaited: u32,
    /// Whether its report is.
    pub owes_report: bool,
    /// For how long nothing new of it came, by any way. Of the player itself it means nothing.
    pub silent: u32,
    /// Whom its newest report names as gone.
    pub names: [bool; 4],
}

/// What a player sees of its game.
#[derive(Clone, Copy, Debug, PartialEq, Eq)]
pub struct View {
    /// Its own number.
    pub me: u8,
    /// The players by their numbers.
    pub players: [Seen; 4],
    /// For how long somebody was awaited while no tic was run and nobody went.
    pub stalled: u32,
}

/// Whether a player plays.
pub(crate) fn is_open(view: &View, player: u8) -> bool
    requires { player < 4 }
    ensures { result ≡ is_open view.now player }
{
    matches!(view.players[player as usize].standing, Standing::Open)
}

/// Whether it is another, and not gone.
pub(crate) fn is_there(view: &View, player: u8) -> bool
    requires { player < 4 }
    ensures { result ≡ is_there view.now player }
{
    player != view.me && !matches!(view.players[player as usize].standing, Standing::Gone)
}

/// Whether it has left.
fn has_left(view: &View, player: u8) -> bool
    requires { player < 4 }
    ensures { result ≡ has_left (seen view.now player).standing }
{
    matches!(view.players[player as usize].standing, Standing::Closed)
}

/// Whether it plays, and names another as gone.
fn names(view: &View, player: u8, other: u8) -> bool
    requires { (player < 4) × (other < 4) }
    ensures { result ≡ names view.now player other }
{
    is_open(view, player) && other != player && view.players[player as usize].names[other as usize]
}

/// Whether somebody else does.
fn is_named(view: &View, player: u8) -> bool
    requires { player < 4 }
    ensures { result ≡ is_named view.now player }
{
    [0, 1, 2, 3].iter().any(|other| is_there(view, *other) && names(view, *other, player))
}

/// The lowest player who plays leads.
pub(crate) fn lead(view: &View) -> Option<usize>
    ensures value { result ≡ lead view.now }
    ensures within { IfSome result (λ n. n < 4) }
{
    [0, 1, 2, 3]
        .iter()
        .position(|player| is_open(view, *player))
}

/// Whether it was awaited for the patience.
fn is_late(patience: u32, view: &View, player: u8) -> bool
    requires { player < 4 }
    ensures { result ≡ is_late patience view.now player }
{
    is_there(view, player) && patience <= view.players[player as usize].awaited
}

/// Whether nothing came of it for the patience, though something should.
fn is_mute(patience: u32, view: &View, player: u8) -> bool
    requires { player < 4 }
    ensures { result ≡ is_mute patience view.now player }
{
    let seen = &view.players[player as usize];
    is_there(view, player) && (is_open(view, player) || seen.owes_report) && patience <= seen.silent
}

/// The number that stands at this place if they are counted from 3 down.
fn from_above(place: Option<usize>) -> Option<usize>
    requires { IfSome place (λ n. n < 4) }
    ensures value { result ≡ option_map (λ n. 3 - n) place }
    ensures within { IfSome result (λ n. n < 4) }
{
    Some(3 - place?)
}

/// The highest player who was awaited for the patience, counted from 3 down.
fn late_from_above(patience: u32, view: &View) -> Option<usize>
    ensures value { result ≡ position (is_late patience view.now) (3 ∷ 2 ∷ 1 ∷ 0 ∷ []) }
    ensures within { IfSome result (λ n. n < 4) }
{
    [3, 2, 1, 0]
        .iter()
        .position(|player| is_late(patience, view, *player))
}

/// The highest player who was awaited for the patience.
pub(crate) fn late(patience: u32, view: &View) -> Option<usize>
    ensures value { result ≡ highest (is_late patience view.now) }
    ensures within { IfSome result (λ n. n < 4) }
{
    from_above(late_from_above(patience, view))
}

/// The highest player of whom nothing came for the patience, counted from 3 down.
fn mute_from_above(patience: u32, view: &View) -> Option<usize>
    ensures value { result ≡ position (is_mute patience view.now) (3 ∷ 2 ∷ 1 ∷ 0 ∷ []) }
    ensures within { IfSome result (λ n. n < 4) }
{
    [3, 2, 1, 0]
        .iter()
        .position(|player| is_mute(patience, view, *player))
}

/// Where one that leads has awaited anybody for the patience, whom it gives up: of the silent the highest, or
/// else of those that it awaits.
fn late_due(patience: u32, view: &View) -> Option<usize>
    ensures value { result ≡ late_due patience view.now }
    ensures within { IfSome result (λ n. n < 4) }
{
    let late = late(patience, view)?;
    from_above(mute_from_above(patience, view)).or(Some(late))
}

/// The lowest other player whom a player names.
fn lowest_named(view: &View, by: u8) -> Option<usize>
    requires { by < 4 }
    ensures value { result ≡ lowest (λ player. is_there view.now player && names view.now by player) }
    ensures within { IfSome result (λ n. n < 4) }
{
    [0, 1, 2, 3].iter().position(|player| is_there(view, *player) && names(view, by, *player))
}

/// The lowest other player who names a player.
fn lowest_accuser(view: &View, of: u8) -> Option<usize>
    requires { of < 4 }
    ensures value { result ≡ lowest (λ player. is_there view.now player && names view.now player of) }
    ensures within { IfSome result (λ n. n < 4) }
{
    [0, 1, 2, 3].iter().position(|player| is_there(view, *player) && names(view, *player, of))
}

/// The lowest player who has left, and whom another names.
fn lowest_left(view: &View) -> Option<usize>
    ensures value { result ≡ lowest (λ player. has_left (seen view.now player).standing && is_named view.now player) }
    ensures within { IfSome result (λ n. n < 4) }
{
    [0, 1, 2, 3].iter().position(|player| has_left(view, *player) && is_named(view, *player))
}

/// Whom one that leads gives up.
fn leads_due(patience: u32, view: &View) -> Option<usize>
    requires { view.now.me < 4 }
    ensures value { result ≡ leads_due patience view.now }
    ensures within { IfSome result (λ n. n < 4) }
{
    lowest_accuser(view, view.me)
        .or(lowest_left(view))
        .or(late_due(patience, view))
}

/// Whether one that follows has lost the one that leads.
fn is_lost(patience: u32, view: &View, leader: u8) -> bool
    requires { leader < 4 }
    ensures { result ≡ is_lost patience view.now leader }
{
    let silent = view.players[leader as usize].silent;
    let (patience, stalled) = (u64::from(patience), u64::from(view.stalled));
    stalled >= 2 * patience + u64::from(FRESH_FOR)
        || (stalled >= patience && u64::from(silent) >= patience)
        || (is_named(view, leader) && 2 * u64::from(silent) >= patience)
}

/// Whom one that follows gives up.
fn follows_due(patience: u32, view: &View, leader: u8) -> Option<usize>
    requires { leader < 4 }
    ensures value { result ≡ follows_due patience view.now leader }
    ensures within { IfSome result (λ n. n < 4) }
{
    match lowest_named(view, leader) {
        Some(player) => Some(player),
        None if is_lost(patience, view, leader) => Some(usize::from(leader)),
        None => None,
    }
}

/// Whom a player gives up next, under a policy of so much patience in milliseconds; none if nobody.
pub fn due(patience: u32, view: &View) -> Option<usize>
    ensures value { result ≡ due patience view.now }
    ensures within { IfSome result (λ n. n < 4) }
{
    if view.me >= 4 || !is_open(view, view.me) {
        return None;
    }
    let leader = lead(view)? as u8;
    if leader == view.me {
        leads_due(patience, view)
    } else {
        follows_due(patience, view, leader)
    }
}

/// Whether the one that leads has given up the player itself.
pub fn is_given_up(view: &View) -> bool
    ensures { result ≡ is_given_up view.now }
{
    if view.me >= 4 {
        return false;
    }
    match lead(view) {
        Some(leader) => {
            is_open(view, view.me) && leader as u8 != view.me && names(view, leader as u8, view.me)
        }
        None => false,
    }
}
