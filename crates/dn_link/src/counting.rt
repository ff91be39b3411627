//! How far a lockstep is.

ghost use Rattle.std.specs.Prelude.{◌≡◌, ◌+◌, None, Some};
ghost use Rattle.dn_lockstep.specs.Contents.{contents};
ghost use Rattle.dn_link.specs.Counting.{counts_of, has_of, held, held_of, reached};

use crate::bundle::Counts;
use dn_lockstep::Lockstep;

/// How many commands a lockstep has of a player; a known end counts as one more. 0 for a number that is no
/// player's.
fn has_of(lockstep: &Lockstep, player: u8) -> u32
    ensures { result ≡ has_of (contents lockstep.now) player }
{
    let got = held(lockstep, player);
    match lockstep.end(player) {
        Some(_) => got + 1,
        None => got,
    }
}

/// How far a lockstep is, with what is echoed.
pub(crate) fn counts_of(lockstep: &Lockstep, echo: u32) -> Counts
    ensures { result ≡ counts_of (contents lockstep.now) echo }
{
    Counts {
        made: lockstep.made(),
        echo,
        got: [
            has_of(lockstep, 0),
            has_of(lockstep, 1),
            has_of(lockstep, 2),
            has_of(lockstep, 3),
        ],
    }
}

/// How many commands a lockstep has of a player; 0 for a number that is no player's.
fn held(lockstep: &Lockstep, player: u8) -> u32
    ensures { result ≡ held (contents lockstep.now) player }
{
    lockstep.got(player).unwrap_or(0)
}

/// How many commands a lockstep has of each player.
pub(crate) fn held_of(lockstep: &Lockstep) -> [u32; 4]
    ensures { result ≡ held_of (contents lockstep.now) }
{
    [
        held(lockstep, 0),
        held(lockstep, 1),
        held(lockstep, 2),
        held(lockstep, 3),
    ]
}

/// How many tics a player had run at least when it made the last of its commands that a lockstep has: all but a
/// window of them. So many commands of each player it had then.
pub(crate) fn reached(lockstep: &Lockstep, player: u8) -> u32
    ensures { result ≡ reached (contents lockstep.now) player }
{
    held(lockstep, player).saturating_sub(lockstep.ahead())
}
