//! What is known of the line to a player, and of its commands, as plain numbers.

ghost use Rattle.std.specs.Prelude.{◌≡◌};
ghost use Rattle.dn_lockstep.specs.Contents.{contents};
ghost use Rattle.zirmegat.specs.Commands.{end_of, got_of};
ghost use Rattle.zirmegat.specs.Lines.{end_told, got_told, line_told};

use dn_link::Figures;
use dn_lockstep::Lockstep;

/// What is known of the line to another player, and all 0 where there is none.
#[repr(C)]
#[derive(Clone, Copy, Debug, PartialEq, Eq)]
pub struct LineAnswer {
    /// How many of its datagrams came.
    pub came: u32,
    /// How many of them did not, of those numbered before the newest.
    pub lost: u32,
    /// How many came twice.
    pub repeated: u32,
    /// How many came too late to tell.
    pub too_old: u32,
    /// How many of the last ones to it did not come there, or came after newer ones.
    pub missing_there: u8,
    /// By how many commands this player led it, at this player's last tick.
    pub lead: i8,
    /// By how many commands it led this player.
    pub lead_there: i8,
}

impl LineAnswer {
    /// There is no such line.
    pub(crate) const NONE: LineAnswer = LineAnswer {
        came: 0,
        lost: 0,
        repeated: 0,
        too_old: 0,
        missing_there: 0,
        lead: 0,
        lead_there: 0,
    };

    pub(crate) fn of(figures: Option<Figures>) -> LineAnswer
        ensures { result ≡ line_told figures }
    {
        let Some(figures) = figures else {
            return LineAnswer::NONE;
        };
        LineAnswer {
            came: figures.came,
            lost: figures.lost,
            repeated: figures.repeated,
            too_old: figures.too_old,
            missing_there: figures.missing_there,
            lead: figures.lead,
            lead_there: figures.lead_there,
        }
    }
}

/// How many commands of a player are here, and 0 of no player.
pub(crate) fn got_of(lockstep: &Lockstep, player: u8) -> u32
    ensures { result ≡ got_told (got_of (contents lockstep.now) player) }
{
    match lockstep.got(player) {
        Some(got) => got,
        None => 0,
    }
}

/// The tic after a player's last command, or the largest number where it is not known.
pub(crate) fn end_of(lockstep: &Lockstep, player: u8) -> u32
    ensures { result ≡ end_told (end_of (contents lockstep.now) player) }
{
    match lockstep.end(player) {
        Some(end) => end,
        None => u32::MAX,
    }
}
