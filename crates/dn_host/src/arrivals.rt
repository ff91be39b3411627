//! What came from each player.

ghost use Rattle.std.specs.Prelude.{◌≡◌};
ghost use Rattle.dn_link.specs.{Linking.linked, Pacing.pace_of};
ghost use Rattle.dn_session.specs.Coming.{lines_in};
ghost use Rattle.dn_host.specs.Arrived.{arrivals_in, arrivals_of, came_of_each, is_late, late_in, one_more, standing_in, standings_in};

use dn_link::{Figures, Link};
use dn_measure::{Arrivals, PeerStatus};

/// What is known of the lines of four players.
pub(crate) type Lines = [Option<Figures>; 4];

/// What is known of each line.
pub(crate) fn lines_of(link: &Link) -> Lines
    ensures { result ≡ lines_in (linked link.now) (pace_of link.now) }
{
    [
        link.figures(0),
        link.figures(1),
        link.figures(2),
        link.figures(3),
    ]
}

/// How many datagrams came late over a line, with the one that came between these figures: late is one that came after
/// one that was sent later.
fn late_by(before: &Option<Figures>, after: &Option<Figures>, late: u32) -> u32
    ensures { result ≡ one_more (is_late before.now after.now) late }
{
    match (before, after) {
        (Some(before), Some(after)) if before.came < after.came && after.lost < before.lost => {
            late.saturating_add(1)
        }
        _ => late,
    }
}

/// How many came late of each player, with what came between these figures, if there were lines.
pub(crate) fn late_in(before: &Option<Lines>, after: &Option<Lines>, late: [u32; 4]) -> [u32; 4]
    ensures { result ≡ late_in before.now after.now late }
{
    let (Some(before), Some(after)) = (before, after) else {
        return late;
    };
    [
        late_by(&before[0], &after[0], late[0]),
        late_by(&before[1], &after[1], late[1]),
        late_by(&before[2], &after[2], late[2]),
        late_by(&before[3], &after[3], late[3]),
    ]
}

/// What came over a line, so much of it late.
fn arrivals_of(line: &Figures, late: u32) -> Arrivals
    ensures { result ≡ arrivals_of line.now late }
{
    Arrivals {
        came: line.came,
        lost: line.lost,
        late,
        twice: line.repeated,
        old: line.too_old,
    }
}

/// If there is one.
fn arrivals_in(line: Option<Figures>, late: u32) -> Option<Arrivals>
    ensures { result ≡ arrivals_in line late }
{
    Some(arrivals_of(&line?, late))
}

/// What came over each.
pub(crate) fn came_of_each(lines: &Lines, late: [u32; 4]) -> [Option<Arrivals>; 4]
    ensures { result ≡ came_of_each lines.now late }
{
    [
        arrivals_in(lines[0], late[0]),
        arrivals_in(lines[1], late[1]),
        arrivals_in(lines[2], late[2]),
        arrivals_in(lines[3], late[3]),
    ]
}

/// How a player stands, so much of what came from it late.
fn standing_in(line: Option<Figures>, late: u32) -> Option<PeerStatus>
    ensures { result ≡ standing_in line late }
{
    let line = line?;
    Some(PeerStatus {
        lead: line.lead,
        arrivals: arrivals_of(&line, late),
    })
}

/// How each stands.
pub(crate) fn standings_in(lines: &Lines, late: [u32; 4]) -> [Option<PeerStatus>; 4]
    ensures { result ≡ standings_in lines.now late }
{
    [
        standing_in(lines[0], late[0]),
        standing_in(lines[1], late[1]),
        standing_in(lines[2], late[2]),
        standing_in(lines[3], late[3]),
    ]
}
