//! How a player's datagrams come.

ghost use Rattle.std.specs.Prelude.{◌≡◌};
ghost use Rattle.dn_link.specs.{Linking.linked, Pacing.pace_of};
ghost use Rattle.dn_session.specs.Coming.{echo_of, heard_of, is_answer_of, is_current_in, line_of, lines_in, news_of};

use crate::places::News;
use dn_link::{Figures, Link, Received};
use dn_lockstep::Lockstep;

/// What is known of the lines of four players.
pub(crate) type Lines = [Option<Figures>; 4];

/// What is known of each line.
pub(crate) fn lines_of(link: &Link) -> Lines
    ensures { result ≡ lines_in (linked link.now) (pace_of link.now) }
{
    [
        link.figures(0),
        link.figures(1),
        link.figures(2),
        link.figures(3),
    ]
}

/// What is known of a player's line.
pub(crate) fn line_of(lines: &Lines, player: u8) -> Option<Figures>
    ensures { result ≡ line_of lines.now player }
{
    match lines.get(usize::from(player)) {
        Some(line) => *line,
        None => None,
    }
}

/// The newest echo of its player.
fn echo_of(figures: &Option<Figures>) -> u32
    ensures { result ≡ echo_of figures.now }
{
    figures.map_or(0, |figures| figures.echo)
}

/// Whether it is one of the last 64, and came for the first time or again.
fn is_current_in(before: &Option<Figures>, after: &Option<Figures>) -> bool
    ensures { result ≡ is_current_in before.now after.now }
{
    match (before, after) {
        (Some(before), Some(after)) => {
            before.came < after.came || before.repeated < after.repeated
        }
        _ => false,
    }
}

/// What a datagram tells, by the figures of its line before it and after it.
pub(crate) fn news_of(before: &Option<Figures>, after: &Option<Figures>) -> News
    ensures { result ≡ news_of before.now after.now }
{
    News {
        is_current: is_current_in(before, after),
        is_answer: echo_of(before) < echo_of(after),
        echo: echo_of(after),
    }
}

/// Whose datagram was heard.
pub(crate) fn heard_of(received: &Received) -> Option<u8>
    ensures { result ≡ heard_of received.now }
{
    match received {
        Received::Heard(from) => Some(*from),
        _ => None,
    }
}

/// Whether a datagram of this player was heard that has a newer echo.
pub(crate) fn is_answer_of(heard: Option<u8>, before: &Lines, after: &Lines, player: u8) -> bool
    ensures { result ≡ is_answer_of heard before.now after.now player }
{
    heard.is_some_and(|from| {
        player == from && news_of(&line_of(before, from), &line_of(after, from)).is_answer
    })
}
