//! How a session ended.

ghost use Rattle.std.specs.{Prelude.◌≡◌, Prelude.◌++◌, Prelude.OnOk, Prelude.IfOk, String.string_bytes};
ghost use Rattle.dn_measure.specs.Ends.{end_text, judged_lines, player_text, session_lines, status_of};

use crate::fields::push_fields;
use crate::measure::Summary;
use crate::text::{push_figures, push_summary};
use std::alloc::{AllocError, Global};

/// A player from whom nothing came for more seconds is lost.
pub const SILENCE: u8 = 10;

/// What is said of it.
const LOST: &str = ": no answer for 10 seconds\n";

const _: () = prove!(SILENCE == 10);

/// How a session ended.
#[derive(Clone, Copy, Debug, PartialEq, Eq)]
pub enum End {
    /// This player left: its time was over.
    Left,
    /// All others left.
    OthersLeft,
    /// The demo was full.
    Full,
    /// All others left, this player because its demo was full.
    FullAt(u8),
    /// Nothing came from this player for too long.
    Lost(u8),
    /// This player's world differs from one's own.
    Inconsistent(u8),
    /// All others left, this player because it found that another's world differs.
    InconsistentAt(u8),
}

impl End {
    /// The exit status: 0 where the session ended as it should, else 3.
    pub fn status(self) -> u8
        ensures { result ≡ status_of self }
    {
        match self {
            End::Left | End::OthersLeft | End::Full | End::FullAt(_) => 0,
            End::Lost(_) | End::Inconsistent(_) | End::InconsistentAt(_) => 3,
        }
    }
}

/// How it ended at a player, in words before its number and behind it.
fn push_player(text: &mut String, words: &str, player: u8, rest: &str) -> Result<(), AllocError>
    ensures { OnOk result (string_bytes text.new
        ≡ string_bytes text.old ++ player_text words.now player rest.now) }
{
    push_fields(text, &[(words, player as i128)])?;
    text.push_str(rest)
}

/// How it ended, in words.
fn push_end(text: &mut String, end: End) -> Result<(), AllocError>
    ensures { OnOk result (string_bytes text.new ≡ string_bytes text.old ++ end_text end) }
{
    match end {
        End::Left => text.push_str("ended left\n"),
        End::OthersLeft => text.push_str("ended others left\n"),
        End::Full => text.push_str("ended full\n"),
        End::FullAt(player) => push_player(text, "ended full at ", player, "\n"),
        End::Lost(player) => push_player(text, "ended lost ", player, LOST),
        End::Inconsistent(player) => push_player(text, "ended inconsistent ", player, "\n"),
        End::InconsistentAt(player) => push_player(text, "ended inconsistent at ", player, "\n"),
    }
}

/// What was measured, and what follows from it where the session ended as it should.
fn push_judged(text: &mut String, well: bool, summary: &Summary) -> Result<(), AllocError>
    ensures { OnOk result (string_bytes text.new ≡ string_bytes text.old ++ judged_lines well summary.now) }
{
    if well {
        push_summary(text, summary)
    } else {
        push_figures(text, summary)
    }
}

/// The lines of a session that ended: how, and what was measured, if the game began; what it carries
/// is told where the session ended as it should. Err where memory is refused.
pub fn text_of_session(
    alloc: Global,
    end: End,
    summary: &Option<Summary>,
) -> Result<String, AllocError>
    ensures { IfOk result (λ text. string_bytes text ≡ session_lines end summary.now) }
{
    let mut text = String::new(alloc);
    push_end(&mut text, end)?;
    if let Some(summary) = summary {
        push_judged(&mut text, end.status() == 0, summary)?;
    }
    Ok(text)
}
