//! The lines of what a line carries or lacks.

ghost use Rattle.std.specs.{Prelude.◌≡◌, Prelude.◌++◌, Prelude.Bool, Prelude.OnOk, String.string_bytes};
ghost use Rattle.dn_measure.specs.Lacking.{words_of, rate_text, loss_text, figure_text, lack_line, lack_lines, judgement, verdict_lines};

use crate::fields::{push_fields, push_tenths};
use crate::measure::Summary;
use crate::runs::tenths_a_second;
use crate::text::{longest_millis, push_felt};
use crate::verdict::{Lack, lacks_of};
use std::alloc::AllocError;

/// How the line of what is lacking begins, and how it ends.
fn words_of(lack: Lack) -> (&'static str, &'static str)
    ensures { (result.0.now ≡ (words_of lack).0) × (result.1.now ≡ (words_of lack).1) }
{
    match lack {
        Lack::Time => ("lacks time: ", " seconds, at least 10\n"),
        Lack::Tics => ("lacks tics: none was run", "\n"),
        Lack::Rate => ("lacks tics: ", " a second\n"),
        Lack::Calm => ("lacks calm: gaps ", ", at most 1 a minute\n"),
        Lack::Pause => ("lacks calm: longest ", " ms, at most 1000\n"),
        Lack::Speed => ("lacks speed: ", " ms, at most 250\n"),
        Lack::Datagrams { .. } => ("lacks datagrams: ", " %, at most 15\n"),
    }
}

/// How many tics were run a second, of how many: what was run is cut off and what has to be run is rounded up, so
/// that the first number is below the second.
#[tactic(auto, unfolding(crate::specs::Lacking::rate_text))]
fn push_rate(text: &mut String, summary: &Summary) -> Result<(), AllocError>
    ensures { OnOk result (string_bytes text.new ≡ string_bytes text.old ++ rate_text summary.now) }
{
    push_tenths(text, "", tenths_a_second(summary.tics, summary.micros))?;
    push_tenths(text, " of ", (u128::from(summary.rate) * 69 + 6) / 7)
}

/// How many datagrams of a player were lost.
#[tactic(auto, unfolding(crate::specs::Lacking::loss_text))]
fn push_loss(text: &mut String, player: u8, loss: u64) -> Result<(), AllocError>
    ensures { OnOk result (string_bytes text.new ≡ string_bytes text.old ++ loss_text player loss) }
{
    push_fields(text, &[("player ", player as i128)])?;
    push_tenths(text, " lost ", u128::from(loss))
}

/// What was measured of it.
fn push_figure(text: &mut String, summary: &Summary, lack: Lack) -> Result<(), AllocError>
    ensures { OnOk result (string_bytes text.new ≡ string_bytes text.old ++ figure_text summary.now lack) }
{
    match lack {
        Lack::Time => push_tenths(text, "", u128::from(summary.micros / 100_000)),
        Lack::Tics => Ok(()),
        Lack::Rate => push_rate(text, summary),
        Lack::Calm => push_fields(text, &[("", summary.gaps as i128)]),
        Lack::Pause => push_fields(text, &[("", longest_millis(summary) as i128)]),
        Lack::Speed => push_felt(text, summary.most),
        Lack::Datagrams { player, loss } => push_loss(text, player, loss),
    }
}

/// The line of what is lacking.
fn push_lack(text: &mut String, summary: &Summary, lack: Lack) -> Result<(), AllocError>
    ensures { OnOk result (string_bytes text.new ≡ string_bytes text.old ++ lack_line summary.now lack) }
{
    let (beginning, ending) = words_of(lack);
    text.push_str(beginning)?;
    push_figure(text, summary, lack)?;
    text.push_str(ending)
}

/// The lines of all that is lacking.
fn push_lacks(text: &mut String, summary: &Summary, lacks: &[Lack]) -> Result<(), AllocError>
    ensures { OnOk result (string_bytes text.new
        ≡ string_bytes text.old ++ lack_lines summary.now lacks.now) }
{
    for lack in lacks {
        push_lack(text, summary, *lack)?;
    }
    Ok(())
}

/// Whether the line carries a game of four, in words.
fn judgement(carries: bool) -> &'static str
    ensures { result.now ≡ judgement carries }
{
    if carries {
        "this line carries a game of four\n"
    } else {
        "this line does not carry a game of four\n"
    }
}

/// Whether the line carries a game of four, and what it lacks if it does not.
#[tactic(auto, unfolding(crate::specs::Lacking::verdict_lines))]
pub(crate) fn push_verdict(text: &mut String, summary: &Summary) -> Result<(), AllocError>
    ensures { OnOk result (string_bytes text.new ≡ string_bytes text.old ++ verdict_lines summary.now) }
{
    let lacks = lacks_of(summary);
    text.push_str(judgement(lacks.is_empty()))?;
    push_lacks(text, summary, lacks.as_slice())
}
