//! The lines of what was measured.

ghost use Rattle.std.specs.{Prelude.◌≡◌, Prelude.◌+◌, Prelude.◌/◌, Prelude.◌++◌, Prelude.OnOk, Prelude.IfOk, String.string_bytes};
ghost use Rattle.dn_measure.specs.{Lines.felt_text, Lines.played_line, Lines.gaps_line, Lines.keys_line, Lines.came_line, Lines.flaws_text, Fields.if_there, Fields.of_each, Ends.figure_lines, Ends.summary_lines};

use crate::arrivals::Arrivals;
use crate::felt::Felt;
use crate::fields::{push_each, push_fields, push_line, push_tenths};
use crate::lacking::push_verdict;
use crate::measure::Summary;
use crate::runs::tenths_a_second;
use std::alloc::{AllocError, Global};

/// Within how many milliseconds keys were felt.
pub(crate) fn push_felt(text: &mut String, felt: Felt) -> Result<(), AllocError>
    ensures { OnOk result (string_bytes text.new ≡ string_bytes text.old ++ felt_text felt) }
{
    match felt {
        Felt::Never => text.push_str("never"),
        Felt::Within(time) => push_fields(text, &[("", time as i128)]),
        Felt::Longer => text.push_str("over 1000"),
    }
}

/// How many tics were run, in which time, and how many a second.
#[tactic(auto, unfolding(crate::specs::Lines::played_line))]
fn push_played(text: &mut String, summary: &Summary) -> Result<(), AllocError>
    ensures { OnOk result (string_bytes text.new ≡ string_bytes text.old ++ played_line summary.now) }
{
    push_fields(text, &[("tics ", summary.tics as i128)])?;
    push_tenths(text, " seconds ", u128::from(summary.micros / 100_000))?;
    push_tenths(
        text,
        " rate ",
        tenths_a_second(summary.tics, summary.micros),
    )?;
    push_fields(text, &[(" of ", summary.rate as i128)])?;
    text.push_str("\n")
}

/// The longest time between two tics in milliseconds, where a part of one counts as a whole one.
pub(crate) fn longest_millis(summary: &Summary) -> u64
    ensures { result ≡ (summary.now.longest + 999) / 1000 }
{
    ((u128::from(summary.longest) + 999) / 1_000) as u64
}

/// How many gaps there were, and the longest time between two tics in milliseconds.
#[tactic(auto, unfolding(crate::specs::Lines::gaps_line))]
fn push_gaps(text: &mut String, summary: &Summary) -> Result<(), AllocError>
    ensures { OnOk result (string_bytes text.new ≡ string_bytes text.old ++ gaps_line summary.now) }
{
    let fields = [
        ("gaps ", summary.gaps as i128),
        (" longest ", longest_millis(summary) as i128),
    ];
    push_line(text, &fields)
}

/// How soon keys were felt.
#[tactic(auto, unfolding(crate::specs::Lines::keys_line))]
fn push_keys(text: &mut String, summary: &Summary) -> Result<(), AllocError>
    ensures { OnOk result (string_bytes text.new ≡ string_bytes text.old ++ keys_line summary.now) }
{
    text.push_str("keys half ")?;
    push_felt(text, summary.half)?;
    text.push_str(" most ")?;
    push_felt(text, summary.most)?;
    text.push_str("\n")
}

/// What came late, twice or too late to count, and how much was lost.
#[tactic(auto, unfolding(crate::specs::Lines::flaws_text))]
pub(crate) fn push_flaws(text: &mut String, arrivals: &Arrivals) -> Result<(), AllocError>
    ensures { OnOk result (string_bytes text.new ≡ string_bytes text.old ++ flaws_text arrivals.now) }
{
    let fields = [
        (" late ", arrivals.late as i128),
        (" twice ", arrivals.twice as i128),
        (" old ", arrivals.old as i128),
    ];
    push_fields(text, &fields)?;
    push_tenths(text, " loss ", u128::from(arrivals.loss()))
}

/// What came from a player, and nothing for a number that is no player's.
#[tactic(auto, unfolding(crate::specs::Lines::came_line))]
fn push_peer(text: &mut String, player: u8, peer: Option<Arrivals>) -> Result<(), AllocError>
    ensures { OnOk result (string_bytes text.new ≡ string_bytes text.old ++ if_there came_line player peer) }
{
    let Some(arrivals) = peer else {
        return Ok(());
    };
    let fields = [
        ("player ", player as i128),
        (" came ", arrivals.came as i128),
        (" lost ", arrivals.lost as i128),
    ];
    push_fields(text, &fields)?;
    push_flaws(text, &arrivals)?;
    text.push_str("\n")
}

/// What came from each player.
fn push_peers(text: &mut String, peers: [Option<Arrivals>; 4]) -> Result<(), AllocError>
    ensures { OnOk result (string_bytes text.new ≡ string_bytes text.old ++ of_each came_line 0 peers) }
{
    push_each!(text, peers, push_peer)
}

/// Appends the lines of what was measured.
pub(crate) fn push_figures(text: &mut String, summary: &Summary) -> Result<(), AllocError>
    ensures { OnOk result (string_bytes text.new ≡ string_bytes text.old ++ figure_lines summary.now) }
{
    push_played(text, summary)?;
    push_gaps(text, summary)?;
    push_keys(text, summary)?;
    push_peers(text, summary.peers)
}

/// Appends the lines of what was measured, and what follows from it.
pub(crate) fn push_summary(text: &mut String, summary: &Summary) -> Result<(), AllocError>
    ensures { OnOk result (string_bytes text.new ≡ string_bytes text.old ++ summary_lines summary.now) }
{
    push_figures(text, summary)?;
    push_verdict(text, summary)
}

/// The lines of what was measured, and whether such a line carries a game of four, or what it lacks. Err where
/// memory is refused.
pub fn text_of_summary(alloc: Global, summary: &Summary) -> Result<String, AllocError>
    ensures { IfOk result (λ text. string_bytes text ≡ summary_lines summary.now) }
{
    let mut text = String::new(alloc);
    push_summary(&mut text, summary)?;
    Ok(text)
}
