//! The lines of nodes: where each stands, and how far it has come.

ghost use Rattle.std.specs.{Prelude.◌≡◌, Prelude.◌++◌, Prelude.codes, Prelude.OnOk, String.string_bytes};
ghost use Rattle.dn_node.specs.Contents.{contents};
ghost use Rattle.dn_netgame.specs.Texts.{phase_text, standing, progress, counts, demo_size, line_end, node_line};

use dn_measure::push_fields;
use dn_node::{Cause, Node, Phase};
use dn_world::World;
use std::alloc::AllocError;

/// Where a node stands, in words behind a space.
fn push_phase(text: &mut String, phase: Phase) -> Result<(), AllocError>
    ensures { OnOk result (string_bytes text.new ≡ string_bytes text.old ++ (codes " " ++ phase_text phase)) }
{
    text.push_str(" ")?;
    match phase {
        Phase::Listening => text.push_str("listening"),
        Phase::Gathering => text.push_str("gathering"),
        Phase::Playing => text.push_str("playing"),
        Phase::Ended(Cause::Quit) => text.push_str("ended quit"),
        Phase::Ended(Cause::Full) => text.push_str("ended full"),
        Phase::Ended(Cause::Inconsistent { player, .. }) => {
            push_fields(text, &[("ended inconsistent ", player as i128)])
        }
    }
}

/// How many commands it has of each player.
fn push_counts<W: World>(text: &mut String, node: &Node<W>) -> Result<(), AllocError>
    ensures { OnOk result (string_bytes text.new ≡ string_bytes text.old
        ++ counts (contents node.now).players (contents node.now).rings) }
{
    let mut player = 0;
    while let Some(count) = node.got(player) {
        push_fields(text, &[(" ", count as i128)])?;
        player += 1;
    }
    Ok(())
}

/// Whose node it is, and where it stands.
#[tactic(auto, unfolding(crate::specs::Texts::standing))]
fn push_standing<W: World>(text: &mut String, node: &Node<W>) -> Result<(), AllocError>
    ensures { OnOk result (string_bytes text.new ≡ string_bytes text.old ++ standing (contents node.now)) }
{
    push_fields(text, &[("node ", node.me() as i128)])?;
    push_phase(text, node.phase())
}

/// How many commands it made, how many tics it ran, and how many commands it has of each player.
#[tactic(auto, unfolding(crate::specs::Texts::progress))]
fn push_progress<W: World>(text: &mut String, node: &Node<W>) -> Result<(), AllocError>
    ensures { OnOk result (string_bytes text.new ≡ string_bytes text.old ++ progress (contents node.now)) }
{
    let fields = [
        (" made ", node.made() as i128),
        (" ran ", node.ran() as i128),
    ];
    push_fields(text, &fields)?;
    text.push_str(" got")?;
    push_counts(text, node)
}

/// How many bytes its demo has.
#[tactic(auto, unfolding(crate::specs::Texts::demo_size))]
fn push_demo_size<W: World>(text: &mut String, node: &Node<W>) -> Result<(), AllocError>
    ensures { OnOk result (string_bytes text.new ≡ string_bytes text.old ++ demo_size (contents node.now)) }
{
    push_fields(text, &[(" demo ", node.demo().len() as i128)])
}

/// The end of a node's line, which tells whether it has stopped.
fn line_end(stopped: bool) -> &'static str
    ensures { result.now ≡ line_end stopped }
{
    if stopped { " stopped\n" } else { "\n" }
}

/// Appends the line of a node, which also tells whether its program has stopped. Err where memory is refused:
/// what the text then holds is not said, and the caller is to throw it away.
#[tactic(auto, unfolding(crate::specs::Texts::node_line))]
pub fn push_node<W: World>(
    text: &mut String,
    node: &Node<W>,
    stopped: bool,
) -> Result<(), AllocError>
    ensures { OnOk result (string_bytes text.new
        ≡ string_bytes text.old ++ node_line (contents node.now) stopped) }
{
    push_standing(text, node)?;
    push_progress(text, node)?;
    push_demo_size(text, node)?;
    text.push_str(line_end(stopped))
}
