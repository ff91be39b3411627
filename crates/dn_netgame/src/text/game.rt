//! The lines of a game that was played: of its nodes and events, and of a trace, with answers in words; and the
//! line of a text that is no script.

ghost use Rattle.std.specs.{Prelude.◌≡◌, Prelude.◌++◌, Prelude.OnOk, Prelude.IfOk, String.string_bytes};
ghost use Rattle.dn_game.specs.Contents.{contents};
ghost use Rattle.dn_netgame.specs.Texts.{node_lines, events_line, game_lines, made_words, heard_words, ran_words, quit_words, done_words, refused_words, answer_words, trace_line, bad_line};
ghost use Rattle.dn_machine.specs.declared.answers.Heard.TheVariants.{Dropped};

use crate::text::nodes::push_node;
use dn_game::script::push_event;
use dn_game::{Done, Event, Game, Played, Refusal};
use dn_machine::drop_word;
use dn_measure::{push_fields, push_line};
use dn_node::{Heard, Made, Ran};
use dn_world::World;
use std::alloc::{AllocError, Global};

/// The lines of a game's nodes, in the order of their numbers.
fn push_nodes<W: World>(text: &mut String, game: &Game<W>) -> Result<(), AllocError>
    ensures { OnOk result (string_bytes text.new
        ≡ string_bytes text.old ++ node_lines (contents game.now).stopped 0 (contents game.now).nodes) }
{
    let mut number = 0;
    while let Some(node) = game.node(number) {
        push_node(text, node, game.stopped(number))?;
        number += 1;
    }
    Ok(())
}

#[tactic(auto, unfolding(crate::specs::Texts::events_line))]
fn push_events<W: World>(text: &mut String, played: &Played<W>) -> Result<(), AllocError>
    ensures { OnOk result (string_bytes text.new ≡ string_bytes text.old ++ events_line played.now) }
{
    let fields = [
        ("events ", played.done as i128),
        (" refused ", played.refused as i128),
        (" flights ", played.game.flights() as i128),
    ];
    push_line(text, &fields)
}

/// Appends the lines of all nodes, in the order of their numbers, and the line of the events. Err where memory
/// is refused: what the text then holds is not said, and the caller is to throw it away.
pub fn push_game<W: World>(text: &mut String, played: &Played<W>) -> Result<(), AllocError>
    ensures { OnOk result (string_bytes text.new ≡ string_bytes text.old ++ game_lines played.now) }
{
    push_nodes(text, &played.game)?;
    push_events(text, played)
}

fn push_made(text: &mut String, made: Made) -> Result<(), AllocError>
    ensures { OnOk result (string_bytes text.new ≡ string_bytes text.old ++ made_words made) }
{
    match made {
        Made::Made(tic) => push_fields(text, &[("built ", tic as i128)]),
        Made::Full => text.push_str("full"),
        Made::NotPlaying => text.push_str("not playing"),
    }
}

fn push_dropped(text: &mut String, number: u8) -> Result<(), AllocError>
    ensures { OnOk result (string_bytes text.new ≡ string_bytes text.old ++ heard_words (Dropped number)) }
{
    push_fields(text, &[("dropped ", number as i128)])?;
    text.push_str(drop_word(number))
}

fn push_heard(text: &mut String, heard: Heard) -> Result<(), AllocError>
    ensures { OnOk result (string_bytes text.new ≡ string_bytes text.old ++ heard_words heard) }
{
    match heard {
        Heard::Started => text.push_str("started"),
        Heard::Taken(count) => push_fields(text, &[("taken ", count as i128)]),
        Heard::Stale => text.push_str("stale"),
        Heard::Gap => text.push_str("gap"),
        Heard::Left => text.push_str("left"),
        Heard::Noted => text.push_str("noted"),
        Heard::Dropped(number) => push_dropped(text, number),
    }
}

fn push_ran(text: &mut String, ran: Ran) -> Result<(), AllocError>
    ensures { OnOk result (string_bytes text.new ≡ string_bytes text.old ++ ran_words ran) }
{
    match ran {
        Ran::Ran(tic) => push_fields(text, &[("ran ", tic as i128)]),
        Ran::Waiting(player) => push_fields(text, &[("waiting ", player as i128)]),
        Ran::DemoFull => text.push_str("demo full"),
        Ran::Inconsistent {
            player,
            was,
            should,
        } => {
            let fields = [
                ("inconsistent ", player as i128),
                (" was ", was as i128),
                (" should ", should as i128),
            ];
            push_fields(text, &fields)
        }
        Ran::NotPlaying => text.push_str("not playing"),
    }
}

/// Whether a node that quits had not ended before.
fn quit_text(first: bool) -> &'static str
    ensures { result.now ≡ quit_words first }
{
    if first { "quit" } else { "had ended" }
}

fn push_done(text: &mut String, done: Done) -> Result<(), AllocError>
    ensures { OnOk result (string_bytes text.new ≡ string_bytes text.old ++ done_words done) }
{
    match done {
        Done::Built(made) => push_made(text, made),
        Done::Sent(flight) => push_fields(text, &[("sent ", flight as i128)]),
        Done::Silent => text.push_str("silent"),
        Done::Heard(heard) => push_heard(text, heard),
        Done::Ran(ran) => push_ran(text, ran),
        Done::Quit(first) => text.push_str(quit_text(first)),
        Done::Stopped => text.push_str("stopped"),
    }
}

/// Why an event was refused.
fn refused_text(refusal: Refusal) -> &'static str
    ensures { result.now ≡ refused_words refusal }
{
    match refusal {
        Refusal::NoNode => "refused 1 no node",
        Refusal::NoPacket => "refused 2 no packet",
        Refusal::Far => "refused 3 far",
        Refusal::Stopped => "refused 4 stopped",
        Refusal::Memory => "refused 5 no memory",
    }
}

/// Appends what is answered to an event, in the words of a trace. Err where memory is refused: what the text
/// then holds is not said, and the caller is to throw it away.
pub fn push_answer(text: &mut String, answer: Result<Done, Refusal>) -> Result<(), AllocError>
    ensures { OnOk result (string_bytes text.new ≡ string_bytes text.old ++ answer_words answer) }
{
    match answer {
        Ok(done) => push_done(text, done),
        Err(refusal) => text.push_str(refused_text(refusal)),
    }
}

/// Appends the line of an event in a trace: its number, the event in the words of a script, and its answer in
/// words. Err where memory is refused: what the text then holds is not said, and the caller is to throw it
/// away.
#[tactic(auto, unfolding(crate::specs::Texts::trace_line))]
pub fn push_trace_line(
    text: &mut String,
    number: usize,
    event: Event,
    answer: Result<Done, Refusal>,
) -> Result<(), AllocError>
    ensures { OnOk result (string_bytes text.new ≡ string_bytes text.old ++ trace_line number event answer) }
{
    push_fields(text, &[("event ", number as i128)])?;
    text.push_str(" ")?;
    push_event(text, event)?;
    text.push_str(": ")?;
    push_answer(text, answer)?;
    text.push_str("\n")
}

/// The line that tells of a script's bad line by its number, counted from 1. Err where memory is refused.
#[tactic(auto, unfolding(crate::specs::Texts::bad_line))]
pub fn text_of_bad_line(alloc: Global, number: usize) -> Result<String, AllocError>
    ensures { IfOk result (λ text. string_bytes text ≡ bad_line number) }
{
    let mut text = String::new(alloc);
    push_line(&mut text, &[("script: line ", number as i128)])?;
    Ok(text)
}
