//! The lines that are told of a demo: how long it is and how hard, and what its players did.

ghost use Rattle.std.specs.{Prelude.◌≡◌, Prelude.◌++◌, Prelude.◌<◌, Prelude.◌≤◌, Prelude.◌^◌, Prelude.length, Prelude.List, Prelude.IfOk, Prelude.OnOk, Prelude.codes, String.string_bytes};
ghost use Rattle.dn_inspect.specs.Telling as spec;
ghost use Rattle.dn_inspect.specs.Telling.{two_digits, time_text, skill_text, length_line, counts_line};

use crate::tally::{Counts, Tally};
use dn_demo::Demo;
use dn_measure::{push_fields, push_line};
use std::alloc::{AllocError, Global};

/// The skills, as the menu names them.
const SKILLS: [&str; 5] = [
    "I'm too young to die",
    "Hey, not too rough",
    "Hurt me plenty",
    "Ultra-Violence",
    "Nightmare!",
];

/// How many hundredths of a second so many tics take.
fn hundredths(tics: u64) -> u128
    ensures { result ≡ spec.hundredths tics }
{
    (u128::from(tics) * 100 + 17) / 35
}

#[tactic(auto, unfolding(crate::specs::Telling::two_digits))]
fn push_two(text: &mut String, number: u128) -> Result<(), AllocError>
    ensures { OnOk result (string_bytes text.new ≡ string_bytes text.old ++ two_digits number) }
{
    let (tens, ones) = (number / 10, number % 10);
    write!(text, "{tens}")?;
    write!(text, "{ones}")
}

#[tactic(auto, unfolding(crate::specs::Telling::time_text))]
fn push_time(text: &mut String, hundredths: u128) -> Result<(), AllocError>
    ensures { OnOk result (string_bytes text.new ≡ string_bytes text.old ++ time_text hundredths) }
{
    let minutes = hundredths / 6000;
    write!(text, "{minutes}")?;
    text.push_str(":")?;
    push_two(text, hundredths / 100 % 60)?;
    text.push_str(".")?;
    push_two(text, hundredths % 100)
}

#[tactic(auto, unfolding(crate::specs::Telling::skill_text))]
fn push_skill(text: &mut String, skill: u8) -> Result<(), AllocError>
    ensures { OnOk result (string_bytes text.new ≡ string_bytes text.old ++ skill_text skill) }
{
    push_fields(text, &[(" skill ", i128::from(skill) + 1)])?;
    match SKILLS.get(usize::from(skill)) {
        Some(name) => {
            text.push_str(" ")?;
            text.push_str(name)
        }
        None => Ok(()),
    }
}

#[tactic(auto, unfolding(crate::specs::Telling::length_line))]
fn push_length(text: &mut String, demo: &Demo) -> Result<(), AllocError>
    ensures { OnOk result (string_bytes text.new ≡ string_bytes text.old ++ length_line demo.now) }
{
    let tics = demo.tics() as u64;
    text.push_str("time ")?;
    push_time(text, hundredths(tics))?;
    push_fields(text, &[(" tics ", i128::from(tics))])?;
    push_skill(text, demo.start().skill)?;
    text.push_str("\n")
}

#[tactic(auto, unfolding(crate::specs::Telling::counts_line))]
fn push_counts(text: &mut String, player: u8, counts: Counts) -> Result<(), AllocError>
    ensures { OnOk result (string_bytes text.new ≡ string_bytes text.old ++ counts_line player counts) }
{
    let fields = [
        ("player ", i128::from(player)),
        (" tics ", i128::from(counts.tics)),
        (" turns ", i128::from(counts.turns)),
        (" fine ", i128::from(counts.fine)),
        (" attack ", i128::from(counts.attack)),
        (" use ", i128::from(counts.used)),
        (" weapons ", i128::from(counts.weapons)),
        (" sr40 ", i128::from(counts.sr40)),
        (" sr50 ", i128::from(counts.sr50)),
    ];
    push_line(text, &fields)
}

/// The line of who is present, and nothing for another.
fn push_seat(text: &mut String, player: u8, is_there: bool, tally: &Tally) -> Result<(), AllocError>
    ensures { OnOk result (string_bytes text.new
        ≡ string_bytes text.old ++ spec.seat_line player is_there tally.now) }
{
    if is_there {
        push_counts(text, player, tally.counts(player))
    } else {
        Ok(())
    }
}

/// The lines of the players who are present.
fn push_seats(text: &mut String, present: [bool; 4], tally: &Tally) -> Result<(), AllocError>
    ensures { OnOk result (string_bytes text.new
        ≡ string_bytes text.old ++ spec.seat_lines 0 present tally.now) }
{
    let [a, b, c, d] = present;
    push_seat(text, 0, a, tally)?;
    push_seat(text, 1, b, tally)?;
    push_seat(text, 2, c, tally)?;
    push_seat(text, 3, d, tally)
}

/// The lines of a demo: its time at 35 tics a second and its skill as the menu counts it, and then for each player
/// in how many tics it did what. Err where memory is refused.
pub fn text_of_stats(alloc: Global, demo: &Demo) -> Result<String, AllocError>
    ensures { IfOk result (λ text. string_bytes text ≡ spec.stats_lines demo.now) }
{
    let mut text = String::new(alloc);
    push_length(&mut text, demo)?;
    push_seats(&mut text, demo.present(), &Tally::of(demo))?;
    Ok(text)
}
