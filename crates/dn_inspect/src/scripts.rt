//! Why a line of a script is no event, and which was meant.

ghost use Rattle.std.specs.{Prelude.◌≡◌, Prelude.◌++◌, Prelude.drop, Prelude.map, Prelude.IfOk, Prelude.OnOk, String.string_bytes};
ghost use Rattle.std.specs.Option.{option_map};
ghost use Rattle.dn_inspect.specs.Scripts as spec;

use std::alloc::{AllocError, Global};

/// An event's word, and how its line is written.
type Row = (&'static str, &'static str);

/// The events.
const EVENTS: [Row; 6] = [
    (
        "build",
        "build has a node and its keys, as `build 0 fs` or `build 0 -`",
    ),
    ("send", "send has two nodes, as `send 0 1`"),
    (
        "deliver",
        "deliver has the number of a packet, as `deliver 0`",
    ),
    ("run", "run has a node, as `run 0`"),
    ("quit", "quit has a node, as `quit 0`"),
    ("stop", "stop has a node, as `stop 0`"),
];

/// A word without its first letter.
fn behind(word: &[u8]) -> &[u8]
    ensures { result.now ≡ drop 1 word.now }
{
    match word {
        [_, rest @ ..] => rest,
        [] => word,
    }
}

/// Whether a word is a name whose first two letters are swapped.
fn is_swapped(word: &[u8], name: &[u8]) -> bool
    ensures { result ≡ spec.is_swapped word.now name.now }
{
    match (word, name) {
        ([a, b, word @ ..], [c, d, name @ ..]) => a == d && b == c && word == name,
        _ => false,
    }
}

/// Whether a word is a name with one letter more, less or other, or two swapped, in front.
fn is_one_off(word: &[u8], name: &[u8]) -> bool
    ensures { result ≡ spec.is_one_off word.now name.now }
{
    behind(word) == name
        || word == behind(name)
        || behind(word) == behind(name)
        || is_swapped(word, name)
}

/// Whether a word is a name with one letter more, less or other, or two swapped.
fn is_near(mut word: &[u8], mut name: &[u8]) -> bool
    ensures { result ≡ spec.is_near word.entry.now name.entry.now }
{
    while let ([a, more @ ..], [b, rest @ ..]) = (word, name) {
        if a != b {
            break;
        }
        word = more;
        name = rest;
    }
    is_one_off(word, name)
}

/// How the line of an event with this word is written.
fn form_of(mut events: &[Row], word: &str) -> Option<&'static str>
    ensures { option_map (λ form. form.now) result
        ≡ spec.form_of (map (λ row. (row.0.now, row.1.now)) events.entry.now) word.now }
{
    while let [row, rest @ ..] = events {
        if row.0 == word {
            return Some(row.1);
        }
        events = rest;
    }
    None
}

/// The first event that a word may have meant.
fn meant(mut events: &[Row], word: &str) -> Option<&'static str>
    ensures { option_map (λ name. name.now) result
        ≡ spec.meant (map (λ row. (row.0.now, row.1.now)) events.entry.now) word.now }
{
    while let [row, rest @ ..] = events {
        if is_near(word.as_bytes(), row.0.as_bytes()) {
            return Some(row.0);
        }
        events = rest;
    }
    None
}

/// Appends which event may have been meant, if any.
fn push_guess(text: &mut String, name: Option<&str>) -> Result<(), AllocError>
    ensures { OnOk result (string_bytes text.new
        ≡ string_bytes text.old ++ spec.guess (option_map (λ name. name.now) name.entry)) }
{
    match name {
        Some(name) => write!(text, "; did you mean {name}"),
        None => Ok(()),
    }
}

/// That there is no such event, and which one may have been meant.
fn text_of_stranger(alloc: Global, word: &str) -> Result<String, AllocError>
    ensures { IfOk result (λ text. string_bytes text ≡ spec.stranger word.now) }
{
    let mut text = format!(in alloc; "'{word}': no such event")?;
    push_guess(&mut text, meant(&EVENTS, word))?;
    Ok(text)
}

/// Why a line that begins with this word is no event of a script: how that event is written, or that there is no such
/// event, and which one may have been meant. Err where memory is refused.
pub fn text_of_bad_event(alloc: Global, word: &str) -> Result<String, AllocError>
    ensures { IfOk result (λ text. string_bytes text ≡ spec.why word.now) }
{
    match form_of(&EVENTS, word) {
        Some(form) => String::from_str(alloc, form),
        None => text_of_stranger(alloc, word),
    }
}
