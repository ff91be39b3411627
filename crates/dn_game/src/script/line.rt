//! The lines of a script.

ghost use Rattle.std.specs.Prelude.{◌≡◌, ◌↔◌, ◌++◌, IsTrue, MatchOption, codes};
ghost use Rattle.dn_game.specs.Scripts.{HasNoSpace, IsSkipped, IsEventOf};

use crate::script::words;
use dn_machine::Event;

/// Whether a line is skipped.
pub(crate) fn is_skipped(line: &[u8]) -> bool
    ensures { IsTrue result ↔ IsSkipped line.now }
{
    line.is_empty() || line[0] == b'#'
}

/// The two parts of a text round its first space.
fn parts(text: &[u8]) -> Option<(&[u8], &[u8])>
    ensures { MatchOption result (HasNoSpace text.now)
        (λ p. HasNoSpace p.0.now × (text.now ≡ p.0.now ++ codes " " ++ p.1.now)) }
{
    let space = text.iter().position(|byte| *byte == b' ')?;
    Some((&text[..space], &text[space + 1..]))
}

/// The build of a node's number and keys.
fn build(text: &[u8]) -> Option<Event>
    ensures { IsEventOf (codes "build " ++ text.now) result }
{
    let (node, keys) = parts(text)?;
    Some(Event::Build {
        node: words::number(node)?,
        keys: words::keys(keys)?,
    })
}

/// The sending of a node's number and its receiver's.
fn send(text: &[u8]) -> Option<Event>
    ensures { IsEventOf (codes "send " ++ text.now) result }
{
    let (node, to) = parts(text)?;
    Some(Event::Send {
        node: words::number(node)?,
        to: words::number(to)?,
    })
}

/// The event of a line.
pub(crate) fn event(line: &[u8]) -> Option<Event>
    ensures { IsEventOf line.now result }
{
    if let Some(text) = line.strip_prefix(b"build ") {
        build(text)
    } else if let Some(text) = line.strip_prefix(b"send ") {
        send(text)
    } else if let Some(word) = line.strip_prefix(b"deliver ") {
        Some(Event::Deliver(words::number(word)?))
    } else if let Some(word) = line.strip_prefix(b"run ") {
        Some(Event::Run(words::number(word)?))
    } else if let Some(word) = line.strip_prefix(b"quit ") {
        Some(Event::Quit(words::number(word)?))
    } else if let Some(word) = line.strip_prefix(b"stop ") {
        Some(Event::Stop(words::number(word)?))
    } else {
        None
    }
}
