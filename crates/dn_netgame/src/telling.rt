//! What a run tells of a game: three ways, each an observer of its own. What a trace and a script hold is the
//! text so far.

ghost use Rattle.std.specs.{Prelude.◌≡◌, Prelude.[], Prelude.IfOk, String.string_bytes};
ghost use Rattle.dn_netgame.specs.Told.{Account, IsQuiet, IsTrace, IsScript, AddsTraced, AddsScripted, HasText};

use crate::text::{push_game, push_trace_line};
use dn_game::script::push_event_line;
use dn_game::{Done, Event, Nobody, Observer, Played, Refusal};
use dn_world::Walk;
use std::alloc::{AllocError, Global};

/// Who tells of a game: it is told of each event, and has the text in the end.
pub trait Teller: Observer + Drop {
    // which text it makes of events, their answers and the game that they led to
    ghost account: { Account };

    // it was told of nothing
    ghost is_new: { Self → Type 0 };

    /// One that was told of nothing yet.
    fn new(alloc: Global) -> Self
        ensures { is_new result };

    /// The whole text, once the game was played.
    fn finish(self, alloc: Global, played: &Played<Walk>) -> Result<String, AllocError>
        ensures { IfOk result
            (λ text. HasText Self.observes is_new account self played.now (string_bytes text)) };
}

/// The lines of the game. Nobody is told of its events, which costs no call.
impl Teller for Nobody {
    ghost account = { IsQuiet };

    ghost is_new = { λ nobody. Unit {0} };

    fn new(_alloc: Global) -> Nobody {
        Nobody
    }

    fn finish(self, alloc: Global, played: &Played<Walk>) -> Result<String, AllocError> {
        let mut text = String::new(alloc);
        push_game(&mut text, played)?;
        Ok(text)
    }
}

/// A line for each event, with its number, counted from 0, the event in the words of a script, and its answer in
/// words; and then the lines of the game.
#[derive(Drop)]
pub struct Trace(pub String);

impl Observer for Trace {
    ghost observes = { AddsTraced (λ trace. string_bytes trace.0) };

    fn observe(
        &mut self,
        number: usize,
        event: Event,
        answer: Result<Done, Refusal>,
    ) -> Result<(), AllocError> {
        push_trace_line(&mut self.0, number, event, answer)
    }
}

impl Teller for Trace {
    ghost account = { IsTrace };

    ghost is_new = { λ trace. string_bytes trace.0 ≡ [] };

    fn new(alloc: Global) -> Trace {
        Trace(String::new(alloc))
    }

    fn finish(self, _alloc: Global, played: &Played<Walk>) -> Result<String, AllocError> {
        let mut text = self.0;
        push_game(&mut text, played)?;
        Ok(text)
    }
}

/// The script of the events alone. It ends a game that leaves out a send for lack of memory, since the script
/// would not lead there again.
#[derive(Drop)]
pub struct Script(pub String);

impl Observer for Script {
    ghost observes = { AddsScripted (λ script. string_bytes script.0) };

    fn observe(
        &mut self,
        _number: usize,
        event: Event,
        answer: Result<Done, Refusal>,
    ) -> Result<(), AllocError> {
        match answer {
            Err(Refusal::Memory) => Err(AllocError),
            _ => push_event_line(&mut self.0, event),
        }
    }
}

impl Teller for Script {
    ghost account = { IsScript };

    ghost is_new = { λ script. string_bytes script.0 ≡ [] };

    fn new(alloc: Global) -> Script {
        Script(String::new(alloc))
    }

    fn finish(self, _alloc: Global, _played: &Played<Walk>) -> Result<String, AllocError> {
        Ok(self.0)
    }
}
