//! Rounds in which the packets arrive.

ghost use Rattle.std.specs.Prelude.{◌≡◌, ◌↔◌, true, map, Err};
ghost use Rattle.dn_tic.specs.{declared.input.Input.TheVariants.Pressed, Inputs.input_of};
ghost use Rattle.dn_machine.specs.{declared.events.Refusal.Refusal, Progress.build_of, Progress.exchange, Progress.turn, Progress.good_round, Progress.good_rounds};
ghost use Rattle.dn_game.specs.{Applied.Tells, Contents.contents, Room.Continues, Room.IsFull, Rounds.exchange_events, Rounds.turn_events};
ghost use Rattle.dn_game.specs.{Rounds.round_events, Rounds.rounds_events, Rounds.pressed_by, Rounds.IsCarriedOut, declared.rounds.RoundFault.RoundFault};

use crate::game::Game;
use dn_machine::{Done, Event, Refusal};
use dn_tic::{Input, Keys, input_of};
use dn_world::World;
use thiserror::Error;

/// Why a round stopped before a packet was sent.
#[derive(Clone, Copy, Debug, PartialEq, Eq, Error)]
pub enum RoundFault {
    /// There was no room for one more packet.
    #[error("out of memory")]
    Memory,
    /// 2^32 packets were sent, and no event can name the next.
    #[error("2^32 packets were sent")]
    Packets,
}

/// Whether a send failed because memory was refused.
fn is_left_out(answer: Result<Done, Refusal>) -> bool
    ensures { (result ≡ true) ↔ (answer ≡ Err Refusal.Memory) }
{
    matches!(answer, Err(Refusal::Memory))
}

/// The inputs in which these keys are down.
pub(crate) fn pressed(keys: [Keys; 4]) -> [Input; 4]
    ensures { result ≡ map Pressed keys }
{
    let [first, second, third, fourth] = keys;
    [
        Input::Pressed(first),
        Input::Pressed(second),
        Input::Pressed(third),
        Input::Pressed(fourth),
    ]
}

/// The event in which a node builds the command of an input.
fn build_of(node: u32, input: Input) -> Event
    ensures { result ≡ build_of node input }
{
    match input {
        Input::Pressed(keys) => Event::Build { node, keys },
        Input::Given(command) => Event::Give { node, command },
    }
}

impl<W: World> Game<W> {
    /// Asks a node for a packet to another, and delivers it. To itself a node sends nothing.
    fn exchange(&mut self, node: u32, to: u32) -> Result<(), RoundFault>
        ensures good { Tells W.state W.physics (contents self.old) (λ rules m.
            IsCarriedOut W.state rules m (exchange_events node m to) (exchange rules node m to)
            (contents self.old) (contents self.new) result) }
        ensures memory { result ≡ Err RoundFault.Memory → IsFull self.new }
        ensures continues { Continues self.old self.new }
    {
        let Ok(which) = u32::try_from(self.flights()) else {
            return Err(RoundFault::Packets);
        };
        if is_left_out(self.apply(Event::Send { node, to })) {
            return Err(RoundFault::Memory);
        }
        let _ = self.apply(Event::Deliver(which));
        Ok(())
    }

    /// A node's turn: it builds a command, exchanges packets with each player, and runs a tic.
    fn turn(&mut self, node: u32, input: Input) -> Result<(), RoundFault>
        ensures good { Tells W.state W.physics (contents self.old) (λ rules m.
            IsCarriedOut W.state rules m (turn_events rules (λ me. input) m node) (turn rules (λ me. input) m node)
            (contents self.old) (contents self.new) result) }
        ensures memory { result ≡ Err RoundFault.Memory → IsFull self.new }
        ensures continues { Continues self.old self.new }
    {
        let _ = self.apply(build_of(node, input));
        for to in 0..self.players() {
            self.exchange(node, to)?;
        }
        let _ = self.apply(Event::Run(node));
        Ok(())
    }

    /// A round in which every packet arrives: each node in turn builds the command of its input, or takes the
    /// one that is given, sends each other node a packet, which is delivered, and runs a tic.
    ///
    /// It stops before a send where there is no room for one more packet, and where 2^32 packets were sent
    /// already; what was done by then stays.
    pub fn good_round_with(&mut self, inputs: &[Input; 4]) -> Result<(), RoundFault>
        ensures good { Tells W.state W.physics (contents self.old) (λ rules m.
            IsCarriedOut W.state rules m (round_events rules (input_of inputs.now) m)
            (good_round rules (input_of inputs.now) m) (contents self.old) (contents self.new) result) }
        ensures memory { result ≡ Err RoundFault.Memory → IsFull self.new }
        ensures continues { Continues self.old self.new }
    {
        for node in 0..self.players() {
            self.turn(node, input_of(inputs, node))?;
        }
        Ok(())
    }

    /// Such a round in which each node builds a command with its keys.
    pub fn good_round(&mut self, keys: [Keys; 4]) -> Result<(), RoundFault>
        ensures good { Tells W.state W.physics (contents self.old) (λ rules m.
            IsCarriedOut W.state rules m (round_events rules (pressed_by keys) m)
            (good_round rules (pressed_by keys) m) (contents self.old) (contents self.new) result) }
        ensures memory { result ≡ Err RoundFault.Memory → IsFull self.new }
        ensures continues { Continues self.old self.new }
    {
        self.good_round_with(&pressed(keys))
    }

    /// Plays `count` rounds in which every packet arrives, with the same inputs in each.
    pub fn good_rounds_with(&mut self, inputs: &[Input; 4], count: u32) -> Result<(), RoundFault>
        ensures good { Tells W.state W.physics (contents self.old) (λ rules m.
            IsCarriedOut W.state rules m (rounds_events rules (λ round. input_of inputs.now) count m)
            (good_rounds rules (λ round. input_of inputs.now) count m)
            (contents self.old) (contents self.new) result) }
        ensures memory { result ≡ Err RoundFault.Memory → IsFull self.new }
        ensures continues { Continues self.old self.new }
        ensures none { count ≡ 0 → self.new ≡ self.old }
    {
        for _ in 0..count {
            self.good_round_with(inputs)?;
        }
        Ok(())
    }

    /// Plays `count` rounds in which every packet arrives, with the same keys in each.
    pub fn good_rounds(&mut self, keys: [Keys; 4], count: u32) -> Result<(), RoundFault>
        ensures good { Tells W.state W.physics (contents self.old) (λ rules m.
            IsCarriedOut W.state rules m (rounds_events rules (λ round. pressed_by keys) count m)
            (good_rounds rules (λ round. pressed_by keys) count m)
            (contents self.old) (contents self.new) result) }
        ensures memory { result ≡ Err RoundFault.Memory → IsFull self.new }
        ensures continues { Continues self.old self.new }
        ensures none { count ≡ 0 → self.new ≡ self.old }
    {
        self.good_rounds_with(&pressed(keys), count)
    }
}
