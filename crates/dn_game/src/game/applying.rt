//! What an event does to a game.

ghost use Rattle.std.specs.Prelude.{◌≡◌, ◌≢◌, ◌<◌, ◌⊎◌, false, true, Some, None, Ok, Err, length, nat_lt, slice_get, slice_index_or, if◌then◌else◌, OnErr};
ghost use Rattle.dn_machine.specs.{declared.answers.Heard.TheVariants.Started, declared.events.Event.TheVariants.Send, declared.events.Event.TheVariants.Deliver, declared.events.Done.Done};
ghost use Rattle.dn_machine.specs.{Game.refused, Game.refused_at, Game.refused_flight, Game.on_event, Runs.is_send, declared.events.Refusal.Refusal};
ghost use Rattle.dn_game.specs.{Promised.LeadsOn, Pool.HasGrown};

use super::Game;
use dn_machine::{Done, Event, Heard, Refusal};
use dn_packet::MAX_DATAGRAM;
use dn_world::World;

impl<W: World> Game<W> {
    ghost use Rattle.dn_game.specs.{Contents.contents, Applied.Tells, Applied.IsAfter, Applied.IsLeftOut, Applied.IsAddressed, Frame.KeepsOthers, Frame.KeepsWorlds};
    ghost use Rattle.dn_game.specs.{Frame.KeepsFlights, Frame.KeepsRest, Frame.named_by, Room.room_of, Room.IsFull, Room.KeepsWhose};

    /// Whether this is the number of a player.
    fn is_player(&self, node: u32) -> bool
        ensures { result ≡ nat_lt node (length (contents self.now).nodes) }
    {
        (node as usize) < self.nodes.len()
    }

    /// `Stopped`, if the node has stopped.
    fn refused_stopped(&self, node: u32) -> Option<Refusal>
        ensures told { result ≡ (if slice_index_or (contents self.now).stopped node false
            then Some Refusal.Stopped else None) }
        ensures not_memory { result ≢ Some Refusal.Memory }
    {
        if self.stopped(node) {
            Some(Refusal::Stopped)
        } else {
            None
        }
    }

    /// Why an event of one node is refused, if it is.
    fn refused_at(&self, node: u32) -> Option<Refusal>
        ensures told { Tells W.state W.physics (contents self.now)
            (λ rules m. result ≡ refused_at rules.players m node) }
        ensures not_memory { result ≢ Some Refusal.Memory }
        ensures there { result ≡ None → node < length (contents self.now).nodes }
    {
        if !self.is_player(node) {
            return Some(Refusal::NoNode);
        }
        self.refused_stopped(node)
    }

    /// Why a delivery is refused, if it is.
    pub(crate) fn refused_flight(&self, which: u32) -> Option<Refusal>
        ensures told { Tells W.state W.physics (contents self.now)
            (λ rules m. result ≡ refused_flight m (slice_get m.flights which)) }
        ensures not_memory { result ≢ Some Refusal.Memory }
        ensures there { result ≡ None → which < length (contents self.now).flights }
    {
        let which = which as usize;
        if which >= self.pool.len() {
            return Some(Refusal::NoPacket);
        }
        let flight = self.pool.record(which);
        let receiver = &self.nodes[usize::from(flight.to)];
        if !flight.aim.is_near(receiver.made()) {
            return Some(Refusal::Far);
        }
        self.refused_stopped(u32::from(flight.to))
    }

    /// Why an event is refused, if it is, apart from want of memory.
    fn refused(&self, event: Event) -> Option<Refusal>
        ensures told { Tells W.state W.physics (contents self.now)
            (λ rules m. result ≡ refused rules.players m event) }
        ensures not_memory { result ≢ Some Refusal.Memory }
        ensures there { result ≡ None → IsAddressed (contents self.now) event }
    {
        match event {
            Event::Build { node, .. }
            | Event::Give { node, .. }
            | Event::Run(node)
            | Event::Quit(node)
            | Event::Stop(node) => self.refused_at(node),
            Event::Send { to, .. } if !self.is_player(to) => Some(Refusal::NoNode),
            Event::Send { node, .. } => self.refused_at(node),
            Event::Deliver(which) => self.refused_flight(which),
        }
    }

    /// Asks a node for a packet, which joins those that were sent. Room for it is made first.
    fn send(&mut self, node: u32, to: u32) -> Result<Done, Refusal>
        requires node { node < length (contents self.old).nodes }
        requires to { to < length (contents self.old).nodes }
        ensures sent { Tells W.state W.physics (contents self.old) (λ rules m.
            ((done : Done) × (result ≡ Ok done) × IsAfter W.state rules (contents self.new)
            (on_event rules m (Send node to)) done)
            ⊎ IsLeftOut (contents self.old) (contents self.new) true result) }
        ensures unchanged { OnErr result (contents self.new ≡ contents self.old) }
        ensures memory { OnErr result (IsFull self.new) }
        ensures alone { OnErr result (result ≡ Err Refusal.Memory) }
        ensures grown { HasGrown (contents self.old).flights (room_of self.old) (room_of self.new) }
        ensures whose { KeepsWhose (contents self.old) (contents self.new) }
        ensures others { KeepsOthers (Some node) (contents self.old) (contents self.new) }
        ensures worlds { KeepsWorlds (contents self.old) (contents self.new) }
        ensures more { KeepsFlights (contents self.old) (contents self.new) }
    {
        let Ok(()) = self.pool.reserve() else {
            return Err(Refusal::Memory);
        };
        let to = to as u8;
        let mut room = [0; MAX_DATAGRAM];
        let Some((aim, size)) = self.nodes[node as usize].packet_with_aim(to, &mut room) else {
            return Ok(Done::Silent);
        };
        let which = self.pool.len();
        self.pool.push(node as u8, to, aim, &room[..size]);
        Ok(Done::Sent(which))
    }

    /// Hands a packet to its receiver.
    fn deliver(&mut self, which: u32) -> Heard
        requires { which < length (contents self.old).flights }
        ensures heard { Tells W.state W.physics (contents self.old) (λ rules m.
            refused_flight m (slice_get m.flights which) ≡ None
            → IsAfter W.state rules (contents self.new) (on_event rules m (Deliver which))
            (Done.Heard result)) }
        ensures room { room_of self.new ≡ room_of self.old }
        ensures whose { KeepsWhose (contents self.old) (contents self.new) }
        ensures others { KeepsOthers (named_by (contents self.old) (Deliver which)) (contents self.old)
            (contents self.new) }
        ensures worlds { result ≢ Started → KeepsWorlds (contents self.old) (contents self.new) }
        ensures flights { (contents self.new).flights ≡ (contents self.old).flights }
    {
        let which = which as usize;
        let flight = self.pool.record(which);
        self.nodes[usize::from(flight.to)].receive(flight.from, self.pool.datagram(which))
    }

    /// Applies one event, or says why it is refused; a refused event changes nothing.
    // Inlined, so that a caller that knows the event's kind does not ask for it again.
    #[inline(always)]
    pub fn apply(&mut self, event: Event) -> Result<Done, Refusal>
        // As the machine applies it. Whatever events led to the game, they and this one lead to what it is
        // afterwards.
        ensures leads { LeadsOn W.state W.physics (contents self.old) (contents self.new) event result }
        ensures unchanged { OnErr result (contents self.new ≡ contents self.old) }
        // `Memory` is answered only to a send, and where there is no room for one more packet; that more was
        // asked for is tested.
        ensures memory { result ≡ Err Refusal.Memory → (is_send event ≡ true) × IsFull self.new }
        // Memory is taken by a send alone, for one more packet or for as many again as there are. The demos'
        // rooms are their limits, which stay.
        ensures room { is_send event ≡ false → room_of self.new ≡ room_of self.old }
        ensures grown { HasGrown (contents self.old).flights (room_of self.old) (room_of self.new) }
        // And an event that is refused takes none, unless memory was refused to it.
        ensures refused { OnErr result (result ≢ Err Refusal.Memory → room_of self.new ≡ room_of self.old) }
        ensures whose { KeepsWhose (contents self.old) (contents self.new) }
        // Each node but the one that the event names is as it was, each has the world that it had, but for a node
        // that starts or runs a tic, and the packets that were sent stay.
        ensures rest { KeepsRest (contents self.old) (contents self.new) event result }
    {
        if let Some(refusal) = self.refused(event) {
            return Err(refusal);
        }
        Ok(match event {
            Event::Build { node, keys } => Done::Built(self.nodes[node as usize].build(keys)),
            Event::Give { node, command } => Done::Built(self.nodes[node as usize].give(command)),
            Event::Send { node, to } => return self.send(node, to),
            Event::Deliver(which) => Done::Heard(self.deliver(which)),
            Event::Run(node) => Done::Ran(self.nodes[node as usize].run()),
            Event::Quit(node) => Done::Quit(self.nodes[node as usize].quit()),
            Event::Stop(node) => {
                self.stopped[node as usize] = true;
                Done::Stopped
            }
        })
    }
}
