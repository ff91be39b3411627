//! A table whose engines play tick by tick, over a network that loses, repeats and delays.

use crate::{Done, Event, Step, Table};
use dn_session::Address;
use dn_tic::{Input, Keys, Move};
use dn_world::Walk;
use std::mem::replace;
use std::test::Fail;

/// How many milliseconds go by from tick to tick.
const TICK: u32 = 29;

/// Where the engine of a player is.
pub fn address(player: u8) -> Address {
    Address {
        bytes: [player.wrapping_add(1); 32],
    }
}

/// A table, what the network does to datagrams, and what came to pass.
#[derive(Drop)]
pub struct Play {
    table: Table<Walk>,
    players: u8,
    now: u32,
    /// By sender and receiver: whose datagrams are lost.
    lost: [bool; 16],
    /// Datagrams wait for the next tick, and come the last first, and twice.
    pub late: bool,
    /// Whose engines have vanished.
    gone: [bool; 4],
    /// What is on its way: to whom, which, and from where.
    waiting: Vec<(u8, u32, Address)>,
    /// How many rows each was told at the last mark.
    marked: [usize; 4],
}

impl Play {
    /// Of a table at which nothing happened yet.
    pub fn new(rt: &HostRuntime, table: Table<Walk>, players: u8) -> Play {
        Play {
            table,
            players,
            now: 0,
            lost: [false; 16],
            late: false,
            gone: [false; 4],
            waiting: Vec::new(rt.alloc()),
            marked: [0; 4],
        }
    }

    /// Whether datagrams of one to another are lost from now on.
    pub fn lose(&mut self, from: u8, to: u8, is_lost: bool) {
        if let Some(lost) = self.lost.get_mut(usize::from(from) * 4 + usize::from(to)) {
            *lost = is_lost;
        }
    }

    /// An engine vanishes.
    pub fn vanish(&mut self, player: u8) {
        if let Some(gone) = self.gone.get_mut(usize::from(player)) {
            *gone = true;
        }
    }

    /// Notes how many rows an engine was told.
    pub fn mark(&mut self, player: u8) {
        let told = self.told(player).len();
        if let Some(marked) = self.marked.get_mut(usize::from(player)) {
            *marked = told;
        }
    }

    /// How many rows it was told since.
    pub fn more(&self, player: u8) -> usize {
        match self.marked.get(usize::from(player)) {
            Some(marked) => self.told(player).len().saturating_sub(*marked),
            None => 0,
        }
    }

    /// The rows that an engine was told.
    pub fn told(&self, player: u8) -> &[[Option<Move>; 4]] {
        match self.table.engines.get(usize::from(player)) {
            Some(engine) => engine.told.as_slice(),
            None => &[],
        }
    }

    /// Whether its session is over.
    pub fn is_over(&self, player: u8) -> bool {
        match self.table.engines.get(usize::from(player)) {
            Some(engine) => engine.session.over().is_some(),
            None => false,
        }
    }

    fn is_gone(&self, player: u8) -> bool {
        self.gone.get(usize::from(player)).is_none_or(|gone| *gone)
    }

    fn is_lost(&self, from: u8, to: u8) -> bool {
        let place = usize::from(from) * 4 + usize::from(to);
        self.lost.get(place).is_none_or(|lost| *lost)
    }

    /// A step of an engine, now.
    fn apply(&mut self, rt: &HostRuntime, player: u8, step: &Step) -> Result<Done, Fail> {
        let event = Event {
            player,
            now: self.now,
            step: *step,
        };
        match self.table.apply(rt.alloc(), &event) {
            Ok(done) => Ok(done),
            Err(_) => Err("refused".into()),
        }
    }

    /// A step of an engine, which then sends all that it has to send.
    pub fn act(&mut self, rt: &HostRuntime, player: u8, step: &Step) -> Result<Done, Fail> {
        let done = self.apply(rt, player, step)?;
        for _ in 0..16 {
            let which = (self.table.given.len() % 0x1_0000_0000) as u32;
            let Done::Sent(Some(to)) = self.apply(rt, player, &Step::Send)? else {
                break;
            };
            let receiver = to.bytes[0].wrapping_sub(1);
            if !self.is_gone(receiver) && !self.is_lost(player, receiver) {
                self.waiting.push((receiver, which, address(player)))?;
            }
        }
        Ok(done)
    }

    /// These datagrams come.
    fn deliver(&mut self, rt: &HostRuntime, coming: &[(u8, u32, Address)]) -> Result<(), Fail> {
        for &(player, which, from) in coming {
            self.act(rt, player, &Step::Hear { which, from })?;
        }
        Ok(())
    }

    /// What is on its way comes, and what is sent then. What is late waited for this tick: it comes the last first, and
    /// then again.
    fn flow(&mut self, rt: &HostRuntime) -> Result<(), Fail> {
        for _ in 0..8 {
            let mut coming = replace(&mut self.waiting, Vec::new(rt.alloc()));
            if self.late {
                coming.reverse();
                self.deliver(rt, coming.as_slice())?;
                return self.deliver(rt, coming.as_slice());
            }
            self.deliver(rt, coming.as_slice())?;
        }
        Ok(())
    }

    /// Each engine that has not vanished does this.
    fn all(&mut self, rt: &HostRuntime, step: &Step) -> Result<(), Fail> {
        for player in 0..self.players {
            if !self.is_gone(player) {
                self.act(rt, player, step)?;
            }
        }
        Ok(())
    }

    /// All who join call the host, which replies; then 600 milliseconds go by.
    pub fn meet(&mut self, rt: &HostRuntime) -> Result<(), Fail> {
        self.all(rt, &Step::Poll)?;
        self.flow(rt)?;
        self.now = self.now.wrapping_add(600);
        Ok(())
    }

    /// A tick of all, with a look half a tick before it.
    pub fn tick(&mut self, rt: &HostRuntime) -> Result<(), Fail> {
        self.flow(rt)?;
        self.now = self.now.wrapping_add(TICK / 2);
        self.all(rt, &Step::Poll)?;
        if !self.late {
            self.flow(rt)?;
        }
        self.now = self.now.wrapping_add(TICK - TICK / 2);
        self.all(rt, &Step::Poll)?;
        self.all(rt, &Step::Give(Input::Pressed(Keys::default())))?;
        self.all(rt, &Step::Run)?;
        self.all(rt, &Step::Run)
    }
}
