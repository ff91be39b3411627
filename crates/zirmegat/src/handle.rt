//! What C holds a pointer to: a pointer to what a handle holds.

ghost use Rattle.std.specs.{Prelude.◌≡◌, Borrow.sem, Option.option_map};
ghost use Rattle.zirmegat.specs.contracts.held.Held as kept;
ghost use Rattle.zirmegat.specs.declared.held.Held.{Held as Kept};

use crate::held::Held;
use crate::loose::Loose;
use dn_demo::Demo;
use dn_link::Link;
use dn_lockstep::Lockstep;
use dn_session::Session;
use std::alloc::Global;
use std::marker::Model;

/// A pointer to what a handle holds. C never reads its field.
#[repr(C)]
#[derive(Drop)]
pub struct Handle {
    at: *mut u8,
    ghost held: { Kept } by { kept.the_row.coded },
}

impl Model for Handle {
    ghost use Rattle.zirmegat.specs.Owned.{owns_held};

    ghost also_owns = { λ h. owns_held h.at h.held };
}

impl Handle {
    ghost use Rattle.zirmegat.specs.Lends.{lends_demo, lends_held, lends_link, lends_lockstep, lends_session};
    ghost use Rattle.zirmegat.specs.Kinds.{demo_in, link_in, lockstep_in, session_in};

    /// The handle of what a raw box points to.
    fn of_loose(loose: Loose<Held, Global>) -> Handle
        ensures { result.held ≡ loose.value }
    {
        let Loose { at, alloc: _ } = loose;
        Handle { at: at as *mut u8 }
    }

    /// The raw box of what it holds.
    fn into_loose(self, alloc: Global) -> Loose<Held, Global>
        ensures { result.value ≡ self.held }
    {
        let Handle { at } = self;
        Loose {
            at: at as *mut Held,
            alloc,
        }
    }

    /// The handle of a box.
    pub(crate) fn of(held: Box<Held>) -> Handle
        ensures { result.held ≡ held.value }
    {
        Handle::of_loose(Loose::of(held))
    }

    /// The box again.
    pub(crate) fn into_box(self, alloc: Global) -> Box<Held>
        ensures { result.value ≡ self.held }
    {
        self.into_loose(alloc).into_box()
    }

    /// Lends what it holds. What is taken out costs more, and must be put back.
    pub(crate) fn held(&mut self) -> &mut Held
        ensures* writes_back { sem 𝓛 (lends_held self.entry result) }
        ensures value { result.now ≡ self.old.held }
    {
        // SAFETY: a handle owns a box, and this points to its value (`owns_held`).
        unsafe { &mut *(self.at as *mut Held) }
    }

    /// Lends the session that it holds, if it holds one.
    pub(crate) fn session(&mut self) -> Option<&mut Session>
        ensures* writes_back { sem 𝓛 (lends_session self.entry result) }
        ensures value { session_in self.old.held ≡ option_map (λ value. value.now) result }
    {
        match self.held() {
            Held::Session(value) => Some(value),
            _ => None,
        }
    }

    /// Lends the demo that it holds, if it holds one.
    pub(crate) fn demo(&mut self) -> Option<&mut Demo>
        ensures* writes_back { sem 𝓛 (lends_demo self.entry result) }
        ensures value { demo_in self.old.held ≡ option_map (λ value. value.now) result }
    {
        match self.held() {
            Held::Demo(value) => Some(value),
            _ => None,
        }
    }

    /// Lends the lockstep that it holds, if it holds one.
    pub(crate) fn lockstep(&mut self) -> Option<&mut Lockstep>
        ensures* writes_back { sem 𝓛 (lends_lockstep self.entry result) }
        ensures value { lockstep_in self.old.held ≡ option_map (λ value. value.now) result }
    {
        match self.held() {
            Held::Lockstep(value) => Some(value),
            _ => None,
        }
    }

    /// Lends the link that it holds, if it holds one.
    pub(crate) fn link(&mut self) -> Option<&mut Link>
        ensures* writes_back { sem 𝓛 (lends_link self.entry result) }
        ensures value { link_in self.old.held ≡ option_map (λ value. value.now) result }
    {
        match self.held() {
            Held::Link(value) => Some(value),
            _ => None,
        }
    }
}
