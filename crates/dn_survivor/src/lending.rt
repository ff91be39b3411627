//! How a survivor lends its lockstep.

ghost use Rattle.std.specs.Borrow.{sem};

use crate::survivor::Survivor;
use dn_lockstep::Lockstep;

impl Survivor {
    ghost use Rattle.std.specs.Prelude.{◌≡◌};
    ghost use Rattle.dn_lockstep.specs.Contents.{contents};
    ghost use Rattle.dn_survivor.specs.{Lending.lends_lockstep, Surviving.surviving};

    /// The lockstep, for a transport that hears and sends by itself. Such a caller hears nothing of a player who
    /// is given up, sends nothing to it, and runs tics by `run_into`. What a player does by itself it does by this
    /// lockstep: it builds or gives a command, and quits.
    #[inline]
    pub fn lockstep_mut(&mut self) -> &mut Lockstep
        ensures* writes_back { sem 𝓛 (lends_lockstep self.entry result) }
        ensures value { contents result.now ≡ (surviving self.old).lockstep }
    {
        &mut self.lockstep
    }
}
