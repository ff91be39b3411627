//! The link of a lockstep to its peers.

ghost use Rattle.std.specs.Prelude.{◌≡◌};
ghost use Rattle.dn_lockstep.specs.Contents.{contents};
ghost use Rattle.dn_seal.specs.Sealing.{sealing};
ghost use Rattle.dn_survivor.specs.Surviving.{surviving};

mod giving;
mod handing;
mod leaving;
mod newest;
mod owing;
mod pacing;
mod reading;
mod reporting;
mod running;
mod surviving;
mod taking;
mod telling;

use crate::overdue::Overdue;
use crate::pace::Pace;
use crate::peer::Peer;
use dn_lockstep::{Config, Lockstep, NodeFault};
use dn_machine::Made;
use dn_seal::{Seal, Sealer};
use dn_setup::Settings;
use dn_survivor::Survivor;
use dn_tic::{Command, Input, Keys};
use std::alloc::Global;

/// A lockstep that plays, and gives each peer one sealed datagram a tick. It has the packets that are kept
/// until the peer acknowledges their commands, oldest first, up to where there may be no room for one more.
/// Players may be given up for good, and the others play on.
#[derive(Drop)]
pub struct Link {
    survivor: Survivor,
    sealer: Sealer,
    peers: [Peer; 4],
    pace: Pace,
    overdue: Overdue,
    ghost own: { (sealing sealer).me ≡ (surviving survivor).lockstep.me },
}

impl Link {
    ghost use Rattle.dn_machine.specs.{Started.started_node, Sending.on_build, Running.on_quit};
    ghost use Rattle.dn_lockstep.specs.{Opening.keyed, Opening.IsAdmittedWithin, Opening.limits_within, Opening.whose_within, Steps.Steps, Contents.whose, Represents.Represents};
    ghost use Rattle.std.specs.Prelude.{ℕ, false, IfOk};
    ghost use Rattle.dn_tic.specs.declared.input.Input.TheVariants.{Pressed, Given};
    ghost use Rattle.dn_survivor.specs.OfOthers.{nothing_kept};
    ghost use Rattle.dn_link.specs.{Linking.linked, Linking.new_peer, Linking.seal_of, Pace.after_input, Pacing.new_pace, Pacing.pace_of};
    ghost use Rattle.dn_machine.specs.declared.answers.Made.TheVariants as made;

    /// A link that plays from the beginning on, in a window of this width. Who is in the game was agreed on
    /// elsewhere: there each player was given these settings, and this seal, whose game nobody else plays.
    /// Those of the configuration do not count.
    pub fn new(
        alloc: Global,
        config: Config,
        settings: Settings,
        ahead: u8,
        seal: Seal,
    ) -> Result<Link, NodeFault>
        ensures admitted { IsAdmittedWithin (keyed config settings) ahead result }
        ensures opened { IfOk result (λ link. Represents (limits_within config ahead) config.me (linked link).node
            (started_node config.players settings config.me)) }
        ensures whose { IfOk result (λ link. whose (linked link).node ≡ whose_within config ahead) }
        ensures others { IfOk result (λ link. (linked link).others ≡ nothing_kept) }
        ensures peers { IfOk result (λ link. (player : ℕ) → (linked link).peers player ≡ new_peer) }
        ensures pace { IfOk result (λ link. pace_of link ≡ new_pace) }
        ensures seal { IfOk result (λ link. seal_of link ≡ seal) }
    {
        let survivor = Survivor::started(alloc, config, settings, ahead)?;
        let me = survivor.lockstep().me();
        Ok(Link {
            survivor,
            sealer: Sealer::of(seal, me),
            peers: [Peer::new(), Peer::new(), Peer::new(), Peer::new()],
            pace: Pace::new(),
            overdue: Overdue::new(me),
        })
    }

    /// The lockstep, for its readers.
    pub fn lockstep(&self) -> &Lockstep
        ensures { contents result.now ≡ (linked self.now).node }
    {
        self.survivor.lockstep()
    }

    /// As `Lockstep::build`; keys for which there is no room are owed, and those that were owed before are
    /// dropped.
    #[tactic(auto, using(dn_survivor::proofs::Steps::lent_steps))]
    pub fn build(&mut self, keys: Keys) -> Made
        ensures step { Steps (linked self.old).node (linked self.new).node
            (λ limits me m. on_build limits me m (Pressed keys)) (λ made. result ≡ made) }
        ensures full { result ≡ made.Full → (linked self.new).node ≡ (linked self.old).node }
        ensures idle { result ≡ made.NotPlaying → (linked self.new).node ≡ (linked self.old).node }
        ensures others { (linked self.new).others ≡ (linked self.old).others }
        ensures peers { (linked self.new).peers ≡ (linked self.old).peers }
        ensures pace { pace_of self.new ≡ after_input (Pressed keys) result (pace_of self.old) }
        ensures seal { seal_of self.new ≡ seal_of self.old }
    {
        let made = self.survivor.lockstep_mut().build(keys);
        self.pace.take(Input::Pressed(keys), made);
        made
    }

    /// As `Lockstep::give`; a command for which there is no room is owed, and what was owed before is dropped.
    #[tactic(auto, using(dn_survivor::proofs::Steps::lent_steps))]
    pub fn give(&mut self, command: Command) -> Made
        ensures step { Steps (linked self.old).node (linked self.new).node
            (λ limits me m. on_build limits me m (Given command)) (λ made. result ≡ made) }
        ensures full { result ≡ made.Full → (linked self.new).node ≡ (linked self.old).node }
        ensures idle { result ≡ made.NotPlaying → (linked self.new).node ≡ (linked self.old).node }
        ensures others { (linked self.new).others ≡ (linked self.old).others }
        ensures peers { (linked self.new).peers ≡ (linked self.old).peers }
        ensures pace { pace_of self.new ≡ after_input (Given command) result (pace_of self.old) }
        ensures seal { seal_of self.new ≡ seal_of self.old }
    {
        let made = self.survivor.lockstep_mut().give(command);
        self.pace.take(Input::Given(command), made);
        made
    }

    /// As `Lockstep::quit`.
    #[tactic(auto, using(dn_survivor::proofs::Steps::lent_steps))]
    pub fn quit(&mut self) -> bool
        ensures step { Steps (linked self.old).node (linked self.new).node
            (λ limits me m. on_quit m) (λ quit. result ≡ quit) }
        ensures idle { result ≡ false → (linked self.new).node ≡ (linked self.old).node }
        ensures others { (linked self.new).others ≡ (linked self.old).others }
        ensures peers { (linked self.new).peers ≡ (linked self.old).peers }
        ensures pace { pace_of self.new ≡ pace_of self.old }
        ensures seal { seal_of self.new ≡ seal_of self.old }
    {
        self.survivor.lockstep_mut().quit()
    }
}
