//! Making nodes.

ghost use Rattle.std.specs.Prelude.{◌≡◌, ◌≢◌, None, Ok};
ghost use Rattle.dn_setup.specs.Settings.{IsCheckedAs};
ghost use Rattle.dn_seal.specs.Hmac.{no_secret};
ghost use Rattle.zirmegat.specs.Calls.{held_at, IsKept};
ghost use Rattle.zirmegat.specs.Choice.{choice_in};
ghost use Rattle.zirmegat.specs.Nodes.{config_of, IsChosen, IsLink, IsLinkBy, IsLockstep, IsLockstepBy, OpensLink, OpensLockstep};
ghost use Rattle.zirmegat.specs.declared.held.Held.TheVariants as kind;

use crate::configs::is_zero;
use crate::fault::Fault;
use crate::held::Held;
use crate::keep::{keep, refuse};
use crate::settings::GameSettings;
use crate::slot::Slot;
use dn_link::Link;
use dn_lockstep::{Config, Lockstep};
use dn_seal::Seal;
use dn_setup::{Settings, SettingsFault};
use std::alloc::Global;

/// Whose node it is, and of what game.
#[repr(C)]
#[derive(Clone, Copy, Debug, PartialEq, Eq)]
pub struct NodeFields {
    /// How many bytes this has, as the caller knows it.
    pub size: usize,
    /// How many bytes the demo may have: 1,024 to 16,777,216.
    pub limit: u32,
    /// How many players the game has: 2 to 4.
    pub players: u8,
    /// The number of the node's own player, from 0 on.
    pub me: u8,
    /// How many commands its player makes ahead of its runs: 1 to 12.
    pub window: u8,
    /// Whether each packet repeats the last command, against losses: 0 or not.
    pub extra: u8,
    /// Read for player 0 alone, but for a link's player whoever it is.
    pub settings: GameSettings,
    /// What the players of a game of links share.
    pub secret: [u8; 32],
    /// The number of a game of links.
    pub game: [u8; 16],
}

/// How many bytes `NodeFields` has.
const NODE_SIZE: usize = 72;

impl NodeFields {
    /// The settings, if they are in range.
    fn asked(&self) -> Result<Settings, SettingsFault>
        ensures { IsCheckedAs (choice_in self.now.settings) result }
    {
        self.settings.checked()
    }

    /// The settings of player 0, and none of another.
    fn choice(&self) -> Result<Option<Settings>, SettingsFault>
        ensures { IsChosen self.now result }
    {
        if self.me != 0 {
            return Ok(None);
        }
        let settings = self.asked()?;
        Ok(Some(settings))
    }

    /// A node of these settings.
    fn with(&self, settings: Option<Settings>) -> Config
        ensures { result ≡ config_of self.now settings }
    {
        Config {
            players: self.players,
            me: self.me,
            extra: self.extra != 0,
            limit: self.limit,
            settings,
        }
    }

    /// A lockstep of these settings.
    fn lockstep_of(&self, alloc: Global, settings: Option<Settings>) -> Result<Lockstep, Fault>
        ensures { IsLockstepBy self.now (Ok settings) result }
    {
        match Lockstep::within(alloc, self.with(settings), self.window) {
            Ok(lockstep) => Ok(lockstep),
            Err(fault) => Err(Fault::Node(fault)),
        }
    }

    /// A lockstep.
    fn lockstep(&self, alloc: Global) -> Result<Lockstep, Fault>
        ensures { IsLockstep self.now result }
    {
        match self.choice() {
            Ok(settings) => self.lockstep_of(alloc, settings),
            Err(fault) => Err(Fault::Settings(fault)),
        }
    }

    /// A link of these settings.
    fn link_of(&self, alloc: Global, settings: Settings) -> Result<Link, Fault>
        ensures { IsLinkBy self.now (Ok settings) result }
    {
        let seal = Seal::new(self.secret, self.game);
        match Link::new(alloc, self.with(None), settings, self.window, seal) {
            Ok(link) => Ok(link),
            Err(fault) => Err(Fault::Node(fault)),
        }
    }

    /// A link.
    fn link(&self, alloc: Global) -> Result<Link, Fault>
        ensures { IsLink self.now result }
    {
        match self.asked() {
            Ok(settings) => self.link_of(alloc, settings),
            Err(fault) => Err(Fault::Settings(fault)),
        }
    }
}

/// Hands a lockstep to C, or writes null.
fn keep_lockstep(alloc: Global, out: &mut Slot, made: Result<Lockstep, Fault>) -> u32
    ensures { IsKept kind.Lockstep made result (held_at out.new) }
{
    match made {
        Ok(lockstep) => keep(alloc, out, Held::Lockstep(lockstep)),
        Err(fault) => refuse(out, fault),
    }
}

/// The same of a link.
fn keep_link(alloc: Global, out: &mut Slot, made: Result<Link, Fault>) -> u32
    ensures { IsKept kind.Link made result (held_at out.new) }
{
    match made {
        Ok(link) => keep(alloc, out, Held::Link(link)),
        Err(fault) => refuse(out, fault),
    }
}

/// Makes a lockstep. Returns 0, or the first fault: the settings of player 0, the window, and then the rest.
#[unsafe(no_mangle)]
pub extern "C" fn zmg_lockstep_new(alloc: Global, out: &mut Slot, config: &NodeFields) -> u32
    ensures opens { config.now.size ≡ 72 → OpensLockstep config.now result (held_at out.new) }
    ensures size { config.now.size ≢ 72 → (result ≡ 2) × (held_at out.new ≡ None) }
{
    if config.size != NODE_SIZE {
        return refuse(out, Fault::Size);
    }
    keep_lockstep(alloc, out, config.lockstep(alloc))
}

/// Makes a link, which plays from the beginning on with the settings of its configuration. The secret is looked
/// at before the rest.
#[unsafe(no_mangle)]
pub extern "C" fn zmg_link_new(alloc: Global, out: &mut Slot, config: &NodeFields) -> u32
    ensures opens { config.now.size ≡ 72 → config.now.secret ≢ no_secret
        → OpensLink config.now result (held_at out.new) }
    ensures unset { config.now.size ≡ 72 → config.now.secret ≡ no_secret
        → (result ≡ 6) × (held_at out.new ≡ None) }
    ensures size { config.now.size ≢ 72 → (result ≡ 2) × (held_at out.new ≡ None) }
{
    if config.size != NODE_SIZE {
        return refuse(out, Fault::Size);
    }
    if is_zero(&config.secret) {
        return refuse(out, Fault::Key);
    }
    keep_link(alloc, out, config.link(alloc))
}
