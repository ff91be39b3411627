//! How a node is made.

ghost use Rattle.std.specs.Prelude.{◌≡◌, ◌==◌, if◌then◌else◌, Some, IfOk, true};
ghost use Rattle.dn_machine.specs.declared.answers.Phase.TheVariants.{Listening, Gathering};
ghost use Rattle.dn_demo.specs.Recorded.{capacity};
ghost use Rattle.dn_lockstep.specs.Opening.{keyed, IsAdmitted, IsAdmittedWithin, IsGame, CanBeAhead, places_for};

use super::Lockstep;
use crate::config::{Config, NodeFault};
use crate::marks::Marks;
use crate::peers::Peers;
use crate::rings::Rings;
use dn_demo::{Recorder, capacity};
use dn_machine::Phase;
use dn_setup::{Gather, Settings};
use dn_tic::Builder;
use std::alloc::Global;

/// Whether a game may have this many players: 2 to 4.
pub fn is_game(players: usize) -> bool
    ensures yes { result ≡ true → IsGame players }
    ensures no { IsGame players → result ≡ true }
{
    (2..=4).contains(&players)
}

/// How many commands a player may be ahead of the tics that its node ran, in the window of 1997 (`d_net.c`,
/// NetUpdate).
pub const MOST_AHEAD: u8 = 5;

/// The widest window of [`Lockstep::within`].
pub const WIDEST_AHEAD: u8 = 12;

/// How many commands of each player are kept in the window of 1997, and in any (`d_net.h`, BACKUPTICS).
const FEWEST_KEPT: u32 = 12;

/// Whether a node can have a window of this width.
fn can_be_ahead(ahead: u8) -> bool
    ensures yes { result ≡ true → CanBeAhead ahead }
    ensures no { CanBeAhead ahead → result ≡ true }
{
    (1..=WIDEST_AHEAD).contains(&ahead)
}

/// How many commands of each player are kept in a window of this width.
fn places_for(ahead: u8) -> u32
    requires { CanBeAhead ahead }
    ensures { result ≡ places_for ahead }
{
    u32::from(2 * ahead).max(FEWEST_KEPT)
}

/// Player 0 has the settings and gathers, and the others listen.
fn first_phase(me: u8) -> Phase
    ensures { result ≡ (if me == 0 then Gathering else Listening) }
{
    if me == 0 {
        Phase::Gathering
    } else {
        Phase::Listening
    }
}

/// The configuration of one of the nodes that were all given these settings.
fn keyed(config: Config, settings: Settings) -> Config
    ensures { result ≡ keyed config settings }
{
    let key = if config.me == 0 { Some(settings) } else { None };
    Config {
        settings: key,
        ..config
    }
}

impl Lockstep {
    ghost use Rattle.dn_setup.specs.Settings.{Settings as Choice};
    ghost use Rattle.dn_machine.specs.{Game.fresh, Started.started_node};
    ghost use Rattle.dn_lockstep.specs.{Contents.contents, Contents.whose, Opening.limits_in, Opening.limits_within, Opening.whose_in, Opening.whose_within, Represents.Represents};

    /// A lockstep with no history: player 0 gathers, the others listen. All memory that it needs is taken
    /// here.
    pub fn new(alloc: Global, config: Config) -> Result<Lockstep, NodeFault>
        ensures admitted { IsAdmitted config result }
        ensures opened { IfOk result (λ lockstep. (settings : Choice)
            → (config.me ≡ 0 → config.settings ≡ Some settings)
            → Represents (limits_in config) config.me (contents lockstep) (fresh settings config.me)) }
        ensures whose { IfOk result (λ lockstep. whose (contents lockstep) ≡ whose_in config) }
    {
        Lockstep::open(alloc, config, MOST_AHEAD)
    }

    /// The same in a window of this width, one to twelve: a player may be so many commands ahead of the tics
    /// that its node ran. All locksteps of a game have the same.
    pub fn within(alloc: Global, config: Config, ahead: u8) -> Result<Lockstep, NodeFault>
        ensures admitted { IsAdmittedWithin config ahead result }
        ensures opened { IfOk result (λ lockstep. (settings : Choice)
            → (config.me ≡ 0 → config.settings ≡ Some settings)
            → Represents (limits_within config ahead) config.me (contents lockstep) (fresh settings config.me)) }
        ensures whose { IfOk result (λ lockstep. whose (contents lockstep) ≡ whose_within config ahead) }
    {
        if can_be_ahead(ahead) {
            Lockstep::open(alloc, config, ahead)
        } else {
            Err(NodeFault::Ahead)
        }
    }

    /// A lockstep that plays from the beginning on, in a window of this width: who is in the game was agreed on
    /// elsewhere, and each player was given these settings there. Those of the configuration do not count.
    pub fn started(
        alloc: Global,
        config: Config,
        settings: Settings,
        ahead: u8,
    ) -> Result<Lockstep, NodeFault>
        ensures admitted { IsAdmittedWithin (keyed config settings) ahead result }
        ensures opened { IfOk result (λ lockstep. Represents (limits_within config ahead) config.me
            (contents lockstep) (started_node config.players settings config.me)) }
        ensures whose { IfOk result (λ lockstep. whose (contents lockstep) ≡ whose_within config ahead) }
    {
        let mut lockstep = Lockstep::within(alloc, keyed(config, settings), ahead)?;
        lockstep.begin(settings);
        Ok(lockstep)
    }

    /// A lockstep in a window that it can have.
    fn open(alloc: Global, config: Config, ahead: u8) -> Result<Lockstep, NodeFault>
        requires { CanBeAhead ahead }
        ensures admitted { IsAdmitted config result }
        ensures opened { IfOk result (λ lockstep. (settings : Choice)
            → (config.me ≡ 0 → config.settings ≡ Some settings)
            → Represents (limits_within config ahead) config.me (contents lockstep) (fresh settings config.me)) }
        ensures whose { IfOk result (λ lockstep. whose (contents lockstep) ≡ whose_within config ahead) }
    {
        if !is_game(usize::from(config.players)) {
            return Err(NodeFault::Players);
        }
        if config.me >= config.players {
            return Err(NodeFault::Me);
        }
        if config.settings.is_some() != (config.me == 0) {
            return Err(NodeFault::Key);
        }
        let demo = Recorder::new(alloc, config.limit)?;
        Ok(Lockstep {
            players: config.players,
            me: config.me,
            extra: config.extra,
            capacity: capacity(config.limit, config.players),
            ahead: u32::from(ahead),
            places: places_for(ahead),
            phase: first_phase(config.me),
            played: false,
            settings: config.settings,
            gather: Gather::new(config.players),
            builder: Builder::new(),
            ran: 0,
            rings: Rings::new(),
            peers: Peers::new(),
            marks: Marks::new(),
            demo,
        })
    }
}
