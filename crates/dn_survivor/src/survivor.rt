//! A lockstep of which players may be given up.

ghost use Rattle.std.specs.{Prelude.◌≡◌, Prelude.◌<◌, Prelude.◌&&◌, Prelude.◌||◌, Prelude.not, Prelude.Some, Prelude.IfOk, Prelude.is_some, Prelude.true, Option.option_map};
ghost use Rattle.dn_lockstep.specs.Opening.{IsAdmittedWithin, keyed, limits_within, whose_within};

use crate::others::Others;
use dn_lockstep::{Config, Lockstep, NodeFault};
use dn_machine::Phase;
use dn_setup::Settings;
use std::alloc::Global;

/// A lockstep of which players may be given up, and what its player keeps of the others for that.
#[derive(Drop)]
pub struct Survivor {
    pub(crate) lockstep: Lockstep,
    pub(crate) others: Others,
}

impl Survivor {
    ghost use Rattle.dn_setup.specs.Settings.{Settings as Choice};
    ghost use Rattle.dn_machine.specs.{Game.fresh, Started.started_node};
    ghost use Rattle.dn_lockstep.specs.{Contents.contents, Contents.whose, Represents.Represents, Settling.is_no_peer};
    ghost use Rattle.dn_survivor.specs.OfOthers.{nothing_kept};
    ghost use Rattle.dn_remain.specs.Wary.{is_in_game};
    ghost use Rattle.dn_survivor.specs.{Surviving.surviving, Surviving.has_given_up, Surviving.has_gone, Surviving.has_left, Surviving.has_settled, Surviving.is_unsettled, Calls.undecided_in};
    ghost use Rattle.dn_survivor.specs.{Calls.awaits_report_of, Calls.unsettled_in, OfOthers.teller_of};

    /// A survivor with no history, of a lockstep as `Lockstep::within` makes it: nobody is given up, and
    /// nothing was told. All memory that it needs is taken here.
    pub fn new(alloc: Global, config: Config, ahead: u8) -> Result<Survivor, NodeFault>
        ensures admitted { IsAdmittedWithin config ahead result }
        ensures opened { IfOk result (λ survivor. (settings : Choice)
            → (config.me ≡ 0 → config.settings ≡ Some settings)
            → Represents (limits_within config ahead) config.me (surviving survivor).lockstep
            (fresh settings config.me)) }
        ensures whose { IfOk result (λ survivor. whose (surviving survivor).lockstep
            ≡ whose_within config ahead) }
        ensures others { IfOk result (λ survivor. (surviving survivor).others ≡ nothing_kept) }
    {
        let lockstep = Lockstep::within(alloc, config, ahead)?;
        Ok(Survivor {
            lockstep,
            others: Others::new(),
        })
    }

    /// The same of a lockstep as `Lockstep::started` makes it, which plays from the beginning on.
    pub fn started(
        alloc: Global,
        config: Config,
        settings: Settings,
        ahead: u8,
    ) -> Result<Survivor, NodeFault>
        ensures admitted { IsAdmittedWithin (keyed config settings) ahead result }
        ensures opened { IfOk result (λ survivor. Represents (limits_within config ahead) config.me
            (surviving survivor).lockstep (started_node config.players settings config.me)) }
        ensures whose { IfOk result (λ survivor. whose (surviving survivor).lockstep
            ≡ whose_within config ahead) }
        ensures others { IfOk result (λ survivor. (surviving survivor).others ≡ nothing_kept) }
    {
        let lockstep = Lockstep::started(alloc, config, settings, ahead)?;
        Ok(Survivor {
            lockstep,
            others: Others::new(),
        })
    }

    /// The lockstep, for its readers.
    pub fn lockstep(&self) -> &Lockstep
        ensures { contents result.now ≡ (surviving self.now).lockstep }
    {
        &self.lockstep
    }

    /// Whom its player has given up, and the newest reports of the others.
    pub fn others(&self) -> &Others
        ensures { result.now ≡ (surviving self.now).others }
    {
        &self.others
    }

    /// Of the players whose report is missing the one with the lowest number: of those who are not given up,
    /// one whose newest report does not name the same players as given up, or, if it is that of a player who
    /// left, names others than these. None where the node can decide. Ask it while somebody is given up: else
    /// it names the lowest other player in every ordinary game.
    pub fn undecided(&self) -> Option<u8>
        ensures { result ≡ undecided_in (surviving self.now) }
    {
        self.others
            .undecided(self.lockstep.players(), self.lockstep.me())
    }

    /// Of the players who are given up the one with the lowest number whose end is not settled: the lockstep
    /// knows no end of the player, or lacks a command before it. A run waits for such a player once it has come
    /// to the first command that is missing. None where the ends of all who are given up are settled.
    #[tactic(auto, using(dn_lockstep::proofs::Lowest::lowest_found, crate::proofs::Lowest::fails_next, crate::proofs::Lowest::lowest_none))]
    pub fn unsettled(&self) -> Option<u8>
        ensures { result ≡ unsettled_in (surviving self.now) }
    {
        for player in 0..self.lockstep.players() {
            if self.is_unsettled(player) {
                return Some(player);
            }
        }
        None
    }

    /// Who told of the most commands of one whose end is not settled.
    fn teller(&self) -> Option<u8>
        ensures { result ≡ option_map (teller_of (surviving self.now).lockstep.players (surviving self.now).lockstep.me
            (surviving self.now).others) (unsettled_in (surviving self.now)) }
    {
        match self.unsettled() {
            Some(player) => Some(
                self.others
                    .teller(self.lockstep.players(), self.lockstep.me(), player),
            ),
            None => None,
        }
    }

    /// Whose report is awaited, while somebody is given up: that of the lowest player whose report is missing. Where
    /// none is missing, but an end that follows from the reports could not be taken, they are not true: then a better
    /// one is awaited of the player who told of the most commands before that end.
    pub fn awaits_report_of(&self) -> Option<u8>
        ensures { result ≡ awaits_report_of (surviving self.now) }
    {
        if !self.has_gone() {
            return None;
        }
        match self.undecided() {
            Some(player) => Some(player),
            None => self.teller(),
        }
    }

    /// Whether a player is given up whose end is not settled.
    fn is_unsettled(&self, player: u8) -> bool
        requires { player < (surviving self.now).lockstep.players }
        ensures { result ≡ is_unsettled (surviving self.now) player }
    {
        self.has_given_up(player) && !self.has_settled(player)
    }

    /// Whether the lockstep knows a player's end, and has all commands before it.
    fn has_settled(&self, player: u8) -> bool
        requires { player < (surviving self.now).lockstep.players }
        ensures { result ≡ has_settled (surviving self.now) player }
    {
        match (self.lockstep.end(player), self.lockstep.got(player)) {
            (Some(end), Some(got)) => end <= got,
            _ => false,
        }
    }

    /// Whether a player is given up.
    pub(crate) fn has_given_up(&self, player: u8) -> bool
        ensures { result ≡ has_given_up (surviving self.now) player }
    {
        match self.others.gone.get(usize::from(player)) {
            Some(is_gone) => *is_gone,
            None => false,
        }
    }

    /// Whether somebody is given up.
    #[tactic(auto, using(dn_lockstep::proofs::Lowest::lowest_found, crate::proofs::Lowest::lowest_none))]
    pub(crate) fn has_gone(&self) -> bool
        ensures { result ≡ has_gone (surviving self.now) }
    {
        for player in 0..self.lockstep.players() {
            if self.has_given_up(player) {
                return true;
            }
        }
        false
    }

    /// Whether its player has left.
    pub(crate) fn has_left(&self) -> bool
        ensures { result ≡ has_left (surviving self.now) }
    {
        self.lockstep.end(self.lockstep.me()).is_some()
    }

    /// Whether no other player of the game has this number.
    pub(crate) fn is_no_peer(&self, player: u8) -> bool
        ensures { result ≡ is_no_peer (surviving self.now).lockstep.players
            (surviving self.now).lockstep.me player }
    {
        player >= self.lockstep.players() || player == self.lockstep.me()
    }

    /// Whether it takes part in a game.
    pub(crate) fn is_in_game(&self) -> bool
        ensures { result ≡ is_in_game (surviving self.now).lockstep.phase }
    {
        match self.lockstep.phase() {
            Phase::Gathering | Phase::Playing => true,
            Phase::Listening | Phase::Ended(_) => false,
        }
    }
}
