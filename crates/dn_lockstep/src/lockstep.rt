//! One player's lockstep, and what it tells of itself.

ghost use Rattle.std.specs.Prelude.{◌≡◌, ◌≢◌, ℕ, ◌+◌, ◌*◌, ◌<◌, ◌≤◌, true, false, nat_lt, if◌then◌else◌, length, Some, None, is_some, IfSome, negsuc};
ghost use Rattle.dn_demo.specs.{Layout.long_tics, Places.place, Places.seats_in, Recorded.recorded_size, declared.recorder.Stage.TheVariants.Blank, declared.recorder.Stage.TheVariants.Open};
ghost use Rattle.dn_demo.specs.{declared.recorder.Stage.TheVariants.Closed};
ghost use Rattle.dn_machine.specs.{declared.answers.Phase.TheVariants.Gathering, declared.answers.Phase.TheVariants.Playing, Running.tic_limit};
ghost use Rattle.dn_lockstep.specs.{Phases.is_waiting, Tables.ring_at, Tables.count_of, Tables.peer_at, Rows.seats_of, Rows.is_gone, Rows.has_gone};

pub(crate) mod aiming;
pub(crate) mod building;
mod hearing;
pub(crate) mod opening;
mod phases;
mod running;
mod sending;
pub(crate) mod settling;
mod taking;

use crate::marks::Marks;
use crate::peers::Peers;
use crate::rings::Rings;
use crate::rows::seats;
use dn_demo::Recorder;
use dn_machine::Phase;
use dn_setup::{Gather, Settings};
use dn_tic::{Builder, TicCmd};

/// One player's node without a world. A contract sees its contents, and the node of the machine that these
/// represent.
#[derive(Drop)]
pub struct Lockstep {
    players: u8,
    me: u8,
    extra: bool,
    /// How many tics fit into the demo.
    capacity: u32,
    /// How many commands it may be ahead of the tics that it ran, and how many of each player it keeps.
    ahead: u32,
    places: u32,
    phase: Phase,
    played: bool,
    settings: Option<Settings>,
    gather: Gather,
    builder: Builder,
    ran: u32,
    rings: Rings,
    peers: Peers,
    marks: Marks,
    demo: Recorder,
    ghost me_below: { me < players },
    ghost few: { players ≤ 4 },
    ghost short: { capacity ≤ tic_limit },
    // the demo has room for `capacity` tics
    ghost room: { recorded_size players capacity ≤ demo.limit },
    ghost ran_fits: { ran ≤ tic_limit },
    // it knows no end of its own
    ghost endless: { (peer_at peers me).end ≡ None },
    // before the start nothing is run or written
    ghost waits: { is_waiting phase ≡ true → played ≡ false },
    ghost unrun: { played ≡ false → ran ≡ 0 },
    ghost blank: { played ≡ false → demo.stage ≡ Blank },
    // only player 0 gathers, and who gathers or has played has settings
    ghost key: { phase ≡ Gathering → me ≡ 0 },
    ghost keyed: { phase ≡ Gathering → settings ≢ None },
    ghost known: { played ≡ true → settings ≢ None },
    // while it plays, the demo is open until a player is gone, and no longer than the rows of the tics run
    ghost plays: { phase ≡ Playing → played ≡ true },
    ghost begun: { phase ≡ Playing → demo.stage ≢ Blank },
    ghost gone: { phase ≡ Playing → demo.stage ≡ Closed → has_gone (peer_at peers) players ran ≡ true },
    ghost fits: { phase ≡ Playing → demo.stage ≡ Open → ran ≤ capacity },
    ghost seats: { phase ≡ Playing → demo.stage ≡ Open → seats_in demo.bytes ≡ seats_of players },
    ghost size: { phase ≡ Playing → demo.stage ≡ Open → length demo.bytes ≤ place long_tics (players * ran) },
    // it has the commands of the tics that it ran, but for players who are gone, and at most as many more of
    // a peer as it keeps, and of its own as its window allows
    ghost reached: { (p : ℕ) → p < players → is_gone (peer_at peers) ran p ≡ false
        → ran ≤ (ring_at rings p).count },
    ghost window: { (p : ℕ) → p < players → (ring_at rings p).count ≤ ran + places },
    ghost near: { (ring_at rings me).count ≤ ran + ahead },
    // twice the window is kept, twelve at least, and twenty-four at most
    ghost twice: { ahead + ahead ≤ places },
    ghost some: { 12 ≤ places },
    ghost inside: { places ≤ 24 },
    // no resend starts past what it made
    ghost resends: { (p : ℕ) → p < players → (peer_at peers p).resend ≤ (ring_at rings me).count },
}

impl Lockstep {
    ghost use Rattle.dn_machine.specs.Node.{known_end};
    ghost use Rattle.dn_lockstep.specs.{Contents.contents, Contents.end_in, Told.last_held, Told.command_told, Steps.Tells};

    /// The number of its player.
    pub fn me(&self) -> u8
        ensures { result ≡ (contents self.now).me }
    {
        self.me
    }

    /// How many players the game has.
    pub fn players(&self) -> u8
        ensures { result ≡ (contents self.now).players }
    {
        self.players
    }

    /// Which seats are taken: those of the players.
    pub fn present(&self) -> [bool; 4]
        ensures { result ≡ seats_of (contents self.now).players }
    {
        seats(self.players)
    }

    /// Where it stands.
    pub fn phase(&self) -> Phase
        ensures { result ≡ (contents self.now).phase }
    {
        self.phase
    }

    /// How many commands it built.
    pub fn made(&self) -> u32
        ensures { result ≡ count_of (contents self.now).rings (contents self.now).me }
    {
        self.rings.count(self.me)
    }

    /// How many tics it ran.
    pub fn ran(&self) -> u32
        ensures { result ≡ (contents self.now).ran }
    {
        self.ran
    }

    /// How many commands it may be ahead of the tics that it ran.
    pub fn ahead(&self) -> u32
        ensures { result ≡ (contents self.now).ahead }
    {
        self.ahead
    }

    /// How many commands it has of a player, and None for a number that is no player's.
    pub fn got(&self, player: u8) -> Option<u32>
        ensures { result ≡ (if nat_lt player (contents self.now).players
            then Some (count_of (contents self.now).rings player) else None) }
    {
        if player < self.players {
            Some(self.rings.count(player))
        } else {
            None
        }
    }

    /// A player's command for a tic, with its letter of chat, which a move lacks: one of the last that it
    /// keeps of the player, twelve in a window of up to six, and else twice the window. So that of the next
    /// tic to be run is told as soon as it is there. None for another tic, and for a number that is no
    /// player's.
    pub fn command(&self, player: u8, tic: u32) -> Option<TicCmd>
        ensures value { result ≡ command_told (contents self.now) player tic }
        ensures told { Tells (contents self.now) (λ limits me m. result ≡ last_held limits m player tic) }
        ensures next { player < (contents self.now).players → tic ≡ (contents self.now).ran
            → tic < count_of (contents self.now).rings player → is_some result ≡ true }
        ensures no_stop { IfSome result (λ command. command.forward ≢ negsuc 127) }
    {
        if player < self.players && self.rings.count(player).saturating_sub(tic) <= self.places {
            self.rings.get(player, tic)
        } else {
            None
        }
    }

    /// The choice of game: the key player's own from the beginning, another's from the start on.
    pub fn settings(&self) -> Option<Settings>
        ensures { result ≡ (contents self.now).settings }
    {
        self.settings
    }

    /// The tic after a player's last command: of another player once an EXIT packet or `settle` has told it, and
    /// its own once it has played and ended. From that tic on no tic has a move of the player.
    pub fn end(&self, player: u8) -> Option<u32>
        ensures value { result
            ≡ (if nat_lt player (contents self.now).players then end_in (contents self.now) player
            else None) }
        ensures told { Tells (contents self.now)
            (λ limits me m. result ≡ (if nat_lt player limits.players then known_end me m player else None)) }
    {
        if player >= self.players {
            return None;
        }
        if player != self.me {
            return self.peers.get(player).end;
        }
        match self.phase {
            Phase::Ended(_) if self.played => Some(self.made()),
            _ => None,
        }
    }

    /// Its demo so far: empty before the start, and closed once a tic without some player was run, or it has
    /// played and ended. No tic from then on is in it.
    pub fn demo(&self) -> &[u8]
        ensures { result.now ≡ (contents self.now).demo.bytes }
    {
        self.demo.bytes()
    }
}
