//! How a lockstep goes on without a player who is given up. Where that player's commands end has to be agreed
//! among those who remain; the lockstep takes what it is told.

ghost use Rattle.std.specs.{Prelude.◌≡◌, Prelude.◌≢◌, Prelude.ℕ, Prelude.◌||◌, Prelude.IfSome, Prelude.true, Option.is_none};
ghost use Rattle.dn_machine.specs.{declared.answers.Phase.TheVariants.Gathering, Node.is_ended};
ghost use Rattle.dn_lockstep.specs.{Phases.is_listening, Settling.has_gap, Settling.is_no_peer, Settling.is_other_end, Settling.is_start, Settling.missing, Settling.on_excuse, Settling.on_settle};
ghost use Rattle.dn_lockstep.specs.{declared.lockstep.settling.Settled.TheVariants.Taken};

use super::Lockstep;
use crate::reading::has_stop;
use dn_machine::{Heard, Phase};
use dn_tic::TicCmd;

/// What became of the end of a player who is given up.
#[derive(Clone, Copy, Debug, PartialEq, Eq)]
pub enum Settled {
    /// The end is known, and so many commands before it were missing and are taken.
    Taken(u32),
    /// No other player of the game has the number.
    NotAPlayer,
    /// The lockstep takes no part in a game: it has no settings yet, or has ended.
    NotPlaying,
    /// A command before the end is missing, and is not among those that were told.
    Gap,
    /// The end lies before the last command that is there.
    Behind,
    /// There is no room for the commands yet.
    Overrun,
    /// A missing command would end a demo.
    Stopper,
    /// An earlier end of the player is known, or all tics before another one were run.
    OtherEnd,
}

/// The missing commands up to the end, of those that begin at tic `first`; None where some of them are not
/// there.
fn missing(got: u32, end: u32, first: u32, commands: &[TicCmd]) -> Option<&[TicCmd]>
    ensures gap { has_gap got end first commands.now ≡ is_none result }
    ensures found { IfSome result (λ found. found.now ≡ missing got end first commands.now) }
{
    if end <= got {
        return Some(&[]);
    }
    if got < first {
        return None;
    }
    commands.get((got - first) as usize..(end - first) as usize)
}

/// Whether an end that is known stands against this one: it is earlier, or all tics before it were run, and
/// this is another.
fn is_other_end(ran: u32, known: Option<u32>, end: u32) -> bool
    ensures { result ≡ is_other_end ran known end }
{
    match known {
        Some(known) => known < end || known <= ran && known != end,
        None => false,
    }
}

/// Whether the game starts.
fn is_start(heard: Heard) -> bool
    ensures { result ≡ is_start heard }
{
    matches!(heard, Heard::Started)
}

impl Lockstep {
    ghost use Rattle.dn_lockstep.specs.{Contents.contents, Steps.Steps};

    /// Whether it takes no part in a game: it waits for the settings, or has ended.
    fn is_out(&self) -> bool
        ensures { result ≡ (is_listening (contents self.now).phase || is_ended (contents self.now).phase) }
    {
        match self.phase {
            Phase::Listening | Phase::Ended(_) => true,
            Phase::Gathering | Phase::Playing => false,
        }
    }

    /// Whether no other player of the game has this number.
    fn is_no_peer(&self, player: u8) -> bool
        ensures { result ≡ is_no_peer (contents self.now).players (contents self.now).me player }
    {
        player >= self.players || player == self.me
    }

    /// Takes the end of a player who is given up, and those of the commands before it that are missing. The
    /// commands that are told are of consecutive tics, the first of tic `first`; they may begin before those
    /// that are missing, and go on past the end. From the end on tics are run without the player. An end that
    /// an EXIT packet told past a gap gives way to an earlier one. Nothing but `Taken` changes anything; of
    /// several reasons the first counts, in the order of `Settled`.
    pub fn settle(&mut self, player: u8, end: u32, first: u32, commands: &[TicCmd]) -> Settled
        ensures step { Steps (contents self.old) (contents self.new)
            (λ limits me m. on_settle limits me m player end first commands.now) (λ settled. result ≡ settled) }
        ensures refused { ((count : ℕ) → result ≢ Taken count) → contents self.new ≡ contents self.old }
    {
        if self.is_no_peer(player) {
            return Settled::NotAPlayer;
        }
        if self.is_out() {
            return Settled::NotPlaying;
        }
        let got = self.rings.count(player);
        let Some(new) = missing(got, end, first, commands) else {
            return Settled::Gap;
        };
        if end < got {
            return Settled::Behind;
        }
        if end > self.ran + self.places {
            return Settled::Overrun;
        }
        if has_stop(new) {
            return Settled::Stopper;
        }
        if is_other_end(self.ran, self.peers.get(player).end, end) {
            return Settled::OtherEnd;
        }
        self.rings.put_all(player, new);
        self.peers.tell(player, true, end);
        self.peers.want(player, false);
        Settled::Taken(end - got)
    }

    /// Waits no longer to hear a player who is given up before the start, and answers whether the game starts:
    /// then the caller begins its world, as where `receive` returns `Started`. Only a lockstep that gathers
    /// waits to hear players; any other stays as it is, and so it does for a number that is no other player's.
    pub fn excuse(&mut self, player: u8) -> bool
        ensures step { Steps (contents self.old) (contents self.new)
            (λ limits me m. on_excuse limits me m player) (λ started. result ≡ started) }
        ensures idle { (contents self.old).phase ≢ Gathering → contents self.new ≡ contents self.old }
        ensures same { is_no_peer (contents self.old).players (contents self.old).me player ≡ true
            → contents self.new ≡ contents self.old }
    {
        if self.is_no_peer(player) {
            return false;
        }
        let Phase::Gathering = self.phase else {
            return false;
        };
        is_start(self.hear_gathering(player))
    }
}
