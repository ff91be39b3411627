//! What a line must reach to carry a game of four; whether it does, or what it lacks.

ghost use Rattle.std.specs.Prelude.{◌≡◌, ◌+◌, ◌≤◌, ◌<◌, ◌++◌, IsTrue, ◌↔◌};
ghost use Rattle.arrayvec.specs.ArrayVec.{array_vec_len};
ghost use Rattle.dn_measure.specs.Verdict.{is_slow, has_gaps, has_paused, is_late, peer_loss, note, note_loss, lacks_of, Carries};

use crate::arrivals::Arrivals;
use crate::felt::Felt;
use crate::measure::Summary;
use arrayvec::ArrayVec;

/// A time between two tics that is longer, in microseconds, is a gap.
pub(crate) const GAP: u64 = 100_000;

/// The least time of play that is judged, in microseconds.
const LEAST_TIME: u64 = 10_000_000;

/// At least so many of the tics that the clock gives have to be run,
const RUN: u128 = 69;

/// of so many: 34.5 of 35.
const GIVEN: u128 = 70;

/// There may be as many gaps as such times in microseconds, of which a begun one counts whole.
const TIME_OF_A_GAP: u128 = 60_000_000;

/// The longest time between two tics may be so many microseconds.
const LONGEST: u64 = 1_000_000;

/// Of a hundred keys 95 have to be felt within so many milliseconds.
const KEY: u16 = 250;

/// So many of a thousand datagrams of each peer may be lost.
const LOSS: u64 = 150;

/// What a line lacks that does not carry a game of four.
#[derive(Clone, Copy, Debug, PartialEq, Eq)]
pub enum Lack {
    /// Ten seconds of play.
    Time,
    /// Any tic.
    Tics,
    /// 69 of 70 tics that the clock gave.
    Rate,
    /// No more gaps than minutes, of which a begun one counts whole.
    Calm,
    /// No longer time between two tics than a second.
    Pause,
    /// 95 of a hundred keys that are felt within 250 ms.
    Speed,
    /// 85 of a hundred datagrams of this player: so many of a thousand were lost.
    Datagrams { player: u8, loss: u64 },
}

impl Default for Lack {
    ghost use Rattle.std.specs.Prelude.{◌≡◌};
    ghost use Rattle.dn_measure.specs.declared.verdict.Lack.TheVariants.{Time};

    ghost is_default = { λ lack. lack ≡ Time };

    fn default() -> Lack {
        Lack::Time
    }
}

/// The most that can be lacking at once: four of the game, and the datagrams of four numbers of players.
pub const MOST_LACKS: usize = 8;

const _: () = prove!(MOST_LACKS == 8);

/// Whether fewer tics were run than have to be.
fn is_slow(summary: &Summary) -> bool
    ensures { result ≡ is_slow summary.now }
{
    let run = 1_000_000 * GIVEN * u128::from(summary.tics);
    let wanted = RUN * u128::from(summary.rate) * u128::from(summary.micros);
    run < wanted
}

/// Whether there are more gaps than there may be.
fn has_gaps(summary: &Summary) -> bool
    ensures { result ≡ has_gaps summary.now }
{
    let minutes = (u128::from(summary.micros) + (TIME_OF_A_GAP - 1)) / TIME_OF_A_GAP;
    minutes < u128::from(summary.gaps)
}

/// Whether the longest time between two tics is longer than it may be.
fn has_paused(summary: &Summary) -> bool
    ensures { result ≡ has_paused summary.now }
{
    summary.longest > LONGEST
}

/// Whether most keys are felt later than they may be.
fn is_late(summary: &Summary) -> bool
    ensures { result ≡ is_late summary.now.most }
{
    match summary.most {
        Felt::Within(time) => time > KEY,
        Felt::Never | Felt::Longer => true,
    }
}

/// How many of a thousand datagrams of a player were lost: none, of a number that is no player's.
fn loss_of(peer: Option<Arrivals>) -> u64
    ensures { result ≡ peer_loss peer }
{
    match peer {
        Some(arrivals) => arrivals.loss(),
        None => 0,
    }
}

/// Adds what is lacking.
fn note(lacks: &mut ArrayVec<Lack, MOST_LACKS>, lacking: bool, lack: Lack)
    requires { array_vec_len lacks.old < 8 }
    ensures items { lacks.new.items ≡ lacks.old.items ++ note lacking lack }
    ensures len { array_vec_len lacks.new ≤ array_vec_len lacks.old + 1 }
{
    if lacking {
        lacks.push(lack);
    }
}

/// Adds that a player's datagrams are lacking.
fn note_loss(lacks: &mut ArrayVec<Lack, MOST_LACKS>, player: u8, peer: Option<Arrivals>)
    requires { array_vec_len lacks.old < 8 }
    ensures items { lacks.new.items ≡ lacks.old.items ++ note_loss player peer }
    ensures len { array_vec_len lacks.new ≤ array_vec_len lacks.old + 1 }
{
    let loss = loss_of(peer);
    note(lacks, loss > LOSS, Lack::Datagrams { player, loss });
}

/// What a line lacks of which so much was measured: nothing, where it carries a game of four. A time that is
/// too short, or in which nothing was run, is not judged further.
pub fn lacks_of(summary: &Summary) -> ArrayVec<Lack, MOST_LACKS>
    ensures { result.items ≡ lacks_of summary.now }
{
    let mut lacks = ArrayVec::new();
    if summary.micros < LEAST_TIME {
        lacks.push(Lack::Time);
        return lacks;
    }
    if summary.tics == 0 {
        lacks.push(Lack::Tics);
        return lacks;
    }
    note(&mut lacks, is_slow(summary), Lack::Rate);
    note(&mut lacks, has_gaps(summary), Lack::Calm);
    note(&mut lacks, has_paused(summary), Lack::Pause);
    note(&mut lacks, is_late(summary), Lack::Speed);
    let [a, b, c, d] = summary.peers;
    note_loss(&mut lacks, 0, a);
    note_loss(&mut lacks, 1, b);
    note_loss(&mut lacks, 2, c);
    note_loss(&mut lacks, 3, d);
    lacks
}

/// Whether a line carries a game of four of which so much was measured.
pub fn carries(summary: &Summary) -> bool
    ensures { IsTrue result ↔ Carries summary.now }
{
    lacks_of(summary).is_empty()
}
