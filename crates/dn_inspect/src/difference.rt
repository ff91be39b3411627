//! Where two demos first differ.

ghost use Rattle.std.specs.Prelude.{◌≡◌};
ghost use Rattle.std.specs.Bool.{Decides};
ghost use Rattle.dn_inspect.specs.Differing.{IsFirstDifference, IsSameTic};

use dn_demo::Demo;
use dn_tic::Move;

/// The first thing in which two demos differ.
#[derive(Clone, Copy, Debug, PartialEq, Eq)]
pub enum Difference {
    /// What their games start from.
    Start,
    /// Who is present.
    Players,
    /// The moves of this tic, which only one of them may have.
    Tic(usize),
}

/// Whether two moves are the same.
fn is_same(one: Move, other: Move) -> bool
    ensures { Decides result (one ≡ other) }
{
    one == other
}

/// Whether two players' moves are the same, or neither has one.
fn is_same_step(one: Option<Move>, other: Option<Move>) -> bool
    ensures { Decides result (one ≡ other) }
{
    match (one, other) {
        (Some(one), Some(other)) => is_same(one, other),
        (None, None) => true,
        _ => false,
    }
}

/// Whether two rows are the same.
fn is_same_row(one: [Option<Move>; 4], other: [Option<Move>; 4]) -> bool
    ensures { Decides result (one ≡ other) }
{
    let [a, b, c, d] = one;
    let [p, q, r, s] = other;
    is_same_step(a, p) && is_same_step(b, q) && is_same_step(c, r) && is_same_step(d, s)
}

/// Whether the same players are present.
fn are_same_players(one: [bool; 4], other: [bool; 4]) -> bool
    ensures { Decides result (one ≡ other) }
{
    let [a, b, c, d] = one;
    let [p, q, r, s] = other;
    a == p && b == q && c == r && d == s
}

/// Whether two demos have the same row in a tic, or neither has one.
fn is_same_tic(one: &Demo, other: &Demo, tic: usize) -> bool
    ensures { Decides result (IsSameTic one.now other.now tic) }
{
    match (one.row(tic), other.row(tic)) {
        (Some(one), Some(other)) => is_same_row(one, other),
        (None, None) => true,
        _ => false,
    }
}

/// The first tic in which two demos differ, where they begin alike.
fn first_tic(one: &Demo, other: &Demo) -> Option<Difference>
    requires alike { (one.now.start ≡ other.now.start) × (one.now.present ≡ other.now.present) }
    ensures { IsFirstDifference one.now other.now result }
{
    for tic in 0..one.tics().max(other.tics()) {
        if !is_same_tic(one, other, tic) {
            return Some(Difference::Tic(tic));
        }
    }
    None
}

/// The first thing in which two demos differ; None for demos of one game that lead any world to the same state. Their
/// versions and views, a cut tic and what follows the marker do not count.
pub fn first_difference(one: &Demo, other: &Demo) -> Option<Difference>
    ensures { IsFirstDifference one.now other.now result }
{
    if one.start() != other.start() {
        return Some(Difference::Start);
    }
    if !are_same_players(one.present(), other.present()) {
        return Some(Difference::Players);
    }
    first_tic(one, other)
}
