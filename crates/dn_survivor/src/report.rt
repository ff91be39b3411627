//! What a player tells another: whom it has given up, whether it has left, and what it has of the others: a
//! report, and its bytes.

mod reading;
mod writing;

ghost use Rattle.std.specs.Prelude.{◌≡◌, ◌≤◌, ◌+◌, ◌*◌, ℕ, List, All, length};
ghost use Rattle.dn_survivor.specs.{declared.report.Report.Report, declared.report.Tail.Tail, ReportBytes.report_bytes, ReportBytes.IsReport};

use arrayvec::ArrayVec;
use dn_tic::TicCmd;
pub use reading::decode;
use thiserror::Error;

/// The most commands of one player in a report: twice the widest window.
pub const TAIL_COMMANDS: usize = 24;

/// The most players of whom a report tells: of four, neither the sender nor the receiver.
pub const MAX_TOLD: usize = 2;

/// The most bytes of a report: one, and for each of two players six and their commands.
pub const MAX_REPORT: usize = 1 + MAX_TOLD * (6 + 8 * TAIL_COMMANDS);

/// What the sender has of one player: how many commands, and the last of them.
#[derive(Debug, Default, Drop, PartialEq, Eq)]
pub struct Tail {
    /// The player's number.
    pub player: u8,
    /// How many of the player's commands the sender has, from tic 0 on.
    pub count: u32,
    /// The last of them: one command for each tic before `count`.
    pub commands: ArrayVec<TicCmd, TAIL_COMMANDS>,
}

/// What one node tells another: whom it has given up, and what it has of those of whom the other may have to
/// decide.
#[derive(Debug, Drop, PartialEq, Eq)]
pub struct Report {
    /// Whom the sender has given up, by number.
    pub gone: [bool; 4],
    /// Whether the sender has left, so that this is its last report.
    pub left: bool,
    /// What it has, of one player after the other, in order of their numbers.
    pub told: ArrayVec<Tail, MAX_TOLD>,
}

/// Why bytes are no report: the first of these faults that they have.
#[derive(Clone, Copy, Debug, PartialEq, Eq, Error)]
pub enum ReportFault {
    /// No byte.
    #[error("empty")]
    Empty,
    /// A bit of the first byte that means nothing.
    #[error("a bit that means nothing is set")]
    Bits,
    /// Bytes behind those of two players.
    #[error("more players than a report tells of")]
    Third,
    /// Fewer than the six bytes before a player's commands.
    #[error("shorter than what stands before a player's commands")]
    Short,
    /// A number that is no player's.
    #[error("no player has this number")]
    Player,
    /// A number that is not above that of the player before.
    #[error("players are not in order of their numbers")]
    Order,
    /// More than 24 commands of a player.
    #[error("more commands than a report has of a player")]
    Many,
    /// More commands than the sender has of the player.
    #[error("more commands than the sender has")]
    Surplus,
    /// Fewer bytes than the commands of a player take.
    #[error("shorter than its commands")]
    Cut,
}

/// A report has one list of bytes, since `report_bytes` is a function of it, and a list has one report.
#[tactic(auto, using(crate::proofs::ReportBytes::same_report))]
pub fn one_report()
    ensures { (p q : Report) → IsReport p → IsReport q → report_bytes p ≡ report_bytes q → p ≡ q }
{}

/// A report has at most as many bytes as this, where it has at most twice the window of commands of each
/// player: 173 in the window of five, and 397 in that of twelve. No report has more.
pub fn report_lengths()
    ensures most { (report : Report) → IsReport report → length (report_bytes report) ≤ 397 }
    ensures by_window { (report : Report) (ahead : ℕ) → IsReport report
        → All (λ (tail : Tail). length tail.commands.items ≤ ahead + ahead) report.told.items
        → length (report_bytes report) ≤ 13 + 32 * ahead }
{}
