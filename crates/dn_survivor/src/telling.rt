//! The report that a survivor gives to another.

ghost use Rattle.std.specs.{Prelude.◌≡◌, Prelude.◌≢◌, Prelude.◌<◌, Prelude.◌≤◌, Prelude.◌+◌, Prelude.◌++◌, Prelude.length, Prelude.All, Prelude.IfSome, Option.option_to_list};
ghost use Rattle.dn_tic.specs.Command.{IsCommand};

use crate::report::{MAX_TOLD, Report, TAIL_COMMANDS, Tail};
use crate::survivor::Survivor;
use arrayvec::ArrayVec;
use dn_tic::TicCmd;

/// Appends one thing more, if there is one.
fn push_some<T: Drop, const ROOM: usize>(items: &mut ArrayVec<T, ROOM>, item: Option<T>)
    requires { length items.old.items + length (option_to_list item) ≤ ROOM }
    ensures { items.new.items ≡ items.old.items ++ option_to_list item }
{
    if let Some(item) = item {
        items.push(item);
    }
}

/// Appends a command, if there is one. Its numbers fit, since it is one.
fn push_command(commands: &mut ArrayVec<TicCmd, TAIL_COMMANDS>, command: Option<TicCmd>)
    requires { length commands.old.items + length (option_to_list command) ≤ 24 }
    ensures more { commands.new.items ≡ commands.old.items ++ option_to_list command }
    ensures valid { All IsCommand (option_to_list command) }
{
    push_some(commands, command);
}

/// The same set; that it is one of four players is said here.
fn set_of(set: [bool; 4]) -> [bool; 4]
    ensures same { result ≡ set }
    ensures four { length result ≡ 4 }
{
    set
}

impl Survivor {
    ghost use Rattle.dn_survivor.specs.ReportBytes.{AreTold, IsReport, IsTail};
    ghost use Rattle.dn_survivor.specs.{Surviving.surviving, Telling.last_in, Telling.report_for, Telling.tails_in, Telling.told_in};

    /// The last commands of a player, as many as the lockstep keeps.
    #[tactic(auto, using(crate::proofs::Lists::all_more, crate::proofs::Lists::none_of, crate::proofs::Lists::once, crate::proofs::Lists::picks_few, crate::proofs::Lists::picks_more, crate::proofs::Lists::up_to))]
    fn last_commands(&self, player: u8) -> ArrayVec<TicCmd, TAIL_COMMANDS>
        requires { player < (surviving self.now).lockstep.players }
        ensures last { result.items ≡ last_in (surviving self.now).lockstep player }
        ensures valid { All IsCommand result.items }
    {
        let mut commands = ArrayVec::new();
        let count = self.lockstep.got(player).unwrap_or(0);
        for tic in count.saturating_sub(24)..count {
            push_command(&mut commands, self.lockstep.command(player, tic));
        }
        commands
    }

    /// What it tells `to` of `player`: None of `to` itself, and of its own player.
    fn tail(&self, to: u8, player: u8) -> Option<Tail>
        requires { player < (surviving self.now).lockstep.players }
        ensures told { result ≡ told_in (surviving self.now).lockstep to player }
        ensures proper { All IsTail (option_to_list result) }
    {
        if player == self.lockstep.me() || player == to {
            return None;
        }
        Some(Tail {
            player,
            count: self.lockstep.got(player).unwrap_or(0),
            commands: self.last_commands(player),
        })
    }

    /// What it tells a player of the others.
    #[tactic(auto, using(crate::proofs::Lists::all_more, crate::proofs::Lists::none_of, crate::proofs::Lists::picks_more, crate::proofs::Reports::are_told, crate::proofs::Reports::few_tails))]
    fn told(&self, to: u8) -> ArrayVec<Tail, MAX_TOLD>
        requires below { to < (surviving self.now).lockstep.players }
        requires other { to ≢ (surviving self.now).lockstep.me }
        ensures told { result.items ≡ tails_in (surviving self.now).lockstep to }
        ensures proper { AreTold result.items }
    {
        let mut told = ArrayVec::new();
        for player in 0..self.lockstep.players() {
            push_some(&mut told, self.tail(to, player));
        }
        told
    }

    /// The next report to a player: how many commands it has of each player but itself and that one, and the
    /// last of them; whom it has given up; and whether it has left. It gives none to a number that is no other
    /// player's; none to one whom it has given up, whose survivor would answer `Excluded`; and none while it
    /// has given up nobody and has not left, since such a report would settle nothing.
    pub fn report(&self, to: u8) -> Option<Report>
        ensures told { result ≡ report_for (surviving self.now) to }
        ensures proper { IfSome result IsReport }
    {
        if self.is_no_peer(to) || self.has_given_up(to) || !(self.has_left() || self.has_gone()) {
            return None;
        }
        Some(Report {
            gone: set_of(self.others.gone),
            left: self.has_left(),
            told: self.told(to),
        })
    }
}
