//! What holds of every game.

ghost use Rattle.std.specs.Prelude.{◌≡◌, ◌<◌, ℕ, ℤ, Bool, None, List, [], ◌∷◌, true, false, Some, get_or, map, ◌≢◌, slice_get};
ghost use Rattle.dn_tic.specs.declared.command.TicCmd.{TicCmd};
ghost use Rattle.dn_setup.specs.Settings.{Settings};
ghost use Rattle.dn_machine.specs.Drops as drops;
ghost use Rattle.dn_machine.specs.{declared.events.Event.Event, Game.Game, Limits.Limits, Limits.IsWindow, Limits.vanilla_limits, Node.Node, Node.ends_of, Node.got, Node.held_at, Node.lacks};
ghost use Rattle.dn_machine.specs.{Node.lowest, Node.ran, Running.is_awaited, Running.is_off, Sparing.on_run_but, declared.answers.Phase.TheVariants.Playing};
ghost use Rattle.dn_machine.specs.{declared.answers.Ran.TheVariants.Inconsistent, Promise.Agree, Promise.Fits, Promise.Steady, Runs.Runs, Worlds.rules_of, Worlds.rules_within, Worlds.world_after};
ghost use Rattle.dn_remain.specs.{Vanished.Calls.is_newer, Vanished.Commands.AreHanded, Vanished.Commands.Holder, Vanished.Commands.past_seen, Vanished.Commands.seen, Vanished.Steps.IsRun, Wary.can_settle};
ghost use Rattle.dn_remain.specs.{Wary.end_seen, Wary.now_of, Wary.Report, Wary.Wary, Wary.is_in_game, Wary.newest_seen, Wary.on_give_up, Wary.on_report, Wary.undecided, Remaining.Remaining, Wary.with_gone};
ghost use Rattle.dn_remain.specs.{Remaining.NobodyGivenUp, Remaining.RunsRemain, Promise.AgreeInPairs, Promise.FitsInPairs, Promise.IsPair, Promise.SteadyInPairs, declared.events.GivenUp.GivenUp, Relaying.RelayEvent, Relaying.Own as plain, Relaying.RunsRelayed};
ghost use Rattle.dn_remain.specs.{declared.events.Reported.Reported, declared.events.RemainEvent.RemainEvent, declared.events.RemainEvent.TheVariants.Own, Wary.with_report, Remaining.Telling};
ghost use Rattle.dn_remain.specs.{Remaining.wary_of, Remaining.with_wary, Promise.CanBeTaken};

use dn_world::World;

/// After every list of events, in any window, what the nodes have is a history of `dn_remain::vanish` in which nobody
/// is given up: its counts are a run of steps, and its lists are handed on. So all laws of `dn_remain::vanish` hold of
/// them.
#[tactic(auto, using(crate::proofs::Quiet::is_quiet, crate::proofs::Reached::follow_all))]
pub fn games_are_histories<W: World>()
    ensures { (limits : Limits) (settings : Settings) (events : List Event) (game : Game)
        → Runs (rules_within W.physics limits) settings events game
        → (older : List (ℕ → Holder TicCmd))
        × IsRun limits.players limits.ahead (past_seen (now_of game (λ node player. false) ∷ older))
        × AreHanded (now_of game (λ node player. false) ∷ older) }
{}

/// The same of every list of events in which players may be given up: a give-up, a report that comes and a
/// decision are steps too.
#[tactic(auto, using(crate::proofs::Reached::follow_all))]
pub fn remaining_games_are_histories<W: World>()
    ensures { (limits : Limits) (settings : Settings) (events : List RemainEvent) (all : Remaining)
        → RunsRemain (rules_within W.physics limits) settings events all
        → (older : List (ℕ → Holder TicCmd))
        × IsRun limits.players limits.ahead (past_seen (now_of all.game all.gone ∷ older))
        × AreHanded (now_of all.game all.gone ∷ older) }
{}

/// So, in any window: any two nodes of which neither has given up the other know the same ends, and ran the
/// same row for each tic that both ran, so that their worlds are the same; a row has the moves of the commands
/// that its node has, of all players but those whose ends are over; any two nodes at all have the same command
/// of a player wherever both have one, and of their demos, which lack nobody, one is a prefix of the other; of
/// each player at most twice the window is unread, and no packet or report brings more, so a ring of that many
/// commands overwrites none that is still needed; no demo has more rows than it has room for; and every node
/// that has started has the key player's settings. In windows up to twelve, where twice as many commands are
/// kept, no consistency check fails besides, and what is dropped is dropped for a reason.
#[tactic(auto, using(crate::proofs::Promises::pairs_fit, crate::proofs::Promises::pairs_agree, crate::proofs::Reached::reached_by, crate::proofs::Steady::pairs_steady))]
pub fn those_who_remain_agree<W: World>()
    ensures agree { (limits : Limits) (settings : Settings) (events : List RemainEvent) (all : Remaining)
        → RunsRemain (rules_within W.physics limits) settings events all
        → AgreeInPairs (rules_within W.physics limits) settings all }
    ensures fits { (limits : Limits) (settings : Settings) (events : List RemainEvent) (all : Remaining)
        → RunsRemain (rules_within W.physics limits) settings events all → FitsInPairs limits all }
    ensures steady { (limits : Limits) (settings : Settings) (events : List RemainEvent) (all : Remaining)
        → IsWindow limits → RunsRemain (rules_within W.physics limits) settings events all
        → SteadyInPairs limits all }
    ensures settings { (limits : Limits) (settings : Settings) (events : List RemainEvent) (all : Remaining)
        → RunsRemain (rules_within W.physics limits) settings events all → (q : ℕ)
        → (all.game.nodes q).played ≡ true → (all.game.nodes q).settings ≡ Some settings }
{}

/// And the same where nodes give each other packets with commands of third players that they have.
#[tactic(auto, using(crate::proofs::Promises::pairs_fit, crate::proofs::Promises::pairs_agree, crate::proofs::Relayed::as_relayed, crate::proofs::Relayed::reached_by, crate::proofs::Steady::pairs_steady))]
pub fn relayed_games_agree<W: World>()
    ensures agree { (limits : Limits) (settings : Settings) (events : List RelayEvent) (all : Remaining)
        → RunsRelayed (rules_within W.physics limits) settings events all
        → AgreeInPairs (rules_within W.physics limits) settings all }
    ensures fits { (limits : Limits) (settings : Settings) (events : List RelayEvent) (all : Remaining)
        → RunsRelayed (rules_within W.physics limits) settings events all → FitsInPairs limits all }
    ensures steady { (limits : Limits) (settings : Settings) (events : List RelayEvent) (all : Remaining)
        → IsWindow limits → RunsRelayed (rules_within W.physics limits) settings events all
        → SteadyInPairs limits all }
    ensures settings { (limits : Limits) (settings : Settings) (events : List RelayEvent) (all : Remaining)
        → RunsRelayed (rules_within W.physics limits) settings events all → (q : ℕ)
        → (all.game.nodes q).played ≡ true → (all.game.nodes q).settings ≡ Some settings }
    ensures own { (limits : Limits) (settings : Settings) (events : List RemainEvent) (all : Remaining)
        → RunsRemain (rules_within W.physics limits) settings events all
        → RunsRelayed (rules_within W.physics limits) settings (map plain events) all }
{}

/// A game in which nobody was given up is one that a list of the machine's own events leads to. So all that
/// holds of those games holds of it, word for word.
#[tactic(auto, using(crate::proofs::Quiet::quiet))]
pub fn quiet_games_are_games<W: World>()
    ensures { (limits : Limits) (settings : Settings) (events : List RemainEvent) (all : Remaining)
        → RunsRemain (rules_within W.physics limits) settings events all → NobodyGivenUp all
        → (own : List Event) × Runs (rules_within W.physics limits) settings own all.game }
{}

/// So in such a game, in any window up to twelve where twice as many commands are kept: all nodes agree, no
/// ring overwrites a command that is still needed, and no check failed. These are the words of
/// `every_window_agrees`.
#[tactic(auto, using(dn_machine::proofs::Games::always, crate::proofs::Quiet::quiet, dn_machine::proofs::Promises::agree, dn_machine::proofs::Promises::fits, dn_machine::proofs::Promises::steady))]
pub fn quiet_games_agree<W: World>()
    ensures agree { (limits : Limits) (settings : Settings) (events : List RemainEvent) (all : Remaining)
        → IsWindow limits → RunsRemain (rules_within W.physics limits) settings events all
        → NobodyGivenUp all → Agree (rules_within W.physics limits) settings all.game }
    ensures fits { (limits : Limits) (settings : Settings) (events : List RemainEvent) (all : Remaining)
        → IsWindow limits → RunsRemain (rules_within W.physics limits) settings events all
        → NobodyGivenUp all → Fits (rules_within W.physics limits) all.game }
    ensures steady { (limits : Limits) (settings : Settings) (events : List RemainEvent) (all : Remaining)
        → IsWindow limits → RunsRemain (rules_within W.physics limits) settings events all
        → NobodyGivenUp all → Steady (rules_within W.physics limits) all.game }
{}

/// And every game of the machine is such a game: nothing that could happen before is lost.
#[tactic(auto, using(crate::proofs::Quiet::is_quiet))]
pub fn games_are_quiet_games<W: World>()
    ensures { (limits : Limits) (settings : Settings) (own : List Event) (game : Game)
        → Runs (rules_within W.physics limits) settings own game
        → (all : Remaining) × RunsRemain (rules_within W.physics limits) settings (map Own own) all
        × NobodyGivenUp all × (all.game ≡ game) }
{}

/// A run compares the mark of each player who takes part in the tic and whom its node has not given up: one
/// that is off ends the node's game. It compares no other.
pub fn marks_are_compared()
    ensures ends { (limits : Limits) (gone : ℕ → Bool) (node : Node) (marks : ℕ → ℤ) (player : ℕ)
        → node.phase ≡ Playing → lowest limits.players (is_awaited node) ≡ None → 12 < ran node
        → player < limits.players → gone player ≡ false → is_off node player ≡ true
        → (off : ℕ) × (was : ℤ) × (should : ℤ)
        × ((on_run_but limits gone node marks).1 ≡ Inconsistent off was should) }
    ensures spared { (limits : Limits) (gone : ℕ → Bool) (node : Node) (marks : ℕ → ℤ) (player : ℕ)
        (was should : ℤ)
        → (on_run_but limits gone node marks).1 ≡ Inconsistent player was should
        → (gone player ≡ false) × (is_off node player ≡ true) }
{}

/// A game of three in the window of 1997, as an example: player 0 makes one command, which player 1 takes and
/// player 2 never hears, and stops. The others give it up, tell each other what they have, and both run one tic
/// with it and one without.
pub fn a_game_goes_on<W: World>()
    ensures { (settings : Settings) → (events : List RemainEvent) × (all : Remaining)
        × RunsRemain (rules_of W.physics 3 false 100) settings events all
        × (all.game.stopped 0 ≡ true) × (all.gone 1 0 ≡ true) × (all.gone 2 0 ≡ true)
        × IsPair (vanilla_limits 3 false 100) all 1 2
        × (end_seen (all.game.nodes 1) 0 ≡ Some 1) × (end_seen (all.game.nodes 2) 0 ≡ Some 1)
        × (ran (all.game.nodes 1) ≡ 2) × (ran (all.game.nodes 2) ≡ 2)
        × (lacks (get_or (all.game.nodes 2).rows 0 []) 0 ≡ false)
        × (lacks (get_or (all.game.nodes 2).rows 1 []) 0 ≡ true)
        × (lacks (get_or (all.game.nodes 2).rows 1 []) 1 ≡ false) }
{}

/// And of three, of whom player 2 is given up before the start: the others start, and run a tic without it.
pub fn a_game_starts<W: World>()
    ensures { (settings : Settings) → (events : List RemainEvent) × (all : Remaining)
        × RunsRemain (rules_of W.physics 3 false 100) settings events all
        × (ran (all.game.nodes 0) ≡ 1) × (ran (all.game.nodes 1) ≡ 1)
        × (lacks (get_or (all.game.nodes 1).rows 0 []) 2 ≡ true)
        × (lacks (get_or (all.game.nodes 1).rows 0 []) 0 ≡ false) }
{}

/// And of three in a window of seven: player 1 hears none of player 2's commands and fourteen of player 0's,
/// who ran tics with player 2; it gives up both, and runs the tics without player 2. Player 0's command for
/// tic 13 carries the mark of player 0's own world, in which player 2 took part, and which is not player 1's.
/// It is not compared, and player 1 goes on.
pub fn a_wide_game_goes_on<W: World>()
    ensures { (settings : Settings) → (limits : Limits) × IsWindow limits × (limits.ahead ≡ 7)
        × (events : List RemainEvent) × (all : Remaining)
        × RunsRemain (rules_within W.physics limits) settings events all
        × (all.gone 1 0 ≡ true) × (ran (all.game.nodes 1) ≡ 14)
        × (lacks (get_or (all.game.nodes 1).rows 13 []) 0 ≡ false)
        × (lacks (get_or (all.game.nodes 0).rows 0 []) 2 ≡ false)
        × (lacks (get_or (all.game.nodes 1).rows 0 []) 2 ≡ true)
        × ((held_at (all.game.nodes 1) 0 13).mark
        ≡ W.physics.mark (world_after (rules_within W.physics limits) settings (all.game.nodes 0).rows 1) 0) }
{}

/// What is answered is so. A node that has decided knows the ends of all whom it has given up, and has the
/// commands before them; one that has not lacks a report, and it can be told whose. And a report of one who was
/// given up, or who has given up the node, or one older than the newest of its sender, changes nothing.
#[tactic(auto, using(crate::proofs::Answering::barred, crate::proofs::Answering::decides, crate::proofs::Answering::decides_on, crate::proofs::Answering::excluded, crate::proofs::Answering::stale, crate::proofs::Answering::waits, crate::proofs::Answering::waits_on))]
pub fn answers_are_true()
    ensures decided { (limits : Limits) (me player : ℕ) (wary : Wary)
        → (on_give_up limits me wary player).1 ≡ GivenUp.Decided → (p : ℕ)
        → (on_give_up limits me wary player).0.gone p ≡ true
        → ends_of (on_give_up limits me wary player).0.node p
        ≡ Some (got (on_give_up limits me wary player).0.node p) }
    ensures waiting { (limits : Limits) (me player : ℕ) (wary : Wary)
        → (on_give_up limits me wary player).1 ≡ GivenUp.Waiting
        → (r : ℕ) × (undecided limits me (on_give_up limits me wary player).0 ≡ Some r) }
    ensures decided_then { (limits : Limits) (me from : ℕ) (wary : Wary) (report : Report)
        → (on_report limits me wary from report).1 ≡ Reported.Decided → (p : ℕ)
        → (on_report limits me wary from report).0.gone p ≡ true
        → ends_of (on_report limits me wary from report).0.node p
        ≡ Some (got (on_report limits me wary from report).0.node p) }
    ensures waiting_still { (limits : Limits) (me from : ℕ) (wary : Wary) (report : Report)
        → (on_report limits me wary from report).1 ≡ Reported.Kept
        → (r : ℕ) × (undecided limits me (on_report limits me wary from report).0 ≡ Some r) }
    ensures barred { (limits : Limits) (me from : ℕ) (wary : Wary) (report : Report)
        → is_in_game wary.node.phase ≡ true → wary.gone from ≡ true
        → on_report limits me wary from report ≡ (wary, Reported.Dropped drops.given_up) }
    ensures excluded { (limits : Limits) (me from : ℕ) (wary : Wary) (report : Report)
        → is_in_game wary.node.phase ≡ true → wary.gone from ≡ false → report.gone me ≡ true
        → on_report limits me wary from report ≡ (wary, Reported.Excluded) }
    ensures stale { (limits : Limits) (me from : ℕ) (wary : Wary) (report : Report)
        → is_in_game wary.node.phase ≡ true → wary.gone from ≡ false → report.gone me ≡ false
        → is_newer limits.players (newest_seen wary from) (seen report) ≡ false
        → on_report limits me wary from report ≡ (wary, Reported.Stale) }
{}

/// Where a node can decide, once it has given up a player or a report has come, what it decides can be taken:
/// of each player whom it has given up, the commands that it has are the first of those that are decided; these
/// are the first that the player made, at most twice the window of them is not run, and an end that the node
/// knows is the same.
pub fn decisions_can_be_taken<W: World>()
    ensures given_up { (limits : Limits) (settings : Settings) (events : List RemainEvent) (all : Remaining)
        (q player : ℕ) → RunsRemain (rules_within W.physics limits) settings events all → q < limits.players
        → player < limits.players → player ≢ q → is_in_game (all.game.nodes q).phase ≡ true
        → can_settle limits q (with_gone limits (wary_of all q) player) ≡ true
        → CanBeTaken limits (with_wary all q (with_gone limits (wary_of all q) player)) q }
    ensures heard { (limits : Limits) (settings : Settings) (events : List RemainEvent) (all : Remaining)
        (which : ℕ) (telling : Telling) → RunsRemain (rules_within W.physics limits) settings events all
        → slice_get all.reports which ≡ Some telling → is_in_game (all.game.nodes telling.to).phase ≡ true
        → can_settle limits telling.to (with_report (wary_of all telling.to) telling.from telling.report) ≡ true
        → CanBeTaken limits
        (with_wary all telling.to (with_report (wary_of all telling.to) telling.from telling.report))
        telling.to }
{}
