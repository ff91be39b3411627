//! The calls of a survivor are those of a node of `dn_remain`; why an end is refused, and what a give-up does.

ghost use Rattle.std.specs.Prelude.{◌≡◌, ◌≢◌, ◌<◌, ◌≤◌, ◌⊎◌, ℕ, ℤ, true, false, List, Option, Some, slice_get};
ghost use Rattle.dn_tic.specs.declared.command.Move.{Move};
ghost use Rattle.dn_setup.specs.Settings.{Settings};
ghost use Rattle.dn_survivor.specs.declared.report.Report.{Report};
ghost use Rattle.dn_machine.specs.{declared.answers.Ran.Ran, declared.answers.Phase.TheVariants.Gathering, declared.answers.Phase.TheVariants.Playing, Limits.Limits, Sparing.on_run_but, Limits.IsWindow};
ghost use Rattle.dn_machine.specs.Node as machine;
ghost use Rattle.dn_machine.specs.{Worlds.rules_within};
ghost use Rattle.dn_lockstep.specs.Represents as lockstep;
ghost use Rattle.dn_lockstep.specs.Steps.{RunsBy, marks_in, row_told};
ghost use Rattle.dn_lockstep.specs.Settling.{is_no_peer};
ghost use Rattle.dn_lockstep.specs.declared.lockstep.settling.Settled.{Settled};
ghost use Rattle.dn_survivor.specs.{OfOthers.nothing_kept, OfOthers.AreTold, OfOthers.Tells};
ghost use Rattle.dn_remain.specs.{Wary.Report as Held, Wary.Wary, Wary.can_settle, Wary.is_in_game, Wary.on_give_up, Wary.on_report, Wary.report_to, Wary.undecided, Wary.with_gone, Wary.with_report};
ghost use Rattle.dn_remain.specs.{Remaining.Remaining, Remaining.Telling, Remaining.wary_of, Remaining.RunsRemain, declared.events.RemainEvent.RemainEvent};
ghost use Rattle.dn_survivor.specs.{Calls.GivesUp, Calls.HearsReport, Calls.undecided_in, Calls.IsRefusal, Represents.CanTakeAll, Represents.Represents, Represents.given_up_is};
ghost use Rattle.dn_survivor.specs.{Represents.nobody_gone, Represents.reported_is, Surviving.Surviving, Surviving.has_given_up, Telling.report_for, declared.answers.GivenUp.GivenUp};
ghost use Rattle.dn_survivor.specs.{declared.answers.Reported.Reported};

use dn_world::World;

/// A new survivor represents a node that has given up nobody and heard no report. And where one represents a
/// node, and what that node decides in a game can be taken, each call does what the node does, and answers the
/// same, so that it represents the node after it: `give_up` and `hear`, of a true report. What `report` and
/// `undecided` return is what the node tells, and whose report it lacks. `ran` is of `run_into`, and `stepped`
/// of each call that is the lockstep's alone, and of `receive`, `packet` and `packet_to` for one who is not
/// given up; for one who is, `barred` says that the node has given it up.
#[tactic(auto, using(crate::proofs::Steps::asked, crate::proofs::Steps::opened, crate::proofs::Steps::runs, crate::proofs::Steps::stepped, crate::proofs::Reports::told, crate::proofs::Waries::gave_up, crate::proofs::Waries::heard))]
pub fn calls_are_wary()
    ensures opened { (limits : Limits) (me : ℕ) (now : Surviving) (node : machine.Node)
        → me < limits.players → limits.players ≤ 4 → limits.places ≤ 24
        → lockstep.Represents limits me now.lockstep node → now.others ≡ nothing_kept
        → Represents limits me now (nobody_gone node) }
    ensures gave_up { (limits : Limits) (me : ℕ) (old new : Surviving) (wary : Wary) (player : ℕ)
        (answer : GivenUp) → Represents limits me old wary
        → (is_in_game wary.node.phase ≡ true → is_no_peer limits.players me player ≡ false
        → can_settle limits me (with_gone limits wary player) ≡ true
        → CanTakeAll limits me (with_gone limits wary player))
        → GivesUp player old new answer
        → Represents limits me new (on_give_up limits me wary player).0
        × (answer ≡ given_up_is (on_give_up limits me wary player).1) }
    ensures heard { (limits : Limits) (me : ℕ) (old new : Surviving) (wary : Wary) (from : ℕ) (report : Report)
        (told : Held) (answer : Reported) → Represents limits me old wary
        → from < limits.players → from ≢ me → Tells limits.players limits.places me from told report
        → (is_in_game wary.node.phase ≡ true
        → can_settle limits me (with_report wary from told) ≡ true
        → CanTakeAll limits me (with_report wary from told))
        → HearsReport from report old new answer
        → Represents limits me new (on_report limits me wary from told).0
        × (answer ≡ reported_is (on_report limits me wary from told).1) }
    ensures told { (limits : Limits) (me : ℕ) (now : Surviving) (wary : Wary) (to : ℕ)
        → Represents limits me now wary → to < limits.players
        → AreTold limits.players limits.places to me (report_for now to) (report_to limits me wary to) }
    ensures asked { (limits : Limits) (me : ℕ) (now : Surviving) (wary : Wary)
        → Represents limits me now wary → undecided_in now ≡ undecided limits me wary }
    ensures ran { (limits : Limits) (me : ℕ) (old new : Surviving) (wary : Wary) (marks : List ℤ) (ran : Ran)
        (row : Option (List (Option Move))) → Represents limits me old wary
        → RunsBy marks old.lockstep new.lockstep
        (λ limits m marks. on_run_but limits (has_given_up old) m marks)
        (λ answer told. (ran ≡ answer) × (row ≡ told))
        → new.others ≡ old.others
        → let after = on_run_but limits wary.gone wary.node (marks_in marks) in
        Represents limits me new (record wary { node = after.0 })
        × (ran ≡ after.1) × (row ≡ row_told limits wary.node after.1) }
    ensures stepped { (limits : Limits) (me : ℕ) (old new : Surviving) (wary : Wary) (node : machine.Node)
        → Represents limits me old wary
        → lockstep.Represents limits me new.lockstep node → new.others ≡ old.others
        → Represents limits me new (record wary { node = node }) }
    ensures barred { (limits : Limits) (me : ℕ) (now : Surviving) (wary : Wary) (player : ℕ)
        → Represents limits me now wary → player < limits.players
        → has_given_up now player ≡ wary.gone player }
{}

/// An end that is not taken is that of a player of the game who is given up, and is refused for one of four
/// reasons: `Gap`, `Overrun`, `Stopper`, `OtherEnd`. Whatever was told, true or false: the premises are that
/// the lockstep represents a node, as each does, and that its own player is not given up. That no survivor
/// gives up its own player is said by `own` and `own_heard`; a new one has given up nobody.
#[tactic(auto, using(crate::proofs::Refusing::gave_up, crate::proofs::Refusing::own_heard, crate::proofs::Refusing::own_stays, crate::proofs::Refusing::reported))]
pub fn ends_are_refused_for_reasons()
    ensures gave_up { (limits : Limits) (me : ℕ) (old new : Surviving) (node : machine.Node) (player other : ℕ)
        (reason : Settled) → me < limits.players → lockstep.Represents limits me old.lockstep node
        → has_given_up old me ≡ false → GivesUp player old new (GivenUp.Untaken other reason)
        → IsRefusal reason × (other < limits.players) × (has_given_up new other ≡ true) }
    ensures reported { (limits : Limits) (me : ℕ) (old new : Surviving) (node : machine.Node) (from other : ℕ)
        (report : Report) (reason : Settled) → me < limits.players
        → lockstep.Represents limits me old.lockstep node → has_given_up old me ≡ false
        → HearsReport from report old new (Reported.Untaken other reason)
        → IsRefusal reason × (other < limits.players) × (has_given_up new other ≡ true) }
    ensures own { (old new : Surviving) (player : ℕ) (answer : GivenUp)
        → has_given_up old old.lockstep.me ≡ false → GivesUp player old new answer
        → has_given_up new old.lockstep.me ≡ false }
    ensures own_heard { (old new : Surviving) (from : ℕ) (report : Report) (answer : Reported)
        → has_given_up old old.lockstep.me ≡ false → HearsReport from report old new answer
        → has_given_up new old.lockstep.me ≡ false }
{}

/// A give-up leaves the phase as it is, but that a lockstep that gathers may start. So the phases before and
/// after it tell whether it did.
#[tactic(auto, using(crate::proofs::Refusing::phases))]
pub fn give_ups_may_start()
    ensures { (limits : Limits) (me : ℕ) (old new : Surviving) (node : machine.Node) (player : ℕ)
        (answer : GivenUp) → me < limits.players → lockstep.Represents limits me old.lockstep node
        → has_given_up old me ≡ false → GivesUp player old new answer
        → (new.lockstep.phase ≡ old.lockstep.phase)
        ⊎ ((old.lockstep.phase ≡ Gathering) × (new.lockstep.phase ≡ Playing)) }
{}

/// What `calls_are_wary` asks of a decision holds in every game of `dn_remain`, in any window up to twelve
/// where twice as many commands are kept: once a node has given up a player, or a report has come, what it
/// decides, if it can, can be taken.
pub fn decisions_can_be_settled<W: World>()
    ensures given_up { (limits : Limits) (settings : Settings) (events : List RemainEvent) (all : Remaining)
        (q player : ℕ) → IsWindow limits
        → RunsRemain (rules_within W.physics limits) settings events all
        → q < limits.players → player < limits.players → player ≢ q
        → is_in_game (all.game.nodes q).phase ≡ true
        → can_settle limits q (with_gone limits (wary_of all q) player) ≡ true
        → CanTakeAll limits q (with_gone limits (wary_of all q) player) }
    ensures heard { (limits : Limits) (settings : Settings) (events : List RemainEvent) (all : Remaining)
        (which : ℕ) (telling : Telling) → IsWindow limits
        → RunsRemain (rules_within W.physics limits) settings events all
        → slice_get all.reports which ≡ Some telling → is_in_game (all.game.nodes telling.to).phase ≡ true
        → can_settle limits telling.to (with_report (wary_of all telling.to) telling.from telling.report) ≡ true
        → CanTakeAll limits telling.to (with_report (wary_of all telling.to) telling.from telling.report) }
{}
