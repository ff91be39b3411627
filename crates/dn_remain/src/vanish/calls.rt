//! What the calls of a node do, and what its tests tell.

ghost use Rattle.std.specs.Prelude.{◌≡◌, ℕ, ◌<◌, List, ◌++◌, true, false, Option, Some};
ghost use Rattle.dn_remain.specs.{Vanished.Node.Node, Vanished.Node.now, Vanished.Node.Was, Vanished.Node.HasHeard, Vanished.Node.Stands, Vanished.Steps.IsRun, Vanished.Calls.AreTrue, Vanished.Calls.Keeper, Vanished.Calls.LeadsTo, Vanished.Calls.after_news, Vanished.Calls.can_decide};
ghost use Rattle.dn_remain.specs.{Vanished.Calls.on_give_up, Vanished.Calls.on_report, Vanished.Calls.report_or, Vanished.Promise.Steady};

/// The two calls are steps: of a node whose newest reports are true, and of a true report, they lead on from
/// the history, and newest reports stay true: the node's own, and, since a history only grows, those of all
/// others. So the calls of all nodes can follow each other.
pub fn calls_are_steps()
    ensures given_up { (players ahead : ℕ) (history : List (ℕ → Node)) (q : ℕ) (keeper : Keeper) (p : ℕ)
        → IsRun players ahead history → q < players → keeper.node ≡ now history q
        → AreTrue history keeper.newest
        → LeadsTo players ahead history q (on_give_up players q keeper p) }
    ensures heard { (players ahead : ℕ) (history : List (ℕ → Node)) (q : ℕ) (keeper : Keeper) (from : ℕ)
        (report : Node)
        → IsRun players ahead history → q < players → keeper.node ≡ now history q → Was history from report
        → AreTrue history keeper.newest
        → LeadsTo players ahead history q (on_report players q keeper from report) }
    ensures stay { (history steps : List (ℕ → Node)) (newest : ℕ → Option Node)
        → AreTrue history newest → AreTrue (steps ++ history) newest }
{}

/// The test that a node makes on the newest reports that came asks for what a decision needs, and for no more.
pub fn tests_are_exact()
    ensures suffices { (players ahead : ℕ) (history : List (ℕ → Node)) (q : ℕ) (newest : ℕ → Option Node)
        → IsRun players ahead history → AreTrue history newest
        → can_decide players q (now history q) newest ≡ true
        → HasHeard players history q (now history q) (λ r. report_or (newest r)) }
    ensures is_needed { (players q : ℕ) (node : Node) (newest : ℕ → Option Node)
        → ((r : ℕ) → r < players → (r ≡ q → ⊥) → node.gone r ≡ false
        → (report : Node) × (newest r ≡ Some report) × Stands node.gone report)
        → can_decide players q node newest ≡ true }
{}

/// A node that has not decided lacks a report of a player whom it has not given up: either none came, or the
/// newest does not stand for its set. After each call, one that lacks none has decided.
#[tactic(auto, using(crate::proofs::Vanished::Tests::lacking, crate::proofs::Vanished::Tests::decided_now))]
pub fn undecided_lack_a_report()
    ensures lacks { (players q : ℕ) (node : Node) (newest : ℕ → Option Node)
        → can_decide players q node newest ≡ false
        → (r : ℕ) × (r < players) × (r ≡ q → ⊥) × (node.gone r ≡ false)
        × ((report : Node) → newest r ≡ Some report → Stands node.gone report → ⊥) }
    ensures decides { (players q : ℕ) (keeper : Keeper) (p : ℕ)
        → can_decide players q keeper.node keeper.newest ≡ true → keeper.node.gone p ≡ true
        → (after_news players q keeper).node.ends p ≡ Some ((after_news players q keeper).node.got p) }
{}

/// Nothing is lost with a report that is refused as older than the newest.
#[tactic(auto, using(crate::proofs::Vanished::Always::always, crate::proofs::Vanished::Tests::steady))]
pub fn refused_reports_tell_no_more()
    ensures { (players ahead : ℕ) (history : List (ℕ → Node)) → IsRun players ahead history
        → Steady players history }
{}
