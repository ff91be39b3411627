//! What holds of every game.

ghost use Rattle.std.specs.Prelude.{◌≡◌, ℕ, All, Bool, List, Some, Result, slice_get};
ghost use Rattle.dn_setup.specs.Settings.{Settings};
ghost use Rattle.dn_machine.specs.{declared.events.Done.Done, declared.events.Event.Event, declared.events.Refusal.Refusal, Game.applied, Game.opening_game, Game.Game as Whole, Promise.inputs_of, Runs.Runs, Worlds.rules_of};
ghost use Rattle.dn_game.specs.{Agreed.AreAgreed, Contents.Contents};
ghost use Rattle.dn_node.specs.Kept.{Kept};
ghost use Rattle.dn_game.specs.{Headline.HaveAgreed, Played.IsReachedWith, Played.Plays, Promised.IsReached, Promised.IsPromised, Promised.IsSteady, Promised.inputs_made, Shown.ShowsNode};

use dn_world::World;

/// Whatever game of the machine a game represents: if a list of events may lead to that one, all that is
/// promised holds of it, and the nodes agree in what they tell of themselves.
pub fn reached_games_agree<W: World>()
    // The headline.
    ensures headline { (players : ℕ) (extra : Bool) (capacity : ℕ) (settings : Settings) (events : List Event)
        (g : Contents W) → IsReached W.state (rules_of W.physics players extra capacity) settings events g
        → HaveAgreed W.state W.physics settings players g }
    ensures promised { (players : ℕ) (extra : Bool) (capacity : ℕ) (settings : Settings) (events : List Event)
        (g : Contents W)
        → (reached : IsReached W.state (rules_of W.physics players extra capacity) settings events g)
        → (answers : List (Result Done Refusal))
        × IsPromised W.state (rules_of W.physics players extra capacity) settings events answers reached.last
        g }
    // Where the answers are known, it is promised of these.
    ensures answered { (players : ℕ) (extra : Bool) (capacity : ℕ) (settings : Settings) (events : List Event)
        (answers : List (Result Done Refusal)) (g : Contents W)
        → (reached : IsReachedWith W.state (rules_of W.physics players extra capacity) settings events answers
        g)
        → IsPromised W.state (rules_of W.physics players extra capacity) settings events answers reached.last
        g }
    ensures agreed { (players : ℕ) (extra : Bool) (capacity : ℕ) (settings : Settings) (events : List Event)
        (g : Contents W)
        → (reached : IsReached W.state (rules_of W.physics players extra capacity) settings events g)
        → AreAgreed W.state (rules_of W.physics players extra capacity) settings (inputs_of reached.last) g }
    // Each node shows the machine's, field by field.
    ensures shown { (players : ℕ) (extra : Bool) (capacity : ℕ) (settings : Settings) (events : List Event)
        (g : Contents W) (i : ℕ) (n : Kept W)
        → (reached : IsReached W.state (rules_of W.physics players extra capacity) settings events g)
        → slice_get g.nodes i ≡ Some n
        → ShowsNode W.state (rules_of W.physics players extra capacity) settings n.demo.limit i n
        (reached.last.nodes i) }
    // No further event is answered by a failed check.
    ensures steady { (players : ℕ) (extra : Bool) (capacity : ℕ) (settings : Settings) (events : List Event)
        (g : Contents W)
        → (reached : IsReached W.state (rules_of W.physics players extra capacity) settings events g)
        → (event : Event) → IsSteady (applied (rules_of W.physics players extra capacity) reached.last
        event).1 }
{}

/// Events lead to a game of the machine just where they lead there with answers: what was played is a run, and each
/// run can be played.
#[tactic(auto, using(crate::proofs::Answering::leads_plays, crate::proofs::Answering::plays_leads, crate::proofs::Agreeing::inputs_played, crate::proofs::Agreeing::steady_answers, dn_machine::proofs::Vanilla::vanilla_window))]
pub fn runs_have_answers<W: World>()
    ensures answers { (players : ℕ) (extra : Bool) (capacity : ℕ) (settings : Settings) (events : List Event)
        (last : Whole) → Runs (rules_of W.physics players extra capacity) settings events last
        → (answers : List (Result Done Refusal))
        × Plays (rules_of W.physics players extra capacity) (opening_game settings) events answers last }
    ensures runs { (players : ℕ) (extra : Bool) (capacity : ℕ) (settings : Settings) (events : List Event)
        (answers : List (Result Done Refusal)) (last : Whole)
        → Plays (rules_of W.physics players extra capacity) (opening_game settings) events answers last
        → Runs (rules_of W.physics players extra capacity) settings events last }
    // The players' inputs are those of the builds that made a command, and no answer tells of a failed check.
    ensures inputs { (players : ℕ) (extra : Bool) (capacity : ℕ) (settings : Settings) (events : List Event)
        (answers : List (Result Done Refusal)) (last : Whole)
        → Plays (rules_of W.physics players extra capacity) (opening_game settings) events answers last
        → inputs_of last ≡ inputs_made events answers }
    ensures steady { (players : ℕ) (extra : Bool) (capacity : ℕ) (settings : Settings) (events : List Event)
        (answers : List (Result Done Refusal)) (last : Whole)
        → Plays (rules_of W.physics players extra capacity) (opening_game settings) events answers last
        → All IsSteady answers }
{}
