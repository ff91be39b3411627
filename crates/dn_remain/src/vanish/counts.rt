//! What holds of counts, ends and rows, after every list of steps.

ghost use Rattle.std.specs.Prelude.{◌≡◌, ℕ, ◌+◌, ◌<◌, ◌≤◌, List, ◌∷◌, true, false, Some};
ghost use Rattle.dn_machine.specs.Running.{is_over};
ghost use Rattle.dn_remain.specs.{Vanished.Node.Node, Vanished.Node.Was, Vanished.Node.now, Vanished.Node.ran, Vanished.Node.Stands, Vanished.Steps.Decide, Vanished.Steps.IsRun, Vanished.Steps.Step, Vanished.Promise.Agree, Vanished.Promise.Fits, Vanished.Promise.Lasts};
ghost use Rattle.dn_remain.specs.{Vanished.Promise.Marked, Vanished.Promise.lacks_at};

/// After every list of steps, whichever packets and reports were lost, repeated, delayed or reordered: any two
/// nodes that have not given up each other know the same ends, and ran the tics that both ran with the same
/// players.
#[tactic(auto, using(crate::proofs::Vanished::Always::always, crate::proofs::Vanished::Always::agree))]
pub fn remaining_agree()
    ensures { (players ahead : ℕ) (history : List (ℕ → Node)) → IsRun players ahead history
        → Agree players history }
{}

/// And what a node has it keeps: a known end never changes, nobody comes back who was given up, and no row that
/// was run is changed.
#[tactic(auto, using(crate::proofs::Vanished::Always::always, crate::proofs::Vanished::Always::lasts))]
pub fn what_is_known_lasts()
    ensures { (players ahead : ℕ) (history : List (ℕ → Node)) → IsRun players ahead history → Lasts history }
{}

/// Of a player whom it has given up a node takes no command and learns no end, but by a decision.
pub fn the_given_up_are_frozen()
    ensures { (players ahead : ℕ) (history : List (ℕ → Node)) (next : ℕ → Node) (p : ℕ)
        → IsRun players ahead history → (step : Step players ahead history next) → (step.act ≡ Decide → ⊥)
        → (now history step.q).gone p ≡ true
        → ((next step.q).got p ≡ (now history step.q).got p)
        × ((next step.q).ends p ≡ (now history step.q).ends p) }
{}

/// And no count runs away. A node has at most twice the window of a player's commands that it has not run; what
/// was made is at most the window ahead of the tics that its maker ran, and of what each other player had made
/// who is not given up and has not left; and whatever packet or report may come to a node fits.
#[tactic(auto, using(crate::proofs::Vanished::Windows::fits))]
pub fn windows_fit()
    ensures { (players ahead : ℕ) (history : List (ℕ → Node)) → IsRun players ahead history
        → Fits players ahead history }
{}

/// Every command was made in a state of its maker in which it might be: after all before it, and no further
/// ahead of the tics run than the window allows.
pub fn every_command_was_made()
    ensures { (players ahead : ℕ) (history : List (ℕ → Node)) (p tic : ℕ) → IsRun players ahead history
        → tic < (now history p).got p
        → (maker : Node) × Was history p maker × (maker.got p ≡ tic) × (tic < ran maker + ahead) }
{}

/// And no consistency check fails: of the tics up to twelve before a command, its maker had the rows that every
/// node has which runs a tic with that command, and has not given up the maker; in windows of up to six also
/// those nodes that have.
#[tactic(auto, using(crate::proofs::Vanished::Marks::marked))]
pub fn marks_agree()
    ensures { (players ahead : ℕ) (history : List (ℕ → Node)) → ahead ≤ 12 → IsRun players ahead history
        → Marked players ahead history }
{}

/// A decision comes as soon as everyone who is not given up has given up the same players, or has left having
/// given up no others, and their reports have come; after it the node waits for nobody whom it has given up.
pub fn decisions_come()
    ensures { (players ahead : ℕ) (history : List (ℕ → Node)) (q : ℕ) → IsRun players ahead history → q < players
        → (now history q).left ≡ false
        → ((r : ℕ) → r < players → (r ≡ q → ⊥) → (now history q).gone r ≡ false
        → Stands (now history q).gone (now history r))
        → (next : ℕ → Node) × IsRun players ahead (next ∷ history)
        × ((p : ℕ) → (now history q).gone p ≡ true → (next q).ends p ≡ Some ((next q).got p))
        × ((p : ℕ) → (now history q).gone p ≡ true → is_over ((next q).ends p) (ran (next q)) ≡ false
        → ran (next q) < (next q).got p) }
{}

/// A game of three in the window of 1997, as an example: player 0 vanishes, player 2 has none of its commands,
/// decides with player 1's report that there was one, runs that tic with player 0 and the next without.
#[tactic(auto, using(crate::proofs::Vanished::Survived::survived))]
pub fn a_game_goes_on()
    ensures { (history : List (ℕ → Node)) × IsRun 3 5 history × ((now history 2).ends 0 ≡ Some 1)
        × (ran (now history 2) ≡ 2) × (lacks_at (now history 2) 0 0 ≡ false)
        × (lacks_at (now history 2) 1 0 ≡ true) × (lacks_at (now history 2) 1 1 ≡ false) }
{}
