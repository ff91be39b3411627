//! What holds of the commands themselves, where lists of them are handed on.

ghost use Rattle.std.specs.Prelude.{◌≡◌, ◌⊎◌, ℕ, ◌+◌, ◌-◌, ◌<◌, ◌≤◌, List, ◌∷◌, true, false, length, slice_get};
ghost use Rattle.dn_machine.specs.{Node.put, Promise.IsPrefixOf};
ghost use Rattle.dn_remain.specs.{Vanished.Commands.AreHanded, Vanished.Commands.Had, Vanished.Commands.Handed, Vanished.Commands.Holder, Vanished.Commands.demo, Vanished.Commands.holders, Vanished.Commands.past_seen};
ghost use Rattle.dn_remain.specs.{Vanished.Commands.seen, Vanished.Commands.HasHeardLists, Vanished.Commands.IsReady, Vanished.Commands.caught_up, Vanished.Commands.on_decision, Vanished.Node.decided, Vanished.Steps.IsRun, Vanished.Promise.lacks_at};

/// Where lists are handed on piece by piece, each is a prefix of its maker's, whoever has given up whom. So any
/// two nodes have the same command of a player for each tic for which both have one.
pub fn held_lists_are_prefixes<C>()
    ensures prefix { (history : List (ℕ → Holder C)) (x p : ℕ) (u : Holder C)
        → AreHanded history → Had history x u → IsPrefixOf (u.held p) ((holders history p).held p) }
    ensures same { (history : List (ℕ → Holder C)) (x z p tic : ℕ) (u v : Holder C)
        → AreHanded history → Had history x u → Had history z v
        → tic < length (u.held p) → tic < length (v.held p)
        → slice_get (u.held p) tic ≡ slice_get (v.held p) tic }
{}

/// And where their counts are a run, two nodes that had not given up each other have the same command of
/// everyone who takes part in a tic that both ran, and the same players take part.
pub fn commands_agree<C>()
    ensures { (players ahead : ℕ) (history : List (ℕ → Holder C)) (x z p tic : ℕ) (u v : Holder C)
        → AreHanded history → IsRun players ahead (past_seen history)
        → x < players → z < players → p < players → (x ≡ z → ⊥) → Had history x u → Had history z v
        → u.gone z ≡ false → v.gone x ≡ false → tic < length u.rows → tic < length v.rows
        → (lacks_at (seen u) tic p ≡ lacks_at (seen v) tic p)
        × (lacks_at (seen u) tic p ≡ false
        → (tic < length (u.held p)) × (slice_get (u.held p) tic ≡ slice_get (v.held p) tic)) }
{}

/// Any two nodes at all, across a split too, used the same command of every player whom neither lacked in a tic
/// that both ran: two games that went apart differ only in who takes part.
pub fn split_games_share_commands<C>()
    ensures { (players ahead : ℕ) (history : List (ℕ → Holder C)) (x z p tic : ℕ) (u v : Holder C)
        → AreHanded history → IsRun players ahead (past_seen history)
        → p < players → Had history x u → Had history z v → tic < length u.rows → tic < length v.rows
        → lacks_at (seen u) tic p ≡ false → lacks_at (seen v) tic p ≡ false
        → (tic < length (u.held p)) × (tic < length (v.held p))
        × (slice_get (u.held p) tic ≡ slice_get (v.held p) tic) }
{}

/// And of any two demos one is a prefix of the other, since a demo ends before the first row that lacks a
/// player.
#[tactic(auto, using(crate::proofs::Vanished::Handing::demos))]
pub fn demos_agree<C>()
    ensures { (players ahead : ℕ) (history : List (ℕ → Holder C)) (x z : ℕ) (u v : Holder C)
        → AreHanded history → IsRun players ahead (past_seen history) → Had history x u → Had history z v
        → IsPrefixOf (demo players u) (demo players v) ⊎ IsPrefixOf (demo players v) (demo players u) }
{}

/// A decision on lists is the decision on their counts. Each list that it leaves is one that the node had or
/// was told, and so it is handed on.
#[tactic(auto, using(crate::proofs::Vanished::Lists::counts, crate::proofs::Vanished::Lists::pieces, crate::proofs::Vanished::Lists::hands_on))]
pub fn decisions_on_lists<C>()
    ensures counted { (players q : ℕ) (holder : Holder C) (heard : ℕ → Holder C)
        → seen (on_decision players q holder heard) ≡ decided players q (seen holder) (λ r. seen (heard r)) }
    ensures pieces { (players q p : ℕ) (holder : Holder C) (heard : ℕ → Holder C) → q < players
        → ((on_decision players q holder heard).held p ≡ holder.held p)
        ⊎ ((r : ℕ) × (r < players) × ((r ≡ q → ⊥)) × (holder.gone r ≡ false)
        × ((on_decision players q holder heard).held p ≡ (heard r).held p)) }
    ensures handed { (players q : ℕ) (nodes : ℕ → Holder C) (older : List (ℕ → Holder C)) (heard : ℕ → Holder C)
        → q < players → (nodes q).gone q ≡ false → HasHeardLists players (nodes ∷ older) q (nodes q) heard
        → Handed nodes older (put nodes q (on_decision players q (nodes q) heard)) }
{}

/// A report need not carry whole lists: where twice the window of commands is kept, the length of a list and
/// its last commands, as many as are kept, are enough. No list that is told begins past the end of the node's
/// own; and the node's own, with what it lacks of the longest from its last commands on, is the longest.
pub fn last_commands_suffice<C>()
    ensures told { (players ahead places : ℕ) (history : List (ℕ → Holder C)) (q p r : ℕ) (heard : ℕ → Holder C)
        → IsReady players ahead places history q heard
        → p < players → r < players → (r ≡ q → ⊥) → (holders history q).gone r ≡ false
        → (length ((heard r).held p) - places ≤ length ((holders history q).held p))
        × (length ((holders history q).held p) ≤ length ((heard r).held p)
        → caught_up places ((holders history q).held p) ((heard r).held p) ≡ (heard r).held p) }
    ensures all { (players ahead places : ℕ) (history : List (ℕ → Holder C)) (q p : ℕ) (heard : ℕ → Holder C)
        → IsReady players ahead places history q heard → (holders history q).gone p ≡ true
        → (all : List C) × (all ≡ (on_decision players q (holders history q) heard).held p)
        × (length ((holders history q).held p) ≤ length all)
        × (length all ≤ length ((holders history q).held p) + (ahead + ahead))
        × (caught_up places ((holders history q).held p) all ≡ all) }
{}
