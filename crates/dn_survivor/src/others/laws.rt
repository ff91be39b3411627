//! What is kept of the others is enough for the decisions of `dn_remain::vanish`.

ghost use Rattle.std.specs.{Prelude.◌≡◌, Prelude.◌≢◌, Prelude.◌<◌, Prelude.◌≤◌, Prelude.◌+◌, Prelude.◌-◌, Prelude.◌++◌, Prelude.ℕ, Prelude.Bool, Prelude.true, Prelude.false, Prelude.not};
ghost use Rattle.std.specs.{Prelude.if◌then◌else◌, Prelude.List, Prelude.None, Prelude.Some, Prelude.Option, Prelude.length, Prelude.drop, Prelude.max, Prelude.slice_set, Option.option_map};
ghost use Rattle.std.specs.{Option.unwrap_or};
ghost use Rattle.dn_tic.specs.declared.command.TicCmd.{TicCmd};
ghost use Rattle.dn_machine.specs.{Node.put, Promise.IsPrefixOf};
ghost use Rattle.dn_survivor.specs.declared.report.Report.{Report};
ghost use Rattle.dn_remain.specs.{Vanished.Node.Node, Vanished.Calls.can_decide, Vanished.Calls.is_heard, Vanished.Calls.is_newer, Vanished.Commands.Holder, Vanished.Commands.fresh_holder, Vanished.Commands.seen};
ghost use Rattle.dn_remain.specs.{Vanished.Commands.on_decision, Vanished.Node.decided_end};
ghost use Rattle.dn_survivor.specs.{declared.others.hearing.Reported.TheVariants.Kept, declared.others.hearing.Reported.TheVariants.GivenUp, declared.others.hearing.Reported.TheVariants.Excluded};
ghost use Rattle.dn_survivor.specs.{declared.others.hearing.Reported.TheVariants.Stale, declared.others.Others.Others, OfOthers.commands_of, OfOthers.first_of, OfOthers.has, OfOthers.nodes_of};
ghost use Rattle.dn_survivor.specs.OfOthers.{nothing_kept, own_of, told_of, reported_as, with_newest, AreWithin, Tells};
ghost use Rattle.dn_survivor.specs.OfOthers.{Represents};

/// The calls keep it so: what is kept at first represents what the node knows, and so it does after a player
/// was given up, and after a report came that is kept.
#[tactic(auto, using(crate::proofs::OfOthers::first, crate::proofs::OfOthers::given_up, crate::proofs::OfOthers::heard))]
pub fn calls_represent()
    ensures first { (players places me : ℕ) → players ≤ 4
        → Represents players places me nothing_kept (λ player. false) (λ player. None) }
    ensures given_up { (players places me player : ℕ) (others : Others) (gone : ℕ → Bool)
        (newest : ℕ → Option (Holder TicCmd))
        → Represents players places me others gone newest → player < 4
        → Represents players places me (record others { gone = slice_set others.gone player true })
        (put gone player true) newest }
    ensures heard { (players places me from : ℕ) (others : Others) (gone : ℕ → Bool)
        (newest : ℕ → Option (Holder TicCmd)) (holder : Holder TicCmd) (report : Report)
        → Represents players places me others gone newest
        → from < 4 → Tells players places me from holder report
        → Represents players places me (with_newest others from report) gone (put newest from (Some holder)) }
{}

/// The tests of what is kept answer as those of the reports themselves: whether a report of a player is there,
/// whether all are, and what becomes of one that comes.
pub fn tests_agree()
    ensures heard { (players places me player : ℕ) (others : Others) (gone : ℕ → Bool)
        (newest : ℕ → Option (Holder TicCmd)) (node : Node) (got : ℕ → ℕ)
        → Represents players places me others gone newest
        → ((other : ℕ) → other < players → node.gone other ≡ gone other) → player < players
        → is_heard players me (own_of others got) (nodes_of others) player
        ≡ is_heard players me node (λ other. option_map seen (newest other)) player }
    ensures decide { (players places me : ℕ) (others : Others) (gone : ℕ → Bool)
        (newest : ℕ → Option (Holder TicCmd)) (node : Node) (got : ℕ → ℕ)
        → Represents players places me others gone newest
        → ((player : ℕ) → player < players → node.gone player ≡ gone player)
        → can_decide players me (own_of others got) (nodes_of others)
        ≡ can_decide players me node (λ player. option_map seen (newest player)) }
    ensures reported { (players places me from : ℕ) (others : Others) (gone : ℕ → Bool)
        (newest : ℕ → Option (Holder TicCmd)) (holder : Holder TicCmd) (report : Report)
        → Represents players places me others gone newest → me < players → from < players
        → Tells players places me from holder report
        → reported_as players me others from report
        ≡ (if gone from then GivenUp else (
        if holder.gone me then Excluded else (
        if not (is_newer players (option_map seen (newest from)) (seen holder)) then Stale else Kept))) }
{}

/// The end of a player who is given up is that of the decision on the reports themselves.
pub fn ends_agree()
    ensures { (players places me player : ℕ) (others : Others) (holder : Holder TicCmd)
        (newest : ℕ → Option (Holder TicCmd))
        → Represents players places me others holder.gone newest
        → player < players → player ≢ me → holder.gone player ≡ true
        → decided_end players me (own_of others (λ other. length (holder.held player))) (told_of others) player
        ≡ length ((on_decision players me holder
        (λ other. unwrap_or (newest other) fresh_holder)).held player) }
{}

/// And the kept commands are enough: they begin no later than a node's own list ends; this list, with what it
/// lacks of them, is the list that was decided on; and where that has more than the node has, they reach its
/// end. All lists of the player are prefixes of what it made, and none that was told is further ahead of the
/// node's own than commands are kept.
pub fn commands_suffice()
    ensures { (players places me player : ℕ) (others : Others) (holder : Holder TicCmd)
        (newest : ℕ → Option (Holder TicCmd)) (made own decided : List TicCmd) (first : ℕ)
        → Represents players places me others holder.gone newest
        → player < players → me < players → player ≢ me → holder.gone player ≡ true
        → AreWithin players places me player holder newest made
        → own ≡ holder.held player
        → decided ≡ (on_decision players me holder (λ other. unwrap_or (newest other) fresh_holder)).held player
        → first ≡ first_of players me others player
        → (first ≤ length own)
        × (own ++ drop (length own - first) (commands_of players me others player) ≡ decided)
        × (length decided ≡ max (length own) (first + length (commands_of players me others player))) }
{}

/// Nothing is left of what was told by one who is given up: whatever its newest report, the same reports are
/// missing, and each player has the same end and the same commands.
pub fn lies_are_undone()
    ensures { (players me liar player own : ℕ) (others told : Others) (report : Option Report)
        → has others.gone liar ≡ true
        → told ≡ record others { newest = slice_set others.newest liar report }
        → (can_decide players me (own_of told (λ other. own)) (nodes_of told)
        ≡ can_decide players me (own_of others (λ other. own)) (nodes_of others))
        × (decided_end players me (own_of told (λ other. own)) (told_of told) player
        ≡ decided_end players me (own_of others (λ other. own)) (told_of others) player)
        × (commands_of players me told player ≡ commands_of players me others player)
        × (first_of players me told player ≡ first_of players me others player) }
{}
