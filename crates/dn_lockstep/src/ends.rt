//! What holds of the ends that a lockstep is told.

ghost use Rattle.std.specs.{Prelude.◌≡◌, Prelude.◌≤◌, Prelude.◌+◌, Prelude.◌++◌, Prelude.◌||◌, Prelude.ℕ, Prelude.Bool, Prelude.List, Prelude.Some, Prelude.false, Prelude.length, Prelude.drop};
ghost use Rattle.std.specs.{Prelude.if◌then◌else◌, List.list_any};
ghost use Rattle.dn_tic.specs.declared.command.TicCmd.{TicCmd};
ghost use Rattle.dn_machine.specs.{Limits.Limits, Node.ends_of, Node.got, Node.is_ended, Node.ran, Settling.settled_one, Settling.settled_to};
ghost use Rattle.dn_machine.specs.Node as machine;
ghost use Rattle.dn_lockstep.specs.{Phases.is_listening, Tables.is_stop, Settling.is_no_peer, Settling.is_other_end, Settling.on_settle};
ghost use Rattle.dn_lockstep.specs.declared.lockstep.settling.Settled.TheVariants as Settled;

/// The last of a player's commands are enough: a node that has the first of them, and is told the others from a
/// tic on that is not past the first that is missing, then has all, and knows the end.
#[tactic(auto, using(crate::proofs::Wholes::no_gap, crate::proofs::Wholes::rest_missing, crate::proofs::Wholes::settles))]
pub fn last_commands_settle()
    ensures { (limits : Limits) (me player first : ℕ) (m : machine.Node) (rest : List TicCmd)
        → let all = m.held player ++ rest in first ≤ got m player
        → is_no_peer limits.players me player ≡ false → (is_listening m.phase || is_ended m.phase) ≡ false
        → length all ≤ ran m + limits.places → list_any is_stop rest ≡ false
        → is_other_end (ran m) (ends_of m player) (length all) ≡ false
        → on_settle limits me m player (length all) first (drop first all)
        ≡ (settled_one m player all, Settled.Taken (length rest)) }
{}

/// Ends that are taken for one player after another are taken for all at once: each player who is given up has
/// the commands that were told and an end behind the last of them, nothing more is wanted of the player, and
/// nothing else changes.
#[tactic(auto, using(crate::proofs::Wholes::in_turn))]
pub fn ends_settle_in_turn()
    ensures { (players : ℕ) (m : machine.Node) (gone : ℕ → Bool) (commands : ℕ → List TicCmd)
        → ((player : ℕ) → players ≤ player → gone player ≡ false)
        → settled_to players gone commands m ≡ record m {
          held = λ p. if gone p then commands p else m.held p;
          peers = λ p. if gone p
              then record (m.peers p) { end = Some (length (commands p)); want = false }
              else m.peers p;
        } }
{}
