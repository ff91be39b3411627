//! What a ring keeps of a whole list of commands.

ghost use Rattle.std.specs.Prelude.{◌≡◌, ◌<◌, ◌≤◌, ◌+◌, ℕ, List, [], ◌∷◌, ◌++◌, length, drop, None, slice_get};
ghost use Rattle.dn_tic.specs.declared.command.TicCmd.{TicCmd};
ghost use Rattle.dn_ring.specs.Ring.{empty, put, get, since, ring_of};

/// One more command is one more of the list; the command of a tic, and the commands from a tic on, are those
/// of the list, but for tics that lie further behind than there are places.
#[tactic(auto, using(crate::proofs::Slots::kept_of_lists))]
pub fn rings_keep_the_last()
    ensures none { (places : ℕ) → empty ≡ ring_of places [] }
    ensures more { (places : ℕ) (commands : List TicCmd) (command : TicCmd)
        → put places (ring_of places commands) command ≡ ring_of places (commands ++ command ∷ []) }
    ensures kept { (places : ℕ) (commands : List TicCmd) (tic : ℕ) → length commands ≤ tic + places
        → get places (ring_of places commands) tic ≡ slice_get commands tic }
    ensures from { (places : ℕ) (commands : List TicCmd) (tic : ℕ) → length commands ≤ tic + places
        → since (ring_of places commands) tic ≡ drop tic commands }
    ensures gone { (places : ℕ) (commands : List TicCmd) (tic : ℕ) → tic + places < length commands
        → get places (ring_of places commands) tic ≡ None }
{}
