//! What the time of a key is.

ghost use Rattle.std.specs.Prelude.{◌≡◌, List};
ghost use Rattle.dn_measure.specs.{declared.measure.Told.Told, Told.keys_of, Told.builds_of, Told.runs_of, Told.times_from, Told.IsInOrder};

/// Where each run tells of a command that was built, and never more than twelve wait, each run took the time
/// from when its own command was built: the first from the first, the second from the second, and so on.
#[tactic(auto, using(crate::proofs::Telling::timed_in_order))]
pub fn keys_are_timed_in_order()
    ensures { (told : List Told) → IsInOrder 0 told
        → (keys_of told).times ≡ times_from (builds_of told) (runs_of told) }
{}
