//! What is kept for a peer has what the peer needs; and a peer is to be sent commands from where those end
//! that are kept for it, or from earlier on.

ghost use Rattle.std.specs.{Prelude.{◌≡◌, ◌≢◌, ◌<◌, ◌≤◌, ◌⊎◌, ◌+◌, ℕ, ℤ, Bool, List, Option, Some, ◌↔◌, true, length, map}, List.flat_map};
ghost use Rattle.dn_tic.specs.declared.{command.Move.Move, input.Input.Input};
ghost use Rattle.dn_link.specs.Pacing.{is_brief};
ghost use Rattle.std.specs.Prelude.{false};
ghost use Rattle.dn_packet.specs.Read.{AreBytes};
ghost use Rattle.dn_setup.specs.Settings.{Settings};
ghost use Rattle.dn_machine.specs.{declared.answers.{Made.Made, Ran.Ran}, Sending.on_build, Started.started_node, Limits.Limits, Running.on_quit};
ghost use Rattle.dn_lockstep.specs.{Represents.Represents, Steps.Steps, Told.made};
ghost use Rattle.dn_seal.specs.declared.seal.Seal.{Seal};
ghost use Rattle.dn_link.specs.{Kept.{end_of, taken_by, Reaches, IsCovering, IsKeptRising, Unacknowledged, has_tic}, declared.{bundle.Carried.Carried, received.Received.Received, link.Link.Link}};
ghost use Rattle.dn_link.specs.{Linked.{Gives, Linked, Receives}, Linking.{new_peer, linked}, CaughtUp.{AsksWithin, GoesOn, IsInTime, StillGoesOn}, Pacing.PaceState, Surviving.RunsBut};
ghost use Rattle.dn_link.specs.Packets.{opened_from, packets_of};
ghost use Rattle.dn_link.specs.Packing.{parts_room};

use dn_packet::every_datagram_is_read;
use dn_setup::every_packet_is_told;

/// The packets that any link keeps for a peer have each command from the first that the peer still needs to the
/// last that they cover. And a datagram that is no brief one carries all of these, unless it has no room for some:
/// then it has twenty-four parts, or these have more than 998 bytes, counted as if their commands stood whole.
/// What they cover reaches the end of a packet that is given exactly if it did before, or if the packet begins there
/// or before and fewer than twenty-four are kept. Each kept packet ends past those before it, so no more are
/// kept than commands are covered that the peer still needs.
pub fn kept_covers()
    ensures covers { (link : Link) (peer : ℕ) → IsCovering ((linked link).peers peer).kept }
    ensures rising { (link : Link) (peer : ℕ) → IsKeptRising ((linked link).peers peer).kept }
    ensures few { (kept : Unacknowledged) → IsKeptRising kept → kept.done + length kept.packets ≤ kept.covered }
    ensures carried { (seal : Seal) (pace : PaceState) (to : ℕ) (old new : Linked) (bytes : List ℕ)
        (gives : Gives seal pace to old new bytes) → is_brief pace to ≡ false
        → IsCovering (old.peers to).kept → length gives.own < 24 → parts_room gives.own ≤ 998
        → (packets : List Carried) × (flat_map (packets_of gives.bundle.from) gives.own
        ≡ map (opened_from old.node.me) packets)
        × ((tic : ℕ) → (old.peers to).kept.done ≤ tic → tic < (new.peers to).kept.covered
        → has_tic tic packets ≡ true) }
    ensures reaches { (seal : Seal) (pace : PaceState) (to : ℕ) (old new : Linked) (bytes : List ℕ)
        (gives : Gives seal pace to old new bytes) (packet : Carried)
        → taken_by (old.peers to).left gives.given ≡ Some packet
        → (end_of packet ≤ (new.peers to).kept.covered) ↔ Reaches (old.peers to).kept packet }
{}

/// The tic from which a peer is to be sent commands is not past those that are covered for it: at the start;
/// after every call on the link but `receive`, `give_up` and a datagram to this peer; after any bytes came in,
/// unless the peer asks for a later command than are covered when not all are; and after a datagram to this
/// peer, unless it comes too late. If it does not, the packet that it gives is then covered. It comes too late
/// if more commands were made from that tic on than the node keeps, or more than twenty-four that the peer has
/// not acknowledged. While nobody is given up, the links of one game are caught up: then a peer asks for no
/// commands again, and has acknowledged all but two windows of them, which are twenty-four at most. So
/// `caught_up_links_cover` (`covered`) needs neither premise, but only that no more commands were made than the
/// node keeps. Of giving a player up for good nothing is said here.
#[tactic(auto, using(crate::proofs::Requests::received, crate::proofs::Following::builds, crate::proofs::Following::covers, crate::proofs::Following::gives_another, crate::proofs::Following::quits, crate::proofs::Following::runs))]
pub fn given_is_covered()
    ensures opened { (limits : Limits) (settings : Settings) (me to : ℕ) (link : Linked)
        → me < limits.players → to < limits.players → Represents limits me link.node (started_node limits.players settings me)
        → link.peers to ≡ new_peer → GoesOn limits me to link }
    ensures built { (limits : Limits) (me to : ℕ) (old new : Linked) (input : Input) (made : Made)
        → GoesOn limits me to old
        → Steps old.node new.node (λ limits me m. on_build limits me m input) (λ answer. made ≡ answer)
        → new.peers ≡ old.peers → StillGoesOn limits me to old new }
    ensures ran { (limits : Limits) (me to : ℕ) (old new : Linked) (marks : List ℤ) (ran : Ran)
        (row : Option (List (Option Move))) → GoesOn limits me to old
        → RunsBut marks old new (λ answer told. (ran ≡ answer) × (row ≡ told))
        → new.peers ≡ old.peers → StillGoesOn limits me to old new }
    ensures quit { (limits : Limits) (me to : ℕ) (old new : Linked) (quit : Bool) → GoesOn limits me to old
        → Steps old.node new.node (λ limits me m. on_quit m) (λ answer. quit ≡ answer)
        → new.peers ≡ old.peers → StillGoesOn limits me to old new }
    ensures received { (limits : Limits) (me to : ℕ) (seal : Seal) (bytes : List ℕ) (old new : Linked)
        (answer : Received) → GoesOn limits me to old → AreBytes bytes
        → Receives seal bytes old new answer
        → (made old.node ≤ (new.peers to).kept.covered) ⊎ AsksWithin seal me to (new.peers to).kept.covered bytes
        → StillGoesOn limits me to old new }
    ensures gave_another { (limits : Limits) (me to other : ℕ) (seal : Seal) (pace : PaceState)
        (old new : Linked) (bytes : List ℕ) → other ≢ to → GoesOn limits me to old
        → Gives seal pace other old new bytes → StillGoesOn limits me to old new }
    ensures gave { (limits : Limits) (me to : ℕ) (seal : Seal) (pace : PaceState)
        (old new : Linked) (bytes : List ℕ) → GoesOn limits me to old → IsInTime to old
        → Gives seal pace to old new bytes → StillGoesOn limits me to old new }
    ensures covered { (limits : Limits) (me to : ℕ) (seal : Seal) (pace : PaceState)
        (old new : Linked) (bytes : List ℕ) → GoesOn limits me to old → IsInTime to old
        → (gives : Gives seal pace to old new bytes) (packet : Carried)
        → taken_by (old.peers to).left gives.given ≡ Some packet
        → end_of packet ≤ (new.peers to).kept.covered }
{
    every_datagram_is_read();
    every_packet_is_told();
}
