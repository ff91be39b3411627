//! That the links of a game are caught up, of which nobody is given up.

ghost use Rattle.std.specs.Prelude.{◌≡◌, ◌≢◌, ◌<◌, ◌≤◌, ◌+◌, ◌*◌, ℕ, ℤ, Bool, false, true, List, Option, Some, IfSome, length};
ghost use Rattle.dn_tic.specs.declared.{command.Move.Move, input.Input.Input};
ghost use Rattle.dn_setup.specs.Settings.{Settings};
ghost use Rattle.dn_machine.specs.{declared.answers.{Made.Made, Ran.Ran, Phase.TheVariants.Playing}, Limits.Limits, Node.put, Running.on_quit, Sending.lag, Started.started_node};
ghost use Rattle.dn_lockstep.specs.{Told.{Builds, got, made}, Marking.Marking, Sent.{IsFair, sent_to}, Represents.Represents, Steps.{Steps, Tells}};
ghost use Rattle.dn_survivor.specs.{OfOthers.nothing_kept, OneGame.Session};
ghost use Rattle.dn_open.specs.Sealed.{sealing_of};
ghost use Rattle.dn_seal.specs.declared.seal.Seal.{Seal};
ghost use Rattle.dn_link.specs.{CaughtUp.{Brings, HasExit, HasGrown, IsInStep, AreCaughtUp, IsInStepTo, StayCaughtUp, WasInStep, next_to}, Kept.{end_of, taken_by}, Reading.IsDatagramOf};
ghost use Rattle.dn_link.specs.{declared.{bundle.{Bundle.Bundle, Carried.Carried}, received.Received.Received}, RemainingLinks.{AreRemainingLinks, IsGenuineIn}, Counting.{has_ended, has_of}, Linking.new_peer, Packets.own_in};
ghost use Rattle.dn_link.specs.{Rounds.{AreRounds, AreFairLines, Plays, Stretch}, Linked.{Gives, Linked, Receives, probe, probe_for, probed}, Pacing.PaceState, Surviving.RunsBut, Text.IsBundle};
ghost use Rattle.dn_link.specs.Pacing.{is_brief};

use crate::laws::bundles_are_read_back;
use crate::remaining::remaining_links_go_on;

/// New links of the same limits are caught up.
#[tactic(auto, using(crate::proofs::Relinking::new_whole, dn_lockstep::proofs::Shown::has))]
pub fn links_open_caught_up()
    ensures { (limits : Limits) (settings : Settings) (links : ℕ → Linked)
        → ((player : ℕ) → player < limits.players
        → Represents limits player (links player).node (started_node limits.players settings player))
        → ((player : ℕ) → player < limits.players → (links player).others ≡ nothing_kept)
        → ((player peer : ℕ) → player < limits.players → (links player).peers peer ≡ new_peer)
        → AreCaughtUp limits links }
{}

/// And so they stay after each call on one of them, as long as what it opens was sealed in this game before, in
/// step; what `Link::datagram` gives is in step, unless it comes too late, and so is what `Link::probe` gives.
pub fn links_stay_caught_up()
    ensures built { (marking : Marking) (limits : Limits) (settings : Settings) (session : Session) (links : ℕ → Linked)
        (player : ℕ) (new : Linked) (input : Input) (made : Made)
        → AreRemainingLinks marking limits settings session links → AreCaughtUp limits links → player < limits.players
        → Builds (links player).node new.node input made → new.others ≡ (links player).others
        → new.peers ≡ (links player).peers
        → StayCaughtUp limits links player new }
    ensures ran { (marking : Marking) (limits : Limits) (settings : Settings) (session : Session) (links : ℕ → Linked)
        (player : ℕ) (new : Linked) (marks : List ℤ) (ran : Ran) (row : Option (List (Option Move)))
        → AreRemainingLinks marking limits settings session links → AreCaughtUp limits links → player < limits.players
        → RunsBut marks (links player) new (λ answer told. (ran ≡ answer) × (row ≡ told))
        → new.others ≡ (links player).others → new.peers ≡ (links player).peers → StayCaughtUp limits links player new }
    ensures quit { (marking : Marking) (limits : Limits) (settings : Settings) (session : Session) (links : ℕ → Linked)
        (player : ℕ) (new : Linked) (quit : Bool)
        → AreRemainingLinks marking limits settings session links → AreCaughtUp limits links → player < limits.players
        → Steps (links player).node new.node (λ limits me m. on_quit m) (λ answer. quit ≡ answer)
        → new.others ≡ (links player).others → new.peers ≡ (links player).peers → StayCaughtUp limits links player new }
    ensures gave { (marking : Marking) (limits : Limits) (settings : Settings) (session : Session) (links : ℕ → Linked)
        (player to : ℕ) (seal : Seal) (pace : PaceState) (new : Linked) (bytes : List ℕ)
        → AreRemainingLinks marking limits settings session links → AreCaughtUp limits links
        → player < limits.players → to < limits.players → to ≢ player
        → Tells (links player).node (λ limits me m. IfSome (sent_to to limits me m).1 IsFair)
        → (has_ended (links to).node ≡ false
        → made (links player).node ≤ next_to (links player).node to + (links player).node.places)
        → Gives seal pace to (links player) new bytes
        → WasInStep seal limits (put links player new) bytes × StayCaughtUp limits links player new }
    ensures probed { (marking : Marking) (limits : Limits) (settings : Settings) (session : Session) (links : ℕ → Linked)
        (player to : ℕ) (seal : Seal) (pace : PaceState) (new : Linked) (bytes : List ℕ)
        → AreRemainingLinks marking limits settings session links → AreCaughtUp limits links → player < limits.players
        → IsBundle (probe pace (links player) to) → probe_for seal pace (links player) to ≡ Some bytes
        → new ≡ probed (links player) to
        → WasInStep seal limits (put links player new) bytes × StayCaughtUp limits links player new }
    ensures received { (marking : Marking) (limits : Limits) (settings : Settings) (session : Session) (links : ℕ → Linked)
        (player : ℕ) (seal : Seal) (bytes : List ℕ) (new : Linked) (answer : Received)
        → AreRemainingLinks marking limits settings session links → AreCaughtUp limits links → player < limits.players
        → IsGenuineIn seal session player bytes → IsInStepTo seal limits links player bytes
        → Receives seal bytes (links player) new answer
        → StayCaughtUp limits links player new }
    ensures kept { (marking : Marking) (limits : Limits) (settings : Settings) (session : Session) (links : ℕ → Linked)
        (player : ℕ) (new : Linked)
        → AreRemainingLinks marking limits settings session links → AreCaughtUp limits links → player < limits.players
        → new.node ≡ (links player).node → new.others.gone ≡ (links player).others.gone
        → new.peers ≡ (links player).peers
        → StayCaughtUp limits links player new }
{
    remaining_links_go_on();
}

/// So nothing of a peer that has not ended is lost or left out. A player has made at most two windows of
/// commands that the peer needs still; if the peer has no more of the player's commands than it was given, and
/// packets repeat none or no window fills what a node keeps, no datagram is a late one, however long none was
/// given; and of what is given to the peer, all is covered by what is kept for it then. After a datagram of a
/// player that has made at most twelve commands from where its next packet begins, the next one begins behind all of
/// these, or repeats the last; so it is with each further one, where few commands are made between any two.
pub fn caught_up_links_cover()
    ensures few { (marking : Marking) (limits : Limits) (settings : Settings) (session : Session) (links : ℕ → Linked)
        (player to : ℕ)
        → AreRemainingLinks marking limits settings session links → AreCaughtUp limits links
        → player < limits.players → to < limits.players → to ≢ player → has_ended (links to).node ≡ false
        → made (links player).node ≤ ((links player).peers to).kept.done + (limits.ahead + limits.ahead) }
    ensures in_time { (marking : Marking) (limits : Limits) (settings : Settings) (session : Session) (links : ℕ → Linked)
        (player to : ℕ)
        → AreRemainingLinks marking limits settings session links → AreCaughtUp limits links
        → player < limits.players → to < limits.players → to ≢ player
        → limits.ahead + limits.ahead + lag limits ≤ limits.places → has_ended (links to).node ≡ false
        → got (links to).node player ≤ next_to (links player).node to + lag limits
        → made (links player).node ≤ next_to (links player).node to + (links player).node.places }
    ensures covered { (marking : Marking) (limits : Limits) (settings : Settings) (session : Session) (links : ℕ → Linked)
        (player to : ℕ) (seal : Seal) (pace : PaceState) (new : Linked) (bytes : List ℕ)
        → AreRemainingLinks marking limits settings session links → AreCaughtUp limits links
        → player < limits.players → to < limits.players → to ≢ player → has_ended (links to).node ≡ false
        → made (links player).node ≤ next_to (links player).node to + (links player).node.places
        → (gives : Gives seal pace to (links player) new bytes) (packet : Carried)
        → taken_by ((links player).peers to).left gives.given ≡ Some packet
        → end_of packet ≤ (new.peers to).kept.covered }
    ensures sent { (marking : Marking) (limits : Limits) (settings : Settings) (session : Session) (links : ℕ → Linked)
        (player to : ℕ) (seal : Seal) (pace : PaceState) (new : Linked) (bytes : List ℕ)
        → AreRemainingLinks marking limits settings session links → AreCaughtUp limits links
        → player < limits.players → to < limits.players → to ≢ player → 12 ≤ limits.places
        → made (links player).node ≤ next_to (links player).node to + 12
        → (links player).node.phase ≡ Playing → Gives seal pace to (links player) new bytes
        → has_ended (links to).node ≡ false → made (links player).node ≤ next_to new.node to + lag limits }
{}

/// What arrives brings all. Whatever datagram of one that plays comes to a player that plays, whenever it
/// comes, and however many others did not, if it is no brief one: the player has then each command that its sender
/// had made when it gave the datagram. It has room for all; its sender had made at most twelve from the tic on from
/// which the peer is to be sent them. And where its sender has ended, whose window is eleven at most, the player
/// knows its end then.
pub fn links_bring_all()
    ensures given { (marking : Marking) (limits : Limits) (settings : Settings) (session : Session) (links : ℕ → Linked)
        (player to : ℕ) (seal : Seal) (pace : PaceState) (new : Linked) (bytes : List ℕ)
        → AreRemainingLinks marking limits settings session links → AreCaughtUp limits links
        → player < limits.players → to < limits.players → to ≢ player → 12 ≤ limits.places
        → made (links player).node ≤ next_to (links player).node to + 12
        → (links player).node.phase ≡ Playing
        → is_brief pace to ≡ false → (gives : Gives seal pace to (links player) new bytes)
        → Brings (made (links player).node) (put links player new) gives.bundle }
    ensures stay { (limits : Limits) (links later : ℕ → Linked) (bundle : Bundle) (count : ℕ)
        → HasGrown limits links later → IsInStep limits links bundle → Brings count links bundle
        → IsInStep limits later bundle × Brings count later bundle }
    ensures brought { (marking : Marking) (limits : Limits) (settings : Settings) (session : Session) (links : ℕ → Linked)
        (player : ℕ) (seal : Seal) (bytes : List ℕ) (new : Linked) (answer : Received) (bundle : Bundle) (count : ℕ)
        → AreRemainingLinks marking limits settings session links → AreCaughtUp limits links → player < limits.players
        → IsGenuineIn seal session player bytes → IsInStepTo seal limits links player bytes
        → Receives seal bytes (links player) new answer
        → IsDatagramOf (sealing_of seal player) bytes bundle → new.node.phase ≡ Playing
        → Brings count links bundle → count ≤ got new.node bundle.from }
    ensures exits { (marking : Marking) (limits : Limits) (settings : Settings) (session : Session) (links : ℕ → Linked)
        (player to : ℕ) (seal : Seal) (pace : PaceState) (new : Linked) (bytes : List ℕ)
        → AreRemainingLinks marking limits settings session links → AreCaughtUp limits links
        → player < limits.players → to < limits.players → to ≢ player → 12 ≤ limits.places → limits.ahead ≤ 11
        → made (links player).node ≤ next_to (links player).node to + 12
        → has_ended (links player).node ≡ true → has_ended (links to).node ≡ false
        → is_brief pace to ≡ false → (gives : Gives seal pace to (links player) new bytes)
        → HasExit player (made (links player).node) (own_in gives.bundle) }
    ensures learnt { (marking : Marking) (limits : Limits) (settings : Settings) (session : Session) (links : ℕ → Linked)
        (player : ℕ) (seal : Seal) (bytes : List ℕ) (new : Linked) (answer : Received) (bundle : Bundle) (end : ℕ)
        → AreRemainingLinks marking limits settings session links → AreCaughtUp limits links → player < limits.players
        → IsGenuineIn seal session player bytes → IsInStepTo seal limits links player bytes
        → Receives seal bytes (links player) new answer
        → IsDatagramOf (sealing_of seal player) bytes bundle → new.node.phase ≡ Playing
        → HasExit bundle.from end (own_in bundle) → end + 1 ≤ has_of new.node bundle.from }
{
    remaining_links_go_on();
    bundles_are_read_back();
}

/// A game goes on, and at full speed. Let the lines between any two who play let through one of the datagrams
/// of any k rounds, at most d rounds late; it does not matter which, nor what else comes, or comes again. Then
/// each player runs a tic more in each k + d rounds than all had run. And where k + d is at most the window,
/// after r rounds each has run at least r + 1 - (k + d) tics more than all had run at first. A round is a
/// player's own: one command is asked for, and later tics are run until one is waited for. From one datagram that a
/// player gives another to the next it makes eleven commands at most; so a round may go by without one. Others may have
/// left before, if who plays knows their ends at first, or the lines from them do the same.
pub fn links_run_on()
    ensures goes_on { (marking : Marking) (limits : Limits) (settings : Settings) (last : ℕ)
        (stretch : Stretch marking limits settings last) (count : ℕ) (rounds : AreRounds stretch count) (seal : Seal)
        (k d first tics round least : ℕ) → 8 ≤ length seal.game → 12 ≤ limits.places → 1 ≤ limits.ahead → 1 ≤ k
        → AreFairLines rounds seal k d → 1 ≤ tics → first + (k + d) * tics ≡ round + 1 → round < count
        → ((player : ℕ) → Plays stretch player → least ≤ (stretch.links (rounds.built first player) player).node.ran)
        → (player : ℕ) → Plays stretch player
        → least + tics ≤ (stretch.links (rounds.waited round player) player).node.ran }
    ensures full_speed { (marking : Marking) (limits : Limits) (settings : Settings) (last : ℕ)
        (stretch : Stretch marking limits settings last) (count : ℕ) (rounds : AreRounds stretch count) (seal : Seal)
        (k d round least : ℕ) → 8 ≤ length seal.game → 12 ≤ limits.places → 1 ≤ limits.ahead → 1 ≤ k
        → AreFairLines rounds seal k d → k + d ≤ limits.ahead → round < count
        → ((player : ℕ) → Plays stretch player → least ≤ (stretch.links (rounds.built 0 player) player).node.ran)
        → (player : ℕ) → Plays stretch player
        → least + (round + 2) ≤ (stretch.links (rounds.waited round player) player).node.ran + (k + d) }
{
    links_bring_all();
}
