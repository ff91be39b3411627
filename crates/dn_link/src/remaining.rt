//! What holds of links of which players may be given up.

ghost use Rattle.dn_setup.specs.Settings.{IsSettings, Settings};
ghost use Rattle.dn_machine.specs.{Started.started_node, declared.answers.{Made.Made, Ran.Ran}, Flight.Flight, Limits.{Limits, IsWindow}, Running.{is_over, on_quit}, Sparing.on_run_but};
ghost use Rattle.dn_lockstep.specs.{declared.config.Config.Config, Opening.{CanBeAhead, IsGame, limits_within}, Told.{Builds, got, made}, Contents.end_in, Marking.Marking, Sent.{IsFair, sent_to}, OneGame.world_told, Represents.Represents, Steps.{RunsBy, Steps, Tells}};
ghost use Rattle.dn_survivor.specs.{OneGame.{started_session, Session, after_build, after_run, with_survivor}, OfOthers.nothing_kept, Agreed.{AreAgreedInPairs, FitInPairs, DemosAgreeInPairs}};
ghost use Rattle.dn_survivor.specs.declared.answers.GivenUp.{GivenUp};
ghost use Rattle.std.specs.Prelude.{◌≡◌, ◌≢◌, ◌<◌, ◌≤◌, ℕ, ℤ, pos, Bool, true, false, List, [], get_or, slice_index, Option, Some, IfSome, Err};
ghost use Rattle.dn_tic.specs.declared.{command.Move.Move, input.Input.Input};
ghost use Rattle.dn_seal.specs.declared.seal.Seal.{Seal};
ghost use Rattle.dn_open.specs.Sealed.{sealing_of};
ghost use Rattle.dn_link.specs.{Linked.{Gives, Linked, Receives, certain, has_given_up, may_leave, probed, remains, surviving_of}, declared.{bundle.{Bundle.Bundle, BundleFault.BundleFault}, received.Received.Received}};
ghost use Rattle.dn_link.specs.{RemainingLinks.{AreRemainingLinks, HeadersAgree, IsGenuineIn, IsLater, after_datagram, StayRemaining, WasSealedIn}, Counting.{counts_of, has_ended}, Linking.new_peer, Pacing.PaceState, Reading.IsBundledAs};
ghost use Rattle.dn_link.specs.{Surviving.GivesUpPeer, Text.{IsBundle, sealed_bytes}};

use dn_lockstep::windows_hold;
use dn_survivor::{remaining_game_starts, survivors_agree};

/// New links of the same limits, one for each player, which play with these settings from the beginning on, are
/// those of one game in which players may be given up. Each premise is what `Link::new` says of one of them, by
/// its clauses `opened`, `others` and `peers`, and of the limits `links_have_windows` and `new`'s `admitted`.
#[tactic(auto, using(crate::proofs::Knowing::new_told, crate::proofs::Relinking::new_started))]
pub fn remaining_links_start()
    ensures { (marking : Marking) (limits : Limits) (settings : Settings) (links : ℕ → Linked)
        → IsWindow limits → IsGame limits.players → limits.places ≤ 24 → IsSettings settings
        → ((player : ℕ) → player < limits.players
        → Represents limits player (links player).node (started_node limits.players settings player))
        → ((p : ℕ) → p < limits.players → (links p).others ≡ nothing_kept)
        → ((player peer : ℕ) → player < limits.players → (links player).peers peer ≡ new_peer)
        → AreRemainingLinks marking limits settings
        (started_session limits.players settings (λ player. surviving_of (links player))) links }
{
    remaining_game_starts();
}

/// The limits of a link are those that `remaining_links_start` asks for, where `Link::new` admits the window: a node
/// may lack twice as many commands as one may be ahead, and at most twenty-four of each player are kept, for which a
/// report has room.
pub fn links_have_windows()
    ensures { (config : Config) (ahead : ℕ) → CanBeAhead ahead
        → IsWindow (limits_within config ahead) × ((limits_within config ahead).places ≤ 24) }
{
    windows_hold();
}

/// And so they stay after each call on one of them, whatever bytes come in, as long as what it opens was sealed
/// in this game before: what `Link::datagram`, `Link::probe` and `Link::exclusion_datagram` give was. At a run
/// the caller hands in the marks of a world that moved on by the rows that it was told, of the players who take
/// part in the tic. Whom a link gives up, and when, is not asked. `built` is of `build`, `give` and `catch_up`,
/// `gave` of `datagram`, whose clauses `fair` and `gives` it asks for, `probed` of `probe`, `received` of
/// `receive`, and `kept` of a call that changes nothing.
pub fn remaining_links_go_on()
    ensures built { (marking : Marking) (limits : Limits) (settings : Settings) (session : Session) (links : ℕ → Linked)
        (player : ℕ) (new : Linked) (input : Input) (made : Made)
        → AreRemainingLinks marking limits settings session links → player < limits.players
        → Builds (links player).node new.node input made
        → new.others ≡ (links player).others → new.peers ≡ (links player).peers
        → StayRemaining marking limits settings session links player new
        (after_build session player input made (surviving_of new)) }
    ensures ran { (marking : Marking) (limits : Limits) (settings : Settings) (session : Session) (links : ℕ → Linked)
        (player : ℕ) (new : Linked) (marks : List ℤ) (ran : Ran) (row : Option (List (Option Move)))
        → AreRemainingLinks marking limits settings session links → player < limits.players
        → ((tic : ℕ) (other : ℕ) → ran ≡ Ran.Ran tic → other < limits.players
        → is_over (end_in (links player).node other) (links player).node.ran ≡ false
        → get_or marks other (pos 0) ≡ marking (world_told limits settings (session.told player)) other)
        → RunsBy marks (links player).node new.node
        (λ limits m marks. on_run_but limits (has_given_up (links player)) m marks)
        (λ answer told. (ran ≡ answer) × (row ≡ told))
        → new.others ≡ (links player).others → new.peers ≡ (links player).peers
        → StayRemaining marking limits settings session links player new
        (after_run session player row (surviving_of new)) }
    ensures quit { (marking : Marking) (limits : Limits) (settings : Settings) (session : Session) (links : ℕ → Linked)
        (player : ℕ) (new : Linked) (quit : Bool)
        → AreRemainingLinks marking limits settings session links → player < limits.players
        → Steps (links player).node new.node (λ limits me m. on_quit m) (λ answer. quit ≡ answer)
        → new.others ≡ (links player).others → new.peers ≡ (links player).peers
        → StayRemaining marking limits settings session links player new
        (with_survivor session player (surviving_of new)) }
    ensures gave_up { (marking : Marking) (limits : Limits) (settings : Settings) (session : Session) (links : ℕ → Linked)
        (here player : ℕ) (new : Linked) (answer : GivenUp)
        → AreRemainingLinks marking limits settings session links → here < limits.players
        → GivesUpPeer player (links here) new answer
        → StayRemaining marking limits settings session links here new
        (with_survivor session here (surviving_of new)) }
    ensures gave { (marking : Marking) (limits : Limits) (settings : Settings) (session : Session) (links : ℕ → Linked)
        (player to : ℕ) (seal : Seal) (pace : PaceState) (new : Linked) (bytes : List ℕ)
        → AreRemainingLinks marking limits settings session links → player < limits.players
        → remains (links player) to ≡ true
        → Tells (links player).node (λ limits me m. IfSome (sent_to to limits me m).1 IsFair)
        → (gives : Gives seal pace to (links player) new bytes)
        → (packet : Option Flight)
        × WasSealedIn seal (after_datagram session player to packet gives) bytes
        × StayRemaining marking limits settings session links player new
        (after_datagram session player to packet gives) }
    ensures probed { (marking : Marking) (limits : Limits) (settings : Settings) (session : Session) (links : ℕ → Linked)
        (player to : ℕ) (new : Linked)
        → AreRemainingLinks marking limits settings session links → player < limits.players
        → new ≡ probed (links player) to
        → StayRemaining marking limits settings session links player new
        (with_survivor session player (surviving_of new)) }
    ensures received { (marking : Marking) (limits : Limits) (settings : Settings) (session : Session) (links : ℕ → Linked)
        (player : ℕ) (seal : Seal) (bytes : List ℕ) (new : Linked) (answer : Received)
        → AreRemainingLinks marking limits settings session links → player < limits.players
        → IsGenuineIn seal session player bytes → Receives seal bytes (links player) new answer
        → StayRemaining marking limits settings session links player new
        (with_survivor session player (surviving_of new)) }
    ensures kept { (marking : Marking) (limits : Limits) (settings : Settings) (session : Session) (links : ℕ → Linked)
        (player : ℕ) (new : Linked)
        → AreRemainingLinks marking limits settings session links → player < limits.players
        → new ≡ links player
        → StayRemaining marking limits settings session links player new
        (with_survivor session player (surviving_of new)) }
{}

/// What was sealed in such a game may come to any link of it at any later time, and so may bytes that a link
/// refuses, and a datagram without packets and report by which a link tells how far it is, as a probe is one and an
/// exclusion. So whoever hands in nothing but these keeps what `remaining_links_go_on` asks of bytes that come in.
pub fn remaining_bytes_are_genuine()
    ensures stay { (seal : Seal) (session later : Session) (bytes : List ℕ) → IsLater session later
        → WasSealedIn seal session bytes → WasSealedIn seal later bytes }
    ensures empty { (marking : Marking) (limits : Limits) (settings : Settings) (session : Session) (links : ℕ → Linked)
        (player : ℕ) (seal : Seal) (bundle : Bundle) (echo : ℕ)
        → AreRemainingLinks marking limits settings session links → player < limits.players → IsBundle bundle
        → bundle.from ≡ (links player).node.me → bundle.counts ≡ counts_of (links player).node echo
        → bundle.parts.items ≡ [] → bundle.report.items ≡ [] → WasSealedIn seal session (sealed_bytes seal bundle) }
    ensures genuine { (seal : Seal) (session : Session) (player : ℕ) (bytes : List ℕ)
        → WasSealedIn seal session bytes → IsGenuineIn seal session player bytes }
    ensures refused { (seal : Seal) (session : Session) (player : ℕ) (bytes : List ℕ) (fault : BundleFault)
        → IsBundledAs (sealing_of seal player) bytes (Err fault) → IsGenuineIn seal session player bytes }
{}

/// The survivors of such links agree, in all that `survivors_agree` says: any two players of whom neither has
/// given up the other were told the same rows and know the same ends, any two at all used the same move of
/// every player that both have, of their demos one is a prefix of the other, and no check failed. The headers of any
/// two demos differ in the view alone; and the end that one knows of a player whom it has not given up is how many
/// commands that player made.
pub fn remaining_links_agree()
    ensures agreed { (marking : Marking) (limits : Limits) (settings : Settings) (session : Session) (links : ℕ → Linked)
        → AreRemainingLinks marking limits settings session links → AreAgreedInPairs limits settings session }
    ensures fit { (marking : Marking) (limits : Limits) (settings : Settings) (session : Session) (links : ℕ → Linked)
        → AreRemainingLinks marking limits settings session links → FitInPairs limits session }
    ensures demos { (marking : Marking) (limits : Limits) (settings : Settings) (session : Session) (links : ℕ → Linked)
        → AreRemainingLinks marking limits settings session links
        → DemosAgreeInPairs limits.players settings session }
    ensures headers { (marking : Marking) (limits : Limits) (settings : Settings) (session : Session) (links : ℕ → Linked)
        → AreRemainingLinks marking limits settings session links → HeadersAgree limits.players session.survivors }
    ensures ends { (marking : Marking) (limits : Limits) (settings : Settings) (session : Session) (links : ℕ → Linked)
        (q p end : ℕ) → AreRemainingLinks marking limits settings session links → q < limits.players
        → p < limits.players → has_given_up (links q) p ≡ false → end_in (links q).node p ≡ Some end
        → (end_in (links p).node p ≡ Some end) × (end ≡ made (links p).node) }
{
    survivors_agree();
}

/// What a link takes as acknowledged by a player who has not given up its own is there: that player has at least so
/// many commands of this one, who has made them.
pub fn acknowledged_is_there()
    ensures { (marking : Marking) (limits : Limits) (settings : Settings) (session : Session) (links : ℕ → Linked)
        (player other : ℕ)
        → AreRemainingLinks marking limits settings session links → player < limits.players
        → other < limits.players → other ≢ player → has_given_up (links other) player ≡ false
        → certain (links player).node (slice_index ((links player).peers other).reported (links player).node.me)
        ≤ got (links other).node player }
{
    survivors_agree();
}

/// Who may leave is needed by nobody who plays on, of those whom it has not given up, whoever else is given up: each
/// such player whose lockstep has not ended has all commands of this one, and knows its end, unless it has given up
/// this one.
pub fn leaving_is_safe()
    ensures { (marking : Marking) (limits : Limits) (settings : Settings) (session : Session) (links : ℕ → Linked)
        (player other : ℕ)
        → AreRemainingLinks marking limits settings session links → player < limits.players
        → other < limits.players → other ≢ player → has_given_up (links player) other ≡ false
        → may_leave (links player) ≡ true → has_ended (links other).node ≡ false
        → (got (links other).node player ≡ made (links player).node)
        × (has_given_up (links other) player ≡ false
        → end_in (links other).node player ≡ Some (made (links player).node)) }
{
    survivors_agree();
}
